//! The values of certificates.

ghost use Rattle.std.specs.Prelude.{◌≡◌, ◌<◌, nat_lt, false, [], length};
ghost use Rattle.std.specs.List.{range_with_len};
ghost use Rattle.abstraction_domain.specs.Domains.{variables};

use crate::closed::ClosedList;
use crate::table::AbstractionTable;
use abstraction_domain::ClassRow;
use cost::Dist;
use std::marker::Model;

/// Atoms of a planning task that make up one variable.
#[derive(Drop)]
pub struct AtomVariable {
    /// Whether the variable has the none value, at which none of its atoms is true.
    pub has_none_value: bool,
    /// The atoms, by their indices in the list of atoms. They are strictly increasing in a lawful certificate.
    pub atoms: Vec<u32>,
}

/// The atoms and variables of the translation that a certificate for a planning task refers to.
#[derive(Drop)]
pub struct AtomParts {
    /// The atoms, each as the name of a predicate followed by its arguments.
    pub atoms: Vec<Vec<String>>,
    /// The variables over these atoms.
    pub variables: Vec<AtomVariable>,
}

/// The kind of task that a certificate is for.
#[derive(Drop)]
pub enum CertificateKind {
    /// A finite-domain task.
    Sas,
    /// A planning task.
    Pddl(AtomParts),
}

/// The version of a certificate's text.
#[derive(Clone, Copy, Debug, PartialEq, Eq)]
pub enum Version {
    /// Each table is a pattern database.
    One,
    /// A table may be one of a domain abstraction.
    Two,
    /// The same as version 2, for the task that classes of values reduce.
    Three,
}

/// A certificate of a lower bound on the cost of every plan. Its columns are cost-partitioned tables (Seipp, Keller and
/// Helmert 2020). A certificate has classes exactly if it is of version 3. The type does not say that the certificate
/// is correct. In contracts its value is a `CertificateValue`.
#[derive(Drop)]
pub struct Certificate {
    version: Version,
    kind: CertificateKind,
    bound: Dist,
    /// The classes of the values of each variable of the task, in the order of the variables.
    classes: Vec<ClassRow>,
    columns: Vec<Vec<AbstractionTable>>,
    closed: ClosedList,
}

impl Model for Certificate {
    ghost use Rattle.std.specs.Prelude.{map};
    ghost use Rattle.cert_value.specs.Certificates.{CertificateValue};
    ghost use Rattle.abstraction_domain.specs.Rows.{classes_in};
    ghost use Rattle.cert_value.specs.Classes.{AreRowsOf};
    ghost use Rattle.cert_value.specs.Views.{kind_of, columns_of};

    ghost Value = { CertificateValue };

    ghost view = { λ c. record { version = c.version; kind = kind_of c.kind; bound = c.bound; classes = classes_in c.classes.items; columns = columns_of c.columns.items; closed = c.closed } };

    ghost invariant = { λ c. AreRowsOf c.version c.classes.items };
}

impl Certificate {
    ghost use Rattle.abstraction_domain.specs.Rows.{classes_in};
    ghost use Rattle.cert_value.specs.Classes.{has_classes};
    ghost use Rattle.cert_value.specs.Views.{kind_of, columns_of};

    /// Returns the certificate with these parts, without classes, so not of version 3.
    pub fn new(
        version: Version,
        kind: CertificateKind,
        bound: Dist,
        columns: Vec<Vec<AbstractionTable>>,
        closed: ClosedList,
    ) -> Certificate
        requires { has_classes version ≡ false }
        ensures { result ≡ record { version = version; kind = kind_of kind; bound = bound; classes = []; columns = columns_of columns.items; closed = closed } }
    {
        let classes = Vec::new(*columns.allocator());
        Certificate {
            version,
            kind,
            bound,
            classes,
            columns,
            closed,
        }
    }

    /// Returns the certificate of version 3 with these classes and the other parts of this certificate: a row for each
    /// variable of the task, in the order of the variables.
    pub fn with_classes(self, classes: Vec<ClassRow>) -> Certificate
        requires some { 0 < length classes.items }
        requires variables { variables classes.items ≡ range_with_len 0 (length classes.items) }
        ensures { result ≡ record self { version = Version.Three; classes = classes_in classes.items } }
    {
        Certificate {
            version: Version::Three,
            classes,
            ..self
        }
    }

    /// Takes the certificate apart into kind, bound, columns and closed list. `new` makes a certificate of such parts.
    pub fn into_parts(
        self,
    ) -> (
        CertificateKind,
        Dist,
        Vec<Vec<AbstractionTable>>,
        ClosedList,
    )
        ensures kind { kind_of result.0 ≡ self.kind }
        ensures bound { result.1 ≡ self.bound }
        ensures columns { columns_of result.2.items ≡ self.columns }
        ensures closed { result.3 ≡ self.closed }
    {
        (self.kind, self.bound, self.columns, self.closed)
    }

    /// Returns the version.
    pub fn version(&self) -> Version
        ensures { result ≡ self.now.version }
    {
        self.version
    }

    /// Returns the same certificate with another version: versions 1 and 2 differ in nothing else.
    pub fn with_version(self, version: Version) -> Certificate
        requires { has_classes version ≡ has_classes self.version }
        ensures { result ≡ record self { version = version } }
    {
        Certificate { version, ..self }
    }

    /// Returns the kind of task that the certificate is for.
    pub fn kind(&self) -> &CertificateKind
        ensures { kind_of result.now ≡ self.now.kind }
    {
        &self.kind
    }

    /// Returns the bound. The certificate claims that every plan costs at least this much, or, if it is infinite, that
    /// there is no plan.
    pub fn bound(&self) -> Dist
        ensures { result ≡ self.now.bound }
    {
        self.bound
    }

    /// Returns the classes of the values of each variable of the task, in the order of the variables: no row if the
    /// version is not 3.
    pub fn classes(&self) -> &[ClassRow]
        ensures classes { classes_in result.now ≡ self.now.classes }
        ensures variables { variables result.now ≡ range_with_len 0 (length result.now) }
        ensures some { nat_lt 0 (length result.now) ≡ has_classes self.now.version }
    {
        &self.classes
    }

    /// Returns the columns of tables.
    pub fn columns(&self) -> &[Vec<AbstractionTable>]
        ensures { columns_of result.now ≡ self.now.columns }
    {
        &self.columns
    }

    /// Returns the closed list.
    pub fn closed(&self) -> &ClosedList
        ensures { result.now ≡ self.now.closed }
    {
        &self.closed
    }
}
