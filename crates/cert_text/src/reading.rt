//! Reading a certificate.

ghost use Rattle.std.specs.Prelude.{◌≡◌, ◌<◌, ◌≤◌, ◌^◌, IfOk, Ok, length, map};
ghost use Rattle.std.specs.List.{range_with_len};
ghost use Rattle.abstraction_domain.specs.Domains.{variables};
ghost use Rattle.cert_value.specs.Certificates.{CertificateValue};
ghost use Rattle.cert_text.specs.Spelling.{spelling};
ghost use Rattle.cert_value.specs.Lawful.{IsLawful};
ghost use Rattle.cert_text.specs.Reading.{Gives, header_at, kind_at, bound_of, atoms_at, variables_at, parts_at, all_classes_at, classes_at, rows_at, mapping_at, table_at, column_at, columns_at, closed_at, end_at, certificate_at, certificate_of};
ghost use Rattle.cert_text.specs.Pieces.{pieces};
ghost use Rattle.cert_text.specs.Cursors.{remaining};
ghost use Rattle.abstraction_mapping.specs.Views.{mapping_of};
ghost use Rattle.abstraction_domain.specs.Rows.{classes_in};
ghost use Rattle.cert_value.specs.Classes.{AreRowsOf};
ghost use Rattle.cert_value.specs.Views as view;

use crate::fault::CertFault;
use crate::forms::{count_line, fixed_line, second_word};
use crate::lines::Lines;
use crate::numbers::{distance_within, number_within};
use crate::parts::{
    SHORT, atom_words, entry_line, is_domain, pattern_line, row_line, shares_class, shares_line,
    sharing_line, values_line, variable_line,
};
use abstraction_domain::ClassRow;
use abstraction_mapping::Mapping;
use cert_value::{
    AbstractionTable, AtomParts, AtomVariable, Certificate, CertificateKind, ClosedList, Version,
};
use cost::Dist;
use std::alloc::Global;

/// The greatest number of bytes of a text, 2^30.
pub const MAX_LENGTH: usize = 1_073_741_824;

#[tactic(auto, unfolding(crate::specs::Reading::header_at))]
fn header(lines: Lines<'_>) -> Result<(Version, Lines<'_>), CertFault>
    ensures { Gives (λ x. (x.0, remaining x.1)) result (header_at (remaining lines.entry)) }
{
    let (line, rest) = lines.first()?;
    if line == b"optplan-cert 1".as_slice() {
        Ok((Version::One, rest))
    } else if line == b"optplan-cert 2".as_slice() {
        Ok((Version::Two, rest))
    } else if line == b"optplan-cert 3".as_slice() {
        Ok((Version::Three, rest))
    } else {
        Err(CertFault::Header)
    }
}

/// Reads the kind; the flag says whether the certificate is for a planning task.
#[tactic(auto, unfolding(crate::specs::Reading::kind_at))]
fn kind(lines: Lines<'_>) -> Result<(bool, Lines<'_>), CertFault>
    ensures { Gives (λ x. (x.0, remaining x.1)) result (kind_at (remaining lines.entry)) }
{
    let (line, rest) = lines.first()?;
    if line == b"pddl".as_slice() {
        Ok((true, rest))
    } else if line == b"sas".as_slice() {
        Ok((false, rest))
    } else {
        Err(CertFault::Expected(lines.number))
    }
}

#[tactic(auto, unfolding(crate::specs::Reading::bound_of))]
fn bound_line(line: &[u8], number: usize) -> Result<Dist, CertFault>
    ensures { Gives (λ x. x) result (bound_of number (pieces 32 line.now)) }
{
    let word = second_word(line, b"bound", number)?;
    match distance_within(word, (1 << 62) + 1) {
        Some(bound) => Ok(bound),
        None => Err(CertFault::Number(number)),
    }
}

#[tactic(auto, using(crate::proofs::Repeating::looping), unfolding(crate::specs::Reading::atoms_at, crate::specs::Reading::atom_at))]
fn atoms(alloc: Global, lines: Lines<'_>) -> Result<(Vec<Vec<String>>, Lines<'_>), CertFault>
    ensures atoms { Gives (λ x. (map view.atom_of x.0.items, remaining x.1)) result (atoms_at (remaining lines.entry)) }
    ensures few { IfOk result (λ x. length x.0.items < 2 ^ 32) }
{
    let (count, first) = count_line(lines, b"atoms", 0, SHORT)?;
    let mut next = first;
    let mut atoms = Vec::new(alloc);
    for _ in 0..count {
        let (line, rest) = next.first()?;
        atoms.push(atom_words(alloc, line, next.number)?)?;
        next = rest;
    }
    Ok((atoms, next))
}

#[tactic(auto, using(crate::proofs::Repeating::looping), unfolding(crate::specs::Reading::variables_at, crate::specs::Reading::variable_at))]
fn variables(
    alloc: Global,
    atoms: u64,
    lines: Lines<'_>,
) -> Result<(Vec<AtomVariable>, Lines<'_>), CertFault>
    requires { atoms < 2 ^ 32 }
    ensures { Gives (λ x. (map view.variable_of x.0.items, remaining x.1)) result (variables_at atoms (remaining lines.entry)) }
{
    let (count, first) = count_line(lines, b"vars", 0, SHORT)?;
    let mut next = first;
    let mut variables = Vec::new(alloc);
    for _ in 0..count {
        let (line, rest) = next.first()?;
        variables.push(variable_line(alloc, line, atoms, next.number)?)?;
        next = rest;
    }
    Ok((variables, next))
}

#[tactic(auto, unfolding(crate::specs::Reading::parts_at))]
fn parts(
    alloc: Global,
    planning: bool,
    lines: Lines<'_>,
) -> Result<(CertificateKind, Lines<'_>), CertFault>
    ensures { Gives (λ x. (view.kind_of x.0, remaining x.1)) result (parts_at planning (remaining lines.entry)) }
{
    if !planning {
        return Ok((CertificateKind::Sas, lines));
    }
    let (atoms, lines) = atoms(alloc, lines)?;
    let (variables, lines) = variables(alloc, atoms.len() as u64, lines)?;
    Ok((CertificateKind::Pddl(AtomParts { atoms, variables }), lines))
}

/// Reads the classes of the values of all variables.
#[tactic(auto, using(crate::proofs::Repeating::looping), unfolding(crate::specs::Reading::all_classes_at, crate::specs::Reading::classes_step, crate::specs::Reading::sharing_at))]
fn all_classes(alloc: Global, lines: Lines<'_>) -> Result<(Vec<ClassRow>, Lines<'_>), CertFault>
    ensures classes { Gives (λ x. (classes_in x.0.items, remaining x.1)) result (all_classes_at (remaining lines.entry)) }
    ensures variables { IfOk result (λ x. variables x.0.items ≡ range_with_len 0 (length x.0.items)) }
    ensures some { IfOk result (λ x. 0 < length x.0.items) }
{
    let (count, first) = count_line(lines, b"classes", 1, SHORT)?;
    let mut next = first;
    let mut rows = Vec::new(alloc);
    let mut shared = false;
    for variable in 0..count {
        let (line, rest) = next.first()?;
        let must = !shared && variable + 1 == count;
        let row = sharing_line(alloc, line, variable as usize, must, next.number)?;
        shared = shared || shares_class(&row);
        rows.push(row)?;
        next = rest;
    }
    Ok((rows, next))
}

/// Reads the classes of the values of all variables, if the version has them.
#[tactic(auto, unfolding(crate::specs::Reading::classes_at))]
fn classes(
    alloc: Global,
    version: Version,
    lines: Lines<'_>,
) -> Result<(Vec<ClassRow>, Lines<'_>), CertFault>
    ensures classes { Gives (λ x. (classes_in x.0.items, remaining x.1)) result (classes_at version (remaining lines.entry)) }
    ensures rows { IfOk result (λ x. AreRowsOf version x.0.items) }
{
    match version {
        Version::One | Version::Two => Ok((Vec::new(alloc), lines)),
        Version::Three => all_classes(alloc, lines),
    }
}

/// Reads the rows of a domain abstraction, as many as its first line states. `number` is the number of that line, and
/// `lines` are those after it.
#[tactic(auto, using(crate::proofs::Repeating::looping), unfolding(crate::specs::Reading::rows_at, crate::specs::Reading::row_step, crate::specs::Reading::row_at))]
fn rows<'a>(
    alloc: Global,
    line: &[u8],
    number: usize,
    lines: Lines<'a>,
) -> Result<(Vec<ClassRow>, Lines<'a>), CertFault>
    ensures { Gives (λ x. (x.0.items, remaining x.1)) result (rows_at number (pieces 32 line.now) (remaining lines.entry)) }
{
    let word = second_word(line, b"domain", number)?;
    let Some(count) = number_within(word, 1, SHORT) else {
        return Err(CertFault::Number(number));
    };
    let mut next = lines;
    let mut rows = Vec::new(alloc);
    let mut least = 0u64;
    for _ in 0..count {
        let (line, rest) = next.first()?;
        let row = row_line(alloc, line, least, next.number)?;
        least = row.variable() as u64 + 1;
        rows.push(row)?;
        next = rest;
    }
    Ok((rows, next))
}

/// Reads the mapping of a table.
#[tactic(auto, unfolding(crate::specs::Reading::mapping_at, crate::specs::Reading::mapping_behind))]
fn mapping(
    alloc: Global,
    version: Version,
    lines: Lines<'_>,
) -> Result<(Mapping, Lines<'_>), CertFault>
    ensures { Gives (λ x. (mapping_of x.0, remaining x.1)) result (mapping_at version (remaining lines.entry)) }
{
    let (line, rest) = lines.first()?;
    if is_domain(version, line) {
        let (rows, rest) = rows(alloc, line, lines.number, rest)?;
        Ok((Mapping::Domains(rows), rest))
    } else {
        let pattern = pattern_line(alloc, line, lines.number)?;
        Ok((Mapping::Pattern(pattern), rest))
    }
}

#[tactic(auto, unfolding(crate::specs::Reading::table_at))]
fn table(
    alloc: Global,
    version: Version,
    lines: Lines<'_>,
) -> Result<(AbstractionTable, Lines<'_>), CertFault>
    ensures { Gives (λ x. (view.table_of x.0, remaining x.1)) result (table_at version (remaining lines.entry)) }
{
    let (mapping, second) = mapping(alloc, version, lines)?;
    let (line, third) = second.first()?;
    let shares = shares_line(alloc, line, second.number)?;
    let (line, rest) = third.first()?;
    let values = values_line(alloc, line, third.number)?;
    Ok((
        AbstractionTable {
            mapping,
            shares,
            values,
        },
        rest,
    ))
}

#[tactic(auto, using(crate::proofs::Repeating::looping), unfolding(crate::specs::Reading::column_at))]
fn column(
    alloc: Global,
    version: Version,
    lines: Lines<'_>,
) -> Result<(Vec<AbstractionTable>, Lines<'_>), CertFault>
    ensures { Gives (λ x. (view.column_of x.0, remaining x.1)) result (column_at version (remaining lines.entry)) }
{
    let (count, first) = count_line(lines, b"column", 1, 65)?;
    let mut next = first;
    let mut tables = Vec::new(alloc);
    for _ in 0..count {
        let (table, rest) = table(alloc, version, next)?;
        tables.push(table)?;
        next = rest;
    }
    Ok((tables, next))
}

#[tactic(auto, using(crate::proofs::Repeating::looping), unfolding(crate::specs::Reading::columns_at))]
fn columns(
    alloc: Global,
    version: Version,
    lines: Lines<'_>,
) -> Result<(Vec<Vec<AbstractionTable>>, Lines<'_>), CertFault>
    ensures { Gives (λ x. (view.columns_of x.0.items, remaining x.1)) result (columns_at version (remaining lines.entry)) }
{
    let (count, first) = count_line(lines, b"columns", 0, 65)?;
    let mut next = first;
    let mut columns = Vec::new(alloc);
    for _ in 0..count {
        let (column, rest) = column(alloc, version, next)?;
        columns.push(column)?;
        next = rest;
    }
    Ok((columns, next))
}

#[tactic(auto, using(crate::proofs::Repeating::looping), unfolding(crate::specs::Reading::closed_at, crate::specs::Reading::entry_step, crate::specs::Reading::entry_at))]
fn closed(alloc: Global, lines: Lines<'_>) -> Result<(ClosedList, Lines<'_>), CertFault>
    ensures { Gives (λ x. (x.0, remaining x.1)) result (closed_at (remaining lines.entry)) }
{
    let (count, first) = count_line(lines, b"closed", 0, SHORT)?;
    let mut next = first;
    let mut closed = ClosedList::new(alloc);
    let mut state = Vec::new(alloc);
    for _ in 0..count {
        let (line, rest) = next.first()?;
        let cost = entry_line(line, closed.width(), next.number, &mut state)?;
        closed.push(cost, &state)?;
        next = rest;
    }
    Ok((closed, next))
}

#[tactic(auto, unfolding(crate::specs::Reading::end_at))]
fn end(lines: Lines<'_>) -> Result<(), CertFault>
    ensures { Gives (λ _. tt) result (end_at (remaining lines.entry)) }
{
    let rest = fixed_line(lines, b"end")?;
    if rest.is_empty() {
        Ok(())
    } else {
        Err(CertFault::Trailing(rest.number))
    }
}

/// Returns the certificate with these parts.
fn with_parts(
    version: Version,
    kind: CertificateKind,
    bound: Dist,
    classes: Vec<ClassRow>,
    columns: Vec<Vec<AbstractionTable>>,
    closed: ClosedList,
) -> Certificate
    requires { AreRowsOf version classes.items }
    ensures { result ≡ record { version = version; kind = view.kind_of kind; bound = bound; classes = classes_in classes.items; columns = view.columns_of columns.items; closed = closed } }
{
    match version {
        Version::One | Version::Two => Certificate::new(version, kind, bound, columns, closed),
        Version::Three => {
            Certificate::new(Version::Two, kind, bound, columns, closed).with_classes(classes)
        }
    }
}

#[tactic(auto, unfolding(crate::specs::Reading::certificate_at, crate::specs::Reading::bound_at))]
fn certificate(alloc: Global, lines: Lines<'_>) -> Result<Certificate, CertFault>
    ensures { Gives (λ c. c) result (certificate_at (remaining lines.entry)) }
{
    let (version, lines) = header(lines)?;
    let (planning, lines) = kind(lines)?;
    let (line, rest) = lines.first()?;
    let bound = bound_line(line, lines.number)?;
    let (kind, lines) = parts(alloc, planning, rest)?;
    let (classes, lines) = classes(alloc, version, lines)?;
    let (columns, lines) = columns(alloc, version, lines)?;
    let (closed, lines) = closed(alloc, lines)?;
    end(lines)?;
    Ok(with_parts(version, kind, bound, classes, columns, closed))
}

/// Reads the certificate that the text spells. Fails with the first fault of the text, as `CertFault` orders them, or
/// if allocation fails.
///
/// The text is read line by line. Time and memory are linear in the lines that exist, whatever their counts state.
pub fn read_cert(alloc: Global, bytes: &[u8]) -> Result<Certificate, CertFault>
    // The result is what the text spells.
    ensures found { IfOk result (λ c. IsLawful c × (bytes.now ≡ spelling c)) }
    // A text that spells a certificate is read, unless allocation fails.
    ensures only { (c : CertificateValue) → IsLawful c → bytes.now ≡ spelling c → length bytes.now ≤ 2 ^ 30 → Gives (λ x. x) result (Ok c) }
    // An error is the first fault of the text, or that allocation failed.
    ensures fault { Gives (λ x. x) result (certificate_of bytes.now) }
{
    if bytes.len() > MAX_LENGTH {
        return Err(CertFault::TooLong);
    }
    certificate(alloc, Lines::new(bytes))
}
