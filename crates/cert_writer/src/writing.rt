//! Writing a certificate.
#![tactic(auto, using(crate::proofs::Appends::appending))]

ghost use Rattle.std.specs.Prelude.{◌≡◌, ◌<◌, ◌++◌, ◌∷◌, [], IfOk, OnOk, All, map, length, codes};
ghost use Rattle.std.specs.Fmt.{decimal};
ghost use Rattle.std.specs.List.{flat_map};
ghost use Rattle.std.specs.String.{string_bytes};
ghost use Rattle.cost.specs.Distances.{distance_text};
ghost use Rattle.cert_text.specs.Spelling as text;
ghost use Rattle.cert_text.specs.Pieces.{joined};
ghost use Rattle.abstraction_mapping.specs.Views.{mapping_of};
ghost use Rattle.abstraction_domain.specs.Rows.{classes_in};
ghost use Rattle.cert_value.specs.Views as view;

use abstraction_domain::ClassRow;
use abstraction_mapping::Mapping;
use cert_value::{
    AbstractionTable, AtomVariable, Certificate, CertificateKind, ClosedList, Share, Values,
    Version,
};
use cost::Dist;
use itoa::Buffer;
use std::alloc::{AllocError, Global};

fn push_number(out: &mut Vec<u8>, number: u64) -> Result<(), AllocError>
    ensures { OnOk result (out.new.items ≡ out.old.items ++ decimal number) }
{
    let mut buffer = Buffer::new();
    out.extend_from_slice(buffer.format(number).as_bytes())
}

fn push_distance(out: &mut Vec<u8>, distance: Dist) -> Result<(), AllocError>
    ensures { OnOk result (out.new.items ≡ out.old.items ++ distance_text distance) }
{
    match distance.get() {
        Some(number) => push_number(out, number),
        None => out.extend_from_slice(b"inf"),
    }
}

/// Appends a keyword and a number.
fn push_count(out: &mut Vec<u8>, keyword: &[u8], count: usize) -> Result<(), AllocError>
    ensures { OnOk result (out.new.items ≡ out.old.items ++ (keyword.now ++ 32 ∷ decimal count)) }
{
    out.extend_from_slice(keyword)?;
    out.push(b' ')?;
    push_number(out, count as u64)
}

/// Appends a line of a keyword and a number.
fn push_count_line(out: &mut Vec<u8>, keyword: &[u8], count: usize) -> Result<(), AllocError>
    ensures { OnOk result (out.new.items ≡ out.old.items ++ text.line_text (text.counted keyword.now count [])) }
{
    push_count(out, keyword, count)?;
    out.push(b'\n')?;
    Ok(())
}

/// Appends numbers, each after a blank.
fn push_numbers(out: &mut Vec<u8>, numbers: &[u32]) -> Result<(), AllocError>
    ensures { OnOk result (out.new.items ≡ out.old.items ++ flat_map (λ q. 32 ∷ q) (map decimal numbers.now)) }
{
    for number in numbers {
        out.push(b' ')?;
        push_number(out, u64::from(*number))?;
    }
    Ok(())
}

/// Appends words, each after a blank.
fn push_words(out: &mut Vec<u8>, words: &[String]) -> Result<(), AllocError>
    ensures { OnOk result (out.new.items ≡ out.old.items ++ flat_map (λ q. 32 ∷ q) (map string_bytes words.now)) }
{
    for word in words {
        out.push(b' ')?;
        out.extend_from_slice(word.as_bytes())?;
    }
    Ok(())
}

/// Appends words with blanks between them.
fn push_joined(out: &mut Vec<u8>, words: &[String]) -> Result<(), AllocError>
    ensures { OnOk result (out.new.items ≡ out.old.items ++ joined 32 (map string_bytes words.now)) }
{
    match words {
        [] => Ok(()),
        [first, others @ ..] => {
            out.extend_from_slice(first.as_bytes())?;
            push_words(out, others)
        }
    }
}

fn push_atom(out: &mut Vec<u8>, atom: &[String]) -> Result<(), AllocError>
    ensures { OnOk result (out.new.items ≡ out.old.items ++ text.line_text (map string_bytes atom.now)) }
{
    push_joined(out, atom)?;
    out.push(b'\n')?;
    Ok(())
}

fn push_atoms(out: &mut Vec<u8>, atoms: &[Vec<String>]) -> Result<(), AllocError>
    ensures { OnOk result (out.new.items ≡ out.old.items ++ text.text_of (map view.atom_of atoms.now)) }
{
    for atom in atoms {
        push_atom(out, atom)?;
    }
    Ok(())
}

fn push_variable(out: &mut Vec<u8>, variable: &AtomVariable) -> Result<(), AllocError>
    ensures { OnOk result (out.new.items ≡ out.old.items ++ text.line_text (text.variable_line (view.variable_of variable.now))) }
{
    if variable.has_none_value {
        push_count(out, b"1", variable.atoms.len())?;
    } else {
        push_count(out, b"0", variable.atoms.len())?;
    }
    push_numbers(out, &variable.atoms)?;
    out.push(b'\n')?;
    Ok(())
}

fn push_variables(out: &mut Vec<u8>, variables: &[AtomVariable]) -> Result<(), AllocError>
    ensures { OnOk result (out.new.items ≡ out.old.items ++ text.text_of (map text.variable_line (map view.variable_of variables.now))) }
{
    for variable in variables {
        push_variable(out, variable)?;
    }
    Ok(())
}

/// Appends the line of the classes of a row.
fn push_classes(out: &mut Vec<u8>, row: &ClassRow) -> Result<(), AllocError>
    ensures { OnOk result (out.new.items ≡ out.old.items ++ text.line_text (text.classes_line row.now.classes)) }
{
    let classes = row.classes();
    push_number(out, classes.len() as u64)?;
    push_numbers(out, classes)?;
    out.push(b'\n')?;
    Ok(())
}

fn push_all_classes(out: &mut Vec<u8>, rows: &[ClassRow]) -> Result<(), AllocError>
    ensures { OnOk result (out.new.items ≡ out.old.items ++ text.text_of (map text.classes_line (classes_in rows.now))) }
{
    for row in rows {
        push_classes(out, row)?;
    }
    Ok(())
}

/// Appends the lines of the classes of all variables, if there are any.
fn push_class_lines(out: &mut Vec<u8>, rows: &[ClassRow]) -> Result<(), AllocError>
    ensures { OnOk result (out.new.items ≡ out.old.items ++ text.text_of (text.classes_lines (classes_in rows.now))) }
{
    match rows {
        [] => Ok(()),
        [_, ..] => {
            push_count_line(out, b"classes", rows.len())?;
            push_all_classes(out, rows)
        }
    }
}

/// Appends the line of a row: its variable, and the line of its classes.
fn push_row(out: &mut Vec<u8>, row: &ClassRow) -> Result<(), AllocError>
    ensures { OnOk result (out.new.items ≡ out.old.items ++ text.line_text (text.row_line row.now)) }
{
    push_number(out, row.variable() as u64)?;
    out.push(b' ')?;
    push_classes(out, row)
}

fn push_rows(out: &mut Vec<u8>, rows: &[ClassRow]) -> Result<(), AllocError>
    ensures { OnOk result (out.new.items ≡ out.old.items ++ text.text_of (map text.row_line rows.now)) }
{
    for row in rows {
        push_row(out, row)?;
    }
    Ok(())
}

fn push_pattern(out: &mut Vec<u8>, pattern: &[u32]) -> Result<(), AllocError>
    ensures { OnOk result (out.new.items ≡ out.old.items ++ text.line_text (text.pattern_line pattern.now)) }
{
    push_count(out, b"table", pattern.len())?;
    push_numbers(out, pattern)?;
    out.push(b'\n')?;
    Ok(())
}

/// Appends the lines of the mapping of a table.
fn push_mapping(out: &mut Vec<u8>, mapping: &Mapping) -> Result<(), AllocError>
    ensures { OnOk result (out.new.items ≡ out.old.items ++ text.text_of (text.mapping_lines (mapping_of mapping.now))) }
{
    match mapping {
        Mapping::Pattern(pattern) => push_pattern(out, pattern),
        Mapping::Domains(rows) => {
            push_count_line(out, b"domain", rows.len())?;
            push_rows(out, rows)
        }
    }
}

fn push_shares(out: &mut Vec<u8>, shares: &[Share]) -> Result<(), AllocError>
    ensures { OnOk result (out.new.items ≡ out.old.items ++ flat_map (λ q. 32 ∷ q) (flat_map text.share_words shares.now)) }
{
    for share in shares {
        out.push(b' ')?;
        push_number(out, u64::from(share.operator))?;
        out.push(b' ')?;
        push_number(out, u64::from(share.amount))?;
    }
    Ok(())
}

fn push_values(out: &mut Vec<u8>, values: &Values) -> Result<(), AllocError>
    ensures { OnOk result (out.new.items ≡ out.old.items ++ flat_map (λ q. 32 ∷ q) (map distance_text values.now)) }
{
    for state in 0..values.len() {
        out.push(b' ')?;
        push_distance(out, values.get(state))?;
    }
    Ok(())
}

fn push_table(out: &mut Vec<u8>, table: &AbstractionTable) -> Result<(), AllocError>
    ensures { OnOk result (out.new.items ≡ out.old.items ++ text.text_of (text.table_lines (view.table_of table.now))) }
{
    push_mapping(out, &table.mapping)?;
    push_count(out, b"shares", table.shares.len())?;
    push_shares(out, &table.shares)?;
    out.push(b'\n')?;
    push_count(out, b"values", table.values.len())?;
    push_values(out, &table.values)?;
    out.push(b'\n')?;
    Ok(())
}

fn push_tables(out: &mut Vec<u8>, tables: &[AbstractionTable]) -> Result<(), AllocError>
    ensures { OnOk result (out.new.items ≡ out.old.items ++ text.text_of (flat_map text.table_lines (map view.table_of tables.now))) }
{
    for table in tables {
        push_table(out, table)?;
    }
    Ok(())
}

fn push_column(out: &mut Vec<u8>, column: &[AbstractionTable]) -> Result<(), AllocError>
    ensures { OnOk result (out.new.items ≡ out.old.items ++ text.text_of (text.column_lines (map view.table_of column.now))) }
{
    push_count_line(out, b"column", column.len())?;
    push_tables(out, column)?;
    Ok(())
}

fn push_columns(out: &mut Vec<u8>, columns: &[Vec<AbstractionTable>]) -> Result<(), AllocError>
    ensures { OnOk result (out.new.items ≡ out.old.items ++ text.text_of (flat_map text.column_lines (view.columns_of columns.now))) }
{
    for column in columns {
        push_column(out, column)?;
    }
    Ok(())
}

/// Appends the lines of all columns.
fn push_all_columns(out: &mut Vec<u8>, columns: &[Vec<AbstractionTable>]) -> Result<(), AllocError>
    ensures { OnOk result (out.new.items ≡ out.old.items ++ text.text_of (text.columns_lines (view.columns_of columns.now))) }
{
    push_count_line(out, b"columns", columns.len())?;
    push_columns(out, columns)?;
    Ok(())
}

/// Appends the lines of the states. `state` is a buffer for the values of one state.
fn push_states(out: &mut Vec<u8>, closed: &ClosedList, state: &mut [u32]) -> Result<(), AllocError>
    requires { All (λ e. length e.state ≡ length state.old) closed.now }
    ensures { OnOk result (out.new.items ≡ out.old.items ++ text.text_of (map text.entry_line closed.now)) }
{
    for index in 0..closed.len() {
        push_number(out, closed.cost(index))?;
        closed.copy_state(index, state);
        push_numbers(out, state)?;
        out.push(b'\n')?;
    }
    Ok(())
}

/// Appends the lines of the closed list.
fn push_closed(alloc: Global, out: &mut Vec<u8>, closed: &ClosedList) -> Result<(), AllocError>
    ensures { OnOk result (out.new.items ≡ out.old.items ++ text.text_of (text.closed_lines closed.now)) }
{
    push_count_line(out, b"closed", closed.len())?;
    let mut state = closed.buffer(alloc)?;
    push_states(out, closed, &mut state)?;
    Ok(())
}

fn push_parts(out: &mut Vec<u8>, kind: &CertificateKind) -> Result<(), AllocError>
    ensures { OnOk result (out.new.items ≡ out.old.items ++ text.text_of (text.kind_lines (view.kind_of kind.now))) }
{
    match kind {
        CertificateKind::Sas => {}
        CertificateKind::Pddl(parts) => {
            push_count_line(out, b"atoms", parts.atoms.len())?;
            push_atoms(out, &parts.atoms)?;
            push_count_line(out, b"vars", parts.variables.len())?;
            push_variables(out, &parts.variables)?;
        }
    }
    Ok(())
}

/// Appends the first line, which states the version.
fn push_version(out: &mut Vec<u8>, version: Version) -> Result<(), AllocError>
    ensures { OnOk result (out.new.items ≡ out.old.items ++ text.line_text (codes "optplan-cert" ∷ text.version_text version ∷ [])) }
{
    match version {
        Version::One => out.extend_from_slice(b"optplan-cert 1\n"),
        Version::Two => out.extend_from_slice(b"optplan-cert 2\n"),
        Version::Three => out.extend_from_slice(b"optplan-cert 3\n"),
    }
}

/// Appends the second line, which states the kind of task.
fn push_kind(out: &mut Vec<u8>, kind: &CertificateKind) -> Result<(), AllocError>
    ensures { OnOk result (out.new.items ≡ out.old.items ++ text.line_text (text.kind_line (view.kind_of kind.now))) }
{
    match kind {
        CertificateKind::Sas => out.extend_from_slice(b"sas\n"),
        CertificateKind::Pddl(_) => out.extend_from_slice(b"pddl\n"),
    }
}

/// Appends the third line, which states the bound.
fn push_bound(out: &mut Vec<u8>, bound: Dist) -> Result<(), AllocError>
    ensures { OnOk result (out.new.items ≡ out.old.items ++ text.line_text (codes "bound" ∷ distance_text bound ∷ [])) }
{
    out.extend_from_slice(b"bound ")?;
    push_distance(out, bound)?;
    out.push(b'\n')?;
    Ok(())
}

/// Returns the text of a certificate.
///
/// `read_cert` reads the text of a lawful certificate back, if it has at most `MAX_LENGTH` bytes.
pub fn write_cert(alloc: Global, certificate: &Certificate) -> Result<Vec<u8>, AllocError>
    ensures { IfOk result (λ bytes. bytes.items ≡ text.spelling certificate.now) }
{
    let mut out = Vec::new(alloc);
    push_version(&mut out, certificate.version())?;
    push_kind(&mut out, certificate.kind())?;
    push_bound(&mut out, certificate.bound())?;
    push_parts(&mut out, certificate.kind())?;
    push_class_lines(&mut out, certificate.classes())?;
    push_all_columns(&mut out, certificate.columns())?;
    push_closed(alloc, &mut out, certificate.closed())?;
    out.extend_from_slice(b"end\n")?;
    Ok(out)
}
