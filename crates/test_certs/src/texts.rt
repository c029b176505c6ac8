//! The text of a certificate.

ghost use Rattle.std.specs.Prelude.{◌≡◌, false};
ghost use Rattle.cert_value.specs.Classes.{has_classes};

use abstraction_domain::ClassRow;
use abstraction_mapping::Mapping;
use cert_text::{CertFault, MAX_LENGTH, read_cert};
use cert_value::{
    AbstractionTable, Certificate, CertificateKind, ClosedList, Share, Values, Version,
};
use cert_writer::write_cert;
use cost::Dist;
use std::alloc::{AllocError, Global};
use std::process::Abort;

const CLOSED_STATES: &[u8] =
    b"optplan-cert 1\npddl\nbound 2\natoms 5\nat a\nat b\nat c\nroad a b\nroad b c\nvars 1\n0 3 0 1 2\ncolumns 0\nclosed 2\n0 0\n1 1\nend\n";

const ONE_TABLE: &[u8] =
    b"optplan-cert 1\npddl\nbound 2\natoms 5\nat a\nat b\nat c\nroad a b\nroad b c\nvars 1\n0 3 0 1 2\ncolumns 1\ncolumn 1\ntable 1 0\nshares 2 0 1 1 1\nvalues 3 2 1 0\nclosed 0\nend\n";

const FINITE_DOMAIN: &[u8] = b"optplan-cert 1\nsas\nbound 2\ncolumns 0\nclosed 2\n0 0\n1 1\nend\n";

const ONE_DOMAIN_TABLE: &[u8] =
    b"optplan-cert 2\npddl\nbound 4\natoms 6\nat a\nat b\nat c\nroad a b\nroad a c\nroad b c\nvars 1\n0 3 0 1 2\ncolumns 1\ncolumn 1\ndomain 1\n0 3 0 0 1\nshares 2 1 4 2 4\nvalues 2 4 0\nclosed 0\nend\n";

/// A pattern database and a table of a domain abstraction in one column.
const TWO_KINDS_OF_TABLE: &[u8] =
    b"optplan-cert 2\nsas\nbound 2\ncolumns 1\ncolumn 2\ntable 1 3\nshares 0\nvalues 1 0\ndomain 2\n3 2 0 0\n5 3 0 1 1\nshares 0\nvalues 2 0 inf\nclosed 0\nend\n";

/// Returns the text with a line replaced by other bytes.
fn with_line(alloc: Global, text: &[u8], place: usize, line: &[u8]) -> Result<Vec<u8>, AllocError> {
    let mut bytes = Vec::new(alloc);
    let mut at = 1;
    for byte in text {
        if at != place {
            bytes.push(*byte)?;
        }
        if *byte == b'\n' {
            if at == place {
                bytes.extend_from_slice(line)?;
                bytes.push(b'\n')?;
            }
            at = at.saturating_add(1);
        }
    }
    Ok(bytes)
}

fn fault_of(alloc: Global, text: &[u8]) -> Option<CertFault> {
    read_cert(alloc, text).err()
}

fn number_of_digits(digits: &[u8]) -> usize {
    let mut number = 0usize;
    for digit in digits {
        let digit = usize::from(digit.saturating_sub(b'0'));
        number = number.saturating_mul(10).saturating_add(digit);
    }
    number
}

/// Returns the fault for a letter and a line: E, N, O and C for `Expected`, `Number`, `Order` and `Classes`; `-` for
/// none.
fn wanted(fault: &[u8]) -> Option<CertFault> {
    match fault {
        [b'E', line @ ..] => Some(CertFault::Expected(number_of_digits(line))),
        [b'N', line @ ..] => Some(CertFault::Number(number_of_digits(line))),
        [b'O', line @ ..] => Some(CertFault::Order(number_of_digits(line))),
        [b'C', line @ ..] => Some(CertFault::Classes(number_of_digits(line))),
        [b'X', line @ ..] => Some(CertFault::Trailing(number_of_digits(line))),
        [b'H'] => Some(CertFault::Header),
        [b'T'] => Some(CertFault::Truncated),
        _ => None,
    }
}

/// Returns the fault of the text with a line replaced by other bytes.
fn edited_fault(
    rt: &impl Abort,
    alloc: Global,
    text: &[u8],
    line: usize,
    bytes: &[u8],
) -> Option<CertFault> {
    let edited = with_line(alloc, text, line, bytes).expect(rt, "memory");
    fault_of(alloc, &edited)
}

/// Returns whether each text of the row has the row's fault. A row is a line's number, a fault, and texts that replace
/// that line.
fn has_fault(rt: &impl Abort, alloc: Global, text: &[u8], row: &[u8]) -> bool {
    let mut parts = row.split(|byte| *byte == b'|');
    let (Some(line), Some(fault)) = (parts.next(), parts.next()) else {
        return false;
    };
    for part in parts {
        if edited_fault(rt, alloc, text, number_of_digits(line), part) != wanted(fault) {
            return false;
        }
    }
    true
}

/// Checks that the texts of each row have its fault.
fn have_faults(rt: &impl Abort, alloc: Global, text: &[u8], rows: &[&[u8]]) {
    for (at, row) in rows.iter().enumerate() {
        assert!(rt; has_fault(rt, alloc, text, row), "row {at}");
    }
}

fn dist(number: u64) -> Dist {
    Dist::fin(number).unwrap_or(Dist::inf())
}

/// Returns whether the certificate has this bound and this number of states, and its text is `text`.
fn is_written(
    alloc: Global,
    certificate: &Certificate,
    bound: u64,
    states: usize,
    text: &[u8],
) -> bool {
    certificate.bound() == dist(bound)
        && certificate.closed().len() == states
        && match write_cert(alloc, certificate) {
            Ok(bytes) => bytes.as_slice() == text,
            Err(_) => false,
        }
}

/// Returns whether the text is read as a certificate with this bound and this number of states, whose written text is
/// the same.
fn is_read(alloc: Global, text: &[u8], bound: u64, states: usize) -> bool {
    match read_cert(alloc, text) {
        Ok(certificate) => is_written(alloc, &certificate, bound, states, text),
        Err(_) => false,
    }
}

#[test]
fn reads_and_writes_again(rt: HostRuntime) {
    assert!(rt; is_read(rt.alloc(), CLOSED_STATES, 2, 2));
    assert!(rt; is_read(rt.alloc(), ONE_TABLE, 2, 0));
    assert!(rt; is_read(rt.alloc(), FINITE_DOMAIN, 2, 2));
    assert!(rt; is_read(rt.alloc(), ONE_DOMAIN_TABLE, 4, 0));
    assert!(rt; is_read(rt.alloc(), TWO_KINDS_OF_TABLE, 2, 0));
}

/// Checks that each proper prefix of the text is truncated.
fn has_truncated_fronts(rt: &impl Abort, alloc: Global, text: &[u8]) {
    for length in 0..text.len() {
        let fault = fault_of(alloc, &text[..length]);
        assert!(rt; fault == Some(CertFault::Truncated), "{length}");
    }
}

#[test]
fn every_front_is_truncated(rt: HostRuntime) {
    has_truncated_fronts(&rt, rt.alloc(), CLOSED_STATES);
    has_truncated_fronts(&rt, rt.alloc(), ONE_TABLE);
    has_truncated_fronts(&rt, rt.alloc(), FINITE_DOMAIN);
    has_truncated_fronts(&rt, rt.alloc(), ONE_DOMAIN_TABLE);
    has_truncated_fronts(&rt, rt.alloc(), TWO_KINDS_OF_TABLE);
}

/// Rows of the lines before the atoms.
const HEADS: &[&[u8]] = &[
    b"1|H|optplan-cert 1\r|optplan-cert 1 |optplan-cert 4|optplan-cert 02|optplan-cert 12|",
    b"1|-|optplan-cert 2",
    b"2|E2|pddl\r|fdr|",
    b"3|E3|bound  |bound |bound 2 | bound 2|bound|bound\t2|bound 2 2|bount 2|",
    b"3|N3|bound 01|bound 2\r|bound Inf|bound +1|bound -0|bound 1.0|bound 00|bound x",
    b"3|N3|bound 4611686018427387905|bound 18446744073709551616|bound 99999999999999999999999",
    b"3|-|bound inf|bound 0|bound 4611686018427387904",
];

#[test]
fn heads(rt: HostRuntime) {
    have_faults(&rt, rt.alloc(), CLOSED_STATES, HEADS);
}

/// Rows of the lines of atoms and variables.
const ATOMS_AND_VARIABLES: &[&[u8]] = &[
    b"4|E11|atoms 6",
    b"4|E4|atoms|atom 5|atoms 5 ",
    b"4|N4|atoms x|atoms 05|atoms 4294967296",
    b"4|T|atoms 4294967295",
    b"5|E5|at  a|at a |at\ta|at \x7f|at \xc3\xa9|",
    b"5|-|(AT;) ~ !|at",
    b"10|E11|vars 0",
    b"10|N10|vars 4294967296",
    b"11|O11|0 3 1 0 2|0 3 0 0 1",
    b"11|N11|0 3 0 1 5|0 0|2 2 1 0|0 x 5 5|01 1 0|0 1 4294967296",
    b"11|E11|0 0 1|x 3 1 0|0 3 0 1|0|0  3 0 1 2|",
    b"11|-|0 3 0 1 4|1 1 4",
];

#[test]
fn atoms_and_variables(rt: HostRuntime) {
    have_faults(&rt, rt.alloc(), CLOSED_STATES, ATOMS_AND_VARIABLES);
}

/// Rows of the lines of columns and tables.
const TABLES: &[&[u8]] = &[
    b"12|N12|columns 65",
    b"12|E17|columns 64",
    b"12|E13|columns 0",
    b"12|E12|column 1|columns|columns  1",
    b"13|N13|column 0|column 65",
    b"13|E17|column 2",
    b"14|N14|table 0|table x 0|table 2 1 00|table 1 4294967296",
    b"14|E14|table 0 0|table|table x  0|table 4294967296 0|table 18446744073709551617 0|table 2 0",
    b"14|O14|table 2 1 0|table 2 0 0",
    b"14|-|table 1 4294967295|table 2 0 7",
    b"15|E15|shares 2 0 1 1|shares 1 0 1 1|shares 0 1",
    b"15|O15|shares 2 1 1 0 1|shares 2 1 1 1 1",
    b"15|N15|shares 1 0 0|shares 1 0 2147483648|shares 1 0 inf|shares x 1",
    b"15|-|shares 1 0 2147483647|shares 0",
    b"16|E16|values 3 2 1|values 16777217 0|values 0 1",
    b"16|N16|values 01 0|values 1 36028797018963969|values 1 INF",
    b"16|-|values 1 36028797018963968|values 2 inf 0|values 0",
];

#[test]
fn tables(rt: HostRuntime) {
    have_faults(&rt, rt.alloc(), ONE_TABLE, TABLES);
}

/// Rows of the lines of a domain abstraction with one row.
const DOMAINS: &[&[u8]] = &[
    b"1|E15|optplan-cert 1",
    b"15|E15|domain|domain 1 0|domain 1 |domain  1| domain 1|domains 1",
    b"15|N15|domain 0|domain x|domain 01|domain 4294967296",
    b"15|E17|domain 2",
    b"15|E16|table 1 0",
    b"16|E16|0 0 0|0 3 0 0|0 3 0 0 1 |0  3 0 0 1|0 4 1 0 0|0|",
    b"16|N16|0 0|0 x|0 03 0 0 1|x 3 0 0 1|01 3 0 0 1|4294967296 3 0 0 1|0 3 0 00 1|0 3 1 0 4294967296",
    b"16|C16|0 3 1 0 0|0 3 0 2 1|0 3 1 2 0|0 1 1|0 3 0 0 2|0 2 0 4294967295",
    b"16|-|0 3 0 0 0|0 3 0 1 2|0 3 0 1 0|0 1 0|4294967295 3 0 0 1",
];

/// Rows of the lines of a domain abstraction with two rows.
const SECOND_ROWS: &[&[u8]] = &[
    b"1|E9|optplan-cert 1",
    b"10|C10|3 2 1 0",
    b"10|O11|5 2 0 0|6 2 0 1",
    b"10|-|4 2 0 1|0 1 0",
    b"11|E11|3 3 1 0",
    b"11|N11|3 3 1 0 x",
    b"11|O11|3 3 0 1 1|2 3 0 1 1|0 3 0 1 1|3 3 1 0 0",
    b"11|C11|4 3 1 0 0|5 3 0 2 1",
    b"11|-|4 3 0 1 2",
];

#[test]
fn domains(rt: HostRuntime) {
    have_faults(&rt, rt.alloc(), ONE_DOMAIN_TABLE, DOMAINS);
    have_faults(&rt, rt.alloc(), TWO_KINDS_OF_TABLE, SECOND_ROWS);
}

/// Rows of the lines of states, and of the last line.
const STATES: &[&[u8]] = &[
    b"13|N13|closed 4294967296",
    b"13|E16|closed 4294967295|closed 3",
    b"13|E15|closed 1",
    b"14|E15|0",
    b"14|N14|0 x|inf 0|4611686018427387905 0|0 4294967296",
    b"14|-|4611686018427387904 0|0 4294967295",
    b"14|E14| 0 0|",
    b"15|E15|1 1 1|x 1 1|1|1 1 |",
    b"15|N15|1 01",
    b"15|-|1 0|1 1",
    b"16|E16|end |end\r|END|",
    b"16|X17|end\nend",
];

#[test]
fn states(rt: HostRuntime) {
    have_faults(&rt, rt.alloc(), CLOSED_STATES, STATES);
}

/// Returns the fault of a text with another appended.
fn fault_behind(rt: &impl Abort, alloc: Global, text: &[u8], more: &[u8]) -> Option<CertFault> {
    let mut bytes = Vec::from_slice(alloc, text).expect(rt, "memory");
    bytes.extend_from_slice(more).expect(rt, "memory");
    fault_of(alloc, &bytes)
}

/// Texts, others that are appended to them, and the line at which each is trailing.
const BEHIND: &[(&[u8], &[u8], usize)] = &[
    (CLOSED_STATES, b"x", 17),
    (CLOSED_STATES, b"\n", 17),
    (CLOSED_STATES, b"x\ny\n", 17),
    (FINITE_DOMAIN, b" ", 9),
    (ONE_DOMAIN_TABLE, b"x", 21),
];

#[test]
fn nothing_stands_behind_the_end(rt: HostRuntime) {
    for (text, more, line) in BEHIND {
        let fault = fault_behind(&rt, rt.alloc(), text, more);
        assert!(rt; fault == Some(CertFault::Trailing(*line)), "line {line}");
    }
}

/// Texts, and the fault of each.
const ENDS: &[(&[u8], Option<CertFault>)] = &[
    (b"", Some(CertFault::Truncated)),
    (b"\n", Some(CertFault::Header)),
    (b"x", Some(CertFault::Truncated)),
    (
        b"optplan-cert 1\nsas\nbound 2\ncolumns 0\nclosed 3\n0\n1\nend\n",
        Some(CertFault::Number(8)),
    ),
    (
        b"optplan-cert 1\nsas\nbound 2\ncolumns 0\nclosed 2\n0\n1\nend\n",
        None,
    ),
    (
        b"optplan-cert 1\nsas\nbound 0\ncolumns 0\nclosed 0\nendx",
        Some(CertFault::Truncated),
    ),
    (
        b"optplan-cert 1\nsas\nbound 0\ncolumns 0\nclosed 0\nend\n",
        None,
    ),
    (
        b"optplan-cert 1\npddl\nbound 0\natoms 0\nvars 1\n0 1 0\n",
        Some(CertFault::Number(6)),
    ),
];

#[test]
fn ends(rt: HostRuntime) {
    for (at, (text, fault)) in ENDS.iter().enumerate() {
        assert!(rt; fault_of(rt.alloc(), text) == *fault, "row {at}");
    }
}

/// Returns the values infinite and 2^55.
fn large_values(rt: &impl Abort, alloc: Global) -> Values {
    let mut values = Values::new(alloc);
    values.push(Dist::inf()).expect(rt, "memory");
    values
        .push(dist(36_028_797_018_963_968))
        .expect(rt, "memory");
    values
}

/// Returns a table of those values.
fn large_table(rt: &impl Abort, alloc: Global, mapping: Mapping) -> AbstractionTable {
    let share = Share {
        operator: 7,
        amount: 2_147_483_647,
    };
    AbstractionTable {
        mapping,
        shares: Vec::from_slice(alloc, &[share]).expect(rt, "memory"),
        values: large_values(rt, alloc),
    }
}

fn large_pattern(rt: &impl Abort, alloc: Global) -> Mapping {
    Mapping::Pattern(Vec::from_slice(alloc, &[0, 4_294_967_295]).expect(rt, "memory"))
}

/// Returns a row of two classes of the last variable.
fn large_rows(rt: &impl Abort, alloc: Global) -> Mapping {
    let classes = Vec::from_slice(alloc, &[0, 1, 0]).expect(rt, "memory");
    let mut rows = Vec::new(alloc);
    rows.push(ClassRow::new(4_294_967_295, classes).expect(rt, "classes"))
        .expect(rt, "memory");
    Mapping::Domains(rows)
}

/// Returns a column of that table alone.
fn large_column(rt: &impl Abort, alloc: Global, mapping: Mapping) -> Vec<AbstractionTable> {
    let mut column = Vec::new(alloc);
    column
        .push(large_table(rt, alloc, mapping))
        .expect(rt, "memory");
    column
}

fn large_columns(rt: &impl Abort, alloc: Global, mapping: Mapping) -> Vec<Vec<AbstractionTable>> {
    let mut columns = Vec::new(alloc);
    columns
        .push(large_column(rt, alloc, mapping))
        .expect(rt, "memory");
    columns
}

/// Returns a list of one state, of one value, at the cost 0.
fn one_state(rt: &impl Abort, alloc: Global) -> ClosedList {
    let mut closed = ClosedList::new(alloc);
    closed.push(0, &[0]).expect(rt, "memory");
    closed
}

fn large_text(rt: &impl Abort, alloc: Global, version: Version, mapping: Mapping) -> Vec<u8>
    requires { has_classes version ≡ false }
{
    let certificate = Certificate::new(
        version,
        CertificateKind::Sas,
        Dist::inf(),
        large_columns(rt, alloc, mapping),
        one_state(rt, alloc),
    );
    write_cert(alloc, &certificate).expect(rt, "memory")
}

const LARGE: &[u8] =
    b"optplan-cert 1\nsas\nbound inf\ncolumns 1\ncolumn 1\ntable 2 0 4294967295\nshares 1 7 2147483647\nvalues 2 inf 36028797018963968\nclosed 1\n0 0\nend\n";

const LARGE_DOMAIN: &[u8] =
    b"optplan-cert 2\nsas\nbound inf\ncolumns 1\ncolumn 1\ndomain 1\n4294967295 3 0 1 0\nshares 1 7 2147483647\nvalues 2 inf 36028797018963968\nclosed 1\n0 0\nend\n";

#[test]
fn writes_a_value(rt: HostRuntime) {
    let pattern = large_pattern(&rt, rt.alloc());
    let bytes = large_text(&rt, rt.alloc(), Version::One, pattern);
    assert!(rt; bytes.as_slice() == LARGE);
}

#[test]
fn writes_a_domain_abstraction(rt: HostRuntime) {
    let rows = large_rows(&rt, rt.alloc());
    let bytes = large_text(&rt, rt.alloc(), Version::Two, rows);
    assert!(rt; bytes.as_slice() == LARGE_DOMAIN);
}
