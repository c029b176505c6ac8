//! Texts that are read, and their first faults, worked out by hand.

use fdr::{Fact, FdrTask, Operator, TaskLimit};
use sasfile::{SasFault, read_sas};
use sasfile_reader::SasFault::*;
use std::alloc::Global;
use std::process::Abort;

/// A walk from `a` over `b` to `c`, in 45 lines.
const WALK: &str =
    "begin_version\n3\nend_version\nbegin_metric\n0\nend_metric\n1\nbegin_variable\nvar0\n-1\n3\n\
Atom at(a)\nAtom at(b)\nAtom at(c)\nend_variable\n1\nbegin_mutex_group\n3\n0 0\n0 1\n0 2\nend_mutex_group\n\
begin_state\n0\nend_state\nbegin_goal\n1\n0 2\nend_goal\n2\nbegin_operator\ngo a b\n0\n1\n0 0 0 1\n1\nend_operator\n\
begin_operator\ngo b c\n0\n1\n0 0 1 2\n1\nend_operator\n0\n";

/// Returns the walk with a line replaced by other bytes.
fn with_line(rt: &impl Abort, alloc: Global, line: usize, bytes: &[u8]) -> Vec<u8> {
    let mut text = Vec::new(alloc);
    for (index, old) in WALK.lines().enumerate() {
        let kept = if index == line.wrapping_sub(1) {
            bytes
        } else {
            old.as_bytes()
        };
        text.extend_from_slice(kept).expect(rt, "memory");
        text.push(b'\n').expect(rt, "memory");
    }
    text
}

fn fault_of(alloc: Global, text: &[u8]) -> Option<SasFault> {
    read_sas(alloc, text).err()
}

/// Returns the fault of the walk with a line replaced by other bytes.
fn edited_fault(rt: &impl Abort, alloc: Global, line: usize, bytes: &[u8]) -> Option<SasFault> {
    let edited = with_line(rt, alloc, line, bytes);
    fault_of(alloc, &edited)
}

/// A line of the walk, texts that replace it, and the fault of each.
type Row = (usize, &'static [&'static str], SasFault);

/// Checks that each of the texts that replace a line has the fault, or none.
fn have_fault(
    rt: &impl Abort,
    alloc: Global,
    line: usize,
    texts: &[&str],
    fault: Option<SasFault>,
) {
    for text in texts {
        let found = edited_fault(rt, alloc, line, text.as_bytes());
        assert!(rt; found == fault, "line {line}: {text}");
    }
}

fn names(rt: &impl Abort, alloc: Global, rows: &[Row]) {
    for (line, texts, fault) in rows {
        have_fault(rt, alloc, *line, texts, Some(*fault));
    }
}

/// The parts of an operator.
#[derive(Clone, Copy)]
struct OperatorRow<'a> {
    name: &'a str,
    precondition: &'a [Fact],
    effect: &'a [Fact],
    cost: u64,
}

/// The parts of a task, and its number of variables.
#[derive(Clone, Copy)]
struct TaskRow<'a> {
    metric: bool,
    variables: usize,
    initial: &'a [u32],
    goal: &'a [Fact],
    operators: &'a [OperatorRow<'a>],
}

fn is_operator(operator: &Operator, row: &OperatorRow<'_>) -> bool {
    operator.name.as_str() == row.name
        && operator.precondition.as_slice() == row.precondition
        && operator.effect.as_slice() == row.effect
        && operator.cost.get() == row.cost
}

fn are_operators(operators: &[Operator], rows: &[OperatorRow<'_>]) -> bool {
    operators.len() == rows.len()
        && operators
            .iter()
            .zip(rows)
            .all(|(operator, row)| is_operator(operator, row))
}

fn is_task(task: &FdrTask, row: &TaskRow<'_>) -> bool {
    task.has_metric() == row.metric
        && task.variable_count() == row.variables
        && task.initial() == row.initial
        && task.goal() == row.goal
        && are_operators(task.operators(), row.operators)
}

/// Returns whether the text spells a task of these parts.
fn spells(alloc: Global, text: &[u8], row: &TaskRow<'_>) -> bool {
    match read_sas(alloc, text) {
        Ok(task) => is_task(&task, row),
        Err(_) => false,
    }
}

/// The facts of the walk: at `a`, at `b` and at `c`.
const AT_A: Fact = Fact {
    variable: 0,
    value: 0,
};

const AT_B: Fact = Fact {
    variable: 0,
    value: 1,
};

const AT_C: Fact = Fact {
    variable: 0,
    value: 2,
};

/// The walk's task.
const WALK_TASK: TaskRow<'static> = TaskRow {
    metric: false,
    variables: 1,
    initial: &[0],
    goal: &[AT_C],
    operators: &[
        OperatorRow {
            name: "go a b",
            precondition: &[AT_A],
            effect: &[AT_B],
            cost: 1,
        },
        OperatorRow {
            name: "go b c",
            precondition: &[AT_B],
            effect: &[AT_C],
            cost: 1,
        },
    ],
};

#[test]
fn reads_the_walk(rt: HostRuntime) {
    assert!(rt; spells(rt.alloc(), WALK.as_bytes(), &WALK_TASK));
}

const PREVAIL: &[u8] = b"begin_version\n3\nend_version\nbegin_metric\n1\nend_metric\n3\n\
begin_variable\nvar0\n-1\n2\na\nb\nend_variable\nbegin_variable\nvar1\n-1\n2\na\nb\nend_variable\n\
begin_variable\nvar2\n-1\n2\na\nb\nend_variable\n0\nbegin_state\n0\n1\n0\nend_state\n\
begin_goal\n2\n2 1\n0 1\nend_goal\n1\nbegin_operator\nGo  A;(b\n1\n2 0\n2\n0 1 1 0\n0 0 -1 1\n7\nend_operator\n0";

const PREVAIL_TASK: TaskRow<'static> = TaskRow {
    metric: true,
    variables: 3,
    initial: &[0, 1, 0],
    goal: &[
        Fact {
            variable: 2,
            value: 1,
        },
        Fact {
            variable: 0,
            value: 1,
        },
    ],
    operators: &[OperatorRow {
        name: "Go  A;(b",
        precondition: &[
            Fact {
                variable: 2,
                value: 0,
            },
            Fact {
                variable: 1,
                value: 1,
            },
        ],
        effect: &[
            Fact {
                variable: 1,
                value: 0,
            },
            Fact {
                variable: 0,
                value: 1,
            },
        ],
        cost: 7,
    }],
};

/// Prevail conditions come before the values before effects; the effect with `-1` has no condition.
#[test]
fn reads_prevail_conditions_first(rt: HostRuntime) {
    assert!(rt; spells(rt.alloc(), PREVAIL, &PREVAIL_TASK));
}

/// Lines of the walk, and other spellings of each.
const SPELLINGS: &[(usize, &[&str])] = &[
    (1, &["begin_version \r"]),
    (2, &["0003", "  3  "]),
    (5, &["-0", "1"]),
    (9, &["", "\tvar 0"]),
    (10, &["-01"]),
    (12, &["", " ~ \r \r"]),
    (18, &["3 \r \r "]),
    (19, &["00  0", "0 1"]),
    (21, &["-0 000000000000000000000000000000000002"]),
    (28, &["   0    2", "0 0"]),
    (30, &["2\r"]),
    (32, &[""]),
    (35, &["0 0 -1 1", "-0 0 -01 1", "0 0 0 0"]),
    (36, &["2147483647"]),
    (45, &["-0", "0\n\n \r\n\r \r"]),
];

#[test]
fn reads_other_spellings(rt: HostRuntime) {
    for (line, texts) in SPELLINGS {
        have_fault(&rt, rt.alloc(), *line, texts, None);
    }
}

#[test]
fn reads_carriage_returns(rt: HostRuntime) {
    let text = WALK.replace(rt.alloc(), "\n", "\r\n").expect(&rt, "memory");
    assert!(rt; fault_of(rt.alloc(), text.as_bytes()).is_none());
}

fn is_too_short(alloc: Global, text: &[u8]) -> bool {
    matches!(
        fault_of(alloc, text),
        Some(SasFault::Expected(_) | SasFault::Truncated)
    )
}

/// Every prefix is too short, except the one that lacks only the last line feed.
#[test]
fn refuses_fronts(rt: HostRuntime) {
    let text = WALK.as_bytes();
    for len in 0..text.len() - 1 {
        assert!(rt;
            is_too_short(rt.alloc(), &text[..len]),
            "the first {len} bytes"
        );
    }
    assert!(rt; fault_of(rt.alloc(), &text[..text.len() - 1]).is_none());
}

/// Lines of another form than expected, with the line that the fault names.
const FORMS: &[Row] = &[
    (1, &["begin_versio", " begin_version", ""], Expected(1)),
    (2, &["", "x", "3 3", "3.0"], Expected(2)),
    (3, &["end_metric"], Expected(3)),
    (5, &["+0", "0.0", "-", "--0", "0\t"], Expected(5)),
    (6, &["end_metric\t"], Expected(6)),
    (7, &["0"], Expected(8)),
    (7, &["2", "65536"], Expected(16)),
    (9, &["v\x07", "v\x7f"], Expected(9)),
    (10, &["-1 0"], Expected(10)),
    (11, &["2"], Expected(14)),
    (11, &["4"], Expected(16)),
    (16, &["0"], Expected(17)),
    (16, &["2"], Expected(23)),
    (18, &["4294967295", "18446744073709551616"], Expected(22)),
    (19, &["9", "9 9 9"], Expected(19)),
    (24, &["0 0"], Expected(24)),
    (27, &["2"], Expected(29)),
    (28, &["9 x"], Expected(28)),
    (30, &["2\r2"], Expected(30)),
    (30, &["4294967295"], Expected(45)),
    (32, &["go\ra b"], Expected(32)),
    (33, &["1"], Expected(34)),
    (35, &["x 1", "-1 0 0"], Expected(35)),
    (45, &["0 0"], Expected(45)),
];

#[test]
fn names_lines_of_another_form(rt: HostRuntime) {
    names(&rt, rt.alloc(), FORMS);
}

#[test]
fn names_a_line_that_is_no_text(rt: HostRuntime) {
    let fault = edited_fault(&rt, rt.alloc(), 12, b"Atom at(\x80)");
    assert!(rt; fault == Some(Expected(12)));
}

/// Numbers out of range, with the line that the fault names.
const RANGES: &[Row] = &[
    (5, &["2", "-1"], Range(5)),
    (7, &["-1"], Range(7)),
    (11, &["0", "-3"], Range(11)),
    (16, &["-1"], Range(16)),
    (18, &["-1"], Range(18)),
    (19, &["1 0", "0 3"], Range(19)),
    (21, &["0 -1"], Range(21)),
    (24, &["3", "-1"], Range(24)),
    (27, &["2\n0 2"], Range(29)),
    (27, &["-1"], Range(27)),
    (28, &["0 3", "1 0"], Range(28)),
    (30, &["-1"], Range(30)),
    (33, &["-1"], Range(33)),
    (33, &["1\n0 0"], Range(36)),
    (33, &["2\n0 0\n0 0"], Range(35)),
    (34, &["2\n0 0 -1 2"], Range(36)),
    (
        35,
        &["-1 0 0 1", "0 0 -2 1", "0 0 3 1", "0 0 0 3", "0 1 0 1"],
        Range(35),
    ),
    (36, &["2147483648", "-1"], Range(36)),
    (40, &["1\n0 1"], Range(43)),
];

#[test]
fn names_lines_out_of_range(rt: HostRuntime) {
    names(&rt, rt.alloc(), RANGES);
}

/// The other faults, and which comes first if a text has two.
const OTHERS: &[Row] = &[
    (2, &["4", "-3", "99999999999999999999"], Version(2)),
    (10, &["0", "1", "-2", "0\n0"], Axioms(10)),
    (45, &["1", "-1"], Axioms(45)),
    (
        35,
        &["1 0 0 0 0 1", "1 x", "01", "99999999999999999999 0 0 1"],
        ConditionalEffect(35),
    ),
    (7, &["65537", "4294967295"], Limit(TaskLimit::Variables)),
    (11, &["65537"], Limit(TaskLimit::Values)),
    (11, &["65536"], Truncated),
    (30, &["4294967296"], Limit(TaskLimit::Operators)),
    (45, &["0\nx"], Trailing(46)),
    (45, &["0\n\n \r\n\t\nx"], Trailing(48)),
    (24, &["3\nx"], Range(24)),
    (24, &["0\nx\n3"], Expected(25)),
    (34, &["0"], Expected(35)),
];

#[test]
fn names_other_faults(rt: HostRuntime) {
    names(&rt, rt.alloc(), OTHERS);
}

/// Short texts, and the fault of each.
const SHORT: &[(&[u8], SasFault)] = &[
    (b"", Truncated),
    (b"\n", Expected(1)),
    (b"\r \n", Expected(1)),
    (b"begin_version\n", Truncated),
];

#[test]
fn names_faults_of_short_texts(rt: HostRuntime) {
    for (at, (text, fault)) in SHORT.iter().enumerate() {
        assert!(rt; fault_of(rt.alloc(), text) == Some(*fault), "row {at}");
    }
}

const NOTHING: &[u8] = b"begin_version\n3\nend_version\nbegin_metric\n0\nend_metric\n0\n0\n\
begin_state\nend_state\nbegin_goal\n0\nend_goal\n0\n0";

const EMPTY_TASK: TaskRow<'static> = TaskRow {
    metric: false,
    variables: 0,
    initial: &[],
    goal: &[],
    operators: &[],
};

#[test]
fn reads_a_task_without_variables(rt: HostRuntime) {
    assert!(rt; spells(rt.alloc(), NOTHING, &EMPTY_TASK));
}
