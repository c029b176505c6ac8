//! A device one of whose calls fails.

use optplan_command::run;
use optplan_device::{DeviceFault, Recorded};
use std::alloc::{AllocError, Global};
use std::process::Abort;
use std::sync::Wait;
use std::test::Fail;
use std::thread::Threads;
use std::time::Clock;
use testing_runs::texts::{ROAD_DOMAIN, ROAD_PROBLEM, ROAD_PROBLEM_WITHOUT_WAY, ROAD_SAS};
use testing_runs::{FaultyDevice, program_words, recorded};

/// Returns the names of the files that were written, in order, each followed by a space.
fn written_names(alloc: Global, events: &[Recorded]) -> Result<String, AllocError> {
    let mut names = String::new(alloc);
    for event in events {
        if let Recorded::Written(name, _) = event {
            names.push_str(name.as_str())?;
            names.push(' ')?;
        }
    }
    Ok(names)
}

const PLAN: &str = "(go a b)\n(go b c)\n; cost = 2 (unit cost)\n";

const SOLVE: &[&str] = &[
    "solve",
    "d",
    "p",
    "--simulate",
    "1",
    "--plan",
    "l",
    "--cert",
    "c",
];

const SOLVE_SAS: &[&str] = &[
    "solve-sas",
    "s",
    "--simulate",
    "1",
    "--plan",
    "l",
    "--cert",
    "c",
];

const SOLVE_WITHOUT_WAY: &[&str] = &[
    "solve",
    "d",
    "w",
    "--simulate",
    "1",
    "--plan",
    "l",
    "--cert",
    "c",
];

const SOLVE_TO_A_LIMIT: &[&str] = &[
    "solve",
    "d",
    "p",
    "--simulate",
    "1",
    "--steps",
    "0",
    "--cert",
    "c",
];

const SOLVE_NO_PROBLEM: &[&str] = &["solve", "d", "d", "--simulate", "1", "--cert", "c"];

/// The arguments after the program's name, the number of calls before the one that fails, the output and the report,
/// the status, and the files in the order in which they were created and written.
type Row = (
    &'static [&'static str],
    u64,
    &'static str,
    &'static str,
    u8,
    &'static str,
);

const FAILING_ROWS: &[Row] = &[
    // A file is created or emptied before the search, and no search follows if that fails.
    // A later write that fails keeps nothing else from being written.
    (SOLVE, 0, "", "optplan: F70 CannotRead domain\n", 7, ""),
    (SOLVE, 1, "", "optplan: F70 CannotRead problem\n", 7, ""),
    (SOLVE, 2, "", "optplan: F71 CannotWrite cert\n", 7, ""),
    (SOLVE, 3, "", "optplan: F71 CannotWrite plan\n", 7, "c "),
    (
        SOLVE,
        4,
        PLAN,
        "optplan: F71 CannotWrite cert\n",
        7,
        "c l l ",
    ),
    (
        SOLVE,
        5,
        PLAN,
        "optplan: F71 CannotWrite plan\n",
        7,
        "c l c ",
    ),
    (
        SOLVE,
        6,
        "",
        "optplan: F71 CannotWrite output\n",
        7,
        "c l c l ",
    ),
    (SOLVE, 7, PLAN, "", 0, "c l c l "),
    (SOLVE_SAS, 0, "", "optplan: F70 CannotRead sas\n", 7, ""),
    (SOLVE_SAS, 1, "", "optplan: F71 CannotWrite cert\n", 7, ""),
    (SOLVE_SAS, 2, "", "optplan: F71 CannotWrite plan\n", 7, "c "),
    (
        SOLVE_SAS,
        3,
        PLAN,
        "optplan: F71 CannotWrite cert\n",
        7,
        "c l l ",
    ),
    (
        SOLVE_SAS,
        4,
        PLAN,
        "optplan: F71 CannotWrite plan\n",
        7,
        "c l c ",
    ),
    (
        SOLVE_SAS,
        5,
        "",
        "optplan: F71 CannotWrite output\n",
        7,
        "c l c l ",
    ),
    (SOLVE_SAS, 6, PLAN, "", 0, "c l c l "),
    (
        SOLVE_WITHOUT_WAY,
        2,
        "",
        "optplan: F71 CannotWrite cert\n",
        7,
        "",
    ),
    (
        SOLVE_WITHOUT_WAY,
        3,
        "",
        "optplan: F71 CannotWrite plan\n",
        7,
        "c ",
    ),
    (
        SOLVE_WITHOUT_WAY,
        4,
        "unsolvable\n",
        "optplan: F71 CannotWrite cert\n",
        7,
        "c l ",
    ),
    (
        SOLVE_WITHOUT_WAY,
        5,
        "",
        "optplan: F71 CannotWrite output\n",
        7,
        "c l c ",
    ),
    (SOLVE_WITHOUT_WAY, 6, "unsolvable\n", "", 4, "c l c "),
    (
        SOLVE_TO_A_LIMIT,
        2,
        "",
        "optplan: F71 CannotWrite cert\n",
        7,
        "",
    ),
    (
        SOLVE_TO_A_LIMIT,
        3,
        "limit 2\n",
        "optplan: F71 CannotWrite cert\n",
        7,
        "c ",
    ),
    (
        SOLVE_TO_A_LIMIT,
        4,
        "",
        "optplan: F71 CannotWrite output\n",
        7,
        "c c ",
    ),
    (SOLVE_TO_A_LIMIT, 5, "limit 2\n", "", 5, "c c "),
    // If a report fails, the status is unchanged.
    (SOLVE_NO_PROBLEM, 2, "", "", 1, ""),
    (
        SOLVE_NO_PROBLEM,
        3,
        "",
        "optplan: F10 Shape problem 0\n",
        1,
        "",
    ),
];

const OUT_OF_MEMORY: &str = "optplan: out of memory\n";

const MEMORY_ROWS: &[Row] = &[
    (SOLVE, 0, "", OUT_OF_MEMORY, 6, ""),
    (SOLVE, 1, "", OUT_OF_MEMORY, 6, ""),
    (SOLVE, 2, "", OUT_OF_MEMORY, 6, ""),
    (SOLVE, 3, "", OUT_OF_MEMORY, 6, "c "),
    (SOLVE, 4, "", OUT_OF_MEMORY, 6, "c l "),
    (SOLVE, 5, "", OUT_OF_MEMORY, 6, "c l c "),
    (SOLVE, 6, "", OUT_OF_MEMORY, 6, "c l c l "),
    (SOLVE, 7, PLAN, "", 0, "c l c l "),
    (SOLVE_SAS, 0, "", OUT_OF_MEMORY, 6, ""),
    (SOLVE_SAS, 1, "", OUT_OF_MEMORY, 6, ""),
    (SOLVE_SAS, 3, "", OUT_OF_MEMORY, 6, "c l "),
    (SOLVE_SAS, 5, "", OUT_OF_MEMORY, 6, "c l c l "),
    (SOLVE_WITHOUT_WAY, 2, "", OUT_OF_MEMORY, 6, ""),
    (SOLVE_WITHOUT_WAY, 4, "", OUT_OF_MEMORY, 6, "c l "),
    (SOLVE_TO_A_LIMIT, 2, "", OUT_OF_MEMORY, 6, ""),
    (SOLVE_TO_A_LIMIT, 3, "", OUT_OF_MEMORY, 6, "c "),
    (SOLVE_TO_A_LIMIT, 4, "", OUT_OF_MEMORY, 6, "c c "),
];

/// Checks the outcome of the program if one call of its device fails with this fault.
fn does<R: Threads + Wait + Clock + Eprint + Sync + Abort + AllocGlobal>(
    rt: &R,
    row: &Row,
    fault: DeviceFault,
) -> Result<(), Fail> {
    let (words, calls_before, out, err, status, written) = row;
    let files = [
        ("d", ROAD_DOMAIN.as_bytes()),
        ("p", ROAD_PROBLEM.as_bytes()),
        ("w", ROAD_PROBLEM_WITHOUT_WAY.as_bytes()),
        ("s", ROAD_SAS.as_bytes()),
    ];
    let mut device = FaultyDevice::new(rt.alloc(), &files, *calls_before, fault);
    let given = run(&program_words(rt.alloc(), words)?, &mut device, rt);
    let names = written_names(rt.alloc(), device.events())?;
    let outcome = recorded(rt.alloc(), device.events(), given.code())?;
    assert_eq!(rt; outcome.out.as_str(), *out, "at {words:?} {calls_before}");
    assert_eq!(rt; outcome.err.as_str(), *err, "at {words:?} {calls_before}");
    assert_eq!(rt; outcome.status, *status, "at {words:?} {calls_before}");
    assert_eq!(rt; names.as_str(), *written, "at {words:?} {calls_before}");
    Ok(())
}

#[test]
fn one_call_fails(rt: HostRuntime) -> Result<(), Fail> {
    for row in FAILING_ROWS {
        does(&rt, row, DeviceFault::Failed)?;
    }
    Ok(())
}

#[test]
fn one_call_is_refused_memory(rt: HostRuntime) -> Result<(), Fail> {
    for row in MEMORY_ROWS {
        does(&rt, row, DeviceFault::Memory)?;
    }
    Ok(())
}
