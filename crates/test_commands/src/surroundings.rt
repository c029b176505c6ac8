//! A device that fails, a file whose name is empty, and a certificate as version 2.

use optplan_command::run;
use optplan_device::{DeviceFault, MemoryDevice};
use std::alloc::{AllocError, Global};
use std::process::Abort;
use std::sync::Wait;
use std::test::Fail;
use std::thread::Threads;
use std::time::Clock;
use testing_runs::texts::{
    ROAD_CERTIFICATE, ROAD_DOMAIN, ROAD_PLANNING_CERTIFICATE, ROAD_PROBLEM, ROAD_SAS,
};
use testing_runs::{FaultyDevice, Outcome, program_words, recorded, run_over};

const PLAN: &str = "(go a b)(go b c)";

/// `ROAD_CERTIFICATE` as version 2.
const MIGRATED_CERTIFICATE: &str =
    "optplan-cert 2\nsas\nbound 2\ncolumns 0\nclosed 2\n0 0\n1 1\nend\n";

/// The output, the report, and the status.
type Texts = (&'static str, &'static str, u8);

fn wanted(alloc: Global, texts: Texts) -> Result<Outcome, AllocError> {
    let (out, err, status) = texts;
    Ok(Outcome {
        out: String::from_str(alloc, out)?,
        err: String::from_str(alloc, err)?,
        status,
    })
}

/// Checks that the program over these files prints this, and reports nothing.
fn puts<R: Threads + Wait + Clock + Eprint + Sync + Abort + AllocGlobal>(
    rt: &R,
    words: &[&str],
    files: &[(&str, &[u8])],
    out: &'static str,
) -> Result<(), Fail> {
    let outcome = run_over(rt, words, files)?;
    assert_eq!(rt; outcome, wanted(rt.alloc(), (out, "", 0))?, "at {words:?}");
    Ok(())
}

#[test]
fn a_file_whose_name_is_empty(rt: HostRuntime) -> Result<(), Fail> {
    let texts = [
        ("", ROAD_DOMAIN.as_bytes()),
        ("p", ROAD_PROBLEM.as_bytes()),
        ("l", PLAN.as_bytes()),
    ];
    puts(&rt, &["validate", "", "p", "l"], &texts, "valid 2\n")?;
    let texts = [
        ("", ROAD_SAS.as_bytes()),
        ("c", ROAD_CERTIFICATE.as_bytes()),
    ];
    puts(&rt, &["check-sas", "", "c"], &texts, "accepted 2\n")
}

#[test]
fn a_certificate_as_version_2(rt: HostRuntime) -> Result<(), Fail> {
    let texts = [
        ("c", ROAD_CERTIFICATE.as_bytes()),
        ("-m", MIGRATED_CERTIFICATE.as_bytes()),
    ];
    puts(&rt, &["migrate-cert", "c"], &texts, MIGRATED_CERTIFICATE)?;
    puts(
        &rt,
        &["migrate-cert", "--", "-m"],
        &texts,
        MIGRATED_CERTIFICATE,
    )
}

/// Returns the outcome of the program if one call of its device fails with a fault.
fn run_with_fault<R: Threads + Wait + Clock + Eprint + Sync + AllocGlobal>(
    rt: &R,
    words: &[&str],
    plan: &str,
    calls_before: u64,
    fault: DeviceFault,
) -> Result<Outcome, Fail> {
    let files = [
        ("d", ROAD_DOMAIN.as_bytes()),
        ("p", ROAD_PROBLEM.as_bytes()),
        ("l", plan.as_bytes()),
        ("s", ROAD_SAS.as_bytes()),
        ("c", ROAD_CERTIFICATE.as_bytes()),
        ("q", ROAD_PLANNING_CERTIFICATE.as_bytes()),
    ];
    let words = program_words(rt.alloc(), words)?;
    let mut device = FaultyDevice::new(rt.alloc(), &files, calls_before, fault);
    let status = run(&words, &mut device, rt);
    Ok(recorded(rt.alloc(), device.events(), status.code())?)
}

/// The arguments after the program's name, the plan, the number of calls before the fault, and the expected outcome.
type FaultRow = (&'static [&'static str], &'static str, u64, Texts);

const VALIDATE: &[&str] = &["validate", "d", "p", "l"];

const CHECK: &[&str] = &["check-sas", "s", "c"];

const CHECK_PLANNING: &[&str] = &["check", "d", "p", "q"];

const TRANSLATE: &[&str] = &["translate", "d", "p"];

const OPTIMAL: &[&str] = &["optimal", "d", "p", "l", "q"];

const MIGRATE: &[&str] = &["migrate-cert", "c"];

/// A task's text as the certificate.
const CHECK_OF_NO_CERTIFICATE: &[&str] = &["check-sas", "s", "s"];

const CHECK_PLANNING_OF_NO_CERTIFICATE: &[&str] = &["check", "d", "p", "s"];

const MIGRATE_NO_CERTIFICATE: &[&str] = &["migrate-cert", "s"];

/// A domain's text as the problem.
const TRANSLATE_NO_PROBLEM: &[&str] = &["translate", "d", "d"];

const FAILING_ROWS: &[FaultRow] = &[
    (CHECK, "", 0, ("", "optplan: F70 CannotRead sas\n", 7)),
    (CHECK, "", 1, ("", "optplan: F70 CannotRead cert\n", 7)),
    (CHECK, "", 2, ("", "optplan: F71 CannotWrite output\n", 7)),
    (CHECK, "", 3, ("accepted 2\n", "", 0)),
    (CHECK_OF_NO_CERTIFICATE, "", 2, ("", "", 1)),
    (
        CHECK_OF_NO_CERTIFICATE,
        "",
        3,
        ("", "optplan: F50 Header cert\n", 1),
    ),
    (&["check-sas", "s", "gone"], "", 2, ("", "", 7)),
    (
        CHECK_PLANNING,
        "",
        0,
        ("", "optplan: F70 CannotRead domain\n", 7),
    ),
    (
        CHECK_PLANNING,
        "",
        1,
        ("", "optplan: F70 CannotRead problem\n", 7),
    ),
    (
        CHECK_PLANNING,
        "",
        2,
        ("", "optplan: F70 CannotRead cert\n", 7),
    ),
    (
        CHECK_PLANNING,
        "",
        3,
        ("", "optplan: F71 CannotWrite output\n", 7),
    ),
    (CHECK_PLANNING, "", 4, ("accepted 2\n", "", 0)),
    (CHECK_PLANNING_OF_NO_CERTIFICATE, "", 3, ("", "", 1)),
    (
        CHECK_PLANNING_OF_NO_CERTIFICATE,
        "",
        4,
        ("", "optplan: F50 Header cert\n", 1),
    ),
    (
        TRANSLATE,
        "",
        0,
        ("", "optplan: F70 CannotRead domain\n", 7),
    ),
    (
        TRANSLATE,
        "",
        1,
        ("", "optplan: F70 CannotRead problem\n", 7),
    ),
    (
        TRANSLATE,
        "",
        2,
        ("", "optplan: F71 CannotWrite output\n", 7),
    ),
    (TRANSLATE, "", 3, (ROAD_SAS, "", 0)),
    (TRANSLATE_NO_PROBLEM, "", 2, ("", "", 1)),
    (
        TRANSLATE_NO_PROBLEM,
        "",
        3,
        ("", "optplan: F10 Shape problem 0\n", 1),
    ),
    (MIGRATE, "", 0, ("", "optplan: F70 CannotRead cert\n", 7)),
    (MIGRATE, "", 1, ("", "optplan: F71 CannotWrite output\n", 7)),
    (MIGRATE, "", 2, (MIGRATED_CERTIFICATE, "", 0)),
    (MIGRATE_NO_CERTIFICATE, "", 1, ("", "", 1)),
    (
        MIGRATE_NO_CERTIFICATE,
        "",
        2,
        ("", "optplan: F50 Header cert\n", 1),
    ),
    (
        VALIDATE,
        PLAN,
        0,
        ("", "optplan: F70 CannotRead domain\n", 7),
    ),
    (
        VALIDATE,
        PLAN,
        1,
        ("", "optplan: F70 CannotRead problem\n", 7),
    ),
    (VALIDATE, PLAN, 2, ("", "optplan: F70 CannotRead plan\n", 7)),
    (
        VALIDATE,
        PLAN,
        3,
        ("", "optplan: F71 CannotWrite output\n", 7),
    ),
    (VALIDATE, PLAN, 4, ("valid 2\n", "", 0)),
    (
        VALIDATE,
        "",
        3,
        ("", "optplan: F71 CannotWrite output\n", 7),
    ),
    (VALIDATE, "", 4, ("goal open (at c)\n", "", 3)),
    (
        OPTIMAL,
        PLAN,
        0,
        ("", "optplan: F70 CannotRead domain\n", 7),
    ),
    (
        OPTIMAL,
        PLAN,
        1,
        ("", "optplan: F70 CannotRead problem\n", 7),
    ),
    (OPTIMAL, PLAN, 2, ("", "optplan: F70 CannotRead plan\n", 7)),
    (OPTIMAL, PLAN, 3, ("", "optplan: F70 CannotRead cert\n", 7)),
    (
        OPTIMAL,
        PLAN,
        4,
        ("", "optplan: F71 CannotWrite output\n", 7),
    ),
    (OPTIMAL, PLAN, 5, ("optimal 2\n", "", 0)),
    (OPTIMAL, "unsolvable", 5, ("at least 2\n", "", 3)),
    // If a report fails, the status is unchanged.
    (VALIDATE, "()", 2, ("", "optplan: F70 CannotRead plan\n", 7)),
    (VALIDATE, "()", 3, ("", "", 1)),
    (
        VALIDATE,
        "()",
        4,
        ("", "optplan: F25 PlanShape plan 0\n", 1),
    ),
    (&["validate", "d", "p", "gone"], PLAN, 3, ("", "", 7)),
    (&["solve", "d"], PLAN, 0, ("", "", 2)),
    (
        &["--help"],
        PLAN,
        0,
        ("", "optplan: F71 CannotWrite output\n", 7),
    ),
];

#[test]
fn one_call_fails(rt: HostRuntime) -> Result<(), Fail> {
    for (words, plan, calls_before, texts) in FAILING_ROWS {
        let outcome = run_with_fault(&rt, words, plan, *calls_before, DeviceFault::Failed)?;
        assert_eq!(rt;
            outcome,
            wanted(rt.alloc(), *texts)?,
            "at {words:?} {plan} {calls_before}"
        );
    }
    Ok(())
}

/// Commands that explain the fault of a text: their calls are the reads, the fault's line and its explanation. If the
/// line fails, the explanation is not written.
const EXPLAINED_ROWS: &[FaultRow] = &[
    (&["check-sas", "s", "s", "--explain"], "", 2, ("", "", 1)),
    (
        &["check-sas", "s", "s", "--explain"],
        "",
        3,
        ("", "optplan: F50 Header cert\n", 1),
    ),
    (
        &["check-sas", "s", "s", "--explain"],
        "",
        4,
        (
            "",
            "optplan: F50 Header cert\ns:1: this is not the first line of a certificate of a known version\nbegin_version\n",
            1,
        ),
    ),
    (&["migrate-cert", "--explain", "s"], "", 1, ("", "", 1)),
    (
        &["migrate-cert", "--explain", "s"],
        "",
        2,
        ("", "optplan: F50 Header cert\n", 1),
    ),
    (
        &["migrate-cert", "--explain", "s"],
        "",
        3,
        (
            "",
            "optplan: F50 Header cert\ns:1: this is not the first line of a certificate of a known version\nbegin_version\n",
            1,
        ),
    ),
    (
        &["translate", "d", "d", "--explain"],
        "",
        3,
        ("", "optplan: F10 Shape problem 0\n", 1),
    ),
    (
        &["translate", "d", "d", "--explain"],
        "",
        4,
        (
            "",
            "optplan: F10 Shape problem 0\nd:1:1: this problem lacks a part: its `:goal` may be missing or misspelt\n(define (domain road)\n^\n",
            1,
        ),
    ),
    (&["solve", "d", "d", "--explain"], "", 2, ("", "", 1)),
    (
        &["solve", "d", "d", "--explain"],
        "",
        4,
        (
            "",
            "optplan: F10 Shape problem 0\nd:1:1: this problem lacks a part: its `:goal` may be missing or misspelt\n(define (domain road)\n^\n",
            1,
        ),
    ),
    (
        &["validate", "d", "p", "l", "--explain"],
        "(go a b)\n()",
        3,
        ("", "", 1),
    ),
    (
        &["validate", "d", "p", "l", "--explain"],
        "(go a b)\n()",
        4,
        ("", "optplan: F25 PlanShape plan 9\n", 1),
    ),
    (
        &["validate", "d", "p", "l", "--explain"],
        "(go a b)\n()",
        5,
        (
            "",
            "optplan: F25 PlanShape plan 9\nl:2:1: this list is no step: a step is a name and its arguments, without lists\n()\n^\n",
            1,
        ),
    ),
    // The plan is shown as it is in its file.
    (
        &["optimal", "d", "p", "l", "q", "--explain"],
        "1: (go a b)\n2: (go (b) c)",
        6,
        (
            "",
            "optplan: F25 PlanShape plan 19\nl:2:8: this list is no step: a step is a name and its arguments, without lists\n2: (go (b) c)\n       ^\n",
            1,
        ),
    ),
    // A file that cannot be read is not explained, and an answer stays as it is.
    (
        &["check", "d", "p", "q", "--explain"],
        "",
        2,
        ("", "optplan: F70 CannotRead cert\n", 7),
    ),
    (
        &["check", "d", "p", "q", "--explain"],
        "",
        4,
        ("accepted 2\n", "", 0),
    ),
];

#[test]
fn one_call_of_an_explanation_fails(rt: HostRuntime) -> Result<(), Fail> {
    for (words, plan, calls_before, texts) in EXPLAINED_ROWS {
        let outcome = run_with_fault(&rt, words, plan, *calls_before, DeviceFault::Failed)?;
        assert_eq!(rt;
            outcome,
            wanted(rt.alloc(), *texts)?,
            "at {words:?} {plan} {calls_before}"
        );
    }
    Ok(())
}

const MEMORY_ROWS: &[FaultRow] = &[
    (VALIDATE, PLAN, 0, ("", "optplan: out of memory\n", 6)),
    (VALIDATE, PLAN, 1, ("", "optplan: out of memory\n", 6)),
    (VALIDATE, PLAN, 2, ("", "optplan: out of memory\n", 6)),
    (VALIDATE, PLAN, 3, ("", "optplan: out of memory\n", 6)),
    (VALIDATE, PLAN, 4, ("valid 2\n", "", 0)),
    (VALIDATE, "()", 3, ("", "", 1)),
    (OPTIMAL, PLAN, 3, ("", "optplan: out of memory\n", 6)),
    (OPTIMAL, PLAN, 4, ("", "optplan: out of memory\n", 6)),
    (OPTIMAL, PLAN, 5, ("optimal 2\n", "", 0)),
    (CHECK, "", 0, ("", "optplan: out of memory\n", 6)),
    (CHECK, "", 1, ("", "optplan: out of memory\n", 6)),
    (CHECK, "", 2, ("", "optplan: out of memory\n", 6)),
    (CHECK, "", 3, ("accepted 2\n", "", 0)),
    (CHECK_OF_NO_CERTIFICATE, "", 2, ("", "", 1)),
    (CHECK_PLANNING, "", 0, ("", "optplan: out of memory\n", 6)),
    (CHECK_PLANNING, "", 2, ("", "optplan: out of memory\n", 6)),
    (CHECK_PLANNING, "", 3, ("", "optplan: out of memory\n", 6)),
    (CHECK_PLANNING, "", 4, ("accepted 2\n", "", 0)),
    (TRANSLATE, "", 1, ("", "optplan: out of memory\n", 6)),
    (TRANSLATE, "", 2, ("", "optplan: out of memory\n", 6)),
    (TRANSLATE, "", 3, (ROAD_SAS, "", 0)),
    (MIGRATE, "", 0, ("", "optplan: out of memory\n", 6)),
    (MIGRATE, "", 1, ("", "optplan: out of memory\n", 6)),
    (MIGRATE, "", 2, (MIGRATED_CERTIFICATE, "", 0)),
    (MIGRATE_NO_CERTIFICATE, "", 1, ("", "", 1)),
];

#[test]
fn one_call_is_refused_memory(rt: HostRuntime) -> Result<(), Fail> {
    for (words, plan, calls_before, texts) in MEMORY_ROWS {
        let outcome = run_with_fault(&rt, words, plan, *calls_before, DeviceFault::Memory)?;
        assert_eq!(rt;
            outcome,
            wanted(rt.alloc(), *texts)?,
            "at {words:?} {plan} {calls_before}"
        );
    }
    Ok(())
}

/// The number of calls that succeed before all fail, the report too, and the status.
const ALL_FAIL_ROWS: &[(u64, u8)] = &[(0, 7), (1, 7), (2, 7), (3, 7)];

#[test]
fn every_call_fails_from_one_on(rt: HostRuntime) -> Result<(), Fail> {
    let files = [
        ("d", ROAD_DOMAIN.as_bytes()),
        ("p", ROAD_PROBLEM.as_bytes()),
        ("l", PLAN.as_bytes()),
    ];
    let words = program_words(rt.alloc(), VALIDATE)?;
    for (calls, status) in ALL_FAIL_ROWS {
        let mut device = MemoryDevice::new(rt.alloc(), &files, *calls);
        let given = run(&words, &mut device, &rt);
        let outcome = recorded(rt.alloc(), device.events(), given.code())?;
        assert_eq!(rt;
            outcome,
            wanted(rt.alloc(), ("", "", *status))?,
            "at {calls}"
        );
    }
    Ok(())
}
