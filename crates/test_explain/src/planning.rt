//! Faults of domains and problems.

use optplan_explain::{Source, Sources, explanation};
use optplan_replies::Fault;
use pddl::PddlFault;
use pddl_syntax::{Fault as TextFault, FaultKind, LimitedTable, PlanningFile};
use sexp::SexpFault;
use std::alloc::Global;
use std::process::Abort;

/// Returns the sources of a domain and a problem.
fn sources<'a>(domain: &'a [u8], problem: &'a [u8]) -> Sources<'a> {
    Sources {
        domain: Some(Source {
            path: "d.pddl",
            text: domain,
        }),
        problem: Some(Source {
            path: "in/p.pddl",
            text: problem,
        }),
        plan: None,
        sas: None,
        cert: None,
    }
}

/// Checks the explanation of a fault in a domain.
fn is_of_domain(rt: &impl Abort, alloc: Global, text: &[u8], fault: PddlFault, want: &str) {
    let told = explanation(alloc, &Fault::Task(fault, None), &sources(text, b"(no)"));
    let told = told.expect(rt, "memory").expect(rt, "an explanation");
    assert_eq!(rt; told.as_str(), want);
}

/// Checks the explanation of a fault in a problem.
fn is_of_problem(rt: &impl Abort, alloc: Global, text: &[u8], fault: PddlFault, want: &str) {
    let told = explanation(alloc, &Fault::Task(fault, None), &sources(b"(no)", text));
    let told = told.expect(rt, "memory").expect(rt, "an explanation");
    assert_eq!(rt; told.as_str(), want);
}

/// Texts with a fault of their trees.
const TREES: &[(&[u8], SexpFault, &str)] = &[
    (
        b"(a \xc3\xa9)",
        SexpFault::NotAscii(3),
        "d.pddl:1:4: this byte is allowed only in a comment\n(a   )\n   ^\n",
    ),
    (
        b"(a\n(b",
        SexpFault::Unclosed(3),
        "d.pddl:2:1: this parenthesis is never closed\n(b\n^\n",
    ),
    (
        b"(a))",
        SexpFault::StrayClose(3),
        "d.pddl:1:4: this parenthesis closes nothing\n(a))\n   ^\n",
    ),
    (
        b"((((\n((",
        SexpFault::TooDeep(6),
        "d.pddl:2:2: this parenthesis opens one level more than 200\n((\n ^\n",
    ),
    (
        b"",
        SexpFault::Empty,
        "d.pddl:1:1: the text ends without an expression\n\n^\n",
    ),
    (
        b"; nothing\n; more",
        SexpFault::Empty,
        "d.pddl:2:7: the text ends without an expression\n; more\n      ^\n",
    ),
    (
        b"(a) b",
        SexpFault::Trailing(4),
        "d.pddl:1:5: this follows the end of the one expression\n(a) b\n    ^\n",
    ),
];

#[test]
fn trees_are_explained(rt: HostRuntime) {
    for (text, fault, want) in TREES {
        let fault = PddlFault::Tree(PlanningFile::Domain, *fault);
        is_of_domain(&rt, rt.alloc(), text, fault, want);
    }
}

/// Texts with a fault of their content.
const CONTENTS: &[(&[u8], usize, FaultKind, &str)] = &[
    (
        b"(define (domain hub) 180km)",
        21,
        FaultKind::Shape,
        "d.pddl:1:22: `180km` is not allowed here\n(define (domain hub) 180km)\n                     ^\n",
    ),
    (
        b"(a ())",
        3,
        FaultKind::Shape,
        "d.pddl:1:4: this list is not allowed here, has another form than required, or lacks a part\n(a ())\n   ^\n",
    ),
    (
        b"(:derived (p) (q))",
        1,
        FaultKind::Unsupported,
        "d.pddl:1:2: `:derived` is not supported\n(:derived (p) (q))\n ^\n",
    ),
    (
        b"(p a\tb)",
        0,
        FaultKind::Arity,
        "d.pddl:1:1: `p` has another number of arguments than it is declared with\n(p a b)\n^\n",
    ),
    (
        b"go\r\ngo\r\n",
        4,
        FaultKind::TwiceDeclared,
        "d.pddl:2:1: `go` is declared twice\ngo \n^\n",
    ),
    (
        b"(= (f) 1)(= (f) 2)",
        9,
        FaultKind::TwiceDeclared,
        "d.pddl:1:10: this list is declared or stated a second time\n(= (f) 1)(= (f) 2)\n         ^\n",
    ),
    (
        b"a - b b - a",
        0,
        FaultKind::TypeCycle,
        "d.pddl:1:1: `a` lies on a cycle of supertypes\na - b b - a\n^\n",
    ),
    (
        b"(= (toll) 1.5)",
        10,
        FaultKind::NotWhole,
        "d.pddl:1:11: `1.5` is not a whole number\n(= (toll) 1.5)\n          ^\n",
    ),
    (
        b"(= (toll) -5)",
        10,
        FaultKind::CostRange,
        "d.pddl:1:11: `-5` is not a cost from 0 to 2147483647\n(= (toll) -5)\n          ^\n",
    ),
    (
        b"\n\n(:action go)",
        2,
        FaultKind::CostRange,
        "d.pddl:3:1: this list has increases whose sum may be above 2147483647\n(:action go)\n^\n",
    ),
    (
        b"(p) (not (p))",
        4,
        FaultKind::GoalBothWays,
        "d.pddl:1:5: this list follows its negation in the goal\n(p) (not (p))\n    ^\n",
    ),
    (
        b"(p)",
        99,
        FaultKind::Shape,
        "d.pddl:1:4: this list is not allowed here, has another form than required, or lacks a part\n(p)\n   ^\n",
    ),
];

#[test]
fn contents_are_explained(rt: HostRuntime) {
    for (text, at, kind, want) in CONTENTS {
        let fault = TextFault {
            at: *at,
            kind: *kind,
        };
        let fault = PddlFault::Section(PlanningFile::Domain, fault);
        is_of_domain(&rt, rt.alloc(), text, fault, want);
    }
}

/// Tables that are limited, and what is said of a name past the limit.
const LIMITS: &[(LimitedTable, &str)] = &[
    (
        LimitedTable::Objects,
        "d.pddl:1:1: `x` is past the limit of 4096 objects, constants among them\nx\n^\n",
    ),
    (
        LimitedTable::Predicates,
        "d.pddl:1:1: `x` is past the limit of 512 predicates\nx\n^\n",
    ),
    (
        LimitedTable::Functions,
        "d.pddl:1:1: `x` is past the limit of 512 functions\nx\n^\n",
    ),
    (
        LimitedTable::Schemas,
        "d.pddl:1:1: `x` is past the limit of 512 actions\nx\n^\n",
    ),
    (
        LimitedTable::Arguments,
        "d.pddl:1:1: `x` is past the limit of 16 parameters or arguments\nx\n^\n",
    ),
    (
        LimitedTable::Literals,
        "d.pddl:1:1: `x` is past the limit of 256 literals of an action\nx\n^\n",
    ),
    (
        LimitedTable::Increases,
        "d.pddl:1:1: `x` is past the limit of 16 increases of an action\nx\n^\n",
    ),
    (
        LimitedTable::Init,
        "d.pddl:1:1: `x` is past the limit of 1000000 items of :init\nx\n^\n",
    ),
];

#[test]
fn limits_are_explained(rt: HostRuntime) {
    for (table, want) in LIMITS {
        let fault = TextFault {
            at: 0,
            kind: FaultKind::Limit(*table),
        };
        let fault = PddlFault::Section(PlanningFile::Domain, fault);
        is_of_domain(&rt, rt.alloc(), b"x", fault, want);
    }
}

#[test]
fn a_missing_goal_is_explained(rt: HostRuntime) {
    let fault = TextFault {
        at: 3,
        kind: FaultKind::Shape,
    };
    is_of_problem(
        &rt,
        rt.alloc(),
        b";;\n(define (problem p) (:domain d))",
        PddlFault::Section(PlanningFile::Problem, fault),
        "in/p.pddl:2:1: this problem lacks a part: its `:goal` may be missing or misspelt\n(define (problem p) (:domain d))\n^\n",
    );
}

/// Lines that are longer than what is shown of them, or as long, with a fault at an offset.
const LONG: &[(&str, usize, &str)] = &[
    (
        "zaaaaaaaaaaaaaaaaaaaaaaaaaaaaaaaaaaaaaaaaaaaaaaaaaaaaaaaaaaaaaaaaaaaaaaaaaaaaaaaaaaaaaaaaaaaaaaaaaaaab",
        101,
        "d.pddl:1:102: this byte is allowed only in a comment\naaaaaaaaaaaaaaaaaaaaaaaaaaaaaaaaaaaaaaaaaaaaaaaaaaaaaaaaaaaaaaaaaaaaaaaaaaaaaaaaaaaaaaaaaaaaaaaaaaaab\n                                                                                                    ^\n",
    ),
    (
        "aaaaaaaaaaaaaaaaaaaaaaaaaaaaaaaaaaaaaaaaaaaaaaaaaaaaaaaaaaaaaaaaaaaaaaaaaaaaaaaaaaaaaaaaaaaaaaaaaaab",
        99,
        "d.pddl:1:100: this byte is allowed only in a comment\naaaaaaaaaaaaaaaaaaaaaaaaaaaaaaaaaaaaaaaaaaaaaaaaaaaaaaaaaaaaaaaaaaaaaaaaaaaaaaaaaaaaaaaaaaaaaaaaaaab\n                                                                                                   ^\n",
    ),
    (
        "bcccccccccccccccccccccccccccccccccccccccccccccccccccccccccccz",
        0,
        "d.pddl:1:1: this byte is allowed only in a comment\nbccccccccccccccccccccccccccccccccccccccccccccccccccccccccccc\n^\n",
    ),
    (
        "bcccccccccccccccccccccccccccccccccccccccccccccccccccccccccc\nz",
        0,
        "d.pddl:1:1: this byte is allowed only in a comment\nbcccccccccccccccccccccccccccccccccccccccccccccccccccccccccc\n^\n",
    ),
    (
        "\nzzzzzzzzzzzzzzzzzzzzaaaaaaaaaaaaaaaaaaaaaaaaaaaaaaaaaaaaaaaaaaaaaaaaaaaaaaaaaaaaaaaaaaaaaaaaaaaaaaaaaaaaaaaaaaaaaaaaaaaabccccccccccccccccccccccccccccccccccccccccccccccccccccccccccczzzzzzzzzzzzzzzzzzzz\nz",
        121,
        "d.pddl:2:121: this byte is allowed only in a comment\naaaaaaaaaaaaaaaaaaaaaaaaaaaaaaaaaaaaaaaaaaaaaaaaaaaaaaaaaaaaaaaaaaaaaaaaaaaaaaaaaaaaaaaaaaaaaaaaaaaabccccccccccccccccccccccccccccccccccccccccccccccccccccccccccc\n                                                                                                    ^\n",
    ),
];

#[test]
fn long_lines_are_cut(rt: HostRuntime) {
    for (text, at, want) in LONG {
        let fault = PddlFault::Tree(PlanningFile::Domain, SexpFault::NotAscii(*at));
        is_of_domain(&rt, rt.alloc(), text.as_bytes(), fault, want);
    }
}
