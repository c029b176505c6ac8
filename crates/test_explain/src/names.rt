//! Names that are not declared.

use optplan_explain::{Source, Sources, explanation};
use optplan_replies::Fault;
use pddl::PddlFault;
use pddl_syntax::{Fault as TextFault, FaultKind, PlanningFile};
use std::alloc::Global;
use std::process::Abort;

/// Returns the file with this path and text.
fn file<'a>(path: &'a str, text: &'a [u8]) -> Option<Source<'a>> {
    Some(Source { path, text })
}

/// Returns the fault of a name that is not declared.
fn unknown(file: PlanningFile, at: usize) -> Fault {
    let kind = FaultKind::UnknownName;
    Fault::Task(PddlFault::Section(file, TextFault { at, kind }), None)
}

fn is_told(rt: &impl Abort, alloc: Global, fault: &Fault, sources: &Sources<'_>, want: &str) {
    let told = explanation(alloc, fault, sources);
    let told = told.expect(rt, "memory").expect(rt, "an explanation");
    assert_eq!(rt; told.as_str(), want);
}

/// Texts of domains, and the offset of a name that is not declared.
const DOMAINS: &[(&[u8], usize, &str)] = &[
    (
        b"(and (at ?c))",
        9,
        "d:1:10: the variable `?c` is not declared\n(and (at ?c))\n         ^\n",
    ),
    (
        b"(:constants a - trck)",
        16,
        "d:1:17: the type `trck` is not declared\n(:constants a - trck)\n                ^\n",
    ),
    (
        b"(?a - (either b c))",
        16,
        "d:1:17: the type `c` is not declared\n(?a - (either b c))\n                ^\n",
    ),
    (
        b"(increase (total) (dst ?a))",
        19,
        "d:1:20: the function `dst` is not declared\n(increase (total) (dst ?a))\n                   ^\n",
    ),
    (
        b"(and ; (= 1\n(lod ?a))",
        13,
        "d:2:2: the predicate `lod` is not declared\n(lod ?a))\n ^\n",
    ),
    (
        b"(at (x) depo)",
        8,
        "d:1:9: the object `depo` is not declared\n(at (x) depo)\n        ^\n",
    ),
    // The nearest name is parked, and packed takes two edits.
    (
        b"(define (domain hub)\n(:predicates (packed ?t) (parked ?t))\n(:action go :precondition (parkd ?t)))\n",
        86,
        "d:3:28: the predicate `parkd` is not declared\n(:action go :precondition (parkd ?t)))\n                           ^\nnearest declared name: parked\n",
    ),
    // Of two that are as near, the first.
    (
        b"(define (:predicates (packet) (parked))\n(:action go :precondition (PARKET)))",
        67,
        "d:2:28: the predicate `PARKET` is not declared\n(:action go :precondition (PARKET)))\n                           ^\nnearest declared name: packet\n",
    ),
    // The name of an action, and no word after it.
    (
        b"(define (:action drive :parameters drove)\n(drve))",
        43,
        "d:2:2: the predicate `drve` is not declared\n(drve))\n ^\nnearest declared name: drive\n",
    ),
    // One edit of two letters is more than a third, and so are two edits of five letters.
    (
        b"(define (:constants gi parks) (at go))",
        34,
        "d:1:35: the object `go` is not declared\n(define (:constants gi parks) (at go))\n                                  ^\n",
    ),
    (
        b"(define (:constants parks) (at porky))",
        31,
        "d:1:32: the object `porky` is not declared\n(define (:constants parks) (at porky))\n                               ^\n",
    ),
    // No declared name is near to a variable.
    (
        b"(define (:types truck) (at ?truck))",
        27,
        "d:1:28: the variable `?truck` is not declared\n(define (:types truck) (at ?truck))\n                           ^\n",
    ),
    // A word in a comment, a variable and a head are not declared.
    (
        b"(define (:functions (?depot) ; depot\n(dept)) (:depot depot) (at depots))",
        64,
        "d:2:28: the object `depots` is not declared\n(dept)) (:depot depot) (at depots))\n                           ^\nnearest declared name: dept\n",
    ),
];

#[test]
fn names_of_domains_are_explained(rt: HostRuntime) {
    for (text, at, want) in DOMAINS {
        let sources = Sources {
            domain: file("d", text),
            problem: file("p", b"(define (:objects parkd park dept drve))"),
            plan: None,
            sas: None,
            cert: None,
        };
        is_told(
            &rt,
            rt.alloc(),
            &unknown(PlanningFile::Domain, *at),
            &sources,
            want,
        );
    }
}

/// Texts of problems, and the offset of a name that is not declared.
const PROBLEMS: &[(&[u8], usize, &str)] = &[
    (
        b"(define (:objects duisburg) (:init (at duisberg)))",
        39,
        "p:1:40: the object `duisberg` is not declared\n(define (:objects duisburg) (:init (at duisberg)))\n                                       ^\nnearest declared name: duisburg\n",
    ),
    (
        b"(define (:objects depots) (:init (at depol)))",
        37,
        "p:1:38: the object `depol` is not declared\n(define (:objects depots) (:init (at depol)))\n                                     ^\nnearest declared name: depot\n",
    ),
    (
        b"(define (:objects depoy) (:init (at depol)))",
        36,
        "p:1:37: the object `depol` is not declared\n(define (:objects depoy) (:init (at depol)))\n                                    ^\nnearest declared name: depot\n",
    ),
];

#[test]
fn names_of_problems_are_explained(rt: HostRuntime) {
    for (text, at, want) in PROBLEMS {
        let sources = Sources {
            domain: file("d", b"(define (domain hub) (:constants depot))"),
            problem: file("p", text),
            plan: None,
            sas: None,
            cert: None,
        };
        is_told(
            &rt,
            rt.alloc(),
            &unknown(PlanningFile::Problem, *at),
            &sources,
            want,
        );
    }
}

/// Names of 61, 60, 64 and 65 letters: quoted are 60, and compared 64.
const LONG: &[(&str, usize, &str)] = &[
    (
        "(nnnnnnnnnnnnnnnnnnnnnnnnnnnnnnnnnnnnnnnnnnnnnnnnnnnnnnnnnnnnn)",
        1,
        "d:1:2: the predicate `nnnnnnnnnnnnnnnnnnnnnnnnnnnnnnnnnnnnnnnnnnnnnnnnnnnnnnnnnnnn..` is not declared\n(nnnnnnnnnnnnnnnnnnnnnnnnnnnnnnnnnnnnnnnnnnnnnnnnnnnnnnnnnnnn\n ^\n",
    ),
    (
        "(nnnnnnnnnnnnnnnnnnnnnnnnnnnnnnnnnnnnnnnnnnnnnnnnnnnnnnnnnnnn)",
        1,
        "d:1:2: the predicate `nnnnnnnnnnnnnnnnnnnnnnnnnnnnnnnnnnnnnnnnnnnnnnnnnnnnnnnnnnnn` is not declared\n(nnnnnnnnnnnnnnnnnnnnnnnnnnnnnnnnnnnnnnnnnnnnnnnnnnnnnnnnnnnn\n ^\n",
    ),
    (
        "(define (:constants mmmmmmmmmmmmmmmmmmmmmmmmmmmmmmmmmmmmmmmmmmmmmmmmmmmmmmmmmmmmmmmk) (mmmmmmmmmmmmmmmmmmmmmmmmmmmmmmmmmmmmmmmmmmmmmmmmmmmmmmmmmmmmmmmm))",
        87,
        "d:1:88: the predicate `mmmmmmmmmmmmmmmmmmmmmmmmmmmmmmmmmmmmmmmmmmmmmmmmmmmmmmmmmmmm..` is not declared\n(define (:constants mmmmmmmmmmmmmmmmmmmmmmmmmmmmmmmmmmmmmmmmmmmmmmmmmmmmmmmmmmmmmmmk) (mmmmmmmmmmmmmmmmmmmmmmmmmmmmmmmmmmmmmmmmmmmmmmmmmmmmmmmmmmmm\n                                                                                       ^\nnearest declared name: mmmmmmmmmmmmmmmmmmmmmmmmmmmmmmmmmmmmmmmmmmmmmmmmmmmmmmmmmmmmmmmk\n",
    ),
    (
        "(define (:constants mmmmmmmmmmmmmmmmmmmmmmmmmmmmmmmmmmmmmmmmmmmmmmmmmmmmmmmmmmmmmmmmk) (mmmmmmmmmmmmmmmmmmmmmmmmmmmmmmmmmmmmmmmmmmmmmmmmmmmmmmmmmmmmmmmmm))",
        88,
        "d:1:89: the predicate `mmmmmmmmmmmmmmmmmmmmmmmmmmmmmmmmmmmmmmmmmmmmmmmmmmmmmmmmmmmm..` is not declared\n(define (:constants mmmmmmmmmmmmmmmmmmmmmmmmmmmmmmmmmmmmmmmmmmmmmmmmmmmmmmmmmmmmmmmmk) (mmmmmmmmmmmmmmmmmmmmmmmmmmmmmmmmmmmmmmmmmmmmmmmmmmmmmmmmmmmm\n                                                                                        ^\n",
    ),
];

#[test]
fn long_names_are_cut(rt: HostRuntime) {
    for (text, at, want) in LONG {
        let sources = Sources {
            domain: file("d", text.as_bytes()),
            problem: None,
            plan: None,
            sas: None,
            cert: None,
        };
        is_told(
            &rt,
            rt.alloc(),
            &unknown(PlanningFile::Domain, *at),
            &sources,
            want,
        );
    }
}
