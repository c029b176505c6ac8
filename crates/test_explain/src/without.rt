//! Faults without an explanation, and explanations for which memory lacks.

use cert_text::CertFault;
use fdr::TaskLimit;
use optplan_explain::{Source, Sources, explanation};
use optplan_replies::{Fault, FileWord};
use pddl::PddlFault;
use pddl_syntax::{Fault as TextFault, FaultKind, PlanningFile};
use sasfile::SasFault;
use sexp::SexpFault;
use std::alloc::Global;
use validate::PlanFault;

const SOURCE: Source<'static> = Source {
    path: "f",
    text: b"(define (:types truck) (:action go (at trck)))",
};

const ALL: Sources<'static> = Sources {
    domain: Some(SOURCE),
    problem: Some(SOURCE),
    plan: Some(SOURCE),
    sas: Some(SOURCE),
    cert: Some(SOURCE),
};

const NONE: Sources<'static> = Sources {
    domain: None,
    problem: None,
    plan: None,
    sas: None,
    cert: None,
};

/// Returns whether a fault has no explanation.
fn has_none(alloc: Global, fault: &Fault, sources: &Sources<'_>) -> bool {
    match explanation(alloc, fault, sources) {
        Ok(told) => told.is_none(),
        Err(_) => false,
    }
}

#[test]
fn faults_without_a_place(rt: HostRuntime) {
    let alloc = rt.alloc();
    assert!(rt; has_none(alloc, &Fault::OutOfMemory, &ALL));
    assert!(rt; has_none(alloc, &Fault::CannotRead(FileWord::Domain), &ALL));
    assert!(rt; has_none(alloc, &Fault::CannotWrite(FileWord::Plan), &ALL));
    assert!(rt; has_none(alloc, &Fault::GroundLimit, &ALL));
    assert!(rt; has_none(alloc, &Fault::TotalTooLarge, &ALL));
    assert!(rt; has_none(alloc, &Fault::TaskTooLarge(TaskLimit::Variables), &ALL));
}

#[test]
fn texts_without_a_place(rt: HostRuntime) {
    let alloc = rt.alloc();
    let long = PddlFault::Tree(PlanningFile::Problem, SexpFault::TooLong);
    assert!(rt; has_none(alloc, &Fault::Task(long, None), &ALL));
    assert!(rt; has_none(alloc, &Fault::Task(PddlFault::OutOfMemory, None), &ALL));
    assert!(rt;
        has_none(
            alloc,
            &Fault::Plan(PlanFault::Tree(SexpFault::TooLong)),
            &ALL
        )
    );
    assert!(rt;
        has_none(
            alloc,
            &Fault::Sas(SasFault::Limit(TaskLimit::Operators)),
            &ALL
        )
    );
    assert!(rt; has_none(alloc, &Fault::Cert(CertFault::TooLong), &ALL));
}

#[test]
fn texts_that_were_not_read(rt: HostRuntime) {
    let alloc = rt.alloc();
    let stray = PddlFault::Tree(PlanningFile::Problem, SexpFault::StrayClose(0));
    assert!(rt; has_none(alloc, &Fault::Task(stray, None), &NONE));
    assert!(rt; has_none(alloc, &Fault::Plan(PlanFault::PlanLimit), &NONE));
    assert!(rt; has_none(alloc, &Fault::Sas(SasFault::Truncated), &NONE));
    assert!(rt; has_none(alloc, &Fault::Cert(CertFault::Header), &NONE));
}

/// Returns whether the explanation is this one, or memory lacks.
fn is_or_lacks(alloc: Global, fault: &Fault, want: &str) -> bool {
    match explanation(alloc, fault, &ALL) {
        Ok(Some(told)) => told.as_str() == want,
        Ok(None) => false,
        Err(_) => true,
    }
}

/// Passes whichever allocation fails.
#[test]
fn any_allocation_may_fail(rt: HostRuntime) {
    let kind = FaultKind::UnknownName;
    let fault = PddlFault::Section(PlanningFile::Problem, TextFault { at: 39, kind });
    let want =
        "f:1:40: the object `trck` is not declared\n(define (:types truck) (:action go (at trck)))\n                                       ^\nnearest declared name: truck\n";
    assert!(rt; is_or_lacks(rt.alloc(), &Fault::Task(fault, None), want));
    let want = "f:1: this is not version 3\n(define (:types truck) (:action go (at trck)))\n";
    assert!(rt; is_or_lacks(rt.alloc(), &Fault::Sas(SasFault::Version(1)), want));
}
