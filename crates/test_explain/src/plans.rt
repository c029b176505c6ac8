//! Faults of plans.

use optplan_explain::{Source, Sources, explanation};
use optplan_replies::Fault;
use sexp::SexpFault;
use validate::PlanFault;

/// Texts of plans, and the fault of each.
const PLANS: &[(&[u8], PlanFault, &str)] = &[
    (
        b"(go a)\nhalt b",
        PlanFault::PlanShape(7),
        "my plan:2:1: `halt` is outside of the lists that are the steps\nhalt b\n^\n",
    ),
    (
        b"(go (a))",
        PlanFault::PlanShape(4),
        "my plan:1:5: this list is no step: a step is a name and its arguments, without lists\n(go (a))\n    ^\n",
    ),
    (
        b"; cost = 1\n(go)",
        PlanFault::PlanLimit,
        "my plan:1:1: the plan has more than 1048576 steps\n; cost = 1\n^\n",
    ),
    (
        b"(go))",
        PlanFault::Tree(SexpFault::StrayClose(4)),
        "my plan:1:5: this parenthesis closes nothing\n(go))\n    ^\n",
    ),
];

#[test]
fn plans_are_explained(rt: HostRuntime) {
    for (text, fault, want) in PLANS {
        let sources = Sources {
            domain: None,
            problem: None,
            plan: Some(Source {
                path: "my plan",
                text,
            }),
            sas: None,
            cert: None,
        };
        let told = explanation(rt.alloc(), &Fault::Plan(*fault), &sources);
        let told = told.expect(&rt, "memory").expect(&rt, "an explanation");
        assert_eq!(rt; told.as_str(), *want);
    }
}
