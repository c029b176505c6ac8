//! The solver with lists of steps that were worked out by hand, which no command accepts.

use cert::write_cert;
use cert_value::Certificate;
use checker::{PlanningVerdict, Verdict, check_pddl, check_sas};
use cost::Dist;
use netcore::WorldStep;
use netcore::WorldStep::Expand;
use optplan_pddl::solve_steps;
use optplan_sas::solve_sas_steps;
use optplan_solver::{Answer, Options};
use std::alloc::Global;
use std::process::Abort;
use std::test::Fail;
use std::thread::Threads;
use testing_runs::texts::{ROAD_DOMAIN, ROAD_PROBLEM, ROAD_SAS};

/// The one worker expands a, and b is reached.
const TOO_FEW: &[WorldStep] = &[Expand(0)];

/// It expands a and b, and the goal c is reached.
const ENOUGH: &[WorldStep] = &[Expand(0), Expand(0)];

/// Returns the answer for the road's texts: a plan's text, that there is no plan, or that it is not known.
fn answer<R: AllocGlobal + Threads + Sync>(rt: &R, steps: &[WorldStep]) -> Result<String, Fail> {
    let options = Options::new().with_workers(1);
    let (domain, problem) = (ROAD_DOMAIN.as_bytes(), ROAD_PROBLEM.as_bytes());
    match solve_steps(rt, domain, problem, &options, steps)? {
        Answer::Solved(solution) => Ok(solution.found.plan_text),
        Answer::Unsolvable(_) => Ok(String::from_str(rt.alloc(), "unsolvable")?),
        Answer::Limit(known) => Ok(format!(in rt.alloc(); "limit {}", known.bound)?),
    }
}

/// Returns the text of a certificate.
fn text_of(alloc: Global, certificate: &Option<Certificate>) -> Result<Vec<u8>, Fail> {
    match certificate {
        Some(certificate) => Ok(write_cert(alloc, certificate)?),
        None => Err(Fail::from("no certificate")),
    }
}

/// Returns the certificate of the plan that is found for the road's texts.
fn certificate<R: AllocGlobal + Threads + Sync>(rt: &R) -> Result<Vec<u8>, Fail> {
    let options = Options::new().with_workers(1);
    let (domain, problem) = (ROAD_DOMAIN.as_bytes(), ROAD_PROBLEM.as_bytes());
    match solve_steps(rt, domain, problem, &options, ENOUGH)? {
        Answer::Solved(solution) => text_of(rt.alloc(), &solution.certificate),
        Answer::Unsolvable(_) | Answer::Limit(_) => Ok(Vec::new(rt.alloc())),
    }
}

#[test]
fn steps_on_a_planning_task(rt: HostRuntime) -> Result<(), Fail> {
    assert_eq!(rt; answer(&rt, TOO_FEW)?.as_str(), "limit 2");
    let plan = answer(&rt, ENOUGH)?;
    assert_eq!(rt;
        plan.as_str(),
        "(go a b)\n(go b c)\n; cost = 2 (unit cost)\n"
    );
    Ok(())
}

/// Checks that the checker accepts the certificate for this bound.
fn certifies<R: Threads + Sync + Abort + AllocGlobal>(
    rt: &R,
    cert: &[u8],
    bound: Dist,
) -> Result<(), Fail> {
    match check_pddl(rt, ROAD_DOMAIN.as_bytes(), ROAD_PROBLEM.as_bytes(), cert)? {
        PlanningVerdict::Accepted(accepted) => assert_eq!(rt; accepted, bound),
        PlanningVerdict::Rejected(violation) => panic!(rt; "rejected {violation}"),
    }
    Ok(())
}

#[test]
fn certificate_of_a_planning_task(rt: HostRuntime) -> Result<(), Fail> {
    let cert = certificate(&rt)?;
    let bound = Dist::fin(2).ok_or("a distance")?;
    certifies(&rt, &cert, bound)
}

#[test]
fn steps_on_a_finite_domain_task(rt: HostRuntime) -> Result<(), Fail> {
    let options = Options::new().with_workers(1);
    let sas = ROAD_SAS.as_bytes();
    match solve_sas_steps(&rt, sas, &options, TOO_FEW)? {
        // the goal is two steps away from the initial state
        Answer::Limit(known) => assert_eq!(rt; (known.bound, known.best.is_none()), (2, true)),
        Answer::Solved(_) => panic!(rt; "settled"),
        Answer::Unsolvable(_) => panic!(rt; "unsolvable"),
    }
    match solve_sas_steps(&rt, sas, &options, ENOUGH)? {
        Answer::Solved(solution) => {
            assert_eq!(rt;
                (solution.found.cost, solution.found.plan.as_slice()),
                (2, [0, 1].as_slice())
            );
            let bound = Dist::fin(2).ok_or("a distance")?;
            let cert = text_of(rt.alloc(), &solution.certificate)?;
            assert_eq!(rt; check_sas(&rt, sas, &cert)?, Verdict::Accepted(bound));
            Ok(())
        }
        Answer::Unsolvable(_) => panic!(rt; "unsolvable"),
        Answer::Limit(_) => panic!(rt; "unsettled"),
    }
}

#[test]
fn no_certificate_where_none_is_requested(rt: HostRuntime) -> Result<(), Fail> {
    let options = Options::new().with_workers(1).with_certificate(false);
    let (domain, problem) = (ROAD_DOMAIN.as_bytes(), ROAD_PROBLEM.as_bytes());
    match solve_steps(&rt, domain, problem, &options, ENOUGH)? {
        Answer::Solved(solution) => {
            assert_eq!(rt; solution.found.cost, 2);
            assert!(rt; solution.certificate.is_none());
            Ok(())
        }
        Answer::Unsolvable(_) => panic!(rt; "unsolvable"),
        Answer::Limit(_) => panic!(rt; "unsettled"),
    }
}
