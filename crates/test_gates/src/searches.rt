//! Worked tasks with two and four workers, under each of the gates.

use crate::gates::{FirstIsLate, FirstTurns, LastIsFirst};
use crate::texts::{
    DRIVE_DOMAIN, DRIVE_PROBLEM, GRIP_DOMAIN, GRIP_PROBLEM, ROAD_DOMAIN, ROAD_PROBLEM,
    ROAD_PROBLEM_WITHOUT_WAY,
};
use cert::write_cert;
use cert_value::Certificate;
use checker::{PlanningVerdict, check_pddl};
use cost::Dist;
use optplan_pddl::{PlanningAnswer, solve};
use optplan_solver::{Answer, Options};
use std::process::Abort;
use std::sync::Wait;
use std::test::Fail;
use std::thread::Threads;
use std::time::Clock;
use testing_meetings::Meeting;

/// Checks that there is a certificate, which the checker accepts for this bound.
fn certifies<R: Threads + Sync + Abort + AllocGlobal>(
    rt: &R,
    domain: &str,
    problem: &str,
    certificate: &Option<Certificate>,
    bound: Dist,
) -> Result<(), Fail> {
    let Some(certificate) = certificate else {
        panic!(rt; "no certificate");
    };
    let cert = write_cert(rt.alloc(), certificate)?;
    match check_pddl(rt, domain.as_bytes(), problem.as_bytes(), &cert)? {
        PlanningVerdict::Accepted(accepted) => assert_eq!(rt; accepted, bound),
        PlanningVerdict::Rejected(violation) => panic!(rt; "rejected {violation}"),
    }
    Ok(())
}

/// Checks that the answer is a plan whose text has this end, with a certificate for this cost; or, without a cost, that
/// there is no plan.
fn is_right<R: Threads + Sync + Abort + AllocGlobal>(
    rt: &R,
    domain: &str,
    problem: &str,
    answer: &PlanningAnswer,
    ending: &str,
    cost: Option<u64>,
) -> Result<(), Fail> {
    match (answer, cost) {
        (Answer::Solved(solution), Some(cost)) => {
            assert!(rt; solution.found.plan_text.as_str().ends_with(ending));
            assert_eq!(rt; solution.found.cost, cost);
            let bound = Dist::fin(cost).ok_or("a distance")?;
            certifies(rt, domain, problem, &solution.certificate, bound)
        }
        (Answer::Unsolvable(cert), None) => certifies(rt, domain, problem, cert, Dist::inf()),
        _ => panic!(rt; "another answer"),
    }
}

/// Checks the answers for a task under both gates, with two and with four workers.
fn answers<R: Threads + Wait + Clock + Sync + Abort + AllocGlobal>(
    rt: &R,
    domain: &str,
    problem: &str,
    ending: &str,
    cost: Option<u64>,
) -> Result<(), Fail> {
    let (first, second) = (domain.as_bytes(), problem.as_bytes());
    for workers in [2, 4] {
        let options = Options::new().with_workers(workers);
        let late = solve(rt, first, second, &options, &FirstIsLate::new())?;
        is_right(rt, domain, problem, &late, ending, cost)?;
        let early = solve(rt, first, second, &options, &LastIsFirst::of(workers))?;
        is_right(rt, domain, problem, &early, ending, cost)?;
    }
    Ok(())
}

#[test]
fn a_road(rt: HostRuntime) -> Result<(), Fail> {
    let plan = "(go a b)\n(go b c)\n; cost = 2 (unit cost)\n";
    answers(&rt, ROAD_DOMAIN, ROAD_PROBLEM, plan, Some(2))
}

#[test]
fn a_way_around(rt: HostRuntime) -> Result<(), Fail> {
    let plan = "(go a b)\n(go b c)\n; cost = 7 (general cost)\n";
    answers(&rt, DRIVE_DOMAIN, DRIVE_PROBLEM, plan, Some(7))
}

#[test]
fn no_way(rt: HostRuntime) -> Result<(), Fail> {
    answers(&rt, ROAD_DOMAIN, ROAD_PROBLEM_WITHOUT_WAY, "", None)
}

#[test]
fn two_balls(rt: HostRuntime) -> Result<(), Fail> {
    answers(
        &rt,
        GRIP_DOMAIN,
        GRIP_PROBLEM,
        "; cost = 7 (unit cost)\n",
        Some(7),
    )
}

/// With two workers that wait for each other in their first turns.
#[test]
fn two_balls_by_workers_at_once(rt: HostRuntime) -> Result<(), Fail> {
    let meeting = Meeting::new();
    let options = Options::new().with_workers(2);
    let (domain, problem) = (GRIP_DOMAIN.as_bytes(), GRIP_PROBLEM.as_bytes());
    let answer = solve(&rt, domain, problem, &options, &meeting)?;
    let ending = "; cost = 7 (unit cost)\n";
    is_right(&rt, GRIP_DOMAIN, GRIP_PROBLEM, &answer, ending, Some(7))?;
    assert!(&rt; meeting.is_met());
    Ok(())
}

/// Checks that searches by two and by four workers have a first turn of each worker, and no other: messages are taken
/// within the one round.
fn have_one_round<R: Threads + Wait + Clock + Sync + Abort + AllocGlobal>(
    rt: &R,
    domain: &str,
    problem: &str,
    ending: &str,
    cost: u64,
) -> Result<(), Fail> {
    for workers in [2, 4] {
        let gate = FirstTurns::new();
        let options = Options::new().with_workers(workers);
        let answer = solve(rt, domain.as_bytes(), problem.as_bytes(), &options, &gate)?;
        is_right(rt, domain, problem, &answer, ending, Some(cost))?;
        assert_eq!(rt; gate.count(), workers as u64);
    }
    Ok(())
}

#[test]
fn a_road_in_one_round(rt: HostRuntime) -> Result<(), Fail> {
    let plan = "(go a b)\n(go b c)\n; cost = 2 (unit cost)\n";
    have_one_round(&rt, ROAD_DOMAIN, ROAD_PROBLEM, plan, 2)
}

#[test]
fn two_balls_in_one_round(rt: HostRuntime) -> Result<(), Fail> {
    have_one_round(
        &rt,
        GRIP_DOMAIN,
        GRIP_PROBLEM,
        "; cost = 7 (unit cost)\n",
        7,
    )
}
