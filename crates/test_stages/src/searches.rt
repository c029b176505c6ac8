//! Worked tasks, each stage forced to answer, and searches that are stopped in a later stage.

use crate::gates::{Counting, EndsStages, StopsLater};
use crate::texts::{
    DRIVE_DOMAIN, DRIVE_PROBLEM, GRIP_DOMAIN, GRIP_PROBLEM, ROAD_DOMAIN, ROAD_PROBLEM,
    ROAD_PROBLEM_WITHOUT_WAY,
};
use cert::write_cert;
use cert_value::Certificate;
use checker::{PlanningVerdict, check_pddl};
use cost::Dist;
use optplan_pddl::{PlanningAnswer, solve};
use optplan_solver::{Answer, EndingGate, Open, Options, STAGES, Tables};
use std::process::Abort;
use std::sync::Wait;
use std::test::Fail;
use std::thread::Threads;
use std::time::Clock;

/// Checks that there is a certificate, which the checker accepts for this bound.
fn certifies<R: Threads + Sync + Abort + AllocGlobal>(
    rt: &R,
    domain: &str,
    problem: &str,
    certificate: &Option<Certificate>,
    bound: Dist,
) -> Result<(), Fail> {
    let Some(certificate) = certificate else {
        panic!(rt; "no certificate");
    };
    let cert = write_cert(rt.alloc(), certificate)?;
    match check_pddl(rt, domain.as_bytes(), problem.as_bytes(), &cert)? {
        PlanningVerdict::Accepted(accepted) => assert_eq!(rt; accepted, bound),
        PlanningVerdict::Rejected(violation) => panic!(rt; "rejected {violation}"),
    }
    Ok(())
}

/// Checks that the answer is a plan of this cost, with a certificate for it; or, without a cost, that there is no plan.
fn is_right<R: Threads + Sync + Abort + AllocGlobal>(
    rt: &R,
    domain: &str,
    problem: &str,
    answer: &PlanningAnswer,
    cost: Option<u64>,
) -> Result<(), Fail> {
    match (answer, cost) {
        (Answer::Solved(solution), Some(cost)) => {
            assert_eq!(rt; solution.found.cost, cost);
            let bound = Dist::fin(cost).ok_or("a distance")?;
            certifies(rt, domain, problem, &solution.certificate, bound)
        }
        (Answer::Unsolvable(cert), None) => certifies(rt, domain, problem, cert, Dist::inf()),
        _ => panic!(rt; "another answer"),
    }
}

/// Returns options with stages of which the first `ended` end at once, and the others never.
fn ending(workers: usize, ended: usize) -> Options {
    let mut ends = [usize::MAX; STAGES];
    for stage in 0..STAGES {
        if stage < ended {
            ends[stage] = 0;
        }
    }
    Options::new()
        .with_workers(workers.clamp(1, 64))
        .with_tables(Tables::Staged)
        .with_stage_ends(ends)
}

/// Checks the answers for a task of each stage, with one, two and four workers.
fn answers<R: Threads + Wait + Clock + Sync + Abort + AllocGlobal>(
    rt: &R,
    domain: &str,
    problem: &str,
    cost: Option<u64>,
) -> Result<(), Fail> {
    let (first, second) = (domain.as_bytes(), problem.as_bytes());
    for workers in [1, 2, 4] {
        for ended in 0..4 {
            let answer = solve(rt, first, second, &ending(workers, ended), &Open)?;
            is_right(rt, domain, problem, &answer, cost)?;
        }
        let plain = Options::new().with_workers(workers);
        let answer = solve(rt, first, second, &plain, &EndsStages {})?;
        is_right(rt, domain, problem, &answer, cost)?;
        let staged = plain.with_tables(Tables::Staged);
        let answer = solve(rt, first, second, &staged, &EndsStages {})?;
        is_right(rt, domain, problem, &answer, cost)?;
    }
    Ok(())
}

#[test]
fn a_road(rt: HostRuntime) -> Result<(), Fail> {
    answers(&rt, ROAD_DOMAIN, ROAD_PROBLEM, Some(2))
}

#[test]
fn a_way_around(rt: HostRuntime) -> Result<(), Fail> {
    answers(&rt, DRIVE_DOMAIN, DRIVE_PROBLEM, Some(7))
}

#[test]
fn no_way(rt: HostRuntime) -> Result<(), Fail> {
    answers(&rt, ROAD_DOMAIN, ROAD_PROBLEM_WITHOUT_WAY, None)
}

#[test]
fn two_balls(rt: HostRuntime) -> Result<(), Fail> {
    answers(&rt, GRIP_DOMAIN, GRIP_PROBLEM, Some(7))
}

/// A gate that refuses further stages is asked once, and one that allows them as often as stages end.
#[test]
fn a_refused_stage_does_not_begin(rt: HostRuntime) -> Result<(), Fail> {
    let (domain, problem) = (GRIP_DOMAIN.as_bytes(), GRIP_PROBLEM.as_bytes());
    for ended in 0..4 {
        let refusing = Counting::new(false);
        let answer = solve(&rt, domain, problem, &ending(1, ended), &refusing)?;
        is_right(&rt, GRIP_DOMAIN, GRIP_PROBLEM, &answer, Some(7))?;
        assert_eq!(&rt; refusing.asked(), (ended as u64).min(1));
        let allowing = Counting::new(true);
        let answer = solve(&rt, domain, problem, &ending(1, ended), &allowing)?;
        is_right(&rt, GRIP_DOMAIN, GRIP_PROBLEM, &answer, Some(7))?;
        assert_eq!(&rt; allowing.asked(), ended as u64);
    }
    Ok(())
}

/// Returns the bound and the cost of the best plan of a search that was stopped, whose certificate the checker accepts.
fn stopped<R: Threads + Wait + Clock + Sync + Abort + AllocGlobal, G: EndingGate + Sync>(
    rt: &R,
    options: &Options,
    gate: &G,
) -> Result<(u64, Option<u64>), Fail> {
    let (domain, problem) = (GRIP_DOMAIN.as_bytes(), GRIP_PROBLEM.as_bytes());
    match solve(rt, domain, problem, options, gate)? {
        Answer::Limit(known) => {
            let bound = Dist::fin(known.bound).ok_or("a distance")?;
            certifies(rt, GRIP_DOMAIN, GRIP_PROBLEM, &known.certificate, bound)?;
            match &known.best {
                Some(best) => Ok((known.bound, Some(best.cost))),
                None => Ok((known.bound, None)),
            }
        }
        _ => panic!(rt; "another answer"),
    }
}

/// What the first stage knows is in the answer if the second is stopped at once: the bound grows with the states at
/// which the first stage ends.
#[test]
fn a_later_stop_loses_nothing(rt: HostRuntime) -> Result<(), Fail> {
    let mut greatest = 0;
    for states in [1, 4, 8, 12] {
        let options = Options::new()
            .with_workers(1)
            .with_table(1)
            .with_tables(Tables::Staged)
            .with_stage_ends([states, usize::MAX, usize::MAX]);
        let (bound, best) = stopped(&rt, &options, &StopsLater::new(1, 1))?;
        assert!(&rt; greatest <= bound);
        assert_eq!(&rt; best, None);
        greatest = bound;
    }
    assert!(&rt; 3 <= greatest);
    Ok(())
}
