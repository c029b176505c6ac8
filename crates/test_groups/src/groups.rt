ghost use Rattle.std.specs.Prelude.{◌≡◌, ℕ, ◌<◌};

use crate::random::{Random, operators, row, task_with};
use abstraction::{Abstraction, Projection};
use abstraction_domain::{DomainAbstraction, are_increasing};
use abstraction_groups::{
    BackwardTransitions, Change, FactoredAbstraction, Groups, Listed, OperatorIndex, Transition,
    shift_of,
};
use fdr::FdrTask;
use std::alloc::Global;
use std::process::Abort;
use testing_tasks::{fact, operator};

/// Returns whether the list has a transition of the operator from the source.
fn has_transition<A: FactoredAbstraction>(
    listed: &Listed<'_, A>,
    list: &[Transition],
    operator: usize,
    source: usize,
) -> bool {
    list.iter().any(|transition| {
        transition.source as usize == source
            && (transition.class as usize) < listed.class_count()
            && listed
                .operators_of(transition.class as usize)
                .iter()
                .any(|member| *member as usize == operator)
    })
}

/// Checks that each transition of an operator, but from an abstract state to itself, is listed.
fn lists_all<A: FactoredAbstraction>(rt: &impl Abort, a: &A, listed: &Listed<'_, A>) {
    for operator in 0..a.task().operator_count() {
        for source in 0..a.size() {
            if let Some(target) = a.transition(source, operator) {
                if target != source {
                    assert!(rt; target < listed.size());
                    let list = listed.entering_list(target);
                    assert!(rt; has_transition(listed, list, operator, source), "listed");
                }
            }
        }
    }
}

/// Checks that each listed transition is one of the operators of its group, and counts them.
fn lists_only<A: FactoredAbstraction>(
    rt: &impl Abort,
    alloc: Global,
    a: &A,
    listed: &Listed<'_, A>,
) {
    let mut count: u64 = 0;
    let mut buffer = Vec::new(alloc);
    let mut digits = Vec::new(alloc);
    for target in 0..listed.size() {
        listed
            .entering(target, &mut digits, &mut buffer)
            .expect(rt, "memory");
        assert_eq!(rt; buffer.len(), listed.entering_list(target).len());
        let stored = listed.stored(target).map(|stored| stored.len());
        assert_eq!(rt; stored, Some(buffer.len()));
        for transition in &buffer {
            count = count.saturating_add(1);
            let class = transition.class as usize;
            let source = transition.source as usize;
            assert!(rt; class < listed.class_count() && source < listed.size());
            assert!(rt; source < a.size(), "the abstraction's size");
            assert_eq!(rt; listed.groups().target(class, source), Some(target));
            assert!(rt; !listed.operators_of(class).is_empty());
            for operator in listed.operators_of(class) {
                assert_eq!(rt; a.transition(source, *operator as usize), Some(target));
            }
        }
    }
    assert_eq!(rt; count, listed.groups().transition_count());
}

/// Checks that the goals that are stored are those of the abstraction.
fn stores_goals<A: FactoredAbstraction>(
    rt: &impl Abort,
    alloc: Global,
    a: &A,
    index: &OperatorIndex<'_>,
)
    requires { index.now ≡ A.task a.now }
{
    let groups = Groups::new(alloc, a, index).expect(rt, "memory");
    let listed = Listed::with_goals(alloc, groups).expect(rt, "memory");
    assert_eq!(rt; listed.size(), a.size());
    for state in 0..a.size() {
        assert!(rt; state < listed.size());
        assert_eq!(rt; listed.is_goal(state), a.is_goal(state));
    }
}

/// Checks that an operator with a shift changes the number of each abstract state by it, and returns the number of
/// these operators.
fn shifted<A: FactoredAbstraction>(rt: &impl Abort, alloc: Global, a: &A) -> u64 {
    let mut changes = vec![in alloc; Change::Kept; a.variables().len()].expect(rt, "memory");
    let mut count: u64 = 0;
    for operator in 0..a.task().operator_count() {
        assert!(rt; changes.len() == a.variables().len());
        let Some(shift) = shift_of(a, operator, &mut changes) else {
            continue;
        };
        count = count.saturating_add(1);
        for source in 0..a.size() {
            if let Some(target) = a.transition(source, operator) {
                let before = (source as u64).saturating_add(u64::from(shift.more));
                let after = (target as u64).saturating_add(u64::from(shift.less));
                assert_eq!(rt; after, before);
            }
        }
    }
    count
}

/// Checks that the limit is exact.
fn is_limited<A: FactoredAbstraction>(
    rt: &impl Abort,
    alloc: Global,
    a: &A,
    index: &OperatorIndex<'_>,
    count: u64,
)
    requires { index.now ≡ A.task a.now }
{
    let met = Groups::within(alloc, a, index, count).expect(rt, "memory");
    assert!(rt; met.is_some(), "the limit is met");
    if count > 0 {
        let passed = Groups::within(alloc, a, index, count - 1).expect(rt, "memory");
        assert!(rt; passed.is_none(), "the limit is passed");
    }
}

/// Checks the groups and the transitions of an abstraction, and returns the numbers of groups and transitions.
fn check<A: FactoredAbstraction>(rt: &impl Abort, alloc: Global, a: &A) -> (usize, u64) {
    let index = OperatorIndex::new(alloc, a.task()).expect(rt, "memory");
    let groups = Groups::new(alloc, a, &index).expect(rt, "memory");
    let result = (groups.len(), groups.transition_count());
    let listed = Listed::new(alloc, groups).expect(rt, "memory");
    lists_all(rt, a, &listed);
    lists_only(rt, alloc, a, &listed);
    stores_goals(rt, alloc, a, &index);
    let _ = shifted(rt, alloc, a);
    is_limited(rt, alloc, a, &index, result.1);
    result
}

/// Checks a projection to the variables whose numbers have a one in the bits of `choice`.
fn check_projection(rt: &impl Abort, alloc: Global, task: &FdrTask, choice: u32) -> (usize, u64) {
    let mut pattern = Vec::new(alloc);
    let mut bits = choice;
    for variable in 0..task.variable_count() {
        if bits % 2 == 1 {
            pattern.push(variable).expect(rt, "memory");
        }
        bits /= 2;
    }
    assert!(rt; testing_tasks::is_increasing(&pattern));
    match Projection::new(alloc, task, &pattern) {
        Ok(projection) => check(rt, alloc, &projection),
        Err(_) => panic!(rt; "a projection"),
    }
}

/// Checks a domain abstraction with random classes of the variables whose numbers have a one in the bits of `choice`.
fn check_domain(
    rt: &impl Abort,
    alloc: Global,
    task: &FdrTask,
    random: &mut Random,
    choice: u32,
    most: u32,
) -> (usize, u64) {
    let mut rows = Vec::new(alloc);
    let mut bits = choice;
    for variable in 0..task.variable_count() {
        if bits % 2 == 1 {
            let next = row(rt, alloc, random, variable, task.range(variable), most);
            rows.push(next).expect(rt, "memory");
        }
        bits /= 2;
    }
    assert!(rt; are_increasing(&rows));
    match DomainAbstraction::new(alloc, task, &rows) {
        Ok(domain) => check(rt, alloc, &domain),
        Err(_) => panic!(rt; "a domain abstraction"),
    }
}

/// On random tasks, the transitions are those of each operator by itself.
#[test]
fn random_tasks(rt: HostRuntime) {
    let alloc = rt.alloc();
    let mut random = Random::new(1);
    let ranges = [2, 3, 1, 4, 2];
    for _ in 0..12 {
        let operators = operators(&rt, alloc, &mut random, &ranges, 40);
        let task = task_with(&rt, alloc, &ranges, operators);
        for _ in 0..4 {
            let choice = random.below(32);
            let _ = check_projection(&rt, alloc, &task, choice);
            let choice = random.below(32);
            let _ = check_domain(&rt, alloc, &task, &mut random, choice, 3);
        }
    }
}

/// 50,000 operators with the same effects are one group.
#[test]
fn same_effects(rt: HostRuntime) {
    let alloc = rt.alloc();
    let mut operators = Vec::new(alloc);
    for _ in 0..50_000 {
        let next = operator(alloc, &[fact(0, 0)], &[fact(0, 1)]).expect(&rt, "memory");
        operators.push(next).expect(&rt, "memory");
    }
    let task = task_with(&rt, alloc, &[2, 3], operators);
    let index = OperatorIndex::new(alloc, &task).expect(&rt, "memory");
    match Projection::new(alloc, &task, &[0, 1]) {
        Ok(projection) => {
            let groups = Groups::new(alloc, &projection, &index).expect(&rt, "memory");
            assert_eq!(rt; groups.len(), 1);
            assert_eq!(rt; groups.operators_of(0).len(), 50_000);
            assert_eq!(rt; groups.transition_count(), 3);
        }
        Err(_) => panic!(rt; "a projection"),
    }
}

/// An operator without a condition on its effect's variable applies to each of its values: with two values of one
/// variable and three of the other, 6 transitions.
#[test]
fn assigned(rt: HostRuntime) {
    let alloc = rt.alloc();
    let mut operators = Vec::new(alloc);
    let next = operator(alloc, &[], &[fact(1, 2)]).expect(&rt, "memory");
    operators.push(next).expect(&rt, "memory");
    let task = task_with(&rt, alloc, &[2, 3], operators);
    assert_eq!(rt; check_projection(&rt, alloc, &task, 3), (1, 6));
    assert_eq!(rt; check_projection(&rt, alloc, &task, 2), (1, 3));
    assert_eq!(rt; check_projection(&rt, alloc, &task, 1), (0, 0));
}

/// With one class of a variable, an effect on it moves nothing; with no variable there is one abstract state.
#[test]
fn one_class_and_no_variable(rt: HostRuntime) {
    let alloc = rt.alloc();
    let mut random = Random::new(2);
    let mut operators = Vec::new(alloc);
    let next = operator(alloc, &[fact(0, 0)], &[fact(0, 1)]).expect(&rt, "memory");
    operators.push(next).expect(&rt, "memory");
    let next = operator(alloc, &[], &[fact(0, 1), fact(1, 1)]).expect(&rt, "memory");
    operators.push(next).expect(&rt, "memory");
    let task = task_with(&rt, alloc, &[2, 2], operators);
    assert_eq!(rt; check_domain(&rt, alloc, &task, &mut random, 1, 1), (0, 0));
    assert_eq!(rt; check_domain(&rt, alloc, &task, &mut random, 3, 1), (0, 0));
    assert_eq!(rt; check_projection(&rt, alloc, &task, 0), (0, 0));
    assert_eq!(rt; check_domain(&rt, alloc, &task, &mut random, 0, 1), (0, 0));
    assert_eq!(rt; check_projection(&rt, alloc, &task, 3), (2, 6));
}
