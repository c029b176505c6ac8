//! Representatives of operators, and certificates of tasks by them.

use crate::tasks::{add, task_with};
use abstraction_mapping::Mapping;
use cert_value::{
    AbstractionTable, Certificate, CertificateKind, ClosedList, Share, Values, Version,
};
use cost::Dist;
use fdr::{Fact, FdrTask};
use reduction::{Reduction, reduce};
use reduction_certs::certificate_for_task;
use std::alloc::Global;
use std::process::Abort;
use testing_tasks::fact;

/// Returns the number in the reduced task of a variable of the task, or `None` if the variable is left out.
fn number_of(reduction: &Reduction, variable: usize) -> Option<usize> {
    reduction
        .classes
        .staying()
        .iter()
        .position(|staying| *staying == variable)
}

/// Returns the facts on variables that stay, with the classes of their values.
fn images(rt: &impl Abort, alloc: Global, reduction: &Reduction, facts: &[Fact]) -> Vec<Fact> {
    let mut images = Vec::new(alloc);
    for given in facts {
        let Some(variable) = number_of(reduction, given.variable) else {
            continue;
        };
        let row = reduction
            .classes
            .rows()
            .get(given.variable)
            .expect(rt, "a row");
        let class = row
            .classes()
            .get(given.value as usize)
            .expect(rt, "a class");
        images.push(fact(variable, *class)).expect(rt, "memory");
    }
    images
}

/// Returns whether each of the facts is one of the others.
fn are_among(facts: &[Fact], others: &[Fact]) -> bool {
    facts
        .iter()
        .all(|fact| others.iter().any(|other| other == fact))
}

/// Checks that the representative of an operator has the images of its conditions and effects, in whatever order, and
/// costs at most as much. Without a representative an operator has no effect but on variables of one value or as its
/// conditions say.
fn is_represented(
    rt: &impl Abort,
    alloc: Global,
    task: &FdrTask,
    reduction: &Reduction,
    operator: usize,
    representative: Option<usize>,
) {
    let given = task.operators().get(operator).expect(rt, "an operator");
    let precondition = images(rt, alloc, reduction, &given.precondition);
    let effect = images(rt, alloc, reduction, &given.effect);
    let Some(place) = representative else {
        for changed in &effect {
            let values = reduction
                .task
                .value_names()
                .get(changed.variable)
                .expect(rt, "a variable");
            assert!(rt;
                values.len() == 1 || precondition.iter().any(|given| given == changed),
                "no change"
            );
        }
        return;
    };
    let retained = reduction
        .task
        .operators()
        .get(place)
        .expect(rt, "an operator");
    assert!(rt;
        are_among(&precondition, &retained.precondition)
            && are_among(&retained.precondition, &precondition),
        "conditions"
    );
    assert!(rt;
        are_among(&effect, &retained.effect) && are_among(&retained.effect, &effect),
        "effects"
    );
    assert!(rt; retained.cost <= given.cost, "a cost");
}

/// Checks the representative of each operator.
pub(crate) fn are_represented(
    rt: &impl Abort,
    alloc: Global,
    task: &FdrTask,
    reduction: &Reduction,
) {
    assert_eq!(rt; reduction.representatives.len(), task.operator_count());
    for operator in 0..reduction.representatives.len() {
        let representative = reduction.representatives[operator];
        is_represented(rt, alloc, task, reduction, operator, representative);
    }
}

/// Returns a column of one table over variable 0 of three values, whose distances to the last are 3, 1 and 0: the
/// retained operators have the shares 2 and 1.
fn column(rt: &impl Abort, alloc: Global) -> Vec<AbstractionTable> {
    let mut shares = Vec::new(alloc);
    let mut values = Values::new(alloc);
    for (operator, amount) in [(0, 2), (1, 1)] {
        shares.push(Share { operator, amount }).expect(rt, "memory");
    }
    for value in [3, 1, 0] {
        let distance = Dist::fin(value).expect(rt, "a distance");
        values.push(distance).expect(rt, "memory");
    }
    let pattern = vec![in alloc; 0u32; 1].expect(rt, "memory");
    let table = AbstractionTable {
        mapping: Mapping::Pattern(pattern),
        shares,
        values,
    };
    let mut column = Vec::new(alloc);
    column.push(table).expect(rt, "memory");
    column
}

/// Two roads that need one step each, and a lamp: operators 0, 1 and 3 are equal, and 1 is the cheapest of them. 2
/// switches the lamp, 4 is another road, and 5 is equal to 4.
fn roads(rt: &impl Abort, alloc: Global) -> FdrTask {
    let mut operators = Vec::new(alloc);
    add(rt, alloc, &mut operators, &[fact(0, 0)], &[fact(0, 1)], 3);
    add(rt, alloc, &mut operators, &[fact(0, 0)], &[fact(0, 1)], 2);
    add(rt, alloc, &mut operators, &[], &[fact(1, 1)], 1);
    add(
        rt,
        alloc,
        &mut operators,
        &[fact(0, 0)],
        &[fact(1, 1), fact(0, 1)],
        2,
    );
    add(rt, alloc, &mut operators, &[fact(0, 1)], &[fact(0, 2)], 1);
    add(rt, alloc, &mut operators, &[fact(0, 1)], &[fact(0, 2)], 4);
    task_with(rt, alloc, &[3, 2], &[fact(0, 2)], operators)
}

/// Returns the certificate of the task from one of the reduced task, with the column for its retained operators.
fn certificate_of(rt: &impl Abort, alloc: Global, task: &FdrTask) -> Certificate {
    let reduction = reduce(alloc, task).expect(rt, "memory");
    let mut columns = Vec::new(alloc);
    columns.push(column(rt, alloc)).expect(rt, "memory");
    let bound = Dist::fin(3).expect(rt, "a distance");
    let closed = ClosedList::new(alloc);
    let given = Certificate::new(Version::Two, CertificateKind::Sas, bound, columns, closed);
    certificate_for_task(alloc, task, &reduction, given).expect(rt, "memory")
}

/// Checks the shares and values of a table.
fn has_shares(rt: &impl Abort, alloc: Global, table: &AbstractionTable, want: &[(u32, u32)]) {
    let mut shares = Vec::new(alloc);
    for share in &table.shares {
        shares
            .push((share.operator, share.amount))
            .expect(rt, "memory");
    }
    assert_eq!(rt; shares.as_slice(), want);
    assert_eq!(rt; table.values.len(), 3);
}

/// Operators 1 and 4 are retained: the cheapest of equal ones.
#[test]
fn representatives_of_roads(rt: HostRuntime) {
    let alloc = rt.alloc();
    let task = roads(&rt, alloc);
    let reduction = reduce(alloc, &task).expect(&rt, "memory");
    are_represented(&rt, alloc, &task, &reduction);
    assert_eq!(rt; reduction.retained.as_slice(), [1, 4].as_slice());
}

/// In the certificate of the task each operator has the share of its representative; the lamp's has none. Values and
/// bound are those of the given certificate, and the classes are those of the reduction.
#[test]
fn shares_of_representatives(rt: HostRuntime) {
    let alloc = rt.alloc();
    let task = roads(&rt, alloc);
    let made = certificate_of(&rt, alloc, &task);
    assert_eq!(rt; made.version(), Version::Three);
    assert_eq!(rt; made.bound().get(), Some(3));
    assert_eq!(rt; made.classes().len(), 2);
    assert_eq!(rt; made.columns().len(), 1);
    let column = made.columns().first().expect(&rt, "a column");
    let table = column.first().expect(&rt, "a table");
    has_shares(&rt, alloc, table, &[(0, 2), (1, 2), (3, 2), (4, 1), (5, 1)]);
}
