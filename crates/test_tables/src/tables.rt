//! Tables, shares and lower bounds.

ghost use Rattle.std.specs.Prelude.{◌≡◌};

use crate::tasks::*;
use crate::texts::{columns_text, mappings_text, task_of};
use fdr::FdrTask;
use scp::{Columns, choose_columns};
use std::alloc::Global;
use std::process::Abort;
use std::thread::Threads;

/// A task, the greatest number of abstract states of a mapping, the columns, and the lower bound of the initial state.
struct Row {
    task: &'static str,
    limit: usize,
    columns: &'static str,
    bound: &'static str,
}

const ROWS: &[Row] = &[
    Row {
        task: CHAIN,
        limit: 4,
        columns: "0 : 9 7 4 0; 0=2 1=3 2=4//",
        bound: "9",
    },
    Row {
        task: CHAIN,
        limit: 3,
        columns: "0( 0 1 1 2 ) : 6 4 0; 0=2 2=4//",
        bound: "6",
    },
    Row {
        task: CHAIN,
        limit: 2,
        columns: "0( 0 0 0 1 ) : 4 0; 2=4//",
        bound: "4",
    },
    Row {
        task: CHAIN,
        limit: 1,
        columns: "",
        bound: "0",
    },
    Row {
        task: ROADS,
        limit: 3,
        columns: "0 : 5 4 0; 0=1 1=5 2=4//",
        bound: "5",
    },
    Row {
        task: ROADS,
        limit: 2,
        columns: "0( 0 0 1 ) : 4 0; 1=4 2=4//",
        bound: "4",
    },
    Row {
        task: UNIT_CHAIN,
        limit: 4,
        columns: "0 : 3 2 1 0; 0=1 1=1 2=1//",
        bound: "3",
    },
    Row {
        task: FREE_STEPS,
        limit: 3,
        columns: "0 : 5 5 0; 1=5//",
        bound: "5",
    },
    Row {
        task: CUT_OFF,
        limit: 3,
        columns: "0 : inf inf 0;//",
        bound: "inf",
    },
    Row {
        task: TWO_GOALS,
        limit: 2,
        columns: "0 : 3 0; 0=3/1 : 4 0; 1=4//1 : 4 0; 1=4/0 : 3 0; 0=3//",
        bound: "7",
    },
    Row {
        task: ONE_FOR_BOTH,
        limit: 2,
        columns: "0 : 5 0; 0=5/1 : 0 0;//1 : 5 0; 0=5/0 : 0 0;//",
        bound: "5",
    },
    Row {
        task: ONE_FOR_BOTH,
        limit: 4,
        columns: "0 1 : 5 inf inf 0; 0=5//",
        bound: "5",
    },
    Row {
        task: DEAR_AND_CHEAP,
        limit: 2,
        columns: "0 : 2 0; 0=2 1=2/1 : 0 0;//1 : 2 0; 1=2/0 : 0 0;//",
        bound: "2",
    },
    Row {
        task: GATE,
        limit: 6,
        columns: "0 1 : 111 110 100 100 0 0; 0=1 1=10 2=100//",
        bound: "111",
    },
    Row {
        task: GATE,
        limit: 3,
        columns: "1 : 110 100 0; 1=10 2=100//",
        bound: "110",
    },
    Row {
        task: FROM_ANYWHERE,
        limit: 3,
        columns: "0 : 4 4 0; 0=4//",
        bound: "4",
    },
    Row {
        task: ONE_VALUE,
        limit: 1,
        columns: "0 : 0;//",
        bound: "0",
    },
    Row {
        task: GRIPPER,
        limit: 3,
        columns: "1 : 2 0 1; 2=1 7=1/2 : 2 0 1; 4=1 9=1//2 : 2 0 1; 4=1 9=1/1 : 2 0 1; 2=1 7=1//",
        bound: "4",
    },
    Row {
        task: GRIPPER,
        limit: 2,
        columns: "1( 0 1 0 ) : 1 0; 7=1/2( 0 1 0 ) : 1 0; 9=1//2( 0 1 0 ) : 1 0; 9=1/1( 0 1 0 ) : 1 0; 7=1//",
        bound: "2",
    },
];

/// Checks the columns and the bound of a row's task.
fn has_columns<R: Threads + Sync + Abort>(rt: &R, alloc: Global, task: &FdrTask, row: &Row) {
    assert!(rt; 1 <= row.limit && row.limit <= 16_777_216);
    match choose_columns(rt, alloc, task, row.limit) {
        Ok(columns) => are_columns(rt, alloc, task, &columns, row),
        Err(_) => panic!(rt; "memory"),
    }
}

/// Checks columns, and the bound of the initial state.
fn are_columns(rt: &impl Abort, alloc: Global, task: &FdrTask, columns: &Columns<'_>, row: &Row)
    requires { columns.now.task ≡ task.now }
{
    let text = columns_text(alloc, columns).expect(rt, "memory");
    assert_eq!(rt; text.as_str(), row.columns);
    let bound = columns.h(task.initial());
    let bound = bound.to_string(alloc).expect(rt, "memory");
    assert_eq!(rt; bound.as_str(), row.bound);
}

/// Checks a row.
fn is_row<R: Threads + Sync + Abort>(rt: &R, alloc: Global, row: &Row) {
    let task = task_of(alloc, row.task)
        .expect(rt, "memory")
        .expect(rt, "a task");
    has_columns(rt, alloc, &task, row);
}

#[test]
fn columns_and_bounds_are_those_by_hand(rt: HostRuntime) {
    for row in ROWS {
        is_row(&rt, rt.alloc(), row);
    }
}

/// A task, a limit, and the mappings.
const MAPPING_ROWS: &[(&str, usize, &str)] = &[
    (GRIPPER, 1, ""),
    (GRIPPER, 2, "1( 0 1 0 ) /2( 0 1 0 ) /"),
    (GRIPPER, 3, "1 /2 /"),
    (GRIPPER, 6, "0 1 /0 2 /"),
    (GRIPPER, 12, "0 1 3 /0 2 3 /"),
    (GRIPPER, 36, "0 1 2 3 /"),
    (LATE_GOAL, 1, ""),
    (LATE_GOAL, 2, "0( 0 0 0 1 0 ) /"),
    (LATE_GOAL, 3, "0( 0 1 1 2 1 ) /"),
    (LATE_GOAL, 4, "0( 0 1 2 3 2 ) /"),
    (LATE_GOAL, 5, "0 /"),
    (EARLY_GOAL, 2, "0( 0 1 0 0 0 ) /"),
    (EARLY_GOAL, 3, "0( 0 1 2 2 2 ) /"),
    (EARLY_GOAL, 4, "0( 0 1 2 3 3 ) /"),
];

/// Checks the mappings of a task within a limit.
fn has_mappings(rt: &impl Abort, alloc: Global, text: &str, limit: usize, want: &str) {
    assert!(rt; 1 <= limit && limit <= 16_777_216);
    let task = task_of(alloc, text)
        .expect(rt, "memory")
        .expect(rt, "a task");
    let found = mappings_text(alloc, &task, limit).expect(rt, "memory");
    assert_eq!(rt; found.as_str(), want);
}

#[test]
fn patterns_grow_by_causes_and_long_ranges_have_classes(rt: HostRuntime) {
    for (text, limit, want) in MAPPING_ROWS {
        has_mappings(&rt, rt.alloc(), text, *limit, want);
    }
}
