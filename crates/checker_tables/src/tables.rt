//! The clause C4: the tables of a column are consistent.

ghost use Rattle.std.specs.Prelude.{◌≡◌, ◌≤◌, length, IfOk};
ghost use Rattle.cert_value.specs.Views as kept;
ghost use Rattle.checker_clauses.specs.Violations.{IsFoundIn, table_at};
ghost use Rattle.checker_pieces.specs.Pieces.{IsFirstIn};
ghost use Rattle.checker_tables.specs.Changes as spec;
ghost use Rattle.checker_tables.specs.TableFaults.{IsFirstFault};
ghost use Rattle.checker_tables.specs.TablePlaces.{IsFaultOf, says_table};

use crate::changes::changes_of;
use crate::fault::TableFault;
use crate::mapped::MappedTable;
use crate::places::{TablePlace, table_at, table_places, weights_of};
use crate::shares::ShareSums;
use crate::transitions::{first_fall, first_goal, spenders};
use cert_value::{AbstractionTable, Certificate};
use checker_clauses::Violation;
use checker_pieces::first_in_weighed_pieces;
use fdr::FdrTask;
use std::alloc::{AllocError, Global};
use std::thread::Threads;

/// Returns the first fault of a table. `changes` says for each operator whether it can change a state.
fn first_fault(
    alloc: Global,
    task: &FdrTask,
    changes: &[bool],
    table: &AbstractionTable,
) -> Result<Option<TableFault>, AllocError>
    requires { changes.now ≡ spec.changes_of task.now }
    ensures { IfOk result (IsFirstFault task.now (kept.table_of table.now)) }
{
    let Some(mapped) = MappedTable::new(alloc, task, table)? else {
        return Ok(Some(TableFault::Form));
    };
    let abstraction = mapped.abstraction();
    let goal = first_goal(alloc, abstraction, &table.values)?;
    if let Some(state) = goal {
        return Ok(Some(TableFault::Goal(state)));
    }
    let shares = ShareSums::of_table(alloc, &table.shares, task.operator_count())?;
    let spenders = spenders(alloc, abstraction, &shares, changes)?;
    let fall = first_fall(alloc, abstraction, &table.values, &spenders)?;
    match fall {
        Some((state, operator)) => Ok(Some(TableFault::Fall(state, operator))),
        None => Ok(None),
    }
}

/// Returns the first fault of the table at a position, or `None` if there is no table.
fn fault_at(
    alloc: Global,
    task: &FdrTask,
    changes: &[bool],
    columns: &[Vec<AbstractionTable>],
    place: TablePlace,
) -> Result<Option<TableFault>, AllocError>
    requires { changes.now ≡ spec.changes_of task.now }
    ensures { IfOk result (IsFaultOf task.now (table_at (kept.columns_of columns.now) place.column place.table)) }
{
    match table_at(columns, place) {
        Some(table) => first_fault(alloc, task, changes, table),
        None => Ok(None),
    }
}

/// Returns the first violation of the tables whose positions have the indices `start` to `end` - 1 in the list of
/// positions.
fn first_in_piece(
    alloc: Global,
    task: &FdrTask,
    changes: &[bool],
    columns: &[Vec<AbstractionTable>],
    places: &[TablePlace],
    start: usize,
    end: usize,
) -> Result<Option<Violation>, AllocError>
    requires end { end ≤ length places.now }
    requires changes { changes.now ≡ spec.changes_of task.now }
    ensures { IfOk result (IsFirstIn (says_table task.now (kept.columns_of columns.now) places.now) start end) }
{
    for number in start..end {
        let place = places[number];
        if let Some(fault) = fault_at(alloc, task, changes, columns, place)? {
            return Ok(Some(fault.violation(place.column, place.table)));
        }
    }
    Ok(None)
}

/// Returns the first violation of the clause C4, by column and then by table, or `None`. Within one table the form is
/// tested first, then the abstract goals, then the transitions, by abstract state and then by operator. Operators that
/// cannot change a state or do not affect the abstraction are passed over, since the clause holds for them. If the
/// tables are large in total, as many threads as there are processors test them in parallel; the result does not depend
/// on the number of threads.
pub fn first_table_violation<R: Threads + Sync>(
    rt: &R,
    alloc: Global,
    task: &FdrTask,
    certificate: &Certificate,
) -> Result<Option<Violation>, AllocError>
    ensures { IfOk result (λ found. IsFoundIn task.now certificate.now 4 found) }
{
    let columns = certificate.columns();
    let places = table_places(alloc, columns)?;
    let places = places.as_slice();
    let weights = weights_of(alloc, columns, places, task.operator_count())?;
    let changes = changes_of(alloc, task)?;
    let changes = changes.as_slice();
    first_in_weighed_pieces(
        rt,
        alloc,
        &weights,
        &|start: usize, end: usize| -> Result<Option<Violation>, AllocError>
            requires end { end ≤ length places.now }
            requires changes { changes.now ≡ spec.changes_of task.now }
            ensures { IfOk result (IsFirstIn
                (says_table task.entry.now (kept.columns_of columns.entry.now) places.entry.now) start end) }
        { first_in_piece(alloc, task, changes, columns, places, start, end) },
    )
}
