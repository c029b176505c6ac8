//! Cost-partitioned columns, and the heuristic that they define.

ghost use Rattle.std.specs.Prelude.{◌≡◌, ◌≢◌, ◌≤◌, ◌^◌, ℕ, List, [], length, map, All, IfOk, IfSome};
ghost use Rattle.std.specs.List.{AllZip};
ghost use Rattle.cost.specs.Distances.{Finite, ◌≤ᵈ◌, IsWithin, greatest};
ghost use Rattle.fdr.specs.Tasks.{ranges, IsState, LeadsToGoal, plan_cost};
ghost use Rattle.abstraction.specs.Columns as spec;
ghost use Rattle.checker_clauses.specs.Clauses.{heuristic_of};
ghost use Rattle.abstraction_mapping.specs.Mappings.{Mapping as MappingOf};
ghost use Rattle.abstraction_mapping.specs.Views.{mapping_of};
ghost use Rattle.pdb_patterns.specs.Choices.{IsMappingWithin};
ghost use Rattle.scp_columns.specs.ColumnTables.{on_abstraction};
ghost use Rattle.scp_columns.specs.Partitions.{IsMadeFrom};
ghost use Rattle.scp_rows.specs.Rows.{AreOf, value_of, blocks_value};
ghost use Rattle.scp_rows.specs.Flats.{most_in, blocks_in};
ghost use Rattle.scp_rows.specs.Moves.{AreMoves, AreTouches, first_rows};
ghost use Rattle.scp.specs.Partitions.{AreColumnsFrom, AreCostPartitioned, IsColumnFrom, mappings_of};

use crate::places::Places;
use abstraction_mapping::Mapping;
use cost::Dist;
use fdr::FdrTask;
use rayon::current_num_threads;
use rayon::prelude::*;
use scp_columns::{ColumnTable, EarlierColumn, make_column};
use scp_rows::{Flat, Move, flat_value, make_flat, moves_in, touches_in};
use std::alloc::{AllocError, Global};
use std::marker::Model;
use std::thread::Threads;

/// Columns of tables. The tables of each column partition the costs of the operators. In contracts its value is the
/// task and the tables.
#[derive(Drop)]
pub struct Columns<'a> {
    task: &'a FdrTask,
    columns: Vec<Vec<ColumnTable<'a>>>,
    flat: Flat<'a>,
    touches: Vec<Vec<usize>>,
    moves: Vec<Option<Vec<Move>>>,
    ghost of_task: { All (λ column. All (λ t. t.task ≡ task.now) column.items) columns.items },
    ghost few_columns: { length columns.items ≤ 64 },
    ghost none_empty: { All (λ column. column.items ≢ []) columns.items },
    ghost few: { All (λ column. length column.items ≤ 64) columns.items },
    ghost divided: { ∥ All (λ column. spec.IsColumn task.now (map on_abstraction column.items)) columns.items ∥₁ },
    ghost flat_of_task: { All (λ b. AreOf task.now b.items) (blocks_in flat) },
    ghost flat_value: { (state : List ℕ) → IsState (ranges task.now) state →
        blocks_value (most_in flat) state (blocks_in flat) ≡ greatest (map (value_of state) columns.items) },
    ghost touches_are: { AreTouches (length task.now.operators) (first_rows (blocks_in flat)) touches.items },
    ghost moves_are: { AreMoves (first_rows (blocks_in flat)) touches.items moves.items },
}

impl<'a> Model for Columns<'a> {
    ghost use Rattle.std.specs.Prelude.{map};
    ghost use Rattle.scp_columns.specs.ColumnTables.{tables_of};
    ghost use Rattle.scp.specs.Partitions as spec;

    ghost Value = { spec.ColumnsOf };

    ghost view = { λ c. record { task = c.task.now; columns = map tables_of c.columns.items } };
}

impl<'a> Columns<'a> {
    ghost use Rattle.scp_columns.specs.ColumnTables.{tables_of};

    /// Returns the task.
    pub fn task(&self) -> &'a FdrTask
        ensures { result.now ≡ self.now.task }
    {
        self.task
    }

    /// Proves the type's invariant: the tables of each column partition the costs of the operators, so that the
    /// heuristic is at most the cost of every plan from a state, and it is infinite or at most 2^61. Only for the
    /// proof.
    pub fn recall(&self)
        ensures partitioned { ∥ AreCostPartitioned self.now.task self.now.columns ∥₁ }
        ensures bound { (plan state : List ℕ) → IsState (ranges self.now.task) state → LeadsToGoal self.now.task state plan →
            heuristic_of self.now.task self.now.columns state ≤ᵈ Finite (plan_cost self.now.task plan) }
        ensures small { (state : List ℕ) → IsState (ranges self.now.task) state →
            IsWithin (2 ^ 61) (heuristic_of self.now.task self.now.columns state) }
    {
        // only for the proof: reading a field makes the type's invariant available
        let _ = self.columns.len();
        self.task.recall();
    }

    /// Returns the tables of each column.
    pub fn tables(&self) -> &[Vec<ColumnTable<'a>>]
        ensures { map tables_of result.now ≡ self.now.columns }
    {
        &self.columns
    }

    /// Returns an admissible estimate of the cost from the state to a goal: the greatest value of a column, which is
    /// the sum of the values of its tables, and 0 if there is no column. It is infinite only if no goal can be reached
    /// from the state. No memory is allocated.
    pub fn h(&self, state: &[u32]) -> Dist
        requires { IsState (ranges self.now.task) state.now }
        ensures value { result ≡ heuristic_of self.now.task self.now.columns state.now }
        ensures bound { (plan : List ℕ) → LeadsToGoal self.now.task state.now plan →
            result ≤ᵈ Finite (plan_cost self.now.task plan) }
        ensures small { IsWithin (2 ^ 61) result }
    {
        self.task.recall();
        flat_value(&self.flat, state)
    }

    /// Returns the cached table indices of the initial state, from which the estimates of successors are computed.
    pub fn places(&'a self, alloc: Global) -> Result<Places<'a>, AllocError>
        ensures { IfOk result (λ p. p ≡ record { task = self.now.task; columns = self.now.columns; state = self.now.task.initial }) }
    {
        Places::new(alloc, self, &self.flat, &self.touches, &self.moves)
    }
}

/// Returns a column for each of these orders of mappings, in order, made in parallel. Tables that the earlier column
/// has too are copied from it.
fn columns_from<'a, R: Threads + Sync>(
    rt: &R,
    alloc: Global,
    task: &'a FdrTask,
    orders: &[Vec<Mapping>],
    earlier: Option<&EarlierColumn<'_>>,
) -> Result<Vec<Vec<ColumnTable<'a>>>, AllocError>
    requires mappings { All (λ order. All (λ m. IsMappingWithin task.now (2 ^ 24) (mapping_of m)) order.items) orders.now }
    requires few { All (λ order. length order.items ≤ 64) orders.now }
    requires none_empty { All (λ order. order.items ≢ []) orders.now }
    requires earlier { IfSome earlier (λ c. c.now.task ≡ task.now) }
    ensures { IfOk result (λ columns. AreColumnsFrom task.now (map mappings_of orders.now) columns.items) }
{
    task.recall();
    orders
        .par_iter()
        // a column takes long, so each may have a thread of its own
        .with_min_len(1)
        .map(
            |order: &Vec<Mapping>| -> Result<Vec<ColumnTable<'_>>, AllocError>
                requires mappings { All (λ m. IsMappingWithin task.now (2 ^ 24) (mapping_of m)) order.now.items }
                requires earlier { IfSome earlier (λ c. c.now.task ≡ task.now) }
                ensures { IfOk result (IsColumnFrom task.entry.now order.now) }
            { make_column(alloc, task, order, earlier) },
        )
        .collect::<Result<Vec<Vec<ColumnTable<'a>>>, AllocError>>(rt, alloc)?
}

/// Returns a column for each of these orders of mappings, in order. Tables that the first of the finished columns has
/// too are copied from it.
fn columns_beside<'a, R: Threads + Sync>(
    rt: &R,
    alloc: Global,
    task: &'a FdrTask,
    orders: &[Vec<Mapping>],
    columns: &[Vec<ColumnTable<'a>>],
) -> Result<Vec<Vec<ColumnTable<'a>>>, AllocError>
    requires mappings { All (λ order. All (λ m. IsMappingWithin task.now (2 ^ 24) (mapping_of m)) order.items) orders.now }
    requires few { All (λ order. length order.items ≤ 64) orders.now }
    requires none_empty { All (λ order. order.items ≢ []) orders.now }
    requires columns { (given : List (List MappingOf)) × AreColumnsFrom task.now given columns.now }
    ensures { IfOk result (λ columns. AreColumnsFrom task.now (map mappings_of orders.now) columns.items) }
{
    match columns.first() {
        Some(column) => {
            let earlier = EarlierColumn::new(alloc, task, column)?;
            columns_from(rt, alloc, task, orders, Some(&earlier))
        }
        None => columns_from(rt, alloc, task, orders, None),
    }
}

/// Returns a column for each of these orders of mappings, in order: first as many as threads can make in parallel, then
/// the others, which copy the tables that the first column has too.
fn columns_in_turn<'a, R: Threads + Sync>(
    rt: &R,
    alloc: Global,
    task: &'a FdrTask,
    orders: &[Vec<Mapping>],
) -> Result<Vec<Vec<ColumnTable<'a>>>, AllocError>
    requires mappings { All (λ order. All (λ m. IsMappingWithin task.now (2 ^ 24) (mapping_of m)) order.items) orders.now }
    requires few { All (λ order. length order.items ≤ 64) orders.now }
    requires none_empty { All (λ order. order.items ≢ []) orders.now }
    ensures { IfOk result (λ columns. AreColumnsFrom task.now (map mappings_of orders.now) columns.items) }
{
    let at_once = current_num_threads(rt).min(orders.len());
    let (before, behind) = orders.split_at(at_once);
    let mut columns = columns_from(rt, alloc, task, before, None)?;
    let mut others = columns_beside(rt, alloc, task, behind, &columns)?;
    columns.append(&mut others)?;
    Ok(columns)
}

/// Returns a column for each of these orders of mappings, as `make_column` makes them, in parallel; the result does not
/// depend on the number of threads. There must be at most 64 orders, each of 1 to 64 mappings.
pub fn make_columns<'a, R: Threads + Sync>(
    rt: &R,
    alloc: Global,
    task: &'a FdrTask,
    orders: &[Vec<Mapping>],
) -> Result<Columns<'a>, AllocError>
    requires mappings { All (λ order. All (λ m. IsMappingWithin task.now (2 ^ 24) (mapping_of m)) order.items) orders.now }
    requires few { All (λ order. length order.items ≤ 64) orders.now }
    requires few_columns { length orders.now ≤ 64 }
    requires none_empty { All (λ order. order.items ≢ []) orders.now }
    ensures task { IfOk result (λ c. c.task ≡ task.now) }
    ensures made { IfOk result (λ c. AllZip (IsMadeFrom task.now) (map mappings_of orders.now) c.columns) }
{
    let columns = columns_in_turn(rt, alloc, task, orders)?;
    let flat = make_flat(alloc, task, &columns)?;
    let touches = touches_in(alloc, &flat, task.operator_count())?;
    let moves = moves_in(alloc, &flat, &touches)?;
    Ok(Columns {
        task,
        columns,
        flat,
        touches,
        moves,
    })
}
