//! The clause C3: the shares of an operator in a column sum to at most its cost, and each operator that a table lists
//! exists.

ghost use Rattle.std.specs.Prelude.{◌≡◌, ℕ, ◌^◌, ◌<◌, All, map, fold, length, slice_index, replicate, IfOk};
ghost use Rattle.cost.specs.Distances.{Finite, distance_of, is_below, lesser};
ghost use Rattle.cert_value.specs.Views as kept;
ghost use Rattle.checker_clauses.specs.Clauses.{is_within_cost};
ghost use Rattle.checker_clauses.specs.Clauses as clauses;
ghost use Rattle.checker_clauses.specs.Violations.{IsFoundIn};
ghost use Rattle.checker_tables.specs.ShareSums.{IsFirstFailure, Tally};
ghost use Rattle.checker_tables.specs.ShareSums as spec;

use cert_value::{AbstractionTable, Certificate, Share};
use checker_clauses::Violation;
use fdr::FdrTask;
use std::alloc::{AllocError, Global};
use std::marker::Model;

/// The sum over the tables of a column of each operator's shares. In contracts its value is a `Tally`.
#[derive(Drop)]
pub(crate) struct ShareSums {
    /// The sum for each operator, capped at 2^64 - 1.
    sums: Vec<u64>,
    /// For each operator the last table that names it, counted from 1, or 0.
    tables: Vec<usize>,
}

impl Model for ShareSums {
    ghost use Rattle.std.specs.Prelude.{◌≡◌, length};
    ghost use Rattle.checker_tables.specs.ShareSums.{Tally};

    ghost Value = { Tally };

    ghost view = { λ s. record { sums = s.sums.items; tables = s.tables.items } };

    ghost invariant = { λ s. length s.sums.items ≡ length s.tables.items };
}

impl ShareSums {
    /// Returns sums of 0 for `operators` operators.
    fn new(alloc: Global, operators: usize) -> Result<ShareSums, AllocError>
        ensures { IfOk result (λ s. s ≡ record { sums = replicate operators 0; tables = replicate operators 0 }) }
    {
        Ok(ShareSums {
            sums: vec![in alloc; 0; operators]?,
            tables: vec![in alloc; 0; operators]?,
        })
    }

    /// Adds a share of table number `table`, counted from 1, unless the operator does not exist or the table has
    /// already named it.
    fn count(&mut self, table: usize, share: Share)
        ensures value { self.new ≡ spec.counted table self.old share }
        ensures amount { share.amount < 2 ^ 32 }
    {
        let operator = share.operator as usize;
        if operator < self.sums.len() && self.tables[operator] != table {
            self.sums[operator] = self.sums[operator].saturating_add(u64::from(share.amount));
            self.tables[operator] = table;
        }
    }

    /// Adds the shares of table number `table`.
    fn count_all(&mut self, table: usize, shares: &[Share])
        ensures value { self.new ≡ fold (spec.counted table) self.old shares.now }
        ensures amounts { All (λ s. s.amount < 2 ^ 32) shares.now }
    {
        for share in shares {
            self.count(table, *share);
        }
    }

    /// Returns the shares of one table.
    pub(crate) fn of_table(
        alloc: Global,
        shares: &[Share],
        operators: usize,
    ) -> Result<ShareSums, AllocError>
        ensures len { IfOk result (λ s. length s.sums ≡ operators) }
        ensures shares { IfOk result (λ s. (o : ℕ) → o < operators → slice_index s.sums o ≡ clauses.share_of shares.now o) }
    {
        let mut sums = ShareSums::new(alloc, operators)?;
        sums.count_all(1, shares);
        Ok(sums)
    }

    /// Returns the sums of the shares of a column.
    fn of_column(
        alloc: Global,
        column: &[AbstractionTable],
        operators: usize,
    ) -> Result<ShareSums, AllocError>
        ensures { IfOk result (λ s. s ≡ spec.tally_of 0
            (record { sums = replicate operators 0; tables = replicate operators 0 }) (map kept.table_of column.now)) }
    {
        let mut sums = ShareSums::new(alloc, operators)?;
        for place in 0..column.len() {
            sums.count_all(place + 1, &column[place].shares);
        }
        Ok(sums)
    }

    /// Returns the sum of the operator's shares, capped at 2^64 - 1.
    pub(crate) fn sum(&self, operator: usize) -> u64
        requires { operator < length self.now.sums }
        ensures { result ≡ slice_index self.now.sums operator }
    {
        self.sums[operator]
    }
}

/// Returns whether a number is less than the least one so far.
fn is_less(number: usize, least: Option<usize>) -> bool
    ensures { result ≡ is_below (Finite number) (distance_of least) }
{
    match least {
        Some(least) => number < least,
        None => true,
    }
}

/// Returns the lesser of `before` and the least operator that the shares list among those numbered `count` or higher.
fn least_foreign(shares: &[Share], count: usize, before: Option<usize>) -> Option<usize>
    ensures { distance_of result ≡ lesser (distance_of before) (spec.least_foreign count shares.now) }
{
    let mut least = before;
    for share in shares {
        let operator = share.operator as usize;
        if operator >= count && is_less(operator, least) {
            least = Some(operator);
        }
    }
    least
}

/// Returns the least operator that a table of the column lists among those numbered `count` or higher.
fn least_of_column(column: &[AbstractionTable], count: usize) -> Option<usize>
    ensures { distance_of result ≡ spec.least_of_column count (map kept.table_of column.now) }
{
    let mut least = None;
    for table in column {
        least = least_foreign(&table.shares, count, least);
    }
    least
}

/// Returns the least operator whose shares sum to more than its cost, or that a table lists although it does not exist.
fn first_overspent(
    alloc: Global,
    task: &FdrTask,
    column: &[AbstractionTable],
) -> Result<Option<usize>, AllocError>
    ensures { IfOk result (IsFirstFailure (is_within_cost task.now (map kept.table_of column.now))) }
{
    let sums = ShareSums::of_column(alloc, column, task.operator_count())?;
    for operator in 0..task.operator_count() {
        if sums.sum(operator) > task.cost(operator).get() {
            return Ok(Some(operator));
        }
    }
    Ok(least_of_column(column, task.operator_count()))
}

/// Returns the first violation of the clause C3, by column and then by operator, or `None`: the shares of an operator
/// in a column sum to more than its cost, or a table lists an operator that does not exist, whatever its share.
pub fn first_share_violation(
    alloc: Global,
    task: &FdrTask,
    certificate: &Certificate,
) -> Result<Option<Violation>, AllocError>
    ensures { IfOk result (λ found. IsFoundIn task.now certificate.now 3 found) }
{
    let columns = certificate.columns();
    for place in 0..columns.len() {
        if let Some(operator) = first_overspent(alloc, task, &columns[place])? {
            return Ok(Some(Violation::Shares(place, operator)));
        }
    }
    Ok(None)
}
