//! Bounds on the finite values of columns.

ghost use Rattle.std.specs.Prelude.{◌≡◌, ℕ, List, ◌^◌, ◌≤◌, length, map, slice_index_or, All};
ghost use Rattle.cost.specs.Distances.{Infinite, IsWithin};
ghost use Rattle.abstraction.specs.Columns.{column_value};
ghost use Rattle.scp_columns.specs.ColumnTables.{on_abstraction};
ghost use Rattle.scp_rows.specs.Rows.{value_of};

use cert_value::Values;
use scp_columns::ColumnTable;

/// Returns the greatest finite value, or 0 if there is none.
fn values_limit(values: &Values) -> u64
    requires { (i : ℕ) → IsWithin (2 ^ 55) (slice_index_or values.now i Infinite) }
    ensures within { (i : ℕ) → IsWithin result (slice_index_or values.now i Infinite) }
    ensures small { result ≤ 2 ^ 55 }
{
    let mut limit = 0;
    for index in 0..values.len() {
        if let Some(value) = values.get(index).get() {
            limit = limit.max(value);
        }
    }
    limit
}

/// Returns a bound on the finite values of a column: the sum of the greatest finite values of its tables.
fn column_limit(column: &[ColumnTable<'_>]) -> u64
    requires { length column.now ≤ 64 }
    ensures within { (state : List ℕ) → IsWithin result (column_value state (map on_abstraction column.now)) }
    ensures small { result ≤ 2 ^ 61 }
{
    let mut limit = 0;
    for table in column {
        limit += values_limit(&table.table().values);
    }
    limit
}

/// Returns a bound on the finite values of all columns.
pub(crate) fn columns_limit(columns: &[Vec<ColumnTable<'_>>]) -> u64
    requires { All (λ column. length column.items ≤ 64) columns.now }
    ensures within { (state : List ℕ) → All (λ column. IsWithin result (value_of state column)) columns.now }
    ensures small { result ≤ 2 ^ 61 }
{
    let mut limit = 0;
    for column in columns {
        limit = limit.max(column_limit(column));
    }
    limit
}
