//! What is made of the rows of a group, row by row.
ghost use Rattle.std.specs.Prelude.{◌≡◌, ◌++◌, [], ◌∷◌, List, IfOk, IsSome, IsTrue, OnErr, OnOk, length, map, option_copied, slice_get};
ghost use Rattle.mit_rows.specs.Bags.{RowOf};
ghost use Rattle.mit_expr.specs.Types.{type_of_value};
ghost use Rattle.mit_expr.specs.Values as due;
ghost use Rattle.mit_ops.specs.Results.{agg_type};
ghost use Rattle.mit_ops.specs.Totals as spec;
ghost use Rattle.mit_apply.specs.Stops.{Gives};
ghost use Rattle.mit_apply.specs.TotalStored as stored;
ghost use Rattle.mit_apply.specs.TotalStored.{HasValue, total_of};

use crate::each_row::OpStop;
use mit_bags::laws::rows_are_ordered;
use mit_ops::{Agg, FaultKind};
use mit_rows::{Row, Value, cmp_values};
use std::alloc::AllocError;
use std::cmp::Ordering;

/// What is made of the rows of a group so far. Contracts say of which rows it is the total, and when it has a value.
#[derive(Debug, Drop)]
pub struct Total {
    agg: Agg,
    rows: u64,
    // exact, and 0 where no sum is asked for
    sum: i128,
    // none where neither the least nor the greatest value is asked for
    extreme: Option<Value>,
}

impl Total {
    /// The total of no rows.
    pub fn new(agg: Agg) -> Total
        ensures none { result ≡ total_of agg [] }
        ensures has_value { IsTrue (stored.counts_none agg) → HasValue result }
    {
        Total {
            agg,
            rows: 0,
            sum: 0,
            extreme: None,
        }
    }

    /// How many rows were added.
    pub fn rows(&self) -> u64
        ensures { (agg : Agg) (rows : List RowOf) → self.now ≡ total_of agg rows
            → result ≡ length rows }
    {
        self.rows
    }

    /// Adds a row. Where memory runs out, or at 2^64 - 1 rows, the total stays as it is.
    pub fn add(&mut self, row: &Row) -> Result<(), AllocError>
        ensures ok { (agg : Agg) (rows : List RowOf) → self.old ≡ total_of agg rows
            → OnOk result (self.new ≡ total_of agg (rows ++ row.now ∷ [])) }
        ensures has_value { (agg : Agg) (rows : List RowOf) → self.old ≡ total_of agg rows
            → IsSome (agg_type agg (map type_of_value row.now)) → OnOk result (HasValue self.new) }
        ensures err { OnErr result (self.new ≡ self.old) }
    {
        rows_are_ordered();
        let rows = self.rows.checked_add(1).ok_or(AllocError)?;
        let sum = next_sum(self.agg, self.sum, row)?;
        keep_extreme(self.agg, &mut self.extreme, row)?;
        self.sum = sum;
        self.rows = rows;
        Ok(())
    }

    /// What is made of the rows.
    pub fn value(&self) -> Result<Value, OpStop>
        requires { HasValue self.now }
        ensures { (agg : Agg) (rows : List RowOf) → self.now ≡ total_of agg rows
            → Gives (spec.aggregate agg rows) result }
    {
        match self.agg {
            Agg::Count => within(i128::from(self.rows)),
            Agg::Sum(_) => within(self.sum),
            Agg::Min(_) | Agg::Max(_) => copy_value(&self.extreme),
        }
    }
}

/// The value of a column, where the row has it.
fn value_in(row: &Row, column: u8) -> Option<&Value>
    ensures { option_copied result ≡ slice_get row.now column }
{
    row.values().get(usize::from(column))
}

/// A sum with one row more. It is refused outside 128 bits, where no sum of fewer than 2^64 integers is.
fn next_sum(agg: Agg, sum: i128, row: &Row) -> Result<i128, AllocError>
    ensures { IfOk result (λ more. more ≡ stored.next_sum agg sum row.now) }
{
    let Agg::Sum(column) = agg else {
        return Ok(sum);
    };
    match value_in(row, column) {
        Some(Value::Int(number)) => sum.checked_add(i128::from(*number)).ok_or(AllocError),
        _ => Ok(sum),
    }
}

/// The least or the greatest value with one row more.
fn keep_extreme(agg: Agg, kept: &mut Option<Value>, row: &Row) -> Result<(), AllocError>
    ensures ok { OnOk result (kept.new ≡ stored.next_extreme agg kept.old row.now) }
    ensures err { OnErr result (kept.new ≡ kept.old) }
{
    match agg {
        Agg::Count | Agg::Sum(_) => Ok(()),
        Agg::Min(column) => keep(kept, row, column, Ordering::Less),
        Agg::Max(column) => keep(kept, row, column, Ordering::Greater),
    }
}

/// Keeps the value of a column in place of the one kept before, where it is beyond that on the side given.
fn keep(kept: &mut Option<Value>, row: &Row, column: u8, side: Ordering) -> Result<(), AllocError>
    ensures ok { OnOk result (kept.new
        ≡ spec.picked (stored.beyond side) kept.old (slice_get row.now column)) }
    ensures err { OnErr result (kept.new ≡ kept.old) }
{
    let Some(value) = value_in(row, column) else {
        return Ok(());
    };
    if replaces(kept, value, side) {
        *kept = Some(value.copy()?);
    }
    Ok(())
}

/// Whether a value is beyond the one that is kept, or there is none.
fn replaces(kept: &Option<Value>, value: &Value, side: Ordering) -> bool
    ensures { result ≡ stored.replaces kept.now value.now side }
{
    match kept {
        Some(old) => cmp_values(value, old) == side,
        None => true,
    }
}

/// A number as a value, where it is within 64 bits.
fn within(number: i128) -> Result<Value, OpStop>
    ensures { Gives (due.within number) result }
{
    match i64::try_from(number) {
        Ok(number) => Ok(Value::Int(number)),
        Err(_) => Err(OpStop::Fault(FaultKind::Overflow)),
    }
}

/// An equal value, of one that is there.
fn copy_value(value: &Option<Value>) -> Result<Value, OpStop>
    requires { IsSome value.now }
    ensures { Gives (due.value_at value.now) result }
{
    match value {
        Some(value) => Ok(value.copy()?),
        None => unreachable!(),
    }
}
