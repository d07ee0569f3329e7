//! The kinds that give one answer for all rows.
ghost use Rattle.std.specs.Prelude.{◌≡◌, ◌≤◌, IfOk, IsSome, Err, Some, [], ◌∷◌, length, map, pos, slice_get};
ghost use Rattle.std.specs.List.{All};
ghost use Rattle.mit_rows.specs.Bags.{bag_of};
ghost use Rattle.mit_rows.specs.declared.row.TheConstants.{MAX_COLUMNS};
ghost use Rattle.mit_rows.specs.declared.value.ColType.TheVariants as is;
ghost use Rattle.mit_expr.specs.Types.{type_in, type_of_value};
ghost use Rattle.mit_expr.specs.Values.{ValueOrFault, within};
ghost use Rattle.mit_ops.specs.Answers.{RowsOrKind, at_row, settled};
ghost use Rattle.mit_ops.specs.EachRow as spec;
ghost use Rattle.mit_ops.specs.EachRow.{given};
ghost use Rattle.mit_ops.specs.Operators.{one_value, single};
ghost use Rattle.mit_ops.specs.Results.{types_of};
ghost use Rattle.mit_ops.specs.Totals.{total};
ghost use Rattle.mit_apply.specs.Stops.{Gives, Stops};
ghost use Rattle.mit_step.specs.Stepping.{GivesWhole};

use crate::loose::Loose;
use crate::whole::WholeStop;
use mit_apply::{OpStop, Total, row_of_exprs};
use mit_expr::Expr;
use mit_ops::{Agg, FaultKind, OpFault};
use mit_rows::{Row, Value};
use std::alloc::{AllocError, Global};

/// The bag of the one row of the expressions' values.
pub fn made_row(alloc: Global, exprs: &[Expr], captures: &[Value]) -> Result<Loose, WholeStop>
    requires few { length exprs.now ≤ MAX_COLUMNS }
    requires typed { IsSome (types_of (type_in [] (map type_of_value captures.now)) exprs.now) }
    ensures { GivesWhole (settled (at_row [] (spec.row_of_exprs captures.now exprs.now []))) result }
{
    let nothing = Row::empty();
    match row_of_exprs(alloc, exprs, &nothing, captures) {
        Ok(row) => Ok(bag_of_row(alloc, row)?),
        Err(stop) => Err(stopped(stop)),
    }
}

/// The bag of the one row that there is.
pub fn only(alloc: Global, rows: &[Row]) -> Result<Loose, WholeStop>
    ensures { GivesWhole (settled (at_row [] (single rows.now))) result }
{
    match rows {
        [row] => Ok(bag_of_row(alloc, row.copy()?)?),
        _ => {
            let kind = FaultKind::NotOne(rows.len() as u64);
            Err(stopped(OpStop::Fault(kind)))
        }
    }
}

/// The bag of how many rows there are.
pub fn counted(alloc: Global, rows: &[Row]) -> Result<Loose, WholeStop>
    ensures { GivesWhole (settled (at_row [] (given (within (pos (length rows.now))) one_value))) result }
{
    match i64::try_from(rows.len()) {
        Ok(count) => bag_of_value(alloc, Ok(Value::Int(count))),
        Err(_) => bag_of_value(alloc, Err(OpStop::Fault(FaultKind::Overflow))),
    }
}

/// The bag of the exact sum of a column.
pub fn summed(alloc: Global, column: u8, rows: &[Row]) -> Result<Loose, WholeStop>
    requires { All (λ row. slice_get (map type_of_value row) column ≡ Some is.Int) rows.now }
    ensures { GivesWhole (settled (at_row [] (given (within (total column rows.now)) one_value))) result }
{
    let mut sum = Total::new(Agg::Sum(column));
    for row in rows {
        sum.add(row)?;
    }
    bag_of_value(alloc, sum.value())
}

/// The bag of a value, or the fault in its place.
fn bag_of_value(alloc: Global, found: Result<Value, OpStop>) -> Result<Loose, WholeStop>
    ensures { (due : ValueOrFault) → Gives due found
        → GivesWhole (settled (at_row [] (given due one_value))) result }
{
    match found {
        Ok(value) => Ok(bag_of_row(alloc, Row::from_value(value))?),
        Err(stop) => Err(stopped(stop)),
    }
}

/// The bag of one row.
fn bag_of_row(alloc: Global, row: Row) -> Result<Loose, AllocError>
    ensures { IfOk result (λ bag. bag ≡ bag_of (row ∷ [])) }
{
    let mut rows = Vec::new(alloc);
    rows.push(row)?;
    Ok(Loose::from_rows(rows))
}

/// Why there is no bag, where an operator stops at no row.
fn stopped(stop: OpStop) -> WholeStop
    ensures { (due : RowsOrKind) → Stops due stop → GivesWhole (settled (at_row [] due)) (Err result) }
{
    match stop {
        OpStop::Fault(kind) => {
            let at = Row::empty();
            WholeStop::Fault(OpFault { at, kind })
        }
        OpStop::NoMemory => WholeStop::NoMemory,
    }
}
