//! The kinds that give something for each row.
ghost use Rattle.std.specs.Prelude.{◌≡◌, ◌≤◌, ◌+◌, IfOk, IsSome, OnOk, Some, length, map};
ghost use Rattle.std.specs.List.{All};
ghost use Rattle.mit_rows.specs.declared.row.TheConstants.{MAX_COLUMNS};
ghost use Rattle.mit_rows.specs.declared.value.ColType.TheVariants as is;
ghost use Rattle.mit_expr.specs.Types.{type_in, type_of_value};
ghost use Rattle.mit_ops.specs.Answers.{BagOrFault, at_row, both, over};
ghost use Rattle.mit_ops.specs.EachRow as spec;
ghost use Rattle.mit_ops.specs.Results.{flat_type, types_of};
ghost use Rattle.mit_step.specs.Gathered.{Gathered};
ghost use Rattle.mit_step.specs.Stepping.{GivesWhole};

use crate::loose::Loose;
use crate::whole::WholeStop;
use crate::whole::answers::add_stop;
use mit_apply::{Answer, OpStop, flatten, keeps, row_of_exprs};
use mit_bags::laws::bags_are_sorted_lists;
use mit_expr::Expr;
use mit_op_laws::laws::answers_add_up;
use mit_ops::Flat;
use mit_rows::{Row, Value};
use std::alloc::{AllocError, Global};

/// The answer of a map over these rows.
pub fn mapped(
    alloc: Global,
    exprs: &[Expr],
    rows: &[Row],
    captures: &[Value],
) -> Result<Answer, AllocError>
    requires few { length exprs.now ≤ MAX_COLUMNS }
    requires typed { All (λ row. IsSome (types_of (type_in (map type_of_value row)
        (map type_of_value captures.now)) exprs.now)) rows.now }
    ensures { IfOk result (λ answer.
        answer ≡ over (λ row. at_row row (spec.row_of_exprs captures.now exprs.now row)) rows.now) }
{
    answers_add_up::<Row>();
    let mut answer = Answer::new(alloc);
    for row in rows {
        add_mapped(alloc, exprs, row, captures, &mut answer)?;
    }
    Ok(answer)
}

/// Adds what a map gives for a row.
fn add_mapped(
    alloc: Global,
    exprs: &[Expr],
    row: &Row,
    captures: &[Value],
    answer: &mut Answer,
) -> Result<(), AllocError>
    requires few { length exprs.now ≤ MAX_COLUMNS }
    requires typed { IsSome (types_of (type_in (map type_of_value row.now)
        (map type_of_value captures.now)) exprs.now) }
    ensures { OnOk result (answer.new
        ≡ both answer.old (at_row row.now (spec.row_of_exprs captures.now exprs.now row.now))) }
{
    match row_of_exprs(alloc, exprs, row, captures) {
        Ok(made) => answer.add_row(made),
        Err(stop) => add_stop(row, stop, answer),
    }
}

/// The answer of a filter over these rows.
pub fn filtered(
    alloc: Global,
    expr: &Expr,
    rows: &[Row],
    captures: &[Value],
) -> Result<Answer, AllocError>
    requires { All (λ row. type_in (map type_of_value row) (map type_of_value captures.now) expr.now
        ≡ Some is.Bool) rows.now }
    ensures { IfOk result (λ answer.
        answer ≡ over (λ row. at_row row (spec.filtered captures.now expr.now row)) rows.now) }
{
    answers_add_up::<Row>();
    let mut answer = Answer::new(alloc);
    for row in rows {
        add_filtered(alloc, expr, row, captures, &mut answer)?;
    }
    Ok(answer)
}

/// Adds what a filter gives for a row.
fn add_filtered(
    alloc: Global,
    expr: &Expr,
    row: &Row,
    captures: &[Value],
    answer: &mut Answer,
) -> Result<(), AllocError>
    requires { type_in (map type_of_value row.now) (map type_of_value captures.now) expr.now
        ≡ Some is.Bool }
    ensures { OnOk result (answer.new
        ≡ both answer.old (at_row row.now (spec.filtered captures.now expr.now row.now))) }
{
    match keeps(alloc, expr, row, captures) {
        Ok(true) => answer.add_row(row.copy()?),
        Ok(false) => {
            answer.in_order();
            Ok(())
        }
        Err(stop) => add_stop(row, stop, answer),
    }
}

/// The bag of a flat map over these rows, or its fault.
pub fn flattened(
    alloc: Global,
    flat: &Flat,
    rows: &[Row],
    captures: &[Value],
) -> Result<Loose, WholeStop>
    requires typed { All (λ row. IsSome (flat_type flat.now (map type_of_value row)
        (map type_of_value captures.now))) rows.now }
    requires narrow { All (λ row. length row + 1 ≤ MAX_COLUMNS) rows.now }
    ensures { GivesWhole (over (λ row. at_row row (spec.flattened captures.now flat.now row)) rows.now) result }
{
    answers_add_up::<Row>();
    bags_are_sorted_lists();
    let mut made = Vec::new(alloc);
    let mut faults = Answer::new(alloc);
    for row in rows {
        add_flattened(alloc, flat, row, captures, &mut made, &mut faults)?;
    }
    match faults.finish() {
        Ok(_) => Ok(Loose::from_rows(made)),
        Err(fault) => Err(WholeStop::Fault(fault)),
    }
}

/// Adds the rows that a flat map gives for a row, or its fault.
fn add_flattened(
    alloc: Global,
    flat: &Flat,
    row: &Row,
    captures: &[Value],
    made: &mut Vec<Row>,
    faults: &mut Answer,
) -> Result<(), AllocError>
    requires typed { IsSome (flat_type flat.now (map type_of_value row.now)
        (map type_of_value captures.now)) }
    requires narrow { length row.now + 1 ≤ MAX_COLUMNS }
    ensures { (due : BagOrFault) → Gathered made.old.items faults.old due
        → OnOk result (Gathered made.new.items faults.new
        (both due (at_row row.now (spec.flattened captures.now flat.now row.now)))) }
{
    bags_are_sorted_lists();
    match flatten(alloc, flat, row, captures, made) {
        Ok(()) => Ok(()),
        Err(OpStop::Fault(kind)) => {
            faults.add_fault(row.copy()?, kind);
            Ok(())
        }
        Err(OpStop::NoMemory) => Err(AllocError),
    }
}
