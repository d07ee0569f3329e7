//! What the rows of an operator give, added up.
ghost use Rattle.std.specs.Prelude.{◌≡◌, ◌<◌, ℕ, ◌∷◌, ◌++◌, [], List, Some, Ok, IfErr, OnErr, OnOk};
ghost use Rattle.std.specs.List.{All};
ghost use Rattle.mit_rows.specs.Bags.{RowOf};
ghost use Rattle.mit_rows.specs.declared.value.Value.{Value};
ghost use Rattle.mit_ops.specs.Answers.{at_row, both};
ghost use Rattle.mit_ops.specs.EachRow.{filtered, row_of_exprs};
ghost use Rattle.mit_ops.specs.Forms.{rows_at};
ghost use Rattle.mit_ops.specs.Kinds.{bag_inputs_of, kind_of};
ghost use Rattle.mit_ops.specs.Operators.{captures_among};
ghost use Rattle.mit_ops.specs.Parts.{Fits};
ghost use Rattle.mit_ops.specs.declared.kinds.OpSpec.{OpSpec};
ghost use Rattle.mit_apply.specs.Stops.{Adds, Stops};
ghost use Rattle.mit_k_rows.specs.Gives.{CanGive, CanKeep, CanMake, rows_given, sum_given};
ghost use Rattle.mit_k_rows.specs.RowKinds.{IsRowKind};

use mit_apply::{Answer, OpStop, flatten, keeps, row_of_exprs};
use mit_bags::laws::bags_are_sorted_lists;
use mit_expr::Expr;
use mit_op_laws::laws::{answers_add_up, fitting_law};
use mit_ops::OpSpec;
use mit_rows::{Row, Value};
use std::alloc::{AllocError, Global};
use std::slice;

/// Over lists that fit an operator of these kinds, what each row gives may be asked.
pub fn rows_may_be_asked()
    ensures bags { (spec : OpSpec) (inputs : List (List RowOf)) (captures : List Value) (input : ℕ) →
        Fits spec inputs → captures_among spec inputs ≡ Some captures → IsRowKind (kind_of spec) →
        input < bag_inputs_of spec → All (CanGive spec captures) (rows_at inputs input) }
    ensures once { (spec : OpSpec) (inputs : List (List RowOf)) (captures : List Value) →
        Fits spec inputs → captures_among spec inputs ≡ Some captures → IsRowKind (kind_of spec) →
        bag_inputs_of spec ≡ 0 → CanGive spec captures [] }
{
    fitting_law();
}

/// Adds what each of these rows gives.
pub fn add_rows(
    alloc: Global,
    spec: &OpSpec,
    captures: &[Value],
    rows: &[Row],
    answer: &mut Answer,
) -> Result<(), AllocError>
    requires { All (CanGive spec.now captures.now) rows.now }
    ensures { (before : List RowOf) → answer.old ≡ sum_given spec.now captures.now before
        → OnOk result (answer.new ≡ sum_given spec.now captures.now (before ++ rows.now)) }
{
    answers_add_up::<Row>();
    let mut made = Vec::new(alloc);
    for row in rows {
        add_given(alloc, spec, captures, row, &mut made, answer)?;
    }
    Ok(())
}

/// Adds what an operator gives that takes no bags.
pub fn add_once(
    alloc: Global,
    spec: &OpSpec,
    captures: &[Value],
    answer: &mut Answer,
) -> Result<(), AllocError>
    requires { CanGive spec.now captures.now [] }
    ensures { OnOk result (answer.new ≡ both answer.old (at_row [] (rows_given spec.now captures.now []))) }
{
    let row = Row::empty();
    let mut made = Vec::new(alloc);
    add_given(alloc, spec, captures, &row, &mut made, answer)
}

/// Adds what a row gives. It is made in a list that is empty before and after.
fn add_given(
    alloc: Global,
    spec: &OpSpec,
    captures: &[Value],
    row: &Row,
    made: &mut Vec<Row>,
    answer: &mut Answer,
) -> Result<(), AllocError>
    requires given { CanGive spec.now captures.now row.now }
    requires empty { made.old.items ≡ [] }
    ensures empty { OnOk result (made.new.items ≡ []) }
    ensures adds { OnOk result (answer.new
        ≡ both answer.old (at_row row.now (rows_given spec.now captures.now row.now))) }
{
    match give(alloc, spec, captures, row, made) {
        Ok(()) => add_made(made, answer),
        Err(OpStop::Fault(kind)) => {
            answer.add_fault(row.copy()?, kind);
            Ok(())
        }
        Err(OpStop::NoMemory) => Err(AllocError),
    }
}

/// Moves rows to an answer.
fn add_made(made: &mut Vec<Row>, answer: &mut Answer) -> Result<(), AllocError>
    ensures empty { OnOk result (made.new.items ≡ []) }
    ensures adds { OnOk result (answer.new ≡ both answer.old (Ok made.old.items)) }
{
    bags_are_sorted_lists();
    answers_add_up::<Row>();
    while let Some(row) = made.pop() {
        answer.add_row(row)?;
    }
    answer.in_order();
    Ok(())
}

/// Adds the rows that a row gives in an operator. Where it stops, `out` is as before.
fn give(
    alloc: Global,
    spec: &OpSpec,
    captures: &[Value],
    row: &Row,
    out: &mut Vec<Row>,
) -> Result<(), OpStop>
    requires { CanGive spec.now captures.now row.now }
    ensures ok { OnOk result (Adds (rows_given spec.now captures.now row.now)
        out.old.items out.new.items) }
    ensures err { IfErr result (Stops (rows_given spec.now captures.now row.now)) }
    ensures kept { OnErr result (out.new.items ≡ out.old.items) }
{
    match spec {
        OpSpec::Scalar { expr } => give_made(alloc, slice::from_ref(expr), row, captures, out),
        OpSpec::Map { exprs } | OpSpec::MakeRow { exprs } => {
            give_made(alloc, exprs.as_slice(), row, captures, out)
        }
        OpSpec::Filter { expr } => give_kept(alloc, expr, row, captures, out),
        OpSpec::FlatMap { flat } => flatten(alloc, flat, row, captures, out),
        OpSpec::Union | OpSpec::Copy => give_copy(row, out),
        OpSpec::Empty { .. } => Ok(()),
        _ => unreachable!(),
    }
}

/// Adds the row of the expressions' values.
fn give_made(
    alloc: Global,
    exprs: &[Expr],
    row: &Row,
    captures: &[Value],
    out: &mut Vec<Row>,
) -> Result<(), OpStop>
    requires { CanMake exprs.now captures.now row.now }
    ensures ok { OnOk result (Adds (row_of_exprs captures.now exprs.now row.now)
        out.old.items out.new.items) }
    ensures err { IfErr result (Stops (row_of_exprs captures.now exprs.now row.now)) }
    ensures kept { OnErr result (out.new.items ≡ out.old.items) }
{
    out.push(row_of_exprs(alloc, exprs, row, captures)?)?;
    Ok(())
}

/// Adds a copy of a row where the expression is true.
fn give_kept(
    alloc: Global,
    expr: &Expr,
    row: &Row,
    captures: &[Value],
    out: &mut Vec<Row>,
) -> Result<(), OpStop>
    requires { CanKeep expr.now captures.now row.now }
    ensures ok { OnOk result (Adds (filtered captures.now expr.now row.now)
        out.old.items out.new.items) }
    ensures err { IfErr result (Stops (filtered captures.now expr.now row.now)) }
    ensures kept { OnErr result (out.new.items ≡ out.old.items) }
{
    if keeps(alloc, expr, row, captures)? {
        out.push(row.copy()?)?;
    }
    Ok(())
}

/// Adds a copy of a row.
fn give_copy(row: &Row, out: &mut Vec<Row>) -> Result<(), OpStop>
    ensures ok { OnOk result (out.new.items ≡ out.old.items ++ row.now ∷ []) }
    ensures err { IfErr result (Stops (Ok (row.now ∷ []))) }
    ensures kept { OnErr result (out.new.items ≡ out.old.items) }
{
    out.push(row.copy()?)?;
    Ok(())
}
