//! Values, rows and expressions of scripts, by plain functions that know nothing of the code that computes them.
use mit_expr::{BinOp, Expr};
use mit_ops::FaultKind;
use mit_rows::Value;
use std::process::Abort;

/// A value. Integers stand below truth values.
#[derive(Clone, Copy, Debug, PartialEq, Eq, PartialOrd, Ord)]
pub(crate) enum Worth {
    Number(i64),
    Truth(bool),
}

/// The values of a row, column by column.
pub(crate) type Worths = Vec<Worth>;

/// The literal text under which a file is read or written.
pub(crate) fn name_in<'a>(rt: &impl Abort, name: &'a Expr) -> &'a str {
    match name {
        Expr::Lit(Value::Text(text)) => text.as_str(),
        _ => panic!(rt; "a name that is no literal"),
    }
}

/// What an operator gives of two values, where the left one doesn't decide.
fn combined(rt: &impl Abort, op: BinOp, left: Worth, right: Worth) -> Result<Worth, FaultKind> {
    let number = match (op, left, right) {
        (BinOp::And, _, _) => return Ok(right),
        (BinOp::Eq, _, _) => return Ok(Worth::Truth(left == right)),
        (BinOp::Lt, _, _) => return Ok(Worth::Truth(left < right)),
        (BinOp::Le, _, _) => return Ok(Worth::Truth(left <= right)),
        (BinOp::Add, Worth::Number(a), Worth::Number(b)) => a.checked_add(b),
        (BinOp::Sub, Worth::Number(a), Worth::Number(b)) => a.checked_sub(b),
        (BinOp::Mul, Worth::Number(a), Worth::Number(b)) => a.checked_mul(b),
        (BinOp::Div, _, Worth::Number(0)) => return Err(FaultKind::DivideByZero),
        (BinOp::Div, Worth::Number(a), Worth::Number(b)) => a.checked_div(b),
        _ => panic!(rt; "an operator that no script has"),
    };
    number.map(Worth::Number).ok_or(FaultKind::Overflow)
}

/// The value of an expression over a row and captured values.
pub(crate) fn worth_of(
    rt: &impl Abort,
    expr: &Expr,
    row: &[Worth],
    captures: &[Worth],
) -> Result<Worth, FaultKind> {
    match expr {
        Expr::Lit(Value::Int(number)) => Ok(Worth::Number(*number)),
        Expr::Lit(Value::Bool(truth)) => Ok(Worth::Truth(*truth)),
        Expr::Column(number) => Ok(*row.get(usize::from(*number)).expect(rt, "a column")),
        Expr::Capture(number) => Ok(*captures.get(usize::from(*number)).expect(rt, "a scalar")),
        Expr::Not(arg) => {
            let value = worth_of(rt, arg.get(), row, captures)?;
            Ok(Worth::Truth(value == Worth::Truth(false)))
        }
        Expr::Bin { op, left, right } => {
            let left = worth_of(rt, left.get(), row, captures)?;
            if *op == BinOp::And && left == Worth::Truth(false) {
                return Ok(left);
            }
            combined(rt, *op, left, worth_of(rt, right.get(), row, captures)?)
        }
        _ => panic!(rt; "an expression that no script has"),
    }
}

/// The row of the values of these expressions, or the first fault.
pub(crate) fn row_of(
    rt: &(impl Abort + AllocGlobal),
    exprs: &[Expr],
    row: &[Worth],
    captures: &[Worth],
) -> Result<Worths, FaultKind> {
    let mut values = Vec::new(rt.alloc());
    for expr in exprs {
        let value = worth_of(rt, expr, row, captures)?;
        values.push(value).expect(rt, "memory");
    }
    Ok(values)
}

/// The values of one row and then those of another.
pub(crate) fn joined(rt: &(impl Abort + AllocGlobal), left: &[Worth], right: &[Worth]) -> Worths {
    let mut row = Vec::from_slice(rt.alloc(), left).expect(rt, "memory");
    row.extend_from_slice(right).expect(rt, "memory");
    row
}
