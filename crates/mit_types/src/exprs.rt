//! The types of expressions.
ghost use Rattle.std.specs.Prelude.{◌≡◌, ◌↔◌, IfOk, IsErr, None, Some, slice_get};
ghost use Rattle.mit_expr.specs.Types as spec;

use mit_expr::{BinOp, Call, Expr};
use mit_rows::{ColType, Value};

/// An expression has no type.
#[derive(Clone, Copy, Debug, PartialEq, Eq)]
pub struct ExprType;

/// The type of a value.
pub fn type_of_value(value: &Value) -> ColType
    ensures { result ≡ spec.type_of_value value.now }
{
    match value {
        Value::Int(_) => ColType::Int,
        Value::Text(_) => ColType::Text,
        Value::Bool(_) => ColType::Bool,
    }
}

/// The type `gives`, where an operand has the type `wanted`.
fn where_is(wanted: ColType, gives: ColType, operand: ColType) -> Option<ColType>
    ensures { result ≡ spec.where_is wanted gives (Some operand) }
{
    if operand == wanted { Some(gives) } else { None }
}

/// The type `gives`, where both operands have the type `wanted`.
fn where_are(wanted: ColType, gives: ColType, left: ColType, right: ColType) -> Option<ColType>
    ensures { result ≡ spec.where_are wanted gives (Some left) (Some right) }
{
    if left == wanted {
        where_is(wanted, gives, right)
    } else {
        None
    }
}

/// The type of an operator over operands of these types.
fn type_of_operator(op: BinOp, left: ColType, right: ColType) -> Option<ColType>
    ensures { result ≡ spec.type_of_operator op (Some left) (Some right) }
{
    match op {
        BinOp::Add | BinOp::Sub | BinOp::Mul | BinOp::Div | BinOp::Rem => {
            where_are(ColType::Int, ColType::Int, left, right)
        }
        BinOp::Concat => where_are(ColType::Text, ColType::Text, left, right),
        BinOp::Eq | BinOp::Ne | BinOp::Lt | BinOp::Le | BinOp::Gt | BinOp::Ge => {
            where_is(left, ColType::Bool, right)
        }
        BinOp::And | BinOp::Or => where_are(ColType::Bool, ColType::Bool, left, right),
    }
}

/// The type of a function over an argument of this type.
fn type_of_call(call: Call, arg: ColType) -> Option<ColType>
    ensures { result ≡ spec.type_of_call call (Some arg) }
{
    match call {
        Call::ToText => where_is(ColType::Int, ColType::Text, arg),
        Call::ToInt | Call::Len => where_is(ColType::Text, ColType::Int, arg),
    }
}

/// The type at this place.
fn type_at(types: &[ColType], place: usize) -> Option<ColType>
    ensures { result ≡ slice_get types.now place }
{
    types.get(place).copied()
}

/// The type of an expression, or none.
fn infer(expr: &Expr, columns: &[ColType], captures: &[ColType]) -> Option<ColType>
    ensures { result ≡ spec.type_in columns.now captures.now expr.now }
{
    match expr {
        Expr::Column(column) => type_at(columns, usize::from(*column)),
        Expr::Capture(capture) => type_at(captures, usize::from(*capture)),
        Expr::Lit(value) => Some(type_of_value(value)),
        Expr::Bin { op, left, right } => {
            let left = infer(left.get(), columns, captures)?;
            let right = infer(right.get(), columns, captures)?;
            type_of_operator(*op, left, right)
        }
        Expr::Not(arg) => {
            let arg = infer(arg.get(), columns, captures)?;
            where_is(ColType::Bool, ColType::Bool, arg)
        }
        Expr::Call { call, arg } => {
            let arg = infer(arg.get(), columns, captures)?;
            type_of_call(*call, arg)
        }
    }
}

/// The type of an expression for the types of the row's columns and of the captured scalars.
pub fn type_of(expr: &Expr, columns: &[ColType], captures: &[ColType]) -> Result<ColType, ExprType>
    ensures typed { IfOk result (λ is. spec.type_in columns.now captures.now expr.now ≡ Some is) }
    ensures untyped { IsErr result ↔ (spec.type_in columns.now captures.now expr.now ≡ None) }
{
    infer(expr, columns, captures).ok_or(ExprType)
}
