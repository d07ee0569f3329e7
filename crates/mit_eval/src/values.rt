ghost use Rattle.std.specs.Prelude.{◌≡◌, ℤ, ◌+ℤ◌, ◌-ℤ◌, ◌*ℤ◌, map, slice_get, length, nat_le, if◌then◌else◌, Ok, Err, Some, Result, IsSome, IsTrue, IfErr, IfOk, OnOk, string_bytes, MatchResult, FitsSigned, true, false};
ghost use Rattle.std.specs.Int.{w64};
ghost use Rattle.std.specs.Option.{SomeIff};
ghost use Rattle.mit_expr.specs.Types.{type_in, type_of_value};
ghost use Rattle.mit_expr.specs.Values as spec;
ghost use Rattle.mit_eval.specs.Evaluated.{Evaluates};
ghost use Rattle.mit_eval.specs.Evaluation as step;

use itoa::Buffer;
use mit_expr::{BinOp, Call, Expr};
use mit_rows::{MAX_TEXT, Row, Text, TextRefused, Value, cmp_values, parse_int};
use std::alloc::{AllocError, Global};

/// Why an expression has no value.
#[derive(Clone, Copy, Debug, PartialEq, Eq)]
pub enum EvalFault {
    /// A number is outside 64 bits.
    Overflow,
    /// A divisor is zero.
    DivideByZero,
    /// A text is no integer within 64 bits.
    NotNumber,
    /// A text has more than 65,536 bytes.
    TextTooLong,
    /// Memory ran out.
    NoMemory,
}

impl From<AllocError> for EvalFault {
    ghost use Rattle.mit_eval.specs.declared.values.EvalFault.TheVariants.{NoMemory};

    ghost from_gives = { λ _ fault. fault ≡ NoMemory };

    fn from(_: AllocError) -> EvalFault {
        EvalFault::NoMemory
    }
}

/// Why an evaluation of any expression ends without a value.
#[derive(Drop)]
enum EvalStop {
    /// The expression has this fault.
    Fault(EvalFault),
    /// It has no type: an operand is not there or has another type than is wanted.
    Untyped,
}

impl From<AllocError> for EvalStop {
    ghost use Rattle.mit_eval.specs.declared.values.EvalFault.TheVariants.{NoMemory};
    ghost use Rattle.mit_eval.specs.declared.values.EvalStop.TheVariants.{Fault};

    ghost from_gives = { λ _ stop. stop ≡ Fault NoMemory };

    fn from(_: AllocError) -> EvalStop {
        EvalStop::Fault(EvalFault::NoMemory)
    }
}

/// An exact number as a value, where it was within 64 bits.
fn exact(number: Option<i64>) -> Result<Value, EvalStop>
    ensures { (due : ℤ) → SomeIff number (FitsSigned w64 due) due → step.Follows (spec.within due) result }
{
    match number {
        Some(number) => Ok(Value::Int(number)),
        None => Err(EvalStop::Fault(EvalFault::Overflow)),
    }
}

fn add(left: i64, right: i64) -> Result<Value, EvalStop>
    ensures { step.Follows (spec.within (left +ℤ right)) result }
{
    exact(left.checked_add(right))
}

fn subtract(left: i64, right: i64) -> Result<Value, EvalStop>
    ensures { step.Follows (spec.within (left -ℤ right)) result }
{
    exact(left.checked_sub(right))
}

fn multiply(left: i64, right: i64) -> Result<Value, EvalStop>
    ensures { step.Follows (spec.within (left *ℤ right)) result }
{
    exact(left.checked_mul(right))
}

fn divide(left: i64, right: i64) -> Result<Value, EvalStop>
    ensures { step.Follows (spec.quotient left right) result }
{
    if right == 0 {
        return Err(EvalStop::Fault(EvalFault::DivideByZero));
    }
    match left.checked_div(right) {
        Some(quotient) => Ok(Value::Int(quotient)),
        None => Err(EvalStop::Fault(EvalFault::Overflow)),
    }
}

fn remain(left: i64, right: i64) -> Result<Value, EvalStop>
    ensures { step.Follows (spec.remainder left right) result }
{
    if right == 0 {
        return Err(EvalStop::Fault(EvalFault::DivideByZero));
    }
    match left.checked_rem(right) {
        Some(remainder) => Ok(Value::Int(remainder)),
        None => Err(EvalStop::Fault(EvalFault::Overflow)),
    }
}

/// A text as a value, where it has at most 65,536 bytes.
fn keep_text(alloc: Global, text: &str) -> Result<Value, EvalStop>
    ensures { step.Follows (if nat_le (length text.now) MAX_TEXT
        then spec.gives (Value.Text text.now) else spec.faults spec.text_too_long) result }
{
    match Text::from_str(alloc, text) {
        Ok(text) => Ok(Value::Text(text)),
        Err(TextRefused::TooLong) => Err(EvalStop::Fault(EvalFault::TextTooLong)),
        Err(TextRefused::NoMemory) => Err(EvalStop::Fault(EvalFault::NoMemory)),
    }
}

/// Two integers.
fn ints(left: &Value, right: &Value) -> Result<(i64, i64), EvalStop>
    ensures { (over : ℤ → ℤ → spec.ValueOrFault) → MatchResult result
        (λ both. spec.of_ints over left.now right.now ≡ over both.0 both.1)
        (λ stop. (stop ≡ EvalStop.Untyped) × (spec.of_ints over left.now right.now ≡ spec.untyped)) }
{
    match (left, right) {
        (Value::Int(left), Value::Int(right)) => Ok((*left, *right)),
        _ => Err(EvalStop::Untyped),
    }
}

/// An operator over its two values, where both are always evaluated and none is a text to be joined.
fn operate(op: BinOp, left: &Value, right: &Value) -> Result<Value, EvalStop>
    requires { IsTrue (step.is_strict op) }
    ensures { step.Follows (spec.operate op left.now right.now) result }
{
    match op {
        BinOp::Add => {
            let (left, right) = ints(left, right)?;
            add(left, right)
        }
        BinOp::Sub => {
            let (left, right) = ints(left, right)?;
            subtract(left, right)
        }
        BinOp::Mul => {
            let (left, right) = ints(left, right)?;
            multiply(left, right)
        }
        BinOp::Div => {
            let (left, right) = ints(left, right)?;
            divide(left, right)
        }
        BinOp::Rem => {
            let (left, right) = ints(left, right)?;
            remain(left, right)
        }
        BinOp::Eq => Ok(Value::Bool(cmp_values(left, right).is_eq())),
        BinOp::Ne => Ok(Value::Bool(cmp_values(left, right).is_ne())),
        BinOp::Lt => Ok(Value::Bool(cmp_values(left, right).is_lt())),
        BinOp::Le => Ok(Value::Bool(cmp_values(left, right).is_le())),
        BinOp::Gt => Ok(Value::Bool(cmp_values(left, right).is_gt())),
        BinOp::Ge => Ok(Value::Bool(cmp_values(left, right).is_ge())),
        BinOp::Concat | BinOp::And | BinOp::Or => unreachable!(),
    }
}

/// Whether the left value of `and` or `or` decides, so that the right side is not evaluated; none where it is no truth
/// value.
fn decides(op: BinOp, left: &Value) -> Option<bool>
    ensures { result ≡ step.decides_alone op left.now }
{
    match (op, left) {
        (BinOp::And, Value::Bool(truth)) => Some(!*truth),
        (BinOp::Or, Value::Bool(truth)) => Some(*truth),
        _ => None,
    }
}

/// The other truth value.
fn negate(value: &Value) -> Result<Value, EvalStop>
    ensures { step.Follows (spec.not_value (spec.gives value.now)) result }
{
    match value {
        Value::Bool(truth) => Ok(Value::Bool(!*truth)),
        _ => Err(EvalStop::Untyped),
    }
}

/// A function over its value.
fn call_on(alloc: Global, call: Call, value: Value) -> Result<Value, EvalStop>
    ensures { step.Follows (spec.call_value call value) result }
{
    match (call, value) {
        (Call::ToText, Value::Int(number)) => keep_text(alloc, Buffer::new().format(number)),
        (Call::ToInt, Value::Text(text)) => match parse_int(text.bytes()) {
            Some(number) => Ok(Value::Int(number)),
            None => Err(EvalStop::Fault(EvalFault::NotNumber)),
        },
        (Call::Len, Value::Text(text)) => Ok(Value::Int(text.bytes().len() as i64)),
        _ => Err(EvalStop::Untyped),
    }
}

/// A copy of the value at this place.
fn value_at(values: &[Value], place: usize) -> Result<Value, EvalStop>
    ensures { step.Follows (spec.value_at (slice_get values.now place)) result }
{
    match values.get(place) {
        Some(value) => Ok(value.copy()?),
        None => Err(EvalStop::Untyped),
    }
}

/// The value of any expression, also of one without a type.
#[cycle(evaluate)]
fn evaluate(alloc: Global, expr: &Expr, row: &Row, captures: &[Value]) -> Result<Value, EvalStop>
    ensures { step.Follows (spec.value_in row.now captures.now expr.now) result }
{
    match expr {
        Expr::Column(column) => value_at(row.values(), usize::from(*column)),
        Expr::Capture(capture) => value_at(captures, usize::from(*capture)),
        Expr::Lit(value) => Ok(value.copy()?),
        Expr::Bin { op, left, right } => {
            evaluate_both(alloc, *op, left.get(), right.get(), row, captures)
        }
        Expr::Not(arg) => {
            let arg = evaluate(alloc, arg.get(), row, captures)?;
            negate(&arg)
        }
        Expr::Call { call, arg } => {
            let arg = evaluate(alloc, arg.get(), row, captures)?;
            call_on(alloc, *call, arg)
        }
    }
}

/// The value of an operator over its operands.
#[cycle(evaluate)]
fn evaluate_both(
    alloc: Global,
    op: BinOp,
    left: &Expr,
    right: &Expr,
    row: &Row,
    captures: &[Value],
) -> Result<Value, EvalStop>
    ensures { step.Follows (spec.combined op (spec.value_in row.now captures.now left.now)
        (spec.value_in row.now captures.now right.now)) result }
{
    match op {
        BinOp::Concat => {
            let mut text = String::new(alloc);
            join(alloc, left, right, row, captures, &mut text)?;
            keep_text(alloc, text.as_str())
        }
        BinOp::And | BinOp::Or => {
            let left = evaluate(alloc, left, row, captures)?;
            match decides(op, &left) {
                Some(true) => Ok(left),
                Some(false) => evaluate(alloc, right, row, captures),
                None => Err(EvalStop::Untyped),
            }
        }
        _ => {
            let left = evaluate(alloc, left, row, captures)?;
            let right = evaluate(alloc, right, row, captures)?;
            operate(op, &left, &right)
        }
    }
}

/// Adds the texts of two expressions to a text, so that a row of `++` copies each part once.
#[cycle(evaluate)]
fn join(
    alloc: Global,
    left: &Expr,
    right: &Expr,
    row: &Row,
    captures: &[Value],
    text: &mut String,
) -> Result<(), EvalStop>
    ensures ok { OnOk result (step.JoinsText (spec.combined BinOp.Concat
        (spec.value_in row.now captures.now left.now) (spec.value_in row.now captures.now right.now))
        (string_bytes text.old) (string_bytes text.new)) }
    ensures err { IfErr result (λ stop. step.Follows (spec.combined BinOp.Concat
        (spec.value_in row.now captures.now left.now) (spec.value_in row.now captures.now right.now))
        (Err stop)) }
{
    let start = text.len();
    let left_is_text = append(alloc, left, row, captures, text)?;
    let right_is_text = append(alloc, right, row, captures, text)?;
    if !left_is_text || !right_is_text {
        return Err(EvalStop::Untyped);
    }
    if text.len() - start > MAX_TEXT {
        return Err(EvalStop::Fault(EvalFault::TextTooLong));
    }
    Ok(())
}

/// Adds the text of an expression to a text, where its value is one, and says whether it is.
#[cycle(evaluate)]
fn append(
    alloc: Global,
    expr: &Expr,
    row: &Row,
    captures: &[Value],
    text: &mut String,
) -> Result<bool, EvalStop>
    ensures ok { IfOk result (step.Appends (spec.value_in row.now captures.now expr.now)
        (string_bytes text.old) (string_bytes text.new)) }
    ensures err { IfErr result (λ stop. step.Follows
        (spec.value_in row.now captures.now expr.now) (Err stop)) }
{
    if let Expr::Bin {
        op: BinOp::Concat,
        left,
        right,
    } = expr
    {
        join(alloc, left.get(), right.get(), row, captures, text)?;
        return Ok(true);
    }
    let Value::Text(more) = evaluate(alloc, expr, row, captures)? else {
        return Ok(false);
    };
    text.push_str(more.as_str())?;
    Ok(true)
}

/// The value of an expression at a row and captured values, its operands evaluated from left to right.
///
/// The first fault is the expression's.
pub fn eval(alloc: Global, expr: &Expr, row: &Row, captures: &[Value]) -> Result<Value, EvalFault>
    requires { IsSome (type_in (map type_of_value row.now) (map type_of_value captures.now) expr.now) }
    ensures value { Evaluates (spec.value_in row.now captures.now expr.now) result }
    ensures typed { IfOk result (λ value. type_in (map type_of_value row.now)
        (map type_of_value captures.now) expr.now ≡ Some (type_of_value value)) }
{
    match evaluate(alloc, expr, row, captures) {
        Ok(value) => Ok(value),
        Err(EvalStop::Fault(fault)) => Err(fault),
        Err(EvalStop::Untyped) => unreachable!(),
    }
}
