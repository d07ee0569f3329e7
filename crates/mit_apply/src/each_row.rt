//! What one row gives.
ghost use Rattle.std.specs.Prelude.{◌≡◌, ◌≤◌, ◌+◌, ◌<◌, ◌++◌, ◌-ℤ◌, [], ◌∷◌, Some, Ok, IfErr, IfOk, IsSome, OnErr, OnOk, length, map, take, if◌then◌else◌};
ghost use Rattle.mit_expr.specs.Types.{type_in, type_of_value};
ghost use Rattle.mit_expr.specs.Values.{value_in};
ghost use Rattle.mit_ops.specs.EachRow as spec;
ghost use Rattle.mit_ops.specs.Results as due;
ghost use Rattle.mit_apply.specs.Stops.{Adds, Gives, Stops};

use mit_eval::{EvalFault, eval};
use mit_expr::Expr;
use mit_ops::{FaultKind, Flat, MAX_RANGE};
use mit_rows::{ColType, MAX_COLUMNS, MAX_TEXT, Row, Text, TextRefused, Value};
use std::alloc::{AllocError, AllocFailed, Global};

/// Why a row gives nothing.
#[derive(Clone, Copy, Debug, PartialEq, Eq)]
pub enum OpStop {
    /// The operator has this fault at the row.
    Fault(FaultKind),
    /// Memory ran out.
    NoMemory,
}

impl From<AllocError> for OpStop {
    ghost use Rattle.std.specs.Prelude.{◌≡◌};
    ghost use Rattle.mit_apply.specs.declared.each_row.OpStop.TheVariants.{NoMemory};

    ghost from_gives = { λ _ stop. stop ≡ NoMemory };

    fn from(_: AllocError) -> OpStop {
        OpStop::NoMemory
    }
}

impl<T: Drop> From<AllocFailed<T>> for OpStop {
    ghost use Rattle.std.specs.Prelude.{◌≡◌};
    ghost use Rattle.mit_apply.specs.declared.each_row.OpStop.TheVariants.{NoMemory};

    ghost from_gives = { λ _ stop. stop ≡ NoMemory };

    fn from(_: AllocFailed<T>) -> OpStop {
        OpStop::NoMemory
    }
}

impl From<EvalFault> for OpStop {
    ghost use Rattle.std.specs.Prelude.{◌≡◌};
    ghost use Rattle.mit_apply.specs.Stops.{stop_of};

    ghost from_gives = { λ fault stop. stop ≡ stop_of fault };

    fn from(fault: EvalFault) -> OpStop {
        match fault {
            EvalFault::Overflow => OpStop::Fault(FaultKind::Overflow),
            EvalFault::DivideByZero => OpStop::Fault(FaultKind::DivideByZero),
            EvalFault::NotNumber => OpStop::Fault(FaultKind::NotNumber),
            EvalFault::TextTooLong => OpStop::Fault(FaultKind::TextTooLong),
            EvalFault::NoMemory => OpStop::NoMemory,
        }
    }
}

/// The value of an expression at a row.
fn value_of(alloc: Global, expr: &Expr, row: &Row, captures: &[Value]) -> Result<Value, OpStop>
    requires { IsSome (type_in (map type_of_value row.now)
        (map type_of_value captures.now) expr.now) }
    ensures value { Gives (value_in row.now captures.now expr.now) result }
    ensures typed { IfOk result (λ value. type_in (map type_of_value row.now)
        (map type_of_value captures.now) expr.now ≡ Some (type_of_value value)) }
{
    Ok(eval(alloc, expr, row, captures)?)
}

/// The row of the expressions' values, or the first one's fault.
pub fn row_of_exprs(
    alloc: Global,
    exprs: &[Expr],
    row: &Row,
    captures: &[Value],
) -> Result<Row, OpStop>
    requires few { length exprs.now ≤ MAX_COLUMNS }
    requires typed { IsSome (due.types_of (type_in (map type_of_value row.now)
        (map type_of_value captures.now)) exprs.now) }
    ensures ok { IfOk result (λ made.
        spec.row_of_exprs captures.now exprs.now row.now ≡ Ok (made ∷ [])) }
    ensures err { IfErr result (Stops (spec.row_of_exprs captures.now exprs.now row.now)) }
{
    match exprs {
        [only] => Ok(Row::from_value(value_of(alloc, only, row, captures)?)),
        [first, second] => {
            let first = value_of(alloc, first, row, captures)?;
            let second = value_of(alloc, second, row, captures)?;
            Ok(Row::from_pair(alloc, first, second)?)
        }
        _ => row_of_many(alloc, exprs, row, captures),
    }
}

/// The same for any number of expressions.
fn row_of_many(alloc: Global, exprs: &[Expr], row: &Row, captures: &[Value]) -> Result<Row, OpStop>
    requires few { length exprs.now ≤ MAX_COLUMNS }
    requires typed { IsSome (due.types_of (type_in (map type_of_value row.now)
        (map type_of_value captures.now)) exprs.now) }
    ensures ok { IfOk result (λ made.
        spec.row_of_exprs captures.now exprs.now row.now ≡ Ok (made ∷ [])) }
    ensures err { IfErr result (Stops (spec.row_of_exprs captures.now exprs.now row.now)) }
{
    let mut values = Vec::with_capacity(alloc, exprs.len())?;
    for expr in exprs {
        values.push(value_of(alloc, expr, row, captures)?)?;
    }
    Ok(Row::from_values(values)?)
}

/// Whether a row stays: the expression is true there.
pub fn keeps(alloc: Global, expr: &Expr, row: &Row, captures: &[Value]) -> Result<bool, OpStop>
    requires { type_in (map type_of_value row.now) (map type_of_value captures.now) expr.now
        ≡ Some ColType.Bool }
    ensures ok { IfOk result (λ stays. spec.filtered captures.now expr.now row.now
        ≡ Ok (if stays then row.now ∷ [] else [])) }
    ensures err { IfErr result (Stops (spec.filtered captures.now expr.now row.now)) }
{
    match value_of(alloc, expr, row, captures)? {
        Value::Bool(stays) => Ok(stays),
        _ => unreachable!(),
    }
}

/// Adds a row, followed by one value more.
fn add_extended(
    alloc: Global,
    row: &Row,
    value: Value,
    out: &mut Vec<Row>,
) -> Result<(), AllocError>
    requires { length row.now + 1 ≤ MAX_COLUMNS }
    ensures ok { OnOk result (out.new.items ≡ out.old.items ++ (row.now ++ value ∷ []) ∷ []) }
    ensures err { OnErr result (out.new.items ≡ out.old.items) }
{
    out.push(Row::joined(alloc, row, &Row::from_value(value))?)?;
    Ok(())
}

/// Adds a row for each piece of a text, without the empty ones.
fn add_words(
    alloc: Global,
    row: &Row,
    text: &Text,
    separator: u8,
    out: &mut Vec<Row>,
) -> Result<(), AllocError>
    requires wide { length row.now + 1 ≤ MAX_COLUMNS }
    requires ascii { separator < 128 }
    ensures ok { OnOk result (out.new.items
        ≡ out.old.items ++ spec.words_of row.now (separator ∷ []) (Value.Text text.now)) }
    ensures err { OnErr result (take (length out.old.items) out.new.items ≡ out.old.items) }
{
    // a read, which tells the proof that no piece is too long
    let _bytes = text.bytes();
    for piece in text.as_str().split(char::from(separator)) {
        if !piece.is_empty() {
            add_extended(alloc, row, Value::Text(piece_text(alloc, piece)?), out)?;
        }
    }
    Ok(())
}

/// A piece of a text, as a text of its own.
fn piece_text(alloc: Global, piece: &str) -> Result<Text, AllocError>
    requires { length piece.now ≤ MAX_TEXT }
    ensures { IfOk result (λ text. text ≡ piece.now) }
{
    match Text::from_str(alloc, piece) {
        Ok(text) => Ok(text),
        Err(TextRefused::NoMemory) => Err(AllocError),
        Err(TextRefused::TooLong) => unreachable!(),
    }
}

/// Adds a row for each number from `from` up to but without `to`.
fn add_numbers(
    alloc: Global,
    row: &Row,
    from: i64,
    to: i64,
    out: &mut Vec<Row>,
) -> Result<(), OpStop>
    requires { length row.now + 1 ≤ MAX_COLUMNS }
    ensures ok { OnOk result (Adds (spec.numbers_below row.now from (to -ℤ from))
        out.old.items out.new.items) }
    ensures err { IfErr result (Stops (spec.numbers_below row.now from (to -ℤ from))) }
    ensures kept { OnErr result (take (length out.old.items) out.new.items ≡ out.old.items) }
{
    if to <= from {
        return Ok(());
    }
    if to.abs_diff(from) > MAX_RANGE as u64 {
        return Err(OpStop::Fault(FaultKind::RangeTooLong));
    }
    for number in from..to {
        add_extended(alloc, row, Value::Int(number), out)?;
    }
    Ok(())
}

/// Adds what a flat map gives; rows of a call that ends early may stay.
fn add_flat(
    alloc: Global,
    flat: &Flat,
    row: &Row,
    captures: &[Value],
    out: &mut Vec<Row>,
) -> Result<(), OpStop>
    requires typed { IsSome (due.flat_type flat.now (map type_of_value row.now)
        (map type_of_value captures.now)) }
    requires wide { length row.now + 1 ≤ MAX_COLUMNS }
    ensures ok { OnOk result (Adds (spec.flattened captures.now flat.now row.now)
        out.old.items out.new.items) }
    ensures err { IfErr result (Stops (spec.flattened captures.now flat.now row.now)) }
    ensures kept { OnErr result (take (length out.old.items) out.new.items ≡ out.old.items) }
{
    match flat {
        Flat::Words { expr, separator } => {
            let Value::Text(text) = value_of(alloc, expr, row, captures)? else {
                unreachable!();
            };
            let [separator] = separator.bytes() else {
                unreachable!();
            };
            add_words(alloc, row, &text, *separator, out)?;
            Ok(())
        }
        Flat::Range { from, to } => {
            let from = value_of(alloc, from, row, captures)?;
            let to = value_of(alloc, to, row, captures)?;
            let (Value::Int(from), Value::Int(to)) = (from, to) else {
                unreachable!();
            };
            add_numbers(alloc, row, from, to, out)
        }
    }
}

/// Adds the rows that a flat map makes of a row, in order. Where it stops, `out` is as before.
pub fn flatten(
    alloc: Global,
    flat: &Flat,
    row: &Row,
    captures: &[Value],
    out: &mut Vec<Row>,
) -> Result<(), OpStop>
    requires typed { IsSome (due.flat_type flat.now (map type_of_value row.now)
        (map type_of_value captures.now)) }
    requires wide { length row.now + 1 ≤ MAX_COLUMNS }
    ensures ok { OnOk result (Adds (spec.flattened captures.now flat.now row.now)
        out.old.items out.new.items) }
    ensures err { IfErr result (Stops (spec.flattened captures.now flat.now row.now)) }
    ensures kept { OnErr result (out.new.items ≡ out.old.items) }
{
    let before = out.len();
    let added = add_flat(alloc, flat, row, captures, out);
    if added.is_err() {
        out.truncate(before);
    }
    added
}
