//! The types of what operators give.
ghost use Rattle.std.specs.Prelude.{◌≡◌, IfOk, IfErr, Ok, Some, None, slice_get, length, option_map, if◌then◌else◌, ◌++◌, []};
ghost use Rattle.mit_expr.specs.Types as type_of_expr;
ghost use Rattle.mit_ops.specs.Kinds.{bag_inputs_of};
ghost use Rattle.mit_ops.specs.Results as due;
ghost use Rattle.mit_ops.specs.Results.{AreBags, IsBagType, Refuses, typed_as};

use crate::exprs::type_of;
use mit_expr::Expr;
use mit_ops::laws::bag_types_law;
use mit_ops::{Agg, ColTypes, Flat, MAX_CAPTURES, OpRefused, OpSpec, VarType};
use mit_rows::{ColType, MAX_COLUMNS};
use std::alloc::{AllocError, Global};

/// The columns of the first bag.
fn first(bags: &[VarType]) -> &[ColType]
    ensures { result.now ≡ due.first bags.now }
{
    match bags {
        [] => &[],
        [bag, ..] => bag.cols.as_slice(),
    }
}

/// The columns of the second bag.
fn second(bags: &[VarType]) -> &[ColType]
    ensures { result.now ≡ due.second bags.now }
{
    match bags {
        [] => &[],
        [_, rest @ ..] => first(rest),
    }
}

/// The type of an expression, or none.
fn expr_type(expr: &Expr, columns: &[ColType], captures: &[ColType]) -> Option<ColType>
    ensures { result ≡ type_of_expr.type_in columns.now captures.now expr.now }
{
    type_of(expr, columns, captures).ok()
}

/// The type of a column, or none.
fn column_type(columns: &[ColType], column: u8) -> Option<ColType>
    ensures { result ≡ slice_get columns.now column }
{
    columns.get(usize::from(column)).copied()
}

/// A bag of these columns.
fn bag(columns: Vec<ColType>) -> VarType
    ensures { result ≡ due.bag columns.items }
{
    VarType {
        scalar: false,
        cols: ColTypes::from_vec(columns),
    }
}

/// A scalar of this type, where one is given.
fn scalar(alloc: Global, is: Option<ColType>) -> Result<Option<VarType>, AllocError>
    ensures { IfOk result (λ found. found ≡ option_map due.scalar is) }
{
    let Some(is) = is else {
        return Ok(None);
    };
    Ok(Some(VarType {
        scalar: true,
        cols: ColTypes::from_vec(vec![in alloc; is]?),
    }))
}

/// A bag of these columns, where that holds.
fn bag_where(alloc: Global, holds: bool, columns: &[ColType]) -> Result<Option<VarType>, AllocError>
    ensures { IfOk result (λ found. found ≡ (if holds then Some (due.bag columns.now) else None)) }
{
    if !holds {
        return Ok(None);
    }
    Ok(Some(bag(Vec::from_slice(alloc, columns)?)))
}

/// A bag of one column for each expression, where each has a type.
fn bag_of_exprs(
    alloc: Global,
    exprs: &[Expr],
    columns: &[ColType],
    captures: &[ColType],
) -> Result<Option<VarType>, AllocError>
    ensures { IfOk result (λ found. found
        ≡ option_map due.bag (due.types_of (type_of_expr.type_in columns.now captures.now) exprs.now)) }
{
    let mut types = Vec::with_capacity(alloc, exprs.len())?;
    for expr in exprs {
        let Some(is) = expr_type(expr, columns, captures) else {
            return Ok(None);
        };
        types.push(is)?;
    }
    Ok(Some(bag(types)))
}

/// A bag of these columns and one more, where that is given.
fn extended(
    alloc: Global,
    columns: &[ColType],
    more: Option<ColType>,
) -> Result<Option<VarType>, AllocError>
    ensures { IfOk result (λ found. found ≡ due.with_column (Some columns.now) more) }
{
    let Some(more) = more else {
        return Ok(None);
    };
    let mut types = Vec::with_capacity(alloc, columns.len() + 1)?;
    types.extend_from_slice(columns)?;
    types.push(more)?;
    Ok(Some(bag(types)))
}

/// A bag of the types of these columns and one more, where they are there and it is given.
fn reduced(
    alloc: Global,
    keys: &[u8],
    columns: &[ColType],
    more: Option<ColType>,
) -> Result<Option<VarType>, AllocError>
    ensures { IfOk result (λ found. found
        ≡ due.with_column (due.types_of (slice_get columns.now) keys.now) more) }
{
    let mut types = Vec::with_capacity(alloc, keys.len() + 1)?;
    for key in keys {
        let Some(is) = column_type(columns, *key) else {
            return Ok(None);
        };
        types.push(is)?;
    }
    let Some(more) = more else {
        return Ok(None);
    };
    types.push(more)?;
    Ok(Some(bag(types)))
}

/// A bag of the columns of two bags, where their keys fit.
fn joined(
    alloc: Global,
    left_keys: &[u8],
    left: &[ColType],
    right_keys: &[u8],
    right: &[ColType],
) -> Result<Option<VarType>, AllocError>
    ensures { IfOk result (λ found. found ≡
        (if due.keys_fit (due.types_of (slice_get left.now) left_keys.now)
        (due.types_of (slice_get right.now) right_keys.now)
        then Some (due.bag (left.now ++ right.now)) else None)) }
{
    if !keys_fit(left_keys, left, right_keys, right) {
        return Ok(None);
    }
    let mut types = Vec::from_slice(alloc, left)?;
    types.extend_from_slice(right)?;
    Ok(Some(bag(types)))
}

/// A bag of these columns, where the expression over them is a truth value.
fn filtered(
    alloc: Global,
    expr: &Expr,
    columns: &[ColType],
    captures: &[ColType],
) -> Result<Option<VarType>, AllocError>
    ensures { IfOk result (λ found. found ≡
        (if due.is_a ColType.Bool (type_of_expr.type_in columns.now captures.now expr.now)
        then Some (due.bag columns.now) else None)) }
{
    let is_bool = is_a(ColType::Bool, expr_type(expr, columns, captures));
    bag_where(alloc, is_bool, columns)
}

/// A bag of these columns, where the name is a text.
fn named(
    alloc: Global,
    name: &Expr,
    columns: &[ColType],
    captures: &[ColType],
) -> Result<Option<VarType>, AllocError>
    ensures { IfOk result (λ found. found ≡
        (if due.is_a ColType.Text (type_of_expr.type_in [] captures.now name.now)
        then Some (due.bag columns.now) else None)) }
{
    let is_text = is_a(ColType::Text, expr_type(name, &[], captures));
    bag_where(alloc, is_text, columns)
}

/// The type of the first argument, where there is one.
fn copied(alloc: Global, bags: &[VarType]) -> Result<Option<VarType>, AllocError>
    ensures { IfOk result (λ found. found ≡ slice_get bags.now 0) }
{
    match bags {
        [] => Ok(None),
        [argument, ..] => Ok(Some(argument.copy(alloc)?)),
    }
}

/// A type, where it is this one.
fn where_is(wanted: ColType, found: Option<ColType>) -> Option<ColType>
    ensures { result ≡ type_of_expr.where_is wanted wanted found }
{
    match found {
        Some(is) if is == wanted => Some(wanted),
        _ => None,
    }
}

/// Whether a type is there and is this one.
fn is_a(wanted: ColType, found: Option<ColType>) -> bool
    ensures { result ≡ due.is_a wanted found }
{
    match found {
        Some(is) => is == wanted,
        None => false,
    }
}

/// Whether the keys of two bags are there, as many, and of the same types.
fn keys_fit(left: &[u8], left_columns: &[ColType], right: &[u8], right_columns: &[ColType]) -> bool
    ensures { result ≡ due.keys_fit (due.types_of (slice_get left_columns.now) left.now)
        (due.types_of (slice_get right_columns.now) right.now) }
{
    let mut lefts = left;
    let mut rights = right;
    while let Some((next_left, more_left)) = lefts.split_first() {
        let Some((next_right, more_right)) = rights.split_first() else {
            return false;
        };
        let Some(is) = column_type(left_columns, *next_left) else {
            return false;
        };
        if !is_a(is, column_type(right_columns, *next_right)) {
            return false;
        }
        lefts = more_left;
        rights = more_right;
    }
    rights.is_empty()
}

/// Whether two bags have as many columns of the same types.
fn same_types(left: &[ColType], right: &[ColType]) -> bool
    ensures { result ≡ due.same_types left.now right.now }
{
    left == right
}

/// Whether a text is one byte of ASCII.
fn is_separator(text: &[u8]) -> bool
    ensures { result ≡ due.is_separator text.now }
{
    match text {
        [byte] => *byte < 128,
        _ => false,
    }
}

/// The type of the column that a flat map adds.
fn flat_type(flat: &Flat, columns: &[ColType], captures: &[ColType]) -> Option<ColType>
    ensures { result ≡ due.flat_type flat.now columns.now captures.now }
{
    match flat {
        Flat::Words { expr, separator } => {
            if !is_separator(separator.bytes()) {
                return None;
            }
            where_is(ColType::Text, expr_type(expr, columns, captures))
        }
        Flat::Range { from, to } => {
            where_is(ColType::Int, expr_type(from, columns, captures))?;
            where_is(ColType::Int, expr_type(to, columns, captures))
        }
    }
}

/// The type of the column that a reduction adds.
fn agg_type(agg: Agg, columns: &[ColType]) -> Option<ColType>
    ensures { result ≡ due.agg_type agg columns.now }
{
    match agg {
        Agg::Count => Some(ColType::Int),
        Agg::Sum(column) => where_is(ColType::Int, column_type(columns, column)),
        Agg::Min(column) | Agg::Max(column) => column_type(columns, column),
    }
}

/// The type of the one column of a bag.
fn only_column(columns: &[ColType]) -> Option<ColType>
    ensures { result ≡ due.only_column columns.now }
{
    match columns {
        [is] => Some(*is),
        _ => None,
    }
}

/// The type of what an operator gives, or none.
fn infer(
    alloc: Global,
    spec: &OpSpec,
    bags: &[VarType],
    captures: &[ColType],
) -> Result<Option<VarType>, AllocError>
    ensures { IfOk result (λ found. found ≡ due.result spec.now bags.now captures.now) }
{
    let columns = first(bags);
    match spec {
        OpSpec::Scalar { expr } => scalar(alloc, expr_type(expr, &[], captures)),
        OpSpec::Read { name, types } => named(alloc, name, types.as_slice(), captures),
        OpSpec::Map { exprs } => bag_of_exprs(alloc, exprs.as_slice(), columns, captures),
        OpSpec::Filter { expr } => filtered(alloc, expr, columns, captures),
        OpSpec::FlatMap { flat } => extended(alloc, columns, flat_type(flat, columns, captures)),
        OpSpec::Join { left, right } => {
            joined(
                alloc,
                left.as_slice(),
                columns,
                right.as_slice(),
                second(bags),
            )
        }
        OpSpec::Reduce { keys, agg } => {
            reduced(alloc, keys.as_slice(), columns, agg_type(*agg, columns))
        }
        OpSpec::Union => bag_where(alloc, same_types(columns, second(bags)), columns),
        OpSpec::Distinct => bag_where(alloc, true, columns),
        OpSpec::Only => scalar(alloc, only_column(columns)),
        OpSpec::Count => scalar(alloc, Some(ColType::Int)),
        OpSpec::Sum { column } => {
            scalar(alloc, where_is(ColType::Int, column_type(columns, *column)))
        }
        OpSpec::MakeRow { exprs } => bag_of_exprs(alloc, exprs.as_slice(), &[], captures),
        OpSpec::Empty { types } => bag_where(alloc, true, types.as_slice()),
        OpSpec::Write { name } => named(alloc, name, &[], captures),
        OpSpec::Copy => copied(alloc, bags),
    }
}

/// How many columns an operator names or makes.
fn width(spec: &OpSpec, bags: &[VarType]) -> usize
    ensures { result ≡ due.width spec.now bags.now }
{
    match spec {
        OpSpec::Read { types, .. } | OpSpec::Empty { types } => types.as_slice().len(),
        OpSpec::Map { exprs } | OpSpec::MakeRow { exprs } => exprs.as_slice().len(),
        OpSpec::FlatMap { .. } => first(bags).len() + 1,
        OpSpec::Join { .. } => first(bags).len() + second(bags).len(),
        OpSpec::Reduce { keys, .. } => keys.as_slice().len() + 1,
        _ => 0,
    }
}

/// The type of what an operator gives, for the types of its bags and of the captured scalars.
///
/// `TooLarge` comes before `TooManyColumns`, and that before `WrongType`.
pub fn result_type(
    alloc: Global,
    spec: &OpSpec,
    bags: &[VarType],
    captures: &[ColType],
) -> Result<VarType, OpRefused>
    requires count { length bags.now ≡ bag_inputs_of spec.now }
    requires wide { AreBags bags.now }
    ensures typed { IfOk result (λ type. typed_as spec.now bags.now captures.now ≡ Ok type) }
    ensures refused { IfErr result (Refuses (typed_as spec.now bags.now captures.now)) }
    ensures kept { IfOk result IsBagType }
{
    bag_types_law();
    if captures.len() > MAX_CAPTURES {
        return Err(OpRefused::TooLarge);
    }
    if width(spec, bags) > MAX_COLUMNS {
        return Err(OpRefused::TooManyColumns);
    }
    match infer(alloc, spec, bags, captures)? {
        Some(found) => Ok(found),
        None => Err(OpRefused::WrongType),
    }
}
