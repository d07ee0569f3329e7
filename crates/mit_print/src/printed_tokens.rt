//! The tokens of a statement's operator: each is added to a text with a blank after it.
ghost use Rattle.std.specs.Prelude.{◌≡◌, ◌<◌, ◌∷◌, ◌++◌, [], codes, drop, slice_get, unwrap_or, OnOk};
ghost use Rattle.std.specs.List.{join_by};
ghost use Rattle.mit_lex.specs.declared.token.TokenKind.TheVariants as token;
ghost use Rattle.mit_script.specs.Grammar as grammar;
ghost use Rattle.mit_print.specs.Printed.{spaced};
ghost use Rattle.mit_print.specs.PrintedTokens as spec;

use itoa::Buffer;
use mit_expr::{BinOp, Call, Expr};
use mit_lex::{add_quoted, keyword, keyword_bytes, symbol, symbol_bytes};
use mit_ops::{Agg, Flat, OpSpec};
use mit_rows::{ColType, Value};
use mit_script::Name;
use std::alloc::AllocError;

/// A token of these bytes.
fn add_bytes(text: &mut Vec<u8>, bytes: &[u8]) -> Result<(), AllocError>
    ensures { OnOk result (text.new.items ≡ text.old.items ++ bytes.now ++ codes " ") }
{
    text.extend_from_slice(bytes)?;
    text.push(b' ')?;
    Ok(())
}

/// A symbol.
pub(crate) fn add_symbol(text: &mut Vec<u8>, place: u8) -> Result<(), AllocError>
    ensures { OnOk result (text.new.items ≡ text.old.items ++ spaced (token.Symbol place ∷ [])) }
{
    add_bytes(text, symbol_bytes(place))
}

/// A keyword.
pub(crate) fn add_keyword(text: &mut Vec<u8>, place: u8) -> Result<(), AllocError>
    ensures { OnOk result (text.new.items ≡ text.old.items ++ spaced (token.Keyword place ∷ [])) }
{
    add_bytes(text, keyword_bytes(place))
}

/// A name.
pub(crate) fn add_name(text: &mut Vec<u8>, name: &[u8]) -> Result<(), AllocError>
    ensures { OnOk result (text.new.items ≡ text.old.items ++ spaced (token.Name name.now ∷ [])) }
{
    add_bytes(text, name)
}

/// A number.
fn add_number(text: &mut Vec<u8>, number: u64) -> Result<(), AllocError>
    ensures { OnOk result (text.new.items ≡ text.old.items ++ spaced (token.Number number ∷ [])) }
{
    add_bytes(text, Buffer::new().format(number).as_bytes())
}

/// A column.
fn add_column(text: &mut Vec<u8>, column: u8) -> Result<(), AllocError>
    ensures { OnOk result (text.new.items ≡ text.old.items ++ spaced (token.Column column ∷ [])) }
{
    text.push(b'$')?;
    add_bytes(text, Buffer::new().format(column).as_bytes())
}

/// A text.
fn add_text(text: &mut Vec<u8>, bytes: &[u8]) -> Result<(), AllocError>
    ensures { OnOk result (text.new.items ≡ text.old.items ++ spaced (token.Text bytes.now ∷ [])) }
{
    add_quoted(text, bytes)?;
    text.push(b' ')?;
    Ok(())
}

/// The name of a variable.
pub(crate) fn variable_name(names: &[Name], variable: u32) -> &[u8]
    ensures { result.now ≡ unwrap_or (slice_get names.now variable) [] }
{
    match names.get(variable as usize) {
        Some(name) => name.bytes(),
        None => b"",
    }
}

/// The name of the variable at a place among these.
fn argument_name<'a>(names: &'a [Name], variables: &[u32], place: usize) -> &'a [u8]
    ensures { result.now ≡ spec.argument_name names.now variables.now place }
{
    match variables.get(place) {
        Some(variable) => variable_name(names, *variable),
        None => b"",
    }
}

/// An integer.
fn add_int(text: &mut Vec<u8>, number: i64) -> Result<(), AllocError>
    ensures { OnOk result (text.new.items ≡ text.old.items ++ spaced (spec.int_tokens number)) }
{
    if number < 0 {
        add_symbol(text, symbol::MINUS)?;
    }
    add_number(text, number.unsigned_abs())
}

/// A literal.
fn add_literal(text: &mut Vec<u8>, value: &Value) -> Result<(), AllocError>
    ensures { OnOk result (text.new.items ≡ text.old.items ++ spaced (spec.literal_tokens value.now)) }
{
    match value {
        Value::Int(number) => add_int(text, *number),
        Value::Text(words) => add_text(text, words.bytes()),
        Value::Bool(true) => add_keyword(text, keyword::TRUE),
        Value::Bool(false) => add_keyword(text, keyword::FALSE),
    }
}

/// A binary operator.
fn add_operator(text: &mut Vec<u8>, op: BinOp) -> Result<(), AllocError>
    ensures { OnOk result (text.new.items ≡ text.old.items ++ spaced (grammar.operator_token op ∷ [])) }
{
    match op {
        BinOp::Add => add_symbol(text, symbol::PLUS),
        BinOp::Sub => add_symbol(text, symbol::MINUS),
        BinOp::Mul => add_symbol(text, symbol::TIMES),
        BinOp::Div => add_symbol(text, symbol::DIVIDE),
        BinOp::Rem => add_symbol(text, symbol::REMAINDER),
        BinOp::Concat => add_symbol(text, symbol::JOINED),
        BinOp::Eq => add_symbol(text, symbol::SAME),
        BinOp::Ne => add_symbol(text, symbol::DIFFERENT),
        BinOp::Lt => add_symbol(text, symbol::BELOW),
        BinOp::Le => add_symbol(text, symbol::AT_MOST),
        BinOp::Gt => add_symbol(text, symbol::ABOVE),
        BinOp::Ge => add_symbol(text, symbol::AT_LEAST),
        BinOp::And => add_keyword(text, keyword::AND),
        BinOp::Or => add_keyword(text, keyword::OR),
    }
}

/// How strongly an operator binds.
fn rank_of(op: BinOp) -> u8
    ensures value { result ≡ grammar.rank_of op }
    ensures below { result < 7 }
{
    match op {
        BinOp::Or => 0,
        BinOp::And => 1,
        BinOp::Eq | BinOp::Ne | BinOp::Lt | BinOp::Le | BinOp::Gt | BinOp::Ge => 3,
        BinOp::Concat => 4,
        BinOp::Add | BinOp::Sub => 5,
        BinOp::Mul | BinOp::Div | BinOp::Rem => 6,
    }
}

/// The least rank that its left operand has without parentheses.
fn left_rank(op: BinOp) -> u8
    ensures { result ≡ grammar.left_rank op }
{
    let rank = rank_of(op);
    if rank == 3 { 4 } else { rank }
}

/// The least rank that its right operand has without parentheses.
fn right_rank(op: BinOp) -> u8
    ensures { result ≡ grammar.right_rank op }
{
    rank_of(op) + 1
}

/// The name of a function.
fn add_function(text: &mut Vec<u8>, call: Call) -> Result<(), AllocError>
    ensures { OnOk result (text.new.items ≡ text.old.items ++ spaced (grammar.call_token call ∷ [])) }
{
    match call {
        Call::ToText => add_keyword(text, keyword::TEXT),
        Call::ToInt => add_keyword(text, keyword::INT),
        Call::Len => add_keyword(text, keyword::LEN),
    }
}

/// `(`, where it is needed.
fn add_opening(text: &mut Vec<u8>, needed: bool) -> Result<(), AllocError>
    ensures { OnOk result (text.new.items ≡ text.old.items ++ spaced (spec.opening needed)) }
{
    if needed {
        add_symbol(text, symbol::LEFT_PAREN)
    } else {
        Ok(())
    }
}

/// `)`, where it is needed.
fn add_closing(text: &mut Vec<u8>, needed: bool) -> Result<(), AllocError>
    ensures { OnOk result (text.new.items ≡ text.old.items ++ spaced (spec.closing needed)) }
{
    if needed {
        add_symbol(text, symbol::RIGHT_PAREN)
    } else {
        Ok(())
    }
}

/// An expression where one of at least this rank is wanted.
fn add_expr(
    text: &mut Vec<u8>,
    names: &[Name],
    captured: &[u32],
    expr: &Expr,
    rank: u8,
) -> Result<(), AllocError>
    ensures { OnOk result (text.new.items ≡ text.old.items
        ++ spaced (spec.ranked_tokens names.now captured.now expr.now rank)) }
{
    match expr {
        Expr::Column(column) => add_column(text, *column),
        Expr::Capture(capture) => {
            add_name(text, argument_name(names, captured, usize::from(*capture)))
        }
        Expr::Lit(value) => add_literal(text, value),
        Expr::Bin { op, left, right } => {
            add_opening(text, rank_of(*op) < rank)?;
            add_expr(text, names, captured, left.get(), left_rank(*op))?;
            add_operator(text, *op)?;
            add_expr(text, names, captured, right.get(), right_rank(*op))?;
            add_closing(text, rank_of(*op) < rank)
        }
        Expr::Not(arg) => {
            add_opening(text, 2 < rank)?;
            add_keyword(text, keyword::NOT)?;
            add_expr(text, names, captured, arg.get(), 2)?;
            add_closing(text, 2 < rank)
        }
        Expr::Call { call, arg } => {
            add_function(text, *call)?;
            add_symbol(text, symbol::LEFT_PAREN)?;
            add_expr(text, names, captured, arg.get(), 0)?;
            add_symbol(text, symbol::RIGHT_PAREN)
        }
    }
}

/// Expressions with commas between them.
fn add_listed_exprs(
    text: &mut Vec<u8>,
    names: &[Name],
    captured: &[u32],
    exprs: &[Expr],
) -> Result<(), AllocError>
    ensures { OnOk result (text.new.items ≡ text.old.items
        ++ spaced (join_by (spec.expr_tokens names.now captured.now) spec.comma exprs.now)) }
{
    let [first, more @ ..] = exprs else {
        return Ok(());
    };
    add_expr(text, names, captured, first, 0)?;
    for expr in more {
        add_symbol(text, symbol::COMMA)?;
        add_expr(text, names, captured, expr, 0)?;
    }
    Ok(())
}

/// Expressions in brackets.
fn add_exprs(
    text: &mut Vec<u8>,
    names: &[Name],
    captured: &[u32],
    exprs: &[Expr],
) -> Result<(), AllocError>
    ensures { OnOk result (text.new.items ≡ text.old.items
        ++ spaced (spec.exprs_tokens names.now captured.now exprs.now)) }
{
    add_symbol(text, symbol::LEFT_BRACKET)?;
    add_listed_exprs(text, names, captured, exprs)?;
    add_symbol(text, symbol::RIGHT_BRACKET)
}

/// The name of a type.
fn add_type(text: &mut Vec<u8>, is: ColType) -> Result<(), AllocError>
    ensures { OnOk result (text.new.items ≡ text.old.items ++ spaced (spec.type_tokens is)) }
{
    match is {
        ColType::Int => add_keyword(text, keyword::INT),
        ColType::Text => add_keyword(text, keyword::TEXT),
        ColType::Bool => add_keyword(text, keyword::BOOL),
    }
}

/// Types with commas between them.
fn add_listed_types(text: &mut Vec<u8>, types: &[ColType]) -> Result<(), AllocError>
    ensures { OnOk result (text.new.items ≡ text.old.items
        ++ spaced (join_by spec.type_tokens spec.comma types.now)) }
{
    let [first, more @ ..] = types else {
        return Ok(());
    };
    add_type(text, *first)?;
    for is in more {
        add_symbol(text, symbol::COMMA)?;
        add_type(text, *is)?;
    }
    Ok(())
}

/// Types in parentheses.
fn add_types(text: &mut Vec<u8>, types: &[ColType]) -> Result<(), AllocError>
    ensures { OnOk result (text.new.items ≡ text.old.items ++ spaced (spec.types_tokens types.now)) }
{
    add_symbol(text, symbol::LEFT_PAREN)?;
    add_listed_types(text, types)?;
    add_symbol(text, symbol::RIGHT_PAREN)
}

/// Columns with commas between them.
fn add_columns(text: &mut Vec<u8>, columns: &[u8]) -> Result<(), AllocError>
    ensures { OnOk result (text.new.items ≡ text.old.items ++ spaced (spec.columns_tokens columns.now)) }
{
    let [first, more @ ..] = columns else {
        return Ok(());
    };
    add_column(text, *first)?;
    for column in more {
        add_symbol(text, symbol::COMMA)?;
        add_column(text, *column)?;
    }
    Ok(())
}

/// What a reduction makes of the rows of a key.
fn add_agg(text: &mut Vec<u8>, agg: Agg) -> Result<(), AllocError>
    ensures { OnOk result (text.new.items ≡ text.old.items ++ spaced (grammar.agg_tokens agg)) }
{
    match agg {
        Agg::Count => add_keyword(text, keyword::COUNT),
        Agg::Sum(column) => {
            add_keyword(text, keyword::SUM)?;
            add_column(text, column)
        }
        Agg::Min(column) => {
            add_keyword(text, keyword::MIN)?;
            add_column(text, column)
        }
        Agg::Max(column) => {
            add_keyword(text, keyword::MAX)?;
            add_column(text, column)
        }
    }
}

/// What a flat map makes of a row.
fn add_flat(
    text: &mut Vec<u8>,
    names: &[Name],
    captured: &[u32],
    flat: &Flat,
) -> Result<(), AllocError>
    ensures { OnOk result (text.new.items ≡ text.old.items
        ++ spaced (spec.flat_tokens names.now captured.now flat.now)) }
{
    match flat {
        Flat::Words { expr, separator } => {
            add_keyword(text, keyword::WORDS)?;
            add_expr(text, names, captured, expr, 0)?;
            add_symbol(text, symbol::COMMA)?;
            add_text(text, separator.bytes())
        }
        Flat::Range { from, to } => {
            add_keyword(text, keyword::RANGE)?;
            add_expr(text, names, captured, from, 0)?;
            add_symbol(text, symbol::COMMA)?;
            add_expr(text, names, captured, to, 0)
        }
    }
}

/// A keyword and the name of a bag.
fn add_pair(text: &mut Vec<u8>, keyword: u8, bag: &[u8]) -> Result<(), AllocError>
    ensures { OnOk result (text.new.items ≡ text.old.items
        ++ spaced (token.Keyword keyword ∷ token.Name bag.now ∷ [])) }
{
    add_keyword(text, keyword)?;
    add_name(text, bag)
}

/// A join of two bags by the columns of each.
fn add_join(
    text: &mut Vec<u8>,
    bag: &[u8],
    left: &[u8],
    other: &[u8],
    right: &[u8],
) -> Result<(), AllocError>
    ensures { OnOk result (text.new.items ≡ text.old.items
        ++ spaced (spec.join_tokens bag.now left.now other.now right.now)) }
{
    add_pair(text, keyword::JOIN, bag)?;
    add_columns(text, left)?;
    add_pair(text, keyword::WITH, other)?;
    add_columns(text, right)
}

/// A reduction of a bag by its key columns.
fn add_reduce(text: &mut Vec<u8>, bag: &[u8], keys: &[u8], agg: Agg) -> Result<(), AllocError>
    ensures { OnOk result (text.new.items ≡ text.old.items
        ++ spaced (spec.reduce_tokens bag.now keys.now agg)) }
{
    add_pair(text, keyword::REDUCE, bag)?;
    add_keyword(text, keyword::BY)?;
    add_columns(text, keys)?;
    add_agg(text, agg)
}

/// An operator over its bags, by their names, and captured scalars.
fn add_over_bags(
    text: &mut Vec<u8>,
    names: &[Name],
    captured: &[u32],
    bag: &[u8],
    other: &[u8],
    op: &OpSpec,
) -> Result<(), AllocError>
    ensures { OnOk result (text.new.items ≡ text.old.items
        ++ spaced (spec.over_bags names.now captured.now bag.now other.now op.now)) }
{
    match op {
        OpSpec::Scalar { expr } => add_expr(text, names, captured, expr, 0),
        OpSpec::Read { name, types } => {
            add_keyword(text, keyword::READ)?;
            add_expr(text, names, captured, name, 0)?;
            add_types(text, types.as_slice())
        }
        OpSpec::Map { exprs } => {
            add_pair(text, keyword::MAP, bag)?;
            add_exprs(text, names, captured, exprs.as_slice())
        }
        OpSpec::Filter { expr } => {
            add_pair(text, keyword::FILTER, bag)?;
            add_keyword(text, keyword::WHERE)?;
            add_expr(text, names, captured, expr, 0)
        }
        OpSpec::FlatMap { flat } => {
            add_pair(text, keyword::FLAT, bag)?;
            add_flat(text, names, captured, flat)
        }
        OpSpec::Join { left, right } => {
            add_join(text, bag, left.as_slice(), other, right.as_slice())
        }
        OpSpec::Reduce { keys, agg } => add_reduce(text, bag, keys.as_slice(), *agg),
        OpSpec::Union => {
            add_pair(text, keyword::UNION, bag)?;
            add_symbol(text, symbol::COMMA)?;
            add_name(text, other)
        }
        OpSpec::Distinct => add_pair(text, keyword::DISTINCT, bag),
        OpSpec::Only => add_pair(text, keyword::ONLY, bag),
        OpSpec::Count => add_pair(text, keyword::COUNT, bag),
        OpSpec::Sum { column } => {
            add_pair(text, keyword::SUM, bag)?;
            add_column(text, *column)
        }
        OpSpec::MakeRow { exprs } => {
            add_keyword(text, keyword::ROW)?;
            add_exprs(text, names, captured, exprs.as_slice())
        }
        OpSpec::Empty { types } => {
            add_keyword(text, keyword::EMPTY)?;
            add_types(text, types.as_slice())
        }
        OpSpec::Write { name } => {
            add_pair(text, keyword::WRITE, bag)?;
            add_keyword(text, keyword::TO)?;
            add_expr(text, names, captured, name, 0)
        }
        OpSpec::Copy => add_name(text, bag),
    }
}

/// What stands after the first of these.
fn after(args: &[u32], count: u16) -> &[u32]
    ensures { result.now ≡ drop count args.now }
{
    args.get(usize::from(count)..).unwrap_or(&[])
}

/// An operator over its arguments: the bags, and then the captured scalars.
pub(crate) fn add_op(
    text: &mut Vec<u8>,
    names: &[Name],
    args: &[u32],
    op: &OpSpec,
) -> Result<(), AllocError>
    ensures { OnOk result (text.new.items ≡ text.old.items
        ++ spaced (spec.op_tokens names.now args.now op.now)) }
{
    let captured = after(args, op.bag_inputs());
    let bag = argument_name(names, args, 0);
    let other = argument_name(names, args, 1);
    add_over_bags(text, names, captured, bag, other, op)
}
