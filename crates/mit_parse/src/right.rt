//! The forms of operators, each from the token after its keyword on.
ghost use Rattle.std.specs.Prelude.{◌≡◌};
ghost use Rattle.mit_script.specs.Grammar.{number_in};
ghost use Rattle.mit_script.specs.Reading as spec;
ghost use Rattle.mit_parse.specs.Forms.{ending_symbol, form_at};
ghost use Rattle.mit_parse.specs.Gives.{GivesReading};
ghost use Rattle.mit_parse.specs.Parts as parts;

use crate::ahead::Ahead;
use crate::beside::beside;
use crate::expr::any_expression;
use crate::lists::{columns_at, exprs_at, types_at};
use crate::names::CapturedNames;
use crate::stop::Stop;
use crate::tokens::{
    after_next, expect_symbol, expect_word, next_column, next_name, next_text, sees_word,
};
use mit_expr::Expr;
use mit_lex::{TokenKind, keyword, symbol};
use mit_ops::{Agg, Flat, OpSpec};
use std::alloc::Global;

/// Where an operator stands.
#[derive(Clone, Copy)]
pub(crate) enum Form {
    /// On the right side of an assignment.
    Right,
    /// In a write.
    Write,
    /// In a condition.
    Condition,
}

impl Form {
    /// The symbol that ends its run.
    pub(crate) fn ending(self) -> u8
        ensures { result ≡ ending_symbol self }
    {
        match self {
            Form::Right | Form::Write => symbol::SEMICOLON,
            Form::Condition => symbol::LEFT_BRACE,
        }
    }
}

/// What a reduction makes of this column, where the keyword is `sum`, `min` or `max`.
fn agg_of_column(place: u8, column: u8) -> Agg
    ensures { result ≡ parts.agg_of_column place column }
{
    match place {
        keyword::SUM => Agg::Sum(column),
        keyword::MIN => Agg::Min(column),
        _ => Agg::Max(column),
    }
}

/// What a reduction makes of the rows of one key.
#[tactic(auto, unfolding(mit_script::specs::Reading::agg_at))]
fn agg_at(tokens: Ahead<'_>) -> Result<(Agg, Ahead<'_>), Stop<'_>>
    ensures { GivesReading result (spec.agg_at tokens.entry) }
{
    let Some((kind, rest)) = tokens.next() else {
        return Err(Stop::Refused(tokens));
    };
    let TokenKind::Keyword(place) = kind else {
        return Err(Stop::Refused(tokens));
    };
    match *place {
        keyword::COUNT => Ok((Agg::Count, rest)),
        keyword::SUM | keyword::MIN | keyword::MAX => {
            let (column, rest) = next_column(rest)?;
            Ok((agg_of_column(*place, column), rest))
        }
        _ => Err(Stop::Refused(tokens)),
    }
}

/// After `read`.
#[tactic(auto, unfolding(mit_script::specs::Reading::read_at))]
fn read_at<'a>(
    alloc: Global,
    captured: &CapturedNames<'_>,
    most: usize,
    tokens: Ahead<'a>,
) -> Result<(OpSpec, Ahead<'a>), Stop<'a>>
    ensures { GivesReading result (spec.read_at (number_in captured.now) most tokens.entry) }
{
    let (name, rest) = any_expression(alloc, captured, most, tokens)?;
    let (types, rest) = types_at(alloc, most, rest)?;
    Ok((OpSpec::Read { name, types }, rest))
}

/// After `map`.
#[tactic(auto, unfolding(mit_script::specs::Reading::map_at))]
fn map_at<'a>(
    alloc: Global,
    captured: &CapturedNames<'_>,
    most: usize,
    tokens: Ahead<'a>,
) -> Result<(OpSpec, Ahead<'a>), Stop<'a>>
    ensures { GivesReading result (spec.map_at (number_in captured.now) most tokens.entry) }
{
    let (_, rest) = next_name(tokens)?;
    let (exprs, rest) = exprs_at(alloc, captured, most, rest)?;
    Ok((OpSpec::Map { exprs }, rest))
}

/// After `filter`.
#[tactic(auto, unfolding(mit_script::specs::Reading::filter_at))]
fn filter_at<'a>(
    alloc: Global,
    captured: &CapturedNames<'_>,
    most: usize,
    tokens: Ahead<'a>,
) -> Result<(OpSpec, Ahead<'a>), Stop<'a>>
    ensures { GivesReading result (spec.filter_at (number_in captured.now) most tokens.entry) }
{
    let (_, rest) = next_name(tokens)?;
    let rest = expect_word(keyword::WHERE, rest)?;
    let (expr, rest) = any_expression(alloc, captured, most, rest)?;
    Ok((OpSpec::Filter { expr }, rest))
}

/// After `words`.
#[tactic(auto, unfolding(mit_script::specs::Reading::words_at))]
fn words_at<'a>(
    alloc: Global,
    captured: &CapturedNames<'_>,
    most: usize,
    tokens: Ahead<'a>,
) -> Result<(OpSpec, Ahead<'a>), Stop<'a>>
    ensures { GivesReading result (spec.words_at (number_in captured.now) most tokens.entry) }
{
    let (expr, rest) = any_expression(alloc, captured, most, tokens)?;
    let (expr, rest) = beside(expr, expect_symbol(symbol::COMMA, rest))?;
    let (expr, (separator, rest)) = beside(expr, next_text(rest))?;
    let (expr, separator) = beside(expr, separator.copy())?;
    let flat = Flat::Words { expr, separator };
    Ok((OpSpec::FlatMap { flat }, rest))
}

/// After `range`.
#[tactic(auto, unfolding(mit_script::specs::Reading::range_at))]
fn range_at<'a>(
    alloc: Global,
    captured: &CapturedNames<'_>,
    most: usize,
    tokens: Ahead<'a>,
) -> Result<(OpSpec, Ahead<'a>), Stop<'a>>
    ensures { GivesReading result (spec.range_at (number_in captured.now) most tokens.entry) }
{
    let (from, rest) = any_expression(alloc, captured, most, tokens)?;
    let (from, rest) = beside(from, expect_symbol(symbol::COMMA, rest))?;
    let (from, (to, rest)) = beside(from, any_expression(alloc, captured, most, rest))?;
    let flat = Flat::Range { from, to };
    Ok((OpSpec::FlatMap { flat }, rest))
}

/// After the bag of `flat`.
#[tactic(auto, unfolding(mit_script::specs::Reading::flat_by))]
fn flat_by<'a>(
    alloc: Global,
    captured: &CapturedNames<'_>,
    most: usize,
    tokens: Ahead<'a>,
) -> Result<(OpSpec, Ahead<'a>), Stop<'a>>
    ensures { GivesReading result (spec.flat_by (number_in captured.now) most tokens.entry) }
{
    if sees_word(keyword::WORDS, &tokens) {
        return words_at(alloc, captured, most, after_next(tokens));
    }
    if sees_word(keyword::RANGE, &tokens) {
        return range_at(alloc, captured, most, after_next(tokens));
    }
    Err(Stop::Refused(tokens))
}

/// After `flat`.
#[tactic(auto, unfolding(mit_script::specs::Reading::flat_at))]
fn flat_at<'a>(
    alloc: Global,
    captured: &CapturedNames<'_>,
    most: usize,
    tokens: Ahead<'a>,
) -> Result<(OpSpec, Ahead<'a>), Stop<'a>>
    ensures { GivesReading result (spec.flat_at (number_in captured.now) most tokens.entry) }
{
    let (_, rest) = next_name(tokens)?;
    flat_by(alloc, captured, most, rest)
}

/// After `join`.
#[tactic(auto, unfolding(mit_script::specs::Reading::join_at))]
fn join_at(alloc: Global, most: usize, tokens: Ahead<'_>) -> Result<(OpSpec, Ahead<'_>), Stop<'_>>
    ensures { GivesReading result (spec.join_at most tokens.entry) }
{
    let (_, rest) = next_name(tokens)?;
    let (left, rest) = columns_at(alloc, most, rest)?;
    let rest = expect_word(keyword::WITH, rest)?;
    let (_, rest) = next_name(rest)?;
    let (right, rest) = columns_at(alloc, most, rest)?;
    Ok((OpSpec::Join { left, right }, rest))
}

/// After `reduce`.
#[tactic(auto, unfolding(mit_script::specs::Reading::reduce_at))]
fn reduce_at(alloc: Global, most: usize, tokens: Ahead<'_>) -> Result<(OpSpec, Ahead<'_>), Stop<'_>>
    ensures { GivesReading result (spec.reduce_at most tokens.entry) }
{
    let (_, rest) = next_name(tokens)?;
    let rest = expect_word(keyword::BY, rest)?;
    let (keys, rest) = columns_at(alloc, most, rest)?;
    let (agg, rest) = agg_at(rest)?;
    Ok((OpSpec::Reduce { keys, agg }, rest))
}

/// After `union`.
#[tactic(auto, unfolding(mit_script::specs::Reading::union_at))]
fn union_at(tokens: Ahead<'_>) -> Result<(OpSpec, Ahead<'_>), Stop<'_>>
    ensures { GivesReading result (spec.union_at tokens.entry) }
{
    let (_, rest) = next_name(tokens)?;
    let rest = expect_symbol(symbol::COMMA, rest)?;
    let (_, rest) = next_name(rest)?;
    Ok((OpSpec::Union, rest))
}

/// An operator of one bag and nothing else.
#[tactic(auto, unfolding(mit_script::specs::Reading::of_bag_at))]
fn of_bag_at(op: OpSpec, tokens: Ahead<'_>) -> Result<(OpSpec, Ahead<'_>), Stop<'_>>
    ensures { GivesReading result (spec.of_bag_at op tokens.entry) }
{
    let (op, (_, rest)) = beside(op, next_name(tokens))?;
    Ok((op, rest))
}

/// After `sum`.
#[tactic(auto, unfolding(mit_script::specs::Reading::sum_at))]
fn sum_at(tokens: Ahead<'_>) -> Result<(OpSpec, Ahead<'_>), Stop<'_>>
    ensures { GivesReading result (spec.sum_at tokens.entry) }
{
    let (_, rest) = next_name(tokens)?;
    let (column, rest) = next_column(rest)?;
    Ok((OpSpec::Sum { column }, rest))
}

/// After `row`.
#[tactic(auto, unfolding(mit_script::specs::Reading::row_form_at))]
fn row_at<'a>(
    alloc: Global,
    captured: &CapturedNames<'_>,
    most: usize,
    tokens: Ahead<'a>,
) -> Result<(OpSpec, Ahead<'a>), Stop<'a>>
    ensures { GivesReading result (spec.row_form_at (number_in captured.now) most tokens.entry) }
{
    let (exprs, rest) = exprs_at(alloc, captured, most, tokens)?;
    Ok((OpSpec::MakeRow { exprs }, rest))
}

/// After `empty`.
#[tactic(auto, unfolding(mit_script::specs::Reading::empty_at))]
fn empty_at(alloc: Global, most: usize, tokens: Ahead<'_>) -> Result<(OpSpec, Ahead<'_>), Stop<'_>>
    ensures { GivesReading result (spec.empty_at most tokens.entry) }
{
    let (types, rest) = types_at(alloc, most, tokens)?;
    Ok((OpSpec::Empty { types }, rest))
}

/// A scalar of this expression, or a copy where it is a single name.
fn copy_or_scalar(expr: Expr) -> OpSpec
    ensures { result ≡ spec.copy_or_scalar expr }
{
    match expr {
        Expr::Capture(_) => OpSpec::Copy,
        _ => OpSpec::Scalar { expr },
    }
}

/// A scalar, or a copy where it is a single name.
#[tactic(auto, unfolding(mit_script::specs::Reading::scalar_at))]
fn scalar_at<'a>(
    alloc: Global,
    captured: &CapturedNames<'_>,
    most: usize,
    tokens: Ahead<'a>,
) -> Result<(OpSpec, Ahead<'a>), Stop<'a>>
    ensures { GivesReading result (spec.scalar_at (number_in captured.now) most tokens.entry) }
{
    let (expr, rest) = any_expression(alloc, captured, most, tokens)?;
    Ok((copy_or_scalar(expr), rest))
}

/// The form of a keyword, or an expression.
fn right_by<'a>(
    alloc: Global,
    captured: &CapturedNames<'_>,
    most: usize,
    place: u8,
    tokens: Ahead<'a>,
    rest: Ahead<'a>,
) -> Result<(OpSpec, Ahead<'a>), Stop<'a>>
    ensures { GivesReading result
        (spec.right_by (number_in captured.now) most place tokens.entry rest.entry) }
{
    match place {
        keyword::READ => read_at(alloc, captured, most, rest),
        keyword::MAP => map_at(alloc, captured, most, rest),
        keyword::FILTER => filter_at(alloc, captured, most, rest),
        keyword::FLAT => flat_at(alloc, captured, most, rest),
        keyword::JOIN => join_at(alloc, most, rest),
        keyword::REDUCE => reduce_at(alloc, most, rest),
        keyword::UNION => union_at(rest),
        keyword::DISTINCT => of_bag_at(OpSpec::Distinct, rest),
        keyword::ONLY => of_bag_at(OpSpec::Only, rest),
        keyword::COUNT => of_bag_at(OpSpec::Count, rest),
        keyword::SUM => sum_at(rest),
        keyword::ROW => row_at(alloc, captured, most, rest),
        keyword::EMPTY => empty_at(alloc, most, rest),
        _ => scalar_at(alloc, captured, most, tokens),
    }
}

/// The right side of an assignment.
#[tactic(auto, unfolding(mit_script::specs::Reading::right_at))]
fn right_at<'a>(
    alloc: Global,
    captured: &CapturedNames<'_>,
    most: usize,
    tokens: Ahead<'a>,
) -> Result<(OpSpec, Ahead<'a>), Stop<'a>>
    ensures { GivesReading result (spec.right_at (number_in captured.now) most tokens.entry) }
{
    match tokens.next() {
        Some((TokenKind::Keyword(place), rest)) => {
            right_by(alloc, captured, most, *place, tokens, rest)
        }
        _ => scalar_at(alloc, captured, most, tokens),
    }
}

/// A write, without its `;`.
#[tactic(auto, unfolding(mit_script::specs::Reading::write_form_at))]
fn write_at<'a>(
    alloc: Global,
    captured: &CapturedNames<'_>,
    most: usize,
    tokens: Ahead<'a>,
) -> Result<(OpSpec, Ahead<'a>), Stop<'a>>
    ensures { GivesReading result (spec.write_form_at (number_in captured.now) most tokens.entry) }
{
    let rest = expect_word(keyword::WRITE, tokens)?;
    let (_, rest) = next_name(rest)?;
    let rest = expect_word(keyword::TO, rest)?;
    let (name, rest) = any_expression(alloc, captured, most, rest)?;
    Ok((OpSpec::Write { name }, rest))
}

/// A condition.
#[tactic(auto, unfolding(mit_script::specs::Reading::condition_at))]
fn condition_at<'a>(
    alloc: Global,
    captured: &CapturedNames<'_>,
    most: usize,
    tokens: Ahead<'a>,
) -> Result<(OpSpec, Ahead<'a>), Stop<'a>>
    ensures { GivesReading result (spec.condition_at (number_in captured.now) most tokens.entry) }
{
    let (expr, rest) = any_expression(alloc, captured, most, tokens)?;
    Ok((OpSpec::Scalar { expr }, rest))
}

/// An operator of this form, without the symbol that ends its run.
pub(crate) fn form_at<'a>(
    alloc: Global,
    captured: &CapturedNames<'_>,
    form: Form,
    most: usize,
    tokens: Ahead<'a>,
) -> Result<(OpSpec, Ahead<'a>), Stop<'a>>
    ensures { GivesReading result (form_at form (number_in captured.now) most tokens.entry) }
{
    match form {
        Form::Right => right_at(alloc, captured, most, tokens),
        Form::Write => write_at(alloc, captured, most, tokens),
        Form::Condition => condition_at(alloc, captured, most, tokens),
    }
}
