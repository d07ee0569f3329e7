//! Lists with commas between their items.
ghost use Rattle.mit_script.specs.Grammar.{Kinds, number_in};
ghost use Rattle.mit_script.specs.Reading.{Reading};
ghost use Rattle.mit_script.specs.Reading as spec;
ghost use Rattle.mit_parse.specs.Gives.{GivesAs, GivesReading};

use crate::ahead::Ahead;
use crate::expr::any_expression;
use crate::names::CapturedNames;
use crate::stop::Stop;
use crate::tokens::{after_next, ended_by, expect_symbol, next_column, next_type, sees_symbol};
use mit_expr::Expr;
use mit_lex::symbol;
use mit_ops::{ColTypes, Columns, Exprs};
use mit_rows::ColType;
use std::alloc::Global;

/// What reads one item of a list.
trait ItemReader {
    /// The item.
    type Item: Drop;

    ghost item: { Self → Kinds → Reading Self.Item };

    /// The next item, and the tokens after it.
    fn next<'a>(
        &self,
        alloc: Global,
        tokens: Ahead<'a>,
    ) -> Result<(Self::Item, Ahead<'a>), Stop<'a>>
        ensures { GivesReading result (item self.now tokens.entry) };
}

/// Reads types.
#[derive(Clone, Copy)]
struct TypeReader;

impl ItemReader for TypeReader {
    type Item = ColType;

    ghost item = { λ _. spec.type_word_at };

    fn next<'a>(&self, _: Global, tokens: Ahead<'a>) -> Result<(ColType, Ahead<'a>), Stop<'a>> {
        next_type(tokens)
    }
}

/// Reads columns.
#[derive(Clone, Copy)]
struct ColumnReader;

impl ItemReader for ColumnReader {
    type Item = u8;

    ghost item = { λ _. spec.column_at };

    fn next<'a>(&self, _: Global, tokens: Ahead<'a>) -> Result<(u8, Ahead<'a>), Stop<'a>> {
        next_column(tokens)
    }
}

/// Reads expressions, with these captured names and a bound on the tokens.
#[derive(Clone, Copy)]
struct ExpressionReader<'c> {
    captured: &'c CapturedNames<'c>,
    most: usize,
}

impl<'c> ItemReader for ExpressionReader<'c> {
    type Item = Expr;

    ghost item = { λ reader. spec.any_expression (number_in reader.captured.now) reader.most };

    fn next<'a>(&self, alloc: Global, tokens: Ahead<'a>) -> Result<(Expr, Ahead<'a>), Stop<'a>> {
        any_expression(alloc, self.captured, self.most, tokens)
    }
}

/// One item or more.
fn listed<'a, R: ItemReader>(
    alloc: Global,
    reader: &R,
    turns: usize,
    tokens: Ahead<'a>,
) -> Result<(Vec<R::Item>, Ahead<'a>), Stop<'a>>
    ensures { GivesAs (λ x. (x.0.items, x.1)) result (spec.listed (R.item reader.now) turns tokens.entry) }
{
    let mut items = Vec::new(alloc);
    let mut rest = tokens;
    for _ in 0..turns {
        let (item, after) = reader.next(alloc, rest)?;
        items.push(item)?;
        if !sees_symbol(symbol::COMMA, &after) {
            return Ok((items, after));
        }
        rest = after_next(after);
    }
    Err(Stop::Refused(rest))
}

/// Types in parentheses.
#[tactic(auto, unfolding(mit_script::specs::Reading::types_at))]
pub(crate) fn types_at(
    alloc: Global,
    most: usize,
    tokens: Ahead<'_>,
) -> Result<(ColTypes, Ahead<'_>), Stop<'_>>
    ensures { GivesReading result (spec.types_at most tokens.entry) }
{
    let rest = expect_symbol(symbol::LEFT_PAREN, tokens)?;
    let (types, rest) = listed(alloc, &TypeReader, most, rest)?;
    ended_by(symbol::RIGHT_PAREN, ColTypes::from_vec(types), rest)
}

/// Columns.
pub(crate) fn columns_at(
    alloc: Global,
    most: usize,
    tokens: Ahead<'_>,
) -> Result<(Columns, Ahead<'_>), Stop<'_>>
    ensures { GivesReading result (spec.columns_at most tokens.entry) }
{
    let (columns, rest) = listed(alloc, &ColumnReader, most, tokens)?;
    Ok((Columns::from_vec(columns), rest))
}

/// ExpressionReader in brackets.
#[tactic(auto, unfolding(mit_script::specs::Reading::exprs_at))]
pub(crate) fn exprs_at<'a>(
    alloc: Global,
    captured: &CapturedNames<'_>,
    most: usize,
    tokens: Ahead<'a>,
) -> Result<(Exprs, Ahead<'a>), Stop<'a>>
    ensures { GivesReading result (spec.exprs_at (number_in captured.now) most tokens.entry) }
{
    let rest = expect_symbol(symbol::LEFT_BRACKET, tokens)?;
    let (exprs, rest) = listed(alloc, &ExpressionReader { captured, most }, most, rest)?;
    ended_by(symbol::RIGHT_BRACKET, Exprs::from_vec(exprs), rest)
}
