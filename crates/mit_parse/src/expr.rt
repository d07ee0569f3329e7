//! Expressions.
ghost use Rattle.std.specs.Prelude.{◌≡◌, ◌≤◌, ◌-◌, ◌∷◌};
ghost use Rattle.mit_lex.specs.declared.token.TokenKind.TheVariants.{Keyword};
ghost use Rattle.mit_script.specs.Grammar.{number_in};
ghost use Rattle.mit_script.specs.Reading as spec;
ghost use Rattle.mit_parse.specs.Gives.{GivesReading};

use crate::ahead::Ahead;
use crate::beside::beside;
use crate::names::CapturedNames;
use crate::operators::{COMPARISON, binary, call_of_word, compared, negated, ranked_operator};
use crate::stop::Stop;
use crate::tokens::{after_next, ended_by, expect_symbol, sees_word};
use mit_expr::{Call, Expr};
use mit_lex::{TokenKind, keyword, symbol};
use mit_rows::Value;
use sqlite_items::Boxed;
use std::alloc::Global;

/// The rank of `not`.
const NEGATION: u8 = 2;

/// The rank of what stands alone.
const ALONE: u8 = 7;

/// The number after a `-`.
#[tactic(auto, unfolding(mit_script::specs::Reading::negative_at))]
fn negative_at(tokens: Ahead<'_>) -> Result<(Expr, Ahead<'_>), Stop<'_>>
    ensures { GivesReading result (spec.negative_at tokens.entry) }
{
    let Some((kind, rest)) = tokens.next() else {
        return Err(Stop::Refused(tokens));
    };
    let TokenKind::Number(size) = kind else {
        return Err(Stop::Refused(tokens));
    };
    match negated(*size) {
        Some(number) => Ok((Expr::Lit(Value::Int(number)), rest)),
        None => Err(Stop::Refused(tokens)),
    }
}

/// An expression after a `(`, up to and with its `)`.
#[cycle(expression)]
#[tactic(auto, unfolding(mit_script::specs::Reading::enclosed_at))]
fn enclosed_at<'a>(
    alloc: Global,
    captured: &CapturedNames<'_>,
    depth: usize,
    tokens: Ahead<'a>,
) -> Result<(Expr, Ahead<'a>), Stop<'a>>
    ensures { GivesReading result
        (spec.enclosed_at (spec.expression (number_in captured.now) depth 7) tokens.entry) }
{
    let (inner, rest) = expression(alloc, captured, depth, ALONE, tokens)?;
    ended_by(symbol::RIGHT_PAREN, inner, rest)
}

/// The argument of a function.
#[cycle(expression)]
#[tactic(auto, unfolding(mit_script::specs::Reading::called_at))]
fn called_at<'a>(
    alloc: Global,
    captured: &CapturedNames<'_>,
    depth: usize,
    call: Call,
    tokens: Ahead<'a>,
) -> Result<(Expr, Ahead<'a>), Stop<'a>>
    ensures { GivesReading result
        (spec.called_at (spec.expression (number_in captured.now) depth 7) call tokens.entry) }
{
    let rest = expect_symbol(symbol::LEFT_PAREN, tokens)?;
    let (arg, rest) = enclosed_at(alloc, captured, depth, rest)?;
    let arg = Boxed::new(alloc, arg)?;
    Ok((Expr::Call { call, arg }, rest))
}

/// What stands alone and begins with a keyword.
#[cycle(expression)]
fn by_word<'a>(
    alloc: Global,
    captured: &CapturedNames<'_>,
    depth: usize,
    place: u8,
    tokens: Ahead<'a>,
    rest: Ahead<'a>,
) -> Result<(Expr, Ahead<'a>), Stop<'a>>
    requires { tokens ≡ Keyword place ∷ rest }
    ensures { GivesReading result
        (spec.primary_by (spec.expression (number_in captured.now) depth 7) (number_in captured.now) (Keyword place) rest.entry) }
{
    if place == keyword::TRUE {
        return Ok((Expr::Lit(Value::Bool(true)), rest));
    }
    if place == keyword::FALSE {
        return Ok((Expr::Lit(Value::Bool(false)), rest));
    }
    match call_of_word(place) {
        Some(call) => called_at(alloc, captured, depth, call, rest),
        None => Err(Stop::Refused(tokens)),
    }
}

/// What stands alone.
#[cycle(expression)]
#[tactic(auto, unfolding(mit_script::specs::Reading::primary))]
fn primary<'a>(
    alloc: Global,
    captured: &CapturedNames<'_>,
    depth: usize,
    tokens: Ahead<'a>,
) -> Result<(Expr, Ahead<'a>), Stop<'a>>
    ensures { GivesReading result
        (spec.primary (spec.expression (number_in captured.now) depth 7) (number_in captured.now) tokens.entry) }
{
    let Some((kind, rest)) = tokens.next() else {
        return Err(Stop::Refused(tokens));
    };
    match kind {
        TokenKind::Number(size) => match i64::try_from(*size) {
            Ok(number) => Ok((Expr::Lit(Value::Int(number)), rest)),
            Err(_) => Err(Stop::Refused(tokens)),
        },
        TokenKind::Text(text) => Ok((Expr::Lit(Value::Text(text.copy()?)), rest)),
        TokenKind::Column(column) => Ok((Expr::Column(*column), rest)),
        TokenKind::Name(name) => Ok((Expr::Capture(captured.capture(name.as_str())), rest)),
        TokenKind::Symbol(symbol::MINUS) => negative_at(rest),
        TokenKind::Symbol(symbol::LEFT_PAREN) => enclosed_at(alloc, captured, depth, rest),
        TokenKind::Symbol(_) => Err(Stop::Refused(tokens)),
        TokenKind::Keyword(place) => by_word(alloc, captured, depth, *place, tokens, rest),
    }
}

/// The operators of one rank, and what stands after each.
#[cycle(expression)]
fn chain_from<'a>(
    alloc: Global,
    captured: &CapturedNames<'_>,
    depth: usize,
    below: u8,
    left: Expr,
    tokens: Ahead<'a>,
) -> Result<(Expr, Ahead<'a>), Stop<'a>>
    requires { below ≤ 6 }
    ensures { GivesReading result
        (spec.chain_from (spec.ranked (spec.expression (number_in captured.now) depth) (number_in captured.now) depth below)
        (6 - below) depth left tokens.entry) }
{
    let mut left = left;
    let mut rest = tokens;
    for _ in 0..depth {
        let Some(op) = ranked_operator(6 - below, &rest) else {
            return Ok((left, rest));
        };
        let operand = ranked(alloc, captured, depth, below, after_next(rest));
        let (first, (right, after)) = beside(left, operand)?;
        left = binary(alloc, op, first, right)?;
        rest = after;
    }
    Err(Stop::Refused(rest))
}

/// A chain of operators of one rank.
#[cycle(expression)]
#[tactic(auto, unfolding(mit_script::specs::Reading::chain))]
fn chain<'a>(
    alloc: Global,
    captured: &CapturedNames<'_>,
    depth: usize,
    below: u8,
    tokens: Ahead<'a>,
) -> Result<(Expr, Ahead<'a>), Stop<'a>>
    requires { below ≤ 6 }
    ensures { GivesReading result
        (spec.chain (spec.ranked (spec.expression (number_in captured.now) depth) (number_in captured.now) depth below)
        (6 - below) depth tokens.entry) }
{
    let (left, rest) = ranked(alloc, captured, depth, below, tokens)?;
    chain_from(alloc, captured, depth, below, left, rest)
}

/// An operand, or a comparison of two.
#[cycle(expression)]
#[tactic(auto, unfolding(mit_script::specs::Reading::comparison))]
fn comparison<'a>(
    alloc: Global,
    captured: &CapturedNames<'_>,
    depth: usize,
    below: u8,
    tokens: Ahead<'a>,
) -> Result<(Expr, Ahead<'a>), Stop<'a>>
    requires { below ≤ 6 }
    ensures { GivesReading result
        (spec.comparison (spec.ranked (spec.expression (number_in captured.now) depth) (number_in captured.now) depth below)
        tokens.entry) }
{
    let (left, rest) = ranked(alloc, captured, depth, below, tokens)?;
    let Some(op) = ranked_operator(COMPARISON, &rest) else {
        return Ok((left, rest));
    };
    let operand = ranked(alloc, captured, depth, below, after_next(rest));
    let (left, (right, rest)) = beside(left, operand)?;
    compared(alloc, op, left, right, rest)
}

/// An operand, or a `not` and what it negates.
#[cycle(expression)]
#[tactic(auto, unfolding(mit_script::specs::Reading::negation))]
fn negation<'a>(
    alloc: Global,
    captured: &CapturedNames<'_>,
    depth: usize,
    below: u8,
    tokens: Ahead<'a>,
) -> Result<(Expr, Ahead<'a>), Stop<'a>>
    requires { below ≤ 6 }
    ensures { GivesReading result
        (spec.negation (spec.expression (number_in captured.now) depth 5)
        (spec.ranked (spec.expression (number_in captured.now) depth) (number_in captured.now) depth below) tokens.entry) }
{
    if !sees_word(keyword::NOT, &tokens) {
        return ranked(alloc, captured, depth, below, tokens);
    }
    let (arg, rest) = expression(alloc, captured, depth, ALONE - NEGATION, after_next(tokens))?;
    Ok((Expr::Not(Boxed::new(alloc, arg)?), rest))
}

/// An expression whose rank is 7 less this number.
#[cycle(expression)]
#[tactic(auto, unfolding(mit_script::specs::Reading::ranked))]
fn ranked<'a>(
    alloc: Global,
    captured: &CapturedNames<'_>,
    depth: usize,
    below: u8,
    tokens: Ahead<'a>,
) -> Result<(Expr, Ahead<'a>), Stop<'a>>
    requires { below ≤ 7 }
    ensures { GivesReading result
        (spec.ranked (spec.expression (number_in captured.now) depth) (number_in captured.now) depth below tokens.entry) }
{
    if below == 0 {
        return primary(alloc, captured, depth, tokens);
    }
    let rank = ALONE - below;
    if rank == NEGATION {
        return negation(alloc, captured, depth, below - 1, tokens);
    }
    if rank == COMPARISON {
        return comparison(alloc, captured, depth, below - 1, tokens);
    }
    chain(alloc, captured, depth, below - 1, tokens)
}

/// An expression whose rank is 7 less `below`. What is nested in it is nested at most `depth` deep.
#[cycle(expression)]
#[tactic(auto, unfolding(mit_script::specs::Reading::expression))]
pub(crate) fn expression<'a>(
    alloc: Global,
    captured: &CapturedNames<'_>,
    depth: usize,
    below: u8,
    tokens: Ahead<'a>,
) -> Result<(Expr, Ahead<'a>), Stop<'a>>
    requires { below ≤ 7 }
    ensures { GivesReading result
        (spec.expression (number_in captured.now) depth below tokens.entry) }
{
    if depth == 0 {
        return Err(Stop::Refused(tokens));
    }
    ranked(alloc, captured, depth - 1, below, tokens)
}

/// An expression where any may stand.
pub(crate) fn any_expression<'a>(
    alloc: Global,
    captured: &CapturedNames<'_>,
    most: usize,
    tokens: Ahead<'a>,
) -> Result<(Expr, Ahead<'a>), Stop<'a>>
    ensures { GivesReading result
        (spec.any_expression (number_in captured.now) most tokens.entry) }
{
    expression(alloc, captured, most, ALONE, tokens)
}
