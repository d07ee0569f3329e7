//! The operators of expressions.
ghost use Rattle.std.specs.Prelude.{◌≡◌, IfOk, if◌then◌else◌, nat_le, Some, None, ◌^◌, neg_ℤ, pos};
ghost use Rattle.mit_script.specs.Grammar as grammar;
ghost use Rattle.mit_script.specs.Reading as spec;
ghost use Rattle.mit_expr.specs.declared.expr.Expr.TheVariants as expr;
ghost use Rattle.mit_parse.specs.Gives.{GivesReading};

use crate::ahead::Ahead;
use crate::stop::Stop;
use mit_expr::{BinOp, Call, Expr};
use mit_lex::{TokenKind, keyword, symbol};
use sqlite_items::Boxed;
use std::alloc::{AllocError, Global};

/// The rank of comparisons.
pub(crate) const COMPARISON: u8 = 3;

/// How strongly an operator binds.
fn rank_of(op: BinOp) -> u8
    ensures { result ≡ grammar.rank_of op }
{
    match op {
        BinOp::Or => 0,
        BinOp::And => 1,
        BinOp::Eq | BinOp::Ne | BinOp::Lt | BinOp::Le | BinOp::Gt | BinOp::Ge => 3,
        BinOp::Concat => 4,
        BinOp::Add | BinOp::Sub => 5,
        BinOp::Mul | BinOp::Div | BinOp::Rem => 6,
    }
}

/// The operator of a symbol.
fn operator_of_symbol(place: u8) -> Option<BinOp>
    ensures { result ≡ spec.operator_of_symbol place }
{
    match place {
        symbol::PLUS => Some(BinOp::Add),
        symbol::MINUS => Some(BinOp::Sub),
        symbol::TIMES => Some(BinOp::Mul),
        symbol::DIVIDE => Some(BinOp::Div),
        symbol::REMAINDER => Some(BinOp::Rem),
        symbol::JOINED => Some(BinOp::Concat),
        symbol::SAME => Some(BinOp::Eq),
        symbol::DIFFERENT => Some(BinOp::Ne),
        symbol::BELOW => Some(BinOp::Lt),
        symbol::AT_MOST => Some(BinOp::Le),
        symbol::ABOVE => Some(BinOp::Gt),
        symbol::AT_LEAST => Some(BinOp::Ge),
        _ => None,
    }
}

/// The operator of a keyword.
fn operator_of_word(place: u8) -> Option<BinOp>
    ensures { result ≡ spec.operator_of_word place }
{
    match place {
        keyword::AND => Some(BinOp::And),
        keyword::OR => Some(BinOp::Or),
        _ => None,
    }
}

/// The function of a keyword.
pub(crate) fn call_of_word(place: u8) -> Option<Call>
    ensures { result ≡ spec.call_of_word place }
{
    match place {
        keyword::TEXT => Some(Call::ToText),
        keyword::INT => Some(Call::ToInt),
        keyword::LEN => Some(Call::Len),
        _ => None,
    }
}

/// The operator at the front.
#[tactic(auto, unfolding(mit_script::specs::Reading::operator_at))]
fn operator_at(tokens: &Ahead<'_>) -> Option<BinOp>
    ensures { result ≡ spec.operator_at tokens.now }
{
    let (kind, _) = tokens.next()?;
    match kind {
        TokenKind::Symbol(place) => operator_of_symbol(*place),
        TokenKind::Keyword(place) => operator_of_word(*place),
        _ => None,
    }
}

/// The operator at the front, where it has this rank.
#[tactic(auto, unfolding(mit_script::specs::Reading::ranked_operator))]
pub(crate) fn ranked_operator(rank: u8, tokens: &Ahead<'_>) -> Option<BinOp>
    ensures { result ≡ spec.ranked_operator rank tokens.now }
{
    match operator_at(tokens) {
        Some(op) if rank_of(op) == rank => Some(op),
        _ => None,
    }
}

/// An operator between two operands.
pub(crate) fn binary(alloc: Global, op: BinOp, left: Expr, right: Expr) -> Result<Expr, AllocError>
    ensures { IfOk result (λ e. e ≡ expr.Bin op left right) }
{
    Ok(Expr::Bin {
        op,
        left: Boxed::new(alloc, left)?,
        right: Boxed::new(alloc, right)?,
    })
}

/// A comparison of two operands, where no other comparison follows.
pub(crate) fn compared<'a>(
    alloc: Global,
    op: BinOp,
    left: Expr,
    right: Expr,
    tokens: Ahead<'a>,
) -> Result<(Expr, Ahead<'a>), Stop<'a>>
    ensures { GivesReading result
        (spec.alone (spec.ranked_operator 3 tokens.entry) (expr.Bin op left right) tokens.entry) }
{
    if ranked_operator(COMPARISON, &tokens).is_some() {
        return Err(Stop::Refused(tokens));
    }
    Ok((binary(alloc, op, left, right)?, tokens))
}

/// The number below zero of this size, where there is one.
pub(crate) fn negated(size: u64) -> Option<i64>
    ensures { result ≡ (if nat_le size (2 ^ 63) then Some (neg_ℤ (pos size)) else None) }
{
    match i64::try_from(size) {
        Ok(number) => Some(-number),
        Err(_) if size == i64::MIN.unsigned_abs() => Some(i64::MIN),
        Err(_) => None,
    }
}
