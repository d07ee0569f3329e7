//! What the next token is.
ghost use Rattle.std.specs.Prelude.{◌≡◌};
ghost use Rattle.mit_script.specs.Reading as spec;
ghost use Rattle.mit_parse.specs.Gives.{GivesAs, GivesReading};
ghost use Rattle.mit_parse.specs.Parts.{ended_by};

use crate::ahead::Ahead;
use crate::beside::beside;
use crate::stop::Stop;
use mit_lex::{TokenKind, keyword};
use mit_rows::{ColType, Text};

/// The tokens after this symbol.
#[tactic(auto, unfolding(mit_script::specs::Reading::expect_symbol))]
pub(crate) fn expect_symbol(wanted: u8, tokens: Ahead<'_>) -> Result<Ahead<'_>, Stop<'_>>
    ensures { GivesAs (λ rest. (tt, rest)) result (spec.expect_symbol wanted tokens.entry) }
{
    let Some((kind, rest)) = tokens.next() else {
        return Err(Stop::Refused(tokens));
    };
    match kind {
        TokenKind::Symbol(place) if *place == wanted => Ok(rest),
        _ => Err(Stop::Refused(tokens)),
    }
}

/// What was read, where this symbol stands after it.
pub(crate) fn ended_by<T: Drop>(
    ending: u8,
    first: T,
    tokens: Ahead<'_>,
) -> Result<(T, Ahead<'_>), Stop<'_>>
    ensures { GivesReading result (ended_by ending first tokens.entry) }
{
    let (first, rest) = beside(first, expect_symbol(ending, tokens))?;
    Ok((first, rest))
}

/// The tokens after this keyword.
#[tactic(auto, unfolding(mit_script::specs::Reading::expect_word))]
pub(crate) fn expect_word(wanted: u8, tokens: Ahead<'_>) -> Result<Ahead<'_>, Stop<'_>>
    ensures { GivesAs (λ rest. (tt, rest)) result (spec.expect_word wanted tokens.entry) }
{
    let Some((kind, rest)) = tokens.next() else {
        return Err(Stop::Refused(tokens));
    };
    match kind {
        TokenKind::Keyword(place) if *place == wanted => Ok(rest),
        _ => Err(Stop::Refused(tokens)),
    }
}

/// The next name, and the tokens after it.
#[tactic(auto, unfolding(mit_script::specs::Reading::name_at))]
pub(crate) fn next_name(tokens: Ahead<'_>) -> Result<(&Text, Ahead<'_>), Stop<'_>>
    ensures { GivesAs (λ x. (x.0.now, x.1)) result (spec.name_at tokens.entry) }
{
    let Some((kind, rest)) = tokens.next() else {
        return Err(Stop::Refused(tokens));
    };
    match kind {
        TokenKind::Name(name) => Ok((name, rest)),
        _ => Err(Stop::Refused(tokens)),
    }
}

/// The next column, and the tokens after it.
#[tactic(auto, unfolding(mit_script::specs::Reading::column_at))]
pub(crate) fn next_column(tokens: Ahead<'_>) -> Result<(u8, Ahead<'_>), Stop<'_>>
    ensures { GivesReading result (spec.column_at tokens.entry) }
{
    let Some((kind, rest)) = tokens.next() else {
        return Err(Stop::Refused(tokens));
    };
    match kind {
        TokenKind::Column(column) => Ok((*column, rest)),
        _ => Err(Stop::Refused(tokens)),
    }
}

/// The next text, and the tokens after it.
#[tactic(auto, unfolding(mit_script::specs::Reading::text_at))]
pub(crate) fn next_text(tokens: Ahead<'_>) -> Result<(&Text, Ahead<'_>), Stop<'_>>
    ensures { GivesAs (λ x. (x.0.now, x.1)) result (spec.text_at tokens.entry) }
{
    let Some((kind, rest)) = tokens.next() else {
        return Err(Stop::Refused(tokens));
    };
    match kind {
        TokenKind::Text(text) => Ok((text, rest)),
        _ => Err(Stop::Refused(tokens)),
    }
}

/// The type of a keyword.
fn type_of_word(place: u8) -> Option<ColType>
    ensures { result ≡ spec.type_of_word place }
{
    match place {
        keyword::INT => Some(ColType::Int),
        keyword::TEXT => Some(ColType::Text),
        keyword::BOOL => Some(ColType::Bool),
        _ => None,
    }
}

/// The next type, and the tokens after it.
#[tactic(auto, unfolding(mit_script::specs::Reading::type_word_at))]
pub(crate) fn next_type(tokens: Ahead<'_>) -> Result<(ColType, Ahead<'_>), Stop<'_>>
    ensures { GivesReading result (spec.type_word_at tokens.entry) }
{
    let Some((kind, rest)) = tokens.next() else {
        return Err(Stop::Refused(tokens));
    };
    let TokenKind::Keyword(place) = kind else {
        return Err(Stop::Refused(tokens));
    };
    match type_of_word(*place) {
        Some(is) => Ok((is, rest)),
        None => Err(Stop::Refused(tokens)),
    }
}

/// Whether the next token is this symbol.
#[tactic(auto, unfolding(mit_script::specs::Reading::sees_symbol))]
pub(crate) fn sees_symbol(wanted: u8, tokens: &Ahead<'_>) -> bool
    ensures { result ≡ spec.sees_symbol wanted tokens.now }
{
    let Some((kind, _)) = tokens.next() else {
        return false;
    };
    match kind {
        TokenKind::Symbol(place) => *place == wanted,
        _ => false,
    }
}

/// Whether the next token is this keyword.
#[tactic(auto, unfolding(mit_script::specs::Reading::sees_word))]
pub(crate) fn sees_word(wanted: u8, tokens: &Ahead<'_>) -> bool
    ensures { result ≡ spec.sees_word wanted tokens.now }
{
    let Some((kind, _)) = tokens.next() else {
        return false;
    };
    match kind {
        TokenKind::Keyword(place) => *place == wanted,
        _ => false,
    }
}

/// The tokens after the next one.
pub(crate) fn after_next(tokens: Ahead<'_>) -> Ahead<'_>
    ensures { result ≡ spec.after_next tokens.entry }
{
    match tokens.next() {
        None => tokens,
        Some((_, rest)) => rest,
    }
}
