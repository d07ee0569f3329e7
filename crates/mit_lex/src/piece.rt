ghost use Rattle.std.specs.Prelude.{◌≡◌, ◌≢◌, ◌∷◌, ◌≤◌, ◌+◌, ◌*◌, ◌^◌, ◌<◌, true, Some, None, if◌then◌else◌, nat_le, take, drop, length, IfOk, IfSome, IfNone};
ghost use Rattle.std.specs.List.{list_all, prefix_len, take_while};
ghost use Rattle.std.specs.Char.{digit_value, is_ascii_digit};
ghost use Rattle.std.specs.Str.{IsAscii};
ghost use Rattle.std.specs.Str.Parse.{digits_value};
ghost use Rattle.mit_lex.specs.Pieces.{column_piece, comment_len, is_blank, is_word_byte, number_piece, piece_at, symbol_piece, symbol_of, word_piece};

use crate::limits::MAX_WORD;
use crate::quoted::quoted;
use crate::tables::{keyword_place, symbol_place};
use crate::token::TokenKind;
use mit_rows::{MAX_COLUMNS, Text, TextRefused};
use std::alloc::{AllocError, Global};

/// The greatest number: the size of the smallest integer.
const MAX_NUMBER: u64 = 9_223_372_036_854_775_808;

/// What stands at the front of a text.
#[derive(Drop)]
pub(crate) enum Piece {
    /// White space or a comment, of so many bytes.
    Skipped(usize),
    /// A token of so many bytes.
    Found(TokenKind, usize),
    /// No token.
    Refused,
}

/// What stands at this place of a text.
pub(crate) fn piece_at(alloc: Global, text: &str, at: usize) -> Result<Piece, AllocError>
    requires { at < length text.now }
    ensures { IfOk result (λ piece. piece ≡ piece_at (drop at text.now)) }
{
    let (_, left) = text.as_bytes().split_at(at);
    let Some((first, rest)) = left.split_first() else {
        return Ok(Piece::Refused);
    };
    if *first == b'"' {
        return quoted(alloc, &text[at + 1..]);
    }
    unquoted(alloc, *first, rest, left)
}

/// What stands at the front of a text that begins with no quote: `first` and then `rest`.
fn unquoted(alloc: Global, first: u8, rest: &[u8], text: &[u8]) -> Result<Piece, AllocError>
    requires parts { text.now ≡ first ∷ rest.now }
    requires plain { first ≢ 34 }
    ensures { IfOk result (λ piece. piece ≡ piece_at text.now) }
{
    if is_blank(first) {
        return Ok(Piece::Skipped(1));
    }
    if first == b'#' {
        return Ok(Piece::Skipped(1 + line_len(rest)));
    }
    if first == b'$' {
        return Ok(column(rest));
    }
    if first.is_ascii_digit() {
        return Ok(number(text));
    }
    if is_word_byte(first) {
        return word(alloc, text);
    }
    Ok(symbol(text))
}

/// How many bytes a text has before its first line feed.
fn line_len(text: &[u8]) -> usize
    ensures value { result ≡ comment_len text.now }
    ensures within { result ≤ length text.now }
{
    text.iter().take_while(|byte| **byte != b'\n').count()
}

/// The word at the front of a text.
#[tactic(auto, unfolding(crate::specs::Pieces::word_piece))]
fn word(alloc: Global, text: &[u8]) -> Result<Piece, AllocError>
    ensures { IfOk result (λ piece. piece ≡ word_piece text.now) }
{
    let word = front_word(text);
    if word.len() > MAX_WORD {
        return Ok(Piece::Refused);
    }
    let kind = match keyword_place(word) {
        Some(place) => TokenKind::Keyword(place),
        None => TokenKind::Name(kept_word(alloc, word)?),
    };
    Ok(Piece::Found(kind, word.len()))
}

/// The bytes of a word that a text begins with.
fn front_word(text: &[u8]) -> &[u8]
    ensures value { result.now ≡ take_while is_word_byte text.now }
    ensures ascii { IsAscii result.now }
{
    &text[..word_len(text)]
}

/// How many bytes of a word a text begins with.
fn word_len(text: &[u8]) -> usize
    ensures value { result ≡ prefix_len is_word_byte text.now }
    ensures within { result ≤ length text.now }
{
    text.iter().take_while(|byte| is_word_byte(**byte)).count()
}

/// ASCII bytes, kept as text.
fn kept_word(alloc: Global, word: &[u8]) -> Result<Text, AllocError>
    requires short { length word.now ≤ MAX_WORD }
    requires ascii { IsAscii word.now }
    ensures { IfOk result (λ text. text ≡ word.now) }
{
    let Ok(word) = str::from_utf8(word) else {
        unreachable!();
    };
    match Text::from_str(alloc, word) {
        Ok(text) => Ok(text),
        Err(TextRefused::TooLong) => unreachable!(),
        Err(TextRefused::NoMemory) => Err(AllocError),
    }
}

/// The number at the front of a text.
#[tactic(auto, unfolding(crate::specs::Pieces::number_piece))]
fn number(text: &[u8]) -> Piece
    ensures { result ≡ number_piece text.now }
{
    let digits = front_digits(text);
    match number_of(digits) {
        Some(value) => Piece::Found(TokenKind::Number(value), digits.len()),
        None => Piece::Refused,
    }
}

/// The column at the front of a text, from the byte after its `$` on.
#[tactic(auto, unfolding(crate::specs::Pieces::column_piece))]
fn column(text: &[u8]) -> Piece
    ensures { result ≡ column_piece text.now }
{
    let digits = front(front_digits(text), 2);
    match number_of(digits) {
        Some(value) if !digits.is_empty() && value < MAX_COLUMNS as u64 => {
            Piece::Found(TokenKind::Column(value as u8), 1 + digits.len())
        }
        _ => Piece::Refused,
    }
}

/// The digits that a text begins with.
fn front_digits(text: &[u8]) -> &[u8]
    ensures value { result.now ≡ take_while is_ascii_digit text.now }
    ensures digits { list_all is_ascii_digit result.now ≡ true }
{
    &text[..digits_len(text)]
}

/// How many digits a text begins with.
fn digits_len(text: &[u8]) -> usize
    ensures value { result ≡ prefix_len is_ascii_digit text.now }
    ensures within { result ≤ length text.now }
{
    text.iter().take_while(|byte| byte.is_ascii_digit()).count()
}

/// The value of these digits, where it is no greater than a number may be.
fn number_of(digits: &[u8]) -> Option<u64>
    requires { list_all is_ascii_digit digits.now ≡ true }
    ensures { result ≡ (if nat_le (digits_value 10 digits.now) (2 ^ 63)
        then Some (digits_value 10 digits.now) else None) }
{
    let mut value: u64 = 0;
    for byte in digits {
        value = with_digit(value, *byte)?;
    }
    Some(value)
}

/// The value of digits and one more, where it is no greater than a number may be.
fn with_digit(value: u64, byte: u8) -> Option<u64>
    requires { is_ascii_digit byte ≡ true }
    ensures some { IfSome result (λ next. (next ≡ value * 10 + digit_value byte) × (next ≤ 2 ^ 63)) }
    ensures none { IfNone result (2 ^ 63 < value * 10 + digit_value byte) }
{
    if value > MAX_NUMBER / 10 {
        return None;
    }
    let next = value * 10 + u64::from(byte - b'0');
    if next > MAX_NUMBER { None } else { Some(next) }
}

/// The symbol at the front of a text: the longer one where two fit.
#[tactic(auto, unfolding(crate::specs::Pieces::symbol_piece))]
fn symbol(text: &[u8]) -> Piece
    ensures { result ≡ symbol_piece text.now }
{
    match whole_symbol(front(text, 2)) {
        Some(piece) => piece,
        None => whole_symbol(front(text, 1)).unwrap_or(Piece::Refused),
    }
}

/// These bytes, where they are a symbol.
fn whole_symbol(bytes: &[u8]) -> Option<Piece>
    ensures { result ≡ symbol_of bytes.now }
{
    let place = symbol_place(bytes)?;
    Some(Piece::Found(TokenKind::Symbol(place), bytes.len()))
}

/// The first bytes of a text, so many where it has them.
fn front(text: &[u8], size: usize) -> &[u8]
    ensures { result.now ≡ take size text.now }
{
    &text[..size.min(text.len())]
}

/// Whether this byte is white space.
fn is_blank(byte: u8) -> bool
    ensures { result ≡ is_blank byte }
{
    matches!(byte, b' ' | b'\t' | b'\r' | b'\n')
}

/// Whether this byte may stand in a word.
fn is_word_byte(byte: u8) -> bool
    ensures { result ≡ is_word_byte byte }
{
    byte.is_ascii_alphanumeric() || byte == b'_'
}
