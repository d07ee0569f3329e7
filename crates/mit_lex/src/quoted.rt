ghost use Rattle.std.specs.Prelude.{◌≡◌, ◌≤◌, ◌<◌, ◌^◌, Some, length, IfOk};
ghost use Rattle.std.specs.List.{prefix_len};
ghost use Rattle.mit_lex.specs.Pieces.{quoted, text_piece};
ghost use Rattle.mit_lex.specs.Quotes.{escape_at, is_closed, is_plain};

use crate::piece::Piece;
use crate::token::TokenKind;
use mit_rows::{Text, TextRefused};
use std::alloc::{AllocError, Global};

/// The text token at the front of a text, from the byte after its first quote on.
pub(crate) fn quoted(alloc: Global, text: &str) -> Result<Piece, AllocError>
    ensures { IfOk result (λ piece. piece ≡ text_piece (quoted text.now)) }
{
    let mut kept = String::new(alloc);
    let mut size = 0;
    let mut left = text;
    loop {
        let (plain, rest) = left.split_at(plain_len(left.as_bytes()));
        kept.push_str(plain)?;
        size += plain.len();
        if is_closed(rest.as_bytes()) {
            return text_token(alloc, kept.as_str(), size + 1);
        }
        let Some(meant) = escape(rest.as_bytes()) else {
            return Ok(Piece::Refused);
        };
        kept.push(meant)?;
        size += 2;
        left = &rest[2..];
    }
}

/// The token of a text that is written in so many bytes after its first quote.
fn text_token(alloc: Global, text: &str, size: usize) -> Result<Piece, AllocError>
    requires { size < 2 ^ 63 }
    ensures { IfOk result (λ piece. piece ≡ text_piece (Some (text.now, size))) }
{
    match Text::from_str(alloc, text) {
        Ok(text) => Ok(Piece::Found(TokenKind::Text(text), 1 + size)),
        Err(TextRefused::TooLong) => Ok(Piece::Refused),
        Err(TextRefused::NoMemory) => Err(AllocError),
    }
}

/// How many bytes a text has before its first quote, `\` or end of a line.
fn plain_len(text: &[u8]) -> usize
    ensures value { result ≡ prefix_len is_plain text.now }
    ensures within { result ≤ length text.now }
{
    text.iter().take_while(|byte| is_plain(**byte)).count()
}

/// Whether this byte stands for itself between quotes.
fn is_plain(byte: u8) -> bool
    ensures { result ≡ is_plain byte }
{
    !matches!(byte, b'"' | b'\\' | b'\n' | b'\r')
}

/// Whether a text begins with a quote.
fn is_closed(text: &[u8]) -> bool
    ensures { result ≡ is_closed text.now }
{
    match text {
        [first, ..] => *first == b'"',
        [] => false,
    }
}

/// What the escape at the front of a text stands for.
fn escape(text: &[u8]) -> Option<char>
    ensures { result ≡ escape_at text.now }
{
    match text {
        [b'\\', b'n', ..] => Some('\n'),
        [b'\\', b't', ..] => Some('\t'),
        [b'\\', b'"', ..] => Some('"'),
        [b'\\', b'\\', ..] => Some('\\'),
        _ => None,
    }
}
