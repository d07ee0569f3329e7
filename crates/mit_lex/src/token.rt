ghost use Rattle.std.specs.Prelude.{◌≡◌};

use mit_rows::Text;
use std::alloc::AllocError;
use thiserror::Error;

/// What a token is.
#[derive(Debug, Drop)]
pub enum TokenKind {
    /// A letter or `_`, then letters, digits and `_`, at most 64 bytes and no keyword.
    Name(Text),
    /// One or more decimal digits, with a value of at most 2 to the 63rd.
    Number(u64),
    /// `$` and one or two digits: a column from 0 to 15.
    Column(u8),
    /// What stands between quotes, after its escapes: at most 65,536 bytes.
    Text(Text),
    /// One of the 21 symbols, by its place from 0 in their table.
    Symbol(u8),
    /// One of the 34 keywords, by its place from 0 in their table.
    Keyword(u8),
}

/// A token and where it stands.
#[derive(Debug, Drop)]
pub struct Token {
    pub kind: TokenKind,
    /// The place of its first byte.
    pub start: u32,
    /// The place after its last byte.
    pub end: u32,
}

/// Why a text has no tokens.
#[derive(Clone, Copy, Debug, PartialEq, Eq, Error)]
pub enum LexStop {
    /// The text is refused at this byte.
    #[error("the text is refused at byte {place}")]
    Fault { place: u32 },
    /// Memory ran out.
    #[error("memory ran out")]
    NoMemory,
}

impl From<AllocError> for LexStop {
    ghost use Rattle.mit_lex.specs.declared.token.LexStop.TheVariants.{NoMemory};

    ghost from_gives = { λ _ stop. stop ≡ NoMemory };

    fn from(_: AllocError) -> LexStop {
        LexStop::NoMemory
    }
}
