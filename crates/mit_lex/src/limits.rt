//! The limits of a text, and how near to them its tokens are.
ghost use Rattle.std.specs.Prelude.{◌≡◌, ◌≤◌, ◌<◌, ◌+◌, false, true, MatchOption};
ghost use Rattle.mit_lex.specs.Limits.{is_symbol, is_too_many, open_after, run_after};

use crate::symbol::{LEFT_BRACE, RIGHT_BRACE, SEMICOLON};
use crate::token::TokenKind;

/// The most bytes of a text. So a script has at most so many tokens, statements and names.
pub const MAX_SCRIPT: usize = 1_048_576;

/// The most bytes of a word, and so of a name.
pub const MAX_WORD: usize = 64;

/// The most tokens of a run: of those since the last `;`, `{` or `}`.
pub const MAX_RUN: u32 = 256;

/// The most braces that may be open.
pub const MAX_OPEN: u32 = 64;

/// How many tokens stand since the last `;`, `{` or `}`, and how many braces are open.
#[derive(Clone, Copy)]
pub(crate) struct Limits {
    pub run: u32,
    pub braces: u32,
}

impl Limits {
    /// The limits after one more token, or none where it is one too many.
    pub(crate) fn after(self, kind: &TokenKind) -> Option<Limits>
        ensures { MatchOption result (is_too_many self.run self.braces kind.now ≡ true)
            (λ next. (is_too_many self.run self.braces kind.now ≡ false) × (next.run ≡ run_after self.run kind.now) × (next.braces ≡ open_after self.braces kind.now)) }
    {
        if is_symbol(kind, LEFT_BRACE) {
            return self.opened();
        }
        if is_symbol(kind, RIGHT_BRACE) {
            return Some(Limits {
                run: 0,
                braces: self.braces.saturating_sub(1),
            });
        }
        if is_symbol(kind, SEMICOLON) {
            return Some(Limits {
                run: 0,
                braces: self.braces,
            });
        }
        if self.run >= MAX_RUN {
            return None;
        }
        Some(Limits {
            run: self.run + 1,
            braces: self.braces,
        })
    }

    /// The limits after a `{`.
    fn opened(self) -> Option<Limits>
        ensures { MatchOption result (MAX_OPEN ≤ self.braces) (λ next. (self.braces < MAX_OPEN) × (next.run ≡ 0) × (next.braces ≡ self.braces + 1)) }
    {
        if self.braces >= MAX_OPEN {
            return None;
        }
        Some(Limits {
            run: 0,
            braces: self.braces + 1,
        })
    }
}

/// Whether a token is the symbol with this place in the table.
fn is_symbol(kind: &TokenKind, place: u8) -> bool
    ensures { result ≡ is_symbol place kind.now }
{
    match kind {
        TokenKind::Symbol(other) => *other == place,
        _ => false,
    }
}
