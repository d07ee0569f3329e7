//! The tokens that are not read yet.
ghost use Rattle.std.specs.Prelude.{◌≡◌, ◌≤◌, ◌∷◌, [], length, MatchOption};
ghost use Rattle.mit_lex.specs.Limits.{ends_run};
ghost use Rattle.mit_lex.specs.declared.limits.TheConstants.{MAX_RUN};
ghost use Rattle.mit_script.specs.Grammar.{kinds};
ghost use Rattle.mit_script.specs.Reading.{run_of};
ghost use Rattle.mit_parse.specs.Runs.{HasShortRuns};

use mit_lex::{Token, TokenKind, symbol};
use std::marker::Model;

/// The tokens that are not read yet, of which no run is long. Contracts see what they are, in their order.
#[derive(Drop)]
pub(crate) struct Ahead<'a> {
    tokens: &'a [Token],
}

impl<'a> Model for Ahead<'a> {
    ghost use Rattle.mit_script.specs.Grammar.{Kinds, kinds};
    ghost use Rattle.mit_parse.specs.Runs.{HasShortRuns};

    ghost Value = { Kinds };

    ghost view = { λ a. kinds a.tokens.now };

    ghost invariant = { λ a. HasShortRuns (kinds a.tokens.now) };
}

impl<'a> Ahead<'a> {
    /// All these tokens.
    pub(crate) fn of(tokens: &'a [Token]) -> Self
        requires { HasShortRuns (kinds tokens.now) }
        ensures { result ≡ kinds tokens.now }
    {
        Ahead { tokens }
    }

    /// The next token, and those after it.
    pub(crate) fn next(&self) -> Option<(&'a TokenKind, Ahead<'a>)>
        ensures { MatchOption result (self.now ≡ []) (λ x. self.now ≡ x.0.now ∷ x.1) }
    {
        match self.tokens {
            [] => None,
            [token, rest @ ..] => Some((&token.kind, Ahead { tokens: rest })),
        }
    }

    /// How many they are.
    pub(crate) fn len(&self) -> usize
        ensures { result ≡ length self.now }
    {
        self.tokens.len()
    }

    /// The run at the front.
    pub(crate) fn run(&self) -> &'a [Token]
        ensures kinds { kinds result.now ≡ run_of self.now }
        ensures few { length (run_of self.now) ≤ MAX_RUN }
    {
        run_in(self.tokens)
    }
}

/// Whether a token ends a run.
fn ends_run(kind: &TokenKind) -> bool
    ensures { result ≡ ends_run kind.now }
{
    matches!(
        kind,
        TokenKind::Symbol(symbol::SEMICOLON | symbol::LEFT_BRACE | symbol::RIGHT_BRACE)
    )
}

/// The tokens of the run at the front.
fn run_in(tokens: &[Token]) -> &[Token]
    ensures { kinds result.now ≡ run_of (kinds tokens.now) }
{
    let mut size = 0;
    for token in tokens {
        if ends_run(&token.kind) {
            break;
        }
        size += 1;
    }
    &tokens[..size]
}
