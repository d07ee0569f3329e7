//! Laws of tokens. Each is the contract of a function that does nothing.
ghost use Rattle.std.specs.Prelude.{◌≡◌, ℕ, All, List, None, Ok, map, true};
ghost use Rattle.std.specs.Str.{is_utf8};
ghost use Rattle.mit_lex.specs.Tokens.{scanned, tokens_of};
ghost use Rattle.mit_lex.specs.Valid.{IsToken};
ghost use Rattle.mit_lex.specs.Written.{IsWrittenAs};
ghost use Rattle.mit_lex.specs.declared.token.Token.{Token};
ghost use Rattle.mit_lex.specs.declared.token.TokenKind.{TokenKind};

/// A text in which tokens are written, with a gap after each, is UTF-8 and is cut into just these tokens, up to its end.
pub fn writing_law()
    ensures utf8 { (text : List ℕ) (kinds : List TokenKind) → IsWrittenAs text kinds → is_utf8 text ≡ true }
    ensures whole { (text : List ℕ) (kinds : List TokenKind) → IsWrittenAs text kinds
        → (scanned 0 0 text).stop ≡ None }
    ensures cut { (text : List ℕ) (kinds : List TokenKind) → IsWrittenAs text kinds
        → map (λ token. token.kind) (scanned 0 0 text).tokens ≡ kinds }
{}

/// The tokens of a text are ones that a text can have.
pub fn validity_law()
    ensures { (text : List ℕ) (tokens : List Token) → tokens_of text ≡ Ok tokens
        → All (λ token. IsToken token.kind) tokens }
{}
