//! From a text to its script.
ghost use Rattle.std.specs.Prelude.{◌≡◌, ◌≤◌, ◌-◌, All, Ok, IfOk, IfErr, drop, length};
ghost use Rattle.mit_lex.specs.Tokens.{tokens_of};
ghost use Rattle.mit_lex.specs.Valid.{IsToken};
ghost use Rattle.mit_lex.specs.declared.limits.TheConstants.{MAX_SCRIPT};
ghost use Rattle.mit_script.specs.Grammar.{IsSpelled};
ghost use Rattle.mit_script.specs.PrintsBack.{CanBeSpelled};
ghost use Rattle.mit_script.specs.Trees.{IsFormed, IsNumbered};
ghost use Rattle.mit_parse.specs.Places.{TellsRefusal, start_of};

use crate::stmts::read_script;
use crate::stop::{ParseStop, Stop};
use mit_grammar::laws::{formed_law, reading_law};
use mit_lex::{LexStop, Token, tokens};
use mit_script::Script;
use std::alloc::Global;

/// The last so many tokens.
fn last(count: usize, tokens: &[Token]) -> &[Token]
    ensures { result.now ≡ drop (length tokens.now - count) tokens.now }
{
    &tokens[tokens.len().saturating_sub(count)..]
}

/// Where the first of the tokens that are left starts, and the text's end where none is left.
fn place_of(text: &[u8], left: &[Token]) -> u32
    requires { length text.now ≤ MAX_SCRIPT }
    ensures { result ≡ start_of text.now left.now }
{
    match left {
        [token, ..] => token.start,
        [] => text.len() as u32,
    }
}

/// The script that the tokens of a text spell, or the place where the text is refused.
fn script_of(alloc: Global, text: &[u8], tokens: &[Token]) -> Result<Script, ParseStop>
    requires read { tokens_of text.now ≡ Ok tokens.now }
    requires few { length tokens.now ≤ MAX_SCRIPT }
    requires short { length text.now ≤ MAX_SCRIPT }
    requires valid { All (λ token. IsToken token.kind) tokens.now }
    ensures spelled { IfOk result (λ script. IsSpelled text.now script) }
    ensures formed { IfOk result IsFormed }
    ensures numbered { IfOk result IsNumbered }
    ensures printable { IfOk result CanBeSpelled }
    ensures fault { IfErr result (λ stop. TellsRefusal text.now stop) }
{
    reading_law();
    formed_law();
    match read_script(alloc, tokens) {
        Ok(script) => Ok(script),
        Err(Stop::NoMemory) => Err(ParseStop::NoMemory),
        Err(Stop::Refused(rest)) => Err(ParseStop::Fault {
            place: place_of(text, last(rest.len(), tokens)),
        }),
    }
}

/// The script that a text spells, or the place where it is refused: at the first token with which no spelled script
/// goes on as the text begins, and at the end of a text that more tokens might complete.
pub fn parse(alloc: Global, text: &[u8]) -> Result<Script, ParseStop>
    ensures spelled { IfOk result (λ script. IsSpelled text.now script) }
    ensures formed { IfOk result IsFormed }
    ensures numbered { IfOk result IsNumbered }
    ensures printable { IfOk result CanBeSpelled }
    ensures fault { IfErr result (λ stop. TellsRefusal text.now stop) }
{
    match tokens(alloc, text) {
        Ok(tokens) => script_of(alloc, text, &tokens),
        Err(LexStop::Fault { place }) => Err(ParseStop::Fault { place }),
        Err(LexStop::NoMemory) => Err(ParseStop::NoMemory),
    }
}
