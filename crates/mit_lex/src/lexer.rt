ghost use Rattle.std.specs.Prelude.{◌≡◌, ◌≤◌, Ok, Err, length, All, IfOk, IfErr, OnOk};
ghost use Rattle.mit_lex.specs.Tokens.{TellsLexFault, lexed, scanned, tokens_of};
ghost use Rattle.mit_lex.specs.Valid.{IsToken};

use crate::limits::{Limits, MAX_SCRIPT};
use crate::piece::{Piece, piece_at};
use crate::token::{LexStop, Token};
use std::alloc::Global;

/// The tokens of a text, in order, with places in bytes. White space is skipped, and so is a comment, from `#` to the
/// next line feed. The longest token is taken.
///
/// A text of more than 1,048,576 bytes is refused at byte 1,048,576; one that is no UTF-8 at its first bad sequence;
/// and else one with a token that is refused, at the start of the first. These are refused: a byte that begins no
/// token; a name above 64 bytes; a number above 9,223,372,036,854,775,808; a column above 15; a text that is not ended
/// on its line, that has another escape than `\"`, `\\`, `\n` and `\t`, a line feed or a carriage return in it, or more
/// than 65,536 bytes after its escapes; the 257th token since the last `;`, `{` or `}`, which are not counted
/// themselves; and a `{` where 64 braces are open.
pub fn tokens(alloc: Global, text: &[u8]) -> Result<Vec<Token>, LexStop>
    ensures tokens { IfOk result (λ tokens. tokens_of text.now ≡ Ok tokens.items) }
    ensures count { IfOk result (λ tokens. length tokens.items ≤ length text.now) }
    ensures short { OnOk result (length text.now ≤ MAX_SCRIPT) }
    ensures fault { IfErr result (λ stop. TellsLexFault (tokens_of text.now) stop) }
    ensures valid { IfOk result (λ tokens. All (λ token. IsToken token.kind) tokens.items) }
{
    if text.len() > MAX_SCRIPT {
        return Err(LexStop::Fault {
            place: MAX_SCRIPT as u32,
        });
    }
    match str::from_utf8(text) {
        Ok(text) => scan(alloc, text),
        Err(error) => Err(LexStop::Fault {
            place: error.valid_up_to() as u32,
        }),
    }
}

/// The tokens of a text of no more bytes than a script may have.
fn scan(alloc: Global, text: &str) -> Result<Vec<Token>, LexStop>
    requires { length text.now ≤ MAX_SCRIPT }
    ensures tokens { IfOk result (λ tokens. lexed (scanned 0 0 text.now) ≡ Ok tokens.items) }
    ensures count { IfOk result (λ tokens. length tokens.items ≤ length text.now) }
    ensures fault { IfErr result (λ stop. TellsLexFault (lexed (scanned 0 0 text.now)) stop) }
{
    let mut tokens = Vec::new(alloc);
    let mut limits = Limits { run: 0, braces: 0 };
    let mut at = 0;
    while at < text.len() {
        let place = at as u32;
        match piece_at(alloc, text, at)? {
            Piece::Skipped(size) => at += size,
            Piece::Found(kind, size) => {
                let Some(next) = limits.after(&kind) else {
                    return Err(LexStop::Fault { place });
                };
                limits = next;
                at += size;
                let token = Token {
                    kind,
                    start: place,
                    end: at as u32,
                };
                let Ok(()) = tokens.push(token) else {
                    return Err(LexStop::NoMemory);
                };
            }
            Piece::Refused => return Err(LexStop::Fault { place }),
        }
    }
    Ok(tokens)
}
