//! How a text is written between its quotes.
ghost use Rattle.std.specs.Prelude.{◌≡◌, ◌++◌, flat_map, OnOk};
ghost use Rattle.mit_lex.specs.Written.{escaped_as, token_text};
ghost use Rattle.mit_lex.specs.declared.token.TokenKind.TheVariants as token;

use std::alloc::AllocError;

/// Adds a text between its quotes.
pub fn add_quoted(text: &mut Vec<u8>, bytes: &[u8]) -> Result<(), AllocError>
    ensures { OnOk result (text.new.items ≡ text.old.items ++ token_text (token.Text bytes.now)) }
{
    text.push(b'"')?;
    add_all_escaped(text, bytes)?;
    text.push(b'"')?;
    Ok(())
}

/// Adds bytes between quotes.
fn add_all_escaped(text: &mut Vec<u8>, bytes: &[u8]) -> Result<(), AllocError>
    ensures { OnOk result (text.new.items ≡ text.old.items ++ flat_map escaped_as bytes.now) }
{
    for byte in bytes {
        add_escaped(text, *byte)?;
    }
    Ok(())
}

/// Adds a byte between quotes.
fn add_escaped(text: &mut Vec<u8>, byte: u8) -> Result<(), AllocError>
    ensures { OnOk result (text.new.items ≡ text.old.items ++ escaped_as byte) }
{
    match byte {
        b'"' => text.extend_from_slice(b"\\\"")?,
        b'\\' => text.extend_from_slice(b"\\\\")?,
        b'\n' => text.extend_from_slice(b"\\n")?,
        b'\t' => text.extend_from_slice(b"\\t")?,
        _ => text.push(byte)?,
    }
    Ok(())
}
