ghost use Rattle.std.specs.Prelude.{◌≡◌, ◌≤◌, ◌<◌, ◌↔◌, IfOk, IsErrOf, get_or, length};
ghost use Rattle.mit_rows.specs.Stored.{HeldRight, IsFront, held_bytes};

use std::alloc::{AllocError, Global};
use std::fmt::{self, Debug, Formatter, Write};
use std::marker::Model;
use std::rc::Rc;

/// The most bytes of a text value.
pub const MAX_TEXT: usize = 65_536;

// The most bytes of a text that stands in the value itself.
const MAX_SHORT: usize = 14;

/// Why no text was made.
#[derive(Clone, Copy, Debug, PartialEq, Eq)]
pub enum TextRefused {
    /// It has more than `MAX_TEXT` bytes.
    TooLong,
    /// Memory ran out.
    NoMemory,
}

/// UTF-8 text of at most `MAX_TEXT` bytes, which contracts see as its bytes.
#[derive(Drop)]
pub struct Text {
    held: Held,
}

// A short text takes no memory of its own, and copies of a longer one share theirs.
enum Held {
    // so many of these bytes
    Short(u8, [u8; MAX_SHORT]),
    Long(Rc<String>),
}

// One call for both, so that no caller's proof has to tell them apart.
impl Drop for Held {
    #[inline]
    fn drop(self) {
        match self {
            Held::Short(_, _) => {}
            Held::Long(text) => drop(text),
        }
    }
}

impl Model for Text {
    ghost use Rattle.std.specs.Prelude.{List, ℕ, ◌≤◌, length};
    ghost use Rattle.std.specs.Str.{IsUtf8};
    ghost use Rattle.mit_rows.specs.declared.text.TheConstants.{MAX_TEXT};

    ghost Value = { List ℕ };

    ghost use Rattle.mit_rows.specs.Stored.{HeldRight, held_bytes};

    ghost view = { λ t. held_bytes t.held };

    ghost invariant = { λ t. (length (held_bytes t.held) ≤ MAX_TEXT) × HeldRight t.held };
}

impl Text {
    /// The same text, kept.
    pub fn from_str(alloc: Global, text: &str) -> Result<Text, TextRefused>
        ensures ok { IfOk result (λ kept. kept ≡ text.now) }
        ensures too_long { IsErrOf result TextRefused.TooLong ↔ (MAX_TEXT < length text.now) }
    {
        if text.len() > MAX_TEXT {
            return Err(TextRefused::TooLong);
        }
        match keep(alloc, text) {
            Ok(held) => Ok(Text { held }),
            Err(AllocError) => Err(TextRefused::NoMemory),
        }
    }

    /// Its bytes.
    pub fn bytes(&self) -> &[u8]
        ensures value { result.now ≡ self.now }
        ensures short { length self.now ≤ MAX_TEXT }
    {
        match &self.held {
            Held::Short(length, bytes) => &bytes[..usize::from(*length)],
            Held::Long(text) => text.as_bytes(),
        }
    }

    /// It as text.
    pub fn as_str(&self) -> &str
        ensures value { result.now ≡ self.now }
    {
        match &self.held {
            Held::Short(length, bytes) => unsafe {
                str::from_utf8_unchecked(&bytes[..usize::from(*length)])
            },
            Held::Long(text) => text.as_str(),
        }
    }

    // Its first eight bytes as a number, the first one the highest, with zeros after a shorter text.
    pub(crate) fn front(&self) -> u64
        ensures { IsFront 8 0 self.now result }
    {
        let text = self.bytes();
        let high = (byte_at(text, 0) * 256 + byte_at(text, 1)) * 65_536
            + byte_at(text, 2) * 256
            + byte_at(text, 3);
        let low = (byte_at(text, 4) * 256 + byte_at(text, 5)) * 65_536
            + byte_at(text, 6) * 256
            + byte_at(text, 7);
        high * 4_294_967_296 + low
    }

    /// An equal text, which shares what memory it takes.
    pub fn copy(&self) -> Result<Text, AllocError>
        ensures { IfOk result (λ other. other ≡ self.now) }
    {
        let held = match &self.held {
            Held::Short(length, bytes) => Held::Short(*length, *bytes),
            Held::Long(text) => Held::Long(text.clone()?),
        };
        Ok(Text { held })
    }
}

impl Debug for Text {
    fn fmt<W: Write>(&self, f: &mut Formatter<W>) -> fmt::Result {
        Debug::fmt(self.as_str(), f)
    }
}

// A text as it is held.
fn keep(alloc: Global, text: &str) -> Result<Held, AllocError>
    ensures bytes { IfOk result (λ held. held_bytes held ≡ text.now) }
    ensures right { IfOk result HeldRight }
{
    let source = text.as_bytes();
    if source.len() > MAX_SHORT {
        return Ok(Held::Long(Rc::new(alloc, String::from_str(alloc, text)?)?));
    }
    let mut bytes = [0; MAX_SHORT];
    bytes[..source.len()].copy_from_slice(source);
    Ok(Held::Short(source.len() as u8, bytes))
}

// The byte at this place, or 0 after the end.
#[inline]
fn byte_at(text: &[u8], at: usize) -> u64
    ensures value { result ≡ get_or text.now at 0 }
    ensures small { result < 256 }
{
    match text.get(at) {
        Some(byte) => u64::from(*byte),
        None => 0,
    }
}
