//! What came otherwise than wanted, in words.
use mit_world::Files;
use std::alloc::{AllocError, Global};
use std::fmt::Write;

/// How many bytes are shown at most, from the first one that differs on.
const SHOWN: usize = 2_000;

/// What came otherwise than wanted: one piece after another, with a semicolon between them.
#[derive(Drop)]
pub(crate) struct Differences {
    text: String,
}

impl Differences {
    pub(crate) fn new(alloc: Global) -> Differences {
        Differences {
            text: String::new(alloc),
        }
    }

    /// All pieces. Where there are none, the empty text.
    pub(crate) fn text(self) -> String {
        self.text
    }

    /// Adds this piece.
    pub(crate) fn say(&mut self, piece: &str) -> Result<(), AllocError> {
        if !self.text.is_empty() {
            self.text.push_str("; ")?;
        }
        self.text.push_str(piece)
    }

    /// Adds how two numbers differ, if they do.
    pub(crate) fn number(&mut self, what: &str, wanted: u64, found: u64) -> Result<(), AllocError> {
        if wanted == found {
            return Ok(());
        }
        self.say(what)?;
        write!(self.text, " wanted {wanted}, found {found}")
    }

    /// Adds how a number that may be wanted differs, if it does.
    pub(crate) fn calls(
        &mut self,
        what: &str,
        wanted: Option<u64>,
        found: u64,
    ) -> Result<(), AllocError> {
        match wanted {
            Some(wanted) => self.number(what, wanted, found),
            None => Ok(()),
        }
    }

    /// Adds how bytes differ, if they do.
    pub(crate) fn bytes(
        &mut self,
        what: &str,
        wanted: &[u8],
        found: &[u8],
    ) -> Result<(), AllocError> {
        if wanted == found {
            return Ok(());
        }
        let place = first_difference(wanted, found);
        self.say(what)?;
        write!(self.text, " from byte {place} on wanted ")?;
        self.show(wanted, place)?;
        self.text.push_str(", found ")?;
        self.show(found, place)
    }

    /// Adds how files differ, if they do.
    pub(crate) fn files(
        &mut self,
        what: &str,
        wanted: &Files,
        found: &Files,
    ) -> Result<(), AllocError> {
        for (name, bytes) in wanted.iter() {
            self.file(what, name, bytes, found.get(name))?;
        }
        for (name, bytes) in found.iter() {
            if wanted.get(name).is_none() {
                self.unwanted_file(what, name, bytes)?;
            }
        }
        Ok(())
    }

    fn unwanted_file(&mut self, what: &str, name: &str, found: &[u8]) -> Result<(), AllocError> {
        self.say("no ")?;
        write!(self.text, "{what} file {name} wanted, found one of ")?;
        self.show(found, 0)
    }

    fn file(
        &mut self,
        what: &str,
        name: &str,
        wanted: &[u8],
        found: Option<&[u8]>,
    ) -> Result<(), AllocError> {
        let alloc = *self.text.allocator();
        let what = format!(in alloc; "{what} file {name}")?;
        match found {
            Some(found) => self.bytes(what.as_str(), wanted, found),
            None => {
                self.say(what.as_str())?;
                self.text.push_str(" wanted, but there is none")
            }
        }
    }

    // Shows bytes from this place on, between quotes.
    fn show(&mut self, bytes: &[u8], place: usize) -> Result<(), AllocError> {
        self.text.push('"')?;
        for byte in bytes.iter().skip(place).take(SHOWN) {
            self.show_byte(*byte)?;
        }
        self.text.push('"')?;
        let length = bytes.len();
        write!(self.text, " ({length} bytes in all)")
    }

    fn show_byte(&mut self, byte: u8) -> Result<(), AllocError> {
        match byte {
            b'\\' => self.text.push_str("\\\\"),
            b'\n' => self.text.push_str("\\n"),
            b'\r' => self.text.push_str("\\r"),
            b'\t' => self.text.push_str("\\t"),
            b' '..=b'~' => self.text.push(char::from(byte)),
            _ => write!(self.text, "\\x{byte:02x}"),
        }
    }
}

// The place of the first byte that differs, or the length of the shorter one.
fn first_difference(wanted: &[u8], found: &[u8]) -> usize {
    let mut place = 0usize;
    for (left, right) in wanted.iter().zip(found) {
        if left != right {
            break;
        }
        place = place.saturating_add(1);
    }
    place
}
