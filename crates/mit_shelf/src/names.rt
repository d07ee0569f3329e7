//! File names: which bytes are a legal one, and a name that is kept.
ghost use Rattle.std.specs.Prelude.{◌≡◌, IfOk};
ghost use Rattle.std.specs.List.{list_all};
ghost use Rattle.mit_files.specs.Names.{begins_name as is_first, continues_name as is_later, is_legal};

use mit_rows::Text;
use std::alloc::{AllocError, Global};
use std::marker::Model;

/// The most bytes of a name.
pub const MAX_NAME: usize = 64;

/// Whether this is a legal file name: 1 to 64 bytes from letters, digits, `.`, `_` and `-`, the first a letter, a digit
/// or `_`.
#[tactic(auto, using(crate::proofs::NameFacts::none_empty, crate::proofs::NameFacts::none_long, crate::proofs::NameFacts::legal_of))]
pub fn legal_name(name: &[u8]) -> bool
    ensures { result ≡ is_legal name.now }
{
    if name.is_empty() || name.len() > MAX_NAME {
        return false;
    }
    begins_name(name[0]) && all_continue(&name[1..])
}

// Whether each of these may stand after the first byte of a name.
fn all_continue(bytes: &[u8]) -> bool
    ensures { result ≡ list_all is_later bytes.now }
{
    bytes.iter().all(|byte| continues_name(*byte))
}

// A letter, a digit or `_`.
fn begins_name(byte: u8) -> bool
    ensures { result ≡ is_first byte }
{
    byte.is_ascii_alphanumeric() || byte == b'_'
}

// One of these, or `.` or `-`.
fn continues_name(byte: u8) -> bool
    ensures { result ≡ is_later byte }
{
    begins_name(byte) || byte == b'.' || byte == b'-'
}

/// A name, which contracts see as its bytes.
#[derive(Debug, Drop)]
pub struct Name {
    text: Text,
}

impl Model for Name {
    ghost use Rattle.std.specs.Prelude.{List, ℕ};

    ghost Value = { List ℕ };

    ghost view = { λ name. name.text };
}

impl Name {
    /// A name of this text.
    pub fn from_text(text: Text) -> Name
        ensures { result ≡ text }
    {
        Name { text }
    }

    /// Its bytes.
    pub fn bytes(&self) -> &[u8]
        ensures { result.now ≡ self.now }
    {
        self.text.bytes()
    }

    /// It as text.
    pub fn as_str(&self) -> &str
        ensures { result.now ≡ self.now }
    {
        self.text.as_str()
    }

    /// An equal name.
    pub fn copy(&self) -> Result<Name, AllocError>
        ensures { IfOk result (λ other. other ≡ self.now) }
    {
        Ok(Name {
            text: self.text.copy()?,
        })
    }
}
