//! Why no script was read.
ghost use Rattle.std.specs.Prelude.{◌≡◌};
ghost use Rattle.mit_parse.specs.declared.stop.Stop.TheVariants.{NoMemory as Spent};

use crate::ahead::Ahead;
use std::alloc::{AllocError, AllocFailed};
use thiserror::Error;

/// Why a text is no script.
#[derive(Clone, Copy, Debug, PartialEq, Eq, Error)]
pub enum ParseStop {
    /// The text is refused at this byte.
    #[error("the text is refused at byte {place}")]
    Fault { place: u32 },
    /// Memory ran out.
    #[error("memory ran out")]
    NoMemory,
}

/// Why tokens were read no further.
#[derive(Drop)]
pub(crate) enum Stop<'a> {
    /// The first of these tokens is refused, or their end.
    Refused(Ahead<'a>),
    /// Memory ran out.
    NoMemory,
}

impl From<AllocError> for Stop<'_> {
    ghost from_gives = { λ _ stop. stop ≡ Spent };

    fn from(_: AllocError) -> Self {
        Stop::NoMemory
    }
}

impl<T: Drop> From<AllocFailed<T>> for Stop<'_> {
    ghost from_gives = { λ _ stop. stop ≡ Spent };

    fn from(_: AllocFailed<T>) -> Self {
        Stop::NoMemory
    }
}
