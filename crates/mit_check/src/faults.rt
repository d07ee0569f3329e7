//! Why a check ends.
use mit_script::CheckCode;
use std::alloc::AllocError;

/// Why a script is not accepted.
#[derive(Clone, Copy, Debug, PartialEq, Eq)]
pub enum CheckStop {
    /// A statement is refused: the first one in the text, with its first code.
    Fault {
        /// Its number, from 1. An `if` or a `while` stands before the statements of its blocks.
        statement: u32,
        /// Why it is refused.
        code: CheckCode,
    },
    /// Memory ran out.
    NoMemory,
}

impl From<AllocError> for CheckStop {
    ghost use Rattle.std.specs.Prelude.{◌≡◌};
    ghost use Rattle.mit_check.specs.declared.faults.CheckStop.TheVariants.{NoMemory};

    ghost from_gives = { λ _ stop. stop ≡ NoMemory };

    fn from(_: AllocError) -> CheckStop {
        CheckStop::NoMemory
    }
}
