//! How a call ends where not all was done: what it was given is refused, or the outside failed.

use mit_ops::ScriptFault;
use mit_script::CheckCode;
use mit_shelf::Name;
use std::alloc::AllocError;

/// What is refused of the words, of the folder's files or of the script.
#[derive(Debug, Drop)]
pub enum Refusal {
    /// The words are no command.
    Usage,
    /// The folder has no file of this name.
    Absent(Name),
    /// The text is no script: it is refused at this byte, counted from 0.
    Syntax(u32),
    /// The check refuses a statement.
    Statement {
        /// Its number, from 1.
        statement: u32,
        /// Why it is refused.
        code: CheckCode,
    },
    /// The script is accepted, but cannot be run yet.
    NotThin,
    /// The script is accepted, but its plan is too large.
    TooLarge,
    /// The script is at fault.
    Fault(ScriptFault),
}

/// What failed outside of a call.
#[derive(Clone, Copy, Debug, PartialEq, Eq)]
pub enum Outside {
    /// The folder.
    Folder,
    /// The outbox.
    Outbox,
    /// The console.
    Console,
    /// Memory ran out.
    NoMemory,
}

/// Why a call does not come to its end.
#[derive(Debug, Drop)]
pub enum Halt {
    /// Something is refused.
    Refused(Refusal),
    /// Something failed outside.
    Failed(Outside),
}

impl From<AllocError> for Halt {
    ghost use Rattle.std.specs.Prelude.{◌≡◌};
    ghost use Rattle.mit_app.specs.declared.ends.Halt.TheVariants as halt;
    ghost use Rattle.mit_app.specs.declared.ends.Outside.TheVariants as outside;

    ghost from_gives = { λ _ end. end ≡ halt.Failed outside.NoMemory };

    fn from(_: AllocError) -> Halt {
        Halt::Failed(Outside::NoMemory)
    }
}

impl Refusal {
    ghost use Rattle.std.specs.Prelude.{◌≡◌};
    ghost use Rattle.mit_app.specs.Statuses.{refusal_status};

    /// The status of the program.
    pub fn status(&self) -> u8
        ensures { result ≡ refusal_status self.now }
    {
        match self {
            Refusal::Fault(_) => 1,
            Refusal::Usage => 2,
            Refusal::Syntax(_) | Refusal::Statement { .. } | Refusal::NotThin | Refusal::TooLarge =>
                3,
            Refusal::Absent(_) => 9,
        }
    }
}

impl Outside {
    ghost use Rattle.std.specs.Prelude.{◌≡◌};
    ghost use Rattle.mit_app.specs.Statuses.{outside_status};

    /// The status of the program.
    pub fn status(self) -> u8
        ensures { result ≡ outside_status self }
    {
        match self {
            Outside::Folder => 4,
            Outside::Outbox => 5,
            Outside::Console => 6,
            Outside::NoMemory => 7,
        }
    }
}

impl Halt {
    ghost use Rattle.std.specs.Prelude.{◌≡◌};
    ghost use Rattle.mit_app.specs.Ends.{halt_status};

    /// The status of the program.
    pub fn status(&self) -> u8
        ensures { result ≡ halt_status self.now }
    {
        match self {
            Halt::Refused(why) => why.status(),
            Halt::Failed(why) => why.status(),
        }
    }
}
