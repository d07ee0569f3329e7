ghost use Rattle.std.specs.Prelude.{◌≡◌, ◌≤◌, ◌++◌, ℕ, List, Option, IfOk, IfErr, OnOk, OnErr, option_map};
ghost use Rattle.mit_files.specs.Files.{FileMap};
ghost use Rattle.mit_world.specs.declared.outside.OutsideStop.TheVariants.{NoMemory};
ghost use Rattle.mit_world.specs.Outside.{AsksAtMost, Continues, Held, IfFailed, ReadsAs, Rose, asks, publishes, stages};

use std::alloc::AllocError;

/// Why a call of the folder, the outbox or the console gave up.
#[derive(Clone, Copy, Debug, PartialEq, Eq)]
pub enum OutsideStop {
    /// The object failed, and its count of faults rose or stands at its last value.
    Failed,
    /// Memory ran out.
    NoMemory,
}

impl From<AllocError> for OutsideStop {
    ghost from_gives = { λ _ stop. stop ≡ NoMemory };

    fn from(_error: AllocError) -> OutsideStop {
        OutsideStop::NoMemory
    }
}

/// The folder that a run reads.
pub trait Folder {
    /// The files that it tells, where it tells them. A read never changes them.
    ghost files: { Self → Option FileMap };

    /// The names of the files that it was asked for, in order, where it tells them.
    ghost asked: { Self → Option (List (List ℕ)) };

    /// How many calls have failed. It never falls.
    ghost faults: { Self → ℕ };

    /// Appends the bytes of the file of this name to `into` and answers true, or answers false where there is none.
    fn read(&mut self, name: &str, into: &mut Vec<u8>) -> Result<bool, OutsideStop>
        ensures ok { IfOk result (λ found. ReadsAs (files self.old) name.now found into.old.items into.new.items) }
        ensures err { OnErr result (into.new.items ≡ into.old.items) }
        ensures failed { IfErr result (λ stop. IfFailed stop (Rose (faults self.old) (faults self.new))) }
        ensures told { files self.new ≡ files self.old }
        ensures asks { OnOk result (asked self.new ≡ asks name.now (asked self.old)) }
        ensures asks_at_most { OnErr result (AsksAtMost name.now (asked self.old) (asked self.new)) }
        ensures count { faults self.old ≤ faults self.new };
}

/// Where a run puts its files: first staged, then published at once.
pub trait Outbox {
    /// What it holds, where it tells it.
    ghost held: { Self → Option Held };

    /// How many calls have failed. It never falls.
    ghost faults: { Self → ℕ };

    /// Adds the file of this name to the staged ones, or replaces it there.
    fn stage(&mut self, name: &str, bytes: &[u8]) -> Result<(), OutsideStop>
        ensures ok { OnOk result (held self.new ≡ option_map (stages name.now bytes.now) (held self.old)) }
        ensures err { OnErr result (held self.new ≡ held self.old) }
        ensures failed { IfErr result (λ stop. IfFailed stop (Rose (faults self.old) (faults self.new))) }
        ensures count { faults self.old ≤ faults self.new };

    /// Publishes the staged files in place of what was published.
    fn publish(&mut self) -> Result<(), OutsideStop>
        ensures ok { OnOk result (held self.new ≡ option_map publishes (held self.old)) }
        ensures err { OnErr result (held self.new ≡ held self.old) }
        ensures failed { IfErr result (λ stop. IfFailed stop (Rose (faults self.old) (faults self.new))) }
        ensures count { faults self.old ≤ faults self.new };
}

/// Where a run says how it ended.
pub trait Console {
    /// The bytes written so far, where it tells them.
    ghost written: { Self → Option (List ℕ) };

    /// How many calls have failed. It never falls.
    ghost faults: { Self → ℕ };

    /// Writes these bytes. After an error some of them may have been written, after what stood there before.
    fn put(&mut self, bytes: &[u8]) -> Result<(), OutsideStop>
        ensures ok { OnOk result (written self.new ≡ option_map (λ before. before ++ bytes.now) (written self.old)) }
        ensures err { OnErr result (Continues (written self.old) (written self.new)) }
        ensures failed { IfErr result (λ stop. IfFailed stop (Rose (faults self.old) (faults self.new))) }
        ensures count { faults self.old ≤ faults self.new };
}
