//! The decisions of a run.
ghost use Rattle.std.specs.Prelude.{◌≡◌, ◌<◌, ◌+◌, ◌^◌, true, false};

/// How many decisions were taken, and how many may still be taken.
#[derive(Drop)]
pub(crate) struct Decisions {
    pub(crate) used: u32,
    pub(crate) left: u32,
    ghost few: { used + left < 2 ^ 32 },
}

impl Decisions {
    /// Takes one, where one is left.
    pub(crate) fn take(&mut self) -> bool
        ensures some { result ≡ true → (self.old.left ≡ self.new.left + 1) × (self.new.used ≡ self.old.used + 1) }
        ensures none { result ≡ false → self.old.left ≡ 0 }
        ensures same { result ≡ false → self.new ≡ self.old }
    {
        if self.left == 0 {
            return false;
        }
        *self = Decisions {
            used: self.used + 1,
            left: self.left - 1,
        };
        true
    }
}
