//! Why a step of a run stopped.
use std::alloc::AllocError;

/// Why a job, or a step of one, stopped.
#[derive(Clone, Copy, Debug, PartialEq, Eq, Drop)]
pub enum Stop<T> {
    /// What was asked is at fault.
    Fault(T),
    /// The folder failed.
    Folder,
    /// Memory ran out.
    NoMemory,
}

impl<T> From<AllocError> for Stop<T> {
    ghost use Rattle.std.specs.Prelude.{◌≡◌};
    ghost use Rattle.mit_shelf.specs.declared.stop.Stop.TheVariants.{NoMemory};

    ghost from_gives = { λ _ stop. stop ≡ NoMemory };

    fn from(_error: AllocError) -> Stop<T> {
        Stop::NoMemory
    }
}
