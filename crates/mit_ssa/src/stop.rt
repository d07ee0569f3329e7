//! Why there is no plan.
use std::alloc::{AllocError, AllocFailed};

/// Why a script has no plan.
#[derive(Clone, Copy, Debug, PartialEq, Eq)]
pub enum PlanStop {
    /// It would have more than `MAX_OPS` operators, or edges that times 256 pass 1,048,576.
    TooLarge,
    /// Memory ran out.
    NoMemory,
}

impl From<AllocError> for PlanStop {
    ghost use Rattle.std.specs.Prelude.{◌≡◌};
    ghost use Rattle.mit_ssa.specs.declared.stop.PlanStop.TheVariants.{NoMemory};

    ghost from_gives = { λ _ stop. stop ≡ NoMemory };

    fn from(_: AllocError) -> PlanStop {
        PlanStop::NoMemory
    }
}

impl<T: Drop> From<AllocFailed<T>> for PlanStop {
    ghost use Rattle.std.specs.Prelude.{◌≡◌};
    ghost use Rattle.mit_ssa.specs.declared.stop.PlanStop.TheVariants.{NoMemory};

    ghost from_gives = { λ _ stop. stop ≡ NoMemory };

    fn from(_: AllocFailed<T>) -> PlanStop {
        PlanStop::NoMemory
    }
}
