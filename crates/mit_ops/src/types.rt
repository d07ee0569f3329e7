//! The types of bags and scalars, and why an operator has no result.
ghost use Rattle.std.specs.Prelude.{◌≡◌, IfOk};

use crate::lists::ColTypes;
use std::alloc::{AllocError, Global};

/// The most captured scalars of an operator.
pub const MAX_CAPTURES: usize = 16;

/// The type of a bag or of a scalar. A scalar may stand where a bag is wanted: it is a bag of one row.
#[derive(Debug, Drop)]
pub struct VarType {
    /// Whether it is a scalar, which has one column.
    pub scalar: bool,
    /// The types of its columns.
    pub cols: ColTypes,
}

/// Why an operator has no result.
#[derive(Clone, Copy, Debug, PartialEq, Eq)]
pub enum OpRefused {
    /// It captures more than `MAX_CAPTURES` scalars.
    TooLarge,
    /// It names or gives more than `MAX_COLUMNS` columns.
    TooManyColumns,
    /// An expression has no type or another one than is wanted, a column is not in its bag, columns differ in number or
    /// type where they must not, or a separator is not one byte of ASCII.
    WrongType,
    /// Memory ran out.
    NoMemory,
}

impl From<AllocError> for OpRefused {
    ghost use Rattle.std.specs.Prelude.{◌≡◌};
    ghost use Rattle.mit_ops.specs.declared.types.OpRefused.TheVariants.{NoMemory};

    ghost from_gives = { λ _ refused. refused ≡ NoMemory };

    fn from(_: AllocError) -> OpRefused {
        OpRefused::NoMemory
    }
}

impl VarType {
    /// An equal type.
    pub fn copy(&self, alloc: Global) -> Result<VarType, AllocError>
        ensures { IfOk result (λ other. other ≡ self.now) }
    {
        Ok(VarType {
            scalar: self.scalar,
            cols: self.cols.copy(alloc)?,
        })
    }
}
