//! Which variables have phis, and what these are.
ghost use Rattle.std.specs.Prelude.{◌≡◌, IfOk};
ghost use Rattle.mit_ssa.specs.Weaving.{join_kept, kept_phis, loop_kept, looked};
ghost use Rattle.mit_ssa.specs.Woven as spec;

use crate::block::{Listing, Operator, Source};
use crate::defined::{Definition, definition_of, look};
use mit_ops::{OpSpec, Route};
use std::alloc::{AllocError, Global};

/// Those of these variables that have phis after an `if`: they are defined at the end of both branches.
pub(crate) fn join_phis(
    alloc: Global,
    variables: usize,
    ones: &[Definition],
    other: &[Option<u32>],
) -> Result<Vec<Definition>, AllocError>
    ensures { IfOk result (λ phis. phis.items ≡ join_kept variables ones.now (looked other.now)) }
{
    ones.iter()
        .copied()
        .filter(|one| {
            (one.variable as usize) < variables
                && one.value.is_some()
                && look(other, one.variable).is_some()
        })
        .collect(alloc)
}

/// Those of these variables that have phis in a loop: they are defined before.
pub(crate) fn loop_phis(
    alloc: Global,
    variables: usize,
    olds: &[Definition],
) -> Result<Vec<Definition>, AllocError>
    ensures { IfOk result (λ phis. phis.items ≡ loop_kept variables olds.now) }
{
    olds.iter()
        .copied()
        .filter(|old| (old.variable as usize) < variables && old.value.is_some())
        .collect(alloc)
}

/// The phi of a variable that is this on the one way and so defined on the other.
fn phi_of(alloc: Global, one: Definition, other: &[Option<u32>]) -> Result<Operator, AllocError>
    ensures { IfOk result (λ phi. phi ≡ spec.phi_of (λ _. one.value) (looked other.now) one.variable) }
{
    let operands = vec![in alloc;
        Source {
            from: one.value.unwrap_or(0),
            route: Route::Forward,
        },
        Source {
            from: definition_of(other, one.variable),
            route: Route::Forward,
        },
    ]?;
    Ok(Operator {
        statement: 0,
        spec: OpSpec::Copy,
        phi: 2,
        inputs: Listing::from_vec(operands),
    })
}

/// The phis of variables that are this on the one way.
pub(crate) fn phis_of(
    alloc: Global,
    ones: &[Definition],
    other: &[Option<u32>],
) -> Result<Vec<Operator>, AllocError>
    ensures { IfOk result (λ phis. phis.items ≡ kept_phis ones.now (looked other.now)) }
{
    let mut phis = Vec::with_capacity(alloc, ones.len())?;
    for one in ones {
        phis.push(phi_of(alloc, *one, other)?)?;
    }
    Ok(phis)
}
