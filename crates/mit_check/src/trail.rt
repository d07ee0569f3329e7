//! Which variables became assigned after a place in the text, and how that is taken back.
ghost use Rattle.std.specs.Prelude.{◌≡◌, ◌≤◌, ◌++◌, IfOk, drop, filter, length, slice_set, take, true, false};
ghost use Rattle.mit_script.specs.Accepted as spec;
ghost use Rattle.mit_check.specs.Trails.{known_in, marked, newly};

use crate::tables::Tables;
use std::alloc::{AllocError, Global};

/// Marks a variable as assigned, and adds it to the trail where it was not.
pub(crate) fn mark(
    assigned: &mut Vec<bool>,
    trail: &mut Vec<u32>,
    variable: u32,
) -> Result<(), AllocError>
    ensures assigned { IfOk result (λ _. assigned.new.items ≡ slice_set assigned.old.items variable true) }
    ensures trail { IfOk result (λ _. trail.new.items ≡ trail.old.items ++ newly assigned.old.items variable) }
{
    let place = variable as usize;
    if is_assigned(assigned, variable) {
        return Ok(());
    }
    trail.push(variable)?;
    if place < assigned.len() {
        assigned[place] = true;
    }
    Ok(())
}

/// Whether a variable is assigned.
pub(crate) fn is_assigned(assigned: &[bool], variable: u32) -> bool
    ensures { result ≡ spec.is_assigned assigned.now variable }
{
    match assigned.get(variable as usize) {
        Some(is) => *is,
        None => false,
    }
}

/// Puts this in the place of each of these variables.
fn put_all(assigned: &mut Vec<bool>, variables: &[u32], is: bool)
    ensures { assigned.new.items ≡ marked is variables.now assigned.old.items }
{
    for variable in variables {
        let place = *variable as usize;
        if place < assigned.len() {
            assigned[place] = is;
        }
    }
}

/// Those of these variables that are assigned.
pub(crate) fn still_assigned(
    alloc: Global,
    variables: &[u32],
    assigned: &[bool],
) -> Result<Vec<u32>, AllocError>
    ensures { IfOk result (λ found. found.items ≡ filter (spec.is_assigned assigned.now) variables.now) }
{
    variables
        .iter()
        .copied()
        .filter(|variable| is_assigned(assigned, *variable))
        .collect(alloc)
}

/// Takes back all that became assigned since the trail was so long, and gives those variables.
pub(crate) fn take_back(tables: Tables, size: usize) -> Result<(Tables, Vec<u32>), AllocError>
    requires { size ≤ length tables.trail.items }
    ensures known { IfOk result (λ back. known_in back.0
        ≡ spec.with_assigned (marked false (drop size tables.trail.items) tables.assigned.items) (known_in tables)) }
    ensures trail { IfOk result (λ back. back.0.trail.items ≡ take size tables.trail.items) }
    ensures taken { IfOk result (λ back. back.1.items ≡ drop size tables.trail.items) }
{
    let Tables {
        mut assigned,
        mut trail,
        types,
        before,
    } = tables;
    let taken = trail.split_off(size)?;
    put_all(&mut assigned, &taken, false);
    let tables = Tables {
        assigned,
        trail,
        types,
        before,
    };
    Ok((tables, taken))
}

/// Marks these variables as assigned, none of which is so yet.
pub(crate) fn put_back(tables: Tables, variables: &[u32]) -> Result<Tables, AllocError>
    ensures known { IfOk result (λ back. known_in back
        ≡ spec.with_assigned (marked true variables.now tables.assigned.items) (known_in tables)) }
    ensures trail { IfOk result (λ back. back.trail.items ≡ tables.trail.items ++ variables.now) }
{
    let Tables {
        mut assigned,
        mut trail,
        types,
        before,
    } = tables;
    put_all(&mut assigned, variables, true);
    trail.extend_from_slice(variables)?;
    Ok(Tables {
        assigned,
        trail,
        types,
        before,
    })
}
