//! The operator that defines each variable, where it is assigned on every path to here.
ghost use Rattle.std.specs.Prelude.{◌≡◌, ◌<◌, ◌+◌, ◌&&◌, ◌^◌, None, length, is_some, if◌then◌else◌, IfOk, OnOk};
ghost use Rattle.mit_ssa.specs.Weaving.{both_kept, defined_variables, kept_of, looked, put_in, putting};
ghost use Rattle.mit_ssa.specs.Woven as spec;
ghost use Rattle.mit_ssa.specs.Woven.{defining_maybe, with_phis};

use std::alloc::{AllocError, Global};

/// The operator that defined a variable at a place, if there was one.
#[derive(Clone, Copy)]
pub(crate) struct Definition {
    pub(crate) variable: u32,
    pub(crate) value: Option<u32>,
}

/// The operator that defines a variable, if there is one.
pub(crate) fn look(defined: &[Option<u32>], variable: u32) -> Option<u32>
    ensures { result ≡ looked defined.now variable }
{
    match defined.get(variable as usize) {
        Some(number) => *number,
        None => None,
    }
}

/// The same, or 0.
pub(crate) fn definition_of(defined: &[Option<u32>], variable: u32) -> u32
    ensures { result ≡ spec.definition_of (looked defined.now) variable }
{
    look(defined, variable).unwrap_or(0)
}

/// The operators that define these variables.
pub(crate) fn keep(
    alloc: Global,
    defined: &[Option<u32>],
    variables: &[u32],
) -> Result<Vec<Definition>, AllocError>
    ensures { IfOk result (λ kept. kept.items ≡ kept_of (looked defined.now) variables.now) }
{
    let mut kept = Vec::with_capacity(alloc, variables.len())?;
    for variable in variables {
        kept.push(Definition {
            variable: *variable,
            value: look(defined, *variable),
        })?;
    }
    Ok(kept)
}

/// This defines a variable from here on.
fn put(defined: &mut Vec<Option<u32>>, variable: u32, value: Option<u32>) -> Result<(), AllocError>
    ensures { OnOk result (looked defined.new.items ≡ putting (looked defined.old.items) variable value) }
{
    let place = variable as usize;
    for _gap in defined.len()..place {
        defined.push(None)?;
    }
    if place < defined.len() {
        defined[place] = value;
    } else {
        defined.push(value)?;
    }
    Ok(())
}

/// What was kept defines its variables from here on.
pub(crate) fn put_all(
    defined: Vec<Option<u32>>,
    kept: &[Definition],
) -> Result<Vec<Option<u32>>, AllocError>
    ensures { IfOk result (λ after. looked after.items ≡ put_in (looked defined.items) kept.now) }
{
    let mut after = defined;
    for one in kept {
        put(&mut after, one.variable, one.value)?;
    }
    Ok(after)
}

/// This operator defines a variable from here on, or none.
pub(crate) fn define_maybe(
    defined: Vec<Option<u32>>,
    variable: Option<u32>,
    number: u32,
) -> Result<Vec<Option<u32>>, AllocError>
    ensures { IfOk result (λ after. looked after.items ≡ defining_maybe (looked defined.items) variable number) }
{
    let mut after = defined;
    if let Some(variable) = variable {
        put(&mut after, variable, Some(number))?;
    }
    Ok(after)
}

/// Operators from this number on define these variables.
pub(crate) fn define_all(
    defined: Vec<Option<u32>>,
    number: u32,
    phis: &[Definition],
) -> Result<Vec<Option<u32>>, AllocError>
    requires few { number + length phis.now < 2 ^ 32 }
    ensures { IfOk result (λ after. looked after.items ≡ with_phis (looked defined.items) number (defined_variables phis.now)) }
{
    let mut after = defined;
    let mut next = number;
    for phi in phis {
        put(&mut after, phi.variable, Some(next))?;
        next += 1;
    }
    Ok(after)
}

/// What a variable is on the one way, where the other one defines it too.
fn on_other(one: &Definition, other: &[Option<u32>]) -> Option<u32>
    ensures { result ≡ (if is_some one.now.value && is_some (looked other.now one.now.variable) then one.now.value else None) }
{
    if one.value.is_some() && look(other, one.variable).is_some() {
        one.value
    } else {
        None
    }
}

/// What these variables are where two ways meet.
pub(crate) fn on_both(
    alloc: Global,
    ones: &[Definition],
    other: &[Option<u32>],
) -> Result<Vec<Definition>, AllocError>
    ensures { IfOk result (λ kept. kept.items ≡ both_kept ones.now (looked other.now)) }
{
    let mut both = Vec::with_capacity(alloc, ones.len())?;
    for one in ones {
        both.push(Definition {
            variable: one.variable,
            value: on_other(one, other),
        })?;
    }
    Ok(both)
}
