//! The operators of statements.
ghost use Rattle.std.specs.Prelude.{◌≡◌, IfOk};
ghost use Rattle.mit_ops.specs.Routes.{route_to};
ghost use Rattle.mit_ssa.specs.Weaving.{looked};
ghost use Rattle.mit_ssa.specs.Woven as spec;

use crate::block::{Listing, Operator, Source};
use crate::defined::definition_of;
use mit_ops::{OpSpec, VarType, route_of};
use std::alloc::{AllocError, Global};

/// How many columns a variable has.
///
/// More than 255 are answered as out of memory.
fn width_of(types: &[VarType], variable: u32) -> Result<u8, AllocError>
    ensures { IfOk result (λ width. width ≡ spec.width_of types.now variable) }
{
    let width = match types.get(variable as usize) {
        Some(is) => is.cols.as_slice().len(),
        None => 0,
    };
    u8::try_from(width).map_err(|_| AllocError)
}

/// Where the input of this number of an operator comes from.
fn source_of(
    alloc: Global,
    types: &[VarType],
    defined: &[Option<u32>],
    op: &OpSpec,
    input: usize,
    variable: u32,
) -> Result<Source, AllocError>
    ensures from { IfOk result (λ source. source.from ≡ spec.definition_of (looked defined.now) variable) }
    ensures route { IfOk result (λ source. source.route ≡ route_to op.now input (spec.width_of types.now variable)) }
{
    // each input past the bags is a captured scalar
    let number = if input < 65_535 {
        input as u16
    } else {
        u16::MAX
    };
    let width = width_of(types, variable)?;
    Ok(Source {
        from: definition_of(defined, variable),
        route: route_of(alloc, op, number, width)?,
    })
}

/// Where the inputs of an operator come from.
fn inputs_of(
    alloc: Global,
    types: &[VarType],
    defined: &[Option<u32>],
    op: &OpSpec,
    args: &[u32],
) -> Result<Vec<Source>, AllocError>
    ensures { IfOk result (λ inputs. inputs.items
        ≡ spec.inputs_from types.now (looked defined.now) op.now 0 args.now) }
{
    let mut inputs = Vec::with_capacity(alloc, args.len())?;
    for (input, variable) in args.iter().enumerate() {
        inputs.push(source_of(alloc, types, defined, op, input, *variable)?)?;
    }
    Ok(inputs)
}

/// The operator of a statement.
pub(crate) fn operator_of(
    alloc: Global,
    types: &[VarType],
    defined: &[Option<u32>],
    statement: u32,
    op: &OpSpec,
    args: &[u32],
) -> Result<Operator, AllocError>
    ensures { IfOk result (λ operator. operator
        ≡ spec.operator_of types.now (looked defined.now) statement op.now args.now) }
{
    let inputs = inputs_of(alloc, types, defined, op, args)?;
    Ok(Operator {
        statement,
        spec: op.copy(alloc)?,
        phi: 0,
        inputs: Listing::from_vec(inputs),
    })
}
