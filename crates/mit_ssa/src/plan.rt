//! The plan of a script.
ghost use Rattle.std.specs.Prelude.{◌≡◌, IfErr, IfOk};
ghost use Rattle.mit_plan.specs.Valid.{IsValid};
ghost use Rattle.mit_ssa.specs.PlanFor.{IsLarge, TellsLarge, plan_for};

use crate::build::Builder;
use crate::laws::validity_law;
use crate::number::numbered;
use crate::stop::PlanStop;
use crate::weave::weave_all;
use mit_ops::Leave;
use mit_plan::{MAX_OPS, Plan};
use mit_script::{Typed, statements};
use std::alloc::Global;

/// The plan of a script.
///
/// Each statement is an operator, and each of its arguments an edge from the operator that defines it. In the join of an
/// `if` a variable has a phi that a branch assigns and that is defined at the end of both; in the header of a `while` one
/// that the body assigns and that is defined before. More than 255 columns of one variable are answered as
/// out of memory.
pub fn plan_of(alloc: Global, typed: &Typed) -> Result<Plan, PlanStop>
    ensures plan { IfOk result (λ plan. plan ≡ plan_for typed.now.script typed.now.types) }
    ensures valid { IfOk result IsValid }
    ensures fits { IfOk result (λ plan. IsLarge plan → ⊥) }
    ensures large { IfErr result (TellsLarge (plan_for typed.now.script typed.now.types)) }
{
    validity_law();
    let script = typed.script();
    if statements(script) as usize > MAX_OPS {
        return Err(PlanStop::TooLarge);
    }
    let start = Builder::start(alloc, 0, 0, 1, Vec::new(alloc));
    let last = weave_all(alloc, typed.types(), start, script.body.as_slice())?;
    numbered(alloc, last.closed(Leave::End)?)
}
