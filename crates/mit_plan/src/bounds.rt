//! How long a run may take.
ghost use Rattle.std.specs.Prelude.{◌≡◌};
ghost use Rattle.mit_plan.specs.Bound.{bound_of};

use crate::plan::Plan;

/// How many actions a run of a plan takes at most, with so many decisions and partitions; the greatest number of 64 bits
/// where it is more.
pub fn bound(plan: &Plan, decisions: u32, parts: u16) -> u64
    ensures { result ≡ bound_of plan.now decisions parts }
{
    let places = (u64::from(decisions) + 1) * plan.blocks().len() as u64;
    let ops = plan.ops().len() as u64;
    let edges = plan.edges().len() as u64;
    let each = 1 + 2 * ops + edges * u64::from(parts);
    places.saturating_mul(u64::from(parts)).saturating_mul(each)
}
