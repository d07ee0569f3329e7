//! Phis and the edges of a plan, one by one.
ghost use Rattle.std.specs.Prelude.{◌≢◌};
ghost use Rattle.mit_ops.specs.Kinds.{kind_of};
ghost use Rattle.mit_plan.specs.Plans.{EachEdge, edge_at};
ghost use Rattle.mit_plan.specs.Valid.{Before, CopiesPhi, EdgesGoUp, EdgesInOrder, GoesUp, NamesOps, PhisCopy, WritesGiveNothing};
ghost use Rattle.mit_valid.specs.Deciding.{Tells};

use mit_ops::OpSpec;
use mit_plan::{Edge, Plan, PlanOp};

/// Whether an operator that is a phi has the kind Copy.
fn copies_phi(operator: &PlanOp) -> bool
    ensures { Tells result (CopiesPhi operator.now) }
{
    operator.phi == 0 || matches!(operator.spec, OpSpec::Copy)
}

/// Whether phis have the kind Copy.
pub(crate) fn phis_copy(plan: &Plan) -> bool
    ensures { Tells result (PhisCopy plan.now) }
{
    for operator in plan.ops() {
        if !copies_phi(operator) {
            return false;
        }
    }
    true
}

/// Whether an edge stands before another one in the order of the edges.
fn before(edge: &Edge, other: &Edge) -> bool
    ensures { Tells result (Before edge.now other.now) }
{
    edge.to < other.to || edge.to == other.to && edge.input < other.input
}

/// Whether each edge stands before the next one.
pub(crate) fn edges_in_order(plan: &Plan) -> bool
    ensures { Tells result (EdgesInOrder plan.now) }
{
    let edges = plan.edges();
    for next in 1..edges.len() {
        if !before(&edges[next - 1], &edges[next]) {
            return false;
        }
    }
    true
}

/// Whether an edge leads from an operator to an operator.
fn names_ops(ops: &[PlanOp], edge: &Edge) -> bool
    ensures { Tells result (NamesOps ops.now edge.now) }
{
    (edge.from as usize) < ops.len() && (edge.to as usize) < ops.len()
}

/// Whether each edge does.
pub(crate) fn edges_name_ops(plan: &Plan) -> bool
    ensures { Tells result (EachEdge plan.now (λ edge. NamesOps plan.now.ops (edge_at plan.now edge))) }
{
    for edge in plan.edges() {
        if !names_ops(plan.ops(), edge) {
            return false;
        }
    }
    true
}

/// Whether an edge between these operators goes up, where they stand in one block and the other one is no phi.
fn goes_up(from: &PlanOp, to: &PlanOp) -> bool
    ensures { Tells result (GoesUp from.now to.now) }
{
    to.phi > 0 || from.block != to.block || from.index < to.index
}

/// Whether edges inside a block go up.
pub(crate) fn edges_go_up(plan: &Plan) -> bool
    requires { EachEdge plan.now (λ edge. NamesOps plan.now.ops (edge_at plan.now edge)) }
    ensures { Tells result (EdgesGoUp plan.now) }
{
    let ops = plan.ops();
    for edge in plan.edges() {
        if !goes_up(&ops[edge.from as usize], &ops[edge.to as usize]) {
            return false;
        }
    }
    true
}

/// Whether an operator is no write.
fn is_no_write(operator: &PlanOp) -> bool
    ensures { Tells result (kind_of operator.now.spec ≢ 14) }
{
    !matches!(operator.spec, OpSpec::Write { .. })
}

/// Whether no edge comes from a write.
pub(crate) fn writes_give_nothing(plan: &Plan) -> bool
    requires { EachEdge plan.now (λ edge. NamesOps plan.now.ops (edge_at plan.now edge)) }
    ensures { Tells result (WritesGiveNothing plan.now) }
{
    for edge in plan.edges() {
        if !is_no_write(&plan.ops()[edge.from as usize]) {
            return false;
        }
    }
    true
}
