//! The edges that lead to the operators of a plan.
ghost use Rattle.std.specs.Prelude.{◌≡◌, ◌≢◌, ◌<◌, ◌≤◌, ◌+◌, ◌^◌, length, map, All, IfOk, slice_index_or};
ghost use Rattle.std.specs.List.{range_with_len};
ghost use Rattle.mit_plan.specs.Plans.{EachEdge, EachOp, edge_at, no_edge, op_at, source_block};
ghost use Rattle.mit_plan.specs.Valid.{AreApart, HasEdges, InputsHaveEdges, NamesOps, OperandsApart, RangesFollow, inputs_wanted, source_blocks};
ghost use Rattle.mit_valid.specs.Deciding.{Tells};

use crate::links::edges_name_ops;
use mit_plan::{Edge, Plan, PlanOp};
use std::alloc::{AllocError, Global};

/// How many edges lead to an operator.
fn inputs_wanted(operator: &PlanOp) -> u64
    ensures { result ≡ inputs_wanted operator.now }
{
    if operator.phi > 0 {
        u64::from(operator.phi)
    } else {
        u64::from(operator.spec.bag_inputs()) + u64::from(operator.spec.captures())
    }
}

/// Whether the edges of these numbers lead to one input each, in order.
fn are_inputs(edges: &[Edge], numbers: &[u32]) -> bool
    requires { All (λ number. number < length edges.now) numbers.now }
    ensures { Tells result (map (λ edge. edge.input) (map (λ number. slice_index_or edges.now number no_edge) numbers.now)
        ≡ range_with_len 0 (length numbers.now)) }
{
    for (input, number) in numbers.iter().enumerate() {
        if edges[*number as usize].input as usize != input {
            return false;
        }
    }
    true
}

/// Whether an operator has the edges of its inputs, and no others.
fn has_edges(plan: &Plan, op: u32) -> bool
    requires { op < length plan.now.ops }
    ensures { Tells result (HasEdges plan.now op) }
{
    let numbers = plan.edges_to(op);
    let wanted = inputs_wanted(&plan.ops()[op as usize]);
    numbers.len() as u64 == wanted && are_inputs(plan.edges(), numbers)
}

/// Whether each operator has.
fn ops_have_edges(plan: &Plan) -> bool
    ensures { Tells result (EachOp plan.now (HasEdges plan.now)) }
{
    for op in 0..plan.ops().len() {
        if !has_edges(plan, op as u32) {
            return false;
        }
    }
    true
}

/// Whether each phi has two operands or more.
fn phis_choose(plan: &Plan) -> bool
    ensures { Tells result (EachOp plan.now (λ op. (op_at plan.now op).phi ≢ 1)) }
{
    for operator in plan.ops() {
        if operator.phi == 1 {
            return false;
        }
    }
    true
}

/// Whether each operator has its inputs' edges, and no edge leads elsewhere; and each phi has two operands or more.
pub(crate) fn inputs_have_edges(plan: &Plan) -> bool
    ensures { Tells result (InputsHaveEdges plan.now) }
{
    edges_name_ops(plan) && ops_have_edges(plan) && phis_choose(plan)
}

/// The block of an operator.
fn op_block(plan: &Plan, op: u32) -> u32
    requires ranges { RangesFollow plan.now }
    requires op { op < length plan.now.ops }
    ensures value { result ≡ (op_at plan.now op).block }
    ensures below { result < length plan.now.blocks }
{
    plan.ops()[op as usize].block
}

/// The block of the operator that an edge leaves.
fn source_block(plan: &Plan, edge: u32) -> u32
    requires ranges { RangesFollow plan.now }
    requires edges { EachEdge plan.now (λ edge. NamesOps plan.now.ops (edge_at plan.now edge)) }
    requires edge { edge < length plan.now.edges }
    ensures value { result ≡ source_block plan.now (edge_at plan.now edge) }
    ensures below { result < length plan.now.blocks }
{
    op_block(plan, plan.edges()[edge as usize].from)
}

/// Whether the blocks from which an operator's inputs come are distinct, and none is its own. These blocks are stamped
/// with the number of the operator, counted from 1.
fn are_apart(plan: &Plan, op: u32, stamps: &mut [u32]) -> bool
    requires ranges { RangesFollow plan.now }
    requires edges { EachEdge plan.now (λ edge. NamesOps plan.now.ops (edge_at plan.now edge)) }
    requires op { op < length plan.now.ops }
    requires few { length plan.now.ops < 2 ^ 32 }
    requires many { length stamps.old ≡ length plan.now.blocks }
    requires earlier { All (λ stamp. stamp ≤ op) stamps.old }
    ensures apart { Tells result (AreApart (source_blocks plan.now op) (op_at plan.now op).block) }
    ensures stamped { All (λ stamp. stamp ≤ op + 1) stamps.new }
{
    let own = op_block(plan, op);
    let stamp = op + 1;
    stamps[own as usize] = stamp;
    for number in plan.edges_to(op) {
        let block = source_block(plan, *number) as usize;
        if stamps[block] == stamp {
            return false;
        }
        stamps[block] = stamp;
    }
    true
}

/// Whether each phi's operand blocks are distinct, and none is its own.
pub(crate) fn operands_apart(alloc: Global, plan: &Plan) -> Result<bool, AllocError>
    requires ranges { RangesFollow plan.now }
    requires edges { EachEdge plan.now (λ edge. NamesOps plan.now.ops (edge_at plan.now edge)) }
    ensures { IfOk result (λ apart. Tells apart (OperandsApart plan.now)) }
{
    let mut stamps = vec![in alloc; 0; plan.blocks().len()]?;
    for (op, operator) in plan.ops().iter().enumerate() {
        if operator.phi > 0 && !are_apart(plan, op as u32, &mut stamps) {
            return Ok(false);
        }
    }
    Ok(true)
}
