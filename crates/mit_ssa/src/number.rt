//! The lists of a plan from blocks, whose operators are numbered through.
ghost use Rattle.std.specs.Prelude.{◌≡◌, ◌<◌, ◌≤◌, ◌+◌, ◌++◌, ◌^◌, ◌⊎◌, length, IfErr, IfOk, OnOk};
ghost use Rattle.mit_plan.specs.declared.plan.TheConstants.{MAX_EDGES, MAX_OPS};
ghost use Rattle.mit_ssa.specs.Numbering.{AddsBlock, AddsOperator, AddsOperators};
ghost use Rattle.mit_ssa.specs.PlanFor.{IsLarge, TellsLarge, edges_in, operator_edges, plan_of_blocks};
ghost use Rattle.mit_ssa.specs.Weaving.{IfLarge};

use crate::block::{Block, Operator, Source};
use crate::stop::PlanStop;
use mit_plan::{Edge, MAX_EDGES, MAX_OPS, Plan, PlanBlock, PlanOp};
use std::alloc::Global;

/// The lists of a plan that is being made.
#[derive(Drop)]
struct Lists {
    blocks: Vec<PlanBlock>,
    ops: Vec<PlanOp>,
    edges: Vec<Edge>,
}

/// Adds the edges to an operator of this number.
fn add_edges(edges: &mut Vec<Edge>, operator: u32, inputs: Vec<Source>) -> Result<(), PlanStop>
    ensures edges { OnOk result (edges.new.items ≡ edges.old.items ++ edges_in operator 0 inputs.items) }
    ensures few { OnOk result (length edges.new.items ≤ MAX_EDGES) }
    ensures large { IfErr result (IfLarge (MAX_EDGES < length edges.old.items + length inputs.items)) }
{
    let count = edges.len();
    if count > MAX_EDGES || inputs.len() > MAX_EDGES - count {
        return Err(PlanStop::TooLarge);
    }
    let mut input = 0;
    for source in inputs {
        edges.push(Edge {
            from: source.from,
            to: operator,
            input,
            route: source.route,
        })?;
        input += 1;
    }
    Ok(())
}

/// Adds an operator of this block, at this place in it.
fn add_operator(lists: Lists, block: u32, index: u32, operator: Operator) -> Result<Lists, PlanStop>
    requires few { length lists.ops.items < MAX_OPS }
    ensures added { IfOk result (AddsOperator block index operator lists) }
    ensures large { IfErr result (IfLarge (MAX_EDGES < length lists.edges.items + length operator.inputs)) }
{
    let Lists {
        blocks,
        mut ops,
        mut edges,
    } = lists;
    let Operator {
        statement,
        spec,
        phi,
        inputs,
    } = operator;
    let number = ops.len() as u32;
    ops.push(PlanOp {
        block,
        index,
        statement,
        spec,
        phi,
    })?;
    add_edges(&mut edges, number, inputs.into_vec())?;
    Ok(Lists { blocks, ops, edges })
}

/// Adds the operators of a block.
fn add_operators(lists: Lists, block: u32, operators: Vec<Operator>) -> Result<Lists, PlanStop>
    requires few { length lists.ops.items + length operators.items ≤ MAX_OPS }
    requires edges { length lists.edges.items ≤ MAX_EDGES }
    ensures added { IfOk result (AddsOperators block operators.items lists) }
    ensures large { IfErr result (IfLarge (MAX_EDGES < length lists.edges.items
        + length (operator_edges (length lists.ops.items) operators.items))) }
{
    let mut all = lists;
    let mut index = 0;
    for operator in operators {
        all = add_operator(all, block, index, operator)?;
        index += 1;
    }
    Ok(all)
}

/// Adds a block.
fn add_block(lists: Lists, block: Block) -> Result<Lists, PlanStop>
    requires few { length lists.blocks.items < 2 ^ 32 }
    requires ops { length lists.ops.items ≤ MAX_OPS }
    requires edges { length lists.edges.items ≤ MAX_EDGES }
    ensures added { IfOk result (AddsBlock block lists) }
    ensures large { IfErr result (IfLarge ((MAX_OPS < length lists.ops.items + length block.operators)
        ⊎ (MAX_EDGES < length lists.edges.items + length (operator_edges (length lists.ops.items) block.operators)))) }
{
    let number = lists.blocks.len() as u32;
    let first = lists.ops.len() as u32;
    let Block { operators, leave } = block;
    let operators = operators.into_vec();
    if operators.len() > MAX_OPS - lists.ops.len() {
        return Err(PlanStop::TooLarge);
    }
    let Lists {
        mut blocks,
        ops,
        edges,
    } = lists;
    blocks.push(PlanBlock {
        first,
        count: operators.len() as u32,
        leave,
    })?;
    add_operators(Lists { blocks, ops, edges }, number, operators)
}

/// The plan of blocks.
pub(crate) fn numbered(alloc: Global, blocks: Vec<Block>) -> Result<Plan, PlanStop>
    requires { length blocks.items < 2 ^ 32 }
    ensures plan { IfOk result (λ plan. plan ≡ plan_of_blocks blocks.items) }
    ensures fits { IfOk result (λ plan. IsLarge plan → ⊥) }
    ensures large { IfErr result (TellsLarge (plan_of_blocks blocks.items)) }
{
    let mut lists = Lists {
        blocks: Vec::new(alloc),
        ops: Vec::new(alloc),
        edges: Vec::new(alloc),
    };
    for block in blocks {
        lists = add_block(lists, block)?;
    }
    let Lists { blocks, ops, edges } = lists;
    Ok(Plan::new(alloc, blocks, ops, edges)?)
}
