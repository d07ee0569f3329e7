//! Plans.
ghost use Rattle.std.specs.Prelude.{◌≡◌, ◌<◌, ◌≤◌, ◌^◌, [], length, All, IfOk};
ghost use Rattle.mit_plan.specs.Plans.{edges_from, edges_to};

use crate::index::edge_lists;
use mit_ops::{Leave, OpSpec, Route};
use sqlite_items::Items;
use std::alloc::{AllocError, Global};
use std::marker::Model;

/// The most operators of a valid plan.
pub const MAX_OPS: usize = 4_096;

/// The most edges of a valid plan.
pub const MAX_EDGES: usize = 4_096;

/// The most blocks of a valid plan.
pub const MAX_PLAN_BLOCKS: usize = 16_384;

/// The most blocks, operators or edges of any plan, valid or not: each has a number.
const MOST: usize = u32::MAX as usize;

/// Operators that run one after another, and how the script goes on after them.
#[derive(Clone, Copy, Debug, PartialEq, Eq)]
pub struct PlanBlock {
    /// The number of its first operator, or of the one that would come next where it has none.
    pub first: u32,
    /// How many operators it has.
    pub count: u32,
    /// How it is left.
    pub leave: Leave,
}

/// An operator of a plan.
#[derive(Debug, Drop)]
pub struct PlanOp {
    /// Its block.
    pub block: u32,
    /// Its place in the block, from 0.
    pub index: u32,
    /// The statement of the script that it stands for, from 1; 0 for a phi.
    pub statement: u32,
    /// What it computes.
    pub spec: OpSpec,
    /// How many operands it has, where it is a phi, which takes one of them; 0 where it is none.
    pub phi: u16,
}

/// What an operator gives goes to an input of another one, or to an operand of a phi.
#[derive(Debug, Drop)]
pub struct Edge {
    /// The operator that gives.
    pub from: u32,
    /// The operator that takes.
    pub to: u32,
    /// Which of its inputs, from 0: the bags, and then the captured scalars. Of a phi, which of its operands.
    pub input: u16,
    /// How the rows go to the partitions.
    pub route: Route,
}

/// A plan: blocks of operators, and the edges between these.
///
/// Contracts see the three lists. Which edges lead to an operator and which leave it is found without a search.
#[derive(Drop)]
pub struct Plan {
    blocks: Vec<PlanBlock>,
    ops: Vec<PlanOp>,
    edges: Vec<Edge>,
    // for each operator the numbers of the edges that lead to it, and of those that leave it
    into: Vec<Items<u32>>,
    out: Vec<Items<u32>>,
}

impl Model for Plan {
    ghost use Rattle.mit_plan.specs.Plans.{PlanOf};
    ghost use Rattle.mit_plan.specs.Indexed.{IsKept};

    ghost Value = { PlanOf };

    ghost use Rattle.mit_expr.specs.contracts.expr.Expr as expr;
    ghost use Rattle.std.specs.Coded.{codes};

    ghost coded = { Prim.hlevel (codes, expr.the_row.coded) };

    ghost view = { λ p. record { blocks = p.blocks.items; ops = p.ops.items; edges = p.edges.items } };

    ghost invariant = { λ p. IsKept p.blocks.items p.ops.items p.edges.items p.into.items p.out.items };
}

impl Plan {
    /// The plan of these lists, valid or not.
    ///
    /// A list of more than 4,294,967,295 is answered as out of memory.
    pub fn new(
        alloc: Global,
        blocks: Vec<PlanBlock>,
        ops: Vec<PlanOp>,
        edges: Vec<Edge>,
    ) -> Result<Plan, AllocError>
        ensures blocks { IfOk result (λ plan. plan.blocks ≡ blocks.items) }
        ensures ops { IfOk result (λ plan. plan.ops ≡ ops.items) }
        ensures edges { IfOk result (λ plan. plan.edges ≡ edges.items) }
    {
        if blocks.len() > MOST || ops.len() > MOST || edges.len() > MOST {
            return Err(AllocError);
        }
        let (into, out) = edge_lists(alloc, ops.len(), &edges)?;
        Ok(Plan {
            blocks,
            ops,
            edges,
            into,
            out,
        })
    }

    /// Its blocks.
    pub fn blocks(&self) -> &[PlanBlock]
        ensures value { result.now ≡ self.now.blocks }
        ensures few { length self.now.blocks < 2 ^ 32 }
    {
        &self.blocks
    }

    /// Its operators.
    pub fn ops(&self) -> &[PlanOp]
        ensures value { result.now ≡ self.now.ops }
        ensures few { length self.now.ops < 2 ^ 32 }
    {
        &self.ops
    }

    /// Its edges.
    pub fn edges(&self) -> &[Edge]
        ensures value { result.now ≡ self.now.edges }
        ensures few { length self.now.edges < 2 ^ 32 }
    {
        &self.edges
    }

    /// The numbers of the edges that lead to an operator, in rising order.
    pub fn edges_to(&self, op: u32) -> &[u32]
        ensures value { op < length self.now.ops → result.now ≡ edges_to self.now op }
        ensures outside { length self.now.ops ≤ op → result.now ≡ [] }
        ensures edges { All (λ number. number < length self.now.edges) result.now }
    {
        match self.into.get(op as usize) {
            Some(numbers) => numbers.as_slice(),
            None => &[],
        }
    }

    /// The numbers of the edges that leave an operator, in rising order.
    pub fn edges_from(&self, op: u32) -> &[u32]
        ensures value { op < length self.now.ops → result.now ≡ edges_from self.now op }
        ensures outside { length self.now.ops ≤ op → result.now ≡ [] }
        ensures edges { All (λ number. number < length self.now.edges) result.now }
    {
        match self.out.get(op as usize) {
            Some(numbers) => numbers.as_slice(),
            None => &[],
        }
    }
}
