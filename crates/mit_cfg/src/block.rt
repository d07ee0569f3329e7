//! Blocks and their steps.
use mit_ops::{Leave, OpSpec};
use mit_script::{Args, VarTypes};
use sqlite_items::Items;

/// An operator of a block: a statement without the blocks inside it.
#[derive(Debug, Drop)]
pub struct Step {
    /// The statement's number in the text, from 1. An `if` or a `while` comes before the statements of its blocks.
    pub statement: u32,
    /// The variable that gets what the operator gives; none for a condition and a write.
    pub target: Option<u32>,
    pub op: OpSpec,
    pub args: Args,
}

/// Steps that are done one after another, and how the script goes on after them.
#[derive(Debug, Drop)]
pub struct Block {
    pub steps: Items<Step>,
    pub leave: Leave,
}

/// The blocks of a script, by their numbers, and the types of its variables.
#[derive(Debug, Drop)]
pub struct Cfg {
    pub blocks: Items<Block>,
    pub types: VarTypes,
}
