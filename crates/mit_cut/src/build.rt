//! Blocks that are being built.
ghost use Rattle.std.specs.Prelude.{◌≡◌, ◌<◌, ◌+◌, ◌^◌, [], ◌∷◌, ◌++◌, IfOk, length};
ghost use Rattle.mit_cut.specs.Laying.{AddsStep, with_leave};

use mit_cfg::{Block, Step};
use mit_ops::{Leave, OpSpec};
use mit_script::Args;
use sqlite_items::Items;
use std::alloc::{AllocError, Global};

/// The blocks before the current one, the steps that this one has so far, and the number of the next statement.
#[derive(Drop)]
pub(crate) struct Builder {
    pub(crate) blocks: Vec<Block>,
    pub(crate) steps: Vec<Step>,
    pub(crate) number: u32,
}

impl Builder {
    /// At the start of a script.
    pub(crate) fn new(alloc: Global) -> Builder
        ensures blocks { result.blocks.items ≡ [] }
        ensures steps { result.steps.items ≡ [] }
        ensures number { result.number ≡ 1 }
    {
        Builder {
            blocks: Vec::new(alloc),
            steps: Vec::new(alloc),
            number: 1,
        }
    }

    /// The number of the current block.
    pub(crate) fn current(&self) -> u32
        requires { length self.now.blocks.items < 2 ^ 32 }
        ensures { result ≡ length self.now.blocks.items }
    {
        self.blocks.len() as u32
    }

    /// The next statement's step is added to the current block.
    pub(crate) fn add(
        self,
        alloc: Global,
        target: Option<u32>,
        op: &OpSpec,
        args: &Args,
    ) -> Result<Builder, AllocError>
        requires { self.number + 1 < 2 ^ 32 }
        ensures { IfOk result (AddsStep target op.now args.now self) }
    {
        let Builder {
            blocks,
            mut steps,
            number,
        } = self;
        let variables = Vec::from_slice(alloc, args.as_slice())?;
        steps.push(Step {
            statement: number,
            target,
            op: op.copy(alloc)?,
            args: Args::from_vec(variables),
        })?;
        Ok(Builder {
            blocks,
            steps,
            number: number + 1,
        })
    }

    /// The current block is left so, and the next one is current.
    pub(crate) fn close(self, alloc: Global, leave: Leave) -> Result<Builder, AllocError>
        ensures blocks { IfOk result (λ after. after.blocks.items
            ≡ self.blocks.items ++ record { steps = self.steps.items; leave = leave } ∷ []) }
        ensures steps { IfOk result (λ after. after.steps.items ≡ []) }
        ensures number { IfOk result (λ after. after.number ≡ self.number) }
    {
        let Builder {
            mut blocks,
            steps,
            number,
        } = self;
        blocks.push(Block {
            steps: Items::from_vec(steps),
            leave,
        })?;
        Ok(Builder {
            blocks,
            steps: Vec::new(alloc),
            number,
        })
    }

    /// A block before the current one is left in another way.
    pub(crate) fn left_by(self, block: u32, leave: Leave) -> Builder
        requires { block < length self.blocks.items }
        ensures blocks { result.blocks.items ≡ with_leave self.blocks.items block leave }
        ensures steps { result.steps.items ≡ self.steps.items }
        ensures number { result.number ≡ self.number }
    {
        let Builder {
            mut blocks,
            steps,
            number,
        } = self;
        blocks[block as usize].leave = leave;
        Builder {
            blocks,
            steps,
            number,
        }
    }
}
