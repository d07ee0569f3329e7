//! Blocks that are being built.
ghost use Rattle.std.specs.Prelude.{◌≡◌, ◌<◌, ◌≤◌, ◌+◌, [], ◌∷◌, ◌++◌, length, IfErr, IfOk};
ghost use Rattle.mit_ops.specs.declared.leave.Leave.TheVariants.{Branch, Jump};
ghost use Rattle.mit_plan.specs.declared.plan.TheConstants.{MAX_OPS};
ghost use Rattle.mit_ssa.specs.Weaving as spec;
ghost use Rattle.mit_ssa.specs.Weaving.{IsAt, IsSmall, Joined, StopsWeaving, Turned, Weaves, both_kept, builder_place, defined_variables, in_loop, join_kept, kept_phis, looked, put_in, with_table};
ghost use Rattle.mit_ssa.specs.Woven.{done};

use crate::block::{Block, Listing, Operator};
use crate::defined::{Definition, define_all, define_maybe, on_both, put_all};
use crate::operators::operator_of;
use crate::phis::{join_phis, phis_of};
use crate::stop::PlanStop;
use mit_ops::{Leave, OpSpec, VarType};
use mit_plan::MAX_OPS;
use std::alloc::{AllocError, Global};

/// The blocks before the current one since the beginning, the operators that this one has so far, and what is defined.
#[derive(Drop)]
pub(crate) struct Builder {
    pub(crate) blocks: Vec<Block>,
    pub(crate) operators: Vec<Operator>,
    /// The operator that defines each variable, where it is assigned on every path to here.
    pub(crate) defined: Vec<Option<u32>>,
    /// The number of the current block.
    pub(crate) block: u32,
    /// The number of the next operator.
    pub(crate) operator: u32,
    /// The number of the next statement.
    pub(crate) statement: u32,
}

/// The number of the next operator after so many more, where a plan may have as many.
fn after_more(operator: u32, more: usize) -> Result<u32, PlanStop>
    requires { operator ≤ MAX_OPS }
    ensures value { IfOk result (λ next. next ≡ operator + more) }
    ensures few { IfOk result (λ next. next ≤ MAX_OPS) }
    ensures large { IfErr result (λ _. MAX_OPS < operator + more) }
{
    if more > MAX_OPS - operator as usize {
        return Err(PlanStop::TooLarge);
    }
    Ok(operator + more as u32)
}

/// All of these blocks, and then those.
fn followed(blocks: Vec<Block>, more: Vec<Block>) -> Result<Vec<Block>, AllocError>
    ensures { IfOk result (λ all. all.items ≡ blocks.items ++ more.items) }
{
    let mut all = blocks;
    let mut rest = more;
    all.append(&mut rest)?;
    Ok(all)
}

/// The blocks of an `if` before its join: they end with the condition, the true branch and the false branch.
fn branches(before: Builder, first: Builder, second: Builder) -> Result<Vec<Block>, AllocError>
    requires small { IsSmall before }
    requires first { IsSmall first }
    requires second { IsSmall second }
    ensures { IfOk result (λ all. all.items ≡ spec.closed_blocks (Branch (before.block + 1) (first.block + 1)) before
        ++ (spec.closed_blocks (Jump (second.block + 1)) first ++ spec.closed_blocks (Jump (second.block + 1)) second)) }
{
    let join = second.block + 1;
    let leave = Leave::Branch {
        on_true: before.block + 1,
        on_false: first.block + 1,
    };
    let parts = followed(
        first.closed(Leave::Jump(join))?,
        second.closed(Leave::Jump(join))?,
    )?;
    followed(before.closed(leave)?, parts)
}

impl Builder {
    /// At this place, with nothing built.
    pub(crate) fn start(
        alloc: Global,
        block: u32,
        operator: u32,
        statement: u32,
        defined: Vec<Option<u32>>,
    ) -> Builder
        ensures { IsAt (record { block = block; operator = operator; statement = statement; defined = looked defined.items }) result }
    {
        Builder {
            blocks: Vec::new(alloc),
            operators: Vec::new(alloc),
            defined,
            block,
            operator,
            statement,
        }
    }

    /// It with nothing defined, and what was defined.
    pub(crate) fn parted(self, alloc: Global) -> (Builder, Vec<Option<u32>>)
        ensures rest { result.0 ≡ with_table self result.0 }
        ensures table { result.1.items ≡ self.defined.items }
    {
        let Builder {
            blocks,
            operators,
            defined,
            block,
            operator,
            statement,
        } = self;
        let rest = Builder {
            blocks,
            operators,
            defined: Vec::new(alloc),
            block,
            operator,
            statement,
        };
        (rest, defined)
    }

    /// Its blocks, where the current one is left so.
    pub(crate) fn closed(self, leave: Leave) -> Result<Vec<Block>, AllocError>
        ensures { IfOk result (λ all. all.items ≡ spec.closed_blocks leave self) }
    {
        let Builder {
            mut blocks,
            operators,
            ..
        } = self;
        blocks.push(Block {
            operators: Listing::from_vec(operators),
            leave,
        })?;
        Ok(blocks)
    }

    /// The next statement's operator is added to the current block.
    pub(crate) fn add(
        self,
        alloc: Global,
        types: &[VarType],
        target: Option<u32>,
        op: &OpSpec,
        args: &[u32],
    ) -> Result<Builder, PlanStop>
        requires small { IsSmall self }
        ensures woven { IfOk result (Weaves 1 0 (done types.now target op.now args.now (builder_place self)) self) }
        ensures large { IfErr result (StopsWeaving (self.operator + 1)) }
    {
        let next = after_more(self.operator, 1)?;
        let Builder {
            blocks,
            mut operators,
            defined,
            block,
            operator,
            statement,
        } = self;
        operators.push(operator_of(alloc, types, &defined, statement, op, args)?)?;
        Ok(Builder {
            blocks,
            operators,
            defined: define_maybe(defined, target, operator)?,
            block,
            operator: next,
            statement: statement + 1,
        })
    }

    /// Ends an `if` by its join, from its two branches; these are what the variables that they assign are at the end of the first.
    pub(crate) fn join(
        self,
        alloc: Global,
        variables: usize,
        ones: &[Definition],
        first: Builder,
        second: Builder,
    ) -> Result<Builder, PlanStop>
        requires small { IsSmall self }
        requires first { IsSmall first }
        requires second { IsSmall second }
        ensures joined { IfOk result (Joined (defined_variables (join_kept variables ones.now (looked second.defined.items)))
            (put_in (looked second.defined.items) (both_kept ones.now (looked second.defined.items)))
            (kept_phis (join_kept variables ones.now (looked second.defined.items)) (looked second.defined.items)) self first second) }
        ensures large { IfErr result (StopsWeaving (second.operator + length (join_kept variables ones.now (looked second.defined.items)))) }
    {
        let phis = join_phis(alloc, variables, ones, &second.defined)?;
        let operator = after_more(second.operator, phis.len())?;
        let operators = phis_of(alloc, &phis, &second.defined)?;
        let both = on_both(alloc, ones, &second.defined)?;
        let (second, defined) = second.parted(alloc);
        let defined = define_all(put_all(defined, &both)?, second.operator, &phis)?;
        let block = second.block + 1;
        let statement = second.statement;
        Ok(Builder {
            blocks: branches(self, first, second)?,
            operators,
            defined,
            block,
            operator,
            statement,
        })
    }

    /// The beginning of a loop's body, where this is defined before and these variables have phis.
    pub(crate) fn enter(
        &self,
        alloc: Global,
        defined: Vec<Option<u32>>,
        phis: &[Definition],
    ) -> Result<Builder, PlanStop>
        requires small { IsSmall self.now }
        ensures inside { IfOk result (IsAt (in_loop (defined_variables phis.now) (record { block = self.now.block; operator = self.now.operator; statement = self.now.statement; defined = looked defined.items }))) }
        ensures few { IfOk result (λ inside. inside.operator ≤ MAX_OPS) }
        ensures large { IfErr result (StopsWeaving (self.now.operator + length phis.now + 1)) }
    {
        let condition = after_more(self.operator, phis.len())?;
        let next = after_more(condition, 1)?;
        let defined = define_all(defined, self.operator, phis)?;
        Ok(Builder::start(alloc, self.block + 2, next, self.statement + 1, defined))
    }

    /// Ends a loop, from its body, what the variables that it assigns were before, and those that have phis.
    pub(crate) fn turn(
        self,
        alloc: Global,
        types: &[VarType],
        body: Builder,
        olds: &[Definition],
        phis: &[Definition],
        op: &OpSpec,
        args: &[u32],
    ) -> Result<Builder, AllocError>
        requires small { IsSmall self }
        requires body { IsSmall body }
        requires phis { self.operator + length phis.now ≤ MAX_OPS }
        ensures { IfOk result (Turned types.now op.now args.now (defined_variables phis.now) (put_in (looked body.defined.items) olds.now)
            (kept_phis phis.now (looked body.defined.items)) self body) }
    {
        let mut operators = phis_of(alloc, phis, &body.defined)?;
        let (body, defined) = body.parted(alloc);
        let defined = define_all(put_all(defined, olds)?, self.operator, phis)?;
        operators.push(operator_of(alloc, types, &defined, self.statement, op, args)?)?;
        let (block, operator, statement) = (body.block + 1, body.operator, body.statement);
        Ok(Builder {
            blocks: loop_blocks(self, body, operators)?,
            operators: Vec::new(alloc),
            defined,
            block,
            operator,
            statement,
        })
    }
}

/// The blocks of a loop before its exit, from the operators of its header.
fn loop_blocks(
    before: Builder,
    body: Builder,
    operators: Vec<Operator>,
) -> Result<Vec<Block>, AllocError>
    requires small { IsSmall before }
    requires body { IsSmall body }
    ensures { IfOk result (λ all. all.items ≡ spec.closed_blocks (Jump (before.block + 1)) before
        ++ (record { operators = operators.items; leave = Branch (before.block + 2) (body.block + 1) }
        ∷ spec.closed_blocks (Jump (before.block + 1)) body)) }
{
    let header = before.block + 1;
    let leave = Leave::Branch {
        on_true: header + 1,
        on_false: body.block + 1,
    };
    let mut entered = before.closed(Leave::Jump(header))?;
    entered.push(Block {
        operators: Listing::from_vec(operators),
        leave,
    })?;
    followed(entered, body.closed(Leave::Jump(header))?)
}
