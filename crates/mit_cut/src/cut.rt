//! The blocks of a script.
ghost use Rattle.std.specs.Prelude.{◌≡◌, ◌≤◌, ◌<◌, ◌+◌, ◌*◌, ◌^◌, IfOk, length, map};
ghost use Rattle.mit_lex.specs.declared.limits.TheConstants.{MAX_SCRIPT};
ghost use Rattle.mit_cfg.specs.Blocks.{blocks_of, cut_adds, cut_counts, cut_in_turn, cut_of, looped_blocks};
ghost use Rattle.mit_cut.specs.Laying.{Joins, Lays};

use crate::build::Builder;
use mit_cfg::Cfg;
use mit_ops::{Leave, OpSpec, VarType};
use mit_script::{Args, Stmt, Typed, VarTypes};
use sqlite_items::Items;
use std::alloc::{AllocError, Global};

/// Ends an `if` by its join, from the numbers of the block with its condition and of the last one of its first part.
fn add_join(alloc: Global, second: Builder, here: u32, last: u32) -> Result<Builder, AllocError>
    requires few { length second.blocks.items + 1 < 2 ^ 32 }
    requires here { here < length second.blocks.items }
    requires last { last < length second.blocks.items }
    ensures { IfOk result (Joins here last second) }
{
    let join = second.current() + 1;
    let all = second.close(alloc, Leave::Jump(join))?;
    let joined = all.left_by(last, Leave::Jump(join));
    Ok(joined.left_by(
        here,
        Leave::Branch {
            on_true: here + 1,
            on_false: last + 1,
        },
    ))
}

/// Adds the statements of a block.
#[cycle(add_all)]
fn add_all(alloc: Global, before: Builder, block: &[Stmt]) -> Result<Builder, AllocError>
    requires few { before.number + cut_counts (map cut_of block.now) ≤ MAX_SCRIPT + 1 }
    requires blocks { length before.blocks.items ≤ 3 * before.number }
    ensures { IfOk result (Lays (cut_counts (map cut_of block.now)) (cut_adds (map cut_of block.now))
        (cut_in_turn (map cut_of block.now)) before) }
{
    let mut built = before;
    for stmt in block {
        built = add_one(alloc, built, stmt)?;
    }
    Ok(built)
}

/// Adds a `while`.
#[cycle(add_all)]
fn add_while(
    alloc: Global,
    before: Builder,
    op: &OpSpec,
    args: &Args,
    body: &[Stmt],
) -> Result<Builder, AllocError>
    requires few { before.number + 1 + cut_counts (map cut_of body.now) ≤ MAX_SCRIPT + 1 }
    requires blocks { length before.blocks.items ≤ 3 * before.number }
    ensures { IfOk result (Lays (1 + cut_counts (map cut_of body.now)) (3 + cut_adds (map cut_of body.now))
        (λ at number after. looped_blocks number op.now args.now (map cut_of body.now) at after) before) }
{
    let header = before.current() + 1;
    let entered = before.close(alloc, Leave::Jump(header))?;
    let condition = entered.add(alloc, None, op, args)?;
    let inside = condition.close(alloc, Leave::End)?;
    let last = add_all(alloc, inside, body)?;
    let all = last.close(alloc, Leave::Jump(header))?;
    let exit = all.current();
    Ok(all.left_by(
        header,
        Leave::Branch {
            on_true: header + 1,
            on_false: exit,
        },
    ))
}

/// Adds a statement.
#[cycle(add_all)]
fn add_one(alloc: Global, before: Builder, stmt: &Stmt) -> Result<Builder, AllocError>
    requires few { before.number + (cut_of stmt.now).count ≤ MAX_SCRIPT + 1 }
    requires blocks { length before.blocks.items ≤ 3 * before.number }
    ensures { IfOk result (Lays (cut_of stmt.now).count (cut_of stmt.now).added (cut_of stmt.now).onto before) }
{
    match stmt {
        Stmt::Assign { target, op, args } => before.add(alloc, Some(*target), op, args),
        Stmt::Write { op, args } => before.add(alloc, None, op, args),
        Stmt::If { op, args, yes, no } => {
            let here = before.current();
            let condition = before.add(alloc, None, op, args)?;
            let inside = condition.close(alloc, Leave::End)?;
            let first = add_all(alloc, inside, yes.as_slice())?;
            let last = first.current();
            let between = first.close(alloc, Leave::End)?;
            let second = add_all(alloc, between, no.as_slice())?;
            add_join(alloc, second, here, last)
        }
        Stmt::While { op, args, body } => add_while(alloc, before, op, args, body.as_slice()),
    }
}

/// Equal types.
fn copy_types(alloc: Global, types: &[VarType]) -> Result<VarTypes, AllocError>
    ensures { IfOk result (λ other. other ≡ types.now) }
{
    let mut copies = Vec::with_capacity(alloc, types.len())?;
    for one in types {
        copies.push(one.copy(alloc)?)?;
    }
    Ok(VarTypes::from_vec(copies))
}

/// The blocks of a script, and the types of its variables.
///
/// Block 0 is current at the start, and a statement's step is added to the current block. An `if` ends it with its
/// condition; then come the blocks of what is done where that is true, those of what is done where it is false, with or
/// without an `else`, and the join, which is current after it. Before a `while` the current block goes on to the header,
/// which has the condition; then come the blocks of its body, of which the last goes back to the header, and the exit,
/// which is current after it. The time is in proportion to the length of the script.
pub fn blocks(alloc: Global, typed: &Typed) -> Result<Cfg, AllocError>
    ensures blocks { IfOk result (λ cfg. cfg.blocks ≡ blocks_of typed.now.script) }
    ensures types { IfOk result (λ cfg. cfg.types ≡ typed.now.types) }
{
    let types = copy_types(alloc, typed.types())?;
    let start = Builder::new(alloc);
    let last = add_all(alloc, start, typed.script().body.as_slice())?;
    let all = last.close(alloc, Leave::End)?;
    Ok(Cfg {
        blocks: Items::from_vec(all.blocks),
        types,
    })
}
