//! The text of a plan.
ghost use Rattle.std.specs.Prelude.{◌≡◌, ◌<◌, ◌++◌, codes, decimal, length, slice_index_or, All, IfOk, OnOk};
ghost use Rattle.std.specs.List.{flat_map};
ghost use Rattle.mit_plan.specs.Plans.{edges_to, no_edge};
ghost use Rattle.mit_plan.specs.Printed as printed;

use crate::plan::{Edge, Plan, PlanBlock, PlanOp};
use itoa::Buffer;
use mit_ops::{Leave, OpSpec, Route};
use std::alloc::{AllocError, Global};

/// Adds these bytes.
fn add(text: &mut Vec<u8>, bytes: &[u8]) -> Result<(), AllocError>
    ensures { OnOk result (text.new.items ≡ text.old.items ++ bytes.now) }
{
    text.extend_from_slice(bytes)
}

/// Adds these bytes and a number.
fn add_number(text: &mut Vec<u8>, before: &[u8], number: u64) -> Result<(), AllocError>
    ensures { OnOk result (text.new.items ≡ text.old.items ++ (before.now ++ decimal number)) }
{
    add(text, before)?;
    add(text, Buffer::new().format(number).as_bytes())
}

/// The word of a kind.
fn kind_word(spec: &OpSpec) -> &'static [u8]
    ensures { result.now ≡ printed.kind_word spec.now }
{
    match spec {
        OpSpec::Scalar { .. } => b"scalar",
        OpSpec::Read { .. } => b"read",
        OpSpec::Map { .. } => b"map",
        OpSpec::Filter { .. } => b"filter",
        OpSpec::FlatMap { .. } => b"flat",
        OpSpec::Join { .. } => b"join",
        OpSpec::Reduce { .. } => b"reduce",
        OpSpec::Union => b"union",
        OpSpec::Distinct => b"distinct",
        OpSpec::Only => b"only",
        OpSpec::Count => b"count",
        OpSpec::Sum { .. } => b"sum",
        OpSpec::MakeRow { .. } => b"row",
        OpSpec::Empty { .. } => b"empty",
        OpSpec::Write { .. } => b"write",
        OpSpec::Copy => b"copy",
    }
}

/// Adds columns.
fn add_columns(text: &mut Vec<u8>, columns: &[u8]) -> Result<(), AllocError>
    ensures { OnOk result (text.new.items ≡ text.old.items ++ flat_map printed.column_text columns.now) }
{
    for column in columns {
        add_number(text, b" $", u64::from(*column))?;
    }
    Ok(())
}

/// Adds a route.
fn add_route(text: &mut Vec<u8>, route: &Route) -> Result<(), AllocError>
    ensures { OnOk result (text.new.items ≡ text.old.items ++ printed.route_text route.now) }
{
    match route {
        Route::Forward => add(text, b"forward"),
        Route::Gather => add(text, b"gather"),
        Route::Broadcast => add(text, b"broadcast"),
        Route::ByKey(columns) => {
            add(text, b"key")?;
            add_columns(text, columns.as_slice())
        }
    }
}

/// Adds what the edge of a number leaves, and its route.
fn add_edge(text: &mut Vec<u8>, edges: &[Edge], number: u32) -> Result<(), AllocError>
    requires { number < length edges.now }
    ensures { OnOk result (text.new.items
        ≡ text.old.items ++ printed.edge_text (slice_index_or edges.now number no_edge)) }
{
    let edge = &edges[number as usize];
    add_number(text, b"", u64::from(edge.from))?;
    add(text, b" ")?;
    add_route(text, &edge.route)
}

/// Adds the edges of these numbers, each after a comma.
fn add_more(text: &mut Vec<u8>, edges: &[Edge], numbers: &[u32]) -> Result<(), AllocError>
    requires { All (λ number. number < length edges.now) numbers.now }
    ensures { OnOk result (text.new.items ≡ text.old.items
        ++ flat_map (λ number. codes ", " ++ printed.edge_text (slice_index_or edges.now number no_edge)) numbers.now) }
{
    for number in numbers {
        add(text, b", ")?;
        add_edge(text, edges, *number)?;
    }
    Ok(())
}

/// Adds the edges that lead to an operator.
fn add_inputs(text: &mut Vec<u8>, plan: &Plan, op: u32) -> Result<(), AllocError>
    requires { op < length plan.now.ops }
    ensures { OnOk result (text.new.items ≡ text.old.items ++ printed.inputs_text plan.now (edges_to plan.now op)) }
{
    match plan.edges_to(op) {
        [] => Ok(()),
        [first, more @ ..] => {
            add(text, b" from ")?;
            add_edge(text, plan.edges(), *first)?;
            add_more(text, plan.edges(), more)
        }
    }
}

/// Adds the word of an operator, and its statement.
fn add_word(text: &mut Vec<u8>, operator: &PlanOp) -> Result<(), AllocError>
    ensures { OnOk result (text.new.items ≡ text.old.items ++ printed.word_text operator.now) }
{
    if operator.phi > 0 {
        return add(text, b"phi");
    }
    add(text, kind_word(&operator.spec))?;
    add_number(text, b" statement ", u64::from(operator.statement))
}

/// Adds the line of an operator.
fn add_op(text: &mut Vec<u8>, plan: &Plan, op: u32) -> Result<(), AllocError>
    requires { op < length plan.now.ops }
    ensures { OnOk result (text.new.items ≡ text.old.items ++ printed.op_line plan.now op) }
{
    add_number(text, b"op ", u64::from(op))?;
    add(text, b" ")?;
    add_word(text, &plan.ops()[op as usize])?;
    add_inputs(text, plan, op)?;
    add(text, b"\n")
}

/// Adds the lines of a block's operators.
fn add_ops(text: &mut Vec<u8>, plan: &Plan, block: &PlanBlock) -> Result<(), AllocError>
    ensures { OnOk result (text.new.items
        ≡ text.old.items ++ flat_map (printed.op_line plan.now) (printed.ops_of plan.now block.now)) }
{
    let first = block.first as usize;
    let count = (block.count as usize).min(plan.ops().len().saturating_sub(first));
    for index in 0..count {
        add_op(text, plan, (first + index) as u32)?;
    }
    Ok(())
}

/// Adds how a block is left.
fn add_leave(text: &mut Vec<u8>, block: &PlanBlock) -> Result<(), AllocError>
    ensures { OnOk result (text.new.items ≡ text.old.items ++ printed.leave_text block.now block.now.leave) }
{
    match block.leave {
        Leave::Jump(next) => add_number(text, b" jump ", u64::from(next)),
        Leave::Branch { on_true, on_false } => {
            let end = u64::from(block.first) + u64::from(block.count);
            add_number(text, b" branch op ", end.saturating_sub(1))?;
            add_number(text, b" to ", u64::from(on_true))?;
            add_number(text, b" else ", u64::from(on_false))
        }
        Leave::End => add(text, b" end"),
    }
}

/// Adds the line of a block, and those of its operators.
fn add_block(text: &mut Vec<u8>, plan: &Plan, number: u32) -> Result<(), AllocError>
    requires { number < length plan.now.blocks }
    ensures { OnOk result (text.new.items ≡ text.old.items ++ printed.block_text plan.now number) }
{
    let block = plan.blocks()[number as usize];
    add_number(text, b"block ", u64::from(number))?;
    add_leave(text, &block)?;
    add(text, b"\n")?;
    add_ops(text, plan, &block)
}

/// Adds the first line.
fn add_counts(text: &mut Vec<u8>, plan: &Plan) -> Result<(), AllocError>
    ensures { OnOk result (text.new.items ≡ text.old.items ++ printed.counts_line plan.now) }
{
    add_number(text, b"blocks ", plan.blocks().len() as u64)?;
    add_number(text, b", ops ", plan.ops().len() as u64)?;
    add_number(text, b", edges ", plan.edges().len() as u64)?;
    add(text, b"\n")
}

/// The text of a plan, valid or not: its counts, and then each block, followed by its operators, one a line.
///
/// An operator is a `phi` or a kind and its statement, followed by the operators that give its inputs, with their routes.
pub fn print_plan(alloc: Global, plan: &Plan) -> Result<Vec<u8>, AllocError>
    ensures { IfOk result (λ text. text.items ≡ printed.plan_text plan.now) }
{
    let mut text = Vec::new(alloc);
    add_counts(&mut text, plan)?;
    for number in 0..plan.blocks().len() {
        add_block(&mut text, plan, number as u32)?;
    }
    Ok(text)
}
