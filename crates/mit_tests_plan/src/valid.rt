//! Which plans are valid: the plan of a branch, and for each condition one that breaks it alone.
use crate::worked::{Lists, block, branch, captured, edge, number, op, phi, plan_of, text, worked};
use mit_ops::{Leave, OpSpec, Route};
use mit_plan::{Edge, PlanBlock, PlanOp};
use mit_valid::validate;
use std::process::Abort;

fn put<T: Drop>(items: &mut Vec<T>, number: usize, item: T) {
    if let Some(place) = items.get_mut(number) {
        *place = item;
    }
}

fn is_valid(rt: &(impl Abort + AllocGlobal), lists: Lists) -> bool {
    let plan = plan_of(rt, lists);
    validate(rt.alloc(), &plan).expect(rt, "memory")
}

/// The plan with a block, an operator or an edge in place of that of this number.
fn with_block(rt: &(impl Abort + AllocGlobal), number: usize, block: PlanBlock) -> bool {
    let mut lists = worked(rt);
    put(&mut lists.blocks, number, block);
    is_valid(rt, lists)
}

fn with_op(rt: &(impl Abort + AllocGlobal), number: usize, op: PlanOp) -> bool {
    let mut lists = worked(rt);
    put(&mut lists.ops, number, op);
    is_valid(rt, lists)
}

fn with_edge(rt: &(impl Abort + AllocGlobal), number: usize, edge: Edge) -> bool {
    let mut lists = worked(rt);
    put(&mut lists.edges, number, edge);
    is_valid(rt, lists)
}

#[test]
fn the_plan_of_a_branch_is_valid(rt: HostRuntime) {
    assert!(rt; is_valid(&rt, worked(&rt)));
}

#[test]
fn a_plan_without_its_last_edge_is_not_valid(rt: HostRuntime) {
    let mut lists = worked(&rt);
    let last = lists.edges.pop();
    assert!(rt; last.is_some() && !is_valid(&rt, lists));
}

#[test]
fn each_operator_stands_where_it_says(rt: HostRuntime) {
    let write = OpSpec::Write {
        name: text(&rt, "z"),
    };
    assert!(rt; !with_op(&rt, 8, op(3, 3, 8, write)));
}

#[test]
fn a_phi_copies(rt: HostRuntime) {
    assert!(rt; !with_op(&rt, 6, phi(2, OpSpec::Distinct)));
    assert!(rt; with_op(&rt, 6, phi(2, OpSpec::Copy)));
}

#[test]
fn edges_stand_in_the_order_of_their_operators(rt: HostRuntime) {
    let mut lists = worked(&rt);
    put(&mut lists.edges, 2, edge(0, 4, 0, Route::Forward));
    put(&mut lists.edges, 3, edge(2, 3, 0, Route::Gather));
    assert!(rt; !is_valid(&rt, lists));
}

#[test]
fn a_block_is_left_for_a_block(rt: HostRuntime) {
    assert!(rt; !with_block(&rt, 1, block(4, 1, Leave::Jump(4))));
}

#[test]
fn a_branch_is_decided_by_a_truth_value(rt: HostRuntime) {
    let mut lists = worked(&rt);
    put(&mut lists.edges, 2, edge(1, 3, 0, Route::Gather));
    assert!(rt; !is_valid(&rt, lists));
}

#[test]
fn jumps_alone_do_not_go_round(rt: HostRuntime) {
    assert!(rt; !with_block(&rt, 1, block(4, 1, Leave::Jump(1))));
}

#[test]
fn each_block_is_reached_and_one_is_the_end(rt: HostRuntime) {
    assert!(rt; !with_block(&rt, 0, block(0, 4, branch(2, 2))));
    assert!(rt; !with_block(&rt, 1, block(4, 1, Leave::End)));
}

#[test]
fn each_input_has_its_edge(rt: HostRuntime) {
    assert!(rt; !with_op(&rt, 6, phi(3, OpSpec::Copy)));
}

#[test]
fn the_operands_of_a_phi_come_from_different_blocks(rt: HostRuntime) {
    let mut lists = worked(&rt);
    put(&mut lists.edges, 5, edge(0, 6, 0, Route::Forward));
    put(&mut lists.edges, 6, edge(1, 6, 1, Route::Forward));
    assert!(rt; !is_valid(&rt, lists));
}

#[test]
fn an_edge_inside_a_block_goes_up(rt: HostRuntime) {
    let mut lists = worked(&rt);
    put(&mut lists.ops, 0, op(0, 0, 1, captured()));
    lists
        .edges
        .insert(0, edge(1, 0, 0, Route::Gather))
        .expect(&rt, "memory");
    assert!(rt; !is_valid(&rt, lists));
}

#[test]
fn what_is_taken_was_made_on_every_path(rt: HostRuntime) {
    assert!(rt; !with_edge(&rt, 4, edge(4, 5, 0, Route::Forward)));
}

#[test]
fn no_edge_comes_from_a_write(rt: HostRuntime) {
    let mut lists = worked(&rt);
    put(&mut lists.blocks, 3, block(6, 4, Leave::End));
    lists
        .ops
        .push(op(3, 3, 9, OpSpec::Count))
        .expect(&rt, "memory");
    lists
        .edges
        .push(edge(8, 9, 0, Route::Gather))
        .expect(&rt, "memory");
    assert!(rt; !is_valid(&rt, lists));
}

#[test]
fn types_fit_at_each_operator_and_each_phi(rt: HostRuntime) {
    let words = OpSpec::Scalar {
        expr: text(&rt, "b"),
    };
    assert!(rt; !with_op(&rt, 1, op(0, 1, 2, words)));
    assert!(rt; !with_edge(&rt, 3, edge(2, 4, 0, Route::Forward)));
}

#[test]
fn an_edge_has_the_route_of_its_input(rt: HostRuntime) {
    assert!(rt; !with_edge(&rt, 8, edge(7, 8, 0, Route::Forward)));
}

#[test]
fn a_plan_has_at_most_4096_operators(rt: HostRuntime) {
    for (count, valid) in [(4_096, true), (4_097, false)] {
        let mut lists = Lists {
            blocks: Vec::from_array(rt.alloc(), [block(0, count, Leave::End)]).expect(
                &rt, "memory",
            ),
            ops: Vec::new(rt.alloc()),
            edges: Vec::new(rt.alloc()),
        };
        for index in 0..count {
            lists
                .ops
                .push(op(0, index, 1, number(1)))
                .expect(&rt, "memory");
        }
        assert!(rt; is_valid(&rt, lists) == valid);
    }
}
