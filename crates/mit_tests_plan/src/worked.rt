//! The plan of a branch whose two blocks each give a variable anew, worked out by hand.
use mit_expr::{BinOp, Expr};
use mit_ops::{Exprs, Leave, OpSpec, Route};
use mit_plan::{Edge, Plan, PlanBlock, PlanOp};
use mit_rows::{Text, Value};
use sqlite_items::Boxed;
use std::process::Abort;

/// The lists of a plan.
#[derive(Drop)]
pub(crate) struct Lists {
    pub(crate) blocks: Vec<PlanBlock>,
    pub(crate) ops: Vec<PlanOp>,
    pub(crate) edges: Vec<Edge>,
}

pub(crate) fn number(value: i64) -> OpSpec {
    OpSpec::Scalar {
        expr: Expr::Lit(Value::Int(value)),
    }
}

pub(crate) fn captured() -> OpSpec {
    OpSpec::Scalar {
        expr: Expr::Capture(0),
    }
}

pub(crate) fn text(rt: &(impl Abort + AllocGlobal), words: &str) -> Expr {
    let words = Text::from_str(rt.alloc(), words).expect(rt, "memory");
    Expr::Lit(Value::Text(words))
}

pub(crate) fn op(block: u32, index: u32, statement: u32, spec: OpSpec) -> PlanOp {
    PlanOp {
        block,
        index,
        statement,
        spec,
        phi: 0,
    }
}

pub(crate) fn phi(operands: u16, spec: OpSpec) -> PlanOp {
    PlanOp {
        block: 3,
        index: 0,
        statement: 0,
        spec,
        phi: operands,
    }
}

pub(crate) fn edge(from: u32, to: u32, input: u16, route: Route) -> Edge {
    Edge {
        from,
        to,
        input,
        route,
    }
}

pub(crate) fn block(first: u32, count: u32, leave: Leave) -> PlanBlock {
    PlanBlock {
        first,
        count,
        leave,
    }
}

pub(crate) fn branch(on_true: u32, on_false: u32) -> Leave {
    Leave::Branch { on_true, on_false }
}

fn blocks(rt: &(impl Abort + AllocGlobal)) -> Vec<PlanBlock> {
    let blocks = [
        block(0, 4, branch(1, 2)),
        block(4, 1, Leave::Jump(3)),
        block(5, 1, Leave::Jump(3)),
        block(6, 3, Leave::End),
    ];
    Vec::from_array(rt.alloc(), blocks).expect(rt, "memory")
}

fn equal(rt: &(impl Abort + AllocGlobal)) -> OpSpec {
    let left = Boxed::new(rt.alloc(), Expr::Capture(0)).expect(rt, "memory");
    let right = Boxed::new(rt.alloc(), Expr::Capture(1)).expect(rt, "memory");
    let op = BinOp::Eq;
    OpSpec::Scalar {
        expr: Expr::Bin { op, left, right },
    }
}

fn ops(rt: &(impl Abort + AllocGlobal)) -> Vec<PlanOp> {
    let exprs = Vec::from_array(rt.alloc(), [Expr::Capture(0)]).expect(rt, "memory");
    let exprs = Exprs::from_vec(exprs);
    let ops = [
        op(0, 0, 1, number(1)),
        op(0, 1, 2, number(2)),
        op(0, 2, 3, equal(rt)),
        op(0, 3, 4, captured()),
        op(1, 0, 5, OpSpec::Copy),
        op(2, 0, 6, OpSpec::Copy),
        phi(2, OpSpec::Copy),
        op(3, 1, 7, OpSpec::MakeRow { exprs }),
        op(
            3,
            2,
            8,
            OpSpec::Write {
                name: text(rt, "z"),
            },
        ),
    ];
    Vec::from_array(rt.alloc(), ops).expect(rt, "memory")
}

fn edges(rt: &(impl Abort + AllocGlobal)) -> Vec<Edge> {
    let edges = [
        edge(0, 2, 0, Route::Gather),
        edge(1, 2, 1, Route::Gather),
        edge(2, 3, 0, Route::Gather),
        edge(0, 4, 0, Route::Forward),
        edge(1, 5, 0, Route::Forward),
        edge(4, 6, 0, Route::Forward),
        edge(5, 6, 1, Route::Forward),
        edge(6, 7, 0, Route::Gather),
        edge(7, 8, 0, Route::Gather),
    ];
    Vec::from_array(rt.alloc(), edges).expect(rt, "memory")
}

/// The plan of `a = 1; b = 2; c = a == b; if c { y = a; } else { y = b; } z = row [y]; write z to "z";`.
pub(crate) fn worked(rt: &(impl Abort + AllocGlobal)) -> Lists {
    Lists {
        blocks: blocks(rt),
        ops: ops(rt),
        edges: edges(rt),
    }
}

/// The plan of these lists.
pub(crate) fn plan_of(rt: &(impl Abort + AllocGlobal), lists: Lists) -> Plan {
    let plan = Plan::new(rt.alloc(), lists.blocks, lists.ops, lists.edges);
    plan.expect(rt, "memory")
}
