//! The plans of scripts.
use mit_check::check;
use mit_ops::{Leave, Route};
use mit_parse::parse;
use mit_plan::{Edge, Plan, PlanOp};
use mit_script::Typed;
use mit_ssa::{PlanStop, plan_of};
use mit_valid::validate;
use std::process::Abort;

fn typed(rt: &(impl Abort + AllocGlobal), text: &str) -> Typed {
    let script = parse(rt.alloc(), text.as_bytes()).expect(rt, "a script");
    check(rt.alloc(), script).expect(rt, "an accepted script")
}

fn add(rt: &(impl Abort + AllocGlobal), text: &mut String, words: &str) {
    text.push_str(words).expect(rt, "memory");
}

/// An edge as `<`, the operator that gives, and the first letter of the route, with a key's columns.
fn add_edge(rt: &(impl Abort + AllocGlobal), text: &mut String, edge: &Edge) {
    let words = format!(in rt.alloc(); "<{}", edge.from).expect(rt, "memory");
    add(rt, text, &words);
    match &edge.route {
        Route::Forward => add(rt, text, "f"),
        Route::Gather => add(rt, text, "g"),
        Route::Broadcast => add(rt, text, "b"),
        Route::ByKey(columns) => {
            add(rt, text, "k");
            for column in columns.as_slice() {
                let words = format!(in rt.alloc(); "${column}").expect(rt, "memory");
                add(rt, text, &words);
            }
        }
    }
}

/// An operator as the number of its statement, `:` and the number of its kind, and then its edges.
fn add_op(
    rt: &(impl Abort + AllocGlobal),
    text: &mut String,
    plan: &Plan,
    number: usize,
    op: &PlanOp,
) {
    let words = format!(in rt.alloc(); "{}:{}", op.statement, op.spec.kind()).expect(rt, "memory");
    add(rt, text, &words);
    let mut input = 0;
    for edge in plan.edges() {
        if edge.to as usize == number {
            assert!(rt; edge.input == input, "edges in order");
            input = input.wrapping_add(1);
            add_edge(rt, text, edge);
        }
    }
    assert!(rt;
        (op.phi == 0) == (op.statement > 0),
        "a phi has no statement"
    );
    assert!(rt; op.phi == 0 || op.phi == input, "a phi has its operands");
    add(rt, text, " ");
}

fn add_leave(rt: &(impl Abort + AllocGlobal), text: &mut String, leave: Leave) {
    let words = match leave {
        Leave::Jump(next) => format!(in rt.alloc(); "jump {next}, "),
        Leave::Branch { on_true, on_false } => {
            format!(in rt.alloc(); "branch {on_true} {on_false}, ")
        }
        Leave::End => format!(in rt.alloc(); "end"),
    };
    add(rt, text, &words.expect(rt, "memory"));
}

/// The blocks, each its operators and how it is left.
fn plan_text(rt: &(impl Abort + AllocGlobal), plan: &Plan) -> String {
    let mut text = String::new(rt.alloc());
    for (number, block) in plan.blocks().iter().enumerate() {
        let mut index = 0;
        for (place, op) in plan.ops().iter().enumerate() {
            if op.block as usize == number {
                assert!(rt;
                    place == (block.first as usize).wrapping_add(index),
                    "operators of a block stand together"
                );
                assert!(rt; op.index as usize == index, "operators in order");
                add_op(rt, &mut text, plan, place, op);
                index = index.wrapping_add(1);
            }
        }
        assert!(rt; block.count as usize == index, "a block has its operators");
        add_leave(rt, &mut text, block.leave);
    }
    text
}

/// Scripts, and after an arrow their plans.
const SCRIPTS: &str = " => end
a = 1; b = 2; c = a < b; if c { x = a; } else { x = b; } r = row [x]; write r to \"y\"; => \
1:0 2:0 3:0<0g<1g 4:0<2g branch 1 2, 5:15<0f jump 3, 6:15<1f jump 3, 0:15<4f<5f 7:12<6g 8:14<7g end
a=0; b=5; while a<9 {if a<5 {a=a+1;} else {a=a+2; c=1;} b=a+0;} d=a+b; => \
1:0 2:0 jump 1, 0:15<0f<9f 0:15<1f<10f 3:0<2g branch 2 6, 4:0<2g branch 3 4, 5:0<2g jump 5, 6:0<2g 7:0 jump 5, \
0:15<6f<7f 8:0<9g jump 1, 9:0<2g<3g end
a=0; while a<9 {b=a+1; while b<5 {b=b+1; a=a+b;} a=a+1;} => \
1:0 jump 1, 0:15<0f<9f 2:0<1g branch 2 6, 3:0<1g jump 3, 0:15<1f<8f 0:15<3f<7f 4:0<5g branch 4 5, \
5:0<5g 6:0<4g<7g jump 3, 7:0<4g jump 1, end
n = 3; v = read \"x\" (int, int); w = filter v where $0 > n; d = distinct w; j = join d $0 with v $1; write j to \"y\"; => \
1:0 2:1 3:3<1f<0b 4:8<2k$0$1 5:5<3k$0<1k$1 6:14<4g end";

#[test]
fn a_script_has_its_plan(rt: HostRuntime) {
    for row in SCRIPTS.lines() {
        let (script, due) = row.split_once(" => ").expect(&rt, "a row");
        let plan = plan_of(rt.alloc(), &typed(&rt, script)).expect(&rt, "a plan");
        let found = plan_text(&rt, &plan);
        assert!(&rt; found.as_str() == due, "{script}: {found}");
        let valid = validate(rt.alloc(), &plan).expect(&rt, "memory");
        assert!(&rt; valid, "{script}");
    }
}

/// So many assignments.
fn assignments(rt: &(impl Abort + AllocGlobal), count: usize) -> String {
    let mut text = String::new(rt.alloc());
    for _ in 0..count {
        add(rt, &mut text, "a = 1;");
    }
    text
}

#[test]
fn a_plan_has_at_most_4096_operators(rt: HostRuntime) {
    let most = assignments(&rt, 4_096);
    let plan = plan_of(rt.alloc(), &typed(&rt, &most)).expect(&rt, "a plan");
    assert_eq!(&rt; plan.ops().len(), 4_096);
    let more = assignments(&rt, 4_097);
    let stop = plan_of(rt.alloc(), &typed(&rt, &more)).err();
    assert!(&rt; stop == Some(PlanStop::TooLarge), "too large");
}
