//! The blocks of scripts. A row is a script, and after an arrow the number of its variables and its blocks: for each step the
//! number of its statement and, after a `>`, of its target, then how the block is left.
use mit_cfg::{Block, Cfg, Step};
use mit_check::check;
use mit_cut::blocks;
use mit_ops::Leave;
use mit_parse::parse;
use std::alloc::{AllocError, Global};
use std::fmt::Write;
use std::process::Abort;

fn write_step(shown: &mut String, step: &Step) -> Result<(), AllocError> {
    match step.target {
        Some(target) => write!(shown, " {}>{target}", step.statement),
        None => write!(shown, " {}", step.statement),
    }
}

fn write_leave(shown: &mut String, leave: Leave) -> Result<(), AllocError> {
    match leave {
        Leave::Jump(next) => write!(shown, " jump {next},"),
        Leave::Branch { on_true, on_false } => write!(shown, " branch {on_true} {on_false},"),
        Leave::End => shown.push_str(" end,"),
    }
}

fn write_block(shown: &mut String, block: &Block) -> Result<(), AllocError> {
    for step in block.steps.as_slice() {
        write_step(shown, step)?;
    }
    write_leave(shown, block.leave)
}

/// The number of variables, and the blocks.
fn shown(alloc: Global, cfg: &Cfg) -> Result<String, AllocError> {
    let mut shown = String::new(alloc);
    write!(shown, "{}:", cfg.types.as_slice().len())?;
    for block in cfg.blocks.as_slice() {
        write_block(&mut shown, block)?;
    }
    Ok(shown)
}

fn expect_blocks(rt: &(impl Abort + AllocGlobal), row: &str) {
    let (text, due) = row.split_once("=> ").expect(rt, "an arrow");
    let script = parse(rt.alloc(), text.as_bytes()).expect(rt, "a script");
    let typed = check(rt.alloc(), script).expect(rt, "an accepted script");
    let cfg = blocks(rt.alloc(), &typed).expect(rt, "memory");
    let found = shown(rt.alloc(), &cfg).expect(rt, "memory");
    assert!(rt; found.as_str() == due, "{row}: {found}");
}

/// Scripts without and with branches, and their blocks.
const SCRIPTS: &str = "=> 0: end,\n\
    a=1; b=row[a]; write b to \"b\"; => 2: 1>0 2>1 3 end,\n\
    a=1; if a==1 {b=2;} c=a+0; => 3: 1>0 2 branch 1 2, 3>1 jump 3, jump 3, 4>2 end,\n\
    a=1; if a==1 {b=2;} else {b=3; c=4;} => 3: 1>0 2 branch 1 2, 3>1 jump 3, 4>1 5>2 jump 3, end,\n\
    a=1; while a<9 {a=a+1;} => 1: 1>0 jump 1, 2 branch 2 3, 3>0 jump 1, end,\n\
    while false {} if true {} else {} => 0: jump 1, 1 branch 2 3, jump 1, 2 branch 4 5, jump 6, jump 6, end,\n\
    a=1; while a<9 {if a<5 {while a<3 {a=a+1;}} else {a=a+2;} a=a+3;} b=a+0; => 2: 1>0 jump 1, 2 branch 2 9, 3 branch 3 7, jump 4, 4 branch 5 6, 5>0 jump 4, jump 8, 6>0 jump 8, 7>0 jump 1, 8>1 end,";

#[test]
fn a_script_is_cut_at_its_branches(rt: HostRuntime) {
    for row in SCRIPTS.lines() {
        expect_blocks(&rt, row);
    }
}
