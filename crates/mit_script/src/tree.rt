ghost use Rattle.std.specs.Prelude.{◌≡◌, ◌≤◌};
ghost use Rattle.mit_lex.specs.declared.limits.TheConstants.{MAX_SCRIPT};
ghost use Rattle.mit_script.specs.Trees.{IsFormed, count_of, count_of_all, statements_of};

use crate::lists::{Args, Names};
use mit_ops::OpSpec;
use sqlite_items::Items;

/// A statement. Variables are numbered from 0.
#[derive(Debug, Drop)]
pub enum Stmt {
    /// Gives a variable what an operator gives.
    Assign {
        target: u32,
        op: OpSpec,
        args: Args,
    },
    /// Writes a bag to a file. The operator is `Write`.
    Write {
        op: OpSpec,
        args: Args,
    },
    /// Does one of two blocks, as a scalar decides.
    If {
        op: OpSpec,
        args: Args,
        /// What is done where it is true.
        yes: Items<Stmt>,
        /// What is done where it is false.
        no: Items<Stmt>,
    },
    /// Does a block as long as a scalar is true.
    While {
        op: OpSpec,
        args: Args,
        body: Items<Stmt>,
    },
}

/// A script: its statements, and the names of its variables, which are numbered in the order in which they appear first
/// in the text.
#[derive(Debug, Drop)]
pub struct Script {
    pub body: Items<Stmt>,
    pub names: Names,
}

/// How many statements a script has. An `if` or a `while` is one, and so is each statement in its blocks.
pub fn statements(script: &Script) -> u32
    requires { IsFormed script.now }
    ensures { result ≡ statements_of script.now }
{
    count_all(script.body.as_slice())
}

/// The statements of a block, and those inside them.
#[cycle(count)]
fn count_all(block: &[Stmt]) -> u32
    requires { count_of_all block.now ≤ MAX_SCRIPT }
    ensures { result ≡ count_of_all block.now }
{
    let mut count = 0;
    for stmt in block {
        count += count_one(stmt);
    }
    count
}

/// A statement, and those inside it.
#[cycle(count)]
fn count_one(stmt: &Stmt) -> u32
    requires { count_of stmt.now ≤ MAX_SCRIPT }
    ensures { result ≡ count_of stmt.now }
{
    match stmt {
        Stmt::Assign { .. } | Stmt::Write { .. } => 1,
        Stmt::If { yes, no, .. } => 1 + count_all(yes.as_slice()) + count_all(no.as_slice()),
        Stmt::While { body, .. } => 1 + count_all(body.as_slice()),
    }
}
