//! How many statements a block has.
ghost use Rattle.std.specs.Prelude.{◌≡◌, ◌≤◌};
ghost use Rattle.mit_lex.specs.declared.limits.TheConstants.{MAX_SCRIPT};
ghost use Rattle.mit_script.specs.Trees.{count_of, count_of_all};

use mit_script::Stmt;

/// The statements of a block, and those inside them.
#[cycle(count)]
pub(crate) fn count_all(block: &[Stmt]) -> u32
    requires { count_of_all block.now ≤ MAX_SCRIPT }
    ensures { result ≡ count_of_all block.now }
{
    let mut count = 0;
    for stmt in block {
        count += count_one(stmt);
    }
    count
}

/// A statement, and those inside it.
#[cycle(count)]
pub(crate) fn count_one(stmt: &Stmt) -> u32
    requires { count_of stmt.now ≤ MAX_SCRIPT }
    ensures { result ≡ count_of stmt.now }
{
    match stmt {
        Stmt::Assign { .. } | Stmt::Write { .. } => 1,
        Stmt::If { yes, no, .. } => 1 + count_all(yes.as_slice()) + count_all(no.as_slice()),
        Stmt::While { body, .. } => 1 + count_all(body.as_slice()),
    }
}
