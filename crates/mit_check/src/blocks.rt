//! The check of statements, block by block.
ghost use Rattle.std.specs.Prelude.{◌≡◌, ◌≤◌, ◌+◌, Ok, IfOk, IfErr, All, map, true};
ghost use Rattle.mit_lex.specs.declared.limits.TheConstants.{MAX_SCRIPT};
ghost use Rattle.mit_script.specs.Accepted as spec;
ghost use Rattle.mit_script.specs.Accepted.{checked};
ghost use Rattle.mit_script.specs.Trees.{IsFormed, count_of, count_of_all};
ghost use Rattle.mit_check.specs.Bags.{HaveBags};
ghost use Rattle.mit_check.specs.Tells.{TellsFault};
ghost use Rattle.mit_check.specs.Trails.{ExtendsTrail, are_fresh, known_in, marked};

use crate::faults::CheckStop;
use crate::operators::{assign, decide, write};
use crate::tables::Tables;
use crate::trail::{put_back, still_assigned, take_back};
use mit_ops::VarType;
use mit_script::{Name, Script, Stmt, Typed, VarTypes};
use std::alloc::Global;

/// What is known after the statements of a block.
#[cycle(check_all)]
fn check_all(alloc: Global, tables: Tables, block: &[Stmt]) -> Result<Tables, CheckStop>
    requires few { tables.before + count_of_all block.now ≤ MAX_SCRIPT }
    requires complete { All HaveBags block.now }
    ensures passed { IfOk result (λ after.
        spec.in_order (map spec.check_of block.now) (known_in tables) ≡ Ok (known_in after)) }
    ensures fault { IfErr result (TellsFault
        (spec.in_order (map spec.check_of block.now) (known_in tables))) }
    ensures counted { IfOk result (λ after. after.before ≡ tables.before + count_of_all block.now) }
    ensures extends { IfOk result (ExtendsTrail tables) }
{
    let mut known = tables;
    for stmt in block {
        known = check_one(alloc, known, stmt)?;
    }
    Ok(known)
}

/// What is known after an `if`, by what is known before its second block, and what became assigned in the first one.
#[cycle(check_all)]
fn check_other(
    alloc: Global,
    before: Tables,
    first: &[u32],
    no: &[Stmt],
) -> Result<Tables, CheckStop>
    requires few { before.before + count_of_all no.now ≤ MAX_SCRIPT }
    requires complete { All HaveBags no.now }
    ensures passed { IfOk result (λ after. spec.rejoined (map spec.check_of no.now) before.assigned.items
        (spec.with_assigned (marked true first.now before.assigned.items) (known_in before)) ≡ Ok (known_in after)) }
    ensures fault { IfErr result (TellsFault (spec.rejoined (map spec.check_of no.now) before.assigned.items
        (spec.with_assigned (marked true first.now before.assigned.items) (known_in before)))) }
    ensures counted { IfOk result (λ after. after.before ≡ before.before + count_of_all no.now) }
    ensures extends { are_fresh before.assigned.items first.now ≡ true → IfOk result (ExtendsTrail before) }
{
    let size = before.trail.len();
    let other = check_all(alloc, before, no)?;
    let both = still_assigned(alloc, first, &other.assigned)?;
    let (back, _) = take_back(other, size)?;
    Ok(put_back(back, &both)?)
}

/// What is known after a `while`, by what is known after its condition.
#[cycle(check_all)]
fn check_body(alloc: Global, inside: Tables, body: &[Stmt]) -> Result<Tables, CheckStop>
    requires few { inside.before + count_of_all body.now ≤ MAX_SCRIPT }
    requires complete { All HaveBags body.now }
    ensures passed { IfOk result (λ after.
        spec.looped (map spec.check_of body.now) (known_in inside) ≡ Ok (known_in after)) }
    ensures fault { IfErr result (TellsFault
        (spec.looped (map spec.check_of body.now) (known_in inside))) }
    ensures counted { IfOk result (λ after. after.before ≡ inside.before + count_of_all body.now) }
    ensures extends { IfOk result (ExtendsTrail inside) }
{
    let size = inside.trail.len();
    let last = check_all(alloc, inside, body)?;
    let (back, _) = take_back(last, size)?;
    Ok(back)
}

/// What is known after a statement.
#[cycle(check_all)]
fn check_one(alloc: Global, tables: Tables, stmt: &Stmt) -> Result<Tables, CheckStop>
    requires few { tables.before + count_of stmt.now ≤ MAX_SCRIPT }
    requires complete { HaveBags stmt.now }
    ensures passed { IfOk result (λ after.
        spec.check_of stmt.now (known_in tables) ≡ Ok (known_in after)) }
    ensures fault { IfErr result (TellsFault (spec.check_of stmt.now (known_in tables))) }
    ensures counted { IfOk result (λ after. after.before ≡ tables.before + count_of stmt.now) }
    ensures extends { IfOk result (ExtendsTrail tables) }
{
    match stmt {
        Stmt::Assign { target, op, args } => assign(alloc, tables, *target, op, args.as_slice()),
        Stmt::Write { op, args } => write(alloc, tables, op, args.as_slice()),
        Stmt::If { op, args, yes, no } => {
            let inside = decide(alloc, tables, op, args.as_slice())?;
            let size = inside.trail.len();
            let one = check_all(alloc, inside, yes.as_slice())?;
            let (before, first) = take_back(one, size)?;
            check_other(alloc, before, &first, no.as_slice())
        }
        Stmt::While { op, args, body } => {
            let inside = decide(alloc, tables, op, args.as_slice())?;
            check_body(alloc, inside, body.as_slice())
        }
    }
}

/// The types of all variables, or the first statement that is refused.
pub(crate) fn types_of(
    alloc: Global,
    names: &[Name],
    body: &[Stmt],
) -> Result<Vec<VarType>, CheckStop>
    requires few { count_of_all body.now ≤ MAX_SCRIPT }
    requires complete { All HaveBags body.now }
    ensures typed { IfOk result (λ types. spec.checked_body names.now body.now ≡ Ok types.items) }
    ensures fault { IfErr result (TellsFault (spec.checked_body names.now body.now)) }
{
    let start = Tables::new(alloc, names)?;
    let last = check_all(alloc, start, body)?;
    Ok(last.all_types(alloc)?)
}

/// A script with the types of its variables, or the first statement that is refused.
pub fn check(alloc: Global, script: Script) -> Result<Typed, CheckStop>
    requires { IsFormed script }
    ensures typed { IfOk result (λ typed.
        (typed.script ≡ script) × (checked script ≡ Ok typed.types)) }
    ensures fault { IfErr result (TellsFault (checked script)) }
{
    let types = types_of(alloc, script.names.as_slice(), script.body.as_slice())?;
    Ok(Typed::of(script, VarTypes::from_vec(types)))
}
