//! The check of one statement, without those in its blocks.
ghost use Rattle.std.specs.Prelude.{◌≡◌, ◌+◌, ◌<◌, ◌≤◌, Ok, None, Some, IfOk, IfErr, if◌then◌else◌, is_some, length, not, slice_get, slice_set, true, unwrap_or};
ghost use Rattle.mit_ops.specs.Kinds.{bag_inputs_of};
ghost use Rattle.mit_ops.specs.Results.{IsBagType, Refuses};
ghost use Rattle.mit_lex.specs.declared.limits.TheConstants.{MAX_SCRIPT};
ghost use Rattle.mit_script.specs.Accepted as spec;
ghost use Rattle.mit_check.specs.Tells.{TellsFault};
ghost use Rattle.mit_check.specs.Trails.{ExtendsTrail, TellsOperatorRefusal, known_in};

use crate::faults::CheckStop;
use crate::tables::{Kept, Tables};
use crate::trail::mark;
use mit_ops::{MAX_CAPTURES, OpRefused, OpSpec, VarType};
use mit_rows::ColType;
use mit_script::CheckCode;
use mit_types::result_type;
use std::alloc::{AllocError, Global};

/// A statement is refused as its operator is.
fn refused(statement: u32, why: OpRefused) -> CheckStop
    ensures { TellsOperatorRefusal statement why result }
{
    let code = match why {
        OpRefused::TooLarge => CheckCode::TooLarge,
        OpRefused::TooManyColumns => CheckCode::TooManyColumns,
        OpRefused::WrongType => CheckCode::WrongType,
        OpRefused::NoMemory => return CheckStop::NoMemory,
    };
    CheckStop::Fault { statement, code }
}

/// The type of what an operator gives over its arguments.
fn infer(alloc: Global, tables: &Tables, op: &OpSpec, args: &[u32]) -> Result<VarType, OpRefused>
    requires { bag_inputs_of op.now ≤ length args.now }
    ensures typed { IfOk result (λ type.
        spec.typed_by (known_in tables.now) op.now args.now ≡ Ok type) }
    ensures refused { IfErr result (Refuses (spec.typed_by (known_in tables.now) op.now args.now)) }
    ensures kept { IfOk result IsBagType }
{
    let (bags, captured) = args.split_at(usize::from(op.bag_inputs()));
    let bags = tables.bags(alloc, bags)?;
    let captures = tables.captures(alloc, captured)?;
    result_type(alloc, op, &bags, &captures)
}

/// The type of what the operator of a statement gives.
fn judge(alloc: Global, tables: &Tables, op: &OpSpec, args: &[u32]) -> Result<Kept, CheckStop>
    requires few { tables.now.before < MAX_SCRIPT }
    requires complete { bag_inputs_of op.now ≤ length args.now }
    ensures passed { IfOk result (λ type.
        spec.fault_or (known_in tables.now) (spec.judged (known_in tables.now) op.now args.now) ≡ Ok type) }
    ensures fault { IfErr result (TellsFault
        (spec.fault_or (known_in tables.now) (spec.judged (known_in tables.now) op.now args.now))) }
{
    let statement = tables.before + 1;
    if !tables.are_assigned(args) {
        let code = CheckCode::Unassigned;
        return Err(CheckStop::Fault { statement, code });
    }
    let (_, captured) = args.split_at(usize::from(op.bag_inputs()));
    if !tables.are_scalars(captured) {
        let code = CheckCode::NotScalar;
        return Err(CheckStop::Fault { statement, code });
    }
    if captured.len() > MAX_CAPTURES {
        let code = CheckCode::TooLarge;
        return Err(CheckStop::Fault { statement, code });
    }
    match infer(alloc, tables, op, args) {
        Ok(is) => Ok(Kept::of(is)),
        Err(why) => Err(refused(statement, why)),
    }
}

/// Whether a type is a scalar that is a truth value.
fn is_condition(is: &VarType) -> bool
    ensures { result ≡ spec.is_condition is.now }
{
    is.scalar && is.cols.as_slice() == [ColType::Bool].as_slice()
}

/// Whether a variable has no type yet.
fn is_untyped(types: &[Option<Kept>], variable: u32) -> bool
    ensures { result ≡ not (is_some (unwrap_or (slice_get types.now variable) None)) }
{
    match types.get(variable as usize) {
        Some(Some(_)) => false,
        _ => true,
    }
}

/// Keeps the type of a variable, unless it has one already.
fn keep(types: &mut Vec<Option<Kept>>, variable: u32, is: Kept)
    ensures { types.new.items ≡ (if is_some (unwrap_or (slice_get types.old.items variable) None)
        then types.old.items else slice_set types.old.items variable (Some is)) }
{
    let place = variable as usize;
    if place < types.len() && is_untyped(types, variable) {
        types[place] = Some(is);
    }
}

/// What is known after an assignment.
pub(crate) fn assign(
    alloc: Global,
    tables: Tables,
    target: u32,
    op: &OpSpec,
    args: &[u32],
) -> Result<Tables, CheckStop>
    requires few { tables.before < MAX_SCRIPT }
    requires complete { bag_inputs_of op.now ≤ length args.now }
    ensures passed { IfOk result (λ after.
        spec.assigned_by target op.now args.now (known_in tables) ≡ Ok (known_in after)) }
    ensures fault { IfErr result (TellsFault (spec.assigned_by target op.now args.now (known_in tables))) }
    ensures counted { IfOk result (λ after. after.before ≡ tables.before + 1) }
    ensures extends { IfOk result (ExtendsTrail tables) }
{
    let is = judge(alloc, &tables, op, args)?;
    if !tables.is_kept(target, is.get()) {
        let statement = tables.before + 1;
        let code = CheckCode::WrongType;
        return Err(CheckStop::Fault { statement, code });
    }
    let Tables {
        mut assigned,
        mut trail,
        mut types,
        before,
    } = tables;
    mark(&mut assigned, &mut trail, target)?;
    keep(&mut types, target, is);
    Ok(Tables {
        assigned,
        trail,
        types,
        before: before + 1,
    })
}

/// What is known after one more statement.
fn pass(tables: Tables) -> Tables
    requires { tables.before < MAX_SCRIPT }
    ensures known { known_in result ≡ spec.passed (known_in tables) }
    ensures trail { result.trail ≡ tables.trail }
{
    let Tables {
        assigned,
        trail,
        types,
        before,
    } = tables;
    Tables {
        assigned,
        trail,
        types,
        before: before + 1,
    }
}

/// What is known after a write.
pub(crate) fn write(
    alloc: Global,
    tables: Tables,
    op: &OpSpec,
    args: &[u32],
) -> Result<Tables, CheckStop>
    requires few { tables.before < MAX_SCRIPT }
    requires complete { bag_inputs_of op.now ≤ length args.now }
    ensures passed { IfOk result (λ after.
        spec.written_by op.now args.now (known_in tables) ≡ Ok (known_in after)) }
    ensures fault { IfErr result (TellsFault (spec.written_by op.now args.now (known_in tables))) }
    ensures counted { IfOk result (λ after. after.before ≡ tables.before + 1) }
    ensures extends { IfOk result (ExtendsTrail tables) }
{
    judge(alloc, &tables, op, args)?;
    Ok(pass(tables))
}

/// What is known after a condition.
pub(crate) fn decide(
    alloc: Global,
    tables: Tables,
    op: &OpSpec,
    args: &[u32],
) -> Result<Tables, CheckStop>
    requires few { tables.before < MAX_SCRIPT }
    requires complete { bag_inputs_of op.now ≤ length args.now }
    ensures passed { IfOk result (λ after.
        spec.decided_by op.now args.now (known_in tables) ≡ Ok (known_in after)) }
    ensures fault { IfErr result (TellsFault (spec.decided_by op.now args.now (known_in tables))) }
    ensures counted { IfOk result (λ after. after.before ≡ tables.before + 1) }
    ensures extends { IfOk result (ExtendsTrail tables) }
{
    let is = judge(alloc, &tables, op, args)?;
    if !is_condition(is.get()) {
        let statement = tables.before + 1;
        let code = CheckCode::WrongType;
        return Err(CheckStop::Fault { statement, code });
    }
    Ok(pass(tables))
}
