//! An accepted script as the steps of a thin job.
ghost use Rattle.std.specs.Prelude.{◌≡◌, IfOk};
ghost use Rattle.std.specs.List.{list_all};
ghost use Rattle.mit_rows.specs.declared.value.ColType.TheVariants.{Int};
ghost use Rattle.mit_expr.specs.Types.{same_type};
ghost use Rattle.mit_thin.specs.ThinScript as spec;

use mit_engine::{MAX_STATEMENTS, Thin, ThinStep};
use mit_expr::Expr;
use mit_ops::OpSpec;
use mit_rows::{ColType, MAX_COLUMNS, Value};
use mit_script::{Script, Stmt};
use mit_shelf::{Name, legal_name};
use std::alloc::{AllocError, Global};

// The name of a file, where the expression is a literal that is a legal one.
fn literal_name(name: &Expr) -> Result<Option<Name>, AllocError>
    ensures { IfOk result (λ found. found ≡ spec.name_of name.now) }
{
    match name {
        Expr::Lit(Value::Text(text)) if legal_name(text.bytes()) => {
            Ok(Some(Name::from_text(text.copy()?)))
        }
        _ => Ok(None),
    }
}

// The argument at a place.
fn argument(args: &[u32], place: usize) -> u32
    ensures { result ≡ spec.argument_at args.now place }
{
    args.get(place).copied().unwrap_or(0)
}

// Whether these are all integers.
fn are_ints(types: &[ColType]) -> bool
    ensures { result ≡ list_all (same_type Int) types.now }
{
    types.iter().all(|is| *is == ColType::Int)
}

// Whether these are integers alone, and from one to the most columns.
fn is_read(types: &[ColType]) -> bool
    ensures { result ≡ spec.is_read types.now }
{
    !types.is_empty() && types.len() <= MAX_COLUMNS && are_ints(types)
}

// An assignment as a step.
fn assigned_step(target: u32, op: &OpSpec, args: &[u32]) -> Result<Option<ThinStep>, AllocError>
    ensures { IfOk result (λ found. found ≡ spec.assigned_step target op.now args.now) }
{
    match op {
        OpSpec::Read { name, types } if is_read(types.as_slice()) => {
            let columns = types.as_slice().len() as u8;
            Ok(literal_name(name)?.map(|name| ThinStep::Read {
                target,
                name,
                columns,
            }))
        }
        OpSpec::Union => Ok(Some(ThinStep::Union {
            target,
            left: argument(args, 0),
            right: argument(args, 1),
        })),
        _ => Ok(None),
    }
}

// A write as a step.
fn written_step(op: &OpSpec, args: &[u32]) -> Result<Option<ThinStep>, AllocError>
    ensures { IfOk result (λ found. found ≡ spec.written_step op.now args.now) }
{
    let OpSpec::Write { name } = op else {
        return Ok(None);
    };
    let source = argument(args, 0);
    Ok(literal_name(name)?.map(|name| ThinStep::Write { source, name }))
}

// A statement as a step.
fn step_of(statement: &Stmt) -> Result<Option<ThinStep>, AllocError>
    ensures { IfOk result (λ found. found ≡ spec.thin_step_of statement.now) }
{
    match statement {
        Stmt::Assign { target, op, args } => assigned_step(*target, op, args.as_slice()),
        Stmt::Write { op, args } => written_step(op, args.as_slice()),
        _ => Ok(None),
    }
}

/// The steps of a script that is a list of reads of integers, unions and writes with literal legal names; none where it
/// is another one.
pub fn thin_of(alloc: Global, script: &Script) -> Result<Option<Thin>, AllocError>
    ensures { IfOk result (λ found. found ≡ spec.thin_steps script.now) }
{
    let body = script.body.as_slice();
    if body.len() > MAX_STATEMENTS {
        return Ok(None);
    }
    let mut steps = Vec::with_capacity(alloc, body.len())?;
    for statement in body {
        let Some(step) = step_of(statement)? else {
            return Ok(None);
        };
        steps.push(step)?;
    }
    Ok(Some(Thin::from_steps(steps)))
}
