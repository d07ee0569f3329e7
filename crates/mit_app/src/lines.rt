//! The lines of the console.
ghost use Rattle.std.specs.Prelude.{◌≡◌, IfOk, string_bytes};
ghost use Rattle.mit_app.specs.Ends.{halt_line};
ghost use Rattle.mit_app.specs.Lines.{accepted_line, code_words, kind_words, outside_line, refusal_line, report_line, step_line};
ghost use Rattle.mit_app.specs.declared.ends.Refusal.TheVariants as refusal;

use crate::ends::{Halt, Outside, Refusal};
use mit_ops::{FaultKind, ScriptFault};
use mit_script::CheckCode;
use std::alloc::{AllocError, Global};

/// The line that tells how a run ended.
pub(crate) fn report(
    alloc: Global,
    files: u64,
    blocks: u64,
    actions: u64,
) -> Result<String, AllocError>
    ensures { IfOk result (λ text. string_bytes text ≡ report_line files blocks actions) }
{
    format!(in alloc; "files {files}, blocks {blocks}, actions {actions}\n")
}

/// The line that tells how a script ended that was run step by step.
pub(crate) fn step_report(alloc: Global, files: u64, decisions: u32) -> Result<String, AllocError>
    ensures { IfOk result (λ text. string_bytes text ≡ step_line files decisions) }
{
    format!(in alloc; "files {files}, decisions {decisions}\n")
}

/// The line that tells that a script is accepted.
pub(crate) fn acceptance(alloc: Global, statements: u32) -> Result<String, AllocError>
    ensures { IfOk result (λ text. string_bytes text ≡ accepted_line statements) }
{
    format!(in alloc; "accepted, statements {statements}\n")
}

/// The line that tells why a call did not come to its end; where the console failed, there is none.
pub(crate) fn halted(alloc: Global, halt: &Halt) -> Result<String, AllocError>
    ensures { IfOk result (λ text. string_bytes text ≡ halt_line halt.now) }
{
    match halt {
        Halt::Refused(why) => refused(alloc, why),
        Halt::Failed(why) => String::from_str(alloc, failed(*why)),
    }
}

fn failed(why: Outside) -> &'static str
    ensures { result.now ≡ outside_line why }
{
    match why {
        Outside::Folder => "folder fault\n",
        Outside::Outbox => "outbox fault\n",
        Outside::Console => "",
        Outside::NoMemory => "out of memory\n",
    }
}

fn refused(alloc: Global, why: &Refusal) -> Result<String, AllocError>
    ensures { IfOk result (λ text. string_bytes text ≡ refusal_line why.now) }
{
    match why {
        Refusal::Usage => String::from_str(
            alloc,
            "usage: mitos run|step|check|plan SCRIPT, or mitos demo DAYS\n",
        ),
        Refusal::Absent(name) => {
            let name = name.as_str();
            format!(in alloc; "no such file: {name}\n")
        }
        Refusal::Syntax(place) => { format!(in alloc; "script refused: syntax at byte {place}\n") }
        Refusal::Statement { statement, code } => rejected(alloc, *statement, *code),
        Refusal::NotThin => String::from_str(alloc, "script refused: not a thin script\n"),
        Refusal::TooLarge => String::from_str(alloc, "script refused: plan too large\n"),
        Refusal::Fault(fault) => faulted(alloc, fault),
    }
}

fn rejected(alloc: Global, statement: u32, code: CheckCode) -> Result<String, AllocError>
    ensures { IfOk result (λ text. string_bytes text ≡ refusal_line (refusal.Statement statement code)) }
{
    let why = code_text(code);
    format!(in alloc; "script refused: statement {statement}, {why}\n")
}

fn code_text(code: CheckCode) -> &'static str
    ensures { result.now ≡ code_words code }
{
    match code {
        CheckCode::Unassigned => "not assigned",
        CheckCode::NotScalar => "not a scalar",
        CheckCode::TooLarge => "too large",
        CheckCode::TooManyColumns => "too many columns",
        CheckCode::WrongType => "wrong type",
    }
}

fn faulted(alloc: Global, fault: &ScriptFault) -> Result<String, AllocError>
    ensures { IfOk result (λ text. string_bytes text ≡ refusal_line (refusal.Fault fault.now)) }
{
    let statement = fault.statement;
    let decisions = fault.decisions;
    let kind = kind_text(alloc, fault.kind)?;
    format!(in alloc; "fault: statement {statement}, decisions {decisions}, {kind}\n")
}

fn kind_text(alloc: Global, kind: FaultKind) -> Result<String, AllocError>
    ensures { IfOk result (λ text. string_bytes text ≡ kind_words kind) }
{
    match kind {
        FaultKind::Overflow => String::from_str(alloc, "overflow"),
        FaultKind::DivideByZero => String::from_str(alloc, "division by zero"),
        FaultKind::NotNumber => String::from_str(alloc, "not a number"),
        FaultKind::TextTooLong => String::from_str(alloc, "text too long"),
        FaultKind::RangeTooLong => String::from_str(alloc, "range too long"),
        FaultKind::NotOne(rows) => format!(in alloc; "not one row: {rows}"),
        FaultKind::NoFile => String::from_str(alloc, "no such file"),
        FaultKind::BadName => String::from_str(alloc, "bad name"),
        FaultKind::BadRow(number) => format!(in alloc; "bad record {number}"),
        FaultKind::DecisionLimit => String::from_str(alloc, "decision limit"),
    }
}
