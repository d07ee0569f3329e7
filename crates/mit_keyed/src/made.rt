//! Rows that are made of a total.
ghost use Rattle.std.specs.Prelude.{◌≡◌, [], IfOk, OnOk};
ghost use Rattle.mit_ops.specs.Answers.{RowsOrKind, at_row, both, settled};
ghost use Rattle.mit_apply.specs.Stops.{Stops};
ghost use Rattle.mit_apply.specs.TotalStored.{HasValue};
ghost use Rattle.mit_keyed.specs.Groups.{GivesRow, made_at};

use mit_apply::{Answer, OpStop, Total};
use mit_rows::Row;
use std::alloc::{AllocError, Global};

/// Adds the values of a key and then what is made of a total, as a row, or the fault at the key.
pub fn add_made(
    answer: &mut Answer,
    alloc: Global,
    key: &Row,
    total: &Total,
) -> Result<(), AllocError>
    requires { GivesRow (key.now, total.now) }
    ensures { OnOk result (answer.new ≡ both answer.old (made_at (key.now, total.now))) }
{
    match total.value() {
        Ok(value) => answer.add_row(Row::joined(alloc, key, &Row::from_value(value))?),
        Err(stop) => add_stop(answer, key, stop),
    }
}

/// Adds the fault with which a total stopped, at its key.
fn add_stop(answer: &mut Answer, key: &Row, stop: OpStop) -> Result<(), AllocError>
    ensures { (due : RowsOrKind) → Stops due stop
        → OnOk result (answer.new ≡ both answer.old (at_row key.now due)) }
{
    match stop {
        OpStop::Fault(kind) => {
            answer.add_fault(key.copy()?, kind);
            Ok(())
        }
        OpStop::NoMemory => Err(AllocError),
    }
}

/// What is made of a total, as the one row, or its fault.
#[tactic(auto, using(crate::proofs::Making::first_added))]
pub fn answer_total(total: &Total, alloc: Global) -> Result<Answer, AllocError>
    requires { HasValue total.now }
    ensures { IfOk result (λ answer. answer ≡ settled (made_at ([], total.now))) }
{
    let mut answer = Answer::new(alloc);
    add_made(&mut answer, alloc, &Row::empty(), total)?;
    Ok(answer)
}
