//! Answers of operators: what they begin with and how they end as a bag.
ghost use Rattle.std.specs.Prelude.{◌≡◌, OnOk};
ghost use Rattle.mit_ops.specs.Answers.{RowsOrKind, at_row, both};
ghost use Rattle.mit_apply.specs.Stops.{Stops};
ghost use Rattle.mit_step.specs.Stepping.{GivesWhole};

use crate::loose::Loose;
use crate::whole::WholeStop;
use mit_apply::{Answer, OpStop};
use mit_rows::Row;
use std::alloc::AllocError;

/// The bag of an answer, or its fault.
pub fn settle(answer: Answer) -> Result<Loose, WholeStop>
    ensures { GivesWhole answer result }
{
    match answer.finish() {
        Ok(rows) => Ok(Loose::from_rows(rows)),
        Err(fault) => Err(WholeStop::Fault(fault)),
    }
}

/// Adds the fault with which an operator stopped at a row.
pub fn add_stop(row: &Row, stop: OpStop, answer: &mut Answer) -> Result<(), AllocError>
    ensures { (due : RowsOrKind) → Stops due stop
        → OnOk result (answer.new ≡ both answer.old (at_row row.now due)) }
{
    match stop {
        OpStop::Fault(kind) => {
            answer.add_fault(row.copy()?, kind);
            Ok(())
        }
        OpStop::NoMemory => Err(AllocError),
    }
}
