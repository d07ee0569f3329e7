//! The answer of an operator, added up row by row and fault by fault.
ghost use Rattle.std.specs.Prelude.{◌≡◌, [], ◌∷◌, Ok, Err, IfErr, IfOk, OnErr, OnOk};
ghost use Rattle.mit_rows.specs.Bags.{bag_of};
ghost use Rattle.mit_ops.specs.Answers.{both, fault_cmp};

use mit_bags::laws::bags_are_sorted_lists;
use mit_ops::{FaultKind, OpFault};
use mit_rows::{Row, cmp_rows};
use std::alloc::{AllocError, Global};
use std::cmp::Ordering;
use std::marker::Model;

/// The answer so far, which contracts see as a bag or as the fault with the least row.
#[derive(Debug, Drop)]
pub struct Answer {
    rows: Vec<Row>,
    fault: Option<OpFault>,
}

impl Model for Answer {
    ghost use Rattle.mit_ops.specs.Answers.{BagOrFault};
    ghost use Rattle.mit_apply.specs.AnswerStored.{answer_of};

    ghost Value = { BagOrFault };

    ghost view = { λ a. answer_of a.rows.items a.fault };
}

impl Answer {
    /// No rows.
    pub fn new(alloc: Global) -> Answer
        ensures { result ≡ Ok [] }
    {
        Answer {
            rows: Vec::new(alloc),
            fault: None,
        }
    }

    /// Tells that an answer stands in order, so that nothing more leaves it as it is.
    #[inline]
    pub fn in_order(&self)
        ensures { both self.now (Ok []) ≡ self.now }
    {
        bags_are_sorted_lists();
        let _ = &self.fault;
    }

    /// Adds a row. After a fault no more rows are kept.
    pub fn add_row(&mut self, row: Row) -> Result<(), AllocError>
        ensures ok { OnOk result (self.new ≡ both self.old (Ok (row ∷ []))) }
        ensures err { OnErr result (self.new ≡ self.old) }
    {
        bags_are_sorted_lists();
        if self.fault.is_none() {
            self.rows.push(row)?;
        }
        Ok(())
    }

    /// Adds a fault at a row. Of two faults the lesser one stays.
    pub fn add_fault(&mut self, at: Row, kind: FaultKind)
        ensures { self.new ≡ both self.old (Err (record { at = at; kind = kind })) }
    {
        let fault = OpFault { at, kind };
        match &self.fault {
            Some(old) if cmp_faults(old, &fault).is_le() => {}
            _ => self.fault = Some(fault),
        }
    }

    /// The rows in no order, or the fault.
    pub fn finish(self) -> Result<Vec<Row>, OpFault>
        ensures ok { IfOk result (λ rows. self ≡ Ok (bag_of rows.items)) }
        ensures err { IfErr result (λ fault. self ≡ Err fault) }
    {
        let Answer { rows, fault } = self;
        match fault {
            None => Ok(rows),
            Some(fault) => Err(fault),
        }
    }
}

/// Compares two faults by their rows, and by their kinds where these are equal.
pub fn cmp_faults(a: &OpFault, b: &OpFault) -> Ordering
    ensures { result ≡ fault_cmp a.now b.now }
{
    match cmp_rows(&a.at, &b.at) {
        Ordering::Equal => {}
        decided => return decided,
    }
    a.kind.cmp(&b.kind)
}
