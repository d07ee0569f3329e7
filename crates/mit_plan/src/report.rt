//! What a partition reports of an operator.
use mit_ops::OpFault;

/// What became of an operator in a partition at a place of the path.
#[derive(Debug, Drop)]
pub enum Outcome {
    /// Its part is made.
    Done,
    /// Its part is made, and decides which way its block is left.
    Decided(bool),
    /// It came to this fault.
    Fault(OpFault),
}

/// That an operator is done in a partition at a place of the path.
#[derive(Debug, Drop)]
pub struct Report {
    /// The operator.
    pub op: u32,
    /// The partition.
    pub part: u16,
    /// The place of the path, from 0.
    pub place: u64,
    /// What came of it.
    pub outcome: Outcome,
}
