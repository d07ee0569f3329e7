//! What becomes of a bag.

/// What becomes of a bag on an edge.
#[derive(Debug, Clone, Copy, PartialEq, Eq)]
pub enum Fate {
    /// It is sent to the target.
    Send,
    /// It is dropped: no place of the target takes it.
    Drop,
    /// The path does not tell yet.
    Undecided,
}
