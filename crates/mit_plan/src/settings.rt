//! What a run may do.

/// How a plan is run.
#[derive(Clone, Copy, Debug, PartialEq, Eq)]
pub struct Settings {
    /// In how many partitions, from 1 to 16.
    pub parts: u16,
    /// How many places of the path may be worked on at once, from 1 to 65,535.
    pub window: u32,
    /// How many decisions may be taken, from 1 to 1,000,000.
    pub decisions: u32,
}
