//! A folder, an outbox and a console in memory, by which tests go: each fails at the calls that it is given.
#![tactic(auto)]

mod memory;

pub use memory::{MemConsole, MemFolder, MemOutbox};
