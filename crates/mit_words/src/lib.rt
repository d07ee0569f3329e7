//! The words of a command line, and the command that they are.
#![tactic(auto)]

mod words;

pub use words::{DECISIONS, MAX_DECISIONS, Task, command_of};
