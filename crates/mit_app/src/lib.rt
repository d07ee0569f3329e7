//! The top call of Mitos: the words of a command line, the script, its check, its plan or its run, and how it ends.
#![tactic(auto)]

mod call;
mod check;
mod ends;
pub mod laws;
mod lines;
mod plan;
mod publish;
mod run;
mod script;
mod show;
mod step;

pub use call::mitos;
