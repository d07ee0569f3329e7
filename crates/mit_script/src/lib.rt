//! The trees of scripts: when a script is formed, and how many statements it has. Here stand the definitions of the language: which
//! tokens spell a script, which scripts are accepted, and what they do.
#![tactic(auto)]

mod lists;
mod tree;
mod typed;

pub use lists::{Args, Name, Names, VarTypes};
pub use tree::{Script, Stmt, statements};
pub use typed::{CheckCode, Typed};
