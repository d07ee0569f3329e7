//! Operators: their kinds, their routes, how a block is left, and faults. The types of their results and what they compute stand here as
//! definitions.
#![tactic(auto)]

mod faults;
mod kinds;
pub mod laws;
mod leave;
mod lists;
mod routes;
mod types;

pub use faults::{FaultKind, OpFault, ScriptFault};
pub use kinds::{Agg, Flat, MAX_RANGE, OpSpec};
pub use leave::Leave;
pub use lists::{ColTypes, Columns, Exprs};
pub use routes::{Route, route_of};
pub use types::{MAX_CAPTURES, OpRefused, VarType};
