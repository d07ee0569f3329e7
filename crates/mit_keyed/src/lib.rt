//! Rows by their keys: totals, rows once each, and an index for joins.
#![tactic(auto)]

mod distinct;
mod index;
pub mod laws;
mod made;
mod matches;
mod reduce;

pub use distinct::{answer_kept, keep_once};
pub use index::Index;
pub use made::{add_made, answer_total};
pub use matches::add_joined;
pub use reduce::{add_to_group, answer_groups};
