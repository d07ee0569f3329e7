//! How operators are applied: to one row, to a key and its total; where rows go; and how answers add up.
#![tactic(auto)]

mod answer;
mod each_row;
mod keys;
mod partitions;
mod total;

pub use answer::{Answer, cmp_faults};
pub use each_row::{OpStop, flatten, keeps, row_of_exprs};
pub use keys::{Key, hash_of, same_key};
pub use partitions::{senders, target, targets};
pub use total::Total;
