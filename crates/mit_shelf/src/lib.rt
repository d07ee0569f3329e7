//! What a run reads and writes: the rows of a file, the text of a bag, the shelf of what was read of a folder, and the
//! staging of files.
#![tactic(auto)]

mod fields;
pub mod laws;
mod names;
mod printed;
mod rows;
mod shelf;
mod staging;
mod stop;

pub use names::{MAX_NAME, Name, legal_name};
pub use printed::print_rows;
pub use rows::{RowsRefused, parse_part, parse_rows};
pub use shelf::{FetchFault, Shelf};
pub use staging::stage_all;
pub use stop::Stop;
