//! What lies outside a run: the folder that is read, the outbox that takes files, and the console.
#![tactic(auto)]

mod files;
mod host;
mod outside;

pub use files::{Files, FilesIter};
pub use host::{HostConsole, HostFolder, HostOutbox};
pub use outside::{Console, Folder, Outbox, OutsideStop};
