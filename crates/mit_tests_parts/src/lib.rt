//! Tests of what no command shows of what the language and a job stand on: files, the shelf, parts of files, staged bags, views of
//! the path, and runs under any schedule.
#![tactic(auto)]

#[cfg(test)]
mod engine;
#[cfg(test)]
mod given;
#[cfg(test)]
mod host;
#[cfg(test)]
mod path;
#[cfg(test)]
mod schedules;
#[cfg(test)]
mod shelf;
#[cfg(test)]
mod staged;
