// Runs the cases of its topics through the top call, over objects in memory, and prints the name of each, or that it FAILED and
// why. The words of the command line are the files of the topics. docs/cases.md says how a case is written.
#![tactic(auto)]

mod case;
mod content;
mod differences;
mod entry;
mod topic;
mod trial;
mod words;
mod wrong;

use crate::topic::run_topic;
use std::env::Env;
use std::process::ExitCode;
use std::rt::Files;
use std::{env, io};

fn main(rt: HostRuntime) -> ExitCode {
    match run(&rt) {
        Ok(true) => ExitCode::SUCCESS,
        Ok(false) | Err(_) => ExitCode::FAILURE,
    }
}

// Whether every case of every topic passed.
fn run<R: Env + Files + Print + AllocGlobal>(rt: &R) -> io::Result<bool> {
    let mut names = Vec::new(rt.alloc());
    let mut passed = true;
    for topic in env::args(rt)?.skip(1) {
        if !run_topic(rt, topic.as_str(), &mut names)? {
            passed = false;
        }
    }
    Ok(passed && !names.is_empty())
}
