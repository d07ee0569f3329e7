// The program: it hands its words and the real folder, outbox and console to the top call, and ends with its status.
#![tactic(auto)]

use mit_app::mitos;
use mit_world::{HostConsole, HostFolder, HostOutbox};
use std::env::Env;
use std::process::ExitCode;
use std::rt::Files;
use std::{env, io};

// The status where memory runs out before the top call.
const OUT_OF_MEMORY: u8 = 7;

fn main(rt: HostRuntime) -> ExitCode {
    ExitCode::from(run(rt).unwrap_or(OUT_OF_MEMORY))
}

fn run<R: Env + Files + Print + Eprint + AllocGlobal + Clone + Drop>(rt: R) -> io::Result<u8> {
    let words = words(&rt)?;
    let mut folder = HostFolder::new(rt.clone()?);
    let mut outbox = HostOutbox::new(rt.clone()?);
    let alloc = rt.alloc();
    let mut console = HostConsole::new(rt);
    Ok(mitos(alloc, &words, &mut folder, &mut outbox, &mut console))
}

// The words after the program's name. Where one is no text there are none, which are no command.
fn words<R: Env + AllocGlobal>(rt: &R) -> io::Result<Vec<String>> {
    let mut words = Vec::new(rt.alloc());
    match env::args(rt) {
        Ok(args) => {
            for word in args.skip(1) {
                words.push(word)?;
            }
            Ok(words)
        }
        Err(error) if error.kind() == io::ErrorKind::InvalidData => Ok(words),
        Err(error) => Err(error),
    }
}
