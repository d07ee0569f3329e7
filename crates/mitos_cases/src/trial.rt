//! How a case is run.
use crate::case::{Calls, Case, Kind, Wanted};
use crate::differences::Differences;
use mit_app::mitos;
use mit_memory::{MemConsole, MemFolder, MemOutbox};
use mit_world::Files;
use std::alloc::{AllocError, Global};

/// What a call of this case leaves otherwise than wanted: the empty text where all is as wanted.
pub(crate) fn run_case(alloc: Global, case: Case) -> Result<String, AllocError> {
    let Case {
        words,
        files,
        status: wanted,
        console: bytes,
        staged,
        published,
        calls,
        fails,
        stated: _,
    } = case;
    let mut folder = MemFolder::new(files, fails.folder);
    let mut outbox = MemOutbox::new(alloc, fails.outbox);
    let mut console = MemConsole::new(alloc, fails.console);
    let status = status(alloc, &words, &mut folder, &mut outbox, &mut console);
    let mut differences = Differences::new(alloc);
    differences.number("status", wanted, u64::from(status))?;
    differences.bytes("console", &bytes, console.bytes())?;
    differences.files("staged", &staged.files, outbox.staged())?;
    compare_published(&published, outbox.published(), &mut differences)?;
    compare_calls(calls, &folder, &outbox, &console, &mut differences)?;
    Ok(differences.text())
}

// The status of a call. Nothing of the contract of `mitos` is passed on.
fn status(
    alloc: Global,
    words: &[String],
    folder: &mut MemFolder,
    outbox: &mut MemOutbox,
    console: &mut MemConsole,
) -> u8 {
    mitos(alloc, words, folder, outbox, console)
}

fn compare_published(
    wanted: &Wanted,
    found: Option<&Files>,
    differences: &mut Differences,
) -> Result<(), AllocError> {
    match (wanted.kind, found) {
        (Kind::Never, None) => Ok(()),
        (Kind::Never, Some(_)) => differences.say(
            "nothing published was wanted, but files are published",
        ),
        (_, Some(found)) => differences.files("published", &wanted.files, found),
        (_, None) => differences.say("published files were wanted, but nothing is published"),
    }
}

fn compare_calls(
    wanted: Calls,
    folder: &MemFolder,
    outbox: &MemOutbox,
    console: &MemConsole,
    differences: &mut Differences,
) -> Result<(), AllocError> {
    differences.calls("calls of the folder", wanted.folder, folder.calls())?;
    differences.calls("calls of the outbox", wanted.outbox, outbox.calls())?;
    differences.calls("calls of the console", wanted.console, console.calls())
}
