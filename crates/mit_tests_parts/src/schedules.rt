//! Schedules that take always the first, the last or the middle entry of an offer.
ghost use Rattle.std.specs.Prelude.{◌<◌};

use mit_engine::{Pick, Schedule};
use std::alloc::{AllocError, Global};
use std::marker::Model;

/// A schedule that takes this entry of each offer. Its pick of the number `fails`, from 1, finds no memory.
#[derive(Drop)]
pub(crate) struct Steady {
    entry: Entry,
    fails: usize,
    log: Vec<Pick>,
}

#[derive(Clone, Copy)]
pub(crate) enum Entry {
    First,
    Last,
    Middle,
}

impl Entry {
    /// Its place in an offer of so many.
    fn place(self, offered: u64) -> u64
        requires { 0 < offered }
        ensures { result < offered }
    {
        match self {
            Entry::First => 0,
            Entry::Last => offered - 1,
            Entry::Middle => offered / 2,
        }
    }
}

impl Steady {
    pub(crate) fn new(alloc: Global, entry: Entry, fails: usize) -> Steady {
        Steady {
            entry,
            fails,
            log: Vec::new(alloc),
        }
    }
}

impl Model for Steady {
    ghost use Rattle.std.specs.Prelude.{List};
    ghost use Rattle.mit_engine.specs.declared.schedule.Pick.{Pick};

    ghost Value = { List Pick };

    ghost view = { λ s. s.log.items };
}

impl Schedule for Steady {
    ghost log = { λ s. s };

    fn pick(&mut self, offered: u64) -> Result<u64, AllocError> {
        self.log.reserve(1)?;
        if self.log.len() + 1 == self.fails {
            return Err(AllocError);
        }
        let chosen = self.entry.place(offered);
        self.log.push_reserved(Pick { offered, chosen });
        Ok(chosen)
    }
}
