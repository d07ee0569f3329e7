//! What decides which action of a job comes next, and the log of its picks.
ghost use Rattle.std.specs.Prelude.{◌≡◌, ◌<◌, ◌≤◌, ◌++◌, ◌∷◌, [], ◌^◌, List, IfOk, OnErr, length};
ghost use Rattle.mit_engine.specs.Picks.{after_pick, chosen_of, seeded};
ghost use Rattle.mit_engine.specs.declared.schedule.Pick.{Pick};

use rand_core::SeedableRng;
use rand_core::utils::NextWord;
use rand_pcg::Lcg64Xsh32;
use std::alloc::{AllocError, Global};
use std::marker::Model;

/// One pick of a schedule.
#[derive(Clone, Copy, Debug, PartialEq, Eq)]
pub struct Pick {
    /// How many actions were on offer.
    pub offered: u64,
    /// The place of the one that was taken, counted from 0.
    pub chosen: u64,
}

/// What decides which of the actions on offer comes next.
pub trait Schedule {
    /// The picks so far.
    ghost log: { Self → List Pick };

    /// The place, below `offered`, of the action that comes next. It is added to the log. Where memory runs out nothing
    /// changes; a log of 9,223,372,036,854,775,807 picks takes no more.
    fn pick(&mut self, offered: u64) -> Result<u64, AllocError>
        requires { 0 < offered }
        ensures below { IfOk result (λ chosen. chosen < offered) }
        ensures logged { IfOk result (λ chosen.
            log self.new ≡ log self.old ++ record { offered = offered; chosen = chosen } ∷ []) }
        ensures unchanged { OnErr result (self.new ≡ self.old) };
}

/// A schedule that takes the words of a seeded generator, each modulo the number of actions on offer.
#[derive(Drop)]
pub struct Seeded {
    source: Lcg64Xsh32,
    log: Vec<Pick>,
}

impl Model for Seeded {
    ghost use Rattle.mit_engine.specs.Picks.{SeededState};

    ghost Value = { SeededState };

    ghost view = { λ s. record { source = s.source; log = s.log.items } };
}

impl Seeded {
    /// The schedule of this seed, with no pick so far.
    pub fn new(alloc: Global, seed: u64) -> Seeded
        ensures { result ≡ seeded seed }
    {
        Seeded {
            source: Lcg64Xsh32::seed_from_u64(seed),
            log: Vec::new(alloc),
        }
    }

    /// The picks so far.
    pub fn log(&self) -> &[Pick]
        ensures { result.now ≡ self.now.log }
    {
        &self.log
    }
}

impl Schedule for Seeded {
    ghost log = { λ s. s.log };

    fn pick(&mut self, offered: u64) -> Result<u64, AllocError>
        requires { 0 < offered }
        ensures below { IfOk result (λ chosen. chosen < offered) }
        ensures logged { IfOk result (λ chosen.
            self.new.log ≡ self.old.log ++ record { offered = offered; chosen = chosen } ∷ []) }
        ensures unchanged { OnErr result (self.new ≡ self.old) }
        ensures word { IfOk result (λ chosen.
            (chosen ≡ chosen_of self.old offered) × (self.new ≡ after_pick self.old offered)) }
    {
        self.log.reserve(1)?;
        let chosen = u64::from(self.source.next_word()) % offered;
        self.log.push_reserved(Pick { offered, chosen });
        Ok(chosen)
    }
}
