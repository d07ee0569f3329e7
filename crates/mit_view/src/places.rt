ghost use Rattle.std.specs.Prelude.{◌≡◌, ◌<◌, ◌≤◌, ℕ, [], ◌∷◌, ◌++◌, length, slice_index, OnOk, OnErr};
ghost use Rattle.mit_view.specs.Kept.{IsFirstFrom, IsLastBelow};

use std::alloc::{AllocError, Global};
use std::marker::Model;

/// The places of one block, in rising order.
#[derive(Drop)]
pub(crate) struct Places {
    rising: Vec<u64>,
}

impl Model for Places {
    ghost use Rattle.std.specs.Prelude.{ℕ, List};
    ghost use Rattle.std.specs.List.Sorted.{IsNonDecreasing};

    ghost Value = { List ℕ };

    ghost view = { λ places. places.rising.items };

    ghost invariant = { λ places. IsNonDecreasing places.rising.items };
}

impl Places {
    pub(crate) fn new(alloc: Global) -> Places
        ensures { result ≡ [] }
    {
        Places {
            rising: Vec::new(alloc),
        }
    }

    /// Adds a place after all others.
    pub(crate) fn add(&mut self, place: u64) -> Result<(), AllocError>
        requires { (k : ℕ) → k < length self.old → slice_index self.old k < place }
        ensures ok { OnOk result (self.new ≡ self.old ++ place ∷ []) }
        ensures err { OnErr result (self.new ≡ self.old) }
    {
        self.rising.push(place)?;
        Ok(())
    }

    // How many of the places are below this one.
    fn count_below(&self, bound: u64) -> usize
        ensures within { result ≤ length self.now }
        ensures below { (k : ℕ) → k < result → slice_index self.now k < bound }
        ensures above { (k : ℕ) → result ≤ k → k < length self.now → bound ≤ slice_index self.now k }
    {
        self.rising.partition_point(|place| *place < bound)
    }

    /// The last place below this one.
    pub(crate) fn last_below(&self, bound: u64) -> Option<u64>
        ensures { IsLastBelow self.now bound result }
    {
        match self.count_below(bound) {
            0 => None,
            count => Some(self.rising[count - 1]),
        }
    }

    /// The first place at or after this one.
    pub(crate) fn first_from(&self, from: u64) -> Option<u64>
        ensures { IsFirstFrom self.now from result }
    {
        self.rising.get(self.count_below(from)).copied()
    }
}
