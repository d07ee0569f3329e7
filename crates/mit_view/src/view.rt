ghost use Rattle.std.specs.Prelude.{◌≡◌, ◌<◌, ◌≤◌, [], ◌∷◌, ◌++◌, length, slice_index, suc, IfOk, OnErr, OnOk};
ghost use Rattle.mit_path.specs.Choice.{chosen_operand};
ghost use Rattle.mit_path.specs.Fate.{fate};
ghost use Rattle.mit_path.specs.Views.{first_place_from};
ghost use Rattle.mit_view.specs.Walks.{earlier, last_place, later};

use crate::decided::decided;
use crate::places::Places;
use mit_path::Fate;
use std::alloc::{AllocError, Global};
use std::marker::Model;

/// A path as far as it is known: a growing list of blocks.
#[derive(Drop)]
pub struct View {
    path: Vec<u32>,
    // for each block its places on the path
    places: Vec<Places>,
}

impl Model for View {
    ghost use Rattle.std.specs.Prelude.{length};
    ghost use Rattle.mit_view.specs.Kept.{KeepsPlaces};
    ghost use Rattle.mit_path.specs.Views.{Seen};

    ghost Value = { Seen };

    ghost view = { λ view. record { path = view.path.items; blocks = length view.places.items } };

    ghost invariant = { λ view. KeepsPlaces view.path.items view.places.items };
}

impl View {
    /// An empty path over so many blocks.
    pub fn new(alloc: Global, blocks: u32) -> Result<View, AllocError>
        ensures empty { IfOk result (λ view. view.path ≡ []) }
        ensures blocks { IfOk result (λ view. view.blocks ≡ blocks) }
    {
        let mut places = Vec::with_capacity(alloc, blocks as usize)?;
        for _ in 0..blocks {
            places.push(Places::new(alloc))?;
        }
        Ok(View {
            path: Vec::new(alloc),
            places,
        })
    }

    /// The path goes on with this block.
    pub fn learn(&mut self, block: u32) -> Result<(), AllocError>
        requires { block < self.old.blocks }
        ensures learned { OnOk result (self.new.path ≡ self.old.path ++ block ∷ []) }
        ensures blocks { self.new.blocks ≡ self.old.blocks }
        ensures unchanged { OnErr result (self.new ≡ self.old) }
    {
        let place = self.path.len() as u64;
        self.path.push(block)?;
        let places = &mut self.places[block as usize];
        let added = places.add(place);
        if added.is_err() {
            self.path.pop();
        }
        added
    }

    /// How many places the path has so far.
    pub fn len(&self) -> u64
        ensures { result ≡ length self.now.path }
    {
        self.path.len() as u64
    }

    /// The block at this place.
    pub fn block_at(&self, place: u64) -> u32
        requires { place < length self.now.path }
        ensures { result ≡ slice_index self.now.path place }
    {
        self.path[place as usize]
    }

    /// Which bag an operator of these operands takes at a place: the number of the operand and the place of its bag.
    ///
    /// The operands are the source's block of an input, or of all edges of a phi in their order.
    pub fn choose(&self, operands: &[u32], at: u64, phi: bool) -> Option<(u16, u64)>
        requires place { at < length self.now.path }
        requires few { length operands.now ≤ 65536 }
        ensures { result ≡ chosen_operand self.now.path operands.now at phi }
    {
        let bound = if phi { at } else { self.after(at) };
        let mut best = None;
        for (number, operand) in operands.iter().enumerate() {
            best = later_of(best, number as u16, self.last_below(*operand, bound));
        }
        best
    }

    /// What becomes of a bag that was made at a place of its source's block, on an edge to the target's block.
    ///
    /// `siblings` are the blocks of the other operands where the edge is a phi's, and `complete` says that the path is.
    pub fn fate(
        &self,
        source: u32,
        place: u64,
        target: u32,
        siblings: &[u32],
        phi: bool,
        complete: bool,
    ) -> Fate
        requires { place < length self.now.path }
        ensures { result ≡ fate self.now.path source place target siblings.now phi complete }
    {
        if !phi && source == target {
            return Fate::Send;
        }
        let from = self.after(place);
        let sent = self.next_of(target, from);
        let mut dropped = self.next_of(source, from);
        for sibling in siblings {
            dropped = earlier_of(dropped, self.next_of(*sibling, from));
        }
        decided(sent, dropped, complete)
    }

    /// The first place of the block at or after `from`, where the path has one.
    pub fn next_of(&self, block: u32, from: u64) -> Option<u64>
        ensures { result ≡ first_place_from self.now.path block from }
    {
        let places = self.places.get(block as usize)?;
        places.first_from(from)
    }

    // The place after this one.
    fn after(&self, place: u64) -> u64
        requires { place < length self.now.path }
        ensures { result ≡ suc place }
    {
        // a use of the field, which tells the proof that there is such a number
        let _ = &self.path;
        place + 1
    }

    // The last place of the block below this one.
    fn last_below(&self, block: u32, bound: u64) -> Option<u64>
        requires { bound ≤ length self.now.path }
        ensures { result ≡ last_place self.now.path block bound }
    {
        let places = self.places.get(block as usize)?;
        places.last_below(bound)
    }
}

// The later of a choice and a place of the operand with this number.
fn later_of(best: Option<(u16, u64)>, number: u16, place: Option<u64>) -> Option<(u16, u64)>
    ensures { result ≡ later best number place }
{
    match (best, place) {
        (None, Some(place)) => Some((number, place)),
        (Some((_, before)), Some(place)) if before < place => Some((number, place)),
        _ => best,
    }
}

// The earlier of two places.
fn earlier_of(place: Option<u64>, other: Option<u64>) -> Option<u64>
    ensures { result ≡ earlier place other }
{
    match (place, other) {
        (Some(first), Some(second)) if second < first => other,
        (None, _) => other,
        _ => place,
    }
}
