//! The bags of a script's variables.
ghost use Rattle.std.specs.Prelude.{◌≡◌, ◌<◌, [], get_or, length, replicate, set, IfOk};

use crate::loose::Loose;
use std::alloc::{AllocError, Global};
use std::marker::Model;
use std::rc::Rc;

/// The bag of each variable, which contracts see as their list. Variables share a bag where one is a copy of the other.
#[derive(Drop)]
pub(crate) struct Store {
    bags: Vec<Rc<Loose>>,
}

impl Model for Store {
    ghost use Rattle.std.specs.Prelude.{List, map};
    ghost use Rattle.mit_rows.specs.Bags.{BagOf};

    ghost Value = { List BagOf };

    ghost view = { λ store. map (λ bag. bag.value) store.bags.items };
}

impl Store {
    /// So many variables, each with the empty bag.
    pub(crate) fn new(alloc: Global, count: usize) -> Result<Store, AllocError>
        ensures { IfOk result (λ store. store ≡ replicate count []) }
    {
        let empty = shared(alloc, Loose::from_rows(Vec::new(alloc)))?;
        let mut bags = Vec::with_capacity(alloc, count)?;
        for _ in 0..count {
            bags.push(empty.clone()?)?;
        }
        Ok(Store { bags })
    }

    /// The bag of a variable.
    pub(crate) fn get(&self, variable: u32) -> &Rc<Loose>
        requires { variable < length self.now }
        ensures { result.now.value ≡ get_or self.now variable [] }
    {
        &self.bags[variable as usize]
    }

    /// Gives a variable this bag.
    pub(crate) fn put(&mut self, variable: u32, bag: Rc<Loose>)
        requires { variable < length self.old }
        ensures { self.new ≡ set self.old variable bag.value }
    {
        self.bags[variable as usize] = bag;
    }
}

/// A bag that may be shared.
pub(crate) fn shared(alloc: Global, bag: Loose) -> Result<Rc<Loose>, AllocError>
    ensures { IfOk result (λ kept. kept.value ≡ bag) }
{
    match Rc::new(alloc, bag) {
        Ok(kept) => Ok(kept),
        Err(_) => Err(AllocError),
    }
}
