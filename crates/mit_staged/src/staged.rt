//! The writes of a run until they are its files.
ghost use Rattle.std.specs.Prelude.{◌≡◌, [], IfOk, OnErr, OnOk};
ghost use Rattle.mit_files.specs.Printed.{published};
ghost use Rattle.mit_staged.specs.Staged.{IsFree, is_below, with_put, writes_put};
ghost use Rattle.mit_staged.specs.StoredPuts.{IsFirstAbove, RisesBy};

use mit_bags::Bag;
use mit_shelf::print_rows;
use mit_world::Files;
use std::alloc::{AllocError, Global};
use std::marker::Model;

/// What a run wrote so far. In whatever order the writes are put, those of a name count by their places in the run.
#[derive(Drop)]
pub struct Staged {
    alloc: Global,
    // rising by place and index
    puts: Vec<Put>,
}

#[derive(Drop)]
struct Put {
    place: u64,
    index: u32,
    name: String,
    bag: Bag,
}

impl Model for Staged {
    ghost use Rattle.std.specs.Prelude.{List, map};
    ghost use Rattle.mit_staged.specs.Staged.{Put as OnePut};
    ghost use Rattle.mit_staged.specs.StoredPuts.{RisesBy, put_of};

    ghost Value = { List OnePut };

    ghost view = { λ staged. map put_of staged.puts.items };

    ghost invariant = { λ staged. RisesBy staged.puts.items };
}

impl Staged {
    /// Nothing is written.
    pub fn new(alloc: Global) -> Staged
        ensures { result ≡ [] }
    {
        Staged {
            alloc,
            puts: Vec::new(alloc),
        }
    }

    /// Puts a write of this bag under this name: at this place of the run, and of this index among the place's writes.
    pub fn put(&mut self, place: u64, index: u32, name: &str, bag: &Bag) -> Result<(), AllocError>
        requires { IsFree self.old (place, index) }
        ensures ok { OnOk result (self.new ≡ with_put ((place, index), (name.now, bag.now)) self.old) }
        ensures err { OnErr result (self.new ≡ self.old) }
    {
        let name = String::from_str(self.alloc, name)?;
        let bag = bag.copy(self.alloc)?;
        let put = Put {
            place,
            index,
            name,
            bag,
        };
        let above = first_above(&self.puts, place, index);
        Ok(self.puts.insert(above, put)?)
    }

    /// The files of the run: each name with the text of the bag that was written last under it.
    pub fn finish(&self) -> Result<Files, AllocError>
        ensures { IfOk result (λ files. files ≡ published (writes_put self.now)) }
    {
        let mut files = Files::new(self.alloc);
        for put in &self.puts {
            let text = print_rows(self.alloc, &put.bag)?;
            files.put_owned(put.name.as_str(), text)?;
        }
        Ok(files)
    }
}

// Where the first put above this pair stands, or how many puts there are. The search begins at the end, since most puts
// come in rising order.
fn first_above(puts: &[Put], place: u64, index: u32) -> usize
    requires { RisesBy puts.now }
    ensures { IsFirstAbove puts.now (place, index) result }
{
    let mut at = puts.len();
    while at > 0 && puts[at - 1].is_above(place, index) {
        at -= 1;
    }
    at
}

impl Put {
    // Whether it stands above this pair.
    fn is_above(&self, place: u64, index: u32) -> bool
        ensures { result ≡ is_below (place, index) (self.now.place, self.now.index) }
    {
        place < self.place || (place == self.place && index < self.index)
    }
}
