//! Names that are kept, and staged bags.
ghost use Rattle.std.specs.Prelude.{◌≡◌, []};
ghost use Rattle.mit_staged.specs.Staged.{IsFree, with_put};

use crate::given::name_of;
use mit_bags::Bag;
use mit_rows::{Row, Value};
use mit_staged::Staged;
use std::process::Abort;

#[test]
fn a_copied_name_keeps_its_text(rt: HostRuntime) {
    let name = name_of(&rt, "in.csv").copy().expect(&rt, "memory");
    assert!(rt; name.as_str() == "in.csv");
    assert!(rt; name.bytes() == b"in.csv".as_slice());
}

/// A bag of one integer.
fn bag_of(rt: &(impl Abort + AllocGlobal), number: i64) -> Bag {
    let mut rows = Vec::new(rt.alloc());
    rows.push(Row::from_value(Value::Int(number)))
        .expect(rt, "memory");
    Bag::from_rows(rows).expect(rt, "memory")
}

fn put(rt: &impl Abort, staged: &mut Staged, place: u64, index: u32, name: &str, bag: &Bag)
    requires { IsFree staged.old (place, index) }
    ensures { staged.new ≡ with_put ((place, index), (name.now, bag.now)) staged.old }
{
    staged.put(place, index, name, bag).expect(rt, "memory");
}

/// Puts the bags under one name, the last one first, and another one between.
#[tactic(auto, unfolding(mit_staged::specs::Staged::with_put))]
fn put_falling(rt: &impl Abort, staged: &mut Staged, first: &Bag, last: &Bag)
    requires { staged.old ≡ [] }
{
    put(rt, staged, 7, 1, "a", last);
    put(rt, staged, 3, 0, "b", first);
    put(rt, staged, 7, 0, "a", first);
    put(rt, staged, 3, 9, "a", first);
}

#[test]
fn the_greatest_place_of_a_name_counts(rt: HostRuntime) {
    let mut staged = Staged::new(rt.alloc());
    put_falling(&rt, &mut staged, &bag_of(&rt, 1), &bag_of(&rt, 2));
    let files = staged.finish().expect(&rt, "memory");
    assert!(rt; files.get("a") == Some(b"2\n".as_slice()));
    assert!(rt; files.get("b") == Some(b"1\n".as_slice()));
    assert!(rt; files.len() == 2);
}
