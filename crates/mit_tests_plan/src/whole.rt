//! An operator over whole bags, by itself.
use mit_ops::{ColTypes, OpSpec};
use mit_step::whole_bag;

#[test]
fn an_empty_bag_has_no_rows(rt: HostRuntime) {
    let types = ColTypes::from_vec(Vec::new(rt.alloc()));
    let bag = whole_bag(rt.alloc(), &OpSpec::Empty { types }, &[], &[]).expect(&rt, "a bag");
    assert_eq!(&rt; bag.rows().len(), 0);
}
