//! Two joins, each in a slot of one kernel.
ghost use Rattle.std.specs.Prelude.{map};
ghost use Rattle.mit_tests_kernels.specs.Held.{HeldSlot, Keeps};

use crate::given::{expect_fits, lists_of, spec_of};
use crate::slots::{begin, fed, feed_one, finish, renew};
use mit_k_join::JoinKernel;
use mit_kernel::Kernel;
use mit_rows::Row;
use std::process::Abort;
use std::test::Fail;

/// Feeds the first join two rows and their match, and the second one a row without a match.
fn feed_both(
    rt: &(impl Abort + AllocGlobal),
    kernel: &mut Box<dyn Kernel>,
    a: u64,
    b: u64,
    lists: &[Vec<Row>],
)
    requires a { HeldSlot (meaning kernel.old) a (map (λ rows. rows.items) lists.now) }
    requires b { HeldSlot (meaning kernel.old) b (map (λ rows. rows.items) lists.now) }
    ensures { Keeps (meaning kernel.old) (meaning kernel.new) (map (λ rows. rows.items) lists.now) }
{
    feed_one(rt, kernel, a, 0, 0, lists);
    feed_one(rt, kernel, a, 0, 1, lists);
    feed_one(rt, kernel, a, 1, 0, lists);
    feed_one(rt, kernel, b, 0, 2, lists);
}

/// Feeds the first join another match, twice, in place of the one that it had.
fn feed_again(
    rt: &(impl Abort + AllocGlobal),
    kernel: &mut Box<dyn Kernel>,
    a: u64,
    lists: &[Vec<Row>],
)
    requires { HeldSlot (meaning kernel.old) a (map (λ rows. rows.items) lists.now) }
    ensures { Keeps (meaning kernel.old) (meaning kernel.new) (map (λ rows. rows.items) lists.now) }
{
    renew(rt, kernel, a, &[true, false], lists);
    feed_one(rt, kernel, a, 1, 0, lists);
    feed_one(rt, kernel, a, 1, 0, lists);
}

fn expect(
    rt: &(impl Abort + AllocGlobal),
    kernel: &mut Box<dyn Kernel>,
    slot: u64,
    lists: &[Vec<Row>],
    due: &str,
)
    requires { HeldSlot (meaning kernel.old) slot (map (λ rows. rows.items) lists.now) }
    ensures { Keeps (meaning kernel.old) (meaning kernel.new) (map (λ rows. rows.items) lists.now) }
{
    assert_eq!(rt;
        finish(rt, kernel, slot, lists)
            .expect(rt, "memory")
            .as_str(),
        due
    );
}

fn expect_two_joins(rt: &(impl Abort + AllocGlobal), kernel: &mut Box<dyn Kernel>) {
    let spec = spec_of(rt, "join");
    let lists = lists_of(rt, "1,2 1,3 1,9;1");
    let lists = lists.as_slice();
    expect_fits(rt, &spec, lists);
    let a = begin(rt, kernel, &spec, 0, lists);
    let b = begin(rt, kernel, &spec, 0, lists);
    feed_both(rt, kernel, a, b, lists);
    expect(rt, kernel, a, lists, "1,2,1, 1,3,1, ");
    assert_eq!(rt; fed(kernel), 4);
    feed_again(rt, kernel, a, lists);
    expect(rt, kernel, a, lists, "1,2,1, 1,2,1, 1,3,1, 1,3,1, ");
    expect(rt, kernel, b, lists, "");
    assert_eq!(rt; fed(kernel), 6);
}

#[test]
fn a_slot_keeps_its_own_rows(rt: HostRuntime) -> Result<(), Fail> {
    let alloc = rt.alloc();
    let mut kernel: Box<dyn Kernel> = Box::new(alloc, JoinKernel::new(alloc)?)?;
    expect_two_joins(&rt, &mut kernel);
    Ok(())
}
