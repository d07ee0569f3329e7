//! Slots of a kernel, which are fed rows of lists that fit their operator.
ghost use Rattle.std.specs.Prelude.{◌≡◌, ◌<◌, ◌+◌, length, map, slice_index_or, []};
ghost use Rattle.std.specs.List.{Contains};
ghost use Rattle.mit_ops.specs.Kinds.{bag_inputs_of, captures_of};
ghost use Rattle.mit_ops.specs.Parts.{Fits};
ghost use Rattle.mit_tests_kernels.specs.Held.{HeldSlot, Keeps};

use crate::given::described;
use mit_kernel::{Kernel, kit};
use mit_op_laws::laws::fewer_rows_law;
use mit_ops::OpSpec;
use mit_rows::Row;
use std::alloc::AllocError;
use std::process::Abort;

pub(crate) fn kind(kernel: &Box<dyn Kernel>) -> u8
    ensures { result ≡ (meaning kernel.now).kind }
{
    kernel.kind()
}

pub(crate) fn fed(kernel: &Box<dyn Kernel>) -> u64
    ensures { result ≡ (meaning kernel.now).fed }
{
    kernel.fed()
}

/// Begins a slot in the partition `part` of 2.
pub(crate) fn begin(
    rt: &(impl Abort + AllocGlobal),
    kernel: &mut Box<dyn Kernel>,
    spec: &OpSpec,
    part: u16,
    lists: &[Vec<Row>],
) -> u64
    requires fits { Fits spec.now (map (λ rows. rows.items) lists.now) }
    requires count { length lists.now ≡ bag_inputs_of spec.now + captures_of spec.now }
    ensures held { HeldSlot (meaning kernel.new) result (map (λ rows. rows.items) lists.now) }
    ensures keeps { Keeps (meaning kernel.old) (meaning kernel.new) (map (λ rows. rows.items) lists.now) }
{
    fewer_rows_law();
    assert!(rt; part < 2);
    assert!(rt; kind(kernel) == spec.kind());
    let Ok(slot) = kit::begin(kernel, spec, part, 2) else {
        panic!(rt; "memory");
    };
    slot
}

fn feed_row(
    rt: &(impl Abort + AllocGlobal),
    kernel: &mut Box<dyn Kernel>,
    slot: u64,
    input: u16,
    row: &Row,
    lists: &[Vec<Row>],
)
    requires held { HeldSlot (meaning kernel.old) slot (map (λ rows. rows.items) lists.now) }
    requires within { input < length lists.now }
    requires row { Contains (slice_index_or (map (λ rows. rows.items) lists.now) input []) row.now }
    ensures { Keeps (meaning kernel.old) (meaning kernel.new) (map (λ rows. rows.items) lists.now) }
{
    fewer_rows_law();
    let Ok(()) = kit::feed(kernel, slot, input, row) else {
        panic!(rt; "memory");
    };
}

/// Feeds a slot the row that has this number in the list of an input.
pub(crate) fn feed_one(
    rt: &(impl Abort + AllocGlobal),
    kernel: &mut Box<dyn Kernel>,
    slot: u64,
    input: u16,
    number: usize,
    lists: &[Vec<Row>],
)
    requires { HeldSlot (meaning kernel.old) slot (map (λ rows. rows.items) lists.now) }
    ensures { Keeps (meaning kernel.old) (meaning kernel.new) (map (λ rows. rows.items) lists.now) }
{
    assert!(rt; usize::from(input) < lists.len());
    let rows = &lists[usize::from(input)];
    assert!(rt; number < rows.len());
    feed_row(rt, kernel, slot, input, &rows[number], lists);
}

fn feed_list(
    rt: &(impl Abort + AllocGlobal),
    kernel: &mut Box<dyn Kernel>,
    slot: u64,
    input: u16,
    lists: &[Vec<Row>],
)
    requires held { HeldSlot (meaning kernel.old) slot (map (λ rows. rows.items) lists.now) }
    requires within { input < length lists.now }
    ensures { Keeps (meaning kernel.old) (meaning kernel.new) (map (λ rows. rows.items) lists.now) }
{
    for row in &lists[usize::from(input)] {
        feed_row(rt, kernel, slot, input, row, lists);
    }
}

/// Feeds a slot all rows of these lists.
pub(crate) fn feed_lists(
    rt: &(impl Abort + AllocGlobal),
    kernel: &mut Box<dyn Kernel>,
    slot: u64,
    lists: &[Vec<Row>],
)
    requires { HeldSlot (meaning kernel.old) slot (map (λ rows. rows.items) lists.now) }
    ensures { Keeps (meaning kernel.old) (meaning kernel.new) (map (λ rows. rows.items) lists.now) }
{
    assert!(rt; lists.len() < 65_536);
    for input in 0..lists.len() {
        feed_list(rt, kernel, slot, input as u16, lists);
    }
}

/// How the part of a slot ends, in words.
pub(crate) fn finish(
    rt: &(impl Abort + AllocGlobal),
    kernel: &mut Box<dyn Kernel>,
    slot: u64,
    lists: &[Vec<Row>],
) -> Result<String, AllocError>
    requires { HeldSlot (meaning kernel.old) slot (map (λ rows. rows.items) lists.now) }
    ensures { Keeps (meaning kernel.old) (meaning kernel.new) (map (λ rows. rows.items) lists.now) }
{
    let mut out = Vec::new(rt.alloc());
    let end = kit::finish(kernel, slot, &mut out)?;
    Ok(described(rt, &end, out))
}

/// Empties those lists of a slot that are not to be kept.
pub(crate) fn renew(
    rt: &(impl Abort + AllocGlobal),
    kernel: &mut Box<dyn Kernel>,
    slot: u64,
    keep: &[bool],
    lists: &[Vec<Row>],
)
    requires { HeldSlot (meaning kernel.old) slot (map (λ rows. rows.items) lists.now) }
    ensures { Keeps (meaning kernel.old) (meaning kernel.new) (map (λ rows. rows.items) lists.now) }
{
    assert!(rt; keep.len() == lists.len());
    kit::renew(kernel, slot, keep);
}

pub(crate) fn close(kernel: &mut Box<dyn Kernel>, slot: u64, lists: &[Vec<Row>])
    requires { HeldSlot (meaning kernel.old) slot (map (λ rows. rows.items) lists.now) }
{
    kit::close(kernel, slot);
}
