//! Views, choice and fate, with values from outside.
ghost use Rattle.std.specs.Prelude.{◌≡◌};

use mit_path::{Fate, laws};
use mit_view::View;
use std::process::Abort;

const BLOCKS: u32 = 8;

fn learn(rt: &impl Abort, view: &mut View, block: u32)
    requires { view.old.blocks ≡ BLOCKS }
    ensures { view.new.blocks ≡ BLOCKS }
{
    assert!(rt; block < BLOCKS);
    view.learn(block).expect(rt, "memory");
}

/// The view of these blocks.
fn view_of(rt: &(impl Abort + AllocGlobal), path: &[u32]) -> View {
    let mut view = View::new(rt.alloc(), BLOCKS).expect(rt, "memory");
    for block in path {
        learn(rt, &mut view, *block);
    }
    view
}

const SHORT: [u32; 5] = [0, 1, 2, 1, 3];

/// A loop whose body is block 3 or block 4, and what comes after it.
const LONG: [u32; 9] = [0, 1, 3, 1, 4, 1, 3, 1, 2];

fn block_at(view: &View, place: u64) -> Option<u32> {
    if place < view.len() {
        Some(view.block_at(place))
    } else {
        None
    }
}

#[test]
fn a_view_is_the_list_of_its_blocks(rt: HostRuntime) {
    let view = view_of(&rt, &SHORT);
    for (place, block) in SHORT.iter().enumerate() {
        assert!(rt; block_at(&view, place as u64) == Some(*block));
    }
    assert!(rt; view.len() == 5);
}

/// The number of the chosen operand and the place of its bag.
type Choice = Option<(u16, u64)>;

/// The operands, the place, whether a phi or an input asks, and the answer.
const SHORT_CHOICES: [(&[u32], u64, bool, Choice); 4] = [
    (&[0, 2], 0, true, None),
    (&[0, 2], 1, true, Some((0, 0))),
    (&[0, 2], 3, true, Some((1, 2))),
    (&[0], 4, false, Some((0, 0))),
];

const LONG_CHOICES: [(&[u32], u64, bool, Choice); 16] = [
    (&[0, 3, 4], 0, true, None),
    (&[0, 3, 4], 1, true, Some((0, 0))),
    (&[0, 3, 4], 3, true, Some((1, 2))),
    (&[0, 3, 4], 5, true, Some((2, 4))),
    (&[0, 3, 4], 7, true, Some((1, 6))),
    (&[0, 3, 4], 8, true, Some((1, 6))),
    (&[4, 0, 3], 1, true, Some((1, 0))),
    (&[4, 0, 3], 5, true, Some((0, 4))),
    (&[4, 0, 3], 7, true, Some((2, 6))),
    (&[3], 2, false, Some((0, 2))),
    (&[3], 3, false, Some((0, 2))),
    (&[3], 6, false, Some((0, 6))),
    (&[1], 6, false, Some((0, 5))),
    (&[4], 3, false, None),
    (&[7], 8, false, None),
    (&[99], 8, false, None),
];

fn chooses(view: &View, operands: &[u32], at: u64, phi: bool, due: Choice) -> bool {
    at < view.len() && operands.len() <= 65536 && view.choose(operands, at, phi) == due
}

fn expect_choices(rt: &impl Abort, view: &View, rows: &[(&[u32], u64, bool, Choice)]) {
    for (operands, at, phi, due) in rows {
        assert!(rt;
            chooses(view, operands, *at, *phi, *due),
            "{operands:?} {at}"
        );
    }
}

#[test]
fn the_last_place_is_chosen(rt: HostRuntime) {
    expect_choices(&rt, &view_of(&rt, &SHORT), &SHORT_CHOICES);
    expect_choices(&rt, &view_of(&rt, &LONG), &LONG_CHOICES);
}

/// The source, the place and the target, the siblings, whether the edge is a phi's, whether the path is complete, and the fate.
type FateRow = ((u32, u64, u32), &'static [u32], bool, bool, Fate);

const SHORT_FATES: [FateRow; 4] = [
    ((2, 2, 1), &[0], true, false, Fate::Send),
    ((1, 1, 3), &[], false, false, Fate::Drop),
    ((3, 4, 1), &[], false, false, Fate::Undecided),
    ((3, 4, 1), &[], false, true, Fate::Drop),
];

// Block 2 has a phi of the blocks 0, 3 and 4, as block 1 has.
const LONG_FATES: [FateRow; 18] = [
    ((0, 0, 1), &[3, 4], true, false, Fate::Send),
    ((3, 2, 1), &[0, 4], true, false, Fate::Send),
    ((3, 6, 1), &[0, 4], true, false, Fate::Send),
    ((0, 0, 2), &[3, 4], true, false, Fate::Drop),
    ((3, 2, 2), &[0, 4], true, false, Fate::Drop),
    ((4, 4, 2), &[0, 3], true, false, Fate::Drop),
    ((3, 6, 2), &[0, 4], true, false, Fate::Send),
    ((3, 6, 5), &[0, 4], true, false, Fate::Undecided),
    ((3, 6, 5), &[0, 4], true, true, Fate::Drop),
    ((1, 1, 2), &[], false, false, Fate::Drop),
    ((1, 7, 2), &[], false, false, Fate::Send),
    ((0, 0, 2), &[], false, false, Fate::Send),
    ((0, 0, 5), &[], false, false, Fate::Undecided),
    ((2, 8, 1), &[], false, false, Fate::Undecided),
    ((2, 8, 1), &[], false, true, Fate::Drop),
    ((2, 8, 2), &[], false, false, Fate::Send),
    ((2, 8, 2), &[], false, true, Fate::Send),
    ((1, 1, 1), &[], false, false, Fate::Send),
];

fn decides(view: &View, row: &FateRow) -> bool {
    let ((source, place, target), siblings, phi, complete, due) = *row;
    place < view.len() && view.fate(source, place, target, siblings, phi, complete) == due
}

fn expect_fates(rt: &impl Abort, view: &View, rows: &[FateRow]) {
    for row in rows {
        assert!(rt; decides(view, row), "{row:?}");
    }
}

#[test]
fn a_fate_is_decided_by_what_comes_first(rt: HostRuntime) {
    expect_fates(&rt, &view_of(&rt, &SHORT), &SHORT_FATES);
    expect_fates(&rt, &view_of(&rt, &LONG), &LONG_FATES);
}

/// Blocks and places, and the next place of the block from there.
const NEXT: [(u32, u64, Option<u64>); 8] = [
    (1, 2, Some(3)),
    (2, 3, None),
    (0, 0, Some(0)),
    (3, 4, Some(4)),
    (3, 5, None),
    (1, 4, None),
    (7, 0, None),
    (99, 0, None),
];

#[test]
fn the_next_place_is_at_or_after(rt: HostRuntime) {
    let view = view_of(&rt, &SHORT);
    for (block, from, due) in NEXT {
        assert!(rt; view.next_of(block, from) == due, "{block} {from}");
    }
}

#[test]
fn the_laws_can_be_called() {
    laws::longer_view_law();
    laws::undecided_fate_law();
    laws::last_place_law();
    laws::chosen_is_sent_law();
    laws::superseded_law();
}
