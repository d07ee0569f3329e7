//! Which edges lead to each operator, and which leave it.
ghost use Rattle.std.specs.Prelude.{◌≡◌, ◌<◌, ◌^◌, IfOk, OnOk, length, replicate, []};
ghost use Rattle.mit_plan.specs.Indexed.{AreLists, added_to_list};

use crate::plan::Edge;
use sqlite_items::Items;
use std::alloc::{AllocError, Global};

/// So many empty lists.
fn empty_lists(alloc: Global, count: usize) -> Result<Vec<Items<u32>>, AllocError>
    ensures { IfOk result (λ lists. lists.items ≡ replicate count []) }
{
    let mut lists = Vec::with_capacity(alloc, count)?;
    for _name in 0..count {
        lists.push(Items::new(alloc))?;
    }
    Ok(lists)
}

/// Adds a number to the list of this name, where there is one.
fn enlist(lists: &mut Vec<Items<u32>>, name: u32, number: u32) -> Result<(), AllocError>
    ensures { OnOk result (lists.new.items ≡ added_to_list lists.old.items name number) }
{
    let name = name as usize;
    if name < lists.len() {
        let list = &mut lists[name];
        list.push(number)?;
    }
    Ok(())
}

/// For each operator, of which there are so many, the numbers of the edges that lead to it, and of those that leave it.
///
/// The numbers rise in each list.
pub(crate) fn edge_lists(
    alloc: Global,
    count: usize,
    edges: &[Edge],
) -> Result<(Vec<Items<u32>>, Vec<Items<u32>>), AllocError>
    requires { length edges.now < 2 ^ 32 }
    ensures into { IfOk result (λ lists. AreLists (λ edge. edge.to) count edges.now lists.0.items) }
    ensures out { IfOk result (λ lists. AreLists (λ edge. edge.from) count edges.now lists.1.items) }
{
    let mut into = empty_lists(alloc, count)?;
    let mut out = empty_lists(alloc, count)?;
    for (number, edge) in edges.iter().enumerate() {
        enlist(&mut into, edge.to, number as u32)?;
        enlist(&mut out, edge.from, number as u32)?;
    }
    Ok((into, out))
}
