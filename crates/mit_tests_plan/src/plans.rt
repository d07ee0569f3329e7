//! The text of a worked plan, its edges, and how long it may take.
use crate::worked::{plan_of, worked};
use mit_plan::{bound, print_plan};
use std::test::Fail;

/// The text of the plan.
const TEXT: &[u8] = b"blocks 4, ops 9, edges 9
block 0 branch op 3 to 1 else 2
op 0 scalar statement 1
op 1 scalar statement 2
op 2 scalar statement 3 from 0 gather, 1 gather
op 3 scalar statement 4 from 2 gather
block 1 jump 3
op 4 copy statement 5 from 0 forward
block 2 jump 3
op 5 copy statement 6 from 1 forward
block 3 end
op 6 phi from 4 forward, 5 forward
op 7 row statement 7 from 6 gather
op 8 write statement 8 from 7 gather
";

#[test]
fn a_plan_is_printed_line_by_line(rt: HostRuntime) -> Result<(), Fail> {
    let text = print_plan(rt.alloc(), &plan_of(&rt, worked(&rt)))?;
    assert_eq!(rt; text.as_slice(), TEXT);
    Ok(())
}

#[test]
fn an_operator_knows_its_edges(rt: HostRuntime) -> Result<(), Fail> {
    let plan = plan_of(&rt, worked(&rt));
    assert_eq!(rt; plan.edges_to(6), [5, 6].as_slice());
    assert_eq!(rt; plan.edges_from(0), [0, 3].as_slice());
    assert_eq!(rt; plan.edges_from(8).len(), 0);
    assert_eq!(rt; plan.edges_to(9).len(), 0);
    Ok(())
}

#[test]
fn a_bound_ends_at_the_greatest_number(rt: HostRuntime) -> Result<(), Fail> {
    let plan = plan_of(&rt, worked(&rt));
    assert_eq!(rt; bound(&plan, 2, 3), 1_656);
    assert_eq!(rt; bound(&plan, u32::MAX, u16::MAX), u64::MAX);
    Ok(())
}
