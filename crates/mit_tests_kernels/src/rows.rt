//! The kernels in a kit. A row is an operator, the lists of its inputs and what each of two partitions answers, with
//! bars between.
use crate::given::{expect_fits, lists_of, part, spec_of};
use crate::refuser::Refuser;
use crate::slots::{begin, close, feed_lists, finish, kind, renew};
use mit_k_group::GroupKernel;
use mit_k_join::JoinKernel;
use mit_k_rows::RowsKernel;
use mit_kernel::Kernel;
use mit_ops::OpSpec;
use mit_rows::Row;
use std::process::Abort;
use std::test::Fail;

/// Runs an operator in a slot, renewed and once more, and closes the slot.
fn expect_part(
    rt: &(impl Abort + AllocGlobal),
    kernel: &mut Box<dyn Kernel>,
    spec: &OpSpec,
    number: u16,
    lists: &[Vec<Row>],
    due: &str,
) {
    expect_fits(rt, spec, lists);
    let slot = begin(rt, kernel, spec, number, lists);
    feed_lists(rt, kernel, slot, lists);
    assert_eq!(rt;
        finish(rt, kernel, slot, lists)
            .expect(rt, "memory")
            .as_str(),
        due
    );
    let keep = vec![in rt.alloc(); false; lists.len()].expect(rt, "memory");
    renew(rt, kernel, slot, &keep, lists);
    feed_lists(rt, kernel, slot, lists);
    assert_eq!(rt;
        finish(rt, kernel, slot, lists)
            .expect(rt, "memory")
            .as_str(),
        due
    );
    close(kernel, slot, lists);
}

/// Runs the operator of a row in each partition, in the kernel of its kind.
fn expect_row(rt: &(impl Abort + AllocGlobal), kit: &mut Vec<Box<dyn Kernel>>, row: &str) {
    let spec = spec_of(rt, part(row, "|", 0));
    let lists = lists_of(rt, part(row, "|", 1));
    let mut found = false;
    for kernel in kit.iter_mut() {
        if kind(kernel) == spec.kind() {
            expect_part(rt, kernel, &spec, 0, &lists, part(row, "|", 2));
            expect_part(rt, kernel, &spec, 1, &lists, part(row, "|", 3));
            found = true;
        }
    }
    assert!(rt; found);
}

#[test]
fn each_kind_answers_its_part(rt: HostRuntime) -> Result<(), Fail> {
    let alloc = rt.alloc();
    let mut kit: Vec<Box<dyn Kernel>> = Vec::new(alloc);
    kit.push(Box::new(alloc, RowsKernel::new(alloc, 0)?)?)?;
    kit.push(Box::new(alloc, RowsKernel::new(alloc, 2)?)?)?;
    kit.push(Box::new(alloc, RowsKernel::new(alloc, 3)?)?)?;
    kit.push(Box::new(alloc, RowsKernel::new(alloc, 4)?)?)?;
    kit.push(Box::new(alloc, RowsKernel::new(alloc, 7)?)?)?;
    kit.push(Box::new(alloc, RowsKernel::new(alloc, 12)?)?)?;
    kit.push(Box::new(alloc, RowsKernel::new(alloc, 13)?)?)?;
    kit.push(Box::new(alloc, RowsKernel::new(alloc, 15)?)?)?;
    kit.push(Box::new(alloc, JoinKernel::new(alloc)?)?)?;
    kit.push(Box::new(alloc, GroupKernel::new(alloc, 6)?)?)?;
    kit.push(Box::new(alloc, GroupKernel::new(alloc, 8)?)?)?;
    kit.push(Box::new(alloc, GroupKernel::new(alloc, 9)?)?)?;
    kit.push(Box::new(alloc, GroupKernel::new(alloc, 10)?)?)?;
    kit.push(Box::new(alloc, GroupKernel::new(alloc, 11)?)?)?;
    for row in [
        "scalar|5|2, |",
        "scalar|0|DivideByZero at |",
        "scalar|5 5||",
        "map|5 2 5|2,5, 5,2, 5,2, |2,5, 5,2, 5,2, ",
        "map|5 0 -5 0|DivideByZero at 0,|DivideByZero at 0,",
        "filter|5 1 2 9;5|5, 9, |5, 9, ",
        "filter|5 0;3|DivideByZero at 0,|DivideByZero at 0,",
        "flat|3 1 2;1|2,1, 3,1, 3,2, |2,1, 3,1, 3,2, ",
        "flat|90000 70000;1|RangeTooLong at 70000,|RangeTooLong at 70000,",
        "union|2 1;3 1|1, 1, 2, 3, |1, 1, 2, 3, ",
        "row|5|5,2, |",
        "row|0|DivideByZero at |",
        "empty|||",
        "copy|3 1|1, 3, |1, 3, ",
        "join|1,2 1,3 4,5;1 6|1,2,1, 1,3,1, |1,2,1, 1,3,1, ",
        "groups|1,5 2,3 1,6|1,2, 2,1, |1,2, 2,1, ",
        "greatest|1,5 2,3 1,6|1,6, 2,3, |1,6, 2,3, ",
        "distinct|3 1 3|1, 3, |1, 3, ",
        "only| |NotOne(0) at |",
        "only|5|5, |",
        "only|5 6|NotOne(2) at |",
        "count|7 7|2, |",
        "sum|9223372036854775807 1 -1|9223372036854775807, |",
        "sum|9223372036854775807 1|Overflow at |",
    ] {
        expect_row(&rt, &mut kit, row);
    }
    Ok(())
}

/// The second finish is refused, and the slot is as it was.
fn expect_refused(rt: &(impl Abort + AllocGlobal), kernel: &mut Box<dyn Kernel>) {
    let spec = OpSpec::Copy;
    let lists = lists_of(rt, "3 1");
    expect_fits(rt, &spec, &lists);
    let slot = begin(rt, kernel, &spec, 0, &lists);
    feed_lists(rt, kernel, slot, &lists);
    assert!(rt; finish(rt, kernel, slot, &lists).is_ok());
    assert!(rt; finish(rt, kernel, slot, &lists).is_err());
    assert!(rt; finish(rt, kernel, slot, &lists).is_ok());
}

fn expect_all_refuse(rt: &(impl Abort + AllocGlobal), kit: &mut Vec<Box<dyn Kernel>>) {
    for kernel in kit.iter_mut() {
        expect_refused(rt, kernel);
    }
}

#[test]
fn a_call_of_finish_is_refused(rt: HostRuntime) -> Result<(), Fail> {
    let alloc = rt.alloc();
    let mut kit: Vec<Box<dyn Kernel>> = Vec::new(alloc);
    kit.push(Box::new(alloc, Refuser::new(RowsKernel::new(alloc, 15)?, 1))?)?;
    expect_all_refuse(&rt, &mut kit);
    Ok(())
}
