//! Answers and totals, and the order of faults.
use crate::given::{part, row_of};
use mit_apply::{Answer, Total, cmp_faults, row_of_exprs};
use mit_ops::{Agg, FaultKind, OpFault};
use mit_rows::{Row, cmp_rows};
use std::process::Abort;
use std::test::Fail;

/// Rows, of which those before an `!` are at fault, and the row whose fault is told.
const ANSWERS: &str = "4,2;4,0! => 4,0\n\
    5,0!;6,1;4,0!;4,2;7,0! => 4,0\n\
    'y!;'x!;'z! => 'x\n\
    1;0! => 0\n\
    0,65537;0,0!;7,65544 => 0,0";

fn add(rt: &(impl Abort + AllocGlobal), answer: &mut Answer, words: &str) {
    match words.strip_suffix("!") {
        Some(words) => answer.add_fault(row_of(rt, words), FaultKind::DivideByZero),
        None => answer.add_row(row_of(rt, words)).expect(rt, "memory"),
    }
}

fn is_at(found: &Result<Vec<Row>, OpFault>, due: &Row) -> bool {
    match found {
        Ok(_) => false,
        Err(fault) => { fault.kind == FaultKind::DivideByZero && cmp_rows(&fault.at, due).is_eq() }
    }
}

fn expect_fault(rt: &(impl Abort + AllocGlobal), rows: &str, due: &str) {
    let mut answer = Answer::new(rt.alloc());
    for words in rows.split(";") {
        add(rt, &mut answer, words);
    }
    assert!(rt; is_at(&answer.finish(), &row_of(rt, due)), "{rows}");
}

#[test]
fn the_fault_of_the_least_row_is_told(rt: HostRuntime) {
    for line in ANSWERS.lines() {
        expect_fault(&rt, part(line, " => ", 0), part(line, " => ", 1));
    }
}

#[test]
fn no_expressions_make_the_empty_row(rt: HostRuntime) {
    let made = row_of_exprs(rt.alloc(), &[], &Row::empty(), &[]).expect(&rt, "a row");
    assert!(rt; made.values().is_empty());
}

#[test]
fn the_rows_of_a_total_are_counted(rt: HostRuntime) -> Result<(), Fail> {
    let mut total = Total::new(Agg::Min(0));
    total.add(&row_of(&rt, "3"))?;
    total.add(&row_of(&rt, "-4"))?;
    assert!(rt; total.rows() == 2);
    Ok(())
}

/// Rising faults: their rows and their kinds.
const RISING: [(&str, FaultKind); 6] = [
    ("-1", FaultKind::DecisionLimit),
    ("2", FaultKind::Overflow),
    ("2", FaultKind::NotOne(7)),
    ("2", FaultKind::NotOne(8)),
    ("2,0", FaultKind::Overflow),
    ("'a", FaultKind::Overflow),
];

fn fault_of(rt: &(impl Abort + AllocGlobal), row: &str, kind: FaultKind) -> OpFault {
    let at = row_of(rt, row);
    OpFault { at, kind }
}

fn expect_order(rt: &(impl Abort + AllocGlobal), place: usize, fault: &OpFault) {
    for (other, (row, kind)) in RISING.iter().enumerate() {
        let above = fault_of(rt, row, *kind);
        assert!(rt; cmp_faults(fault, &above) == place.cmp(&other), "{row}");
    }
}

#[test]
fn faults_are_ordered_by_their_rows_first(rt: HostRuntime) {
    for (place, (row, kind)) in RISING.iter().enumerate() {
        expect_order(&rt, place, &fault_of(&rt, row, *kind));
    }
}
