//! What the tests are given: operators by name, lists of rows of one number or two, and answers in words.
ghost use Rattle.std.specs.Prelude.{◌≡◌, ◌+◌, ◌∷◌, [], ◌↔◌, IsTrue, false, length, map, replicate};
ghost use Rattle.std.specs.List.{All, AllZip};
ghost use Rattle.mit_rows.specs.declared.value.ColType.TheVariants as is;
ghost use Rattle.mit_expr.specs.Types.{type_of_value};
ghost use Rattle.mit_ops.specs.Kinds.{bag_inputs_of, captures_of};
ghost use Rattle.mit_ops.specs.Parts.{Fits, HaveColumns};
ghost use Rattle.mit_ops.specs.Results.{AreBags, IsBagType};

use mit_bags::Bag;
use mit_expr::{BinOp, Expr};
use mit_kernel::Finished;
use mit_ops::{Agg, ColTypes, Columns, Exprs, Flat, OpSpec, VarType};
use mit_rows::{ColType, MAX_COLUMNS, Row, Value};
use mit_types::result_type;
use sqlite_items::Boxed;
use std::process::Abort;

/// The part of a row that has this number, from 0, where this stands between parts; where there is none, the empty text.
pub(crate) fn part<'a>(row: &'a str, between: &str, number: usize) -> &'a str {
    row.split(between).nth(number).unwrap_or("")
}

fn int(number: i64) -> Expr {
    Expr::Lit(Value::Int(number))
}

fn bin(rt: &(impl Abort + AllocGlobal), left: Expr, op: BinOp, right: Expr) -> Expr {
    Expr::Bin {
        op,
        left: Boxed::new(rt.alloc(), left).expect(rt, "memory"),
        right: Boxed::new(rt.alloc(), right).expect(rt, "memory"),
    }
}

/// This, and 10 divided by it.
fn and_divided(rt: &(impl Abort + AllocGlobal), expr: Expr) -> Exprs {
    let mut exprs = Vec::new(rt.alloc());
    exprs
        .push(expr.copy(rt.alloc()).expect(rt, "memory"))
        .expect(rt, "memory");
    exprs
        .push(bin(rt, int(10), BinOp::Div, expr))
        .expect(rt, "memory");
    Exprs::from_vec(exprs)
}

fn first_column(rt: &(impl Abort + AllocGlobal)) -> Columns {
    let mut columns = Vec::new(rt.alloc());
    columns.push(0).expect(rt, "memory");
    Columns::from_vec(columns)
}

pub(crate) fn spec_of(rt: &(impl Abort + AllocGlobal), name: &str) -> OpSpec {
    match name {
        "scalar" => OpSpec::Scalar {
            expr: bin(rt, int(10), BinOp::Div, Expr::Capture(0)),
        },
        "map" => OpSpec::Map {
            exprs: and_divided(rt, Expr::Column(0)),
        },
        "filter" => OpSpec::Filter {
            expr: bin(
                rt,
                bin(rt, int(10), BinOp::Div, Expr::Column(0)),
                BinOp::Lt,
                Expr::Capture(0),
            ),
        },
        "flat" => OpSpec::FlatMap {
            flat: Flat::Range {
                from: Expr::Capture(0),
                to: Expr::Column(0),
            },
        },
        "union" => OpSpec::Union,
        "row" => OpSpec::MakeRow {
            exprs: and_divided(rt, Expr::Capture(0)),
        },
        "empty" => OpSpec::Empty {
            types: ColTypes::from_vec(int_types(rt, 1)),
        },
        "join" => OpSpec::Join {
            left: first_column(rt),
            right: first_column(rt),
        },
        "groups" => OpSpec::Reduce {
            keys: first_column(rt),
            agg: Agg::Count,
        },
        "greatest" => OpSpec::Reduce {
            keys: first_column(rt),
            agg: Agg::Max(1),
        },
        "distinct" => OpSpec::Distinct,
        "only" => OpSpec::Only,
        "count" => OpSpec::Count,
        "sum" => OpSpec::Sum { column: 0 },
        _ => OpSpec::Copy,
    }
}

/// So many columns of integers.
fn int_types(rt: &(impl Abort + AllocGlobal), count: usize) -> Vec<ColType>
    ensures { result.items ≡ replicate count is.Int }
{
    let mut types = Vec::new(rt.alloc());
    for _column in 0..count {
        types.push(ColType::Int).expect(rt, "memory");
    }
    types
}

/// A row of numbers, with commas between.
fn row_of(rt: &(impl Abort + AllocGlobal), numbers: &str) -> Row {
    let mut values = Vec::new(rt.alloc());
    for number in numbers.split(",") {
        let number = number.parse().expect(rt, "a number");
        values.push(Value::Int(number)).expect(rt, "memory");
    }
    assert!(rt; values.len() <= MAX_COLUMNS);
    Row::from_values(values).expect(rt, "memory")
}

/// Such rows, with blanks between.
fn rows_of(rt: &(impl Abort + AllocGlobal), rows: &str) -> Vec<Row> {
    let mut all = Vec::new(rt.alloc());
    for numbers in rows.split_ascii_whitespace() {
        all.push(row_of(rt, numbers)).expect(rt, "memory");
    }
    all
}

/// Lists of such rows, with semicolons between; none in an empty text.
pub(crate) fn lists_of(rt: &(impl Abort + AllocGlobal), lists: &str) -> Vec<Vec<Row>> {
    let mut all = Vec::new(rt.alloc());
    if lists.is_empty() {
        return all;
    }
    for rows in lists.split(";") {
        all.push(rows_of(rt, rows)).expect(rt, "memory");
    }
    all
}

/// The numbers of a row, with commas between.
fn row_text(rt: &(impl Abort + AllocGlobal), row: &Row) -> String {
    let mut text = String::new(rt.alloc());
    for value in row.values() {
        if let Value::Int(number) = value {
            let word = format!(in rt.alloc(); "{number},").expect(rt, "memory");
            text.push_str(&word).expect(rt, "memory");
        }
    }
    text
}

/// How a part ended: its rows in order, or the fault and its row.
pub(crate) fn described(rt: &(impl Abort + AllocGlobal), end: &Finished, rows: Vec<Row>) -> String {
    if let Finished::Fault(fault) = end {
        let at = row_text(rt, &fault.at);
        return format!(in rt.alloc(); "{:?} at {at}", fault.kind).expect(rt, "memory");
    }
    let mut text = String::new(rt.alloc());
    let bag = Bag::from_rows(rows).expect(rt, "memory");
    for row in bag.rows() {
        text.push_str(&row_text(rt, row)).expect(rt, "memory");
        text.push_str(" ").expect(rt, "memory");
    }
    text
}

fn is_number(row: &Row) -> bool
    ensures { IsTrue result ↔ (map type_of_value row.now ≡ is.Int ∷ []) }
{
    matches!(row.values(), [Value::Int(_)])
}

fn is_pair(row: &Row) -> bool
    ensures { IsTrue result ↔ (map type_of_value row.now ≡ is.Int ∷ is.Int ∷ []) }
{
    matches!(row.values(), [Value::Int(_), Value::Int(_)])
}

fn are_numbers(rows: &[Row]) -> bool
    ensures { IsTrue result ↔ HaveColumns (is.Int ∷ []) rows.now }
{
    rows.iter().all(|row| is_number(row))
}

fn all_numbers(lists: &[Vec<Row>]) -> bool
    ensures { IsTrue result ↔ All (λ rows. HaveColumns (is.Int ∷ []) rows.items) lists.now }
{
    lists.iter().all(|rows| are_numbers(rows))
}

fn are_pairs(rows: &[Row]) -> bool
    ensures { IsTrue result ↔ HaveColumns (is.Int ∷ is.Int ∷ []) rows.now }
{
    rows.iter().all(|row| is_pair(row))
}

/// A bag of so many columns of integers.
fn number_bag(rt: &(impl Abort + AllocGlobal), columns: usize) -> VarType
    ensures { result ≡ record { scalar = false; cols = replicate columns is.Int } }
{
    VarType {
        scalar: false,
        cols: ColTypes::from_vec(int_types(rt, columns)),
    }
}

/// A bag of one column of integers or of two, as these rows have.
fn bag_of(rt: &(impl Abort + AllocGlobal), rows: &[Row]) -> VarType
    ensures wide { IsBagType result }
    ensures rows { HaveColumns result.cols rows.now }
{
    let numbers = are_numbers(rows);
    if numbers {
        return number_bag(rt, 1);
    }
    let pairs = are_pairs(rows);
    if !pairs {
        panic!(rt; "rows of one number or of two");
    }
    number_bag(rt, 2)
}

/// The bag of each of these lists.
fn bags_of(rt: &(impl Abort + AllocGlobal), lists: &[Vec<Row>]) -> Vec<VarType>
    ensures wide { AreBags result.items }
    ensures rows { AllZip HaveColumns (map (λ bag. bag.cols) result.items) (map (λ rows. rows.items) lists.now) }
{
    let mut bags = Vec::new(rt.alloc());
    for rows in lists {
        let Ok(()) = bags.push(bag_of(rt, rows)) else {
            panic!(rt; "memory");
        };
    }
    bags
}

/// Sees that an operator takes these lists of rows of numbers.
pub(crate) fn expect_fits(rt: &(impl Abort + AllocGlobal), spec: &OpSpec, lists: &[Vec<Row>])
    ensures fits { Fits spec.now (map (λ rows. rows.items) lists.now) }
    ensures count { length lists.now ≡ bag_inputs_of spec.now + captures_of spec.now }
{
    assert!(rt; lists.len() as u64 == u64::from(spec.bag_inputs()) + u64::from(spec.captures()));
    let (bag_lists, scalars) = lists.split_at(usize::from(spec.bag_inputs()));
    let numbers = all_numbers(scalars);
    if !numbers {
        panic!(rt; "scalars of one number");
    }
    let bags = bags_of(rt, bag_lists);
    let captures = int_types(rt, spec.captures() as usize);
    let Ok(_type) = result_type(rt.alloc(), spec, &bags, &captures) else {
        panic!(rt; "{spec:?} takes no numbers");
    };
}
