//! The numbers and copies of operators, and types that no script asks for.
ghost use Rattle.std.specs.Prelude.{◌↔◌, IsTrue};
ghost use Rattle.mit_ops.specs.Results.{AreBags, IsBagType};

use crate::given::part;
use mit_ops::{Agg, ColTypes, Columns, Exprs, OpRefused, OpSpec, Route, VarType, route_of};
use mit_parse::parse;
use mit_rows::{ColType, MAX_COLUMNS, Value};
use mit_script::{Stmt, statements};
use mit_types::{result_type, type_of_value};
use std::process::Abort;

/// A script in which `w` is a bag of an integer, a text and a truth value, `x` a text, `y` an integer and `z` a truth value.
/// Behind each statement stand the name of its operator, the number of its kind, how many bags it takes, and how many scalars
/// it captures.
const SCRIPT: &str = "s = x ++ text(y); # Scalar 0 0 2
    a = read x (bool, int); # Read 1 0 1
    a = map w [$2, x, y]; # Map 2 1 2
    a = filter w where $2; # Filter 3 1 0
    a = filter w where not len(\"é\" ++ x) * ($0 - -5) >= y or false; # Filter 3 1 2
    a = flat w words x, \" \"; # FlatMap 4 1 1
    a = flat w range len(x) + y, $0; # FlatMap 4 1 2
    a = flat w range $0, len(x) + y; # FlatMap 4 1 2
    a = join w $0, $1 with w $0, $1; # Join 5 2 0
    a = reduce w by $2, $1 max $1; # Reduce 6 1 0
    a = union w, w; # Union 7 2 0
    a = distinct w; # Distinct 8 1 0
    a = only w; # Only 9 1 0
    a = count w; # Count 10 1 0
    a = sum w $0; # Sum 11 1 0
    a = row [-5, x, \"é\"]; # MakeRow 12 0 1
    a = empty (text, text); # Empty 13 0 0
    write w to x; # Write 14 1 1
    a = w; # Copy 15 1 0
    a = map w [x, $0 + y]; # Map 2 1 2
    a = map w [x, $0 - y]; # Map 2 1 2
    a = map w [x, $0 * y]; # Map 2 1 2
    a = map w [x, $0 / y]; # Map 2 1 2
    a = map w [x, $0 % y]; # Map 2 1 2
    a = map w [$1 ++ x]; # Map 2 1 1
    a = map w [$1 == x]; # Map 2 1 1
    a = map w [$1 != x]; # Map 2 1 1
    a = map w [x, $0 < y]; # Map 2 1 2
    a = map w [x, $0 <= y]; # Map 2 1 2
    a = map w [x, y, $2 > z]; # Map 2 1 3
    a = map w [x, y, $2 >= z]; # Map 2 1 3
    a = map w [x, y, $2 and z]; # Map 2 1 3
    a = map w [x, y, $2 or z]; # Map 2 1 3";

fn op_of(stmt: &Stmt) -> &OpSpec {
    match stmt {
        Stmt::Assign { op, .. }
        | Stmt::Write { op, .. }
        | Stmt::If { op, .. }
        | Stmt::While { op, .. } => op,
    }
}

/// The number of an operator's kind, how many bags it takes, and how many scalars it captures.
fn expect_numbers(rt: &(impl Abort + AllocGlobal), op: &OpSpec, due: &str) {
    let kind = op.kind();
    let inputs = op.bag_inputs();
    let captures = op.captures();
    let found = format!(in rt.alloc(); "{kind} {inputs} {captures}").expect(rt, "memory");
    assert!(rt; found.as_str() == due, "{op:?} has {found}");
}

fn debugged(rt: &(impl Abort + AllocGlobal), op: &OpSpec) -> String {
    format!(in rt.alloc(); "{op:?}").expect(rt, "memory")
}

fn expect_copy(rt: &(impl Abort + AllocGlobal), op: &OpSpec, name: &str) {
    let copy = op.copy(rt.alloc()).expect(rt, "memory");
    let found = debugged(rt, &copy);
    assert!(rt; found.as_str() == debugged(rt, op).as_str());
    assert!(rt; found.as_str().starts_with(name));
}

#[test]
fn each_kind_has_its_number_inputs_captures_and_copy(rt: HostRuntime) {
    let script = parse(rt.alloc(), SCRIPT.as_bytes()).expect(&rt, "a script");
    assert!(rt; statements(&script) == 33);
    for (stmt, line) in script.body.as_slice().iter().zip(SCRIPT.lines()) {
        let (name, numbers) = part(line, "# ", 1).split_once(" ").unwrap_or(("", ""));
        expect_numbers(&rt, op_of(stmt), numbers);
        expect_copy(&rt, op_of(stmt), name);
    }
}

/// The types of letters: `I` is an integer, `T` a text and `B` a truth value.
fn types(rt: &(impl Abort + AllocGlobal), letters: &str) -> Vec<ColType> {
    let mut types = Vec::new(rt.alloc());
    for letter in letters.as_bytes() {
        let is = match *letter {
            b'I' => type_of_value(&Value::Int(0)),
            b'B' => type_of_value(&Value::Bool(true)),
            _ => ColType::Text,
        };
        types.push(is).expect(rt, "memory");
    }
    types
}

fn bag(rt: &(impl Abort + AllocGlobal), letters: &str) -> VarType {
    VarType {
        scalar: false,
        cols: ColTypes::from_vec(types(rt, letters)),
    }
}

fn is_bag(bag: &VarType) -> bool
    ensures { IsTrue result ↔ IsBagType bag.now }
{
    let count = bag.cols.as_slice().len();
    count <= MAX_COLUMNS && (!bag.scalar || count == 1)
}

fn are_bags(bags: &[VarType]) -> bool
    ensures { IsTrue result ↔ AreBags bags.now }
{
    bags.iter().all(|bag| is_bag(bag))
}

/// As many of these bags as an operator takes.
fn taken<'a>(op: &OpSpec, bags: &'a [VarType]) -> &'a [VarType] {
    let (taken, _) = bags.split_at(bags.len().min(usize::from(op.bag_inputs())));
    taken
}

fn given(
    rt: &(impl Abort + AllocGlobal),
    op: &OpSpec,
    bags: &[VarType],
    captures: &[ColType],
) -> Result<VarType, OpRefused> {
    assert!(rt; bags.len() == usize::from(op.bag_inputs()));
    assert!(rt; are_bags(bags));
    result_type(rt.alloc(), op, bags, captures)
}

/// With more captured scalars than 16 an operator is refused, and so it is with fewer than it names. These are 17.
fn expect_limits(
    rt: &(impl Abort + AllocGlobal),
    op: &OpSpec,
    bags: &[VarType],
    captures: &[ColType],
) {
    let found = given(rt, op, bags, captures).err();
    assert!(rt; found == Some(OpRefused::TooLarge), "{op:?}");
    let (allowed, _) = captures.split_at(captures.len().min(16));
    let found = given(rt, op, bags, allowed).err();
    assert!(rt; found.is_none() != (op.kind() == 9), "{op:?}");
    let named = usize::try_from(op.captures()).expect(rt, "a number");
    let (fewer, _) = captures.split_at(captures.len().min(named.saturating_sub(1)));
    let found = given(rt, op, bags, fewer).err();
    assert!(rt; named == 0 || found == Some(OpRefused::WrongType), "{op:?}");
}

#[test]
fn more_than_16_captured_scalars_are_refused_and_fewer_than_are_named(rt: HostRuntime) {
    let script = parse(rt.alloc(), SCRIPT.as_bytes()).expect(&rt, "a script");
    let bags = [bag(&rt, "ITB"), bag(&rt, "ITB")];
    let captures = types(&rt, "TIBIIIIIIIIIIIIII");
    for stmt in script.body.as_slice() {
        let op = op_of(stmt);
        expect_limits(&rt, op, taken(op, &bags), &captures);
    }
}

fn has_types(found: &Result<VarType, OpRefused>, due: &[ColType]) -> bool {
    match found {
        Ok(found) => !found.scalar && found.cols.as_slice() == due,
        Err(_) => false,
    }
}

fn expect_types(rt: &(impl Abort + AllocGlobal), op: &OpSpec, bags: &[VarType], due: &[ColType]) {
    let found = given(rt, op, bags, &[]);
    assert!(rt; has_types(&found, due), "{op:?}");
}

#[test]
fn a_map_without_expressions_gives_no_column(rt: HostRuntime) {
    let exprs = Exprs::from_vec(Vec::new(rt.alloc()));
    expect_types(&rt, &OpSpec::Map { exprs }, &[bag(&rt, "ITB")], &[]);
}

#[test]
fn a_count_without_keys_gives_a_number(rt: HostRuntime) {
    let count = OpSpec::Reduce {
        keys: Columns::from_vec(Vec::new(rt.alloc())),
        agg: Agg::Count,
    };
    expect_types(&rt, &count, &[bag(&rt, "ITB")], &[ColType::Int]);
}

#[test]
fn bags_may_have_no_column(rt: HostRuntime) {
    let types = ColTypes::from_vec(Vec::new(rt.alloc()));
    expect_types(&rt, &OpSpec::Empty { types }, &[], &[]);
    let bags = [bag(&rt, ""), bag(&rt, "")];
    expect_types(&rt, &OpSpec::Union, &bags, &[]);
    let found = given(&rt, &OpSpec::Only, &[bag(&rt, "")], &[]).err();
    assert!(rt; found == Some(OpRefused::WrongType));
}

fn join_without_keys(rt: &(impl Abort + AllocGlobal)) -> OpSpec {
    OpSpec::Join {
        left: Columns::from_vec(Vec::new(rt.alloc())),
        right: Columns::from_vec(Vec::new(rt.alloc())),
    }
}

#[test]
fn a_join_without_keys_has_the_columns_of_both_bags(rt: HostRuntime) {
    let due = [ColType::Int, ColType::Text, ColType::Bool];
    let bags = [bag(&rt, "IT"), bag(&rt, "B")];
    expect_types(&rt, &join_without_keys(&rt), &bags, &due);
}

fn is_empty_key(route: &Route) -> bool {
    match route {
        Route::ByKey(columns) => columns.as_slice().is_empty(),
        _ => false,
    }
}

/// An input of a join without keys, and a copy of its route, go by a key of no column.
fn expect_empty_key(rt: &(impl Abort + AllocGlobal), join: &OpSpec, input: u16) {
    let route = route_of(rt.alloc(), join, input, 3).expect(rt, "memory");
    assert!(rt; is_empty_key(&route));
    let copy = route.copy(rt.alloc()).expect(rt, "memory");
    assert!(rt; is_empty_key(&copy));
}

#[test]
fn a_join_without_keys_goes_by_none(rt: HostRuntime) {
    let join = join_without_keys(&rt);
    expect_empty_key(&rt, &join, 0);
    expect_empty_key(&rt, &join, 1);
}
