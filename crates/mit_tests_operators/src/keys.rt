//! Keys of rows and where they lead. The bytes of a text are the numbers of columns: `\0` is the first one.
use crate::given::{part, row_of};
use indexmap::IndexMap;
use mit_apply::{Key, hash_of, same_key, senders, target, targets};
use mit_ops::{Columns, Route};
use mit_rows::{MAX_COLUMNS, Row, cmp_rows};
use std::cmp::Ordering;
use std::process::Abort;
use std::test::Fail;

/// Columns, a row, and the hash of its key.
const HASHES: &str = "|1,'a,true|cbf29ce484222325;\
    \0|1,'a,true|c709bb3119a0df9e;\
    \u{1}|1,'a,true|e4981b2632418b44;\
    \u{2}|1,'a,true|8395307b4f1348c;\
    \0\u{1}|1,'a,true|2bdf249b56a82457;\
    \u{1}\0|1,'a,true|6598caced887f82d;\
    \0\0|1,'a,true|480bf8c265cdb6db;\
    \u{2}\u{1}\0|1,'a,true|b140385ac1947d8e;\
    \0|0|e604823a249029bf;\
    \0|-1|7a4969ca2d631437;\
    \0|-9223372036854775808|e604023a248f503f;\
    \0|9223372036854775807|7a49e9ca2d63edb7;\
    \0|'|529a2cdc8ff533ac;\
    \0|'é|c6872deae6e27c3a;\
    \0|'1|e4986b2632421334;\
    \0|false|8395407b4f1363f;\
    \0\u{1}|'a,'b|1c68dec249244414;\
    \0\u{1}|'ab,'|fcf71d5a19fae444";

fn expect_hash(rt: &(impl Abort + AllocGlobal), case: &str) {
    let row = row_of(rt, part(case, "|", 1));
    let hash = hash_of(part(case, "|", 0).as_bytes(), &row);
    let found = format!(in rt.alloc(); "{hash:x}").expect(rt, "memory");
    assert!(rt; found.as_str() == part(case, "|", 2), "{case}");
}

#[test]
fn a_key_is_hashed_by_its_bytes(rt: HostRuntime) {
    for case in HASHES.split(";") {
        expect_hash(&rt, case);
    }
}

/// Columns of a row, the row, columns of another one, that row, and whether their keys are the same.
const PAIRS: &str = "\0|1,'a,true|\u{1}|'a,1,true|true;\
    \0\u{1}|1,'a,true|\u{1}\0|'a,1,true|true;\
    \0\u{1}|1,'a,true|\0\u{1}|'a,1,true|false;\
    \0|1,'a,true|\0\u{1}|1,'a,true|false;\
    \0\u{1}|1,'a,true|\0|1,'a,true|false;\
    \0\0\0\0\0\0\0\0\0\0\0\0\0\0\0\0\0|1|\0\0\0\0\0\0\0\0\0\0\0\0\0\0\0\0\0|1,2|true;\
    \0\0|1|\0\u{1}|1,1|true;\
    ||\0|1|false;\
    |1||2|true;\
    \0|1|\0|'1|false;\
    \0|1|\0|true|false;\
    \0|'ab|\0|'aa|false;\
    \0|'a|\0|'aa|false;\
    \0|true|\0|false|false";

fn key_of(rt: &(impl Abort + AllocGlobal), columns: &str, row: &Row) -> Key {
    Key::of(rt.alloc(), columns.as_bytes(), row).expect(rt, "memory")
}

fn are_equal(rt: &(impl Abort + AllocGlobal), case: &str, left: &Row, right: &Row) -> bool {
    key_of(rt, part(case, "|", 0), left) == key_of(rt, part(case, "|", 2), right)
}

fn expect_pair(rt: &(impl Abort + AllocGlobal), case: &str) {
    let left = row_of(rt, part(case, "|", 1));
    let right = row_of(rt, part(case, "|", 3));
    let left_columns = part(case, "|", 0).as_bytes();
    let right_columns = part(case, "|", 2).as_bytes();
    let same = same_key(left_columns, &left, right_columns, &right);
    let due = part(case, "|", 4) == "true";
    assert!(rt;
        same == due && are_equal(rt, case, &left, &right) == due,
        "{case}"
    );
}

#[test]
fn keys_are_the_same_by_their_values_in_order(rt: HostRuntime) {
    for case in PAIRS.split(";") {
        expect_pair(&rt, case);
    }
}

/// A row, and the row with the same first value that was put last before it.
const PUT: &str = "1,'a|;2,'a|;1,'b|1,'a;'1,'b|;1,true|1,'b";

#[test]
fn keys_lead_to_entries_of_a_map(rt: HostRuntime) -> Result<(), Fail> {
    let mut map = IndexMap::new(rt.alloc());
    for case in PUT.split(";") {
        let row = part(case, "|", 0);
        let before = map.insert(key_of(&rt, "\0", &row_of(&rt, row)), row)?;
        assert!(rt; before.unwrap_or("") == part(case, "|", 1), "{case}");
    }
    assert!(rt; map.len() == 3);
    Ok(())
}

#[test]
fn a_whole_row_is_the_key_of_all_its_columns(rt: HostRuntime) -> Result<(), Fail> {
    let row = row_of(&rt, "1,'a,true");
    let whole = Key::of_row(&row)?;
    assert!(rt; whole == key_of(&rt, "\0\u{1}\u{2}", &row));
    assert!(rt; whole.values().len() == 3);
    assert!(rt; whole.values().len() <= MAX_COLUMNS);
    assert!(rt; cmp_rows(&whole.to_row()?, &row) == Ordering::Equal);
    Ok(())
}

fn by_key(rt: &(impl Abort + AllocGlobal), columns: &str) -> Route {
    let columns = columns.as_bytes().to_vec(rt.alloc());
    Route::ByKey(Columns::from_vec(columns.expect(rt, "memory")))
}

fn target_or_all(row: &Row, route: &Route, from: u16, parts: u16) -> u16 {
    match route {
        Route::Broadcast => 99,
        _ if from < parts => target(row, route, from, parts),
        _ => 98,
    }
}

/// For each route a partition, how many there are, a row, and then where the row goes from there, or 99 where it goes to every
/// partition, the first target and their number, and the first sender and their number.
const FORWARD: &str = "0|1|1,'a,true|0|0 1|0 1;\
    3|4|1,'a,true|3|3 1|3 1;\
    15|16|1,'a,true|15|15 1|15 1";

const GATHER: &str = "0|1|1,'a,true|0|0 1|0 1;\
    0|4|1,'a,true|0|0 1|0 4;\
    3|4|1,'a,true|0|0 1|0 0;\
    0|16|1,'a,true|0|0 1|0 16;\
    15|16|1,'a,true|0|0 1|0 0";

const BROADCAST: &str = "0|1|1,'a,true|99|0 1|0 1;\
    3|4|1,'a,true|99|0 4|0 4;\
    15|16|1,'a,true|99|0 16|0 16";

/// The same of keys, after their columns. The last four pairs are rows that match in a join by these keys.
const BY_KEY: &str = "\0/0|1|1,'a,true|0|0 1|0 1;\
    \0/3|4|1,'a,true|2|0 4|0 4;\
    \0/15|16|1,'a,true|14|0 16|0 16;\
    \u{1}\0/1|16|1,'a,true|13|0 16|0 16;\
    /1|16|1,'a,true|5|0 16|0 16;\
    \0/0|16|1,'a,true|14|0 16|0 16;\
    \u{1}/0|16|'x,1,false|14|0 16|0 16;\
    \0\u{1}/0|16|1,'a,true|7|0 16|0 16;\
    \u{1}\0/0|16|'a,1,true|7|0 16|0 16;\
    \u{1}/0|16|'x,'a|4|0 16|0 16;\
    \u{2}/0|16|1,2,'a|4|0 16|0 16;\
    \0\u{1}/0|16|1,1|11|0 16|0 16;\
    \u{2}\u{2}/0|16|0,0,1|11|0 16|0 16";

fn expect_lead(rt: &(impl Abort + AllocGlobal), route: &Route, case: &str) {
    let at = part(case, "|", 0).parse().expect(rt, "a number");
    let parts = part(case, "|", 1).parse().expect(rt, "a number");
    let (target, targets) = targets(route, at, parts);
    let (sender, senders) = senders(route, at, parts);
    let to = target_or_all(&row_of(rt, part(case, "|", 2)), route, at, parts);
    let found = format!(in rt.alloc(); "|{to}|{target} {targets}|{sender} {senders}");
    assert!(rt;
        case.ends_with(found.expect(rt, "memory").as_str()),
        "{case}"
    );
}

fn expect_leads(rt: &(impl Abort + AllocGlobal), route: &Route, cases: &str) {
    for case in cases.split(";") {
        expect_lead(rt, route, case);
    }
}

#[test]
fn routes_lead_to_partitions(rt: HostRuntime) {
    expect_leads(&rt, &Route::Forward, FORWARD);
    expect_leads(&rt, &Route::Gather, GATHER);
    expect_leads(&rt, &Route::Broadcast, BROADCAST);
}

#[test]
fn rows_of_one_key_meet(rt: HostRuntime) {
    for case in BY_KEY.split(";") {
        let route = by_key(&rt, part(case, "/", 0));
        expect_lead(&rt, &route, part(case, "/", 1));
    }
}
