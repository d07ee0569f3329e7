//! Files, the shelf and the parts of a file, with values from outside.
use crate::given::{files_of, folder_of};
use mit_memory::MemFolder;
use mit_rows::{ColType, Row, Value};
use mit_shelf::{FetchFault, RowsRefused, Shelf, Stop, parse_part};
use mit_world::Files;
use std::alloc::Global;
use std::process::Abort;

fn copied_files(rt: &(impl Abort + AllocGlobal), rows: &str) -> Files {
    files_of(rt, rows).copy(rt.alloc()).expect(rt, "memory")
}

/// Whether the file at this place, from 0, is this one, found by its name too.
fn is_at(files: &Files, place: u64, name: &str, bytes: &[u8]) -> bool {
    place < files.len()
        && files.name_at(place) == name
        && files.bytes_at(place) == bytes
        && files.get(name) == Some(bytes)
}

#[test]
fn files_stand_in_rising_order_and_are_replaced(rt: HostRuntime) {
    let files = copied_files(&rt, "b=2;a=1;c=3;b=22;ab=");
    assert!(rt; is_at(&files, 0, "a", b"1"));
    assert!(rt; is_at(&files, 1, "ab", b""));
    assert!(rt; is_at(&files, 2, "b", b"22"));
    assert!(rt; is_at(&files, 3, "c", b"3"));
    assert!(rt; files.len() == 4);
}

type Fetched = Result<usize, Stop<FetchFault>>;

/// Names, what their fetch answers, and how often the folder was asked by then.
const FETCHES: [(&str, Fetched, u64); 8] = [
    ("a", Ok(0), 1),
    ("a", Ok(0), 1),
    ("b", Err(Stop::Fault(FetchFault::NoFile)), 2),
    ("b", Err(Stop::Fault(FetchFault::NoFile)), 2),
    ("c", Err(Stop::Folder), 3),
    ("c", Ok(2), 4),
    ("c", Ok(2), 4),
    ("a/b", Err(Stop::Fault(FetchFault::BadName)), 4),
];

fn fetches(shelf: &mut Shelf, folder: &mut MemFolder, row: &(&str, Fetched, u64)) -> bool {
    let (name, due, calls) = *row;
    shelf.fetch(name.as_bytes(), folder) == due && folder.calls() == calls
}

fn was_asked(folder: &MemFolder, names: &[&str]) -> bool {
    let asked = folder.asked();
    asked.len() == names.len()
        && asked
            .iter()
            .zip(names)
            .all(|(one, name)| one.as_str() == *name)
}

#[test]
fn a_shelf_asks_for_each_name_once(rt: HostRuntime) {
    let mut folder = folder_of(&rt, "a=1\n;c=", &[3]);
    let mut shelf = Shelf::new(rt.alloc());
    for row in &FETCHES {
        assert!(rt; fetches(&mut shelf, &mut folder, row), "{row:?}");
    }
    assert!(rt; was_asked(&folder, &["a", "b", "c", "c"]));
    assert!(rt; shelf.text(b"a") == Some(b"1\n".as_slice()));
    assert!(rt; shelf.text(b"b").is_none() && shelf.text(b"d").is_none());
}

/// Files of integers, the number of a part of three, and its rows or the first bad record of the file.
const PARTS: [(&str, u16, Result<&[i64], RowsRefused>); 7] = [
    ("0\n1\n2\n3\n4\n5\n6\n7\n", 0, Ok(&[0, 3, 6])),
    ("0\n1\n2\n3\n4\n5\n6\n7\n", 1, Ok(&[1, 4, 7])),
    ("0\n1\n2\n3\n4\n5\n6\n7\n", 2, Ok(&[2, 5])),
    ("0\n", 1, Ok(&[])),
    ("0\n1\n2\nx\n", 0, Err(RowsRefused::BadRow(3))),
    ("0\n1\n2\nx\n", 1, Err(RowsRefused::BadRow(3))),
    ("x\n1\n2\n", 2, Err(RowsRefused::BadRow(0))),
];

fn are_numbers(rows: &[Row], numbers: &[i64]) -> bool {
    rows.len() == numbers.len()
        && rows.iter().zip(numbers).all(|(
            row,
            number,
        )| matches!(row.values(), [Value::Int(found)] if found == number))
}

fn is_part(alloc: Global, file: &str, part: u16, due: Result<&[i64], RowsRefused>) -> bool {
    if part >= 3 {
        return false;
    }
    match parse_part(alloc, file.as_bytes(), &[ColType::Int], part, 3) {
        Ok(rows) => due.is_ok_and(|numbers| are_numbers(&rows, numbers)),
        Err(why) => due == Err(why),
    }
}

#[test]
fn a_part_has_its_rows(rt: HostRuntime) {
    for (file, part, due) in PARTS {
        assert!(rt; is_part(rt.alloc(), file, part, due), "{file} {part}");
    }
}
