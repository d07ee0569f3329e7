//! How scripts end, worked out by hand: so their plans mean it in any number of partitions, and so they run step by step.
use crate::applied::Site;
use crate::meant::meant;
use mit_check::check;
use mit_memory::MemFolder;
use mit_ops::ScriptFault;
use mit_parse::parse;
use mit_script::Typed;
use mit_shelf::{Shelf, Stop};
use mit_ssa::plan_of;
use mit_step::step_run;
use mit_world::Files;
use std::process::Abort;

/// A script; its files; how many decisions it may take; its writes in order; and how many it takes, or its fault.
const ENDINGS: &str = "\
a = 1; b = 2; c = a == b; if c { y = a; } else { y = b; } z = row [y]; write z to \"z\"; | | 1 | z=2; | 1
t = 1; y = 0; while t <= 2 { if t == 1 { y = y + 10 * t; } t = t + 1; } z = row [y]; write z to \"z\"; | | 5 | z=10; | 5
a = 0; s = 0; while a < 3 { b = 0; while b < a { b = b + 1; s = s + a * b; } a = a + 1; } z = row [s, a]; write z to \"z\"; \
| | 10 | z=7,3; | 10
i = 0; s = 0; while i < 5 and not s == 3 { i = i + 1; s = s + i; } z = row [i, s - 4, i < s]; write z to \"z\"; \
| | 9 | z=2,-1,true; | 3
k = 50; r = read \"f\" (int); n = 0; m = count r; \
while n < m { n = m; s = map r [$0 * 2]; t = filter s where $0 < k; u = union r, t; r = distinct u; m = count r; } \
write r to \"r\"; | f=3 5 | 6 | r=3 5 6 10 12 20 24 40 48; | 6
b = read \"f\" (int); i = 2; while i < 4 { k = map b [$0 / i]; c = reduce k by $0 count; write c to \"c\"; b = map c [$1]; i = i + 1; } \
write b to \"b\"; | f=1 2 3 4 5 6 | 3 | c=0,1 1,2 2,2 3,1;c=0,4;b=4; | 3
i = 0; while i < 3 { i = i + 1; w = row [i * i]; write w to \"w\"; } | | 4 | w=1;w=4;w=9; | 4
a = read \"a\" (int); b = read \"b\" (int); j = join a $0 with b $0; write j to \"j\"; m = map j [$1]; d = distinct m; o = only d; \
z = row [o + 1]; write z to \"z\"; | a=1 2 2;b=2 3 2 | 0 | j=2,2 2,2 2,2 2,2;z=3; | 0
i = 0; while i < 3 { i = i + 1; } x = 1 / 0; y = 1 / 0; | | 4 | | 4 4 DivideByZero
i = 0; while i < 3 { a = 6 / (i - 1); b = 6 / i; i = i + 1; } | | 4 | | 4 1 DivideByZero
i = 0; while i < 3 { a = 6 / (2 - i); i = i + 1; } y = 1 / 0; | | 9 | | 3 3 DivideByZero
c = 1 == 2; if c { x = 1 / 0; } else { x = 7; } z = row [x]; write z to \"z\"; | | 1 | z=7; | 1
if 1 / 0 == 1 { x = 9; } else { x = 7; } y = 9223372036854775807 + 1; | | 0 | | 1 0 DivideByZero
n = read \"n\" (int); m = map n [1 / $0 + 9223372036854775807]; c = count m; | n=1 0 | 0 | | 2 0 DivideByZero
n = read \"n\" (int); m = read \"m\" (int); | n=1 | 0 | | 2 0 NoFile
n = read \"n\" (int); x = only n; y = x / 0; | n=4 5 6 | 0 | | 2 0 NotOne(3)
a = 0; while a < 3 { b = 0; while b < a { b = b + 1; } a = a + 1; } | | 6 | | 4 6 DecisionLimit
a = 0; while a < 3 { b = 0; while b < a { b = b + 1; } a = a + 1; } | | 9 | | 2 9 DecisionLimit
i = 0; while i < 3 { a = 6 / (1 - i); i = i + 1; } | | 2 | | 3 2 DivideByZero";

/// The part of a row with this number.
fn part<'a>(rt: &impl Abort, row: &'a str, number: usize) -> &'a str {
    row.split("|").nth(number).expect(rt, "a part").trim()
}

fn limit_of(rt: &impl Abort, row: &str) -> u32 {
    part(rt, row, 2).parse::<u32>().expect(rt, "a number")
}

fn typed(rt: &(impl Abort + AllocGlobal), row: &str) -> Typed {
    let script = parse(rt.alloc(), part(rt, row, 0).as_bytes()).expect(rt, "a script");
    check(rt.alloc(), script).expect(rt, "an accepted script")
}

fn expect_end(rt: &(impl Abort + AllocGlobal), end: Result<u32, ScriptFault>, row: &str) {
    let found = match end {
        Ok(decisions) => format!(in rt.alloc(); "{decisions}"),
        Err(
            ScriptFault {
                statement,
                decisions,
                kind,
            },
        ) => { format!(in rt.alloc(); "{statement} {decisions} {kind:?}") }
    };
    let found = found.expect(rt, "memory");
    assert!(rt; found.as_str() == part(rt, row, 4), "{row}: {found}");
}

#[test]
fn plans_mean_how_scripts_end(rt: HostRuntime) {
    for row in ENDINGS.lines() {
        let plan = plan_of(rt.alloc(), &typed(&rt, row)).expect(&rt, "a plan");
        let files = part(&rt, row, 1);
        for partitions in [1, 2, 5] {
            let site = Site { files, partitions };
            let (writes, end) = meant(&rt, &plan, site, limit_of(&rt, row));
            assert!(&rt;
                end.is_err() || writes.as_str() == part(&rt, row, 3),
                "{row}: {writes}"
            );
            expect_end(&rt, end, row);
        }
    }
}

/// Files of these rows, each with a line feed behind it. A later file replaces an earlier one of its name.
fn files_of(rt: &(impl Abort + AllocGlobal), text: &str) -> Files {
    let mut files = Files::new(rt.alloc());
    for file in text.split(";") {
        if let Some((name, rows)) = file.split_once("=") {
            let mut bytes = String::new(rt.alloc());
            for row in rows.split(" ") {
                bytes.push_str(row).expect(rt, "memory");
                bytes.push_str("\n").expect(rt, "memory");
            }
            files.put(name, bytes.as_bytes()).expect(rt, "memory");
        }
    }
    files
}

fn expect_files(rt: &impl Abort, files: &Files, due: &Files) {
    assert_eq!(rt; files.len(), due.len());
    for (name, bytes) in due.iter() {
        assert_eq!(rt; files.get(name), Some(bytes));
    }
}

#[test]
fn scripts_end_so_step_by_step(rt: HostRuntime) {
    for row in ENDINGS.lines() {
        let script = typed(&rt, row);
        let mut shelf = Shelf::new(rt.alloc());
        let mut folder = MemFolder::new(files_of(&rt, part(&rt, row, 1)), Vec::new(rt.alloc()));
        let limit = limit_of(&rt, row);
        let end = match step_run(rt.alloc(), &script, limit, &mut shelf, &mut folder) {
            Ok(stepped) => {
                expect_files(&rt, &stepped.files, &files_of(&rt, part(&rt, row, 3)));
                Ok(stepped.decisions)
            }
            Err(Stop::Fault(fault)) => Err(fault),
            Err(_) => panic!(&rt; "no folder or no memory"),
        };
        expect_end(&rt, end, row);
    }
}
