//! The printed text of trees that have no type, which no command prints.
use crate::given::part;
use mit_parse::parse;
use mit_print::print;
use std::process::Abort;

/// Statements, and how they are printed.
const UNTYPED: &str = "d=(a+b)++c; => d = a + b ++ c ;\n\
    d=a+(b++c); => d = a + ( b ++ c ) ;\n\
    d=(a<b)++c; => d = ( a < b ) ++ c ;\n\
    d=$15; => d = $15 ;\n\
    d=flat c words $15++a,\"\\t\"; => d = flat c words $15 ++ a , \"\\t\" ;\n\
    d=flat a range 0,$15+1; => d = flat a range 0 , $15 + 1 ;";

fn expect_printed(rt: &(impl Abort + AllocGlobal), row: &str) {
    let script = parse(rt.alloc(), part(row, " => ", 0).as_bytes()).expect(rt, "a script");
    let printed = print(rt.alloc(), &script).expect(rt, "memory");
    let line = format!(in rt.alloc(); "{}\n", part(row, " => ", 1)).expect(rt, "memory");
    assert!(rt; printed.as_slice() == line.as_bytes(), "{row}");
}

#[test]
fn trees_without_a_type_are_printed(rt: HostRuntime) {
    for row in UNTYPED.lines() {
        expect_printed(&rt, row);
    }
}

#[test]
fn variables_are_named_in_the_order_of_the_text(rt: HostRuntime) {
    let script = parse(rt.alloc(), b"b = a; c = b;").expect(&rt, "a script");
    for (name, due) in script.names.as_slice().iter().zip(["b", "a", "c"]) {
        assert!(rt; name.as_str() == due);
    }
    assert!(rt; script.names.as_slice().len() == 3);
}
