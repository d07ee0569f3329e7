//! Scripts that no check accepts. What is read of others, and where a text is refused, stands in the cases of the top call.
use mit_parse::parse;
use mit_print::print;
use std::process::Abort;

/// Scripts as they are printed: a join of too many columns, a sum in a joined text, and a number of a number.
const SCRIPTS: [&str; 3] = [
    "a = join b $0 , $1 with c $2 , $15 ;\n",
    "x = a ++ b + c ;\n",
    "x = text ( int ( len ( a ) ) ) ;\n",
];

fn expect_printed(rt: &(impl Abort + AllocGlobal), text: &str) {
    let script = parse(rt.alloc(), text.as_bytes()).expect(rt, "a script");
    let printed = print(rt.alloc(), &script).expect(rt, "memory");
    assert!(rt; printed.as_slice() == text.as_bytes(), "{text}");
}

#[test]
fn what_no_check_accepts_is_read_as_it_is_printed(rt: HostRuntime) {
    for text in SCRIPTS {
        expect_printed(&rt, text);
    }
}
