//! The tokens of texts. A row is a text, and after an arrow its tokens: a name, `#` and a number, `$` and a column, a text between
//! `<` and `>`, `s` or `k` and the place of a symbol or a keyword.
use mit_lex::{LexStop, TokenKind, tokens};
use std::alloc::{AllocError, Global};
use std::fmt::Write;
use std::process::Abort;

fn write_kind(shown: &mut String, kind: &TokenKind) -> Result<(), AllocError> {
    match kind {
        TokenKind::Name(name) => write!(shown, " {}", name.as_str()),
        TokenKind::Number(value) => write!(shown, " #{value}"),
        TokenKind::Column(value) => write!(shown, " ${value}"),
        TokenKind::Text(text) => write!(shown, " <{}>", text.as_str()),
        TokenKind::Symbol(place) => write!(shown, " s{place}"),
        TokenKind::Keyword(place) => write!(shown, " k{place}"),
    }
}

/// The tokens of a text, each after a blank.
fn shown(alloc: Global, text: &str) -> Result<String, LexStop> {
    let mut shown = String::new(alloc);
    for token in &tokens(alloc, text.as_bytes())? {
        write_kind(&mut shown, &token.kind)?;
    }
    Ok(shown)
}

fn expect_shown(rt: &(impl Abort + AllocGlobal), row: &str) {
    let (text, due) = row.split_once(" =>").expect(rt, "an arrow");
    let found = shown(rt.alloc(), text).expect(rt, "tokens");
    assert!(rt; found.as_str() == due, "{row}: {found}");
}

/// The rows have an empty line between.
const TOKENS: &str = "\u{20}=>\n\n\
    \u{20}\t\r\n# all of it =>\n\n\
    =;,()[]{} => s0 s1 s2 s3 s4 s5 s6 s7 s8\n\n\
    +-*/% => s9 s10 s11 s12 s13\n\n\
    ++ == != < <= > >= => s14 s15 s16 s17 s18 s19 s20\n\n\
    <= => s18\n\n\
    < = => s17 s0\n\n\
    <== => s18 s0\n\n\
    === => s15 s0\n\n\
    ++ => s14\n\n\
    + + => s9 s9\n\n\
    +++ => s14 s9\n\n\
    and or not true false int => k0 k1 k2 k3 k4 k5\n\n\
    text bool len if else while => k6 k7 k8 k9 k10 k11\n\n\
    read write to map filter where => k12 k13 k14 k15 k16 k17\n\n\
    flat words range join with reduce => k18 k19 k20 k21 k22 k23\n\n\
    by union distinct only count sum => k24 k25 k26 k27 k28 k29\n\n\
    min max row empty => k30 k31 k32 k33\n\n\
    If iff i _if if_ if1 => If iff i _if if_ if1\n\n\
    a_1=B2 => a_1 s0 B2\n\n\
    0 7 007 => #0 #7 #7\n\n\
    9223372036854775808 => #9223372036854775808\n\n\
    00000000000000000000000000000000000000005 => #5\n\n\
    12a => #12 a\n\n\
    - 5 => s10 #5\n\n\
    -5 => s10 #5\n\n\
    $0 $15 $07 => $0 $15 $7\n\n\
    $155 => $15 #5\n\n\
    \"\" \"a b\" => <> <a b>\n\n\
    \"\\\" \\\\ \\n \\t\" => <\" \\ \n \t>\n\n\
    \"#;\"# c\ra\nb => <#;> b\n\n\
    \"é𝄞\" # ü => <é𝄞>\n\n\
    a\"in\"b => a <in> b\n\n\
    a#c => a\n\n\
    a#c\n; => a s1";

#[test]
fn texts_have_their_tokens(rt: HostRuntime) {
    for row in TOKENS.split("\n\n") {
        expect_shown(&rt, row);
    }
}

#[test]
fn places_are_in_bytes(rt: HostRuntime) {
    let list = tokens(rt.alloc(), "\"é\" # ü\n <=x".as_bytes()).expect(&rt, "tokens");
    let mut places = String::new(rt.alloc());
    for token in &list {
        write!(places, " {}-{}", token.start, token.end).expect(&rt, "memory");
    }
    assert_eq!(rt; places.as_str(), " 0-4 11-13 13-14");
}
