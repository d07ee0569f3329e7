ghost use Rattle.std.specs.Prelude.{◌≡◌, ◌<◌, [], IfSome, bytes_eq, length, map, position, slice_get, unwrap_or};
ghost use Rattle.mit_lex.specs.Tables.{keywords, place_of, symbols};
ghost use Rattle.mit_lex.specs.Written.{token_text};
ghost use Rattle.mit_lex.specs.declared.token.TokenKind.TheVariants as token;

/// The symbols; a token has the place of its own.
const SYMBOLS: [&[u8]; 21] = [
    b"=", b";", b",", b"(", b")", b"[", b"]", b"{", b"}", b"+", b"-", b"*", b"/", b"%", b"++",
    b"==", b"!=", b"<", b"<=", b">", b">=",
];

/// The keywords; a token has the place of its own.
const KEYWORDS: [&[u8]; 34] = [
    b"and",
    b"or",
    b"not",
    b"true",
    b"false",
    b"int",
    b"text",
    b"bool",
    b"len",
    b"if",
    b"else",
    b"while",
    b"read",
    b"write",
    b"to",
    b"map",
    b"filter",
    b"where",
    b"flat",
    b"words",
    b"range",
    b"join",
    b"with",
    b"reduce",
    b"by",
    b"union",
    b"distinct",
    b"only",
    b"count",
    b"sum",
    b"min",
    b"max",
    b"row",
    b"empty",
];

/// The place of a symbol.
#[tactic(auto, unfolding(crate::specs::Tables::symbols))]
pub(crate) fn symbol_place(bytes: &[u8]) -> Option<u8>
    ensures { result ≡ place_of bytes.now symbols }
{
    place_among(&SYMBOLS, bytes)
}

/// The place of a keyword.
#[tactic(auto, unfolding(crate::specs::Tables::keywords))]
pub(crate) fn keyword_place(word: &[u8]) -> Option<u8>
    ensures { result ≡ place_of word.now keywords }
{
    place_among(&KEYWORDS, word)
}

/// The first place of these bytes in a short list.
fn place_among(list: &[&[u8]], bytes: &[u8]) -> Option<u8>
    requires { length list.now < 256 }
    ensures { result ≡ position (λ listed. bytes_eq listed.now bytes.now) list.now }
{
    match index_among(list, bytes) {
        Some(index) => Some(index as u8),
        None => None,
    }
}

/// The first index of these bytes in a list.
fn index_among(list: &[&[u8]], bytes: &[u8]) -> Option<usize>
    ensures index { result ≡ position (λ listed. bytes_eq listed.now bytes.now) list.now }
    ensures within { IfSome result (λ index. index < length list.now) }
{
    list.iter().position(|listed| *listed == bytes)
}

/// The bytes of a symbol, by its place in the table.
#[tactic(auto, unfolding(crate::specs::Tables::symbols))]
pub fn symbol_bytes(place: u8) -> &'static [u8]
    ensures { result.now ≡ token_text (token.Symbol place) }
{
    bytes_at(&SYMBOLS, place)
}

/// The bytes of a keyword, by its place in the table.
#[tactic(auto, unfolding(crate::specs::Tables::keywords))]
pub fn keyword_bytes(place: u8) -> &'static [u8]
    ensures { result.now ≡ token_text (token.Keyword place) }
{
    bytes_at(&KEYWORDS, place)
}

/// The bytes at a place of a list.
fn bytes_at(list: &[&'static [u8]], place: u8) -> &'static [u8]
    ensures { result.now ≡ unwrap_or (slice_get (map (λ listed. listed.now) list.now) place) [] }
{
    match list.get(usize::from(place)) {
        Some(bytes) => bytes,
        None => b"",
    }
}
