ghost use Rattle.std.specs.Prelude.{◌≡◌, ◌≤◌, ◌+◌, ◌-◌, ◌*◌, ◌^◌, ◌⊎◌, true, false, neg_ℤ, pos, length, option_map, IfSome, IfNone, IsTrue};
ghost use Rattle.std.specs.Char.{digit_value, is_ascii_digit};
ghost use Rattle.std.specs.Str.Parse.{starts_with_minus};
ghost use Rattle.mit_rows.specs.Integers.{int_of, magnitude};

/// The largest integer of 64 bits.
const MOST_ABOVE: u64 = 9_223_372_036_854_775_807;

/// The size of the smallest one.
const MOST_BELOW: u64 = 9_223_372_036_854_775_808;

/// The value of decimal digits of the value so far and one more, where it fits 64 bits.
#[inline]
fn append_digit(value: u64, byte: u8) -> Option<u64>
    ensures some { IfSome result (λ next.
        (is_ascii_digit byte ≡ true) × (next ≡ value * 10 + digit_value byte)) }
    ensures none { IfNone result (
        (is_ascii_digit byte ≡ false) ⊎ (2 ^ 64 ≤ value * 10 + digit_value byte)) }
{
    if !byte.is_ascii_digit() {
        return None;
    }
    value.checked_mul(10)?.checked_add(u64::from(byte - b'0'))
}

/// The value of one or more decimal digits, where it is at most `most`.
fn parse_digits(digits: &[u8], most: u64) -> Option<u64>
    ensures value { result ≡ magnitude most digits.now }
    ensures bound { IfSome result (λ value. value ≤ most) }
{
    if digits.is_empty() {
        return None;
    }
    let mut value: u64 = 0;
    for byte in digits {
        value = append_digit(value, *byte)?;
    }
    if value <= most { Some(value) } else { None }
}

/// The number `-size`.
fn negated(size: u64) -> i64
    requires { size ≤ 2 ^ 63 }
    ensures { result ≡ neg_ℤ (pos size) }
{
    if size == 0 { 0 } else { -1 - (size - 1) as i64 }
}

/// Digits after a `-` as an integer.
fn parse_below(digits: &[u8]) -> Option<i64>
    ensures { result ≡ option_map (λ size. neg_ℤ (pos size)) (magnitude (2 ^ 63) digits.now) }
{
    Some(negated(parse_digits(digits, MOST_BELOW)?))
}

/// Digits with no sign as an integer.
fn parse_above(digits: &[u8]) -> Option<i64>
    ensures { result ≡ option_map pos (magnitude (2 ^ 63 - 1) digits.now) }
{
    Some(parse_digits(digits, MOST_ABOVE)? as i64)
}

/// Whether a text begins with `-`.
fn has_minus(text: &[u8]) -> bool
    ensures value { result ≡ starts_with_minus text.now }
    ensures room { IsTrue result → 1 ≤ length text.now }
{
    !text.is_empty() && text[0] == b'-'
}

/// A text as an integer: an optional `-` and one or more decimal digits, with a value within 64 bits; none for any other.
pub fn parse_int(text: &[u8]) -> Option<i64>
    ensures { result ≡ int_of text.now }
{
    if has_minus(text) {
        parse_below(&text[1..])
    } else {
        parse_above(text)
    }
}
