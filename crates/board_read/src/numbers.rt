//! Numbers and addresses, in decimal.
ghost use Rattle.std.specs.Prelude.{◌≡◌, ◌==◌, ◌≤◌, [], ◌∷◌, IfSome};
ghost use Rattle.std.specs.List.{slice_split};
ghost use Rattle.board_read.specs.Numbers.{number, at_most, port, count, has_leading_zero, written, pointer, four_bytes, address};

use crate::cuts::cut;

// The number of one to ten decimal digits.
fn number(text: &[u8]) -> Option<u64>
    ensures { result ≡ number text.now }
{
    if text.is_empty() || text.len() > 10 {
        return None;
    }
    let mut value: u64 = 0;
    for digit in text {
        if *digit < b'0' || *digit > b'9' {
            return None;
        }
        value = value * 10 + u64::from(*digit - b'0');
    }
    Some(value)
}

// A number of at most `max`.
fn number_at_most(text: &[u8], max: u64) -> Option<u64>
    ensures is { result ≡ at_most max (number text.now) }
    ensures fits { IfSome result (λ n. n ≤ max) }
{
    match number(text) {
        Some(n) if n <= max => Some(n),
        _ => None,
    }
}

/// A port: one to ten digits of at most 65535.
pub fn port(text: &[u8]) -> Option<u16>
    ensures { result ≡ port text.now }
{
    match number_at_most(text, 65_535) {
        Some(n) => Some(n as u16),
        None => None,
    }
}

/// A count of bytes: one to ten digits of at most 4294967295.
pub fn count(text: &[u8]) -> Option<u32>
    ensures { result ≡ count text.now }
{
    match number_at_most(text, 4_294_967_295) {
        Some(n) => Some(n as u32),
        None => None,
    }
}

fn has_leading_zero(text: &[u8]) -> bool
    ensures { result ≡ has_leading_zero text.now }
{
    match text {
        [first, _, ..] => *first == b'0',
        _ => false,
    }
}

// A number without leading zeros.
fn written(text: &[u8], max: u64) -> Option<u64>
    ensures is { result ≡ written max text.now }
    ensures fits { IfSome result (λ n. n ≤ max) }
{
    if has_leading_zero(text) {
        None
    } else {
        number_at_most(text, max)
    }
}

/// A start pointer: a number of at most 65535 without leading zeros.
pub fn pointer(text: &[u8]) -> Option<u16>
    ensures { result ≡ pointer text.now }
{
    match written(text, 65_535) {
        Some(n) => Some(n as u16),
        None => None,
    }
}

// A byte of an address.
fn address_byte(text: &[u8]) -> Option<u8>
    ensures { result ≡ written 255 text.now }
{
    match written(text, 255) {
        Some(n) => Some(n as u8),
        None => None,
    }
}

// The four bytes of an address, from the parts between its dots.
fn four_bytes(a: &[u8], b: &[u8], c: &[u8], d: &[u8]) -> Option<[u8; 4]>
    ensures { result ≡ four_bytes (a.now ∷ b.now ∷ c.now ∷ d.now ∷ []) }
{
    Some([
        address_byte(a)?,
        address_byte(b)?,
        address_byte(c)?,
        address_byte(d)?,
    ])
}

// The four bytes of an address, from its first three parts and what stands behind them.
fn with_last(a: &[u8], b: &[u8], c: &[u8], rest: &[u8]) -> Option<[u8; 4]>
    ensures { result ≡ four_bytes (a.now ∷ b.now ∷ c.now ∷ slice_split (λ b. b == 46) rest.now) }
{
    match cut(rest, b'.') {
        Some(_) => None,
        None => four_bytes(a, b, c, rest),
    }
}

/// The bytes of an address: four numbers of 0 to 255 without leading zeros, with dots between. What stands behind a fourth dot is
/// not looked at.
pub fn address(text: &[u8]) -> Option<[u8; 4]>
    ensures { result ≡ address text.now }
{
    let (a, rest) = cut(text, b'.')?;
    let (b, rest) = cut(rest, b'.')?;
    let (c, rest) = cut(rest, b'.')?;
    with_last(a, b, c, rest)
}
