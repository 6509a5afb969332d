//! Hexadecimal digits.
ghost use Rattle.std.specs.Prelude.{◌≡◌, ◌*◌, ◌≤◌, length};
ghost use Rattle.std.specs.List.{list_all};
ghost use Rattle.ihex.specs.Digits.{is_digit, digit, bytes_of};

// A hexadecimal digit, in either case.
#[tactic(auto, unfolding(crate::specs::Digits::is_digit))]
fn is_digit(c: u8) -> bool
    ensures { result ≡ is_digit c }
{
    (b'0' <= c && c <= b'9') || (b'A' <= c && c <= b'F') || (b'a' <= c && c <= b'f')
}

// The value of a digit; 0 where the character is none.
#[tactic(auto, unfolding(crate::specs::Digits::digit))]
fn digit(c: u8) -> u8
    ensures value { result ≡ digit c }
    ensures small { result ≤ 15 }
{
    if b'0' <= c && c <= b'9' {
        c - b'0'
    } else if b'A' <= c && c <= b'F' {
        c - (b'A' - 10)
    } else if b'a' <= c && c <= b'f' {
        c - (b'a' - 10)
    } else {
        0
    }
}

/// Whether each character is a digit.
pub fn are_digits(text: &[u8]) -> bool
    ensures { result ≡ list_all is_digit text.now }
{
    text.iter().all(|c| is_digit(*c))
}

/// Reads digits, two for each byte.
#[tactic(auto, using(crate::proofs::Pairs::bytes_more, crate::proofs::Pairs::bytes_all))]
pub fn read_bytes(digits: &[u8], bytes: &mut [u8])
    requires { length digits.now ≡ 2 * length bytes.old }
    ensures { bytes.new ≡ bytes_of digits.now }
{
    for i in 0..bytes.len() {
        bytes[i] = 16 * digit(digits[2 * i]) + digit(digits[2 * i + 1]);
    }
}
