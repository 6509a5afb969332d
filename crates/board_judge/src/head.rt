//! The first line of a trace.

ghost use Rattle.std.specs.Prelude.{◌≡◌, ◌==◌, ◌∷◌, option_map};
ghost use Rattle.std.specs.List.{slice_split};
ghost use Rattle.board_judge.specs.Trace.{pointers, two_numbers, numbers, head};
ghost use Rattle.board_judge.specs.Views.{starts_said};

use board_read::cuts::cut;
use board_read::numbers::pointer;

/// What stands before the numbers: the name of the format and its version.
const VERSION: &[u8] = b"w5500 trace 1 ";

/// Where the positions of connections start.
#[derive(Clone, Copy, Debug, PartialEq, Eq)]
pub struct StartPointers {
    /// Where the positions of the sent bytes start.
    pub tx_start: u16,
    /// Where the positions of the received bytes start.
    pub rx_start: u16,
}

// Two pointers, each where it is readable.
fn pointers(tx: Option<u16>, rx: Option<u16>) -> Option<StartPointers>
    ensures { option_map starts_said result ≡ pointers tx rx }
{
    match (tx, rx) {
        (Some(tx_start), Some(rx_start)) => Some(StartPointers { tx_start, rx_start }),
        _ => None,
    }
}

// A number and another one behind the space, which is the only one.
fn two_numbers(tx: &[u8], rest: &[u8]) -> Option<StartPointers>
    ensures { option_map starts_said result ≡ two_numbers (tx.now ∷ slice_split (λ b. b == 32) rest.now) }
{
    match cut(rest, b' ') {
        Some(_) => None,
        None => pointers(pointer(tx), pointer(rest)),
    }
}

// Two numbers with one space between.
fn numbers(text: &[u8]) -> Option<StartPointers>
    ensures { option_map starts_said result ≡ numbers text.now }
{
    match cut(text, b' ') {
        Some((tx, rest)) => two_numbers(tx, rest),
        None => None,
    }
}

/// Where the positions of connections start, by the first line of a trace; `None` exactly where it is not `w5500 trace 1 TX RX`
/// with two numbers of 0 to 65535 without leading zeros.
pub fn head(line: &[u8]) -> Option<StartPointers>
    ensures { option_map starts_said result ≡ head line.now }
{
    if line.starts_with(VERSION) {
        numbers(&line[VERSION.len()..])
    } else {
        None
    }
}
