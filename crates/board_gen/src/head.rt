//! How a script begins.

ghost use Rattle.std.specs.Prelude.{◌≡◌, ◌≤◌, ◌+◌, Err, IfOk, IfErr, length};
ghost use Rattle.board_gen.specs.Script.{head, behind_start, pointers, script_of};
ghost use Rattle.board_gen.specs.Heads.{head_said, script_begun};
ghost use Rattle.board_gen.specs.Tokens.{tokens};

use crate::cuts::{first_line, first_token};
use crate::fault::{ScriptFault, ScriptKind};
use board_read::numbers::pointer;

/// What the first line of a script says.
#[derive(Clone, Copy, Debug, PartialEq, Eq)]
pub enum Head {
    /// It does not begin with `start`.
    NoHead,
    /// `start TX RX`.
    Pointers {
        /// Where the positions of the sent bytes start.
        tx: u16,
        /// Where the positions of the received bytes start.
        rx: u16,
    },
    /// It begins with `start`, and two numbers of 0 to 65535 are not what follows.
    Unreadable,
}

/// Where the pointers start, and the lines that hold steps.
#[derive(Clone, Copy, Debug, PartialEq, Eq)]
pub struct Beginning<'a> {
    /// Where the positions of the sent bytes start.
    pub tx_start: u16,
    /// Where the positions of the received bytes start.
    pub rx_start: u16,
    /// The number of the first line that holds steps: 2 behind a line `start TX RX`, and else 1.
    pub number: u32,
    /// The text from that line on.
    pub rest: &'a [u8],
}

// What two pointers say, each where it is readable.
fn pointers(tx: Option<u16>, rx: Option<u16>) -> Head
    ensures { head_said result ≡ pointers tx rx }
{
    match (tx, rx) {
        (Some(tx), Some(rx)) => Head::Pointers { tx, rx },
        _ => Head::Unreadable,
    }
}

// What stands behind the word `start`.
fn behind_start(text: &[u8]) -> Head
    ensures { head_said result ≡ behind_start (tokens text.now) }
{
    match first_token(text) {
        Some((tx, text)) => match first_token(text) {
            Some((rx, text)) => match first_token(text) {
                Some(_) => Head::Unreadable,
                None => pointers(pointer(tx), pointer(rx)),
            },
            None => Head::Unreadable,
        },
        None => Head::Unreadable,
    }
}

// What a first line says.
fn head_of(line: &[u8]) -> Head
    ensures { head_said result ≡ head (tokens line.now) }
{
    match first_token(line) {
        Some((word, text)) if word == b"start".as_slice() => behind_start(text),
        _ => Head::NoHead,
    }
}

/// How a script begins.
///
/// # Errors
///
/// `BadHead` in line 1 exactly where the first token is `start`, and two numbers of 0 to 65535 are not what follows.
pub fn read_beginning(text: &[u8]) -> Result<Beginning<'_>, ScriptFault>
    ensures ok { IfOk result (λ b. script_of text.now ≡ script_begun b) }
    ensures err { IfErr result (λ fault. script_of text.now ≡ Err fault) }
    ensures within { IfOk result (λ b. b.number + length b.rest.now ≤ length text.now + 1) }
    ensures counted { IfOk result (λ b. 1 ≤ b.number) }
{
    let whole = Beginning {
        tx_start: 0,
        rx_start: 0,
        number: 1,
        rest: text,
    };
    match first_line(text) {
        None => Ok(whole),
        Some((line, after)) => match head_of(line) {
            Head::NoHead => Ok(whole),
            Head::Pointers { tx, rx } => Ok(Beginning {
                tx_start: tx,
                rx_start: rx,
                number: 2,
                rest: after,
            }),
            Head::Unreadable => Err(ScriptFault {
                line: 1,
                kind: ScriptKind::BadHead,
            }),
        },
    }
}
