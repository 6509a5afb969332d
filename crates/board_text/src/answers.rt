//! The text of answers, one after another on a line.
ghost use Rattle.std.specs.Prelude.{◌≡◌, ◌<◌, ◌∷◌, ◌++◌, [], List, OnOk};
ghost use Rattle.board_bus.specs.declared.event.BusAnswer.{BusAnswer};
ghost use Rattle.board_text.specs.Answers.{digit, joined, printed, with_end};
ghost use Rattle.board_text.specs.Adding.{spaced, with_printed};

use board_bus::BusAnswer;
use std::alloc::AllocError;

/// A hexadecimal digit, in upper case.
pub fn digit(n: u8) -> u8
    requires { n < 16 }
    ensures { result ≡ digit n }
{
    if n < 10 { b'0' + n } else { b'A' - 10 + n }
}

// Adds a space where something stands before it.
fn push_space(text: &mut Vec<u8>) -> Result<(), AllocError>
    ensures { OnOk result (text.new.items ≡ spaced text.old.items) }
{
    if !text.is_empty() {
        text.push(b' ')?;
    }
    Ok(())
}

// Adds what is printed of an answer, behind a space where something stands before it.
fn push_printed(text: &mut Vec<u8>, answer: BusAnswer) -> Result<(), AllocError>
    ensures { OnOk result (text.new.items ≡ with_printed text.old.items (printed answer)) }
{
    match answer {
        BusAnswer::Done => Ok(()),
        BusAnswer::Out(v) => {
            push_space(text)?;
            text.extend_from_slice(&[digit(v / 16), digit(v % 16)])
        }
        BusAnswer::Level(high) => {
            push_space(text)?;
            text.extend_from_slice(&[if high { b'1' } else { b'0' }])
        }
    }
}

/// Adds an answer to the text of those before it on a line.
///
/// # Errors
///
/// Want of memory alone.
pub fn push_answer(text: &mut Vec<u8>, answer: BusAnswer) -> Result<(), AllocError>
    ensures { OnOk result ((before : List BusAnswer) → text.old.items ≡ joined before → text.new.items ≡ joined (before ++ answer ∷ [])) }
{
    push_printed(text, answer)
}

/// Ends a line where something stands on it.
///
/// # Errors
///
/// Want of memory alone.
pub fn end_line(text: &mut Vec<u8>) -> Result<(), AllocError>
    ensures { OnOk result (text.new.items ≡ with_end text.old.items) }
{
    if !text.is_empty() {
        text.push(b'\n')?;
    }
    Ok(())
}
