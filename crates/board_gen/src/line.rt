//! Takes the steps of a line, one after another.

ghost use Rattle.std.specs.Prelude.{◌≡◌, ◌+◌, [], Some, None, IfOk, OnOk, length, IsSome};
ghost use Rattle.chip_sheet.specs.Replay.{told};
ghost use Rattle.board_gen.specs.Tokens.{steps, token_step, tokens};
ghost use Rattle.board_gen.specs.Views.{step_of};
ghost use Rattle.board_gen.specs.Run.{steps_in, GivesLine, GivesStep, GivesWord};
ghost use Rattle.board_gen.specs.SessionState.{HasTextRoom, Spends};

use crate::cuts::first_token;
use crate::session::{Halt, Session};
use crate::token::Token;
use crate::tokens::token_of;
use board_text::answers::push_answer;
use std::alloc::{AllocError, Global};

// The token of a text that is one.
fn token_in(alloc: Global, text: &[u8]) -> Result<Token, AllocError>
    requires { IsSome (token_step text.now) }
    ensures { IfOk result (λ token. token_step text.now ≡ Some (step_of token)) }
{
    match token_of(alloc, text)? {
        Some(token) => Ok(token),
        None => unreachable!(),
    }
}

// Takes a step, and adds the answer to the text of those before it.
fn take_and_print(session: &mut Session, token: &Token, text: &mut Vec<u8>) -> Result<(), Halt>
    requires running { session.old.stopped ≡ None }
    requires light { HasTextRoom session.old.past 0 }
    ensures gives { GivesStep session.old.starts session.old.past (step_of token.now) result session.new.past text.old.items text.new.items }
    ensures starts { session.new.starts ≡ session.old.starts }
    ensures running { OnOk result (session.new.stopped ≡ None) }
{
    match session.take(token) {
        Ok(Some(answer)) => match push_answer(text, answer) {
            Ok(()) => Ok(()),
            Err(AllocError) => Err(Halt::NoMemory),
        },
        Ok(None) => Ok(()),
        Err(halt) => Err(halt),
    }
}

// Takes the step of a token, and adds the answer to the text of those before it.
fn take_word(
    alloc: Global,
    session: &mut Session,
    word: &[u8],
    text: &mut Vec<u8>,
) -> Result<(), Halt>
    requires read { IsSome (token_step word.now) }
    requires running { session.old.stopped ≡ None }
    requires light { HasTextRoom session.old.past 0 }
    ensures gives { GivesWord session.old.starts session.old.past (token_step word.now) result session.new.past text.old.items text.new.items }
    ensures starts { session.new.starts ≡ session.old.starts }
    ensures running { OnOk result (session.new.stopped ≡ None) }
{
    match token_in(alloc, word) {
        Ok(token) => take_and_print(session, &token, text),
        Err(AllocError) => Err(Halt::NoMemory),
    }
}

/// Takes the steps of a line that is read, up to the first that is not taken. The text is then that of the answers.
///
/// # Errors
///
/// The chip's stop, a link event that does not fit, and want of memory.
pub fn run_line(
    alloc: Global,
    session: &mut Session,
    line: &[u8],
    text: &mut Vec<u8>,
) -> Result<(), Halt>
    requires read { IsSome (steps (tokens line.now)) }
    requires running { session.old.stopped ≡ None }
    requires light { HasTextRoom session.old.past (length line.now) }
    requires empty { text.old.items ≡ [] }
    ensures gives { GivesLine (told session.old.starts session.old.past (steps_in line.now)) result session.new.past text.new.items }
    ensures starts { session.new.starts ≡ session.old.starts }
    ensures running { OnOk result (session.new.stopped ≡ None) }
    ensures spent { OnOk result (Spends session.old.past (length line.now + 1) session.new.past) }
{
    let mut rest = line;
    while let Some((word, after)) = first_token(rest) {
        match take_word(alloc, session, word, text) {
            Ok(()) => {}
            Err(halt) => return Err(halt),
        }
        rest = after;
    }
    Ok(())
}
