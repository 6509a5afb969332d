//! Whether a text is a script: its first fault. Nothing is kept of its lines.

ghost use Rattle.std.specs.Prelude.{◌≡◌, ◌≤◌, ◌<◌, ◌+◌, ◌^◌, List, IfOk, IfErr, length};
ghost use Rattle.chip_sheet.specs.Replay.{Step};
ghost use Rattle.board_gen.specs.Script.{script_lines, script_of};
ghost use Rattle.board_gen.specs.Faults.{AllRead};
ghost use Rattle.board_gen.specs.Heads.{script_begun};
ghost use Rattle.board_gen.specs.EachLine.{Tells};
ghost use Rattle.board_gen.specs.Tokens.{line_steps, token_step};
ghost use Rattle.board_gen.specs.Views.{Errs};

use crate::cuts::{first_line, first_token};
use crate::fault::ReadError;
use crate::formats::{LineFormat, check_lines};
use crate::head::{Beginning, read_beginning};
use crate::tokens::token_of;
use std::alloc::{AllocError, Global};

// Whether a text is a token.
fn is_token(alloc: Global, text: &[u8]) -> Result<bool, AllocError>
    ensures { IfOk result (λ is. Tells is (token_step text.now)) }
{
    Ok(token_of(alloc, text)?.is_some())
}

// Whether each text between the spaces of a line is a token.
fn are_tokens(alloc: Global, line: &[u8]) -> Result<bool, AllocError>
    ensures { IfOk result (λ are. Tells are (line_steps line.now)) }
{
    let mut rest = line;
    while let Some((word, after)) = first_token(rest) {
        if !is_token(alloc, word)? {
            return Ok(false);
        }
        rest = after;
    }
    Ok(true)
}

// The lines of a script.
struct ScriptFormat;

impl LineFormat for ScriptFormat {
    ghost Found = { List Step };

    ghost lines = { script_lines };

    ghost read = { line_steps };

    fn first_line(text: &[u8]) -> Option<(&[u8], &[u8])> {
        first_line(text)
    }

    fn is_read(alloc: Global, line: &[u8]) -> Result<bool, AllocError> {
        are_tokens(alloc, line)
    }
}

/// Checks that a text is a script, and answers how it begins.
///
/// # Errors
///
/// `Fault` exactly where the text is no script: its first fault, a `BadHead` in line 1 or the first line with a `BadToken`.
/// `NoMemory` where memory is not there.
pub fn check(alloc: Global, text: &[u8]) -> Result<Beginning<'_>, ReadError>
    requires { length text.now + 1 < 2 ^ 32 }
    ensures begun { IfOk result (λ b. script_of text.now ≡ script_begun b) }
    ensures read { IfOk result (λ b. AllRead (script_lines b.rest.now)) }
    ensures within { IfOk result (λ b. b.number + length b.rest.now ≤ length text.now + 1) }
    ensures counted { IfOk result (λ b. 1 ≤ b.number) }
    ensures err { IfErr result (λ e. Errs e (script_of text.now)) }
{
    match read_beginning(text) {
        Ok(begins) => match check_lines::<ScriptFormat>(alloc, begins.rest, begins.number) {
            Ok(()) => Ok(begins),
            Err(error) => Err(error),
        },
        Err(fault) => Err(ReadError::Fault(fault)),
    }
}
