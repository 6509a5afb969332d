//! Whether a text is a trace: its first fault. Nothing is kept of its lines.

ghost use Rattle.std.specs.Prelude.{◌≡◌, ◌≤◌, ◌<◌, ◌+◌, ◌^◌, Err, IfOk, IfErr, length};
ghost use Rattle.chip_sheet.specs.declared.event.Entry.{Entry};
ghost use Rattle.board_gen.specs.Views.{Errs};
ghost use Rattle.board_judge.specs.Entries.{entry_read};
ghost use Rattle.board_judge.specs.Trace.{trace_lines, trace_of};
ghost use Rattle.board_judge.specs.Run.{AllRead};
ghost use Rattle.board_judge.specs.Views.{trace_begun};

use crate::entry::entry_of_line;
use crate::head::{StartPointers, head};
use crate::lines::first_line;
use board_gen::formats::{LineFormat, check_lines};
use board_gen::{ReadError, ScriptFault, ScriptKind};
use std::alloc::{AllocError, Global};

/// Where the pointers start, and the lines that hold entries.
#[derive(Clone, Copy, Debug, PartialEq, Eq)]
pub struct Beginning<'a> {
    /// Where the positions of connections start.
    pub starts: StartPointers,
    /// The text behind the first line.
    pub rest: &'a [u8],
}

// The fault of the first line.
const NO_HEAD: ScriptFault = ScriptFault {
    line: 1,
    kind: ScriptKind::BadHead,
};

// How a trace begins.
fn read_beginning(text: &[u8]) -> Result<Beginning<'_>, ScriptFault>
    ensures ok { IfOk result (λ b. trace_of text.now ≡ trace_begun b) }
    ensures err { IfErr result (λ fault. trace_of text.now ≡ Err fault) }
    ensures within { IfOk result (λ b. length b.rest.now ≤ length text.now) }
{
    match first_line(text) {
        Some((line, rest)) => match head(line) {
            Some(starts) => Ok(Beginning { starts, rest }),
            None => Err(NO_HEAD),
        },
        None => Err(NO_HEAD),
    }
}

// The lines of a trace.
struct TraceFormat;

impl LineFormat for TraceFormat {
    ghost Found = { Entry };

    ghost lines = { trace_lines };

    ghost read = { entry_read };

    fn first_line(text: &[u8]) -> Option<(&[u8], &[u8])> {
        first_line(text)
    }

    fn is_read(alloc: Global, line: &[u8]) -> Result<bool, AllocError> {
        Ok(entry_of_line(alloc, line)?.is_some())
    }
}

/// Checks that a text is a trace, and answers how it begins.
///
/// # Errors
///
/// `Fault` exactly where the text is no trace: its first fault, a `BadHead` in line 1 or the first line with a `BadToken`.
/// `NoMemory` where memory is not there.
pub fn check(alloc: Global, text: &[u8]) -> Result<Beginning<'_>, ReadError>
    requires { length text.now + 2 < 2 ^ 32 }
    ensures begun { IfOk result (λ b. trace_of text.now ≡ trace_begun b) }
    ensures read { IfOk result (λ b. AllRead (trace_lines b.rest.now)) }
    ensures within { IfOk result (λ b. length b.rest.now ≤ length text.now) }
    ensures err { IfErr result (λ e. Errs e (trace_of text.now)) }
{
    match read_beginning(text) {
        Ok(begins) => match check_lines::<TraceFormat>(alloc, begins.rest, 2) {
            Ok(()) => Ok(begins),
            Err(error) => Err(error),
        },
        Err(fault) => Err(ReadError::Fault(fault)),
    }
}
