//! Runs the lines of a script, one after another.

ghost use Rattle.std.specs.Prelude.{◌≡◌, ◌<◌, ◌+◌, ◌^◌, [], None, OnOk, Option, List, ℕ, length, IsSome};
ghost use Rattle.wz_base.specs.Outside.{RisesOnly};
ghost use Rattle.chip_sheet.specs.Past.{Past};
ghost use Rattle.board_gen.specs.Tokens.{steps, tokens};
ghost use Rattle.board_gen.specs.Script.{script_lines};
ghost use Rattle.board_gen.specs.Faults.{AllRead};
ghost use Rattle.board_gen.specs.Shown.{Shown, one_shown, shown_from, Shows};
ghost use Rattle.board_gen.specs.Run.{ended, lines_in, steps_in, IsEnded, IsOwn, Keeps};
ghost use Rattle.board_gen.specs.SessionState.{HasTextRoom, Spends};

use crate::cuts::first_line;
use crate::end::ScriptStop;
use crate::fault::{ScriptFault, ScriptKind};
use crate::line::run_line;
use crate::session::{Halt, Session};
use board_text::answers::end_line;
use board_text::stops::stop_line;
use std::alloc::{AllocError, Global};
use wz_base::{LineBuffer, Sink, WriteError};

// Ends the text of a line's answers: a line feed where something stands on it, and then the line of a stop.
fn end_text(alloc: Global, end: ScriptStop, text: &mut Vec<u8>) -> Result<(), AllocError>
    ensures { OnOk result (text.new.items ≡ ended text.old.items end) }
{
    end_line(text)?;
    match end {
        ScriptStop::Chip(stop) => {
            let line = stop_line(alloc, stop)?;
            text.extend_from_slice(line.as_bytes())
        }
        _ => Ok(()),
    }
}

// Adds the text of a line that ended so to what waits. The text of its answers stands in the buffer.
fn print_line<K: Sink>(
    alloc: Global,
    end: ScriptStop,
    text: &mut Vec<u8>,
    lines: &mut LineBuffer,
    out: &mut K,
) -> ScriptStop
    requires own { IsOwn end }
    ensures keeps { (whole : Shown) (past : Past) → IsEnded whole end past text.old.items → Keeps whole result past lines.old lines.new (K.written out.old) (K.written out.new) }
    ensures done { result ≡ ScriptStop.Done → end ≡ ScriptStop.Done }
    ensures faults { RisesOnly (result ≡ ScriptStop.WriteFault) (K.faults out.old) (K.faults out.new) }
{
    match end_text(alloc, end, text) {
        Ok(()) => match lines.add(text.as_slice(), out) {
            Ok(()) => end,
            Err(WriteError::WriteFault) => ScriptStop::WriteFault,
        },
        Err(AllocError) => ScriptStop::NoMemory,
    }
}

// Runs the line with this number, and adds its text to what waits.
fn run_and_print<K: Sink>(
    alloc: Global,
    session: &mut Session,
    line: &[u8],
    number: u32,
    text: &mut Vec<u8>,
    lines: &mut LineBuffer,
    out: &mut K,
) -> ScriptStop
    requires read { IsSome (steps (tokens line.now)) }
    requires running { session.old.stopped ≡ None }
    requires light { HasTextRoom session.old.past (length line.now) }
    ensures keeps { Keeps (one_shown session.old.starts session.old.past number (steps_in line.now)) result session.new.past lines.old lines.new (K.written out.old) (K.written out.new) }
    ensures starts { session.new.starts ≡ session.old.starts }
    ensures running { result ≡ ScriptStop.Done → session.new.stopped ≡ None }
    ensures spent { result ≡ ScriptStop.Done → Spends session.old.past (length line.now + 1) session.new.past }
    ensures faults { RisesOnly (result ≡ ScriptStop.WriteFault) (K.faults out.old) (K.faults out.new) }
{
    text.clear();
    match run_line(alloc, session, line, text) {
        Ok(()) => print_line(alloc, ScriptStop::Done, text, lines, out),
        Err(Halt::Stopped(stop)) => print_line(alloc, ScriptStop::Chip(stop), text, lines, out),
        Err(Halt::NotDue) => {
            let fault = ScriptFault {
                line: number,
                kind: ScriptKind::NotDue,
            };
            print_line(alloc, ScriptStop::Fault(fault), text, lines, out)
        }
        Err(Halt::NoMemory) => ScriptStop::NoMemory,
    }
}

// Runs lines that are read, the first of which has this number, up to the first that does not come to its end. What is printed of
// the last ones may wait.
fn run_lines<K: Sink>(
    alloc: Global,
    session: &mut Session,
    script: &[u8],
    first: u32,
    lines: &mut LineBuffer,
    out: &mut K,
) -> ScriptStop
    requires read { AllRead (script_lines script.now) }
    requires running { session.old.stopped ≡ None }
    requires few { first + length script.now < 2 ^ 32 }
    requires light { HasTextRoom session.old.past (length script.now) }
    requires empty { lines.old ≡ [] }
    ensures keeps { Keeps (shown_from session.old.starts session.old.past first (lines_in script.now)) result session.new.past [] lines.new (K.written out.old) (K.written out.new) }
    ensures starts { session.new.starts ≡ session.old.starts }
    ensures faults { RisesOnly (result ≡ ScriptStop.WriteFault) (K.faults out.old) (K.faults out.new) }
{
    let mut text = Vec::new(alloc);
    let mut rest = script;
    let mut number = first;
    while let Some((line, after)) = first_line(rest) {
        match run_and_print(alloc, session, line, number, &mut text, lines, out) {
            ScriptStop::Done => {}
            end => return end,
        }
        rest = after;
        number += 1;
    }
    ScriptStop::Done
}

/// Runs lines that are read, the first of which has this number, up to the first that does not come to its end. The lines of
/// their answers are gathered in the buffer, and written in pieces of whole lines.
pub fn run_script<K: Sink>(
    alloc: Global,
    session: &mut Session,
    script: &[u8],
    first: u32,
    lines: &mut LineBuffer,
    out: &mut K,
) -> ScriptStop
    requires read { AllRead (script_lines script.now) }
    requires running { session.old.stopped ≡ None }
    requires few { first + length script.now < 2 ^ 32 }
    requires light { HasTextRoom session.old.past (length script.now) }
    requires empty { lines.old ≡ [] }
    ensures shows { Shows (shown_from session.old.starts session.old.past first (lines_in script.now)) result session.new.past (K.written out.old) (K.written out.new) }
    ensures starts { session.new.starts ≡ session.old.starts }
    ensures faults { RisesOnly (result ≡ ScriptStop.WriteFault) (K.faults out.old) (K.faults out.new) }
{
    match run_lines(alloc, session, script, first, lines, out) {
        ScriptStop::WriteFault => ScriptStop::WriteFault,
        ScriptStop::NoMemory => ScriptStop::NoMemory,
        end => match lines.flush(out) {
            Ok(()) => end,
            Err(WriteError::WriteFault) => ScriptStop::WriteFault,
        },
    }
}
