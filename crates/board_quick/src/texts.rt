//! Commands on the text of one file, and `--help`.
ghost use Rattle.std.specs.Prelude.{◌≡◌, ◌≤◌, [], length};
ghost use Rattle.ihex.specs.Text.{fault_in};
ghost use Rattle.board_quick.specs.Words.{forms};
ghost use Rattle.board_quick.specs.declared.reading.TheConstants.{TEXT_LIMIT};
ghost use Rattle.board_quick.specs.Checked.{judged_image};
ghost use Rattle.board_quick.specs.Outcome.{at_rest, end_of, end_of_judge, judge_outcome, listed_outcome, script_outcome, text_outcome, Ran};

use crate::end::{EndKind, QuickEnd, Refusal};
use crate::left::{end_told, nothing_ran, refuse};
use crate::words::TextCommand;
use board_gen::{ScriptStop, script};
use board_judge::{JudgeStop, judge};
use board_list::list;
use ihex::{HexError, load};
use std::alloc::{AllocError, Global};
use wz_base::{LineBuffer, Sink, WriteError, write_all};

/// The written forms, each on a line of its own.
const FORMS: &str =
    "run HEX BOARD\nsim HEX BOARD\ntrace HEX BOARD\ncheck HEX BOARD\nbus SCRIPT\njudge TRACE\nlist HEX\ngen N\n--help\n";

/// Prints the written forms.
pub fn help<K: Sink>(alloc: Global, out: &mut K) -> QuickEnd
    ensures { Ran (at_rest EndKind.Done forms) result (K.written out.old) (K.written out.new) (K.faults out.old) (K.faults out.new) }
{
    match write_all(out, FORMS.as_bytes()) {
        Ok(()) => nothing_ran(alloc, EndKind::Done),
        Err(WriteError::WriteFault) => nothing_ran(alloc, EndKind::WriteFault),
    }
}

/// How a command ends that ran a script.
fn end_of(end: ScriptStop) -> EndKind
    ensures { result ≡ end_of end }
{
    match end {
        ScriptStop::Done => EndKind::Done,
        ScriptStop::Fault(fault) => EndKind::Refused(Refusal::Script(fault)),
        ScriptStop::Chip(stop) => EndKind::Chip(stop),
        ScriptStop::WriteFault => EndKind::WriteFault,
        ScriptStop::NoMemory => EndKind::NoMemory,
    }
}

/// Runs the text of a script.
fn run_script<K: Sink>(alloc: Global, text: &[u8], out: &mut K) -> QuickEnd
    requires { length text.now ≤ TEXT_LIMIT }
    ensures { Ran (script_outcome text.now) result (K.written out.old) (K.written out.new) (K.faults out.old) (K.faults out.new) }
{
    let ran = script(alloc, text, out);
    end_told(alloc, end_of(ran.end), ran.history, out)
}

/// How a command ends that judged a trace.
fn end_of_judge(end: JudgeStop) -> EndKind
    ensures { result ≡ end_of_judge end }
{
    match end {
        JudgeStop::Done => EndKind::Done,
        JudgeStop::Fault(fault) => EndKind::Refused(Refusal::Script(fault)),
        JudgeStop::Judged(fault) => EndKind::Refused(Refusal::Judged(fault)),
        JudgeStop::WriteFault => EndKind::WriteFault,
        JudgeStop::NoMemory => EndKind::NoMemory,
    }
}

/// Judges the text of a trace.
fn judge_trace<K: Sink>(alloc: Global, text: &[u8], out: &mut K) -> QuickEnd
    requires { length text.now ≤ TEXT_LIMIT }
    ensures { Ran (judge_outcome text.now) result (K.written out.old) (K.written out.new) (K.faults out.old) (K.faults out.new) }
{
    let judged = judge(alloc, text, out);
    end_told(alloc, end_of_judge(judged.end), judged.history, out)
}

/// Lists the image of an Intel HEX text, with the room in which lines are gathered.
fn list_with<K: Sink>(alloc: Global, text: &[u8], lines: &mut LineBuffer, out: &mut K) -> QuickEnd
    requires within { length text.now ≤ TEXT_LIMIT }
    requires empty { lines.old ≡ [] }
    ensures { Ran (listed_outcome (judged_image text.now (fault_in text.now))) result (K.written out.old) (K.written out.new) (K.faults out.old) (K.faults out.new) }
{
    match load(alloc, text) {
        Ok(image) => match list(&image, lines, out) {
            Ok(()) => nothing_ran(alloc, EndKind::Done),
            Err(WriteError::WriteFault) => nothing_ran(alloc, EndKind::WriteFault),
        },
        Err(HexError::Fault(fault)) => refuse(alloc, Refusal::Hex(fault), out),
        Err(HexError::NoMemory) => nothing_ran(alloc, EndKind::NoMemory),
    }
}

/// Lists the image of an Intel HEX text. The room in which lines are gathered is taken here, once.
fn list_text<K: Sink>(alloc: Global, text: &[u8], out: &mut K) -> QuickEnd
    requires { length text.now ≤ TEXT_LIMIT }
    ensures { Ran (listed_outcome (judged_image text.now (fault_in text.now))) result (K.written out.old) (K.written out.new) (K.faults out.old) (K.faults out.new) }
{
    match LineBuffer::new(alloc) {
        Ok(mut lines) => list_with(alloc, text, &mut lines, out),
        Err(AllocError) => nothing_ran(alloc, EndKind::NoMemory),
    }
}

/// Does what is asked of the text of a file.
pub fn on_text<K: Sink>(alloc: Global, what: TextCommand, text: &[u8], out: &mut K) -> QuickEnd
    requires { length text.now ≤ TEXT_LIMIT }
    ensures { Ran (text_outcome what text.now) result (K.written out.old) (K.written out.new) (K.faults out.old) (K.faults out.new) }
{
    match what {
        TextCommand::Bus => run_script(alloc, text, out),
        TextCommand::Judge => judge_trace(alloc, text, out),
        TextCommand::List => list_text(alloc, text, out),
    }
}
