//! Traces that are judged: what `judge` does with a text.
ghost use Rattle.std.specs.Prelude.{◌≡◌, ◌≤◌, ◌*◌, [], length};
ghost use Rattle.wz_base.specs.Outside.{RisesOnly};
ghost use Rattle.chip_sheet.specs.Past.{Past};
ghost use Rattle.chip_sheet.specs.Legal.{Legal};
ghost use Rattle.board_gen.specs.declared.session.TheConstants.{WEIGHT_LIMIT};
ghost use Rattle.board_judge.specs.Judged.{Judged, judged};
ghost use Rattle.board_judge.specs.Run.{AllRead, GivesJudged, entries_in};
ghost use Rattle.board_judge.specs.Shown.{Prints, Shows, end_of, shown, told, trace_starts};
ghost use Rattle.board_judge.specs.Trace.{trace_lines};
ghost use Rattle.board_judge.specs.Views.{starts_said};

use crate::check::{Beginning, check};
use crate::end::{JudgeEnd, JudgeFault, JudgeStop};
use crate::run::{Halt, judge_lines};
use crate::verdict::verdict_text;
use board_gen::ReadError;
use board_gen::session::WEIGHT_LIMIT;
use chip_core::Chip;
use chip_hist::history::History;
use std::alloc::{AllocError, Global};
use wz_base::{Sink, WriteError, write_all};

// What is left where nothing was judged.
fn nothing_judged(alloc: Global, end: JudgeStop) -> JudgeEnd
    ensures end { result.end ≡ end }
    ensures past { result.history.past ≡ [] }
{
    JudgeEnd {
        history: History::new(alloc, WEIGHT_LIMIT),
        end,
    }
}

// The end of a history with this fault, or with none.
fn end_of(fault: Option<JudgeFault>) -> JudgeStop
    ensures { result ≡ end_of fault }
{
    match fault {
        None => JudgeStop::Done,
        Some(fault) => JudgeStop::Judged(fault),
    }
}

// Writes the verdict on a history of so many events.
fn print_verdict<K: Sink>(
    alloc: Global,
    count: u64,
    fault: Option<JudgeFault>,
    out: &mut K,
) -> JudgeStop
    ensures prints { Prints count fault result (K.written out.old) (K.written out.new) }
    ensures faults { RisesOnly (result ≡ JudgeStop.WriteFault) (K.faults out.old) (K.faults out.new) }
{
    match verdict_text(alloc, count, fault) {
        Ok(text) => match write_all(out, &text) {
            Ok(()) => end_of(fault),
            Err(WriteError::WriteFault) => JudgeStop::WriteFault,
        },
        Err(AllocError) => JudgeStop::NoMemory,
    }
}

// Writes the verdict on a history whose entries were judged so.
fn print_judged<K: Sink>(
    alloc: Global,
    count: u64,
    judged: Result<(), Halt>,
    out: &mut K,
) -> JudgeStop
    ensures shows { (whole : Judged) (past : Past) → length past ≡ count → GivesJudged whole judged past → Shows (told whole) result past (K.written out.old) (K.written out.new) }
    ensures faults { RisesOnly (result ≡ JudgeStop.WriteFault) (K.faults out.old) (K.faults out.new) }
{
    match judged {
        Ok(()) => print_verdict(alloc, count, None, out),
        Err(Halt::Broken(fault)) => print_verdict(alloc, count, Some(fault), out),
        Err(Halt::NoMemory) => JudgeStop::NoMemory,
    }
}

// Judges a trace that is read.
fn judge_read<K: Sink>(alloc: Global, begins: Beginning<'_>, out: &mut K) -> JudgeEnd
    requires read { AllRead (trace_lines begins.rest.now) }
    requires short { length begins.rest.now ≤ 2 * WEIGHT_LIMIT }
    ensures shows { Shows (told (judged (starts_said begins.entry.starts) [] (entries_in begins.entry.rest.now))) result.end result.history.past (K.written out.old) (K.written out.new) }
    ensures legal { Legal (starts_said begins.entry.starts) result.history.past }
    ensures faults { RisesOnly (result.end ≡ JudgeStop.WriteFault) (K.faults out.old) (K.faults out.new) }
{
    match Chip::new(alloc, begins.starts.tx_start, begins.starts.rx_start) {
        Ok(mut chip) => {
            let mut history = History::new(alloc, WEIGHT_LIMIT);
            let judged = judge_lines(alloc, &mut chip, &mut history, begins.rest);
            let end = print_judged(alloc, history.len(), judged, out);
            JudgeEnd { history, end }
        }
        Err(AllocError) => nothing_judged(alloc, JudgeStop::NoMemory),
    }
}

/// Judges a trace of at most 67,108,864 bytes, and writes the verdict, one line: `legal N` for a history of N events that the
/// datasheet allows, and else the first place that it does not, from 0: `differs P EXPECTED FOUND` where the chip answers
/// otherwise, `unfit P` where a link event does not fit, `stops P NAME` with the values where an event of the bus has a stop.
/// Nothing is kept of the text but the chip and the history.
///
/// # Ends
///
/// `Done` exactly where the text is a trace of a history that the datasheet allows. `Fault` exactly where the text is no trace,
/// by its first fault, and nothing is judged or written then. `Judged` exactly at the first place that is not allowed; the
/// history is what comes before it. `WriteFault` exactly where the sink's count of faults rose; then what was written is a front
/// of the text. `NoMemory` may come at any time; then nothing is written, and the history is a front of the whole one.
pub fn judge<K: Sink>(alloc: Global, text: &[u8], out: &mut K) -> JudgeEnd
    requires { length text.now ≤ 2 * WEIGHT_LIMIT }
    ensures shows { Shows (shown text.now) result.end result.history.past (K.written out.old) (K.written out.new) }
    ensures legal { Legal (trace_starts text.now) result.history.past }
    ensures faults { RisesOnly (result.end ≡ JudgeStop.WriteFault) (K.faults out.old) (K.faults out.new) }
{
    match check(alloc, text) {
        Ok(begins) => judge_read(alloc, begins, out),
        Err(ReadError::Fault(fault)) => nothing_judged(alloc, JudgeStop::Fault(fault)),
        Err(ReadError::NoMemory) => nothing_judged(alloc, JudgeStop::NoMemory),
    }
}
