//! Scripts that are run: what `bus` does with a text.
ghost use Rattle.std.specs.Prelude.{◌≡◌, ◌≤◌, ◌+◌, ◌*◌, [], length};
ghost use Rattle.wz_base.specs.Outside.{RisesOnly};
ghost use Rattle.chip_sheet.specs.Legal.{Legal};
ghost use Rattle.board_gen.specs.Faults.{AllRead};
ghost use Rattle.board_gen.specs.Heads.{starts_said};
ghost use Rattle.board_gen.specs.Run.{lines_in, IsOwn};
ghost use Rattle.board_gen.specs.Script.{script_lines};
ghost use Rattle.board_gen.specs.Shown.{script_starts, shown, shown_from, Shows};
ghost use Rattle.board_gen.specs.declared.session.TheConstants.{WEIGHT_LIMIT};

use crate::check::check;
use crate::end::{ScriptEnd, ScriptStop};
use crate::fault::ReadError;
use crate::head::Beginning;
use crate::run::run_script;
use crate::session::{Session, WEIGHT_LIMIT};
use chip_hist::history::History;
use std::alloc::{AllocError, Global};
use wz_base::{LineBuffer, Sink};

// What is left where nothing ran.
fn nothing_ran(alloc: Global, end: ScriptStop) -> ScriptEnd
    ensures end { result.end ≡ end }
    ensures past { result.history.past ≡ [] }
{
    ScriptEnd {
        history: History::new(alloc, WEIGHT_LIMIT),
        end,
    }
}

// Runs a script that is read, with the room in which its lines are gathered.
fn run_with<K: Sink>(
    alloc: Global,
    begins: Beginning<'_>,
    lines: &mut LineBuffer,
    out: &mut K,
) -> ScriptEnd
    requires read { AllRead (script_lines begins.rest.now) }
    requires within { begins.number + length begins.rest.now ≤ 2 * WEIGHT_LIMIT + 1 }
    requires counted { 1 ≤ begins.number }
    requires empty { lines.old ≡ [] }
    ensures shows { Shows (shown_from (starts_said begins.entry) [] begins.entry.number (lines_in begins.entry.rest.now)) result.end result.history.past (K.written out.old) (K.written out.new) }
    ensures legal { Legal (starts_said begins.entry) result.history.past }
    ensures faults { RisesOnly (result.end ≡ ScriptStop.WriteFault) (K.faults out.old) (K.faults out.new) }
{
    match Session::new(alloc, begins.tx_start, begins.rx_start) {
        Ok(mut session) => {
            let end = run_script(alloc, &mut session, begins.rest, begins.number, lines, out);
            ScriptEnd {
                history: session.into_history(),
                end,
            }
        }
        Err(AllocError) => nothing_ran(alloc, ScriptStop::NoMemory),
    }
}

// Runs a script that is read.
fn run_read<K: Sink>(alloc: Global, begins: Beginning<'_>, out: &mut K) -> ScriptEnd
    requires read { AllRead (script_lines begins.rest.now) }
    requires within { begins.number + length begins.rest.now ≤ 2 * WEIGHT_LIMIT + 1 }
    requires counted { 1 ≤ begins.number }
    ensures shows { Shows (shown_from (starts_said begins.entry) [] begins.entry.number (lines_in begins.entry.rest.now)) result.end result.history.past (K.written out.old) (K.written out.new) }
    ensures legal { Legal (starts_said begins.entry) result.history.past }
    ensures faults { RisesOnly (result.end ≡ ScriptStop.WriteFault) (K.faults out.old) (K.faults out.new) }
{
    match LineBuffer::new(alloc) {
        Ok(mut lines) => run_with(alloc, begins, &mut lines, out),
        Err(AllocError) => nothing_ran(alloc, ScriptStop::NoMemory),
    }
}

/// Runs a script of at most 67,108,864 bytes, and writes the answers of its bytes and looks: a line for each of its lines that
/// has some. A stop of the chip is written as a line `stop NAME` with its values. Nothing is kept of the text's lines.
///
/// # Ends
///
/// `Fault` exactly where the text is no script, by its first fault, and nothing runs or is written then; or where a link event
/// does not fit, in its line: what came before is written. `Chip` exactly where an event has that stop. `WriteFault` exactly
/// where the sink's count of faults rose; then what was written is a front of the text, and the history one of the whole history.
/// `NoMemory` may come at any time, with the same kept.
pub fn script<K: Sink>(alloc: Global, text: &[u8], out: &mut K) -> ScriptEnd
    requires { length text.now ≤ 2 * WEIGHT_LIMIT }
    ensures shows { Shows (shown text.now) result.end result.history.past (K.written out.old) (K.written out.new) }
    ensures legal { Legal (script_starts text.now) result.history.past }
    ensures faults { RisesOnly (result.end ≡ ScriptStop.WriteFault) (K.faults out.old) (K.faults out.new) }
{
    match check(alloc, text) {
        Ok(begins) => run_read(alloc, begins, out),
        Err(ReadError::Fault(fault)) => nothing_ran(alloc, ScriptStop::Fault(fault)),
        Err(ReadError::NoMemory) => nothing_ran(alloc, ScriptStop::NoMemory),
    }
}
