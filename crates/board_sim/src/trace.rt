//! The trace of a run: a head, and a line for each entry of its history, the oldest first.
ghost use Rattle.std.specs.Prelude.{◌≡◌, ◌++◌, IsErrOf, OnErr, OnOk};
ghost use Rattle.wz_base.specs.Lines.{Gathers};
ghost use Rattle.wz_base.specs.Outside.{RisesOnly};
ghost use Rattle.wz_base.specs.Whole.{Appends, AppendsFront};
ghost use Rattle.chip_sheet.specs.Past.{entry_of};
ghost use Rattle.board_text.specs.Entries.{entries_text, entry_line};
ghost use Rattle.board_sim.specs.Traced.{trace_text};
ghost use Rattle.board_sim.specs.declared.trace.TraceError.TheVariants.{NoMemory, WriteFault};

use board_text::entries::{push_entry_line, trace_head};
use chip_hist::History;
use chip_sheet::event::Event;
use std::alloc::{AllocError, Global};
use wz_base::{LineBuffer, Sink, WriteError};

/// Why a trace was not written whole.
#[derive(Clone, Copy, Debug, PartialEq, Eq)]
pub enum TraceError {
    /// A call of the sink failed, and its count of faults rose.
    WriteFault,
    /// It ran out of memory.
    NoMemory,
}

impl From<WriteError> for TraceError {
    ghost from_gives = { λ _ e. e ≡ WriteFault };

    fn from(_fault: WriteError) -> TraceError {
        TraceError::WriteFault
    }
}

impl From<AllocError> for TraceError {
    ghost from_gives = { λ _ e. e ≡ NoMemory };

    fn from(_error: AllocError) -> TraceError {
        TraceError::NoMemory
    }
}

// Adds the line of an entry. It is put together in `line`, whose memory serves for all lines.
fn add_entry<K: Sink>(
    event: Event<'_>,
    line: &mut Vec<u8>,
    lines: &mut LineBuffer,
    out: &mut K,
) -> Result<(), TraceError>
    ensures ok { OnOk result (Gathers lines.old (entry_line (entry_of event.entry)) lines.new (K.written out.old) (K.written out.new)) }
    ensures err { OnErr result (AppendsFront (K.written out.old) (lines.old ++ entry_line (entry_of event.entry)) (K.written out.new)) }
    ensures faults { RisesOnly (IsErrOf result TraceError.WriteFault) (K.faults out.old) (K.faults out.new) }
{
    line.clear();
    push_entry_line(line, event)?;
    lines.add(line, out)?;
    Ok(())
}

// Adds the lines of a history, the oldest entry first.
fn add_entries<K: Sink>(
    alloc: Global,
    history: &History,
    lines: &mut LineBuffer,
    out: &mut K,
) -> Result<(), TraceError>
    ensures ok { OnOk result (Gathers lines.old (entries_text history.now.past) lines.new (K.written out.old) (K.written out.new)) }
    ensures err { OnErr result (AppendsFront (K.written out.old) (lines.old ++ entries_text history.now.past) (K.written out.new)) }
    ensures faults { RisesOnly (IsErrOf result TraceError.WriteFault) (K.faults out.old) (K.faults out.new) }
{
    let mut line = Vec::new(alloc);
    for place in 0..history.len() {
        let Some(event) = history.get(place) else {
            return Ok(());
        };
        match add_entry(event, &mut line, lines, out) {
            Ok(()) => {}
            Err(error) => return Err(error),
        }
    }
    Ok(())
}

/// Writes the trace of a history of a chip whose positions of connections begin so. The lines are gathered and written in pieces
/// of whole lines, so that no more memory is taken than for a piece and the longest line.
///
/// # Errors
///
/// `WriteFault` only where the sink's count of faults rose, and `NoMemory` for want of memory alone. A prefix of the trace was
/// then written.
pub fn write_trace<K: Sink>(
    alloc: Global,
    history: &History,
    tx_start: u16,
    rx_start: u16,
    out: &mut K,
) -> Result<(), TraceError>
    ensures ok { OnOk result (Appends (K.written out.old) (trace_text (record { tx = tx_start; rx = rx_start }) history.now.past) (K.written out.new)) }
    ensures err { OnErr result (AppendsFront (K.written out.old) (trace_text (record { tx = tx_start; rx = rx_start }) history.now.past) (K.written out.new)) }
    ensures faults { RisesOnly (IsErrOf result TraceError.WriteFault) (K.faults out.old) (K.faults out.new) }
{
    let head = trace_head(alloc, tx_start, rx_start)?;
    let mut lines = LineBuffer::new(alloc)?;
    lines.add(head.as_bytes(), out)?;
    add_entries(alloc, history, &mut lines, out)?;
    lines.flush(out)?;
    Ok(())
}
