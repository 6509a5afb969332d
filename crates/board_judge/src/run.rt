//! Judges the entries of a trace, one after another.

ghost use Rattle.std.specs.Prelude.{◌≡◌, ◌≤◌, ◌*◌, [], Some, IfOk, OnOk, IsSome, length};
ghost use Rattle.chip_sheet.specs.Past.{entry_of};
ghost use Rattle.chip_sheet.specs.Legal.{Legal};
ghost use Rattle.chip_core.specs.Chip.{starts_of};
ghost use Rattle.board_gen.specs.SessionState.{HasTextRoom};
ghost use Rattle.board_gen.specs.declared.session.TheConstants.{WEIGHT_LIMIT};
ghost use Rattle.board_judge.specs.Entries.{entry_read};
ghost use Rattle.board_judge.specs.Judged.{judged};
ghost use Rattle.board_judge.specs.Run.{AllRead, GivesEntry, GivesJudged, IsOfChip, Together, entry_of_line, entries_in};
ghost use Rattle.board_judge.specs.Trace.{trace_lines};
ghost use Rattle.board_judge.specs.Views.{entry_said};

use crate::chip::fault_of;
use crate::end::JudgeFault;
use crate::entries::TraceEntry;
use crate::entry::entry_of_line;
use crate::lines::first_line;
use chip_core::Chip;
use chip_core::laws::{short_is_few, starts_are};
use chip_hist::data_len;
use chip_hist::history::History;
use chip_sheet::event::Event;
use std::alloc::{AllocError, Global};

/// Why a history is judged no further.
#[derive(Clone, Copy, Debug, PartialEq, Eq)]
pub enum Halt {
    /// An entry breaks the datasheet.
    Broken(JudgeFault),
    /// Memory was not there.
    NoMemory,
}

// Judges an event, which is added to the history where the datasheet allows it.
fn judge_event(chip: &mut Chip, history: &mut History, event: Event<'_>) -> Result<(), Halt>
    requires together { Together (starts_of chip.old) chip.old history.old }
    requires room { HasTextRoom history.old.past 0 }
    requires chip { IsOfChip (entry_of event) }
    ensures gives { GivesEntry (starts_of chip.old) history.old.past (entry_of event.entry) result history.new.past }
    ensures together { OnOk result (Together (starts_of chip.old) chip.new history.new) }
    ensures starts { OnOk result (starts_of chip.new ≡ starts_of chip.old) }
{
    if history.reserve(1, data_len(event)).is_err() {
        return Err(Halt::NoMemory);
    }
    short_is_few();
    starts_are();
    match fault_of(chip, history.len(), event) {
        Some(fault) => Err(Halt::Broken(fault)),
        None => {
            history.push(event);
            Ok(())
        }
    }
}

// The entry of a line that is one.
fn entry_in(alloc: Global, line: &[u8]) -> Result<TraceEntry, AllocError>
    requires { IsSome (entry_read line.now) }
    ensures { IfOk result (λ entry. entry_read line.now ≡ Some (entry_said entry)) }
{
    match entry_of_line(alloc, line)? {
        Some(entry) => Ok(entry),
        None => unreachable!(),
    }
}

// Judges the entry of a line.
fn judge_line(
    alloc: Global,
    chip: &mut Chip,
    history: &mut History,
    line: &[u8],
) -> Result<(), Halt>
    requires read { IsSome (entry_read line.now) }
    requires together { Together (starts_of chip.old) chip.old history.old }
    requires room { HasTextRoom history.old.past 0 }
    ensures gives { GivesEntry (starts_of chip.old) history.old.past (entry_of_line line.now) result history.new.past }
    ensures together { OnOk result (Together (starts_of chip.old) chip.new history.new) }
    ensures starts { OnOk result (starts_of chip.new ≡ starts_of chip.old) }
{
    match entry_in(alloc, line) {
        Ok(entry) => judge_event(chip, history, entry.event()),
        Err(AllocError) => Err(Halt::NoMemory),
    }
}

/// Judges the entries of lines that are read, up to the first that breaks the datasheet. Those before it are the history.
///
/// # Errors
///
/// The first entry that breaks the datasheet, and want of memory.
pub fn judge_lines(
    alloc: Global,
    chip: &mut Chip,
    history: &mut History,
    text: &[u8],
) -> Result<(), Halt>
    requires read { AllRead (trace_lines text.now) }
    requires together { Together (starts_of chip.old) chip.old history.old }
    requires empty { history.old.past ≡ [] }
    requires short { length text.now ≤ 2 * WEIGHT_LIMIT }
    ensures gives { GivesJudged (judged (starts_of chip.old) [] (entries_in text.now)) result history.new.past }
    ensures legal { Legal (starts_of chip.old) history.new.past }
{
    let mut rest = text;
    while let Some((line, after)) = first_line(rest) {
        match judge_line(alloc, chip, history, line) {
            Ok(()) => {}
            Err(halt) => return Err(halt),
        }
        rest = after;
    }
    Ok(())
}
