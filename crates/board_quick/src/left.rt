//! What a command leaves that ends at once, or with the line of a refusal.
ghost use Rattle.std.specs.Prelude.{◌≡◌, ◌⊎◌, ℕ, List, [], Option};
ghost use Rattle.wz_base.specs.Outside.{RisesOnly};
ghost use Rattle.board_gen.specs.Script.{no_starts};
ghost use Rattle.chip_sheet.specs.Legal.{Legal};
ghost use Rattle.board_quick.specs.Outcome.{refused, text_fault, with_last_line, AddsLine, Outcome, Ran, RanUnloaded, Shows};

use crate::end::{EndKind, QuickEnd, Refusal, USAGE, fault_text, status_of};
use crate::loading::LoadError;
use board_gen::ScriptFault;
use chip_hist::history::History;
use std::alloc::{AllocError, Global};
use wz_base::{Sink, WriteError, write_all};

/// How much a history is meant to hold, in units of weight. A script of permitted length never has more.
const WEIGHT_LIMIT: u64 = 33_554_432;

/// What a command leaves that ended so.
pub fn ended(end: EndKind, history: History) -> QuickEnd
    ensures end { result.end ≡ end }
    ensures past { result.history.past ≡ history.past }
    ensures script { result.script ≡ None }
{
    QuickEnd {
        status: status_of(end),
        history,
        script: None,
        end,
    }
}

/// What a command leaves that ended so before anything happened.
pub fn nothing_ran(alloc: Global, end: EndKind) -> QuickEnd
    ensures end { result.end ≡ end }
    ensures past { result.history.past ≡ [] }
    ensures script { result.script ≡ None }
    ensures legal { Legal no_starts result.history.past }
{
    ended(end, History::new(alloc, WEIGHT_LIMIT))
}

/// Writes the line of a refusal, and ends.
pub fn end_refused<K: Sink>(
    alloc: Global,
    refusal: Refusal,
    history: History,
    out: &mut K,
) -> QuickEnd
    ensures adds { AddsLine refusal result.end (K.written out.old) (K.written out.new) }
    ensures past { result.history.past ≡ history.past }
    ensures script { result.script ≡ None }
    ensures faults { RisesOnly (result.end ≡ EndKind.WriteFault) (K.faults out.old) (K.faults out.new) }
{
    match fault_text(alloc, refusal) {
        Ok(text) => match write_all(out, text.as_bytes()) {
            Ok(()) => ended(EndKind::Refused(refusal), history),
            Err(WriteError::WriteFault) => ended(EndKind::WriteFault, history),
        },
        Err(AllocError) => ended(EndKind::NoMemory, history),
    }
}

/// The fault of a text by which a command ends.
fn text_fault(end: EndKind) -> Option<ScriptFault>
    ensures { result ≡ text_fault end }
{
    match end {
        EndKind::Refused(Refusal::Script(fault)) => Some(fault),
        _ => None,
    }
}

/// Ends a command that ran a text and ended so: behind what it wrote comes the line of the text's fault, if it has one.
pub fn end_told<K: Sink>(alloc: Global, end: EndKind, history: History, out: &mut K) -> QuickEnd
    ensures shows { (o : Outcome) (old : Option (List ℕ)) → Shows o end history.past old (K.written out.old) → Shows (with_last_line o) result.end result.history.past old (K.written out.new) }
    ensures past { result.history.past ≡ history.past }
    ensures script { result.script ≡ None }
    ensures causes { (before : ℕ) → RisesOnly (end ≡ EndKind.WriteFault) before (K.faults out.old) → RisesOnly (result.end ≡ EndKind.WriteFault) before (K.faults out.new) }
{
    match text_fault(end) {
        Some(fault) => end_refused(alloc, Refusal::Script(fault), history, out),
        None => ended(end, history),
    }
}

/// Refuses before anything happened.
pub fn refuse<K: Sink>(alloc: Global, refusal: Refusal, out: &mut K) -> QuickEnd
    ensures { Ran (refused refusal) result (K.written out.old) (K.written out.new) (K.faults out.old) (K.faults out.new) }
{
    end_refused(alloc, refusal, History::new(alloc, WEIGHT_LIMIT), out)
}

/// Refuses words that are no written form, for which it takes no memory.
pub fn refuse_words<K: Sink>(alloc: Global, out: &mut K) -> QuickEnd
    ensures ran { Ran (refused Refusal.Usage) result (K.written out.old) (K.written out.new) (K.faults out.old) (K.faults out.new) }
    ensures ends { (result.end ≡ EndKind.Refused Refusal.Usage) ⊎ (result.end ≡ EndKind.WriteFault) }
{
    match write_all(out, USAGE.as_bytes()) {
        Ok(()) => nothing_ran(alloc, EndKind::Refused(Refusal::Usage)),
        Err(WriteError::WriteFault) => nothing_ran(alloc, EndKind::WriteFault),
    }
}

/// Ends a command whose operands were not loaded.
pub fn not_loaded<K: Sink>(alloc: Global, error: LoadError, out: &mut K) -> QuickEnd
    ensures { RanUnloaded error result (K.written out.old) (K.written out.new) (K.faults out.old) (K.faults out.new) }
{
    match error {
        LoadError::Refused(refusal) => refuse(alloc, refusal, out),
        LoadError::NoMemory => nothing_ran(alloc, EndKind::NoMemory),
    }
}
