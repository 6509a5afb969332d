//! The top call: every command.
ghost use Rattle.std.specs.Prelude.{◌≡◌, ◌≤◌, ◌⊎◌, ℕ, List, Option, None, Some, true, false, map, string_bytes, IsSome, IfSome};
ghost use Rattle.wz_base.specs.Outside.{Rose, RisesOnly};
ghost use Rattle.link_trait.specs.Shown.{IsFresh};
ghost use Rattle.board_top.specs.Complete.{Completes};
ghost use Rattle.board_quick.specs.Ends.{status_of};
ghost use Rattle.board_quick.specs.Reads.{counts};
ghost use Rattle.board_quick.specs.Words.{asks_live, command_of};
ghost use Rattle.board_quick.specs.Outcome.{asks_run, IsLegal};
ghost use Rattle.board_quick.specs.Runs.{end_of_run, IsOfRun, IsTied};
ghost use Rattle.board_top.specs.Tops.{IsBeside, ReportsRun, ReportsTop};

use crate::end::TopEnd;
use board_quick::end::{EndKind, QuickEnd, Refusal, status_of};
use board_quick::left::not_loaded;
use board_quick::loading::load_both;
use board_quick::quick::quick;
use board_quick::runs::end_of_run;
use board_quick::words::{Command, command_of};
use board_run::live::{LiveEnd, live};
use link_trait::links::Links;
use live_trait::{Gate, Poller};
use std::alloc::Global;
use std::sync::Wait;
use std::thread::Threads;
use wz_base::{Files, Sink};

/// What a command leaves for which no live run began.
fn beside<L, P>(left: QuickEnd, links: L, poller: P) -> TopEnd<L, P>
    ensures { IsBeside left links poller result }
{
    TopEnd {
        status: left.status,
        history: left.history,
        links,
        poller,
        script: left.script,
        end: left.end,
    }
}

/// What a command leaves whose live run left this.
fn left_by<L, P>(ran: LiveEnd<L, P>) -> TopEnd<L, P>
    ensures end { result.end ≡ end_of_run ran.end }
    ensures history { result.history ≡ ran.history }
    ensures links { result.links ≡ ran.links }
    ensures poller { result.poller ≡ ran.poller }
    ensures script { result.script ≡ None }
{
    let end = end_of_run(ran.end);
    TopEnd {
        status: status_of(end),
        history: ran.history,
        links: ran.links,
        poller: ran.poller,
        script: None,
        end,
    }
}

/// Reads the files of an image and of a board, and runs the image on the board, live.
fn run<
    R: Threads + Wait + Sync,
    F: Files,
    K: Sink,
    L: Links + Send + Drop,
    P: Poller + Send + Drop,
    G: Gate + Sync,
>(
    rt: &R,
    alloc: Global,
    image: &str,
    board: &str,
    files: &mut F,
    out: &mut K,
    links: L,
    poller: P,
    gate: &G,
) -> TopEnd<L, P>
    requires { IsFresh (L.shown links) }
    ensures { ReportsRun L.shown P.faults (F.held files.old) (counts (F.misses files.old) (F.faults files.old)) (counts (F.misses files.new) (F.faults files.new)) image.now board.now links poller result (K.written out.old) (K.written out.new) (K.faults out.old) (K.faults out.new) }
{
    match load_both(alloc, files, image, board) {
        Ok((image, board)) => left_by(live(rt, alloc, image, board, out, links, poller, gate)),
        Err(error) => beside(not_loaded(alloc, error, out), links, poller),
    }
}

/// Does what the words ask.
fn perform<
    R: Threads + Wait + Sync,
    F: Files,
    K: Sink,
    L: Links + Send + Drop,
    P: Poller + Send + Drop,
    G: Gate + Sync,
>(
    rt: &R,
    alloc: Global,
    words: &[String],
    files: &mut F,
    out: &mut K,
    links: L,
    poller: P,
    gate: &G,
) -> TopEnd<L, P>
    requires { IsFresh (L.shown links) }
    ensures reports { ReportsTop L.shown P.faults (F.held files.old) (counts (F.misses files.old) (F.faults files.old)) (counts (F.misses files.new) (F.faults files.new)) (command_of (map string_bytes words.now)) links poller result (K.written out.old) (K.written out.new) (K.faults out.old) (K.faults out.new) }
    ensures no_form { command_of (map string_bytes words.now) ≡ None → (result.end ≡ EndKind.Refused Refusal.Usage) ⊎ (result.end ≡ EndKind.WriteFault) }
{
    match command_of(words) {
        Some(Command::Run { image, board }) => {
            run(rt, alloc, image, board, files, out, links, poller, gate)
        }
        _ => match quick(alloc, words, files, out) {
            Some(left) => beside(left, links, poller),
            None => unreachable!(),
        },
    }
}

/// Does what the words ask, those after the program's name: it is [`quick`], or for a `run` the live run of the image on the
/// board over these links, on two threads; then it may wait, and owes no return. No connection of the links was made yet. Where
/// no live run began (other words, a refusal, no memory for it), links and poller come back as they were.
///
/// # Ends
///
/// Of other words those of [`quick`]. Of a `run` first `NoFile`, `ReadFault`, `TooLong`, `Hex` and `Board`, by what was read and
/// by the texts, as there; else the end of the live run. By the firmware's run is meant that of the instruction table on exactly
/// the answers of the history. `Break`, `Sleep`, `CycleLimit` and `Avr` come exactly where that run ends so, unless a write
/// failed or memory ran out. `Chip` comes where it wants an event more, which has this stop after all that happened; `TraceFull`
/// where it wants one and the history is full; `PollFault` where it wants one and the poller's count of faults rose. `WriteFault`
/// comes exactly where the sink's count of faults rose, behind a prefix of the text. `NoMemory` may come at any time, behind a
/// prefix of the text. No other end comes.
///
/// So where no call of files, sink and poller fails, each form of words has the end that its texts say, or `NoMemory`; and a
/// `run` of an image and a board without a fault has the firmware's own, or at an event that got no answer the chip's stop or a
/// full history.
pub fn top<
    R: Threads + Wait + Sync,
    F: Files,
    K: Sink,
    L: Links + Send + Drop,
    P: Poller + Send + Drop,
    G: Gate + Sync,
>(
    rt: &R,
    alloc: Global,
    words: &[String],
    files: &mut F,
    out: &mut K,
    links: L,
    poller: P,
    gate: &G,
) -> TopEnd<L, P>
    requires { IsFresh (L.shown links) }
    ensures reports { ReportsTop L.shown P.faults (F.held files.old) (counts (F.misses files.old) (F.faults files.old)) (counts (F.misses files.new) (F.faults files.new)) (command_of (map string_bytes words.now)) links poller result (K.written out.old) (K.written out.new) (K.faults out.old) (K.faults out.new) }
    ensures legal { IsLegal result.history.past }
    ensures status { result.status ≡ status_of result.end }

    // But for a `run`, links and poller are as they were. Scripted peers stand where a scripted run was asked for and made them,
    // and they agree with the history; only such a run or a `run` has a run's ends.
    ensures unlinked { asks_live (command_of (map string_bytes words.now)) ≡ false → (result.links ≡ links) × (result.poller ≡ poller) }
    ensures scripted { IfSome result.script (λ script. asks_run (command_of (map string_bytes words.now)) ≡ true) }
    ensures tied { IfSome result.script (λ script. IsTied result.history.past script) }
    ensures made { IsOfRun result.end → asks_live (command_of (map string_bytes words.now)) ≡ false → IsSome result.script }

    // Each answer that is not of the texts has its cause.
    ensures usage { result.end ≡ EndKind.Refused Refusal.Usage → command_of (map string_bytes words.now) ≡ None }
    ensures no_form { command_of (map string_bytes words.now) ≡ None → (result.end ≡ EndKind.Refused Refusal.Usage) ⊎ (result.end ≡ EndKind.WriteFault) }
    ensures misses { (operand : ℕ) → result.end ≡ EndKind.Refused (Refusal.NoFile operand) → Rose (F.misses files.old) (F.misses files.new) }
    ensures read_faults { (operand : ℕ) → result.end ≡ EndKind.Refused (Refusal.ReadFault operand) → Rose (F.faults files.old) (F.faults files.new) }
    ensures write_faults { RisesOnly (result.end ≡ EndKind.WriteFault) (K.faults out.old) (K.faults out.new) }
    ensures poll_faults { result.end ≡ EndKind.PollFault → (asks_live (command_of (map string_bytes words.now)) ≡ true) × Rose (P.faults poller) (P.faults result.poller) }
    ensures polls { P.faults poller ≤ P.faults result.poller }

    // Where the files are told, and no call of files, sink and poller fails, memory ran out, or the end is that of the words, of
    // what the files hold, and of the firmware's run.
    ensures complete { (held : List ℕ → Option (List ℕ)) → F.held files.old ≡ Some held
        → (Rose (F.faults files.old) (F.faults files.new) → ⊥) → (Rose (K.faults out.old) (K.faults out.new) → ⊥) → (Rose (P.faults poller) (P.faults result.poller) → ⊥)
        → (result.end ≡ EndKind.NoMemory) ⊎ Completes held (command_of (map string_bytes words.now)) result.history.past result.end }
{
    perform(rt, alloc, words, files, out, links, poller, gate)
}
