//! The calls of scripted runs: `sim`, which prints what the firmware prints and a report, and `trace`, which prints the history.
ghost use Rattle.std.specs.Prelude.{◌≡◌, ◌≤◌, ◌^◌, ℕ, List, [], None, Some, IfOk};
ghost use Rattle.wz_base.specs.Outside.{RisesOnly};
ghost use Rattle.chip_core.specs.Chip.{Stands};
ghost use Rattle.chip_sheet.specs.Streams.{Starts};
ghost use Rattle.avr_mcu.specs.State.{McuState, reset_state};
ghost use Rattle.avr_run.specs.Told.{EndWants};
ghost use Rattle.avr_mcu.specs.declared.run.RunEnd as firmware;
ghost use Rattle.chip_hist.specs.declared.limits.TheConstants.{HIGHEST_LIMIT};
ghost use Rattle.board_file.specs.Boards.{IsWithinLimits};
ghost use Rattle.board_sim.specs.Closes.{closed};
ghost use Rattle.board_sim.specs.Ends.{fresh_board, Sims, TracesRun};
ghost use Rattle.board_sim.specs.Finishing.{Finishes, IsLeft, RanTo, Reports, ReportsBehind};
ghost use Rattle.board_sim.specs.Playing.{printing, IsReady};
ghost use Rattle.board_sim.specs.Report.{report_of};
ghost use Rattle.board_sim.specs.Seats.{seen, wanted_of};
ghost use Rattle.board_sim.specs.Traced.{trace_text};

use crate::end::{RunEnd, SimEnd};
use crate::nowhere::Nowhere;
use crate::output::write_report;
use crate::peer::BoardPeer;
use crate::play::{Cut, Play};
use crate::trace::{TraceError, write_trace};
use avr_mcu::Mcu;
use avr_run::RunEnd as FirmwareEnd;
use board_file::Board;
use chip_core::Chip;
use chip_hist::History;
use chip_shared::closing::Closing;
use chip_shared::shared::{Shared, StepEnd};
use flash::Image;
use link_script::ScriptLinks;
use std::alloc::{AllocError, Global};
use wz_base::{Sink, WriteError, write_all};

/// The part after reset, and the board before the first step.
fn begin(alloc: Global, image: Image, board: Board) -> Result<Play, AllocError>
    requires { IsWithinLimits board }
    ensures mcu { IfOk result (λ play. play.mcu ≡ reset_state image) }
    ensures board { IfOk result (λ play. seen play.board ≡ fresh_board board) }
    ensures cycles { IfOk result (λ play. play.cycles ≡ board.cycles) }
    ensures last { IfOk result (λ play. play.last ≡ None) }
    ensures ready { IfOk result (λ play. IsReady play.cycles play.mcu (seen play.board)) }
{
    let history = History::new(alloc, board.events);
    let chip = Chip::new(alloc, board.tx_start, board.rx_start)?;
    let mcu = Mcu::new(alloc, image)?;
    let links = ScriptLinks::new(alloc, board.peers)?;
    Ok(Play {
        mcu,
        board: BoardPeer::new(Shared::new(chip, history, links)),
        cycles: board.cycles,
        last: None,
    })
}

/// Why an event got no answer.
fn unanswered(board: &BoardPeer) -> RunEnd
    requires { board.now.refused ≡ None → ⊥ }
    ensures { (s : McuState) (e : firmware.RunEnd) → EndWants e (wanted_of board.now.refused) → Finishes result (Cut.Step e) s (seen board.now) (seen board.now) }
{
    match board.unanswered() {
        Some(unanswered) => match unanswered.end {
            StepEnd::Stopped(stop) => RunEnd::Chip(stop),
            StepEnd::TraceFull => RunEnd::TraceFull,
            StepEnd::NoMemory => RunEnd::NoMemory,
        },
        None => unreachable!(),
    }
}

/// Closes a run that ended so.
fn close(board: &mut BoardPeer, end: RunEnd) -> RunEnd
    requires { board.old.refused ≡ None }
    ensures end { (result ≡ RunEnd.NoMemory → ⊥) → result ≡ end }
    ensures closes { (result ≡ RunEnd.NoMemory → ⊥) → closed (seen board.old) ≡ seen board.new }
    ensures starts { board.new.now.starts ≡ board.old.now.starts }
{
    match board.close() {
        Closing::NoMemory => RunEnd::NoMemory,
        Closing::Clear | Closing::Waiting | Closing::Faulted | Closing::Full => end,
    }
}

/// The end of a run whose last step ended it.
fn finish_step(board: &mut BoardPeer, end: FirmwareEnd) -> RunEnd
    requires { EndWants end (wanted_of board.old.refused) }
    ensures finishes { (s : McuState) → Finishes result (Cut.Step end) s (seen board.old) (seen board.new) }
    ensures starts { board.new.now.starts ≡ board.old.now.starts }
{
    match end {
        FirmwareEnd::Break => close(board, RunEnd::Break),
        FirmwareEnd::Sleep => close(board, RunEnd::Sleep),
        FirmwareEnd::CycleLimit => close(board, RunEnd::CycleLimit),
        FirmwareEnd::Stop(stop) => RunEnd::Avr(stop),
        FirmwareEnd::Wants(_) => unanswered(board),
    }
}

/// The end of a run that was cut.
fn finish(board: &mut BoardPeer, cut: Cut) -> RunEnd
    requires { (e : firmware.RunEnd) → cut ≡ Cut.Step e → EndWants e (wanted_of board.old.refused) }
    ensures finishes { (s : McuState) → Finishes result cut s (seen board.old) (seen board.new) }
    ensures starts { board.new.now.starts ≡ board.old.now.starts }
{
    match cut {
        Cut::Step(end) => finish_step(board, end),
        Cut::TraceFull => RunEnd::TraceFull,
        Cut::WriteFault => RunEnd::WriteFault,
        Cut::NoMemory => RunEnd::NoMemory,
    }
}

/// The whole run from reset on, but for its report.
fn run<K: Sink>(play: &mut Play, out: &mut K) -> RunEnd
    requires ready { IsReady play.old.cycles play.old.mcu (seen play.old.board) }
    requires limit { play.old.cycles ≤ 2 ^ 63 }
    ensures ran { (image : List ℕ) → play.old.mcu ≡ reset_state image → RanTo result play.old.cycles image (seen play.old.board) play.new.mcu (seen play.new.board)
        (printing (K.written out.old) play.old.last) (printing (K.written out.new) play.new.last) }
    ensures starts { play.new.board.now.starts ≡ play.old.board.now.starts }
    ensures faults { RisesOnly (result ≡ RunEnd.WriteFault) (K.faults out.old) (K.faults out.new) }
{
    let cut = play.go(out);
    finish(&mut play.board, cut)
}

/// What a run leaves that ended so, with its report where one is due.
fn with_report<K: Sink>(alloc: Global, play: Play, end: RunEnd, out: &mut K) -> SimEnd
    ensures left { IsLeft play.board play.mcu result }
    ensures reports { ReportsBehind end (report_of play.board.now.starts play.board.now.log.past play.last play.mcu.devices.cycles play.mcu.trail end) result.end
        (K.written out.old) (K.written out.new) }
    ensures faults { (end ≡ RunEnd.WriteFault → ⊥) → RisesOnly (result.end ≡ RunEnd.WriteFault) (K.faults out.old) (K.faults out.new) }
    ensures still { end ≡ RunEnd.WriteFault → K.faults out.new ≡ K.faults out.old }
{
    let cycles = play.mcu.cycles();
    let (chip, history, links) = play.board.into_parts();
    let end = match end {
        RunEnd::WriteFault | RunEnd::NoMemory => end,
        _ => write_report(alloc, &chip, &history, &play.mcu, play.last, end, out),
    };
    SimEnd {
        history,
        links: Some(links),
        cycles,
        end,
    }
}

/// What a run leaves for which there was no memory.
fn unmade(alloc: Global, events: u64) -> SimEnd
    requires { (1 ≤ events) × (events ≤ HIGHEST_LIMIT) }
    ensures history { result.history.past ≡ [] }
    ensures links { result.links ≡ None }
    ensures cycles { result.cycles ≡ 0 }
    ensures end { result.end ≡ RunEnd.NoMemory }
{
    SimEnd {
        history: History::new(alloc, events),
        links: None,
        cycles: 0,
        end: RunEnd::NoMemory,
    }
}

/// Runs an image on a board with scripted peers. Each byte that the firmware prints is written in the step that printed it, and
/// behind the run comes its report. It uses neither the listens nor the routes of the board.
///
/// What it leaves is one function of the image and the board: the schedule's history, peers, cycles, end and text. `WriteFault`
/// comes exactly where the sink's count of faults rose: then a prefix of the text was written, and where a serial byte failed,
/// the history is that up to the step that printed it. `NoMemory` may come at any time, behind a prefix of the text.
pub fn sim<K: Sink>(alloc: Global, image: Image, board: Board, out: &mut K) -> SimEnd
    requires { IsWithinLimits board }
    ensures { Sims image board result (K.written out.old) (K.written out.new) (K.faults out.old) (K.faults out.new) }
{
    let events = board.events;
    match begin(alloc, image, board) {
        Ok(play) => {
            let mut play = play;
            let end = run(&mut play, out);
            with_report(alloc, play, end, out)
        }
        Err(AllocError) => unmade(alloc, events),
    }
}

/// What a run leaves that ended so, and whose serial output nobody saw.
fn without_report(play: Play, end: RunEnd) -> SimEnd
    ensures left { IsLeft play.board play.mcu result }
    ensures end { result.end ≡ end }
{
    let cycles = play.mcu.cycles();
    let (_chip, history, links) = play.board.into_parts();
    SimEnd {
        history,
        links: Some(links),
        cycles,
        end,
    }
}

/// Writes the trace of a run that ended so.
fn end_traced<K: Sink>(
    alloc: Global,
    history: &History,
    tx_start: u16,
    rx_start: u16,
    end: RunEnd,
    out: &mut K,
) -> RunEnd
    requires { end ≡ RunEnd.WriteFault → ⊥ }
    ensures traces { ReportsBehind end (trace_text (record { tx = tx_start; rx = rx_start }) history.now.past) result (K.written out.old) (K.written out.new) }
    ensures faults { RisesOnly (result ≡ RunEnd.WriteFault) (K.faults out.old) (K.faults out.new) }
{
    match end {
        RunEnd::NoMemory => RunEnd::NoMemory,
        _ => match write_trace(alloc, history, tx_start, rx_start, out) {
            Ok(()) => end,
            Err(TraceError::WriteFault) => RunEnd::WriteFault,
            Err(TraceError::NoMemory) => RunEnd::NoMemory,
        },
    }
}

/// Runs an image on a board as [`sim`] does, but prints no serial byte and no report: behind the run, whatever its end but
/// `NoMemory`, it writes the trace of the history. Its end is the run's.
///
/// `WriteFault` comes exactly where the sink's count of faults rose, and `NoMemory` may come at any time: then a prefix of the
/// trace was written.
pub fn trace<K: Sink>(alloc: Global, image: Image, board: Board, out: &mut K) -> SimEnd
    requires { IsWithinLimits board }
    ensures { TracesRun image board result (K.written out.old) (K.written out.new) (K.faults out.old) (K.faults out.new) }
{
    let (tx_start, rx_start, events) = (board.tx_start, board.rx_start, board.events);
    match begin(alloc, image, board) {
        Ok(play) => {
            let mut play = play;
            let end = run(&mut play, &mut Nowhere);
            let left = without_report(play, end);
            let end = end_traced(alloc, &left.history, tx_start, rx_start, left.end, out);
            SimEnd { end, ..left }
        }
        Err(AllocError) => unmade(alloc, events),
    }
}
