//! The live run.
ghost use Rattle.std.specs.Prelude.{◌≡◌, ◌≤◌, ◌^◌, ℕ, List, [], None, Some, IfOk};
ghost use Rattle.wz_base.specs.Outside.{RisesOnly};
ghost use Rattle.chip_core.specs.Chip.{Stands, starts_of, stop_kept};
ghost use Rattle.chip_hist.specs.declared.limits.TheConstants.{HIGHEST_LIMIT};
ghost use Rattle.chip_shared.specs.Tied.{Tied};
ghost use Rattle.link_trait.specs.Shown.{IsFresh};
ghost use Rattle.avr_mcu.specs.State.{reset_state};
ghost use Rattle.board_file.specs.Boards.{IsWithinLimits, Setup};
ghost use Rattle.board_sim.specs.Finishing.{ReportsBehind};
ghost use Rattle.board_sim.specs.Report.{report_of};
ghost use Rattle.board_run.specs.Going.{IsReady};
ghost use Rattle.board_run.specs.Leaving.{Begins, Leaves};
ghost use Rattle.board_run.specs.Lives.{Lives, left_of};
ghost use Rattle.board_run.specs.Wires.{IsFirst};

use crate::ending::{end_both, report_end};
use crate::firmware::Firmware;
use crate::threads::{Ran, Served, run_both};
use crate::wire::Wire;
use avr_mcu::Mcu;
use board_file::Board;
use board_sim::end::RunEnd;
use chip_core::Chip;
use chip_hist::History;
use chip_lock::pass::Pass;
use chip_lock::turn::Turn;
use chip_shared::shared::Shared;
use flash::Image;
use link_trait::links::Links;
use live_trait::{Gate, Poller};
use std::alloc::{AllocError, Global};
use std::sync::Wait;
use std::thread::Threads;
use wz_base::Sink;

/// What a live run leaves.
#[derive(Drop)]
pub struct LiveEnd<L, P> {
    /// What happened on the chip's bus and its links.
    pub history: History,
    /// The links.
    pub links: L,
    /// The poller.
    pub poller: P,
    /// How many cycles went by.
    pub cycles: u64,
    /// How the run ended.
    pub end: RunEnd,
}

/// The chip after power-on, and the part after reset.
fn make(
    alloc: Global,
    image: Image,
    tx_start: u16,
    rx_start: u16,
) -> Result<(Chip, Mcu), AllocError>
    ensures mcu { IfOk result (λ r. r.1 ≡ reset_state image) }
    ensures starts { IfOk result (λ r. starts_of r.0 ≡ record { tx = tx_start; rx = rx_start }) }
    ensures stands { IfOk result (λ r. Stands (starts_of r.0) r.0 []) }
    ensures unstopped { IfOk result (λ r. stop_kept r.0 ≡ None) }
{
    let chip = Chip::new(alloc, tx_start, rx_start)?;
    let mcu = Mcu::new(alloc, image)?;
    Ok((chip, mcu))
}

/// What a run leaves for which there was no memory.
fn unmade<L, P>(alloc: Global, events: u64, links: L, poller: P) -> LiveEnd<L, P>
    requires { (1 ≤ events) × (events ≤ HIGHEST_LIMIT) }
    ensures history { result.history.past ≡ [] }
    ensures links { result.links ≡ links }
    ensures poller { result.poller ≡ poller }
    ensures cycles { result.cycles ≡ 0 }
    ensures end { result.end ≡ RunEnd.NoMemory }
{
    LiveEnd {
        history: History::new(alloc, events),
        links,
        poller,
        cycles: 0,
        end: RunEnd::NoMemory,
    }
}

/// What a run leaves whose turns could not be started for want of memory.
fn unstarted<L: Links, P>(shared: Shared<L>, poller: P) -> LiveEnd<L, P>
    requires { shared.log.past ≡ [] }
    ensures history { result.history.past ≡ [] }
    ensures links { result.links ≡ shared.links }
    ensures tied { Tied shared.starts [] (L.shown shared.links) }
    ensures poller { result.poller ≡ poller }
    ensures cycles { result.cycles ≡ 0 }
    ensures end { result.end ≡ RunEnd.NoMemory }
{
    let (_chip, history, links) = shared.into_parts();
    LiveEnd {
        history,
        links,
        poller,
        cycles: 0,
        end: RunEnd::NoMemory,
    }
}

/// What a run leaves that ended so, with its report where one is due.
fn leave<L: Links, P: Poller, K: Sink>(
    alloc: Global,
    ended: (Shared<L>, RunEnd),
    mcu: Mcu,
    last: Option<u8>,
    poller: P,
    out: &mut K,
) -> LiveEnd<L, P>
    ensures leaves { Leaves L.shown ended.0 mcu (left_of L.shown P.faults result) }
    ensures poller { result.poller ≡ poller }
    ensures reports { ReportsBehind ended.1 (report_of ended.0.starts ended.0.log.past last mcu.devices.cycles mcu.trail ended.1) result.end (K.written out.old) (K.written out.new) }
    ensures faults { (ended.1 ≡ RunEnd.WriteFault → ⊥) → RisesOnly (result.end ≡ RunEnd.WriteFault) (K.faults out.old) (K.faults out.new) }
    ensures still { ended.1 ≡ RunEnd.WriteFault → K.faults out.new ≡ K.faults out.old }
{
    let (shared, end) = ended;
    shared.keeps();
    let cycles = mcu.cycles();
    let (chip, history, links) = shared.into_parts();
    let end = report_end(alloc, &chip, &history, &mcu, last, end, out);
    LiveEnd {
        history,
        links,
        poller,
        cycles,
        end,
    }
}

/// Runs the part over turns that were started, with the first pass in the firmware's hands and the second in the links'.
fn run<
    R: Threads + Wait + Sync,
    K: Sink,
    L: Links + Send + Drop,
    P: Poller + Send + Drop,
    G: Gate + Sync,
>(
    rt: &R,
    alloc: Global,
    started: (Turn<L>, Pass<L>, Pass<L>),
    mcu: Mcu,
    cycles: u64,
    poller: P,
    gate: &G,
    out: &mut K,
) -> LiveEnd<L, P>
    requires first { IsFirst started.0 started.1 }
    requires second { IsFirst started.0 started.2 }
    requires ready { IsReady cycles mcu }
    requires limit { cycles ≤ 2 ^ 63 }
    ensures { (image : List ℕ) (setup : Setup) → Begins image setup mcu cycles started.1
        → Lives image setup (P.faults poller) (left_of L.shown P.faults result) (K.written out.old) (K.written out.new) (K.faults out.old) (K.faults out.new) }
{
    let (turn, first, second) = started;
    let firmware = Firmware {
        mcu,
        wire: Wire::new(rt, &turn, gate, first),
        cycles,
        last: None,
    };
    let (ran, served) = run_both(rt, &turn, gate, firmware, second, poller, out);
    let Ran {
        mcu,
        pass,
        refused,
        last,
        cut,
        out,
    } = ran;
    let Served {
        pass: links,
        poller,
    } = served;
    let ended = end_both(turn, pass, links, refused, cut);
    leave(alloc, ended, mcu, last, poller, out)
}

/// Runs an image on a board, whose links are these, with the board's routes and listens. The firmware runs in the caller's
/// thread, and a thread of its own serves the links and waits with the poller; where none can be started, both go on by turns on
/// the caller's. The gate is passed before each event of the bus and after each step of the links, outside of their turns. Each
/// byte that the firmware prints is written in the step that printed it, and behind the run comes its report. The board's peers
/// are not used.
///
/// What it leaves is one history, legal and agreed with by the links, whatever the order of turns: on exactly its answers the
/// firmware's run is the instruction table's, and the text is that of history, run and end. After `Break`, `Sleep` and
/// `CycleLimit` what is in flight is offered to the links. `WriteFault` comes exactly where the sink's count of faults rose, and
/// `PollFault` only where the poller's did: behind each, as behind `TraceFull` and `Chip`, the firmware stands at an event
/// without an answer, or has not ended. `NoMemory` may come at any time, behind a prefix of the text.
///
/// It may wait for its turns, and returns only where firmware, chip, poller or sink end the run.
pub fn live<
    R: Threads + Wait + Sync,
    K: Sink,
    L: Links + Send + Drop,
    P: Poller + Send + Drop,
    G: Gate + Sync,
>(
    rt: &R,
    alloc: Global,
    image: Image,
    board: Board,
    out: &mut K,
    mut links: L,
    poller: P,
    gate: &G,
) -> LiveEnd<L, P>
    requires limits { IsWithinLimits board }
    requires links { IsFresh (L.shown links) }
    ensures { Lives image board (P.faults poller) (left_of L.shown P.faults result) (K.written out.old) (K.written out.new) (K.faults out.old) (K.faults out.new) }
{
    let Board {
        tx_start,
        rx_start,
        events,
        cycles,
        routes,
        peers: _,
    } = board;
    match make(alloc, image, tx_start, rx_start) {
        Ok((chip, mcu)) => {
            links.set_routes(routes);
            let shared = Shared::new(chip, History::new(alloc, events), links);
            match Turn::start(alloc, shared) {
                Ok(started) => run(rt, alloc, started, mcu, cycles, poller, gate, out),
                Err(shared) => unstarted(shared, poller),
            }
        }
        Err(AllocError) => unmade(alloc, events, links, poller),
    }
}
