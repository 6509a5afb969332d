//! Commands that run a firmware image on a board with scripted peers.
ghost use Rattle.std.specs.Prelude.{◌≡◌, IfOk};
ghost use Rattle.board_file.specs.Boards.{IsWithinLimits};
ghost use Rattle.board_quick.specs.Runs.{echo_setup, end_of_run, RanGen, RanSim, RanTrace};

use crate::end::{EndKind, QuickEnd, status_of};
use crate::left::nothing_ran;
use board_echo::{echo_image, echo_peer};
use board_file::Board;
use board_sim::end::{RunEnd, SimEnd};
use board_sim::runs;
use flash::Image;
use link_trait::Routes;
use std::alloc::{AllocError, Global};
use wz_base::Sink;

/// How a command ends whose run ended so: by the same name.
pub fn end_of_run(end: RunEnd) -> EndKind
    ensures { result ≡ end_of_run end }
{
    match end {
        RunEnd::Break => EndKind::Break,
        RunEnd::Sleep => EndKind::Sleep,
        RunEnd::CycleLimit => EndKind::CycleLimit,
        RunEnd::Chip(stop) => EndKind::Chip(stop),
        RunEnd::Avr(stop) => EndKind::Avr(stop),
        RunEnd::TraceFull => EndKind::TraceFull,
        RunEnd::PollFault => EndKind::PollFault,
        RunEnd::WriteFault => EndKind::WriteFault,
        RunEnd::NoMemory => EndKind::NoMemory,
    }
}

/// What a command leaves whose run left this.
fn left_by(ran: SimEnd) -> QuickEnd
    ensures end { result.end ≡ end_of_run ran.end }
    ensures past { result.history.past ≡ ran.history.past }
    ensures script { result.script ≡ ran.links }
{
    let end = end_of_run(ran.end);
    QuickEnd {
        status: status_of(end),
        history: ran.history,
        script: ran.links,
        end,
    }
}

/// Runs an image on a board, and prints what the firmware prints and the report.
pub fn sim<K: Sink>(alloc: Global, image: Image, board: Board, out: &mut K) -> QuickEnd
    requires { IsWithinLimits board }
    ensures { RanSim image board result (K.written out.old) (K.written out.new) (K.faults out.old) (K.faults out.new) }
{
    left_by(runs::sim(alloc, image, board, out))
}

/// Runs an image on a board, and prints the trace of the run.
pub fn trace<K: Sink>(alloc: Global, image: Image, board: Board, out: &mut K) -> QuickEnd
    requires { IsWithinLimits board }
    ensures { RanTrace image board result (K.written out.old) (K.written out.new) (K.faults out.old) (K.faults out.new) }
{
    left_by(runs::trace(alloc, image, board, out))
}

/// The board of a generated run: the defaults, and the peer of this number.
fn echo_board(alloc: Global, number: u64) -> Result<Board, AllocError>
    ensures { IfOk result (λ board. board ≡ echo_setup number) }
{
    let mut peers = Vec::new(alloc);
    peers.push(echo_peer(alloc, number)?)?;
    Ok(Board {
        tx_start: 0,
        rx_start: 0,
        events: 33_554_432,
        cycles: 1_099_511_627_776,
        routes: Routes::new(alloc),
        peers,
    })
}

/// Runs the firmware of the echo server with the peer of this number, as [`sim`] does.
pub fn run_echo<K: Sink>(alloc: Global, number: u64, out: &mut K) -> QuickEnd
    ensures { RanGen number result (K.written out.old) (K.written out.new) (K.faults out.old) (K.faults out.new) }
{
    match echo_image(alloc) {
        Ok(image) => match echo_board(alloc, number) {
            Ok(board) => sim(alloc, image, board, out),
            Err(AllocError) => nothing_ran(alloc, EndKind::NoMemory),
        },
        Err(AllocError) => nothing_ran(alloc, EndKind::NoMemory),
    }
}
