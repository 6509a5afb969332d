//! Commands on an image and a board but a live run.
ghost use Rattle.std.specs.Prelude.{◌≡◌, string_bytes, IfOk};
ghost use Rattle.board_file.specs.Boards.{IsWithinLimits};
ghost use Rattle.board_quick.specs.Checked.{check_text, programmed};
ghost use Rattle.board_quick.specs.Outcome.{RanBoth};

use crate::end::{EndKind, QuickEnd};
use crate::left::nothing_ran;
use crate::runs::{sim, trace};
use crate::words::BoardCommand;
use board_file::Board;
use flash::Image;
use std::alloc::{AllocError, Global};
use wz_base::{Sink, WriteError, write_all};

/// How many bytes of flash are not erased.
fn programmed(image: &Image) -> usize
    ensures { result ≡ programmed image.now }
{
    image.bytes().iter().filter(|byte| **byte != 0xFF).count()
}

/// What is printed of an image and a board that have no fault.
fn check_text(alloc: Global, image: &Image, board: &Board) -> Result<String, AllocError>
    ensures { IfOk result (λ t. string_bytes t ≡ check_text image.now board.now) }
{
    let bytes = programmed(image);
    let listens = board.routes.listens().len();
    let routes = board.routes.routes().len();
    let peers = board.peers.len();
    format!(in alloc; "ok {bytes} {listens} {routes} {peers}\n")
}

/// Counts what an image and a board say.
fn check<K: Sink>(alloc: Global, image: &Image, board: &Board, out: &mut K) -> QuickEnd
    ensures { RanBoth BoardCommand.Check image.now board.now result (K.written out.old) (K.written out.new) (K.faults out.old) (K.faults out.new) }
{
    match check_text(alloc, image, board) {
        Ok(text) => match write_all(out, text.as_bytes()) {
            Ok(()) => nothing_ran(alloc, EndKind::Done),
            Err(WriteError::WriteFault) => nothing_ran(alloc, EndKind::WriteFault),
        },
        Err(AllocError) => nothing_ran(alloc, EndKind::NoMemory),
    }
}

/// Does what is asked of an image and a board.
pub fn on_board<K: Sink>(
    alloc: Global,
    what: BoardCommand,
    image: Image,
    board: Board,
    out: &mut K,
) -> QuickEnd
    requires { IsWithinLimits board }
    ensures { RanBoth what image board result (K.written out.old) (K.written out.new) (K.faults out.old) (K.faults out.new) }
{
    match what {
        BoardCommand::Sim => sim(alloc, image, board, out),
        BoardCommand::Trace => trace(alloc, image, board, out),
        BoardCommand::Check => check(alloc, &image, &board, out),
    }
}
