//! An image and a board, read from two files and judged.
ghost use Rattle.std.specs.Prelude.{◌≡◌, ◌≤◌, length, IfOk};
ghost use Rattle.board_file.specs.Boards.{board_of, IsWithinLimits};
ghost use Rattle.board_quick.specs.declared.reading.TheConstants.{TEXT_LIMIT};
ghost use Rattle.board_quick.specs.Checked.{beside, judged};
ghost use Rattle.board_quick.specs.Loads.{or_refused, unread, Gives, Loads};
ghost use Rattle.board_quick.specs.Reads.{counts};

use crate::end::Refusal;
use crate::reading::read_operand;
use board_file::{Board, BoardError, board};
use flash::Image;
use ihex::{HexError, load};
use std::alloc::Global;
use wz_base::{Files, ReadError};

/// Why there is no text, or no image and board, to do something with.
#[derive(Clone, Copy, Debug, PartialEq, Eq)]
pub enum LoadError {
    /// A file was not read, or its text has a fault.
    Refused(Refusal),
    /// Out of memory.
    NoMemory,
}

/// Why the operand of this number gives no text.
pub fn unread(operand: u8, error: ReadError) -> LoadError
    ensures { result ≡ unread operand error }
{
    match error {
        ReadError::NoFile => LoadError::Refused(Refusal::NoFile { operand }),
        ReadError::ReadFault => LoadError::Refused(Refusal::ReadFault { operand }),
        ReadError::TooLong => LoadError::Refused(Refusal::TooLong { operand }),
        ReadError::NoMemory => LoadError::NoMemory,
    }
}

/// Judges the text of a board, which comes beside an image.
fn beside(alloc: Global, image: Image, text: &[u8]) -> Result<(Image, Board), LoadError>
    ensures gives { Gives (or_refused (beside image (board_of text.now))) result }
    ensures limits { IfOk result (λ both. IsWithinLimits both.1) }
{
    match board(alloc, text) {
        Ok(board) => Ok((image, board)),
        Err(BoardError::Fault(fault)) => Err(LoadError::Refused(Refusal::Board(fault))),
        Err(BoardError::NoMemory) => Err(LoadError::NoMemory),
    }
}

/// Judges the text of an image, then that of a board.
fn judge_both(alloc: Global, image: &[u8], board: &[u8]) -> Result<(Image, Board), LoadError>
    requires { length image.now ≤ TEXT_LIMIT }
    ensures gives { Gives (or_refused (judged image.now board.now)) result }
    ensures limits { IfOk result (λ both. IsWithinLimits both.1) }
{
    match load(alloc, image) {
        Ok(image) => beside(alloc, image, board),
        Err(HexError::Fault(fault)) => Err(LoadError::Refused(Refusal::Hex(fault))),
        Err(HexError::NoMemory) => Err(LoadError::NoMemory),
    }
}

/// Reads the files of an image and of a board, and judges the text of each. Both are read before either is judged.
///
/// # Errors
///
/// `Refused` exactly by what was read, and else by the first fault of the texts, that of an image before that of a board;
/// `NoMemory`.
pub fn load_both<F: Files>(
    alloc: Global,
    files: &mut F,
    image: &str,
    board: &str,
) -> Result<(Image, Board), LoadError>
    ensures loads { Loads (F.held files.old) (counts (F.misses files.old) (F.faults files.old)) (counts (F.misses files.new) (F.faults files.new)) image.now board.now result }
    ensures limits { IfOk result (λ both. IsWithinLimits both.1) }
{
    match read_operand(alloc, files, image) {
        Ok(image) => match read_operand(alloc, files, board) {
            Ok(board) => judge_both(alloc, &image, &board),
            Err(error) => Err(unread(2, error)),
        },
        Err(error) => Err(unread(1, error)),
    }
}
