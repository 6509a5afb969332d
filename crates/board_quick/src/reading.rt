//! The operands of a command, read.
ghost use Rattle.std.specs.Prelude.{◌≡◌, ◌≤◌, length, IfOk};
ghost use Rattle.board_quick.specs.Reads.{counts, reading_of, WasRead};

use std::alloc::Global;
use wz_base::{Files, ReadError, read_whole};

/// The most bytes of a file that is read.
pub const TEXT_LIMIT: u64 = 67_108_864;

/// Reads the file of an operand.
///
/// # Errors
///
/// See [`ReadError`].
pub fn read_operand<F: Files>(
    alloc: Global,
    files: &mut F,
    name: &str,
) -> Result<Vec<u8>, ReadError>
    ensures read { WasRead (F.held files.old) name.now (counts (F.misses files.old) (F.faults files.old)) (counts (F.misses files.new) (F.faults files.new)) (reading_of result) }
    ensures within { IfOk result (λ text. length text.items ≤ TEXT_LIMIT) }
    ensures held { F.held files.new ≡ F.held files.old }
{
    read_whole(alloc, files, name, TEXT_LIMIT)
}
