//! Whole files in.
ghost use Rattle.std.specs.Prelude.{◌≡◌, ◌<◌, ◌≤◌, [], length, IfOk, OnOk, IsErrOf};
ghost use Rattle.wz_base.specs.Outside.{RisesOnly};
ghost use Rattle.wz_base.specs.Whole.{HoldsMore, HoldsNone, HoldsWhole, IsLeft, IsLonger};

use crate::outside::{Files, PickFault};
use std::alloc::{AllocError, Global};

/// How many bytes one call of a source is asked for.
const PIECE: usize = 4096;

/// Why a file was not read whole. The earlier of two causes is answered: no file, then for each piece a fault,
/// a file that is too long, and out of memory.
#[derive(Clone, Copy, Debug, PartialEq, Eq)]
pub enum ReadError {
    /// There is no file of that name, and the count of misses rose.
    NoFile,
    /// A call failed, and the count of faults rose.
    ReadFault,
    /// The file has more bytes than the limit.
    TooLong,
    /// Out of memory for the bytes.
    NoMemory,
}

/// Reads the whole file of that name, of at most `limit` bytes. It reads in pieces, and never holds more bytes
/// than the limit and one piece.
///
/// # Errors
/// See [`ReadError`]. A told file that is there and has at most `limit` bytes gives `Ok`, `ReadFault` or
/// `NoMemory`; one with more gives `TooLong`, `ReadFault` or `NoMemory`.
pub fn read_whole<F: Files>(
    alloc: Global,
    files: &mut F,
    name: &str,
    limit: u64,
) -> Result<Vec<u8>, ReadError>
    ensures whole { IfOk result (λ bytes. HoldsWhole (F.held files.old) name.now bytes.items) }
    ensures within { IfOk result (λ bytes. length bytes.items ≤ limit) }
    ensures ended { OnOk result (IsLeft (F.left files.new) []) }
    ensures no_file { IsErrOf result ReadError.NoFile → HoldsNone (F.held files.old) name.now }
    ensures too_long { IsErrOf result ReadError.TooLong → HoldsMore (F.held files.old) name.now limit }

    // Memory is asked for only once a first byte was read.
    ensures no_memory { IsErrOf result ReadError.NoMemory → HoldsMore (F.held files.old) name.now 0 }

    ensures misses { RisesOnly (IsErrOf result ReadError.NoFile) (F.misses files.old) (F.misses files.new) }
    ensures faults { RisesOnly (IsErrOf result ReadError.ReadFault) (F.faults files.old) (F.faults files.new) }
    ensures held { F.held files.new ≡ F.held files.old }
{
    match files.pick(name) {
        Ok(()) => read_rest(alloc, files, limit),
        Err(PickFault::NoFile) => Err(ReadError::NoFile),
        Err(PickFault::ReadFault) => Err(ReadError::ReadFault),
    }
}

/// Reads what is left of the current file (apart, since a loop has its own contract).
fn read_rest<F: Files>(alloc: Global, files: &mut F, limit: u64) -> Result<Vec<u8>, ReadError>
    ensures whole { IfOk result (λ bytes. IsLeft (F.left files.old) bytes.items) }
    ensures within { IfOk result (λ bytes. length bytes.items ≤ limit) }
    ensures ended { OnOk result (IsLeft (F.left files.new) []) }
    ensures no_file { IsErrOf result ReadError.NoFile → ⊥ }
    ensures too_long { IsErrOf result ReadError.TooLong → IsLonger (F.left files.old) limit }
    ensures no_memory { IsErrOf result ReadError.NoMemory → IsLonger (F.left files.old) 0 }
    ensures misses { F.misses files.new ≡ F.misses files.old }
    ensures faults { RisesOnly (IsErrOf result ReadError.ReadFault) (F.faults files.old) (F.faults files.new) }
    ensures held { F.held files.new ≡ F.held files.old }
{
    let mut bytes = Vec::new(alloc);
    let mut piece = [0u8; PIECE];
    loop {
        let count = match files.read(&mut piece) {
            Ok(count) => count,
            Err(_) => return Err(ReadError::ReadFault),
        };
        if count == 0 {
            return Ok(bytes);
        }
        if count as u64 > limit - bytes.len() as u64 {
            return Err(ReadError::TooLong);
        }
        match bytes.extend_from_slice(&piece[..count]) {
            Ok(()) => {}
            Err(AllocError) => return Err(ReadError::NoMemory),
        }
    }
}
