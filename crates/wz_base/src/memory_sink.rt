//! A sink in memory, which tells its bytes.
ghost use Rattle.std.specs.Prelude.{◌≡◌, ◌≤◌, vec_capacity, vec_len};

use crate::calls::Calls;
use crate::outside::{Failed, Sink};
use std::alloc::{AllocError, Global};

/// A sink in memory with room for so many bytes. Each write is a call, and those of the given numbers fail.
#[derive(Drop)]
pub struct MemSink {
    /// What was written.
    bytes: Vec<u8>,
    /// How many bytes may be written in all.
    room: usize,
    /// The calls so far.
    calls: Calls,
    ghost within: { vec_len bytes ≤ room },
    ghost reserved: { room ≤ vec_capacity bytes },
}

impl MemSink {
    ghost use Rattle.std.specs.Prelude.{◌≡◌, [], IfOk};
    ghost use Rattle.wz_base.specs.Calls.{IsFresh};
    ghost use Rattle.wz_base.specs.MemSink.{calls_of, room_of, written_bytes};

    /// A sink that reserves room for `room` bytes. No call was made, and those with a number in `failing`, from
    /// 1, will fail.
    ///
    /// # Errors
    /// Out of memory alone. A write takes none.
    pub fn new(alloc: Global, room: u64, failing: Vec<u64>) -> Result<MemSink, AllocError>
        ensures written { IfOk result (λ sink. written_bytes sink ≡ []) }
        ensures room { IfOk result (λ sink. room_of sink ≡ room) }
        ensures calls { IfOk result (λ sink. IsFresh (calls_of sink) failing.items) }
    {
        let room = room as usize;
        Ok(MemSink {
            bytes: Vec::with_capacity(alloc, room)?,
            room,
            calls: Calls::new(failing),
        })
    }

    /// The bytes that were written, in order.
    pub fn bytes(&self) -> &[u8]
        ensures { result.now ≡ written_bytes self.now }
    {
        &self.bytes
    }
}

impl Sink for MemSink {
    ghost use Rattle.std.specs.Prelude.{◌≡◌, ◌↔◌, Some, min, length, IfOk, IsErr, OnErr};
    ghost use Rattle.wz_base.specs.Calls.{OneMore};
    ghost use Rattle.wz_base.specs.MemSink.{WriteFails, calls_of, room_of, spare_of, written_bytes};
    ghost use Rattle.wz_base.specs.Outside.{RisesOnly, Writes};

    ghost written = { λ s. Some s.bytes.items };

    ghost faults = { λ s. s.calls.faults };

    /// Takes what fits in the room. It fails exactly where its number is listed, or where the room is full and
    /// the piece is not empty.
    fn write(&mut self, piece: &[u8]) -> Result<usize, Failed>
        ensures bytes { IfOk result (λ count. Writes count (Some (written_bytes self.old)) piece.now (Some (written_bytes self.new))) }
        ensures err { OnErr result (written_bytes self.new ≡ written_bytes self.old) }
        ensures faults { RisesOnly (IsErr result) (calls_of self.old).faults (calls_of self.new).faults }

        ensures fails { IsErr result ↔ WriteFails self.old piece.now }
        ensures fits { IfOk result (λ count. count ≡ min (spare_of self.old) (length piece.now)) }
        ensures room { room_of self.new ≡ room_of self.old }
        ensures calls { OneMore (calls_of self.old) (calls_of self.new) }
    {
        let spare = self.room - self.bytes.len();
        let full = spare == 0 && !piece.is_empty();
        if self.calls.next_fails(full) {
            return Err(Failed);
        }
        let count = spare.min(piece.len());
        match self.bytes.extend_from_slice(&piece[..count]) {
            Ok(()) => Ok(count),
            Err(_) => unreachable!(),
        }
    }
}
