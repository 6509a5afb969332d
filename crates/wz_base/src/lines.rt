//! Lines out, in pieces of some kilobytes.
ghost use Rattle.std.specs.Prelude.{◌≡◌, ◌+◌, ◌≤◌, ◌⊎◌, [], ◌++◌, length, IsErr, IfOk, OnErr, OnOk};
ghost use Rattle.wz_base.specs.Outside.{RisesOnly};
ghost use Rattle.wz_base.specs.Whole.{Appends, AppendsFront};
ghost use Rattle.wz_base.specs.Lines.{Gathers};

use crate::outside::Sink;
use crate::writing::{WriteError, write_all};
use std::alloc::{AllocError, Global};
use std::marker::Model;

/// The most bytes of a piece, but for one that is a single longer line.
pub const PIECE_ROOM: usize = 8192;

/// Lines that wait to be written, so that a sink is called once for many lines, and never in the middle of one.
///
/// Contracts see it as the list of the bytes that wait, at most [`PIECE_ROOM`]. The room is taken at the beginning; no later
/// call takes memory.
#[derive(Drop)]
pub struct LineBuffer {
    bytes: Vec<u8>,
}

impl Model for LineBuffer {
    ghost use Rattle.std.specs.Prelude.{ℕ, List, ◌≤◌, vec_capacity, vec_len};
    ghost use Rattle.wz_base.specs.declared.lines.TheConstants.{PIECE_ROOM};

    ghost Value = { List ℕ };

    ghost view = { λ b. b.bytes.items };

    ghost invariant = { λ b. (vec_len b.bytes ≤ PIECE_ROOM) × (PIECE_ROOM ≤ vec_capacity b.bytes) };
}

impl LineBuffer {
    /// An empty buffer.
    ///
    /// # Errors
    /// Out of memory alone.
    pub fn new(alloc: Global) -> Result<LineBuffer, AllocError>
        ensures { IfOk result (λ lines. lines ≡ []) }
    {
        Ok(LineBuffer {
            bytes: Vec::with_capacity(alloc, PIECE_ROOM)?,
        })
    }

    /// Writes all that waits.
    ///
    /// # Errors
    /// `WriteFault` only where the sink's count of faults rose. A prefix of what waited was then written, and nothing waits.
    pub fn flush<K: Sink>(&mut self, out: &mut K) -> Result<(), WriteError>
        ensures ok { OnOk result (Appends (K.written out.old) self.old (K.written out.new)) }
        ensures err { OnErr result (AppendsFront (K.written out.old) self.old (K.written out.new)) }
        ensures faults { RisesOnly (IsErr result) (K.faults out.old) (K.faults out.new) }
        ensures empty { self.new ≡ [] }
    {
        let written = write_all(out, &self.bytes);
        self.bytes.clear();
        written
    }

    /// Writes all that waits where fewer than `room` more bytes fit.
    ///
    /// # Errors
    /// As [`LineBuffer::flush`].
    pub fn make_room<K: Sink>(&mut self, room: usize, out: &mut K) -> Result<(), WriteError>
        requires { room ≤ PIECE_ROOM }
        ensures ok { OnOk result (Gathers self.old [] self.new (K.written out.old) (K.written out.new)) }
        ensures room { OnOk result (length self.new + room ≤ PIECE_ROOM) }
        ensures whole { (self.new ≡ self.old) ⊎ (self.new ≡ []) }
        ensures err { OnErr result (AppendsFront (K.written out.old) self.old (K.written out.new)) }
        ensures faults { RisesOnly (IsErr result) (K.faults out.old) (K.faults out.new) }
    {
        if room > PIECE_ROOM - self.bytes.len() {
            self.flush(out)
        } else {
            Ok(())
        }
    }

    /// Lets these bytes wait after the others. A line may be put together from several such pieces, once room was made for all
    /// of it.
    pub fn push(&mut self, bytes: &[u8])
        requires { length self.old + length bytes.now ≤ PIECE_ROOM }
        ensures { self.new ≡ self.old ++ bytes.now }
    {
        match self.bytes.extend_from_slice(bytes) {
            Ok(()) => {}
            Err(_) => unreachable!(),
        }
    }

    /// Adds a line. What waits is written first where the line does not fit after it; a line that is longer than a piece is
    /// written by itself.
    ///
    /// # Errors
    /// `WriteFault` only where the sink's count of faults rose. A prefix of what waited and the line was then written.
    pub fn add<K: Sink>(&mut self, line: &[u8], out: &mut K) -> Result<(), WriteError>
        ensures ok { OnOk result (Gathers self.old line.now self.new (K.written out.old) (K.written out.new)) }
        ensures whole { OnOk result ((self.new ≡ self.old ++ line.now) ⊎ (self.new ≡ line.now) ⊎ (self.new ≡ [])) }
        ensures err { OnErr result (AppendsFront (K.written out.old) (self.old ++ line.now) (K.written out.new)) }
        ensures faults { RisesOnly (IsErr result) (K.faults out.old) (K.faults out.new) }
    {
        if line.len() > PIECE_ROOM {
            return self.write_long(line, out);
        }
        self.make_room(line.len(), out)?;
        self.push(line);
        Ok(())
    }

    /// Writes what waits and then a line that is longer than a piece.
    fn write_long<K: Sink>(&mut self, line: &[u8], out: &mut K) -> Result<(), WriteError>
        ensures ok { OnOk result (Appends (K.written out.old) (self.old ++ line.now) (K.written out.new)) }
        ensures err { OnErr result (AppendsFront (K.written out.old) (self.old ++ line.now) (K.written out.new)) }
        ensures faults { RisesOnly (IsErr result) (K.faults out.old) (K.faults out.new) }
        ensures empty { self.new ≡ [] }
    {
        self.flush(out)?;
        write_all(out, line)
    }
}
