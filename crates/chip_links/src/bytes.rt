//! The bytes that are offered to a link, and the room into which it reads.
ghost use Rattle.std.specs.Prelude.{◌≡◌, ◌≤◌, ◌<◌, ◌++◌, length, true};
ghost use Rattle.std.specs.Borrow.{sem};
ghost use Rattle.chip_sheet.specs.declared.event.LinkEntry.TheVariants.{Got};
ghost use Rattle.chip_sheet.specs.Past.{Past};
ghost use Rattle.chip_sheet.specs.Life.{status};
ghost use Rattle.chip_sheet.specs.Streams.{Starts, is_open};
ghost use Rattle.chip_sheet.specs.Windows.{in_flight, offered_length, room_length};
ghost use Rattle.chip_sheet.specs.LinkCalls.{fits};
ghost use Rattle.chip_sheet.specs.Legal.{Legal};
ghost use Rattle.ring_mem.specs.Buffers.{room_len};
ghost use Rattle.chip_parts.specs.Holding.{Holds};
ghost use Rattle.chip_links.specs.Lent.{room_bytes, got_of, LendsRoom};
ghost use Rattle.chip_links.specs.Coming.{came, TakesEvent};

use crate::notes::{self, RECEIVED};
use chip_parts::parts::Parts;
use chip_sheet::event::LinkWhat;

/// The bytes in flight of socket `sn`, 0 to 7, in order, in at most two pieces of the memory. A stream offers the first of them
/// to its link; a datagram is both.
pub fn offer(parts: &Parts, sn: u8) -> (&[u8], &[u8])
    requires { sn < 8 }
    ensures bytes { (starts : Starts) (past : Past) → Legal starts past → Holds starts parts.now past → result.0.now ++ result.1.now ≡ in_flight starts past sn }
    ensures first { (starts : Starts) (past : Past) → Legal starts past → Holds starts parts.now past → length result.0.now ≡ offered_length starts past sn }
{
    parts.rings.offer(sn)
}

/// Lends the first free piece of the RX buffer of socket `sn`, 0 to 7, at most 1,472 bytes, to be read into.
pub fn room(parts: &mut Parts, sn: u8) -> &mut [u8]
    requires { sn < 8 }
    ensures* writes_back { sem 𝓛 (LendsRoom parts.entry sn result) }
    ensures value { result.now ≡ room_bytes parts.old sn }
    ensures len { length result.now ≡ room_len parts.old.rings sn }
    ensures exact { (starts : Starts) (past : Past) → Holds starts parts.old past → is_open (status past sn) ≡ true → length result.now ≡ room_length starts past sn }
{
    parts.rings.room(sn)
}

/// Takes the event that the first `k` bytes of the piece that `room` lends came from the peer. They are kept only in ESTABLISHED.
/// Answers how many bytes were put into the RX buffer: `k` or 0.
pub fn filled(parts: &mut Parts, sn: u8, k: u32) -> usize
    requires sn { sn < 8 }
    requires few { k ≤ room_len parts.old.rings sn }
    ensures holds { TakesEvent parts.old sn (got_of parts.old sn k) parts.new }
    ensures came { (starts : Starts) (past : Past) → Legal starts past → Holds starts parts.old past → fits starts past sn (got_of parts.old sn k) ≡ true
        → result ≡ came starts past sn (got_of parts.old sn k) }
{
    if parts.lives[sn as usize].is_established() {
        parts.rings.filled(sn, k);
        notes::note(parts, sn, &LinkWhat::Got(&[]), RECEIVED);
        k as usize
    } else {
        notes::note(parts, sn, &LinkWhat::Got(&[]), 0);
        0
    }
}
