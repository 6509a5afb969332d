//! What the events of a link make of the parts of the chip.
ghost use Rattle.std.specs.Prelude.{◌≡◌, ◌≤◌, ◌<◌, ◌∷◌, length, slice_index_or, true, if◌then◌else◌};
ghost use Rattle.chip_sheet.specs.declared.event.Entry.TheVariants.{Link};
ghost use Rattle.chip_sheet.specs.declared.event.LinkEntry.TheVariants.{Took, Got, Datagram};
ghost use Rattle.chip_sheet.specs.Past.{Past, link_entry};
ghost use Rattle.chip_sheet.specs.Sending.{Sending};
ghost use Rattle.chip_sheet.specs.Receiving.{Receiving};
ghost use Rattle.chip_sheet.specs.Streams.{Starts, is_established, makes, header};
ghost use Rattle.chip_sheet.specs.LinkCalls.{fits};
ghost use Rattle.chip_sheet.specs.Legal.{Legal};
ghost use Rattle.sock_cmd.specs.Lives.{life_of};
ghost use Rattle.ring_mem.specs.Buffers.{TxHolds, RxHolds, OthersSend, OthersReceive, flight_of, rx_free, tx_kilobytes, rx_kilobytes};
ghost use Rattle.chip_parts.specs.Holding.{Holds};
ghost use Rattle.chip_links.specs.Noting.{is_told, sent_kept, got_kept};
ghost use Rattle.chip_links.specs.Fitting.{no_life, fits_here};
ghost use Rattle.chip_links.specs.Coming.{came, TakesEvent};

use crate::calls::life_at;
use crate::notes::{self, RECEIVED, SEND_OK};
use chip_parts::parts::Parts;
use chip_sheet::event::{Addr, LinkWhat};
use ring_mem::rings::Rings;

/// How many bytes stand before the body of a datagram in the RX buffer.
const HEADER: usize = 8;

/// The bytes before the body of a datagram of this many bytes from this address.
fn header(from: Addr, count: usize) -> [u8; 8]
    ensures { result ≡ header from count }
{
    [
        from.ip[0],
        from.ip[1],
        from.ip[2],
        from.ip[3],
        (from.port / 256) as u8,
        (from.port % 256) as u8,
        (count / 256 % 256) as u8,
        (count % 256) as u8,
    ]
}

/// Empties both windows of a socket, unless it is open.
fn keep(rings: &mut Rings, sn: u8, live: bool)
    requires { sn < 8 }
    ensures tx { (s : Sending) → TxHolds rings.old sn s → TxHolds rings.new sn (sent_kept live s) }
    ensures rx { (g : Receiving) → RxHolds rings.old sn g → RxHolds rings.new sn (got_kept live g) }
    ensures others { OthersSend rings.old rings.new sn }
    ensures rx_others { OthersReceive rings.old rings.new sn }
    ensures sizes { (tx_kilobytes rings.new ≡ tx_kilobytes rings.old) × (rx_kilobytes rings.new ≡ rx_kilobytes rings.old) }
{
    if !live {
        rings.empty(sn);
    }
}

/// A connection was made: both directions begin where positions start.
fn made(parts: &mut Parts, sn: u8, e: &LinkWhat<'_>)
    requires sn { sn < 8 }
    requires made { makes (link_entry e.now) ≡ true }
    ensures { TakesEvent parts.old sn (link_entry e.now) parts.new }
{
    let bits = notes::life_bits(e, parts.lives[sn as usize].state());
    parts.rings.begin(sn, parts.tx_start, parts.rx_start);
    notes::note(parts, sn, e, bits);
}

/// What moves no bytes and makes no connection: the life goes on, and where it closes both windows are empty.
fn told(parts: &mut Parts, sn: u8, e: &LinkWhat<'_>)
    requires sn { sn < 8 }
    requires told { is_told (link_entry e.now) ≡ true }
    ensures { (starts : Starts) (past : Past) → Holds starts parts.old past → Holds starts parts.new (Link sn (link_entry e.now) ∷ past) }
{
    let bits = notes::life_bits(e, parts.lives[sn as usize].state());
    notes::note(parts, sn, e, bits);
    let live = parts.lives[sn as usize].is_open();
    keep(&mut parts.rings, sn, live);
}

/// The bits of Sn_IR that rise as the link takes bytes, where the end of a SEND is reached or passed, or not.
fn send_ok(passed: bool) -> u8
    ensures { result ≡ (if passed then 16 else 0) }
{
    if passed { SEND_OK } else { 0 }
}

/// The link took so many bytes in flight. SENDOK rises where the end of a SEND is reached or passed.
fn took(parts: &mut Parts, sn: u8, count: u32)
    requires sn { sn < 8 }
    requires few { count ≤ flight_of parts.old.rings sn }
    ensures { TakesEvent parts.old sn (Took count) parts.new }
{
    let bits = send_ok(parts.rings.taken(sn, count));
    notes::note(parts, sn, &LinkWhat::Took(count), bits);
}

/// These bytes came from the peer. In ESTABLISHED they are put into the RX buffer and RECV rises, else they are thrown away.
/// Answers how many were put.
fn got(parts: &mut Parts, sn: u8, bytes: &[u8]) -> usize
    requires sn { sn < 8 }
    requires few { is_established (life_of (slice_index_or parts.old.lives sn no_life)).status ≡ true → length bytes.now ≤ rx_free parts.old.rings sn }
    ensures holds { TakesEvent parts.old sn (Got bytes.now) parts.new }
    ensures came { (starts : Starts) (past : Past) → Holds starts parts.old past → result ≡ came starts past sn (Got bytes.now) }
{
    if life_at(&parts.lives, sn).is_established() {
        parts.rings.put(sn, bytes);
        notes::note(parts, sn, &LinkWhat::Got(bytes), RECEIVED);
        bytes.len()
    } else {
        notes::note(parts, sn, &LinkWhat::Got(bytes), 0);
        0
    }
}

/// A datagram came. In UDP it is put into the RX buffer behind its header and RECV rises, where both are free of it; else it is
/// lost. Answers how many bytes were put.
fn datagram(parts: &mut Parts, sn: u8, from: Addr, body: &[u8]) -> usize
    requires { sn < 8 }
    ensures holds { TakesEvent parts.old sn (Datagram from body.now) parts.new }
    ensures came { (starts : Starts) (past : Past) → Holds starts parts.old past → result ≡ came starts past sn (Datagram from body.now) }
{
    let len = HEADER + body.len();
    if parts.lives[sn as usize].is_udp() && len <= parts.rings.free(sn) as usize {
        parts
            .rings
            .put_datagram(sn, &header(from, body.len()), body);
        notes::note(parts, sn, &LinkWhat::Datagram(from, body), RECEIVED);
        len
    } else {
        notes::note(parts, sn, &LinkWhat::Datagram(from, body), 0);
        0
    }
}

/// Takes a link event of socket `sn`, 0 to 7, that fits. Answers how many bytes were put into its RX buffer, a datagram's header
/// included.
pub fn link(parts: &mut Parts, sn: u8, e: &LinkWhat<'_>) -> usize
    requires sn { sn < 8 }
    requires fits { fits_here parts.old sn (link_entry e.now) ≡ true }
    ensures holds { (starts : Starts) (past : Past) → Legal starts past → Holds starts parts.old past → Holds starts parts.new (Link sn (link_entry e.now) ∷ past) }
    ensures came { (starts : Starts) (past : Past) → Legal starts past → Holds starts parts.old past → result ≡ came starts past sn (link_entry e.now) }
{
    match e {
        LinkWhat::Linked | LinkWhat::Accepted(_) => {
            made(parts, sn, e);
            0
        }
        LinkWhat::Took(count) => {
            took(parts, sn, *count);
            0
        }
        LinkWhat::Got(bytes) => got(parts, sn, bytes),
        LinkWhat::Datagram(from, body) => datagram(parts, sn, *from, body),
        LinkWhat::Refused
        | LinkWhat::TimedOut
        | LinkWhat::Ended
        | LinkWhat::Shut
        | LinkWhat::Failed
        | LinkWhat::Dropped => {
            told(parts, sn, e);
            0
        }
    }
}
