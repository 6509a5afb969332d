//! The chip: events of the bus and of its links, one after another.

ghost use Rattle.std.specs.Prelude.{◌≡◌, ◌<◌, ◌≤◌, [], ◌∷◌, ◌++◌, length, take, true, None, Some, IfOk, IfErr};
ghost use Rattle.std.specs.Borrow.{sem};
ghost use Rattle.board_bus.specs.declared.event.BusEvent.TheVariants.{Byte};
ghost use Rattle.board_bus.specs.declared.event.BusEvent.{BusEvent};
ghost use Rattle.board_bus.specs.declared.event.BusAnswer.{BusAnswer};
ghost use Rattle.chip_sheet.specs.declared.event.Entry.TheVariants.{Link};
ghost use Rattle.chip_sheet.specs.declared.event.LinkEntry.TheVariants.{Got};
ghost use Rattle.chip_sheet.specs.declared.phase.Access.TheVariants.{Read, Write};
ghost use Rattle.chip_sheet.specs.Past.{Past, link_entry};
ghost use Rattle.chip_sheet.specs.Frames.{access};
ghost use Rattle.chip_sheet.specs.Life.{status};
ghost use Rattle.chip_sheet.specs.Streams.{Starts, is_open};
ghost use Rattle.chip_sheet.specs.Windows.{in_flight, offered_length, room_length};
ghost use Rattle.chip_sheet.specs.Answers.{idle_byte};
ghost use Rattle.chip_sheet.specs.Stops.{stop};
ghost use Rattle.chip_sheet.specs.LinkCalls.{due_at};
ghost use Rattle.chip_core.specs.Accesses.{IsWithin};

use crate::counts::{Counts, add_link, add_sent, taken_by};
use crate::exchange::{access_in, is_reserved};
use crate::tally::Tally;
use chip_links::laws::fits_agrees;
use chip_links::{bytes, calls, events};
use chip_parts::laws::untouched_parts;
use chip_parts::parts::Parts;
use chip_sheet::event::{BusAnswer, BusEvent, LinkWhat};
use chip_sheet::phase::Access;
use chip_sheet::socket::Due;
use chip_sheet::stop::ChipStop;
use spi_frame::framer::Framer;
use std::alloc::{AllocError, Global};

/// Before anything was sent or received.
const NOTHING: Counts = Counts {
    sent: 0,
    taken: 0,
    got: 0,
};

/// The chip. At each moment it stands for what happened on its bus and its links.
#[derive(Drop)]
pub struct Chip {
    framer: Framer,
    parts: Parts,
    counts: [Counts; 8],
    stopped: Option<ChipStop>,
}

impl Chip {
    ghost use Rattle.chip_core.specs.Chip.{Stands, Few, Answered, Stopped, Inside, stop_kept, starts_of, fits_here, room_len, room_bytes, LendsRoom, tally_at, Exchanges, ReadsOut};

    /// The chip after power-on, which stands for the empty history. The positions of what a connection sends begin at `tx_start`,
    /// and those of what it receives at `rx_start`. No later call takes memory.
    ///
    /// # Errors
    ///
    /// `AllocError`, which may come at any time.
    pub fn new(alloc: Global, tx_start: u16, rx_start: u16) -> Result<Chip, AllocError>
        ensures stands { IfOk result (λ chip. Stands (record { tx = tx_start; rx = rx_start }) chip []) }
        ensures fresh { IfOk result (λ chip. stop_kept chip ≡ None) }
        ensures starts { IfOk result (λ chip. starts_of chip ≡ record { tx = tx_start; rx = rx_start }) }
    {
        let parts = Parts::new(alloc, tx_start, rx_start)?;
        Ok(Chip {
            framer: Framer::new(),
            parts,
            counts: [NOTHING; 8],
            stopped: None,
        })
    }

    /// The stop that was answered, if one was.
    pub fn stopped(&self) -> Option<ChipStop>
        ensures { result ≡ stop_kept self.now }
    {
        self.stopped
    }

    /// Takes one event of the bus, and answers what the datasheet says for it after all that happened so far.
    ///
    /// # Errors
    ///
    /// The stop of the event where it has one, and the same stop from then on. All but the kept stop is as before.
    pub fn bus(&mut self, e: BusEvent) -> Result<BusAnswer, ChipStop>
        requires { Few self.old }
        ensures answered { IfOk result (λ a. (starts : Starts) (past : Past) → Stands starts self.old past → Answered starts self.old past e a self.new) }
        ensures stopped { IfErr result (λ s. (starts : Starts) (past : Past) → Stands starts self.old past → Stopped starts self.old past e s self.new) }
    {
        if let Some(stop) = self.stopped {
            return Err(stop);
        }
        untouched_parts();
        match e {
            BusEvent::Select(low) => {
                self.framer.select(low);
                Ok(BusAnswer::Done)
            }
            BusEvent::Look => Ok(BusAnswer::Level(!self.parts.int_low())),
            BusEvent::Byte(v) => self.byte(v),
        }
    }

    // The byte on MISO during a byte that makes no access.
    fn idle_byte(&self) -> u8
        ensures { (starts : Starts) (past : Past) → Stands starts self.now past → result ≡ idle_byte past }
    {
        if self.framer.is_low() { 0x00 } else { 0xFF }
    }

    // Takes a byte, while no stop is kept.
    fn byte(&mut self, v: u8) -> Result<BusAnswer, ChipStop>
        requires few { Few self.old }
        requires unstopped { stop_kept self.old ≡ None }
        ensures answered { IfOk result (λ a. (starts : Starts) (past : Past) → Stands starts self.old past → Answered starts self.old past (Byte v) a self.new) }
        ensures stopped { IfErr result (λ s. (starts : Starts) (past : Past) → Stands starts self.old past → Stopped starts self.old past (Byte v) s self.new) }
    {
        let idle = self.idle_byte();
        let mut framer = self.framer;
        let made = access_in(framer.byte(v), v);
        match self.exchange(made, idle) {
            Ok(out) => {
                self.framer = framer;
                Ok(BusAnswer::Out(out))
            }
            Err(stop) => {
                self.stopped = Some(stop);
                Err(stop)
            }
        }
    }

    // Makes an access, and answers the byte on MISO; `idle` is that of a byte that makes none.
    fn exchange(&mut self, made: Access, idle: u8) -> Result<u8, ChipStop>
        requires few { Few self.old }
        requires within { IsWithin made }
        ensures ok { IfOk result (λ out. (starts : Starts) (past : Past) (e : BusEvent) (a : BusAnswer) → access past e ≡ made → idle ≡ idle_byte past → Exchanges starts past e a made out self.old self.new) }
        ensures err { IfErr result (λ s. (self.new ≡ self.old) × ((starts : Starts) (past : Past) (e : BusEvent) → access past e ≡ made → Inside starts self.old past → stop starts past e ≡ Some s)) }
        ensures same { self.new ≡ record self.old { parts = self.new.parts; counts = self.new.counts } }
    {
        untouched_parts();
        match made {
            Access::NoAccess => Ok(idle),
            Access::Read { block, addr } => self.read(block, addr),
            Access::Write { block, addr, value } => self.write(block, addr, value),
        }
    }

    // Reads a byte of a block.
    fn read(&self, block: u8, addr: u16) -> Result<u8, ChipStop>
        requires { block < 32 }
        ensures ok { IfOk result (λ out. (starts : Starts) (past : Past) (e : BusEvent) → access past e ≡ Read block addr → Inside starts self.now past → ReadsOut starts past e block addr out) }
        ensures err { IfErr result (λ s. (starts : Starts) (past : Past) (e : BusEvent) → access past e ≡ Read block addr → stop starts past e ≡ Some s) }
    {
        if is_reserved(block) {
            return Err(ChipStop::ReservedBlock { block });
        }
        Ok(self.parts.read(block, addr))
    }

    // Writes a byte of a block.
    fn write(&mut self, block: u8, addr: u16, v: u8) -> Result<u8, ChipStop>
        requires block { block < 32 }
        requires few { Few self.old }
        ensures ok { IfOk result (λ out. (starts : Starts) (past : Past) (e : BusEvent) (a : BusAnswer) → access past e ≡ Write block addr v → Exchanges starts past e a (Write block addr v) out self.old self.new) }
        ensures err { IfErr result (λ s. (self.new ≡ self.old) × ((starts : Starts) (past : Past) (e : BusEvent) → access past e ≡ Write block addr v → Inside starts self.old past → stop starts past e ≡ Some s)) }
        ensures same { self.new ≡ record self.old { parts = self.new.parts; counts = self.new.counts } }
    {
        match self.parts.write(block, addr, v) {
            Err(stop) => Err(stop),
            Ok(sent) => {
                if block % 4 == 1 {
                    add_sent(&mut self.counts, block / 4, sent);
                    return Ok(0x00);
                }
                Ok(0x00)
            }
        }
    }

    /// The link call that is due at a place, 0 to 15: place 2n is the outgoing one of socket n, and 2n + 1 the incoming one.
    pub fn due(&self, place: u8) -> Due
        requires { place < 16 }
        ensures { (starts : Starts) (past : Past) → Stands starts self.now past → result ≡ due_at starts past place }
    {
        calls::due(&self.parts, place)
    }

    /// Lends the bytes in flight of a socket, 0 to 7, in order, in at most two pieces. A stream sends the first; a datagram is
    /// both.
    pub fn offer(&self, sn: u8) -> (&[u8], &[u8])
        requires { sn < 8 }
        ensures bytes { (starts : Starts) (past : Past) → Stands starts self.now past → result.0.now ++ result.1.now ≡ in_flight starts past sn }
        ensures first { (starts : Starts) (past : Past) → Stands starts self.now past → length result.0.now ≡ offered_length starts past sn }
    {
        bytes::offer(&self.parts, sn)
    }

    /// Lends the first free piece of the RX buffer of a socket, 0 to 7, at most 1,472 bytes, to be read into.
    pub fn room(&mut self, sn: u8) -> &mut [u8]
        requires { sn < 8 }
        ensures* writes_back { sem 𝓛 (LendsRoom self.entry sn result) }
        ensures value { result.now ≡ room_bytes self.old sn }
        ensures len { length result.now ≡ room_len self.old sn }
        ensures room { (starts : Starts) (past : Past) → Stands starts self.old past → is_open (status past sn) ≡ true → length result.now ≡ room_length starts past sn }
    {
        bytes::room(&mut self.parts, sn)
    }

    /// The first k bytes of the piece that `room` lends came from the peer of a socket, 0 to 7. No stop is kept, and the event
    /// fits.
    pub fn filled(&mut self, sn: u8, k: u32)
        requires sn { sn < 8 }
        requires few { Few self.old }
        requires unstopped { stop_kept self.old ≡ None }
        requires within { k ≤ room_len self.old sn }
        requires fits { fits_here self.old sn (Got (take k (room_bytes self.old sn))) ≡ true }
        ensures stands { (starts : Starts) (past : Past) → Stands starts self.old past → Stands starts self.new (Link sn (Got (take k (room_bytes self.old sn))) ∷ past) }
        ensures unstopped { stop_kept self.new ≡ None }
    {
        fits_agrees();
        let got = bytes::filled(&mut self.parts, sn, k);
        add_link(&mut self.counts, sn, 0, got);
    }

    /// Whether a link event of a socket, 0 to 7, is an answer to a link call that is due on it.
    pub fn fits(&self, sn: u8, e: &LinkWhat<'_>) -> bool
        requires { sn < 8 }
        ensures { result ≡ fits_here self.now sn (link_entry e.now) }
    {
        calls::fits(&self.parts, sn, e)
    }

    /// Takes a link event of a socket, 0 to 7. No stop is kept, and the event fits.
    pub fn link(&mut self, sn: u8, e: &LinkWhat<'_>)
        requires sn { sn < 8 }
        requires few { Few self.old }
        requires unstopped { stop_kept self.old ≡ None }
        requires fits { fits_here self.old sn (link_entry e.now) ≡ true }
        ensures stands { (starts : Starts) (past : Past) → Stands starts self.old past → Stands starts self.new (Link sn (link_entry e.now) ∷ past) }
        ensures unstopped { stop_kept self.new ≡ None }
    {
        fits_agrees();
        let got = events::link(&mut self.parts, sn, e);
        add_link(&mut self.counts, sn, taken_by(e), got);
    }

    /// The state of a socket, 0 to 7, and its counts over all of its lives.
    pub fn tally(&self, sn: u8) -> Tally
        requires { sn < 8 }
        ensures { (starts : Starts) (past : Past) → Stands starts self.now past → result ≡ tally_at starts past sn }
    {
        let life = &self.parts.lives[sn as usize];
        let counts = &self.counts[sn as usize];
        Tally {
            status: life.status(),
            lives: life.lives(),
            sent: counts.sent,
            taken: counts.taken,
            got: counts.got,
        }
    }
}
