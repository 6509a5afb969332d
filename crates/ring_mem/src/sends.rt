//! The sending side of the eight sockets.

ghost use Rattle.std.specs.Prelude.{◌≡◌, ◌≢◌, ◌≤◌, ◌<◌, ◌+◌, ◌-◌, ◌%◌, ◌++◌, [], ℕ, false, Some, None, IfOk, IfErr, length, vec_len, slice_index, nat_lt, replicate};
ghost use Rattle.chip_sheet.specs.Sizes.{size_among};
ghost use Rattle.chip_sheet.specs.Sending.{Sending, in_flight_at, after_write, after_commit, after_taken, range_length, free_size, in_flight, offered_length, after_empty, after_begin, after_resize, after_pointer, passes_end, tx_pointer, fresh};
ghost use Rattle.ring_mem.specs.Marks.{Marked, Cleared, any_marked};

use crate::layout::{Layout, distance};
use crate::pointers::with_byte;
use chip_sheet::stop::ChipStop;
use std::alloc::{AllocError, Global};

/// One memory, a mark for each place, and the pointers of each socket, which wrap.
#[derive(Drop)]
pub struct Sends {
    /// The bytes, as firmware wrote them.
    pub memory: Vec<u8>,
    /// Set at the last byte of each range in flight.
    pub marks: Vec<bool>,
    /// The parts.
    pub layout: Layout,
    /// How many bytes are in flight.
    pub flights: [u16; 8],
    /// Sn_TX_RD: the end of the last SEND.
    pub ends: [u16; 8],
    /// Sn_TX_WR: up to where SEND sends.
    pub written: [u16; 8],
    ghost memory_len: { vec_len memory ≡ 16384 },
    ghost marks_len: { vec_len marks ≡ 16384 },
    ghost fits: { (n : ℕ) → slice_index flights n ≤ slice_index layout.sizes n },
}

/// Marks the last place of a range that is not empty. A function of its own, so that `commit` is a straight line.
fn mark(marks: &mut Vec<bool>, layout: &Layout, sn: u8, last: u16, len: u16)
    requires sn { sn < 8 }
    requires marks { vec_len marks.old ≡ 16384 }
    requires fits { len ≤ slice_index layout.now.sizes sn }
    ensures len { vec_len marks.new ≡ 16384 }
    ensures marked { Marked marks.old.items marks.new.items (slice_index layout.now.starts sn + last % slice_index layout.now.sizes sn) (nat_lt 0 len) }
{
    if len > 0 {
        let at = layout.place(sn, last);
        marks[at] = true;
    }
}

/// Clears the marks of so many places from a pointer on, and answers whether one was set.
fn unmark(marks: &mut Vec<bool>, layout: &Layout, sn: u8, first: u16, k: u16) -> bool
    requires sn { sn < 8 }
    requires marks { vec_len marks.old ≡ 16384 }
    requires fits { k ≤ slice_index layout.now.sizes sn }
    ensures len { vec_len marks.new ≡ 16384 }
    ensures cleared { Cleared marks.old.items marks.new.items (slice_index layout.now.starts sn) (slice_index layout.now.sizes sn) first k }
    ensures passed { result ≡ any_marked marks.old.items (slice_index layout.now.starts sn) (slice_index layout.now.sizes sn) first k }
{
    let mut passed = false;
    for j in 0..k {
        let at = layout.place(sn, first.wrapping_add(j));
        let was = marks[at];
        passed |= was;
        marks[at] = false;
    }
    passed
}

impl Sends {
    ghost use Rattle.ring_mem.specs.TxHolds.{Holds, place_of, first_piece, second_piece};

    /// Empty buffers of 2 KB each.
    pub fn new(alloc: Global) -> Result<Sends, AllocError>
        ensures stands { IfOk result (λ r. (n : ℕ) → n < 8 → Holds r n (fresh 2048)) }
        ensures kilobytes { IfOk result (λ r. r.layout.kilobytes ≡ replicate 8 2) }
    {
        let memory = vec![in alloc; 0u8; 16384]?;
        let marks = vec![in alloc; false; 16384]?;
        Ok(Sends {
            memory,
            marks,
            layout: Layout::new([2; 8]),
            flights: [0; 8],
            ends: [0; 8],
            written: [0; 8],
        })
    }

    /// Clears the memory and the marks, and lays the parts out anew. The pointers stay. Nothing may be in flight.
    fn wipe(&mut self, kilobytes: [u8; 8])
        requires { (n : ℕ) → slice_index self.old.flights n ≡ 0 }
        ensures memory { self.new.memory.items ≡ replicate 16384 0 }
        ensures marks { self.new.marks.items ≡ replicate 16384 false }
        ensures kilobytes { self.new.layout.kilobytes ≡ kilobytes }
        ensures pointers { (self.new.flights ≡ self.old.flights) × (self.new.ends ≡ self.old.ends) × (self.new.written ≡ self.old.written) }
    {
        self.memory.fill(0);
        self.marks.fill(false);
        self.layout = Layout::new(kilobytes);
    }

    /// Gives the buffers other sizes, which clears the memory. Nothing may be in flight.
    pub fn set_sizes(&mut self, kilobytes: [u8; 8])
        requires { (n : ℕ) → n < 8 → slice_index self.old.flights n ≡ 0 }
        ensures same { self.old.layout.kilobytes ≡ kilobytes → self.new ≡ self.old }
        ensures changed { self.old.layout.kilobytes ≢ kilobytes → (n : ℕ) (s : Sending) → n < 8 → Holds self.old n s → Holds self.new n (after_resize s (size_among kilobytes n)) }
        ensures memory { self.old.layout.kilobytes ≢ kilobytes → self.new.memory.items ≡ replicate 16384 0 }
        ensures kilobytes { self.new.layout.kilobytes ≡ kilobytes }
    {
        if self.layout.kilobytes == kilobytes {
            return;
        }
        self.wipe(kilobytes);
    }

    /// Makes all as it was at first.
    pub fn clear(&mut self)
        ensures stands { (n : ℕ) → n < 8 → Holds self.new n (fresh 2048) }
        ensures memory { self.new.memory.items ≡ replicate 16384 0 }
        ensures kilobytes { self.new.layout.kilobytes ≡ replicate 8 2 }
    {
        self.flights = [0; 8];
        self.ends = [0; 8];
        self.written = [0; 8];
        self.wipe([2; 8]);
    }

    /// Begins a life or a connection: nothing is in flight, and both pointers stand here.
    pub fn begin(&mut self, sn: u8, base: u16)
        requires { sn < 8 }
        ensures stands { (s : Sending) → Holds self.old sn s → Holds self.new sn (after_begin s base) }
        ensures others { (n : ℕ) (s : Sending) → n < 8 → n ≢ sn → Holds self.old n s → Holds self.new n s }
        ensures memory { self.new.memory ≡ self.old.memory }
        ensures layout { self.new.layout ≡ self.old.layout }
    {
        self.empty(sn);
        self.ends[sn as usize] = base;
        self.written[sn as usize] = base;
    }

    /// Empties a window: nothing is in flight any more.
    pub fn empty(&mut self, sn: u8)
        requires { sn < 8 }
        ensures stands { (s : Sending) → Holds self.old sn s → Holds self.new sn (after_empty s) }
        ensures others { (n : ℕ) (s : Sending) → n < 8 → n ≢ sn → Holds self.old n s → Holds self.new n s }
        ensures memory { self.new.memory ≡ self.old.memory }
        ensures layout { self.new.layout ≡ self.old.layout }
    {
        let flight = self.flights[sn as usize];
        self.taken(sn, flight);
    }

    /// The byte of a buffer at an address.
    #[inline]
    pub fn tx_read(&self, sn: u8, addr: u16) -> u8
        requires { sn < 8 }
        ensures { (s : Sending) → Holds self.now sn s → result ≡ s.tx addr }
    {
        if self.layout.sizes[sn as usize] == 0 {
            return 0;
        }
        let at = self.layout.place(sn, addr);
        self.memory[at]
    }

    /// Writes a byte of a buffer. A buffer of size 0 takes nothing.
    #[inline]
    pub fn tx_write(&mut self, sn: u8, addr: u16, b: u8) -> Result<(), ChipStop>
        requires { sn < 8 }
        ensures ok { IfOk result (λ _. (s : Sending) → Holds self.old sn s → (in_flight_at s addr ≡ None) × Holds self.new sn (after_write s addr b)) }
        ensures err { IfErr result (λ e. (self.new ≡ self.old) × ((s : Sending) → Holds self.old sn s → ((j : ℕ) × (in_flight_at s addr ≡ Some j)) × (e ≡ ChipStop.OverwriteInFlight sn (addr % s.size)))) }
        ensures others { (n : ℕ) (s : Sending) → n < 8 → n ≢ sn → Holds self.old n s → Holds self.new n s }
        ensures memory { (at : ℕ) → at ≢ place_of self.old.layout sn addr → slice_index self.new.memory.items at ≡ slice_index self.old.memory.items at }
        ensures none { slice_index self.old.layout.sizes sn ≡ 0 → self.new ≡ self.old }
        ensures layout { self.new.layout ≡ self.old.layout }
    {
        let size = self.layout.sizes[sn as usize];
        if size == 0 {
            return Ok(());
        }
        let flight = self.flights[sn as usize];
        let first = self.ends[sn as usize].wrapping_sub(flight);
        if distance(size, first, addr) < flight {
            return Err(ChipStop::OverwriteInFlight {
                sn,
                at: addr % size,
            });
        }
        let at = self.layout.place(sn, addr);
        self.memory[at] = b;
        Ok(())
    }

    /// Takes the range from the last end to the written pointer, and answers its length.
    pub fn commit(&mut self, sn: u8) -> Result<u32, ChipStop>
        requires { sn < 8 }
        ensures ok { IfOk result (λ k. (s : Sending) → Holds self.old sn s → (k ≡ range_length s) × (range_length s ≤ free_size s) × Holds self.new sn (after_commit s)) }
        ensures err { IfErr result (λ e. (self.new ≡ self.old) × ((s : Sending) → Holds self.old sn s → (free_size s < range_length s) × (e ≡ ChipStop.SendTooLong sn (range_length s) (free_size s)))) }
        ensures others { (n : ℕ) (s : Sending) → n < 8 → n ≢ sn → Holds self.old n s → Holds self.new n s }
        ensures memory { self.new.memory ≡ self.old.memory }
        ensures layout { self.new.layout ≡ self.old.layout }
    {
        let at = sn as usize;
        let len = self.written[at].wrapping_sub(self.ends[at]);
        let free = self.layout.sizes[at] - self.flights[at];
        if len > free {
            return Err(ChipStop::SendTooLong {
                sn,
                len: len as u32,
                free: free as u32,
            });
        }
        let last = self.written[at].wrapping_sub(1);
        mark(&mut self.marks, &self.layout, sn, last, len);
        self.flights[at] += len;
        self.ends[at] = self.written[at];
        Ok(len as u32)
    }

    /// The bytes in flight, in order: up to the end of the part, and then from its start.
    pub fn offer(&self, sn: u8) -> (&[u8], &[u8])
        requires { sn < 8 }
        ensures bytes { (s : Sending) → Holds self.now sn s → result.0.now ++ result.1.now ≡ in_flight s }
        ensures first { (s : Sending) → Holds self.now sn s → length result.0.now ≡ offered_length s }
        ensures pieces { 0 < slice_index self.now.layout.sizes sn → (result.0.now ≡ first_piece self.now sn) × (result.1.now ≡ second_piece self.now sn) }
        ensures nothing { slice_index self.now.layout.sizes sn ≡ 0 → (result.0.now ≡ []) × (result.1.now ≡ []) }
        ensures len { length result.0.now + length result.1.now ≡ slice_index self.now.flights sn }
    {
        let size = self.layout.sizes[sn as usize];
        if size == 0 {
            return (&[], &[]);
        }
        let flight = self.flights[sn as usize];
        let start = self.layout.starts[sn as usize] as usize;
        let first = self.ends[sn as usize].wrapping_sub(flight);
        let from = self.layout.place(sn, first);
        let flight = flight as usize;
        let to = start + size as usize;
        let room = to - from;
        if flight <= room {
            return (&self.memory[from..from + flight], &[]);
        }
        let rest = start + flight - room;
        (&self.memory[from..to], &self.memory[start..rest])
    }

    /// The first k bytes in flight were taken. Answers whether the end of a range was reached or passed.
    pub fn taken(&mut self, sn: u8, k: u16) -> bool
        requires sn { sn < 8 }
        requires few { k ≤ slice_index self.old.flights sn }
        ensures passed { (s : Sending) → Holds self.old sn s → result ≡ passes_end s k }
        ensures stands { (s : Sending) → Holds self.old sn s → Holds self.new sn (after_taken s k) }
        ensures others { (n : ℕ) (s : Sending) → n < 8 → n ≢ sn → Holds self.old n s → Holds self.new n s }
        ensures memory { self.new.memory ≡ self.old.memory }
        ensures layout { self.new.layout ≡ self.old.layout }
    {
        let at = sn as usize;
        let first = self.ends[at].wrapping_sub(self.flights[at]);
        let passed = unmark(&mut self.marks, &self.layout, sn, first, k);
        self.flights[at] -= k;
        passed
    }

    /// A byte of the registers at 20 to 25; 0 elsewhere.
    #[inline]
    pub fn pointer(&self, sn: u8, addr: u16) -> u8
        requires { sn < 8 }
        ensures { (s : Sending) → Holds self.now sn s → result ≡ tx_pointer s addr }
    {
        let at = sn as usize;
        match addr {
            0x20 => ((self.layout.sizes[at] - self.flights[at]) / 256) as u8,
            0x21 => ((self.layout.sizes[at] - self.flights[at]) % 256) as u8,
            0x22 => (self.ends[at] / 256) as u8,
            0x23 => (self.ends[at] % 256) as u8,
            0x24 => (self.written[at] / 256) as u8,
            0x25 => (self.written[at] % 256) as u8,
            _ => 0,
        }
    }

    /// Writes a byte of Sn_TX_WR, 24 or 25; at any other address nothing changes.
    pub fn set_pointer(&mut self, sn: u8, addr: u16, v: u8)
        requires { sn < 8 }
        ensures stands { (s : Sending) → Holds self.old sn s → Holds self.new sn (after_pointer s addr v) }
        ensures others { (n : ℕ) (s : Sending) → n < 8 → n ≢ sn → Holds self.old n s → Holds self.new n s }
        ensures memory { self.new.memory ≡ self.old.memory }
        ensures layout { self.new.layout ≡ self.old.layout }
    {
        let at = sn as usize;
        self.written[at] = with_byte(0x24, self.written[at], addr, v);
    }
}
