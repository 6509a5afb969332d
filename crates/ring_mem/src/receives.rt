//! The receiving side of the eight sockets.

ghost use Rattle.std.specs.Prelude.{◌≡◌, ◌≢◌, ◌≤◌, ◌<◌, ◌+◌, ◌-◌, ◌%◌, ◌∷◌, ◌++◌, [], ℕ, IfOk, IfErr, length, take, vec_len, slice_index, replicate};
ghost use Rattle.std.specs.Borrow.{sem};
ghost use Rattle.chip_sheet.specs.Sizes.{size_among};
ghost use Rattle.chip_sheet.specs.Receiving.{Receiving, after_got, after_release, after_empty, after_begin, after_resize, after_pointer, release_length, rx_byte, rx_pointer, fresh};
ghost use Rattle.ring_mem.specs.Parts.{SameBytesOutside, offset_in};

use crate::layout::{Layout, distance};
use crate::pointers::with_byte;
use chip_sheet::stop::ChipStop;
use std::alloc::{AllocError, Global};

/// A link call brings in at most so many bytes.
const MOST_READ: u16 = 1472;

/// One memory, and the pointers of each socket, which wrap.
#[derive(Drop)]
pub struct Receives {
    /// The bytes; what is not unread may be anything.
    pub memory: Vec<u8>,
    /// The parts.
    pub layout: Layout,
    /// How many bytes are unread.
    pub unread: [u16; 8],
    /// Sn_RX_WR: the end of the received bytes.
    pub ends: [u16; 8],
    /// Sn_RX_RD: up to where RECV releases.
    pub reads: [u16; 8],
    ghost memory_len: { vec_len memory ≡ 16384 },
    ghost fits: { (n : ℕ) → slice_index unread n ≤ slice_index layout.sizes n },
}

/// The place of a pointer in a buffer of this size.
fn offset(size: u16, at: u16) -> usize
    ensures { result ≡ offset_in size at }
{
    if size == 0 {
        return 0;
    }
    (at % size) as usize
}

impl Receives {
    ghost use Rattle.ring_mem.specs.RxHolds.{RxHolds, room_len, room_at, room_bytes};
    ghost use Rattle.ring_mem.specs.Lent.{LendsRoom};

    /// Empty buffers of 2 KB each.
    pub fn new(alloc: Global) -> Result<Receives, AllocError>
        ensures stands { IfOk result (λ r. (n : ℕ) → n < 8 → RxHolds r n (fresh 2048)) }
        ensures kilobytes { IfOk result (λ r. r.layout.kilobytes ≡ replicate 8 2) }
    {
        let memory = vec![in alloc; 0u8; 16384]?;
        Ok(Receives {
            memory,
            layout: Layout::new([2; 8]),
            unread: [0; 8],
            ends: [0; 8],
            reads: [0; 8],
        })
    }

    /// Clears the memory, and lays the parts out anew. The pointers stay. Nothing may be unread.
    fn wipe(&mut self, kilobytes: [u8; 8])
        requires { (n : ℕ) → slice_index self.old.unread n ≡ 0 }
        ensures memory { self.new.memory.items ≡ replicate 16384 0 }
        ensures kilobytes { self.new.layout.kilobytes ≡ kilobytes }
        ensures pointers { (self.new.unread ≡ self.old.unread) × (self.new.ends ≡ self.old.ends) × (self.new.reads ≡ self.old.reads) }
    {
        self.memory.fill(0);
        self.layout = Layout::new(kilobytes);
    }

    /// Gives the buffers other sizes, which clears the memory. Nothing may be unread.
    pub fn set_sizes(&mut self, kilobytes: [u8; 8])
        requires { (n : ℕ) → n < 8 → slice_index self.old.unread n ≡ 0 }
        ensures same { self.old.layout.kilobytes ≡ kilobytes → self.new ≡ self.old }
        ensures changed { self.old.layout.kilobytes ≢ kilobytes → (n : ℕ) (g : Receiving) → n < 8 → RxHolds self.old n g → RxHolds self.new n (after_resize g (size_among kilobytes n)) }
        ensures memory { self.old.layout.kilobytes ≢ kilobytes → self.new.memory.items ≡ replicate 16384 0 }
        ensures kilobytes { self.new.layout.kilobytes ≡ kilobytes }
    {
        if self.layout.kilobytes == kilobytes {
            return;
        }
        self.wipe(kilobytes);
    }

    /// Makes all as it was at first.
    pub fn clear(&mut self)
        ensures stands { (n : ℕ) → n < 8 → RxHolds self.new n (fresh 2048) }
        ensures memory { self.new.memory.items ≡ replicate 16384 0 }
        ensures kilobytes { self.new.layout.kilobytes ≡ replicate 8 2 }
    {
        self.unread = [0; 8];
        self.ends = [0; 8];
        self.reads = [0; 8];
        self.wipe([2; 8]);
    }

    /// Begins a life or a connection: nothing is unread, and both pointers stand here.
    pub fn begin(&mut self, sn: u8, base: u16)
        requires { sn < 8 }
        ensures stands { (g : Receiving) → RxHolds self.old sn g → RxHolds self.new sn (after_begin g base) }
        ensures others { (n : ℕ) (g : Receiving) → n < 8 → n ≢ sn → RxHolds self.old n g → RxHolds self.new n g }
        ensures memory { self.new.memory ≡ self.old.memory }
        ensures layout { self.new.layout ≡ self.old.layout }
    {
        self.unread[sn as usize] = 0;
        self.ends[sn as usize] = base;
        self.reads[sn as usize] = base;
    }

    /// Empties a window: nothing is unread any more.
    pub fn empty(&mut self, sn: u8)
        requires { sn < 8 }
        ensures stands { (g : Receiving) → RxHolds self.old sn g → RxHolds self.new sn (after_empty g) }
        ensures others { (n : ℕ) (g : Receiving) → n < 8 → n ≢ sn → RxHolds self.old n g → RxHolds self.new n g }
        ensures memory { self.new.memory ≡ self.old.memory }
        ensures layout { self.new.layout ≡ self.old.layout }
    {
        self.unread[sn as usize] = 0;
    }

    /// The unread byte of a buffer at an address, or 0.
    #[inline]
    pub fn rx_read(&self, sn: u8, addr: u16) -> u8
        requires { sn < 8 }
        ensures { (g : Receiving) → RxHolds self.now sn g → result ≡ rx_byte g addr }
    {
        let size = self.layout.sizes[sn as usize];
        if size == 0 {
            return 0;
        }
        let unread = self.unread[sn as usize];
        let first = self.ends[sn as usize].wrapping_sub(unread);
        if distance(size, first, addr) >= unread {
            return 0;
        }
        let at = self.layout.place(sn, addr);
        self.memory[at]
    }

    /// How long the first free piece of a buffer is, at most 1,472 bytes.
    pub fn room_len(&self, sn: u8) -> usize
        requires { sn < 8 }
        ensures { result ≡ room_len self.now sn }
    {
        let at = sn as usize;
        let size = self.layout.sizes[at];
        let free = (size - self.unread[at]).min(MOST_READ) as usize;
        free.min(size as usize - offset(size, self.ends[at]))
    }

    /// Where it begins in the memory.
    fn room_at(&self, sn: u8) -> usize
        requires { sn < 8 }
        ensures value { result ≡ room_at self.now sn }
        ensures within { result + room_len self.now sn ≤ 16384 }
    {
        let at = sn as usize;
        self.layout.starts[at] as usize + offset(self.layout.sizes[at], self.ends[at])
    }

    /// The first free piece of a buffer, to be read into.
    pub fn room(&mut self, sn: u8) -> &mut [u8]
        requires { sn < 8 }
        ensures* writes_back { sem 𝓛 (LendsRoom self.entry sn result) }
        ensures value { result.now ≡ room_bytes self.old sn }
        ensures len { length result.now ≡ room_len self.old sn }
    {
        let len = self.room_len(sn);
        let from = self.room_at(sn);
        let to = from + len;
        self.memory.slice_mut(from..to)
    }

    /// The first k bytes of the free piece were received.
    pub fn filled(&mut self, sn: u8, k: u16)
        requires sn { sn < 8 }
        requires few { k ≤ room_len self.old sn }
        ensures stands { (g : Receiving) → RxHolds self.old sn g → RxHolds self.new sn (after_got g (take k (room_bytes self.old sn))) }
        ensures others { (n : ℕ) (g : Receiving) → n < 8 → n ≢ sn → RxHolds self.old n g → RxHolds self.new n g }
        ensures memory { self.new.memory ≡ self.old.memory }
        ensures layout { self.new.layout ≡ self.old.layout }
    {
        self.unread[sn as usize] += k;
        self.ends[sn as usize] = self.ends[sn as usize].wrapping_add(k);
    }

    /// One byte was received. A function of its own, since its proof is the step of `put`'s loop.
    fn put_byte(&mut self, sn: u8, b: u8)
        requires sn { sn < 8 }
        requires fits { slice_index self.old.unread sn < slice_index self.old.layout.sizes sn }
        ensures stands { (g : Receiving) → RxHolds self.old sn g → RxHolds self.new sn (after_got g (b ∷ [])) }
        ensures others { (n : ℕ) (g : Receiving) → n < 8 → n ≢ sn → RxHolds self.old n g → RxHolds self.new n g }
        ensures outside { SameBytesOutside self.old.memory.items self.new.memory.items (slice_index self.old.layout.starts sn) (slice_index self.old.layout.sizes sn) }
        ensures layout { self.new.layout ≡ self.old.layout }
        ensures more { slice_index self.new.unread sn ≡ slice_index self.old.unread sn + 1 }
    {
        let at = self.layout.place(sn, self.ends[sn as usize]);
        self.memory[at] = b;
        self.unread[sn as usize] += 1;
        self.ends[sn as usize] = self.ends[sn as usize].wrapping_add(1);
    }

    /// These bytes were received.
    pub fn put(&mut self, sn: u8, bytes: &[u8])
        requires sn { sn < 8 }
        requires fits { length bytes.now + slice_index self.old.unread sn ≤ slice_index self.old.layout.sizes sn }
        ensures stands { (g : Receiving) → RxHolds self.old sn g → RxHolds self.new sn (after_got g bytes.now) }
        ensures others { (n : ℕ) (g : Receiving) → n < 8 → n ≢ sn → RxHolds self.old n g → RxHolds self.new n g }
        ensures outside { SameBytesOutside self.old.memory.items self.new.memory.items (slice_index self.old.layout.starts sn) (slice_index self.old.layout.sizes sn) }
        ensures layout { self.new.layout ≡ self.old.layout }
        ensures more { slice_index self.new.unread sn ≡ slice_index self.old.unread sn + length bytes.now }
    {
        for i in 0..bytes.len() {
            self.put_byte(sn, bytes[i]);
        }
    }

    /// Lets go of the bytes up to Sn_RX_RD. Answers how many are left.
    pub fn release(&mut self, sn: u8) -> Result<u32, ChipStop>
        requires { sn < 8 }
        ensures ok { IfOk result (λ left. (g : Receiving) → RxHolds self.old sn g → (release_length g ≤ g.unread) × (left ≡ g.unread - release_length g) × RxHolds self.new sn (after_release g)) }
        ensures err { IfErr result (λ e. (self.new ≡ self.old) × ((g : Receiving) → RxHolds self.old sn g → (g.unread < release_length g) × (e ≡ ChipStop.RecvPastEnd sn (release_length g) g.unread))) }
        ensures others { (n : ℕ) (g : Receiving) → n < 8 → n ≢ sn → RxHolds self.old n g → RxHolds self.new n g }
        ensures memory { self.new.memory ≡ self.old.memory }
        ensures layout { self.new.layout ≡ self.old.layout }
    {
        let at = sn as usize;
        let unread = self.unread[at];
        let asked = self.reads[at].wrapping_sub(self.ends[at].wrapping_sub(unread));
        if asked > unread {
            return Err(ChipStop::RecvPastEnd {
                sn,
                asked: asked as u32,
                there: unread as u32,
            });
        }
        self.unread[at] = unread - asked;
        Ok(u32::from(unread - asked))
    }

    /// A byte of the registers at 26 to 2B; 0 elsewhere.
    #[inline]
    pub fn pointer(&self, sn: u8, addr: u16) -> u8
        requires { sn < 8 }
        ensures { (g : Receiving) → RxHolds self.now sn g → result ≡ rx_pointer g addr }
    {
        let at = sn as usize;
        match addr {
            0x26 => (self.unread[at] / 256) as u8,
            0x27 => (self.unread[at] % 256) as u8,
            0x28 => (self.reads[at] / 256) as u8,
            0x29 => (self.reads[at] % 256) as u8,
            0x2A => (self.ends[at] / 256) as u8,
            0x2B => (self.ends[at] % 256) as u8,
            _ => 0,
        }
    }

    /// Writes a byte of Sn_RX_RD, 28 or 29; at any other address nothing changes.
    pub fn set_pointer(&mut self, sn: u8, addr: u16, v: u8)
        requires { sn < 8 }
        ensures stands { (g : Receiving) → RxHolds self.old sn g → RxHolds self.new sn (after_pointer g addr v) }
        ensures others { (n : ℕ) (g : Receiving) → n < 8 → n ≢ sn → RxHolds self.old n g → RxHolds self.new n g }
        ensures memory { self.new.memory ≡ self.old.memory }
        ensures layout { self.new.layout ≡ self.old.layout }
    {
        let at = sn as usize;
        self.reads[at] = with_byte(0x28, self.reads[at], addr, v);
    }
}
