//! The buffers of the eight sockets, both directions.

ghost use Rattle.std.specs.Prelude.{◌≡◌, ◌≢◌, ◌≤◌, ◌<◌, ◌+◌, ◌-◌, ◌%◌, ◌++◌, ◌&&◌, [], ℕ, Some, None, IfOk, IfErr, length, take, slice_index, replicate};
ghost use Rattle.std.specs.Borrow.{sem};
ghost use Rattle.chip_sheet.specs.Sizes.{size_among, are_valid};
ghost use Rattle.chip_sheet.specs.Sending as sending;
ghost use Rattle.chip_sheet.specs.Sending.{Sending, in_flight_at, in_flight, offered_length, range_length, passes_end, tx_pointer, after_write, after_commit, after_taken};
ghost use Rattle.chip_sheet.specs.Receiving as receiving;
ghost use Rattle.chip_sheet.specs.Receiving.{Receiving, rx_byte, rx_pointer, release_length, after_got, after_release};

use crate::layout;
use crate::receives::Receives;
use crate::sends::Sends;
use chip_sheet::stop::ChipStop;
use std::alloc::{AllocError, Global};

/// The buffers of the eight sockets. A socket is `sn`, 0 to 7.
#[derive(Drop)]
pub struct Rings {
    tx: Sends,
    rx: Receives,
}

impl Rings {
    ghost use Rattle.ring_mem.specs.Buffers.{tx_memory, rx_memory, tx_kilobytes, rx_kilobytes, tx_sizes, tx_place, flight_of, unread_of, rx_free, TxHolds, RxHolds, OthersSend, OthersReceive, SameTx, SameRx, SameOutside, first_piece, second_piece, room_len, room_bytes, LendsRoom};

    /// Empty buffers of 2 KB each, with every byte and pointer 0. No later call takes memory.
    ///
    /// # Errors
    ///
    /// `AllocError`, which may come at any time.
    pub fn new(alloc: Global) -> Result<Rings, AllocError>
        ensures tx { IfOk result (λ r. (n : ℕ) → n < 8 → TxHolds r n (sending.fresh 2048)) }
        ensures rx { IfOk result (λ r. (n : ℕ) → n < 8 → RxHolds r n (receiving.fresh 2048)) }
        ensures sizes { IfOk result (λ r. (tx_kilobytes r ≡ replicate 8 2) × (rx_kilobytes r ≡ replicate 8 2)) }
    {
        let tx = Sends::new(alloc)?;
        let rx = Receives::new(alloc)?;
        Ok(Rings { tx, rx })
    }

    /// Gives the buffers other sizes, in kilobytes, which clears the memory of a direction whose sizes change. Where the
    /// eight sizes of a direction are not valid, all its buffers have size 0. All windows of a direction must be empty.
    pub fn set_sizes(&mut self, tx: [u8; 8], rx: [u8; 8])
        requires tx { (n : ℕ) → n < 8 → flight_of self.old n ≡ 0 }
        requires rx { (n : ℕ) → n < 8 → unread_of self.old n ≡ 0 }
        ensures tx_same { tx_kilobytes self.old ≡ tx → SameTx self.old self.new }
        ensures tx_changed { tx_kilobytes self.old ≢ tx → (n : ℕ) (s : Sending) → n < 8 → TxHolds self.old n s → TxHolds self.new n (sending.after_resize s (size_among tx n)) }
        ensures tx_cleared { tx_kilobytes self.old ≢ tx → tx_memory self.new ≡ replicate 16384 0 }
        ensures rx_same { rx_kilobytes self.old ≡ rx → SameRx self.old self.new }
        ensures rx_changed { rx_kilobytes self.old ≢ rx → (n : ℕ) (g : Receiving) → n < 8 → RxHolds self.old n g → RxHolds self.new n (receiving.after_resize g (size_among rx n)) }
        ensures rx_cleared { rx_kilobytes self.old ≢ rx → rx_memory self.new ≡ replicate 16384 0 }
        ensures sizes { (tx_kilobytes self.new ≡ tx) × (rx_kilobytes self.new ≡ rx) }
    {
        self.tx.set_sizes(tx);
        self.rx.set_sizes(rx);
    }

    /// The sizes of the TX buffers and of the RX buffers in kilobytes, as they were set.
    pub fn sizes(&self) -> ([u8; 8], [u8; 8])
        ensures { (result.0 ≡ tx_kilobytes self.now) × (result.1 ≡ rx_kilobytes self.now) }
    {
        (self.tx.layout.kilobytes, self.rx.layout.kilobytes)
    }

    /// Whether the eight sizes of each direction fit its memory.
    pub fn sizes_valid(&self) -> bool
        ensures { result ≡ (are_valid (tx_kilobytes self.now) && are_valid (rx_kilobytes self.now)) }
    {
        layout::are_valid(&self.tx.layout.kilobytes) && layout::are_valid(&self.rx.layout.kilobytes)
    }

    /// Makes all as `new` made it, as a software reset does.
    pub fn clear(&mut self)
        ensures tx { (n : ℕ) → n < 8 → TxHolds self.new n (sending.fresh 2048) }
        ensures rx { (n : ℕ) → n < 8 → RxHolds self.new n (receiving.fresh 2048) }
        ensures memory { (tx_memory self.new ≡ replicate 16384 0) × (rx_memory self.new ≡ replicate 16384 0) }
        ensures sizes { (tx_kilobytes self.new ≡ replicate 8 2) × (rx_kilobytes self.new ≡ replicate 8 2) }
    {
        self.tx.clear();
        self.rx.clear();
    }

    /// Begins a life or a connection: both windows are empty, and the pointers stand at these positions.
    pub fn begin(&mut self, sn: u8, tx: u16, rx: u16)
        requires { sn < 8 }
        ensures tx { (s : Sending) → TxHolds self.old sn s → TxHolds self.new sn (sending.after_begin s tx) }
        ensures rx { (g : Receiving) → RxHolds self.old sn g → RxHolds self.new sn (receiving.after_begin g rx) }
        ensures others { OthersSend self.old self.new sn }
        ensures rx_others { OthersReceive self.old self.new sn }
        ensures memory { (tx_memory self.new ≡ tx_memory self.old) × (rx_memory self.new ≡ rx_memory self.old) }
        ensures sizes { (tx_kilobytes self.new ≡ tx_kilobytes self.old) × (rx_kilobytes self.new ≡ rx_kilobytes self.old) }
    {
        self.tx.begin(sn, tx);
        self.rx.begin(sn, rx);
    }

    /// Empties both windows, as a life that closes does. The pointers stay.
    pub fn empty(&mut self, sn: u8)
        requires { sn < 8 }
        ensures tx { (s : Sending) → TxHolds self.old sn s → TxHolds self.new sn (sending.after_empty s) }
        ensures rx { (g : Receiving) → RxHolds self.old sn g → RxHolds self.new sn (receiving.after_empty g) }
        ensures others { OthersSend self.old self.new sn }
        ensures rx_others { OthersReceive self.old self.new sn }
        ensures memory { (tx_memory self.new ≡ tx_memory self.old) × (rx_memory self.new ≡ rx_memory self.old) }
        ensures sizes { (tx_kilobytes self.new ≡ tx_kilobytes self.old) × (rx_kilobytes self.new ≡ rx_kilobytes self.old) }
    {
        self.tx.empty(sn);
        self.rx.empty(sn);
    }

    /// The byte of a TX buffer at an address (datasheet, 2.2.2 and 3.3).
    #[inline]
    pub fn tx_read(&self, sn: u8, addr: u16) -> u8
        requires { sn < 8 }
        ensures { (s : Sending) → TxHolds self.now sn s → result ≡ s.tx addr }
    {
        self.tx.tx_read(sn, addr)
    }

    /// Writes a byte of a TX buffer. A buffer of size 0 takes nothing.
    ///
    /// # Errors
    ///
    /// `OverwriteInFlight` exactly where the place holds a byte in flight; nothing has then changed.
    #[inline]
    pub fn tx_write(&mut self, sn: u8, addr: u16, b: u8) -> Result<(), ChipStop>
        requires { sn < 8 }
        ensures ok { IfOk result (λ _. (s : Sending) → TxHolds self.old sn s → (in_flight_at s addr ≡ None) × TxHolds self.new sn (after_write s addr b)) }
        ensures err { IfErr result (λ e. (self.new ≡ self.old) × ((s : Sending) → TxHolds self.old sn s → ((j : ℕ) × (in_flight_at s addr ≡ Some j)) × (e ≡ ChipStop.OverwriteInFlight sn (addr % s.size)))) }
        ensures others { OthersSend self.old self.new sn }
        ensures memory { (at : ℕ) → at ≢ tx_place self.old sn addr → slice_index (tx_memory self.new) at ≡ slice_index (tx_memory self.old) at }
        ensures none { slice_index (tx_sizes self.old) sn ≡ 0 → self.new ≡ self.old }
        ensures sizes { tx_kilobytes self.new ≡ tx_kilobytes self.old }
        ensures rx { SameRx self.old self.new }
    {
        self.tx.tx_write(sn, addr, b)
    }

    /// SEND: takes the range from Sn_TX_RD to Sn_TX_WR, and answers its length. It copies nothing.
    ///
    /// # Errors
    ///
    /// `SendTooLong` exactly where the range is longer than the free size; nothing has then changed.
    pub fn commit(&mut self, sn: u8) -> Result<u32, ChipStop>
        requires { sn < 8 }
        ensures ok { IfOk result (λ k. (s : Sending) → TxHolds self.old sn s → (k ≡ range_length s) × (range_length s ≤ sending.free_size s) × TxHolds self.new sn (after_commit s)) }
        ensures err { IfErr result (λ e. (self.new ≡ self.old) × ((s : Sending) → TxHolds self.old sn s → (sending.free_size s < range_length s) × (e ≡ ChipStop.SendTooLong sn (range_length s) (sending.free_size s)))) }
        ensures others { OthersSend self.old self.new sn }
        ensures memory { tx_memory self.new ≡ tx_memory self.old }
        ensures sizes { tx_kilobytes self.new ≡ tx_kilobytes self.old }
        ensures rx { SameRx self.old self.new }
    {
        self.tx.commit(sn)
    }

    /// How many bytes are in flight, at most 16,384.
    #[inline]
    pub fn flight(&self, sn: u8) -> u32
        requires { sn < 8 }
        ensures value { result ≡ flight_of self.now sn }
        ensures stands { (s : Sending) → TxHolds self.now sn s → result ≡ s.flight }
    {
        u32::from(self.tx.flights[sn as usize])
    }

    /// Lends the bytes in flight, in order, in at most two pieces of the memory. A stream sends the first of them; a
    /// datagram is both.
    pub fn offer(&self, sn: u8) -> (&[u8], &[u8])
        requires { sn < 8 }
        ensures bytes { (s : Sending) → TxHolds self.now sn s → result.0.now ++ result.1.now ≡ in_flight s }
        ensures first { (s : Sending) → TxHolds self.now sn s → length result.0.now ≡ offered_length s }
        ensures pieces { 0 < slice_index (tx_sizes self.now) sn → (result.0.now ≡ first_piece self.now sn) × (result.1.now ≡ second_piece self.now sn) }
        ensures nothing { slice_index (tx_sizes self.now) sn ≡ 0 → (result.0.now ≡ []) × (result.1.now ≡ []) }
        ensures len { length result.0.now + length result.1.now ≡ flight_of self.now sn }
    {
        self.tx.offer(sn)
    }

    /// The first k bytes in flight were taken. Answers whether the end of a range was reached or passed.
    pub fn taken(&mut self, sn: u8, k: u32) -> bool
        requires sn { sn < 8 }
        requires few { k ≤ flight_of self.old sn }
        ensures passed { (s : Sending) → TxHolds self.old sn s → result ≡ passes_end s k }
        ensures stands { (s : Sending) → TxHolds self.old sn s → TxHolds self.new sn (after_taken s k) }
        ensures others { OthersSend self.old self.new sn }
        ensures memory { tx_memory self.new ≡ tx_memory self.old }
        ensures sizes { tx_kilobytes self.new ≡ tx_kilobytes self.old }
        ensures rx { SameRx self.old self.new }
    {
        self.tx.taken(sn, k as u16)
    }

    /// The unread byte of an RX buffer at an address. What is not unread reads 00.
    #[inline]
    pub fn rx_read(&self, sn: u8, addr: u16) -> u8
        requires { sn < 8 }
        ensures { (g : Receiving) → RxHolds self.now sn g → result ≡ rx_byte g addr }
    {
        self.rx.rx_read(sn, addr)
    }

    /// How many bytes of an RX buffer are free, at most 16,384.
    #[inline]
    pub fn free(&self, sn: u8) -> u32
        requires { sn < 8 }
        ensures value { result ≡ rx_free self.now sn }
        ensures stands { (g : Receiving) → RxHolds self.now sn g → result ≡ receiving.free_size g }
    {
        let at = sn as usize;
        u32::from(self.rx.layout.sizes[at] - self.rx.unread[at])
    }

    /// Lends the first free piece of an RX buffer, at most 1,472 bytes, to be read into; empty where nothing is free.
    pub fn room(&mut self, sn: u8) -> &mut [u8]
        requires { sn < 8 }
        ensures* writes_back { sem 𝓛 (LendsRoom self.entry sn result) }
        ensures value { result.now ≡ room_bytes self.old sn }
        ensures len { length result.now ≡ room_len self.old sn }
    {
        self.rx.room(sn)
    }

    /// The first k bytes of the piece that `room` lends were received.
    pub fn filled(&mut self, sn: u8, k: u32)
        requires sn { sn < 8 }
        requires few { k ≤ room_len self.old sn }
        ensures stands { (g : Receiving) → RxHolds self.old sn g → RxHolds self.new sn (after_got g (take k (room_bytes self.old sn))) }
        ensures others { OthersReceive self.old self.new sn }
        ensures memory { rx_memory self.new ≡ rx_memory self.old }
        ensures sizes { rx_kilobytes self.new ≡ rx_kilobytes self.old }
        ensures tx { SameTx self.old self.new }
    {
        self.rx.filled(sn, k as u16);
    }

    /// These bytes were received. They must fit.
    pub fn put(&mut self, sn: u8, bytes: &[u8])
        requires sn { sn < 8 }
        requires fits { length bytes.now ≤ rx_free self.old sn }
        ensures stands { (g : Receiving) → RxHolds self.old sn g → RxHolds self.new sn (after_got g bytes.now) }
        ensures others { OthersReceive self.old self.new sn }
        ensures memory { SameOutside self.old self.new sn }
        ensures sizes { rx_kilobytes self.new ≡ rx_kilobytes self.old }
        ensures tx { SameTx self.old self.new }
    {
        self.rx.put(sn, bytes);
    }

    /// A datagram was received: its header of 8 bytes, and then its body. Both must fit.
    pub fn put_datagram(&mut self, sn: u8, header: &[u8; 8], body: &[u8])
        requires sn { sn < 8 }
        requires fits { 8 + length body.now ≤ rx_free self.old sn }
        ensures stands { (g : Receiving) → RxHolds self.old sn g → RxHolds self.new sn (after_got g (header.now ++ body.now)) }
        ensures others { OthersReceive self.old self.new sn }
        ensures memory { SameOutside self.old self.new sn }
        ensures sizes { rx_kilobytes self.new ≡ rx_kilobytes self.old }
        ensures tx { SameTx self.old self.new }
    {
        self.rx.put(sn, header);
        self.rx.put(sn, body);
    }

    /// RECV: lets go of the received bytes up to Sn_RX_RD. Answers how many are left.
    ///
    /// # Errors
    ///
    /// `RecvPastEnd` exactly where Sn_RX_RD lies past the received bytes; nothing has then changed.
    pub fn release(&mut self, sn: u8) -> Result<u32, ChipStop>
        requires { sn < 8 }
        ensures ok { IfOk result (λ left. (g : Receiving) → RxHolds self.old sn g → (release_length g ≤ g.unread) × (left ≡ g.unread - release_length g) × RxHolds self.new sn (after_release g)) }
        ensures err { IfErr result (λ e. (self.new ≡ self.old) × ((g : Receiving) → RxHolds self.old sn g → (g.unread < release_length g) × (e ≡ ChipStop.RecvPastEnd sn (release_length g) g.unread))) }
        ensures others { OthersReceive self.old self.new sn }
        ensures memory { rx_memory self.new ≡ rx_memory self.old }
        ensures sizes { rx_kilobytes self.new ≡ rx_kilobytes self.old }
        ensures tx { SameTx self.old self.new }
    {
        self.rx.release(sn)
    }

    /// A byte of the registers that show the windows and the pointers, at 20 to 2B (datasheet, 4.2); 0 elsewhere.
    #[inline]
    pub fn pointer(&self, sn: u8, addr: u16) -> u8
        requires { sn < 8 }
        ensures tx { addr < 0x26 → (s : Sending) → TxHolds self.now sn s → result ≡ tx_pointer s addr }
        ensures rx { 0x26 ≤ addr → (g : Receiving) → RxHolds self.now sn g → result ≡ rx_pointer g addr }
    {
        if addr < 0x26 {
            self.tx.pointer(sn, addr)
        } else {
            self.rx.pointer(sn, addr)
        }
    }

    /// Writes a byte of Sn_TX_WR, 24 or 25, or of Sn_RX_RD, 28 or 29; at any other address nothing changes.
    pub fn set_pointer(&mut self, sn: u8, addr: u16, v: u8)
        requires { sn < 8 }
        ensures tx { (s : Sending) → TxHolds self.old sn s → TxHolds self.new sn (sending.after_pointer s addr v) }
        ensures rx { (g : Receiving) → RxHolds self.old sn g → RxHolds self.new sn (receiving.after_pointer g addr v) }
        ensures others { OthersSend self.old self.new sn }
        ensures rx_others { OthersReceive self.old self.new sn }
        ensures memory { (tx_memory self.new ≡ tx_memory self.old) × (rx_memory self.new ≡ rx_memory self.old) }
        ensures sizes { (tx_kilobytes self.new ≡ tx_kilobytes self.old) × (rx_kilobytes self.new ≡ rx_kilobytes self.old) }
    {
        self.tx.set_pointer(sn, addr, v);
        self.rx.set_pointer(sn, addr, v);
    }
}
