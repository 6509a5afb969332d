//! The laws of the two directions.
ghost use Rattle.std.specs.Prelude.{◌≡◌, ◌≢◌, ◌≤◌, ◌<◌, ◌/◌, ◌%◌, ◌==◌, ◌&&◌, nat_lt, if◌then◌else◌, ◌∷◌, ℕ, List, map, Some, None, true, false};
ghost use Rattle.board_bus.specs.declared.event.BusEvent.{BusEvent};
ghost use Rattle.board_bus.specs.declared.event.BusAnswer.{BusAnswer};
ghost use Rattle.chip_sheet.specs.declared.stop.ChipStop.TheVariants.{ReservedBlock, Pppoe};
ghost use Rattle.chip_sheet.specs.declared.block.Block.TheVariants.{Reserved};
ghost use Rattle.chip_sheet.specs.Stops.{where_it, command_stop, command_facts, stop};
ghost use Rattle.chip_sheet.specs.SocketBlock.{socket_register};
ghost use Rattle.chip_sheet.specs.Windows as windows;
ghost use Rattle.chip_sheet.specs.Sending as sends_of;
ghost use Rattle.chip_sheet.specs.Names.{sn_cr};
ghost use Rattle.chip_sheet.specs.Registers.{is_reset, common_register};
ghost use Rattle.chip_sheet.specs.declared.event.Addr.{Addr};
ghost use Rattle.chip_sheet.specs.declared.event.Entry.{Entry};
ghost use Rattle.chip_sheet.specs.declared.event.Entry.TheVariants.{Bus, Link, Rest};
ghost use Rattle.chip_sheet.specs.declared.event.LinkEntry.{LinkEntry};
ghost use Rattle.chip_sheet.specs.declared.event.LinkEntry.TheVariants.{Took, Got, Datagram};
ghost use Rattle.chip_sheet.specs.declared.phase.Access.TheVariants.{NoAccess, Read, Write};
ghost use Rattle.chip_sheet.specs.Past.{Past};
ghost use Rattle.chip_sheet.specs.Frames.{access, access_of};
ghost use Rattle.chip_sheet.specs.Blocks.{sockets, registers_of, tx_buffer_of, rx_buffer_of, block_of};
ghost use Rattle.chip_sheet.specs.Sizes.{tx_sizes, rx_sizes, tx_size, rx_size, resizes, kilobytes};
ghost use Rattle.chip_sheet.specs.Life.{cause, status};
ghost use Rattle.chip_sheet.specs.Streams.{Starts, sends, makes};
ghost use Rattle.chip_sheet.specs.Buffers.{sending, receiving};
ghost use Rattle.chip_sheet.specs.Interrupts.{interrupts_by, asks, sir_register};
ghost use Rattle.chip_sheet.specs.Legal.{Legal};
ghost use Rattle.chip_sheet.specs.Quiet.{writes_to, Untouched};
ghost use Rattle.chip_sheet.specs.Sending.{after_write, after_commit, after_taken, after_empty, after_begin, after_resize};
ghost use Rattle.chip_sheet.specs.Receiving as receives;
ghost use Rattle.chip_steps.specs.Steps.{is_quiet, IsNothing, CommandAlone, LeavesSent, LeavesGot, BeginsLife, StaysOpen, IsShutAfter, NotToRegisters, NotToBuffer, KeepsTxSizes, KeepsRxSizes, SendsBy, ReceivesBy, SendsSame, ReceivesSame, due_length, ReceivesPut, IsSend, IsReceive, IsNoReset, WritesRegister, IsOpen, TakesSend, SendsPointer, ReceivesPointer, due_release, is_left_unread, OffersSame, overwrite_at, resize_at};

/// A command or a link event that leaves what was sent changes nothing of what a socket sends where the socket is open after it
/// as before, and empties the window where it is not open after it.
pub fn sending_left()
    ensures stays { (starts : Starts) (past : Past) (entry : Entry) (n : ℕ) → CommandAlone past entry n → LeavesSent past entry n
        → StaysOpen past entry n → SendsSame starts past entry n }
    ensures empties { (starts : Starts) (past : Past) (entry : Entry) (n : ℕ) → CommandAlone past entry n → LeavesSent past entry n
        → IsShutAfter past entry n → SendsBy starts past entry n after_empty }
{}

/// What a write that is no command makes of what a socket sends: a byte of its TX buffer, a byte of its registers, and a change
/// of a TX size, of this socket or another. A write elsewhere leaves it.
pub fn sending_written()
    ensures unwritten { (starts : Starts) (past : Past) (entry : Entry) (n : ℕ) → IsNothing past entry n → NotToRegisters past entry n
        → NotToBuffer past entry n → KeepsTxSizes past entry → SendsSame starts past entry n }
    ensures written { (starts : Starts) (past : Past) (entry : Entry) (n addr v : ℕ) → access_of past entry ≡ Write (tx_buffer_of n) addr v
        → SendsBy starts past entry n (λ s. after_write s addr v) }
    ensures pointer { (starts : Starts) (past : Past) (entry : Entry) (n addr v : ℕ) → IsNothing past entry n → WritesRegister past entry n addr v
        → KeepsTxSizes past entry → SendsPointer starts past entry n addr v }
    ensures resize { (starts : Starts) (past : Past) (entry : Entry) (n : ℕ) → resizes past tx_sizes (access_of past entry) ≡ true
        → SendsBy starts past entry n (λ s. after_resize s (tx_size (entry ∷ past) n)) }
{}

/// What a SEND, bytes that the link took, an accepted OPEN and a connection that is made, make of what a socket sends.
pub fn sending_steps()
    ensures commits { (starts : Starts) (past : Past) (entry : Entry) (n : ℕ) → Legal starts past → CommandAlone past entry n → IsSend past entry n
        → TakesSend past n → SendsBy starts past entry n after_commit }
    ensures took { (starts : Starts) (past : Past) (n count : ℕ) → SendsBy starts past (Link n (Took count)) n (λ s. after_taken s count) }
    ensures opens { (starts : Starts) (past : Past) (entry : Entry) (n : ℕ) → CommandAlone past entry n → BeginsLife past entry n
        → SendsBy starts past entry n (λ s. after_begin s 0) }
    ensures connects { (starts : Starts) (past : Past) (n : ℕ) (what : LinkEntry) → Legal starts (Link n what ∷ past) → makes what ≡ true
        → SendsBy starts past (Link n what) n (λ s. after_begin s starts.tx) }
{}

/// A command or a link event that leaves what was received changes nothing of what a socket receives where the socket is open
/// after it as before, and empties the window where it is not open after it.
pub fn receiving_left()
    ensures stays { (starts : Starts) (past : Past) (entry : Entry) (n : ℕ) → CommandAlone past entry n → LeavesGot past entry n
        → StaysOpen past entry n → ReceivesSame starts past entry n }
    ensures empties { (starts : Starts) (past : Past) (entry : Entry) (n : ℕ) → CommandAlone past entry n → LeavesGot past entry n
        → IsShutAfter past entry n → ReceivesBy starts past entry n receives.after_empty }
{}

/// What a write that is no command makes of what a socket receives: a byte of its registers, and a change of an RX size, of this
/// socket or another. A write elsewhere, to a TX buffer too, leaves it.
pub fn receiving_written()
    ensures unwritten { (starts : Starts) (past : Past) (entry : Entry) (n : ℕ) → IsNothing past entry n → NotToRegisters past entry n
        → KeepsRxSizes past entry → ReceivesSame starts past entry n }
    ensures pointer { (starts : Starts) (past : Past) (entry : Entry) (n addr v : ℕ) → IsNothing past entry n → WritesRegister past entry n addr v
        → KeepsRxSizes past entry → ReceivesPointer starts past entry n addr v }
    ensures resize { (starts : Starts) (past : Past) (entry : Entry) (n : ℕ) → resizes past rx_sizes (access_of past entry) ≡ true
        → ReceivesBy starts past entry n (λ g. receives.after_resize g (rx_size (entry ∷ past) n)) }
{}

/// What a RECV, bytes and datagrams that come in, an accepted OPEN and a connection that is made, make of what a socket receives.
pub fn receiving_steps()
    ensures releases { (starts : Starts) (past : Past) (entry : Entry) (n : ℕ) → Legal starts past → CommandAlone past entry n → IsReceive past entry n
        → IsOpen past n → ReceivesBy starts past entry n receives.after_release }
    ensures gets { (starts : Starts) (past : Past) (n : ℕ) (bytes : List ℕ) → Legal starts past → IsOpen past n
        → ReceivesPut starts past n (Got bytes) }
    ensures gets_datagram { (starts : Starts) (past : Past) (n : ℕ) (from : Addr) (body : List ℕ) → Legal starts past → IsOpen past n
        → ReceivesPut starts past n (Datagram from body) }
    ensures opens { (starts : Starts) (past : Past) (entry : Entry) (n : ℕ) → CommandAlone past entry n → BeginsLife past entry n
        → ReceivesBy starts past entry n (λ g. receives.after_begin g 0) }
    ensures connects { (starts : Starts) (past : Past) (n : ℕ) (what : LinkEntry) → Legal starts (Link n what ∷ past) → makes what ≡ true
        → ReceivesBy starts past (Link n what) n (λ g. receives.after_begin g starts.rx) }
{}

/// What the registers of the windows and pointers, the buffers and the moves of the pointers show of the two directions is what
/// the definitions over a history show.
pub fn directions_show()
    ensures tx { (starts : Starts) (past : Past) (n addr : ℕ) → 0x20 ≤ addr → addr < 0x26 → socket_register starts past n addr ≡ sends_of.tx_pointer (sending starts past n) addr }
    ensures rx { (starts : Starts) (past : Past) (n addr : ℕ) → 0x26 ≤ addr → addr < 0x2C → socket_register starts past n addr ≡ receives.rx_pointer (receiving starts past n) addr }
    ensures in_flight_at { (starts : Starts) (past : Past) (n addr : ℕ) → Legal starts past → sends_of.in_flight_at (sending starts past n) addr ≡ windows.in_flight_at starts past n addr }
    ensures rx_byte { (starts : Starts) (past : Past) (n addr : ℕ) → Legal starts past → receives.rx_byte (receiving starts past n) addr ≡ windows.rx_byte starts past n addr }
    ensures range { (starts : Starts) (past : Past) (n : ℕ) → IsOpen past n
        → sends_of.range_length (sending starts past n) ≡ due_length starts past n }
    ensures release { (starts : Starts) (past : Past) (n : ℕ) → Legal starts past → IsOpen past n
        → receives.release_length (receiving starts past n) ≡ due_release starts past n }
    ensures offered { (starts : Starts) (past : Past) (n : ℕ) → Legal starts past → IsOpen past n
        → OffersSame starts past n }
    ensures room { (starts : Starts) (past : Past) (n : ℕ) → IsOpen past n → receives.room_length (receiving starts past n) ≡ windows.room_length starts past n }
{}

/// Which sockets an entry does not touch: all others than that of the block that is written, where no size changes, and than that
/// of the link event.
pub fn others_untouched()
    ensures registers { (past : Past) (e : BusEvent) (a : BusAnswer) (n m addr v : ℕ) → m ≢ n → WritesRegister past (Bus e a) n addr v
        → KeepsTxSizes past (Bus e a) → KeepsRxSizes past (Bus e a) → Untouched past (Bus e a) m }
    ensures tx { (past : Past) (e : BusEvent) (a : BusAnswer) (n m addr v : ℕ) → m ≢ n → access past e ≡ Write (tx_buffer_of n) addr v → Untouched past (Bus e a) m }
    ensures rx { (past : Past) (e : BusEvent) (a : BusAnswer) (n m addr v : ℕ) → access past e ≡ Write (rx_buffer_of n) addr v → Untouched past (Bus e a) m }
    ensures common { (past : Past) (e : BusEvent) (a : BusAnswer) (m addr v : ℕ) → access past e ≡ Write 0 addr v → is_reset (Write 0 addr v) ≡ false → Untouched past (Bus e a) m }
    ensures reads { (past : Past) (e : BusEvent) (a : BusAnswer) (m bits addr : ℕ) → access past e ≡ Read bits addr → Untouched past (Bus e a) m }
    ensures idle { (past : Past) (e : BusEvent) (a : BusAnswer) (m : ℕ) → access past e ≡ NoAccess → Untouched past (Bus e a) m }
    ensures link { (past : Past) (n m : ℕ) (what : LinkEntry) → m ≢ n → Untouched past (Link n what) m }
    ensures rest { (past : Past) (m : ℕ) → Untouched past Rest m }
{}

/// The stop of an access, block by block.
pub fn stop_of_a_block()
    ensures no_access { (starts : Starts) (past : Past) (e : BusEvent) → access past e ≡ NoAccess → stop starts past e ≡ None }
    ensures reads { (starts : Starts) (past : Past) (e : BusEvent) (bits addr : ℕ) → access past e ≡ Read bits addr → block_of bits ≢ Reserved → stop starts past e ≡ None }
    ensures reads_reserved { (starts : Starts) (past : Past) (e : BusEvent) (bits addr : ℕ) → access past e ≡ Read bits addr → block_of bits ≡ Reserved → stop starts past e ≡ Some (ReservedBlock bits) }
    ensures writes_reserved { (starts : Starts) (past : Past) (e : BusEvent) (bits addr v : ℕ) → access past e ≡ Write bits addr v → block_of bits ≡ Reserved → stop starts past e ≡ Some (ReservedBlock bits) }
    ensures common { (starts : Starts) (past : Past) (e : BusEvent) (addr v : ℕ) → access past e ≡ Write 0 addr v → stop starts past e ≡ where_it (addr == 0x00 && nat_lt v 128 && v / 8 % 2 == 1) Pppoe }
    ensures rx { (starts : Starts) (past : Past) (e : BusEvent) (n addr v : ℕ) → access past e ≡ Write (rx_buffer_of n) addr v → stop starts past e ≡ None }
    ensures tx { (starts : Starts) (past : Past) (e : BusEvent) (n addr v : ℕ) → access past e ≡ Write (tx_buffer_of n) addr v → stop starts past e ≡ overwrite_at starts past n addr }
    ensures command { (starts : Starts) (past : Past) (e : BusEvent) (n v : ℕ) → access past e ≡ Write (registers_of n) sn_cr v → stop starts past e ≡ command_stop n (command_facts starts past n) v }
    ensures register { (starts : Starts) (past : Past) (e : BusEvent) (n addr v : ℕ) → access past e ≡ Write (registers_of n) addr v → (addr == sn_cr) ≡ false
        → stop starts past e ≡ resize_at past e n }
{}

/// The interrupts that a command raises: SENDOK at a SEND of no bytes, RECV at a RECV after which bytes remain, and none at any
/// other.
pub fn commands_raise()
    ensures send { (starts : Starts) (past : Past) (entry : Entry) (n : ℕ) → IsSend past entry n
        → interrupts_by starts past n entry ≡ (if sends (status past n) && due_length starts past n == 0 then 16 else 0) }
    ensures receive { (starts : Starts) (past : Past) (entry : Entry) (n : ℕ) → IsReceive past entry n
        → interrupts_by starts past n entry ≡ (if is_left_unread starts past entry n then 4 else 0) }
    ensures others { (starts : Starts) (past : Past) (entry : Entry) (n : ℕ) → is_quiet (cause past n entry) ≡ true → interrupts_by starts past n entry ≡ 0 }
{}

/// An entry that does not touch a socket leaves what each of its registers reads and whether it asks for an interrupt; one that
/// touches none leaves SIR. What writes nothing to the common registers leaves them, and what changes no size leaves the eight
/// sizes.
pub fn untouched_reads()
    ensures registers { (starts : Starts) (past : Past) (entry : Entry) (n at : ℕ) → Untouched past entry n → socket_register starts (entry ∷ past) n at ≡ socket_register starts past n at }
    ensures asks { (starts : Starts) (past : Past) (entry : Entry) (n : ℕ) → Untouched past entry n → asks starts (entry ∷ past) n ≡ asks starts past n }
    ensures sir { (starts : Starts) (past : Past) (entry : Entry) → ((n : ℕ) → Untouched past entry n) → sir_register starts (entry ∷ past) ≡ sir_register starts past }
    ensures common { (past : Past) (entry : Entry) (at : ℕ) → IsNoReset past entry → writes_to (access_of past entry) 0 ≡ false → common_register (entry ∷ past) at ≡ common_register past at }
    ensures sizes { (past : Past) (entry : Entry) (sizes : ℕ) → IsNoReset past entry → resizes past sizes (access_of past entry) ≡ false
        → map (kilobytes (entry ∷ past) sizes) sockets ≡ map (kilobytes past sizes) sockets }
{}
