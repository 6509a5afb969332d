//! Laws of the sockets' definitions, each the contract of an empty function.
ghost use Rattle.std.specs.Prelude.{◌≡◌, ◌≤◌, ◌<◌, ◌↔◌, ◌==◌, not, bit_and, ℕ, ◌+◌, ◌-◌, ◌*◌, ◌%◌, ◌^◌, List, [], ◌∷◌, ◌++◌, length, Some, None, true, false, if◌then◌else◌};
ghost use Rattle.std.specs.Option.{IsSome};
ghost use Rattle.board_bus.specs.declared.event.BusEvent.{BusEvent};
ghost use Rattle.board_bus.specs.declared.event.BusAnswer.{BusAnswer};
ghost use Rattle.chip_sheet.specs.declared.event.Entry.TheVariants.{Bus};
ghost use Rattle.chip_sheet.specs.declared.event.LinkEntry.TheVariants.{Took, Datagram};
ghost use Rattle.chip_sheet.specs.declared.event.Addr.{Addr};
ghost use Rattle.chip_sheet.specs.declared.stop.ChipStop.TheVariants.{SendBusy};
ghost use Rattle.chip_sheet.specs.declared.phase.Access.TheVariants.{Write};
ghost use Rattle.chip_sheet.specs.declared.socket.Status.TheVariants.{Closed, Udp};
ghost use Rattle.chip_sheet.specs.declared.socket.Cause.TheVariants.{Send};
ghost use Rattle.chip_sheet.specs.declared.event.Entry.{Entry};
ghost use Rattle.chip_sheet.specs.Past.{Past, GoesOn};
ghost use Rattle.chip_sheet.specs.Frames.{access_of};
ghost use Rattle.chip_sheet.specs.Registers.{is_reset};
ghost use Rattle.chip_sheet.specs.Life.{cause, status, lives, old, is_closed, is_udp};
ghost use Rattle.chip_sheet.specs.Sizes.{is_size, tx_size, rx_size};
ghost use Rattle.chip_sheet.specs.Streams.{Starts, sent, sends, range, taken, got, released, tx_byte, is_open, is_made, header};
ghost use Rattle.chip_sheet.specs.Windows.{flight, unread, rx_free, rx_byte, in_flight_at, offered_length, offered};
ghost use Rattle.chip_sheet.specs.Answers.{answer, byte_at};
ghost use Rattle.chip_sheet.specs.Legal.{Legal};
ghost use Rattle.chip_sheet.specs.Bits.{has_bit};
ghost use Rattle.chip_sheet.specs.Interrupts.{bit_value, raised, interrupt_register, mask, asks, sir_register, enabled_sockets, interrupt_low};
ghost use Rattle.chip_sheet.specs.declared.socket.Interrupt.{Interrupt};
ghost use Rattle.chip_sheet.specs.declared.socket.Due.{Due};
ghost use Rattle.chip_sheet.specs.declared.block.Block.{Block};
ghost use Rattle.chip_sheet.specs.declared.block.Block.TheVariants.{Registers, TxBuffer, RxBuffer};
ghost use Rattle.chip_sheet.specs.Blocks.{block_of, registers_of, tx_buffer_of, rx_buffer_of};
ghost use Rattle.chip_sheet.specs.LinkCalls.{connection, fits};
ghost use Rattle.chip_sheet.specs.LinkAnswers.{LinkAnswer};
ghost use Rattle.chip_sheet.specs.Sending.{fresh};
ghost use Rattle.chip_sheet.specs.Receiving as receiving_of;
ghost use Rattle.chip_sheet.specs.Buffers.{sending, receiving};
ghost use Rattle.chip_sheet.specs.Quiet.{LeavesLife, Untouched, LeavesAll, LeavesOther};
ghost use Rattle.chip_sheet.specs.declared.socket.Cause.TheVariants.{Nothing, Dropped};
ghost use Rattle.chip_sheet.specs.declared.socket.Due.TheVariants as due;
ghost use Rattle.chip_sheet.specs.Stops.{stop};
ghost use Rattle.chip_laws.specs.Present.{sent_now, taken_now, got_now, released_now, WritesSend, HasInFlight, SizesStay, IsPlaceOfGot, IsDue, MayAnswer, FlightIsDue, Carries, byte_now, Receives, Loses, IsUnread, AnswerFits, GivesOffered, IsIdleInUdp, RangeFits, SendsRange, with_header, ReadsGot, HasFree};

/// What was sent in a life of a socket stays: at each later moment it is a front of what is sent then.
pub fn sent_stays()
    ensures { (starts : Starts) (older newer : Past) (n life : ℕ) → GoesOn older newer → (more : List ℕ) × (sent starts newer n life ≡ sent starts older n life ++ more) }
{}

/// Only a SEND adds to what was sent, and only to the socket's present life.
pub fn sent_by_send()
    ensures other_cause { (starts : Starts) (past : Past) (entry : Entry) (n life : ℕ) → (cause past n entry ≡ Send → ⊥) → sent starts (entry ∷ past) n life ≡ sent starts past n life }
    ensures other_life { (starts : Starts) (past : Past) (entry : Entry) (n life : ℕ) → (lives past n ≡ life → ⊥) → sent starts (entry ∷ past) n life ≡ sent starts past n life }
{}

/// In a legal history the link took no more of a life's bytes than were sent in it.
pub fn taken_within_sent()
    ensures { (starts : Starts) (past : Past) (n life : ℕ) → Legal starts past → taken past n life ≤ length (sent starts past n life) }
{}

/// In a legal history no more of a life's bytes were released than were received in it.
pub fn released_within_got()
    ensures { (starts : Starts) (past : Past) (n life : ℕ) → Legal starts past → released starts past n life ≤ length (got starts past n life) }
{}

/// After a reset of the chip every socket is closed, nothing is in flight or unread, and each buffer reads 00 at every address.
/// The numbers of the lives stay.
pub fn reset_empties()
    ensures closed { (past : Past) (entry : Entry) (n : ℕ) → is_reset (access_of past entry) ≡ true → status (entry ∷ past) n ≡ Closed }
    ensures windows { (starts : Starts) (past : Past) (entry : Entry) (n : ℕ) → is_reset (access_of past entry) ≡ true → (flight starts (entry ∷ past) n ≡ 0) × (unread starts (entry ∷ past) n ≡ 0) }
    ensures tx { (past : Past) (entry : Entry) (n addr : ℕ) → is_reset (access_of past entry) ≡ true → tx_byte (entry ∷ past) n addr ≡ 0 }
    ensures rx { (starts : Starts) (past : Past) (entry : Entry) (n addr : ℕ) → is_reset (access_of past entry) ≡ true → rx_byte starts (entry ∷ past) n addr ≡ 0 }
    ensures life { (past : Past) (entry : Entry) (n : ℕ) → is_reset (access_of past entry) ≡ true → lives (entry ∷ past) n ≡ lives past n }
{}

/// A position and the pointer that shows it, modulo 65,536, name the same place of a buffer of any size that there is.
pub fn same_place()
    ensures { (kilobytes at : ℕ) → is_size kilobytes ≡ true → 0 < kilobytes → at % 65536 % (kilobytes * 1024) ≡ at % (kilobytes * 1024) }
{}

/// A byte in flight stands at the place of an address exactly where the buffer has a size and the position of some byte in flight
/// has that place.
pub fn in_flight_exact()
    ensures { (starts : Starts) (past : Past) (n addr : ℕ) → IsSome (in_flight_at starts past n addr) ↔ HasInFlight starts past n addr }
{}

/// In a legal history the sizes of both directions' buffers stay as they are with each entry that leaves some socket open, and
/// with each that finds one open and is no reset of the chip.
pub fn sizes_stay()
    ensures leaves { (starts : Starts) (past : Past) (entry : Entry) (n k : ℕ) → n < 8 → Legal starts (entry ∷ past) → is_closed (status (entry ∷ past) n) ≡ false → SizesStay past entry k }
    ensures finds { (starts : Starts) (past : Past) (entry : Entry) (n k : ℕ) → n < 8 → Legal starts (entry ∷ past) → is_closed (status past n) ≡ false
        → is_reset (access_of past entry) ≡ false → SizesStay past entry k }
{}

/// In a legal history the bytes in flight of a socket fit its TX buffer.
pub fn flight_fits()
    ensures { (starts : Starts) (past : Past) (n : ℕ) → n < 8 → Legal starts past → flight starts past n ≤ tx_size past n }
{}

/// In a legal history the unread bytes of a socket fit its RX buffer.
pub fn unread_fits()
    ensures { (starts : Starts) (past : Past) (n : ℕ) → n < 8 → Legal starts past → unread starts past n ≤ rx_size past n }
{}

/// In a legal history each byte that an open socket received and did not release is read from the RX buffer, at each address that
/// has the place of the byte's position.
pub fn received_reads_back()
    ensures { (starts : Starts) (past : Past) (n q addr : ℕ) → n < 8 → Legal starts past → is_open (status past n) ≡ true → IsUnread starts past n q → IsPlaceOfGot starts past n q addr
        → ReadsGot starts past n q addr }
{}

/// What is nothing for a socket leaves its life, lists, windows and what it keeps for the link; and what does not touch the
/// socket, by no command, event, write or change of a size, leaves all of it.
pub fn others_stay()
    ensures life { (starts : Starts) (past : Past) (entry : Entry) (n : ℕ) → cause past n entry ≡ Nothing → LeavesLife starts past entry n }
    ensures all { (starts : Starts) (past : Past) (entry : Entry) (n : ℕ) → Untouched past entry n → LeavesAll starts past entry n }
{}

/// The interrupt registers as bits: a bit of Sn_IR reads 1 exactly where it is raised; a socket asks exactly where `Sn_IR &
/// Sn_IMR` is not 0; bit n of SIR reads 1 exactly where socket n asks; INTn is low exactly where `SIR & SIMR` is not 0.
pub fn interrupts_as_bits()
    ensures bit { (starts : Starts) (past : Past) (n : ℕ) (bit : Interrupt) → has_bit (interrupt_register starts past n) (bit_value bit) ≡ raised starts past n bit }
    ensures asks { (starts : Starts) (past : Past) (n : ℕ) → asks starts past n ≡ not (bit_and (interrupt_register starts past n) (mask past n) == 0) }
    ensures sir { (starts : Starts) (past : Past) (n : ℕ) → n < 8 → has_bit (sir_register starts past) (2 ^ n) ≡ asks starts past n }
    ensures low { (starts : Starts) (past : Past) → interrupt_low starts past ≡ not (bit_and (sir_register starts past) (enabled_sockets past) == 0) }
{}

/// What a link may answer to a call that is due, within what is offered to it or may be read at once, adds an entry that fits;
/// and what it took of the offered bytes goes on behind what it took before.
pub fn answers_fit()
    ensures fits { (starts : Starts) (past : Past) (n : ℕ) (call : Due) (answer : LinkAnswer) → n < 8 → IsDue starts past n call → MayAnswer starts past n call answer
        → AnswerFits starts past n call answer }
    ensures given { (starts : Starts) (past : Past) (n k : ℕ) → is_open (status past n) ≡ true → k ≤ offered_length starts past n → GivesOffered starts past n k }
{}

/// After a reset each address of each block reads what it reads after power-on, INTn is high, and both directions of each socket
/// are fresh, with buffers of 2 KB.
pub fn reset_restores()
    ensures reads { (starts : Starts) (past : Past) (entry : Entry) (block : Block) (at : ℕ) → is_reset (access_of past entry) ≡ true
        → byte_at starts (entry ∷ past) block at ≡ byte_at starts [] block at }
    ensures line { (starts : Starts) (past : Past) (entry : Entry) → is_reset (access_of past entry) ≡ true → interrupt_low starts (entry ∷ past) ≡ false }
    ensures sending { (starts : Starts) (past : Past) (entry : Entry) (n : ℕ) → is_reset (access_of past entry) ≡ true → sending starts (entry ∷ past) n ≡ fresh 2048 }
    ensures receiving { (starts : Starts) (past : Past) (entry : Entry) (n : ℕ) → is_reset (access_of past entry) ≡ true → receiving starts (entry ∷ past) n ≡ receiving_of.fresh 2048 }
{}

/// The select bits 4n + 1, 4n + 2 and 4n + 3 are the registers, the TX buffer and the RX buffer of socket n.
pub fn blocks_of_a_socket()
    ensures registers { (n : ℕ) → block_of (registers_of n) ≡ Registers n }
    ensures tx { (n : ℕ) → block_of (tx_buffer_of n) ≡ TxBuffer n }
    ensures rx { (n : ℕ) → block_of (rx_buffer_of n) ≡ RxBuffer n }
{}

/// An open socket has a made connection, but in UDP, where in a legal history there is none.
pub fn open_is_made()
    ensures tcp { (past : Past) (n : ℕ) → is_open (status past n) ≡ true → is_udp (status past n) ≡ false → is_made past n (lives past n) ≡ true }
    ensures udp { (starts : Starts) (past : Past) (n : ℕ) → Legal starts past → is_udp (status past n) ≡ true → is_made past n (lives past n) ≡ false }
{}

/// The lives of a socket: each entry begins at most one; the one that the link is still to forget is closed, an earlier one
/// or the last, and stays so until it is dropped; and an entry changes the lists and counts of the present life alone.
pub fn lives_of_a_socket()
    ensures few { (past : Past) (n : ℕ) → lives past n ≤ length past }
    ensures old { (past : Past) (n life : ℕ) → old past n ≡ Some life → (life ≤ lives past n) × (life ≡ lives past n → is_closed (status past n) ≡ true) }
    ensures stays { (past : Past) (entry : Entry) (n life : ℕ) → (cause past n entry ≡ Dropped → ⊥) → old past n ≡ Some life → old (entry ∷ past) n ≡ Some life }
    ensures others { (starts : Starts) (past : Past) (entry : Entry) (n life : ℕ) → (lives past n ≡ life → ⊥) → LeavesOther starts past entry n life }
{}

/// A SEND that fits goes through, in UDP where no datagram is in flight, and adds exactly its range to what was sent.
pub fn send_that_fits()
    ensures goes { (starts : Starts) (past : Past) (e : BusEvent) (n : ℕ) → WritesSend past e n → sends (status past n) ≡ true → IsIdleInUdp starts past n → RangeFits starts past n
        → stop starts past e ≡ None }
    ensures adds { (starts : Starts) (past : Past) (e : BusEvent) (a : BusAnswer) (n : ℕ) → WritesSend past e n → sends (status past n) ≡ true → SendsRange starts past (Bus e a) n }
{}

/// In each status of a connection, after DISCON and after the peer's end too, and in UDP, what was sent and not taken is in
/// flight, and what was received and not released is unread. While no old life is there, what is in flight is due.
pub fn windows_of_a_connection()
    ensures flight { (starts : Starts) (past : Past) (n : ℕ) → Carries past n → flight starts past n ≡ length (sent_now starts past n) - taken_now past n }
    ensures unread { (starts : Starts) (past : Past) (n : ℕ) → Carries past n → unread starts past n ≡ length (got_now starts past n) - released_now starts past n }
    ensures due { (starts : Starts) (past : Past) (n : ℕ) → old past n ≡ None → 0 < flight starts past n → FlightIsDue starts past n }
{}

/// A byte that is written to a TX buffer is read at each address of its place, and no other byte of the buffer changes.
pub fn written_reads_back()
    ensures { (past : Past) (entry : Entry) (n addr v at : ℕ) → access_of past entry ≡ Write (tx_buffer_of n) addr v → 0 < tx_size past n → tx_byte (entry ∷ past) n at ≡ byte_now past n addr v at }
{}

/// Datagrams. While one is in flight another SEND stops; the link takes it whole. One that comes is put with a header of eight
/// bytes where that and its body are free, and raises RECV; else it is lost, and raises nothing.
pub fn datagrams()
    ensures busy { (starts : Starts) (past : Past) (e : BusEvent) (n : ℕ) → WritesSend past e n → status past n ≡ Udp → 0 < flight starts past n → stop starts past e ≡ Some (SendBusy n) }
    ensures whole { (starts : Starts) (past : Past) (n k : ℕ) → status past n ≡ Udp → fits starts past n (Took k) ≡ true → k ≡ flight starts past n }
    ensures put { (starts : Starts) (past : Past) (n : ℕ) (from : Addr) (body : List ℕ) → status past n ≡ Udp → HasFree starts past n body
        → Receives starts past n (Datagram from body) (with_header from body) }
    ensures lost { (starts : Starts) (past : Past) (n : ℕ) (from : Addr) (body : List ℕ) → status past n ≡ Udp → rx_free starts past n < 8 + length body → Loses starts past n (Datagram from body) }
    ensures header { (from : Addr) (count : ℕ) → length (header from count) ≡ 8 }
{}
