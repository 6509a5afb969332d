//! Worked rows of a socket's life, along the table of it.
#![tactic(auto, unfolding(chip_sheet::specs::Frames::cut, chip_sheet::specs::Frames::current, chip_sheet::specs::CommonBlock::common_place, chip_sheet::specs::SocketBlock::socket_place, hex::specs::Hex::decode_pairs))]

ghost use Rattle.std.specs.Prelude.{[], ◌∷◌};
ghost use Rattle.chip_rows.specs.Rows.{opened, opened_7, connected, connected_7, ◌prints◌, Prints, IsNotDue};

/// Sn_SR in every status of a socket that is opened for TCP: once where this side ends first, once where the peer does.
pub fn shows_each_status()
    ensures connects { Prints (
        "L 00 03 E8 00 H L 00 00 EC 01 H L 00 01 EC 01 H L 00 03 E8 00 H" prints "00 00 00 00 00 00 00 00 00 00 00 00 00 00 00 13"
        ∷ "L 00 01 EC 04 H L 00 03 E8 00 H @7:linked L 00 03 E8 00 H" prints "00 00 00 00 00 00 00 15 00 00 00 17"
        ∷ "L 00 01 EC 08 H L 00 03 E8 00 H @7:shut @7:ended L 00 03 E8 00 H" prints "00 00 00 00 00 00 00 18 00 00 00 00"
        ∷ []) }
    ensures listens { Prints (
        opened_7
        ∷ "L 00 01 EC 02 H L 00 03 E8 00 H" prints "00 00 00 00 00 00 00 14"
        ∷ "@7:accepted:10.0.0.2:40000 L 00 03 E8 00 H @7:ended" prints "00 00 00 17"
        ∷ "L 00 03 E8 00 H" prints "00 00 00 1C"
        ∷ "L 00 01 EC 08 H L 00 03 E8 00 H @7:shut L 00 03 E8 00 H" prints "00 00 00 00 00 00 00 1D 00 00 00 00"
        ∷ []) }
{}

/// OPEN does nothing with a protocol that is none of the chip's; the bits above the protocol are no part of it.
pub fn opens_for_tcp_alone()
    ensures { Prints (
        "L 00 00 0C 00 H L 00 01 0C 01 H L 00 03 08 00 H L 00 00 0C 03 H" prints "00 00 00 00 00 00 00 00 00 00 00 00 00 00 00 00"
        ∷ "L 00 01 0C 01 H L 00 03 08 00 H" prints "00 00 00 00 00 00 00 00"
        ∷ "L 00 00 0C F1 H L 00 01 0C 01 H L 00 03 08 00 H" prints "00 00 00 00 00 00 00 00 00 00 00 13"
        ∷ []) }
{}

/// A refused connection closes the socket and raises no bit; one that nobody answers closes it and raises TIMEOUT.
pub fn ends_without_a_connection()
    ensures refused { Prints (
        opened
        ∷ "L 00 01 0C 04 H @0:refused L 00 02 08 00 00 H" prints "00 00 00 00 00 00 00 00 00"
        ∷ []) }
    ensures timed_out { Prints (
        opened
        ∷ "L 00 01 0C 04 H @0:timedout L 00 02 08 00 00 H" prints "00 00 00 00 00 00 00 08 00"
        ∷ []) }
{}

/// CLOSE ends every status at once and raises no bit: here INIT, LISTEN, SYNSENT, ESTABLISHED, CLOSE_WAIT, FIN_WAIT and
/// LAST_ACK.
pub fn closes_at_once()
    ensures init { Prints (opened ∷ "L 00 01 0C 10 H L 00 02 08 00 00 H" prints "00 00 00 00 00 00 00 00 00" ∷ []) }
    ensures listen { Prints (
        opened
        ∷ "L 00 01 0C 02 H L 00 01 0C 10 H L 00 02 08 00 00 H" prints "00 00 00 00 00 00 00 00 00 00 00 00 00"
        ∷ []) }
    ensures syn_sent { Prints (
        opened
        ∷ "L 00 01 0C 04 H L 00 01 0C 10 H L 00 02 08 00 00 H" prints "00 00 00 00 00 00 00 00 00 00 00 00 00"
        ∷ []) }
    ensures established { Prints (connected ∷ "L 00 01 0C 10 H L 00 02 08 00 00 H" prints "00 00 00 00 00 00 00 01 00" ∷ []) }
    ensures close_wait { Prints (
        connected
        ∷ "@0:ended L 00 01 0C 10 H L 00 02 08 00 00 H" prints "00 00 00 00 00 00 00 03 00"
        ∷ []) }
    ensures fin_wait { Prints (
        connected
        ∷ "L 00 01 0C 08 H L 00 01 0C 10 H L 00 02 08 00 00 H" prints "00 00 00 00 00 00 00 00 00 00 00 01 00"
        ∷ []) }
    ensures last_ack { Prints (
        connected
        ∷ "@0:ended L 00 01 0C 08 H L 00 01 0C 10 H L 00 02 08 00 00 H" prints "00 00 00 00 00 00 00 00 00 00 00 03 00"
        ∷ []) }
{}

/// CLOSE of a connection empties its windows, both of bytes in flight and of unread ones; the pointers stay.
pub fn closes_a_connection()
    ensures { Prints (
        connected
        ∷ "@0:got:0102 L 00 24 0C 00 03 H L 00 01 0C 20 H L 00 20 08 00 00 H" prints "00 00 00 00 00 00 00 00 00 00 00 00 07 FD"
        ∷ "L 00 26 08 00 00 H" prints "00 00 00 00 02"
        ∷ "L 00 01 0C 10 H L 00 20 08 00 00 00 00 00 00 00 00 00 00 00 00 H" prints "00 00 00 00 00 00 00 08 00 00 03 00 03 00 00 00 00 00 02"
        ∷ []) }
{}

/// Commands in a status that does not take them do nothing: LISTEN and CONNECT take INIT, DISCON takes ESTABLISHED and
/// CLOSE_WAIT, OPEN takes CLOSED. SEND_KEEP and bytes that are no command do nothing, and Sn_CR reads 00.
pub fn ignores_what_does_not_fit()
    ensures listen { Prints (
        "L 00 00 0C 01 H L 00 01 0C 02 H L 00 01 0C 04 H L 00 01 0C 08 H" prints "00 00 00 00 00 00 00 00 00 00 00 00 00 00 00 00"
        ∷ "L 00 01 0C 10 H L 00 02 08 00 00 H" prints "00 00 00 00 00 00 00 00 00"
        ∷ "L 00 01 0C 01 H L 00 01 0C 01 H L 00 01 0C 08 H L 00 02 08 00 00 H" prints "00 00 00 00 00 00 00 00 00 00 00 00 00 00 00 00 13"
        ∷ "L 00 01 0C 02 H L 00 01 0C 01 H L 00 01 0C 04 H L 00 01 0C 08 H" prints "00 00 00 00 00 00 00 00 00 00 00 00 00 00 00 00"
        ∷ "L 00 02 08 00 00 H" prints "00 00 00 00 14"
        ∷ []) }
    ensures connect { Prints (
        opened
        ∷ "L 00 01 0C 04 H L 00 01 0C 01 H L 00 01 0C 02 H L 00 01 0C 08 H" prints "00 00 00 00 00 00 00 00 00 00 00 00 00 00 00 00"
        ∷ "L 00 02 08 00 00 H" prints "00 00 00 00 15"
        ∷ "@0:linked L 00 01 0C 01 H L 00 01 0C 02 H L 00 01 0C 04 H" prints "00 00 00 00 00 00 00 00 00 00 00 00"
        ∷ "L 00 02 08 00 00 H" prints "00 00 00 01 17"
        ∷ "L 00 01 0C 08 H L 00 01 0C 08 H L 00 01 0C 01 H L 00 01 0C 02 H" prints "00 00 00 00 00 00 00 00 00 00 00 00 00 00 00 00"
        ∷ "L 00 01 0C 04 H L 00 02 08 00 00 H" prints "00 00 00 00 00 00 00 01 18"
        ∷ []) }
    ensures peer_first { Prints (
        connected
        ∷ "@0:ended L 00 01 0C 01 H L 00 01 0C 02 H L 00 01 0C 04 H" prints "00 00 00 00 00 00 00 00 00 00 00 00"
        ∷ "L 00 02 08 00 00 H" prints "00 00 00 03 1C"
        ∷ "L 00 01 0C 08 H L 00 01 0C 08 H L 00 01 0C 01 H L 00 01 0C 02 H" prints "00 00 00 00 00 00 00 00 00 00 00 00 00 00 00 00"
        ∷ "L 00 01 0C 04 H L 00 02 08 00 00 H" prints "00 00 00 00 00 00 00 03 1D"
        ∷ []) }
    ensures no_command { Prints (
        connected
        ∷ "L 00 01 0C 22 H L 00 01 0C 00 H L 00 01 0C 03 H L 00 01 0C FF H" prints "00 00 00 00 00 00 00 00 00 00 00 00 00 00 00 00"
        ∷ "L 00 01 08 00 00 00 H" prints "00 00 00 00 01 17"
        ∷ []) }
{}

/// The peer ends first: CLOSE_WAIT, then LAST_ACK, then CLOSED.
pub fn closes_behind_the_peer()
    ensures { Prints (
        connected
        ∷ "@0:ended L 00 02 08 00 00 H" prints "00 00 00 03 1C"
        ∷ "L 00 01 0C 08 H L 00 03 08 00 H" prints "00 00 00 00 00 00 00 1D"
        ∷ "@0:shut L 00 02 08 00 00 H" prints "00 00 00 03 00"
        ∷ []) }
{}

/// This side ends first: FIN_WAIT, until the link was shut and the peer has ended, which raises DISCON.
pub fn closes_first()
    ensures once { Prints (
        connected
        ∷ "L 00 01 0C 08 H @0:shut L 00 02 08 00 00 H" prints "00 00 00 00 00 00 00 01 18"
        ∷ "@0:ended L 00 02 08 00 00 H" prints "00 00 00 03 00"
        ∷ []) }
    ensures in_the_next_life { Prints (
        connected
        ∷ "L 00 01 0C 08 H @0:shut @0:ended @0:dropped L 00 02 0C 1F H" prints "00 00 00 00 00 00 00 00"
        ∷ "L 00 01 0C 01 H L 00 01 0C 04 H @0:linked" prints "00 00 00 00 00 00 00 00"
        ∷ "L 00 01 0C 08 H @0:shut L 00 02 08 00 00 H" prints "00 00 00 00 00 00 00 01 18"
        ∷ "@0:ended L 00 02 08 00 00 H" prints "00 00 00 03 00"
        ∷ []) }
{}

/// This side ends first and the peer then: the socket closes once the link was shut too.
pub fn closes_when_shut_last()
    ensures { Prints (
        connected
        ∷ "L 00 01 0C 08 H @0:ended L 00 02 08 00 00 H" prints "00 00 00 00 00 00 00 03 18"
        ∷ "@0:shut L 00 02 08 00 00 H" prints "00 00 00 03 00"
        ∷ []) }
{}

/// A link that fails where a call is due closes the socket and raises TIMEOUT: at CONNECT and LISTEN; at reading; at writing,
/// here with an RX buffer of no size, so that nothing is read; behind DISCON at the end of the link, where the peer has ended,
/// and at reading away, where the link was shut; in CLOSE_WAIT at writing; in LAST_ACK at writing and at the end of the link.
pub fn fails()
    ensures connect { Prints (
        opened_7
        ∷ "L 00 01 EC 04 H @7:failed L 00 02 E8 00 00 H" prints "00 00 00 00 00 00 00 08 00"
        ∷ []) }
    ensures accept { Prints (
        opened_7
        ∷ "L 00 01 EC 02 H @7:failed L 00 02 E8 00 00 H" prints "00 00 00 00 00 00 00 08 00"
        ∷ []) }
    ensures read { Prints (connected_7 ∷ "@7:failed L 00 02 E8 00 00 H" prints "00 00 00 09 00" ∷ []) }
    ensures write { Prints (
        "L 00 1E EC 00 H" prints "00 00 00 00"
        ∷ connected_7
        ∷ "L 00 25 EC 02 H L 00 01 EC 20 H @7:failed L 00 02 E8 00 00 H" prints "00 00 00 00 00 00 00 00 00 00 00 09 00"
        ∷ []) }
    ensures shut { Prints (
        connected_7
        ∷ "L 00 01 EC 08 H @7:ended @7:failed L 00 02 E8 00 00 H" prints "00 00 00 00 00 00 00 0B 00"
        ∷ []) }
    ensures read_away { Prints (
        connected_7
        ∷ "L 00 01 EC 08 H @7:shut @7:failed L 00 02 E8 00 00 H" prints "00 00 00 00 00 00 00 09 00"
        ∷ []) }
    ensures write_in_close_wait { Prints (
        connected_7
        ∷ "L 00 25 EC 02 H L 00 01 EC 20 H @7:ended @7:failed" prints "00 00 00 00 00 00 00 00"
        ∷ "L 00 02 E8 00 00 H" prints "00 00 00 0B 00"
        ∷ []) }
    ensures write_in_last_ack { Prints (
        connected_7
        ∷ "L 00 25 EC 02 H L 00 01 EC 20 H @7:ended L 00 01 EC 08 H @7:failed" prints "00 00 00 00 00 00 00 00 00 00 00 00"
        ∷ "L 00 02 E8 00 00 H" prints "00 00 00 0B 00"
        ∷ []) }
    ensures shut_in_last_ack { Prints (
        connected_7
        ∷ "@7:ended L 00 01 EC 08 H @7:failed L 00 02 E8 00 00 H" prints "00 00 00 00 00 00 00 0B 00"
        ∷ []) }
{}

/// Where no call is due no link can fail: in CLOSED and INIT; in ESTABLISHED with an RX buffer of no size and nothing in flight;
/// in CLOSE_WAIT with nothing in flight.
pub fn fails_nowhere_else()
    ensures closed { IsNotDue ("L 00 03 E8 00 H @7:failed" prints "00 00 00 00" ∷ []) }
    ensures init { IsNotDue (opened_7 ∷ "L 00 03 E8 00 H @7:failed" prints "00 00 00 13" ∷ []) }
    ensures established { IsNotDue (
        "L 00 1E EC 00 H" prints "00 00 00 00"
        ∷ connected_7
        ∷ "L 00 03 E8 00 H @7:failed" prints "00 00 00 17"
        ∷ []) }
    ensures close_wait { IsNotDue (connected_7 ∷ "@7:ended L 00 03 E8 00 H @7:failed" prints "00 00 00 1C" ∷ []) }
{}

/// In LAST_ACK what is in flight is still written: the window shows it, a take raises SENDOK at the end of the range, and only
/// then is the link shut.
pub fn writes_in_last_ack()
    ensures goes_on { Prints (
        connected_7
        ∷ "L 00 00 F4 68 69 H L 00 25 EC 02 H L 00 01 EC 20 H @7:ended" prints "00 00 00 00 00 00 00 00 00 00 00 00 00"
        ∷ "L 00 01 EC 08 H L 00 02 E8 00 00 H L 00 20 E8 00 00 H" prints "00 00 00 00 00 00 00 03 1D 00 00 00 07 FE"
        ∷ "@7:took:1 L 00 02 E8 00 00 H L 00 20 E8 00 00 H" prints "00 00 00 03 1D 00 00 00 07 FF"
        ∷ "@7:took:1 L 00 02 E8 00 00 H L 00 20 E8 00 00 H" prints "00 00 00 13 1D 00 00 00 08 00"
        ∷ "@7:shut L 00 02 E8 00 00 H" prints "00 00 00 13 00"
        ∷ []) }
    ensures shut_waits { IsNotDue (
        connected_7
        ∷ "L 00 00 F4 68 69 H L 00 25 EC 02 H L 00 01 EC 20 H @7:ended" prints "00 00 00 00 00 00 00 00 00 00 00 00 00"
        ∷ "L 00 01 EC 08 H L 00 03 E8 00 H @7:shut" prints "00 00 00 00 00 00 00 1D"
        ∷ []) }
{}

/// The same in FIN_WAIT, and unread bytes stay and are released there.
pub fn writes_in_fin_wait()
    ensures goes_on { Prints (
        connected_7
        ∷ "@7:got:0102 L 00 00 F4 68 69 H L 00 25 EC 02 H L 00 01 EC 20 H" prints "00 00 00 00 00 00 00 00 00 00 00 00 00"
        ∷ "L 00 01 EC 08 H L 00 02 E8 00 00 H L 00 20 E8 00 00 H" prints "00 00 00 00 00 00 00 05 18 00 00 00 07 FE"
        ∷ "@7:took:2 L 00 02 E8 00 00 H L 00 20 E8 00 00 H L 00 26 E8 00 00 H" prints "00 00 00 15 18 00 00 00 08 00 00 00 00 00 02"
        ∷ "L 00 29 EC 01 H L 00 01 EC 40 H L 00 26 E8 00 00 H" prints "00 00 00 00 00 00 00 00 00 00 00 00 01"
        ∷ "L 00 00 F8 00 00 H" prints "00 00 00 00 02"
        ∷ []) }
    ensures shut_waits { IsNotDue (
        connected_7
        ∷ "L 00 00 F4 68 69 H L 00 25 EC 02 H L 00 01 EC 20 H L 00 01 EC 08 H" prints "00 00 00 00 00 00 00 00 00 00 00 00 00 00 00 00 00"
        ∷ "L 00 03 E8 00 H @7:shut" prints "00 00 00 18"
        ∷ []) }
{}

/// Only an answer to a call that is due fits: not that of another call, nor to a call of another socket.
pub fn refuses_other_answers()
    ensures linked { IsNotDue (opened ∷ "L 00 01 0C 02 H L 00 03 08 00 H @0:linked" prints "00 00 00 00 00 00 00 14" ∷ []) }
    ensures refused { IsNotDue (opened ∷ "L 00 01 0C 02 H L 00 03 08 00 H @0:refused" prints "00 00 00 00 00 00 00 14" ∷ []) }
    ensures timedout { IsNotDue (opened ∷ "L 00 01 0C 02 H L 00 03 08 00 H @0:timedout" prints "00 00 00 00 00 00 00 14" ∷ []) }
    ensures accepted { IsNotDue (
        opened
        ∷ "L 00 01 0C 04 H L 00 03 08 00 H @0:accepted:10.0.0.2:40000" prints "00 00 00 00 00 00 00 15"
        ∷ []) }
    ensures ended { IsNotDue (opened ∷ "L 00 01 0C 04 H L 00 03 08 00 H @0:ended" prints "00 00 00 00 00 00 00 15" ∷ []) }
    ensures got { IsNotDue (opened ∷ "L 00 01 0C 04 H L 00 03 08 00 H @0:got:01" prints "00 00 00 00 00 00 00 15" ∷ []) }
    ensures other_socket { IsNotDue (opened ∷ "L 00 01 0C 04 H L 00 03 08 00 H @1:linked" prints "00 00 00 00 00 00 00 15" ∷ []) }
    ensures dropped { IsNotDue ("L 00 03 08 00 H @0:dropped" prints "00 00 00 00" ∷ []) }
    ensures shut { IsNotDue (connected ∷ "L 00 03 08 00 H @0:shut" prints "00 00 00 17" ∷ []) }
    ensures linked_again { IsNotDue (connected ∷ "L 00 03 08 00 H @0:linked" prints "00 00 00 17" ∷ []) }
    ensures got_behind_the_end { IsNotDue (connected ∷ "@0:ended L 00 03 08 00 H @0:got:01" prints "00 00 00 1C" ∷ []) }
    ensures ended_again { IsNotDue (connected ∷ "@0:ended L 00 03 08 00 H @0:ended" prints "00 00 00 1C" ∷ []) }
    ensures shut_again { IsNotDue (
        connected
        ∷ "L 00 01 0C 08 H @0:shut L 00 03 08 00 H @0:shut" prints "00 00 00 00 00 00 00 18"
        ∷ []) }
    ensures got_in_last_ack { IsNotDue (
        connected
        ∷ "@0:ended L 00 01 0C 08 H L 00 03 08 00 H @0:got:01" prints "00 00 00 00 00 00 00 1D"
        ∷ []) }
{}
