//! Worked rows of sending: the TX buffer, its pointers and windows, and SENDOK.
#![tactic(auto, unfolding(chip_sheet::specs::Frames::cut, chip_sheet::specs::Frames::current, chip_sheet::specs::CommonBlock::common_place, chip_sheet::specs::SocketBlock::socket_place, hex::specs::Hex::decode_pairs))]

ghost use Rattle.std.specs.Prelude.{◌≡◌, [], ◌∷◌, Some};
ghost use Rattle.chip_sheet.specs.declared.stop.ChipStop.TheVariants.{OverwriteInFlight, SendTooLong};
ghost use Rattle.chip_rows.specs.Rows.{opened, connected, connected_7, ◌prints◌, line, Prints, Stops, IsNotDue, sent_after};

/// The second byte of a range stands at the start of the buffer: addresses are taken modulo the socket's size.
pub fn wraps_in_the_buffer()
    ensures { Prints (
        "start 2047 0" prints ""
        ∷ connected
        ∷ "L 07 FF 14 AA BB H L 00 24 0C 08 01 H L 00 01 0C 20 H" prints "00 00 00 00 00 00 00 00 00 00 00 00 00 00"
        ∷ "L 00 00 10 00 H" prints "00 00 00 BB"
        ∷ "L 00 20 08 00 00 H" prints "00 00 00 07 FE"
        ∷ []) }
{}

/// Positions past 65,535: the registers show them modulo 65,536.
pub fn wraps_the_pointers()
    ensures { Prints (
        "start 65534 0" prints ""
        ∷ connected
        ∷ "L FF FE 14 01 02 03 04 H L 00 24 0C 00 02 H L 00 01 0C 20 H" prints "00 00 00 00 00 00 00 00 00 00 00 00 00 00 00 00"
        ∷ "L 00 22 08 00 00 00 00 H" prints "00 00 00 00 02 00 02"
        ∷ "L 00 20 08 00 00 H" prints "00 00 00 07 FC"
        ∷ []) }
{}

/// A range is taken in two steps: SENDOK rises with its last byte.
pub fn sends_in_two_takes()
    ensures { Prints (
        connected
        ∷ "L 00 00 14 01 02 03 04 05 H L 00 24 0C 00 05 H L 00 01 0C 20 H" prints "00 00 00 00 00 00 00 00 00 00 00 00 00 00 00 00 00"
        ∷ "@0:took:2 L 00 02 08 00 H" prints "00 00 00 01"
        ∷ "@0:took:3 L 00 02 08 00 H" prints "00 00 00 11"
        ∷ []) }
{}

/// One bit stands for the ends of two ranges that are taken at once, and a write of 1 clears it. Taken in turn, each raises it.
pub fn ends_two_ranges()
    ensures at_once { Prints (
        connected
        ∷ "L 00 00 14 01 02 03 H L 00 24 0C 00 03 H L 00 01 0C 20 H" prints "00 00 00 00 00 00 00 00 00 00 00 00 00 00 00"
        ∷ "L 00 03 14 04 05 H L 00 24 0C 00 05 H L 00 01 0C 20 H" prints "00 00 00 00 00 00 00 00 00 00 00 00 00 00"
        ∷ "@0:took:5 L 00 02 08 00 H" prints "00 00 00 11"
        ∷ "L 00 02 0C 10 H L 00 02 08 00 H" prints "00 00 00 00 00 00 00 01"
        ∷ []) }
    ensures in_turn { Prints (
        connected
        ∷ "L 00 25 0C 03 H L 00 01 0C 20 H L 00 25 0C 05 H L 00 01 0C 20 H" prints "00 00 00 00 00 00 00 00 00 00 00 00 00 00 00 00"
        ∷ "@0:took:4 L 00 02 08 00 H L 00 02 0C 10 H" prints "00 00 00 11 00 00 00 00"
        ∷ "@0:took:1 L 00 02 08 00 H" prints "00 00 00 11"
        ∷ []) }
{}

/// A torn pair: each byte of a register is right at its own moment.
pub fn tears_a_pair()
    ensures { Prints (
        connected
        ∷ "L 00 00 14 01 02 03 04 05 06 07 08 H L 00 24 0C 00 08 H" prints "00 00 00 00 00 00 00 00 00 00 00 00 00 00 00 00"
        ∷ "L 00 01 0C 20 H" prints "00 00 00 00"
        ∷ "L 00 20 08 00 @0:took:8 00 H" prints "00 00 00 07 00"
        ∷ []) }
{}

/// The byte behind those in flight may be written, and the first of them may not. Once it is taken its place may be written, and
/// the second byte's may not. The stop names the place, the address modulo the size. Once the life has closed nothing is in
/// flight.
pub fn stops_an_overwrite()
    ensures first { Stops (
        connected
        ∷ "L 00 00 14 68 69 H L 00 24 0C 00 02 H L 00 01 0C 20 H" prints "00 00 00 00 00 00 00 00 00 00 00 00 00 00"
        ∷ "L 00 02 14 55 H" prints "00 00 00 00"
        ∷ "L 00 00 14 55" prints "00 00 00"
        ∷ []) (OverwriteInFlight 0 0) }
    ensures taken { Stops (
        connected
        ∷ "L 00 00 14 68 69 H L 00 24 0C 00 02 H L 00 01 0C 20 H" prints "00 00 00 00 00 00 00 00 00 00 00 00 00 00"
        ∷ "@0:took:1 L 00 00 14 55 H" prints "00 00 00 00"
        ∷ "L 00 01 14 55" prints "00 00 00"
        ∷ []) (OverwriteInFlight 0 1) }
    ensures place { Stops (
        "start 2047 0" prints ""
        ∷ connected_7
        ∷ "L 00 24 EC 08 00 H L 00 01 EC 20 H" prints "00 00 00 00 00 00 00 00 00"
        ∷ "L 00 00 F4 55 H L FF FF F4 55" prints "00 00 00 00 00 00 00"
        ∷ []) (OverwriteInFlight 7 2047) }
    ensures closed { Prints (
        connected
        ∷ "L 00 00 14 68 69 H L 00 24 0C 00 02 H L 00 01 0C 20 H" prints "00 00 00 00 00 00 00 00 00 00 00 00 00 00"
        ∷ "L 00 01 0C 10 H L 00 00 14 55 H L 00 00 10 00 00 H" prints "00 00 00 00 00 00 00 00 00 00 00 55 69"
        ∷ []) }
{}

/// A SEND in CLOSE_WAIT is accepted.
pub fn sends_in_close_wait()
    ensures { Prints (
        connected
        ∷ "@0:ended L 00 00 14 68 69 H L 00 24 0C 00 02 H L 00 01 0C 20 H" prints "00 00 00 00 00 00 00 00 00 00 00 00 00 00"
        ∷ "@0:took:2 L 00 02 08 00 00 H" prints "00 00 00 13 1C"
        ∷ []) }
{}

/// A SEND of no bytes raises SENDOK at once, also while bytes are in flight; those raise it again.
pub fn sends_nothing()
    ensures { Prints (
        connected
        ∷ "L 00 01 0C 20 H L 00 02 08 00 H L 00 02 0C 10 H" prints "00 00 00 00 00 00 00 11 00 00 00 00"
        ∷ "L 00 25 0C 02 H L 00 01 0C 20 H L 00 02 08 00 H" prints "00 00 00 00 00 00 00 00 00 00 00 01"
        ∷ "L 00 01 0C 20 H L 00 02 08 00 H L 00 02 0C 10 H" prints "00 00 00 00 00 00 00 11 00 00 00 00"
        ∷ "@0:took:2 L 00 02 08 00 H" prints "00 00 00 11"
        ∷ []) }
{}

/// SEND does nothing in INIT, LISTEN, SYNSENT, FIN_WAIT and LAST_ACK: no bit rises, TX_RD stays, and no length is
/// too much.
pub fn sends_nothing_elsewhere()
    ensures listen { Prints (
        opened
        ∷ "L 00 24 0C 09 00 H L 00 01 0C 20 H L 00 02 08 00 H" prints "00 00 00 00 00 00 00 00 00 00 00 00 00"
        ∷ "L 00 20 08 00 00 00 00 H" prints "00 00 00 08 00 00 00"
        ∷ "L 00 01 0C 02 H L 00 01 0C 20 H L 00 02 08 00 H" prints "00 00 00 00 00 00 00 00 00 00 00 00"
        ∷ "L 00 20 08 00 00 00 00 H" prints "00 00 00 08 00 00 00"
        ∷ []) }
    ensures connect { Prints (
        opened
        ∷ "L 00 01 0C 04 H L 00 01 0C 20 H L 00 02 08 00 H" prints "00 00 00 00 00 00 00 00 00 00 00 00"
        ∷ "L 00 20 08 00 00 00 00 H" prints "00 00 00 08 00 00 00"
        ∷ []) }
    ensures last_ack { Prints (
        connected
        ∷ "@0:ended L 00 01 0C 08 H L 00 25 0C 02 H L 00 01 0C 20 H" prints "00 00 00 00 00 00 00 00 00 00 00 00"
        ∷ "L 00 02 08 00 H L 00 20 08 00 00 00 00 H" prints "00 00 00 03 00 00 00 08 00 00 00"
        ∷ []) }
    ensures fin_wait { Prints (
        connected
        ∷ "@0:got:0102 L 00 01 0C 08 H L 00 24 0C 00 02 H L 00 01 0C 20 H" prints "00 00 00 00 00 00 00 00 00 00 00 00 00"
        ∷ "L 00 02 08 00 00 H L 00 20 08 00 00 00 00 H" prints "00 00 00 05 18 00 00 00 08 00 00 00"
        ∷ []) }
{}

/// All 2,048 bytes may be in flight, and then nothing is free; a SEND of one byte more stops, as does one of 2,049 at first.
pub fn sends_a_full_buffer()
    ensures full { Prints (
        connected_7
        ∷ "L 00 24 EC 08 00 H L 00 01 EC 20 H L 00 20 E8 00 00 00 00 H" prints "00 00 00 00 00 00 00 00 00 00 00 00 00 00 08 00"
        ∷ "@7:took:2047 L 00 02 E8 00 H L 00 20 E8 00 00 H" prints "00 00 00 01 00 00 00 07 FF"
        ∷ "@7:took:1 L 00 02 E8 00 H" prints "00 00 00 11"
        ∷ []) }
    ensures too_long { Stops (
        connected_7
        ∷ "L 00 24 EC 08 01 H" prints "00 00 00 00 00"
        ∷ "L 00 01 EC 20" prints "00 00 00"
        ∷ []) (SendTooLong 7 2049 2048) }
    ensures one_more { Stops (
        connected_7
        ∷ "L 00 24 EC 08 00 H L 00 01 EC 20 H" prints "00 00 00 00 00 00 00 00 00"
        ∷ "L 00 24 EC 08 01 H L 00 01 EC 20" prints "00 00 00 00 00 00 00 00"
        ∷ []) (SendTooLong 7 1 0) }
    ensures backwards { Stops (
        "start 1 0" prints ""
        ∷ connected
        ∷ "L 00 25 0C 00 H L 00 01 0C 20" prints "00 00 00 00 00 00 00"
        ∷ []) (SendTooLong 0 65535 2048) }
{}

/// What a SEND passes on are the bytes that stand in the buffer at that moment, from the end of the last SEND to TX_WR, in order;
/// a byte that is written once it was taken belongs to the next SEND.
pub fn sends_what_stands_there()
    ensures wraps { sent_after (line "start 65534 0" ∷ connected_7 ∷ line "L FF FE F4 01 02 03 04 H L 00 24 EC 00 02 H L 00 01 EC 20 H" ∷ []) 7 1 ≡ Some (1 ∷ 2 ∷ 3 ∷ 4 ∷ []) }
    ensures two_sends { sent_after (connected ∷ line "L 00 00 14 01 02 03 H L 08 00 14 09 H L 00 25 0C 02 H" ∷ line "L 00 01 0C 20 H L 00 02 14 07 H L 00 25 0C 03 H L 00 01 0C 20 H" ∷ []) 0 1 ≡ Some (9 ∷ 2 ∷ 7 ∷ []) }
    ensures stays { sent_after (connected ∷ line "L 00 00 14 01 02 H L 00 25 0C 02 H L 00 01 0C 20 H @0:took:2" ∷ line "L 00 00 14 08 08 H L 00 01 0C 10 H L 00 01 0C 01 H" ∷ []) 0 1 ≡ Some (1 ∷ 2 ∷ []) }
    ensures next_life { sent_after (connected ∷ line "L 00 00 14 01 02 H L 00 25 0C 02 H L 00 01 0C 20 H L 00 01 0C 10 H" ∷ line "L 00 01 0C 01 H" ∷ []) 0 2 ≡ Some [] }
{}

/// What one life sent and received counts in no other: the next one begins with empty windows and at position 0.
pub fn counts_in_each_life()
    ensures { Prints (
        connected
        ∷ "@0:got:0102 L 00 25 0C 03 H L 00 01 0C 20 H @0:took:3" prints "00 00 00 00 00 00 00 00"
        ∷ "L 00 01 0C 10 H @0:dropped" prints "00 00 00 00"
        ∷ "L 00 01 0C 01 H L 00 01 0C 04 H @0:linked" prints "00 00 00 00 00 00 00 00"
        ∷ "L 00 20 08 00 00 00 00 00 00 00 00 00 00 00 00 H" prints "00 00 00 08 00 00 00 00 00 00 00 00 00 00 00"
        ∷ "L 00 02 0C 1F H L 00 25 0C 02 H L 00 01 0C 20 H @0:got:07" prints "00 00 00 00 00 00 00 00 00 00 00 00"
        ∷ "L 00 20 08 00 00 00 00 00 00 00 00 00 00 00 00 H" prints "00 00 00 07 FE 00 02 00 02 00 01 00 00 00 01"
        ∷ "@0:took:2 L 00 02 08 00 H L 00 00 18 00 00 H" prints "00 00 00 14 00 00 00 07 00"
        ∷ []) }
{}

/// Nothing is taken that is not in flight: none at first, not 0 bytes, and not more than there are.
pub fn refuses_a_take()
    ensures closed { IsNotDue ("L 00 03 08 00 H @0:took:1" prints "00 00 00 00" ∷ []) }
    ensures none { IsNotDue (connected ∷ "L 00 03 08 00 H @0:took:1" prints "00 00 00 17" ∷ []) }
    ensures zero { IsNotDue (connected ∷ "L 00 25 0C 02 H L 00 01 0C 20 H @0:took:0" prints "00 00 00 00 00 00 00 00" ∷ []) }
    ensures more { IsNotDue (connected ∷ "L 00 25 0C 02 H L 00 01 0C 20 H @0:took:3" prints "00 00 00 00 00 00 00 00" ∷ []) }
    ensures closed_again { IsNotDue (
        connected
        ∷ "L 00 25 0C 02 H L 00 01 0C 20 H L 00 01 0C 10 H @0:took:1" prints "00 00 00 00 00 00 00 00 00 00 00 00"
        ∷ []) }
{}

/// Each socket has a TX buffer of its own.
pub fn has_eight_buffers()
    ensures { Prints (
        "L 01 00 14 A0 H" prints "00 00 00 00"
        ∷ "L 01 00 34 A1 H" prints "00 00 00 00"
        ∷ "L 01 00 54 A2 H" prints "00 00 00 00"
        ∷ "L 01 00 74 A3 H" prints "00 00 00 00"
        ∷ "L 01 00 94 A4 H" prints "00 00 00 00"
        ∷ "L 01 00 B4 A5 H" prints "00 00 00 00"
        ∷ "L 01 00 D4 A6 H" prints "00 00 00 00"
        ∷ "L 01 00 F4 A7 H" prints "00 00 00 00"
        ∷ "L 00 FF 10 00 00 00 H" prints "00 00 00 00 A0 00"
        ∷ "L 00 FF 30 00 00 00 H" prints "00 00 00 00 A1 00"
        ∷ "L 00 FF 50 00 00 00 H" prints "00 00 00 00 A2 00"
        ∷ "L 00 FF 70 00 00 00 H" prints "00 00 00 00 A3 00"
        ∷ "L 00 FF 90 00 00 00 H" prints "00 00 00 00 A4 00"
        ∷ "L 00 FF B0 00 00 00 H" prints "00 00 00 00 A5 00"
        ∷ "L 00 FF D0 00 00 00 H" prints "00 00 00 00 A6 00"
        ∷ "L 00 FF F0 00 00 00 H" prints "00 00 00 00 A7 00"
        ∷ []) }
{}
