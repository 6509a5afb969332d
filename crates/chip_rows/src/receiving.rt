//! Worked rows of receiving: the RX buffer, its pointers and window, and RECV.
#![tactic(auto, unfolding(chip_sheet::specs::Frames::cut, chip_sheet::specs::Frames::current, chip_sheet::specs::CommonBlock::common_place, chip_sheet::specs::SocketBlock::socket_place, hex::specs::Hex::decode_pairs))]

ghost use Rattle.std.specs.Prelude.{◌≡◌, [], ◌∷◌, Some};
ghost use Rattle.chip_sheet.specs.declared.socket.Due.TheVariants as due;
ghost use Rattle.chip_sheet.specs.declared.stop.ChipStop.TheVariants.{RecvPastEnd};
ghost use Rattle.chip_rows.specs.Rows.{opened, connected, connected_7, ◌prints◌, line, long, Prints, Stops, IsNotDue, got_after, supplied_after};

/// Received bytes are read at their place, and RECV raises its bit again while some remain.
pub fn receives()
    ensures { Prints (
        connected
        ∷ "@0:got:48656C6C6F L 00 02 08 00 H L 00 26 08 00 00 H" prints "00 00 00 05 00 00 00 00 05"
        ∷ "L 00 00 18 00 00 00 00 00 00 H" prints "00 00 00 48 65 6C 6C 6F 00"
        ∷ "L 00 02 0C 04 H L 00 02 08 00 H" prints "00 00 00 00 00 00 00 01"
        ∷ "L 00 28 0C 00 02 H L 00 01 0C 40 H L 00 02 08 00 H" prints "00 00 00 00 00 00 00 00 00 00 00 00 05"
        ∷ "L 00 26 08 00 00 H" prints "00 00 00 00 03"
        ∷ "L 00 00 18 00 00 00 H" prints "00 00 00 00 00 6C"
        ∷ "L 00 02 0C 04 H L 00 29 0C 05 H L 00 01 0C 40 H L 00 02 08 00 H" prints "00 00 00 00 00 00 00 00 00 00 00 00 00 00 00 01"
        ∷ "L 00 26 08 00 00 H" prints "00 00 00 00 00"
        ∷ []) }
{}

/// Received bytes past position 65,535.
pub fn wraps_the_received()
    ensures { Prints (
        "start 0 65535" prints ""
        ∷ connected
        ∷ "@0:got:0102 L 00 28 08 00 00 00 00 H" prints "00 00 00 FF FF 00 01"
        ∷ "L FF FF 18 00 00 H" prints "00 00 00 01 02"
        ∷ "L 00 28 0C 00 01 H L 00 01 0C 40 H" prints "00 00 00 00 00 00 00 00 00"
        ∷ "L 00 26 08 00 00 H L 00 00 18 00 H" prints "00 00 00 00 00 00 00 00 00"
        ∷ []) }
{}

/// A RECV that releases nothing raises RECV while bytes are there.
pub fn raises_again()
    ensures { Prints (
        connected
        ∷ "@0:got:01 L 00 02 0C 04 H L 00 02 08 00 H" prints "00 00 00 00 00 00 00 01"
        ∷ "L 00 01 0C 40 H L 00 02 08 00 H" prints "00 00 00 00 00 00 00 05"
        ∷ "L 00 29 0C 01 H L 00 01 0C 40 H L 00 02 0C 04 H L 00 01 0C 40 H" prints "00 00 00 00 00 00 00 00 00 00 00 00 00 00 00 00"
        ∷ "L 00 02 08 00 H" prints "00 00 00 01"
        ∷ []) }
{}

/// RECV does nothing in CLOSED, INIT, LISTEN and SYNSENT, whatever RX_RD holds; it releases in CLOSE_WAIT and LAST_ACK.
pub fn receives_in_each_status()
    ensures listen { Prints (
        "L 00 29 0C 09 H L 00 01 0C 40 H L 00 00 0C 01 H L 00 01 0C 01 H" prints "00 00 00 00 00 00 00 00 00 00 00 00 00 00 00 00"
        ∷ "L 00 29 0C 09 H L 00 01 0C 40 H L 00 02 08 00 00 H" prints "00 00 00 00 00 00 00 00 00 00 00 00 13"
        ∷ "L 00 01 0C 02 H L 00 01 0C 40 H L 00 02 08 00 00 H" prints "00 00 00 00 00 00 00 00 00 00 00 00 14"
        ∷ []) }
    ensures connect { Prints (
        opened
        ∷ "L 00 01 0C 04 H L 00 29 0C 09 H L 00 01 0C 40 H L 00 02 08 00 00 H" prints "00 00 00 00 00 00 00 00 00 00 00 00 00 00 00 00 15"
        ∷ []) }
    ensures behind_the_end { Prints (
        connected
        ∷ "@0:got:010203 @0:ended L 00 29 0C 01 H L 00 01 0C 40 H" prints "00 00 00 00 00 00 00 00"
        ∷ "L 00 26 08 00 00 H" prints "00 00 00 00 02"
        ∷ "L 00 01 0C 08 H L 00 29 0C 03 H L 00 01 0C 40 H L 00 26 08 00 00 H" prints "00 00 00 00 00 00 00 00 00 00 00 00 00 00 00 00 00"
        ∷ "L 00 03 08 00 H" prints "00 00 00 1D"
        ∷ []) }
{}

/// One read brings from 1 to 1,472 bytes, and no more than are free: 576 then, and then nothing is due. What was released is free
/// again.
pub fn reads_at_most_1472()
    ensures fit { Prints (
        connected_7
        ∷ long "@7:got:" 1472
        ∷ "L 00 26 E8 00 00 H" prints "00 00 00 05 C0"
        ∷ long "@7:got:" 576
        ∷ "L 00 26 E8 00 00 00 00 00 00 H" prints "00 00 00 08 00 00 00 08 00"
        ∷ "L 00 28 EC 03 E8 H L 00 01 EC 40 H" prints "00 00 00 00 00 00 00 00 00"
        ∷ long "@7:got:" 1000
        ∷ "L 00 26 E8 00 00 00 00 00 00 H" prints "00 00 00 08 00 03 E8 0B E8"
        ∷ []) }
    ensures longer { IsNotDue (connected_7 ∷ "L 00 03 E8 00 H" prints "00 00 00 17" ∷ long "@7:got:" 1473 ∷ []) }
    ensures none { IsNotDue (connected_7 ∷ "L 00 03 E8 00 H @7:got:" prints "00 00 00 17" ∷ []) }
    ensures fuller { IsNotDue (
        connected_7
        ∷ long "@7:got:" 1472
        ∷ "L 00 03 E8 00 H" prints "00 00 00 17"
        ∷ long "@7:got:" 577
        ∷ []) }
    ensures full { IsNotDue (
        connected_7
        ∷ long "@7:got:" 1472
        ∷ long "@7:got:" 576
        ∷ "L 00 03 E8 00 H @7:got:01" prints "00 00 00 17"
        ∷ []) }
    ensures end_is_not_seen { IsNotDue (
        connected_7
        ∷ long "@7:got:" 1472
        ∷ long "@7:got:" 576
        ∷ "L 00 03 E8 00 H @7:ended" prints "00 00 00 17"
        ∷ []) }
{}

/// After DISCON what comes is thrown away, up to 1,472 bytes at a time, also where the RX buffer has no size; it raises nothing.
pub fn reads_away()
    ensures fit { Prints (
        "L 00 1E EC 00 H" prints "00 00 00 00"
        ∷ connected_7
        ∷ "L 00 01 EC 08 H" prints "00 00 00 00"
        ∷ long "@7:got:" 1472
        ∷ long "@7:got:" 1
        ∷ "L 00 02 E8 00 H L 00 26 E8 00 00 00 00 00 00 H" prints "00 00 00 01 00 00 00 00 00 00 00 00 00"
        ∷ []) }
    ensures longer { IsNotDue (
        connected_7
        ∷ "L 00 01 EC 08 H L 00 03 E8 00 H" prints "00 00 00 00 00 00 00 18"
        ∷ long "@7:got:" 1473
        ∷ []) }
    ensures none { IsNotDue (connected_7 ∷ "L 00 01 EC 08 H L 00 03 E8 00 H @7:got:" prints "00 00 00 00 00 00 00 18" ∷ []) }
{}

/// Bytes that come after DISCON were supplied by the link, and are not received.
pub fn supplies_after_discon()
    ensures supplied { supplied_after (connected ∷ line "@0:got:0102 L 00 01 0C 08 H @0:got:03" ∷ []) 0 1 ≡ Some (1 ∷ 2 ∷ 3 ∷ []) }
    ensures got { got_after (connected ∷ line "@0:got:0102 L 00 01 0C 08 H @0:got:03" ∷ []) 0 1 ≡ Some (1 ∷ 2 ∷ []) }
{}

/// Writes to the RX buffer have no effect, and each socket has one of its own.
pub fn keeps_the_received()
    ensures { Prints (
        connected
        ∷ connected_7
        ∷ "@0:got:0102 @7:got:0304 L 00 00 1C 09 09 09 H" prints "00 00 00 00 00 00"
        ∷ "L 00 00 FC 09 09 09 H" prints "00 00 00 00 00 00"
        ∷ "L 00 00 18 00 00 00 H L 00 00 F8 00 00 00 H L 00 00 78 00 00 00 H" prints "00 00 00 01 02 00 00 00 00 03 04 00 00 00 00 00 00 00"
        ∷ "L 00 26 08 00 00 H L 00 26 E8 00 00 H" prints "00 00 00 00 02 00 00 00 00 02"
        ∷ []) }
{}

/// RECV past the received bytes stops the board.
pub fn stops_a_far_release()
    ensures none { Stops (connected ∷ "L 00 28 0C 00 01 H L 00 01 0C 40" prints "00 00 00 00 00 00 00 00" ∷ []) (RecvPastEnd 0 1 0) }
    ensures one_more { Stops (
        connected_7
        ∷ "@7:got:0102 L 00 28 EC 00 03 H L 00 01 EC 40" prints "00 00 00 00 00 00 00 00"
        ∷ []) (RecvPastEnd 7 3 2) }
    ensures backwards { Stops (
        "start 0 1" prints ""
        ∷ connected_7
        ∷ "@7:got:0102 L 00 29 EC 02 H L 00 01 EC 40 H L 00 29 EC 01 H" prints "00 00 00 00 00 00 00 00 00 00 00 00"
        ∷ "L 00 01 EC 40" prints "00 00 00"
        ∷ []) (RecvPastEnd 7 65535 1) }
{}
