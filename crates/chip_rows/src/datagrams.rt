//! Worked rows of sockets that are opened for UDP: datagrams, their headers, and what is due.
#![tactic(auto, unfolding(chip_sheet::specs::Frames::cut, chip_sheet::specs::Frames::current, chip_sheet::specs::CommonBlock::common_place, chip_sheet::specs::SocketBlock::socket_place, hex::specs::Hex::decode_pairs))]

ghost use Rattle.std.specs.Prelude.{◌≡◌, [], ◌∷◌, Some};
ghost use Rattle.chip_sheet.specs.LinkCalls.{connection};
ghost use Rattle.chip_sheet.specs.declared.socket.Due.TheVariants as due;
ghost use Rattle.chip_sheet.specs.declared.stop.ChipStop.TheVariants.{SizeWhileOpen, OverwriteInFlight, Multicast, BadBufferSize, SendBusy, SendTooLong, RecvPastEnd};
ghost use Rattle.chip_rows.specs.Rows.{opened_for_udp_7, connected_7, ◌prints◌, line, long, Prints, Stops, IsNotDue, due_after, sent_after, got_after, supplied_after, destinations_after};

/// OPEN with the protocol UDP: the status is 22 and all four pointers are 0, whatever the starts are; bits 6..4 of Sn_MR are no
/// part of the protocol.
pub fn opens_for_udp()
    ensures { Prints (
        "start 258 772" prints ""
        ∷ "L 00 24 EC 09 09 H L 00 28 EC 09 09 H L 00 00 EC 72 H" prints "00 00 00 00 00 00 00 00 00 00 00 00 00 00"
        ∷ "L 00 01 EC 01 H L 00 02 E8 00 00 H" prints "00 00 00 00 00 00 00 00 22"
        ∷ "L 00 20 E8 00 00 00 00 00 00 H L 00 26 E8 00 00 00 00 00 00 H" prints "00 00 00 08 00 00 00 00 00 00 00 00 00 00 00 00 00 00"
        ∷ []) }
{}

/// In UDP the commands of a connection do nothing, nor does OPEN, nor a write of another protocol; CLOSE closes, and the life is
/// to be dropped.
pub fn keeps_the_status()
    ensures { Prints (
        opened_for_udp_7
        ∷ "L 00 01 EC 01 H L 00 01 EC 02 H L 00 01 EC 04 H L 00 02 E8 00 00 H" prints "00 00 00 00 00 00 00 00 00 00 00 00 00 00 00 00 22"
        ∷ "L 00 01 EC 08 H L 00 01 EC 22 H L 00 00 EC 01 H L 00 01 EC 01 H" prints "00 00 00 00 00 00 00 00 00 00 00 00 00 00 00 00"
        ∷ "L 00 02 E8 00 00 H" prints "00 00 00 00 22"
        ∷ "L 00 01 EC 10 H L 00 02 E8 00 00 H @7:dropped" prints "00 00 00 00 00 00 00 00 00"
        ∷ []) }
{}

/// A datagram stands in the RX buffer behind eight bytes: the sender's address and port, and the length.
pub fn receives_a_datagram()
    ensures { Prints (
        "L 00 00 2C 02 H L 00 01 2C 01 H @1:datagram:10.0.0.2:5000:6869" prints "00 00 00 00 00 00 00 00"
        ∷ "L 00 02 28 00 00 H L 00 26 28 00 00 00 00 00 00 H" prints "00 00 00 04 22 00 00 00 00 0A 00 00 00 0A"
        ∷ "L 00 00 38 00 00 00 00 00 00 00 00 00 00 00 H" prints "00 00 00 0A 00 00 02 13 88 00 02 68 69 00"
        ∷ []) }
{}

/// Datagrams stand one behind the other, one without a body too, and RECV releases them; it raises RECV again while some remain.
pub fn receives_in_turn()
    ensures { Prints (
        opened_for_udp_7
        ∷ "@7:datagram:255.254.253.252:65535: @7:datagram:1.2.3.4:1:55" prints ""
        ∷ "L 00 26 E8 00 00 H" prints "00 00 00 00 11"
        ∷ "L 00 00 F8 00 00 00 00 00 00 00 00 00 00 00 00 00 00 00 00 00 H" prints "00 00 00 FF FE FD FC FF FF 00 00 01 02 03 04 00 01 00 01 55"
        ∷ "L 00 02 EC 04 H L 00 29 EC 08 H L 00 01 EC 40 H L 00 02 E8 00 H" prints "00 00 00 00 00 00 00 00 00 00 00 00 00 00 00 04"
        ∷ "L 00 26 E8 00 00 H" prints "00 00 00 00 09"
        ∷ "L 00 02 EC 04 H L 00 29 EC 11 H L 00 01 EC 40 H L 00 02 E8 00 H" prints "00 00 00 00 00 00 00 00 00 00 00 00 00 00 00 00"
        ∷ "L 00 26 E8 00 00 00 00 00 00 H" prints "00 00 00 00 00 00 11 00 11"
        ∷ []) }
{}

/// A datagram of at most 1,472 bytes is received where eight bytes more than its length are free; else it is dropped, which
/// raises nothing and moves no pointer.
pub fn drops_what_does_not_fit()
    ensures fit { Prints (
        opened_for_udp_7
        ∷ long "@7:datagram:10.0.0.2:6000:" 1472
        ∷ "L 00 26 E8 00 00 H L 00 02 EC 04 H" prints "00 00 00 05 C8 00 00 00 00"
        ∷ long "@7:datagram:10.0.0.2:6000:" 561
        ∷ "L 00 02 E8 00 H L 00 26 E8 00 00 00 00 00 00 H" prints "00 00 00 00 00 00 00 05 C8 00 00 05 C8"
        ∷ long "@7:datagram:10.0.0.2:6000:" 560
        ∷ "L 00 02 E8 00 H L 00 26 E8 00 00 00 00 00 00 H L 00 02 EC 04 H" prints "00 00 00 04 00 00 00 08 00 00 00 08 00 00 00 00 00"
        ∷ "@7:datagram:10.0.0.2:6000: L 00 02 E8 00 H L 00 26 E8 00 00 H" prints "00 00 00 00 00 00 00 08 00"
        ∷ []) }
    ensures longer { IsNotDue (
        opened_for_udp_7
        ∷ "L 00 03 E8 00 H" prints "00 00 00 22"
        ∷ long "@7:datagram:10.0.0.2:6000:" 1473
        ∷ []) }
    ensures no_size { Prints (
        "L 00 1E EC 00 H" prints "00 00 00 00"
        ∷ opened_for_udp_7
        ∷ "@7:datagram:10.0.0.2:6000: @7:datagram:10.0.0.2:6000:55" prints ""
        ∷ "L 00 02 E8 00 H L 00 26 E8 00 00 H" prints "00 00 00 00 00 00 00 00 00"
        ∷ []) }
{}

/// A datagram whose body goes over the end of the buffer, here of 1 KB.
pub fn wraps_a_datagram()
    ensures { Prints (
        "L 00 1E EC 01 H" prints "00 00 00 00"
        ∷ opened_for_udp_7
        ∷ long "@7:datagram:10.0.0.2:6000:" 1000
        ∷ "L 00 26 E8 00 00 H L 00 28 EC 03 F0 H L 00 01 EC 40 H" prints "00 00 00 03 F0 00 00 00 00 00 00 00 00 00"
        ∷ "L 00 26 E8 00 00 H" prints "00 00 00 00 00"
        ∷ "@7:datagram:10.0.0.2:6000:0102030405060708090A" prints ""
        ∷ "L 03 F0 F8 00 00 00 00 00 00 00 00 00 00 00 00 00 00 00 00 00 00 H" prints "00 00 00 0A 00 00 02 17 70 00 0A 01 02 03 04 05 06 07 08 09 0A"
        ∷ "L 00 00 F8 00 00 00 H" prints "00 00 00 09 0A 00"
        ∷ []) }
{}

/// What was received holds the headers; what the link supplied holds the bodies, also of datagrams that were dropped.
pub fn says_what_it_received()
    ensures got { got_after (line "L 00 1E EC 01 H" ∷ opened_for_udp_7 ∷ line "@7:datagram:10.0.0.2:6000:0102 @7:datagram:10.0.0.2:6000:03" ∷ []) 7 1 ≡ Some (10 ∷ 0 ∷ 0 ∷ 2 ∷ 0x17 ∷ 0x70 ∷ 0 ∷ 2 ∷ 1 ∷ 2 ∷ 10 ∷ 0 ∷ 0 ∷ 2 ∷ 0x17 ∷ 0x70 ∷ 0 ∷ 1 ∷ 3 ∷ []) }
    ensures supplied { supplied_after (line "L 00 1E EC 01 H" ∷ opened_for_udp_7 ∷ line "@7:datagram:10.0.0.2:6000:0102 @7:datagram:10.0.0.2:6000:03" ∷ []) 7 1 ≡ Some (1 ∷ 2 ∷ 3 ∷ []) }
    ensures dropped { got_after (line "L 00 1E EC 00 H" ∷ opened_for_udp_7 ∷ line "@7:datagram:10.0.0.2:6000:0102" ∷ []) 7 1 ≡ Some [] }
    ensures supplied_too { supplied_after (line "L 00 1E EC 00 H" ∷ opened_for_udp_7 ∷ line "@7:datagram:10.0.0.2:6000:0102" ∷ []) 7 1 ≡ Some (1 ∷ 2 ∷ []) }
{}

/// A SEND passes on one datagram, which the link takes whole: SENDOK rises then, and the next SEND may follow.
pub fn sends_a_datagram()
    ensures goes_on { Prints (
        opened_for_udp_7
        ∷ "L 00 0C EC 0A 00 00 02 17 70 H L 00 00 F4 68 69 H L 00 25 EC 02 H" prints "00 00 00 00 00 00 00 00 00 00 00 00 00 00 00 00 00 00"
        ∷ "L 00 01 EC 20 H L 00 02 E8 00 H L 00 20 E8 00 00 00 00 H" prints "00 00 00 00 00 00 00 00 00 00 00 07 FE 00 02"
        ∷ "@7:took:2 L 00 02 E8 00 00 H L 00 20 E8 00 00 00 00 H" prints "00 00 00 10 22 00 00 00 08 00 00 02"
        ∷ "L 00 02 EC 10 H L 00 02 F4 6A H L 00 25 EC 03 H L 00 01 EC 20 H" prints "00 00 00 00 00 00 00 00 00 00 00 00 00 00 00 00"
        ∷ "@7:took:1 L 00 02 E8 00 H" prints "00 00 00 10"
        ∷ []) }
    ensures part { IsNotDue (
        opened_for_udp_7
        ∷ "L 00 0C EC 0A 00 00 02 17 70 H L 00 00 F4 68 69 H L 00 25 EC 02 H" prints "00 00 00 00 00 00 00 00 00 00 00 00 00 00 00 00 00 00"
        ∷ "L 00 01 EC 20 H L 00 03 E8 00 H @7:took:1" prints "00 00 00 00 00 00 00 22"
        ∷ []) }
    ensures more { IsNotDue (
        opened_for_udp_7
        ∷ "L 00 0C EC 0A 00 00 02 17 70 H L 00 00 F4 68 69 H L 00 25 EC 02 H" prints "00 00 00 00 00 00 00 00 00 00 00 00 00 00 00 00 00 00"
        ∷ "L 00 01 EC 20 H L 00 03 E8 00 H @7:took:3" prints "00 00 00 00 00 00 00 22"
        ∷ []) }
    ensures none { IsNotDue (opened_for_udp_7 ∷ "L 00 03 E8 00 H @7:took:1" prints "00 00 00 22" ∷ []) }
{}

/// A datagram goes from the port that Sn_PORT held at OPEN to the address and the port that Sn_DIPR and Sn_DPORT held at its
/// SEND.
pub fn sends_where_the_registers_say()
    ensures send { due_after (opened_for_udp_7 ∷ line "L 00 05 EC 01 H L 00 0C EC 0A 00 00 02 17 70 H L 00 25 EC 02 H" ∷ line "L 00 01 EC 20 H L 00 0F EC 09 H" ∷ []) 14 ≡ Some (due.SendTo (connection 7 1) 5000 (record { ip = 10 ∷ 0 ∷ 0 ∷ 2 ∷ []; port = 6000 })) }
    ensures next { due_after (opened_for_udp_7 ∷ line "L 00 0C EC 0A 00 00 02 17 70 H L 00 25 EC 02 H L 00 01 EC 20 H" ∷ line "@7:took:2 L 00 0F EC 09 H L 00 25 EC 03 H L 00 01 EC 20 H" ∷ []) 14 ≡ Some (due.SendTo (connection 7 1) 5000 (record { ip = 10 ∷ 0 ∷ 0 ∷ 9 ∷ []; port = 6000 })) }
    ensures taken { due_after (opened_for_udp_7 ∷ line "L 00 0C EC 0A 00 00 02 17 70 H L 00 25 EC 02 H L 00 01 EC 20 H" ∷ line "@7:took:2" ∷ []) 14 ≡ Some due.Nothing }
    ensures empty { due_after (opened_for_udp_7 ∷ line "L 00 0C EC 0A 00 00 02 17 70 H L 00 01 EC 20 H" ∷ []) 14 ≡ Some due.Nothing }
    ensures receive { due_after (opened_for_udp_7 ∷ line "L 00 05 EC 01 H" ∷ []) 15 ≡ Some (due.RecvFrom (connection 7 1) 5000) }
    ensures receive_as_before { due_after (opened_for_udp_7 ∷ line "L 00 04 EC 17 70 H L 00 01 EC 01 H L 00 01 EC 02 H" ∷ []) 15 ≡ Some (due.RecvFrom (connection 7 1) 5000) }
    ensures receive_without_room { due_after (line "L 00 1E EC 00 H" ∷ opened_for_udp_7 ∷ []) 15 ≡ Some (due.RecvFrom (connection 7 1) 5000) }
    ensures sent { sent_after (opened_for_udp_7 ∷ line "L 00 0C EC 0A 00 00 02 17 70 H L 00 00 F4 68 69 H L 00 25 EC 02 H" ∷ line "L 00 01 EC 20 H @7:took:2 L 00 02 F4 6A H L 00 25 EC 03 H" ∷ line "L 00 01 EC 20 H" ∷ []) 7 1 ≡ Some (0x68 ∷ 0x69 ∷ 0x6A ∷ []) }
    ensures destinations { destinations_after (opened_for_udp_7 ∷ line "L 00 0C EC 0A 00 00 02 17 70 H L 00 25 EC 02 H L 00 01 EC 20 H" ∷ line "@7:took:2 L 00 01 EC 20 H L 00 0F EC 09 H L 00 25 EC 03 H" ∷ line "L 00 01 EC 20 H L 00 0F EC 01 H" ∷ []) 7 1 ≡ Some (record { ip = 10 ∷ 0 ∷ 0 ∷ 2 ∷ []; port = 6000 } ∷ record { ip = 10 ∷ 0 ∷ 0 ∷ 9 ∷ []; port = 6000 } ∷ []) }
{}

/// A SEND of no bytes raises SENDOK at once and sends no datagram.
pub fn sends_an_empty_range()
    ensures { Prints (
        opened_for_udp_7
        ∷ "L 00 01 EC 20 H L 00 02 E8 00 00 H L 00 20 E8 00 00 00 00 H" prints "00 00 00 00 00 00 00 10 22 00 00 00 08 00 00 00"
        ∷ []) }
{}

/// A SEND while a datagram is in flight stops the board, also one of no bytes or of too many, and one of no bytes behind it is no
/// hindrance once it was taken.
pub fn sends_one_at_a_time()
    ensures second { Stops (
        "L 00 00 2C 02 H L 00 01 2C 01 H L 00 25 2C 02 H L 00 01 2C 20 H" prints "00 00 00 00 00 00 00 00 00 00 00 00 00 00 00 00"
        ∷ "L 00 25 2C 03 H L 00 01 2C 20" prints "00 00 00 00 00 00 00"
        ∷ []) (SendBusy 1) }
    ensures empty { Stops (
        opened_for_udp_7
        ∷ "L 00 25 EC 02 H L 00 01 EC 20 H L 00 01 EC 20" prints "00 00 00 00 00 00 00 00 00 00 00"
        ∷ []) (SendBusy 7) }
    ensures too_long { Stops (
        opened_for_udp_7
        ∷ "L 00 25 EC 02 H L 00 01 EC 20 H L 00 24 EC F0 H L 00 01 EC 20" prints "00 00 00 00 00 00 00 00 00 00 00 00 00 00 00"
        ∷ []) (SendBusy 7) }
    ensures taken { Prints (
        opened_for_udp_7
        ∷ "L 00 25 EC 02 H L 00 01 EC 20 H @7:took:2 L 00 01 EC 20 H" prints "00 00 00 00 00 00 00 00 00 00 00 00"
        ∷ "L 00 02 E8 00 H" prints "00 00 00 10"
        ∷ []) }
{}

/// A datagram of 2,048 bytes is passed on, and one of 2,049 stops the board; its places may not be written until it is taken.
pub fn sends_no_more_than_is_free()
    ensures full { Prints (
        opened_for_udp_7
        ∷ "L 00 24 EC 08 00 H L 00 01 EC 20 H L 00 20 E8 00 00 00 00 H" prints "00 00 00 00 00 00 00 00 00 00 00 00 00 00 08 00"
        ∷ "@7:took:2048 L 00 02 E8 00 H L 00 20 E8 00 00 H" prints "00 00 00 10 00 00 00 08 00"
        ∷ []) }
    ensures longer { Stops (opened_for_udp_7 ∷ "L 00 24 EC 08 01 H L 00 01 EC 20" prints "00 00 00 00 00 00 00 00" ∷ []) (SendTooLong 7 2049 2048) }
    ensures written { Stops (
        opened_for_udp_7
        ∷ "L 00 25 EC 02 H L 00 01 EC 20 H L 00 02 F4 55 H" prints "00 00 00 00 00 00 00 00 00 00 00 00"
        ∷ "L 00 01 F4 55" prints "00 00 00"
        ∷ []) (OverwriteInFlight 7 1) }
{}

/// RECV past the received bytes stops the board.
pub fn releases_no_more_than_there_is()
    ensures { Stops (
        opened_for_udp_7
        ∷ "@7:datagram:10.0.0.2:6000:6869 L 00 29 EC 0B H L 00 01 EC 40" prints "00 00 00 00 00 00 00"
        ∷ []) (RecvPastEnd 7 11 10) }
{}

/// OPEN for UDP with bit 7 of Sn_MR stops the board, in CLOSED alone, and before the sizes are looked at.
pub fn stops_multicast()
    ensures alone { Stops ("L 00 00 0C 82 H L 00 01 0C 01" prints "00 00 00 00 00 00 00" ∷ []) (Multicast 0) }
    ensures before_sizes { Stops ("L 00 1F 6C 03 H L 00 00 EC 82 H L 00 01 EC 01" prints "00 00 00 00 00 00 00 00 00 00 00" ∷ []) (Multicast 7) }
    ensures not_in_udp { Prints (
        opened_for_udp_7
        ∷ "L 00 00 EC 82 H L 00 01 EC 01 H L 00 03 E8 00 H" prints "00 00 00 00 00 00 00 00 00 00 00 22"
        ∷ []) }
{}

/// OPEN for UDP stops while the sizes of a direction are not valid.
pub fn stops_a_bad_size_for_udp()
    ensures tx { Stops ("L 00 1F 6C 03 H L 00 00 EC 02 H L 00 01 EC 01" prints "00 00 00 00 00 00 00 00 00 00 00" ∷ []) (BadBufferSize 7) }
    ensures rx { Stops ("L 00 1E 6C 04 H L 00 00 EC 02 H L 00 01 EC 01" prints "00 00 00 00 00 00 00 00 00 00 00" ∷ []) (BadBufferSize 7) }
    ensures open_already { Stops (opened_for_udp_7 ∷ "L 00 1F 0C 04" prints "00 00 00" ∷ []) (SizeWhileOpen 0) }
{}

/// A link that fails closes the socket and raises TIMEOUT, with a datagram in flight or not; the life is to be dropped.
pub fn fails_in_udp()
    ensures idle { Prints (
        opened_for_udp_7
        ∷ "@7:failed L 00 02 E8 00 00 H L 00 20 E8 00 00 H @7:dropped" prints "00 00 00 08 00 00 00 00 08 00"
        ∷ []) }
    ensures in_flight { Prints (
        opened_for_udp_7
        ∷ "@7:datagram:10.0.0.2:6000: L 00 25 EC 02 H L 00 01 EC 20 H" prints "00 00 00 00 00 00 00 00"
        ∷ "@7:failed L 00 02 E8 00 00 H" prints "00 00 00 0C 00"
        ∷ "L 00 20 E8 00 00 00 00 00 00 00 00 00 00 00 00 H" prints "00 00 00 08 00 00 02 00 02 00 00 00 00 00 08"
        ∷ []) }
{}

/// In UDP no event of a connection fits, and a datagram fits in no other status; while an old life is there, only its drop fits.
pub fn refuses_what_is_no_datagram()
    ensures linked { IsNotDue (opened_for_udp_7 ∷ "L 00 03 E8 00 H @7:linked" prints "00 00 00 22" ∷ []) }
    ensures accepted { IsNotDue (opened_for_udp_7 ∷ "L 00 03 E8 00 H @7:accepted:10.0.0.2:40000" prints "00 00 00 22" ∷ []) }
    ensures got { IsNotDue (opened_for_udp_7 ∷ "L 00 03 E8 00 H @7:got:55" prints "00 00 00 22" ∷ []) }
    ensures ended { IsNotDue (opened_for_udp_7 ∷ "L 00 03 E8 00 H @7:ended" prints "00 00 00 22" ∷ []) }
    ensures shut { IsNotDue (opened_for_udp_7 ∷ "L 00 03 E8 00 H @7:shut" prints "00 00 00 22" ∷ []) }
    ensures refused { IsNotDue (opened_for_udp_7 ∷ "L 00 03 E8 00 H @7:refused" prints "00 00 00 22" ∷ []) }
    ensures timed_out { IsNotDue (opened_for_udp_7 ∷ "L 00 03 E8 00 H @7:timedout" prints "00 00 00 22" ∷ []) }
    ensures dropped { IsNotDue (opened_for_udp_7 ∷ "L 00 03 E8 00 H @7:dropped" prints "00 00 00 22" ∷ []) }
    ensures established { IsNotDue (connected_7 ∷ "L 00 03 E8 00 H @7:datagram:10.0.0.2:6000:55" prints "00 00 00 17" ∷ []) }
    ensures closed { IsNotDue ("L 00 03 E8 00 H @7:datagram:10.0.0.2:6000:55" prints "00 00 00 00" ∷ []) }
    ensures old_life { IsNotDue (
        opened_for_udp_7
        ∷ "L 00 01 EC 10 H L 00 01 EC 01 H L 00 03 E8 00 H" prints "00 00 00 00 00 00 00 00 00 00 00 22"
        ∷ "@7:datagram:10.0.0.2:6000:55" prints ""
        ∷ []) }
    ensures behind { Prints (
        opened_for_udp_7
        ∷ "L 00 01 EC 10 H L 00 01 EC 01 H @7:dropped" prints "00 00 00 00 00 00 00 00"
        ∷ "@7:datagram:10.0.0.2:6000:55 L 00 02 E8 00 00 H L 00 26 E8 00 00 H" prints "00 00 00 04 22 00 00 00 00 09"
        ∷ []) }
    ensures drop { due_after (opened_for_udp_7 ∷ line "L 00 01 EC 10 H L 00 01 EC 01 H" ∷ []) 14 ≡ Some (due.Drop (connection 7 1)) }
    ensures reset { due_after (opened_for_udp_7 ∷ line "L 00 00 04 80 H" ∷ []) 14 ≡ Some (due.Drop (connection 7 1)) }
{}
