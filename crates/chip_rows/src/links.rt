//! Worked rows of which link call is due, with which arguments, and of lives that the link is still to forget.
#![tactic(auto, unfolding(chip_sheet::specs::Frames::cut, chip_sheet::specs::Frames::current, chip_sheet::specs::CommonBlock::common_place, chip_sheet::specs::SocketBlock::socket_place, hex::specs::Hex::decode_pairs))]

ghost use Rattle.std.specs.Prelude.{◌≡◌, [], ◌∷◌, Some, true, false};
ghost use Rattle.chip_sheet.specs.Windows.{in_flight, offered, room_length};
ghost use Rattle.chip_sheet.specs.Connections.{is_dropped, is_carried, sent_in_all, taken_in_all, got_in_all};
ghost use Rattle.chip_sheet.specs.Past.{exchanges};
ghost use Rattle.board_bus.specs.declared.event.BusEvent.TheVariants.{Select, Byte, Look};
ghost use Rattle.board_bus.specs.declared.event.BusAnswer.TheVariants.{Done, Out, Level};
ghost use Rattle.chip_sheet.specs.LinkCalls.{connection};
ghost use Rattle.chip_sheet.specs.declared.socket.Due.TheVariants as due;
ghost use Rattle.chip_rows.specs.Rows.{opened, opened_7, opened_for_udp_7, connected, connected_7, ◌prints◌, line, long, after, Prints, IsNotDue, due_after};

/// A reset closes the socket, clears the buffers and goes on with the number of lives: its old life is to be dropped.
pub fn resets_a_socket()
    ensures { Prints (
        connected
        ∷ "L 00 00 14 68 69 H L 00 00 04 80 H L 00 03 08 00 H L 00 00 10 00 H" prints "00 00 00 00 00 00 00 00 00 00 00 00 00 00 00 00 00"
        ∷ "@0:dropped" prints ""
        ∷ []) }
{}

/// While a life that has closed is not forgotten, no other link event of the socket fits; behind its drop the next life goes on.
pub fn keeps_an_old_life()
    ensures connect { IsNotDue (
        opened
        ∷ "L 00 01 0C 04 H L 00 01 0C 10 H" prints "00 00 00 00 00 00 00 00"
        ∷ "L 00 01 0C 01 H L 00 01 0C 04 H L 00 03 08 00 H @0:linked" prints "00 00 00 00 00 00 00 00 00 00 00 15"
        ∷ []) }
    ensures accept { IsNotDue (
        opened
        ∷ "L 00 01 0C 04 H L 00 01 0C 10 H" prints "00 00 00 00 00 00 00 00"
        ∷ "L 00 01 0C 01 H L 00 01 0C 02 H L 00 03 08 00 H" prints "00 00 00 00 00 00 00 00 00 00 00 14"
        ∷ "@0:accepted:10.0.0.2:40000" prints ""
        ∷ []) }
    ensures behind { Prints (
        opened
        ∷ "L 00 01 0C 04 H L 00 01 0C 10 H" prints "00 00 00 00 00 00 00 00"
        ∷ "L 00 01 0C 01 H L 00 01 0C 04 H @0:dropped @0:linked" prints "00 00 00 00 00 00 00 00"
        ∷ "L 00 03 08 00 H" prints "00 00 00 17"
        ∷ []) }
    ensures once { IsNotDue (
        opened
        ∷ "L 00 01 0C 04 H L 00 01 0C 10 H @0:dropped L 00 03 08 00 H" prints "00 00 00 00 00 00 00 00 00 00 00 00"
        ∷ "@0:dropped" prints ""
        ∷ []) }
    ensures other_socket { Prints (
        opened
        ∷ "L 00 01 0C 04 H L 00 01 0C 10 H" prints "00 00 00 00 00 00 00 00"
        ∷ "L 00 00 2C 01 H L 00 01 2C 01 H L 00 01 2C 04 H @1:linked" prints "00 00 00 00 00 00 00 00 00 00 00 00"
        ∷ "L 00 03 28 00 H" prints "00 00 00 17"
        ∷ []) }
{}

/// What CONNECT and LISTEN make due: with the address and the port that the registers held then.
pub fn asks_for_a_connection()
    ensures connect { due_after (opened_7 ∷ line "L 00 0C EC 0A 00 00 02 13 88 H L 00 01 EC 04 H L 00 0C EC 01 H" ∷ []) 14 ≡ Some (due.Connect (connection 7 1) (record { ip = 10 ∷ 0 ∷ 0 ∷ 2 ∷ []; port = 5000 })) }
    ensures listen { due_after (opened_7 ∷ line "L 00 04 EC 13 88 H L 00 01 EC 02 H L 00 05 EC 01 H" ∷ []) 15 ≡ Some (due.Accept (connection 7 1) 5000) }
    ensures connect_alone { due_after (opened_7 ∷ line "L 00 0C EC 0A 00 00 02 13 88 H L 00 01 EC 04 H" ∷ []) 15 ≡ Some due.Nothing }
    ensures listen_alone { due_after (opened_7 ∷ line "L 00 01 EC 02 H" ∷ []) 14 ≡ Some due.Nothing }
    ensures nothing_out { due_after (opened_7 ∷ []) 14 ≡ Some due.Nothing }
    ensures nothing_in { due_after (opened_7 ∷ []) 15 ≡ Some due.Nothing }
    ensures other_socket { due_after (opened_7 ∷ line "L 00 01 EC 02 H" ∷ []) 1 ≡ Some due.Nothing }
    ensures connect_again { due_after (opened_7 ∷ line "L 00 0C EC 0A 00 00 02 13 88 H L 00 01 EC 04 H L 00 0C EC 01 H" ∷ line "L 00 01 EC 04 H" ∷ []) 14 ≡ Some (due.Connect (connection 7 1) (record { ip = 10 ∷ 0 ∷ 0 ∷ 2 ∷ []; port = 5000 })) }
    ensures listen_again { due_after (opened_7 ∷ line "L 00 04 EC 13 88 H L 00 01 EC 02 H L 00 05 EC 01 H L 00 01 EC 02 H" ∷ []) 15 ≡ Some (due.Accept (connection 7 1) 5000) }
{}

/// What is due on a connection: a read while the buffer has room, a write while bytes are in flight; once this side has ended,
/// the link's end behind them, and reading away.
pub fn uses_a_connection()
    ensures read { due_after (connected ∷ []) 1 ≡ Some (due.Read (connection 0 1)) }
    ensures idle { due_after (connected ∷ []) 0 ≡ Some due.Nothing }
    ensures no_room { due_after (line "L 00 1E 0C 00 H" ∷ connected ∷ []) 1 ≡ Some due.Nothing }
    ensures write { due_after (connected ∷ line "L 00 25 0C 02 H L 00 01 0C 20 H" ∷ []) 0 ≡ Some (due.Write (connection 0 1)) }
    ensures write_behind_the_end { due_after (connected ∷ line "@0:ended L 00 25 0C 02 H L 00 01 0C 20 H" ∷ []) 0 ≡ Some (due.Write (connection 0 1)) }
    ensures behind_the_end { due_after (connected ∷ line "@0:ended" ∷ []) 1 ≡ Some due.Nothing }
    ensures write_last { due_after (connected ∷ line "L 00 25 0C 02 H L 00 01 0C 20 H L 00 01 0C 08 H" ∷ []) 0 ≡ Some (due.Write (connection 0 1)) }
    ensures ended { due_after (connected ∷ line "L 00 01 0C 08 H" ∷ []) 0 ≡ Some (due.Shut (connection 0 1)) }
    ensures away { due_after (connected ∷ line "L 00 01 0C 08 H" ∷ []) 1 ≡ Some (due.ReadAway (connection 0 1)) }
    ensures shut { due_after (connected ∷ line "L 00 01 0C 08 H @0:shut" ∷ []) 0 ≡ Some due.Nothing }
    ensures both_ended { due_after (connected ∷ line "L 00 01 0C 08 H @0:ended" ∷ []) 1 ≡ Some due.Nothing }
    ensures last_shut { due_after (connected ∷ line "@0:ended L 00 01 0C 08 H" ∷ []) 0 ≡ Some (due.Shut (connection 0 1)) }
    ensures last_write { due_after (connected ∷ line "@0:ended L 00 25 0C 02 H L 00 01 0C 20 H L 00 01 0C 08 H" ∷ []) 0 ≡ Some (due.Write (connection 0 1)) }
{}

/// A life that closes, where the link was asked in it, is to be dropped before anything else is due. A life that closes while it
/// is not dropped does not take its place. The next life has the next number.
pub fn drops_an_old_life()
    ensures first { due_after (connected ∷ line "L 00 00 04 80 H L 00 00 0C 01 H L 00 01 0C 01 H L 00 01 0C 04 H" ∷ []) 0 ≡ Some (due.Drop (connection 0 1)) }
    ensures alone { due_after (connected ∷ line "L 00 00 04 80 H L 00 00 0C 01 H L 00 01 0C 01 H L 00 01 0C 02 H" ∷ []) 1 ≡ Some due.Nothing }
    ensures after { due_after (connected ∷ line "L 00 00 04 80 H L 00 00 0C 01 H L 00 01 0C 01 H" ∷ line "L 00 0C 0C 0A 00 00 02 13 88 H L 00 01 0C 04 H @0:dropped" ∷ []) 0 ≡ Some (due.Connect (connection 0 2) (record { ip = 10 ∷ 0 ∷ 0 ∷ 2 ∷ []; port = 5000 })) }
    ensures older_stays { due_after (connected ∷ line "L 00 01 0C 10 H L 00 01 0C 01 H L 00 01 0C 04 H L 00 01 0C 10 H" ∷ []) 0 ≡ Some (due.Drop (connection 0 1)) }
    ensures later_is_none { due_after (connected ∷ line "L 00 01 0C 10 H L 00 01 0C 01 H L 00 01 0C 04 H L 00 00 04 80 H" ∷ line "@0:dropped" ∷ []) 0 ≡ Some due.Nothing }
    ensures second { due_after (connected ∷ line "L 00 01 0C 10 H @0:dropped L 00 01 0C 01 H L 00 01 0C 02 H" ∷ line "L 00 01 0C 10 H" ∷ []) 0 ≡ Some (due.Drop (connection 0 2)) }
    ensures unlinked { due_after (opened ∷ line "L 00 01 0C 10 H" ∷ []) 0 ≡ Some due.Nothing }
    ensures unlinked_again { due_after (connected ∷ line "L 00 01 0C 10 H @0:dropped L 00 01 0C 01 H L 00 01 0C 10 H" ∷ []) 0 ≡ Some due.Nothing }
    ensures refused { due_after (opened ∷ line "L 00 01 0C 04 H @0:refused" ∷ []) 0 ≡ Some (due.Drop (connection 0 1)) }
{}

/// What is offered to the link at once are the bytes in flight up to the end of the buffer, and what it may read at once is what
/// is free, up to the end of the buffer and to 1,472 bytes.
pub fn lends_up_to_the_end()
    ensures in_flight { after (line "start 2047 0" ∷ connected ∷ line "L 07 FF 14 AA BB H L 00 24 0C 08 01 H L 00 01 0C 20 H" ∷ []) (λ starts past. in_flight starts past 0) ≡ Some (0xAA ∷ 0xBB ∷ []) }
    ensures offered { after (line "start 2047 0" ∷ connected ∷ line "L 07 FF 14 AA BB H L 00 24 0C 08 01 H L 00 01 0C 20 H" ∷ []) (λ starts past. offered starts past 0) ≡ Some (0xAA ∷ []) }
    ensures offered_then { after (line "start 2047 0" ∷ connected ∷ line "L 07 FF 14 AA BB H L 00 24 0C 08 01 H L 00 01 0C 20 H @0:took:1" ∷ []) (λ starts past. offered starts past 0) ≡ Some (0xBB ∷ []) }
    ensures closed { after (line "start 2047 0" ∷ connected ∷ line "L 07 FF 14 AA BB H L 00 24 0C 08 01 H L 00 01 0C 20 H" ∷ line "L 00 01 0C 10 H" ∷ []) (λ starts past. offered starts past 0) ≡ Some [] }
    ensures room { after (connected_7 ∷ []) (λ starts past. room_length starts past 7) ≡ Some 1472 }
    ensures less_room { after (connected_7 ∷ long "@7:got:" 1472 ∷ []) (λ starts past. room_length starts past 7) ≡ Some 576 }
    ensures no_room { after (connected_7 ∷ long "@7:got:" 1472 ∷ long "@7:got:" 576 ∷ []) (λ starts past. room_length starts past 7) ≡ Some 0 }
    ensures room_again { after (connected_7 ∷ long "@7:got:" 1472 ∷ long "@7:got:" 576 ∷ line "L 00 28 EC 03 E8 H L 00 01 EC 40 H" ∷ []) (λ starts past. room_length starts past 7) ≡ Some 1000 }
    ensures room_at_the_end { after (line "start 0 2047" ∷ connected_7 ∷ []) (λ starts past. room_length starts past 7) ≡ Some 1 }
{}

/// What stands in a history of each life, and counts over all of them.
pub fn counts_over_lives()
    ensures sent { after (connected ∷ line "@0:got:0102 L 00 25 0C 03 H L 00 01 0C 20 H @0:took:3" ∷ line "L 00 01 0C 10 H @0:dropped L 00 01 0C 01 H L 00 01 0C 04 H" ∷ line "@0:linked L 00 25 0C 02 H L 00 01 0C 20 H" ∷ []) (λ starts past. sent_in_all starts past 0) ≡ Some 5 }
    ensures taken { after (connected ∷ line "@0:got:0102 L 00 25 0C 03 H L 00 01 0C 20 H @0:took:3" ∷ line "L 00 01 0C 10 H @0:dropped L 00 01 0C 01 H L 00 01 0C 04 H" ∷ line "@0:linked L 00 25 0C 02 H L 00 01 0C 20 H @0:took:1" ∷ []) (λ starts past. taken_in_all past 0) ≡ Some 4 }
    ensures got { after (connected ∷ line "@0:got:0102 L 00 25 0C 03 H L 00 01 0C 20 H @0:took:3" ∷ line "L 00 01 0C 10 H @0:dropped L 00 01 0C 01 H L 00 01 0C 04 H" ∷ line "@0:linked L 00 25 0C 02 H L 00 01 0C 20 H @0:got:07" ∷ []) (λ starts past. got_in_all starts past 0) ≡ Some 3 }
    ensures first_dropped { after (connected ∷ line "@0:got:0102 L 00 25 0C 03 H L 00 01 0C 20 H @0:took:3" ∷ line "L 00 01 0C 10 H @0:dropped L 00 01 0C 01 H L 00 01 0C 04 H" ∷ line "@0:linked L 00 25 0C 02 H L 00 01 0C 20 H" ∷ []) (λ starts past. is_dropped past 0 1) ≡ Some true }
    ensures second_dropped { after (connected ∷ line "@0:got:0102 L 00 25 0C 03 H L 00 01 0C 20 H @0:took:3" ∷ line "L 00 01 0C 10 H @0:dropped L 00 01 0C 01 H L 00 01 0C 04 H" ∷ line "@0:linked L 00 25 0C 02 H L 00 01 0C 20 H" ∷ []) (λ starts past. is_dropped past 0 2) ≡ Some false }
    ensures first_carried { after (connected ∷ line "@0:got:0102 L 00 25 0C 03 H L 00 01 0C 20 H @0:took:3" ∷ line "L 00 01 0C 10 H @0:dropped L 00 01 0C 01 H L 00 01 0C 04 H" ∷ line "@0:linked L 00 25 0C 02 H L 00 01 0C 20 H" ∷ []) (λ starts past. is_carried past 0 1) ≡ Some true }
    ensures second_carried { after (connected ∷ line "@0:got:0102 L 00 25 0C 03 H L 00 01 0C 20 H @0:took:3" ∷ line "L 00 01 0C 10 H @0:dropped L 00 01 0C 01 H L 00 01 0C 04 H" ∷ line "@0:linked L 00 25 0C 02 H L 00 01 0C 20 H" ∷ []) (λ starts past. is_carried past 0 2) ≡ Some false }
    ensures empty_datagram { after (opened_for_udp_7 ∷ line "@7:datagram:10.0.0.2:6000:" ∷ []) (λ starts past. is_carried past 7 1) ≡ Some true }
{}

/// The events of the bus with their answers, the oldest first; what links did is none of them.
pub fn exchanges_on_the_bus()
    ensures { after (line "L 39 ? H" ∷ []) (λ starts past. exchanges past) ≡ Some ((Select true, Done) ∷ (Byte 0x39, Out 0x00) ∷ (Look, Level true) ∷ (Select false, Done) ∷ []) }
{}
