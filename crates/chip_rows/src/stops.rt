//! Worked rows of what stops the board, and of the order in which it is looked at.
#![tactic(auto, unfolding(chip_sheet::specs::Frames::cut, chip_sheet::specs::Frames::current, chip_sheet::specs::CommonBlock::common_place, chip_sheet::specs::SocketBlock::socket_place, hex::specs::Hex::decode_pairs))]

ghost use Rattle.std.specs.Prelude.{[], ◌∷◌};
ghost use Rattle.chip_sheet.specs.declared.stop.ChipStop.TheVariants.{ReservedBlock, Pppoe, SendMac, RawEthernet};
ghost use Rattle.chip_rows.specs.Rows.{opened_7, connected_7, ◌prints◌, Prints, Stops};

/// A byte of a reserved block stops the board, read or written.
pub fn stops_a_reserved_block()
    ensures block_4 { Stops ("L 00 00 20 00" prints "00 00 00" ∷ []) (ReservedBlock 4) }
    ensures block_8 { Stops ("L 00 00 44 00" prints "00 00 00" ∷ []) (ReservedBlock 8) }
    ensures block_12 { Stops ("L 00 00 60 00" prints "00 00 00" ∷ []) (ReservedBlock 12) }
    ensures block_16 { Stops ("L 00 00 84 00" prints "00 00 00" ∷ []) (ReservedBlock 16) }
    ensures block_20 { Stops ("L 00 00 A0 00" prints "00 00 00" ∷ []) (ReservedBlock 20) }
    ensures block_24 { Stops ("L 00 00 C0 00" prints "00 00 00" ∷ []) (ReservedBlock 24) }
    ensures block_28 { Stops ("L 00 00 E4 00" prints "00 00 00" ∷ []) (ReservedBlock 28) }
{}

/// PPPoE stops the board, and not where bit 7 resets it.
pub fn stops_pppoe()
    ensures alone { Stops ("L 00 00 04 08" prints "00 00 00" ∷ []) Pppoe }
    ensures with_others { Stops ("L 00 00 04 7F" prints "00 00 00" ∷ []) Pppoe }
    ensures none { Prints ("L 00 00 04 88 H" prints "00 00 00 00" ∷ "L 00 00 04 77 H" prints "00 00 00 00" ∷ []) }
{}

/// SEND_MAC stops the board, in any status.
pub fn stops_send_mac()
    ensures closed { Stops ("L 00 01 0C 21" prints "00 00 00" ∷ []) (SendMac 0) }
    ensures established { Stops (connected_7 ∷ "L 00 01 EC 21" prints "00 00 00" ∷ []) (SendMac 7) }
{}

/// Raw Ethernet frames stop the board at OPEN, in CLOSED alone, and before the sizes are looked at.
pub fn stops_raw_ethernet()
    ensures at_open { Stops ("L 00 00 EC 04 H L 00 01 EC 01" prints "00 00 00 00 00 00 00" ∷ []) (RawEthernet 7) }
    ensures upper_bits { Stops ("L 00 00 EC 84 H L 00 01 EC 01" prints "00 00 00 00 00 00 00" ∷ []) (RawEthernet 7) }
    ensures before_sizes { Stops ("L 00 1F 0C 03 H L 00 00 0C 04 H L 00 01 0C 01" prints "00 00 00 00 00 00 00 00 00 00 00" ∷ []) (RawEthernet 0) }
    ensures not_in_init { Prints (
        opened_7
        ∷ "L 00 00 EC 04 H L 00 01 EC 01 H L 00 03 E8 00 H" prints "00 00 00 00 00 00 00 00 00 00 00 13"
        ∷ []) }
{}

/// A byte that stops the board has no answer, and what stands behind it does not run.
pub fn ends_at_a_stop()
    ensures { Stops ("L 00 01 04 09 H L 00 00 04 08 H L 00 00 00 00" prints "00 00 00 00 00 00 00" ∷ []) Pppoe }
{}
