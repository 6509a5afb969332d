//! Worked rows of a socket's registers.
#![tactic(auto, unfolding(chip_sheet::specs::Frames::cut, chip_sheet::specs::Frames::current, chip_sheet::specs::CommonBlock::common_place, chip_sheet::specs::SocketBlock::socket_place, hex::specs::Hex::decode_pairs))]

ghost use Rattle.std.specs.Prelude.{[], ◌∷◌};
ghost use Rattle.chip_rows.specs.Rows.{opened, opened_7, ◌prints◌, Prints};

/// The whole register block of socket 0 and of socket 7 after power-on, and the reserved place behind it.
pub fn powers_on_a_socket()
    ensures first { Prints (
        "L 00 00 08 00 00 00 00 00 00 00 00 00 00 00 00 00 00 00 00 00 00 00 00 00 00 00 00 H" prints "00 00 00 00 00 00 00 00 00 FF FF FF FF FF FF 00 00 00 00 00 00 00 00 00 00 80 00"
        ∷ "L 00 18 08 00 00 00 00 00 00 00 00 00 00 00 00 00 00 00 00 00 00 00 00 00 00 00 00 00 H" prints "00 00 00 00 00 00 00 00 00 02 02 08 00 00 00 00 00 00 00 00 00 00 00 FF 40 00 00 00"
        ∷ []) }
    ensures last { Prints (
        "L 00 00 E8 00 00 00 00 00 00 00 00 00 00 00 00 00 00 00 00 00 00 00 00 00 00 00 00 H" prints "00 00 00 00 00 00 00 00 00 FF FF FF FF FF FF 00 00 00 00 00 00 00 00 00 00 80 00"
        ∷ "L 00 18 E8 00 00 00 00 00 00 00 00 00 00 00 00 00 00 00 00 00 00 00 00 00 00 00 00 00 H" prints "00 00 00 00 00 00 00 00 00 02 02 08 00 00 00 00 00 00 00 00 00 00 00 FF 40 00 00 00"
        ∷ []) }
{}

/// What is written to the whole block of socket 7: the stored places keep it. TX sizes of 18 KB together are no sizes.
/// A reset restores each place.
pub fn keeps_the_socket_block()
    ensures { Prints (
        "L 00 00 EC B0 22 33 34 35 36 37 38 39 3A 3B 3C 3D 3E 3F 40 41 42 43 44 45 46 47 48 H" prints "00 00 00 00 00 00 00 00 00 00 00 00 00 00 00 00 00 00 00 00 00 00 00 00 00 00 00"
        ∷ "L 00 18 EC 49 4A 4B 4C 4D 4E 01 04 51 52 53 54 55 56 57 58 59 5A 5B 5C 5D 5E 5F 60 H" prints "00 00 00 00 00 00 00 00 00 00 00 00 00 00 00 00 00 00 00 00 00 00 00 00 00 00 00"
        ∷ "L 00 00 E8 00 00 00 00 00 00 00 00 00 00 00 00 00 00 00 00 00 00 00 00 00 00 00 00 H" prints "00 00 00 B0 00 00 00 35 36 37 38 39 3A 3B 3C 3D 3E 3F 40 41 42 43 44 00 46 47 00"
        ∷ "L 00 18 E8 00 00 00 00 00 00 00 00 00 00 00 00 00 00 00 00 00 00 00 00 00 00 00 00 H" prints "00 00 00 00 00 00 00 00 00 01 04 00 00 00 00 55 56 00 00 59 5A 00 00 5D 5E 5F 60"
        ∷ "L 00 1F EC 01 H" prints "00 00 00 00"
        ∷ "L 00 00 E8 00 00 00 00 00 00 00 00 00 00 00 00 00 00 00 00 00 00 00 00 00 00 00 00 H" prints "00 00 00 B0 00 00 00 35 36 37 38 39 3A 3B 3C 3D 3E 3F 40 41 42 43 44 00 46 47 00"
        ∷ "L 00 18 E8 00 00 00 00 00 00 00 00 00 00 00 00 00 00 00 00 00 00 00 00 00 00 00 00 H" prints "00 00 00 00 00 00 00 00 00 01 01 04 00 00 00 55 56 00 00 59 5A 00 00 5D 5E 5F 60"
        ∷ "L 00 00 04 80 H" prints "00 00 00 00"
        ∷ "L 00 00 E8 00 00 00 00 00 00 00 00 00 00 00 00 00 00 00 00 00 00 00 00 00 00 00 00 H" prints "00 00 00 00 00 00 00 00 00 FF FF FF FF FF FF 00 00 00 00 00 00 00 00 00 00 80 00"
        ∷ "L 00 18 E8 00 00 00 00 00 00 00 00 00 00 00 00 00 00 00 00 00 00 00 00 00 00 00 00 H" prints "00 00 00 00 00 00 00 00 00 02 02 08 00 00 00 00 00 00 00 00 00 00 00 FF 40 00 00"
        ∷ []) }
{}

/// A reset of the chip while socket 7 is connected, with bytes in flight and unread ones: each register reads what it reads
/// after power-on, INTn is high, and the life is to be dropped.
pub fn resets_a_connection()
    ensures { Prints (
        "start 513 1027" prints ""
        ∷ "L 00 00 EC 01 H L 00 04 EC 13 88 H L 00 01 EC 01 H L 00 01 EC 02 H" prints "00 00 00 00 00 00 00 00 00 00 00 00 00 00 00 00 00"
        ∷ "@7:accepted:10.0.0.2:40000" prints ""
        ∷ "@7:got:0102 L 00 01 EC 20 H L 02 01 F4 61 62 63 H" prints "00 00 00 00 00 00 00 00 00 00"
        ∷ "L 00 24 EC 02 04 H L 00 01 EC 20 H L 00 25 EC 05 H L 00 18 04 80 H" prints "00 00 00 00 00 00 00 00 00 00 00 00 00 00 00 00 00"
        ∷ "?" prints "0"
        ∷ "L 00 00 E8 00 00 00 00 00 00 00 00 00 00 00 00 00 00 00 00 00 00 00 00 00 00 00 00 H" prints "00 00 00 01 00 15 17 13 88 FF FF FF FF FF FF 0A 00 00 02 9C 40 00 00 00 00 80 00"
        ∷ "L 00 18 E8 00 00 00 00 00 00 00 00 00 00 00 00 00 00 00 00 00 00 00 00 00 00 00 00 H" prints "00 00 00 00 00 00 00 00 00 02 02 07 FD 02 04 02 05 00 02 04 03 04 05 FF 40 00 00"
        ∷ "L 02 01 F0 00 00 00 H L 04 03 F8 00 00 H" prints "00 00 00 61 62 63 00 00 00 01 02"
        ∷ "L 00 00 04 80 H ? L 00 17 00 00 00 H" prints "00 00 00 00 1 00 00 00 00 00"
        ∷ "L 00 00 E8 00 00 00 00 00 00 00 00 00 00 00 00 00 00 00 00 00 00 00 00 00 00 00 00 H" prints "00 00 00 00 00 00 00 00 00 FF FF FF FF FF FF 00 00 00 00 00 00 00 00 00 00 80 00"
        ∷ "L 00 18 E8 00 00 00 00 00 00 00 00 00 00 00 00 00 00 00 00 00 00 00 00 00 00 00 00 H" prints "00 00 00 00 00 00 00 00 00 02 02 08 00 00 00 00 00 00 00 00 00 00 00 FF 40 00 00"
        ∷ "L 02 01 F0 00 00 00 H L 04 03 F8 00 00 H" prints "00 00 00 00 00 00 00 00 00 00 00"
        ∷ "@7:dropped" prints ""
        ∷ []) }
{}

/// An accepted peer's address shows in Sn_DIPR and Sn_DPORT, also in place of what was written; that of a connection that
/// this side made stays as it was written.
pub fn shows_the_peer()
    ensures accepted { Prints (
        opened
        ∷ "L 00 0C 0C 01 02 03 04 05 06 H L 00 01 0C 02 H" prints "00 00 00 00 00 00 00 00 00 00 00 00 00"
        ∷ "L 00 0C 08 00 00 00 00 00 00 H" prints "00 00 00 01 02 03 04 05 06"
        ∷ "@0:accepted:10.0.0.2:40000 L 00 0C 08 00 00 00 00 00 00 H" prints "00 00 00 0A 00 00 02 9C 40"
        ∷ []) }
    ensures made { Prints (
        opened_7
        ∷ "L 00 0C EC 01 02 03 04 05 06 H L 00 01 EC 04 H" prints "00 00 00 00 00 00 00 00 00 00 00 00 00"
        ∷ "@7:linked L 00 0C E8 00 00 00 00 00 00 H" prints "00 00 00 01 02 03 04 05 06"
        ∷ []) }
{}

/// A write after the peer was accepted shows in place of its byte of the address, here on socket 7; socket 6 keeps its own.
pub fn writes_over_the_peer()
    ensures { Prints (
        opened_7
        ∷ "L 00 01 EC 02 H @7:accepted:10.0.0.2:40000 L 00 0D EC 07 H" prints "00 00 00 00 00 00 00 00"
        ∷ "L 00 0C E8 00 00 00 00 00 00 H L 00 0C C8 00 00 00 00 00 00 H" prints "00 00 00 0A 07 00 02 9C 40 00 00 00 00 00 00 00 00 00"
        ∷ []) }
{}

/// OPEN makes the pointers 0, the making of a connection makes them the starts, and they stay when the life closes.
pub fn opens_with_clear_pointers()
    ensures { Prints (
        "start 258 772" prints ""
        ∷ "L 00 24 EC 09 09 H L 00 28 EC 09 09 H L 00 22 E8 00 00 00 00 H" prints "00 00 00 00 00 00 00 00 00 00 00 00 00 00 00 09 09"
        ∷ "L 00 28 E8 00 00 00 00 H" prints "00 00 00 09 09 00 00"
        ∷ opened_7
        ∷ "L 00 22 E8 00 00 00 00 H L 00 28 E8 00 00 00 00 H" prints "00 00 00 00 00 00 00 00 00 00 00 00 00 00"
        ∷ "L 00 01 EC 04 H L 00 24 EC 08 08 H @7:linked" prints "00 00 00 00 00 00 00 00 00"
        ∷ "L 00 22 E8 00 00 00 00 H L 00 28 E8 00 00 00 00 H" prints "00 00 00 01 02 01 02 00 00 00 03 04 03 04"
        ∷ "@7:got:00 L 00 01 EC 10 H L 00 22 E8 00 00 00 00 H" prints "00 00 00 00 00 00 00 01 02 01 02"
        ∷ "L 00 28 E8 00 00 00 00 H" prints "00 00 00 03 04 03 05"
        ∷ "L 00 01 EC 01 H L 00 22 E8 00 00 00 00 H L 00 28 E8 00 00 00 00 H" prints "00 00 00 00 00 00 00 00 00 00 00 00 00 00 00 00 00 00"
        ∷ "@7:dropped L 00 01 EC 04 H @7:linked L 00 22 E8 00 00 00 00 H" prints "00 00 00 00 00 00 00 01 02 01 02"
        ∷ "L 00 28 E8 00 00 00 00 H" prints "00 00 00 03 04 03 04"
        ∷ []) }
{}
