//! Echo servers by scripts: whole lives of a socket.
#![tactic(auto, unfolding(chip_sheet::specs::Frames::cut, chip_sheet::specs::Frames::current, chip_sheet::specs::CommonBlock::common_place, chip_sheet::specs::SocketBlock::socket_place, hex::specs::Hex::decode_pairs))]

ghost use Rattle.std.specs.Prelude.{[], ◌∷◌};
ghost use Rattle.chip_rows.specs.Rows.{◌prints◌, Prints};

/// An echo server on socket 0, in the order of calls of WIZnet's ioLibrary.
pub fn echoes()
    ensures { Prints (
        "L 00 00 04 80 H" prints "00 00 00 00"
        ∷ "L 00 02 0C FF H L 00 03 08 00 H" prints "00 00 00 00 00 00 00 00"
        ∷ "L 00 00 0C 01 H L 00 04 0C 13 88 H" prints "00 00 00 00 00 00 00 00 00"
        ∷ "L 00 01 0C 01 H L 00 03 08 00 H" prints "00 00 00 00 00 00 00 13"
        ∷ "L 00 01 0C 02 H L 00 03 08 00 H" prints "00 00 00 00 00 00 00 14"
        ∷ "@0:accepted:10.0.0.2:40000 L 00 03 08 00 H" prints "00 00 00 17"
        ∷ "L 00 02 08 00 H L 00 02 0C 01 H" prints "00 00 00 01 00 00 00 00"
        ∷ "@0:got:48656C6C6F L 00 26 08 00 00 H" prints "00 00 00 00 05"
        ∷ "L 00 00 18 00 00 00 00 00 H" prints "00 00 00 48 65 6C 6C 6F"
        ∷ "L 00 28 0C 00 05 H L 00 01 0C 40 H" prints "00 00 00 00 00 00 00 00 00"
        ∷ "L 00 20 08 00 00 H" prints "00 00 00 08 00"
        ∷ "L 00 00 14 48 65 6C 6C 6F H" prints "00 00 00 00 00 00 00 00"
        ∷ "L 00 24 0C 00 05 H L 00 01 0C 20 H" prints "00 00 00 00 00 00 00 00 00"
        ∷ "L 00 02 08 00 H @0:took:5 L 00 02 08 00 H" prints "00 00 00 04 00 00 00 14"
        ∷ "L 00 02 0C 10 H L 00 01 0C 08 H" prints "00 00 00 00 00 00 00 00"
        ∷ "@0:shut @0:ended L 00 02 08 00 00 H" prints "00 00 00 06 00"
        ∷ []) }
{}

/// The same on socket 7, where the positions wrap from 65,535 to 0 within what is received and what is sent.
pub fn echoes_on_socket_7()
    ensures { Prints (
        "start 65533 65534" prints ""
        ∷ "L 00 00 04 80 H" prints "00 00 00 00"
        ∷ "L 00 02 EC FF H L 00 03 E8 00 H" prints "00 00 00 00 00 00 00 00"
        ∷ "L 00 00 EC 01 H L 00 04 EC 13 88 H" prints "00 00 00 00 00 00 00 00 00"
        ∷ "L 00 01 EC 01 H L 00 03 E8 00 H" prints "00 00 00 00 00 00 00 13"
        ∷ "L 00 01 EC 02 H L 00 03 E8 00 H" prints "00 00 00 00 00 00 00 14"
        ∷ "@7:accepted:10.0.0.2:40000 L 00 03 E8 00 H" prints "00 00 00 17"
        ∷ "L 00 02 E8 00 H L 00 02 EC 01 H" prints "00 00 00 01 00 00 00 00"
        ∷ "@7:got:48656C6C6F L 00 26 E8 00 00 H" prints "00 00 00 00 05"
        ∷ "L FF FE F8 00 00 00 00 00 H" prints "00 00 00 48 65 6C 6C 6F"
        ∷ "L 00 28 EC 00 03 H L 00 01 EC 40 H" prints "00 00 00 00 00 00 00 00 00"
        ∷ "L 00 20 E8 00 00 H" prints "00 00 00 08 00"
        ∷ "L FF FD F4 48 65 6C 6C 6F H" prints "00 00 00 00 00 00 00 00"
        ∷ "L 00 24 EC 00 02 H L 00 01 EC 20 H" prints "00 00 00 00 00 00 00 00 00"
        ∷ "L 00 02 E8 00 H @7:took:5 L 00 02 E8 00 H" prints "00 00 00 04 00 00 00 14"
        ∷ "L 00 02 EC 10 H L 00 01 EC 08 H" prints "00 00 00 00 00 00 00 00"
        ∷ "@7:shut @7:ended L 00 02 E8 00 00 H" prints "00 00 00 06 00"
        ∷ []) }
{}
