//! Worked rows of the interrupt registers and of INTn.
#![tactic(auto, unfolding(chip_sheet::specs::Frames::cut, chip_sheet::specs::Frames::current, chip_sheet::specs::CommonBlock::common_place, chip_sheet::specs::SocketBlock::socket_place, hex::specs::Hex::decode_pairs))]

ghost use Rattle.std.specs.Prelude.{[], ◌∷◌};
ghost use Rattle.chip_rows.specs.Rows.{connected, connected_7, ◌prints◌, Prints};

/// INTn is low while a raised bit is 1 in the socket's mask and the socket's bit is 1 in SIMR. A bit that Sn_IMR masks is raised,
/// and SIR does not show it.
pub fn lowers_the_line()
    ensures raised { Prints (
        connected
        ∷ "L 00 17 00 00 H ?" prints "00 00 00 01 1"
        ∷ "L 00 18 04 01 H ?" prints "00 00 00 00 0"
        ∷ "L 00 02 0C 01 H ?" prints "00 00 00 00 1"
        ∷ []) }
    ensures masked { Prints (
        connected
        ∷ "L 00 18 04 FF H L 00 2C 0C FE H L 00 17 00 00 H ?" prints "00 00 00 00 00 00 00 00 00 00 00 00 1"
        ∷ "L 00 02 08 00 H" prints "00 00 00 01"
        ∷ "L 00 2C 0C FF H L 00 17 00 00 H ?" prints "00 00 00 00 00 00 00 01 0"
        ∷ []) }
{}

/// Each socket has its bit in SIR, which is 0 again once its interrupt is cleared.
pub fn shows_each_socket()
    ensures { Prints (
        "L 00 00 0C 01 H L 00 01 0C 01 H L 00 01 0C 04 H @0:timedout" prints "00 00 00 00 00 00 00 00 00 00 00 00"
        ∷ "L 00 17 00 00 H" prints "00 00 00 01"
        ∷ "L 00 00 2C 01 H L 00 01 2C 01 H L 00 01 2C 04 H @1:timedout" prints "00 00 00 00 00 00 00 00 00 00 00 00"
        ∷ "L 00 17 00 00 H" prints "00 00 00 03"
        ∷ "L 00 00 4C 01 H L 00 01 4C 01 H L 00 01 4C 04 H @2:timedout" prints "00 00 00 00 00 00 00 00 00 00 00 00"
        ∷ "L 00 17 00 00 H" prints "00 00 00 07"
        ∷ "L 00 00 6C 01 H L 00 01 6C 01 H L 00 01 6C 04 H @3:timedout" prints "00 00 00 00 00 00 00 00 00 00 00 00"
        ∷ "L 00 17 00 00 H" prints "00 00 00 0F"
        ∷ "L 00 00 8C 01 H L 00 01 8C 01 H L 00 01 8C 04 H @4:timedout" prints "00 00 00 00 00 00 00 00 00 00 00 00"
        ∷ "L 00 17 00 00 H" prints "00 00 00 1F"
        ∷ "L 00 00 AC 01 H L 00 01 AC 01 H L 00 01 AC 04 H @5:timedout" prints "00 00 00 00 00 00 00 00 00 00 00 00"
        ∷ "L 00 17 00 00 H" prints "00 00 00 3F"
        ∷ "L 00 00 CC 01 H L 00 01 CC 01 H L 00 01 CC 04 H @6:timedout" prints "00 00 00 00 00 00 00 00 00 00 00 00"
        ∷ "L 00 17 00 00 H" prints "00 00 00 7F"
        ∷ "L 00 00 EC 01 H L 00 01 EC 01 H L 00 01 EC 04 H @7:timedout" prints "00 00 00 00 00 00 00 00 00 00 00 00"
        ∷ "L 00 17 00 00 H" prints "00 00 00 FF"
        ∷ "L 00 02 0C 08 H L 00 17 00 00 H" prints "00 00 00 00 00 00 00 FE"
        ∷ "L 00 02 2C 08 H L 00 17 00 00 H" prints "00 00 00 00 00 00 00 FC"
        ∷ "L 00 02 4C 08 H L 00 17 00 00 H" prints "00 00 00 00 00 00 00 F8"
        ∷ "L 00 02 6C 08 H L 00 17 00 00 H" prints "00 00 00 00 00 00 00 F0"
        ∷ "L 00 02 8C 08 H L 00 17 00 00 H" prints "00 00 00 00 00 00 00 E0"
        ∷ "L 00 02 AC 08 H L 00 17 00 00 H" prints "00 00 00 00 00 00 00 C0"
        ∷ "L 00 02 CC 08 H L 00 17 00 00 H" prints "00 00 00 00 00 00 00 80"
        ∷ "L 00 02 EC 08 H L 00 17 00 00 H" prints "00 00 00 00 00 00 00 00"
        ∷ []) }
{}

/// Each bit of SIMR lets its socket lower INTn, here where all eight ask; and no other does, here where socket 7 alone asks.
pub fn lowers_for_each_socket()
    ensures each { Prints (
        "L 00 00 0C 01 H L 00 01 0C 01 H L 00 01 0C 04 H @0:timedout" prints "00 00 00 00 00 00 00 00 00 00 00 00"
        ∷ "L 00 00 2C 01 H L 00 01 2C 01 H L 00 01 2C 04 H @1:timedout" prints "00 00 00 00 00 00 00 00 00 00 00 00"
        ∷ "L 00 00 4C 01 H L 00 01 4C 01 H L 00 01 4C 04 H @2:timedout" prints "00 00 00 00 00 00 00 00 00 00 00 00"
        ∷ "L 00 00 6C 01 H L 00 01 6C 01 H L 00 01 6C 04 H @3:timedout" prints "00 00 00 00 00 00 00 00 00 00 00 00"
        ∷ "L 00 00 8C 01 H L 00 01 8C 01 H L 00 01 8C 04 H @4:timedout" prints "00 00 00 00 00 00 00 00 00 00 00 00"
        ∷ "L 00 00 AC 01 H L 00 01 AC 01 H L 00 01 AC 04 H @5:timedout" prints "00 00 00 00 00 00 00 00 00 00 00 00"
        ∷ "L 00 00 CC 01 H L 00 01 CC 01 H L 00 01 CC 04 H @6:timedout" prints "00 00 00 00 00 00 00 00 00 00 00 00"
        ∷ "L 00 00 EC 01 H L 00 01 EC 01 H L 00 01 EC 04 H @7:timedout" prints "00 00 00 00 00 00 00 00 00 00 00 00"
        ∷ "?" prints "1"
        ∷ "L 00 18 04 01 H ?" prints "00 00 00 00 0"
        ∷ "L 00 18 04 02 H ?" prints "00 00 00 00 0"
        ∷ "L 00 18 04 04 H ?" prints "00 00 00 00 0"
        ∷ "L 00 18 04 08 H ?" prints "00 00 00 00 0"
        ∷ "L 00 18 04 10 H ?" prints "00 00 00 00 0"
        ∷ "L 00 18 04 20 H ?" prints "00 00 00 00 0"
        ∷ "L 00 18 04 40 H ?" prints "00 00 00 00 0"
        ∷ "L 00 18 04 80 H ?" prints "00 00 00 00 0"
        ∷ "L 00 02 0C 08 H L 00 02 2C 08 H L 00 02 4C 08 H L 00 02 6C 08 H" prints "00 00 00 00 00 00 00 00 00 00 00 00 00 00 00 00"
        ∷ "L 00 02 8C 08 H L 00 02 AC 08 H L 00 02 CC 08 H" prints "00 00 00 00 00 00 00 00 00 00 00 00"
        ∷ "? L 00 18 04 7F H ? L 00 18 04 FF H ?" prints "0 00 00 00 00 1 00 00 00 00 0"
        ∷ []) }
    ensures last { Prints (
        "L 00 00 EC 01 H L 00 01 EC 01 H L 00 01 EC 04 H @7:timedout" prints "00 00 00 00 00 00 00 00 00 00 00 00"
        ∷ "L 00 17 00 00 H ?" prints "00 00 00 80 1"
        ∷ "L 00 18 04 7F H ? L 00 18 04 80 H ?" prints "00 00 00 00 1 00 00 00 00 0"
        ∷ "L 00 00 04 80 H ? L 00 17 00 00 00 H" prints "00 00 00 00 1 00 00 00 00 00"
        ∷ []) }
{}

/// The five bits of Sn_IR: each is masked by its own bit of Sn_IMR, and each is cleared by a 1, the others stay. The bits above
/// them are none.
pub fn has_five_bits()
    ensures { Prints (
        connected_7
        ∷ "L 00 02 E8 00 H @7:got:00 L 00 02 E8 00 H L 00 01 EC 20 H" prints "00 00 00 01 00 00 00 05 00 00 00 00"
        ∷ "L 00 02 E8 00 H" prints "00 00 00 15"
        ∷ "L 00 25 EC 01 H L 00 01 EC 20 H @7:ended L 00 02 E8 00 H @7:failed" prints "00 00 00 00 00 00 00 00 00 00 00 17"
        ∷ "L 00 02 E8 00 00 H" prints "00 00 00 1F 00"
        ∷ "L 00 2C EC 01 H L 00 17 00 00 H L 00 2C EC 02 H L 00 17 00 00 H" prints "00 00 00 00 00 00 00 80 00 00 00 00 00 00 00 80"
        ∷ "L 00 2C EC 04 H L 00 17 00 00 H L 00 2C EC 08 H L 00 17 00 00 H" prints "00 00 00 00 00 00 00 80 00 00 00 00 00 00 00 80"
        ∷ "L 00 2C EC 10 H L 00 17 00 00 H L 00 2C EC E0 H L 00 17 00 00 H" prints "00 00 00 00 00 00 00 80 00 00 00 00 00 00 00 00"
        ∷ "L 00 2C EC FF H" prints "00 00 00 00"
        ∷ "L 00 02 EC 00 H L 00 02 E8 00 H L 00 02 EC E0 H L 00 02 E8 00 H" prints "00 00 00 00 00 00 00 1F 00 00 00 00 00 00 00 1F"
        ∷ "L 00 02 EC 01 H L 00 02 E8 00 H L 00 02 EC 02 H L 00 02 E8 00 H" prints "00 00 00 00 00 00 00 1E 00 00 00 00 00 00 00 1C"
        ∷ "L 00 02 EC 04 H L 00 02 E8 00 H" prints "00 00 00 00 00 00 00 18"
        ∷ "L 00 17 00 00 H L 00 02 EC 08 H L 00 02 E8 00 H L 00 02 EC 10 H" prints "00 00 00 80 00 00 00 00 00 00 00 10 00 00 00 00"
        ∷ "L 00 02 E8 00 H L 00 17 00 00 H" prints "00 00 00 00 00 00 00 00"
        ∷ []) }
{}

/// The bits outlive the life: a new one does not clear them.
pub fn keeps_bits_over_lives()
    ensures { Prints (
        "L 00 00 0C 01 H L 00 01 0C 01 H L 00 01 0C 04 H @0:timedout" prints "00 00 00 00 00 00 00 00 00 00 00 00"
        ∷ "L 00 17 00 00 H" prints "00 00 00 01"
        ∷ "@0:dropped L 00 01 0C 01 H L 00 02 08 00 00 H L 00 17 00 00 H" prints "00 00 00 00 00 00 00 08 13 00 00 00 01"
        ∷ []) }
{}
