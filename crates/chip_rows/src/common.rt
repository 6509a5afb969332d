//! Worked rows of frames and of the common block.
#![tactic(auto, unfolding(chip_sheet::specs::Frames::cut, chip_sheet::specs::Frames::current, chip_sheet::specs::CommonBlock::common_place, chip_sheet::specs::SocketBlock::socket_place, hex::specs::Hex::decode_pairs))]

ghost use Rattle.std.specs.Prelude.{[], ◌∷◌};
ghost use Rattle.chip_rows.specs.Rows.{◌prints◌, Prints};

/// The version register, read in one frame of variable length; INTn is high.
pub fn reads_the_version()
    ensures { Prints ("L 00 39 00 00 H ?" prints "00 00 00 04 1" ∷ []) }
{}

/// A byte while the select line is high is answered FF and begins no frame.
pub fn ignores_a_byte_while_the_line_is_high()
    ensures { Prints ("00 L 00 39 00 00 H" prints "FF 00 00 00 04" ∷ []) }
{}

/// RTR reads its reset value, high byte first, and then what was written to it.
pub fn writes_two_bytes()
    ensures { Prints (
        "L 00 19 00 00 00 H" prints "00 00 00 07 D0"
        ∷ "L 00 19 04 03 E8 H" prints "00 00 00 00 00"
        ∷ "L 00 19 00 00 00 H" prints "00 00 00 03 E8"
        ∷ []) }
{}

/// Two frames of one data byte each under one select; selecting again what is selected changes nothing.
pub fn cuts_fixed_frames()
    ensures { Prints ("L 00 39 L 01 00 00 1B 01 00 H" prints "00 00 00 04 00 00 00 08" ∷ []) }
{}

/// Frames of two and of four data bytes, and one of variable length behind them.
pub fn cuts_longer_frames()
    ensures { Prints ("L 00 19 02 00 00 00 25 03 00 00 00 00 00 39 00 00 00 H" prints "00 00 00 07 D0 00 00 00 00 FF FF 00 00 00 00 04 00" ∷ []) }
{}

/// A frame ends where the line rises, however short it is, and the next begins where it falls. Looks stand between the bytes of a
/// frame.
pub fn begins_a_frame_anew()
    ensures short { Prints (
        "L 00 39 H L 00 39 00 H L 00 H" prints "00 00 00 00 00 00"
        ∷ "L 00 19 00 00 H" prints "00 00 00 07"
        ∷ []) }
    ensures looks { Prints ("L 00 ? 39 00 ? 00 ? H" prints "00 1 00 00 1 04 1" ∷ []) }
{}

/// The offset address wraps from FFFF to 0000, and the byte there is written: MR reads it back.
pub fn wraps_the_offset()
    ensures { Prints ("L FF FF 06 AA 55 00 00 01 00 H" prints "00 00 00 00 00 00 00 00 55" ∷ []) }
{}

/// A reset in the middle of a frame: the frame goes on and writes GAR, whose earlier byte is gone.
pub fn resets_in_a_frame()
    ensures { Prints (
        "L 00 02 04 0A H" prints "00 00 00 00"
        ∷ "L 00 00 04 80 0B H" prints "00 00 00 00 00"
        ∷ "L 00 00 00 00 00 00 H" prints "00 00 00 00 0B 00"
        ∷ []) }
{}

/// PHYCFGR keeps bits 7..3 and shows a link; VERSIONR keeps nothing. MR keeps bits 6..0, and a write with bit 7 resets and keeps
/// nothing, PPPoE too.
pub fn keeps_some_bits()
    ensures { Prints (
        "L 00 2E 05 42 00 39 05 42 00 2E 01 00 00 39 01 00 H" prints "00 00 00 00 00 00 00 00 00 00 00 47 00 00 00 04"
        ∷ "L 00 00 04 77 H" prints "00 00 00 00"
        ∷ "L 00 00 00 00 H" prints "00 00 00 77"
        ∷ "L 00 00 04 88 H L 00 00 00 00 H" prints "00 00 00 00 00 00 00 00"
        ∷ []) }
{}

/// The whole common block after power-on, and the reserved place behind it.
pub fn powers_on()
    ensures { Prints (
        "L 00 00 00 00 00 00 00 00 00 00 00 00 00 00 00 00 00 00 00 00 00 00 00 00 00 00 00 00 00 00 00 00 00 H" prints "00 00 00 00 00 00 00 00 00 00 00 00 00 00 00 00 00 00 00 00 00 00 00 00 00 00 00 00 07 D0 08 28 00"
        ∷ "L 00 1E 00 00 00 00 00 00 00 00 00 00 00 00 00 00 00 00 00 00 00 00 00 00 00 00 00 00 00 00 00 00 H" prints "00 00 00 00 00 00 00 00 00 00 00 FF FF 00 00 00 00 00 00 BF 00 00 00 00 00 00 00 00 00 00 04 00"
        ∷ []) }
{}

/// What is written to the whole common block but MR: the stored places keep it. A reset restores each of them.
pub fn keeps_the_common_block()
    ensures { Prints (
        "L 00 01 04 11 12 13 14 15 16 17 18 19 1A 1B 1C 1D 1E 1F 20 21 22 23 24 25 26 27 28 29 2A 2B 2C 2D H" prints "00 00 00 00 00 00 00 00 00 00 00 00 00 00 00 00 00 00 00 00 00 00 00 00 00 00 00 00 00 00 00 00"
        ∷ "L 00 1E 04 2E 2F 30 31 32 33 34 35 36 37 38 39 3A 3B 3C 3D 3E 3F 40 41 42 43 44 45 46 47 48 49 H" prints "00 00 00 00 00 00 00 00 00 00 00 00 00 00 00 00 00 00 00 00 00 00 00 00 00 00 00 00 00 00 00"
        ∷ "L 00 01 00 00 00 00 00 00 00 00 00 00 00 00 00 00 00 00 00 00 00 00 00 00 00 00 00 00 00 00 00 00 H" prints "00 00 00 11 12 13 14 15 16 17 18 19 1A 1B 1C 1D 1E 1F 20 21 22 23 24 00 26 00 28 29 2A 2B 2C 2D"
        ∷ "L 00 1E 00 00 00 00 00 00 00 00 00 00 00 00 00 00 00 00 00 00 00 00 00 00 00 00 00 00 00 00 00 H" prints "00 00 00 2E 2F 30 31 32 33 34 35 36 37 00 00 00 00 00 00 3F 00 00 00 00 00 00 00 00 00 00 04"
        ∷ "L 00 00 04 80 H" prints "00 00 00 00"
        ∷ "L 00 00 00 00 00 00 00 00 00 00 00 00 00 00 00 00 00 00 00 00 00 00 00 00 00 00 00 00 00 00 00 00 00 H" prints "00 00 00 00 00 00 00 00 00 00 00 00 00 00 00 00 00 00 00 00 00 00 00 00 00 00 00 00 07 D0 08 28 00"
        ∷ "L 00 1E 00 00 00 00 00 00 00 00 00 00 00 00 00 00 00 00 00 00 00 00 00 00 00 00 00 00 00 00 00 00 H" prints "00 00 00 00 00 00 00 00 00 00 00 FF FF 00 00 00 00 00 00 BF 00 00 00 00 00 00 00 00 00 00 04 00"
        ∷ []) }
{}
