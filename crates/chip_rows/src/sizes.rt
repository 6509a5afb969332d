//! Worked rows of the sizes of the buffers.
#![tactic(auto, unfolding(chip_sheet::specs::Frames::cut, chip_sheet::specs::Frames::current, chip_sheet::specs::CommonBlock::common_place, chip_sheet::specs::SocketBlock::socket_place, hex::specs::Hex::decode_pairs))]

ghost use Rattle.std.specs.Prelude.{[], ◌∷◌};
ghost use Rattle.chip_sheet.specs.declared.stop.ChipStop.TheVariants.{SizeWhileOpen, BadBufferSize};
ghost use Rattle.chip_rows.specs.Rows.{opened, connected, connected_7, ◌prints◌, Prints, Stops};

/// A size that changes while all sockets are closed clears the buffers of its direction.
pub fn resizing_clears()
    ensures { Prints (
        "L 00 00 14 55 H L 00 00 F4 77 H L 00 1F 0C 01 H L 00 00 10 00 H" prints "00 00 00 00 00 00 00 00 00 00 00 00 00 00 00 00"
        ∷ "L 00 00 F0 00 H" prints "00 00 00 00"
        ∷ "L 00 00 14 66 H L 00 1E 0C 01 H L 00 1F 0C 01 H L 00 00 10 00 H" prints "00 00 00 00 00 00 00 00 00 00 00 00 00 00 00 66"
        ∷ []) }
{}

/// The sizes are 0, 1, 2, 4, 8 and 16 KB, of one socket while the others have none; others are no sizes.
pub fn has_six_sizes()
    ensures { Prints (
        "L 00 1F 0C 00 H L 00 1F 2C 00 H L 00 1F 4C 00 H L 00 1F 6C 00 H" prints "00 00 00 00 00 00 00 00 00 00 00 00 00 00 00 00"
        ∷ "L 00 1F 8C 00 H L 00 1F AC 00 H L 00 1F CC 00 H" prints "00 00 00 00 00 00 00 00 00 00 00 00"
        ∷ "L 00 1F EC 00 H L 00 20 E8 00 00 H L 00 1F EC 01 H" prints "00 00 00 00 00 00 00 00 00 00 00 00 00"
        ∷ "L 00 20 E8 00 00 H L 00 1F EC 02 H L 00 20 E8 00 00 H" prints "00 00 00 04 00 00 00 00 00 00 00 00 08 00"
        ∷ "L 00 1F EC 04 H L 00 20 E8 00 00 H L 00 1F EC 08 H" prints "00 00 00 00 00 00 00 10 00 00 00 00 00"
        ∷ "L 00 20 E8 00 00 H L 00 1F EC 10 H L 00 20 E8 00 00 H" prints "00 00 00 20 00 00 00 00 00 00 00 00 40 00"
        ∷ "L 00 1F EC 03 H L 00 20 E8 00 00 H L 00 1F EC 20 H" prints "00 00 00 00 00 00 00 00 00 00 00 00 00"
        ∷ "L 00 20 E8 00 00 H L 00 1F EC FF H L 00 20 E8 00 00 H" prints "00 00 00 00 00 00 00 00 00 00 00 00 00 00"
        ∷ []) }
{}

/// Sizes of 16 KB together are valid, and of 17 KB not: then every buffer of the direction has none.
pub fn too_large_together()
    ensures { Prints (
        "L 00 1F 4C 00 H L 00 1F 6C 00 H L 00 1F 8C 00 H L 00 1F AC 00 H" prints "00 00 00 00 00 00 00 00 00 00 00 00 00 00 00 00"
        ∷ "L 00 1F CC 00 H" prints "00 00 00 00"
        ∷ "L 00 1F 0C 08 H L 00 1F 2C 04 H L 00 1F EC 04 H L 00 20 E8 00 00 H" prints "00 00 00 00 00 00 00 00 00 00 00 00 00 00 00 10 00"
        ∷ "L 00 20 08 00 00 H" prints "00 00 00 20 00"
        ∷ "L 00 1F 6C 01 H L 00 20 E8 00 00 H L 00 20 08 00 00 H" prints "00 00 00 00 00 00 00 00 00 00 00 00 00 00"
        ∷ "L 00 00 F4 55 H L 00 00 F0 00 H" prints "00 00 00 00 00 00 00 00"
        ∷ "L 00 1F 2C 02 H L 00 20 E8 00 00 H L 00 00 F4 55 H L 00 00 F0 00 H" prints "00 00 00 00 00 00 00 10 00 00 00 00 00 00 00 00 55"
        ∷ []) }
{}

/// A buffer without a size reads 00 and takes nothing.
pub fn no_size()
    ensures { Prints ("L 00 1F 0C 00 H L 00 00 14 55 H L 00 00 10 00 H L 00 20 08 00 00 H" prints "00 00 00 00 00 00 00 00 00 00 00 00 00 00 00 00 00" ∷ []) }
{}

/// A TX buffer of 16 KB has a place for each address below 4000: the one at 0800 is another than that at 0000, and 4000 is the
/// same.
pub fn fills_a_large_buffer()
    ensures { Prints (
        "L 00 1F 0C 00 H L 00 1F 2C 00 H L 00 1F 4C 00 H L 00 1F 6C 00 H" prints "00 00 00 00 00 00 00 00 00 00 00 00 00 00 00 00"
        ∷ "L 00 1F 8C 00 H L 00 1F AC 00 H L 00 1F CC 00 H" prints "00 00 00 00 00 00 00 00 00 00 00 00"
        ∷ "L 00 1F EC 10 H L 00 00 F4 11 H L 08 00 F4 22 H L 3F FF F4 33 H" prints "00 00 00 00 00 00 00 00 00 00 00 00 00 00 00 00"
        ∷ "L 3F FF F0 00 00 H L 08 00 F0 00 H" prints "00 00 00 33 11 00 00 00 22"
        ∷ []) }
{}

/// An RX buffer of 8 KB: the places of received bytes wrap at 2000.
pub fn receives_in_a_large_buffer()
    ensures { Prints (
        "start 0 8191" prints ""
        ∷ "L 00 1E 0C 00 H L 00 1E 2C 00 H L 00 1E 4C 00 H L 00 1E 6C 00 H" prints "00 00 00 00 00 00 00 00 00 00 00 00 00 00 00 00"
        ∷ "L 00 1E 8C 00 H L 00 1E AC 00 H L 00 1E CC 00 H" prints "00 00 00 00 00 00 00 00 00 00 00 00"
        ∷ "L 00 1E EC 08 H" prints "00 00 00 00"
        ∷ connected_7
        ∷ "@7:got:0102 L 1F FF F8 00 00 H L 07 FF F8 00 00 H L 00 00 F8 00 H" prints "00 00 00 01 02 00 00 00 00 00 00 00 00 02"
        ∷ []) }
{}

/// OPEN stops while a size of some socket is none of those that there are, of the TX buffers alone or of the RX buffers alone,
/// and while the sizes are too many together.
pub fn stops_a_bad_size()
    ensures tx { Stops ("L 00 1F 0C 03 H L 00 00 0C 01 H L 00 01 0C 01" prints "00 00 00 00 00 00 00 00 00 00 00" ∷ []) (BadBufferSize 0) }
    ensures rx { Stops ("L 00 1E 6C 03 H L 00 00 EC 01 H L 00 01 EC 01" prints "00 00 00 00 00 00 00 00 00 00 00" ∷ []) (BadBufferSize 7) }
    ensures tx_together { Stops ("L 00 1F 6C 04 H L 00 00 EC 01 H L 00 01 EC 01" prints "00 00 00 00 00 00 00 00 00 00 00" ∷ []) (BadBufferSize 7) }
    ensures rx_together { Stops ("L 00 1E 6C 04 H L 00 00 EC 01 H L 00 01 EC 01" prints "00 00 00 00 00 00 00 00 00 00 00" ∷ []) (BadBufferSize 7) }
{}

/// OPEN goes on with no bytes for a socket, and a command that opens nothing does not look at the sizes.
pub fn opens_with_other_sizes()
    ensures none { Prints (
        "L 00 1F EC 00 H L 00 1E EC 00 H L 00 00 EC 01 H L 00 01 EC 01 H" prints "00 00 00 00 00 00 00 00 00 00 00 00 00 00 00 00"
        ∷ "L 00 03 E8 00 H" prints "00 00 00 13"
        ∷ []) }
    ensures no_protocol { Prints ("L 00 1F EC 03 H L 00 01 EC 01 H L 00 03 E8 00 H" prints "00 00 00 00 00 00 00 00 00 00 00 00" ∷ []) }
{}

/// A size changed while a socket is open stops the board, whichever socket's and in whichever direction: INIT counts as open.
pub fn stops_a_size_change()
    ensures own { Stops (connected ∷ "L 00 1F 0C 04" prints "00 00 00" ∷ []) (SizeWhileOpen 0) }
    ensures other { Stops (opened ∷ "L 00 1E EC 04" prints "00 00 00" ∷ []) (SizeWhileOpen 7) }
{}

/// The size that a socket has already may be written while sockets are open.
pub fn keeps_a_size()
    ensures { Prints (
        connected
        ∷ "L 00 00 14 55 H L 00 1E 0C 02 02 H L 00 00 10 00 H" prints "00 00 00 00 00 00 00 00 00 00 00 00 55"
        ∷ []) }
{}
