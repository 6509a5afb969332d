//! The order of a byte's bits on the line.
ghost use Rattle.std.specs.Prelude.{◌≡◌};
ghost use Rattle.avr_serial.specs.Line.{mirrored};

/// The byte with its bits in the other order.
pub fn mirrored(byte: u8) -> u8
    ensures { result ≡ mirrored byte }
{
    byte.reverse_bits()
}
