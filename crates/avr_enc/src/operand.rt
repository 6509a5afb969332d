//! Operands as they are written.
use avr_table::Pointer;

/// An operand of an instruction, by the way in which it is written.
#[derive(Clone, Copy)]
pub(crate) enum Operand {
    /// A register by its number.
    Register(u8),
    /// A constant of a byte, or an I/O place.
    Constant(u8),
    /// The number of a bit.
    Number(u8),
    /// A data address.
    Address(u16),
    /// A word address of 22 bits.
    Target(u32),
    /// A relative number of words.
    Relative(i16),
    /// The pointer of a load or store.
    Pointer(Pointer),
    /// The pointer Z, left as it is.
    Z,
    /// Z and a displacement.
    ZDisplaced(u8),
    /// Y and a displacement.
    YDisplaced(u8),
}

/// The operands of an instruction.
#[derive(Clone, Copy)]
pub(crate) enum Operands {
    Bare,
    One(Operand),
    Two(Operand, Operand),
}
