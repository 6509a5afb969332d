//! What a write of EECR asks for.
ghost use Rattle.std.specs.Prelude.{◌≡◌, ◌<◌};
ghost use Rattle.avr_eeprom.specs.Eeprom.{byte_control, one_bit_control};

use avr_sheet::{is_set, with_bit};

/// What a write of EECR asks for (ATmega328P datasheet, "The EEPROM Control Register").
#[derive(Clone, Copy)]
pub struct Control {
    /// What EEPM1..0 become, as a number from 0 to 3.
    pub mode: u8,
    /// What EERIE becomes.
    pub ready_enabled: bool,
    /// 1 is written to EEMPE.
    pub enables: bool,
    /// 1 is written to EEPE.
    pub writes: bool,
    /// 1 is written to EERE.
    pub reads: bool,
}

impl Control {
    /// What the write of a byte asks for.
    pub fn of_byte(v: u8) -> Control
        ensures value { result ≡ byte_control v }
        ensures mode { result.mode < 4 }
    {
        Control {
            mode: v / 16 % 4,
            ready_enabled: is_set(v, 3),
            enables: is_set(v, 2),
            writes: is_set(v, 1),
            reads: is_set(v, 0),
        }
    }

    /// What the write of one bit alone asks for, where the mode and EERIE stood so.
    pub fn of_bit(mode: u8, ready_enabled: bool, bit: u8, set: bool) -> Control
        requires mode { mode < 4 }
        ensures value { result ≡ one_bit_control mode ready_enabled bit set }
        ensures mode { result.mode < 4 }
    {
        Control {
            mode: match bit {
                4 => with_bit(mode, 0, set),
                5 => with_bit(mode, 1, set),
                _ => mode,
            },
            ready_enabled: if bit == 3 { set } else { ready_enabled },
            enables: bit == 2 && set,
            writes: bit == 1 && set,
            reads: bit == 0 && set,
        }
    }
}
