//! The external interrupts INT0 and INT1 (datasheet, "External Interrupts").
ghost use Rattle.std.specs.Prelude.{◌≡◌, ◌<◌};
ghost use Rattle.avr_ports.specs.Sense.{sense_of, is_edge, is_low_level};

/// What makes an external interrupt request (ATmega328P datasheet, EICRA).
#[derive(Clone, Copy)]
pub enum Sense {
    /// The pin is low.
    LowLevel,
    /// The pin changed.
    AnyChange,
    /// The pin went from high to low.
    FallingEdge,
    /// The pin went from low to high.
    RisingEdge,
}

/// The registers of INT0 and INT1.
#[derive(Clone, Copy)]
pub struct External {
    /// EICRA: the sense of INT0 in bits 1..0 and that of INT1 in bits 3..2.
    pub eicra: u8,
    /// EIMSK: bit 0 enables INT0 and bit 1 enables INT1.
    pub eimsk: u8,
    /// The flag of INT0 in EIFR.
    pub int0_flag: bool,
    /// The flag of INT1 in EIFR.
    pub int1_flag: bool,
}

/// The sense that two control bits choose.
pub fn sense_of(bits: u8) -> Sense
    requires { bits < 4 }
    ensures { result ≡ sense_of bits }
{
    match bits {
        0 => Sense::LowLevel,
        1 => Sense::AnyChange,
        2 => Sense::FallingEdge,
        _ => Sense::RisingEdge,
    }
}

/// Whether a pin that was at one level and is at another raises the flag of an interrupt of this sense.
pub fn is_edge(sense: Sense, was: bool, high: bool) -> bool
    ensures { result ≡ is_edge sense was high }
{
    match sense {
        Sense::LowLevel => false,
        Sense::AnyChange => was != high,
        Sense::FallingEdge => was && !high,
        Sense::RisingEdge => !was && high,
    }
}

/// Whether the request is the pin's low level.
pub fn is_low_level(sense: Sense) -> bool
    ensures { result ≡ is_low_level sense }
{
    matches!(sense, Sense::LowLevel)
}
