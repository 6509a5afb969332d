//! The registers by their data addresses and I/O places.
ghost use Rattle.std.specs.Prelude.{◌≡◌};
ghost use Rattle.avr_ports.specs.Registers.{register_at, io_register};

use crate::port::PortName;

/// The registers of the ports and of their interrupts.
#[derive(Clone, Copy)]
pub enum Register {
    /// PINx, which reads the pins' levels and toggles PORT bits.
    Pin(PortName),
    /// DDRx, the directions of the pins.
    Ddr(PortName),
    /// PORTx, the levels of the outputs and the pull-ups of the inputs.
    Port(PortName),
    /// PCMSK0 of port B, PCMSK1 of port C, PCMSK2 of port D.
    ChangeMask(PortName),
    /// PCIFR.
    ChangeFlags,
    /// PCICR.
    ChangeControl,
    /// EIFR.
    ExternalFlags,
    /// EIMSK.
    ExternalMask,
    /// EICRA.
    ExternalControl,
}

/// The register at a data address.
pub fn register_at(addr: u16) -> Option<Register>
    ensures { result ≡ register_at addr }
{
    match addr {
        0x23 => Some(Register::Pin(PortName::B)),
        0x24 => Some(Register::Ddr(PortName::B)),
        0x25 => Some(Register::Port(PortName::B)),
        0x26 => Some(Register::Pin(PortName::C)),
        0x27 => Some(Register::Ddr(PortName::C)),
        0x28 => Some(Register::Port(PortName::C)),
        0x29 => Some(Register::Pin(PortName::D)),
        0x2A => Some(Register::Ddr(PortName::D)),
        0x2B => Some(Register::Port(PortName::D)),
        0x3B => Some(Register::ChangeFlags),
        0x3C => Some(Register::ExternalFlags),
        0x3D => Some(Register::ExternalMask),
        0x68 => Some(Register::ChangeControl),
        0x69 => Some(Register::ExternalControl),
        0x6B => Some(Register::ChangeMask(PortName::B)),
        0x6C => Some(Register::ChangeMask(PortName::C)),
        0x6D => Some(Register::ChangeMask(PortName::D)),
        _ => None,
    }
}

/// The register at a place of the lower 32 I/O places, which `sbi` and `cbi` reach.
pub fn io_register(io: u8) -> Option<Register>
    ensures { result ≡ io_register io }
{
    if io < 32 {
        register_at(u16::from(io) + 0x20)
    } else {
        None
    }
}
