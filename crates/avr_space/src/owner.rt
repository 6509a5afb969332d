//! To which device a register belongs (ATmega328P datasheet, "Register Summary").
ghost use Rattle.std.specs.Prelude.{◌≡◌, ◌<◌};
ghost use Rattle.avr_space.specs.Owners.{owner_of, owner_by_ranges, within, is_of_ports, is_of_timers, is_of_serial, is_stored};

/// The device to which a register belongs.
#[derive(Clone, Copy, Debug, PartialEq, Eq)]
pub enum Owner {
    /// Ports and external interrupts.
    Ports,
    /// Timers 0 to 2.
    Timers,
    /// SPI and USART.
    Serial,
    /// A register that is stored as it is written.
    Stored,
    /// A place without a register: it reads 00, and writes have no effect.
    Nobody,
}

/// The owner of a data address below SRAM.
pub fn owner_of(addr: u16) -> Owner
    requires { addr < 256 }
    ensures { result ≡ owner_of addr }
{
    owner_by_ranges(addr)
}

/// The owner by ranges of addresses (apart, since it is compared with the devices' own tables at all 256 addresses).
#[tactic(auto, unfolding(crate::specs::Owners::owner_by_ranges))]
fn owner_by_ranges(addr: u16) -> Owner
    ensures { result ≡ owner_by_ranges addr }
{
    if is_of_ports(addr) {
        Owner::Ports
    } else if is_of_timers(addr) {
        Owner::Timers
    } else if is_of_serial(addr) {
        Owner::Serial
    } else if is_stored(addr) {
        Owner::Stored
    } else {
        Owner::Nobody
    }
}

fn within(low: u16, high: u16, addr: u16) -> bool
    ensures { result ≡ within low high addr }
{
    low <= addr && addr <= high
}

fn is_of_ports(addr: u16) -> bool
    ensures { result ≡ is_of_ports addr }
{
    within(0x23, 0x2B, addr)
        || within(0x3B, 0x3D, addr)
        || within(0x68, 0x69, addr)
        || within(0x6B, 0x6D, addr)
}

fn is_of_timers(addr: u16) -> bool
    ensures { result ≡ is_of_timers addr }
{
    within(0x35, 0x37, addr)
        || within(0x44, 0x48, addr)
        || within(0x6E, 0x70, addr)
        || within(0x80, 0x81, addr)
        || within(0x84, 0x8B, addr)
        || within(0xB0, 0xB4, addr)
        || addr == 0xB6
}

fn is_of_serial(addr: u16) -> bool
    ensures { result ≡ is_of_serial addr }
{
    within(0x4C, 0x4E, addr) || within(0xC0, 0xC2, addr) || within(0xC4, 0xC6, addr)
}

fn is_stored(addr: u16) -> bool
    ensures { result ≡ is_stored addr }
{
    within(0x3E, 0x42, addr)
        || within(0x4A, 0x4B, addr)
        || addr == 0x50
        || within(0x53, 0x55, addr)
        || addr == 0x57
        || within(0x60, 0x61, addr)
        || addr == 0x64
        || addr == 0x66
        || within(0x78, 0x7C, addr)
        || within(0x7E, 0x7F, addr)
        || within(0xB8, 0xBD, addr)
}
