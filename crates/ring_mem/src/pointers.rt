//! Pointer registers: two bytes, of which one is written at a time.

ghost use Rattle.std.specs.Prelude.{◌≡◌, ◌≤◌};
ghost use Rattle.ring_mem.specs.Parts.{with_byte};

/// A register of two bytes at this address, after a write of a byte; the high byte stands at the lower address.
pub fn with_byte(register: u16, value: u16, addr: u16, v: u8) -> u16
    requires { register ≤ 255 }
    ensures { result ≡ with_byte register value addr v }
{
    if addr == register {
        return v as u16 * 256 + value % 256;
    }
    if addr == register + 1 {
        return value / 256 * 256 + v as u16;
    }
    value
}
