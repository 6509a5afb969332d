//! The fields of an instruction in its first word, one function for each form of opcode. `base` is the opcode
//! with 0 at every field.
ghost use Rattle.std.specs.Prelude.{◌≡◌, ◌<◌, ◌≤◌, ◌%◌, ◌^◌, pos, negsuc, ◌≤ℤ◌};
ghost use Rattle.avr_enc.specs.Shapes.{two_registers, upper_registers, two_pairs, one_register, with_constant, wide_pair, displaced, with_place, place_bit, register_bit, pointer_bits, at_pointer, twelve_bits, seven_bits, near, branch, far};
ghost use Rattle.avr_table.specs.WellFormed.{IsNear, IsBranch};

use avr_table::Pointer;

/// ......rd dddd rrrr
pub(crate) fn two_registers(base: u16, d: u8, r: u8) -> u16
    requires { (base ≤ 64512) × (d < 32) × (r < 32) }
    ensures { result ≡ two_registers base d r }
{
    base + u16::from(r) / 16 * 512 + u16::from(d) * 16 + u16::from(r) % 16
}

/// ........ dddd rrrr, with registers from r16 on.
pub(crate) fn upper_registers(base: u16, d: u8, r: u8) -> u16
    requires { (base ≤ 65280) × (16 ≤ d) × (d < 32) × (16 ≤ r) × (r < 32) }
    ensures { result ≡ upper_registers base d r }
{
    base + (u16::from(d) - 16) * 16 + (u16::from(r) - 16)
}

/// ........ dddd rrrr, with pairs by their lower register.
pub(crate) fn two_pairs(base: u16, d: u8, r: u8) -> u16
    requires { (base ≤ 65280) × (d < 32) × (r < 32) }
    ensures { result ≡ two_pairs base d r }
{
    base + u16::from(d) / 2 * 16 + u16::from(r) / 2
}

/// .......d dddd ....
pub(crate) fn one_register(base: u16, d: u8) -> u16
    requires { (base ≤ 65024) × (d < 32) }
    ensures { result ≡ one_register base d }
{
    base + u16::from(d) * 16
}

/// .... KKKK dddd KKKK, with a register from r16 on.
pub(crate) fn with_constant(base: u16, d: u8, k: u8) -> u16
    requires { (base ≤ 61440) × (16 ≤ d) × (d < 32) × (k < 256) }
    ensures { result ≡ with_constant base d k }
{
    base + u16::from(k) / 16 * 256 + (u16::from(d) - 16) * 16 + u16::from(k) % 16
}

/// ........ KKdd KKKK, with a pair from r24 on.
pub(crate) fn wide_pair(base: u16, d: u8, k: u8) -> u16
    requires { (base ≤ 65280) × (24 ≤ d) × (d < 32) × (k < 64) }
    ensures { result ≡ wide_pair base d k }
{
    base + u16::from(k) / 16 * 64 + (u16::from(d) - 24) / 2 * 16 + u16::from(k) % 16
}

/// ..q. qq.d dddd .qqq
pub(crate) fn displaced(base: u16, d: u8, q: u8) -> u16
    requires { (base ≤ 49152) × (d < 32) × (q < 64) }
    ensures { result ≡ displaced base d q }
{
    let q = u16::from(q);
    base + q / 32 * 8192 + q / 8 % 4 * 1024 + u16::from(d) * 16 + q % 8
}

/// .....AAd dddd AAAA
pub(crate) fn with_place(base: u16, d: u8, a: u8) -> u16
    requires { (base ≤ 63488) × (d < 32) × (a < 64) }
    ensures { result ≡ with_place base d a }
{
    base + u16::from(a) / 16 * 512 + u16::from(d) * 16 + u16::from(a) % 16
}

/// ........ AAAA Abbb
pub(crate) fn place_bit(base: u16, a: u8, b: u8) -> u16
    requires { (base ≤ 65280) × (a < 32) × (b < 8) }
    ensures { result ≡ place_bit base a b }
{
    base + u16::from(a) * 8 + u16::from(b)
}

/// .......d dddd .bbb
pub(crate) fn register_bit(base: u16, d: u8, b: u8) -> u16
    requires { (base ≤ 65024) × (d < 32) × (b < 8) }
    ensures { result ≡ register_bit base d b }
{
    base + u16::from(d) * 16 + u16::from(b)
}

/// pppp
fn pointer_bits(p: Pointer) -> u16
    ensures is { result ≡ pointer_bits p }
    ensures in_range { result < 16 }
{
    match p {
        Pointer::ZInc => 1,
        Pointer::ZDec => 2,
        Pointer::YInc => 9,
        Pointer::YDec => 10,
        Pointer::X => 12,
        Pointer::XInc => 13,
        Pointer::XDec => 14,
    }
}

/// .......d dddd pppp
pub(crate) fn at_pointer(base: u16, d: u8, p: Pointer) -> u16
    requires { (base ≤ 65024) × (d < 32) }
    ensures { result ≡ at_pointer base d p }
{
    base + u16::from(d) * 16 + pointer_bits(p)
}

/// A signed number of 12 bits, in two's complement.
fn twelve_bits(k: i16) -> u16
    requires { IsNear k }
    ensures is { result ≡ twelve_bits k }
    ensures in_range { result < 4096 }
{
    if k < 0 { (4096 + k) as u16 } else { k as u16 }
}

/// A signed number of 7 bits, in two's complement.
fn seven_bits(k: i16) -> u16
    requires { (negsuc 63 ≤ℤ k) × (k ≤ℤ pos 63) }
    ensures is { result ≡ seven_bits k }
    ensures in_range { result < 128 }
{
    if k < 0 { (128 + k) as u16 } else { k as u16 }
}

/// .... kkkk kkkk kkkk
pub(crate) fn near(base: u16, k: i16) -> u16
    requires { (base ≤ 61440) × IsNear k }
    ensures { result ≡ near base k }
{
    base + twelve_bits(k)
}

/// ......kk kkkk ksss
pub(crate) fn branch(base: u16, s: u8, k: i16) -> u16
    requires { (base ≤ 64512) × IsBranch s k }
    ensures { result ≡ branch base s k }
{
    base + seven_bits(k) * 8 + u16::from(s)
}

/// .......k kkkk ...k, the six bits over the next word.
pub(crate) fn far(base: u16, k: u32) -> u16
    requires { (base ≤ 65024) × (k < 2 ^ 22) }
    ensures { result ≡ far base k }
{
    let high = (k / 65536) as u16;
    base + high / 2 * 16 + high % 2
}
