//! The status register and the flags that an operation gives.
ghost use Rattle.std.specs.Prelude.{◌≡◌, ℕ, ◌+◌, ◌-◌, ◌*◌, ◌/◌, ◌%◌, ◌<◌, ◌==◌};
ghost use Rattle.avr_sheet.specs.Bits.{is_set};
ghost use Rattle.avr_alu.specs.Sreg.{carry_of, status};
ghost use Rattle.avr_alu.specs.Groups.{sum, addition_flags, difference, subtraction_flags, logic_flags};
ghost use Rattle.avr_alu.specs.Bits.{flags_by_bits, addition_by_bits, subtraction_by_bits};

/// The flags H, V, N, Z and C after an operation.
#[derive(Clone, Copy)]
pub struct Flags {
    pub half_carry: bool,
    pub overflow: bool,
    pub negative: bool,
    pub zero: bool,
    pub carry: bool,
}

/// SREG with these flags: S is N xor V, and I and T are as in `sreg`.
#[inline(always)]
pub fn status(flags: Flags, sreg: u8) -> u8
    ensures { result ≡ status flags sreg }
{
    let sign = flags.negative != flags.overflow;
    sreg / 64 * 64
        + 32 * u8::from(flags.half_carry)
        + 16 * u8::from(sign)
        + 8 * u8::from(flags.overflow)
        + 4 * u8::from(flags.negative)
        + 2 * u8::from(flags.zero)
        + u8::from(flags.carry)
}

/// C of a status register as a number, 0 or 1.
#[inline(always)]
pub fn carry_of(sreg: u8) -> u8
    ensures value { result ≡ carry_of sreg }
    ensures small { result < 2 }
{
    sreg % 2
}

/// H of a status register.
#[inline(always)]
pub fn half_carry_of(sreg: u8) -> bool
    ensures { result ≡ is_set sreg 5 }
{
    sreg / 32 % 2 == 1
}

/// Z of a status register.
#[inline(always)]
pub fn zero_of(sreg: u8) -> bool
    ensures { result ≡ is_set sreg 1 }
{
    sreg / 2 % 2 == 1
}

/// The flags of the result `r`, with the carry out of each bit, and a byte whose bit 7 tells of an overflow.
#[inline(always)]
fn flags_of(r: u8, carries: u8, overflows: u8) -> Flags
    ensures { result ≡ flags_by_bits r carries overflows }
{
    Flags {
        half_carry: carries & 0x08 != 0,
        overflow: overflows & 0x80 != 0,
        negative: r & 0x80 != 0,
        zero: r == 0,
        carry: carries & 0x80 != 0,
    }
}

/// The flags of `r = a + b + carry`.
#[inline(always)]
pub fn addition_flags(a: u8, b: u8, carry: u8, r: u8) -> Flags
    requires carry { carry < 2 }
    requires sum { r ≡ sum a b carry }
    ensures { result ≡ addition_flags a b carry }
{
    flags_of(r, (a & b) | ((a | b) & !r), (a ^ r) & (b ^ r))
}

/// The flags of `r = a - b - carry`.
#[inline(always)]
pub fn subtraction_flags(a: u8, b: u8, carry: u8, r: u8) -> Flags
    requires carry { carry < 2 }
    requires difference { r ≡ difference a b carry }
    ensures { result ≡ subtraction_flags a b carry }
{
    flags_of(r, (!a & b) | ((!a | b) & r), (a ^ b) & (a ^ r))
}

/// The flags of the result `r` of a logic operation.
#[inline(always)]
pub fn logic_flags(r: u8, sreg: u8) -> Flags
    ensures { result ≡ logic_flags r sreg }
{
    Flags {
        half_carry: half_carry_of(sreg),
        overflow: false,
        negative: r >= 128,
        zero: r == 0,
        carry: carry_of(sreg) == 1,
    }
}
