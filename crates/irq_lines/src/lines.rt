//! SIR and INTn from the registers.

ghost use Rattle.std.specs.Prelude.{◌≡◌, ◌≢◌, ◌<◌, ◌^◌, ℕ, slice_index};
ghost use Rattle.chip_sheet.specs.Bits.{has_bit};
ghost use Rattle.irq_lines.specs.Lines.{meets, is_low, ShowsEach};

/// Whether a register has a bit that is 1 in its mask.
#[inline]
fn meets(register: u8, mask: u8) -> bool
    ensures { result ≡ meets register mask }
{
    register & mask != 0
}

/// What SIR reads once socket `sn`, 0 to 7, has these interrupts and this mask: one bit of it renewed.
#[inline]
pub fn sir_with(sir: u8, sn: u8, ir: u8, imr: u8) -> u8
    requires { sn < 8 }
    ensures own { has_bit result (2 ^ sn) ≡ meets ir imr }
    ensures others { (m : ℕ) → m < 8 → m ≢ sn → has_bit result (2 ^ m) ≡ has_bit sir (2 ^ m) }
{
    if meets(ir, imr) {
        sir | (1 << sn)
    } else {
        sir & !(1 << sn)
    }
}

/// What SIR reads, from Sn_IR and Sn_IMR of the eight sockets: bit n is 1 exactly where socket n has an interrupt that its mask
/// lets through.
pub fn sir(irs: &[u8; 8], imrs: &[u8; 8]) -> u8
    ensures { ShowsEach (λ n. slice_index irs.now n) (λ n. slice_index imrs.now n) result }
{
    let mut sir = 0;
    for n in 0..8 {
        sir = sir_with(sir, n, irs[n as usize], imrs[n as usize]);
    }
    sir
}

/// Whether INTn is low: some bit of IR is 1 in IMR, or some bit of SIR is 1 in SIMR.
#[inline]
pub fn int_low(ir: u8, imr: u8, sir: u8, simr: u8) -> bool
    ensures { result ≡ is_low ir imr sir simr }
{
    meets(ir, imr) || meets(sir, simr)
}
