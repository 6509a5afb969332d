//! SIR and INTn are what the definitions say after a history.

ghost use Rattle.std.specs.Prelude.{◌≡◌, ◌≢◌, ◌<◌, ◌^◌, ◌∷◌, ℕ};
ghost use Rattle.chip_sheet.specs.declared.event.Entry.{Entry};
ghost use Rattle.chip_sheet.specs.Past.{Past};
ghost use Rattle.chip_sheet.specs.Bits.{has_bit};
ghost use Rattle.chip_sheet.specs.Names as names;
ghost use Rattle.chip_sheet.specs.Registers.{common_register};
ghost use Rattle.chip_sheet.specs.Streams.{Starts};
ghost use Rattle.chip_sheet.specs.Interrupts.{interrupt_register, mask, asks, sir_register, interrupt_low};
ghost use Rattle.irq_lines.specs.Lines.{meets, is_low, ShowsEach};

/// A byte that shows each socket's interrupts by its mask is what SIR reads; and where an entry changes what one socket asks
/// alone, a byte in which that socket's bit is renewed is what SIR reads after it.
pub fn sir_follows()
    ensures whole { (starts : Starts) (past : Past) (sir : ℕ) → sir < 256 → ShowsEach (interrupt_register starts past) (mask past) sir → sir ≡ sir_register starts past }
    ensures renewed { (starts : Starts) (past : Past) (entry : Entry) (sn sir : ℕ) → sn < 8 → sir < 256
        → has_bit sir (2 ^ sn) ≡ meets (interrupt_register starts (entry ∷ past) sn) (mask (entry ∷ past) sn)
        → ((m : ℕ) → m < 8 → m ≢ sn → has_bit sir (2 ^ m) ≡ has_bit (sir_register starts past) (2 ^ m))
        → ((m : ℕ) → m < 8 → m ≢ sn → asks starts (entry ∷ past) m ≡ asks starts past m)
        → sir ≡ sir_register starts (entry ∷ past) }
    ensures small { (starts : Starts) (past : Past) → sir_register starts past < 256 }
{}

/// INTn is low by what IR, SIR and SIMR read exactly where it is by the definition: IR reads 00, so IMR has no part.
pub fn line_follows()
    ensures { (starts : Starts) (past : Past) (imr : ℕ) → is_low (common_register past names.ir) imr (sir_register starts past) (common_register past names.simr)
        ≡ interrupt_low starts past }
{}
