//! A write of a cell that runs.
ghost use Rattle.std.specs.Prelude.{◌≡◌, ◌+◌, ◌≤◌, IsTrue, nat_le};
ghost use Rattle.avr_eeprom.specs.Eeprom.{WRITE_CYCLES};

/// How many cycles a write of a cell takes.
pub const WRITE_CYCLES: u64 = 54_400;

/// A write of a cell that has begun and is not complete.
#[derive(Clone, Copy)]
pub struct Writing {
    /// The cycle count at which it began.
    pub began: u64,
    /// The cell, below 1,024.
    pub address: u16,
    /// The byte that the cell gets.
    pub byte: u8,
}

impl Writing {
    /// Whether it is complete by a cycle count.
    #[inline]
    pub fn is_over(self, by_now: u64) -> bool
        ensures value { result ≡ nat_le (self.began + WRITE_CYCLES) by_now }
    {
        self.began <= by_now && WRITE_CYCLES <= by_now - self.began
    }
}
