//! A frame on the way to the receiver.
ghost use Rattle.std.specs.Prelude.{◌≡◌, ◌+◌, ◌<◌, ◌^◌, OnOk, IfSome, nat_le, Some, None, if◌then◌else◌};

/// A frame on the way.
#[derive(Clone, Copy)]
pub struct Arrival {
    /// The cycle count at which it began.
    pub began: u64,
    /// How many cycles it takes.
    pub cycles: u32,
}

impl Arrival {
    /// The cycle count at which it arrives, where that is not behind `by_now`.
    #[inline]
    pub fn end(self, by_now: u64) -> Option<u64>
        ensures { result ≡ (if nat_le (self.began + self.cycles) by_now then Some (self.began + self.cycles) else None) }
    {
        let cycles = u64::from(self.cycles);
        if self.began <= by_now && cycles <= by_now - self.began {
            Some(self.began + cycles)
        } else {
            None
        }
    }
}
