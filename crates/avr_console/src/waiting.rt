//! The bytes that wait to be read.
ghost use Rattle.std.specs.Prelude.{◌≡◌};
ghost use Rattle.avr_console.specs.Console.{has_room, is_ready, joined};

/// The bytes that wait to be read (the receive buffer of two bytes of the datasheet's "Receiver").
#[derive(Clone, Copy)]
pub enum Waiting {
    /// None waits.
    Nothing,
    /// One byte waits.
    One(u8),
    /// Two bytes wait, the oldest first.
    Two(u8, u8),
}

impl Waiting {
    /// Whether fewer than two bytes wait.
    pub fn has_room(self) -> bool
        ensures { result ≡ has_room self }
    {
        match self {
            Waiting::Nothing | Waiting::One(_) => true,
            Waiting::Two(_, _) => false,
        }
    }

    /// Whether a byte waits.
    pub fn is_ready(self) -> bool
        ensures { result ≡ is_ready self }
    {
        match self {
            Waiting::Nothing => false,
            Waiting::One(_) | Waiting::Two(_, _) => true,
        }
    }

    /// These, and a byte more behind them; where there is no room, these.
    pub fn joined(self, byte: u8) -> Waiting
        ensures { result ≡ joined self byte }
    {
        match self {
            Waiting::Nothing => Waiting::One(byte),
            Waiting::One(oldest) => Waiting::Two(oldest, byte),
            Waiting::Two(oldest, newest) => Waiting::Two(oldest, newest),
        }
    }
}
