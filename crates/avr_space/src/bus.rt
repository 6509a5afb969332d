//! What stands on the other side of the bus between the microcontroller and the chip.
ghost use Rattle.avr_space.specs.Peer.{AnswerTo};
ghost use Rattle.board_bus.specs.declared.event.BusEvent.{BusEvent};
ghost use Rattle.board_bus.specs.declared.event.BusEvent.TheVariants.{Select, Byte, Look};

/// The bus gives no further answers.
#[derive(Clone, Copy, Debug, PartialEq, Eq)]
pub struct BusIsOver;

/// The chip on the bus, or what stands for it.
///
/// What a call does is one relation, `did`: the peer before it, the call with its argument, the answer, and the peer
/// after it.
pub trait BusPeer {
    ghost did: { Self → (c : BusEvent) → AnswerTo c → Self → Type 0 };

    /// The select line SCSn goes to another level, low or high.
    fn select(&mut self, low: bool) -> Result<(), BusIsOver>
        ensures { did self.old (Select low) result self.new };

    /// Exchanges a byte, bit 7 first on the line, and gives the one that came back.
    fn byte(&mut self, mosi: u8) -> Result<u8, BusIsOver>
        ensures { did self.old (Byte mosi) result self.new };

    /// Whether the interrupt line INTn is high.
    fn look(&mut self) -> Result<bool, BusIsOver>
        ensures { did self.old Look result self.new };
}
