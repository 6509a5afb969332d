//! The events of the bus, and what the chip answers.

/// One event of the host's bus (W5500 datasheet, 2.1 SPI operation mode).
#[derive(Clone, Copy, Debug, PartialEq, Eq)]
pub enum BusEvent {
    /// The select line SCSn is set: `true` low, `false` high.
    Select(bool),
    /// Eight clocks of SCLK: this byte on MOSI, the most significant bit first.
    Byte(u8),
    /// A look at the interrupt line INTn.
    Look,
}

/// What the chip answers to an event of the bus.
#[derive(Clone, Copy, Debug, PartialEq, Eq)]
pub enum BusAnswer {
    /// A change of the select line needs no answer.
    Done,
    /// The byte on MISO during the eight clocks.
    Out(u8),
    /// The level of INTn: `true` high, `false` low.
    Level(bool),
}
