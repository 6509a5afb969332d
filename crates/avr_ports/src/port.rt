//! A port by its registers (datasheet, "I/O-Ports").
/// The part's three ports.
#[derive(Clone, Copy)]
pub enum PortName {
    /// Port B, with the pins PB0 to PB7.
    B,
    /// Port C, with the pins PC0 to PC7.
    C,
    /// Port D, with the pins PD0 to PD7.
    D,
}

/// The registers of one port.
#[derive(Clone, Copy)]
pub struct Port {
    /// DDRx: a pin with a 1 is an output.
    pub ddr: u8,
    /// PORTx: the level of an output, and the pull-up of an input.
    pub port: u8,
    /// The port's PCMSK register: a change of a pin with a 1 raises the flag.
    pub pcmsk: u8,
    /// The port's flag in PCIFR: a selected pin has changed.
    pub changed: bool,
}
