//! Frames of the chip's serial bus, one byte at a time (W5500 datasheet, 2.2 SPI frame).
//!
//! A frame is two address bytes, a control byte and data bytes. The framer keeps the select line and what it needs of the
//! frame in progress; at each moment it is what one function ([`framer::Framer`], `framer_of`) makes of all that happened.
#![tactic(auto)]

pub mod framer;
