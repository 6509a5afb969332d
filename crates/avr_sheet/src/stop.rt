//! What the microcontroller stops the board for: its firmware, or one of its devices.

/// Why a device of the microcontroller stops the board: the firmware started something that this board
/// does not have (ATmega328P datasheet, the section of the device that each variant names).
#[derive(Clone, Copy, Debug, PartialEq, Eq)]
pub enum DeviceStop {
    /// The analog-to-digital converter was started (ADCSRA).
    Adc,
    /// The two-wire interface was enabled (TWCR).
    Twi,
    /// The watchdog was started (WDTCSR).
    Watchdog,
    /// The EEPROM was read or written (EECR).
    Eeprom,
    /// The timer (0, 1 or 2) was set to count an external clock (its clock select, or ASSR for timer 2).
    ExternalClock {
        /// The number of the timer, 0 to 2.
        timer: u8,
    },
    /// The timer (0, 1 or 2) runs in a waveform mode that is not offered.
    TimerMode {
        /// The number of the timer, 0 to 2.
        timer: u8,
        /// The mode number of the datasheet's table of waveform generation modes.
        mode: u8,
    },
    /// The running timer (0, 1 or 2) was told to drive a waveform pin (COM bits of TCCRnA).
    WaveformPin {
        /// The number of the timer, 0 to 2.
        timer: u8,
    },
    /// A transfer was started in an SPI mode other than 0 and 3 (CPOL unlike CPHA in SPCR).
    SpiMode {
        /// SPCR as it stood.
        spcr: u8,
    },
    /// A byte was sent in a frame format other than asynchronous with 8 data bits (UCSR0C, UCSR0B).
    UsartMode {
        /// UCSR0C as it stood.
        ucsr0c: u8,
    },
}

/// Why the firmware cannot go on. `pc` is the word address of the instruction; the core, its memory and its devices are
/// as before the step.
#[derive(Clone, Copy, Debug, PartialEq, Eq)]
pub enum AvrStop {
    /// No instruction has this word.
    Illegal {
        /// Word address of the instruction.
        pc: u16,
        /// The word that stands there.
        word: u16,
    },
    /// The manual leaves undefined what the instruction does: its pointer changes, and its register is one of the
    /// pointer's own two.
    Undefined {
        /// Word address of the instruction.
        pc: u16,
        /// The word that stands there.
        word: u16,
    },
    /// A load or store past 08FF, the end of SRAM.
    BadAddress {
        /// Word address of the instruction.
        pc: u16,
        /// The data address.
        addr: u16,
    },
    /// A stack byte would stand outside of SRAM, 0100 to 08FF.
    StackOut {
        /// Word address of the instruction; in an interrupt entry, of the one that would have been next.
        pc: u16,
        /// SP before the step.
        sp: u16,
    },
    /// An `spm`: this board does not program its own flash.
    SelfProgram {
        /// Word address of the instruction.
        pc: u16,
    },
    /// A device stops the board.
    Device {
        /// Word address of the instruction.
        pc: u16,
        /// What the device says.
        stop: DeviceStop,
    },
}
