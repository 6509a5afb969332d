//! The select line and the frame in progress.

ghost use Rattle.std.specs.Prelude.{◌≡◌, [], ◌∷◌};
ghost use Rattle.chip_sheet.specs.declared.event.Entry.TheVariants.{Bus};
ghost use Rattle.chip_sheet.specs.Past.{Past};
ghost use Rattle.chip_sheet.specs.Frames.{phase, data_length, is_low};
ghost use Rattle.board_bus.specs.declared.event.BusAnswer.{BusAnswer};
ghost use Rattle.board_bus.specs.declared.event.BusEvent.TheVariants.{Select, Byte};
ghost use Rattle.spi_frame.specs.Framer.{framer_of, frame_after, phase_at, HasBlock};

use chip_sheet::phase::Phase;

/// What is kept of the frame in progress.
#[derive(Clone, Copy, Debug, PartialEq, Eq)]
pub enum Frame {
    /// No byte of it has come.
    Start,
    /// The high byte of its address has come.
    High {
        /// That byte.
        high: u8,
    },
    /// Its whole address has come.
    Address {
        /// The address.
        addr: u16,
    },
    /// Its control byte has come.
    Body {
        /// The control byte.
        control: u8,
        /// The address of the next data byte; it wraps at 65,536.
        addr: u16,
        /// How many data bytes are to come, 1 to 4, or 0 where any number may.
        left: u8,
    },
}

/// The select line and the frame in progress.
#[derive(Clone, Copy, Debug, PartialEq, Eq)]
pub struct Framer {
    low: bool,
    frame: Frame,
}

/// How many data bytes a frame with this control byte carries, 0 where it goes on until the line rises.
fn data_length(control: u8) -> u8
    ensures { result ≡ data_length control }
{
    match control % 4 {
        0 => 0,
        1 => 1,
        2 => 2,
        _ => 4,
    }
}

/// The frame with one byte more.
fn frame_after(frame: Frame, byte: u8) -> Frame
    ensures { result ≡ frame_after frame byte }
{
    match frame {
        Frame::Start => Frame::High { high: byte },
        Frame::High { high } => Frame::Address {
            addr: u16::from(high) * 256 + u16::from(byte),
        },
        Frame::Address { addr } => Frame::Body {
            control: byte,
            addr,
            left: data_length(byte),
        },
        Frame::Body { left: 1, .. } => Frame::Start,
        Frame::Body {
            control,
            addr,
            left,
        } => Frame::Body {
            control,
            addr: addr.wrapping_add(1),
            left: left.saturating_sub(1),
        },
    }
}

/// Where the next byte stands.
fn phase_at(frame: Frame) -> Phase
    ensures phase { result ≡ phase_at frame }
    ensures block { HasBlock result }
{
    match frame {
        Frame::Start | Frame::High { .. } => Phase::Address,
        Frame::Address { .. } => Phase::Control,
        Frame::Body { control, addr, .. } => Phase::Body {
            block: control / 8,
            addr,
            write: control / 4 % 2 == 1,
        },
    }
}

impl Framer {
    /// Before any event: the line is high.
    pub fn new() -> Self
        ensures { result ≡ framer_of [] }
    {
        Framer {
            low: false,
            frame: Frame::Start,
        }
    }

    /// Whether the select line is low.
    pub fn is_low(&self) -> bool
        ensures { (past : Past) → self.now ≡ framer_of past → result ≡ is_low past }
    {
        self.low
    }

    /// Sets the select line, `true` for low. A level that it has already changes nothing.
    pub fn select(&mut self, low: bool)
        ensures { (past : Past) (a : BusAnswer) → self.old ≡ framer_of past
            → self.new ≡ framer_of (Bus (Select low) a ∷ past) }
    {
        if low != self.low {
            self.low = low;
            self.frame = Frame::Start;
        }
    }

    /// Takes a byte from the host, and answers where it stood.
    pub fn byte(&mut self, byte: u8) -> Phase
        ensures block { HasBlock result }
        ensures phase { (past : Past) → self.old ≡ framer_of past → result ≡ phase past }
        ensures after { (past : Past) (a : BusAnswer) → self.old ≡ framer_of past
            → self.new ≡ framer_of (Bus (Byte byte) a ∷ past) }
    {
        if !self.low {
            return Phase::Idle;
        }
        let phase = phase_at(self.frame);
        self.frame = frame_after(self.frame, byte);
        phase
    }
}
