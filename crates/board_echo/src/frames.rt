//! Firmware that gives the chip events of the bus.
ghost use Rattle.std.specs.Prelude.{◌≡◌, ◌+◌, ◌<◌, ◌≤◌, ◌++◌, ◌↔◌, length, vec_len, IfOk, IfSome, IsNone, OnOk, Err};
ghost use Rattle.avr_table.specs.declared.instr.Instr.TheVariants as instrs;
ghost use Rattle.avr_table.specs.declared.instr.Moves.TheVariants.{Ldi};
ghost use Rattle.avr_table.specs.declared.instr.Jumps.TheVariants.{Rcall};
ghost use Rattle.board_echo.specs.Assembly.{image_of, relative, word};
ghost use Rattle.board_echo.specs.Frames.{event_steps, event_words, frames_words, steps_for};
ghost use Rattle.board_echo.specs.declared.frames.FramesError.TheVariants.{TooLong};

use crate::words::image_of;
use board_bus::BusEvent;
use flash::Image;
use std::alloc::{AllocError, Global};

/// Why events make no image.
#[derive(Clone, Copy, Debug, PartialEq, Eq)]
pub enum FramesError {
    /// They take more than 2,048 words.
    TooLong,
    /// Memory was not there.
    NoMemory,
}

/// The most words of an image of events.
const MOST: u16 = 2048;

/// The words before the events: PB2 is set, the pins of SPI are made outputs, SPI is turned on.
const START: [u16; 7] = [0x9A2A, 0xE20C, 0xB904, 0xE500, 0xBD0C, 0xE001, 0xBD0D];

/// The words behind the events: `break`, and the transfer of a byte.
const END: [u16; 7] = [0x9598, 0xBD8E, 0xB40D, 0xFE07, 0xCFFD, 0xB58E, 0x9508];

/// How many words give the chip an event.
fn words_for(event: BusEvent) -> u16
    ensures { result ≡ length (event_steps event) }
{
    match event {
        BusEvent::Select(_) => 1,
        BusEvent::Byte(_) => 2,
        BusEvent::Look => 0,
    }
}

/// How many words give the chip these events; `None` where they are more than an image has beside its start and its end. No event
/// is looked at behind the one that is too many.
fn words_for_all(events: &[BusEvent]) -> Option<u16>
    ensures fits { IfSome result (λ many. (many ≡ length (steps_for events.now)) × (many ≤ 2034)) }
    ensures long { IsNone result → 2034 < length (steps_for events.now) }
{
    let mut words = 0;
    for event in events {
        words += words_for(*event);
        if words > MOST - 14 {
            return None;
        }
    }
    Some(words)
}

/// `ldi r24, v`
fn load(v: u8) -> u16
    ensures { result ≡ word (instrs.Moves (Ldi 24 v)) }
{
    0xE080 + u16::from(v) / 16 * 256 + u16::from(v) % 16
}

/// `rcall`, at one place, of a place behind it.
fn call(target: u16, at: u16) -> u16
    requires { (at < target) × (target ≤ 2048) }
    ensures { result ≡ word (instrs.Jumps (Rcall (relative target at))) }
{
    0xD000 + (target - (at + 1))
}

/// Adds what gives the chip an event. The transfer of a byte stands at `transfer`, behind what is added.
fn push_event(words: &mut Vec<u16>, event: BusEvent, transfer: u16) -> Result<(), AllocError>
    requires behind { vec_len words.old + length (event_steps event) ≤ transfer }
    requires near { transfer ≤ 2048 }
    ensures { OnOk result (words.new.items ≡ words.old.items ++ event_words transfer (length words.old.items) event) }
{
    match event {
        BusEvent::Select(true) => words.push(0x982A)?,
        BusEvent::Select(false) => words.push(0x9A2A)?,
        BusEvent::Byte(v) => {
            words.push(load(v))?;
            words.push(call(transfer, words.len() as u16))?;
        }
        BusEvent::Look => {}
    }
    Ok(())
}

/// The words that give the chip these events, which take so many.
fn words_of(alloc: Global, events: &[BusEvent], many: u16) -> Result<Vec<u16>, AllocError>
    requires all { many ≡ length (steps_for events.now) }
    requires few { many ≤ 2034 }
    ensures { IfOk result (λ words. words.items ≡ frames_words events.now) }
{
    let mut words = Vec::with_capacity(alloc, usize::from(many) + 14)?;
    words.extend_from_slice(&START)?;
    for event in events {
        match push_event(&mut words, *event, many + 8) {
            Ok(()) => {}
            Err(e) => return Err(e),
        }
    }
    words.extend_from_slice(&END)?;
    Ok(words)
}

/// The firmware that gives the chip these events, which take so many words.
fn firmware(alloc: Global, events: &[BusEvent], many: u16) -> Result<Image, AllocError>
    requires all { many ≡ length (steps_for events.now) }
    requires few { many ≤ 2034 }
    ensures { IfOk result (λ image. image ≡ image_of (frames_words events.now)) }
{
    let words = words_of(alloc, events, many)?;
    image_of(alloc, &words)
}

/// The firmware that gives the chip these events, and then breaks: it sets the select line low and high, sends each byte by SPI
/// and waits for it. A look gives the chip nothing.
///
/// # Errors
///
/// `TooLong` exactly where it takes more than 2,048 words: one for each change of the select line, two for each byte, and 14.
/// `NoMemory` only where memory was not there.
pub fn frames_image(alloc: Global, events: &[BusEvent]) -> Result<Image, FramesError>
    ensures image { IfOk result (λ image. image ≡ image_of (frames_words events.now)) }
    ensures too_long { (result ≡ Err TooLong) ↔ (2048 < length (frames_words events.now)) }
{
    let Some(many) = words_for_all(events) else {
        return Err(FramesError::TooLong);
    };
    match firmware(alloc, events, many) {
        Ok(image) => Ok(image),
        Err(_) => Err(FramesError::NoMemory),
    }
}
