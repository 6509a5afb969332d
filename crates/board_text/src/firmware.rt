//! The text of the firmware's stops.
ghost use Rattle.std.specs.Prelude.{◌≡◌, IfOk, string_bytes};
ghost use Rattle.board_text.specs.Firmware.{device_name, device_text, firmware_text};

use avr_sheet::{AvrStop, DeviceStop};
use std::alloc::{AllocError, Global};

// The name of a device's stop.
fn device_name(stop: DeviceStop) -> &'static str
    ensures { result.now ≡ device_name stop }
{
    match stop {
        DeviceStop::Adc => "Adc",
        DeviceStop::Twi => "Twi",
        DeviceStop::Watchdog => "Watchdog",
        DeviceStop::Eeprom => "Eeprom",
        DeviceStop::ExternalClock { .. } => "ExternalClock",
        DeviceStop::TimerMode { .. } => "TimerMode",
        DeviceStop::WaveformPin { .. } => "WaveformPin",
        DeviceStop::SpiMode { .. } => "SpiMode",
        DeviceStop::UsartMode { .. } => "UsartMode",
    }
}

// The name of a device's stop and its values in decimal, with one space between.
fn device_text(alloc: Global, stop: DeviceStop) -> Result<String, AllocError>
    ensures { IfOk result (λ text. string_bytes text ≡ device_text stop) }
{
    let name = device_name(stop);
    match stop {
        DeviceStop::Adc | DeviceStop::Twi | DeviceStop::Watchdog | DeviceStop::Eeprom => {
            format!(in alloc; "{name}")
        }
        DeviceStop::TimerMode { timer, mode } => format!(in alloc; "{name} {timer} {mode}"),
        DeviceStop::ExternalClock { timer } | DeviceStop::WaveformPin { timer } => {
            format!(in alloc; "{name} {timer}")
        }
        DeviceStop::SpiMode { spcr } => format!(in alloc; "{name} {spcr}"),
        DeviceStop::UsartMode { ucsr0c } => format!(in alloc; "{name} {ucsr0c}"),
    }
}

/// The name of a stop and its values in decimal, in the order of its fields, with one space between. What a device says stands
/// behind the word address in the same way: `Device 12 TimerMode 0 4`.
///
/// # Errors
///
/// Want of memory alone.
pub fn firmware_text(alloc: Global, stop: AvrStop) -> Result<String, AllocError>
    ensures { IfOk result (λ text. string_bytes text ≡ firmware_text stop) }
{
    match stop {
        AvrStop::Illegal { pc, word } => format!(in alloc; "Illegal {pc} {word}"),
        AvrStop::Undefined { pc, word } => format!(in alloc; "Undefined {pc} {word}"),
        AvrStop::BadAddress { pc, addr } => format!(in alloc; "BadAddress {pc} {addr}"),
        AvrStop::StackOut { pc, sp } => format!(in alloc; "StackOut {pc} {sp}"),
        AvrStop::SelfProgram { pc } => format!(in alloc; "SelfProgram {pc}"),
        AvrStop::Device { pc, stop } => {
            let said = device_text(alloc, stop)?;
            format!(in alloc; "Device {pc} {said}")
        }
    }
}
