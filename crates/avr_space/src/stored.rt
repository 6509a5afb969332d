//! Stored registers whose writes may stop the board.
ghost use Rattle.std.specs.Prelude.{◌≡◌};
ghost use Rattle.avr_space.specs.Registers.{stop_of_stored, starts_converter, starts_watchdog, uses_eeprom, stop_if};

use avr_sheet::{DeviceStop, is_set};

const EECR: u16 = 0x3F;

const WDTCSR: u16 = 0x60;

const ADCSRA: u16 = 0x7A;

const TWCR: u16 = 0xBC;

/// ADCSRA starts the converter: ADSC, or ADEN with ADATE.
fn starts_converter(v: u8) -> bool
    ensures { result ≡ starts_converter v }
{
    is_set(v, 6) || is_set(v, 7) && is_set(v, 5)
}

/// WDTCSR starts the watchdog: WDIE or WDE, with WDCE clear.
fn starts_watchdog(v: u8) -> bool
    ensures { result ≡ starts_watchdog v }
{
    !is_set(v, 4) && (is_set(v, 6) || is_set(v, 3))
}

/// EECR reads or writes the EEPROM: EERE or EEPE.
fn uses_eeprom(v: u8) -> bool
    ensures { result ≡ uses_eeprom v }
{
    is_set(v, 0) || is_set(v, 1)
}

/// Why this value of the stored register at a data address stops the board, if it does.
#[tactic(auto, unfolding(crate::specs::Registers::stop_of_stored))]
pub fn stop_of_stored(addr: u16, v: u8) -> Option<DeviceStop>
    ensures { result ≡ stop_of_stored addr v }
{
    match addr {
        ADCSRA => stop_if(starts_converter(v), DeviceStop::Adc),
        TWCR => stop_if(is_set(v, 2), DeviceStop::Twi),
        WDTCSR => stop_if(starts_watchdog(v), DeviceStop::Watchdog),
        EECR => stop_if(uses_eeprom(v), DeviceStop::Eeprom),
        _ => None,
    }
}

fn stop_if(stops: bool, stop: DeviceStop) -> Option<DeviceStop>
    ensures { result ≡ stop_if stops stop }
{
    if stops { Some(stop) } else { None }
}
