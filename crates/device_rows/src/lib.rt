//! Worked rows of the microcontroller's devices, by values worked by hand from the datasheet: ports, timers, SPI, USART,
//! EEPROM and console. Nothing stands on it.
#![tactic(auto)]

#[cfg(test)]
mod console;
#[cfg(test)]
mod eeprom;
#[cfg(test)]
mod ports;
#[cfg(test)]
mod serial;
#[cfg(test)]
mod timers;
