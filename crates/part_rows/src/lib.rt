//! Worked rows of the chip's parts and of the whole chip: calls beside what they answer and leave, by values from the datasheet.
//! Nothing stands on it.
#![tactic(auto)]

#[cfg(test)]
mod buffers;
#[cfg(test)]
mod chip;
#[cfg(test)]
mod commands;
#[cfg(test)]
mod common_block;
#[cfg(test)]
mod frames;
#[cfg(test)]
mod history;
#[cfg(test)]
mod interrupts;
#[cfg(test)]
mod socket_block;
