//! Worked rows of the microcontroller's parts, by values worked by hand from the manuals: images, arithmetic, encoding and the
//! core. Nothing stands on it.
#![tactic(auto)]

#[cfg(test)]
mod arithmetic;
#[cfg(test)]
mod bits;
#[cfg(test)]
mod encoding;
#[cfg(test)]
mod hex_text;
#[cfg(test)]
mod image;
#[cfg(test)]
mod instructions;
