//! The flash of an ATmega328P as an image, 32,768 bytes.
#![tactic(auto)]

mod image;

pub use image::Image;
