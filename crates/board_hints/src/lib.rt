//! Hints to who gave a file that has a fault: what it looks like, and where in it the fault stands. A hint is plain text for a
//! reader of standard error; the fault itself is told elsewhere.
#![tactic(auto)]

mod board;
mod image;
mod look;
mod places;

pub use board::board_hint;
pub use image::image_hint;
