//! Instructions back into words of flash, and into the text of an assembler.
#![tactic(auto)]

pub mod encoder;
pub mod line;
mod operand;
mod shapes;
mod syntax;
pub mod writer;

pub use encoder::encode;
pub use line::{Line, TEXT_ROOM};
pub use writer::{line_of, text};
