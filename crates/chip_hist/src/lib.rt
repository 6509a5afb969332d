//! The history of a run: every event of the chip's bus and links with its bytes, as a list that only grows.
//!
//! An event takes a cell of 32 bytes and its bytes of data; a turn in which nothing happened takes no memory. So what is stored
//! is at most 32 bytes for each unit of weight.
#![tactic(auto)]

pub mod history;
mod kept;
pub mod limits;

pub use history::History;
pub use kept::data_len;
