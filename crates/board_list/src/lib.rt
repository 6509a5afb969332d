//! The listing of a flash image: a line for each instruction, with its place, its words and its text.
#![tactic(auto)]

pub mod laws;
pub mod listing;

pub use listing::list;
