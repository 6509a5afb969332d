//! The common register block (W5500 datasheet, 3.1 and 4.1): an array of bytes, each at its address.
//!
//! The contracts are for any function of places that the registers hold (`Reads`); laws tie its steps to what the datasheet's
//! table says after a history.
#![tactic(auto)]

pub mod laws;
pub mod registers;
