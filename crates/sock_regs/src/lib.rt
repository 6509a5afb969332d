//! One socket's register block (W5500 datasheet, 3.2 and 4.2): an array of bytes, each at its place.
//!
//! The registers answer for every place but the status, the sizes of the windows and the pointers, which the socket's life and
//! its buffers answer. The contracts are for any function of places that the registers hold (`Reads`); laws tie their steps to
//! what the datasheet's table says after a history.
#![tactic(auto)]

pub mod laws;
pub mod registers;
