//! The life of a socket: its status, which of its lives it is in, the address and the port that it keeps, and which link call is
//! due (W5500 datasheet, 4.2 Sn_CR and Sn_SR, figure 4 state diagram; the rules on links are this profile's own).
//!
//! [`life::Life`] is one socket. It takes commands, link events and resets, and knows neither buffers nor other registers: the
//! chip tells it what the registers hold, how many bytes are in flight and how many are free. Each call is what the definitions
//! of `chip_sheet` say of the same socket, line by line of the table of socket life.
#![tactic(auto)]

pub mod command;
pub mod laws;
pub mod life;
mod stops;
mod table;
