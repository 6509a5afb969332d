//! Board files: TOML texts that say how a board is set up.
//!
//! A file has the numbers of a run, the ports and addresses of a live one (`listen`, `route`) and the peers of a scripted one
//! (`peer`). The definition that `board` is proved against stands in `specs/`: `Rows` and `Peers` have a row for each key,
//! `Boards` the order in which they are judged.
#![tactic(auto)]

pub mod boards;
pub mod fault;
mod lookup;
mod peers;
mod rows;
pub mod setup;
mod tables;
mod values;

pub use boards::board;
pub use fault::{BoardError, BoardFault, Key, KeyKind};
pub use setup::Board;
