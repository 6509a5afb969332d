//! Traces of the board: what `judge` says of a history that was written down.
//!
//! A trace is a text of lines, which end with LF or CR LF. The first is `w5500 trace 1 TX RX` with the start pointers of the
//! connections; each other line is an event of the history, as `trace` writes it. `judge` says whether the datasheet allows the
//! history, and else at which place it breaks it first. The definition that it is proved against stands in `specs/`.
#![tactic(auto)]

mod check;
mod chip;
pub mod end;
pub mod entries;
mod entry;
mod head;
pub mod judging;
pub mod laws;
mod lines;
mod run;
mod verdict;

pub use end::{JudgeEnd, JudgeFault, JudgeStop};
pub use judging::judge;
