//! Every command but a live run, over any files and any sink: words, operands, what a command comes to, how it ends.
//!
//! [`quick::quick`] does what words ask, and `specs/Outcome` says what it leaves.
#![tactic(auto)]

mod boards;
pub mod end;
pub mod left;
pub mod loading;
pub mod quick;
pub mod reading;
pub mod runs;
mod texts;
pub mod words;
