//! The top call, every command: [`top::top`] is `quick` of `board_quick`, or for a `run` the live run of the image on the board.
//! `specs/Tops` says what it leaves.
#![tactic(auto)]

pub mod end;
pub mod top;
