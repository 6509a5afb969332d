//! The chip, the history of what happened to it, and its links, always together: what a run of firmware works on.
//!
//! [`shared::Shared`] takes events of the bus and steps of the links. Each appends exactly one entry to the history; the history
//! is legal, the chip stands for it, and the links agree with it, whatever the order of the steps.
#![tactic(auto)]

mod answers;
mod calls;
pub mod closing;
mod making;
mod reads;
pub mod shared;
mod steps;
pub mod sweep;
