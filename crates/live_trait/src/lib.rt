//! What a live run asks of the outside beside its links: places at which it can be held, and waits for readiness.
#![tactic(auto)]

pub mod gates;
pub mod listed;
pub mod waiting;

pub use gates::{Gate, OpenGate, Point};
pub use listed::ListPoller;
pub use waiting::Poller;
pub use wz_base::Failed;
