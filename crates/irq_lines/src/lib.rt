//! The interrupt lines (W5500 datasheet, 4.1 IR, IMR, SIR and SIMR, 4.2 Sn_IR and Sn_IMR): what SIR reads, and whether INTn is
//! low.
//!
//! The contracts are of the registers as numbers; laws tie them to what the definitions say after a history.
#![tactic(auto)]

pub mod laws;
pub mod lines;
