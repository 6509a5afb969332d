//! Laws of the chip's definitions that no other crate cites.
//!
//! They stand above `chip_sheet`, so that the crates on it need not be proved anew where a law is added. The lemmas that laws and
//! crates of the chip share stand in `chip_sheet`, worked rows in `chip_rows`.
#![tactic(auto)]

pub mod answers;
pub mod kept;
pub mod legal;
pub mod socket_laws;
pub mod stands;
pub mod supplied;
