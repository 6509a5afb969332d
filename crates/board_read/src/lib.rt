//! What is read in scripts and in board files alike: numbers in decimal, addresses, and bytes as hexadecimal digits.
#![tactic(auto)]

pub mod bytes;
pub mod cuts;
pub mod numbers;
