//! The outside over the system: its files, and one of its writers. Nothing is told of their bytes.
#![tactic(auto)]

pub mod standard_files;
pub mod standard_out;

pub use standard_files::StdFiles;
pub use standard_out::StdOut;
