//! The outside of the board runner: files that are read, a sink that is written, lines that wait for it, and both in memory.
#![tactic(auto)]

pub mod calls;
pub mod lines;
pub mod memory_files;
pub mod memory_sink;
pub mod outside;
pub mod reading;
pub mod writing;

pub use lines::{LineBuffer, PIECE_ROOM};
pub use memory_files::MemFiles;
pub use memory_sink::MemSink;
pub use outside::{Failed, Files, PickFault, Sink, Source};
pub use reading::{ReadError, read_whole};
pub use writing::{WriteError, write_all};
