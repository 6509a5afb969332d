//! The buffers of the eight sockets: one memory of 16,384 bytes for each direction, of which each socket has a part.
//!
//! Socket n's part of a memory begins at the sum of the sizes of the sockets below n. A byte stands at its position modulo
//! the size, and pointers are 16 bits and wrap: every size but 0 divides 65,536, so a pointer and a position name one
//! place. SEND copies nothing; the bytes in flight stay where firmware wrote them, and a mark stands at the last byte of
//! each range. Bytes that arrive are read into the free part of the RX memory itself.
//!
//! Every call but [`rings::Rings::new`] takes no memory. The contracts are quantified over the lists without bound that a
//! part stands for (`chip_sheet`, `Sending` and `Receiving`), so a body of another form could meet them word for word.
#![tactic(auto)]

pub mod laws;
mod layout;
mod pointers;
mod receives;
pub mod rings;
mod sends;
