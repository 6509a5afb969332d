//! Two passes take turns at one shared state: the firmware's thread with one, the sockets' thread with the other.
//!
//! [`turn::Turn`] holds the state in a table of two words, the next ticket and the ticket that is served. Each call of a
//! [`pass::Pass`] draws a ticket, waits until it is served, and appends one entry to the history. The first cause for which turns
//! ended is kept, and each pass ends with it at its next turn.
//!
//! Whatever the order of turns, the history is legal and the links agree with it; each pass has seen an earlier part of it; and
//! each place of it belongs to exactly one of the two passes.
#![tactic(auto)]

mod kept;
pub mod over;
pub mod pass;
mod table;
pub mod turn;
