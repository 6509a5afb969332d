//! Scripts of the board: their tokens, and the text that they are read from.
//!
//! A script is a text of lines. `#` begins a comment that goes to the end of its line; comments are taken away before the
//! text is cut into lines, which end with LF or CR LF. The first line may be `start TX RX` with the start pointers of the
//! connections; all others hold tokens with spaces between. The definition that `read` is proved against stands in `specs/`.
#![tactic(auto)]

mod check;
pub mod cuts;
pub mod end;
pub mod fault;
pub mod formats;
mod head;
pub mod laws;
mod line;
pub mod links;
mod run;
pub mod scripts;
pub mod session;
pub mod token;
mod tokens;
pub mod told;

pub use end::{ScriptEnd, ScriptStop};
pub use fault::{ReadError, ScriptFault, ScriptKind};
pub use scripts::script;
pub use token::{LinkStep, LinkToken, Token};
