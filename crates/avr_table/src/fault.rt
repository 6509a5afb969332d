//! Words that say no instruction.
/// Why a word is no instruction that can be run.
#[derive(Clone, Copy, Debug, PartialEq, Eq)]
pub enum DecodeFault {
    /// No row of the instruction table fits the word.
    Illegal,
    /// A row fits, but the manual calls the result undefined: `ld`, `st` or `lpm` with a pointer that
    /// changes and a register that is one of this pointer's own two.
    Undefined,
}
