//! Why a text gives no script.

ghost use Rattle.std.specs.Prelude.{◌≡◌};
ghost use Rattle.board_gen.specs.declared.fault.ReadError.TheVariants.{Fault, NoMemory};

use std::alloc::{AllocError, AllocFailed};

/// What is wrong in a script, or does not fit when it runs.
#[derive(Clone, Copy, Debug, PartialEq, Eq)]
pub enum ScriptKind {
    /// The first token of the first line is `start`, and the line is not `start` with two numbers of 0 to 65535.
    BadHead,
    /// A token is none of those of the format.
    BadToken,
    /// A link event does not fit.
    NotDue,
}

/// What is wrong in a script, and where.
#[derive(Clone, Copy, Debug, PartialEq, Eq)]
pub struct ScriptFault {
    /// The number of the line, from 1.
    pub line: u32,
    /// What is wrong.
    pub kind: ScriptKind,
}

/// Why a text gives no script.
#[derive(Clone, Copy, Debug, PartialEq, Eq)]
pub enum ReadError {
    /// Its first fault, a `BadHead` or a `BadToken`.
    Fault(ScriptFault),
    /// Memory was not there.
    NoMemory,
}

impl From<ScriptFault> for ReadError {
    ghost from_gives = { λ fault e. e ≡ Fault fault };

    fn from(fault: ScriptFault) -> Self {
        ReadError::Fault(fault)
    }
}

impl From<AllocError> for ReadError {
    ghost from_gives = { λ _ e. e ≡ NoMemory };

    fn from(_: AllocError) -> Self {
        ReadError::NoMemory
    }
}

impl<T: Drop> From<AllocFailed<T>> for ReadError {
    ghost from_gives = { λ _ e. e ≡ NoMemory };

    fn from(_: AllocFailed<T>) -> Self {
        ReadError::NoMemory
    }
}
