//! Why a text gives no board.
ghost use Rattle.std.specs.Prelude.{◌≡◌};
ghost use Rattle.board_file.specs.declared.fault.BoardError.TheVariants.{Fault, NoMemory};
ghost use Rattle.board_file.specs.Keys.{word};
ghost use Rattle.board_file.specs.Kinds.{kind_word};

use std::alloc::{AllocError, AllocFailed};

/// A key of a board file, or what stands for one in a fault.
#[derive(Clone, Copy, Debug, PartialEq, Eq)]
pub enum Key {
    /// Where the positions of the sent bytes start.
    TxStart,
    /// Where the positions of the received bytes start.
    RxStart,
    /// How much the history of the run may weigh.
    Events,
    /// How many cycles the run may take.
    Cycles,
    /// The ports of the chip at which the host listens.
    Listen,
    /// The addresses of the chip's network that lead to the host's.
    Route,
    /// The scripted peers.
    Peer,
    /// A port of the chip.
    Chip,
    /// A port or an address of the host.
    Host,
    /// An address.
    Addr,
    /// A port.
    Port,
    /// A port of the host that a route leads to.
    HostPort,
    /// What a peer does.
    Kind,
    /// What a server answers.
    Connect,
    /// How many bytes a peer takes at a time.
    Takes,
    /// How many bytes a peer takes in all.
    Room,
    /// What a peer says.
    Say,
    /// After how many bytes it says each of it.
    After,
    /// After how many bytes it ends.
    End,
    /// Which call of a peer fails.
    Fail,
    /// How often a peer answers NotYet before each move.
    Lag,
    /// The whole file, where it is no TOML.
    File,
    /// A key that its table does not have.
    Unknown,
}

impl Key {
    /// The key as it is written and printed.
    pub fn word(self) -> &'static str
        ensures { result.now ≡ word self }
    {
        match self {
            Key::TxStart => "tx_start",
            Key::RxStart => "rx_start",
            Key::Events => "events",
            Key::Cycles => "cycles",
            Key::Listen => "listen",
            Key::Route => "route",
            Key::Peer => "peer",
            Key::Chip => "chip",
            Key::Host => "host",
            Key::Addr => "addr",
            Key::Port => "port",
            Key::HostPort => "host_port",
            Key::Kind => "kind",
            Key::Connect => "connect",
            Key::Takes => "takes",
            Key::Room => "room",
            Key::Say => "say",
            Key::After => "after",
            Key::End => "end",
            Key::Fail => "fail",
            Key::Lag => "lag",
            Key::File => "file",
            Key::Unknown => "unknown",
        }
    }
}

/// What is wrong with a key. Of several, the first in this order stands, but that `Unknown` keys come behind the known ones.
#[derive(Clone, Copy, Debug, PartialEq, Eq)]
pub enum KeyKind {
    /// It is required and not there.
    Missing,
    /// Its value, or one in its list, is of another type.
    WrongType,
    /// A number is out of its range, or a list too long.
    OutOfRange,
    /// A text is no address, no word or no bytes, or too long, or the lengths of two lists differ.
    BadText,
    /// Its table has no such key.
    Unknown,
    /// The file is no TOML.
    BadToml,
}

impl KeyKind {
    /// The kind as it is printed.
    pub fn word(self) -> &'static str
        ensures { result.now ≡ kind_word self }
    {
        match self {
            KeyKind::Missing => "Missing",
            KeyKind::WrongType => "WrongType",
            KeyKind::OutOfRange => "OutOfRange",
            KeyKind::BadText => "BadText",
            KeyKind::Unknown => "Unknown",
            KeyKind::BadToml => "BadToml",
        }
    }
}

/// The first fault of a board file.
#[derive(Clone, Copy, Debug, PartialEq, Eq)]
pub struct BoardFault {
    /// The key that is faulty.
    pub key: Key,
    /// The index of the entry of `listen`, `route` or `peer` that it stands in, from 0; 0 for a key of the file itself.
    pub entry: u32,
    /// What is wrong.
    pub kind: KeyKind,
}

/// Why a text gives no board.
#[derive(Clone, Copy, Debug, PartialEq, Eq)]
pub enum BoardError {
    /// Its first fault.
    Fault(BoardFault),
    /// Memory was not there.
    NoMemory,
}

/// A fault as an error.
pub fn fault(key: Key, entry: u32, kind: KeyKind) -> BoardError
    ensures { result ≡ Fault (record { key = key; entry = entry; kind = kind }) }
{
    BoardError::Fault(BoardFault { key, entry, kind })
}

impl From<BoardFault> for BoardError {
    ghost from_gives = { λ fault e. e ≡ Fault fault };

    fn from(fault: BoardFault) -> Self {
        BoardError::Fault(fault)
    }
}

impl From<AllocError> for BoardError {
    ghost from_gives = { λ _ e. e ≡ NoMemory };

    fn from(_: AllocError) -> Self {
        BoardError::NoMemory
    }
}

impl<T: Drop> From<AllocFailed<T>> for BoardError {
    ghost from_gives = { λ _ e. e ≡ NoMemory };

    fn from(_: AllocFailed<T>) -> Self {
        BoardError::NoMemory
    }
}
