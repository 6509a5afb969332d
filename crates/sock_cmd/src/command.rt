//! Commands: what a command byte asks of a socket, and what it comes to (W5500 datasheet, 4.2 Sn_CR).

ghost use Rattle.std.specs.Prelude.{◌≡◌};
ghost use Rattle.chip_sheet.specs.Life as sheet;
ghost use Rattle.sock_cmd.specs.Effects as effects;

use chip_sheet::event::Addr;
use chip_sheet::socket::{Cause, Status};

/// What the registers of the chip hold as a command is written.
#[derive(Clone, Copy, Debug, PartialEq, Eq)]
pub struct CmdAt {
    /// The socket, 0 to 7. It stands in stops alone.
    pub sn: u8,
    /// Sn_MR: the protocol in bits 3..0, and the multicast bit, bit 7.
    pub mr: u8,
    /// Sn_PORT, the socket's own port.
    pub port: u16,
    /// Sn_DIPR and Sn_DPORT, the address of the peer.
    pub to: Addr,
    /// Whether the buffer sizes of both directions are valid.
    pub sizes_valid: bool,
}

/// What a command came to, beside what the life itself keeps of it. The chip does the rest.
#[derive(Clone, Copy, Debug, PartialEq, Eq)]
pub enum Effect {
    /// Nothing: the status does not take the command, or the byte is none.
    Nothing,
    /// OPEN began a life, for TCP or for UDP: both windows of the buffers are emptied, and all four pointers become 0.
    Opened,
    /// CLOSE ended the life: both windows are emptied, and the pointers stay.
    Closed,
    /// LISTEN: a peer is to be accepted from now on; the port is kept. Nothing is left to do.
    Listen,
    /// CONNECT: a connection is to be made from now on; the address is kept. Nothing is left to do.
    Connect,
    /// DISCON: once no byte is in flight, the outgoing direction is to be ended; what comes from now on is thrown away.
    Discon,
    /// SEND: the bytes that the chip committed before are in flight; where there were none, SENDOK rises at once.
    Send,
    /// RECV: where bytes remain of those that the chip released from before, RECV rises.
    Recv,
}

/// The commands, as bytes written to Sn_CR (datasheet, 4.2 Sn_CR).
pub(crate) const OPEN: u8 = 0x01;

const LISTEN: u8 = 0x02;

const CONNECT: u8 = 0x04;

const DISCON: u8 = 0x08;

const CLOSE: u8 = 0x10;

const SEND: u8 = 0x20;

pub(crate) const SEND_MAC: u8 = 0x21;

const RECV: u8 = 0x40;

/// The protocols in bits 3..0 of Sn_MR, and its multicast bit (datasheet, 4.2 Sn_MR).
pub(crate) const TCP: u8 = 1;

pub(crate) const UDP: u8 = 2;

pub(crate) const MACRAW: u8 = 4;

pub(crate) const MULTI: u8 = 0x80;

/// What OPEN asks of a socket with this protocol. Raw Ethernet is none of them: it stops the board.
fn opening(protocol: u8) -> Cause
    ensures { result ≡ sheet.opening protocol }
{
    match protocol {
        TCP => Cause::OpenTcp,
        UDP => Cause::OpenUdp,
        _ => Cause::Nothing,
    }
}

/// What a command byte asks, where the registers hold this. SEND_KEEP and the values that are no command ask nothing, and so does
/// SEND_MAC, which stops the board.
pub(crate) fn cause_of(c: u8, at: CmdAt) -> Cause
    ensures { result ≡ effects.cause_of c at }
{
    match c {
        OPEN => opening(at.mr % 16),
        LISTEN => Cause::Listen,
        CONNECT => Cause::Connect,
        DISCON => Cause::Disconnect,
        CLOSE => Cause::Close,
        SEND => Cause::Send,
        RECV => Cause::Receive,
        _ => Cause::Nothing,
    }
}

/// What a command comes to in a status.
pub(crate) fn effect_of(status: Status, why: Cause) -> Effect
    ensures { result ≡ effects.effect_of status why }
{
    match (status, why) {
        (Status::Closed, Cause::OpenTcp | Cause::OpenUdp) => Effect::Opened,
        (Status::Init, Cause::Listen) => Effect::Listen,
        (Status::Init, Cause::Connect) => Effect::Connect,
        (Status::Established | Status::CloseWait, Cause::Disconnect) => Effect::Discon,
        (Status::Closed, _) => Effect::Nothing,
        (_, Cause::Close) => Effect::Closed,
        (Status::Established | Status::CloseWait | Status::Udp, Cause::Send) => Effect::Send,
        (Status::Init | Status::Listen | Status::SynSent, _) => Effect::Nothing,
        (_, Cause::Receive) => Effect::Recv,
        _ => Effect::Nothing,
    }
}
