//! The stops of a command that need no buffer (this profile's own): each is a row of its own, and the first that holds counts.

ghost use Rattle.std.specs.Prelude.{◌≡◌};
ghost use Rattle.chip_sheet.specs.Stops as rows;
ghost use Rattle.sock_cmd.specs.LifeStops as stops;

use crate::command::{CmdAt, MACRAW, MULTI, OPEN, SEND_MAC, TCP, UDP};
use crate::table::is_closed;
use chip_sheet::socket::Status;
use chip_sheet::stop::ChipStop;

/// SEND_MAC, in any status.
fn send_mac(sn: u8, c: u8) -> Option<ChipStop>
    ensures { result ≡ rows.send_mac sn c }
{
    (c == SEND_MAC).then_some(ChipStop::SendMac { sn })
}

/// OPEN in CLOSED for raw Ethernet frames.
fn raw_ethernet(sn: u8, status: Status, mode: u8, c: u8) -> Option<ChipStop>
    ensures { result ≡ rows.raw_ethernet sn status mode c }
{
    (c == OPEN && is_closed(status) && mode % 16 == MACRAW).then_some(ChipStop::RawEthernet { sn })
}

/// OPEN in CLOSED for UDP with the multicast bit.
fn multicast(sn: u8, status: Status, mode: u8, c: u8) -> Option<ChipStop>
    ensures { result ≡ rows.multicast sn status mode c }
{
    (c == OPEN && is_closed(status) && mode % 16 == UDP && mode / MULTI % 2 == 1).then_some(
        ChipStop::Multicast { sn },
    )
}

/// OPEN in CLOSED for TCP or UDP while the buffer sizes of a direction are not valid.
fn bad_buffer_size(sn: u8, status: Status, mode: u8, valid: bool, c: u8) -> Option<ChipStop>
    ensures { result ≡ rows.bad_buffer_size sn status mode valid c }
{
    (c == OPEN && is_closed(status) && (mode % 16 == TCP || mode % 16 == UDP) && !valid).then_some(
        ChipStop::BadBufferSize { sn },
    )
}

/// The first stop that holds of a command byte, where the registers hold this.
pub(crate) fn life_stop(status: Status, c: u8, at: CmdAt) -> Option<ChipStop>
    ensures { result ≡ stops.life_stop at.sn status at.mr at.sizes_valid c }
{
    if let Some(stop) = send_mac(at.sn, c) {
        return Some(stop);
    }
    if let Some(stop) = raw_ethernet(at.sn, status, at.mr, c) {
        return Some(stop);
    }
    if let Some(stop) = multicast(at.sn, status, at.mr, c) {
        return Some(stop);
    }
    bad_buffer_size(at.sn, status, at.mr, at.sizes_valid, c)
}
