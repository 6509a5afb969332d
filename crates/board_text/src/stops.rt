//! The text of stops.
ghost use Rattle.std.specs.Prelude.{◌≡◌, IfOk, string_bytes};
ghost use Rattle.board_text.specs.Stops.{stop_line, stop_name, stop_text};

use chip_sheet::stop::ChipStop;
use std::alloc::{AllocError, Global};

// The name of a stop.
fn stop_name(stop: ChipStop) -> &'static str
    ensures { result.now ≡ stop_name stop }
{
    match stop {
        ChipStop::ReservedBlock { .. } => "ReservedBlock",
        ChipStop::Pppoe => "Pppoe",
        ChipStop::SizeWhileOpen { .. } => "SizeWhileOpen",
        ChipStop::OverwriteInFlight { .. } => "OverwriteInFlight",
        ChipStop::SendMac { .. } => "SendMac",
        ChipStop::RawEthernet { .. } => "RawEthernet",
        ChipStop::Multicast { .. } => "Multicast",
        ChipStop::BadBufferSize { .. } => "BadBufferSize",
        ChipStop::SendBusy { .. } => "SendBusy",
        ChipStop::SendTooLong { .. } => "SendTooLong",
        ChipStop::RecvPastEnd { .. } => "RecvPastEnd",
    }
}

/// The name of a stop and its values in decimal, in the order of its fields, with one space between.
///
/// # Errors
///
/// Want of memory alone.
pub fn stop_text(alloc: Global, stop: ChipStop) -> Result<String, AllocError>
    ensures { IfOk result (λ text. string_bytes text ≡ stop_text stop) }
{
    let name = stop_name(stop);
    match stop {
        ChipStop::Pppoe => format!(in alloc; "{name}"),
        ChipStop::ReservedBlock { block } => format!(in alloc; "{name} {block}"),
        ChipStop::SizeWhileOpen { sn }
        | ChipStop::SendMac { sn }
        | ChipStop::RawEthernet { sn }
        | ChipStop::Multicast { sn }
        | ChipStop::BadBufferSize { sn }
        | ChipStop::SendBusy { sn } => format!(in alloc; "{name} {sn}"),
        ChipStop::OverwriteInFlight { sn, at } => format!(in alloc; "{name} {sn} {at}"),
        ChipStop::SendTooLong { sn, len, free } => format!(in alloc; "{name} {sn} {len} {free}"),
        ChipStop::RecvPastEnd { sn, asked, there } => format!(in alloc;
            "{name} {sn} {asked} {there}"
        ),
    }
}

/// The line of a stop that ends a command.
///
/// # Errors
///
/// Want of memory alone.
pub fn stop_line(alloc: Global, stop: ChipStop) -> Result<String, AllocError>
    ensures { IfOk result (λ line. string_bytes line ≡ stop_line stop) }
{
    let text = stop_text(alloc, stop)?;
    format!(in alloc; "stop {text}\n")
}
