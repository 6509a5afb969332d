//! What a link event makes of the registers and the life of its socket, and of SIR.
ghost use Rattle.std.specs.Prelude.{◌≡◌, ◌<◌, ℕ};
ghost use Rattle.chip_sheet.specs.declared.event.LinkEntry.{LinkEntry};
ghost use Rattle.chip_sheet.specs.Past.{Past, link_entry};
ghost use Rattle.chip_sheet.specs.Life.{happening};
ghost use Rattle.chip_sheet.specs.Streams.{Starts};
ghost use Rattle.sock_regs.specs.Holding.{Reads};
ghost use Rattle.chip_links.specs.Noting.{life_bits, peer_of, with_peer, SameToLife, NotesAt};

use chip_parts::parts::Parts;
use chip_sheet::event::LinkWhat;
use chip_sheet::socket::Status;
use irq_lines::lines;
use sock_regs::registers::SockRegs;

/// CON: a connection was made.
pub(crate) const CONNECTED: u8 = 0x01;

/// DISCON: the peer has ended.
pub(crate) const DISCONNECTED: u8 = 0x02;

/// RECV: bytes were put into the RX buffer.
pub(crate) const RECEIVED: u8 = 0x04;

/// TIMEOUT: no peer answered, or the link failed.
pub(crate) const TIMED_OUT: u8 = 0x08;

/// SENDOK: all bytes of a SEND were taken.
pub(crate) const SEND_OK: u8 = 0x10;

/// The bits of Sn_IR that a link event raises in a status by the table of socket life. What bytes raise is not looked at.
pub(crate) fn life_bits(e: &LinkWhat<'_>, at: Status) -> u8
    ensures { result ≡ life_bits (happening (link_entry e.now)) at }
{
    match (e, at) {
        (LinkWhat::Accepted(_), Status::Listen) => CONNECTED,
        (LinkWhat::Linked, Status::SynSent) => CONNECTED,
        (LinkWhat::Ended, Status::Established | Status::FinWait) => DISCONNECTED,
        (LinkWhat::TimedOut, Status::SynSent) => TIMED_OUT,
        (LinkWhat::Failed, Status::Closed | Status::Init) => 0,
        (LinkWhat::Failed, _) => TIMED_OUT,
        _ => 0,
    }
}

/// Makes Sn_DIPR and Sn_DPORT the address of the peer, where the event is the accepting of one.
fn take_peer(registers: &mut SockRegs, e: &LinkWhat<'_>)
    ensures { (f : ℕ → ℕ) → Reads registers.old f → Reads registers.new (with_peer (peer_of (link_entry e.now)) f) }
{
    if let LinkWhat::Accepted(from) = e {
        registers.set_peer(*from);
    }
}

/// Takes a link event of a socket, but for its buffers: the life goes on, the registers show an accepted peer, these bits of
/// Sn_IR rise, and SIR follows.
pub(crate) fn note(parts: &mut Parts, sn: u8, e: &LinkWhat<'_>, bits: u8)
    requires { sn < 8 }
    ensures notes { (starts : Starts) (past : Past) (what : LinkEntry) → SameToLife what (link_entry e.now) → NotesAt starts past what sn bits parts.old parts.new }
    ensures same { parts.new ≡ record parts.old { registers = parts.new.registers; lives = parts.new.lives; sir = parts.new.sir } }
{
    parts.lives[sn as usize].link_event(e);
    let registers = &mut parts.registers[sn as usize];
    take_peer(registers, e);
    registers.raise(bits);
    let ir = registers.interrupts();
    let imr = registers.mask();
    parts.sir = lines::sir_with(parts.sir, sn, ir, imr);
}
