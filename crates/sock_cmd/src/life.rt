//! One socket: its life, the address and the port that it keeps, and what is due.

ghost use Rattle.std.specs.Prelude.{◌≡◌, ◌<◌, ◌^◌, ℕ, [], None, Some, true, IfOk, OnOk, IfErr, OnErr, if◌then◌else◌};
ghost use Rattle.chip_sheet.specs.declared.event.Addr.{Addr};
ghost use Rattle.chip_sheet.specs.declared.socket.Cause.TheVariants as because;
ghost use Rattle.chip_sheet.specs.Past.{link_entry};
ghost use Rattle.chip_sheet.specs.Life as sheet;
ghost use Rattle.chip_sheet.specs.LinkCalls as calls;
ghost use Rattle.chip_sheet.specs.Streams as streams;
ghost use Rattle.sock_cmd.specs.Effects as effects;
ghost use Rattle.sock_cmd.specs.LifeStops as stops;

use crate::command::{CmdAt, Effect, cause_of, effect_of};
use crate::stops::life_stop;
use crate::table;
use chip_sheet::event::{Addr, ConnId, LinkWhat};
use chip_sheet::socket::{Cause, Due, Status};
use chip_sheet::stop::ChipStop;

const NO_ADDRESS: Addr = Addr {
    ip: [0, 0, 0, 0],
    port: 0,
};

/// One socket: its status, which of its lives it is in, what came in that one, and the address and the port that it keeps.
#[derive(Clone, Copy, Debug, PartialEq, Eq)]
pub struct Life {
    /// Its status.
    status: Status,
    /// How many lives have begun; the present one has this number.
    lives: u64,
    /// Whether the peer has ended in this life.
    ended: bool,
    /// Whether the link was shut in this life.
    shut: bool,
    /// Whether the link was asked for a connection or for datagrams in this life.
    asked: bool,
    /// The life that has closed and that the link is still to forget.
    to_forget: Option<u64>,
    /// The address kept at the last accepted CONNECT, or SEND in UDP.
    address: Addr,
    /// The socket's own port, kept at the last accepted LISTEN, or OPEN for UDP.
    port: u16,
}

impl Life {
    ghost use Rattle.sock_cmd.specs.Lives.{life_of, address_of, port_of, Happened, IsAfter, due_of};

    /// A socket before anything happened: CLOSED, and no life has begun.
    pub fn new() -> Life
        ensures { (n : ℕ) → IsAfter result [] n }
    {
        Life {
            status: Status::Closed,
            lives: 0,
            ended: false,
            shut: false,
            asked: false,
            to_forget: None,
            address: NO_ADDRESS,
            port: 0,
        }
    }

    /// Takes the command byte `c`, written to Sn_CR while the registers hold `at`, and answers what it came to (datasheet, 4.2
    /// Sn_CR). A command is accepted at once, and one that the status does not take changes nothing.
    ///
    /// The stops of SEND and RECV are not looked at here: they need the buffers. So the chip commits or releases before it calls
    /// this.
    ///
    /// # Errors
    ///
    /// The first of `SendMac`, `RawEthernet`, `Multicast` and `BadBufferSize` that holds. The life is then as it was.
    pub fn command(&mut self, c: u8, at: CmdAt) -> Result<Effect, ChipStop>
        requires { (life_of self.old).lives < 2 ^ 60 }
        ensures happened { OnOk result (Happened self.old (effects.cause_of c at) at.to at.port self.new) }
        ensures effect { IfOk result (λ effect. effect ≡ effects.effect_of (life_of self.old).status (effects.cause_of c at)) }
        ensures allowed { OnOk result (stops.life_stop at.sn (life_of self.old).status at.mr at.sizes_valid c ≡ None) }
        ensures stopped { IfErr result (λ stop. stops.life_stop at.sn (life_of self.old).status at.mr at.sizes_valid c ≡ Some stop) }
        ensures kept { OnErr result (self.new ≡ self.old) }
    {
        if let Some(stop) = life_stop(self.status, c, at) {
            return Err(stop);
        }
        let why = cause_of(c, at);
        let effect = effect_of(self.status, why);
        self.keep(why, at.to, at.port);
        self.happens(why);
        Ok(effect)
    }

    /// Takes a link event of this socket. None keeps an address or a port.
    pub fn link_event(&mut self, e: &LinkWhat<'_>)
        ensures { (to : Addr) (port : ℕ) → Happened self.old (sheet.happening (link_entry e.now)) to port self.new }
    {
        let why = table::happening(e);
        let after = self.next(why);
        self.live_on(why, after);
    }

    /// Takes a reset of the chip: the socket is closed. The number of its lives goes on.
    pub fn reset(&mut self)
        ensures { (to : Addr) (port : ℕ) → Happened self.old because.Reset to port self.new }
    {
        self.live_on(Cause::Reset, Status::Closed);
    }

    /// What Sn_SR reads (datasheet, 4.2 Sn_SR).
    #[inline]
    pub fn status(&self) -> u8
        ensures { result ≡ sheet.status_code (life_of self.now).status }
    {
        table::status_code(self.status)
    }

    /// Its status.
    #[inline]
    pub fn state(&self) -> Status
        ensures { result ≡ (life_of self.now).status }
    {
        self.status
    }

    /// How many lives have begun; the present one has this number.
    #[inline]
    pub fn lives(&self) -> u64
        ensures { result ≡ (life_of self.now).lives }
    {
        self.lives
    }

    /// The life that has closed and that the link is still to forget, if there is one.
    #[inline]
    pub fn old_life(&self) -> Option<u64>
        ensures { result ≡ (life_of self.now).old }
    {
        self.to_forget
    }

    /// Whether it is CLOSED.
    #[inline]
    pub fn is_closed(&self) -> bool
        ensures { result ≡ sheet.is_closed (life_of self.now).status }
    {
        table::is_closed(self.status)
    }

    /// Whether it is open for UDP.
    #[inline]
    pub fn is_udp(&self) -> bool
        ensures { result ≡ sheet.is_udp (life_of self.now).status }
    {
        table::is_udp(self.status)
    }

    /// Whether it is connected and neither side has ended: then bytes from the link are put into the RX buffer.
    #[inline]
    pub fn is_established(&self) -> bool
        ensures { result ≡ streams.is_established (life_of self.now).status }
    {
        table::is_established(self.status)
    }

    /// Whether RECV releases bytes, and the windows of its buffers may hold any.
    #[inline]
    pub fn is_open(&self) -> bool
        ensures { result ≡ streams.is_open (life_of self.now).status }
    {
        table::is_open(self.status)
    }

    /// Whether SEND takes bytes.
    #[inline]
    pub fn sends(&self) -> bool
        ensures { result ≡ streams.sends (life_of self.now).status }
    {
        table::sends(self.status)
    }

    /// The link call that is due at a place of the chip, 0 to 15, where this is the socket of that place, `in_flight` bytes of
    /// its TX buffer are in flight, and `room` bytes of its RX buffer are free. Place 2n is the outgoing one of socket n, which
    /// looks at `in_flight`, and 2n + 1 its incoming one, which looks at `room`.
    pub fn due(&self, place: u8, in_flight: u32, room: u32) -> Due
        ensures { result ≡ due_of place self.now in_flight room }
    {
        if place % 2 == 0 {
            self.outgoing(place / 2, in_flight)
        } else {
            self.incoming(place / 2, room)
        }
    }

    /// The connection of the present life, where this is socket `sn`.
    fn connection(&self, sn: u8) -> ConnId
        ensures { result ≡ calls.connection sn (life_of self.now).lives }
    {
        ConnId {
            sn,
            life: self.lives,
        }
    }

    /// The link call that is due at the outgoing place. While a life that has closed is not forgotten, nothing but its drop is
    /// due.
    fn outgoing(&self, sn: u8, in_flight: u32) -> Due
        ensures { result ≡ calls.outgoing_of sn (life_of self.now) (address_of self.now) (port_of self.now) in_flight }
    {
        if let Some(life) = self.to_forget {
            return Due::Drop(ConnId { sn, life });
        }
        let c = self.connection(sn);
        match self.status {
            Status::SynSent => Due::Connect(c, self.address),
            Status::Established | Status::CloseWait | Status::FinWait | Status::LastAck
                if 0 < in_flight => Due::Write(c),
            Status::FinWait | Status::LastAck if !self.shut => Due::Shut(c),
            Status::Udp if 0 < in_flight => Due::SendTo(c, self.port, self.address),
            _ => Due::Nothing,
        }
    }

    /// The link call that is due at the incoming place.
    fn incoming(&self, sn: u8, room: u32) -> Due
        ensures { result ≡ calls.incoming_of sn (life_of self.now) (port_of self.now) room }
    {
        if self.to_forget.is_some() {
            return Due::Nothing;
        }
        let c = self.connection(sn);
        match self.status {
            Status::Listen => Due::Accept(c, self.port),
            Status::Established if 0 < room => Due::Read(c),
            Status::FinWait if !self.ended => Due::ReadAway(c),
            Status::Udp => Due::RecvFrom(c, self.port),
            _ => Due::Nothing,
        }
    }

    /// Keeps the address and the port that stand in the registers, where what happens keeps them.
    fn keep(&mut self, why: Cause, to: Addr, port: u16)
        ensures life { life_of self.new ≡ life_of self.old }
        ensures address { address_of self.new ≡ (if calls.keeps_address why (life_of self.old).status then to else address_of self.old) }
        ensures port { port_of self.new ≡ (if calls.keeps_port why (life_of self.old).status then port else port_of self.old) }
    {
        if table::keeps_address(why, self.status) {
            self.address = to;
        }
        if table::keeps_port(why, self.status) {
            self.port = port;
        }
    }

    /// Takes what happens to the socket, but for the address and the port.
    fn happens(&mut self, why: Cause)
        requires { (life_of self.old).lives < 2 ^ 60 }
        ensures life { life_of self.new ≡ sheet.life_after (life_of self.old) why }
        ensures address { address_of self.new ≡ address_of self.old }
        ensures port { port_of self.new ≡ port_of self.old }
    {
        let after = self.next(why);
        if table::begins(why, self.status) {
            self.begin(after);
        } else {
            self.live_on(why, after);
        }
    }

    /// The status after something happens.
    fn next(&self, why: Cause) -> Status
        ensures { result ≡ sheet.next (life_of self.now).status why (sheet.facts_of why (life_of self.now)) }
    {
        table::next(self.status, why, self.other_came(why))
    }

    /// Whether the other of Ended and Shut came before in this life.
    fn other_came(&self, why: Cause) -> bool
        ensures { result ≡ sheet.other_came why (life_of self.now) }
    {
        match why {
            Cause::Ended => self.shut,
            Cause::Shut => self.ended,
            _ => false,
        }
    }

    /// Begins a new life in a status.
    fn begin(&mut self, after: Status)
        requires { (life_of self.old).lives < 2 ^ 60 }
        ensures life { life_of self.new ≡ sheet.new_life (life_of self.old) after }
        ensures address { address_of self.new ≡ address_of self.old }
        ensures port { port_of self.new ≡ port_of self.old }
    {
        self.status = after;
        self.lives += 1;
        self.ended = false;
        self.shut = false;
        self.asked = table::asks_link(after);
    }

    /// Goes on with the present life, which comes to a status. Where it closes now, and the link was asked in it, the link is to
    /// forget it, unless it is still to forget an older one.
    fn live_on(&mut self, why: Cause, after: Status)
        ensures life { life_of self.new ≡ sheet.lives_on (life_of self.old) why after }
        ensures address { address_of self.new ≡ address_of self.old }
        ensures port { port_of self.new ≡ port_of self.old }
    {
        self.to_forget = self.old_after(why, after);
        self.status = after;
        self.ended = self.ended || matches!(why, Cause::Ended);
        self.shut = self.shut || matches!(why, Cause::Shut);
        self.asked = self.asked || table::asks_link(after);
    }

    /// The life that the link is to forget, once something happened after which the present life goes on in a status.
    fn old_after(&self, why: Cause, after: Status) -> Option<u64>
        ensures { result ≡ sheet.old_after why (sheet.closing (life_of self.now) after) (life_of self.now).old }
    {
        match (why, self.to_forget) {
            (Cause::Dropped, _) => None,
            (_, Some(life)) => Some(life),
            (_, None) => self.closing(after),
        }
    }

    /// The number of the present life, where it closes now and the link was asked in it.
    fn closing(&self, after: Status) -> Option<u64>
        ensures { result ≡ sheet.closing (life_of self.now) after }
    {
        (!table::is_closed(self.status) && table::is_closed(after) && self.asked).then_some(
            self.lives,
        )
    }
}
