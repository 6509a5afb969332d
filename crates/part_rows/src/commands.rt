//! Worked steps of one socket, number 3, whose outgoing place is 6 and whose incoming place is 7.

use Step::{Command, Elsewhere, Link, Reset, Unsized};
use chip_sheet::event::{Addr, ConnId, LinkWhat};
use chip_sheet::socket::Due;
use chip_sheet::socket::Due::{
    Accept, Connect, Drop, Read, ReadAway, RecvFrom, SendTo, Shut, Write,
};
use chip_sheet::stop::ChipStop;
use chip_sheet::stop::ChipStop::{BadBufferSize, Multicast, RawEthernet, SendMac};
use sock_cmd::command::{CmdAt, Effect};
use sock_cmd::life::Life;

const PEER: Addr = Addr {
    ip: [10, 0, 0, 2],
    port: 5000,
};

const OTHER: Addr = Addr {
    ip: [10, 0, 0, 9],
    port: 80,
};

const PORT: u16 = 7777;

const FIRST: ConnId = ConnId { sn: 3, life: 1 };

const THIRD: ConnId = ConnId { sn: 3, life: 3 };

const FOURTH: ConnId = ConnId { sn: 3, life: 4 };

const NONE: Due = Due::Nothing;

#[derive(Clone, Copy)]
enum Step {
    /// A command byte, while Sn_MR holds this, and what is answered.
    Command(u8, u8, Result<Effect, ChipStop>),
    /// The same, while the buffer sizes are not valid.
    Unsized(u8, u8, Result<Effect, ChipStop>),
    /// The same, while Sn_DIPR and Sn_DPORT hold another address.
    Elsewhere(u8, u8, Result<Effect, ChipStop>),
    /// A link event.
    Link(LinkWhat<'static>),
    /// A reset of the chip.
    Reset,
}

const UNSIZED_TCP: Step = Unsized(0x01, 0x01, Err(BadBufferSize { sn: 3 }));

const UNSIZED_MULTICAST: Step = Unsized(0x01, 0x82, Err(Multicast { sn: 3 }));

const UNSIZED_RAW: Step = Unsized(0x01, 0x04, Err(RawEthernet { sn: 3 }));

const SEND_MAC_STOPS: Step = Command(0x21, 0x01, Err(SendMac { sn: 3 }));

const OPEN_TCP: Step = Command(0x01, 0x81, Ok(Effect::Opened));

const OPEN_UDP: Step = Command(0x01, 0x02, Ok(Effect::Opened));

const LISTEN: Step = Command(0x02, 0x01, Ok(Effect::Listen));

const LISTEN_IN_VAIN: Step = Command(0x02, 0x01, Ok(Effect::Nothing));

const CONNECT: Step = Command(0x04, 0x01, Ok(Effect::Connect));

const DISCON: Step = Command(0x08, 0x01, Ok(Effect::Discon));

const DISCON_IN_VAIN: Step = Command(0x08, 0x01, Ok(Effect::Nothing));

const CLOSE: Step = Command(0x10, 0x01, Ok(Effect::Closed));

const SEND: Step = Command(0x20, 0x02, Ok(Effect::Send));

const SEND_ELSEWHERE: Step = Elsewhere(0x20, 0x01, Ok(Effect::Nothing));

const RECV: Step = Command(0x40, 0x02, Ok(Effect::Recv));

const ACCEPTED: Step = Link(LinkWhat::Accepted(PEER));

const LISTENING: Due = Accept(FIRST, PORT);

const CONNECTING: Due = Connect(THIRD, PEER);

const RECEIVING: Due = RecvFrom(FOURTH, PORT);

const SENDING: Due = SendTo(FOURTH, PORT, PEER);

/// Each step, the bytes in flight after it, and then the status and what is due at both places while 9 bytes are free.
const STEPS: [(Step, u32, u8, Due, Due); 30] = [
    (UNSIZED_TCP, 0, 0x00, NONE, NONE),
    (UNSIZED_MULTICAST, 0, 0x00, NONE, NONE),
    (UNSIZED_RAW, 0, 0x00, NONE, NONE),
    (SEND_MAC_STOPS, 0, 0x00, NONE, NONE),
    (OPEN_TCP, 0, 0x13, NONE, NONE),
    (Link(LinkWhat::Failed), 0, 0x13, NONE, NONE),
    (LISTEN, 0, 0x14, NONE, LISTENING),
    (ACCEPTED, 5, 0x17, Write(FIRST), Read(FIRST)),
    (Link(LinkWhat::Took(5)), 0, 0x17, NONE, Read(FIRST)),
    (Link(LinkWhat::Ended), 0, 0x1C, NONE, NONE),
    (LISTEN_IN_VAIN, 0, 0x1C, NONE, NONE),
    (DISCON, 0, 0x1D, Shut(FIRST), NONE),
    (DISCON_IN_VAIN, 5, 0x1D, Write(FIRST), NONE),
    (Link(LinkWhat::Shut), 0, 0x00, Drop(FIRST), NONE),
    (OPEN_TCP, 0, 0x13, Drop(FIRST), NONE),
    (CONNECT, 0, 0x15, Drop(FIRST), NONE),
    (CLOSE, 0, 0x00, Drop(FIRST), NONE),
    (Link(LinkWhat::Dropped), 0, 0x00, NONE, NONE),
    (OPEN_TCP, 0, 0x13, NONE, NONE),
    (CONNECT, 0, 0x15, CONNECTING, NONE),
    (SEND_ELSEWHERE, 0, 0x15, CONNECTING, NONE),
    (Link(LinkWhat::Linked), 0, 0x17, NONE, Read(THIRD)),
    (DISCON, 0, 0x18, Shut(THIRD), ReadAway(THIRD)),
    (Link(LinkWhat::Shut), 0, 0x18, NONE, ReadAway(THIRD)),
    (Link(LinkWhat::Ended), 0, 0x00, Drop(THIRD), NONE),
    (Link(LinkWhat::Dropped), 0, 0x00, NONE, NONE),
    (OPEN_UDP, 0, 0x22, NONE, RECEIVING),
    (SEND, 5, 0x22, SENDING, RECEIVING),
    (RECV, 0, 0x22, NONE, RECEIVING),
    (Reset, 0, 0x00, Drop(FOURTH), NONE),
];

/// What the registers hold.
fn registers(mr: u8, sizes_valid: bool) -> CmdAt {
    CmdAt {
        sn: 3,
        mr,
        port: PORT,
        to: PEER,
        sizes_valid,
    }
}

/// The same while Sn_DIPR and Sn_DPORT hold another address.
fn elsewhere(mr: u8) -> CmdAt {
    CmdAt {
        to: OTHER,
        ..registers(mr, true)
    }
}

#[test]
fn lives_by_the_table(rt: HostRuntime) {
    let mut life = Life::new();
    for (step, in_flight, status, outgoing, incoming) in STEPS {
        assert!(rt; life.lives() < 5);
        let made = match step {
            Command(c, mr, want) => life.command(c, registers(mr, true)) == want,
            Unsized(c, mr, want) => life.command(c, registers(mr, false)) == want,
            Elsewhere(c, mr, want) => life.command(c, elsewhere(mr)) == want,
            Link(what) => {
                life.link_event(&what);
                true
            }
            Reset => {
                life.reset();
                true
            }
        };
        let (first, second) = (life.due(6, in_flight, 9), life.due(7, in_flight, 9));
        assert_eq!(rt;
            (made, life.status(), first, second),
            (true, status, outgoing, incoming)
        );
    }
}
