//! Peers against the tables of what scripted peers do.
ghost use Rattle.std.specs.Prelude.{◌≡◌, ◌<◌, true, length};
ghost use Rattle.link_script.specs.Links.{played_of};
ghost use Rattle.link_script.specs.Play.{shown};

use link_script::*;
use link_trait::{
    Accepting, Addr, ConnId, Linking, Links, Reading, Receiving, Sending, Shutting, Writing,
};
use std::alloc::{AllocError, Global};
use std::process::Abort;
use std::test::Fail;

const HERE: Addr = Addr {
    ip: [10, 0, 0, 2],
    port: 5000,
};

const ELSEWHERE: Addr = Addr {
    ip: [10, 0, 0, 3],
    port: 5000,
};

const FIRST: ConnId = ConnId { sn: 0, life: 1 };

const SECOND: ConnId = ConnId { sn: 1, life: 1 };

const THIRD: ConnId = ConnId { sn: 2, life: 1 };

const FOURTH: ConnId = ConnId { sn: 3, life: 1 };

/// A call on a connection, with its answer, and the bytes that it puts into a buffer of so many bytes.
#[derive(Clone, Copy)]
enum Step {
    Write(&'static [u8], Writing),
    Read(usize, Reading, &'static [u8]),
    Shut(Shutting),
}

/// What a chunk says.
#[derive(Clone, Copy)]
enum Said {
    Bytes(&'static [u8]),
    Zeros(usize),
}

/// A peer at an address, of a kind, whose connection comes to this, and what it does.
#[derive(Clone, Copy)]
struct Script {
    kind: PeerKind,
    addr: Addr,
    connect: Connects,
    takes: &'static [u32],
    room: u32,
    say: &'static [(u32, Said)],
    end: Option<u32>,
    fail: u32,
    lag: u16,
}

/// A server that takes all and says nothing.
const SERVER: Script = Script {
    kind: PeerKind::Server,
    addr: HERE,
    connect: Connects::Fine,
    takes: &[],
    room: 65536,
    say: &[],
    end: None,
    fail: 0,
    lag: 0,
};

/// The script of a server, and what is done with it.
#[derive(Clone, Copy)]
struct Case {
    script: Script,
    steps: &'static [Step],
}

const CASES: [Case; 8] = [
    Case {
        script: Script {
            takes: &[2, 0, 3],
            ..SERVER
        },
        steps: &[
            Step::Write(b"abcde", Writing::Done(2)),
            Step::Write(b"cde", Writing::NotYet),
            Step::Write(b"cde", Writing::Done(3)),
            Step::Write(b"f", Writing::Done(1)),
            Step::Read(4, Reading::NotYet, b""),
        ],
    },
    Case {
        script: Script {
            room: 3,
            say: &[(0, Said::Bytes(b"abc"))],
            ..SERVER
        },
        steps: &[
            Step::Write(b"abcd", Writing::Done(3)),
            Step::Write(b"d", Writing::NotYet),
            Step::Read(2, Reading::Done(2), b"ab"),
            Step::Read(2, Reading::Done(1), b"c"),
            Step::Read(2, Reading::NotYet, b""),
        ],
    },
    Case {
        script: Script {
            say: &[
                (0, Said::Bytes(b"hi")),
                (9, Said::Bytes(b"")),
                (2, Said::Bytes(b"yo")),
            ],
            end: Some(4),
            ..SERVER
        },
        steps: &[
            Step::Read(4, Reading::Done(2), b"hi"),
            Step::Read(4, Reading::NotYet, b""),
            Step::Write(b"ab", Writing::Done(2)),
            Step::Read(4, Reading::Done(2), b"yo"),
            Step::Read(4, Reading::NotYet, b""),
            Step::Write(b"cd", Writing::Done(2)),
            Step::Read(4, Reading::End, b""),
        ],
    },
    Case {
        script: Script {
            say: &[(0, Said::Bytes(b"hi"))],
            end: Some(0),
            fail: 2,
            ..SERVER
        },
        steps: &[
            Step::Write(b"ab", Writing::Done(2)),
            Step::Read(4, Reading::Failed, b""),
            Step::Read(4, Reading::Done(2), b"hi"),
            Step::Read(4, Reading::End, b""),
            Step::Shut(Shutting::Done),
        ],
    },
    Case {
        script: Script {
            room: 0,
            fail: 1,
            ..SERVER
        },
        steps: &[
            Step::Shut(Shutting::Failed),
            Step::Shut(Shutting::Done),
            Step::Write(b"a", Writing::NotYet),
        ],
    },
    Case {
        script: Script {
            say: &[(0, Said::Bytes(b"abc")), (2, Said::Bytes(b"yo"))],
            end: Some(2),
            lag: 2,
            ..SERVER
        },
        steps: &[
            Step::Read(2, Reading::NotYet, b""),
            Step::Read(2, Reading::NotYet, b""),
            Step::Read(2, Reading::Done(2), b"ab"),
            Step::Read(2, Reading::Done(1), b"c"),
            Step::Read(4, Reading::NotYet, b""),
            Step::Read(4, Reading::NotYet, b""),
            Step::Read(4, Reading::NotYet, b""),
            Step::Write(b"ab", Writing::Done(2)),
            Step::Read(4, Reading::NotYet, b""),
            Step::Read(4, Reading::NotYet, b""),
            Step::Read(4, Reading::Done(2), b"yo"),
            Step::Read(4, Reading::NotYet, b""),
            Step::Read(4, Reading::NotYet, b""),
            Step::Read(4, Reading::End, b""),
            Step::Read(4, Reading::End, b""),
        ],
    },
    Case {
        script: Script {
            say: &[(0, Said::Bytes(b"hi"))],
            fail: 2,
            lag: 1,
            ..SERVER
        },
        steps: &[
            Step::Read(4, Reading::NotYet, b""),
            Step::Read(4, Reading::Failed, b""),
            Step::Read(4, Reading::Done(2), b"hi"),
        ],
    },
    Case {
        script: Script {
            say: &[(0, Said::Bytes(b"hi"))],
            fail: 1,
            lag: 1,
            ..SERVER
        },
        steps: &[
            Step::Read(4, Reading::Failed, b""),
            Step::Read(4, Reading::NotYet, b""),
            Step::Read(4, Reading::Done(2), b"hi"),
        ],
    },
];

fn bytes_of(alloc: Global, said: Said) -> Result<Vec<u8>, AllocError> {
    match said {
        Said::Bytes(bytes) => bytes.to_vec(alloc),
        Said::Zeros(count) => vec![in alloc; 0u8; count],
    }
}

/// What a peer says.
fn chunks_of(alloc: Global, say: &[(u32, Said)]) -> Result<Vec<Chunk>, AllocError> {
    let mut chunks = Vec::new(alloc);
    for &(after, said) in say {
        let bytes = bytes_of(alloc, said)?;
        chunks.push(Chunk { after, bytes })?;
    }
    Ok(chunks)
}

/// A peer with this script, which knows the chip by port 7.
fn peer_of(alloc: Global, script: &Script) -> Result<Peer, AllocError> {
    let takes = script.takes.to_vec(alloc)?;
    let say = chunks_of(alloc, script.say)?;
    Ok(Peer {
        kind: script.kind,
        addr: script.addr,
        chip: 7,
        connect: script.connect,
        takes,
        room: script.room,
        say,
        end: script.end,
        fail: script.fail,
        lag: script.lag,
    })
}

/// Links with peers of these scripts, in this order.
fn links_of(alloc: Global, scripts: &[Script]) -> Result<ScriptLinks, AllocError> {
    let mut peers = Vec::new(alloc);
    for script in scripts {
        peers.push(peer_of(alloc, script)?)?;
    }
    ScriptLinks::new(alloc, peers)
}

fn write_made(links: &mut ScriptLinks, c: ConnId, piece: &[u8]) -> Writing
    requires socket { c.sn < 8 }
    requires some { 0 < length piece.now }
    requires made { (shown (played_of links.old)).made c ≡ true }
    ensures { (shown (played_of links.new)).made c ≡ true }
{
    links.write(c, piece)
}

fn read_made(links: &mut ScriptLinks, c: ConnId, buf: &mut [u8]) -> Reading
    requires socket { c.sn < 8 }
    requires some { 0 < length buf.old }
    requires made { (shown (played_of links.old)).made c ≡ true }
    ensures { (shown (played_of links.new)).made c ≡ true }
{
    links.read(c, buf)
}

fn shut_made(links: &mut ScriptLinks, c: ConnId) -> Shutting
    requires socket { c.sn < 8 }
    requires made { (shown (played_of links.old)).made c ≡ true }
    ensures { (shown (played_of links.new)).made c ≡ true }
{
    links.shut(c)
}

fn is_made(links: &mut ScriptLinks, c: ConnId, to: Addr) -> bool
    requires { c.sn < 8 }
    ensures { result ≡ true → (shown (played_of links.new)).made c ≡ true }
{
    match links.connect(c, to) {
        Linking::Done => true,
        _ => false,
    }
}

/// Links with a connection that is made.
#[derive(Drop)]
struct Session {
    links: ScriptLinks,
    c: ConnId,
    ghost socket: { c.sn < 8 },
    ghost made: { (shown (played_of links)).made c ≡ true },
}

/// Whether so many calls to connect are answered NotYet.
fn is_kept_waiting(links: &mut ScriptLinks, c: ConnId, to: Addr, times: u16) -> bool {
    for _ in 0..times {
        if connect(links, c, to) != Some(Linking::NotYet) {
            return false;
        }
    }
    true
}

/// A connection to the server at an address, which is made after so many calls that were answered NotYet.
fn open(links: ScriptLinks, c: ConnId, to: Addr, lag: u16) -> Option<Session>
    requires { c.sn < 8 }
{
    let mut links = links;
    if !is_kept_waiting(&mut links, c, to, lag) {
        return None;
    }
    if is_made(&mut links, c, to) {
        Some(Session { links, c })
    } else {
        None
    }
}

fn write(session: &mut Session, piece: &[u8]) -> Writing {
    if piece.is_empty() {
        return Writing::NotYet;
    }
    write_made(&mut session.links, session.c, piece)
}

fn read(session: &mut Session, buf: &mut [u8]) -> Reading {
    if buf.is_empty() {
        return Reading::Failed;
    }
    read_made(&mut session.links, session.c, buf)
}

/// Reads at most so many bytes, and answers whether the first of them are these.
fn read_as(session: &mut Session, count: usize, wanted: &[u8]) -> (Reading, bool) {
    let mut buf = [0u8; 8];
    if count > 8 || wanted.len() > 8 {
        return (Reading::Failed, false);
    }
    let answer = read(session, &mut buf[..count]);
    (answer, &buf[..wanted.len()] == wanted)
}

fn end(session: &mut Session) -> Shutting {
    shut_made(&mut session.links, session.c)
}

/// Makes each call of a case, and compares its answer.
fn play(rt: &impl Abort, session: &mut Session, steps: &[Step]) {
    for step in steps {
        match *step {
            Step::Write(piece, wanted) => assert_eq!(rt; write(session, piece), wanted),
            Step::Read(count, wanted, bytes) => {
                let (answer, same) = read_as(session, count, bytes);
                assert_eq!(rt; answer, wanted);
                assert!(rt; same);
            }
            Step::Shut(wanted) => assert_eq!(rt; end(session), wanted),
        }
    }
}

#[test]
fn servers_act_by_their_scripts(rt: HostRuntime) -> Result<(), Fail> {
    for case in &CASES {
        let links = links_of(rt.alloc(), &[case.script])?;
        let mut session = open(links, FIRST, HERE, case.script.lag).ok_or("refused")?;
        play(&rt, &mut session, case.steps);
    }
    Ok(())
}

fn server() -> Script {
    SERVER
}

/// Servers that refuse, never answer and connect, and a client.
fn servers_and_client() -> [Script; 4] {
    let server = server();
    [
        Script {
            connect: Connects::Refused,
            ..server
        },
        Script {
            connect: Connects::Timeout,
            ..server
        },
        server,
        Script {
            kind: PeerKind::Client,
            ..server
        },
    ]
}

/// A call on a connection that need not be made, with its answer.
#[derive(Clone, Copy)]
enum Ask {
    Connect(ConnId, Addr, Linking),
    Accept(ConnId, u16, Accepting),
    SendTo(ConnId, u16, Addr, &'static [u8], &'static [u8], Sending),
    RecvFrom(ConnId, u16, Receiving),
    Shut(ConnId, Shutting),
}

fn connect(links: &mut ScriptLinks, c: ConnId, to: Addr) -> Option<Linking> {
    if c.sn < 8 {
        Some(links.connect(c, to))
    } else {
        None
    }
}

fn accept(links: &mut ScriptLinks, c: ConnId, port: u16) -> Option<Accepting> {
    if c.sn < 8 {
        Some(links.accept(c, port))
    } else {
        None
    }
}

fn send_to(
    links: &mut ScriptLinks,
    c: ConnId,
    port: u16,
    to: Addr,
    head: &[u8],
    tail: &[u8],
) -> Option<Sending> {
    if c.sn < 8 {
        Some(links.send_to(c, port, to, head, tail))
    } else {
        None
    }
}

fn recv_from(links: &mut ScriptLinks, c: ConnId, port: u16, buf: &mut [u8]) -> Option<Receiving> {
    if c.sn < 8 && buf.len() >= 1472 {
        Some(links.recv_from(c, port, buf))
    } else {
        None
    }
}

fn shut(links: &mut ScriptLinks, c: ConnId) -> Option<Shutting> {
    if c.sn < 8 { Some(links.shut(c)) } else { None }
}

/// Whether a call is answered so.
fn is_answered(links: &mut ScriptLinks, ask: Ask, buf: &mut [u8]) -> bool {
    match ask {
        Ask::Connect(c, to, wanted) => connect(links, c, to) == Some(wanted),
        Ask::Accept(c, port, wanted) => accept(links, c, port) == Some(wanted),
        Ask::SendTo(c, port, to, head, tail, wanted) => {
            send_to(links, c, port, to, head, tail) == Some(wanted)
        }
        Ask::RecvFrom(c, port, wanted) => recv_from(links, c, port, buf) == Some(wanted),
        Ask::Shut(c, wanted) => shut(links, c) == Some(wanted),
    }
}

/// How many of the calls are answered so, from the first on.
fn answered(links: &mut ScriptLinks, asks: &[Ask], buf: &mut [u8]) -> usize {
    for (i, ask) in asks.iter().enumerate() {
        if !is_answered(links, *ask, buf) {
            return i;
        }
    }
    asks.len()
}

const CONNECTS: [Ask; 8] = [
    Ask::Connect(FIRST, ELSEWHERE, Linking::TimedOut),
    Ask::Connect(FIRST, HERE, Linking::Refused),
    Ask::Connect(FIRST, HERE, Linking::TimedOut),
    Ask::Connect(FIRST, HERE, Linking::Done),
    Ask::Connect(SECOND, HERE, Linking::TimedOut),
    Ask::Accept(SECOND, 8, Accepting::NotYet),
    Ask::Accept(SECOND, 7, Accepting::Done(HERE)),
    Ask::Shut(SECOND, Shutting::Done),
];

#[test]
fn each_server_answers_one_connection(rt: HostRuntime) -> Result<(), Fail> {
    let mut links = links_of(rt.alloc(), &servers_and_client())?;
    assert_eq!(rt; answered(&mut links, &CONNECTS, &mut []), 8);
    let server = links.peer(2).ok_or("no peer")?;
    assert_eq!(rt; server.conn, Some(FIRST));
    assert!(rt; links.peer(4).is_none());
    Ok(())
}

/// Chunks of which the second is longer than a datagram, and the third empty.
const LONG_AND_EMPTY: &[(u32, Said)] = &[
    (0, Said::Bytes(b"hi")),
    (0, Said::Zeros(1473)),
    (3, Said::Bytes(b"")),
];

/// A datagram peer, whose second chunk is longer than a datagram, and whose third is empty.
fn datagrams() -> Script {
    Script {
        kind: PeerKind::Udp,
        takes: &[9, 0, 1],
        room: 4,
        say: LONG_AND_EMPTY,
        fail: 7,
        ..server()
    }
}

const EXCHANGES: [Ask; 10] = [
    Ask::SendTo(SECOND, 8, HERE, b"lost", b"", Sending::Done),
    Ask::RecvFrom(SECOND, 8, Receiving::NotYet),
    Ask::RecvFrom(FIRST, 7, Receiving::Done(2, HERE)),
    Ask::RecvFrom(FIRST, 7, Receiving::NotYet),
    Ask::SendTo(FIRST, 7, ELSEWHERE, b"ab", b"c", Sending::Done),
    Ask::SendTo(FIRST, 7, HERE, b"d", b"", Sending::NotYet),
    Ask::SendTo(FIRST, 7, HERE, b"d", b"e", Sending::NotYet),
    Ask::RecvFrom(FIRST, 7, Receiving::Done(0, HERE)),
    Ask::RecvFrom(FIRST, 7, Receiving::Failed),
    Ask::SendTo(FIRST, 7, HERE, b"d", b"", Sending::Done),
];

#[test]
fn datagrams_come_and_go(rt: HostRuntime) -> Result<(), Fail> {
    let mut links = links_of(rt.alloc(), &[datagrams()])?;
    let mut buf = vec![in rt.alloc(); 0u8; 1472]?;
    assert_eq!(rt; answered(&mut links, &EXCHANGES, &mut buf), 10);
    let peer = links.peer(0).ok_or("no peer")?;
    assert_eq!(rt; peer.given, b"abcd".as_slice());
    assert_eq!(rt; peer.fed, 2);
    assert_eq!(rt; peer.faults, 1);
    Ok(())
}

const THREE_BYTES: &[(u32, Said)] = &[(0, Said::Bytes(b"abc"))];

/// A server that has room for three bytes and says three.
fn talker() -> Script {
    Script {
        room: 3,
        say: THREE_BYTES,
        ..server()
    }
}

/// Peers that owe NotYets: a client and another behind it that owes none, a server that refuses, and a datagram peer.
fn owing() -> [Script; 4] {
    let talker = talker();
    [
        Script {
            kind: PeerKind::Client,
            lag: 2,
            ..talker
        },
        Script {
            kind: PeerKind::Client,
            addr: ELSEWHERE,
            ..talker
        },
        Script {
            connect: Connects::Refused,
            lag: 1,
            ..talker
        },
        Script {
            lag: 1,
            ..datagrams()
        },
    ]
}

const WAITS: [Ask; 15] = [
    Ask::Accept(FIRST, 8, Accepting::NotYet),
    Ask::Accept(FIRST, 7, Accepting::NotYet),
    Ask::Accept(SECOND, 7, Accepting::NotYet),
    Ask::Accept(SECOND, 7, Accepting::Done(HERE)),
    Ask::Accept(FIRST, 7, Accepting::Done(ELSEWHERE)),
    Ask::Connect(THIRD, HERE, Linking::NotYet),
    Ask::Connect(THIRD, HERE, Linking::Refused),
    Ask::Connect(THIRD, HERE, Linking::TimedOut),
    Ask::SendTo(FOURTH, 7, HERE, b"ab", b"c", Sending::Done),
    Ask::RecvFrom(FOURTH, 7, Receiving::NotYet),
    Ask::RecvFrom(FOURTH, 7, Receiving::Done(2, HERE)),
    Ask::RecvFrom(FOURTH, 7, Receiving::NotYet),
    Ask::RecvFrom(FOURTH, 7, Receiving::Done(0, HERE)),
    Ask::RecvFrom(FOURTH, 7, Receiving::NotYet),
    Ask::RecvFrom(FOURTH, 7, Receiving::Failed),
];

#[test]
fn peers_that_owe_keep_calls_waiting(rt: HostRuntime) -> Result<(), Fail> {
    let mut links = links_of(rt.alloc(), &owing())?;
    let mut buf = vec![in rt.alloc(); 0u8; 1472]?;
    assert_eq!(rt; answered(&mut links, &WAITS, &mut buf), 15);
    Ok(())
}
