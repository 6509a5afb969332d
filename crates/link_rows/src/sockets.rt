//! Sockets of the system, against ones of the test's own on 127.0.0.1.
ghost use Rattle.std.specs.Prelude.{◌≡◌, ◌<◌, true, length};
ghost use Rattle.host_links.specs.Pair.{shown};

use host_links::{HostLinks, MioPoller, host_pair};
use link_trait::{Addr, ConnId, Linking, Links, Reading, Receiving, Routes, Sending, Writing};
use live_trait::Poller;
use std::alloc::Global;
use std::io::{Read, Write};
use std::net::{Ipv4Addr, Net, SocketAddr, TcpListener, UdpSocket};
use std::test::Fail;

/// How often a call is made before the test gives up.
const TRIES: u32 = 5000;

/// The address that the firmware names.
const NAMED: Addr = Addr {
    ip: [10, 0, 0, 2],
    port: 80,
};

/// Links with a connection that is made, and their poller.
#[derive(Drop)]
struct Session<'a, R> {
    links: HostLinks<'a, R>,
    poller: MioPoller,
    c: ConnId,
    ghost socket: { c.sn < 8 },
    ghost made: { (shown links).made c ≡ true },
}

/// Whether a connection to the named address is made.
fn is_made<R: Net>(links: &mut HostLinks<'_, R>, c: ConnId) -> bool
    requires { c.sn < 8 }
    ensures { result ≡ true → (shown links.new).made c ≡ true }
{
    match links.connect(c, NAMED) {
        Linking::Done => true,
        _ => false,
    }
}

fn write_made<R: Net>(links: &mut HostLinks<'_, R>, c: ConnId, piece: &[u8]) -> Writing
    requires socket { c.sn < 8 }
    requires some { 0 < length piece.now }
    requires made { (shown links.old).made c ≡ true }
    ensures { (shown links.new).made c ≡ true }
{
    links.write(c, piece)
}

fn read_made<R: Net>(links: &mut HostLinks<'_, R>, c: ConnId, buf: &mut [u8]) -> Reading
    requires socket { c.sn < 8 }
    requires some { 0 < length buf.old }
    requires made { (shown links.old).made c ≡ true }
    ensures { (shown links.new).made c ≡ true }
{
    links.read(c, buf)
}

/// Links and their poller may go to threads of their own.
fn sent<L: Links + Send, P: Poller + Send>(links: L, poller: P) -> (L, P) {
    (links, poller)
}

/// Links whose connection to the named address is made, with a wait after each call that is answered NotYet.
fn open<'a, R: Net>(links: HostLinks<'a, R>, poller: MioPoller, c: ConnId) -> Option<Session<'a, R>>
    requires { c.sn < 8 }
{
    let mut links = links;
    let mut poller = poller;
    for _ in 0..TRIES {
        if is_made(&mut links, c) {
            return Some(Session { links, poller, c });
        }
        let _ = poller.wait();
    }
    None
}

/// Reads once, or waits where nothing is there.
fn read<R: Net>(session: &mut Session<'_, R>, buf: &mut [u8; 5]) -> Option<Reading> {
    match read_made(&mut session.links, session.c, buf) {
        Reading::NotYet => {
            let _ = session.poller.wait();
            None
        }
        answer => Some(answer),
    }
}

fn write<R: Net>(session: &mut Session<'_, R>, piece: &[u8; 5]) -> Writing {
    write_made(&mut session.links, session.c, piece)
}

/// Routes that lead from the named address to a port of this host.
fn routes_to(alloc: Global, port: u16) -> Result<Routes, Fail> {
    let mut routes = Routes::new(alloc);
    let host = Addr {
        ip: [127, 0, 0, 1],
        port,
    };
    routes.route(NAMED, host)?;
    Ok(routes)
}

#[test]
fn five_bytes_go_to_a_listener_and_come_back(rt: HostRuntime) -> Result<(), Fail> {
    let listener = TcpListener::bind(&rt, SocketAddr::from((Ipv4Addr::LOCALHOST, 0)))?;
    let Ok((links, poller)) = host_pair(&rt, rt.alloc()) else {
        panic!(rt; "no pair");
    };
    let (mut links, poller) = sent(links, poller);
    links.set_routes(routes_to(rt.alloc(), listener.local_addr()?.port())?);
    let Some(mut session) = open(links, poller, ConnId { sn: 0, life: 1 }) else {
        panic!(rt; "no connection");
    };
    let (mut peer, _) = listener.accept()?;
    assert_eq!(rt; write(&mut session, b"board"), Writing::Done(5));
    let mut heard = [0; 5];
    peer.read_exact(&mut heard)?;
    peer.write_all(&heard)?;
    let mut buf = [0; 5];
    let answer = (0..TRIES).find_map(|_| read(&mut session, &mut buf));
    assert_eq!(rt; answer, Some(Reading::Done(5)));
    assert_eq!(rt; &buf, b"board");
    Ok(())
}

#[test]
fn a_datagram_that_is_too_long_is_passed_over(rt: HostRuntime) -> Result<(), Fail> {
    let c = ConnId { sn: 7, life: 3 };
    let peer = UdpSocket::bind(&rt, SocketAddr::from((Ipv4Addr::LOCALHOST, 0)))?;
    let Ok((mut links, mut poller)) = host_pair(&rt, rt.alloc()) else {
        panic!(rt; "no pair");
    };
    links.set_routes(routes_to(rt.alloc(), peer.local_addr()?.port())?);
    assert_eq!(rt; links.send_to(c, 0, NAMED, b"bo", b"ard"), Sending::Done);
    let mut heard = [0; 1473];
    let (count, from) = peer.recv_from(&mut heard)?;
    assert_eq!(rt; &heard[..count], b"board".as_slice());
    peer.send_to(&heard, from)?;
    peer.send_to(&heard[..5], from)?;
    let mut buf = [0; 1472];
    for _ in 0..TRIES {
        match links.recv_from(c, 0, &mut buf) {
            Receiving::NotYet => {
                let _ = poller.wait();
            }
            answer => {
                assert_eq!(rt; answer, Receiving::Done(5, NAMED));
                assert_eq!(rt; &buf[..5], b"board".as_slice());
                return Ok(());
            }
        }
    }
    panic!(rt; "no datagram")
}
