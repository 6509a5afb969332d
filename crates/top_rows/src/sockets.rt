//! A live run over sockets of the host, with a client of the test's own on 127.0.0.1.
use board_echo::{echo_image, echo_peer};
use board_file::board;
use board_run::live::live;
use board_sim::end::RunEnd;
use host_links::host_pair;
use live_trait::OpenGate;
use std::alloc::Global;
use std::io::{Read, Write};
use std::net::{
    Ipv4Addr, Net, OpenListener, OpenStream, Shutdown, SocketAddr, TcpListener, TcpStream,
};
use std::test::Fail;
use std::{io, thread};
use wz_base::MemSink;

/// How often a client asks for its connection before it gives up.
const ASKS: u32 = 1_000_000;

/// A port of this host on which nobody listens.
fn free_port<R: Net>(rt: &R) -> io::Result<u16> {
    let listener = TcpListener::bind(rt, SocketAddr::from((Ipv4Addr::LOCALHOST, 0)))?;
    Ok(listener.local_addr()?.port())
}

/// A connection to this port of this host, once somebody listens there.
fn connect<R: Net>(rt: &R, port: u16) -> io::Result<R::Stream> {
    let server = SocketAddr::from((Ipv4Addr::LOCALHOST, port));
    for _ in 0..ASKS {
        if let Ok(stream) = TcpStream::connect(rt, server) {
            return Ok(stream);
        }
        thread::yield_now();
    }
    Err(io::Error::from(io::ErrorKind::TimedOut))
}

/// Says these bytes to whoever listens on this port, ends, and answers what came back.
fn talk<R: Net>(rt: &R, alloc: Global, port: u16, said: &[u8]) -> io::Result<Vec<u8>> {
    let mut stream = connect(rt, port)?;
    stream.write_all(said)?;
    stream.shutdown(Shutdown::Write)?;
    let mut heard = Vec::new(alloc);
    stream.read_to_end(&mut heard)?;
    Ok(heard)
}

#[test]
fn serves_a_client_of_the_host(rt: HostRuntime) -> Result<(), Fail> {
    let alloc = rt.alloc();
    let port = free_port(&rt)?;
    let peer = echo_peer(alloc, 0)?;
    let said = peer.say.first().ok_or("nothing said")?.bytes.as_slice();
    let theirs = said.to_vec(alloc)?;
    let Ok(client) = thread::spawn(&rt, move || talk(&rt, alloc, port, &theirs).ok()) else {
        panic!(rt; "no thread");
    };
    let text = format!(in alloc; "[[listen]]\nchip = 5000\nhost = {port}\n")?;
    let board = board(alloc, text.as_bytes())?;
    let image = echo_image(alloc)?;
    let mut sink = MemSink::new(alloc, 65536, Vec::new(alloc))?;
    let Ok((links, poller)) = host_pair(&rt, alloc) else {
        panic!(rt; "no pair");
    };
    let left = live(
        &rt, alloc, image, board, &mut sink, links, poller, &OpenGate,
    );
    assert_eq!(rt; left.end, RunEnd::Break);
    let Some(heard) = client.join(&rt) else {
        panic!(rt; "the client heard nothing");
    };
    assert_eq!(rt; heard.as_slice(), said);
    Ok(())
}
