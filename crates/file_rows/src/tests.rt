//! Rows of board files.

use board_file::{BoardError, board};
use std::alloc::{AllocError, Global};
use std::test::Fail;

// The first fault of a text, as it is printed, or what its board says.
fn read(alloc: Global, text: &[u8]) -> Result<String, AllocError> {
    match board(alloc, text) {
        Ok(board) => format!(in alloc;
            "{} {} {} {} {:?} {:?} {:?}",
            board.tx_start,
            board.rx_start,
            board.events,
            board.cycles,
            board.routes.listens(),
            board.routes.routes(),
            board.peers
        ),
        Err(BoardError::Fault(fault)) => format!(in alloc;
            "{} {} {}",
            fault.key.word(),
            fault.entry,
            fault.kind.word()
        ),
        Err(BoardError::NoMemory) => Err(AllocError),
    }
}

// Texts of several lines.
const TEXTS: [(&str, &str); 12] = [
    ("", "0 0 33554432 1099511627776 [] [] []"),
    (
        "listen = []\nroute = []\npeer = [] # none",
        "0 0 33554432 1099511627776 [] [] []",
    ),
    (
        "events = 67108864\ncycles = 1\ntx_start = 0xFFFF\nrx_start = 2047\n[[listen]]\nchip = 5000\nhost = 15000\n",
        "65535 2047 67108864 1 [(5000, 15000)] [] []",
    ),
    (
        "[[route]]\naddr = '10.0.0.2'\nport = 80\nhost_port = 18080\n[[route]]\nhost = '192.168.0.255'\naddr = '0.0.0.0'\nport = 1\nhost_port = 65535\n",
        "0 0 33554432 1099511627776 [] [(Addr { ip: [10, 0, 0, 2], port: 80 }, Addr { ip: [127, 0, 0, 1], port: 18080 }), (Addr { ip: [0, 0, 0, 0], port: 1 }, Addr { ip: [192, 168, 0, 255], port: 65535 })] []",
    ),
    (
        "[[peer]]\nkind = 'client'\naddr = '10.0.0.3'\nport = 1234\nchip = 7\n",
        "0 0 33554432 1099511627776 [] [] [Peer { kind: Client, addr: Addr { ip: [10, 0, 0, 3], port: 1234 }, chip: 7, connect: Fine, takes: [], room: 65536, say: [], end: None, fail: 0, lag: 0 }]",
    ),
    (
        "[[peer]]\nkind = 'server'\naddr = '10.0.0.2'\nport = 80\nconnect = 'refused'\ntakes = [0, 65536, 3]\nroom = 0\nsay = ['', '68aF']\nafter = [0, 16777216]\nend = 5\nfail = 4294967295\nlag = 65535\n",
        "0 0 33554432 1099511627776 [] [] [Peer { kind: Server, addr: Addr { ip: [10, 0, 0, 2], port: 80 }, chip: 0, connect: Refused, takes: [0, 65536, 3], room: 0, say: [Chunk { after: 0, bytes: [] }, Chunk { after: 16777216, bytes: [104, 175] }], end: Some(5), fail: 4294967295, lag: 65535 }]",
    ),
    (
        "[[peer]]\nkind = 'udp'\naddr = '1.2.3.4'\nport = 9\nchip = 65535\nsay = ['00']\n",
        "0 0 33554432 1099511627776 [] [] [Peer { kind: Udp, addr: Addr { ip: [1, 2, 3, 4], port: 9 }, chip: 65535, connect: Fine, takes: [], room: 65536, say: [Chunk { after: 0, bytes: [0] }], end: None, fail: 0, lag: 0 }]",
    ),
    ("tx_start = 1\ntx_start = 1", "file 0 BadToml"),
    ("rx_start = -1\ntx_start = 0.5", "tx_start 0 WrongType"),
    ("events = 0\ncycles = 0", "events 0 OutOfRange"),
    ("zzz = 1\npeer = 1", "peer 0 WrongType"),
    ("zzz = 1\npeer = []", "unknown 0 Unknown"),
];

#[test]
fn reads_texts(rt: HostRuntime) -> Result<(), Fail> {
    for (text, want) in TEXTS {
        let found = read(rt.alloc(), text.as_bytes())?;
        assert_eq!(rt; found.as_str(), want, "{text}");
    }
    Ok(())
}

// Texts that repeat a piece. A fault behind a list shows that it is not too long.
const LONG: [(&str, &str, usize, &str, &str); 9] = [
    (
        "",
        "[[listen]]\nchip = 1\nhost = 1\n",
        64,
        "tx_start = 65536",
        "unknown 63 Unknown",
    ),
    (
        "",
        "[[listen]]\nchip = 1\nhost = 0\n",
        65,
        "",
        "listen 0 OutOfRange",
    ),
    ("listen = [", "{},", 65, "1]", "listen 65 WrongType"),
    (
        "peer = [{ kind = 'server', addr = '1.1.1.1', port = 1, takes = [",
        "0,",
        4_096,
        "], end = -1 }]",
        "end 0 OutOfRange",
    ),
    (
        "peer = [{ kind = 'server', addr = '1.1.1.1', port = 1, takes = [",
        "0,",
        4_097,
        "] }]",
        "takes 0 OutOfRange",
    ),
    (
        "peer = [{ kind = 'server', addr = '1.1.1.1', port = 1, say = [",
        "'',",
        256,
        "], end = -1 }]",
        "end 0 OutOfRange",
    ),
    (
        "peer = [{ kind = 'server', addr = '1.1.1.1', port = 1, say = [",
        "'g',",
        257,
        "] }]",
        "say 0 OutOfRange",
    ),
    (
        "peer = [{ kind = 'server', addr = '1.1.1.1', port = 1, say = ['",
        "00",
        65_536,
        "'], end = -1 }]",
        "end 0 OutOfRange",
    ),
    (
        "peer = [{ kind = 'server', addr = '1.1.1.1', port = 1, say = ['",
        "00",
        65_537,
        "'] }]",
        "say 0 BadText",
    ),
];

#[test]
fn lists_end_somewhere(rt: HostRuntime) -> Result<(), Fail> {
    for (head, piece, count, tail, want) in LONG {
        let long = piece.repeat(rt.alloc(), count)?;
        let text = format!(in rt.alloc(); "{head}{long}{tail}")?;
        let found = read(rt.alloc(), text.as_bytes())?;
        assert_eq!(rt; found.as_str(), want, "{count} times {piece}");
    }
    Ok(())
}

// Texts of one line, each with the first fault in it. An array of tables is judged whole before its entries.
const FAULTS: &str = "\
tx_start =  -> file 0 BadToml
tx_start = 65536 -> tx_start 0 OutOfRange
events = 67108865 -> events 0 OutOfRange
cycles = 1099511627777 -> cycles 0 OutOfRange
listen = [{ chip = 0 }, { }, 3, 4] -> listen 2 WrongType
listen = [{ chip = 1, host = 1, hosts = 1 }, { chip = 0 }] -> unknown 0 Unknown
listen = [{ chip = 1, host = 1 }, { chip = 0 }] -> chip 1 OutOfRange
listen = [{ host = 0 }] -> chip 0 Missing
route = [{ addr = '10.0.0.01', port = 0 }] -> addr 0 BadText
route = [{ addr = '10.0.0.1', port = 0 }] -> port 0 OutOfRange
route = [{ addr = '10.0.0.1', port = 1, host = '' }] -> host 0 BadText
route = [{ addr = '10.0.0.1', port = 1, host = 1 }] -> host 0 WrongType
route = [{ addr = '10.0.0.1', port = 1 }] -> host_port 0 Missing
peer = [{ addr = 1 }] -> kind 0 Missing
peer = [{ kind = 'Client' }] -> kind 0 BadText
peer = [{ kind = 'server' }] -> addr 0 Missing
peer = [{ kind = 'server', addr = '1.1.1.1', port = 1, chip = 7 }] -> unknown 0 Unknown
peer = [{ kind = 'udp', addr = '1.1.1.1', port = 1, chip = 7, connect = 'ok' }] -> unknown 0 Unknown
peer = [{ kind = 'server', addr = '1.1.1.1', port = 1, connect = 'no' }] -> connect 0 BadText
peer = [{ kind = 'server', addr = '1.1.1.1', port = 1, takes = [-1, ''] }] -> takes 0 WrongType
peer = [{ kind = 'server', addr = '1.1.1.1', port = 1, takes = [65537] }] -> takes 0 OutOfRange
peer = [{ kind = 'server', addr = '1.1.1.1', port = 1, room = 16777217 }] -> room 0 OutOfRange
peer = [{ kind = 'server', addr = '1.1.1.1', port = 1, say = ['0'] }] -> say 0 BadText
peer = [{ kind = 'server', addr = '1.1.1.1', port = 1, say = ['0g', 1] }] -> say 0 WrongType
peer = [{ kind = 'server', addr = '1.1.1.1', port = 1, after = [0] }] -> after 0 BadText
peer = [{ kind = 'server', addr = '1.1.1.1', port = 1, say = ['00'], after = [16777217, 0] }] -> after 0 OutOfRange
peer = [{ kind = 'server', addr = '1.1.1.1', port = 1, end = true }] -> end 0 WrongType
peer = [{ kind = 'server', addr = '1.1.1.1', port = 1, fail = 0 }] -> fail 0 OutOfRange
peer = [{ kind = 'server', addr = '1.1.1.1', port = 1, lag = '', fail = 0 }] -> fail 0 OutOfRange
peer = [{ kind = 'client', addr = '1.1.1.1', port = 1, chip = 7, lag = 65536, x = 1 }] -> lag 0 OutOfRange
peer = [{ kind = 'server', addr = '1.1.1.1', port = 1, lag = -1 }] -> lag 0 OutOfRange
peer = [{ kind = 'udp', addr = '1.1.1.1', port = 1, chip = 7, lag = '2' }] -> lag 0 WrongType
peer = [{ kind = 'udp', addr = '1.1.1.1', port = 1, chip = 7, lag = 2, lags = 1 }] -> unknown 0 Unknown";

#[test]
fn finds_the_first_fault(rt: HostRuntime) -> Result<(), Fail> {
    for line in FAULTS.lines() {
        // A line with no fault behind it finds none, and does not pass.
        let (text, want) = line.split_once(" -> ").unwrap_or((line, ""));
        let found = read(rt.alloc(), text.as_bytes())?;
        assert_eq!(rt; found.as_str(), want, "{text}");
    }
    let found = read(rt.alloc(), b"# \xFF")?;
    assert_eq!(rt; found.as_str(), "file 0 BadToml");
    Ok(())
}
