//! Worked by hand from the datasheet's words on the buffers, with ample memory.

ghost use Rattle.std.specs.Prelude.{◌<◌};

use chip_sheet::stop::ChipStop;
use ring_mem::rings::Rings;
use std::process::Abort;
use std::test::Fail;

// One call on a socket, with what comes of it.
#[derive(Clone, Copy)]
enum Step {
    Begin(u16, u16),
    Empty,
    Write(u16, u8),
    Overwrites(u16, u16),
    Read(u16, u8),
    Set(u16, u8),
    Shows(u16, u16),
    Commit(u32),
    TooLong(u32, u32),
    Offer(&'static [u8], &'static [u8]),
    Taken(u32, bool),
    Put(&'static [u8]),
    Datagram(&'static [u8; 8], &'static [u8]),
    Fill(&'static [u8]),
    Room(usize),
    RxRead(u16, u8),
    Release(u32),
    PastEnd(u32, u32),
}

// A register of two bytes.
fn pair_at(rings: &Rings, sn: u8, addr: u16) -> u16
    requires { (sn < 8) × (addr < 0xFF) }
{
    u16::from(rings.pointer(sn, addr)) * 256 + u16::from(rings.pointer(sn, addr + 1))
}

// Makes one call of the sending side, and answers whether it came out as wanted; none where it is no such call.
fn take_sending(rings: &mut Rings, sn: u8, step: Step) -> Option<bool>
    requires { sn < 8 }
{
    Some(match step {
        Step::Write(addr, v) => rings.tx_write(sn, addr, v) == Ok(()),
        Step::Overwrites(addr, at) => {
            rings.tx_write(sn, addr, 0xEE) == Err(ChipStop::OverwriteInFlight { sn, at })
        }
        Step::Shows(addr, v) => addr < 0xFF && pair_at(rings, sn, addr) == v,
        Step::Read(addr, v) => rings.tx_read(sn, addr) == v,
        Step::Commit(len) => rings.commit(sn) == Ok(len),
        Step::TooLong(len, free) => {
            rings.commit(sn) == Err(ChipStop::SendTooLong { sn, len, free })
        }
        Step::Offer(first, second) => rings.offer(sn) == (first, second),
        Step::Taken(k, passed) => k <= rings.flight(sn) && rings.taken(sn, k) == passed,
        _ => return None,
    })
}

// Makes one call of the receiving side, or of both, and answers whether it came out as wanted.
fn take_receiving(rings: &mut Rings, sn: u8, step: Step) -> bool
    requires { sn < 8 }
{
    match step {
        Step::Begin(tx, rx) => rings.begin(sn, tx, rx),
        Step::Empty => rings.empty(sn),
        Step::Set(addr, v) => rings.set_pointer(sn, addr, v),
        Step::Put(bytes) if bytes.len() <= rings.free(sn) as usize => rings.put(sn, bytes),
        Step::Datagram(header, body) => return put_datagram(rings, sn, header, body),
        Step::Fill(bytes) => return fill(rings, sn, bytes),
        Step::Room(len) => return rings.room(sn).len() == len,
        Step::RxRead(addr, v) => return rings.rx_read(sn, addr) == v,
        Step::Release(left) => return rings.release(sn) == Ok(left),
        Step::PastEnd(asked, there) => {
            return rings.release(sn) == Err(ChipStop::RecvPastEnd { sn, asked, there });
        }
        _ => return false,
    }
    true
}

// Puts a datagram, where it and its header are free.
fn put_datagram(rings: &mut Rings, sn: u8, header: &[u8; 8], body: &[u8]) -> bool
    requires { sn < 8 }
{
    let free = rings.free(sn) as usize;
    if free < 8 || body.len() > free - 8 {
        return false;
    }
    rings.put_datagram(sn, header, body);
    true
}

// Reads so many bytes into the room, where it has them.
fn fill(rings: &mut Rings, sn: u8, bytes: &[u8]) -> bool
    requires { sn < 8 }
{
    let room = rings.room(sn);
    if bytes.len() > room.len() {
        return false;
    }
    room[..bytes.len()].copy_from_slice(bytes);
    rings.filled(sn, bytes.len() as u32);
    true
}

// New buffers of these sizes, on which a socket makes these calls, each of which comes out as wanted.
fn take_steps(rt: &impl Abort, rings: &mut Rings, sn: u8, steps: &[Step])
    requires { sn < 8 }
{
    for (place, step) in steps.iter().enumerate() {
        let right = match take_sending(rings, sn, *step) {
            Some(right) => right,
            None => take_receiving(rings, sn, *step),
        };
        assert!(rt; right, "step {place}");
    }
}

#[test]
fn bytes_go_round_a_whole_memory(rt: HostRuntime) -> Result<(), Fail> {
    let steps = [
        Step::Begin(65534, 65530),
        Step::Shows(0x20, 16384),
        Step::Shows(0x22, 65534),
        Step::Shows(0x24, 65534),
        Step::Shows(0x26, 0),
        Step::Shows(0x28, 65530),
        Step::Shows(0x2A, 65530),
        Step::Write(65534, 1),
        Step::Write(65535, 2),
        Step::Write(0, 3),
        Step::Write(1, 4),
        Step::Read(16382, 1),
        Step::Read(0x8000, 3),
        Step::Set(0x24, 0),
        Step::Set(0x25, 2),
        Step::Commit(4),
        Step::Shows(0x20, 16380),
        Step::Shows(0x22, 2),
        Step::Offer(&[1, 2], &[3, 4]),
        Step::Overwrites(0x4001, 1),
        Step::Write(2, 9),
        Step::Taken(1, false),
        Step::Offer(&[2], &[3, 4]),
        Step::Write(65534, 7),
        Step::Read(65534, 7),
        Step::Overwrites(65535, 16383),
        Step::Taken(0, false),
        Step::Taken(3, true),
        Step::Offer(&[], &[]),
        Step::Commit(0),
        Step::Set(0x24, 0x40),
        Step::Set(0x25, 0x03),
        Step::TooLong(16385, 16384),
        Step::Put(&[10, 11, 12, 13, 14, 15, 16, 17]),
        Step::Shows(0x26, 8),
        Step::Shows(0x2A, 2),
        Step::RxRead(65530, 10),
        Step::RxRead(0, 16),
        Step::RxRead(1, 17),
        Step::RxRead(2, 0),
        Step::RxRead(65529, 0),
        Step::Set(0x28, 0xFF),
        Step::Set(0x29, 0xFC),
        Step::Release(6),
        Step::RxRead(65531, 0),
        Step::RxRead(65532, 12),
        Step::Set(0x28, 0),
        Step::Set(0x29, 3),
        Step::PastEnd(7, 6),
        Step::Set(0x29, 2),
        Step::Release(0),
        Step::Room(1472),
        Step::Fill(&[5, 6, 7]),
        Step::Shows(0x26, 3),
        Step::RxRead(2, 5),
    ];
    let mut rings = Rings::new(rt.alloc())?;
    rings.set_sizes([16, 0, 0, 0, 0, 0, 0, 0], [16, 0, 0, 0, 0, 0, 0, 0]);
    take_steps(&rt, &mut rings, 0, &steps);
    Ok(())
}

#[test]
fn ranges_end_in_a_kilobyte(rt: HostRuntime) -> Result<(), Fail> {
    let steps = [
        Step::Begin(0, 0),
        Step::Write(0, 1),
        Step::Write(1, 2),
        Step::Write(1026, 3),
        Step::Write(3, 4),
        Step::Write(4, 5),
        Step::Set(0x25, 3),
        Step::Commit(3),
        Step::Set(0x25, 5),
        Step::Commit(2),
        Step::Offer(&[1, 2, 3, 4, 5], &[]),
        Step::Taken(2, false),
        Step::Taken(2, true),
        Step::Taken(1, true),
        Step::Set(0x25, 6),
        Step::Commit(1),
        Step::Set(0x25, 7),
        Step::Commit(1),
        Step::Taken(2, true),
        Step::Set(0x24, 4),
        Step::Commit(1024),
        Step::Shows(0x20, 0),
        Step::Overwrites(7, 7),
        Step::Overwrites(6, 6),
        Step::Overwrites(1031, 7),
        Step::Empty,
        Step::Shows(0x20, 1024),
        Step::Shows(0x22, 1031),
        Step::Write(7, 1),
        Step::Offer(&[], &[]),
        Step::Datagram(&[10, 0, 0, 2, 0x9C, 0x40, 0, 2], &[0x68, 0x69]),
        Step::Shows(0x26, 10),
        Step::RxRead(0, 10),
        Step::RxRead(7, 2),
        Step::RxRead(8, 0x68),
        Step::Room(1014),
    ];
    let mut rings = Rings::new(rt.alloc())?;
    rings.set_sizes([8, 1, 1, 1, 1, 1, 1, 1], [8, 1, 1, 1, 1, 1, 1, 1]);
    take_steps(&rt, &mut rings, 7, &steps);
    Ok(())
}

// 17 KB of TX buffers are no sizes; eight of 2 KB are those after `new`.
#[test]
fn sizes_that_do_not_fit_are_none(rt: HostRuntime) -> Result<(), Fail> {
    let steps = [
        Step::Shows(0x20, 0),
        Step::Write(0, 5),
        Step::Read(0, 0),
        Step::Offer(&[], &[]),
        Step::Room(1472),
    ];
    let mut rings = Rings::new(rt.alloc())?;
    rings.set_sizes([8, 1, 1, 1, 1, 1, 2, 2], [2; 8]);
    take_steps(&rt, &mut rings, 3, &steps);
    Ok(())
}
