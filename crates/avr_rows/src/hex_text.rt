//! Texts worked by hand: checksums by the sum rule of the format.
use ihex::{HexError, HexFault, HexKind, Image, load, store};
use std::alloc::Global;
use std::test::Fail;

// The fault of a short text.
fn fault_of(alloc: Global, text: &[u8]) -> Option<HexFault> {
    if text.len() > 1000 {
        return None;
    }
    match load(alloc, text) {
        Err(HexError::Fault(fault)) => Some(fault),
        _ => None,
    }
}

// A byte of the image of a short text.
fn byte_of(alloc: Global, text: &[u8], at: u16) -> Option<u8> {
    if text.len() > 1000 || at >= 32768 {
        return None;
    }
    match load(alloc, text) {
        Ok(image) => Some(image.byte(at)),
        Err(_) => None,
    }
}

#[test]
fn faults(rt: HostRuntime) -> Result<(), Fail> {
    let table = [
        ("", 0, HexKind::NoEnd),
        ("\n\n", 2, HexKind::NoEnd),
        (":020000009895D1\r\n", 1, HexKind::NoEnd),
        (":020000009895D2\n:00000001FF\n", 1, HexKind::BadSum),
        (":00000001FF\n\n:00000001FF", 3, HexKind::AfterEnd),
        ("\nx\n", 2, HexKind::BadStart),
        ("\r", 1, HexKind::BadStart),
        (":00000001FF\r", 1, HexKind::BadDigit),
        (":000000g1FF", 1, HexKind::BadDigit),
        (":00000001F", 1, HexKind::BadLength),
        (":\n", 1, HexKind::BadLength),
        (":020000009866", 1, HexKind::BadLength),
        (":00000006FA", 1, HexKind::BadType),
        (":0100000100FE", 1, HexKind::BadLength),
        (":01800000007F", 1, HexKind::OutOfFlash),
        (":020000020001FB\n:02FFFF000102FD", 2, HexKind::OutOfFlash),
        (":020000040001F9\n:0100000055AA", 2, HexKind::OutOfFlash),
    ];
    for (text, line, kind) in table {
        assert_eq!(rt;
            fault_of(rt.alloc(), text.as_bytes()),
            Some(HexFault { line, kind })
        );
    }
    Ok(())
}

#[test]
fn images(rt: HostRuntime) -> Result<(), Fail> {
    let table = [
        (":020000009895d1\r\n:00000001ff", 0, 0x98),
        (":020000009895D1\n:00000001FF\n", 1, 0x95),
        (":020000009895D1\n\n:00000001FF\n", 2, 0xFF),
        (":020000020010EC\n:0100000055AA\n:00000001FF", 256, 0x55),
        (":0400000300003800C1\n:0100000055AA\n:00000001FF", 0, 0x55),
        (":04000005000000CD2A\n:0100000055AA\n:00000001FF", 0, 0x55),
        (":0100000011EE\n:0100000022DD\n:00000001FF", 0, 0x22),
        (":017FFF00126F\n:00000001FF", 32767, 0x12),
    ];
    for (text, at, byte) in table {
        assert_eq!(rt; byte_of(rt.alloc(), text.as_bytes(), at), Some(byte));
    }
    Ok(())
}

#[test]
fn stores(rt: HostRuntime) -> Result<(), Fail> {
    let mut image = Image::blank(rt.alloc())?;
    image.set(0, 0x98);
    image.set(1, 0x95);
    let text = store(rt.alloc(), &image)?;
    let row = ":100000009895FFFFFFFFFFFFFFFFFFFFFFFFFFFFD1\n:00000001FF\n";
    assert_eq!(rt; text.as_slice(), row.as_bytes());
    assert_eq!(rt; byte_of(rt.alloc(), text.as_slice(), 1), Some(0x95));
    Ok(())
}
