//! Rows of what texts are read from.

use board_read::bytes::bytes;
use board_read::numbers::{address, count, pointer, port};
use std::test::Fail;

#[test]
fn reads_numbers(rt: HostRuntime) {
    for (text, as_count, as_port, as_pointer) in [
        ("0", Some(0), Some(0), Some(0)),
        ("007", Some(7), Some(7), None),
        ("65535", Some(65_535), Some(65_535), Some(65_535)),
        ("65536", Some(65_536), None, None),
        ("4294967295", Some(4_294_967_295), None, None),
        ("4294967296", None, None, None),
        ("00000000001", None, None, None),
        ("", None, None, None),
        ("1a", None, None, None),
    ] {
        assert_eq!(rt; count(text.as_bytes()), as_count, "{text}");
        assert_eq!(rt; port(text.as_bytes()), as_port, "{text}");
        assert_eq!(rt; pointer(text.as_bytes()), as_pointer, "{text}");
    }
}

#[test]
fn reads_addresses(rt: HostRuntime) {
    for (text, want) in [
        ("10.0.0.2", Some([10, 0, 0, 2])),
        ("255.255.255.255", Some([255, 255, 255, 255])),
        ("10.0.0.02", None),
        ("10.0.0.256", None),
        ("10.0.0", None),
        ("10.0.0.2.3", None),
        ("10.0.0.", None),
    ] {
        assert_eq!(rt; address(text.as_bytes()), want, "{text}");
    }
}

#[test]
fn reads_bytes(rt: HostRuntime) -> Result<(), Fail> {
    for (text, want) in [
        ("", Some(0)),
        ("68aF", Some(2)),
        ("123", None),
        ("0g", None),
    ] {
        let found = bytes(rt.alloc(), text.as_bytes())?.map(|found| found.len());
        assert_eq!(rt; found, want, "{text}");
    }
    Ok(())
}
