//! Frames of each length mode, byte by byte, worked by hand from the datasheet.
use chip_sheet::phase::Phase;
use spi_frame::framer::Framer;
use std::test::Fail;

// A byte of block 0 that is read at this address, or written.
fn body(addr: u16, write: bool) -> Phase {
    Phase::Body {
        block: 0,
        addr,
        write,
    }
}

#[test]
fn bytes_stand_where_the_datasheet_says(rt: HostRuntime) -> Result<(), Fail> {
    // The control byte's low bits are the length mode: 0 goes on, 1 carries a byte, 2 two and 3 four. Bit 2 writes.
    let frames: [(&[u8], &[Phase]); 4] = [
        (
            &[0xFF, 0xFE, 0x00, 1, 2, 3],
            &[
                body(0xFFFE, false),
                body(0xFFFF, false),
                body(0x0000, false),
            ],
        ),
        (
            &[0x00, 0x39, 0x01, 1, 0, 0, 0x05, 9],
            &[
                body(0x39, false),
                Phase::Address,
                Phase::Address,
                Phase::Control,
                body(0, true),
            ],
        ),
        (
            &[0x00, 0x01, 0x06, 1, 2, 3],
            &[body(1, true), body(2, true), Phase::Address],
        ),
        (
            &[0x00, 0x05, 0x07, 1, 2, 3, 4, 5],
            &[
                body(5, true),
                body(6, true),
                body(7, true),
                body(8, true),
                Phase::Address,
            ],
        ),
    ];
    for (bytes, phases) in frames {
        let mut framer = Framer::new();
        assert_eq!(rt; framer.byte(0x55), Phase::Idle);
        framer.select(true);
        for (at, byte) in bytes.iter().enumerate() {
            let phase = framer.byte(*byte);
            let want = match at {
                0 | 1 => Phase::Address,
                2 => Phase::Control,
                _ => phases.get(at - 3).copied().unwrap_or(Phase::Idle),
            };
            assert_eq!(rt; phase, want, "byte {at} of {bytes:?}");
        }
        framer.select(true);
        framer.select(false);
        assert!(rt; !framer.is_low());
    }
    Ok(())
}
