//! Worked by hand from the datasheet's table.
use common_regs::registers::{CommonRegs, Wrote};
use std::test::Fail;

#[test]
fn places_keep_what_the_table_says(rt: HostRuntime) -> Result<(), Fail> {
    // An address, a byte written to it, what the write is, and what the address reads then.
    let writes = [
        (0x00, 0x20, Wrote::Plain, 0x20),
        (0x00, 0x08, Wrote::Pppoe, 0x20),
        (0x01, 0x5A, Wrote::Plain, 0x5A),
        (0x15, 0xFF, Wrote::Plain, 0x00),
        (0x17, 0xFF, Wrote::Plain, 0x81),
        (0x18, 0xC3, Wrote::Plain, 0xC3),
        (0x28, 0x11, Wrote::Plain, 0x00),
        (0x2E, 0x42, Wrote::Plain, 0x47),
        (0x39, 0x05, Wrote::Plain, 0x04),
        (0x3A, 0x05, Wrote::Plain, 0x00),
        (0xFFFF, 0x80, Wrote::Plain, 0x00),
        (0x00, 0x88, Wrote::Reset, 0x00),
    ];
    let mut registers = CommonRegs::new();
    for (addr, v, wrote, shown) in writes {
        assert_eq!(rt; registers.write(addr, v), wrote, "{addr:04X}");
        assert_eq!(rt; registers.read(addr, 0x81), shown, "{addr:04X}");
    }
    for (addr, shown) in [
        (0x01, 0x00),
        (0x19, 0x07),
        (0x1A, 0xD0),
        (0x1B, 0x08),
        (0x1C, 0x28),
        (0x26, 0xFF),
        (0x2E, 0xBF),
    ] {
        assert_eq!(rt;
            registers.read(addr, 0x00),
            shown,
            "{addr:04X} after a reset"
        );
    }
    Ok(())
}
