//! Worked by hand from the datasheet's table.
use chip_sheet::event::Addr;
use sock_regs::registers::SockRegs;
use std::test::Fail;

#[test]
fn places_keep_what_the_table_says(rt: HostRuntime) -> Result<(), Fail> {
    // Bits that are raised first, an address, a byte written to it, and what the address reads then.
    let writes = [
        (0x00, 0x00, 0x01, Some(0x01)),
        (0x00, 0x01, 0x10, Some(0x00)),
        (0x15, 0x02, 0x04, Some(0x11)),
        (0x00, 0x02, 0x01, Some(0x10)),
        (0x00, 0x03, 0x17, None),
        (0x00, 0x0F, 0x05, Some(0x05)),
        (0x00, 0x14, 0xFF, Some(0x00)),
        (0x00, 0x16, 0x40, Some(0x40)),
        (0x00, 0x1F, 0x04, Some(0x04)),
        (0x00, 0x20, 0xFF, None),
        (0x00, 0x24, 0xFF, None),
        (0x00, 0x2B, 0xFF, None),
        (0x00, 0x2C, 0x0F, Some(0x0F)),
        (0x00, 0x30, 0xFF, Some(0x00)),
    ];
    let mut registers = SockRegs::new();
    for (raised, addr, v, shown) in writes {
        registers.raise(raised);
        registers.write(addr, v);
        assert_eq!(rt; registers.read(addr), shown, "{addr:02X}");
    }
    registers.set_peer(Addr {
        ip: [10, 0, 0, 7],
        port: 0x1389,
    });
    for (addr, shown) in [
        (0x0C, 10),
        (0x0F, 7),
        (0x10, 0x13),
        (0x11, 0x89),
        (0x06, 0xFF),
    ] {
        assert_eq!(rt; registers.read(addr), Some(shown), "{addr:02X}");
    }
    assert_eq!(rt; SockRegs::new().read(0x16), Some(0x80));
    Ok(())
}
