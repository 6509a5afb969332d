//! Worked by hand from the datasheet's table.
use irq_lines::lines::{int_low, sir, sir_with};
use std::test::Fail;

#[test]
fn lines_follow_the_masks(rt: HostRuntime) -> Result<(), Fail> {
    // Sockets 0, 3 and 7 have interrupts; socket 3's mask lets none through.
    let irs = [0x04, 0, 0, 0x10, 0, 0, 0, 0x01];
    let imrs = [0xFF, 0xFF, 0xFF, 0x0F, 0xFF, 0xFF, 0xFF, 0x01];
    assert_eq!(rt; sir(&irs, &imrs), 0x81);
    // SIR before, a socket, its interrupts and its mask, and SIR then.
    let rows = [
        (0x81, 3, 0x10, 0x10, 0x89),
        (0x89, 7, 0x01, 0x1E, 0x09),
        (0x09, 0, 0x00, 0xFF, 0x08),
        (0x08, 3, 0x1F, 0x01, 0x08),
    ];
    for (before, n, ir, imr, then) in rows {
        assert_eq!(rt; sir_with(before, n, ir, imr), then, "socket {n}");
    }
    assert_eq!(rt; int_low(0x00, 0xFF, 0x08, 0x08), true);
    assert_eq!(rt; int_low(0x00, 0xFF, 0x08, 0xF7), false);
    Ok(())
}
