//! Each public function once.
use avr_sheet::*;
use std::test::Fail;

#[test]
fn bits_of_a_byte(rt: HostRuntime) -> Result<(), Fail> {
    assert!(rt; is_set(0x80, 7) && !is_set(0x7F, 7) && is_set(0x01, 0));
    assert_eq!(rt; with_bit(0x81, 3, true), 0x89);
    assert_eq!(rt; with_bit(0xFF, 0, false), 0xFE);
    assert_eq!(rt; with_bit(0x10, 4, true), 0x10);
    assert_eq!(rt; weighed(true, 64) + weighed(false, 32), 64);
    Ok(())
}

#[test]
fn stops(rt: HostRuntime) -> Result<(), Fail> {
    assert_eq!(rt;
        DeviceStop::SpiMode { spcr: 0x58 },
        DeviceStop::SpiMode { spcr: 0x58 }
    );
    assert_ne!(rt; DeviceStop::Adc, DeviceStop::Twi);
    Ok(())
}
