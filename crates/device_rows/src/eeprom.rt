//! The EEPROM, worked by hand from the ATmega328P datasheet's section and this board's timings.
use avr_eeprom::Eeprom;
use avr_sheet::DeviceStop;
use std::process::Abort;
use std::test::Fail;

const EECR: u16 = 0x3F;

const EEDR: u16 = 0x40;

const EEARL: u16 = 0x41;

const EEARH: u16 = 0x42;

// One call, with what comes of it.
#[derive(Clone, Copy)]
enum Step {
    Write(u16, u8),
    Set(u8),
    SetStops(u8),
    Read(u16, u8),
    Pass(u64),
    Pending(Option<u8>),
}

// Makes one call at a cycle count, and answers the count after it.
fn take_step(rt: &impl Abort, eeprom: &mut Eeprom, now: u64, place: usize, step: Step) -> u64 {
    match step {
        Step::Write(addr, v) => assert_eq!(rt; eeprom.write(addr, v), Ok(()), "step {place}"),
        Step::Set(bit) => assert_eq!(rt; eeprom.write_bit(bit & 7, true), Ok(()), "step {place}"),
        Step::SetStops(bit) => assert_eq!(rt;
            eeprom.write_bit(bit & 7, true),
            Err(DeviceStop::Eeprom),
            "step {place}"
        ),
        Step::Read(addr, want) => assert_eq!(rt; eeprom.read(addr), want, "step {place}"),
        Step::Pending(want) => assert_eq!(rt; eeprom.pending(), want, "step {place}"),
        Step::Pass(cycles) => {
            let to = now.saturating_add(cycles);
            eeprom.pass(now, to);
            return to;
        }
    }
    now
}

// A byte is written and read back; the borders of both timings; a second cell, by the address modulo 1,024; a byte without EEMPE;
// a mode that is not offered.
const STEPS: [Step; 44] = [
    Step::Read(EECR, 0x00),
    Step::Set(0),
    Step::Read(EEDR, 0xFF),
    Step::Write(EEDR, 0x5A),
    Step::Set(2),
    Step::Pass(4),
    Step::Read(EECR, 0x04),
    Step::Set(1),
    Step::Read(EECR, 0x06),
    Step::Write(EEDR, 0x11),
    Step::Set(0),
    Step::Read(EEDR, 0x11),
    Step::Set(3),
    Step::Pending(None),
    Step::Pass(54_399),
    Step::Read(EECR, 0x0A),
    Step::Pending(None),
    Step::Pass(1),
    Step::Read(EECR, 0x08),
    Step::Pending(Some(0x2C)),
    Step::Set(0),
    Step::Read(EEDR, 0x5A),
    Step::Write(EEARH, 0xFC),
    Step::Write(EEARL, 0x01),
    Step::Read(EEARH, 0xFC),
    Step::Set(0),
    Step::Read(EEDR, 0xFF),
    Step::Write(EEARH, 0x04),
    Step::Write(EEARL, 0x00),
    Step::Set(0),
    Step::Read(EEDR, 0x5A),
    Step::Write(EECR, 0x04),
    Step::Pass(5),
    Step::Write(EECR, 0x02),
    Step::Read(EECR, 0x00),
    Step::Write(EECR, 0x06),
    Step::Read(EECR, 0x04),
    Step::Write(EECR, 0x30),
    Step::Read(EECR, 0x34),
    Step::SetStops(1),
    Step::Read(EECR, 0x34),
    Step::Write(EECR, 0xC2),
    Step::Read(EECR, 0x06),
    Step::Read(0x43, 0x00),
];

#[test]
fn writes_and_reads_cells(rt: HostRuntime) -> Result<(), Fail> {
    let mut eeprom = Eeprom::new(rt.alloc())?;
    let mut now = 0;
    for (place, step) in STEPS.iter().enumerate() {
        now = take_step(&rt, &mut eeprom, now, place, *step);
    }
    Ok(())
}
