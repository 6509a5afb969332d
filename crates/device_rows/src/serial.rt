//! Worked by hand from the ATmega328P datasheet's tables.
use avr_serial::Serial;
use avr_sheet::DeviceStop;
use std::process::Abort;
use std::test::Fail;

const SPCR: u16 = 0x4C;

const SPSR: u16 = 0x4D;

const SPDR: u16 = 0x4E;

const UCSR0A: u16 = 0xC0;

const UCSR0B: u16 = 0xC1;

const UCSR0C: u16 = 0xC2;

const UBRR0L: u16 = 0xC4;

const UBRR0H: u16 = 0xC5;

const UDR0: u16 = 0xC6;

// One call, with what comes of it.
#[derive(Clone, Copy)]
enum Step {
    Write(u16, u8),
    Stop(u16, u8, DeviceStop),
    Read(u16, u8),
    Pass(u64),
    Start(u8, Option<u8>),
    StartStops(u8, DeviceStop),
    Got(u8),
    Pending(Option<u8>),
    Served(u8),
    Printed(Option<u8>),
}

// Makes one call at a cycle count, and answers the count after it.
fn take_step(rt: &impl Abort, serial: &mut Serial, now: u64, place: usize, step: Step) -> u64 {
    match step {
        Step::Write(addr, v) => assert_eq!(rt; serial.write(addr, v), Ok(()), "step {place}"),
        Step::Stop(addr, v, stop) => assert_eq!(rt;
            serial.write(addr, v),
            Err(stop),
            "step {place}"
        ),
        Step::Read(addr, want) => assert_eq!(rt; serial.read(addr), want, "step {place}"),
        Step::Start(v, want) => assert_eq!(rt; serial.spi_start(v), Ok(want), "step {place}"),
        Step::StartStops(v, stop) => assert_eq!(rt; serial.spi_start(v), Err(stop), "step {place}"),
        Step::Got(miso) => serial.spi_got(now, miso),
        Step::Pending(want) => assert_eq!(rt; serial.pending(), want, "step {place}"),
        Step::Served(vector) => serial.served(vector),
        Step::Printed(want) => assert_eq!(rt; serial.printed(), want, "step {place}"),
        Step::Pass(cycles) => {
            let to = now.saturating_add(cycles);
            serial.pass(now, to);
            return to;
        }
    }
    now
}

fn take_steps(rt: &impl Abort, serial: &mut Serial, steps: &[Step]) {
    let mut now = 0;
    for (place, step) in steps.iter().enumerate() {
        now = take_step(rt, serial, now, place, *step);
    }
}

// Two bytes back to back, on a board whose registers were written so and whose UCSR0A has these low bits.
fn check_frames(rt: &impl Abort, writes: &[Step], low: u8, cycles: u64) {
    let most = cycles.saturating_sub(1);
    let mut serial = Serial::new();
    take_steps(rt, &mut serial, writes);
    take_steps(
        rt,
        &mut serial,
        &[
            Step::Write(UDR0, 0x31),
            Step::Printed(Some(0x31)),
            Step::Read(UCSR0A, 0x20 | low),
            Step::Write(UDR0, 0x32),
            Step::Read(UCSR0A, low),
            Step::Write(UDR0, 0x33),
            Step::Pass(most),
            Step::Printed(None),
            Step::Read(UCSR0A, low),
            Step::Pass(1),
            Step::Printed(Some(0x32)),
            Step::Read(UCSR0A, 0x20 | low),
            Step::Pass(most),
            Step::Read(UCSR0A, 0x20 | low),
            Step::Pass(1),
            Step::Read(UCSR0A, 0x60 | low),
            Step::Printed(None),
        ],
    );
}

// One byte, with SPIF just after eight periods.
fn check_transfer(rt: &impl Abort, spcr: u8, spsr: u8, cycles: u64) {
    take_steps(
        rt,
        &mut Serial::new(),
        &[
            Step::Write(SPCR, spcr),
            Step::Write(SPSR, spsr),
            Step::Start(0x01, Some(0x01)),
            Step::Got(0xA3),
            Step::Pass(cycles.saturating_sub(1)),
            Step::Read(SPSR, spsr),
            Step::Read(SPDR, 0),
            Step::Pass(1),
            Step::Read(SPSR, 0x80 | spsr),
            Step::Read(SPDR, 0xA3),
            Step::Read(SPSR, spsr),
        ],
    );
}

#[test]
fn a_transfer_takes_eight_periods_at_each_rate(rt: HostRuntime) {
    for (spcr, spsr, cycles) in [
        (0x50, 0, 32),
        (0x51, 0, 128),
        (0x52, 0, 512),
        (0x53, 0, 1024),
        (0x50, 1, 16),
        (0x51, 1, 64),
        (0x52, 1, 256),
        (0x53, 1, 512),
    ] {
        check_transfer(&rt, spcr, spsr, cycles);
    }
}

#[test]
fn frames_follow_one_another_at_each_length(rt: HostRuntime) {
    let on = Step::Write(UCSR0B, 0x08);
    // 16 samples a bit of 1 cycle, of 104 and of 257, and 8 samples of 208.
    check_frames(&rt, &[on], 0, 160);
    check_frames(&rt, &[on, Step::Write(UBRR0L, 103)], 0, 16640);
    check_frames(&rt, &[on, Step::Write(UBRR0H, 1)], 0, 41120);
    let double = [on, Step::Write(UBRR0L, 207), Step::Write(UCSR0A, 2)];
    check_frames(&rt, &double, 2, 16640);
    // Parity, two stop bits, and both.
    check_frames(&rt, &[on, Step::Write(UCSR0C, 0x26)], 0, 176);
    check_frames(&rt, &[on, Step::Write(UCSR0C, 0x0E)], 0, 176);
    check_frames(&rt, &[on, Step::Write(UCSR0C, 0x3E)], 0, 192);
}

#[test]
fn collisions_order_of_bits_and_stored_writes(rt: HostRuntime) {
    take_steps(
        &rt,
        &mut Serial::new(),
        &[
            // With DORD bit 0 of SPDR is bit 7 on the line, both ways.
            Step::Write(SPCR, 0xF0),
            Step::Start(0x01, Some(0x80)),
            Step::Got(0x30),
            // A write during the transfer collides.
            Step::Start(0x02, None),
            Step::Write(SPDR, 0x02),
            Step::Read(SPSR, 0x40),
            Step::Pending(None),
            Step::Pass(32),
            Step::Pending(Some(0x22)),
            Step::Read(SPSR, 0xC0),
            Step::Served(0x22),
            Step::Read(SPSR, 0x40),
            Step::Read(SPDR, 0x0C),
            Step::Read(SPSR, 0),
            // Without MSTR a write is stored.
            Step::Write(SPCR, 0x40),
            Step::Start(0x55, None),
            Step::Write(SPDR, 0x55),
            Step::Read(SPDR, 0x55),
        ],
    );
}

#[test]
fn a_short_program_prints_and_modes_stop(rt: HostRuntime) {
    // ldi; sts UCSR0B; ldi; sts UDR0; break
    let program = [
        Step::Pass(1),
        Step::Write(UCSR0B, 0x08),
        Step::Pass(2),
        Step::Pass(1),
        Step::Write(UDR0, 0x41),
        Step::Pass(2),
        Step::Printed(Some(0x41)),
        Step::Pass(1),
        Step::Printed(None),
    ];
    take_steps(&rt, &mut Serial::new(), &program);
    let modes = [
        Step::Write(UCSR0C, 0x46),
        // Without TXEN the write is ignored, in any mode.
        Step::Write(UDR0, 0x41),
        Step::Write(UCSR0B, 0x08),
        Step::Stop(UDR0, 0x41, DeviceStop::UsartMode { ucsr0c: 0x46 }),
        Step::Write(UCSR0C, 0x04),
        Step::Stop(UDR0, 0x41, DeviceStop::UsartMode { ucsr0c: 0x04 }),
        Step::Write(UCSR0C, 0x06),
        Step::Write(UCSR0B, 0x0C),
        Step::Stop(UDR0, 0x41, DeviceStop::UsartMode { ucsr0c: 0x06 }),
        Step::Printed(None),
        Step::Write(SPCR, 0x54),
        Step::StartStops(0x55, DeviceStop::SpiMode { spcr: 0x54 }),
        Step::Stop(SPDR, 0x55, DeviceStop::SpiMode { spcr: 0x54 }),
        Step::Write(SPCR, 0x58),
        Step::StartStops(0x55, DeviceStop::SpiMode { spcr: 0x58 }),
        Step::Write(SPCR, 0x5C),
        Step::Start(0x55, Some(0x55)),
    ];
    take_steps(&rt, &mut Serial::new(), &modes);
}

#[test]
fn requests_of_the_transmitter(rt: HostRuntime) {
    let steps = [
        // Serving the empty data register leaves UDRE.
        Step::Write(UCSR0B, 0x28),
        Step::Pending(Some(0x26)),
        Step::Served(0x26),
        Step::Pending(Some(0x26)),
        Step::Write(UCSR0B, 0x48),
        Step::Pending(None),
        Step::Write(UDR0, 0x41),
        Step::Pass(160),
        Step::Pending(Some(0x28)),
        Step::Served(0x28),
        Step::Pending(None),
    ];
    take_steps(&rt, &mut Serial::new(), &steps);
}
