//! Worked by hand from the datasheet's description of the modes, registers and interrupts.
use avr_sheet::DeviceStop;
use avr_timer::Timers;
use std::process::Abort;
use std::test::Fail;

const TIFR0: u16 = 0x35;

const TCCR0A: u16 = 0x44;

const TCCR0B: u16 = 0x45;

const TCNT0: u16 = 0x46;

const OCR0A: u16 = 0x47;

const OCR0B: u16 = 0x48;

/// A run of timer 0: TCCR0A, TCCR0B, TCNT0, OCR0A and OCR0B before it, its cycles, and TCNT0 and TIFR0 after it.
#[derive(Clone, Copy)]
struct Row(u8, u8, u8, u8, u8, u64, u64, u8, u8);

#[rattlefmt::skip]
const ROWS: [Row; 42] = [
    // Normal: the flags at the ticks that reach them, the overflow at the tick from FF.
    Row(0, 1, 0xFA, 0xFC, 0x02, 0, 1, 0xFB, 0),
    Row(0, 1, 0xFA, 0xFC, 0x02, 0, 2, 0xFC, 2),
    Row(0, 1, 0xFA, 0xFC, 0x02, 0, 5, 0xFF, 2),
    Row(0, 1, 0xFA, 0xFC, 0x02, 0, 6, 0x00, 3),
    Row(0, 1, 0xFA, 0xFC, 0x02, 0, 8, 0x02, 7),
    Row(0, 1, 0xFA, 0xFC, 0x02, 100, 874, 0x00, 7),
    Row(0, 1, 0x10, 0x10, 0xFF, 0, 255, 0x0F, 5),
    Row(0, 1, 0x10, 0x10, 0xFF, 0, 256, 0x10, 7),
    Row(0, 1, 0x00, 0x01, 0x02, 0, 0xFFFF_FFFF_FFFF_FFFF, 0xFF, 7),
    // CTC: no overflow at TOP; a counter above TOP goes on to FF.
    Row(2, 1, 0x00, 0x09, 0x20, 0, 9, 0x09, 2),
    Row(2, 1, 0x00, 0x09, 0x20, 0, 10, 0x00, 2),
    Row(2, 1, 0x00, 0x09, 0x20, 0, 1007, 0x07, 2),
    Row(2, 1, 0x20, 0x09, 0x30, 0, 10, 0x2A, 0),
    Row(2, 1, 0x20, 0x09, 0x30, 0, 223, 0xFF, 4),
    Row(2, 1, 0x20, 0x09, 0x30, 0, 224, 0x00, 5),
    Row(2, 1, 0x20, 0x09, 0x30, 0, 233, 0x09, 7),
    // Fast: the overflow at each return to 0.
    Row(3, 1, 0xFE, 0x80, 0x81, 0, 1, 0xFF, 0),
    Row(3, 1, 0xFE, 0x80, 0x81, 0, 2, 0x00, 1),
    Row(3, 9, 0x00, 0x03, 0xF0, 0, 3, 0x03, 2),
    Row(3, 9, 0x00, 0x03, 0xF0, 0, 4, 0x00, 3),
    Row(3, 9, 0xF0, 0x03, 0xF8, 0, 16, 0x00, 5),
    Row(3, 9, 0x00, 0x00, 0x01, 0, 1, 0x00, 3),
    // Phase-correct: it turns at TOP and at 0, where it overflows.
    Row(1, 1, 0xFD, 0xFE, 0x00, 0, 2, 0xFF, 2),
    Row(1, 1, 0xFD, 0xFE, 0x00, 0, 3, 0xFE, 2),
    Row(1, 1, 0x00, 0x80, 0xFF, 0, 255, 0xFF, 6),
    Row(1, 1, 0x00, 0x80, 0xFF, 0, 509, 0x01, 6),
    Row(1, 1, 0x00, 0x80, 0xFF, 0, 510, 0x00, 7),
    Row(1, 9, 0x00, 0x04, 0x09, 0, 4, 0x04, 2),
    Row(1, 9, 0x00, 0x04, 0x09, 0, 5, 0x03, 2),
    Row(1, 9, 0x00, 0x04, 0x09, 0, 8, 0x00, 3),
    Row(1, 9, 0x00, 0x04, 0x02, 0, 0x8000_0000_0000_0003, 0x03, 7),
    Row(1, 9, 0x06, 0x04, 0x09, 0, 1, 0x05, 0),
    Row(1, 9, 0x06, 0x04, 0x09, 0, 2, 0x04, 2),
    Row(1, 9, 0x06, 0x04, 0x09, 0, 7, 0x01, 3),
    Row(1, 9, 0x00, 0x00, 0x01, 0, 5, 0x00, 2),
    Row(1, 9, 0x03, 0x00, 0x02, 0, 3, 0x00, 7),
    // The prescaler divides the cycles since reset; clock select 0 stands.
    Row(0, 2, 0x00, 0x80, 0x81, 5, 8, 0x01, 0),
    Row(0, 2, 0x00, 0x80, 0x81, 8, 15, 0x00, 0),
    Row(0, 3, 0x00, 0x80, 0x81, 31, 64, 0x01, 0),
    Row(0, 4, 0x00, 0x80, 0x81, 0, 1024, 0x04, 0),
    Row(0, 5, 0x00, 0x80, 0x81, 1023, 1024, 0x01, 0),
    Row(0, 0, 0x55, 0x55, 0x56, 0, 0x8000_0000_0000_0000, 0x55, 0),
];

fn set_up(row: &Row) -> Result<Timers, DeviceStop> {
    let mut timers = Timers::new();
    timers.write(TCCR0A, row.0)?;
    timers.write(TCNT0, row.2)?;
    timers.write(OCR0A, row.3)?;
    timers.write(OCR0B, row.4)?;
    timers.write(TCCR0B, row.1)?;
    Ok(timers)
}

#[test]
fn timer0_by_mode(rt: HostRuntime) -> Result<(), Fail> {
    for (i, row) in ROWS.iter().enumerate() {
        let mut timers = set_up(row)?;
        if row.5 <= row.6 {
            timers.pass(row.5, row.6);
        }
        assert_eq!(rt; timers.read(TCNT0), row.7, "TCNT0 of row {i}");
        assert_eq!(rt; timers.read(TIFR0), row.8, "TIFR0 of row {i}");
    }
    Ok(())
}

#[test]
fn spans_are_their_cuts(rt: HostRuntime) -> Result<(), Fail> {
    let mut random = 1u64;
    for (i, row) in ROWS.iter().enumerate() {
        let mut whole = set_up(row)?;
        let mut cut = set_up(row)?;
        let mut single = set_up(row)?;
        let mut at = 0u64;
        for _ in 0..40 {
            random = random
                .wrapping_mul(6364136223846793005)
                .wrapping_add(1442695040888963407);
            let next = at.saturating_add(random / 0x0400_0000_0000_0000);
            if at <= next {
                cut.pass(at, next);
            }
            at = next;
        }
        for cycle in 0..at {
            single.pass(cycle, cycle + 1);
        }
        whole.pass(0, at);
        assert!(rt; whole == cut, "row {i}");
        assert!(rt; whole == single, "row {i}");
    }
    Ok(())
}

/// A call on the timers, with what comes of it.
#[derive(Clone, Copy)]
enum Step {
    Write(u16, u8),
    Stop(u16, u8, DeviceStop),
    Read(u16, u8),
    Pass(u64, u64),
    Pending(Option<u8>),
    Served(u8),
}

/// Makes one call. A write that stops leaves all timers as they were.
fn take_step(rt: &impl Abort, timers: &mut Timers, place: usize, step: Step) {
    match step {
        Step::Write(addr, v) => assert_eq!(rt; timers.write(addr, v), Ok(()), "step {place}"),
        Step::Stop(addr, v, stop) => {
            let before = *timers;
            assert_eq!(rt; timers.write(addr, v), Err(stop), "step {place}");
            assert!(rt; *timers == before, "step {place}");
        }
        Step::Read(addr, want) => assert_eq!(rt; timers.read(addr), want, "step {place}"),
        Step::Pass(from, to) => {
            if from <= to {
                timers.pass(from, to);
            }
        }
        Step::Pending(want) => assert_eq!(rt; timers.pending(), want, "step {place}"),
        Step::Served(vector) => timers.served(vector),
    }
}

fn take_steps(rt: &impl Abort, timers: &mut Timers, steps: &[Step]) {
    for (place, step) in steps.iter().enumerate() {
        take_step(rt, timers, place, *step);
    }
}

/// Timer 1: a word is written high byte first and read low byte first, its flags and its vectors.
const TIMER1: [Step; 26] = [
    Step::Write(0x85, 0x12),
    Step::Write(0x84, 0x34),
    Step::Write(0x89, 0x12),
    Step::Write(0x88, 0x36),
    Step::Write(0x86, 0xCD),
    Step::Read(0x86, 0xCD),
    Step::Read(0x87, 0x12),
    Step::Write(0x8B, 0xFF),
    Step::Read(0x8B, 0x00),
    Step::Read(0x84, 0x34),
    Step::Read(0x85, 0x12),
    Step::Write(0x6F, 0x02),
    Step::Write(0x81, 0x01),
    Step::Pass(0, 2),
    Step::Read(0x36, 0x02),
    Step::Pending(Some(0x16)),
    Step::Write(0x36, 0x05),
    Step::Pending(Some(0x16)),
    Step::Served(0x18),
    Step::Pending(Some(0x16)),
    Step::Served(0x16),
    Step::Pending(None),
    Step::Write(0x80, 0x02),
    Step::Write(0x81, 0x19),
    Step::Pass(0, 65536),
    Step::Read(0x36, 0x07),
];

#[test]
fn timer1_by_bytes(rt: HostRuntime) {
    take_steps(&rt, &mut Timers::new(), &TIMER1);
}

/// Timer 2 beside timer 0: each divides by its own prescaler.
const TIMER2: [Step; 11] = [
    Step::Write(0xB1, 3),
    Step::Write(0x45, 3),
    Step::Write(0xB3, 1),
    Step::Write(0x70, 2),
    Step::Pass(0, 63),
    Step::Read(0xB2, 1),
    Step::Read(0x46, 0),
    Step::Pending(Some(0x0E)),
    Step::Write(0xB1, 7),
    Step::Pass(63, 1024),
    Step::Read(0xB2, 2),
];

#[test]
fn timer2_has_its_own_prescaler(rt: HostRuntime) {
    take_steps(&rt, &mut Timers::default(), &TIMER2);
}

/// Writes that are stored, and writes that stop.
const STOPS: [Step; 14] = [
    Step::Write(0x45, 0xC8),
    Step::Read(0x45, 0x08),
    Step::Stop(0x45, 6, DeviceStop::ExternalClock { timer: 0 }),
    Step::Stop(0x45, 9, DeviceStop::TimerMode { timer: 0, mode: 4 }),
    Step::Stop(0x81, 0x11, DeviceStop::TimerMode { timer: 1, mode: 8 }),
    Step::Stop(0x81, 0x17, DeviceStop::ExternalClock { timer: 1 }),
    Step::Stop(0xB6, 0x20, DeviceStop::ExternalClock { timer: 2 }),
    Step::Write(0xB0, 0x10),
    Step::Stop(0xB1, 6, DeviceStop::WaveformPin { timer: 2 }),
    Step::Write(0x45, 1),
    Step::Write(0x44, 2),
    Step::Stop(0x45, 9, DeviceStop::TimerMode { timer: 0, mode: 6 }),
    Step::Stop(0x44, 0x40, DeviceStop::WaveformPin { timer: 0 }),
    Step::Read(0x44, 2),
];

#[test]
fn stops(rt: HostRuntime) {
    take_steps(&rt, &mut Timers::new(), &STOPS);
}

/// Another mode of timer 0 begins upwards.
const UPWARDS: [Step; 12] = [
    Step::Write(TCCR0A, 1),
    Step::Write(TCNT0, 0xFE),
    Step::Write(TCCR0B, 1),
    Step::Pass(0, 3),
    Step::Read(TCNT0, 0xFD),
    Step::Write(TCNT0, 0x80),
    Step::Pass(3, 4),
    Step::Read(TCNT0, 0x7F),
    Step::Write(TCCR0A, 0),
    Step::Write(TCCR0A, 1),
    Step::Pass(4, 5),
    Step::Read(TCNT0, 0x80),
];

#[test]
fn another_mode_begins_upwards(rt: HostRuntime) {
    take_steps(&rt, &mut Timers::new(), &UPWARDS);
}
