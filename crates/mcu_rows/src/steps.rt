//! Short programs over a bus of given answers; opcodes, cycles and trails are worked by hand from the Instruction Set
//! Manual and the datasheet.
use avr_core::AvrStop;
use avr_mcu::*;
use avr_sheet::DeviceStop;
use flash::Image;
use ihex::load;
use std::alloc::Global;
use std::test::Fail;

/// Where a program of a table begins whose vectors are used.
const MAIN: u16 = 0x0100;

/// Writes words into flash, from a word address on.
fn put(image: &mut Image, at: u16, words: &[u16]) {
    for (i, &word) in words.iter().enumerate() {
        if at < 0x1000 && i < 0x1000 {
            let place = 2 * (at + i as u16);
            image.set(place, (word % 256) as u8);
            image.set(place + 1, (word / 256) as u8);
        }
    }
}

/// Flash with a program at word 0 and another at an interrupt vector.
fn flash_of(alloc: Global, words: &[u16], vector: u16, handler: &[u16]) -> Result<Image, Fail> {
    let mut image = Image::blank(alloc)?;
    put(&mut image, 0, words);
    put(&mut image, vector, handler);
    Ok(image)
}

/// Flash whose program writes these bytes at these data addresses, sets I and waits; a `break` stands at the vector.
fn poking(alloc: Global, pokes: &[(u16, u8)], vector: u16) -> Result<Image, Fail> {
    let mut image = flash_of(alloc, &[0x940C, MAIN], vector, &[0x9598])?;
    let mut at = MAIN;
    for &(addr, v) in pokes {
        let load = 0xE080 + u16::from(v / 16) * 256 + u16::from(v % 16);
        put(&mut image, at, &[load, 0x9380, addr]);
        at = at.wrapping_add(3);
    }
    put(&mut image, at, &[0x9478, 0xCFFF]);
    Ok(image)
}

/// What a run came to.
#[derive(Drop)]
struct Seen {
    run: Run,
    mcu: Mcu,
    peer: ListPeer,
}

/// Runs an image from reset.
fn run_image(alloc: Global, image: Image, answers: &[BusAnswer], limit: u16) -> Result<Seen, Fail> {
    let mut mcu = Mcu::new(alloc, image)?;
    let mut peer = ListPeer::new(alloc, answers)?;
    let run = run_on(alloc, &mut mcu, &mut peer, u64::from(limit))?;
    Ok(Seen { run, mcu, peer })
}

/// A program, what it is answered, and what it comes to.
struct Case {
    name: &'static str,
    words: &'static [u16],
    vector: u16,
    handler: &'static [u16],
    answers: &'static [BusAnswer],
    limit: u16,
    end: RunEnd,
    cycles: u64,
    serial: &'static [u8],
    asked: &'static [BusEvent],
    trail: &'static [u16],
}

/// Selects the chip, sends A5, waits for SPIF, prints what came back, and deselects the chip.
const EXCHANGE: [u16; 16] = [
    0xE088, 0x9380, 0x00C1, 0x9A22, 0xE580, 0xBD8C, 0xEA85, 0xBD8E, 0xB40D, 0xFE07, 0xCFFD, 0xB41E,
    0x9210, 0x00C6, 0x9A2A, 0x9598,
];

const CASES: [Case; 26] = [
    // A byte is printed.
    Case {
        name: "print 41",
        words: &[0xE088, 0x9380, 0x00C1, 0xE481, 0x9380, 0x00C6, 0x9598],
        vector: 0x26,
        handler: &[],
        answers: &[],
        limit: 1000,
        end: RunEnd::Break,
        cycles: 7,
        serial: &[0x41],
        asked: &[],
        trail: &[0, 1, 3, 4, 6],
    },
    Case {
        name: "print 48",
        words: &[0xE088, 0x9380, 0x00C1, 0xE488, 0x9380, 0x00C6, 0x9598],
        vector: 0x26,
        handler: &[],
        answers: &[],
        limit: 1000,
        end: RunEnd::Break,
        cycles: 7,
        serial: &[0x48],
        asked: &[],
        trail: &[0, 1, 3, 4, 6],
    },
    // The core's stops.
    Case {
        name: "no instruction",
        words: &[0x0000, 0xFFFF],
        vector: 0x26,
        handler: &[],
        answers: &[],
        limit: 1000,
        end: RunEnd::Stop(AvrStop::Illegal {
            pc: 1,
            word: 0xFFFF,
        }),
        cycles: 1,
        serial: &[],
        asked: &[],
        trail: &[0, 1],
    },
    Case {
        name: "ld r30, Z+",
        words: &[0x91E1],
        vector: 0x26,
        handler: &[],
        answers: &[],
        limit: 1000,
        end: RunEnd::Stop(AvrStop::Undefined {
            pc: 0,
            word: 0x91E1,
        }),
        cycles: 0,
        serial: &[],
        asked: &[],
        trail: &[0],
    },
    Case {
        name: "spm",
        words: &[0x0000, 0x95E8],
        vector: 0x26,
        handler: &[],
        answers: &[],
        limit: 1000,
        end: RunEnd::Stop(AvrStop::SelfProgram { pc: 1 }),
        cycles: 1,
        serial: &[],
        asked: &[],
        trail: &[0, 1],
    },
    // SP starts at 08FF; SPH is set to 00, and a byte is pushed.
    Case {
        name: "push below SRAM",
        words: &[0x920F, 0xBE0E, 0x920F],
        vector: 0x26,
        handler: &[],
        answers: &[],
        limit: 1000,
        end: RunEnd::Stop(AvrStop::StackOut { pc: 2, sp: 0x00FE }),
        cycles: 3,
        serial: &[],
        asked: &[],
        trail: &[0, 1, 2],
    },
    Case {
        name: "lds past SRAM",
        words: &[0x9000, 0x0900],
        vector: 0x26,
        handler: &[],
        answers: &[],
        limit: 1000,
        end: RunEnd::Stop(AvrStop::BadAddress {
            pc: 0,
            addr: 0x0900,
        }),
        cycles: 0,
        serial: &[],
        asked: &[],
        trail: &[0],
    },
    // An interrupt entry whose return address has no room: the trail gains nothing.
    Case {
        name: "entry below SRAM",
        words: &[0xE288, 0x9380, 0x00C1, 0xBE1E, 0x9478, 0x0000, 0x0000],
        vector: 0x26,
        handler: &[0x9598],
        answers: &[],
        limit: 1000,
        end: RunEnd::Stop(AvrStop::StackOut { pc: 6, sp: 0x00FF }),
        cycles: 6,
        serial: &[],
        asked: &[],
        trail: &[0, 1, 3, 4, 5],
    },
    // A request is pending at `sei`: the instruction behind it runs first.
    Case {
        name: "sei",
        words: &[0xE288, 0x9380, 0x00C1, 0x9478, 0x0000, 0x0000],
        vector: 0x26,
        handler: &[0x9598],
        answers: &[],
        limit: 1000,
        end: RunEnd::Break,
        cycles: 10,
        serial: &[],
        asked: &[],
        trail: &[0, 1, 3, 4, 0x26],
    },
    // A frame of avr-gcc: `out SREG` sets I, and `out SPL` runs before the entry, one instruction and no more.
    Case {
        name: "out to SREG",
        words: &[0xE288, 0x9380, 0x00C1, 0xE880, 0xBF8F, 0xBF8D, 0x0000],
        vector: 0x26,
        handler: &[0x9598],
        answers: &[],
        limit: 1000,
        end: RunEnd::Break,
        cycles: 11,
        serial: &[],
        asked: &[],
        trail: &[0, 1, 3, 4, 5, 0x26],
    },
    // The same by `st`, with X at data address 005F.
    Case {
        name: "st to SREG",
        words: &[
            0xE288, 0x9380, 0x00C1, 0xE880, 0xE5AF, 0x938C, 0x0000, 0x0000,
        ],
        vector: 0x26,
        handler: &[0x9598],
        answers: &[],
        limit: 1000,
        end: RunEnd::Break,
        cycles: 13,
        serial: &[],
        asked: &[],
        trail: &[0, 1, 3, 4, 5, 6, 0x26],
    },
    // `out SREG` is what SEI owes. I was set before it, so it owes nothing.
    Case {
        name: "out to SREG with I set",
        words: &[0xE288, 0x9380, 0x00C1, 0xE880, 0x9478, 0xBF8F, 0x0000],
        vector: 0x26,
        handler: &[0x9598],
        answers: &[],
        limit: 1000,
        end: RunEnd::Break,
        cycles: 11,
        serial: &[],
        asked: &[],
        trail: &[0, 1, 3, 4, 5, 0x26],
    },
    // Timer 0 overflows between `cli` and the `out SREG` that sets I again, all plain instructions.
    Case {
        name: "SREG is restored",
        words: &[
            0xEF8B, 0xBD86, 0xE081, 0x9380, 0x006E, 0xBD85, 0x9478, 0xB78F, 0x94F8, 0x0000, 0xBF8F,
            0x0000, 0x0000,
        ],
        vector: 0x20,
        handler: &[0x9598],
        answers: &[],
        limit: 1000,
        end: RunEnd::Break,
        cycles: 17,
        serial: &[],
        asked: &[],
        trail: &[0, 1, 2, 3, 5, 6, 7, 8, 9, 10, 11, 0x20],
    },
    // A request is still pending at `reti`: one instruction runs before the next entry.
    Case {
        name: "reti",
        words: &[0xE288, 0x9380, 0x00C1, 0x9478, 0x9413, 0xCFFE],
        vector: 0x26,
        handler: &[0x9423, 0xFC21, 0x9598, 0x9518],
        answers: &[],
        limit: 1000,
        end: RunEnd::Break,
        cycles: 25,
        serial: &[],
        asked: &[],
        trail: &[0, 1, 3, 4, 0x26, 0x27, 0x29, 5, 0x26, 0x27, 0x28],
    },
    // An interrupt in an interrupt.
    Case {
        name: "nested",
        words: &[0xE288, 0x9380, 0x00C1, 0x9478, 0x0000, 0x0000],
        vector: 0x26,
        handler: &[0x9423, 0xFC21, 0x9598, 0x9478, 0x0000, 0x0000],
        answers: &[],
        limit: 1000,
        end: RunEnd::Break,
        cycles: 21,
        serial: &[],
        asked: &[],
        trail: &[0, 1, 3, 4, 0x26, 0x27, 0x29, 0x2A, 0x26, 0x27, 0x28],
    },
    // Timer 0 wakes the part: TCNT0 goes from F4 at the first cycle asleep to 00 in twelve.
    Case {
        name: "woken by timer 0",
        words: &[
            0xEF80, 0xBD86, 0xE081, 0x9380, 0x006E, 0xBD85, 0xBF83, 0x9478, 0x9588, 0x9598,
        ],
        vector: 0x20,
        handler: &[0x9518],
        answers: &[],
        limit: 1000,
        end: RunEnd::Break,
        cycles: 30,
        serial: &[],
        asked: &[],
        trail: &[0, 1, 2, 3, 5, 6, 7, 8, 0x20, 9],
    },
    Case {
        name: "sleep with I clear",
        words: &[0x0000, 0x9588],
        vector: 0x26,
        handler: &[],
        answers: &[],
        limit: 1000,
        end: RunEnd::Sleep,
        cycles: 2,
        serial: &[],
        asked: &[],
        trail: &[0, 1],
    },
    // SMCR bit 0 is clear: `sleep` does nothing.
    Case {
        name: "sleep without SE",
        words: &[0x9478, 0x9588, 0x9598],
        vector: 0x26,
        handler: &[],
        answers: &[],
        limit: 1000,
        end: RunEnd::Break,
        cycles: 3,
        serial: &[],
        asked: &[],
        trail: &[0, 1, 2],
    },
    // The 64th instruction looks, and the 128th; 16 addresses are kept.
    Case {
        name: "looks",
        words: &[0xCFFF],
        vector: 0x26,
        handler: &[],
        answers: &[BusAnswer::Level(true)],
        limit: 1000,
        end: RunEnd::Wants(BusEvent::Look),
        cycles: 254,
        serial: &[],
        asked: &[BusEvent::Look],
        trail: &[0, 0, 0, 0, 0, 0, 0, 0, 0, 0, 0, 0, 0, 0, 0, 0],
    },
    // A `break` as the 64th instruction does not look.
    Case {
        name: "break as the 64th",
        words: &[0xE18F, 0x958A, 0xF7F1, 0x9598],
        vector: 0x26,
        handler: &[],
        answers: &[],
        limit: 1000,
        end: RunEnd::Break,
        cycles: 94,
        serial: &[],
        asked: &[],
        trail: &[2, 1, 2, 1, 2, 1, 2, 1, 2, 1, 2, 1, 2, 1, 2, 3],
    },
    // A byte goes to the chip while it is selected; the one that came back is printed.
    Case {
        name: "exchange",
        words: &EXCHANGE,
        vector: 0x26,
        handler: &[],
        answers: &[
            BusAnswer::Done,
            BusAnswer::Level(true),
            BusAnswer::Out(0x3C),
            BusAnswer::Level(true),
            BusAnswer::Done,
            BusAnswer::Level(true),
        ],
        limit: 1000,
        end: RunEnd::Break,
        cycles: 50,
        serial: &[0x3C],
        asked: &[
            BusEvent::Select(true),
            BusEvent::Look,
            BusEvent::Byte(0xA5),
            BusEvent::Look,
            BusEvent::Select(false),
            BusEvent::Look,
        ],
        trail: &[10, 8, 9, 10, 8, 9, 10, 8, 9, 10, 8, 9, 11, 12, 14, 15],
    },
    // The bus is over at the select line, at the byte, and at the look behind it.
    Case {
        name: "select unanswered",
        words: &EXCHANGE,
        vector: 0x26,
        handler: &[],
        answers: &[],
        limit: 1000,
        end: RunEnd::Wants(BusEvent::Select(true)),
        cycles: 3,
        serial: &[],
        asked: &[],
        trail: &[0, 1, 3],
    },
    Case {
        name: "byte unanswered",
        words: &EXCHANGE,
        vector: 0x26,
        handler: &[],
        answers: &[BusAnswer::Done, BusAnswer::Level(true)],
        limit: 1000,
        end: RunEnd::Wants(BusEvent::Byte(0xA5)),
        cycles: 8,
        serial: &[],
        asked: &[BusEvent::Select(true), BusEvent::Look],
        trail: &[0, 1, 3, 4, 5, 6, 7],
    },
    Case {
        name: "look unanswered",
        words: &EXCHANGE,
        vector: 0x26,
        handler: &[],
        answers: &[
            BusAnswer::Done,
            BusAnswer::Level(true),
            BusAnswer::Out(0x3C),
        ],
        limit: 1000,
        end: RunEnd::Wants(BusEvent::Look),
        cycles: 8,
        serial: &[],
        asked: &[BusEvent::Select(true), BusEvent::Look, BusEvent::Byte(0xA5)],
        trail: &[0, 1, 3, 4, 5, 6, 7],
    },
    // The limit is looked at after each step.
    Case {
        name: "limit",
        words: &[0xCFFF],
        vector: 0x26,
        handler: &[],
        answers: &[],
        limit: 5,
        end: RunEnd::CycleLimit,
        cycles: 6,
        serial: &[],
        asked: &[],
        trail: &[0, 0, 0],
    },
    // Cycles asleep count for the look: it comes with the 60th of them.
    Case {
        name: "asleep",
        words: &[0xE081, 0xBF83, 0x9478, 0x9588],
        vector: 0x26,
        handler: &[],
        answers: &[],
        limit: 1000,
        end: RunEnd::Wants(BusEvent::Look),
        cycles: 63,
        serial: &[],
        asked: &[],
        trail: &[0, 1, 2, 3],
    },
];

#[test]
fn programs(rt: HostRuntime) -> Result<(), Fail> {
    for case in &CASES {
        let image = flash_of(rt.alloc(), case.words, case.vector, case.handler)?;
        let seen = run_image(rt.alloc(), image, case.answers, case.limit)?;
        assert_eq!(rt; seen.run.end, case.end, "end of {}", case.name);
        assert_eq!(rt; seen.mcu.cycles(), case.cycles, "cycles of {}", case.name);
        assert!(rt;
            seen.run.serial.as_slice() == case.serial,
            "bytes of {}",
            case.name
        );
        assert!(rt; seen.peer.asked() == case.asked, "calls of {}", case.name);
        for (i, &at) in case.trail.iter().enumerate() {
            if i < 17 {
                assert_eq!(rt;
                    seen.mcu.trail(i as u8),
                    Some(at),
                    "trail of {} at {i}",
                    case.name
                );
            }
        }
        if case.trail.len() < 17 {
            assert_eq!(rt;
                seen.mcu.trail(case.trail.len() as u8),
                None,
                "trail of {}",
                case.name
            );
        }
    }
    Ok(())
}

/// Writes that stop the board; the last one does.
const STOPS: [(&[(u16, u8)], DeviceStop); 12] = [
    (&[(0x7A, 0x40)], DeviceStop::Adc),
    (&[(0x7A, 0xA0)], DeviceStop::Adc),
    (&[(0xBC, 0x04)], DeviceStop::Twi),
    (&[(0x60, 0x18), (0x60, 0x08)], DeviceStop::Watchdog),
    (&[(0x60, 0x40)], DeviceStop::Watchdog),
    (&[(0x3F, 0x08), (0x3F, 0x01)], DeviceStop::Eeprom),
    (&[(0x45, 0x06)], DeviceStop::ExternalClock { timer: 0 }),
    (&[(0xB6, 0x20)], DeviceStop::ExternalClock { timer: 2 }),
    (&[(0x45, 0x09)], DeviceStop::TimerMode { timer: 0, mode: 4 }),
    (
        &[(0x80, 0x40), (0x81, 0x01)],
        DeviceStop::WaveformPin { timer: 1 },
    ),
    (
        &[(0x4C, 0x54), (0x4E, 0x00)],
        DeviceStop::SpiMode { spcr: 0x54 },
    ),
    (
        &[(0xC1, 0x08), (0xC2, 0x46), (0xC6, 0x41)],
        DeviceStop::UsartMode { ucsr0c: 0x46 },
    ),
];

#[test]
fn device_stops(rt: HostRuntime) -> Result<(), Fail> {
    for &(pokes, stop) in &STOPS {
        let image = poking(rt.alloc(), pokes, 0x26)?;
        let seen = run_image(rt.alloc(), image, &[], 1000)?;
        let last = (pokes.len() as u64).min(9) as u16;
        let end = AvrStop::Device {
            pc: MAIN + 3 * last - 2,
            stop,
        };
        assert_eq!(rt; seen.run.end, RunEnd::Stop(end));
        assert_eq!(rt; seen.mcu.cycles(), 3 * u64::from(last) + 1);
        assert_eq!(rt; seen.run.serial.len(), 0);
    }
    Ok(())
}

/// What the firmware writes so that each vector's interrupt comes, and what the bus answers.
const SOURCES: [(u8, &[(u16, u8)], &[BusAnswer]); 17] = [
    // INT0 at a low INTn, INT1 at a rising edge of PD3, and a change of a pin of each port.
    (
        0x02,
        &[(0x3D, 0x01), (0x24, 0x04)],
        &[BusAnswer::Done, BusAnswer::Level(false)],
    ),
    (0x04, &[(0x69, 0x0C), (0x3D, 0x02), (0x2B, 0x08)], &[]),
    (0x06, &[(0x68, 0x01), (0x6B, 0x01), (0x25, 0x01)], &[]),
    (0x08, &[(0x68, 0x02), (0x6C, 0x01), (0x28, 0x01)], &[]),
    (0x0A, &[(0x68, 0x04), (0x6D, 0x01), (0x2B, 0x01)], &[]),
    // Timers 2, 1 and 0: a match of A, a match of B, an overflow.
    (0x0E, &[(0x70, 0x02), (0xB3, 0x03), (0xB1, 0x01)], &[]),
    (0x10, &[(0x70, 0x04), (0xB4, 0x03), (0xB1, 0x01)], &[]),
    (0x12, &[(0x70, 0x01), (0xB2, 0xF0), (0xB1, 0x01)], &[]),
    (0x16, &[(0x6F, 0x02), (0x88, 0x08), (0x81, 0x01)], &[]),
    (0x18, &[(0x6F, 0x04), (0x8A, 0x08), (0x81, 0x01)], &[]),
    (
        0x1A,
        &[(0x6F, 0x01), (0x85, 0xFF), (0x84, 0xF0), (0x81, 0x01)],
        &[],
    ),
    (0x1C, &[(0x6E, 0x02), (0x47, 0x03), (0x45, 0x01)], &[]),
    (0x1E, &[(0x6E, 0x04), (0x48, 0x03), (0x45, 0x01)], &[]),
    (0x20, &[(0x6E, 0x01), (0x46, 0xF0), (0x45, 0x01)], &[]),
    // The SPI's transfer, the USART's empty data register, and the end of its frame.
    (
        0x22,
        &[(0x4C, 0xD0), (0x4E, 0x00)],
        &[BusAnswer::Out(0), BusAnswer::Level(true)],
    ),
    (0x26, &[(0xC1, 0x28)], &[]),
    (
        0x28,
        &[(0xC1, 0x48), (0xC6, 0x41)],
        &[BusAnswer::Level(true)],
    ),
];

#[test]
fn interrupt_sources(rt: HostRuntime) -> Result<(), Fail> {
    for &(vector, pokes, answers) in &SOURCES {
        let image = poking(rt.alloc(), pokes, u16::from(vector))?;
        let seen = run_image(rt.alloc(), image, answers, 1000)?;
        assert_eq!(rt; seen.run.end, RunEnd::Break, "vector {vector}");
        let mut last = None;
        for i in 0..16 {
            last = seen.mcu.trail(i).or(last);
        }
        assert_eq!(rt; last, Some(u16::from(vector)), "vector {vector}");
    }
    Ok(())
}

#[test]
fn registers(rt: HostRuntime) -> Result<(), Fail> {
    let mut devices = avr_space::Devices::new();
    let mut peer = ListPeer::new(rt.alloc(), &[])?;
    // Start values that are not 00.
    for (addr, v) in [(0x54, 0x01), (0xC0, 0x20), (0xC2, 0x06)] {
        assert_eq!(rt; devices.read(addr), v);
    }
    // Stored registers and SRAM keep a byte, and other places read 00.
    for (addr, kept) in [
        (0x3E, true),
        (0x43, false),
        (0x66, true),
        (0x82, false),
        (0xC3, false),
        (0xFF, false),
        (0x0100, true),
        (0x08FF, true),
    ] {
        let done = devices.write(addr, 0x5A, &mut peer);
        assert!(rt; done == Ok(()));
        assert_eq!(rt;
            devices.read(addr),
            if kept { 0x5A } else { 0 },
            "at {addr}"
        );
    }
    Ok(())
}

/// The image of examples/hello.c, as avr-gcc -Os made it.
const HELLO: &str = "\
:100000000C9440000C944A000C944A000C944A0052\n\
:100010000C944A000C944A000C944A000C944A0038\n\
:100020000C944A000C944A000C944A000C944A0028\n\
:100030000C944A000C944A000C944A000C944A0018\n\
:100040000C944A000C944A000C944A000C944A0008\n\
:100050000C944A000C944A000C944A000C944A00F8\n\
:100060000C944A000C944A0068656C6C6F2C2062FA\n\
:100070006F6172643A2036202A2037203D2000002C\n\
:1000800011241FBECFEFD8E0DEBFCDBF0E945600C7\n\
:100090000C94D5000C9400009091C00095FFFCCF0B\n\
:1000A00090E49093C0008093C6000895EF92FF9271\n\
:1000B0000F931F93CF93DF93CDB7DEB727970FB67C\n\
:1000C000F894DEBF0FBECDBF86E090E09F838E83A5\n\
:1000D0001092C5001092C40088E08093C10008E629\n\
:1000E00010E0F8018491882339F0F80184910E948E\n\
:1000F0004C000F5F1F4FF5CF2E813F8147E0429F9D\n\
:10010000C001439F900D112420E03AE0E32EF12C32\n\
:1001100011E0120FE1E0F0E0EC0FFD1FE20FF11D26\n\
:10012000B7010E94C100805D8083CB01212F009721\n\
:1001300079F7112359F01150E1E0F0E0EC0FFD1FC9\n\
:10014000E10FF11D80810E944C00F3CF8AE00E94F4\n\
:100150004C008091C00086FFFCCFF89483B781608B\n\
:1001600083BF889580E090E027960FB6F894DEBFB5\n\
:100170000FBECDBFDF91CF911F910F91FF90EF90F8\n\
:100180000895AA1BBB1B51E107C0AA1FBB1FA617DE\n\
:10019000B70710F0A61BB70B881F991F5A95A9F730\n\
:0E01A00080959095BC01CD010895F894FFCF95\n\
:00000001FF\n\
";

#[test]
fn c_program(rt: HostRuntime) -> Result<(), Fail> {
    let image = load(rt.alloc(), HELLO.as_bytes()).map_err(|_| "no image")?;
    let mut mcu = Mcu::new(rt.alloc(), image)?;
    let answers = [BusAnswer::Level(true); 128];
    let mut peer = ListPeer::new(rt.alloc(), &answers)?;
    let run = run_on(rt.alloc(), &mut mcu, &mut peer, 100_000)?;
    assert_eq!(rt; run.end, RunEnd::Sleep);
    assert!(rt; run.serial.as_slice() == b"hello, board: 6 * 7 = 42\n".as_slice());
    Ok(())
}
