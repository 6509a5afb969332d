//! Short programs over a bus of 2,304 bytes; their opcodes and ends are worked by hand from the Instruction Set Manual.
use avr_core::*;
use avr_sheet::DeviceStop;
use flash::Image;
use std::alloc::Global;
use std::process::Abort;
use std::test::Fail;

/// The whole data space as plain memory. It answers so many calls, and stops at a start of the converter.
#[derive(Drop)]
struct Memory {
    bytes: Vec<u8>,
    calls: u32,
}

impl Memory {
    fn new(alloc: Global, calls: u32) -> Result<Self, Fail> {
        let bytes = vec![in alloc; 0; 2304]?;
        Ok(Memory { bytes, calls })
    }

    fn count(&mut self) -> Result<(), DataEnd> {
        self.calls = self.calls.checked_sub(1).ok_or(DataEnd::BusOver)?;
        Ok(())
    }
}

impl DataBus for Memory {
    ghost did = { λ before call answer after. Unit {0} };

    fn read(&mut self, addr: u16) -> Result<u8, DataEnd> {
        self.count()?;
        self.bytes
            .get(addr as usize)
            .copied()
            .ok_or(DataEnd::BusOver)
    }

    fn write(&mut self, addr: u16, v: u8) -> Result<(), DataEnd> {
        self.count()?;
        if addr == 0x7A && v >= 0x40 {
            return Err(DataEnd::Stop(DeviceStop::Adc));
        }
        if let Some(byte) = self.bytes.get_mut(addr as usize) {
            *byte = v;
        }
        Ok(())
    }

    fn write_bit(&mut self, io: u8, bit: u8, set: bool) -> Result<(), DataEnd> {
        self.count()?;
        if let Some(byte) = self.bytes.get_mut(32 + io as usize) {
            let mask = 1 << (bit % 8);
            *byte = if set { *byte | mask } else { *byte & !mask };
        }
        Ok(())
    }
}

/// A flash with these words from 0 on, and a call and a jump in its last two words.
fn flash_of(alloc: Global, words: &[u16]) -> Result<Image, Fail> {
    let mut image = Image::blank(alloc)?;
    for (at, &word) in words.iter().enumerate() {
        if at < 256 {
            image.set(2 * at as u16, (word % 256) as u8);
            image.set(2 * at as u16 + 1, (word / 256) as u8);
        }
    }
    image.set(0x7FFC, 0x00);
    image.set(0x7FFD, 0xD0);
    image.set(0x7FFE, 0x02);
    image.set(0x7FFF, 0xC0);
    Ok(image)
}

/// Takes so many steps, and counts their cycles.
fn run(core: &mut Core, flash: &Image, bus: &mut Memory, steps: u8) -> Result<u32, Went> {
    let mut cycles = 0u32;
    for _ in 0..steps {
        match core.step(flash, bus) {
            Went::Ran(n) => cycles = cycles.wrapping_add(u32::from(n)),
            went => return Err(went),
        }
    }
    Ok(cycles)
}

/// A program from reset, its number of steps, and what it leaves.
struct Program {
    words: &'static [u16],
    steps: u8,
    cycles: u32,
    pc: u16,
    sp: u16,
    sreg: u8,
    regs: &'static [(u8, u8)],
    memory: &'static [(u16, u8)],
}

const PROGRAMS: [Program; 12] = [
    // Sums and differences on bytes and pairs.
    Program {
        words: &[
            0xEF0F, 0xE011, 0x0F01, 0x1F10, 0xE820, 0x1721, 0x9523, 0x952A, 0x0720, 0x472F, 0x5022,
            0x9521, 0x0B21, 0x1B22, 0x3000, 0xEC81, 0xE79F, 0x96CF, 0x9701,
        ],
        steps: 19,
        cycles: 21,
        pc: 0x0013,
        sp: 0x08FF,
        sreg: 0x18,
        regs: &[(16, 0x00), (17, 0x02), (18, 0x00), (24, 0xFF), (25, 0x7F)],
        memory: &[],
    },
    // Products, copied away by pairs.
    Program {
        words: &[
            0xEF4F, 0xE052, 0x9F45, 0x0110, 0x0245, 0x0120, 0x0345, 0x034D, 0x0130, 0x03C5, 0x0140,
            0x03DC,
        ],
        steps: 12,
        cycles: 18,
        pc: 0x000C,
        sp: 0x08FF,
        sreg: 0x00,
        regs: &[
            (0, 0xFC),
            (1, 0x03),
            (2, 0xFE),
            (3, 0x01),
            (4, 0xFE),
            (5, 0xFF),
            (6, 0xFC),
            (7, 0x03),
            (8, 0xFC),
            (9, 0xFF),
        ],
        memory: &[],
    },
    // Logic and shifts.
    Program {
        words: &[
            0xEF00, 0xE31C, 0x2F20, 0x2321, 0x2F30, 0x2B31, 0x2F40, 0x2741, 0x9500, 0x9507, 0x9515,
            0x9526, 0x9532, 0x6041, 0x704F, 0x9505,
        ],
        steps: 16,
        cycles: 16,
        pc: 0x0010,
        sp: 0x08FF,
        sreg: 0x15,
        regs: &[(16, 0xC3), (17, 0x1E), (18, 0x18), (19, 0xCF), (20, 0x0D)],
        memory: &[],
    },
    // Loads and stores at pointers and addresses.
    Program {
        words: &[
            0xE0A0, 0xE0B1, 0xE101, 0xE212, 0x930D, 0x931C, 0x912E, 0x913D, 0x914C, 0xE0C3, 0xE0D1,
            0x931A, 0x8309, 0x8159, 0x9169, 0xECE1, 0xE0F0, 0xAF17, 0xAD77, 0x9300, 0x0110, 0x9180,
            0x0110, 0x9301, 0x9192,
        ],
        steps: 23,
        cycles: 38,
        pc: 0x0019,
        sp: 0x08FF,
        sreg: 0x00,
        regs: &[
            (18, 0x11),
            (19, 0x11),
            (20, 0x22),
            (21, 0x11),
            (22, 0x22),
            (23, 0x22),
            (24, 0x11),
            (25, 0x11),
            (26, 0x01),
            (27, 0x01),
            (28, 0x03),
            (29, 0x01),
            (30, 0xC1),
            (31, 0x00),
        ],
        memory: &[
            (0x00C1, 0x11),
            (0x0100, 0x22),
            (0x0101, 0x22),
            (0x0102, 0x22),
            (0x0103, 0x11),
            (0x0110, 0x11),
        ],
    },
    // Stores into the pointer's own low byte: it rises as it stands then, and falls before.
    Program {
        words: &[0xE1AA, 0xE400, 0x930D, 0x2E2A, 0xE1AB, 0x930E],
        steps: 6,
        cycles: 8,
        pc: 0x0006,
        sp: 0x08FF,
        sreg: 0x00,
        regs: &[(2, 0x41), (26, 0x40), (27, 0x00)],
        memory: &[],
    },
    // SP, SREG and the registers in the data space; bits.
    Program {
        words: &[
            0xE50F, 0xBF0D, 0xE013, 0xBF1E, 0xB72D, 0xB73E, 0xEC45, 0xBF4F, 0xB75F, 0x9160, 0x0010,
            0x9310, 0x0001, 0x94F8, 0x9418, 0xFB17, 0xF940, 0x9468, 0xF941, 0xB945, 0x9A28, 0x982F,
            0xB175,
        ],
        steps: 21,
        cycles: 25,
        pc: 0x0017,
        sp: 0x035F,
        sreg: 0x47,
        regs: &[
            (1, 0x03),
            (18, 0x5F),
            (19, 0x03),
            (20, 0xC6),
            (21, 0xC5),
            (22, 0x5F),
            (23, 0x47),
        ],
        memory: &[(0x0025, 0x47)],
    },
    // Pushes, calls and returns; the routine stands at word 10.
    Program {
        words: &[
            0xEA0B, 0x930F, 0x940E, 0x000A, 0xD005, 0xE0EA, 0xE0F0, 0x9509, 0x912F, 0x9409, 0x9513,
            0x9508,
        ],
        steps: 16,
        cycles: 35,
        pc: 0x000B,
        sp: 0x08FF,
        sreg: 0x00,
        regs: &[(17, 0x04), (18, 0xAB)],
        memory: &[(0x08FF, 0xAB), (0x08FE, 0x08), (0x08FD, 0x00)],
    },
    // A return from an interrupt: the high byte is popped first, and I is set.
    Program {
        words: &[0xE102, 0x930F, 0xE001, 0x930F, 0x9518],
        steps: 5,
        cycles: 10,
        pc: 0x0112,
        sp: 0x08FF,
        sreg: 0x80,
        regs: &[],
        memory: &[],
    },
    // Skips: over both words of a jmp in three cycles, over one word in two, over an lds in three, and over none.
    Program {
        words: &[
            0x1001, 0x940C, 0x1234, 0xE801, 0xFD00, 0xFF07, 0xE011, 0x9B28, 0x9928, 0x9110, 0x0100,
            0x1100,
        ],
        steps: 7,
        cycles: 12,
        pc: 0x000C,
        sp: 0x08FF,
        sreg: 0x00,
        regs: &[(16, 0x81), (17, 0x00)],
        memory: &[],
    },
    // Branches back and forth, taken and not, and a relative jump.
    Program {
        words: &[0xE002, 0x950A, 0xF7F1, 0xF009, 0x0000, 0xF028, 0xCFF9],
        steps: 8,
        cycles: 11,
        pc: 0x0000,
        sp: 0x08FF,
        sreg: 0x02,
        regs: &[(16, 0x00)],
        memory: &[],
    },
    // A table in flash: both bytes of word 5.
    Program {
        words: &[0xE0EA, 0xE0F0, 0x9105, 0x9114, 0x95C8, 0xBEEF],
        steps: 5,
        cycles: 11,
        pc: 0x0005,
        sp: 0x08FF,
        sreg: 0x00,
        regs: &[(0, 0xBE), (16, 0xEF), (17, 0xBE), (30, 0x0B)],
        memory: &[],
    },
    // At the end of flash addresses wrap: a call from its last word but one pushes 3FFF.
    Program {
        words: &[0x940C, 0x3FFE],
        steps: 3,
        cycles: 8,
        pc: 0x0002,
        sp: 0x08FD,
        sreg: 0x00,
        regs: &[],
        memory: &[(0x08FF, 0xFF), (0x08FE, 0x3F)],
    },
];

#[test]
fn programs_by_the_manual(rt: HostRuntime) -> Result<(), Fail> {
    for program in PROGRAMS.iter() {
        let flash = flash_of(rt.alloc(), program.words)?;
        let mut core = Core::new();
        let mut bus = Memory::new(rt.alloc(), 1000)?;
        assert_eq!(rt;
            run(&mut core, &flash, &mut bus, program.steps),
            Ok(program.cycles)
        );
        assert_eq!(rt;
            (core.pc(), core.sp(), core.sreg()),
            (program.pc, program.sp, program.sreg)
        );
        for &(r, v) in program.regs {
            assert!(rt; r < 32);
            assert_eq!(rt; (r, core.reg(r)), (r, v));
        }
        for &(at, v) in program.memory {
            assert_eq!(rt; (at, bus.read(at)), (at, Ok(v)));
        }
    }
    Ok(())
}

/// How the step after so many steps of a program goes; where it ends early, the core is as before it.
fn end_of(
    rt: &impl Abort,
    alloc: Global,
    words: &[u16],
    steps: u8,
    calls: u32,
) -> Result<Went, Fail> {
    let flash = flash_of(alloc, words)?;
    let mut core = Core::new();
    let mut bus = Memory::new(alloc, calls)?;
    let _ = run(&mut core, &flash, &mut bus, steps);
    let before = core;
    let went = core.step(&flash, &mut bus);
    if matches!(went, Went::BusOver | Went::Stop(_)) {
        assert!(rt; core == before);
    }
    Ok(went)
}

/// Words of a program, the steps before the one that ends, the calls that the bus answers, and the end.
const ENDS: [(&'static [u16], u8, u32, Went); 10] = [
    (
        &[0xFFFF],
        0,
        9,
        Went::Stop(AvrStop::Illegal {
            pc: 0,
            word: 0xFFFF,
        }),
    ),
    (
        &[0x0000, 0x91AD],
        1,
        9,
        Went::Stop(AvrStop::Undefined {
            pc: 1,
            word: 0x91AD,
        }),
    ),
    (&[0x95E8], 0, 9, Went::Stop(AvrStop::SelfProgram { pc: 0 })),
    (
        &[0x900F],
        0,
        9,
        Went::Stop(AvrStop::StackOut { pc: 0, sp: 0x08FF }),
    ),
    (
        &[0x9000, 0x0900],
        0,
        9,
        Went::Stop(AvrStop::BadAddress {
            pc: 0,
            addr: 0x0900,
        }),
    ),
    (
        &[0xE400, 0x9300, 0x007A],
        1,
        9,
        Went::Stop(AvrStop::Device {
            pc: 1,
            stop: DeviceStop::Adc,
        }),
    ),
    (&[0x920F], 0, 0, Went::BusOver),
    (&[0x940E, 0x0010], 0, 1, Went::BusOver),
    (&[0x9598], 0, 9, Went::Break),
    (&[0x9588], 0, 9, Went::Sleep),
];

#[test]
fn every_end_with_its_values(rt: HostRuntime) -> Result<(), Fail> {
    for &(words, steps, calls, end) in ENDS.iter() {
        assert_eq!(rt; end_of(&rt, rt.alloc(), words, steps, calls)?, end);
    }
    Ok(())
}

#[test]
fn an_interrupt_entry_pushes_pc_and_clears_i(rt: HostRuntime) -> Result<(), Fail> {
    let flash = flash_of(rt.alloc(), &[0x9478])?;
    let mut core = Core::new();
    let mut bus = Memory::new(rt.alloc(), 9)?;
    assert_eq!(rt; core.step(&flash, &mut bus), Went::Ran(1));
    assert_eq!(rt; core.sreg(), 0x80);
    assert_eq!(rt; core.interrupt(0x02, &mut bus), Went::Ran(4));
    assert_eq!(rt; (core.pc(), core.sp(), core.sreg()), (0x0002, 0x08FD, 0x00));
    assert_eq!(rt; (bus.read(0x08FF), bus.read(0x08FE)), (Ok(0x01), Ok(0x00)));
    Ok(())
}
