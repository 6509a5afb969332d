//! Runs over a peer on a list of answers; opcodes and cycles are worked by hand from the Instruction Set Manual.
use avr_mcu::{BusIsOver, BusPeer};
use avr_run::*;
use board_bus::{BusAnswer, BusEvent};
use flash::Image;
use std::alloc::{AllocError, Global};
use std::marker::Model;
use std::test::Fail;

/// A peer that answers from a list, and keeps what it was asked.
#[derive(Drop)]
struct ListTold {
    answers: Vec<BusAnswer>,
    asked: Vec<BusEvent>,
    wanted: Option<BusEvent>,
}

impl Model for ListTold {
    ghost use Rattle.std.specs.Prelude.{◌≤◌, length, take};
    ghost use Rattle.avr_run.specs.Told.{Told};

    ghost Value = { Told };

    ghost view = { λ p. record { asked = p.asked.items; answers = take (length p.asked.items) p.answers.items; wanted = p.wanted } };

    ghost invariant = { λ p. length p.asked.items ≤ length p.answers.items };
}

impl ListTold {
    ghost use Rattle.std.specs.Prelude.{◌≡◌, IfOk, IfSome, None};
    ghost use Rattle.avr_run.specs.Told.{and_event, and_refused, untold};

    /// Nothing was asked yet.
    fn new(alloc: Global, answers: &[BusAnswer]) -> Result<Self, AllocError>
        ensures { IfOk result (λ p. p ≡ untold) }
    {
        Ok(ListTold {
            answers: answers.to_vec(alloc)?,
            asked: Vec::new(alloc),
            wanted: None,
        })
    }

    /// The next answer, where there is one.
    fn ask(&mut self, event: BusEvent) -> Option<BusAnswer>
        ensures some { IfSome result (λ x. (self.old.wanted ≡ None) × (self.new ≡ and_event self.old event x)) }
        ensures none { result ≡ None → self.new ≡ and_refused self.old event }
    {
        match self.wanted {
            Some(_) => None,
            None => self.ask_on(event),
        }
    }

    /// The same, with no event wanted.
    fn ask_on(&mut self, event: BusEvent) -> Option<BusAnswer>
        requires { self.old.wanted ≡ None }
        ensures some { IfSome result (λ x. self.new ≡ and_event self.old event x) }
        ensures none { result ≡ None → self.new ≡ and_refused self.old event }
    {
        if self.asked.len() < self.answers.len() {
            let answer = self.answers[self.asked.len()];
            match self.asked.push(event) {
                Ok(()) => return Some(answer),
                Err(_) => {}
            }
        }
        self.wanted = Some(event);
        None
    }
}

impl BusPeer for ListTold {
    ghost use Rattle.avr_run.specs.Told.{Tells};

    ghost did = { λ p c a q. Tells c p a q };

    fn select(&mut self, low: bool) -> Result<(), BusIsOver> {
        match self.ask(BusEvent::Select(low)) {
            Some(_) => Ok(()),
            None => Err(BusIsOver),
        }
    }

    fn byte(&mut self, mosi: u8) -> Result<u8, BusIsOver> {
        match self.ask(BusEvent::Byte(mosi)) {
            Some(BusAnswer::Out(v)) => Ok(v),
            Some(_) => Ok(0),
            None => Err(BusIsOver),
        }
    }

    fn look(&mut self) -> Result<bool, BusIsOver> {
        match self.ask(BusEvent::Look) {
            Some(BusAnswer::Level(high)) => Ok(high),
            Some(_) => Ok(true),
            None => Err(BusIsOver),
        }
    }
}

impl ToldPeer for ListTold {
    ghost told = { λ p. p };

    fn wanted(&self) -> Option<BusEvent> {
        self.wanted
    }

    ghost tells = { λ p c a q it. it };
}

/// Selects the chip, sends A5, waits for SPIF, prints what came back, and deselects the chip.
///
/// ```text
///     ldi r24, 0x08
///     sts 0xC1, r24
///     sbi 0x04, 2
///     ldi r24, 0x50
///     out 0x2C, r24
///     ldi r24, 0xA5
///     out 0x2E, r24
/// wait:
///     in r0, 0x2D
///     sbrs r0, 7
///     rjmp wait
///     in r1, 0x2E
///     sts 0xC6, r1
///     sbi 0x05, 2
///     break
/// ```
const EXCHANGE: [u16; 16] = [
    0xE088, 0x9380, 0x00C1, 0x9A22, 0xE580, 0xBD8C, 0xEA85, 0xBD8E, 0xB40D, 0xFE07, 0xCFFD, 0xB41E,
    0x9210, 0x00C6, 0x9A2A, 0x9598,
];

/// How many answers there are, the limit of cycles, and what the run comes to.
struct Case {
    answers: usize,
    limit: u64,
    end: RunEnd,
    serial: &'static [u8],
    asked: usize,
    cycles: u64,
}

const CASES: [Case; 4] = [
    Case {
        answers: 6,
        limit: 1000,
        end: RunEnd::Break,
        serial: &[0x3C],
        asked: 6,
        cycles: 50,
    },
    // The limit is reached while the loop waits.
    Case {
        answers: 6,
        limit: 20,
        end: RunEnd::CycleLimit,
        serial: &[],
        asked: 4,
        cycles: 21,
    },
    // A step is made before the limit is looked at.
    Case {
        answers: 6,
        limit: 0,
        end: RunEnd::CycleLimit,
        serial: &[],
        asked: 0,
        cycles: 1,
    },
    Case {
        answers: 2,
        limit: 1000,
        end: RunEnd::Wants(BusEvent::Byte(0xA5)),
        serial: &[],
        asked: 2,
        cycles: 8,
    },
];

#[test]
fn runs(rt: HostRuntime) -> Result<(), Fail> {
    let alloc = rt.alloc();
    let answers = [
        BusAnswer::Done,
        BusAnswer::Level(true),
        BusAnswer::Out(0x3C),
        BusAnswer::Level(true),
        BusAnswer::Done,
        BusAnswer::Level(true),
    ];
    let asked = [
        BusEvent::Select(true),
        BusEvent::Look,
        BusEvent::Byte(0xA5),
        BusEvent::Look,
        BusEvent::Select(false),
        BusEvent::Look,
    ];
    for case in &CASES {
        let mut image = Image::blank(alloc)?;
        for (i, &word) in EXCHANGE.iter().enumerate() {
            if i < 16 {
                image.set(2 * i as u16, (word % 256) as u8);
                image.set(2 * i as u16 + 1, (word / 256) as u8);
            }
        }
        let mut mcu = Mcu::new(alloc, image)?;
        let mut peer = ListTold::new(alloc, &answers[..case.answers.min(6)])?;
        let run = run_told(alloc, &mut mcu, &mut peer, case.limit.min(1000))?;
        assert_eq!(rt; run.end, case.end, "limit {}", case.limit);
        assert!(rt; run.serial.as_slice() == case.serial);
        assert!(rt; peer.asked.as_slice() == &asked[..case.asked.min(6)]);
        assert_eq!(rt; mcu.cycles(), case.cycles, "limit {}", case.limit);
    }
    Ok(())
}
