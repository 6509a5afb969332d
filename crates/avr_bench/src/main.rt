//! Runs three images on the microcontroller for so many cycles: `avr_bench CYCLES` prints what each came to, and
//! `avr_bench CYCLES time` its cycles a second as well.
#![tactic(auto)]

mod images;

use avr_mcu::{BusIsOver, BusPeer, Mcu, McuWent};
use flash::Image;
use images::{HASH, LOOP, TICKS};
use std::alloc::{AllocError, Global};
use std::env;
use std::time::Instant;

/// A bus with nothing on it: INTn stays high.
#[derive(Drop)]
struct Nothing {}

impl BusPeer for Nothing {
    ghost did = { λ before call answer after. Unit {0} };

    fn select(&mut self, _low: bool) -> Result<(), BusIsOver> {
        Ok(())
    }

    fn byte(&mut self, _mosi: u8) -> Result<u8, BusIsOver> {
        Ok(0)
    }

    fn look(&mut self) -> Result<bool, BusIsOver> {
        Ok(true)
    }
}

/// What a run came to: cycles, bytes that were sent, and a sum over them.
struct Seen {
    cycles: u64,
    bytes: u64,
    sum: u64,
}

/// Flash with these words, each part from a word address on.
fn image_of(alloc: Global, parts: &[(u16, &[u16])]) -> Result<Image, AllocError> {
    let mut image = Image::blank(alloc)?;
    for &(from, words) in parts {
        for (i, &word) in words.iter().enumerate() {
            if from < 0x1000 && i < 0x1000 {
                let place = 2 * (from + i as u16);
                image.set(place, (word % 256) as u8);
                image.set(place + 1, (word / 256) as u8);
            }
        }
    }
    Ok(image)
}

/// Adds a byte that was sent.
fn add(seen: &mut Seen, byte: Option<u8>) {
    if let Some(byte) = byte {
        seen.bytes = seen.bytes.wrapping_add(1);
        seen.sum = seen.sum.wrapping_mul(31).wrapping_add(u64::from(byte));
    }
}

/// Runs an image up to a count of cycles: many steps at once, and one where something may be asked.
fn run(alloc: Global, parts: &[(u16, &[u16])], limit: u64) -> Result<Seen, AllocError> {
    let mut mcu = Mcu::new(alloc, image_of(alloc, parts)?)?;
    let mut peer = Nothing {};
    let mut seen = Seen {
        cycles: 0,
        bytes: 0,
        sum: 0,
    };
    for _ in 0..limit {
        mcu.hurry(limit.min(1 << 62), u64::MAX);
        add(&mut seen, mcu.printed());
        if limit <= mcu.cycles() || 1 << 62 <= mcu.cycles() {
            break;
        }
        match mcu.step(&mut peer) {
            McuWent::Ran | McuWent::Asleep | McuWent::Served => add(&mut seen, mcu.printed()),
            McuWent::Break | McuWent::Sleep | McuWent::BusOver | McuWent::Stop(_) => break,
        }
    }
    seen.cycles = mcu.cycles();
    Ok(seen)
}

/// Runs an image and prints what it came to, with its speed where that is asked for.
fn report(
    rt: &HostRuntime,
    name: &str,
    parts: &[(u16, &[u16])],
    limit: u64,
    times: bool,
) -> anyhow::Result<()> {
    let start = Instant::now(rt)?;
    let Seen { cycles, bytes, sum } = run(rt.alloc(), parts, limit)?;
    println!(rt; "{name}: {cycles} cycles, {bytes} bytes, sum {sum}")?;
    if times {
        let millis = start.elapsed(rt)?.as_millis();
        let speed = u128::from(cycles) / (1000 * millis.max(1).min(1 << 64));
        println!(rt; "{name}: {millis} ms, {speed} million cycles a second")?;
    }
    Ok(())
}

fn main(rt: HostRuntime) -> anyhow::Result<()> {
    let words: Vec<String> = env::args(&rt)?.skip(1).collect(rt.alloc())?;
    let limit: u64 = match words.first() {
        Some(word) => word.parse()?,
        None => 0,
    };
    let times = words.len() > 1;
    report(&rt, "loop", LOOP, limit, times)?;
    report(&rt, "hash", HASH, limit, times)?;
    report(&rt, "ticks", TICKS, limit, times)?;
    Ok(())
}
