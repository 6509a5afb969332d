//! The board runner's program: `run HEX BOARD` runs a firmware image on a board over sockets of the host, live, and prints what
//! it prints and a report; `sim HEX BOARD` runs it with the board's scripted peers in place of sockets; `trace HEX BOARD` prints
//! the trace of that run; `check HEX BOARD` judges an image and a board; `bus SCRIPT` runs a bus script against the chip and
//! prints what the chip answers; `judge TRACE` judges the history of a trace; `list HEX` lists the instructions of an image; `gen
//! N` runs the firmware of an echo server with the peer of a number; `--help` prints these forms.
#![tactic(auto)]

mod hints;

use board_quick::end::{EndKind, status_of};
use board_quick::quick::quick;
use board_top::top::top;
use host_links::{HostFault, host_pair};
use live_trait::OpenGate;
use std::process::ExitCode;
use std::{env, io};
use wz_real::{StdFiles, StdOut};

/// The exit status where the system refuses what a live run waits with.
const HOST_REFUSED: u8 = 13;

/// Says on standard error what helps behind a refusal. A failed write changes nothing.
fn tell(rt: &HostRuntime, words: &[String], files: &mut StdFiles<'_, HostRuntime>, end: EndKind) {
    if let Some(line) = hints::hint(rt.alloc(), words, files, end) {
        let _ = eprintln!(rt; "wz_board: {line}");
    }
}

fn main(rt: HostRuntime) -> ExitCode {
    // Words that are no text are no written form, as no words are.
    let words: Vec<String> = match env::args(&rt) {
        Ok(args) => match args.skip(1).collect(rt.alloc()) {
            Ok(words) => words,
            Err(_) => return ExitCode::from(status_of(EndKind::NoMemory)),
        },
        Err(_) => Vec::new(rt.alloc()),
    };
    let mut files = StdFiles::new(&rt);
    let mut out = StdOut::new(io::writer(&rt));
    // Only a live run asks the system for more than files and output.
    match quick(rt.alloc(), &words, &mut files, &mut out) {
        Some(ended) => {
            tell(&rt, &words, &mut files, ended.end);
            ExitCode::from(ended.status)
        }
        None => match host_pair(&rt, rt.alloc()) {
            Ok((links, poller)) => {
                let ended = top(
                    &rt,
                    rt.alloc(),
                    &words,
                    &mut files,
                    &mut out,
                    links,
                    poller,
                    &OpenGate,
                );
                tell(&rt, &words, &mut files, ended.end);
                ExitCode::from(ended.status)
            }
            Err(HostFault::Refused) => ExitCode::from(HOST_REFUSED),
            Err(HostFault::NoMemory) => ExitCode::from(status_of(EndKind::NoMemory)),
        },
    }
}
