//! The links are served beside the firmware: one of its calls is held until their thread has made a step.
ghost use Rattle.link_script.specs.Links.{played_of};
ghost use Rattle.link_script.specs.Play.{shown};

use board_echo::echo_image;
use board_file::board;
use board_run::live::live;
use board_sim::end::RunEnd;
use flash::Image;
use link_script::ScriptLinks;
use link_trait::{
    Accepting, Addr, ConnId, Linking, Links, Reading, Receiving, Routes, Sending, Shutting, Writing,
};
use live_trait::{Gate, ListPoller, Point};
use std::alloc::Global;
use std::sync::Wait;
use std::sync::atomic::Ordering::SeqCst;
use std::sync::atomic::{AtomicBool, AtomicU64};
use std::test::Fail;
use std::thread::Threads;
use wz_base::MemSink;

/// How often a gate looks for what it waits for before it gives up.
const LOOKS: u32 = 300_000_000;

/// A gate that holds one call of the firmware until a count rises.
#[derive(Drop)]
struct HoldGate<'a> {
    /// Which call is held, from 0.
    held: u64,
    /// How many calls the firmware made.
    calls: AtomicU64,
    /// Rises at each step of the links.
    steps: &'a AtomicU64,
    /// The count for which the gate waits.
    awaited: &'a AtomicU64,
    /// Whether it rose during the hold.
    rose: AtomicBool,
}

impl<'a> HoldGate<'a> {
    /// Waits until the count rises.
    fn hold(&self) {
        let before = self.awaited.load(SeqCst);
        for _ in 0..LOOKS {
            if self.awaited.load(SeqCst) != before {
                self.rose.store(true, SeqCst);
                return;
            }
        }
    }
}

impl<'a> Gate for HoldGate<'a> {
    fn at(&self, point: Point) {
        match point {
            Point::Link => {
                self.steps.fetch_add(1, SeqCst);
            }
            Point::Firmware => {
                if self.calls.fetch_add(1, SeqCst) == self.held {
                    self.hold();
                }
            }
        }
    }
}

/// Links without peers, which count how often they were asked for a client.
#[derive(Drop)]
struct CountLinks<'a> {
    script: ScriptLinks,
    accepts: &'a AtomicU64,
}

impl<'a> Links for CountLinks<'a> {
    ghost shown = { λ l. shown (played_of l.script) };

    ghost effect = { λ l call answer m. Unit {0} };

    fn set_routes(&mut self, routes: Routes) {
        self.script.set_routes(routes);
    }

    fn connect(&mut self, c: ConnId, to: Addr) -> Linking {
        self.script.connect(c, to)
    }

    fn accept(&mut self, c: ConnId, port: u16) -> Accepting {
        self.accepts.fetch_add(1, SeqCst);
        self.script.accept(c, port)
    }

    fn write(&mut self, c: ConnId, piece: &[u8]) -> Writing {
        self.script.write(c, piece)
    }

    fn read(&mut self, c: ConnId, buf: &mut [u8]) -> Reading {
        self.script.read(c, buf)
    }

    fn send_to(&mut self, c: ConnId, port: u16, to: Addr, head: &[u8], tail: &[u8]) -> Sending {
        self.script.send_to(c, port, to, head, tail)
    }

    fn recv_from(&mut self, c: ConnId, port: u16, buf: &mut [u8]) -> Receiving {
        self.script.recv_from(c, port, buf)
    }

    fn shut(&mut self, c: ConnId) -> Shutting {
        self.script.shut(c)
    }

    fn drop_conn(&mut self, c: ConnId) {
        self.script.drop_conn(c);
    }
}

/// Runs firmware on links without peers, with one of its calls held, from 0: until a step of the links comes, or until a socket
/// asks for a client. Answers how the run ended, where that came.
fn run_held<R: Threads + Wait + Sync>(
    rt: &R,
    alloc: Global,
    code: Image,
    held: u64,
    for_accept: bool,
) -> Result<Option<RunEnd>, Fail> {
    let steps = AtomicU64::new(0);
    let accepts = AtomicU64::new(0);
    let gate = HoldGate {
        held,
        calls: AtomicU64::new(0),
        steps: &steps,
        awaited: if for_accept { &accepts } else { &steps },
        rose: AtomicBool::new(false),
    };
    let links = CountLinks {
        script: ScriptLinks::new(alloc, Vec::new(alloc))?,
        accepts: &accepts,
    };
    let mut sink = MemSink::new(alloc, 1000, Vec::new(alloc))?;
    let poller = ListPoller::new(Vec::new(alloc));
    let board = board(alloc, b"cycles = 100000")?;
    let left = live(rt, alloc, code, board, &mut sink, links, poller, &gate);
    Ok(if gate.rose.load(SeqCst) {
        Some(left.end)
    } else {
        None
    })
}

#[test]
fn links_are_served_beside_the_firmware(rt: HostRuntime) -> Result<(), Fail> {
    let alloc = rt.alloc();
    let first = run_held(&rt, alloc, echo_image(alloc)?, 0, false)?;
    assert_eq!(rt; first, Some(RunEnd::CycleLimit));

    // The call stands behind LISTEN on socket 0.
    let listens = run_held(&rt, alloc, echo_image(alloc)?, 199, true)?;
    assert_eq!(rt; listens, Some(RunEnd::CycleLimit));
    Ok(())
}
