//! Whole commands over files and a sink in memory, with ample memory.
use board_quick::end::{EndKind, QuickEnd, Refusal};
use board_quick::quick::quick;
use board_quick::reading::TEXT_LIMIT;
use board_top::end::TopEnd;
use board_top::top::top;
use link_script::ScriptLinks;
use live_trait::{Gate, ListPoller, OpenGate, Point, Poller};
use std::alloc::Global;
use std::sync::Wait;
use std::sync::atomic::Ordering::SeqCst;
use std::sync::atomic::{AtomicBool, AtomicU64};
use std::test::Fail;
use std::thread::Threads;
use wz_base::{MemFiles, MemSink};

/// The words of a command line.
fn words(alloc: Global, texts: &[&str]) -> Result<Vec<String>, Fail> {
    let mut words = Vec::new(alloc);
    for text in texts {
        words.push(String::from_str(alloc, text)?)?;
    }
    Ok(words)
}

/// Files of these names that hold these bytes.
fn files_of(alloc: Global, texts: &[(&str, &[u8])]) -> Result<Vec<(String, Vec<u8>)>, Fail> {
    let mut files = Vec::new(alloc);
    for (name, bytes) in texts {
        files.push((String::from_str(alloc, name)?, bytes.to_vec(alloc)?))?;
    }
    Ok(files)
}

/// One file of the name `s` that holds these bytes.
fn one_file(alloc: Global, bytes: Vec<u8>) -> Result<Vec<(String, Vec<u8>)>, Fail> {
    let mut files = Vec::new(alloc);
    files.push((String::from_str(alloc, "s")?, bytes))?;
    Ok(files)
}

/// Runs these words over these files; the reads and writes of these numbers fail.
fn run(
    alloc: Global,
    texts: &[&str],
    files: Vec<(String, Vec<u8>)>,
    failing: (&[u64], &[u64]),
    out: &mut Vec<u8>,
) -> Result<Option<QuickEnd>, Fail> {
    let mut files = MemFiles::new(files, failing.0.to_vec(alloc)?);
    let mut sink = MemSink::new(alloc, 65536, failing.1.to_vec(alloc)?)?;
    let words = words(alloc, texts)?;
    let ended = quick(alloc, &words, &mut files, &mut sink);
    out.extend_from_slice(sink.bytes())?;
    Ok(ended)
}

/// Runs a command on an image and a board of these texts; the writes of these numbers fail.
fn run_board(
    alloc: Global,
    command: &str,
    texts: (&str, &str),
    failing: &[u64],
    out: &mut Vec<u8>,
) -> Result<Option<QuickEnd>, Fail> {
    let files = files_of(
        alloc,
        &[("h", texts.0.as_bytes()), ("b", texts.1.as_bytes())],
    )?;
    run(alloc, &[command, "h", "b"], files, (&[], failing), out)
}

/// The image of one `break`.
const BREAK: &str = ":020000009895D1\n:00000001FF\n";

/// Pulls the select line low, prints the letter A, lets the line go, and stops.
const SELECTS: &str = ":1800000008E00093C10004E005B904B92A9801E40093C6002A9A98955C\n:00000001FF\n";

#[test]
fn stops_a_run_at_a_failed_write(rt: HostRuntime) -> Result<(), Fail> {
    // The letter is printed behind the second of four events; the report and the trace are written behind the run.
    for (command, failing, shown, events) in [
        ("sim", 1, "", 2),
        ("sim", 2, "A", 4),
        ("trace", 1, "", 4),
    ] {
        let mut out = Vec::new(rt.alloc());
        let ended = run_board(rt.alloc(), command, (SELECTS, ""), &[failing], &mut out)?;
        assert_eq!(rt; out.as_slice(), shown.as_bytes());
        assert_eq!(rt;
            ended.map(|e| (e.status, e.history.len())),
            Some((6, events))
        );
    }
    Ok(())
}

/// What words come to over a file `s` of a script and a file `x` of no image, where a call of the files fails.
fn refused(
    alloc: Global,
    texts: &[&str],
    failing: u64,
    out: &mut Vec<u8>,
) -> Result<Option<EndKind>, Fail> {
    let files = files_of(alloc, &[("s", b"L H"), ("x", b"x")])?;
    let ended = run(alloc, texts, files, (&[failing], &[]), out)?;
    Ok(ended.map(|e| e.end))
}

#[test]
fn tells_reads_that_fail(rt: HostRuntime) -> Result<(), Fail> {
    // Both operands are read before either is judged. Each takes a pick and two reads.
    let rows: [(&[&str], u64, u8); 5] = [
        (&["bus", "s"], 1, 1),
        (&["bus", "s"], 2, 1),
        (&["check", "x", "t"], 3, 1),
        (&["check", "x", "s"], 4, 2),
        (&["check", "x", "s"], 6, 2),
    ];
    for (texts, failing, operand) in rows {
        let mut out = Vec::new(rt.alloc());
        let end = refused(rt.alloc(), texts, failing, &mut out)?;
        let refusal = Refusal::ReadFault { operand };
        assert_eq!(rt; end, Some(EndKind::Refused(refusal)), "{failing}");
        assert!(rt; out.starts_with(b"fault read "), "{failing}");
    }
    Ok(())
}

#[test]
fn stops_at_the_limit_and_at_a_failed_write(rt: HostRuntime) -> Result<(), Fail> {
    let mut out = Vec::new(rt.alloc());
    let long = vec![in rt.alloc(); b' '; TEXT_LIMIT as usize + 1]?;
    let ended = run(
        rt.alloc(),
        &["bus", "s"],
        one_file(rt.alloc(), long)?,
        (&[], &[]),
        &mut out,
    )?;
    assert_eq!(rt; out.as_slice(), b"fault long 1\n".as_slice());
    assert_eq!(rt; ended.map(|e| e.status), Some(11));

    // Nothing is written, and the history keeps the event.
    let mut none = Vec::new(rt.alloc());
    let bytes = b"00".to_vec(rt.alloc())?;
    let ended = run(
        rt.alloc(),
        &["bus", "s"],
        one_file(rt.alloc(), bytes)?,
        (&[], &[1]),
        &mut none,
    )?;
    assert_eq!(rt; none.len(), 0);
    assert_eq!(rt; ended.map(|e| (e.status, e.history.len())), Some((6, 1)));
    Ok(())
}

#[test]
fn writes_pieces_of_whole_lines(rt: HostRuntime) -> Result<(), Fail> {
    // Each line is 3 bytes of text, so a piece of 8,192 has 2,730 lines. The second piece is not written: the first stands,
    // and the history keeps the events of all lines that ran.
    let mut script = Vec::new(rt.alloc());
    for _ in 0..3000 {
        script.extend_from_slice(b"00\n")?;
    }
    let mut prefix = Vec::new(rt.alloc());
    let ended = run(
        rt.alloc(),
        &["bus", "s"],
        one_file(rt.alloc(), script)?,
        (&[], &[2]),
        &mut prefix,
    )?;
    assert_eq!(rt; prefix.len(), 8190);
    assert!(rt; prefix.ends_with(b"FF\n"));
    assert_eq!(rt; ended.map(|e| (e.status, e.history.len())), Some((6, 3000)));

    // A line that is longer than a piece is written by itself, after what waited.
    let mut long = b"00\n".to_vec(rt.alloc())?;
    for _ in 0..3000 {
        long.extend_from_slice(b"00 ")?;
    }
    let mut prefix = Vec::new(rt.alloc());
    let ended = run(
        rt.alloc(),
        &["bus", "s"],
        one_file(rt.alloc(), long)?,
        (&[], &[2]),
        &mut prefix,
    )?;
    assert_eq!(rt; prefix.as_slice(), b"FF\n".as_slice());
    assert_eq!(rt; ended.map(|e| (e.status, e.history.len())), Some((6, 3001)));
    Ok(())
}

/// Sixteen bytes of 0, in hexadecimal digits.
const ZEROS: &str = "00000000000000000000000000000000";

#[test]
fn lists_a_long_image_in_pieces(rt: HostRuntime) -> Result<(), Fail> {
    // 1,024 words of 0, each a line of 15 bytes. A piece is written once fewer than 49 bytes, the longest line, are left of
    // 8,192: after 543 lines.
    let mut hex = Vec::new(rt.alloc());
    for record in 0..128u32 {
        let at = record * 16;
        let sum = (16 + at / 256 + at % 256) % 256;
        let line = format!(in rt.alloc(); ":10{:04X}00{}{:02X}\n", at, ZEROS, (256 - sum) % 256)?;
        hex.extend_from_slice(line.as_bytes())?;
    }
    hex.extend_from_slice(b":00000001FF\n")?;
    let mut prefix = Vec::new(rt.alloc());
    let ended = run(
        rt.alloc(),
        &["list", "s"],
        one_file(rt.alloc(), hex)?,
        (&[], &[2]),
        &mut prefix,
    )?;
    assert_eq!(rt; prefix.len(), 8145);
    assert!(rt; prefix.ends_with(b"021E: 0000 nop\n"));
    assert_eq!(rt; ended.map(|e| e.status), Some(6));
    Ok(())
}

/// What words come to over links without peers; the waits and the writes of these numbers fail.
fn run_top<R: Threads + Wait + Sync, G: Gate + Sync>(
    rt: &R,
    alloc: Global,
    texts: &[&str],
    files: &[(&str, &[u8])],
    failing: (&[u64], &[u64]),
    gate: &G,
    out: &mut Vec<u8>,
) -> Result<TopEnd<ScriptLinks, ListPoller>, Fail> {
    let mut files = MemFiles::new(files_of(alloc, files)?, Vec::new(alloc));
    let mut sink = MemSink::new(alloc, 65536, failing.1.to_vec(alloc)?)?;
    let words = words(alloc, texts)?;
    let links = ScriptLinks::new(alloc, Vec::new(alloc))?;
    let poller = ListPoller::new(failing.0.to_vec(alloc)?);
    let ended = top(
        rt, alloc, &words, &mut files, &mut sink, links, poller, gate,
    );
    out.extend_from_slice(sink.bytes())?;
    Ok(ended)
}

/// Pulls the select line low and lets it go, for ever.
const TOGGLES: &str = ":0C00000004E005B904B92A982A9AFDCF43\n:00000001FF\n";

#[test]
fn runs_firmware_over_links(rt: HostRuntime) -> Result<(), Fail> {
    for (hex, failing, start, end, status) in [
        (
            BREAK,
            (0, 0),
            "== end break\n== cycles 1\n== bus 0\n== link 0\n== faults 0\n",
            "",
            0,
        ),
        (
            SELECTS,
            (0, 0),
            "A\n== end break\n",
            "== bus 4\n== link 0\n== faults 0\n",
            0,
        ),
        (
            TOGGLES,
            (1, 0),
            "== end poll-fault\n== cycles ",
            "== link 0\n== faults 0\n",
            9,
        ),
        (SELECTS, (0, 1), "", "", 6),
    ] {
        let mut out = Vec::new(rt.alloc());
        let ended = run_top(
            &rt,
            rt.alloc(),
            &["run", "h", "b"],
            &[("h", hex.as_bytes()), ("b", b"")],
            (&[failing.0], &[failing.1]),
            &OpenGate,
            &mut out,
        )?;
        assert!(rt; out.starts_with(start.as_bytes()), "{hex}");
        assert!(rt; out.ends_with(end.as_bytes()), "{hex}");
        assert_eq!(rt;
            (ended.status, ended.script.is_some()),
            (status, false),
            "{hex}"
        );
    }
    Ok(())
}

#[test]
fn hands_links_and_poller_back(rt: HostRuntime) -> Result<(), Fail> {
    let files: [(&str, &[u8]); 3] = [("h", BREAK.as_bytes()), ("x", b"x"), ("b", b"cycles = 0")];
    let rows: [(&[&str], &str, u8); 5] = [
        (&["run", "h"], "fault usage\n", 2),
        (&["run", "x", "t"], "fault nofile 2\n", 5),
        (&["run", "x", "b"], "fault hex BadStart 1\n", 3),
        (&["run", "h", "b"], "fault board cycles 0 OutOfRange\n", 4),
        (&["list", "h"], "0000: 9598 break\n", 0),
    ];
    for (words, shown, status) in rows {
        let mut out = Vec::new(rt.alloc());
        let mut ended = run_top(
            &rt,
            rt.alloc(),
            words,
            &files,
            (&[1], &[]),
            &OpenGate,
            &mut out,
        )?;
        assert_eq!(rt; out.as_slice(), shown.as_bytes());
        assert_eq!(rt; (ended.status, ended.history.len()), (status, 0), "{shown}");

        // No wait was made, so the next one is the first, and fails.
        assert!(rt; ended.poller.wait().is_err(), "{shown}");
    }
    Ok(())
}

#[test]
fn leaves_live_runs_to_top(rt: HostRuntime) -> Result<(), Fail> {
    let mut out = Vec::new(rt.alloc());
    let ended = run_board(rt.alloc(), "run", (BREAK, ""), &[], &mut out)?;
    assert!(rt; ended.is_none());
    assert_eq!(rt; out.len(), 0);
    Ok(())
}

/// How often the gate looks for a step of the links before it gives up.
const TURNS: u32 = 300_000_000;

/// A gate that holds the firmware at its first event until a step of the links comes.
#[derive(Drop)]
struct HoldGate {
    /// Whether the firmware came to its first event.
    held: AtomicBool,
    /// How many steps the links made.
    steps: AtomicU64,
    /// Whether a step came while the firmware was held.
    came: AtomicBool,
}

impl Gate for HoldGate {
    fn at(&self, point: Point) {
        match point {
            Point::Link => {
                self.steps.fetch_add(1, SeqCst);
            }
            Point::Firmware => {
                if !self.held.swap(true, SeqCst) {
                    let before = self.steps.load(SeqCst);
                    for _ in 0..TURNS {
                        if self.steps.load(SeqCst) != before {
                            self.came.store(true, SeqCst);
                            return;
                        }
                    }
                }
            }
        }
    }
}

#[test]
fn serves_the_links_beside_the_firmware(rt: HostRuntime) -> Result<(), Fail> {
    let gate = HoldGate {
        held: AtomicBool::new(false),
        steps: AtomicU64::new(0),
        came: AtomicBool::new(false),
    };
    let mut out = Vec::new(rt.alloc());
    let ended = run_top(
        &rt,
        rt.alloc(),
        &["run", "h", "b"],
        &[("h", SELECTS.as_bytes()), ("b", b"")],
        (&[], &[]),
        &gate,
        &mut out,
    )?;
    assert!(rt; gate.came.load(SeqCst));
    assert_eq!(rt; (ended.status, ended.end), (0, EndKind::Break));
    Ok(())
}
