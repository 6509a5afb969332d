//! Rows of scripts.

use board_gen::{ScriptFault, ScriptKind, ScriptStop, script};
use std::alloc::Global;
use std::test::Fail;
use wz_base::MemSink;

// How a short script ends.
fn end_of(alloc: Global, text: &str) -> Result<ScriptStop, Fail> {
    let mut sink = MemSink::new(alloc, 1_000, Vec::new(alloc))?;
    if text.len() < 1_000 {
        Ok(script(alloc, text.as_bytes(), &mut sink).end)
    } else {
        Ok(ScriptStop::NoMemory)
    }
}

#[test]
fn finds_the_first_fault(rt: HostRuntime) -> Result<(), Fail> {
    let head = ScriptKind::BadHead;
    let token = ScriptKind::BadToken;
    for (text, line, kind) in [
        ("start", 1, head),
        ("start 0", 1, head),
        ("start 0 0 L", 1, head),
        ("start 007 0", 1, head),
        ("start 0 65536", 1, head),
        ("start 0 0\r", 1, head),
        ("start 1 -1\n0G", 1, head),
        ("start\t0 0", 1, token),
        ("start\r", 1, token),
        ("\nstart 0 0", 2, token),
        ("# none\nstart 0 0", 2, token),
        ("L 00\nL 0G H\n0", 2, token),
        ("L\n\nL\t00", 3, token),
        ("L\r", 1, token),
        ("L\rH\n", 1, token),
        ("L\r\r\n", 1, token),
        ("l", 1, token),
        ("h", 1, token),
        ("LH", 1, token),
        ("0", 1, token),
        ("000", 1, token),
        ("??", 1, token),
        ("@8:linked", 1, token),
        ("@0:Linked", 1, token),
        ("@0linked", 1, token),
        ("@00:linked", 1, token),
        ("@0:", 1, token),
        ("@0", 1, token),
        ("@0:linked:", 1, token),
        ("@0:took", 1, token),
        ("@0:took:", 1, token),
        ("@0:took:4294967296", 1, token),
        ("@0:took:00000000001", 1, token),
        ("@0:took:1a", 1, token),
        ("@0:got:123", 1, token),
        ("@0:got:0g", 1, token),
        ("@0:got", 1, token),
        ("@0:accepted:10.0.0.2:65536", 1, token),
        ("@0:accepted:10.0.0.02:1", 1, token),
        ("@0:accepted:10.0.0.256:1", 1, token),
        ("@0:accepted:10.0.0:1", 1, token),
        ("@0:accepted:10.0.0.2.3:1", 1, token),
        ("@0:accepted:10.0.0.2", 1, token),
        ("@0:datagram:10.0.0.2:1", 1, token),
        ("@0:datagram:10.0.0.2:1:00:00", 1, token),
        ("@t:1", 1, token),
    ] {
        let end = end_of(rt.alloc(), text)?;
        let fault = ScriptFault { line, kind };
        assert_eq!(rt; end, ScriptStop::Fault(fault), "{text}");
    }
    Ok(())
}
