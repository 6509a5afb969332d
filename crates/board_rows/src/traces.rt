//! Rows of traces.

use board_judge::judge;
use std::alloc::Global;
use std::test::Fail;
use wz_base::MemSink;

// What is printed of a short trace, each line of which ends with a semicolon here.
fn verdict(alloc: Global, trace: &str) -> Result<Vec<u8>, Fail> {
    let mut sink = MemSink::new(alloc, 1_000, Vec::new(alloc))?;
    let text: Vec<u8> = trace
        .bytes()
        .map(|byte| if byte == b';' { b'\n' } else { byte })
        .collect(alloc)?;
    if text.len() < 1_000 {
        let _ = judge(alloc, &text, &mut sink);
    }
    let mut printed = Vec::new(alloc);
    printed.extend_from_slice(sink.bytes())?;
    Ok(printed)
}

#[test]
fn judges_traces(rt: HostRuntime) -> Result<(), Fail> {
    let table = "w5500 trace 1 0 0;L;00>00;39>00;00>00;00>04;H = legal 6
w5500 trace 1 0 0;L;00>00;39>00;00>00;00>05;H = differs 4 04 05
w5500 trace 1 0 0 = legal 0
w5500 trace 1 65535 7;.;?1;.;H;00>FF; = legal 5
w5500 trace 1 0 0;.;?0 = differs 1 01 00
w5500 trace 1 0 0;ff>00 = differs 0 FF 00
w5500 trace 1 0 0;.;@0:linked = unfit 1
w5500 trace 1 0 0;@7:datagram:10.0.0.2:80:00 = unfit 0
w5500 trace 1 0 0;L;00>00;01>00;24>00;00>00 = stops 4 ReservedBlock 4";
    for line in table.lines() {
        if let Some((trace, want)) = line.split_once(" = ") {
            let printed = verdict(rt.alloc(), trace)?;
            let want = format!(in rt.alloc(); "{want}\n")?;
            assert_eq!(rt; printed.as_slice(), want.as_bytes(), "{trace}");
        }
    }
    Ok(())
}

#[test]
fn prints_nothing_of_what_is_no_trace(rt: HostRuntime) -> Result<(), Fail> {
    let table = "
w5500 trace 1 0
w5500 trace 1 0 0 0
w5500 trace 1  0 0
w5500 trace 1 0 65536
w5500 trace 1 00 0
w5500 trace 2 0 0
L
w5500 trace 1 0 0;L;;H
w5500 trace 1 0 0;L H
w5500 trace 1 0 0;L #
w5500 trace 1 0 0;00
w5500 trace 1 0 0;00>0
w5500 trace 1 0 0;?
w5500 trace 1 0 0;?2
w5500 trace 1 0 0;..
w5500 trace 1 0 0;@8:linked";
    for trace in table.lines() {
        let printed = verdict(rt.alloc(), trace)?;
        assert!(rt; printed.is_empty(), "{trace}");
    }
    Ok(())
}
