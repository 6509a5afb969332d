//! Worked cases, with ample memory.
use std::alloc::Global;
use std::test::Fail;
use wz_base::{LineBuffer, MemFiles, MemSink, ReadError, WriteError, read_whole, write_all};

/// What a case reads, and what comes of it.
#[derive(Clone, Copy)]
struct Case<'a> {
    name: &'a str,
    size: usize,
    limit: u64,
    failing: &'a [u64],
    error: Option<ReadError>,
}

/// So many bytes, each its place modulo 251.
fn counted(alloc: Global, size: usize) -> Result<Vec<u8>, Fail> {
    let mut bytes = Vec::new(alloc);
    for place in 0..size {
        bytes.push((place % 251) as u8)?;
    }
    Ok(bytes)
}

/// One file, named `a`.
fn one_file(alloc: Global, bytes: Vec<u8>) -> Result<Vec<(String, Vec<u8>)>, Fail> {
    let mut files = Vec::new(alloc);
    files.push((String::from_str(alloc, "a")?, bytes))?;
    Ok(files)
}

#[test]
fn reads_whole_files_within_the_limit(rt: HostRuntime) -> Result<(), Fail> {
    let too_long = Some(ReadError::TooLong);
    let fault = Some(ReadError::ReadFault);
    let cases = [
        Case {
            name: "a",
            size: 4,
            limit: 4,
            failing: &[],
            error: None,
        },
        Case {
            name: "a",
            size: 5,
            limit: 4,
            failing: &[],
            error: too_long,
        },
        Case {
            name: "a",
            size: 0,
            limit: 0,
            failing: &[],
            error: None,
        },
        Case {
            name: "a",
            size: 9000,
            limit: 9000,
            failing: &[],
            error: None,
        },
        Case {
            name: "a",
            size: 9000,
            limit: 8999,
            failing: &[],
            error: too_long,
        },
        Case {
            name: "b",
            size: 4,
            limit: 4,
            failing: &[],
            error: Some(ReadError::NoFile),
        },
        // Call 1 is the pick, and the reads follow, one a piece of 4,096 bytes.
        Case {
            name: "a",
            size: 4,
            limit: 4,
            failing: &[1],
            error: fault,
        },
        Case {
            name: "a",
            size: 4,
            limit: 4,
            failing: &[2],
            error: fault,
        },
        Case {
            name: "a",
            size: 9000,
            limit: 9000,
            failing: &[3],
            error: fault,
        },
        Case {
            name: "a",
            size: 9000,
            limit: 9000,
            failing: &[5],
            error: fault,
        },
        Case {
            name: "a",
            size: 9000,
            limit: 9000,
            failing: &[6],
            error: None,
        },
        // The first piece is too long before the second one fails.
        Case {
            name: "a",
            size: 9000,
            limit: 4,
            failing: &[3],
            error: too_long,
        },
    ];
    for case in &cases {
        let want = counted(rt.alloc(), case.size)?;
        let files = one_file(rt.alloc(), want.clone()?)?;
        let mut files = MemFiles::new(files, case.failing.to_vec(rt.alloc())?);
        match (
            read_whole(rt.alloc(), &mut files, case.name, case.limit),
            case.error,
        ) {
            (Ok(bytes), None) => assert_eq!(rt; bytes.as_slice(), want.as_slice()),
            (Err(error), Some(wanted)) => assert_eq!(rt; error, wanted, "limit {}", case.limit),
            _ => assert!(rt; false, "size {}, limit {}", case.size, case.limit),
        }
    }
    Ok(())
}

#[test]
fn a_later_write_that_fails_leaves_a_prefix(rt: HostRuntime) -> Result<(), Fail> {
    for (room, failing, written, want) in [
        (5, [9].as_slice(), b"abcde".as_slice(), Ok(())),
        (
            3,
            [].as_slice(),
            b"abc".as_slice(),
            Err(WriteError::WriteFault),
        ),
        (
            3,
            [2].as_slice(),
            b"abc".as_slice(),
            Err(WriteError::WriteFault),
        ),
        (
            5,
            [1].as_slice(),
            b"".as_slice(),
            Err(WriteError::WriteFault),
        ),
        (
            0,
            [].as_slice(),
            b"".as_slice(),
            Err(WriteError::WriteFault),
        ),
    ] {
        let mut sink = MemSink::new(rt.alloc(), room, failing.to_vec(rt.alloc())?)?;
        assert_eq!(rt; write_all(&mut sink, b""), Ok(()));
        assert_eq!(rt; write_all(&mut sink, b"abcde"), want, "room {room}");
        assert_eq!(rt; sink.bytes(), written, "room {room}");
    }
    Ok(())
}

#[test]
fn lines_are_written_in_whole_pieces(rt: HostRuntime) -> Result<(), Fail> {
    let short = vec![in rt.alloc(); b'a'; 5000]?;
    let long = vec![in rt.alloc(); b'b'; 9000]?;

    // What waits is written before a line that does not fit after it, and a line longer than a piece by itself.
    let mut sink = MemSink::new(rt.alloc(), 65536, [3].to_vec(rt.alloc())?)?;
    let mut lines = LineBuffer::new(rt.alloc())?;
    assert_eq!(rt; lines.add(&short, &mut sink), Ok(()));
    assert_eq!(rt; sink.bytes().len(), 0);
    assert_eq!(rt; lines.add(&short, &mut sink), Ok(()));
    assert_eq!(rt; sink.bytes(), short.as_slice());

    // The third call of the sink fails: the second piece stands, and the long line is not there.
    assert_eq!(rt; lines.add(&long, &mut sink), Err(WriteError::WriteFault));
    assert_eq!(rt; sink.bytes().len(), 10000);
    assert_eq!(rt; lines.add(&short, &mut sink), Ok(()));
    assert_eq!(rt; lines.flush(&mut sink), Ok(()));
    assert_eq!(rt; sink.bytes().len(), 15000);
    Ok(())
}
