//! The system's own answers.
use std::fs::Permissions;
use std::os::unix::fs::PermissionsExt;
use std::test::Fail;
use std::{fs, io};
use wz_base::{ReadError, read_whole, write_all};
use wz_real::{StdFiles, StdOut};

#[test]
fn reads_a_real_file_and_tells_why_another_is_not_read(rt: HostRuntime) -> Result<(), Fail> {
    fs::write(&rt, "five", "abcde")?;
    fs::create_dir(&rt, "folder")?;
    let mut files = StdFiles::new(&rt);
    for (name, limit, want) in [
        ("five", 5, None),
        ("five", 4, Some(ReadError::TooLong)),
        ("six", 5, Some(ReadError::NoFile)),
        ("folder/six", 5, Some(ReadError::NoFile)),
        ("folder", 5, Some(ReadError::ReadFault)),
        ("five/six", 5, Some(ReadError::ReadFault)),
    ] {
        match read_whole(rt.alloc(), &mut files, name, limit) {
            Ok(bytes) => {
                assert_eq!(rt; want, None, "{name}");
                assert_eq!(rt; bytes.as_slice(), b"abcde".as_slice(), "{name}");
            }
            Err(error) => assert_eq!(rt; Some(error), want, "{name}"),
        }
    }
    let mut out = StdOut::new(io::writer(&rt));
    assert_eq!(rt; write_all(&mut out, b"abcde\n"), Ok(()));
    Ok(())
}

/// Files that the system lets nobody read, root neither, but only write. One or the other may not be there.
const WRITE_ONLY: [&str; 3] = [
    "/proc/sys/vm/compact_memory",
    "/proc/sys/net/ipv4/route/flush",
    "/sys/bus/platform/uevent",
];

#[test]
fn tells_a_file_that_may_not_be_read_as_a_fault(rt: HostRuntime) -> Result<(), Fail> {
    let mut files = StdFiles::new(&rt);
    for name in WRITE_ONLY {
        if fs::exists(&rt, name)? {
            let end = read_whole(rt.alloc(), &mut files, name, 5).err();
            assert_eq!(rt; end, Some(ReadError::ReadFault), "{name}");
        }
    }

    // Of a file without rights: who has the rights of root reads it still.
    fs::write(&rt, "closed", "abcde")?;
    fs::set_permissions(&rt, "closed", Permissions::from_mode(0))?;
    match read_whole(rt.alloc(), &mut files, "closed", 5) {
        Ok(bytes) => assert_eq!(rt; bytes.as_slice(), b"abcde".as_slice()),
        Err(error) => assert_eq!(rt; error, ReadError::ReadFault),
    }
    Ok(())
}
