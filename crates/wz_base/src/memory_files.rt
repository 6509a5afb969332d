//! Files in memory, which tell their bytes.
ghost use Rattle.std.specs.Prelude.{◌≡◌, ◌≤◌, [], drop, length, min};
ghost use Rattle.wz_base.specs.Named.{FindsName, bytes_at};
ghost use Rattle.wz_base.specs.Outside.{ReadsFront};

use crate::calls::Calls;
use crate::outside::{Failed, Files, PickFault, Source};

/// Files in memory. Each pick and each read is a call, and those of the given numbers fail.
#[derive(Drop)]
pub struct MemFiles {
    /// The files, each a name with its bytes.
    files: Vec<(String, Vec<u8>)>,
    /// The calls so far.
    calls: Calls,
    /// How many names were asked for and not there.
    misses: u64,
    /// The place of the file that was picked last.
    current: Option<usize>,
    /// How many of its bytes were read.
    at: usize,
    ghost within: { at ≤ length (bytes_at files.items current) },
}

/// The place of the first file of that name.
fn place_of(files: &[(String, Vec<u8>)], name: &str) -> Option<usize>
    ensures { FindsName files.now name.now result }
{
    for (i, file) in files.iter().enumerate() {
        if file.0.as_str() == name {
            return Some(i);
        }
    }
    None
}

/// Moves the first bytes of the rest into the buffer, as many as fit.
fn move_first(rest: &[u8], buf: &mut [u8]) -> usize
    ensures moved { ReadsFront result rest.now buf.new (drop result rest.now) }
    ensures fits { result ≡ min (length rest.now) (length buf.new) }
{
    let count = rest.len().min(buf.len());
    buf[..count].copy_from_slice(&rest[..count]);
    count
}

impl MemFiles {
    ghost use Rattle.wz_base.specs.Calls.{IsFresh};
    ghost use Rattle.wz_base.specs.MemFiles.{calls_of, files_of, misses_of, unread_bytes};

    /// Files by their names; where a name stands twice, the first one counts. No file is picked, no call was made,
    /// and the calls with a number in `failing`, from 1, will fail.
    pub fn new(files: Vec<(String, Vec<u8>)>, failing: Vec<u64>) -> MemFiles
        ensures files { files_of result ≡ files.items }
        ensures unread { unread_bytes result ≡ [] }
        ensures calls { IsFresh (calls_of result) failing.items }
        ensures misses { misses_of result ≡ 0 }
    {
        MemFiles {
            files,
            calls: Calls::new(failing),
            misses: 0,
            current: None,
            at: 0,
        }
    }

    /// The bytes of the current file; none where no file was picked.
    fn current_bytes(&self) -> &[u8]
        ensures { result.now ≡ bytes_at self.now.files.items self.now.current }
    {
        match self.current {
            Some(i) => match self.files.get(i) {
                Some(file) => &file.1,
                None => &[],
            },
            None => &[],
        }
    }
}

impl Source for MemFiles {
    ghost use Rattle.std.specs.Prelude.{◌↔◌, Some, drop, IfOk, IsErr, OnErr};
    ghost use Rattle.wz_base.specs.Calls.{IsListed, OneMore};
    ghost use Rattle.wz_base.specs.MemFiles.{calls_of, files_of, misses_of, unread_bytes};
    ghost use Rattle.wz_base.specs.Named.{bytes_at, bytes_of_name};
    ghost use Rattle.wz_base.specs.Outside.{Reads, RisesOnly};

    ghost left = { λ s. Some (drop s.at (bytes_at s.files.items s.current)) };

    ghost faults = { λ s. s.calls.faults };

    ghost misses = { λ s. s.misses };

    ghost held = { λ s. Some (λ name. bytes_of_name s.files.items name) };

    /// Reads as many bytes as fit and are left. It fails exactly where its number is listed.
    fn read(&mut self, buf: &mut [u8]) -> Result<usize, Failed>
        ensures bytes { IfOk result (λ count. Reads count (Some (unread_bytes self.old)) buf.new (Some (unread_bytes self.new))) }
        ensures err { OnErr result (unread_bytes self.new ≡ unread_bytes self.old) }
        ensures faults { RisesOnly (IsErr result) (calls_of self.old).faults (calls_of self.new).faults }
        ensures misses { misses_of self.new ≡ misses_of self.old }
        ensures held { files_of self.new ≡ files_of self.old }

        ensures fails { IsErr result ↔ IsListed (calls_of self.old) }
        ensures fits { IfOk result (λ count. count ≡ min (length (unread_bytes self.old)) (length buf.new)) }
        ensures calls { OneMore (calls_of self.old) (calls_of self.new) }
    {
        if self.calls.next_fails(false) {
            return Err(Failed);
        }
        let rest = &self.current_bytes()[self.at..];
        let count = move_first(rest, buf);
        self.at += count;
        Ok(count)
    }
}

impl Files for MemFiles {
    ghost use Rattle.std.specs.Prelude.{◌↔◌, Some, IsErrOf, OnErr};
    ghost use Rattle.wz_base.specs.Calls.{IsListed, OneMore};
    ghost use Rattle.wz_base.specs.MemFiles.{calls_of, files_of, misses_of, unread_bytes};
    ghost use Rattle.wz_base.specs.Named.{bytes_of_name};
    ghost use Rattle.wz_base.specs.Outside.{Picks, RisesOnly};

    /// Picks the first file of that name. It fails exactly where its number is listed.
    fn pick(&mut self, name: &str) -> Result<(), PickFault>
        ensures picks { Picks (Some (λ name. bytes_of_name (files_of self.old) name)) name.now result (Some (unread_bytes self.new)) }
        ensures err { OnErr result (unread_bytes self.new ≡ unread_bytes self.old) }
        ensures misses { RisesOnly (IsErrOf result PickFault.NoFile) (misses_of self.old) (misses_of self.new) }
        ensures faults { RisesOnly (IsErrOf result PickFault.ReadFault) (calls_of self.old).faults (calls_of self.new).faults }
        ensures held { files_of self.new ≡ files_of self.old }

        ensures fails { IsErrOf result PickFault.ReadFault ↔ IsListed (calls_of self.old) }
        ensures calls { OneMore (calls_of self.old) (calls_of self.new) }
    {
        if self.calls.next_fails(false) {
            return Err(PickFault::ReadFault);
        }
        match place_of(&self.files, name) {
            Some(i) => {
                self.current = Some(i);
                self.at = 0;
                Ok(())
            }
            None => {
                self.misses = self.misses.saturating_add(1);
                Err(PickFault::NoFile)
            }
        }
    }
}
