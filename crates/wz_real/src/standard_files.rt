//! The system's files.
ghost use Rattle.std.specs.Prelude.{None};

use std::fs::OpenOptions;
use std::io::{ErrorKind, Read};
use std::rt;
use wz_base::{Failed, Files, PickFault, Source};

/// Files of the system, by their paths. It tells no bytes.
#[derive(Drop)]
pub struct StdFiles<'a, R: rt::Files> {
    rt: &'a R,
    file: Option<R::File>,
    faults: u64,
    misses: u64,
}

impl<'a, R: rt::Files> StdFiles<'a, R> {
    ghost use Rattle.wz_real.specs.StandardFiles.{IsFresh};

    /// No file is picked, and no call was made.
    pub fn new(rt: &'a R) -> Self
        ensures { IsFresh result }
    {
        StdFiles {
            rt,
            file: None,
            faults: 0,
            misses: 0,
        }
    }
}

impl<R: rt::Files> Source for StdFiles<'_, R> {
    ghost left = { λ _. None };

    ghost faults = { λ s. s.faults };

    ghost misses = { λ s. s.misses };

    ghost held = { λ _. None };

    fn read(&mut self, buf: &mut [u8]) -> Result<usize, Failed> {
        let Some(file) = &mut self.file else {
            return Ok(0);
        };
        match file.read(buf) {
            Ok(count) => Ok(count),
            Err(_) => {
                self.faults = self.faults.saturating_add(1);
                Err(Failed)
            }
        }
    }
}

impl<R: rt::Files> Files for StdFiles<'_, R> {
    /// Opens the file. Only the system's answer 'not found' is `NoFile`: a folder (at its first read), a missing
    /// right and a path through a file are faults.
    fn pick(&mut self, name: &str) -> Result<(), PickFault> {
        match OpenOptions::new().read(true).open(self.rt, name) {
            Ok(file) => {
                self.file = Some(file);
                Ok(())
            }
            Err(e) if e.kind() == ErrorKind::NotFound => {
                self.misses = self.misses.saturating_add(1);
                Err(PickFault::NoFile)
            }
            Err(_) => {
                self.faults = self.faults.saturating_add(1);
                Err(PickFault::ReadFault)
            }
        }
    }
}
