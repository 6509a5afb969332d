//! A writer of the system.
ghost use Rattle.std.specs.Prelude.{None};

use std::io::Write;
use wz_base::{Failed, Sink};

/// A writer, such as standard output. It tells no bytes.
#[derive(Drop)]
pub struct StdOut<W: Write> {
    inner: W,
    faults: u64,
}

impl<W: Write> StdOut<W> {
    ghost use Rattle.wz_real.specs.StandardOut.{IsFresh};

    /// No call was made.
    pub fn new(inner: W) -> Self
        ensures { IsFresh result }
    {
        StdOut { inner, faults: 0 }
    }
}

impl<W: Write> Sink for StdOut<W> {
    ghost written = { λ _. None };

    ghost faults = { λ s. s.faults };

    /// Writes once. That nothing is taken of a piece that is not empty is a fault.
    fn write(&mut self, piece: &[u8]) -> Result<usize, Failed> {
        match self.inner.write(piece) {
            Ok(count) if count > 0 || piece.is_empty() => Ok(count),
            _ => {
                self.faults = self.faults.saturating_add(1);
                Err(Failed)
            }
        }
    }
}
