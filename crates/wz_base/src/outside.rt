//! What a run asks of the outside. A real file or stream tells no bytes, so each meaning that names bytes is
//! an `Option`: `Some` where the bytes are told. Counts are numbers of failed calls, and never fall.
ghost use Rattle.std.specs.Prelude.{◌≡◌, ℕ, List, Option, None, IfOk, OnErr, IsErr, IsErrOf};
ghost use Rattle.wz_base.specs.Outside.{Picks, Reads, RisesOnly, Writes};

/// A call to the outside failed, and its count of faults rose.
#[derive(Clone, Copy, Debug, PartialEq, Eq)]
pub struct Failed;

/// Why a file was not picked.
#[derive(Clone, Copy, Debug, PartialEq, Eq)]
pub enum PickFault {
    /// There is no file of that name, and the count of misses rose.
    NoFile,
    /// The file could not be opened for another cause, and the count of faults rose.
    ReadFault,
}

/// Bytes that are read in order, from the file that was picked last.
pub trait Source {
    /// The bytes still to read, where they are told. With no file picked there are none.
    ghost left: { Self → Option (List ℕ) };

    /// How many calls failed.
    ghost faults: { Self → ℕ };

    /// How many files were asked for and not there.
    ghost misses: { Self → ℕ } = { λ _. 0 };

    /// The bytes that each name holds, or none, where files are told. It never changes.
    ghost held: { Self → Option (List ℕ → Option (List ℕ)) } = { λ _. None };

    /// Moves the first bytes that are left to the start of `buf`, and answers how many: 0 only where `buf` is
    /// empty or nothing is left. The rest of `buf` may hold anything.
    ///
    /// # Errors
    /// `Failed` only where the count of faults rose. What is left is then as before.
    fn read(&mut self, buf: &mut [u8]) -> Result<usize, Failed>
        ensures bytes { IfOk result (λ count. Reads count (left self.old) buf.new (left self.new)) }
        ensures err { OnErr result (left self.new ≡ left self.old) }
        ensures faults { RisesOnly (IsErr result) (faults self.old) (faults self.new) }
        ensures misses { misses self.new ≡ misses self.old }
        ensures held { held self.new ≡ held self.old };
}

/// Files by their names.
pub trait Files: Source {
    /// Makes the named file the current one, which is then read from its first byte.
    ///
    /// # Errors
    /// `NoFile` only where the count of misses rose and, where files are told, the name holds none. `ReadFault`
    /// only where the count of faults rose. The current file is then as before.
    fn pick(&mut self, name: &str) -> Result<(), PickFault>
        ensures picks { Picks (Self.held self.old) name.now result (Self.left self.new) }
        ensures err { OnErr result (Self.left self.new ≡ Self.left self.old) }
        ensures misses { RisesOnly (IsErrOf result PickFault.NoFile) (Self.misses self.old) (Self.misses self.new) }
        ensures faults { RisesOnly (IsErrOf result PickFault.ReadFault) (Self.faults self.old) (Self.faults self.new) }
        ensures held { Self.held self.new ≡ Self.held self.old };
}

/// Bytes that are written in order.
pub trait Sink {
    /// The bytes that were written, where they are told.
    ghost written: { Self → Option (List ℕ) };

    /// How many calls failed.
    ghost faults: { Self → ℕ };

    /// Takes the first bytes of `piece`, in order, and answers how many: at least one of a piece that is not empty.
    ///
    /// # Errors
    /// `Failed` only where the count of faults rose. No byte of `piece` is then written.
    fn write(&mut self, piece: &[u8]) -> Result<usize, Failed>
        ensures bytes { IfOk result (λ count. Writes count (written self.old) piece.now (written self.new)) }
        ensures err { OnErr result (written self.new ≡ written self.old) }
        ensures faults { RisesOnly (IsErr result) (faults self.old) (faults self.new) };
}
