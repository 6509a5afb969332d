//! The calls of the fakes in memory, some of which fail.
ghost use Rattle.std.specs.Prelude.{◌↔◌, ◌⊎◌, IsTrue};

/// Which calls fail, how many were made, and how many failed.
#[derive(Debug, Drop)]
pub struct Calls {
    /// The numbers of the calls that fail, from 1.
    failing: Vec<u64>,
    /// How many calls were made.
    made: u64,
    /// How many of them failed.
    faults: u64,
}

impl Calls {
    ghost use Rattle.wz_base.specs.Calls.{IsFresh, IsListed, OneMore};
    ghost use Rattle.wz_base.specs.Outside.{RisesOnly};

    /// No call was made yet. Those with a number in `failing`, from 1, will fail.
    pub fn new(failing: Vec<u64>) -> Calls
        ensures { IsFresh result failing.items }
    {
        Calls {
            failing,
            made: 0,
            faults: 0,
        }
    }

    /// Makes the next call, and answers whether it fails: it is `refused`, or its number is listed. The count of
    /// faults rises exactly then.
    pub fn next_fails(&mut self, refused: bool) -> bool
        ensures fails { IsTrue result ↔ (IsListed self.old ⊎ IsTrue refused) }
        ensures faults { RisesOnly (IsTrue result) self.old.faults self.new.faults }
        ensures calls { OneMore self.old self.new }
    {
        self.made = self.made.saturating_add(1);
        let fails = refused || self.failing.contains(&self.made);
        if fails {
            self.faults = self.faults.saturating_add(1);
        }
        fails
    }
}
