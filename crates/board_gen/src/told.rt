//! Laws of what the steps of a script are told, each the contract of an empty function.
ghost use Rattle.std.specs.Prelude.{◌≡◌, ◌<◌, ℕ, List, ◌++◌, slice_get, Some};
ghost use Rattle.chip_sheet.specs.declared.event.LinkEntry.{LinkEntry};
ghost use Rattle.chip_sheet.specs.Past.{Past, GoesOn};
ghost use Rattle.chip_sheet.specs.Streams.{Starts};
ghost use Rattle.chip_sheet.specs.Legal.{Legal};
ghost use Rattle.chip_sheet.specs.Replay.{Step, Happens, AllTaken, told};

/// What the first steps of a script are told stays, whatever comes behind them: where all of them were taken, the whole script is
/// told what they are, and then what the others are from there on. What had happened before a script stays behind what it adds.
pub fn answers_stay()
    ensures answers { (starts : Starts) (past : Past) (xs ys : List Step) → (told starts past xs).ending ≡ AllTaken → (told starts past (xs ++ ys)).answers ≡ (told starts past xs).answers ++ (told starts (told starts past xs).past ys).answers }
    ensures goes_on { (starts : Starts) (past : Past) (xs ys : List Step) → (told starts past xs).ending ≡ AllTaken → (told starts past (xs ++ ys)).past ≡ (told starts (told starts past xs).past ys).past }
    ensures ends { (starts : Starts) (past : Past) (xs ys : List Step) → (told starts past xs).ending ≡ AllTaken → (told starts past (xs ++ ys)).ending ≡ (told starts (told starts past xs).past ys).ending }
    ensures keeps { (starts : Starts) (past : Past) (xs : List Step) → GoesOn past (told starts past xs).past }
{}

/// Steps that follow a legal history make a legal one, where their link events are of the eight sockets.
pub fn told_is_legal()
    ensures { (starts : Starts) (past : Past) (xs : List Step) → Legal starts past → ((i n : ℕ) (what : LinkEntry) → slice_get xs i ≡ Some (Happens n what) → n < 8) → Legal starts (told starts past xs).past }
{}
