//! Laws of a socket's life, for the chip that holds eight of them; each is the contract of an empty function.

ghost use Rattle.std.specs.Prelude.{◌≡◌, ℕ, ◌/◌, Bool, List, ◌∷◌, None};
ghost use Rattle.chip_sheet.specs.declared.socket.Status.{Status};
ghost use Rattle.chip_sheet.specs.declared.socket.Cause.{Cause};
ghost use Rattle.chip_sheet.specs.declared.socket.Cause.TheVariants as because;
ghost use Rattle.chip_sheet.specs.declared.event.Entry.{Entry};
ghost use Rattle.chip_sheet.specs.Past.{Past};
ghost use Rattle.chip_sheet.specs.Life.{cause};
ghost use Rattle.chip_sheet.specs.Streams.{Starts};
ghost use Rattle.chip_sheet.specs.LinkCalls.{due_at};
ghost use Rattle.chip_sheet.specs.Stops.{CommandFacts, first, command_stop};
ghost use Rattle.sock_cmd.specs.declared.life.Life.{Life};
ghost use Rattle.sock_cmd.specs.Lives.{IsAfter, AllAfter};
ghost use Rattle.sock_cmd.specs.Going.{Happens, OneGoesOn, due_by, ordered_stops};
ghost use Rattle.sock_cmd.specs.LifeStops.{life_stop};
ghost use Rattle.sock_cmd.specs.Effects.{effect_of, Means};

/// A socket that is socket n after a past, and to which the next entry happened, while the registers held what that past leaves
/// in them, is socket n after that entry.
pub fn goes_on()
    ensures { (before after : Life) (past : Past) (entry : Entry) (n : ℕ) → IsAfter before past n → Happens before past entry n after → IsAfter after (entry ∷ past) n }
{}

/// An entry that is nothing for a socket leaves it as it is.
pub fn stays()
    ensures { (socket : Life) (past : Past) (entry : Entry) (n : ℕ) → IsAfter socket past n → cause past n entry ≡ because.Nothing → IsAfter socket (entry ∷ past) n }
{}

/// Sockets that are those of a past are those of it with an entry that is nothing for any of them, and so are they where one of
/// them goes on and the entry is nothing for the others.
pub fn sockets_go_on()
    ensures none { (sockets : List Life) (past : Past) (entry : Entry) → AllAfter sockets past → ((n : ℕ) → cause past n entry ≡ because.Nothing) → AllAfter sockets (entry ∷ past) }
    ensures one { (sockets : List Life) (past : Past) (entry : Entry) (n : ℕ) (after : Life) → OneGoesOn sockets past entry n after }
{}

/// What a socket answers at a place is the link call that is due there after its past.
pub fn due_is_exact()
    ensures { (starts : Starts) (past : Past) (place : ℕ) (socket : Life) → IsAfter socket past (place / 2) → due_by starts past place socket ≡ due_at starts past place }
{}

/// The stop of a command is the first of those that a socket alone finds, and then those of SEND and RECV, which never stop
/// before.
pub fn stops_in_order()
    ensures order { (n : ℕ) (facts : CommandFacts) (c : ℕ) → command_stop n facts c ≡ first (ordered_stops n facts c) }
    ensures send { (n mode : ℕ) (status : Status) (valid : Bool) → life_stop n status mode valid 0x20 ≡ None }
    ensures receive { (n mode : ℕ) (status : Status) (valid : Bool) → life_stop n status mode valid 0x40 ≡ None }
{}

/// What a command came to says which command it was, and what it found.
pub fn effects_mean()
    ensures { (why : Cause) (status : Status) → Means (effect_of status why) why status }
{}
