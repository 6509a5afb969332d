//! How an entry changes what was sent, taken and received in all lives of a socket, each the contract of an empty function.
ghost use Rattle.std.specs.Prelude.{◌≡◌, ℕ, ◌+◌, ◌∷◌, length, true, false};
ghost use Rattle.board_bus.specs.declared.event.BusEvent.{BusEvent};
ghost use Rattle.board_bus.specs.declared.event.BusAnswer.{BusAnswer};
ghost use Rattle.chip_sheet.specs.declared.event.Entry.{Entry};
ghost use Rattle.chip_sheet.specs.declared.event.Entry.TheVariants.{Bus, Link};
ghost use Rattle.chip_sheet.specs.declared.event.LinkEntry.{LinkEntry};
ghost use Rattle.chip_sheet.specs.declared.socket.Cause.TheVariants.{Send};
ghost use Rattle.chip_sheet.specs.Past.{Past};
ghost use Rattle.chip_sheet.specs.Life.{cause, status, lives};
ghost use Rattle.chip_sheet.specs.Streams.{Starts, sent, sends, taken_by, put_by};
ghost use Rattle.chip_sheet.specs.Windows.{rx_free};
ghost use Rattle.chip_sheet.specs.LinkCalls.{fits};
ghost use Rattle.chip_sheet.specs.Connections.{sent_in_all, taken_in_all, got_in_all};
ghost use Rattle.chip_sheet.specs.Legal.{Legal};
ghost use Rattle.chip_steps.specs.Steps.{IsSend, TakesSend, due_length};

/// A SEND in a status that takes it adds the length of its range to what was sent; nothing else adds to it.
pub fn sent_grows()
    ensures by_send { (starts : Starts) (past : Past) (entry : Entry) (n : ℕ) → IsSend past entry n → TakesSend past n
        → sent_in_all starts (entry ∷ past) n ≡ sent_in_all starts past n + due_length starts past n }
    ensures stays { (starts : Starts) (past : Past) (entry : Entry) (n : ℕ) → (cause past n entry ≡ Send → sends (status past n) ≡ false) → sent_in_all starts (entry ∷ past) n ≡ sent_in_all starts past n }
{}

/// A link event that fits adds what the link took by it to what was taken in all lives of its socket, and nothing else does.
pub fn taken_grows()
    ensures by_link { (starts : Starts) (past : Past) (n : ℕ) (what : LinkEntry) → Legal starts past → fits starts past n what ≡ true → taken_in_all (Link n what ∷ past) n ≡ taken_in_all past n + taken_by what }
    ensures other_link { (starts : Starts) (past : Past) (m n : ℕ) (what : LinkEntry) → Legal starts past → (m ≡ n → ⊥) → taken_in_all (Link m what ∷ past) n ≡ taken_in_all past n }
    ensures bus { (starts : Starts) (past : Past) (e : BusEvent) (a : BusAnswer) (n : ℕ) → Legal starts past → taken_in_all (Bus e a ∷ past) n ≡ taken_in_all past n }
{}

/// A link event adds the bytes that it puts into the RX buffer to what was received in all lives of its socket, and nothing else
/// does.
pub fn got_grows()
    ensures by_link { (starts : Starts) (past : Past) (n : ℕ) (what : LinkEntry) → got_in_all starts (Link n what ∷ past) n ≡ got_in_all starts past n + length (put_by (status past n) (rx_free starts past n) what) }
    ensures other_link { (starts : Starts) (past : Past) (m n : ℕ) (what : LinkEntry) → (m ≡ n → ⊥) → got_in_all starts (Link m what ∷ past) n ≡ got_in_all starts past n }
    ensures bus { (starts : Starts) (past : Past) (e : BusEvent) (a : BusAnswer) (n : ℕ) → got_in_all starts (Bus e a ∷ past) n ≡ got_in_all starts past n }
{}
