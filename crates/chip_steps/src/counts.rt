//! Laws of counts over all lives of a socket, and of SENDOK, each the contract of an empty function.
ghost use Rattle.std.specs.Prelude.{◌≡◌, ◌≤◌, ◌<◌, ◌↔◌, ◌⊎◌, ℕ, ◌*◌, length, true};
ghost use Rattle.chip_sheet.specs.declared.event.Entry.{Entry};
ghost use Rattle.chip_sheet.specs.declared.socket.Interrupt.TheVariants.{SendOk};
ghost use Rattle.chip_sheet.specs.Past.{Past};
ghost use Rattle.chip_sheet.specs.Life.{status, lives};
ghost use Rattle.chip_sheet.specs.Streams.{Starts, sent, taken};
ghost use Rattle.chip_sheet.specs.Interrupts.{raised_by};
ghost use Rattle.chip_sheet.specs.Connections.{sent_in_all, taken_in_all, got_in_all};
ghost use Rattle.chip_sheet.specs.Legal.{Legal};
ghost use Rattle.chip_steps.specs.Steps.{SendsNothing, ReachesAnEnd};

/// In a legal history each entry adds at most 16,384 bytes to what was sent in all lives of a socket, and at most 1,480 to what
/// was received; and no more was taken than sent.
pub fn counts_over_lives()
    ensures sent { (starts : Starts) (past : Past) (n : ℕ) → n < 8 → Legal starts past → sent_in_all starts past n ≤ 16384 * length past }
    ensures got { (starts : Starts) (past : Past) (n : ℕ) → Legal starts past → got_in_all starts past n ≤ 1480 * length past }
    ensures taken { (starts : Starts) (past : Past) (n : ℕ) → Legal starts past → taken_in_all past n ≤ sent_in_all starts past n }
{}

/// SENDOK rises exactly at a SEND of no bytes in a status that takes it, and where the taken count reaches or passes the end of a
/// SEND.
pub fn sendok_exactly()
    ensures { (starts : Starts) (past : Past) (n : ℕ) (entry : Entry) → (raised_by starts past n SendOk entry ≡ true)
        ↔ (SendsNothing starts past entry n ⊎ ReachesAnEnd starts past entry n) }
{}
