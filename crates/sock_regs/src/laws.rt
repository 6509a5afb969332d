//! The steps of the registers are those of the datasheet's table over a history.

ghost use Rattle.std.specs.Prelude.{◌≡◌, ◌∷◌, [], ℕ, None};
ghost use Rattle.board_bus.specs.declared.event.BusAnswer.{BusAnswer};
ghost use Rattle.board_bus.specs.declared.event.BusEvent.{BusEvent};
ghost use Rattle.chip_sheet.specs.declared.event.Addr.{Addr};
ghost use Rattle.chip_sheet.specs.declared.event.Entry.{Entry};
ghost use Rattle.chip_sheet.specs.declared.event.Entry.TheVariants.{Bus, Link};
ghost use Rattle.chip_sheet.specs.declared.event.LinkEntry.TheVariants.{Accepted};
ghost use Rattle.chip_sheet.specs.declared.phase.Access.TheVariants.{Write};
ghost use Rattle.chip_sheet.specs.Past.{Past};
ghost use Rattle.chip_sheet.specs.Frames.{access};
ghost use Rattle.chip_sheet.specs.Names.{sn_mr, sn_ir, sn_imr};
ghost use Rattle.chip_sheet.specs.Blocks.{registers_of};
ghost use Rattle.chip_sheet.specs.Life.{mode};
ghost use Rattle.chip_sheet.specs.Sizes.{kilobytes, tx_sizes, rx_sizes};
ghost use Rattle.chip_sheet.specs.Peers.{destination, source_port};
ghost use Rattle.chip_sheet.specs.Streams.{Starts};
ghost use Rattle.chip_sheet.specs.Interrupts.{interrupt_register, mask};
ghost use Rattle.chip_sheet.specs.SocketBlock.{socket_register};
ghost use Rattle.sock_regs.specs.Following.{IsKept, IsReset, IsNoReset, NotToRegisters, FollowsBy, FollowsBits};
ghost use Rattle.sock_regs.specs.Places.{reset_value, after_write, after_peer, port_in, address_in, accepted_by};

/// Of the places for which the registers answer: at power-on and after a reset each reads its reset value; a write of a byte to
/// the socket's own block, an accepted peer and the raised interrupts make of the places what they make of them in a history,
/// and an entry that is none of these raises its interrupts alone.
pub fn follows_the_table()
    ensures fresh { (starts : Starts) (n at : ℕ) → IsKept at → reset_value at ≡ socket_register starts [] n at }
    ensures reset { (starts : Starts) (past : Past) (entry : Entry) (n at : ℕ) → IsReset past entry → IsKept at → reset_value at ≡ socket_register starts (entry ∷ past) n at }
    ensures write { (starts : Starts) (past : Past) (e : BusEvent) (a : BusAnswer) (n addr v at : ℕ) → access past e ≡ Write (registers_of n) addr v → IsKept at → FollowsBy starts past (Bus e a) n (after_write addr v) at }
    ensures accepted { (starts : Starts) (past : Past) (from : Addr) (n at : ℕ) → IsKept at → FollowsBy starts past (Link n (Accepted from)) n (after_peer from) at }
    ensures others { (starts : Starts) (past : Past) (entry : Entry) (n at : ℕ) → IsNoReset past entry → NotToRegisters past entry n → accepted_by n entry ≡ None → IsKept at → FollowsBits starts past entry n at }
{}

/// What the registers hold is what the other definitions say of it.
pub fn registers_by_name()
    ensures mode { (starts : Starts) (past : Past) (n : ℕ) → socket_register starts past n sn_mr ≡ mode past n }
    ensures interrupts { (starts : Starts) (past : Past) (n : ℕ) → socket_register starts past n sn_ir ≡ interrupt_register starts past n }
    ensures mask { (starts : Starts) (past : Past) (n : ℕ) → socket_register starts past n sn_imr ≡ mask past n }
    ensures tx { (starts : Starts) (past : Past) (n : ℕ) → socket_register starts past n tx_sizes ≡ kilobytes past tx_sizes n }
    ensures rx { (starts : Starts) (past : Past) (n : ℕ) → socket_register starts past n rx_sizes ≡ kilobytes past rx_sizes n }
    ensures port { (starts : Starts) (past : Past) (n : ℕ) → port_in (socket_register starts past n) ≡ source_port past n }
    ensures destination { (starts : Starts) (past : Past) (n : ℕ) → address_in (socket_register starts past n) ≡ destination past n }
{}
