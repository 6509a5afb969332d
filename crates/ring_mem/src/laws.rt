//! What holds of the buffers of all eight sockets, without a call.

ghost use Rattle.std.specs.Prelude.{◌≡◌, ◌≢◌, ◌≤◌, ◌<◌, ◌+◌, ◌*◌, ◌%◌, ◌==◌, ℕ, List, length, slice_index, if◌then◌else◌};
ghost use Rattle.chip_sheet.specs.Sending.{Sending};
ghost use Rattle.chip_sheet.specs.Receiving.{Receiving, room_length};
ghost use Rattle.ring_mem.specs.declared.rings.Rings.{Rings};
ghost use Rattle.ring_mem.specs.Parts.{IsSize, sum_below};
ghost use Rattle.ring_mem.specs.Buffers.{tx_memory, rx_memory, tx_sizes, rx_sizes, tx_start, rx_start, TxHolds, RxHolds, room_len, room_bytes, with_room};

/// Each memory has 16,384 bytes; socket n's part of it begins at the sum of the sizes of the sockets below n, and the eight
/// parts fit.
pub fn parts_follow_one_another()
    ensures lengths { (r : Rings) → (length (tx_memory r) ≡ 16384) × (length (rx_memory r) ≡ 16384) }
    ensures tx_starts { (r : Rings) (n : ℕ) → n < 8 → tx_start r n ≡ sum_below (tx_sizes r) n }
    ensures rx_starts { (r : Rings) (n : ℕ) → n < 8 → rx_start r n ≡ sum_below (rx_sizes r) n }
    ensures fit { (r : Rings) → (sum_below (tx_sizes r) 8 ≤ 16384) × (sum_below (rx_sizes r) 8 ≤ 16384) }
{}

/// A pointer and the position that it shows name one place of a buffer.
pub fn same_place()
    ensures { (size at : ℕ) → IsSize size → 0 < size → at % 65536 % size ≡ at % size }
{}

/// A write into the room of one socket leaves what every socket stands for, and the room then has what was written.
pub fn lent_room()
    ensures length { (r : Rings) (n : ℕ) (g : Receiving) → RxHolds r n g → room_len r n ≡ room_length g }
    ensures rx { (r : Rings) (n m : ℕ) (g : Receiving) (w : List ℕ) → n < 8 → m < 8 → RxHolds r m g → length w ≡ room_len r n → RxHolds (with_room r n w) m g }
    ensures tx { (r : Rings) (n m : ℕ) (s : Sending) (w : List ℕ) → TxHolds r m s → TxHolds (with_room r n w) m s }
    ensures bytes { (r : Rings) (n : ℕ) (w : List ℕ) → n < 8 → length w ≡ room_len r n → room_bytes (with_room r n w) n ≡ w }
{}

/// Eight sockets at once: where a call changes the lists of one and the others stand, all eight stand for the lists with that
/// one changed.
pub fn one_of_eight_changes()
    ensures tx { (old new : Rings) (ss : ℕ → Sending) (sn : ℕ) (s : Sending) → TxHolds new sn s
        → ((n : ℕ) (t : Sending) → n < 8 → n ≢ sn → TxHolds old n t → TxHolds new n t)
        → ((n : ℕ) → n < 8 → TxHolds old n (ss n)) → (n : ℕ) → n < 8 → TxHolds new n (if n == sn then s else ss n) }
    ensures rx { (old new : Rings) (gs : ℕ → Receiving) (sn : ℕ) (g : Receiving) → RxHolds new sn g
        → ((n : ℕ) (t : Receiving) → n < 8 → n ≢ sn → RxHolds old n t → RxHolds new n t)
        → ((n : ℕ) → n < 8 → RxHolds old n (gs n)) → (n : ℕ) → n < 8 → RxHolds new n (if n == sn then g else gs n) }
{}
