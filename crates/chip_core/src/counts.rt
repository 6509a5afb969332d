//! What a socket sent and received in all of its lives, as the chip counts it.
ghost use Rattle.std.specs.Prelude.{◌≡◌, ◌≢◌, ◌<◌, ◌^◌, ℕ, slice_index_or};
ghost use Rattle.chip_sheet.specs.Past.{link_entry};
ghost use Rattle.chip_sheet.specs.Streams.{taken_by};
ghost use Rattle.chip_core.specs.declared.counts.Counts.{Counts};
ghost use Rattle.chip_core.specs.Counting.{SmallCounts, with_sent, with_link};

use chip_sheet::event::LinkWhat;

/// The counts of one socket, each over all of its lives.
#[derive(Clone, Copy, Debug, PartialEq, Eq)]
pub struct Counts {
    /// How many bytes were passed to SEND.
    pub sent: u128,
    /// How many bytes the link took.
    pub taken: u128,
    /// How many bytes were put into the RX buffer.
    pub got: u128,
}

/// How many bytes the link took by an event.
pub fn taken_by(e: &LinkWhat<'_>) -> u32
    ensures { result ≡ taken_by (link_entry e.now) }
{
    match e {
        LinkWhat::Took(count) => *count,
        _ => 0,
    }
}

/// So many more bytes of a socket were passed to SEND.
pub fn add_sent(counts: &mut [Counts; 8], sn: u8, sent: u32)
    requires sn { sn < 8 }
    requires few { SmallCounts counts.old }
    ensures own { (other : Counts) → slice_index_or counts.new sn other ≡ with_sent (slice_index_or counts.old sn other) sent }
    ensures others { (n : ℕ) (other : Counts) → n ≢ sn → slice_index_or counts.new n other ≡ slice_index_or counts.old n other }
{
    counts[sn as usize].sent += u128::from(sent);
}

/// The link took so many more bytes of a socket, and so many came into its RX buffer.
pub fn add_link(counts: &mut [Counts; 8], sn: u8, taken: u32, got: usize)
    requires sn { sn < 8 }
    requires few { SmallCounts counts.old }
    ensures own { (other : Counts) → slice_index_or counts.new sn other ≡ with_link (slice_index_or counts.old sn other) taken got }
    ensures others { (n : ℕ) (other : Counts) → n ≢ sn → slice_index_or counts.new n other ≡ slice_index_or counts.old n other }
{
    let counts = &mut counts[sn as usize];
    counts.taken += u128::from(taken);
    counts.got += got as u128;
}
