//! Where the parts of the eight sockets lie in a memory.

ghost use Rattle.std.specs.Prelude.{◌≡◌, ◌≤◌, ◌<◌, ◌+◌, ◌-◌, ◌*◌, ◌%◌, ℕ, length, slice_index};
ghost use Rattle.chip_sheet.specs.Sizes as sheet;
ghost use Rattle.ring_mem.specs.Parts.{IsSize, sum_below};

/// Where the parts lie: one behind the other, in the order of the sockets.
#[derive(Clone, Copy)]
pub struct Layout {
    /// The sizes in kilobytes, as they were set.
    pub kilobytes: [u8; 8],
    /// Where each part begins, 0 to 16,384.
    pub starts: [u16; 8],
    /// The sizes in bytes, all 0 while they are not valid.
    pub sizes: [u16; 8],
    ghost meant: { (n : ℕ) → n < 8 → slice_index sizes n ≡ sheet.size_among kilobytes n },
    ghost sums: { (n : ℕ) → n < 8 → slice_index starts n ≡ sum_below sizes n },
    ghost total: { sum_below sizes 8 ≤ 16384 },
    ghost sized: { (n : ℕ) → IsSize (slice_index sizes n) },
}

/// How far a place is past another one, in a buffer of this size. Both are pointers of 16 bits; the size is a power of 2.
pub fn distance(size: u16, from: u16, to: u16) -> u16
    requires some { 0 < size }
    requires sized { IsSize size }
    ensures { result ≡ (to % size + size - from % size) % size }
{
    to.wrapping_sub(from) & (size - 1)
}

/// Whether a buffer can have this size, in kilobytes.
fn is_kilobytes(k: u8) -> bool
    ensures { result ≡ sheet.is_size k }
{
    k == 0 || k == 1 || k == 2 || k == 4 || k == 8 || k == 16
}

/// Whether each of the sizes is one that a buffer can have.
fn all_sizes(ks: &[u8]) -> bool
    ensures { result ≡ sheet.all_sizes ks.now }
{
    match ks {
        [] => true,
        [k, more @ ..] => is_kilobytes(*k) && all_sizes(more),
    }
}

/// The sum of at most eight sizes in kilobytes.
fn total(ks: &[u8]) -> u32
    requires { length ks.now ≤ 8 }
    ensures sum { result ≡ sheet.total ks.now }
    ensures small { result ≤ 255 * length ks.now }
{
    match ks {
        [] => 0,
        [k, more @ ..] => u32::from(*k) + total(more),
    }
}

/// Whether the eight sizes of a direction fit its memory of 16 KB.
pub fn are_valid(ks: &[u8; 8]) -> bool
    ensures { result ≡ sheet.are_valid ks.now }
{
    all_sizes(ks) && total(ks) <= 16
}

/// The sizes in bytes.
fn sizes_of(kilobytes: &[u8; 8]) -> [u16; 8]
    ensures sizes { (n : ℕ) → n < 8 → slice_index result n ≡ sheet.size_among kilobytes.now n }
    ensures total { sum_below result 8 ≤ 16384 }
    ensures sized { (n : ℕ) → IsSize (slice_index result n) }
{
    let mut sizes = [0; 8];
    if are_valid(kilobytes) {
        for n in 0..8 {
            sizes[n] = u16::from(kilobytes[n]) * 1024;
        }
    }
    sizes
}

/// Where each part begins.
fn starts_of(sizes: &[u16; 8]) -> [u16; 8]
    requires { sum_below sizes.now 8 ≤ 16384 }
    ensures { (n : ℕ) → n < 8 → slice_index result n ≡ sum_below sizes.now n }
{
    let mut starts = [0; 8];
    let mut next = 0;
    for n in 0..8 {
        starts[n] = next;
        next += sizes[n];
    }
    starts
}

impl Layout {
    /// The parts for these sizes; parts of no byte where they are not valid.
    pub fn new(kilobytes: [u8; 8]) -> Layout
        ensures { result.kilobytes ≡ kilobytes }
    {
        let sizes = sizes_of(&kilobytes);
        let starts = starts_of(&sizes);
        Layout {
            kilobytes,
            starts,
            sizes,
        }
    }

    /// The place of a pointer in a socket's part. A size is a power of 2, so a mask does what `%` would.
    pub fn place(&self, sn: u8, at: u16) -> usize
        requires sn { sn < 8 }
        requires some { 0 < slice_index self.now.sizes sn }
        ensures value { result ≡ slice_index self.now.starts sn + at % slice_index self.now.sizes sn }
        ensures within { result < 16384 }
    {
        let mask = self.sizes[sn as usize] - 1;
        self.starts[sn as usize] as usize + (at & mask) as usize
    }
}
