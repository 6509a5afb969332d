//! The fields of a word, one function for each form in which the opcodes hold one.
ghost use Rattle.std.specs.Prelude.{◌≡◌, ◌<◌, ◌≤◌, ◌%◌, negsuc, pos, ◌≤ℤ◌};
ghost use Rattle.avr_table.specs.Nest.{destination_of, source_of, upper_destination_of, upper_source_of, middle_destination_of, middle_source_of, pair_destination_of, pair_source_of, wide_pair_of, constant_of, small_constant_of, displacement_of, low_place_of, place_of, bit_of, flag_of, target_of, near_of, branch_of};

// `ddddd` at bits 8 to 4.
pub(crate) fn destination(word: u16) -> u8
    ensures is { result ≡ destination_of word }
    ensures in_range { result < 32 }
{
    (word / 16 % 32) as u8
}

// `r....rrrr`, bit 9 and bits 3 to 0.
pub(crate) fn source(word: u16) -> u8
    ensures is { result ≡ source_of word }
    ensures in_range { result < 32 }
{
    (word / 512 % 2 * 16 + word % 16) as u8
}

// `dddd` at bits 7 to 4, for r16 to r31.
pub(crate) fn upper_destination(word: u16) -> u8
    ensures is { result ≡ upper_destination_of word }
    ensures from { 16 ≤ result }
    ensures in_range { result < 32 }
{
    (16 + word / 16 % 16) as u8
}

// `rrrr` at bits 3 to 0, for r16 to r31.
pub(crate) fn upper_source(word: u16) -> u8
    ensures is { result ≡ upper_source_of word }
    ensures from { 16 ≤ result }
    ensures in_range { result < 32 }
{
    (16 + word % 16) as u8
}

// `ddd` at bits 6 to 4, for r16 to r23.
pub(crate) fn middle_destination(word: u16) -> u8
    ensures is { result ≡ middle_destination_of word }
    ensures from { 16 ≤ result }
    ensures in_range { result < 24 }
{
    (16 + word / 16 % 8) as u8
}

// `rrr` at bits 2 to 0, for r16 to r23.
pub(crate) fn middle_source(word: u16) -> u8
    ensures is { result ≡ middle_source_of word }
    ensures from { 16 ≤ result }
    ensures in_range { result < 24 }
{
    (16 + word % 8) as u8
}

// `dddd` at bits 7 to 4, for the pairs r1:r0 to r31:r30.
pub(crate) fn pair_destination(word: u16) -> u8
    ensures is { result ≡ pair_destination_of word }
    ensures in_range { result < 32 }
    ensures even { result % 2 ≡ 0 }
{
    (word / 16 % 16 * 2) as u8
}

// `rrrr` at bits 3 to 0, for the pairs r1:r0 to r31:r30.
pub(crate) fn pair_source(word: u16) -> u8
    ensures is { result ≡ pair_source_of word }
    ensures in_range { result < 32 }
    ensures even { result % 2 ≡ 0 }
{
    (word % 16 * 2) as u8
}

// `dd` at bits 5 and 4, for the pairs r25:r24 to r31:r30.
pub(crate) fn wide_pair(word: u16) -> u8
    ensures is { result ≡ wide_pair_of word }
    ensures from { 24 ≤ result }
    ensures in_range { result < 32 }
    ensures even { result % 2 ≡ 0 }
{
    (24 + word / 16 % 4 * 2) as u8
}

// `KKKK....KKKK`, bits 11 to 8 and 3 to 0.
pub(crate) fn constant(word: u16) -> u8
    ensures is { result ≡ constant_of word }
    ensures in_range { result < 256 }
{
    (word / 256 % 16 * 16 + word % 16) as u8
}

// `KK..KKKK`, bits 7, 6 and 3 to 0.
pub(crate) fn small_constant(word: u16) -> u8
    ensures is { result ≡ small_constant_of word }
    ensures in_range { result < 64 }
{
    (word / 64 % 4 * 16 + word % 16) as u8
}

// `q.qq.......qqq`, bits 13, 11, 10 and 2 to 0.
pub(crate) fn displacement(word: u16) -> u8
    ensures is { result ≡ displacement_of word }
    ensures in_range { result < 64 }
{
    (word / 8192 % 2 * 32 + word / 1024 % 4 * 8 + word % 8) as u8
}

// `AAAAA` at bits 7 to 3, for the I/O places 0 to 31.
pub(crate) fn low_place(word: u16) -> u8
    ensures is { result ≡ low_place_of word }
    ensures in_range { result < 32 }
{
    (word / 8 % 32) as u8
}

// `AA.....AAAA`, bits 10, 9 and 3 to 0, for the I/O places 0 to 63.
pub(crate) fn place(word: u16) -> u8
    ensures is { result ≡ place_of word }
    ensures in_range { result < 64 }
{
    (word / 512 % 4 * 16 + word % 16) as u8
}

// `bbb` or `sss` at bits 2 to 0.
pub(crate) fn bit(word: u16) -> u8
    ensures is { result ≡ bit_of word }
    ensures in_range { result < 8 }
{
    (word % 8) as u8
}

// `sss` at bits 6 to 4.
pub(crate) fn flag(word: u16) -> u8
    ensures is { result ≡ flag_of word }
    ensures in_range { result < 8 }
{
    (word / 16 % 8) as u8
}

// `kkkkk...k`, bits 8 to 4 and 0, over the 16 bits of the next word.
pub(crate) fn target(word: u16, next: u16) -> u32
    ensures is { result ≡ target_of word next }
    ensures in_range { result < 4194304 }
{
    65536 * u32::from(word / 16 % 32 * 2 + word % 2) + u32::from(next)
}

// `kkkkkkkkkkkk` at bits 11 to 0, signed.
pub(crate) fn near(word: u16) -> i16
    ensures is { result ≡ near_of word }
    ensures from { negsuc 2047 ≤ℤ result }
    ensures in_range { result ≤ℤ pos 2047 }
{
    let bits = word % 4096;
    if bits < 2048 {
        bits as i16
    } else {
        bits as i16 - 4096
    }
}

// `kkkkkkk` at bits 9 to 3, signed.
pub(crate) fn branch(word: u16) -> i16
    ensures is { result ≡ branch_of word }
    ensures from { negsuc 63 ≤ℤ result }
    ensures in_range { result ≤ℤ pos 63 }
{
    let bits = word / 8 % 128;
    if bits < 64 {
        bits as i16
    } else {
        bits as i16 - 128
    }
}
