//! Single bits of a byte.
ghost use Rattle.std.specs.Prelude.{◌≡◌, ◌<◌, ◌≤◌};
ghost use Rattle.avr_sheet.specs.Bits.{is_set, weighed, with_bit};

/// Whether bit `bit`, 0 to 7, of a byte is 1.
#[inline(always)]
pub fn is_set(byte: u8, bit: u8) -> bool
    requires { bit < 8 }
    ensures { result ≡ is_set byte bit }
{
    byte >> bit & 1 == 1
}

/// The byte with bit `bit`, 0 to 7, as given and its other bits as they were.
#[inline(always)]
pub fn with_bit(byte: u8, bit: u8, set: bool) -> u8
    requires { bit < 8 }
    ensures { result ≡ with_bit byte bit set }
{
    let mask = 1 << bit;
    if set { byte | mask } else { byte & !mask }
}

/// What a bit adds to the byte in which it has this weight: the weight where it is 1, else 0.
#[inline(always)]
pub fn weighed(set: bool, weight: u8) -> u8
    ensures value { result ≡ weighed set weight }
    ensures bound { result ≤ weight }
{
    if set { weight } else { 0 }
}
