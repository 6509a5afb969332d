//! Records, one a line.
ghost use Rattle.std.specs.Prelude.{◌≡◌, ◌+◌, ◌*◌, ◌<◌, ◌≤◌, ◌^◌, length, sum, false, OnOk, IfOk, IfErr, IsTrue};
ghost use Rattle.ihex.specs.Digits.{bytes_of};
ghost use Rattle.flash.specs.Image.{erased};
ghost use Rattle.ihex.specs.Flash.{placed, written};
ghost use Rattle.ihex.specs.Record.{first_kind, record_faults, digit_faults, fault_of, at_start, below, below_record, line_data, record_data, count_fits, count_of, address_of, type_of, value_of, data_of, is_outside};
ghost use Rattle.ihex.specs.Reading.{above_of};

use crate::digits::{are_digits, read_bytes};
use crate::fault::HexKind;
use flash::Image;
use std::alloc::{AllocError, Global};

/// The image so far, and what the lines so far leave for the next one.
#[derive(Debug, Drop)]
pub struct Reader {
    /// Flash with the data bytes so far.
    pub image: Image,
    /// The place of address 0.
    pub base: u32,
    /// The end record was there.
    pub ended: bool,
}

/// The sum of at most 260 bytes.
pub fn sum_of(bytes: &[u8]) -> u32
    requires { length bytes.now ≤ 260 }
    ensures total { result ≡ sum bytes.now }
    ensures small { result ≤ 255 * length bytes.now }
{
    let mut total = 0u32;
    for b in bytes {
        total += u32::from(*b);
    }
    total
}

// The count fits the type.
#[tactic(auto, unfolding(crate::specs::Record::count_fits))]
fn count_fits(kind: u8, count: u8) -> bool
    ensures { result ≡ count_fits kind count }
{
    if kind == 1 {
        count == 0
    } else if kind == 2 || kind == 4 {
        count == 2
    } else if kind == 3 || kind == 5 {
        count == 4
    } else {
        true
    }
}

// Whether one of these bytes from `at` on stands outside flash.
#[tactic(auto, using(crate::proofs::Flash::outside_yes, crate::proofs::Flash::outside_no, crate::proofs::Flash::outside_none))]
fn is_outside(at: u64, payload: &[u8]) -> bool
    requires { at < 2 ^ 33 }
    ensures { result ≡ is_outside (placed at payload.now) }
{
    !payload.is_empty() && at + payload.len() as u64 > 32768
}

// Writes bytes from `at` on.
#[tactic(auto, using(crate::proofs::Flash::written_more, crate::proofs::Flash::written_all))]
fn write(image: &mut Image, at: u64, payload: &[u8])
    requires { 0 < length payload.now → at + length payload.now ≤ 32768 }
    ensures { image.new ≡ written image.old (placed at payload.now) }
{
    for (i, b) in payload.iter().enumerate() {
        image.set((at + i as u64) as u16, *b);
    }
}

// The place of the first data byte of a record.
fn place_of(base: u32, bytes: &[u8]) -> u64
    requires { 5 ≤ length bytes.now }
    ensures place { result ≡ base + address_of bytes.now }
    ensures small { result < 2 ^ 33 }
{
    u64::from(base) + 256 * u64::from(bytes[1]) + u64::from(bytes[2])
}

// The data bytes of a record.
fn payload(bytes: &[u8]) -> &[u8]
    requires { length bytes.now ≡ count_of bytes.now + 5 }
    ensures { result.now ≡ data_of bytes.now }
{
    &bytes[4..4 + bytes[0] as usize]
}

// A data record puts a byte outside flash.
#[tactic(auto, unfolding(crate::specs::Record::record_data))]
fn leaves_flash(base: u32, bytes: &[u8]) -> bool
    requires { length bytes.now ≡ count_of bytes.now + 5 }
    ensures { result ≡ is_outside (record_data base bytes.now) }
{
    bytes[3] == 0 && is_outside(place_of(base, bytes), payload(bytes))
}

// The first fault of a record under a base.
fn check(base: u32, bytes: &[u8]) -> Result<(), HexKind>
    requires { length bytes.now ≤ 260 }
    ensures fault { IfErr result (λ kind. first_kind (record_faults base bytes.now) ≡ Some kind) }
    ensures none { OnOk result (first_kind (record_faults base bytes.now) ≡ None) }
    ensures long { OnOk result (length bytes.now ≡ count_of bytes.now + 5) }
    ensures fits { OnOk result (IsTrue (count_fits (type_of bytes.now) (count_of bytes.now))) }
    ensures inside { OnOk result (is_outside (record_data base bytes.now) ≡ false) }
{
    if bytes.is_empty() || bytes.len() != bytes[0] as usize + 5 {
        return Err(HexKind::BadLength);
    }
    if sum_of(bytes) % 256 != 0 {
        return Err(HexKind::BadSum);
    }
    if bytes[3] > 5 {
        return Err(HexKind::BadType);
    }
    if !count_fits(bytes[3], bytes[0]) {
        return Err(HexKind::BadLength);
    }
    if leaves_flash(base, bytes) {
        return Err(HexKind::OutOfFlash);
    }
    Ok(())
}

// The two data bytes of a base record.
fn value(bytes: &[u8]) -> u32
    requires { 7 ≤ length bytes.now }
    ensures value { result ≡ value_of bytes.now }
    ensures small { result < 65536 }
{
    256 * u32::from(bytes[4]) + u32::from(bytes[5])
}

impl Reader {
    /// Above the first line: erased flash.
    pub fn new(alloc: Global) -> Result<Self, AllocError>
        ensures image { IfOk result (λ reader. reader.image ≡ erased) }
        ensures above { IfOk result (λ reader. above_of reader ≡ at_start) }
    {
        Ok(Reader {
            image: Image::blank(alloc)?,
            base: 0,
            ended: false,
        })
    }

    // Does what a record without fault says.
    #[tactic(auto, unfolding(crate::specs::Record::below_record, crate::specs::Record::record_data, crate::specs::Record::count_fits))]
    fn apply(&mut self, bytes: &[u8])
        requires long { length bytes.now ≡ count_of bytes.now + 5 }
        requires fits { IsTrue (count_fits (type_of bytes.now) (count_of bytes.now)) }
        requires inside { is_outside (record_data self.old.base bytes.now) ≡ false }
        ensures above { above_of self.new ≡ below_record (above_of self.old) bytes.now }
        ensures image { self.new.image ≡ written self.old.image (record_data self.old.base bytes.now) }
    {
        match bytes[3] {
            0 => write(&mut self.image, place_of(self.base, bytes), payload(bytes)),
            1 => self.ended = true,
            2 => self.base = 16 * value(bytes),
            4 => self.base = 65536 * value(bytes),
            _ => {}
        }
    }

    // Checks a record and does what it says.
    fn take(&mut self, bytes: &[u8]) -> Result<(), HexKind>
        requires { length bytes.now ≤ 260 }
        ensures fault { IfErr result (λ kind. first_kind (record_faults self.old.base bytes.now) ≡ Some kind) }
        ensures none { OnOk result (first_kind (record_faults self.old.base bytes.now) ≡ None) }
        ensures above { OnOk result (above_of self.new ≡ below_record (above_of self.old) bytes.now) }
        ensures image { OnOk result (self.new.image ≡ written self.old.image (record_data self.old.base bytes.now)) }
    {
        check(self.base, bytes)?;
        self.apply(bytes);
        Ok(())
    }

    // Reads what stands behind a colon.
    fn read_digits(&mut self, digits: &[u8]) -> Result<(), HexKind>
        ensures fault { IfErr result (λ kind. first_kind (digit_faults self.old.base digits.now) ≡ Some kind) }
        ensures none { OnOk result (first_kind (digit_faults self.old.base digits.now) ≡ None) }
        ensures above { OnOk result (above_of self.new ≡ below_record (above_of self.old) (bytes_of digits.now)) }
        ensures image { OnOk result (self.new.image ≡ written self.old.image (record_data self.old.base (bytes_of digits.now))) }
    {
        if !are_digits(digits) {
            return Err(HexKind::BadDigit);
        }
        if digits.len() % 2 != 0 {
            return Err(HexKind::BadLength);
        }
        if digits.len() > 520 {
            return Err(HexKind::BadLength);
        }
        let mut bytes = [0; 260];
        let record = &mut bytes[..digits.len() / 2];
        read_bytes(digits, record);
        self.take(record)
    }

    /// Reads a line. After an error the reader is not used again.
    #[tactic(auto, unfolding(crate::specs::Record::fault_of, crate::specs::Record::below, crate::specs::Record::line_data))]
    pub fn read(&mut self, line: &[u8]) -> Result<(), HexKind>
        ensures fault { IfErr result (λ kind. fault_of (above_of self.old) line.now ≡ Some kind) }
        ensures none { OnOk result (fault_of (above_of self.old) line.now ≡ None) }
        ensures above { OnOk result (above_of self.new ≡ below (above_of self.old) line.now) }
        ensures image { OnOk result (self.new.image ≡ written self.old.image (line_data (above_of self.old) line.now)) }
    {
        if line.is_empty() {
            return Ok(());
        }
        if self.ended {
            return Err(HexKind::AfterEnd);
        }
        if line[0] != b':' {
            return Err(HexKind::BadStart);
        }
        self.read_digits(&line[1..])
    }
}
