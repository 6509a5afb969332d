//! The cells: 1,024 bytes.
ghost use Rattle.std.specs.Prelude.{◌≡◌, ◌<◌, vec_len, slice_index, slice_set, IfOk};
ghost use Rattle.avr_eeprom.specs.Cells.{filled, erased};

use std::alloc::{AllocError, Global};
use std::marker::Model;

/// The bytes of the EEPROM, from address 0. Contracts see them as a list.
#[derive(Drop)]
pub struct Cells {
    bytes: Vec<u8>,
}

impl Model for Cells {
    ghost use Rattle.std.specs.Prelude.{◌≡◌, List, ℕ, length};

    ghost Value = { List ℕ };

    ghost view = { λ cells. cells.bytes.items };

    ghost invariant = { λ cells. length cells.bytes.items ≡ 1024 };
}

/// So many copies of a byte (apart, so that its clauses and not the list itself go on to the callers).
#[tactic(auto, unfolding(crate::specs::Cells::filled))]
fn filled(alloc: Global, len: usize, byte: u8) -> Result<Vec<u8>, AllocError>
    ensures items { IfOk result (λ bytes. bytes.items ≡ filled len byte) }
    ensures len { IfOk result (λ bytes. vec_len bytes ≡ len) }
{
    vec![in alloc; byte; len]
}

impl Cells {
    /// How many cells there are.
    const COUNT: usize = 1024;

    /// Erased cells: each is FF.
    ///
    /// # Errors
    /// Out of memory.
    pub fn erased(alloc: Global) -> Result<Self, AllocError>
        ensures { IfOk result (λ cells. cells ≡ erased) }
    {
        let bytes = filled(alloc, Self::COUNT, 0xFF)?;
        Ok(Cells { bytes })
    }

    /// The byte of a cell.
    pub fn get(&self, at: u16) -> u8
        requires { at < 1024 }
        ensures { result ≡ slice_index self.now at }
    {
        self.bytes[at as usize]
    }

    /// Changes a cell, and no other.
    pub fn set(&mut self, at: u16, byte: u8)
        requires { at < 1024 }
        ensures { self.new ≡ slice_set self.old at byte }
    {
        self.bytes[at as usize] = byte;
    }
}
