//! The image: every byte of flash.
ghost use Rattle.std.specs.Prelude.{◌≡◌, ◌<◌, vec_len, length, slice_index, slice_set, IfOk};
ghost use Rattle.flash.specs.Image.{filled, erased, word_at};

use std::alloc::{AllocError, Global};
use std::marker::Model;

/// The flash of an ATmega328P: 32,768 bytes (datasheet, "In-System Reprogrammable Flash Program Memory"), from address 0.
///
/// Contracts see an image as the list of its bytes.
#[derive(Debug, Drop)]
pub struct Image {
    bytes: Vec<u8>,
}

impl Model for Image {
    ghost use Rattle.std.specs.Prelude.{◌≡◌, List, ℕ, length};

    ghost Value = { List ℕ };

    ghost view = { λ image. image.bytes.items };

    ghost invariant = { λ image. length image.bytes.items ≡ 32768 };
}

/// So many copies of a byte (apart, so that its clauses and not the list itself go on to the callers).
#[tactic(auto, unfolding(crate::specs::Image::filled))]
fn filled(alloc: Global, len: usize, byte: u8) -> Result<Vec<u8>, AllocError>
    ensures items { IfOk result (λ bytes. bytes.items ≡ filled len byte) }
    ensures len { IfOk result (λ bytes. vec_len bytes ≡ len) }
{
    vec![in alloc; byte; len]
}

impl Image {
    /// Bytes in an image.
    const SIZE: usize = 32768;

    /// Erased flash: every byte is FF.
    ///
    /// # Errors
    ///
    /// No memory was left.
    pub fn blank(alloc: Global) -> Result<Self, AllocError>
        ensures { IfOk result (λ image. image ≡ erased) }
    {
        let bytes = filled(alloc, Self::SIZE, 0xFF)?;
        Ok(Image { bytes })
    }

    /// The byte at `at`, which is below 32,768.
    #[inline]
    pub fn byte(&self, at: u16) -> u8
        requires { at < 32768 }
        ensures { result ≡ slice_index self.now at }
    {
        self.bytes[at as usize]
    }

    /// All 32,768 bytes, from address 0.
    pub fn bytes(&self) -> &[u8]
        ensures value { result.now ≡ self.now }
        ensures len { length result.now ≡ 32768 }
    {
        &self.bytes
    }

    /// The program word at the word address `at`, which is below 16,384; its low byte stands first.
    #[inline]
    pub fn word(&self, at: u16) -> u16
        requires { at < 16384 }
        ensures { result ≡ word_at self.now at }
    {
        u16::from(self.byte(2 * at)) + 256 * u16::from(self.byte(2 * at + 1))
    }

    /// Changes the byte at `at`, which is below 32,768, and no other. Takes no memory.
    pub fn set(&mut self, at: u16, v: u8)
        requires { at < 32768 }
        ensures { self.new ≡ slice_set self.old at v }
    {
        self.bytes[at as usize] = v;
    }
}
