//! The last instructions that were started.
ghost use Rattle.std.specs.Prelude.{◌≡◌, [], IfOk, slice_get};
ghost use Rattle.avr_mcu.specs.State.{noted};
ghost use Rattle.avr_mcu.specs.Stretch.{noted_all};

use circular_buffer::HeapCircularBuffer;
use std::alloc::{AllocError, Global};
use std::marker::Model;

/// How many addresses are kept.
const LENGTH: usize = 16;

/// The word addresses of the last 16 instructions that were started; contracts see the list of them, from the oldest.
#[derive(Drop)]
pub struct Trail {
    addresses: HeapCircularBuffer<u16>,
}

impl Model for Trail {
    ghost use Rattle.std.specs.Prelude.{◌≡◌, List, ℕ};

    ghost Value = { List ℕ };

    ghost view = { λ trail. trail.addresses.items };

    ghost invariant = { λ trail. trail.addresses.capacity ≡ 16 };
}

impl Trail {
    /// No address. The error says that no memory was left.
    pub fn new(alloc: Global) -> Result<Self, AllocError>
        ensures { IfOk result (λ trail. trail ≡ []) }
    {
        Ok(Trail {
            addresses: HeapCircularBuffer::with_capacity(alloc, LENGTH)?,
        })
    }

    /// One more instruction is started. Takes no memory.
    #[tactic(auto, unfolding(crate::specs::State::noted))]
    pub fn note(&mut self, address: u16)
        ensures { self.new ≡ noted self.old address }
    {
        self.addresses.push_back(address);
    }

    /// These instructions are started, in their order. Takes no memory, and pushes no more than are kept.
    pub fn note_all(&mut self, addresses: &[u16])
        ensures { self.new ≡ noted_all self.old addresses.now }
    {
        let from = addresses.len().saturating_sub(LENGTH);
        self.note_each(&addresses[from..]);
    }

    /// Each of these instructions is started (apart: a loop over all that it is given).
    fn note_each(&mut self, addresses: &[u16])
        ensures { self.new ≡ noted_all self.old addresses.now }
    {
        for at in addresses {
            self.note(*at);
        }
    }

    /// The address with this index, from the oldest; `None` exactly past the last one.
    pub fn get(&self, index: u8) -> Option<u16>
        ensures { result ≡ slice_get self.now index }
    {
        self.addresses.get(index as usize).copied()
    }
}
