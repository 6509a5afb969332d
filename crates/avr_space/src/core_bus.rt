//! The core over its devices and the bus.
ghost use Rattle.std.specs.Prelude.{◌≡◌};
ghost use Rattle.avr_core.specs.Ask.{Plays};
ghost use Rattle.avr_core.specs.Meaning.{meaning, interrupted};
ghost use Rattle.avr_core.specs.Settled.{IsSettled};
ghost use Rattle.avr_space.specs.Devices.{handled};
ghost use Rattle.avr_space.specs.Through.{through};

use crate::bus::BusPeer;
use crate::devices::Devices;
use avr_core::{Code, Core, DataBus, DataEnd, Went};

/// The devices and the peer on the bus, lent to the core for one step.
#[derive(Drop)]
struct Lent<'a, B> {
    devices: &'a mut Devices,
    peer: &'a mut B,
}

impl<'a, B: BusPeer> DataBus for Lent<'a, B> {
    ghost use Rattle.std.specs.Prelude.{◌≡◌};
    ghost use Rattle.avr_core.specs.Ask.{Plays};
    ghost use Rattle.avr_space.specs.Devices.{device, handled};

    ghost did = { λ s c a t. Plays B.did s.peer.now (device c s.devices.now) (handled a t.devices.now) t.peer.now
        × (t.devices.ghost_name ≡ s.devices.ghost_name) × (t.peer.ghost_name ≡ s.peer.ghost_name) };

    fn read(&mut self, addr: u16) -> Result<u8, DataEnd> {
        Ok(self.devices.read(addr))
    }

    fn write(&mut self, addr: u16, v: u8) -> Result<(), DataEnd> {
        self.devices.write(addr, v, self.peer)
    }

    fn write_bit(&mut self, io: u8, bit: u8, set: bool) -> Result<(), DataEnd> {
        self.devices.write_bit(io, bit, set, self.peer)
    }
}

/// One instruction.
pub fn run_instruction<B: BusPeer>(
    core: &mut Core,
    code: &Code,
    devices: &mut Devices,
    peer: &mut B,
) -> Went
    ensures cycles { devices.new.cycles ≡ devices.old.cycles }
    ensures settled { IsSettled result core.old core.new }
    ensures plays { Plays B.did peer.old (through (meaning code.now core.old) devices.old) (handled (record { went = result; core = core.new }) devices.new) peer.new }
{
    let mut lent = Lent { devices, peer };
    core.run(code, &mut lent)
}

/// One interrupt entry.
pub fn run_entry<B: BusPeer>(
    core: &mut Core,
    vector: u8,
    devices: &mut Devices,
    peer: &mut B,
) -> Went
    ensures cycles { devices.new.cycles ≡ devices.old.cycles }
    ensures settled { IsSettled result core.old core.new }
    ensures plays { Plays B.did peer.old (through (interrupted vector core.old) devices.old) (handled (record { went = result; core = core.new }) devices.new) peer.new }
{
    let mut lent = Lent { devices, peer };
    core.interrupt(vector, &mut lent)
}
