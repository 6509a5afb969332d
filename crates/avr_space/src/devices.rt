//! The devices: memory, ports, timers, SPI and USART, and the count of cycles.
ghost use Rattle.std.specs.Prelude.{◌≡◌, ◌+◌, ◌<◌, ◌≤◌, ◌^◌, slice_set};
ghost use Rattle.avr_core.specs.Ask.{Plays};
ghost use Rattle.avr_space.specs.Devices.{reset_devices, handled, or_stop, same, look_row, select_row, drive_by, drive_row, exchange_row, serial_row, spdr_row, timers_row, with_byte, with_int, stored_row, write_io_row, write_row, read_io, read_at, write_bit_io_row, write_bit_row, pending, served, passed};
ghost use Rattle.avr_space.specs.Owners.{owner_of};
ghost use Rattle.avr_space.specs.Quiet.{IsQuietUntil, PrintsNoneUntil};
ghost use Rattle.avr_space.specs.Registers.{reset_memory};
ghost use Rattle.avr_timer.specs.Laws.{IsHeld};

use crate::bus::BusPeer;
use crate::owner::{Owner, owner_of};
use crate::stored::stop_of_stored;
use avr_core::{DataEnd, Memory};
use avr_ports::Ports;
use avr_serial::Serial;
use avr_sheet::{DeviceStop, with_bit};
use avr_timer::Timers;

/// Data address of SPDR.
const SPDR: u16 = 0x4E;

/// Data address of MCUSR, which notes a power-on reset.
const MCUSR: u16 = 0x54;

/// The first data address of SRAM.
const SRAM: u16 = 0x0100;

/// All of the data space that the core does not hold itself, and the count of cycles that have passed.
///
/// Reads and writes happen at that count. Those that reach the bus are told to a peer.
#[derive(Drop)]
pub struct Devices {
    /// Cycles since reset.
    pub cycles: u64,
    /// SRAM and stored registers.
    pub memory: Memory,
    /// Ports, pins and external interrupts.
    pub ports: Ports,
    /// Timers 0 to 2.
    pub timers: Timers,
    /// SPI and USART.
    pub serial: Serial,
}

impl Devices {
    /// The devices after reset.
    pub fn new() -> Self
        ensures { result ≡ reset_devices }
    {
        Devices {
            cycles: 0,
            memory: reset_memory(),
            ports: Ports::new(),
            timers: Timers::new(),
            serial: Serial::new(),
        }
    }

    /// Reads a byte at a data address.
    #[tactic(auto, unfolding(crate::specs::Devices::read_at))]
    pub fn read(&mut self, addr: u16) -> u8
        ensures { handled result self.new ≡ read_at addr self.old }
    {
        if addr >= SRAM {
            self.memory.get(addr)
        } else {
            self.read_io(addr, owner_of(addr))
        }
    }

    fn read_io(&mut self, addr: u16, owner: Owner) -> u8
        ensures { handled result self.new ≡ read_io owner addr self.old }
    {
        match owner {
            Owner::Ports => self.ports.read(addr),
            Owner::Timers => self.timers.read(addr),
            Owner::Serial => self.serial.read(addr),
            Owner::Stored => self.memory.get(addr),
            Owner::Nobody => 0,
        }
    }

    /// Writes a byte at a data address. A write of SPDR may exchange a byte with the peer, and one of a port may change
    /// the select line; INTn is looked at after either.
    ///
    /// # Errors
    /// `BusOver` exactly where the peer says so. A stop exactly where the device's rules say so; the write is then not
    /// made, and nothing was asked.
    #[tactic(auto, unfolding(crate::specs::Devices::write_row))]
    pub fn write<B: BusPeer>(&mut self, addr: u16, v: u8, peer: &mut B) -> Result<(), DataEnd>
        ensures { Plays B.did peer.old (write_row addr v self.old) (handled result self.new) peer.new }
    {
        if addr >= SRAM {
            self.memory.set(addr, v);
            Ok(())
        } else {
            self.write_io(addr, owner_of(addr), v, peer)
        }
    }

    fn write_io<B: BusPeer>(
        &mut self,
        addr: u16,
        owner: Owner,
        v: u8,
        peer: &mut B,
    ) -> Result<(), DataEnd>
        ensures { Plays B.did peer.old (write_io_row owner addr v self.old) (handled result self.new) peer.new }
    {
        match owner {
            Owner::Ports => {
                let mut ports = self.ports;
                ports.write(addr, v);
                self.drive(ports, peer)
            }
            Owner::Timers => self.write_timers(addr, v),
            Owner::Serial => {
                if addr == SPDR {
                    self.write_spdr(v, peer)
                } else {
                    self.write_serial(addr, v)
                }
            }
            Owner::Stored => self.write_stored(addr, v),
            Owner::Nobody => Ok(()),
        }
    }

    /// Sets or clears one bit, 0 to 7, of an I/O place, 0 to 31.
    ///
    /// # Errors
    /// As `write`.
    #[tactic(auto, unfolding(crate::specs::Devices::write_bit_row))]
    pub fn write_bit<B: BusPeer>(
        &mut self,
        io: u8,
        bit: u8,
        set: bool,
        peer: &mut B,
    ) -> Result<(), DataEnd>
        ensures { Plays B.did peer.old (write_bit_row io bit set self.old) (handled result self.new) peer.new }
    {
        if io < 32 && bit < 8 {
            self.write_bit_io(io, owner_of(32 + u16::from(io)), bit, set, peer)
        } else {
            Ok(())
        }
    }

    fn write_bit_io<B: BusPeer>(
        &mut self,
        io: u8,
        owner: Owner,
        bit: u8,
        set: bool,
        peer: &mut B,
    ) -> Result<(), DataEnd>
        requires place { io < 32 }
        requires bit { bit < 8 }
        ensures { Plays B.did peer.old (write_bit_io_row owner io bit set self.old) (handled result self.new) peer.new }
    {
        let addr = 32 + u16::from(io);
        match owner {
            Owner::Ports => {
                let mut ports = self.ports;
                ports.write_bit(io, bit, set);
                self.drive(ports, peer)
            }
            Owner::Timers => {
                if set {
                    self.write_timers(addr, 1 << bit)
                } else {
                    Ok(())
                }
            }
            Owner::Stored => {
                let before = self.memory.get(addr);
                self.write_stored(addr, with_bit(before, bit, set))
            }
            Owner::Serial => Ok(()),
            Owner::Nobody => Ok(()),
        }
    }

    /// The ports go to another state.
    #[tactic(auto, unfolding(crate::specs::Devices::drive_row))]
    fn drive<B: BusPeer>(&mut self, ports: Ports, peer: &mut B) -> Result<(), DataEnd>
        ensures { Plays B.did peer.old (drive_row ports self.old) (handled result self.new) peer.new }
    {
        let low = ports.select_low();
        let stays = same(self.ports.select_low(), low);
        self.drive_by(stays, low, ports, peer)
    }

    /// The ports go to another state, whose select line is at this level and stays there or not (apart, since the definition is
    /// by these two values).
    fn drive_by<B: BusPeer>(
        &mut self,
        stays: bool,
        low: bool,
        ports: Ports,
        peer: &mut B,
    ) -> Result<(), DataEnd>
        ensures { Plays B.did peer.old (drive_by stays low ports self.old) (handled result self.new) peer.new }
    {
        if stays {
            self.ports = ports;
            Ok(())
        } else {
            self.select(low, ports, peer)
        }
    }

    /// The ports go to a state with another level of the select line.
    fn select<B: BusPeer>(&mut self, low: bool, ports: Ports, peer: &mut B) -> Result<(), DataEnd>
        ensures { Plays B.did peer.old (select_row low ports self.old) (handled result self.new) peer.new }
    {
        match peer.select(low) {
            Err(_) => Err(DataEnd::BusOver),
            Ok(()) => {
                self.ports = ports;
                self.look(peer)
            }
        }
    }

    /// Looks at INTn.
    #[tactic(auto, unfolding(crate::specs::Devices::look_row))]
    fn look<B: BusPeer>(&mut self, peer: &mut B) -> Result<(), DataEnd>
        ensures { Plays B.did peer.old (look_row self.old) (handled result self.new) peer.new }
    {
        match peer.look() {
            Err(_) => Err(DataEnd::BusOver),
            Ok(high) => {
                self.int_level(high);
                Ok(())
            }
        }
    }

    /// INTn is at this level, and drives PD2.
    pub fn int_level(&mut self, high: bool)
        ensures { self.new ≡ with_int high self.old }
    {
        self.ports.int_level(high);
    }

    #[tactic(auto, unfolding(crate::specs::Devices::spdr_row))]
    fn write_spdr<B: BusPeer>(&mut self, v: u8, peer: &mut B) -> Result<(), DataEnd>
        ensures { Plays B.did peer.old (spdr_row v self.old) (handled result self.new) peer.new }
    {
        match self.serial.spi_start(v) {
            Err(stop) => Err(DataEnd::Stop(stop)),
            Ok(None) => self.write_serial(SPDR, v),
            Ok(Some(mosi)) => self.exchange(mosi, peer),
        }
    }

    /// A byte goes out over the SPI, and another comes back.
    fn exchange<B: BusPeer>(&mut self, mosi: u8, peer: &mut B) -> Result<(), DataEnd>
        ensures { Plays B.did peer.old (exchange_row mosi self.old) (handled result self.new) peer.new }
    {
        match peer.byte(mosi) {
            Err(_) => Err(DataEnd::BusOver),
            Ok(miso) => {
                self.serial.spi_got(self.cycles, miso);
                self.look(peer)
            }
        }
    }

    fn write_serial(&mut self, addr: u16, v: u8) -> Result<(), DataEnd>
        ensures { handled result self.new ≡ serial_row addr v self.old }
    {
        or_stop(self.serial.write(addr, v))
    }

    fn write_timers(&mut self, addr: u16, v: u8) -> Result<(), DataEnd>
        ensures { handled result self.new ≡ timers_row addr v self.old }
    {
        or_stop(self.timers.write(addr, v))
    }

    fn write_stored(&mut self, addr: u16, v: u8) -> Result<(), DataEnd>
        ensures { handled result self.new ≡ stored_row addr v self.old }
    {
        match stop_of_stored(addr, v) {
            Some(stop) => Err(DataEnd::Stop(stop)),
            None => {
                self.memory.set(addr, v);
                Ok(())
            }
        }
    }

    /// The pending interrupt, by the word address of its vector: the lowest that is enabled and requested. `None`
    /// exactly where there is none.
    #[tactic(auto, unfolding(crate::specs::Devices::pending))]
    pub fn pending(&self) -> Option<u8>
        ensures { result ≡ pending self.now }
    {
        match self.ports.pending() {
            Some(vector) => Some(vector),
            None => match self.timers.pending() {
                Some(vector) => Some(vector),
                None => self.serial.pending(),
            },
        }
    }

    /// The count of cycles before which nothing is requested: that of the next event of a device, or 0 where something is
    /// requested now.
    pub fn quiet_until(&self) -> u64
        ensures { IsQuietUntil self.now result }
    {
        match self.pending() {
            Some(_) => 0,
            None => self
                .timers
                .quiet_until(self.cycles)
                .min(self.serial.next_event()),
        }
    }

    /// The count of cycles before which no byte enters the USART's shifter: that of the next event of the serial devices.
    pub fn printed_at(&self) -> u64
        ensures { PrintsNoneUntil self.now result }
    {
        self.serial.next_event()
    }

    /// The timers hold what fits in them: a fact for proofs, and nothing to run.
    #[inline(always)]
    pub fn fits(&self)
        ensures { IsHeld self.now.timers }
    {
        self.timers.fits();
    }

    /// Clears the flag of a vector that is served.
    #[tactic(auto, unfolding(crate::specs::Devices::served))]
    pub fn served(&mut self, vector: u8)
        ensures cycles { self.new.cycles ≡ self.old.cycles }
        ensures devices { self.new ≡ served vector self.old }
    {
        self.ports.served(vector);
        self.timers.served(vector);
        self.serial.served(vector);
    }

    /// So many cycles go by.
    #[tactic(auto, unfolding(crate::specs::Devices::passed))]
    pub fn pass(&mut self, cycles: u64)
        requires { self.old.cycles + cycles < 2 ^ 64 }
        ensures { self.new ≡ passed cycles self.old }
    {
        let to = self.cycles + cycles;
        self.timers.pass(self.cycles, to);
        self.serial.pass(self.cycles, to);
        self.cycles = to;
    }
}

/// The memory after reset: MCUSR is 01, and all else is 00.
fn reset_memory() -> Memory
    ensures { result ≡ reset_memory }
{
    let mut memory = Memory::new();
    memory.set(MCUSR, 1);
    memory
}

/// Whether two levels are one (apart: the definition's word for `==`).
fn same(a: bool, b: bool) -> bool
    ensures { result ≡ same a b }
{
    if a { b } else { !b }
}

/// A device's answer, as the core gets it.
fn or_stop(answer: Result<(), DeviceStop>) -> Result<(), DataEnd>
    ensures { result ≡ or_stop answer }
{
    match answer {
        Ok(()) => Ok(()),
        Err(stop) => Err(DataEnd::Stop(stop)),
    }
}
