//! The ports by their registers, and what they ask for.
ghost use Rattle.std.specs.Prelude.{◌≡◌, ◌<◌, ◌^◌};
ghost use Rattle.avr_ports.specs.Ports.{reset_state, port_of, with_port};
ghost use Rattle.avr_ports.specs.Levels.{pins, level, is_pin_changed, with_edges, int0_sense, int1_sense, is_select_low};
ghost use Rattle.avr_ports.specs.Requests.{is_requested, pending_vector, served_state};
ghost use Rattle.avr_ports.specs.Writes.{register_value, written_register, written_register_bit, read_value, written, written_bit, driven, with_change_flags_cleared, with_external_flags_cleared, toggled};

use crate::external::{External, Sense, is_edge, is_low_level, sense_of};
use crate::port::{Port, PortName};
use crate::register::{Register, io_register, register_at};
use avr_sheet::{is_set, with_bit};
use std::marker::Model;

/// The word address of the vector of INT0.
const INT0: u8 = 0x02;

/// The word address of the vector of INT1.
const INT1: u8 = 0x04;

/// The word address of the vector of PCINT0, which port B raises.
const PCINT0: u8 = 0x06;

/// The word address of the vector of PCINT1, which port C raises.
const PCINT1: u8 = 0x08;

/// The word address of the vector of PCINT2, which port D raises.
const PCINT2: u8 = 0x0A;

/// The ports of an ATmega328P, with their pins and interrupts.
///
/// Addresses are data addresses: a place of the I/O space stands at its number plus 20 hexadecimal. A vector is
/// named by its word address in flash. Nothing here takes memory or stops the part.
#[derive(Clone, Copy)]
pub struct Ports {
    int_high: bool,
    pcicr: u8,
    b: Port,
    c: Port,
    d: Port,
    external: External,
}

impl Model for Ports {
    ghost use Rattle.avr_ports.specs.Ports.{PortsState};

    ghost Value = { PortsState };

    ghost view = { λ s. record { int_high = s.int_high; pcicr = s.pcicr; b = s.b; c = s.c; d = s.d; external = s.external } };

    ghost inverse = { λ v. record { int_high = v.int_high; pcicr = v.pcicr; b = v.b; c = v.c; d = v.d; external = v.external } };
}

impl Default for Ports {
    ghost use Rattle.std.specs.Prelude.{◌≡◌};
    ghost use Rattle.avr_ports.specs.Ports.{reset_state};

    ghost is_default = { λ s. s ≡ reset_state };

    fn default() -> Self {
        Ports::new()
    }
}

impl Ports {
    /// The ports after reset: all registers 00, no flag set, and the chip's interrupt line INTn high.
    pub fn new() -> Ports
        ensures { result ≡ reset_state }
    {
        let port = Port {
            ddr: 0,
            port: 0,
            pcmsk: 0,
            changed: false,
        };
        Ports {
            int_high: true,
            pcicr: 0,
            b: port,
            c: port,
            d: port,
            external: External {
                eicra: 0,
                eimsk: 0,
                int0_flag: false,
                int1_flag: false,
            },
        }
    }

    /// What the register at a data address reads; a reading changes nothing. PINx reads the pins' levels, and
    /// an address at which no register of the ports stands reads 00.
    pub fn read(&mut self, addr: u16) -> u8
        ensures value { result ≡ read_value self.old addr }
        ensures same { self.new ≡ self.old }
    {
        match register_at(addr) {
            Some(register) => self.value(register),
            None => 0,
        }
    }

    /// Writes a byte to the register at a data address. A 1 to a PIN bit toggles its PORT bit, a 1 to a bit of
    /// EIFR or PCIFR clears that flag, and all other registers are stored. Flags rise where the levels of pins
    /// change. At an address at which no register of the ports stands nothing happens.
    pub fn write(&mut self, addr: u16, v: u8)
        ensures { self.new ≡ written self.old addr v }
    {
        if let Some(register) = register_at(addr) {
            self.write_register(register, v);
        }
    }

    /// Writes one bit of an I/O place, as `sbi` (`set`) and `cbi` do, and no other bit of it: of a PIN place
    /// `sbi` toggles the PORT bit, of EIFR and PCIFR it clears the flag, and `cbi` does nothing there.
    /// `io` is the place as the instruction has it; at a place that is not the ports' nothing happens.
    pub fn write_bit(&mut self, io: u8, bit: u8, set: bool)
        requires { bit < 8 }
        ensures { self.new ≡ written_bit self.old io bit set }
    {
        if let Some(register) = io_register(io) {
            self.write_register_bit(register, bit, set);
        }
    }

    /// The pending interrupt, by the word address of its vector: the lowest of those that are enabled and
    /// requested. `None` exactly where there is none.
    #[inline]
    pub fn pending(&self) -> Option<u8>
        ensures { result ≡ pending_vector self.now }
    {
        if self.int0_requested() {
            Some(INT0)
        } else if self.int1_requested() {
            Some(INT1)
        } else if is_set(self.pcicr, 0) && self.b.changed {
            Some(PCINT0)
        } else if is_set(self.pcicr, 1) && self.c.changed {
            Some(PCINT1)
        } else if is_set(self.pcicr, 2) && self.d.changed {
            Some(PCINT2)
        } else {
            None
        }
    }

    /// Clears the flag of a vector that is served. A request of the low-level sense is the pin's level alone, so
    /// serving it changes nothing; and so does a vector that is not the ports'.
    pub fn served(&mut self, vector: u8)
        ensures { self.new ≡ served_state self.old vector }
    {
        match vector {
            INT0 => {
                if !is_low_level(self.int0_sense()) {
                    self.external.int0_flag = false;
                }
            }
            INT1 => {
                if !is_low_level(self.int1_sense()) {
                    self.external.int1_flag = false;
                }
            }
            PCINT0 => self.b.changed = false,
            PCINT1 => self.c.changed = false,
            PCINT2 => self.d.changed = false,
            _ => {}
        }
    }

    /// The chip's interrupt line INTn goes to a level. It drives PD2 where that is an input. Returns at once where the line
    /// stays.
    #[inline]
    pub fn int_level(&mut self, high: bool)
        ensures { self.new ≡ with_edges self.old (record self.old { int_high = high }) }
    {
        if high != self.int_high {
            let before = *self;
            self.int_high = high;
            self.raise_flags(&before);
        }
    }

    /// Whether the chip's select line SCSn is low: PB2 is an output and its PORT bit is 0.
    #[inline]
    pub fn select_low(&self) -> bool
        ensures { result ≡ is_select_low self.now }
    {
        is_set(self.b.ddr, 2) && !is_set(self.b.port, 2)
    }

    fn port(&self, name: PortName) -> Port
        ensures { result ≡ port_of self.now name }
    {
        match name {
            PortName::B => self.b,
            PortName::C => self.c,
            PortName::D => self.d,
        }
    }

    fn set_port(&mut self, name: PortName, port: Port)
        ensures { self.new ≡ with_port self.old name port }
    {
        match name {
            PortName::B => self.b = port,
            PortName::C => self.c = port,
            PortName::D => self.d = port,
        }
    }

    /// Replaces the registers of a port, and raises the flags that the change of levels makes.
    fn drive(&mut self, name: PortName, port: Port)
        ensures { self.new ≡ driven self.old name port }
    {
        let before = *self;
        self.set_port(name, port);
        self.raise_flags(&before);
    }

    /// Raises the flags of the edges and changes since the levels were those of `before`.
    fn raise_flags(&mut self, before: &Ports)
        ensures { self.new ≡ with_edges before.now self.old }
    {
        let int0 = is_edge(self.int0_sense(), before.pd2(), self.pd2());
        let int1 = is_edge(self.int1_sense(), before.pd3(), self.pd3());
        let b = self.is_changed_since(before, PortName::B);
        let c = self.is_changed_since(before, PortName::C);
        let d = self.is_changed_since(before, PortName::D);
        self.external.int0_flag |= int0;
        self.external.int1_flag |= int1;
        self.b.changed |= b;
        self.c.changed |= c;
        self.d.changed |= d;
    }

    fn is_changed_since(&self, before: &Ports, name: PortName) -> bool
        ensures { result ≡ is_pin_changed before.now self.now name }
    {
        (before.pins(name) ^ self.pins(name)) & self.port(name).pcmsk != 0
    }

    fn pd2(&self) -> bool
        ensures { result ≡ level self.now PortName.D 2 }
    {
        if is_set(self.d.ddr, 2) {
            is_set(self.d.port, 2)
        } else {
            self.int_high
        }
    }

    fn pd3(&self) -> bool
        ensures { result ≡ level self.now PortName.D 3 }
    {
        is_set(self.d.port, 3)
    }

    fn pins(&self, name: PortName) -> u8
        ensures { result ≡ pins self.now name }
    {
        let port = self.port(name).port;
        match name {
            PortName::B => port,
            PortName::C => port,
            PortName::D => with_bit(port, 2, self.pd2()),
        }
    }

    fn int0_sense(&self) -> Sense
        ensures { result ≡ int0_sense self.now }
    {
        sense_of(self.external.eicra % 4)
    }

    fn int1_sense(&self) -> Sense
        ensures { result ≡ int1_sense self.now }
    {
        sense_of(self.external.eicra / 4 % 4)
    }

    fn int0_requested(&self) -> bool
        ensures { result ≡ is_requested self.now INT0 }
    {
        let made = if is_low_level(self.int0_sense()) {
            !self.pd2()
        } else {
            self.external.int0_flag
        };
        is_set(self.external.eimsk, 0) && made
    }

    fn int1_requested(&self) -> bool
        ensures { result ≡ is_requested self.now INT1 }
    {
        let made = if is_low_level(self.int1_sense()) {
            !self.pd3()
        } else {
            self.external.int1_flag
        };
        is_set(self.external.eimsk, 1) && made
    }

    fn value(&self, register: Register) -> u8
        ensures { result ≡ register_value self.now register }
    {
        match register {
            Register::Pin(name) => self.pins(name),
            Register::Ddr(name) => self.port(name).ddr,
            Register::Port(name) => self.port(name).port,
            Register::ChangeMask(name) => self.port(name).pcmsk,
            Register::ChangeFlags => {
                u8::from(self.b.changed)
                    + 2 * u8::from(self.c.changed)
                    + 4 * u8::from(self.d.changed)
            }
            Register::ChangeControl => self.pcicr,
            Register::ExternalFlags => {
                u8::from(self.external.int0_flag) + 2 * u8::from(self.external.int1_flag)
            }
            Register::ExternalMask => self.external.eimsk,
            Register::ExternalControl => self.external.eicra,
        }
    }

    fn write_register(&mut self, register: Register, v: u8)
        ensures { self.new ≡ written_register self.old register v }
    {
        match register {
            Register::Pin(name) => {
                let mut port = self.port(name);
                port.port ^= v;
                self.drive(name, port);
            }
            Register::Ddr(name) => {
                let mut port = self.port(name);
                port.ddr = v;
                self.drive(name, port);
            }
            Register::Port(name) => {
                let mut port = self.port(name);
                port.port = v;
                self.drive(name, port);
            }
            Register::ChangeMask(name) => {
                let mut port = self.port(name);
                port.pcmsk = v;
                self.set_port(name, port);
            }
            Register::ChangeFlags => self.clear_change_flags(v),
            Register::ChangeControl => self.pcicr = v,
            Register::ExternalFlags => self.clear_external_flags(v),
            Register::ExternalMask => self.external.eimsk = v,
            Register::ExternalControl => self.external.eicra = v,
        }
    }

    fn write_register_bit(&mut self, register: Register, k: u8, set: bool)
        requires { k < 8 }
        ensures { self.new ≡ written_register_bit self.old register k set }
    {
        match register {
            Register::Pin(name) => {
                if set {
                    self.toggle(name, k);
                }
            }
            Register::ChangeFlags => {
                if set {
                    self.clear_change_flags(mask(k));
                }
            }
            Register::ExternalFlags => {
                if set {
                    self.clear_external_flags(mask(k));
                }
            }
            _ => self.write_register(register, with_bit(self.value(register), k, set)),
        }
    }

    fn toggle(&mut self, name: PortName, k: u8)
        requires { k < 8 }
        ensures { self.new ≡ toggled self.old name k }
    {
        let p = self.port(name);
        let port = with_bit(p.port, k, !is_set(p.port, k));
        self.drive(name, Port { port, ..p });
    }

    fn clear_change_flags(&mut self, ones: u8)
        ensures { self.new ≡ with_change_flags_cleared self.old ones }
    {
        self.b.changed = self.b.changed && !is_set(ones, 0);
        self.c.changed = self.c.changed && !is_set(ones, 1);
        self.d.changed = self.d.changed && !is_set(ones, 2);
    }

    fn clear_external_flags(&mut self, ones: u8)
        ensures { self.new ≡ with_external_flags_cleared self.old ones }
    {
        self.external.int0_flag = self.external.int0_flag && !is_set(ones, 0);
        self.external.int1_flag = self.external.int1_flag && !is_set(ones, 1);
    }
}

/// The byte whose one 1 is bit `k`.
fn mask(k: u8) -> u8
    requires { k < 8 }
    ensures { result ≡ 2 ^ k }
{
    1 << k
}
