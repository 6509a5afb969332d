//! The SPI and the USART transmitter together.
ghost use Rattle.std.specs.Prelude.{◌≡◌, ◌≤◌};

use crate::register::{Register, register_at};
use crate::spi::Spi;
use crate::usart::Usart;
use avr_sheet::{DeviceStop, is_set};
use std::marker::Model;

/// The word address of the vector of SPI.
const SPI_VECTOR: u8 = 0x22;

/// The word address of the vector of the USART's empty data register.
const UDRE_VECTOR: u8 = 0x26;

/// The word address of the vector of the USART's complete transmission.
const TX_VECTOR: u8 = 0x28;

/// The SPI and the USART transmitter of an ATmega328P.
///
/// Addresses are data addresses: a place of the I/O space stands at its number plus 20 hexadecimal. A vector is
/// named by its word address in flash. Reads and writes happen at the cycle count that was passed last, 0 at the
/// start. Nothing here takes memory.
///
/// A write of SPDR is made in two parts, since the byte goes to the chip between them: `spi_start` says what goes
/// out, and then either `spi_got` takes the answer, or `write` does the rest where nothing went out.
#[derive(Clone, Copy)]
pub struct Serial {
    cycle: u64,
    spi: Spi,
    usart: Usart,
}

impl Model for Serial {
    ghost use Rattle.avr_serial.specs.Serial.{SerialState};

    ghost Value = { SerialState };

    ghost view = { λ s. record { cycle = s.cycle; spi = s.spi; usart = s.usart } };

    ghost inverse = { λ v. record { cycle = v.cycle; spi = v.spi; usart = v.usart } };
}

impl Default for Serial {
    ghost use Rattle.avr_serial.specs.Serial.{reset_state};

    ghost is_default = { λ s. s ≡ reset_state };

    fn default() -> Self {
        Serial::new()
    }
}

impl Serial {
    ghost use Rattle.avr_serial.specs.Serial.{exchanged, next_event, StaysUntil, passed, pending_vector, read_state, read_value, register_answer, register_read, register_value, register_written, reset_state, served_state, taken, write_answer, written};
    ghost use Rattle.avr_serial.specs.Spi.{start_answer};

    /// The part after reset: UCSR0A reads 20, UCSR0C is 06, all other registers are 00, and nothing is on its way.
    pub fn new() -> Serial
        ensures { result ≡ reset_state }
    {
        Serial {
            cycle: 0,
            spi: Spi::new(),
            usart: Usart::new(),
        }
    }

    /// Reads the register at a data address, 00 where none stands. A reading of SPSR with SPIF set is remembered,
    /// and the next touch of SPDR then clears SPIF and WCOL. There is no receiver, so UDR0 reads 00.
    pub fn read(&mut self, addr: u16) -> u8
        ensures value { result ≡ read_value self.old addr }
        ensures state { self.new ≡ read_state self.old addr }
    {
        match register_at(addr) {
            Some(register) => {
                let value = self.value(register);
                self.note_read(register);
                value
            }
            None => 0,
        }
    }

    /// Writes a byte to the register at a data address; nothing happens where none stands.
    ///
    /// # Errors
    /// `SpiMode` exactly where a write of SPDR would begin a transfer and CPOL is unlike CPHA. `UsartMode` exactly
    /// where a write of UDR0 is taken (TXEN and UDRE set) and the frame format is not asynchronous with eight data
    /// bits. All is then as it was.
    pub fn write(&mut self, addr: u16, v: u8) -> Result<(), DeviceStop>
        ensures answer { result ≡ write_answer self.old addr v }
        ensures state { self.new ≡ written self.old addr v }
    {
        match register_at(addr) {
            Some(register) => self.write_register(register, v),
            None => Ok(()),
        }
    }

    /// The cycles from one count to another go by.
    #[inline]
    pub fn pass(&mut self, from: u64, to: u64)
        requires { from ≤ to }
        ensures { self.new ≡ passed self.old to }
    {
        prove!(from <= to);
        self.cycle = to;
        self.spi.pass(to);
        self.usart.pass(to);
    }

    /// The next event: the cycle count at which the transfer or the frame on its way ends, the earlier where both are, and
    /// `u64::MAX` where nothing is on its way. Until then nothing changes but the count of cycles: no request comes, and no
    /// waiting byte enters the shifter.
    #[inline]
    pub fn next_event(&self) -> u64
        ensures value { result ≡ next_event self.now }
        ensures stays { StaysUntil self.now result }
    {
        self.spi.end().min(self.usart.end())
    }

    /// The pending interrupt, by the word address of its vector: the lowest of those that are enabled and
    /// requested. `None` exactly where there is none.
    #[inline]
    pub fn pending(&self) -> Option<u8>
        ensures { result ≡ pending_vector self.now }
    {
        if is_set(self.spi.spcr, 7) && self.spi.spif {
            Some(SPI_VECTOR)
        } else if is_set(self.usart.ucsr0b, 5) && self.usart.waiting.is_none() {
            Some(UDRE_VECTOR)
        } else if is_set(self.usart.ucsr0b, 6) && self.usart.txc {
            Some(TX_VECTOR)
        } else {
            None
        }
    }

    /// Clears the flag of a vector that is served. UDRE stays, and so does all at a vector that is not of these.
    pub fn served(&mut self, vector: u8)
        ensures { self.new ≡ served_state self.old vector }
    {
        match vector {
            SPI_VECTOR => self.spi.spif = false,
            TX_VECTOR => self.usart.txc = false,
            _ => {}
        }
    }

    /// The byte that a write of `v` to SPDR puts on the line now, bit 7 first: reversed where DORD is set. `None`
    /// exactly where no exchange starts: a transfer is running, or SPE or MSTR is clear.
    ///
    /// # Errors
    /// `SpiMode` exactly where an exchange would start and CPOL is unlike CPHA.
    pub fn spi_start(&self, v: u8) -> Result<Option<u8>, DeviceStop>
        ensures { result ≡ start_answer self.now.spi v }
    {
        self.spi.start(v)
    }

    /// The exchange that a write of SPDR started at the cycle count `at` gave this byte. The transfer ends eight
    /// periods of SCK later.
    pub fn spi_got(&mut self, at: u64, miso: u8)
        ensures { self.new ≡ exchanged self.old at miso }
    {
        self.spi.begin(at, miso);
    }

    /// Takes the byte that entered the USART's shifter since the last call, the last where there was more than
    /// one. `None` exactly where none did.
    #[inline]
    pub fn printed(&mut self) -> Option<u8>
        ensures value { result ≡ self.old.usart.printed }
        ensures state { self.new ≡ taken self.old }
    {
        self.usart.printed.take()
    }

    fn value(&self, register: Register) -> u8
        ensures { result ≡ register_value self.now register }
    {
        match register {
            Register::Spcr => self.spi.spcr,
            Register::Spsr => self.spi.spsr(),
            Register::Spdr => self.spi.spdr,
            Register::Ucsr0a => self.usart.ucsr0a(),
            Register::Ucsr0b => self.usart.ucsr0b,
            Register::Ucsr0c => self.usart.ucsr0c,
            Register::Ubrr0Low => (self.usart.ubrr0 % 256) as u8,
            Register::Ubrr0High => (self.usart.ubrr0 / 256) as u8,
            Register::Udr0 => 0,
        }
    }

    fn note_read(&mut self, register: Register)
        ensures { self.new ≡ register_read self.old register }
    {
        match register {
            Register::Spsr => self.spi.read_spsr(),
            Register::Spdr => self.spi.touch(),
            _ => {}
        }
    }

    fn write_register(&mut self, register: Register, v: u8) -> Result<(), DeviceStop>
        ensures answer { result ≡ register_answer self.old register v }
        ensures state { self.new ≡ register_written self.old register v }
    {
        match register {
            Register::Spcr => self.spi.spcr = v,
            Register::Spsr => self.spi.spi2x = is_set(v, 0),
            Register::Spdr => return self.write_spdr(v),
            Register::Ucsr0a => self.usart.write_ucsr0a(v),
            Register::Ucsr0b => self.usart.ucsr0b = v,
            Register::Ucsr0c => self.usart.ucsr0c = v,
            Register::Ubrr0Low => self.usart.ubrr0 = self.usart.ubrr0 / 256 * 256 + u16::from(v),
            Register::Ubrr0High => self.usart.ubrr0 = 256 * u16::from(v) + self.usart.ubrr0 % 256,
            Register::Udr0 => return self.usart.write_udr0(self.cycle, v),
        }
        Ok(())
    }

    fn write_spdr(&mut self, v: u8) -> Result<(), DeviceStop>
        ensures answer { result ≡ register_answer self.old Register.Spdr v }
        ensures state { self.new ≡ register_written self.old Register.Spdr v }
    {
        match self.spi.start(v) {
            Err(stop) => Err(stop),
            Ok(_) => {
                self.spi.write_spdr(v);
                Ok(())
            }
        }
    }
}
