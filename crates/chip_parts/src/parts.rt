//! The parts of the chip that its accesses and its link events reach.
ghost use Rattle.std.specs.Prelude.{◌≡◌, ◌≢◌, ◌<◌, ◌^◌, slice_index_or, IfOk, IfErr, OnOk, Some, [], ◌∷◌};
ghost use Rattle.chip_sheet.specs.declared.event.Entry.TheVariants.{Bus};
ghost use Rattle.chip_sheet.specs.Past.{Past};
ghost use Rattle.chip_sheet.specs.Names.{sn_cr, send_command, recv_command};
ghost use Rattle.sock_cmd.specs.declared.life.Life.{Life};
ghost use Rattle.sock_cmd.specs.Lives.{life_of};
ghost use Rattle.chip_sheet.specs.Streams.{Starts};
ghost use Rattle.chip_sheet.specs.Legal.{Legal};
ghost use Rattle.chip_sheet.specs.Sending.{Sending};
ghost use Rattle.chip_sheet.specs.Receiving.{Receiving};
ghost use Rattle.ring_mem.specs.Buffers.{TxHolds, RxHolds, OthersSend, OthersReceive, tx_kilobytes, rx_kilobytes};
ghost use Rattle.chip_parts.specs.Settling.{settled, got_settled};
ghost use Rattle.chip_sheet.specs.Stops.{stop};
ghost use Rattle.chip_sheet.specs.Answers as sheet;
ghost use Rattle.chip_sheet.specs.Blocks.{block_of, registers_of, tx_buffer_of};
ghost use Rattle.chip_sheet.specs.Interrupts.{interrupt_low};
ghost use Rattle.chip_sheet.specs.SocketBlock.{socket_register};

use chip_sheet::stop::ChipStop;
use common_regs::registers::CommonRegs;
use irq_lines::lines;
use ring_mem::rings::Rings;
use sock_cmd::command::{CmdAt, Effect};
use sock_cmd::life::Life;
use sock_regs::registers::SockRegs;
use std::alloc::{AllocError, Global};

/// Sn_CR.
pub(crate) const COMMAND: u16 = 0x01;

/// Sn_SR.
const STATUS: u16 = 0x03;

/// IR, IMR and SIMR.
const IR: u16 = 0x15;

const IMR: u16 = 0x16;

const SIMR: u16 = 0x18;

/// Makes of the buffers of a socket what a command's effect makes of them, where it is no SEND and no RECV.
pub(crate) fn settle(rings: &mut Rings, sn: u8, effect: Effect)
    requires { sn < 8 }
    ensures tx { (s : Sending) → TxHolds rings.old sn s → TxHolds rings.new sn (settled effect s) }
    ensures rx { (g : Receiving) → RxHolds rings.old sn g → RxHolds rings.new sn (got_settled effect g) }
    ensures others { OthersSend rings.old rings.new sn }
    ensures rx_others { OthersReceive rings.old rings.new sn }
    ensures sizes { (tx_kilobytes rings.new ≡ tx_kilobytes rings.old) × (rx_kilobytes rings.new ≡ rx_kilobytes rings.old) }
{
    match effect {
        Effect::Opened => rings.begin(sn, 0, 0),
        Effect::Closed => rings.empty(sn),
        Effect::Nothing
        | Effect::Listen
        | Effect::Connect
        | Effect::Discon
        | Effect::Send
        | Effect::Recv => {}
    }
}

/// The parts. The crates that make the chip of them reach each for itself.
#[derive(Drop)]
pub struct Parts {
    /// The common register block.
    pub common: CommonRegs,
    /// The registers of each socket, but for those that its life and its buffers answer.
    pub registers: [SockRegs; 8],
    /// The life of each socket.
    pub lives: [Life; 8],
    /// The buffers of all sockets.
    pub rings: Rings,
    /// What SIR reads.
    pub sir: u8,
    /// Where the positions of what a connection sends begin.
    pub tx_start: u16,
    /// Where the positions of what a connection receives begin.
    pub rx_start: u16,
}

impl Parts {
    ghost use Rattle.chip_parts.specs.Holding.{Holds, Found};
    ghost use Rattle.chip_steps.specs.Steps.{KeepsTxSizes, KeepsRxSizes};
    ghost use Rattle.chip_parts.specs.Writing.{AtByte, AtLegalByte, Goes, Refuses, RefusesLegal, StepsRegisters};

    /// The parts after power-on.
    ///
    /// # Errors
    ///
    /// `AllocError`, which may come at any time.
    pub fn new(alloc: Global, tx_start: u16, rx_start: u16) -> Result<Parts, AllocError>
        ensures { IfOk result (λ parts. Holds (record { tx = tx_start; rx = rx_start }) parts []) }
    {
        let rings = Rings::new(alloc)?;
        Ok(Parts {
            common: CommonRegs::new(),
            registers: [SockRegs::new(); 8],
            lives: [Life::new(); 8],
            rings,
            sir: 0,
            tx_start,
            rx_start,
        })
    }

    /// What an address of the register block of a socket reads.
    fn read_register(&self, sn: u8, addr: u16) -> u8
        requires { sn < 8 }
        ensures { (starts : Starts) (past : Past) → Holds starts self.now past → result ≡ socket_register starts past sn addr }
    {
        if let Some(byte) = self.registers[sn as usize].read(addr) {
            byte
        } else if addr == STATUS {
            self.lives[sn as usize].status()
        } else {
            self.rings.pointer(sn, addr)
        }
    }

    /// What an address of the block with these select bits reads. A reserved block is not read.
    pub fn read(&self, bits: u8, addr: u16) -> u8
        requires { bits < 32 }
        ensures { (starts : Starts) (past : Past) → Legal starts past → Holds starts self.now past → result ≡ sheet.byte_at starts past (block_of bits) addr }
    {
        let sn = bits / 4;
        let kind = bits % 4;
        if bits == 0 {
            self.common.read(addr, self.sir)
        } else if kind == 1 {
            self.read_register(sn, addr)
        } else if kind == 2 {
            self.rings.tx_read(sn, addr)
        } else if kind == 3 {
            self.rings.rx_read(sn, addr)
        } else {
            0
        }
    }

    /// Whether INTn is low.
    pub fn int_low(&self) -> bool
        ensures { (starts : Starts) (past : Past) → Holds starts self.now past → result ≡ interrupt_low starts past }
    {
        let ir = self.common.read(IR, self.sir);
        let imr = self.common.read(IMR, self.sir);
        let simr = self.common.read(SIMR, self.sir);
        lines::int_low(ir, imr, self.sir, simr)
    }

    /// Writes a byte to the registers of a socket, raises these bits of Sn_IR, and renews the socket's bit of SIR.
    pub(crate) fn step_registers(&mut self, sn: u8, addr: u16, v: u8, bits: u8)
        requires { sn < 8 }
        ensures shows { StepsRegisters self.old sn addr v bits self.new }
        ensures same { self.new ≡ record self.old { registers = self.new.registers; sir = self.new.sir } }
    {
        let registers = &mut self.registers[sn as usize];
        registers.write(addr, v);
        registers.raise(bits);
        let ir = registers.interrupts();
        let imr = registers.mask();
        self.sir = lines::sir_with(self.sir, sn, ir, imr);
    }

    /// Writes a byte of the register block of a socket that is neither a command nor another size of a buffer.
    pub(crate) fn write_plain(&mut self, sn: u8, addr: u16, v: u8)
        requires { sn < 8 }
        ensures { AtByte self.old (registers_of sn) addr v (λ starts past e a. addr ≢ sn_cr → KeepsTxSizes past (Bus e a) → KeepsRxSizes past (Bus e a)
            → Holds starts self.new (Bus e a ∷ past)) }
    {
        self.rings.set_pointer(sn, addr, v);
        self.step_registers(sn, addr, v, 0);
    }

    /// Writes a byte of the TX buffer of a socket.
    ///
    /// # Errors
    ///
    /// `OverwriteInFlight` exactly where the place holds a byte in flight; nothing has then changed.
    pub(crate) fn write_tx(&mut self, sn: u8, addr: u16, v: u8) -> Result<(), ChipStop>
        requires { sn < 8 }
        ensures ok { OnOk result (AtLegalByte self.old (tx_buffer_of sn) addr v (Goes self.new)) }
        ensures err { IfErr result (λ s. (self.new ≡ self.old) × RefusesLegal self.old (tx_buffer_of sn) addr v s) }
    {
        self.rings.tx_write(sn, addr, v)
    }

    /// What a command to a socket finds in its registers.
    pub(crate) fn command_at(&self, sn: u8) -> CmdAt
        requires { sn < 8 }
        ensures { (starts : Starts) (past : Past) → Holds starts self.now past → Found past sn result }
    {
        let registers = &self.registers[sn as usize];
        CmdAt {
            sn,
            mr: registers.mode(),
            port: registers.port(),
            to: registers.destination(),
            sizes_valid: self.rings.sizes_valid(),
        }
    }

    /// Takes a command that is no SEND and no RECV, which stand in functions of their own.
    ///
    /// # Errors
    ///
    /// The stop of the command exactly where it has one; nothing has then changed.
    pub(crate) fn command(&mut self, sn: u8, v: u8) -> Result<(), ChipStop>
        requires sn { sn < 8 }
        requires no_send { v ≢ send_command }
        requires no_recv { v ≢ recv_command }
        requires few { (other : Life) → (life_of (slice_index_or self.old.lives sn other)).lives < 2 ^ 60 }
        ensures ok { OnOk result (AtByte self.old (registers_of sn) sn_cr v (Goes self.new)) }
        ensures err { IfErr result (λ s. (self.new ≡ self.old) × Refuses self.old (registers_of sn) sn_cr v s) }
    {
        let at = self.command_at(sn);
        match self.lives[sn as usize].command(v, at) {
            Err(stop) => Err(stop),
            Ok(effect) => {
                settle(&mut self.rings, sn, effect);
                self.step_registers(sn, COMMAND, v, 0);
                Ok(())
            }
        }
    }
}
