//! The microcontroller: its steps, one at a time.
ghost use Rattle.std.specs.Prelude.{◌≡◌, ◌+◌, ◌<◌, ◌≤◌, ◌^◌, ◌||◌, true, false, IfOk, slice_get};
ghost use Rattle.avr_core.specs.Ask.{Plays};
ghost use Rattle.avr_mcu.specs.Settled.{IsKept, IsTimed};
ghost use Rattle.avr_mcu.specs.Stretch.{GoesOn};
ghost use Rattle.avr_space.specs.Quiet.{IsQuietUntil};
ghost use Rattle.avr_mcu.specs.Step.{counting, entered, entry, finished, gone, instruction, looking, passing, raises, request, sleeping, stepped};

use crate::stretch::{raises, stretch};
use crate::trail::Trail;
use crate::went::McuWent;
use avr_core::{Code, Core, Went};
use avr_sheet::is_set;
use avr_space::{BusPeer, Devices, run_entry, run_instruction};
use flash::Image;
use std::alloc::{AllocError, Global};
use std::marker::Model;

/// Data address of SMCR, whose bit 0 enables sleeping.
const SMCR: u16 = 0x53;

/// INTn is looked at after so many instructions and cycles asleep.
const LOOK_PERIOD: u8 = 64;

/// An ATmega328P with its firmware.
#[derive(Drop)]
pub struct Mcu {
    code: Code,
    core: Core,
    devices: Devices,
    asleep: bool,
    owed: bool,
    counted: u8,
    trail: Trail,
}

impl Model for Mcu {
    ghost use Rattle.avr_mcu.specs.State.{McuState};
    ghost use Rattle.std.specs.Prelude.{◌<◌};

    ghost Value = { McuState };

    ghost view = { λ m. record { flash = m.code; core = m.core; devices = m.devices; asleep = m.asleep; owed = m.owed; counted = m.counted; trail = m.trail } };

    ghost invariant = { λ m. m.counted < 64 };
}

impl Mcu {
    ghost use Rattle.avr_mcu.specs.State.{printed, reset_state, taken};

    /// The part after reset, with this flash. The error says that no memory was left.
    pub fn new(alloc: Global, image: Image) -> Result<Mcu, AllocError>
        ensures { IfOk result (λ mcu. mcu ≡ reset_state image) }
    {
        Ok(Mcu {
            code: Code::new(alloc, image)?,
            core: Core::new(),
            devices: Devices::new(),
            asleep: false,
            owed: false,
            counted: 0,
            trail: Trail::new(alloc)?,
        })
    }

    /// One step: an interrupt entry, else a cycle asleep, else an instruction.
    ///
    /// The peer is told each change of the select line and each byte that the SPI sends, and INTn is looked at after
    /// each of them and after each 64th instruction; what follows stands on its answers. A step that goes on takes one
    /// to four cycles. `BusOver` comes only where the peer said so in this step. After a stop all is as before the step,
    /// but that the trail has the instruction. `cycles()` is below 2^63 when a step is begun.
    pub fn step<B: BusPeer>(&mut self, peer: &mut B) -> McuWent
        requires { self.old.devices.cycles < 2 ^ 63 }
        ensures rises { self.new.devices.cycles ≤ self.old.devices.cycles + 4 }
        ensures cycles { IsTimed result self.old.devices.cycles self.new.devices.cycles }
        ensures kept { IsKept result self.old self.new }
        ensures plays { Plays B.did peer.old (stepped self.old) (gone result self.new) peer.new }
    {
        self.step_once(peer)
    }

    /// The step, with its play alone (apart, since the other clauses of `step` follow from that one).
    #[tactic(auto, unfolding(crate::specs::Step::stepped))]
    fn step_once<B: BusPeer>(&mut self, peer: &mut B) -> McuWent
        requires { self.old.devices.cycles < 2 ^ 63 }
        ensures { Plays B.did peer.old (stepped self.old) (gone result self.new) peer.new }
    {
        match self.request() {
            Some(vector) => self.enter(vector, peer),
            None => {
                if self.asleep {
                    self.count(McuWent::Asleep, 1, peer)
                } else {
                    self.execute(peer)
                }
            }
        }
    }

    /// Makes steps that ask nothing of the bus, while they begin below `limit`, a count of cycles, and gives how many: none, or
    /// some up to `most`, the next look at INTn, the next event of a device, or the next instruction that reaches more than the
    /// core and SRAM, which are left to `step`. They are at most 63.
    ///
    /// Each is what `step` would have done: it ran an instruction or slept a cycle. Of them only the last may have printed a
    /// byte, which `printed` then gives; `printed` is to be asked before, too. Where there were some, at most three cycles went
    /// by past `limit`.
    pub fn hurry(&mut self, limit: u64, most: u64) -> u64
        requires { limit ≤ 2 ^ 63 }
        ensures goes { GoesOn limit result self.old self.new }
        ensures most { result ≤ most }
        ensures few { result ≤ 63 }
        ensures from { self.old.devices.cycles + result ≤ self.new.devices.cycles }
        ensures to { self.old.devices.cycles < limit → self.new.devices.cycles ≤ limit + 3 }
    {
        if self.devices.cycles < limit {
            let room = least_of(LOOK_PERIOD - 1 - self.counted, most);
            if self.asleep {
                u64::from(self.doze(limit, room))
            } else {
                u64::from(self.rush(limit, room))
            }
        } else {
            0
        }
    }

    /// The count of cycles before which no interrupt is entered. Where I is clear that is none, since an instruction may set it.
    fn calm_until(&self) -> u64
        ensures { IsQuietUntil self.now.devices result }
    {
        if is_set(self.core.sreg(), 7) {
            self.devices.quiet_until()
        } else {
            0
        }
    }

    /// Plain instructions, at most `room`, up to the limit or the next event of a device. The devices pass their time once, at
    /// the end.
    fn rush(&mut self, limit: u64, room: u8) -> u8
        requires limit { limit ≤ 2 ^ 63 }
        requires below { self.old.devices.cycles < limit }
        requires awake { self.old.asleep ≡ false }
        requires room { self.old.counted + room ≤ 63 }
        ensures goes { GoesOn limit result self.old self.new }
        ensures few { result ≤ room }
        ensures from { self.old.devices.cycles + result ≤ self.new.devices.cycles }
        ensures to { self.new.devices.cycles ≤ limit + 3 }
    {
        self.devices.fits();
        let now = self.devices.cycles;
        let most = cycles_ahead(now, limit, self.devices.printed_at());
        let calm = cycles_ahead(now, u64::MAX, self.calm_until());
        let mut addresses = [0u16; 64];
        let (ran, spent, was) = stretch(
            &self.code,
            &mut self.core,
            &mut self.devices.memory,
            room,
            most,
            calm,
            &mut addresses,
        );
        if ran > 0 {
            self.trail.note_all(&addresses[..ran as usize]);
            self.owed = raises(was, self.core.sreg());
            self.counted += ran;
            self.devices.pass(spent);
        }
        ran
    }

    /// Cycles asleep, at most `room`, up to the limit or the next event of a device.
    fn doze(&mut self, limit: u64, room: u8) -> u8
        requires limit { limit ≤ 2 ^ 63 }
        requires below { self.old.devices.cycles < limit }
        requires asleep { self.old.asleep ≡ true }
        requires room { self.old.counted + room ≤ 63 }
        ensures goes { GoesOn limit result self.old self.new }
        ensures few { result ≤ room }
        ensures from { self.old.devices.cycles + result ≤ self.new.devices.cycles }
        ensures to { self.new.devices.cycles ≤ limit + 3 }
    {
        self.devices.fits();
        let now = self.devices.cycles;
        let until = self.calm_until().min(self.devices.printed_at());
        let slept = least_of(room, cycles_ahead(now, limit, until));
        if slept > 0 {
            self.counted += slept;
            self.devices.pass(u64::from(slept));
        }
        slept
    }

    /// The interrupt that is entered now: with I set and no instruction owed, the pending one.
    #[tactic(auto, unfolding(crate::specs::Step::request))]
    fn request(&self) -> Option<u8>
        ensures { result ≡ request self.now }
    {
        if is_set(self.core.sreg(), 7) && !self.owed {
            self.devices.pending()
        } else {
            None
        }
    }

    /// An interrupt entry.
    fn enter<B: BusPeer>(&mut self, vector: u8, peer: &mut B) -> McuWent
        requires { self.old.devices.cycles < 2 ^ 63 }
        ensures { Plays B.did peer.old (entry vector self.old) (gone result self.new) peer.new }
    {
        let went = run_entry(&mut self.core, vector, &mut self.devices, peer);
        self.finish_entry(vector, went)
    }

    /// What follows once the core has entered an interrupt, or has not (apart, since a `match` on a call's result is proved
    /// alone).
    fn finish_entry(&mut self, vector: u8, went: Went) -> McuWent
        requires { self.old.devices.cycles < 2 ^ 63 }
        ensures { gone result self.new ≡ entered vector went self.old }
    {
        match went {
            Went::Ran(cycles) => {
                self.devices.served(vector);
                self.asleep = false;
                self.pass(McuWent::Served, cycles)
            }
            Went::Break => self.pass(McuWent::Break, 1),
            Went::Sleep => self.pass(McuWent::Sleep, 1),
            Went::BusOver => McuWent::BusOver,
            Went::Stop(stop) => McuWent::Stop(stop),
        }
    }

    /// One instruction.
    fn execute<B: BusPeer>(&mut self, peer: &mut B) -> McuWent
        requires { self.old.devices.cycles < 2 ^ 63 }
        ensures { Plays B.did peer.old (instruction self.old) (gone result self.new) peer.new }
    {
        let always = self.core.owes(&self.code);
        let was = self.core.sreg();
        self.trail.note(self.core.pc());
        let went = run_instruction(&mut self.core, &self.code, &mut self.devices, peer);
        let owed = owes_behind(always, was, self.core.sreg());
        self.finish(owed, went, peer)
    }

    /// What follows once the core has gone so (apart, as above).
    fn finish<B: BusPeer>(&mut self, owed: bool, went: Went, peer: &mut B) -> McuWent
        requires { self.old.devices.cycles < 2 ^ 63 }
        ensures { Plays B.did peer.old (finished owed went self.old) (gone result self.new) peer.new }
    {
        match went {
            Went::Ran(cycles) => {
                self.owed = owed;
                self.count(McuWent::Ran, cycles, peer)
            }
            Went::Break => self.pass(McuWent::Break, 1),
            Went::Sleep => self.sleep(peer),
            Went::BusOver => McuWent::BusOver,
            Went::Stop(stop) => McuWent::Stop(stop),
        }
    }

    /// SLEEP.
    fn sleep<B: BusPeer>(&mut self, peer: &mut B) -> McuWent
        requires { self.old.devices.cycles < 2 ^ 63 }
        ensures { Plays B.did peer.old (sleeping self.old) (gone result self.new) peer.new }
    {
        if is_set(self.core.sreg(), 7) {
            self.owed = false;
            self.asleep = is_set(self.devices.memory.get(SMCR), 0);
            self.count(McuWent::Ran, 1, peer)
        } else {
            self.pass(McuWent::Sleep, 1)
        }
    }

    /// An instruction or a cycle asleep is over.
    #[tactic(auto, unfolding(crate::specs::Step::counting))]
    fn count<B: BusPeer>(&mut self, went: McuWent, cycles: u8, peer: &mut B) -> McuWent
        requires { self.old.devices.cycles < 2 ^ 63 }
        ensures { Plays B.did peer.old (counting went cycles self.old) (gone result self.new) peer.new }
    {
        self.counted = (self.counted + 1) % LOOK_PERIOD;
        if self.counted == 0 {
            self.look(went, cycles, peer)
        } else {
            self.pass(went, cycles)
        }
    }

    /// INTn is looked at, and then the cycles pass.
    fn look<B: BusPeer>(&mut self, went: McuWent, cycles: u8, peer: &mut B) -> McuWent
        requires { self.old.devices.cycles < 2 ^ 63 }
        ensures { Plays B.did peer.old (looking went cycles self.old) (gone result self.new) peer.new }
    {
        match peer.look() {
            Err(_) => McuWent::BusOver,
            Ok(high) => {
                self.devices.int_level(high);
                self.pass(went, cycles)
            }
        }
    }

    /// The devices pass the step's cycles.
    fn pass(&mut self, went: McuWent, cycles: u8) -> McuWent
        requires { self.old.devices.cycles < 2 ^ 63 }
        ensures { gone result self.new ≡ passing went cycles self.old }
    {
        self.devices.pass(u64::from(cycles));
        went
    }

    /// Takes the byte that entered the USART's shifter in the last step, or in the last `hurry`. `None` exactly where none did.
    pub fn printed(&mut self) -> Option<u8>
        ensures value { result ≡ printed self.old }
        ensures state { self.new ≡ taken self.old }
    {
        self.devices.serial.printed()
    }

    /// Cycles since reset.
    pub fn cycles(&self) -> u64
        ensures { result ≡ self.now.devices.cycles }
    {
        self.devices.cycles
    }

    /// The word address of one of the last 16 instructions that were started, from the oldest; `None` exactly past
    /// the last one.
    pub fn trail(&self, i: u8) -> Option<u16>
        ensures { result ≡ slice_get self.now.trail i }
    {
        self.trail.get(i)
    }
}

/// Whether an instruction is owed behind one that always owes, being SEI or RETI, or that made the one SREG the other.
fn owes_behind(always: bool, before: u8, after: u8) -> bool
    ensures { result ≡ (always || raises before after) }
{
    always || raises(before, after)
}

/// The cycles from now on that are left to a limit, and to a count that may be past.
fn cycles_ahead(now: u64, limit: u64, until: u64) -> u64
    requires { now ≤ limit }
    ensures limit { now + result ≤ limit }
    ensures until { 0 < result → now + result ≤ until }
{
    limit.min(until).saturating_sub(now)
}

/// The lower of two numbers, of which one is a byte.
fn least_of(room: u8, cycles: u64) -> u8
    ensures room { result ≤ room }
    ensures cycles { result ≤ cycles }
{
    if cycles < u64::from(room) {
        cycles as u8
    } else {
        room
    }
}
