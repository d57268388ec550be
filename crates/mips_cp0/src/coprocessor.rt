//! Coprocessor 0 as the rest of the processor uses it.
ghost use Rattle.std.specs.Prelude.{◌≡◌, ◌<◌, false};
ghost use Rattle.base_words.specs.Fields.{sum};
ghost use Rattle.base_words.specs.Coprocessor.{at_reset as at_reset_of, register_at, reads, writes, probe_answered, in_user_mode, interrupts, line_set, ticked, with_line as with_line_of};
ghost use Rattle.mips_cp0.specs.Behind.{random_after as random_after_of, Meets};
ghost use Rattle.mips_cp0.specs.Quiet.{IsQuiet, ticked_often};
ghost use Rattle.base_words.specs.Exception.{entered, vector as vector_of, handling, with_restart, with_details};

use crate::exceptions::{Details, describe};
use crate::registers::{LAST_ENTRY, at_reset, read, write};
use crate::words::{entry_number, pending_bits, register};
use base_words::{Cp0Registers, EntryNumber, Exception, Field, Index, Mode, Pending};
use std::marker::Model;

/// Where a refill is handled that comes while no exception is being handled.
const REFILL_VECTOR: u32 = 0xC000_0000;
/// Where all other exceptions are handled.
const GENERAL_VECTOR: u32 = 0xC000_0180;

/// Coprocessor 0. Most steps change nothing of it but Random and Count, so these are brought up to date only when they are read, or
/// when the timer comes.
#[derive(Clone, Debug, Drop)]
pub struct Cp0 {
    /// The registers as they were `ticks` steps ago.
    registers: Cp0Registers,
    ticks: u64,
    /// After how many steps from then on Count comes to Compare: 1 to 2^32.
    left: u64,
}

impl Model for Cp0 {
    ghost use Rattle.base_words.specs.declared.coprocessor.Cp0Registers.{Cp0Registers};

    ghost Value = { Cp0Registers };

    ghost use Rattle.mips_cp0.specs.Behind.{held_now, IsBehind};

    ghost view = { held_now };

    ghost invariant = { IsBehind };
}

/// EPC and BD, which stay where an exception is being handled already.
fn keep_restart(registers: &mut Cp0Registers, pc: u32, slot: bool)
    ensures { registers.new ≡ with_restart pc slot registers.old }
{
    if !registers.status.exception {
        registers.epc = if slot { pc.wrapping_sub(4) } else { pc };
        registers.cause.slot = slot;
    }
}

/// Keeps what an exception tells: CE and ExcCode, and the address where it has one.
fn keep_details(registers: &mut Cp0Registers, told: Details)
    ensures { registers.new ≡ with_details told registers.old }
{
    registers.cause.unit = told.unit;
    registers.cause.code = told.code;
    if let Some(address) = told.address {
        registers.bad_address = address;
    }
    if let Some(pair) = told.pair {
        registers.context.pair = pair;
        registers.entry_hi.pair = pair;
    }
}

/// Random so many steps later: it counts down to Wired, and then from 47 to Wired again and again; from Wired on, if that is past 47, it
/// stays 47.
fn random_after(random: EntryNumber, wired: EntryNumber, steps: u64) -> EntryNumber
    ensures { result ≡ random_after_of steps random wired }
{
    let down = u64::from(random.value().saturating_sub(wired.value()));
    if steps <= down {
        return Field::new(random.value() - steps as u32);
    }
    if LAST_ENTRY <= wired.value() {
        return Field::new(LAST_ENTRY);
    }
    let turn = u64::from(LAST_ENTRY + 1 - wired.value());
    Field::new(LAST_ENTRY - ((steps - down - 1) % turn) as u32)
}

/// After how many steps Count comes to Compare.
fn steps_to(count: u32, compare: u32) -> u64
    ensures { Meets count compare result }
{
    let left = compare.wrapping_sub(count);
    if left == 0 { 1 << 32 } else { u64::from(left) }
}

/// A step is done at which Count comes to Compare: Random and Count move on, and the timer interrupts.
fn meet(registers: &mut Cp0Registers)
    requires { sum registers.old.count 1 ≡ registers.old.compare }
    ensures { registers.new ≡ ticked registers.old }
{
    registers.random = random_after(registers.random, registers.wired, 1);
    registers.count = registers.count.wrapping_add(1);
    registers.cause.pending.timer = true;
}

/// One of the lines IP2 to IP4 is on or off.
fn set_line(pending: &mut Pending, ip: u8, on: bool)
    ensures { pending.new ≡ with_line_of ip on pending.old }
{
    match ip {
        2 => pending.input = on,
        3 => pending.packet = on,
        4 => pending.vcpu = on,
        _ => {}
    }
}

impl Cp0 {
    /// Coprocessor 0 that holds this.
    fn of(registers: Cp0Registers) -> Self
        ensures { result ≡ registers }
    {
        let left = steps_to(registers.count, registers.compare);
        Cp0 {
            registers,
            ticks: 0,
            left,
        }
    }

    /// What it holds now.
    fn held(&self) -> Cp0Registers
        ensures { result ≡ self.now }
    {
        let registers = &self.registers;
        Cp0Registers {
            random: random_after(registers.random, registers.wired, self.ticks),
            count: registers.count.wrapping_add(self.ticks as u32),
            ..*registers
        }
    }

    /// Coprocessor 0 at the start: all registers are 0, but Random is 47.
    pub fn new() -> Self
        ensures { result ≡ at_reset_of }
    {
        Cp0::of(at_reset())
    }

    /// What MFC0 reads of the register at a number; 0 where none is.
    pub fn read(&self, number: u8) -> u32
        ensures { result ≡ reads self.now (register_at number) }
    {
        read(&self.held(), register(number))
    }

    /// MTC0: writes a word to the register at a number, which keeps what it holds of it.
    pub fn write(&mut self, number: u8, value: u32)
        ensures { self.new ≡ writes self.old (register_at number) value }
    {
        let mut registers = self.held();
        write(&mut registers, register(number), value);
        *self = Cp0::of(registers);
    }

    /// Takes an exception at `pc`, which may be in a delay slot, and answers where it is handled.
    pub fn enter(&mut self, exception: Exception, pc: u32, slot: bool) -> u32
        ensures pc { result ≡ vector_of exception self.old }
        ensures entered { self.new ≡ entered exception pc slot self.old }
    {
        let told = describe(exception);
        let vector = if told.refill && !self.registers.status.exception {
            REFILL_VECTOR
        } else {
            GENERAL_VECTOR
        };
        keep_restart(&mut self.registers, pc, slot);
        keep_details(&mut self.registers, told);
        self.registers.status.exception = true;
        vector
    }

    /// ERET: no exception is being handled any more. Answers where the processor goes on.
    pub fn eret(&mut self) -> u32
        ensures pc { result ≡ self.old.epc }
        ensures left { self.new ≡ handling false self.old }
    {
        self.registers.status.exception = false;
        self.registers.epc
    }

    /// A step is done: Random and Count move on, and the timer interrupts where Count comes to Compare.
    #[inline(always)]
    pub fn tick(&mut self)
        ensures { self.new ≡ ticked self.old }
    {
        let ticks = self.ticks + 1;
        if ticks == self.left {
            self.meet();
        } else {
            self.ticks = ticks;
        }
    }

    /// So many steps are done, one by one.
    #[cold]
    #[inline(never)]
    fn tick_each(&mut self, steps: u64)
        ensures { self.new ≡ ticked_often steps self.old }
    {
        for _step in 0..steps {
            self.tick();
        }
    }

    /// So many steps are done, which change nothing else of it.
    #[inline]
    pub fn tick_by(&mut self, steps: u64)
        ensures { self.new ≡ ticked_often steps self.old }
    {
        let room = self.left - self.ticks;
        if steps < room {
            self.ticks += steps;
        } else {
            self.ticks = self.left - 1;
            self.tick();
            self.tick_each(steps - room);
        }
    }

    /// The same where Count comes to Compare.
    #[cold]
    #[inline(never)]
    fn meet(&mut self)
        requires { sum self.old.count 1 ≡ self.old.compare }
        ensures { self.new ≡ ticked self.old }
    {
        let mut registers = self.held();
        meet(&mut registers);
        *self = Cp0::of(registers);
    }

    /// For how many steps from now on, if nothing but these changes it, no interrupt is enabled and pending. It may be more.
    #[inline]
    pub fn quiet_steps(&self) -> u64
        ensures { IsQuiet result self.now }
    {
        if self.pending() {
            0
        } else {
            self.left - self.ticks
        }
    }

    /// Whether an interrupt is enabled and pending.
    #[inline(always)]
    pub fn pending(&self) -> bool
        ensures { result ≡ interrupts self.now }
    {
        let status = &self.registers.status;
        status.enabled
            && !status.exception
            && u32::from(status.mask) & pending_bits(&self.registers.cause.pending) != 0
    }

    /// Whether an interrupt would be enabled and pending with IP2, for input, on or off.
    #[inline(always)]
    pub fn pending_with_input(&self, waits: bool) -> bool
        ensures { result ≡ interrupts (line_set self.now 2 waits) }
    {
        let status = &self.registers.status;
        let mut pending = self.registers.cause.pending;
        pending.input = waits;
        status.enabled && !status.exception && u32::from(status.mask) & pending_bits(&pending) != 0
    }

    /// Whether the line IP2, for console input, is on.
    #[inline]
    pub fn input(&self) -> bool
        ensures { result ≡ self.now.cause.pending.input }
    {
        self.registers.cause.pending.input
    }

    /// Whether user code runs, and no exception is being handled.
    #[inline(always)]
    pub fn is_user(&self) -> bool
        ensures { result ≡ in_user_mode self.now.status }
    {
        !self.registers.status.exception && self.registers.status.mode == Mode::User
    }

    /// The address space of what runs (ASID).
    #[inline(always)]
    pub fn asid(&self) -> u8
        ensures { result ≡ self.now.entry_hi.asid }
    {
        self.registers.entry_hi.asid
    }

    /// The entry of the TLB that Index names, below 64.
    pub fn index(&self) -> u8
        ensures entry { result ≡ self.now.index.entry }
        ensures within { result < 64 }
    {
        self.registers.index.entry.value() as u8
    }

    /// The entry of the TLB that Random names, below 64.
    pub fn random(&self) -> u8
        ensures entry { result ≡ self.now.random }
        ensures within { result < 64 }
    {
        let registers = &self.registers;
        random_after(registers.random, registers.wired, self.ticks).value() as u8
    }

    /// Sets a line on or off: IP2 is console input, IP3 a packet, IP4 another virtual processor. The other interrupts
    /// aren't lines, and stay.
    pub fn line(&mut self, ip: u8, on: bool)
        ensures { self.new ≡ line_set self.old ip on }
    {
        set_line(&mut self.registers.cause.pending, ip, on);
    }

    /// TLBP: Index becomes the entry that matched, or tells that none did.
    pub fn probed(&mut self, entry: Option<u8>)
        ensures { self.new ≡ probe_answered self.old entry }
    {
        self.registers.index = match entry {
            Some(entry) => Index {
                failed: false,
                entry: entry_number(u32::from(entry)),
            },
            None => Index {
                failed: true,
                entry: Field::new(0),
            },
        };
    }
}
