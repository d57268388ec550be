//! Reading and writing a register.
ghost use Rattle.std.specs.Prelude.{◌≡◌};
ghost use Rattle.base_words.specs.Coprocessor.{reads, writes, entry_hi_word as entry_hi_word_of, status_word as status_word_of, cause_word as cause_word_of, at_reset as at_reset_of, nothing_pending as nothing_pending_of};

use crate::words::{
    BAD_PAIR, CODE, EXCEPTION, FAILED, MASK, MODE, PAIR, PENDING, SLOT, TABLE, UNIT, bit, entry_hi,
    entry_lo, entry_number, mode_code, page_pair, pending_bits, software, status_of, table,
};
use base_words::{
    Cause, Context, Cp0Register, Cp0Registers, EntryHi, Field, Index, Mode, Pending, Status,
};

/// What a processor is: an R4000 of revision 0.
const PROCESSOR: u32 = 0x400;
/// The last entry of the TLB, from which Random counts down.
pub const LAST_ENTRY: u32 = 47;

/// No interrupt is pending.
fn nothing_pending() -> Pending
    ensures { result ≡ nothing_pending_of }
{
    Pending {
        software: Field::new(0),
        input: false,
        packet: false,
        vcpu: false,
        timer: false,
    }
}

/// The registers at the start: all are 0, but Random.
pub fn at_reset() -> Cp0Registers
    ensures { result ≡ at_reset_of }
{
    Cp0Registers {
        index: Index {
            failed: false,
            entry: Field::new(0),
        },
        random: Field::new(LAST_ENTRY),
        entry_lo0: Field::new(0),
        entry_lo1: Field::new(0),
        context: Context {
            table: Field::new(0),
            pair: Field::new(0),
        },
        wired: Field::new(0),
        bad_address: 0,
        count: 0,
        entry_hi: EntryHi {
            pair: Field::new(0),
            asid: 0,
        },
        compare: 0,
        status: Status {
            enabled: false,
            exception: false,
            mode: Mode::Kernel,
            mask: 0,
        },
        cause: Cause {
            slot: false,
            unit: Field::new(0),
            pending: nothing_pending(),
            code: Field::new(0),
        },
        epc: 0,
    }
}

/// EntryHi as a word.
fn entry_hi_word(entry: &EntryHi) -> u32
    ensures { result ≡ entry_hi_word_of entry.now }
{
    let asid = entry.asid;
    entry.pair.value() * PAIR + u32::from(asid)
}

/// Status as a word.
fn status_word(status: &Status) -> u32
    ensures { result ≡ status_word_of status.now }
{
    u32::from(status.mask) * MASK
        + mode_code(status.mode) * MODE
        + bit(status.exception) * EXCEPTION
        + bit(status.enabled)
}

/// Cause as a word.
fn cause_word(cause: &Cause) -> u32
    ensures { result ≡ cause_word_of cause.now }
{
    bit(cause.slot) * SLOT
        + cause.unit.value() * UNIT
        + pending_bits(&cause.pending) * PENDING
        + cause.code.value() * CODE
}

/// What a register reads.
pub fn read(registers: &Cp0Registers, register: Cp0Register) -> u32
    ensures { result ≡ reads registers.now register }
{
    match register {
        Cp0Register::Index => bit(registers.index.failed) * FAILED + registers.index.entry.value(),
        Cp0Register::Random => registers.random.value(),
        Cp0Register::EntryLo0 => registers.entry_lo0.value(),
        Cp0Register::EntryLo1 => registers.entry_lo1.value(),
        Cp0Register::Context => registers.context.table.value() * TABLE
            + registers.context.pair.value() * BAD_PAIR,
        Cp0Register::Wired => registers.wired.value(),
        Cp0Register::BadVAddr => registers.bad_address,
        Cp0Register::Count => registers.count,
        Cp0Register::EntryHi => entry_hi_word(&registers.entry_hi),
        Cp0Register::Compare => registers.compare,
        Cp0Register::Status => status_word(&registers.status),
        Cp0Register::Cause => cause_word(&registers.cause),
        Cp0Register::Epc => registers.epc,
        Cp0Register::PrId => PROCESSOR,
        Cp0Register::PageMask | Cp0Register::Unused => 0,
    }
}

/// Writes a word to a register, which keeps what it holds of it.
pub fn write(registers: &mut Cp0Registers, register: Cp0Register, word: u32)
    ensures { registers.new ≡ writes registers.old register word }
{
    match register {
        Cp0Register::Index => {
            registers.index = Index {
                failed: false,
                entry: entry_number(word),
            };
        }
        Cp0Register::EntryLo0 => registers.entry_lo0 = entry_lo(word),
        Cp0Register::EntryLo1 => registers.entry_lo1 = entry_lo(word),
        Cp0Register::Context => registers.context.table = table(word),
        Cp0Register::Wired => {
            registers.wired = entry_number(word);
            registers.random = Field::new(LAST_ENTRY);
        }
        Cp0Register::Count => registers.count = word,
        Cp0Register::EntryHi => registers.entry_hi = entry_hi(word),
        Cp0Register::Compare => {
            registers.compare = word;
            registers.cause.pending.timer = false;
        }
        Cp0Register::Status => registers.status = status_of(word),
        Cp0Register::Cause => registers.cause.pending.software = software(word),
        Cp0Register::Epc => registers.epc = word,
        Cp0Register::Random
        | Cp0Register::PageMask
        | Cp0Register::BadVAddr
        | Cp0Register::PrId
        | Cp0Register::Unused => {}
    }
}
