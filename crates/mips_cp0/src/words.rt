//! Between a register's fields and its word.
ghost use Rattle.std.specs.Prelude.{◌≡◌, ◌<◌, ◌%◌, ◌^◌, slice_index_or};
ghost use Rattle.base_words.specs.Bits.{bit as bit_of, bits};
ghost use Rattle.base_words.specs.Tlb.{page_pair as page_pair_of, address_space as address_space_of};
ghost use Rattle.base_words.specs.Coprocessor.{register_map, mode_code as mode_code_of, mode_of as mode_of_code, pending_bits as pending_bits_of, status_of as status_of_word};
ghost use Rattle.base_words.specs.declared.coprocessor.Cp0Register.TheVariants.{Unused};

use base_words::{
    Cp0Register, EntryHi, EntryLo, EntryNumber, Field, Mode, PagePair, Pending, Status,
};

/// Index's P.
pub const FAILED: u32 = 1 << 31;
/// The lowest bit of Context's PTEBase.
pub const TABLE: u32 = 1 << 23;
/// The lowest bit of Context's BadVPN2.
pub const BAD_PAIR: u32 = 1 << 4;
/// The lowest bit of EntryHi's VPN2.
pub const PAIR: u32 = 1 << 13;
/// The lowest bit of Status's IM.
pub const MASK: u32 = 1 << 8;
/// The lowest bit of Status's KSU.
pub const MODE: u32 = 1 << 3;
/// Status's EXL. IE is the lowest bit of the word.
pub const EXCEPTION: u32 = 1 << 1;
/// Cause's BD.
pub const SLOT: u32 = 1 << 31;
/// The lowest bit of Cause's CE.
pub const UNIT: u32 = 1 << 28;
/// The lowest bit of Cause's IP.
pub const PENDING: u32 = 1 << 8;
/// The lowest bit of Cause's ExcCode.
pub const CODE: u32 = 1 << 2;
/// IP7 in IP.
const TIMER: u32 = 1 << 7;
/// IP4 in IP.
const VCPU: u32 = 1 << 4;
/// IP3 in IP.
const PACKET: u32 = 1 << 3;
/// IP2 in IP.
const INPUT: u32 = 1 << 2;

/// The registers by their numbers, eight to a line.
#[rattlefmt::skip]
static REGISTERS: [Cp0Register; 16] = [
    Cp0Register::Index, Cp0Register::Random, Cp0Register::EntryLo0, Cp0Register::EntryLo1, Cp0Register::Context, Cp0Register::PageMask, Cp0Register::Wired, Cp0Register::Unused,
    Cp0Register::BadVAddr, Cp0Register::Count, Cp0Register::EntryHi, Cp0Register::Compare, Cp0Register::Status, Cp0Register::Cause, Cp0Register::Epc, Cp0Register::PrId,
];

fn register_entry(map: &[Cp0Register; 16], number: u8) -> Cp0Register
    ensures { result ≡ slice_index_or map.now number Unused }
{
    if number < 16 {
        map[number as usize]
    } else {
        Cp0Register::Unused
    }
}

/// The register at a number.
pub fn register(number: u8) -> Cp0Register
    ensures { result ≡ slice_index_or register_map number Unused }
{
    register_entry(&REGISTERS, number)
}

/// A flag as a bit.
pub fn bit(flag: bool) -> u32
    ensures { result ≡ bit_of flag }
{
    if flag { 1 } else { 0 }
}

/// The low bits of a word.
fn low<const BITS: u32>(word: u32) -> Field<BITS>
    requires { BITS < 32 }
    ensures { result ≡ word % 2 ^ BITS }
{
    Field::new(word % (1 << BITS))
}

/// Bits 5 to 0.
pub fn entry_number(word: u32) -> EntryNumber
    ensures { result ≡ bits 5 0 word }
{
    low(word)
}

/// Bits 29 to 0.
pub fn entry_lo(word: u32) -> EntryLo
    ensures { result ≡ bits 29 0 word }
{
    low(word)
}

/// Bits 31 to 23.
pub fn table(word: u32) -> Field<9>
    ensures { result ≡ bits 31 23 word }
{
    low(word / TABLE)
}

/// Bits 31 to 13.
pub fn page_pair(word: u32) -> PagePair
    ensures { result ≡ page_pair_of word }
{
    low(word / PAIR)
}

/// What EntryHi holds of a word.
pub fn entry_hi(word: u32) -> EntryHi
    ensures pair { result.pair ≡ page_pair_of word }
    ensures asid { result.asid ≡ address_space_of word }
{
    EntryHi {
        pair: page_pair(word),
        asid: (word % 256) as u8,
    }
}

/// KSU.
pub fn mode_code(mode: Mode) -> u32
    ensures { result ≡ mode_code_of mode }
{
    match mode {
        Mode::Kernel => 0,
        Mode::User => 2,
    }
}

/// The mode that KSU stands for: any code but 0 becomes user mode.
fn mode_of(code: u32) -> Mode
    ensures { result ≡ mode_of_code code }
{
    if code == 0 { Mode::Kernel } else { Mode::User }
}

/// What Status holds of a word.
pub fn status_of(word: u32) -> Status
    ensures { result ≡ status_of_word word }
{
    Status {
        enabled: word % 2 == 1,
        exception: word / EXCEPTION % 2 == 1,
        mode: mode_of(word / MODE % 4),
        mask: (word / MASK % 256) as u8,
    }
}

/// Bits 9 and 8.
pub fn software(word: u32) -> Field<2>
    ensures { result ≡ bits 9 8 word }
{
    low(word / PENDING)
}

/// IP, eight bits.
pub fn pending_bits(pending: &Pending) -> u32
    ensures bits { result ≡ pending_bits_of pending.now }
    ensures within { result < 2 ^ 8 }
{
    bit(pending.timer) * TIMER
        + bit(pending.vcpu) * VCPU
        + bit(pending.packet) * PACKET
        + bit(pending.input) * INPUT
        + pending.software.value()
}
