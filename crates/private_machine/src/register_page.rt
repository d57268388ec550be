//! The register page of a guest of profile 2.
ghost use Rattle.std.specs.Prelude.{◌≡◌, ◌≤◌, ◌<◌, ◌^◌, true};
ghost use Rattle.private_machine.specs.RegisterPage.{block_of, is_on_page, number_at, is_loaded as is_loaded_of, is_stored as is_stored_of, word_loaded, word_stored, redirected as redirected_of, word_of_block, block_written};

use base_words::{Field, LoadKind, Register, Request, StoreKind};
use mips_cp0::Cp0;

/// Where the page begins and ends, in the direct segment.
const START: u32 = 0xCFFF_E000;

const END: u32 = 0xCFFF_F000;
/// The bits that Index keeps.
const INDEX: u32 = 1 << 6;
/// The bits that EntryLo0 and EntryLo1 keep.
const ENTRY_LO: u32 = 1 << 30;

/// A virtual processor's register page: the words of the registers that it has.
#[derive(Clone, Copy, Debug, PartialEq, Eq)]
pub struct RegBlock {
    pub index: u32,
    pub lo0: u32,
    pub lo1: u32,
    pub context: u32,
    pub bad: u32,
    pub hi: u32,
    pub epc: u32,
}

/// Whether an address is of a word of the page.
#[inline(always)]
fn is_on(address: u32) -> bool
    ensures { result ≡ is_on_page address }
{
    START <= address && address < END && address % 4 == 0
}

/// The number of the register at an address of the page.
#[inline(always)]
fn number(address: u32) -> u32
    requires { 0xCFFF_E000 ≤ address }
    ensures { result ≡ number_at address }
{
    (address - START) / 4
}

/// Whether the register of a number is loaded from the page.
#[inline(always)]
fn is_loaded(number: u32) -> bool
    ensures { result ≡ is_loaded_of number }
{
    number == 0
        || number == 2
        || number == 3
        || number == 4
        || number == 8
        || number == 10
        || number == 14
}

/// Whether it is stored there.
#[inline(always)]
fn is_stored(number: u32) -> bool
    ensures { result ≡ is_stored_of number }
{
    number == 0 || number == 2 || number == 3 || number == 14
}

/// What a load of a word asks, where the page is open.
#[inline(always)]
fn loaded(address: u32, target: Register) -> Request
    ensures { result ≡ word_loaded address target }
{
    if is_on(address) && is_loaded(number(address)) {
        Request::ReadCp0 {
            number: Field::new(number(address)),
            target,
        }
    } else {
        Request::Load {
            kind: LoadKind::Word,
            address,
            target,
        }
    }
}

/// What a store of a word asks, where the page is open.
#[inline(always)]
fn stored(address: u32, value: u32) -> Request
    ensures { result ≡ word_stored address value }
{
    if is_on(address) && is_stored(number(address)) {
        Request::WriteCp0 {
            number: Field::new(number(address)),
            value,
        }
    } else {
        Request::Store {
            kind: StoreKind::Word,
            address,
            value,
        }
    }
}

/// Where the page is open, what an instruction asks there is asked of its register.
#[inline(always)]
pub fn redirected(is_open: bool, request: Request) -> Request
    ensures { result ≡ redirected_of is_open request }
{
    if !is_open {
        return request;
    }
    match request {
        Request::Load {
            kind,
            address,
            target,
        } => match kind {
            LoadKind::Word => loaded(address, target),
            _ => request,
        },
        Request::Store {
            kind,
            address,
            value,
        } => match kind {
            StoreKind::Word => stored(address, value),
            _ => request,
        },
        Request::Nothing
        | Request::LoadLinked { .. }
        | Request::StoreConditional { .. }
        | Request::ReadCp0 { .. }
        | Request::WriteCp0 { .. }
        | Request::System(_) => request,
    }
}

impl RegBlock {
    /// The words that the registers of coprocessor 0 read.
    pub fn of(cp0: &Cp0) -> Self
        ensures { result ≡ block_of cp0.now }
    {
        RegBlock {
            index: cp0.read(0),
            lo0: cp0.read(2),
            lo1: cp0.read(3),
            context: cp0.read(4),
            bad: cp0.read(8),
            hi: cp0.read(10),
            epc: cp0.read(14),
        }
    }

    /// The word of the register of a number.
    #[inline]
    pub fn word(&self, number: Register) -> u32
        ensures { result ≡ word_of_block number self.now }
    {
        match number.value() {
            0 => self.index,
            2 => self.lo0,
            3 => self.lo1,
            4 => self.context,
            8 => self.bad,
            10 => self.hi,
            14 => self.epc,
            _ => 0,
        }
    }

    /// The same once a word is stored, of which the register of this number keeps its part.
    #[inline]
    pub fn written(self, number: Register, value: u32) -> Self
        ensures { result ≡ block_written number value self }
    {
        let mut after = self;
        match number.value() {
            0 => after.index = value % INDEX,
            2 => after.lo0 = value % ENTRY_LO,
            3 => after.lo1 = value % ENTRY_LO,
            14 => after.epc = value,
            _ => {}
        }
        after
    }
}
