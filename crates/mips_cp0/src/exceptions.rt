//! What an exception tells.
ghost use Rattle.std.specs.Prelude.{◌≡◌, ◌<◌, ◌^◌};
ghost use Rattle.base_words.specs.declared.exception.Exception.TheVariants.{CoprocessorUnusable};
ghost use Rattle.base_words.specs.Exception.{details as details_of, plain as plain_of, at_address as at_address_of, of_tlb as of_tlb_of, store_or as store_or_of, fetch_or as fetch_or_of};

use crate::words::page_pair;
use base_words::{Exception, Field, PagePair, Use};
use std::marker::Model;

/// What an exception tells.
#[derive(Clone, Copy)]
pub struct Details {
    /// ExcCode.
    pub code: Field<5>,
    /// CE.
    pub unit: Field<2>,
    /// The address for BadVAddr.
    pub address: Option<u32>,
    /// The pair of pages for Context and EntryHi.
    pub pair: Option<PagePair>,
    /// Whether no entry of the TLB matched.
    pub refill: bool,
}

impl Model for Details {
    ghost use Rattle.base_words.specs.Exception.{Details as ExceptionDetails};

    ghost Value = { ExceptionDetails };

    ghost view = { λ d. record { code = d.code; unit = d.unit; address = d.address; pair = d.pair; refill = d.refill } };

    ghost inverse = { λ d. record { code = d.code; unit = d.unit; address = d.address; pair = d.pair; refill = d.refill } };
}

/// Of an exception without an address.
fn plain(code: u32) -> Details
    requires { code < 2 ^ 5 }
    ensures { result ≡ plain_of code }
{
    Details {
        code: Field::new(code),
        unit: Field::new(0),
        address: None,
        pair: None,
        refill: false,
    }
}

/// Of an address error.
fn at_address(code: u32, address: u32) -> Details
    requires { code < 2 ^ 5 }
    ensures { result ≡ at_address_of code address }
{
    Details {
        code: Field::new(code),
        unit: Field::new(0),
        address: Some(address),
        pair: None,
        refill: false,
    }
}

/// Of an exception of the TLB.
fn of_tlb(code: u32, address: u32, refill: bool) -> Details
    requires { code < 2 ^ 5 }
    ensures { result ≡ of_tlb_of code address refill }
{
    Details {
        code: Field::new(code),
        unit: Field::new(0),
        address: Some(address),
        pair: Some(page_pair(address)),
        refill,
    }
}

/// Of a coprocessor that isn't usable.
fn of_unit(unit: u8) -> Details
    ensures { result ≡ details_of (CoprocessorUnusable unit) }
{
    Details {
        code: Field::new(11),
        unit: Field::new(u32::from(unit & 3)),
        address: None,
        pair: None,
        refill: false,
    }
}

/// One of two codes, for a store and for another use.
fn store_or(store: u32, other: u32, purpose: Use) -> u32
    ensures { result ≡ store_or_of store other purpose }
{
    match purpose {
        Use::Store => store,
        Use::Fetch | Use::Load => other,
    }
}

/// One of two codes, for a fetch and for another use.
fn fetch_or(fetch: u32, other: u32, purpose: Use) -> u32
    ensures { result ≡ fetch_or_of fetch other purpose }
{
    match purpose {
        Use::Fetch => fetch,
        Use::Load | Use::Store => other,
    }
}

/// What an exception tells.
pub fn describe(exception: Exception) -> Details
    ensures { result ≡ details_of exception }
{
    match exception {
        Exception::Interrupt => plain(0),
        Exception::TlbModified(address) => of_tlb(1, address, false),
        Exception::TlbRefill(purpose, address) => of_tlb(store_or(3, 2, purpose), address, true),
        Exception::TlbInvalid(purpose, address) => of_tlb(store_or(3, 2, purpose), address, false),
        Exception::AddressError(purpose, address) => at_address(store_or(5, 4, purpose), address),
        Exception::BusError(purpose) => plain(fetch_or(6, 7, purpose)),
        Exception::SystemCall => plain(8),
        Exception::Breakpoint => plain(9),
        Exception::ReservedInstruction => plain(10),
        Exception::CoprocessorUnusable(unit) => of_unit(unit),
        Exception::Overflow => plain(12),
        Exception::Trap => plain(13),
    }
}
