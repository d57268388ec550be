//! The addresses of lines.
ghost use Rattle.std.specs.Prelude.{◌≡◌, ◌+◌, ◌<◌, ◌^◌, IfOk, Ok};
ghost use Rattle.guest_asm.specs.Addresses as spec;

use crate::fault::LineFault;
use crate::labels::Labels;
use crate::lines::{mnemonic_of, statement_of};
use crate::statement::{Statement, statement_on};
use crate::value::value_of;
use std::alloc::{AllocError, Global};

/// The address of the first line.
pub const START: u32 = 0xC000_0000;

/// The address behind the last word that there is room for.
pub const END: u32 = 0xC001_0000;

/// Whether a statement moves the address: its mnemonic is `.org`.
fn is_origin(statement: &[u8]) -> bool
    ensures { result ≡ spec.is_origin_in statement.now }
{
    mnemonic_of(statement) == b".org".as_slice()
}

/// Whether an address may move on to another one.
pub fn may_move(address: u32, to: u32) -> bool
    ensures { result ≡ spec.may_move address to }
{
    to % 4 == 0 && address <= to && to <= END
}

/// The address that is asked for, unless it is refused.
fn moved(address: u32, to: Option<u32>) -> u32
    ensures { result ≡ spec.moved address to }
{
    match to {
        Some(to) => { if may_move(address, to) { to } else { address } }
        None => address,
    }
}

/// The address that a statement asks for, unless it is refused.
fn moved_by(address: u32, statement: Option<Statement>) -> u32
    requires { address + 4 < 2 ^ 32 }
    ensures { result ≡ spec.moved_by address (Ok statement) }
{
    match statement {
        Some(statement) => moved(address, value_of(statement.fields.given, address)),
        None => address,
    }
}

/// The address behind a line that moves it.
fn origin(alloc: Global, address: u32, line: &[u8]) -> Result<u32, AllocError>
    requires { address + 4 < 2 ^ 32 }
    ensures { IfOk result (λ next. next ≡ spec.moved_by address (spec.origin_on line.now)) }
{
    match statement_on(alloc, &Labels::new(alloc), line) {
        Ok(statement) => Ok(moved_by(address, statement)),
        Err(LineFault::Cause(_)) => Ok(address),
        Err(LineFault::Memory) => Err(AllocError),
    }
}

/// The address behind a line.
#[tactic(auto, unfolding(crate::specs::Addresses::behind))]
pub fn behind(alloc: Global, address: u32, line: &[u8]) -> Result<u32, AllocError>
    requires { address + 4 < 2 ^ 32 }
    ensures { IfOk result (λ next. next ≡ spec.behind address line.now) }
{
    let statement = statement_of(line);
    if statement.is_empty() {
        Ok(address)
    } else if is_origin(statement) {
        origin(alloc, address, line)
    } else {
        Ok(address + 4)
    }
}
