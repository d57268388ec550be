//! For the tests: a processor that stands in for the hardware. Its TLB has no half, or one of the page of the program counter, that
//! isn't writable.
ghost use Rattle.std.specs.Prelude.{◌≡◌, ℕ, Option, IfSome, Some, true, false, option_map};
ghost use Rattle.base_words.specs.declared.moves.MoveKind.{MoveKind};
ghost use Rattle.base_words.specs.Instruction.{effect};
ghost use Rattle.base_words.specs.OpcodeMap.{decoded};
ghost use Rattle.base_words.specs.Place.{is_store as is_store_of};
ghost use Rattle.private_machine.specs.OwnStep.{is_privileged};
ghost use Rattle.private_machine.specs.Reaching.{wanted};
ghost use Rattle.private_machine.specs.TrapAccess.{is_memory as is_memory_of, asked_by};
ghost use Rattle.trap_emulate.specs.Requests.{wanted_of};
ghost use Rattle.machine_tests.specs.StandIn.{is_address_error as is_address_error_of, Fetches, FindsAccess, Traps};

use base_words::{Exception, MoveKind, Place, Regs, Request, TrapCause, Use};
use mips_alu::execute;
use mips_isa::decode;
use private_machine::Vcpu;
use trap_emulate::{Access, access_of};

/// Whether an address isn't aligned or is out of the mode's ranges.
fn is_address_error(place: &Result<Place, Exception>) -> bool
    ensures { result ≡ is_address_error_of place.now }
{
    match place {
        Ok(_) => false,
        Err(exception) => match exception {
            Exception::AddressError(_, _) => true,
            _ => false,
        },
    }
}

/// Whether an access leads to memory.
fn is_memory(place: &Result<Place, Exception>) -> bool
    ensures { result ≡ is_memory_of place.now }
{
    match place {
        Ok(Place::Memory(_)) => true,
        Ok(Place::Device(_)) | Err(_) => false,
    }
}

fn is_store(purpose: Use) -> bool
    ensures { result ≡ is_store_of purpose }
{
    match purpose {
        Use::Fetch | Use::Load => false,
        Use::Store => true,
    }
}

/// The access of a request, if it has one.
fn access_in(request: &Request) -> Option<Access>
    ensures { option_map wanted_of result ≡ wanted request.now }
{
    match *request {
        Request::Nothing
        | Request::ReadCp0 { .. }
        | Request::WriteCp0 { .. }
        | Request::System(_) => None,
        Request::Load { .. }
        | Request::Store { .. }
        | Request::LoadLinked { .. }
        | Request::StoreConditional { .. } => Some(access_of(request)),
    }
}

/// The access that an instruction asks, if it asks one, or the exception that it raises.
fn access_at(registers: &mut Regs, word: u32) -> Result<Option<Access>, Exception>
    ensures { FindsAccess (effect (decoded word) registers.old) registers.old registers.new result }
{
    match execute(&decode(word), registers) {
        Ok(request) => Ok(access_in(&request)),
        Err(exception) => Err(exception),
    }
}

/// Whether an instruction is fetched that the TLB has.
fn fetches(vcpu: &Vcpu, pages: u32) -> bool
    ensures { result ≡ true → Fetches vcpu.now pages }
{
    !vcpu.cp0.pending() && !is_address_error(&vcpu.place(pages, 4, Use::Fetch, vcpu.registers.pc))
}

/// Why it traps with no half, but for a fetch that the guest grants on memory.
pub fn trap_with_no_half(vcpu: &Vcpu, pages: u32) -> Option<TrapCause>
    ensures { (needs : Option MoveKind) → IfSome result (Traps vcpu.now pages needs) }
{
    if vcpu.cp0.pending() {
        return Some(TrapCause::Line);
    }
    let place = vcpu.place(pages, 4, Use::Fetch, vcpu.registers.pc);
    if is_address_error(&place) {
        return Some(TrapCause::Address(None));
    }
    if is_memory(&place) {
        return None;
    }
    Some(TrapCause::FetchMiss)
}

/// Why it traps at a data access with its one half, but for one that the guest grants on memory; a store that needs a move is none.
fn data_trap(
    vcpu: &Vcpu,
    pages: u32,
    needs: Option<MoveKind>,
    word: u32,
    access: Access,
) -> Option<TrapCause>
    requires fetches { Fetches vcpu.now pages }
    requires is_plain { is_privileged word ≡ false }
    requires asked { asked_by (effect (decoded word) vcpu.now.registers) ≡ Some (wanted_of access) }
    ensures { IfSome result (Traps vcpu.now pages needs) }
{
    let Access {
        purpose,
        unit,
        address,
    } = access;
    let place = vcpu.place(pages, unit, purpose, address);
    if is_address_error(&place) {
        return Some(TrapCause::Address(Some(word)));
    }
    if address / 4096 != vcpu.registers.pc / 4096 {
        if is_memory(&place) {
            return None;
        }
        return Some(TrapCause::DataMiss(word));
    }
    if !is_store(purpose) {
        return None;
    }
    if !is_memory(&place) {
        return Some(TrapCause::ReadOnly(word));
    }
    match needs {
        Some(_) => Some(TrapCause::ReadOnly(word)),
        None => None,
    }
}

/// Why it traps at a word with its one half, as `data_trap` for data accesses.
pub fn trap_at_word(
    vcpu: &mut Vcpu,
    pages: u32,
    needs: Option<MoveKind>,
    word: u32,
) -> Option<TrapCause>
    ensures { IfSome result (Traps vcpu.old pages needs) }
{
    if !fetches(vcpu, pages) {
        return None;
    }
    if word >> 26 == 16 {
        return Some(TrapCause::Privileged(word));
    }
    match access_at(&mut vcpu.registers, word) {
        Ok(Some(access)) => data_trap(vcpu, pages, needs, word, access),
        Ok(None) => None,
        Err(exception) => Some(TrapCause::Raised(exception)),
    }
}
