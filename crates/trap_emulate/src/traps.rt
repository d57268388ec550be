//! What is decided of a step by the cause for which the hardware trapped.
ghost use Rattle.std.specs.Prelude.{◌≡◌, ℕ, true, false, Err};
ghost use Rattle.base_words.specs.Coprocessor.{in_user_mode};
ghost use Rattle.base_words.specs.Instruction.{effect};
ghost use Rattle.base_words.specs.OpcodeMap.{decoded};
ghost use Rattle.mips_alu.specs.Execution.{passed};
ghost use Rattle.private_machine.specs.OwnStep.{is_privileged, is_usable, usable, executed, answered, word_of};
ghost use Rattle.private_machine.specs.PrivateMachine.{PrivateMachine, vcpu as vcpu_at};
ghost use Rattle.private_machine.specs.Reaching.{fetch_at};
ghost use Rattle.private_machine.specs.StepAct.{act_of, act_executed};
ghost use Rattle.private_machine.specs.TrapAccess.{is_memory};
ghost use Rattle.trap_emulate.specs.AtHand.{leads, Expects, AtHand};
ghost use Rattle.trap_emulate.specs.Decisions.{Decides, MakesWhole};
ghost use Rattle.trap_emulate.specs.Deeds.{done_by, act_by, IsWhole};
ghost use Rattle.trap_emulate.specs.Requests.{IsOfCoprocessor};

use crate::accesses::data_access;
use crate::decision::{Decision, Deed};
use crate::emulated::Standing;
use crate::requests::asked;
use base_words::{Exception, Place, Request, TrapCause, Use};
use private_machine::Vcpu;

/// The exception of a fetch that leads to no memory.
fn fetch_fault(vcpu: &Vcpu, pages: u32) -> Exception
    requires { is_memory (leads vcpu.now pages (fetch_at vcpu.now.registers.pc)) ≡ false }
    ensures { (m : PrivateMachine) → word_of m (leads vcpu.now pages (fetch_at vcpu.now.registers.pc)) ≡ Err result }
{
    match vcpu.place(pages, 4, Use::Fetch, vcpu.registers.pc) {
        Ok(Place::Memory(_)) => unreachable!(),
        Ok(Place::Device(_)) => Exception::BusError(Use::Fetch),
        Err(exception) => exception,
    }
}

/// What is asked of coprocessor 0.
fn coprocessor_deed(request: Request) -> Deed
    requires { IsOfCoprocessor request }
    ensures whole { IsWhole result }
    ensures done { (m : PrivateMachine) (v : ℕ) → answered m v (passed request (vcpu_at m v).registers) request ≡ done_by m v result }
    ensures acts { (m : PrivateMachine) (v : ℕ) → act_of m v request ≡ act_by m v result }
{
    match request {
        Request::ReadCp0 { number, target } => Deed::ReadCp0 { number, target },
        Request::WriteCp0 { number, value } => Deed::WriteCp0 { number, value },
        Request::System(op) => Deed::System(op),
        Request::Nothing
        | Request::Load { .. }
        | Request::Store { .. }
        | Request::LoadLinked { .. }
        | Request::StoreConditional { .. } => unreachable!(),
    }
}

/// An instruction of coprocessor 0, also a reserved one, which user code may not use. Nothing changes.
#[tactic(auto, using(crate::proofs::PageLemmas::closed_request))]
fn privileged(vcpu: &mut Vcpu, word: u32) -> Deed
    requires { is_privileged word ≡ true }
    ensures same { vcpu.new ≡ vcpu.old }
    ensures whole { IsWhole result }
    ensures done { (m : PrivateMachine) (v pages : ℕ) → AtHand m v vcpu.old pages → executed m v (usable (is_usable word (in_user_mode (vcpu_at m v).cp0.status)) (effect (decoded word) vcpu.old.registers)) ≡ done_by m v result }
    ensures acts { (m : PrivateMachine) (v pages : ℕ) → AtHand m v vcpu.old pages → act_executed m v (usable (is_usable word (in_user_mode (vcpu_at m v).cp0.status)) (effect (decoded word) vcpu.old.registers)) ≡ act_by m v result }
{
    if vcpu.cp0.is_user() {
        return Deed::Raise(Exception::CoprocessorUnusable(0));
    }
    match asked(&mut vcpu.registers, word) {
        Ok(request) => coprocessor_deed(request),
        Err(exception) => Deed::Raise(exception),
    }
}

/// What the step comes to. Nothing changes.
pub fn decide(vcpu: &mut Vcpu, standing: &Standing, cause: TrapCause) -> Decision
    requires { Expects vcpu.old standing.now.pages standing.now.store_needs cause }
    ensures same { vcpu.new ≡ vcpu.old }
    ensures whole { MakesWhole result }
    ensures decides { Decides vcpu.old standing.now.pages standing.now.store_needs cause result }
{
    match cause {
        TrapCause::Line => Decision::Make(Deed::Raise(Exception::Interrupt)),
        TrapCause::FetchMiss => { Decision::Make(Deed::Raise(fetch_fault(vcpu, standing.pages))) }
        TrapCause::DataMiss(word) => data_access(vcpu, standing.pages, None, word),
        TrapCause::ReadOnly(word) => {
            data_access(vcpu, standing.pages, standing.store_needs, word)
        }
        TrapCause::Address(None) => {
            Decision::Make(Deed::Raise(fetch_fault(vcpu, standing.pages)))
        }
        TrapCause::Address(Some(word)) => data_access(vcpu, standing.pages, None, word),
        TrapCause::Privileged(word) => Decision::Make(privileged(vcpu, word)),
        TrapCause::Raised(exception) => Decision::Make(Deed::Raise(exception)),
        TrapCause::Dead(_) => unreachable!(),
    }
}
