//! Data accesses for which the hardware trapped: what they come to.
ghost use Rattle.std.specs.Prelude.{◌≡◌, ◌≢◌, ℕ, Option, Ok, IsSome};
ghost use Rattle.base_words.specs.declared.moves.MoveKind.{MoveKind};
ghost use Rattle.base_words.specs.declared.place.Place.TheVariants.{Device};
ghost use Rattle.base_words.specs.Instruction.{advanced, effect};
ghost use Rattle.base_words.specs.OpcodeMap.{decoded};
ghost use Rattle.private_machine.specs.Access.{device_loaded};
ghost use Rattle.private_machine.specs.DeviceAct.{NoAct};
ghost use Rattle.private_machine.specs.DevicePage.{device_register as register_of};
ghost use Rattle.private_machine.specs.OwnStep.{answered, executed};
ghost use Rattle.private_machine.specs.PrivateMachine.{PrivateMachine, vcpu as vcpu_at};
ghost use Rattle.private_machine.specs.Reaching.{wanted};
ghost use Rattle.private_machine.specs.StepAct.{act_of, act_executed};
ghost use Rattle.trap_emulate.specs.AtHand.{Asks, AtHand, AsksAccess};
ghost use Rattle.trap_emulate.specs.Decisions.{answered_at, acts_at, Means, MakesWhole};

use crate::decision::{Decision, Deed};
use crate::device_stores::store_to_device;
use crate::requests::{Access, access_of, asked};
use base_words::{Exception, LoadKind, MoveKind, Place, Ppn, Register, Request, StoreKind, Use};
use guest_devs::device_register;
use private_machine::Vcpu;

/// An access that fails on the bus.
#[inline]
fn bus_error(purpose: Use) -> Decision
    ensures { result ≡ Decision.Make (Deed.Raise (Exception.BusError purpose)) }
{
    Decision::Make(Deed::Raise(Exception::BusError(purpose)))
}

/// A load of a word from the device page.
fn load_from_device(offset: u32, target: Register) -> Decision
    ensures whole { MakesWhole result }
    ensures means { (m : PrivateMachine) (v : ℕ) (needs : Option MoveKind) → Means m v needs (device_loaded m v (advanced (vcpu_at m v).registers) target (register_of offset)) NoAct result }
{
    if device_register(offset).is_some() {
        Decision::Make(Deed::LoadDevice { offset, target })
    } else {
        bus_error(Use::Load)
    }
}

/// An access of the device page, on which only whole words are loaded and stored.
fn access_device(request: &Request, offset: u32) -> Decision
    requires { IsSome (wanted request.now) }
    ensures whole { MakesWhole result }
    ensures means { (m : PrivateMachine) (v : ℕ) (needs : Option MoveKind) → Means m v needs (answered_at m v (advanced (vcpu_at m v).registers) request.now (Ok (Device offset))) (acts_at m v request.now (Ok (Device offset))) result }
{
    match *request {
        Request::Load { kind, target, .. } => match kind {
            LoadKind::Word => load_from_device(offset, target),
            _ => bus_error(Use::Load),
        },
        Request::Store { kind, value, .. } => match kind {
            StoreKind::Word => store_to_device(offset, value),
            _ => bus_error(Use::Store),
        },
        Request::LoadLinked { .. } => bus_error(Use::Load),
        Request::StoreConditional { .. } => bus_error(Use::Store),
        Request::Nothing
        | Request::ReadCp0 { .. }
        | Request::WriteCp0 { .. }
        | Request::System(_) => unreachable!(),
    }
}

/// An access, wherever it leads. To memory leads only a store that needs a move.
fn access(vcpu: &Vcpu, pages: u32, needs: Option<MoveKind>, request: Request) -> Decision
    requires { AsksAccess vcpu.now pages needs request }
    ensures whole { MakesWhole result }
    ensures means { (m : PrivateMachine) (v : ℕ) → AtHand m v vcpu.now pages → Means m v needs (answered m v (advanced (vcpu_at m v).registers) request) (act_of m v request) result }
{
    let Access {
        purpose,
        unit,
        address,
    } = access_of(&request);
    match vcpu.place(pages, unit, purpose, address) {
        Ok(Place::Memory(offset)) => match needs {
            Some(kind) => Decision::Need(Ppn((offset / 4096) as u32), kind),
            None => unreachable!(),
        },
        Ok(Place::Device(offset)) => access_device(&request, offset),
        Err(exception) => Decision::Make(Deed::Raise(exception)),
    }
}

/// The data access of an instruction that isn't of coprocessor 0. Nothing changes.
#[tactic(auto, using(crate::proofs::PageLemmas::closed_request))]
pub fn data_access(vcpu: &mut Vcpu, pages: u32, needs: Option<MoveKind>, word: u32) -> Decision
    requires { Asks vcpu.old pages needs word }
    ensures same { vcpu.new ≡ vcpu.old }
    ensures whole { MakesWhole result }
    ensures means { (m : PrivateMachine) (v : ℕ) → AtHand m v vcpu.old pages → Means m v needs (executed m v (effect (decoded word) vcpu.old.registers)) (act_executed m v (effect (decoded word) vcpu.old.registers)) result }
{
    match asked(&mut vcpu.registers, word) {
        Ok(request) => access(vcpu, pages, needs, request),
        Err(_) => unreachable!(),
    }
}
