//! One own step for which the hardware trapped.
ghost use Rattle.std.specs.Prelude.{◌≡◌, ◌<◌, ℕ, List, []};
ghost use Rattle.private_machine.specs.OwnStep.{joined};
ghost use Rattle.private_machine.specs.TrapAccess.{HoldsWord};
ghost use Rattle.trap_emulate.specs.GuestView.{machine_of, Fits, Runs, Spends};
ghost use Rattle.trap_emulate.specs.Emulation.{Emulates, Waits};
ghost use Rattle.trap_emulate.specs.Trapped.{IsTrap};

use crate::decision::Decision;
use crate::emulated::{Emulated, Standing};
use crate::making::make;
use crate::traps::decide;
use base_words::TrapCause;
use guest_devs::Devs;
use private_machine::Vcpu;

/// Makes one own step of a virtual processor for which the hardware trapped with this cause, or tells what it needs first.
///
/// The virtual processor is one of the guest's and hasn't halted; the devices are the guest's, with room for a byte on the console
/// (`Devs::reserve`). An access that missed the hardware's TLB is one that the guest doesn't grant on memory, and no frame is lost.
///
/// What is promised of the step holds for each memory that has at the program counter what the cause tells. Takes no memory.
pub fn emulate(
    vcpus: &mut [Vcpu],
    standing: &Standing,
    cause: TrapCause,
    devs: &mut Devs,
) -> Emulated
    requires runs { Runs vcpus.old standing.now.vcpu.0 }
    requires fits { Fits standing.now.pages vcpus.old devs.old.state }
    requires room { 0 < devs.old.print_room }
    requires traps { IsTrap (joined (machine_of standing.now.pages vcpus.old devs.old.state.page [] []) standing.now.vcpu.0) standing.now.vcpu.0 standing.now.store_needs cause }
    ensures fits { Fits standing.now.pages vcpus.new devs.new.state }
    ensures spends { Spends standing.now.pages devs.old devs.new }
    ensures waits { Waits result vcpus.old vcpus.new devs.old devs.new }
    ensures does { (memory : List ℕ) (disk : List (List ℕ)) → let m = machine_of standing.now.pages vcpus.old devs.old.state.page memory disk in HoldsWord (joined m standing.now.vcpu.0) standing.now.vcpu.0 cause → Emulates m standing.now.vcpu.0 standing.now.store_needs cause (machine_of standing.now.pages vcpus.new devs.new.state.page memory disk) result }
{
    match decide(&mut vcpus[standing.vcpu.0 as usize], standing, cause) {
        Decision::Make(deed) => match make(vcpus, standing.vcpu, devs, deed) {
            Ok(written) => Emulated::Done(written),
            Err(exception) => Emulated::Forward(exception),
        },
        Decision::Need(page, kind) => Emulated::Need(page, kind),
        Decision::Leave(act) => Emulated::Device(act),
    }
}
