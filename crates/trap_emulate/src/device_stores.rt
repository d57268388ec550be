//! Stores to the device page: those that the monitor makes, and those that it leaves to the caller.
ghost use Rattle.std.specs.Prelude.{◌≡◌, ℕ, Option};
ghost use Rattle.base_words.specs.declared.moves.MoveKind.{MoveKind};
ghost use Rattle.base_words.specs.Instruction.{advanced};
ghost use Rattle.guest_devs.specs.DeviceCalls.{act_at};
ghost use Rattle.private_machine.specs.Access.{device_stored};
ghost use Rattle.private_machine.specs.DeviceAct.{at_offset};
ghost use Rattle.private_machine.specs.DevicePage.{device_register as register_of, transfer_of};
ghost use Rattle.private_machine.specs.PrivateMachine.{PrivateMachine, vcpu as vcpu_at};
ghost use Rattle.trap_emulate.specs.Decisions.{Means, MakesWhole};

use crate::decision::{Decision, Deed};
use base_words::{DeviceRegister, Exception, Use};
use guest_devs::{DevAct, device_register};

/// What a store to a register leaves to do.
fn act_of(register: DeviceRegister, value: u32) -> DevAct
    ensures { result ≡ act_at value register }
{
    match register {
        DeviceRegister::DiskCommand => match value {
            1 => DevAct::DiskRead,
            2 => DevAct::DiskWrite,
            _ => DevAct::Done,
        },
        DeviceRegister::Send => DevAct::Send(value),
        _ => DevAct::Done,
    }
}

/// A store of a word to the device page.
pub fn store_to_device(offset: u32, value: u32) -> Decision
    ensures whole { MakesWhole result }
    ensures means { (m : PrivateMachine) (v : ℕ) (needs : Option MoveKind) → Means m v needs (device_stored m v (advanced (vcpu_at m v).registers) value (register_of offset)) (at_offset m (transfer_of m.devices v) value (register_of offset)) result }
{
    let Some(register) = device_register(offset) else {
        return Decision::Make(Deed::Raise(Exception::BusError(Use::Store)));
    };
    match act_of(register, value) {
        DevAct::Done => Decision::Make(Deed::StoreDevice { offset, value }),
        left => Decision::Leave(left),
    }
}
