//! Steps of a virtual processor before which nothing comes.
ghost use Rattle.std.specs.Prelude.{◌<◌, ◌-◌, ℕ, List, length};
ghost use Rattle.private_machine.specs.declared.vcpu.Vcpu.{Vcpu as VcpuView};
ghost use Rattle.private_machine.specs.Vcpu.{ticking};
ghost use Rattle.private_machine.specs.Signals.{changed};
ghost use Rattle.private_machine.specs.DevicePage.{DevicePage};
ghost use Rattle.guest_devs.specs.Quiet.{AreQuiet};

use crate::Devs;
use base_words::VcpuId;
use private_machine::Vcpu;

/// For how many steps of a virtual processor from now on no interrupt is due before one of them, and no input joins, if they change nothing
/// else of it. It may be more.
pub fn quiet_steps(vcpus: &[Vcpu], devs: &Devs, vcpu: VcpuId) -> u64
    requires { vcpu.0 < length vcpus.now }
    ensures { AreQuiet result vcpu.0 vcpus.now devs.now.state.page }
{
    let current = &vcpus[vcpu.0 as usize];
    let quiet = current.cp0.quiet_steps();
    if vcpu.0 != 0 {
        return quiet;
    }
    if current.cp0.input() != devs.waits() {
        return 0;
    }
    quiet.min(devs.quiet_until().saturating_sub(current.steps))
}

/// After a quiet step one quiet step less is left.
pub fn quiet_steps_pass()
    ensures { (n v : ℕ) (cs : List VcpuView) (page : DevicePage) → v < length cs → AreQuiet n v cs page → AreQuiet (n - 1) v (changed v ticking cs) page }
{}
