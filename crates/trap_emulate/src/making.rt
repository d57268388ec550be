//! Steps that the monitor makes whole.
ghost use Rattle.std.specs.Prelude.{◌≡◌, ◌<◌, ℕ, List, length, Some, Ok, IsSome, option_map};
ghost use Rattle.base_words.specs.Instruction.{advanced};
ghost use Rattle.base_words.specs.Tlb.{page_pair as page_pair_of};
ghost use Rattle.guest_devs.specs.DeviceCalls.{act_at};
ghost use Rattle.private_machine.specs.Access.{device_loaded, device_stored};
ghost use Rattle.private_machine.specs.DevicePage.{device_register as register_of};
ghost use Rattle.private_machine.specs.OwnStep.{joined};
ghost use Rattle.private_machine.specs.PrivateMachine.{vcpu as vcpu_at, on_vcpu};
ghost use Rattle.private_machine.specs.Vcpu.{ticking};
ghost use Rattle.trap_emulate.specs.GuestView.{machine_of, Fits, Runs, Spends};
ghost use Rattle.trap_emulate.specs.Decisions.{Makes};
ghost use Rattle.trap_emulate.specs.Deeds.{IsWhole, Tells, entry_write as entry_write_of, written_by};

use crate::decision::Deed;
use crate::emulated::EntryWrite;
use base_words::{Cp0Op, Exception, Register, VcpuId};
use guest_devs::{DevAct, Devs};
use mips_retire::{do_system, pass, put, read_cp0, shown_stays, write_cp0};
use private_machine::Vcpu;

/// The number of EntryHi in coprocessor 0.
const ENTRY_HI: u8 = 10;

/// How many entries the guest's TLB has.
const ENTRIES: u8 = 48;

/// The pair of pages of an address or of EntryHi.
fn page_pair(word: u32) -> u32
    ensures { result ≡ page_pair_of word }
{
    word >> 13
}

/// The write of an entry, where there is one of this number.
fn entry_write(vcpu: &Vcpu, index: u8) -> Option<EntryWrite>
    ensures { result ≡ entry_write_of vcpu.now index }
{
    let old = vcpu.tlb.read(index);
    if index < ENTRIES {
        Some(EntryWrite {
            index,
            old_pair: page_pair(old.hi),
            new_pair: page_pair(vcpu.cp0.read(ENTRY_HI)),
        })
    } else {
        None
    }
}

/// The entry that an instruction of the TLB writes.
fn written(vcpu: &Vcpu, op: Cp0Op) -> Option<EntryWrite>
    ensures { result ≡ written_by op vcpu.now }
{
    match op {
        Cp0Op::TlbWriteIndexed => entry_write(vcpu, vcpu.cp0.index()),
        Cp0Op::TlbWriteRandom => entry_write(vcpu, vcpu.cp0.random()),
        Cp0Op::TlbRead | Cp0Op::TlbProbe | Cp0Op::ExceptionReturn => None,
    }
}

/// A load of a word from a register of the device page.
fn load_device(vcpus: &mut [Vcpu], vcpu: VcpuId, devs: &mut Devs, offset: u32, target: Register)
    requires there { vcpu.0 < length vcpus.old }
    requires fits { Fits devs.old.state.pages vcpus.old devs.old.state }
    requires listed { IsSome (register_of offset) }
    ensures fits { Fits devs.old.state.pages vcpus.new devs.new.state }
    ensures spends { Spends devs.old.state.pages devs.old devs.new }
    ensures loaded { (memory : List ℕ) (disk : List (List ℕ)) → let m = machine_of devs.old.state.pages vcpus.old devs.old.state.page memory disk in device_loaded m vcpu.0 (advanced (vcpu_at m vcpu.0).registers) target (register_of offset) ≡ Ok (machine_of devs.old.state.pages vcpus.new devs.new.state.page memory disk) }
{
    let value = devs.load_by(vcpus, vcpu, offset).unwrap();
    put(&mut vcpus[vcpu.0 as usize], target, value);
}

/// A store of a word to a register of the device page, which leaves nothing to do.
fn store_device(vcpus: &mut [Vcpu], vcpu: VcpuId, devs: &mut Devs, offset: u32, value: u32)
    requires there { vcpu.0 < length vcpus.old }
    requires fits { Fits devs.old.state.pages vcpus.old devs.old.state }
    requires room { 0 < devs.old.print_room }
    requires whole { option_map (act_at value) (register_of offset) ≡ Some DevAct.Done }
    ensures fits { Fits devs.old.state.pages vcpus.new devs.new.state }
    ensures spends { Spends devs.old.state.pages devs.old devs.new }
    ensures stored { (memory : List ℕ) (disk : List (List ℕ)) → let m = machine_of devs.old.state.pages vcpus.old devs.old.state.page memory disk in device_stored m vcpu.0 (advanced (vcpu_at m vcpu.0).registers) value (register_of offset) ≡ Ok (machine_of devs.old.state.pages vcpus.new devs.new.state.page memory disk) }
{
    pass(&mut vcpus[vcpu.0 as usize]);
    devs.store_by(vcpus, vcpu, offset, value);
}

/// Carries a deed out. Answers the entry of the guest's TLB that was written, or the exception that was taken.
fn carry_out(
    vcpus: &mut [Vcpu],
    vcpu: VcpuId,
    devs: &mut Devs,
    deed: Deed,
) -> Result<Option<EntryWrite>, Exception>
    requires there { vcpu.0 < length vcpus.old }
    requires fits { Fits devs.old.state.pages vcpus.old devs.old.state }
    requires room { 0 < devs.old.print_room }
    requires whole { IsWhole deed }
    ensures fits { Fits devs.old.state.pages vcpus.new devs.new.state }
    ensures spends { Spends devs.old.state.pages devs.old devs.new }
    ensures tells { (memory : List ℕ) (disk : List (List ℕ)) → Tells (machine_of devs.old.state.pages vcpus.old devs.old.state.page memory disk) vcpu.0 deed (machine_of devs.old.state.pages vcpus.new devs.new.state.page memory disk) result }
{
    shown_stays();
    let place = vcpu.0 as usize;
    match deed {
        Deed::Raise(exception) => {
            vcpus[place].raise(exception);
            Err(exception)
        }
        Deed::ReadCp0 { number, target } => {
            read_cp0(&mut vcpus[place], number, target);
            Ok(None)
        }
        Deed::WriteCp0 { number, value } => {
            write_cp0(&mut vcpus[place], number, value);
            Ok(None)
        }
        Deed::System(op) => {
            let entry = written(&vcpus[place], op);
            do_system(&mut vcpus[place], op);
            Ok(entry)
        }
        Deed::LoadDevice { offset, target } => {
            load_device(vcpus, vcpu, devs, offset, target);
            Ok(None)
        }
        Deed::StoreDevice { offset, value } => {
            store_device(vcpus, vcpu, devs, offset, value);
            Ok(None)
        }
    }
}

/// Before a step of virtual processor 0 the input whose time has come joins the queue.
#[inline]
fn join(vcpus: &mut [Vcpu], vcpu: VcpuId, devs: &mut Devs)
    requires there { vcpu.0 < length vcpus.old }
    requires fits { Fits devs.old.state.pages vcpus.old devs.old.state }
    ensures fits { Fits devs.old.state.pages vcpus.new devs.new.state }
    ensures spends { Spends devs.old.state.pages devs.old devs.new }
    ensures print_room { devs.new.print_room ≡ devs.old.print_room }
    ensures joined { (memory : List ℕ) (disk : List (List ℕ)) → machine_of devs.old.state.pages vcpus.new devs.new.state.page memory disk ≡ joined (machine_of devs.old.state.pages vcpus.old devs.old.state.page memory disk) vcpu.0 }
{
    if vcpu.0 == 0 {
        let steps = vcpus[0].steps;
        devs.join_by(vcpus, steps);
    }
}

/// A step is over.
#[inline]
fn tick(vcpus: &mut [Vcpu], vcpu: VcpuId, devs: &Devs)
    requires there { vcpu.0 < length vcpus.old }
    requires fits { Fits devs.now.state.pages vcpus.old devs.now.state }
    ensures fits { Fits devs.now.state.pages vcpus.new devs.now.state }
    ensures ticked { (memory : List ℕ) (disk : List (List ℕ)) → machine_of devs.now.state.pages vcpus.new devs.now.state.page memory disk ≡ on_vcpu (machine_of devs.now.state.pages vcpus.old devs.now.state.page memory disk) vcpu.0 ticking }
{
    shown_stays();
    vcpus[vcpu.0 as usize].tick();
}

/// Makes a step whole: input joins, the deed is carried out as `carry_out`, and the virtual processor ticks.
pub fn make(
    vcpus: &mut [Vcpu],
    vcpu: VcpuId,
    devs: &mut Devs,
    deed: Deed,
) -> Result<Option<EntryWrite>, Exception>
    requires runs { Runs vcpus.old vcpu.0 }
    requires fits { Fits devs.old.state.pages vcpus.old devs.old.state }
    requires room { 0 < devs.old.print_room }
    requires whole { IsWhole deed }
    ensures fits { Fits devs.old.state.pages vcpus.new devs.new.state }
    ensures spends { Spends devs.old.state.pages devs.old devs.new }
    ensures makes { (memory : List ℕ) (disk : List (List ℕ)) → Makes (machine_of devs.old.state.pages vcpus.old devs.old.state.page memory disk) vcpu.0 deed (machine_of devs.old.state.pages vcpus.new devs.new.state.page memory disk) result }
{
    join(vcpus, vcpu, devs);
    let outcome = carry_out(vcpus, vcpu, devs, deed);
    tick(vcpus, vcpu, devs);
    outcome
}
