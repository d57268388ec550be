//! For the tests: a step of virtual processor 1 of 2, in a guest of 16 pages.
ghost use Rattle.std.specs.Prelude.{◌≡◌, IfSome, false, Option};
ghost use Rattle.private_machine.specs.Showing.{shown_by};
ghost use Rattle.machine_tests.specs.StandIn.{Traps};

use crate::telling::gave;
use crate::trap_emulate_stand_in::{trap_at_word, trap_with_no_half};
use base_words::{InputList, VcpuId};
use guest_devs::Devs;
use private_machine::Vcpu;
use std::alloc::Global;
use std::process::Abort;
use trap_emulate::{Emulated, MoveKind, Standing, TrapCause, emulate};

/// Numbers of registers of coprocessor 0.
pub const INDEX: u8 = 0;

pub const RANDOM: u8 = 1;

pub const CONTEXT: u8 = 4;

pub const BAD_ADDRESS: u8 = 8;

pub const COUNT: u8 = 9;

pub const ENTRY_HI: u8 = 10;

pub const STATUS: u8 = 12;

pub const CAUSE: u8 = 13;

pub const EPC: u8 = 14;

/// Where the kernel handles exceptions, some code of the kernel, a branch and its delay slot, the end of the guest's memory, and
/// the device page.
pub const REFILL: u32 = 0xC000_0000;

pub const VECTOR: u32 = 0xC000_0180;

pub const CODE: u32 = 0xC000_0100;

pub const BRANCH: u32 = 0xC000_0200;

pub const SLOT: u32 = 0xC000_0204;

pub const END: u32 = 0xC001_0000;

pub const DEVICES: u32 = 0xCFFF_F000;

/// An address that no entry of the guest's TLB maps.
pub const USER: u32 = 0x0040_0000;

/// Loads and stores of register 9 by register 8.
pub const LH: u32 = 0x8509_0000;

pub const LW: u32 = 0x8D09_0000;

pub const LWR: u32 = 0x9909_0000;

pub const SB: u32 = 0xA109_0000;

pub const SW: u32 = 0xAD09_0000;

pub const SC: u32 = 0xE109_0000;

/// The pages of the guest.
const PAGES: u32 = 16;

/// A number of coprocessor 0 without a register.
const UNUSED: (u8, u32) = (31, 0);

/// What a virtual processor starts from: the program counter, the address after a delay slot, and what stands in registers.
#[derive(Clone, Copy)]
pub struct Start {
    pub pc: u32,
    pub slot: Option<u32>,
    pub general: [(usize, u32); 2],
    pub cp0: [(u8, u32); 2],
}

/// A step at an address, with registers 8 and 9.
pub fn at(pc: u32, eight: u32, nine: u32) -> Start {
    Start {
        pc,
        slot: None,
        general: [(8, eight), (9, nine)],
        cp0: [UNUSED, UNUSED],
    }
}

/// A step in a delay slot.
pub fn in_slot(pc: u32, target: u32) -> Start {
    Start {
        slot: Some(target),
        ..at(pc, 0, 0)
    }
}

/// A step with a word in a register of coprocessor 0.
pub fn with_word(pc: u32, number: u8, word: u32) -> Start {
    Start {
        cp0: [(number, word), UNUSED],
        ..at(pc, 0, 0)
    }
}

fn set(vcpu: &mut Vcpu, register: (usize, u32))
    ensures { shown_by vcpu.new ≡ shown_by vcpu.old }
{
    let (number, value) = register;
    if number < 32 {
        vcpu.registers.general[number] = value;
    }
}

fn write(vcpu: &mut Vcpu, register: (u8, u32))
    ensures { shown_by vcpu.new ≡ shown_by vcpu.old }
{
    let (number, word) = register;
    vcpu.cp0.write(number, word);
}

/// A virtual processor that starts so.
pub fn started(start: &Start) -> Vcpu
    ensures { shown_by result ≡ record { halted = false; called = false; packet = false } }
{
    let mut vcpu = Vcpu::new(start.pc);
    vcpu.registers.slot = start.slot;
    set(&mut vcpu, start.general[0]);
    set(&mut vcpu, start.general[1]);
    write(&mut vcpu, start.cp0[0]);
    write(&mut vcpu, start.cp0[1]);
    vcpu
}

/// Why the hardware traps, with no half, or at a word.
fn trap(
    rt: &impl Abort,
    vcpu: &Vcpu,
    needs: Option<MoveKind>,
    word: Option<u32>,
) -> Option<TrapCause>
    ensures { IfSome result (Traps vcpu.now PAGES needs) }
{
    match word {
        None => trap_with_no_half(vcpu, PAGES),
        Some(word) => {
            let Ok(mut copy) = vcpu.clone() else {
                panic!(rt; "no memory is left");
            };
            trap_at_word(&mut copy, PAGES, needs, word)
        }
    }
}

/// What became of a step: the cause for which the hardware trapped, the answer, what stands then in the virtual processor and in the
/// devices, the status of its disk commands, and whether it has halted.
#[derive(Drop)]
pub struct Outcome {
    pub cause: TrapCause,
    pub told: Emulated,
    pub vcpu: Vcpu,
    pub devs: Devs,
    pub status: u32,
    pub halted: bool,
}

/// The step of a virtual processor, where the hardware traps.
pub fn step(
    rt: &impl Abort,
    alloc: Global,
    vcpu: &Vcpu,
    needs: Option<MoveKind>,
    word: Option<u32>,
) -> Option<Outcome>
    requires { shown_by vcpu.now ≡ record { halted = false; called = false; packet = false } }
{
    let Some(cause) = trap(rt, vcpu, needs, word) else {
        return None;
    };
    let mut devs = gave(rt, Devs::new(alloc, 2, PAGES, &InputList::new(alloc)));
    gave(rt, devs.reserve());
    let Ok(copy) = vcpu.clone() else {
        panic!(rt; "no memory is left");
    };
    let mut vcpus = [Vcpu::new(0), copy];
    let standing = Standing {
        vcpu: VcpuId(1),
        pages: PAGES,
        store_needs: needs,
    };
    let told = emulate(&mut vcpus, &standing, cause, &mut devs);
    let after = gave(rt, vcpus[1].clone());
    Some(Outcome {
        cause,
        told,
        vcpu: after,
        status: devs.transfer(VcpuId(1)).status,
        halted: devs.halted(VcpuId(1)),
        devs,
    })
}

/// Whether two virtual processors are alike in all that they hold.
pub fn are_alike(one: &Vcpu, other: &Vcpu) -> bool {
    let mut alike = one.registers == other.registers
        && one.tlb == other.tlb
        && one.link == other.link
        && one.halted == other.halted
        && one.steps == other.steps;
    for number in 0..16 {
        alike = alike && one.cp0.read(number) == other.cp0.read(number);
    }
    alike
}
