//! Branches and jumps.
ghost use Rattle.std.specs.Prelude.{◌≡◌, ◌≢◌, ◌+◌, ◌*◌, ◌/◌, ◌^◌, true, slice_index};
ghost use Rattle.base_words.specs.Fields.{sum};
ghost use Rattle.page_ops.specs.Leading.{Leads, HasLinked, target, leads_to, leads_likely};
ghost use Rattle.page_ops.specs.Ops.{HasTarget};

use crate::op::Op;
use crate::registers::{get, set, sign_extend};
use base_words::{Cond, JumpIndex, Register, Regs, Request};
use mips_alu::holds;

/// Where an instruction leads.
#[derive(Clone, Copy, Debug, PartialEq, Eq)]
pub enum Lead {
    /// The instruction in the delay slot follows, and then the one at this address.
    ToSlot(u32),
    /// It's a likely branch that isn't taken: its delay slot is passed over.
    PastSlot,
    /// It asks this of memory.
    Asks(Request),
    /// It is none of these, and nothing is done.
    Nowhere,
}

/// A jump's target, in the region of its delay slot.
#[inline(always)]
fn jump_target(pc: u32, index: JumpIndex) -> u32
    ensures { result ≡ sum pc 4 / 2 ^ 28 * 2 ^ 28 + index * 4 }
{
    (pc.wrapping_add(4) >> 28 << 28) + index.value() * 4
}

/// Where a branch leads that is taken.
#[inline(always)]
fn branch_target(pc: u32, offset: u16) -> u32
    ensures { result ≡ target true offset pc }
{
    pc.wrapping_add(4)
        .wrapping_add(sign_extend(offset).wrapping_mul(4))
}

/// Where a branch leads.
#[inline(always)]
fn branched(pc: u32, taken: bool, offset: u16) -> Lead
    ensures { result ≡ leads_to taken offset pc }
{
    Lead::ToSlot(if taken {
        branch_target(pc, offset)
    } else {
        pc.wrapping_add(8)
    })
}

/// Where a likely branch leads.
#[inline(always)]
fn branched_likely(pc: u32, taken: bool, offset: u16) -> Lead
    ensures { result ≡ leads_likely taken offset pc }
{
    if taken {
        Lead::ToSlot(branch_target(pc, offset))
    } else {
        Lead::PastSlot
    }
}

/// The address after the delay slot goes into a register.
#[inline(always)]
fn link(regs: &mut Regs, number: Register, pc: u32)
    requires zero { slice_index regs.old.general 0 ≡ 0 }
    requires some { number ≢ 0 }
    ensures linked { HasLinked regs.old number pc regs.new }
    ensures zero { slice_index regs.new.general 0 ≡ 0 }
{
    set(regs, number, pc.wrapping_add(8));
}

/// What a branch, a jump or an access at this address does, which isn't in a delay slot; what it links is in its register then.
#[inline(always)]
pub fn follow(op: &Op, regs: &mut Regs, pc: u32) -> Lead
    requires zero { slice_index regs.old.general 0 ≡ 0 }
    requires target { HasTarget op.now }
    ensures leads { Leads op.now regs.old regs.new pc result }
    ensures zero { slice_index regs.new.general 0 ≡ 0 }
{
    match *op {
        Op::BranchEqual { rs, rt, offset } => {
            branched(pc, holds(Cond::Equal, get(regs, rs), get(regs, rt)), offset)
        }
        Op::BranchNotEqual { rs, rt, offset } => {
            branched(
                pc,
                holds(Cond::NotEqual, get(regs, rs), get(regs, rt)),
                offset,
            )
        }
        Op::BranchZero { cond, rs, offset } => {
            branched(pc, holds(cond, get(regs, rs), 0), offset)
        }
        Op::BranchEqualLikely { rs, rt, offset } => {
            branched_likely(pc, holds(Cond::Equal, get(regs, rs), get(regs, rt)), offset)
        }
        Op::BranchNotEqualLikely { rs, rt, offset } => {
            branched_likely(
                pc,
                holds(Cond::NotEqual, get(regs, rs), get(regs, rt)),
                offset,
            )
        }
        Op::BranchZeroLikely { cond, rs, offset } => {
            branched_likely(pc, holds(cond, get(regs, rs), 0), offset)
        }
        Op::BranchZeroAndLink { cond, rs, offset } => {
            let taken = holds(cond, get(regs, rs), 0);
            link(regs, Register::new(31), pc);
            branched(pc, taken, offset)
        }
        Op::Jump { index } => Lead::ToSlot(jump_target(pc, index)),
        Op::JumpAndLink { index } => {
            link(regs, Register::new(31), pc);
            Lead::ToSlot(jump_target(pc, index))
        }
        Op::JumpRegister { rs } => Lead::ToSlot(get(regs, rs)),
        Op::JumpAndLinkRegister { rs, rd } => {
            let target = get(regs, rs);
            link(regs, rd, pc);
            Lead::ToSlot(target)
        }
        Op::Load {
            kind,
            base,
            rt,
            offset,
        } => Lead::Asks(Request::Load {
            kind,
            address: get(regs, base).wrapping_add(sign_extend(offset)),
            target: rt,
        }),
        Op::Store {
            kind,
            base,
            rt,
            offset,
        } => Lead::Asks(Request::Store {
            kind,
            address: get(regs, base).wrapping_add(sign_extend(offset)),
            value: get(regs, rt),
        }),
        _ => Lead::Nowhere,
    }
}
