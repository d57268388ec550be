//! One instruction on the registers.
ghost use Rattle.std.specs.Prelude.{◌≡◌};
ghost use Rattle.base_words.specs.Instruction.{effect, computed, done, leads, trapped, branched, to_slot, linked, jump_target as target_of, address as address_of, half_of_product, with_half, register as register_of, system as system_of};
ghost use Rattle.mips_alu.specs.Execution.{Executes, outside_slot};
ghost use Rattle.mips_alu.specs.Result.{option_of};
ghost use Rattle.base_words.specs.declared.effect.Request.TheVariants.{Nothing};

use crate::arithmetic::{AluOut, alu, holds, mul_div, operand, shift, sign_extend};
use crate::registers::{advance, read, write};
use base_words::{Cp0Op, Exception, Half, Instr, JumpIndex, Register, Regs, Request, Untaken};

/// The instruction is done, and the next one follows.
#[inline(always)]
fn finish(regs: &mut Regs) -> Result<Request, Exception>
    ensures { Executes (done regs.old Nothing) regs.old regs.new result }
{
    advance(regs);
    Ok(Request::Nothing)
}

/// A computed value goes into a register, and the next instruction follows.
#[inline(always)]
fn put(regs: &mut Regs, register: Register, out: AluOut) -> Result<Request, Exception>
    ensures { Executes (computed (option_of out) register regs.old) regs.old regs.new result }
{
    match out {
        AluOut::Value(value) => {
            write(regs, register, value);
            finish(regs)
        }
        AluOut::Overflow => Err(Exception::Overflow),
    }
}

/// A trap is raised where its condition holds.
fn trap(regs: &mut Regs, raised: bool) -> Result<Request, Exception>
    ensures { Executes (trapped raised regs.old) regs.old regs.new result }
{
    if raised {
        Err(Exception::Trap)
    } else {
        finish(regs)
    }
}

/// The instruction in the delay slot follows, and then the target.
#[inline(always)]
fn enter_slot(regs: &mut Regs, target: u32)
    ensures { regs.new ≡ to_slot regs.old target }
{
    regs.pc = regs.pc.wrapping_add(4);
    regs.slot = Some(target);
}

/// The address after the delay slot goes into a register.
#[inline(always)]
fn link(regs: &mut Regs, register: Register)
    ensures { regs.new ≡ linked regs.old register }
{
    write(regs, register, regs.pc.wrapping_add(8));
}

/// Where a branch leads: where it isn't taken its delay slot follows, or is passed over.
#[inline(always)]
fn go_on(regs: &mut Regs, taken: bool, untaken: Untaken, offset: u16)
    ensures { regs.new ≡ branched taken untaken offset regs.old }
{
    let past = regs.pc.wrapping_add(8);
    if taken {
        let slot = regs.pc.wrapping_add(4);
        return enter_slot(regs, slot.wrapping_add(sign_extend(offset).wrapping_mul(4)));
    }
    match untaken {
        Untaken::Slot => enter_slot(regs, past),
        Untaken::PastSlot => {
            regs.pc = past;
            regs.slot = None;
        }
    }
}

/// A branch or a jump is reserved in a delay slot.
#[inline(always)]
fn test_slot(regs: &Regs) -> Result<(), Exception>
    ensures { result ≡ outside_slot regs.now.slot }
{
    match regs.slot {
        None => Ok(()),
        Some(_) => Err(Exception::ReservedInstruction),
    }
}

/// A jump; in a delay slot it is reserved.
#[inline(always)]
fn jump(regs: &mut Regs, target: u32) -> Result<Request, Exception>
    ensures { Executes (leads regs.old.slot (to_slot regs.old target)) regs.old regs.new result }
{
    test_slot(regs)?;
    enter_slot(regs, target);
    Ok(Request::Nothing)
}

/// A jump that leaves where it returns to in a register; in a delay slot it is reserved.
fn jump_and_link(regs: &mut Regs, register: Register, target: u32) -> Result<Request, Exception>
    ensures { Executes (leads regs.old.slot (to_slot (linked regs.old register) target)) regs.old regs.new result }
{
    test_slot(regs)?;
    link(regs, register);
    enter_slot(regs, target);
    Ok(Request::Nothing)
}

/// A branch; in a delay slot it is reserved.
#[inline(always)]
fn branch(regs: &mut Regs, taken: bool, untaken: Untaken, offset: u16) -> Result<Request, Exception>
    ensures { Executes (leads regs.old.slot (branched taken untaken offset regs.old)) regs.old regs.new result }
{
    test_slot(regs)?;
    go_on(regs, taken, untaken, offset);
    Ok(Request::Nothing)
}

/// A branch that leaves where it returns to in register 31, taken or not; in a delay slot it is reserved.
fn branch_and_link(
    regs: &mut Regs,
    taken: bool,
    untaken: Untaken,
    offset: u16,
) -> Result<Request, Exception>
    ensures { Executes (leads regs.old.slot (branched taken untaken offset (linked regs.old 31))) regs.old regs.new result }
{
    test_slot(regs)?;
    link(regs, return_register());
    go_on(regs, taken, untaken, offset);
    Ok(Request::Nothing)
}

/// A jump's target, in the region of the delay slot.
#[inline(always)]
fn jump_target(regs: &Regs, index: JumpIndex) -> u32
    ensures { result ≡ target_of regs.now index }
{
    (regs.pc.wrapping_add(4) >> 28 << 28) + index.value() * 4
}

/// The address of a load or a store.
#[inline(always)]
fn address(regs: &Regs, base: Register, offset: u16) -> u32
    ensures { result ≡ address_of regs.now base offset }
{
    read(regs, base).wrapping_add(sign_extend(offset))
}

/// HI or LO.
#[inline(always)]
fn half(regs: &Regs, half: Half) -> u32
    ensures { result ≡ half_of_product half regs.now }
{
    match half {
        Half::Hi => regs.hi,
        Half::Lo => regs.lo,
    }
}

/// Replaces HI or LO.
#[inline(always)]
fn set_half(regs: &mut Regs, half: Half, value: u32)
    ensures { regs.new ≡ with_half half regs.old value }
{
    match half {
        Half::Hi => regs.hi = value,
        Half::Lo => regs.lo = value,
    }
}

/// Register 31, in which a call leaves where it returns to.
#[inline(always)]
fn return_register() -> Register
    ensures { result ≡ 31 }
{
    Register::new(31)
}

/// An instruction of the TLB, or the return from an exception, which is reserved in a delay slot.
fn system(regs: &Regs, op: Cp0Op) -> Result<Request, Exception>
    ensures { Executes (system_of op regs.now) regs.now regs.now result }
{
    if op == Cp0Op::ExceptionReturn {
        test_slot(regs)?;
    }
    Ok(Request::System(op))
}

/// Does an instruction on the registers, and answers what it asks of memory or of coprocessor 0. Where it asks something the
/// registers stay until the answer is there, and where it raises an exception they stay.
#[inline(always)]
pub fn execute(instr: &Instr, regs: &mut Regs) -> Result<Request, Exception>
    ensures { Executes (effect instr.now regs.old) regs.old regs.new result }
{
    match *instr {
        Instr::Shift { op, rt, rd, amount } => {
            let value = shift(op, read(regs, rt), amount.value());
            put(regs, rd, AluOut::Value(value))
        }
        Instr::ShiftVariable { op, rs, rt, rd } => {
            let value = shift(op, read(regs, rt), read(regs, rs));
            put(regs, rd, AluOut::Value(value))
        }
        Instr::JumpRegister { rs } => {
            let target = read(regs, rs);
            jump(regs, target)
        }
        Instr::JumpAndLinkRegister { rs, rd } => {
            let target = read(regs, rs);
            jump_and_link(regs, rd, target)
        }
        Instr::SystemCall { code: _ } => Err(Exception::SystemCall),
        Instr::Break { code: _ } => Err(Exception::Breakpoint),
        Instr::Sync => finish(regs),
        Instr::MoveFrom { half: which, rd } => {
            let value = half(regs, which);
            put(regs, rd, AluOut::Value(value))
        }
        Instr::MoveTo { half: which, rs } => {
            let value = read(regs, rs);
            set_half(regs, which, value);
            finish(regs)
        }
        Instr::MulDiv { op, rs, rt } => {
            let product = mul_div(op, read(regs, rs), read(regs, rt));
            regs.hi = product.hi;
            regs.lo = product.lo;
            finish(regs)
        }
        Instr::Alu { op, rs, rt, rd } => {
            let out = alu(op, read(regs, rs), read(regs, rt));
            put(regs, rd, out)
        }
        Instr::Trap {
            cond,
            rs,
            rt,
            code: _,
        } => {
            let raised = holds(cond, read(regs, rs), read(regs, rt));
            trap(regs, raised)
        }
        Instr::Branch {
            cond,
            untaken,
            rs,
            rt,
            offset,
        } => {
            let taken = holds(cond, read(regs, rs), read(regs, rt));
            branch(regs, taken, untaken, offset)
        }
        Instr::BranchZero {
            cond,
            untaken,
            rs,
            offset,
        } => {
            let taken = holds(cond, read(regs, rs), 0);
            branch(regs, taken, untaken, offset)
        }
        Instr::BranchZeroAndLink {
            cond,
            untaken,
            rs,
            offset,
        } => {
            let taken = holds(cond, read(regs, rs), 0);
            branch_and_link(regs, taken, untaken, offset)
        }
        Instr::TrapImmediate {
            cond,
            rs,
            immediate,
        } => {
            let raised = holds(cond, read(regs, rs), sign_extend(immediate));
            trap(regs, raised)
        }
        Instr::Jump { index } => {
            let target = jump_target(regs, index);
            jump(regs, target)
        }
        Instr::JumpAndLink { index } => {
            let target = jump_target(regs, index);
            jump_and_link(regs, return_register(), target)
        }
        Instr::AluImmediate {
            op,
            rs,
            rt,
            immediate,
        } => {
            let out = alu(op, read(regs, rs), operand(op, immediate));
            put(regs, rt, out)
        }
        Instr::LoadUpper { rt, immediate } => put(
            regs,
            rt,
            AluOut::Value(u32::from(immediate) << 16),
        ),
        Instr::Load {
            kind,
            base,
            rt,
            offset,
        } => {
            let request = Request::Load {
                kind,
                address: address(regs, base, offset),
                target: rt,
            };
            Ok(request)
        }
        Instr::Store {
            kind,
            base,
            rt,
            offset,
        } => {
            let request = Request::Store {
                kind,
                address: address(regs, base, offset),
                value: read(regs, rt),
            };
            Ok(request)
        }
        Instr::LoadLinked { base, rt, offset } => {
            let request = Request::LoadLinked {
                address: address(regs, base, offset),
                target: rt,
            };
            Ok(request)
        }
        Instr::StoreConditional { base, rt, offset } => {
            let request = Request::StoreConditional {
                address: address(regs, base, offset),
                value: read(regs, rt),
                target: rt,
            };
            Ok(request)
        }
        Instr::MoveFromCp0 { rt, rd } => Ok(Request::ReadCp0 {
            number: rd,
            target: rt,
        }),
        Instr::MoveToCp0 { rt, rd } => {
            let request = Request::WriteCp0 {
                number: rd,
                value: read(regs, rt),
            };
            Ok(request)
        }
        Instr::Cp0(op) => system(regs, op),
        Instr::Reserved(_) => Err(Exception::ReservedInstruction),
        Instr::Coprocessor { unit, word: _ } => Err(Exception::CoprocessorUnusable(unit)),
    }
}
