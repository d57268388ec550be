//! Instructions that do all by themselves on the registers, and are followed by the next one.
ghost use Rattle.std.specs.Prelude.{◌≡◌, ◌≢◌, slice_index};
ghost use Rattle.base_words.specs.Instruction.{operand as operand_of};
ghost use Rattle.base_words.specs.declared.instr.Instr.TheVariants as instrs;
ghost use Rattle.page_ops.specs.Ops.{HasTarget, Computes, Does, Puts};

use crate::op::Op;
use crate::registers::{get, set, sign_extend, upper};
use base_words::{AluOp, Half, MulOp, Register, Regs, ShiftAmount, ShiftOp};
use mips_alu::{AluOut, alu, holds, mul_div, shift};

/// The second operand that an immediate is: with its sign for arithmetic, with zeros for logic.
#[inline(always)]
fn operand(op: AluOp, immediate: u16) -> u32
    ensures { result ≡ operand_of op immediate }
{
    match op {
        AluOp::And | AluOp::Or | AluOp::Xor | AluOp::Nor => u32::from(immediate),
        _ => sign_extend(immediate),
    }
}

/// A result that fits goes into a register; one that overflows is left.
#[inline(always)]
fn put(regs: &mut Regs, number: Register, out: AluOut) -> bool
    requires zero { slice_index regs.old.general 0 ≡ 0 }
    requires some { number ≢ 0 }
    ensures puts { Puts regs.old number out regs.new result }
    ensures zero { slice_index regs.new.general 0 ≡ 0 }
{
    match out {
        AluOut::Value(value) => set(regs, number, value),
        AluOut::Overflow => false,
    }
}

/// ADD to SLTU. What overflows is left.
#[inline(always)]
fn operate(regs: &mut Regs, op: AluOp, rs: Register, rt: Register, rd: Register) -> bool
    requires zero { slice_index regs.old.general 0 ≡ 0 }
    requires target { rd ≢ 0 }
    ensures does { Does (instrs.Alu op rs rt rd) regs.old regs.new result }
    ensures zero { slice_index regs.new.general 0 ≡ 0 }
{
    let out = alu(op, get(regs, rs), get(regs, rt));
    put(regs, rd, out)
}

/// ADDI to XORI. What overflows is left.
#[inline(always)]
fn operate_with(regs: &mut Regs, op: AluOp, rs: Register, rt: Register, immediate: u16) -> bool
    requires zero { slice_index regs.old.general 0 ≡ 0 }
    requires target { rt ≢ 0 }
    ensures does { Does (instrs.AluImmediate op rs rt immediate) regs.old regs.new result }
    ensures zero { slice_index regs.new.general 0 ≡ 0 }
{
    let out = alu(op, get(regs, rs), operand(op, immediate));
    put(regs, rt, out)
}

/// SLL, SRL, SRA.
#[inline(always)]
fn shift_by(regs: &mut Regs, op: ShiftOp, rt: Register, rd: Register, amount: ShiftAmount) -> bool
    requires zero { slice_index regs.old.general 0 ≡ 0 }
    requires target { rd ≢ 0 }
    ensures does { Does (instrs.Shift op rt rd amount) regs.old regs.new result }
    ensures zero { slice_index regs.new.general 0 ≡ 0 }
{
    let value = shift(op, get(regs, rt), amount.value());
    set(regs, rd, value)
}

/// SLLV, SRLV, SRAV.
#[inline(always)]
fn shift_by_register(regs: &mut Regs, op: ShiftOp, rs: Register, rt: Register, rd: Register) -> bool
    requires zero { slice_index regs.old.general 0 ≡ 0 }
    requires target { rd ≢ 0 }
    ensures does { Does (instrs.ShiftVariable op rs rt rd) regs.old regs.new result }
    ensures zero { slice_index regs.new.general 0 ≡ 0 }
{
    let value = shift(op, get(regs, rt), get(regs, rs));
    set(regs, rd, value)
}

/// LUI.
#[inline(always)]
fn load_upper(regs: &mut Regs, rt: Register, immediate: u16) -> bool
    requires zero { slice_index regs.old.general 0 ≡ 0 }
    requires target { rt ≢ 0 }
    ensures does { Does (instrs.LoadUpper rt immediate) regs.old regs.new result }
    ensures zero { slice_index regs.new.general 0 ≡ 0 }
{
    let value = upper(immediate);
    set(regs, rt, value)
}

/// MFHI, MFLO.
#[inline(always)]
fn move_from(regs: &mut Regs, half: Half, rd: Register) -> bool
    requires zero { slice_index regs.old.general 0 ≡ 0 }
    requires target { rd ≢ 0 }
    ensures does { Does (instrs.MoveFrom half rd) regs.old regs.new result }
    ensures zero { slice_index regs.new.general 0 ≡ 0 }
{
    let value = match half {
        Half::Hi => regs.hi,
        Half::Lo => regs.lo,
    };
    set(regs, rd, value)
}

/// MTHI, MTLO.
#[inline(always)]
fn move_to(regs: &mut Regs, half: Half, rs: Register) -> bool
    requires zero { slice_index regs.old.general 0 ≡ 0 }
    ensures does { Does (instrs.MoveTo half rs) regs.old regs.new result }
    ensures zero { slice_index regs.new.general 0 ≡ 0 }
{
    let value = get(regs, rs);
    match half {
        Half::Hi => regs.hi = value,
        Half::Lo => regs.lo = value,
    }
    true
}

/// MULT, MULTU, DIV, DIVU.
#[inline(always)]
fn multiply(regs: &mut Regs, op: MulOp, rs: Register, rt: Register) -> bool
    requires zero { slice_index regs.old.general 0 ≡ 0 }
    ensures does { Does (instrs.MulDiv op rs rt) regs.old regs.new result }
    ensures zero { slice_index regs.new.general 0 ≡ 0 }
{
    let product = mul_div(op, get(regs, rs), get(regs, rt));
    regs.hi = product.hi;
    regs.lo = product.lo;
    true
}

/// Whether an instruction does all by itself on the registers; then it is done, but for the program counter.
#[inline(always)]
pub fn compute(op: &Op, regs: &mut Regs) -> bool
    requires zero { slice_index regs.old.general 0 ≡ 0 }
    requires target { HasTarget op.now }
    ensures computes { Computes op.now regs.old regs.new result }
    ensures zero { slice_index regs.new.general 0 ≡ 0 }
{
    match *op {
        Op::NoOperation { .. } => true,
        Op::Sync => true,
        Op::ShiftLeft { rt, rd, amount } => shift_by(regs, ShiftOp::Left, rt, rd, amount),
        Op::ShiftRight { rt, rd, amount } => shift_by(regs, ShiftOp::RightLogical, rt, rd, amount),
        Op::ShiftRightSigned { rt, rd, amount } => {
            shift_by(regs, ShiftOp::RightArithmetic, rt, rd, amount)
        }
        Op::ShiftLeftBy { rs, rt, rd } => shift_by_register(regs, ShiftOp::Left, rs, rt, rd),
        Op::ShiftRightBy { rs, rt, rd } => {
            shift_by_register(regs, ShiftOp::RightLogical, rs, rt, rd)
        }
        Op::ShiftRightSignedBy { rs, rt, rd } => {
            shift_by_register(regs, ShiftOp::RightArithmetic, rs, rt, rd)
        }
        Op::Add { rs, rt, rd } => operate(regs, AluOp::Add, rs, rt, rd),
        Op::AddUnsigned { rs, rt, rd } => operate(regs, AluOp::AddUnsigned, rs, rt, rd),
        Op::Subtract { rs, rt, rd } => operate(regs, AluOp::Subtract, rs, rt, rd),
        Op::SubtractUnsigned { rs, rt, rd } => operate(regs, AluOp::SubtractUnsigned, rs, rt, rd),
        Op::And { rs, rt, rd } => operate(regs, AluOp::And, rs, rt, rd),
        Op::Or { rs, rt, rd } => operate(regs, AluOp::Or, rs, rt, rd),
        Op::Xor { rs, rt, rd } => operate(regs, AluOp::Xor, rs, rt, rd),
        Op::Nor { rs, rt, rd } => operate(regs, AluOp::Nor, rs, rt, rd),
        Op::SetLess { rs, rt, rd } => operate(regs, AluOp::SetLess, rs, rt, rd),
        Op::SetLessUnsigned { rs, rt, rd } => operate(regs, AluOp::SetLessUnsigned, rs, rt, rd),
        Op::AddImmediate { rs, rt, immediate } => {
            operate_with(regs, AluOp::Add, rs, rt, immediate)
        }
        Op::AddImmediateUnsigned { rs, rt, immediate } => {
            operate_with(regs, AluOp::AddUnsigned, rs, rt, immediate)
        }
        Op::SetLessImmediate { rs, rt, immediate } => {
            operate_with(regs, AluOp::SetLess, rs, rt, immediate)
        }
        Op::SetLessImmediateUnsigned { rs, rt, immediate } => {
            operate_with(regs, AluOp::SetLessUnsigned, rs, rt, immediate)
        }
        Op::AndImmediate { rs, rt, immediate } => {
            operate_with(regs, AluOp::And, rs, rt, immediate)
        }
        Op::OrImmediate { rs, rt, immediate } => operate_with(regs, AluOp::Or, rs, rt, immediate),
        Op::XorImmediate { rs, rt, immediate } => {
            operate_with(regs, AluOp::Xor, rs, rt, immediate)
        }
        Op::LoadUpper { rt, immediate } => load_upper(regs, rt, immediate),
        Op::MoveFromHi { rd } => move_from(regs, Half::Hi, rd),
        Op::MoveFromLo { rd } => move_from(regs, Half::Lo, rd),
        Op::MoveToHi { rs } => move_to(regs, Half::Hi, rs),
        Op::MoveToLo { rs } => move_to(regs, Half::Lo, rs),
        Op::MulDiv { op, rs, rt } => multiply(regs, op, rs, rt),
        Op::Trap { cond, rs, rt, .. } => !holds(cond, get(regs, rs), get(regs, rt)),
        Op::TrapImmediate {
            cond,
            rs,
            immediate,
        } => !holds(cond, get(regs, rs), sign_extend(immediate)),
        _ => false,
    }
}
