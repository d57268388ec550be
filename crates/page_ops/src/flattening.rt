//! The flat form of an instruction.
ghost use Rattle.std.specs.Prelude.{◌≡◌};
ghost use Rattle.base_words.specs.declared.instr.Instr.TheVariants.{Shift, ShiftVariable, Alu, AluImmediate, MoveFrom, MoveTo, Branch};
ghost use Rattle.base_words.specs.declared.instr.Untaken.{Untaken};
ghost use Rattle.page_ops.specs.Ops.{IsOpOf, IsOp};

use crate::op::Op;
use base_words::{AluOp, Cond, Half, Instr, Register, ShiftAmount, ShiftOp, Untaken};
use mips_isa::decode;

/// A shift.
fn shift_op(op: ShiftOp, rt: Register, rd: Register, amount: ShiftAmount) -> Op
    ensures { IsOp result (Shift op rt rd amount) }
{
    if rd.value() == 0 {
        return Op::NoOperation { op, rt, amount };
    }
    match op {
        ShiftOp::Left => Op::ShiftLeft { rt, rd, amount },
        ShiftOp::RightLogical => Op::ShiftRight { rt, rd, amount },
        ShiftOp::RightArithmetic => Op::ShiftRightSigned { rt, rd, amount },
    }
}

/// A shift by a register.
fn variable_op(instr: Instr, op: ShiftOp, rs: Register, rt: Register, rd: Register) -> Op
    requires { instr ≡ ShiftVariable op rs rt rd }
    ensures { IsOp result instr }
{
    if rd.value() == 0 {
        return Op::Rest(instr);
    }
    match op {
        ShiftOp::Left => Op::ShiftLeftBy { rs, rt, rd },
        ShiftOp::RightLogical => Op::ShiftRightBy { rs, rt, rd },
        ShiftOp::RightArithmetic => Op::ShiftRightSignedBy { rs, rt, rd },
    }
}

/// An operation on two registers.
fn alu_op(instr: Instr, op: AluOp, rs: Register, rt: Register, rd: Register) -> Op
    requires { instr ≡ Alu op rs rt rd }
    ensures { IsOp result instr }
{
    if rd.value() == 0 {
        return Op::Rest(instr);
    }
    match op {
        AluOp::Add => Op::Add { rs, rt, rd },
        AluOp::AddUnsigned => Op::AddUnsigned { rs, rt, rd },
        AluOp::Subtract => Op::Subtract { rs, rt, rd },
        AluOp::SubtractUnsigned => Op::SubtractUnsigned { rs, rt, rd },
        AluOp::And => Op::And { rs, rt, rd },
        AluOp::Or => Op::Or { rs, rt, rd },
        AluOp::Xor => Op::Xor { rs, rt, rd },
        AluOp::Nor => Op::Nor { rs, rt, rd },
        AluOp::SetLess => Op::SetLess { rs, rt, rd },
        AluOp::SetLessUnsigned => Op::SetLessUnsigned { rs, rt, rd },
    }
}

/// An operation on a register and an immediate.
fn immediate_op(instr: Instr, op: AluOp, rs: Register, rt: Register, immediate: u16) -> Op
    requires { instr ≡ AluImmediate op rs rt immediate }
    ensures { IsOp result instr }
{
    if rt.value() == 0 {
        return Op::Rest(instr);
    }
    match op {
        AluOp::Add => Op::AddImmediate { rs, rt, immediate },
        AluOp::AddUnsigned => Op::AddImmediateUnsigned { rs, rt, immediate },
        AluOp::SetLess => Op::SetLessImmediate { rs, rt, immediate },
        AluOp::SetLessUnsigned => Op::SetLessImmediateUnsigned { rs, rt, immediate },
        AluOp::And => Op::AndImmediate { rs, rt, immediate },
        AluOp::Or => Op::OrImmediate { rs, rt, immediate },
        AluOp::Xor => Op::XorImmediate { rs, rt, immediate },
        AluOp::Subtract | AluOp::SubtractUnsigned | AluOp::Nor => Op::Rest(instr),
    }
}

/// HI or LO is read.
fn from_half_op(instr: Instr, half: Half, rd: Register) -> Op
    requires { instr ≡ MoveFrom half rd }
    ensures { IsOp result instr }
{
    if rd.value() == 0 {
        return Op::Rest(instr);
    }
    match half {
        Half::Hi => Op::MoveFromHi { rd },
        Half::Lo => Op::MoveFromLo { rd },
    }
}

/// HI or LO is written.
fn to_half_op(half: Half, rs: Register) -> Op
    ensures { IsOp result (MoveTo half rs) }
{
    match half {
        Half::Hi => Op::MoveToHi { rs },
        Half::Lo => Op::MoveToLo { rs },
    }
}

/// A branch by two registers.
fn branch_op(
    instr: Instr,
    cond: Cond,
    untaken: Untaken,
    rs: Register,
    rt: Register,
    offset: u16,
) -> Op
    requires { instr ≡ Branch cond untaken rs rt offset }
    ensures { IsOp result instr }
{
    match (cond, untaken) {
        (Cond::Equal, Untaken::Slot) => Op::BranchEqual { rs, rt, offset },
        (Cond::NotEqual, Untaken::Slot) => Op::BranchNotEqual { rs, rt, offset },
        (Cond::Equal, Untaken::PastSlot) => Op::BranchEqualLikely { rs, rt, offset },
        (Cond::NotEqual, Untaken::PastSlot) => Op::BranchNotEqualLikely { rs, rt, offset },
        _ => Op::Rest(instr),
    }
}

/// What writes no register but by a call, or is left as it is.
fn other_op(instr: &Instr) -> Op
    ensures { IsOp result instr.now }
{
    match *instr {
        Instr::Sync => Op::Sync,
        Instr::MulDiv { op, rs, rt } => Op::MulDiv { op, rs, rt },
        Instr::Trap { cond, rs, rt, code } => Op::Trap { cond, rs, rt, code },
        Instr::TrapImmediate {
            cond,
            rs,
            immediate,
        } => Op::TrapImmediate {
            cond,
            rs,
            immediate,
        },
        Instr::BranchZero {
            cond,
            untaken,
            rs,
            offset,
        } => match untaken {
            Untaken::Slot => Op::BranchZero { cond, rs, offset },
            Untaken::PastSlot => Op::BranchZeroLikely { cond, rs, offset },
        },
        Instr::BranchZeroAndLink {
            cond,
            untaken,
            rs,
            offset,
        } => match untaken {
            Untaken::Slot => Op::BranchZeroAndLink { cond, rs, offset },
            Untaken::PastSlot => Op::Rest(*instr),
        },
        Instr::Jump { index } => Op::Jump { index },
        Instr::JumpAndLink { index } => Op::JumpAndLink { index },
        Instr::JumpRegister { rs } => Op::JumpRegister { rs },
        Instr::Load {
            kind,
            base,
            rt,
            offset,
        } => Op::Load {
            kind,
            base,
            rt,
            offset,
        },
        Instr::Store {
            kind,
            base,
            rt,
            offset,
        } => Op::Store {
            kind,
            base,
            rt,
            offset,
        },
        _ => Op::Rest(*instr),
    }
}

/// The flat form of an instruction.
fn op_of(instr: &Instr) -> Op
    ensures { IsOp result instr.now }
{
    match *instr {
        Instr::Shift { op, rt, rd, amount } => shift_op(op, rt, rd, amount),
        Instr::ShiftVariable { op, rs, rt, rd } => variable_op(*instr, op, rs, rt, rd),
        Instr::Alu { op, rs, rt, rd } => alu_op(*instr, op, rs, rt, rd),
        Instr::AluImmediate {
            op,
            rs,
            rt,
            immediate,
        } => { immediate_op(*instr, op, rs, rt, immediate) }
        Instr::LoadUpper { rt, immediate } => {
            if rt.value() == 0 {
                Op::Rest(*instr)
            } else {
                Op::LoadUpper { rt, immediate }
            }
        }
        Instr::MoveFrom { half, rd } => from_half_op(*instr, half, rd),
        Instr::MoveTo { half, rs } => to_half_op(half, rs),
        Instr::Branch {
            cond,
            untaken,
            rs,
            rt,
            offset,
        } => { branch_op(*instr, cond, untaken, rs, rt, offset) }
        Instr::JumpAndLinkRegister { rs, rd } => {
            if rd.value() == 0 {
                Op::Rest(*instr)
            } else {
                Op::JumpAndLinkRegister { rs, rd }
            }
        }
        _ => other_op(instr),
    }
}

/// The flat form of a word.
#[cold]
#[inline(never)]
pub fn flat(word: u32) -> Op
    ensures { IsOpOf result word }
{
    op_of(&decode(word))
}
