//! From instructions to words.
ghost use Rattle.std.specs.Prelude.{◌≡◌, ◌<◌, ◌+◌, ◌*◌, ◌^◌};
ghost use Rattle.base_words.specs.declared.instr.Special.TheVariants.{Trap as TrapPlace};
ghost use Rattle.mips_isa.specs.Encoding.{encoded, immediate_form as immediate_form_of, jump_form as jump_form_of, register_form as register_form_of, code_form as code_form_of, one_form as one_form_of, branch_zero_word as branch_zero_word_of, cp0_word as cp0_word_of};

use crate::place_codes::{primary_code, register_immediate_code, special_code};
use base_words::{Cond, Cp0Op, Instr, Primary, RegisterImmediate, Special, Untaken};

/// Two registers and an immediate.
fn immediate_form(place: Primary, rs: u32, rt: u32, immediate: u16) -> u32
    requires rs { rs < 32 }
    requires rt { rt < 32 }
    ensures { result ≡ immediate_form_of place rs rt immediate }
{
    let opcode = primary_code(place).wrapping_mul(0x400_0000);
    opcode.wrapping_add(rs * 0x20_0000 + rt * 0x1_0000 + u32::from(immediate))
}

/// An index.
fn jump_form(place: Primary, index: u32) -> u32
    requires { index < 2 ^ 26 }
    ensures { result ≡ jump_form_of place index }
{
    let opcode = primary_code(place).wrapping_mul(0x400_0000);
    opcode.wrapping_add(index)
}

/// Three registers and an amount, of opcode 0.
fn register_form(place: Special, rs: u32, rt: u32, rd: u32, sa: u32) -> u32
    requires rs { rs < 32 }
    requires rt { rt < 32 }
    requires rd { rd < 32 }
    requires sa { sa < 32 }
    ensures { result ≡ register_form_of place rs rt rd sa }
{
    rs * 0x20_0000 + rt * 0x1_0000 + rd * 0x800 + sa * 0x40 + special_code(place)
}

/// A code of 20 bits, of opcode 0.
fn code_form(place: Special, code: u32) -> u32
    requires { code < 2 ^ 20 }
    ensures { result ≡ code_form_of place code }
{
    code * 0x40 + special_code(place)
}

/// Two registers and a code of 10 bits, of opcode 0.
fn trap_form(cond: Cond, rs: u32, rt: u32, code: u32) -> u32
    requires rs { rs < 32 }
    requires rt { rt < 32 }
    requires code { code < 2 ^ 10 }
    ensures { result ≡ rs * 2 ^ 21 + rt * 2 ^ 16 + code_form_of (TrapPlace cond) code }
{
    rs * 0x20_0000 + rt * 0x1_0000 + code_form(Special::Trap(cond), code)
}

/// A register and an immediate, of opcode 1.
fn one_form(place: RegisterImmediate, rs: u32, immediate: u16) -> u32
    requires { rs < 32 }
    ensures { result ≡ one_form_of place rs immediate }
{
    0x400_0000 + rs * 0x20_0000 + register_immediate_code(place) * 0x1_0000 + u32::from(immediate)
}

/// A branch on a register against 0.
fn branch_zero_word(cond: Cond, untaken: Untaken, rs: u32, offset: u16) -> u32
    requires { rs < 32 }
    ensures { result ≡ branch_zero_word_of cond untaken rs offset }
{
    match cond {
        Cond::LessOrEqual | Cond::Greater => immediate_form(
            Primary::BranchZero(cond, untaken),
            rs,
            0,
            offset,
        ),
        _ => one_form(RegisterImmediate::Branch(cond, untaken), rs, offset),
    }
}

/// An instruction of coprocessor 0 without fields.
fn cp0_word(op: Cp0Op) -> u32
    ensures { result ≡ cp0_word_of op }
{
    match op {
        Cp0Op::TlbRead => 0x4200_0001,
        Cp0Op::TlbWriteIndexed => 0x4200_0002,
        Cp0Op::TlbWriteRandom => 0x4200_0006,
        Cp0Op::TlbProbe => 0x4200_0008,
        Cp0Op::ExceptionReturn => 0x4200_0018,
    }
}

/// The word of an instruction: of the instruction that a word is, that word.
pub fn encode(instr: &Instr) -> u32
    ensures { result ≡ encoded instr.now }
{
    match *instr {
        Instr::Shift { op, rt, rd, amount } => register_form(
            Special::Shift(op),
            0,
            rt.value(),
            rd.value(),
            amount.value(),
        ),
        Instr::ShiftVariable { op, rs, rt, rd } => register_form(
            Special::ShiftVariable(op),
            rs.value(),
            rt.value(),
            rd.value(),
            0,
        ),
        Instr::JumpRegister { rs } => register_form(Special::JumpRegister, rs.value(), 0, 0, 0),
        Instr::JumpAndLinkRegister { rs, rd } => register_form(
            Special::JumpAndLinkRegister,
            rs.value(),
            0,
            rd.value(),
            0,
        ),
        Instr::SystemCall { code } => code_form(Special::SystemCall, code.value()),
        Instr::Break { code } => code_form(Special::Break, code.value()),
        Instr::Sync => code_form(Special::Sync, 0),
        Instr::MoveFrom { half, rd } => register_form(Special::MoveFrom(half), 0, 0, rd.value(), 0),
        Instr::MoveTo { half, rs } => register_form(Special::MoveTo(half), rs.value(), 0, 0, 0),
        Instr::MulDiv { op, rs, rt } => register_form(
            Special::MulDiv(op),
            rs.value(),
            rt.value(),
            0,
            0,
        ),
        Instr::Alu { op, rs, rt, rd } => register_form(
            Special::Alu(op),
            rs.value(),
            rt.value(),
            rd.value(),
            0,
        ),
        Instr::Trap { cond, rs, rt, code } => trap_form(cond, rs.value(), rt.value(), code.value()),
        Instr::Branch {
            cond,
            untaken,
            rs,
            rt,
            offset,
        } => immediate_form(
            Primary::Branch(cond, untaken),
            rs.value(),
            rt.value(),
            offset,
        ),
        Instr::BranchZero {
            cond,
            untaken,
            rs,
            offset,
        } => branch_zero_word(cond, untaken, rs.value(), offset),
        Instr::BranchZeroAndLink {
            cond,
            untaken,
            rs,
            offset,
        } => one_form(
            RegisterImmediate::BranchAndLink(cond, untaken),
            rs.value(),
            offset,
        ),
        Instr::TrapImmediate {
            cond,
            rs,
            immediate,
        } => one_form(RegisterImmediate::Trap(cond), rs.value(), immediate),
        Instr::Jump { index } => jump_form(Primary::Jump, index.value()),
        Instr::JumpAndLink { index } => jump_form(Primary::JumpAndLink, index.value()),
        Instr::AluImmediate {
            op,
            rs,
            rt,
            immediate,
        } => immediate_form(Primary::AluImmediate(op), rs.value(), rt.value(), immediate),
        Instr::LoadUpper { rt, immediate } => immediate_form(
            Primary::LoadUpper,
            0,
            rt.value(),
            immediate,
        ),
        Instr::Load {
            kind,
            base,
            rt,
            offset,
        } => immediate_form(Primary::Load(kind), base.value(), rt.value(), offset),
        Instr::Store {
            kind,
            base,
            rt,
            offset,
        } => immediate_form(Primary::Store(kind), base.value(), rt.value(), offset),
        Instr::LoadLinked { base, rt, offset } => immediate_form(
            Primary::LoadLinked,
            base.value(),
            rt.value(),
            offset,
        ),
        Instr::StoreConditional { base, rt, offset } => immediate_form(
            Primary::StoreConditional,
            base.value(),
            rt.value(),
            offset,
        ),
        Instr::MoveFromCp0 { rt, rd } => immediate_form(
            Primary::Coprocessor0,
            0,
            rt.value(),
            (rd.value() * 0x800) as u16,
        ),
        Instr::MoveToCp0 { rt, rd } => immediate_form(
            Primary::Coprocessor0,
            4,
            rt.value(),
            (rd.value() * 0x800) as u16,
        ),
        Instr::Cp0(op) => cp0_word(op),
        Instr::Coprocessor { unit: _, word } => word,
        Instr::Reserved(word) => word,
    }
}
