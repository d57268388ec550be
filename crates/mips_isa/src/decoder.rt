//! From words to instructions.
ghost use Rattle.std.specs.Prelude.{◌≡◌, ◌==◌, ◌/◌, ◌%◌, ◌^◌, ◌&&◌};
ghost use Rattle.base_words.specs.declared.instr.Primary.TheVariants.{BranchZero as BranchZeroPlace};
ghost use Rattle.base_words.specs.OpcodeMap.{decoded, instruction_at, where_zero, special_instruction, register_immediate_instruction, cp0_instruction};

use crate::fields::{immediate, jump_index, rd, rs, rt, sa, system_code, trap_code};
use crate::opcode_map::{primary, register_immediate, special};
use base_words::{Cond, Cp0Op, Instr, Primary, RegisterImmediate, Special, Untaken};

/// The instruction, where the fields that aren't free in it are 0.
#[inline(always)]
fn where_free(zero: bool, word: u32, instr: Instr) -> Instr
    ensures { result ≡ where_zero zero word instr }
{
    if zero { instr } else { Instr::Reserved(word) }
}

/// An instruction of opcode 0.
#[inline(always)]
fn special_of(place: Special, word: u32) -> Instr
    ensures { result ≡ special_instruction place word }
{
    match place {
        Special::Shift(op) => where_free(
            word >> 21 & 31 == 0,
            word,
            Instr::Shift {
                op,
                rt: rt(word),
                rd: rd(word),
                amount: sa(word),
            },
        ),
        Special::ShiftVariable(op) => where_free(
            word >> 6 & 31 == 0,
            word,
            Instr::ShiftVariable {
                op,
                rs: rs(word),
                rt: rt(word),
                rd: rd(word),
            },
        ),
        Special::JumpRegister => where_free(
            word >> 6 & 0x7FFF == 0,
            word,
            Instr::JumpRegister { rs: rs(word) },
        ),
        Special::JumpAndLinkRegister => where_free(
            word >> 16 & 31 == 0 && word >> 6 & 31 == 0,
            word,
            Instr::JumpAndLinkRegister {
                rs: rs(word),
                rd: rd(word),
            },
        ),
        Special::SystemCall => Instr::SystemCall {
            code: system_code(word),
        },
        Special::Break => Instr::Break {
            code: system_code(word),
        },
        Special::Sync => where_free(word >> 6 & 0xF_FFFF == 0, word, Instr::Sync),
        Special::MoveFrom(half) => where_free(
            word >> 16 & 0x3FF == 0 && word >> 6 & 31 == 0,
            word,
            Instr::MoveFrom { half, rd: rd(word) },
        ),
        Special::MoveTo(half) => where_free(
            word >> 6 & 0x7FFF == 0,
            word,
            Instr::MoveTo { half, rs: rs(word) },
        ),
        Special::MulDiv(op) => where_free(
            word >> 6 & 0x3FF == 0,
            word,
            Instr::MulDiv {
                op,
                rs: rs(word),
                rt: rt(word),
            },
        ),
        Special::Alu(op) => where_free(
            word >> 6 & 31 == 0,
            word,
            Instr::Alu {
                op,
                rs: rs(word),
                rt: rt(word),
                rd: rd(word),
            },
        ),
        Special::Trap(cond) => Instr::Trap {
            cond,
            rs: rs(word),
            rt: rt(word),
            code: trap_code(word),
        },
        Special::Reserved => Instr::Reserved(word),
    }
}

/// An instruction of opcode 1.
#[inline(always)]
fn register_immediate_of(place: RegisterImmediate, word: u32) -> Instr
    ensures { result ≡ register_immediate_instruction place word }
{
    match place {
        RegisterImmediate::Branch(cond, untaken) => Instr::BranchZero {
            cond,
            untaken,
            rs: rs(word),
            offset: immediate(word),
        },
        RegisterImmediate::BranchAndLink(cond, untaken) => Instr::BranchZeroAndLink {
            cond,
            untaken,
            rs: rs(word),
            offset: immediate(word),
        },
        RegisterImmediate::Trap(cond) => Instr::TrapImmediate {
            cond,
            rs: rs(word),
            immediate: immediate(word),
        },
        RegisterImmediate::Reserved => Instr::Reserved(word),
    }
}

/// An instruction of coprocessor 0.
#[inline(always)]
fn cp0_of(word: u32) -> Instr
    ensures { result ≡ cp0_instruction word }
{
    let only_registers = word & 0x7FF == 0;
    match word >> 21 & 31 {
        0 => where_free(
            only_registers,
            word,
            Instr::MoveFromCp0 {
                rt: rt(word),
                rd: rd(word),
            },
        ),
        4 => where_free(
            only_registers,
            word,
            Instr::MoveToCp0 {
                rt: rt(word),
                rd: rd(word),
            },
        ),
        _ => match word {
            0x4200_0001 => Instr::Cp0(Cp0Op::TlbRead),
            0x4200_0002 => Instr::Cp0(Cp0Op::TlbWriteIndexed),
            0x4200_0006 => Instr::Cp0(Cp0Op::TlbWriteRandom),
            0x4200_0008 => Instr::Cp0(Cp0Op::TlbProbe),
            0x4200_0018 => Instr::Cp0(Cp0Op::ExceptionReturn),
            _ => Instr::Reserved(word),
        },
    }
}

/// A branch on a register against 0.
#[inline(always)]
fn branch_zero_of(cond: Cond, untaken: Untaken, word: u32) -> Instr
    ensures { result ≡ instruction_at (BranchZeroPlace cond untaken) word }
{
    where_free(
        word >> 16 & 31 == 0,
        word,
        Instr::BranchZero {
            cond,
            untaken,
            rs: rs(word),
            offset: immediate(word),
        },
    )
}

/// The instruction that a word is; `Reserved` exactly for the words outside the table. Most words are of opcode 0, which is asked first.
#[inline(always)]
pub fn decode(word: u32) -> Instr
    ensures { result ≡ decoded word }
{
    if word >> 26 == 0 {
        return special_of(special(word & 63), word);
    }
    let place = primary(word >> 26);
    match place {
        Primary::Special => unreachable!(),
        Primary::RegisterImmediate => register_immediate_of(
            register_immediate(word >> 16 & 31),
            word,
        ),
        Primary::Jump => Instr::Jump {
            index: jump_index(word),
        },
        Primary::JumpAndLink => Instr::JumpAndLink {
            index: jump_index(word),
        },
        Primary::Branch(cond, untaken) => Instr::Branch {
            cond,
            untaken,
            rs: rs(word),
            rt: rt(word),
            offset: immediate(word),
        },
        Primary::BranchZero(cond, untaken) => branch_zero_of(cond, untaken, word),
        Primary::AluImmediate(op) => Instr::AluImmediate {
            op,
            rs: rs(word),
            rt: rt(word),
            immediate: immediate(word),
        },
        Primary::LoadUpper => where_free(
            word >> 21 & 31 == 0,
            word,
            Instr::LoadUpper {
                rt: rt(word),
                immediate: immediate(word),
            },
        ),
        Primary::Coprocessor0 => cp0_of(word),
        Primary::Coprocessor(unit) => Instr::Coprocessor { unit, word },
        Primary::Load(kind) => Instr::Load {
            kind,
            base: rs(word),
            rt: rt(word),
            offset: immediate(word),
        },
        Primary::Store(kind) => Instr::Store {
            kind,
            base: rs(word),
            rt: rt(word),
            offset: immediate(word),
        },
        Primary::LoadLinked => Instr::LoadLinked {
            base: rs(word),
            rt: rt(word),
            offset: immediate(word),
        },
        Primary::StoreConditional => Instr::StoreConditional {
            base: rs(word),
            rt: rt(word),
            offset: immediate(word),
        },
        Primary::Reserved => Instr::Reserved(word),
    }
}
