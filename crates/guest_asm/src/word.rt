//! The instruction of a statement, and its word.
ghost use Rattle.std.specs.Prelude.{◌≡◌, ◌%◌, ◌^◌};
ghost use Rattle.guest_asm.specs.Words as spec;

use crate::fields::Fields;
use crate::mnemonics::Operation;
use mips_isa::{Instr, JumpIndex, ShiftAmount, SystemCode, TrapCode, encode};

/// A value as an immediate.
fn immediate(value: u32) -> u16
    ensures { result ≡ spec.immediate value }
{
    (value % 0x1_0000) as u16
}

fn index(value: u32) -> JumpIndex
    ensures { result ≡ value % 2 ^ 26 }
{
    JumpIndex::new(value % 0x400_0000)
}

/// The instruction with these fields, where it is one; the fields that no operand names are 0.
pub fn instruction(operation: Operation, fields: &Fields, value: u32) -> Option<Instr>
    ensures { result ≡ spec.instruction operation fields.now value }
{
    let Fields { rs, rt, rd, .. } = *fields;
    let immediate = immediate(value);
    Some(match operation {
        Operation::Shift(op) => Instr::Shift {
            op,
            rt,
            rd,
            amount: ShiftAmount::new(value % 32),
        },
        Operation::ShiftVariable(op) => Instr::ShiftVariable { op, rs, rt, rd },
        Operation::JumpRegister => Instr::JumpRegister { rs },
        Operation::JumpAndLinkRegister => Instr::JumpAndLinkRegister { rs, rd },
        Operation::SystemCall => Instr::SystemCall {
            code: SystemCode::new(0),
        },
        Operation::Break => Instr::Break {
            code: SystemCode::new(0),
        },
        Operation::Sync => Instr::Sync,
        Operation::MoveFrom(half) => Instr::MoveFrom { half, rd },
        Operation::MoveTo(half) => Instr::MoveTo { half, rs },
        Operation::MulDiv(op) => Instr::MulDiv { op, rs, rt },
        Operation::Alu(op) => Instr::Alu { op, rs, rt, rd },
        Operation::Trap(cond) => Instr::Trap {
            cond,
            rs,
            rt,
            code: TrapCode::new(0),
        },
        Operation::BranchZero(cond, untaken) => Instr::BranchZero {
            cond,
            untaken,
            rs,
            offset: immediate,
        },
        Operation::BranchZeroAndLink(cond, untaken) => Instr::BranchZeroAndLink {
            cond,
            untaken,
            rs,
            offset: immediate,
        },
        Operation::TrapImmediate(cond) => Instr::TrapImmediate {
            cond,
            rs,
            immediate,
        },
        Operation::Jump => Instr::Jump {
            index: index(value),
        },
        Operation::JumpAndLink => Instr::JumpAndLink {
            index: index(value),
        },
        Operation::Branch(cond, untaken) => Instr::Branch {
            cond,
            untaken,
            rs,
            rt,
            offset: immediate,
        },
        Operation::AluImmediate(op) => Instr::AluImmediate {
            op,
            rs,
            rt,
            immediate,
        },
        Operation::LoadUpper => Instr::LoadUpper { rt, immediate },
        Operation::MoveFromCp0 => Instr::MoveFromCp0 { rt, rd },
        Operation::MoveToCp0 => Instr::MoveToCp0 { rt, rd },
        Operation::Cp0(op) => Instr::Cp0(op),
        Operation::Load(kind) => Instr::Load {
            kind,
            base: rs,
            rt,
            offset: immediate,
        },
        Operation::Store(kind) => Instr::Store {
            kind,
            base: rs,
            rt,
            offset: immediate,
        },
        Operation::LoadLinked => Instr::LoadLinked {
            base: rs,
            rt,
            offset: immediate,
        },
        Operation::StoreConditional => Instr::StoreConditional {
            base: rs,
            rt,
            offset: immediate,
        },
        Operation::Word | Operation::Origin => return None,
    })
}

/// The word of a statement: of its instruction, or else its value.
#[tactic(auto, unfolding(crate::specs::Words::statement_word))]
pub fn statement_word(operation: Operation, fields: &Fields, value: u32) -> u32
    ensures { result ≡ spec.statement_word operation fields.now value }
{
    match instruction(operation, fields, value) {
        Some(instr) => encode(&instr),
        None => value,
    }
}
