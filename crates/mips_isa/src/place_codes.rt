//! At which place of a map an entry stands.
ghost use Rattle.std.specs.Prelude.{◌≡◌, ◌≤◌};
ghost use Rattle.mips_isa.specs.PlaceCodes.{primary_code as primary_code_of, special_code as special_code_of, register_immediate_code as register_immediate_code_of};

use base_words::{
    AluOp, Cond, Half, LoadKind, MulOp, Primary, RegisterImmediate, ShiftOp, Special, StoreKind,
    Untaken,
};

/// Bits 31 to 26 of an instruction.
pub fn primary_code(place: Primary) -> u32
    ensures { result ≡ primary_code_of place }
{
    match place {
        Primary::Special => 0,
        Primary::RegisterImmediate => 1,
        Primary::Jump => 2,
        Primary::JumpAndLink => 3,
        Primary::Branch(Cond::Equal, Untaken::Slot) => 4,
        Primary::Branch(Cond::NotEqual, Untaken::Slot) => 5,
        Primary::BranchZero(Cond::LessOrEqual, Untaken::Slot) => 6,
        Primary::BranchZero(Cond::Greater, Untaken::Slot) => 7,
        Primary::AluImmediate(AluOp::Add) => 8,
        Primary::AluImmediate(AluOp::AddUnsigned) => 9,
        Primary::AluImmediate(AluOp::SetLess) => 10,
        Primary::AluImmediate(AluOp::SetLessUnsigned) => 11,
        Primary::AluImmediate(AluOp::And) => 12,
        Primary::AluImmediate(AluOp::Or) => 13,
        Primary::AluImmediate(AluOp::Xor) => 14,
        Primary::LoadUpper => 15,
        Primary::Coprocessor0 => 16,
        Primary::Branch(Cond::Equal, Untaken::PastSlot) => 20,
        Primary::Branch(Cond::NotEqual, Untaken::PastSlot) => 21,
        Primary::BranchZero(Cond::LessOrEqual, Untaken::PastSlot) => 22,
        Primary::BranchZero(Cond::Greater, Untaken::PastSlot) => 23,
        Primary::Load(LoadKind::Byte) => 32,
        Primary::Load(LoadKind::HalfWord) => 33,
        Primary::Load(LoadKind::WordLeft) => 34,
        Primary::Load(LoadKind::Word) => 35,
        Primary::Load(LoadKind::ByteUnsigned) => 36,
        Primary::Load(LoadKind::HalfWordUnsigned) => 37,
        Primary::Load(LoadKind::WordRight) => 38,
        Primary::Store(StoreKind::Byte) => 40,
        Primary::Store(StoreKind::HalfWord) => 41,
        Primary::Store(StoreKind::WordLeft) => 42,
        Primary::Store(StoreKind::Word) => 43,
        Primary::Store(StoreKind::WordRight) => 46,
        Primary::LoadLinked => 48,
        Primary::StoreConditional => 56,
        _ => 64,
    }
}

/// Bits 5 to 0 of an instruction of opcode 0.
pub fn special_code(place: Special) -> u32
    ensures value { result ≡ special_code_of place }
    ensures within { result ≤ 64 }
{
    match place {
        Special::Shift(ShiftOp::Left) => 0,
        Special::Shift(ShiftOp::RightLogical) => 2,
        Special::Shift(ShiftOp::RightArithmetic) => 3,
        Special::ShiftVariable(ShiftOp::Left) => 4,
        Special::ShiftVariable(ShiftOp::RightLogical) => 6,
        Special::ShiftVariable(ShiftOp::RightArithmetic) => 7,
        Special::JumpRegister => 8,
        Special::JumpAndLinkRegister => 9,
        Special::SystemCall => 12,
        Special::Break => 13,
        Special::Sync => 15,
        Special::MoveFrom(Half::Hi) => 16,
        Special::MoveTo(Half::Hi) => 17,
        Special::MoveFrom(Half::Lo) => 18,
        Special::MoveTo(Half::Lo) => 19,
        Special::MulDiv(MulOp::Multiply) => 24,
        Special::MulDiv(MulOp::MultiplyUnsigned) => 25,
        Special::MulDiv(MulOp::Divide) => 26,
        Special::MulDiv(MulOp::DivideUnsigned) => 27,
        Special::Alu(AluOp::Add) => 32,
        Special::Alu(AluOp::AddUnsigned) => 33,
        Special::Alu(AluOp::Subtract) => 34,
        Special::Alu(AluOp::SubtractUnsigned) => 35,
        Special::Alu(AluOp::And) => 36,
        Special::Alu(AluOp::Or) => 37,
        Special::Alu(AluOp::Xor) => 38,
        Special::Alu(AluOp::Nor) => 39,
        Special::Alu(AluOp::SetLess) => 42,
        Special::Alu(AluOp::SetLessUnsigned) => 43,
        Special::Trap(Cond::GreaterOrEqual) => 48,
        Special::Trap(Cond::GreaterOrEqualUnsigned) => 49,
        Special::Trap(Cond::Less) => 50,
        Special::Trap(Cond::LessUnsigned) => 51,
        Special::Trap(Cond::Equal) => 52,
        Special::Trap(Cond::NotEqual) => 54,
        _ => 64,
    }
}

/// Bits 20 to 16 of an instruction of opcode 1.
pub fn register_immediate_code(place: RegisterImmediate) -> u32
    ensures value { result ≡ register_immediate_code_of place }
    ensures within { result ≤ 32 }
{
    match place {
        RegisterImmediate::Branch(Cond::Less, Untaken::Slot) => 0,
        RegisterImmediate::Branch(Cond::GreaterOrEqual, Untaken::Slot) => 1,
        RegisterImmediate::Branch(Cond::Less, Untaken::PastSlot) => 2,
        RegisterImmediate::Branch(Cond::GreaterOrEqual, Untaken::PastSlot) => 3,
        RegisterImmediate::Trap(Cond::GreaterOrEqual) => 8,
        RegisterImmediate::Trap(Cond::GreaterOrEqualUnsigned) => 9,
        RegisterImmediate::Trap(Cond::Less) => 10,
        RegisterImmediate::Trap(Cond::LessUnsigned) => 11,
        RegisterImmediate::Trap(Cond::Equal) => 12,
        RegisterImmediate::Trap(Cond::NotEqual) => 14,
        RegisterImmediate::BranchAndLink(Cond::Less, Untaken::Slot) => 16,
        RegisterImmediate::BranchAndLink(Cond::GreaterOrEqual, Untaken::Slot) => 17,
        RegisterImmediate::BranchAndLink(Cond::Less, Untaken::PastSlot) => 18,
        RegisterImmediate::BranchAndLink(Cond::GreaterOrEqual, Untaken::PastSlot) => 19,
        _ => 32,
    }
}
