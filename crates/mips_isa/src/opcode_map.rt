//! The opcode maps, as the manual has them: eight places to a line.
ghost use Rattle.std.specs.Prelude.{◌≡◌, ◌<◌, slice_index_or};
ghost use Rattle.base_words.specs.OpcodeMap.{primary_map, special_map, register_immediate_map};
ghost use Rattle.base_words.specs.declared.instr.Primary.TheVariants.{Reserved as NoPrimary};
ghost use Rattle.base_words.specs.declared.instr.Special.TheVariants.{Reserved as NoSpecial};
ghost use Rattle.base_words.specs.declared.instr.RegisterImmediate.TheVariants.{Reserved as NoImmediate};

use base_words::{
    AluOp, Cond, Half, LoadKind, MulOp, Primary, RegisterImmediate, ShiftOp, Special, StoreKind,
    Untaken,
};

/// By bits 31 to 26.
#[rattlefmt::skip]
static PRIMARY: [Primary; 64] = [
    Primary::Special, Primary::RegisterImmediate, Primary::Jump, Primary::JumpAndLink, Primary::Branch(Cond::Equal, Untaken::Slot), Primary::Branch(Cond::NotEqual, Untaken::Slot), Primary::BranchZero(Cond::LessOrEqual, Untaken::Slot), Primary::BranchZero(Cond::Greater, Untaken::Slot),
    Primary::AluImmediate(AluOp::Add), Primary::AluImmediate(AluOp::AddUnsigned), Primary::AluImmediate(AluOp::SetLess), Primary::AluImmediate(AluOp::SetLessUnsigned), Primary::AluImmediate(AluOp::And), Primary::AluImmediate(AluOp::Or), Primary::AluImmediate(AluOp::Xor), Primary::LoadUpper,
    Primary::Coprocessor0, Primary::Coprocessor(1), Primary::Coprocessor(2), Primary::Reserved, Primary::Branch(Cond::Equal, Untaken::PastSlot), Primary::Branch(Cond::NotEqual, Untaken::PastSlot), Primary::BranchZero(Cond::LessOrEqual, Untaken::PastSlot), Primary::BranchZero(Cond::Greater, Untaken::PastSlot),
    Primary::Reserved, Primary::Reserved, Primary::Reserved, Primary::Reserved, Primary::Reserved, Primary::Reserved, Primary::Reserved, Primary::Reserved,
    Primary::Load(LoadKind::Byte), Primary::Load(LoadKind::HalfWord), Primary::Load(LoadKind::WordLeft), Primary::Load(LoadKind::Word), Primary::Load(LoadKind::ByteUnsigned), Primary::Load(LoadKind::HalfWordUnsigned), Primary::Load(LoadKind::WordRight), Primary::Reserved,
    Primary::Store(StoreKind::Byte), Primary::Store(StoreKind::HalfWord), Primary::Store(StoreKind::WordLeft), Primary::Store(StoreKind::Word), Primary::Reserved, Primary::Reserved, Primary::Store(StoreKind::WordRight), Primary::Reserved,
    Primary::LoadLinked, Primary::Coprocessor(1), Primary::Coprocessor(2), Primary::Reserved, Primary::Reserved, Primary::Coprocessor(1), Primary::Coprocessor(2), Primary::Reserved,
    Primary::StoreConditional, Primary::Coprocessor(1), Primary::Coprocessor(2), Primary::Reserved, Primary::Reserved, Primary::Coprocessor(1), Primary::Coprocessor(2), Primary::Reserved,
];

/// Of opcode 0, by bits 5 to 0.
#[rattlefmt::skip]
static SPECIAL: [Special; 64] = [
    Special::Shift(ShiftOp::Left), Special::Reserved, Special::Shift(ShiftOp::RightLogical), Special::Shift(ShiftOp::RightArithmetic), Special::ShiftVariable(ShiftOp::Left), Special::Reserved, Special::ShiftVariable(ShiftOp::RightLogical), Special::ShiftVariable(ShiftOp::RightArithmetic),
    Special::JumpRegister, Special::JumpAndLinkRegister, Special::Reserved, Special::Reserved, Special::SystemCall, Special::Break, Special::Reserved, Special::Sync,
    Special::MoveFrom(Half::Hi), Special::MoveTo(Half::Hi), Special::MoveFrom(Half::Lo), Special::MoveTo(Half::Lo), Special::Reserved, Special::Reserved, Special::Reserved, Special::Reserved,
    Special::MulDiv(MulOp::Multiply), Special::MulDiv(MulOp::MultiplyUnsigned), Special::MulDiv(MulOp::Divide), Special::MulDiv(MulOp::DivideUnsigned), Special::Reserved, Special::Reserved, Special::Reserved, Special::Reserved,
    Special::Alu(AluOp::Add), Special::Alu(AluOp::AddUnsigned), Special::Alu(AluOp::Subtract), Special::Alu(AluOp::SubtractUnsigned), Special::Alu(AluOp::And), Special::Alu(AluOp::Or), Special::Alu(AluOp::Xor), Special::Alu(AluOp::Nor),
    Special::Reserved, Special::Reserved, Special::Alu(AluOp::SetLess), Special::Alu(AluOp::SetLessUnsigned), Special::Reserved, Special::Reserved, Special::Reserved, Special::Reserved,
    Special::Trap(Cond::GreaterOrEqual), Special::Trap(Cond::GreaterOrEqualUnsigned), Special::Trap(Cond::Less), Special::Trap(Cond::LessUnsigned), Special::Trap(Cond::Equal), Special::Reserved, Special::Trap(Cond::NotEqual), Special::Reserved,
    Special::Reserved, Special::Reserved, Special::Reserved, Special::Reserved, Special::Reserved, Special::Reserved, Special::Reserved, Special::Reserved,
];

/// Of opcode 1, by bits 20 to 16.
#[rattlefmt::skip]
static REGISTER_IMMEDIATE: [RegisterImmediate; 32] = [
    RegisterImmediate::Branch(Cond::Less, Untaken::Slot), RegisterImmediate::Branch(Cond::GreaterOrEqual, Untaken::Slot), RegisterImmediate::Branch(Cond::Less, Untaken::PastSlot), RegisterImmediate::Branch(Cond::GreaterOrEqual, Untaken::PastSlot), RegisterImmediate::Reserved, RegisterImmediate::Reserved, RegisterImmediate::Reserved, RegisterImmediate::Reserved,
    RegisterImmediate::Trap(Cond::GreaterOrEqual), RegisterImmediate::Trap(Cond::GreaterOrEqualUnsigned), RegisterImmediate::Trap(Cond::Less), RegisterImmediate::Trap(Cond::LessUnsigned), RegisterImmediate::Trap(Cond::Equal), RegisterImmediate::Reserved, RegisterImmediate::Trap(Cond::NotEqual), RegisterImmediate::Reserved,
    RegisterImmediate::BranchAndLink(Cond::Less, Untaken::Slot), RegisterImmediate::BranchAndLink(Cond::GreaterOrEqual, Untaken::Slot), RegisterImmediate::BranchAndLink(Cond::Less, Untaken::PastSlot), RegisterImmediate::BranchAndLink(Cond::GreaterOrEqual, Untaken::PastSlot), RegisterImmediate::Reserved, RegisterImmediate::Reserved, RegisterImmediate::Reserved, RegisterImmediate::Reserved,
    RegisterImmediate::Reserved, RegisterImmediate::Reserved, RegisterImmediate::Reserved, RegisterImmediate::Reserved, RegisterImmediate::Reserved, RegisterImmediate::Reserved, RegisterImmediate::Reserved, RegisterImmediate::Reserved,
];

#[inline(always)]
fn primary_entry(map: &[Primary; 64], field: u32) -> Primary
    requires { field < 64 }
    ensures { result ≡ slice_index_or map.now field NoPrimary }
{
    map[field as usize]
}

#[inline(always)]
fn special_entry(map: &[Special; 64], field: u32) -> Special
    requires { field < 64 }
    ensures { result ≡ slice_index_or map.now field NoSpecial }
{
    map[field as usize]
}

#[inline(always)]
fn register_immediate_entry(map: &[RegisterImmediate; 32], field: u32) -> RegisterImmediate
    requires { field < 32 }
    ensures { result ≡ slice_index_or map.now field NoImmediate }
{
    map[field as usize]
}

/// What stands at a place of the primary map.
#[inline(always)]
pub fn primary(opcode: u32) -> Primary
    requires { opcode < 64 }
    ensures { result ≡ slice_index_or primary_map opcode NoPrimary }
{
    primary_entry(&PRIMARY, opcode)
}

/// What stands at a place of the map of opcode 0.
#[inline(always)]
pub fn special(function: u32) -> Special
    requires { function < 64 }
    ensures { result ≡ slice_index_or special_map function NoSpecial }
{
    special_entry(&SPECIAL, function)
}

/// What stands at a place of the map of opcode 1.
#[inline(always)]
pub fn register_immediate(rt: u32) -> RegisterImmediate
    requires { rt < 32 }
    ensures { result ≡ slice_index_or register_immediate_map rt NoImmediate }
{
    register_immediate_entry(&REGISTER_IMMEDIATE, rt)
}
