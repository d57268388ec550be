//! The table of mnemonics.
ghost use Rattle.std.specs.Prelude.{◌≡◌, map};
ghost use Rattle.guest_asm.specs.Mnemonics.{row_in, row_named};

use mips_isa::{AluOp, Cond, Cp0Op, Half, LoadKind, MulOp, ShiftOp, StoreKind, Untaken};

/// The operands that a mnemonic takes, in the order in which a line has them. A number is N, a target a number or a name.
#[derive(Clone, Copy, Debug, PartialEq, Eq)]
pub enum Form {
    Nothing,
    /// rd.
    Destination,
    /// rs.
    Source,
    /// rd, rs.
    DestinationSource,
    /// rs, rt.
    Sources,
    /// rd, rs, rt.
    DestinationSources,
    /// rd, rt, rs.
    ShiftByRegister,
    /// rd, rt, N.
    ShiftByAmount,
    /// rs, N.
    SourceNumber,
    /// rs, target.
    SourceTarget,
    /// rs, rt, target.
    SourcesTarget,
    /// target.
    Target,
    /// rt, rs, N, whose sign is extended.
    SignedNumber,
    /// rt, rs, N, which is extended by zeros.
    UnsignedNumber,
    /// rt, rs, N or `lo(NAME)`.
    LowHalf,
    /// rt, N or `hi(NAME)`.
    HighHalf,
    /// rt, N(rs).
    Memory,
    /// rt, rd.
    Coprocessor,
    /// N.
    Number,
    /// N or NAME.
    Word,
}

/// What a statement puts at its address: one of the instructions, or a word; `Origin` moves the address.
#[derive(Clone, Copy, Debug, PartialEq, Eq)]
pub enum Operation {
    Shift(ShiftOp),
    ShiftVariable(ShiftOp),
    JumpRegister,
    JumpAndLinkRegister,
    SystemCall,
    Break,
    Sync,
    MoveFrom(Half),
    MoveTo(Half),
    MulDiv(MulOp),
    Alu(AluOp),
    Trap(Cond),
    BranchZero(Cond, Untaken),
    BranchZeroAndLink(Cond, Untaken),
    TrapImmediate(Cond),
    Jump,
    JumpAndLink,
    Branch(Cond, Untaken),
    AluImmediate(AluOp),
    LoadUpper,
    MoveFromCp0,
    MoveToCp0,
    Cp0(Cp0Op),
    Load(LoadKind),
    Store(StoreKind),
    LoadLinked,
    StoreConditional,
    Word,
    Origin,
}

/// The mnemonics in the manual's order: opcode 0, opcode 1, the other opcodes; then the two statements that are no instructions.
#[rattlefmt::skip]
pub const MNEMONICS: [(&[u8], Form, Operation); 90] = [
    (b"sll", Form::ShiftByAmount, Operation::Shift(ShiftOp::Left)),
    (b"srl", Form::ShiftByAmount, Operation::Shift(ShiftOp::RightLogical)),
    (b"sra", Form::ShiftByAmount, Operation::Shift(ShiftOp::RightArithmetic)),
    (b"sllv", Form::ShiftByRegister, Operation::ShiftVariable(ShiftOp::Left)),
    (b"srlv", Form::ShiftByRegister, Operation::ShiftVariable(ShiftOp::RightLogical)),
    (b"srav", Form::ShiftByRegister, Operation::ShiftVariable(ShiftOp::RightArithmetic)),
    (b"jr", Form::Source, Operation::JumpRegister),
    (b"jalr", Form::DestinationSource, Operation::JumpAndLinkRegister),
    (b"syscall", Form::Nothing, Operation::SystemCall),
    (b"break", Form::Nothing, Operation::Break),
    (b"sync", Form::Nothing, Operation::Sync),
    (b"mfhi", Form::Destination, Operation::MoveFrom(Half::Hi)),
    (b"mthi", Form::Source, Operation::MoveTo(Half::Hi)),
    (b"mflo", Form::Destination, Operation::MoveFrom(Half::Lo)),
    (b"mtlo", Form::Source, Operation::MoveTo(Half::Lo)),
    (b"mult", Form::Sources, Operation::MulDiv(MulOp::Multiply)),
    (b"multu", Form::Sources, Operation::MulDiv(MulOp::MultiplyUnsigned)),
    (b"div", Form::Sources, Operation::MulDiv(MulOp::Divide)),
    (b"divu", Form::Sources, Operation::MulDiv(MulOp::DivideUnsigned)),
    (b"add", Form::DestinationSources, Operation::Alu(AluOp::Add)),
    (b"addu", Form::DestinationSources, Operation::Alu(AluOp::AddUnsigned)),
    (b"sub", Form::DestinationSources, Operation::Alu(AluOp::Subtract)),
    (b"subu", Form::DestinationSources, Operation::Alu(AluOp::SubtractUnsigned)),
    (b"and", Form::DestinationSources, Operation::Alu(AluOp::And)),
    (b"or", Form::DestinationSources, Operation::Alu(AluOp::Or)),
    (b"xor", Form::DestinationSources, Operation::Alu(AluOp::Xor)),
    (b"nor", Form::DestinationSources, Operation::Alu(AluOp::Nor)),
    (b"slt", Form::DestinationSources, Operation::Alu(AluOp::SetLess)),
    (b"sltu", Form::DestinationSources, Operation::Alu(AluOp::SetLessUnsigned)),
    (b"tge", Form::Sources, Operation::Trap(Cond::GreaterOrEqual)),
    (b"tgeu", Form::Sources, Operation::Trap(Cond::GreaterOrEqualUnsigned)),
    (b"tlt", Form::Sources, Operation::Trap(Cond::Less)),
    (b"tltu", Form::Sources, Operation::Trap(Cond::LessUnsigned)),
    (b"teq", Form::Sources, Operation::Trap(Cond::Equal)),
    (b"tne", Form::Sources, Operation::Trap(Cond::NotEqual)),
    (b"bltz", Form::SourceTarget, Operation::BranchZero(Cond::Less, Untaken::Slot)),
    (b"bgez", Form::SourceTarget, Operation::BranchZero(Cond::GreaterOrEqual, Untaken::Slot)),
    (b"bltzl", Form::SourceTarget, Operation::BranchZero(Cond::Less, Untaken::PastSlot)),
    (b"bgezl", Form::SourceTarget, Operation::BranchZero(Cond::GreaterOrEqual, Untaken::PastSlot)),
    (b"tgei", Form::SourceNumber, Operation::TrapImmediate(Cond::GreaterOrEqual)),
    (b"tgeiu", Form::SourceNumber, Operation::TrapImmediate(Cond::GreaterOrEqualUnsigned)),
    (b"tlti", Form::SourceNumber, Operation::TrapImmediate(Cond::Less)),
    (b"tltiu", Form::SourceNumber, Operation::TrapImmediate(Cond::LessUnsigned)),
    (b"teqi", Form::SourceNumber, Operation::TrapImmediate(Cond::Equal)),
    (b"tnei", Form::SourceNumber, Operation::TrapImmediate(Cond::NotEqual)),
    (b"bltzal", Form::SourceTarget, Operation::BranchZeroAndLink(Cond::Less, Untaken::Slot)),
    (b"bgezal", Form::SourceTarget, Operation::BranchZeroAndLink(Cond::GreaterOrEqual, Untaken::Slot)),
    (b"bltzall", Form::SourceTarget, Operation::BranchZeroAndLink(Cond::Less, Untaken::PastSlot)),
    (b"bgezall", Form::SourceTarget, Operation::BranchZeroAndLink(Cond::GreaterOrEqual, Untaken::PastSlot)),
    (b"j", Form::Target, Operation::Jump),
    (b"jal", Form::Target, Operation::JumpAndLink),
    (b"beq", Form::SourcesTarget, Operation::Branch(Cond::Equal, Untaken::Slot)),
    (b"bne", Form::SourcesTarget, Operation::Branch(Cond::NotEqual, Untaken::Slot)),
    (b"blez", Form::SourceTarget, Operation::BranchZero(Cond::LessOrEqual, Untaken::Slot)),
    (b"bgtz", Form::SourceTarget, Operation::BranchZero(Cond::Greater, Untaken::Slot)),
    (b"addi", Form::SignedNumber, Operation::AluImmediate(AluOp::Add)),
    (b"addiu", Form::SignedNumber, Operation::AluImmediate(AluOp::AddUnsigned)),
    (b"slti", Form::SignedNumber, Operation::AluImmediate(AluOp::SetLess)),
    (b"sltiu", Form::SignedNumber, Operation::AluImmediate(AluOp::SetLessUnsigned)),
    (b"andi", Form::UnsignedNumber, Operation::AluImmediate(AluOp::And)),
    (b"ori", Form::LowHalf, Operation::AluImmediate(AluOp::Or)),
    (b"xori", Form::UnsignedNumber, Operation::AluImmediate(AluOp::Xor)),
    (b"lui", Form::HighHalf, Operation::LoadUpper),
    (b"mfc0", Form::Coprocessor, Operation::MoveFromCp0),
    (b"mtc0", Form::Coprocessor, Operation::MoveToCp0),
    (b"tlbr", Form::Nothing, Operation::Cp0(Cp0Op::TlbRead)),
    (b"tlbwi", Form::Nothing, Operation::Cp0(Cp0Op::TlbWriteIndexed)),
    (b"tlbwr", Form::Nothing, Operation::Cp0(Cp0Op::TlbWriteRandom)),
    (b"tlbp", Form::Nothing, Operation::Cp0(Cp0Op::TlbProbe)),
    (b"eret", Form::Nothing, Operation::Cp0(Cp0Op::ExceptionReturn)),
    (b"beql", Form::SourcesTarget, Operation::Branch(Cond::Equal, Untaken::PastSlot)),
    (b"bnel", Form::SourcesTarget, Operation::Branch(Cond::NotEqual, Untaken::PastSlot)),
    (b"blezl", Form::SourceTarget, Operation::BranchZero(Cond::LessOrEqual, Untaken::PastSlot)),
    (b"bgtzl", Form::SourceTarget, Operation::BranchZero(Cond::Greater, Untaken::PastSlot)),
    (b"lb", Form::Memory, Operation::Load(LoadKind::Byte)),
    (b"lh", Form::Memory, Operation::Load(LoadKind::HalfWord)),
    (b"lwl", Form::Memory, Operation::Load(LoadKind::WordLeft)),
    (b"lw", Form::Memory, Operation::Load(LoadKind::Word)),
    (b"lbu", Form::Memory, Operation::Load(LoadKind::ByteUnsigned)),
    (b"lhu", Form::Memory, Operation::Load(LoadKind::HalfWordUnsigned)),
    (b"lwr", Form::Memory, Operation::Load(LoadKind::WordRight)),
    (b"sb", Form::Memory, Operation::Store(StoreKind::Byte)),
    (b"sh", Form::Memory, Operation::Store(StoreKind::HalfWord)),
    (b"swl", Form::Memory, Operation::Store(StoreKind::WordLeft)),
    (b"sw", Form::Memory, Operation::Store(StoreKind::Word)),
    (b"swr", Form::Memory, Operation::Store(StoreKind::WordRight)),
    (b"ll", Form::Memory, Operation::LoadLinked),
    (b"sc", Form::Memory, Operation::StoreConditional),
    (b".org", Form::Number, Operation::Origin),
    (b".word", Form::Word, Operation::Word),
];

/// Where a mnemonic's row is, if it is one.
pub fn row_of(name: &[u8]) -> Option<(Form, Operation)>
    ensures { result ≡ row_named name.now }
{
    find_row(&MNEMONICS, name)
}

/// The first row of a mnemonic in a table.
fn find_row(rows: &[(&[u8], Form, Operation)], name: &[u8]) -> Option<(Form, Operation)>
    ensures { result ≡ row_in (map (λ row. (row.0.now, row.1, row.2)) rows.now) name.now }
{
    for row in rows {
        if row.0 == name {
            return Some((row.1, row.2));
        }
    }
    None
}
