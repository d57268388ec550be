//! Instructions in a flat form: one variant for each that a stretch can make, so that one tag tells what to do.

use base_words::{
    Cond, Instr, JumpIndex, LoadKind, MulOp, Register, ShiftAmount, ShiftOp, StoreKind, TrapCode,
};

/// An instruction. One that computes a value writes another register than register 0.
#[derive(Clone, Copy, Debug, PartialEq, Eq)]
pub enum Op {
    /// SLL, SRL or SRA of register 0, NOP among them: it does nothing.
    NoOperation {
        op: ShiftOp,
        rt: Register,
        amount: ShiftAmount,
    },
    /// SYNC, which does nothing here.
    Sync,
    /// SLL, SRL, SRA.
    ShiftLeft {
        rt: Register,
        rd: Register,
        amount: ShiftAmount,
    },
    ShiftRight {
        rt: Register,
        rd: Register,
        amount: ShiftAmount,
    },
    ShiftRightSigned {
        rt: Register,
        rd: Register,
        amount: ShiftAmount,
    },
    /// SLLV, SRLV, SRAV.
    ShiftLeftBy {
        rs: Register,
        rt: Register,
        rd: Register,
    },
    ShiftRightBy {
        rs: Register,
        rt: Register,
        rd: Register,
    },
    ShiftRightSignedBy {
        rs: Register,
        rt: Register,
        rd: Register,
    },
    /// ADD to SLTU.
    Add {
        rs: Register,
        rt: Register,
        rd: Register,
    },
    AddUnsigned {
        rs: Register,
        rt: Register,
        rd: Register,
    },
    Subtract {
        rs: Register,
        rt: Register,
        rd: Register,
    },
    SubtractUnsigned {
        rs: Register,
        rt: Register,
        rd: Register,
    },
    And {
        rs: Register,
        rt: Register,
        rd: Register,
    },
    Or {
        rs: Register,
        rt: Register,
        rd: Register,
    },
    Xor {
        rs: Register,
        rt: Register,
        rd: Register,
    },
    Nor {
        rs: Register,
        rt: Register,
        rd: Register,
    },
    SetLess {
        rs: Register,
        rt: Register,
        rd: Register,
    },
    SetLessUnsigned {
        rs: Register,
        rt: Register,
        rd: Register,
    },
    /// ADDI to XORI.
    AddImmediate {
        rs: Register,
        rt: Register,
        immediate: u16,
    },
    AddImmediateUnsigned {
        rs: Register,
        rt: Register,
        immediate: u16,
    },
    SetLessImmediate {
        rs: Register,
        rt: Register,
        immediate: u16,
    },
    SetLessImmediateUnsigned {
        rs: Register,
        rt: Register,
        immediate: u16,
    },
    AndImmediate {
        rs: Register,
        rt: Register,
        immediate: u16,
    },
    OrImmediate {
        rs: Register,
        rt: Register,
        immediate: u16,
    },
    XorImmediate {
        rs: Register,
        rt: Register,
        immediate: u16,
    },
    /// LUI.
    LoadUpper {
        rt: Register,
        immediate: u16,
    },
    /// MFHI, MFLO, MTHI, MTLO.
    MoveFromHi {
        rd: Register,
    },
    MoveFromLo {
        rd: Register,
    },
    MoveToHi {
        rs: Register,
    },
    MoveToLo {
        rs: Register,
    },
    /// MULT, MULTU, DIV, DIVU.
    MulDiv {
        op: MulOp,
        rs: Register,
        rt: Register,
    },
    /// TGE to TNE, and TGEI to TNEI: they do nothing where their condition doesn't hold.
    Trap {
        cond: Cond,
        rs: Register,
        rt: Register,
        code: TrapCode,
    },
    TrapImmediate {
        cond: Cond,
        rs: Register,
        immediate: u16,
    },
    /// BEQ, BNE, BLEZ, BGTZ, BLTZ, BGEZ.
    BranchEqual {
        rs: Register,
        rt: Register,
        offset: u16,
    },
    BranchNotEqual {
        rs: Register,
        rt: Register,
        offset: u16,
    },
    BranchZero {
        cond: Cond,
        rs: Register,
        offset: u16,
    },
    /// Their likely forms.
    BranchEqualLikely {
        rs: Register,
        rt: Register,
        offset: u16,
    },
    BranchNotEqualLikely {
        rs: Register,
        rt: Register,
        offset: u16,
    },
    BranchZeroLikely {
        cond: Cond,
        rs: Register,
        offset: u16,
    },
    /// BLTZAL, BGEZAL.
    BranchZeroAndLink {
        cond: Cond,
        rs: Register,
        offset: u16,
    },
    /// J, JAL, JR, JALR.
    Jump {
        index: JumpIndex,
    },
    JumpAndLink {
        index: JumpIndex,
    },
    JumpRegister {
        rs: Register,
    },
    JumpAndLinkRegister {
        rs: Register,
        rd: Register,
    },
    /// LB to LWR, SB to SWR.
    Load {
        kind: LoadKind,
        base: Register,
        rt: Register,
        offset: u16,
    },
    Store {
        kind: StoreKind,
        base: Register,
        rt: Register,
        offset: u16,
    },
    /// Any other one.
    Rest(Instr),
}
