//! Instructions, one variant for each group of the manual's table, with the fields that are free in it.
use std::marker::Model;

/// A field of an instruction word, of so many bits.
#[derive(Clone, Copy, Debug, PartialEq, Eq)]
pub struct Field<const BITS: u32> {
    value: u32,
}

impl<const BITS: u32> Model for Field<BITS> {
    ghost use Rattle.std.specs.Prelude.{ℕ, ◌<◌, ◌^◌};

    ghost Value = { ℕ };

    ghost view = { λ f. f.value };

    ghost invariant = { λ f. f.value < 2 ^ BITS };

    ghost inverse = { λ n. record { value = n } };
}

/// A general register's number.
pub type Register = Field<5>;
/// By how many bits a shift moves.
pub type ShiftAmount = Field<5>;
/// The words of a jump's target, below the top four bits of its address.
pub type JumpIndex = Field<26>;
/// What a system call or a breakpoint carries for the kernel.
pub type SystemCode = Field<20>;
/// What a trap carries for the kernel.
pub type TrapCode = Field<10>;

impl<const BITS: u32> Field<BITS> {
    ghost use Rattle.std.specs.Prelude.{◌≡◌, ◌<◌, ◌^◌};

    pub fn new(value: u32) -> Self
        requires { value < 2 ^ BITS }
        ensures { result ≡ value }
    {
        Field { value }
    }

    pub fn value(self) -> u32
        ensures value { result ≡ self.entry }
        ensures within { result < 2 ^ BITS }
    {
        self.value
    }
}

/// What an arithmetic or logical instruction computes of two words.
#[derive(Clone, Copy, Debug, PartialEq, Eq)]
pub enum AluOp {
    /// The sum; it overflows where the signed sum doesn't fit.
    Add,
    /// The sum modulo 2^32.
    AddUnsigned,
    /// The difference; it overflows where the signed difference doesn't fit.
    Subtract,
    /// The difference modulo 2^32.
    SubtractUnsigned,
    And,
    Or,
    Xor,
    Nor,
    /// 1 where the first is less, as signed numbers, else 0.
    SetLess,
    /// 1 where the first is less, else 0.
    SetLessUnsigned,
}

/// How a shift fills the bits that become free.
#[derive(Clone, Copy, Debug, PartialEq, Eq)]
pub enum ShiftOp {
    Left,
    RightLogical,
    RightArithmetic,
}

/// What HI and LO become.
#[derive(Clone, Copy, Debug, PartialEq, Eq)]
pub enum MulOp {
    Multiply,
    MultiplyUnsigned,
    Divide,
    DivideUnsigned,
}

/// When a branch is taken, or a trap is raised.
#[derive(Clone, Copy, Debug, PartialEq, Eq)]
pub enum Cond {
    Equal,
    NotEqual,
    Less,
    LessUnsigned,
    LessOrEqual,
    Greater,
    GreaterOrEqual,
    GreaterOrEqualUnsigned,
}

/// One of the two registers of a product or a quotient.
#[derive(Clone, Copy, Debug, PartialEq, Eq)]
pub enum Half {
    Hi,
    Lo,
}

/// How a load fills its register.
#[derive(Clone, Copy, Debug, PartialEq, Eq)]
pub enum LoadKind {
    Byte,
    ByteUnsigned,
    HalfWord,
    HalfWordUnsigned,
    Word,
    WordLeft,
    WordRight,
}

/// How much of a register a store puts into memory.
#[derive(Clone, Copy, Debug, PartialEq, Eq)]
pub enum StoreKind {
    Byte,
    HalfWord,
    Word,
    WordLeft,
    WordRight,
}

/// What coprocessor 0 does with its TLB, or the return from an exception.
#[derive(Clone, Copy, Debug, PartialEq, Eq)]
pub enum Cp0Op {
    TlbRead,
    TlbWriteIndexed,
    TlbWriteRandom,
    TlbProbe,
    ExceptionReturn,
}

/// Where a branch leads that isn't taken.
#[derive(Clone, Copy, Debug, PartialEq, Eq)]
pub enum Untaken {
    /// To the instruction in its delay slot.
    Slot,
    /// Past the delay slot: the branch is a likely one.
    PastSlot,
}

/// A place of the primary opcode map, by bits 31 to 26 of the instruction.
#[derive(Clone, Copy, Debug, PartialEq, Eq)]
pub enum Primary {
    Special,
    RegisterImmediate,
    Jump,
    JumpAndLink,
    /// A branch on two registers.
    Branch(Cond, Untaken),
    /// A branch on a register against 0.
    BranchZero(Cond, Untaken),
    AluImmediate(AluOp),
    LoadUpper,
    Coprocessor0,
    /// An instruction of coprocessor 1 or 2.
    Coprocessor(u8),
    Load(LoadKind),
    Store(StoreKind),
    LoadLinked,
    StoreConditional,
    Reserved,
}

/// A place of the map of opcode 0, by bits 5 to 0.
#[derive(Clone, Copy, Debug, PartialEq, Eq)]
pub enum Special {
    Shift(ShiftOp),
    ShiftVariable(ShiftOp),
    JumpRegister,
    JumpAndLinkRegister,
    SystemCall,
    Break,
    Sync,
    MoveFrom(Half),
    MoveTo(Half),
    MulDiv(MulOp),
    Alu(AluOp),
    Trap(Cond),
    Reserved,
}

/// A place of the map of opcode 1, by bits 20 to 16.
#[derive(Clone, Copy, Debug, PartialEq, Eq)]
pub enum RegisterImmediate {
    Branch(Cond, Untaken),
    BranchAndLink(Cond, Untaken),
    Trap(Cond),
    Reserved,
}

/// One instruction.
#[derive(Clone, Copy, Debug, PartialEq, Eq)]
pub enum Instr {
    /// SLL, SRL, SRA.
    Shift {
        op: ShiftOp,
        rt: Register,
        rd: Register,
        amount: ShiftAmount,
    },
    /// SLLV, SRLV, SRAV: by the low five bits of register `rs`.
    ShiftVariable {
        op: ShiftOp,
        rs: Register,
        rt: Register,
        rd: Register,
    },
    /// JR.
    JumpRegister {
        rs: Register,
    },
    /// JALR: register `rd` becomes the address after the delay slot.
    JumpAndLinkRegister {
        rs: Register,
        rd: Register,
    },
    /// SYSCALL.
    SystemCall {
        code: SystemCode,
    },
    /// BREAK.
    Break {
        code: SystemCode,
    },
    /// SYNC, which does nothing here.
    Sync,
    /// MFHI, MFLO.
    MoveFrom {
        half: Half,
        rd: Register,
    },
    /// MTHI, MTLO.
    MoveTo {
        half: Half,
        rs: Register,
    },
    /// MULT, MULTU, DIV, DIVU.
    MulDiv {
        op: MulOp,
        rs: Register,
        rt: Register,
    },
    /// ADD to SLTU.
    Alu {
        op: AluOp,
        rs: Register,
        rt: Register,
        rd: Register,
    },
    /// TGE to TNE.
    Trap {
        cond: Cond,
        rs: Register,
        rt: Register,
        code: TrapCode,
    },
    /// BEQ, BNE and their likely forms. The offset counts words from the delay slot.
    Branch {
        cond: Cond,
        untaken: Untaken,
        rs: Register,
        rt: Register,
        offset: u16,
    },
    /// BLEZ, BGTZ, BLTZ, BGEZ and their likely forms.
    BranchZero {
        cond: Cond,
        untaken: Untaken,
        rs: Register,
        offset: u16,
    },
    /// BLTZAL, BGEZAL and their likely forms: register 31 becomes the address after the delay slot.
    BranchZeroAndLink {
        cond: Cond,
        untaken: Untaken,
        rs: Register,
        offset: u16,
    },
    /// TGEI to TNEI.
    TrapImmediate {
        cond: Cond,
        rs: Register,
        immediate: u16,
    },
    /// J.
    Jump {
        index: JumpIndex,
    },
    /// JAL.
    JumpAndLink {
        index: JumpIndex,
    },
    /// ADDI to XORI: register `rt` becomes what `op` makes of register `rs` and the immediate.
    AluImmediate {
        op: AluOp,
        rs: Register,
        rt: Register,
        immediate: u16,
    },
    /// LUI: register `rt` becomes the immediate in its upper half.
    LoadUpper {
        rt: Register,
        immediate: u16,
    },
    /// LB to LWR: register `rt` becomes what stands at register `base` plus the offset.
    Load {
        kind: LoadKind,
        base: Register,
        rt: Register,
        offset: u16,
    },
    /// SB to SWR: memory at register `base` plus the offset becomes register `rt`.
    Store {
        kind: StoreKind,
        base: Register,
        rt: Register,
        offset: u16,
    },
    /// LL.
    LoadLinked {
        base: Register,
        rt: Register,
        offset: u16,
    },
    /// SC.
    StoreConditional {
        base: Register,
        rt: Register,
        offset: u16,
    },
    /// MFC0: register `rt` becomes coprocessor 0's register `rd`.
    MoveFromCp0 {
        rt: Register,
        rd: Register,
    },
    /// MTC0: coprocessor 0's register `rd` becomes register `rt`.
    MoveToCp0 {
        rt: Register,
        rd: Register,
    },
    /// TLBR, TLBWI, TLBWR, TLBP, ERET.
    Cp0(Cp0Op),
    /// An instruction of coprocessor 1 or 2, neither of which is there.
    Coprocessor {
        unit: u8,
        word: u32,
    },
    /// Any word outside the table.
    Reserved(u32),
}
