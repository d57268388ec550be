//! Words and their instructions, by the manual's encodings.
ghost use Rattle.std.specs.Prelude.{◌≡◌, ◌<◌};

use crate::telling::same;
use mips_isa::{
    AluOp, Cond, Cp0Op, Half, Instr, JumpIndex, LoadKind, MulOp, Register, ShiftOp, StoreKind,
    SystemCode, TrapCode, Untaken, decode, encode,
};
use std::process::Abort;

fn r(number: u32) -> Register
    requires { number < 32 }
    ensures { result ≡ number }
{
    Register::new(number)
}

/// A word is an instruction's, and the instruction the word's.
fn encodes(rt: &impl Abort, word: u32, instr: &Instr, name: &str) {
    same(rt, decode(word), *instr, name);
    same(rt, encode(instr), word, name);
}

#[test]
fn shifts_and_jumps_by_register(rt: HostRuntime) {
    let (r1, r2, r3, r4, r25, r31) = (r(1), r(2), r(3), r(4), r(25), r(31));
    let rows = [
        (
            0x0002_1900,
            Instr::Shift {
                op: ShiftOp::Left,
                rt: r2,
                rd: r3,
                amount: r4,
            },
            "SLL 3, 2, 4",
        ),
        (
            0x0002_1902,
            Instr::Shift {
                op: ShiftOp::RightLogical,
                rt: r2,
                rd: r3,
                amount: r4,
            },
            "SRL",
        ),
        (
            0x0002_1903,
            Instr::Shift {
                op: ShiftOp::RightArithmetic,
                rt: r2,
                rd: r3,
                amount: r4,
            },
            "SRA",
        ),
        (
            0x0022_1804,
            Instr::ShiftVariable {
                op: ShiftOp::Left,
                rs: r1,
                rt: r2,
                rd: r3,
            },
            "SLLV 3, 2, 1",
        ),
        (
            0x0022_1806,
            Instr::ShiftVariable {
                op: ShiftOp::RightLogical,
                rs: r1,
                rt: r2,
                rd: r3,
            },
            "SRLV",
        ),
        (
            0x0022_1807,
            Instr::ShiftVariable {
                op: ShiftOp::RightArithmetic,
                rs: r1,
                rt: r2,
                rd: r3,
            },
            "SRAV",
        ),
        (0x03E0_0008, Instr::JumpRegister { rs: r31 }, "JR 31"),
        (
            0x0320_F809,
            Instr::JumpAndLinkRegister { rs: r25, rd: r31 },
            "JALR 31, 25",
        ),
        (
            0x0000_000C,
            Instr::SystemCall {
                code: SystemCode::new(0),
            },
            "SYSCALL",
        ),
        (
            0x0000_01CD,
            Instr::Break {
                code: SystemCode::new(7),
            },
            "BREAK 7",
        ),
        (0x0000_000F, Instr::Sync, "SYNC"),
    ];
    for (word, instr, name) in rows {
        encodes(&rt, word, &instr, name);
    }
}

#[test]
fn products_and_sums(rt: HostRuntime) {
    let (r1, r2, r3, r8, r9) = (r(1), r(2), r(3), r(8), r(9));
    let rows = [
        (
            0x0000_4010,
            Instr::MoveFrom {
                half: Half::Hi,
                rd: r8,
            },
            "MFHI 8",
        ),
        (
            0x0100_0011,
            Instr::MoveTo {
                half: Half::Hi,
                rs: r8,
            },
            "MTHI 8",
        ),
        (
            0x0000_4012,
            Instr::MoveFrom {
                half: Half::Lo,
                rd: r8,
            },
            "MFLO 8",
        ),
        (
            0x0100_0013,
            Instr::MoveTo {
                half: Half::Lo,
                rs: r8,
            },
            "MTLO 8",
        ),
        (
            0x0109_0018,
            Instr::MulDiv {
                op: MulOp::Multiply,
                rs: r8,
                rt: r9,
            },
            "MULT 8, 9",
        ),
        (
            0x0109_0019,
            Instr::MulDiv {
                op: MulOp::MultiplyUnsigned,
                rs: r8,
                rt: r9,
            },
            "MULTU",
        ),
        (
            0x0109_001A,
            Instr::MulDiv {
                op: MulOp::Divide,
                rs: r8,
                rt: r9,
            },
            "DIV",
        ),
        (
            0x0109_001B,
            Instr::MulDiv {
                op: MulOp::DivideUnsigned,
                rs: r8,
                rt: r9,
            },
            "DIVU",
        ),
        (
            0x0022_1820,
            Instr::Alu {
                op: AluOp::Add,
                rs: r1,
                rt: r2,
                rd: r3,
            },
            "ADD 3, 1, 2",
        ),
        (
            0x0022_1821,
            Instr::Alu {
                op: AluOp::AddUnsigned,
                rs: r1,
                rt: r2,
                rd: r3,
            },
            "ADDU",
        ),
        (
            0x0022_1822,
            Instr::Alu {
                op: AluOp::Subtract,
                rs: r1,
                rt: r2,
                rd: r3,
            },
            "SUB",
        ),
        (
            0x0022_1823,
            Instr::Alu {
                op: AluOp::SubtractUnsigned,
                rs: r1,
                rt: r2,
                rd: r3,
            },
            "SUBU",
        ),
        (
            0x0022_1824,
            Instr::Alu {
                op: AluOp::And,
                rs: r1,
                rt: r2,
                rd: r3,
            },
            "AND",
        ),
        (
            0x0022_1825,
            Instr::Alu {
                op: AluOp::Or,
                rs: r1,
                rt: r2,
                rd: r3,
            },
            "OR",
        ),
        (
            0x0022_1826,
            Instr::Alu {
                op: AluOp::Xor,
                rs: r1,
                rt: r2,
                rd: r3,
            },
            "XOR",
        ),
        (
            0x0022_1827,
            Instr::Alu {
                op: AluOp::Nor,
                rs: r1,
                rt: r2,
                rd: r3,
            },
            "NOR",
        ),
        (
            0x0022_182A,
            Instr::Alu {
                op: AluOp::SetLess,
                rs: r1,
                rt: r2,
                rd: r3,
            },
            "SLT",
        ),
        (
            0x0022_182B,
            Instr::Alu {
                op: AluOp::SetLessUnsigned,
                rs: r1,
                rt: r2,
                rd: r3,
            },
            "SLTU",
        ),
    ];
    for (word, instr, name) in rows {
        encodes(&rt, word, &instr, name);
    }
}

#[test]
fn traps(rt: HostRuntime) {
    let (r0, r1, r2) = (r(0), r(1), r(2));
    let code = TrapCode::new(0);
    let rows = [
        (
            0x0022_0030,
            Instr::Trap {
                cond: Cond::GreaterOrEqual,
                rs: r1,
                rt: r2,
                code,
            },
            "TGE 1, 2",
        ),
        (
            0x0022_0031,
            Instr::Trap {
                cond: Cond::GreaterOrEqualUnsigned,
                rs: r1,
                rt: r2,
                code,
            },
            "TGEU",
        ),
        (
            0x0022_0032,
            Instr::Trap {
                cond: Cond::Less,
                rs: r1,
                rt: r2,
                code,
            },
            "TLT",
        ),
        (
            0x0022_0033,
            Instr::Trap {
                cond: Cond::LessUnsigned,
                rs: r1,
                rt: r2,
                code,
            },
            "TLTU",
        ),
        (
            0x0022_0034,
            Instr::Trap {
                cond: Cond::Equal,
                rs: r1,
                rt: r2,
                code,
            },
            "TEQ",
        ),
        (
            0x0022_0036,
            Instr::Trap {
                cond: Cond::NotEqual,
                rs: r1,
                rt: r2,
                code,
            },
            "TNE",
        ),
        (
            0x0020_01F4,
            Instr::Trap {
                cond: Cond::Equal,
                rs: r1,
                rt: r0,
                code: TrapCode::new(7),
            },
            "TEQ 1, 0, 7",
        ),
        (
            0x0428_0005,
            Instr::TrapImmediate {
                cond: Cond::GreaterOrEqual,
                rs: r1,
                immediate: 5,
            },
            "TGEI 1, 5",
        ),
        (
            0x0429_0005,
            Instr::TrapImmediate {
                cond: Cond::GreaterOrEqualUnsigned,
                rs: r1,
                immediate: 5,
            },
            "TGEIU",
        ),
        (
            0x042A_0005,
            Instr::TrapImmediate {
                cond: Cond::Less,
                rs: r1,
                immediate: 5,
            },
            "TLTI",
        ),
        (
            0x042B_0005,
            Instr::TrapImmediate {
                cond: Cond::LessUnsigned,
                rs: r1,
                immediate: 5,
            },
            "TLTIU",
        ),
        (
            0x042C_0005,
            Instr::TrapImmediate {
                cond: Cond::Equal,
                rs: r1,
                immediate: 5,
            },
            "TEQI",
        ),
        (
            0x042E_0005,
            Instr::TrapImmediate {
                cond: Cond::NotEqual,
                rs: r1,
                immediate: 5,
            },
            "TNEI",
        ),
    ];
    for (word, instr, name) in rows {
        encodes(&rt, word, &instr, name);
    }
}

#[test]
fn branches(rt: HostRuntime) {
    let (r1, r2) = (r(1), r(2));
    let rows = [
        (
            0x0420_0003,
            Instr::BranchZero {
                cond: Cond::Less,
                untaken: Untaken::Slot,
                rs: r1,
                offset: 3,
            },
            "BLTZ 1, 3",
        ),
        (
            0x0421_0003,
            Instr::BranchZero {
                cond: Cond::GreaterOrEqual,
                untaken: Untaken::Slot,
                rs: r1,
                offset: 3,
            },
            "BGEZ",
        ),
        (
            0x0422_0003,
            Instr::BranchZero {
                cond: Cond::Less,
                untaken: Untaken::PastSlot,
                rs: r1,
                offset: 3,
            },
            "BLTZL",
        ),
        (
            0x0423_0003,
            Instr::BranchZero {
                cond: Cond::GreaterOrEqual,
                untaken: Untaken::PastSlot,
                rs: r1,
                offset: 3,
            },
            "BGEZL",
        ),
        (
            0x0430_0003,
            Instr::BranchZeroAndLink {
                cond: Cond::Less,
                untaken: Untaken::Slot,
                rs: r1,
                offset: 3,
            },
            "BLTZAL",
        ),
        (
            0x0431_0003,
            Instr::BranchZeroAndLink {
                cond: Cond::GreaterOrEqual,
                untaken: Untaken::Slot,
                rs: r1,
                offset: 3,
            },
            "BGEZAL",
        ),
        (
            0x0432_0003,
            Instr::BranchZeroAndLink {
                cond: Cond::Less,
                untaken: Untaken::PastSlot,
                rs: r1,
                offset: 3,
            },
            "BLTZALL",
        ),
        (
            0x0433_0003,
            Instr::BranchZeroAndLink {
                cond: Cond::GreaterOrEqual,
                untaken: Untaken::PastSlot,
                rs: r1,
                offset: 3,
            },
            "BGEZALL",
        ),
        (
            0x0800_0003,
            Instr::Jump {
                index: JumpIndex::new(3),
            },
            "J 3",
        ),
        (
            0x0FFF_FFFF,
            Instr::JumpAndLink {
                index: JumpIndex::new(0x3FF_FFFF),
            },
            "JAL 3FFFFFF",
        ),
        (
            0x1022_FFFF,
            Instr::Branch {
                cond: Cond::Equal,
                untaken: Untaken::Slot,
                rs: r1,
                rt: r2,
                offset: 0xFFFF,
            },
            "BEQ 1, 2, -1",
        ),
        (
            0x1422_FFFF,
            Instr::Branch {
                cond: Cond::NotEqual,
                untaken: Untaken::Slot,
                rs: r1,
                rt: r2,
                offset: 0xFFFF,
            },
            "BNE",
        ),
        (
            0x5022_FFFF,
            Instr::Branch {
                cond: Cond::Equal,
                untaken: Untaken::PastSlot,
                rs: r1,
                rt: r2,
                offset: 0xFFFF,
            },
            "BEQL",
        ),
        (
            0x5422_FFFF,
            Instr::Branch {
                cond: Cond::NotEqual,
                untaken: Untaken::PastSlot,
                rs: r1,
                rt: r2,
                offset: 0xFFFF,
            },
            "BNEL",
        ),
        (
            0x1820_FFFF,
            Instr::BranchZero {
                cond: Cond::LessOrEqual,
                untaken: Untaken::Slot,
                rs: r1,
                offset: 0xFFFF,
            },
            "BLEZ 1, -1",
        ),
        (
            0x1C20_FFFF,
            Instr::BranchZero {
                cond: Cond::Greater,
                untaken: Untaken::Slot,
                rs: r1,
                offset: 0xFFFF,
            },
            "BGTZ",
        ),
        (
            0x5820_FFFF,
            Instr::BranchZero {
                cond: Cond::LessOrEqual,
                untaken: Untaken::PastSlot,
                rs: r1,
                offset: 0xFFFF,
            },
            "BLEZL",
        ),
        (
            0x5C20_FFFF,
            Instr::BranchZero {
                cond: Cond::Greater,
                untaken: Untaken::PastSlot,
                rs: r1,
                offset: 0xFFFF,
            },
            "BGTZL",
        ),
    ];
    for (word, instr, name) in rows {
        encodes(&rt, word, &instr, name);
    }
}

#[test]
fn immediates(rt: HostRuntime) {
    let (r1, r2) = (r(1), r(2));
    let rows = [
        (
            0x2022_FFFE,
            Instr::AluImmediate {
                op: AluOp::Add,
                rs: r1,
                rt: r2,
                immediate: 0xFFFE,
            },
            "ADDI 2, 1, -2",
        ),
        (
            0x2422_FFFE,
            Instr::AluImmediate {
                op: AluOp::AddUnsigned,
                rs: r1,
                rt: r2,
                immediate: 0xFFFE,
            },
            "ADDIU",
        ),
        (
            0x2822_FFFE,
            Instr::AluImmediate {
                op: AluOp::SetLess,
                rs: r1,
                rt: r2,
                immediate: 0xFFFE,
            },
            "SLTI",
        ),
        (
            0x2C22_FFFE,
            Instr::AluImmediate {
                op: AluOp::SetLessUnsigned,
                rs: r1,
                rt: r2,
                immediate: 0xFFFE,
            },
            "SLTIU",
        ),
        (
            0x3022_FFFE,
            Instr::AluImmediate {
                op: AluOp::And,
                rs: r1,
                rt: r2,
                immediate: 0xFFFE,
            },
            "ANDI",
        ),
        (
            0x3422_FFFE,
            Instr::AluImmediate {
                op: AluOp::Or,
                rs: r1,
                rt: r2,
                immediate: 0xFFFE,
            },
            "ORI",
        ),
        (
            0x3822_FFFE,
            Instr::AluImmediate {
                op: AluOp::Xor,
                rs: r1,
                rt: r2,
                immediate: 0xFFFE,
            },
            "XORI",
        ),
        (
            0x3C02_1234,
            Instr::LoadUpper {
                rt: r2,
                immediate: 0x1234,
            },
            "LUI 2, 1234",
        ),
    ];
    for (word, instr, name) in rows {
        encodes(&rt, word, &instr, name);
    }
}

#[test]
fn loads_and_stores(rt: HostRuntime) {
    let (r1, r2) = (r(1), r(2));
    let rows = [
        (
            0x8022_0004,
            Instr::Load {
                kind: LoadKind::Byte,
                base: r1,
                rt: r2,
                offset: 4,
            },
            "LB 2, 4(1)",
        ),
        (
            0x8422_0004,
            Instr::Load {
                kind: LoadKind::HalfWord,
                base: r1,
                rt: r2,
                offset: 4,
            },
            "LH",
        ),
        (
            0x8822_0004,
            Instr::Load {
                kind: LoadKind::WordLeft,
                base: r1,
                rt: r2,
                offset: 4,
            },
            "LWL",
        ),
        (
            0x8C22_0004,
            Instr::Load {
                kind: LoadKind::Word,
                base: r1,
                rt: r2,
                offset: 4,
            },
            "LW",
        ),
        (
            0x9022_0004,
            Instr::Load {
                kind: LoadKind::ByteUnsigned,
                base: r1,
                rt: r2,
                offset: 4,
            },
            "LBU",
        ),
        (
            0x9422_0004,
            Instr::Load {
                kind: LoadKind::HalfWordUnsigned,
                base: r1,
                rt: r2,
                offset: 4,
            },
            "LHU",
        ),
        (
            0x9822_0004,
            Instr::Load {
                kind: LoadKind::WordRight,
                base: r1,
                rt: r2,
                offset: 4,
            },
            "LWR",
        ),
        (
            0xA022_0004,
            Instr::Store {
                kind: StoreKind::Byte,
                base: r1,
                rt: r2,
                offset: 4,
            },
            "SB 2, 4(1)",
        ),
        (
            0xA422_0004,
            Instr::Store {
                kind: StoreKind::HalfWord,
                base: r1,
                rt: r2,
                offset: 4,
            },
            "SH",
        ),
        (
            0xA822_0004,
            Instr::Store {
                kind: StoreKind::WordLeft,
                base: r1,
                rt: r2,
                offset: 4,
            },
            "SWL",
        ),
        (
            0xAC22_0004,
            Instr::Store {
                kind: StoreKind::Word,
                base: r1,
                rt: r2,
                offset: 4,
            },
            "SW",
        ),
        (
            0xB822_0004,
            Instr::Store {
                kind: StoreKind::WordRight,
                base: r1,
                rt: r2,
                offset: 4,
            },
            "SWR",
        ),
        (
            0xC022_0004,
            Instr::LoadLinked {
                base: r1,
                rt: r2,
                offset: 4,
            },
            "LL",
        ),
        (
            0xE022_0004,
            Instr::StoreConditional {
                base: r1,
                rt: r2,
                offset: 4,
            },
            "SC",
        ),
    ];
    for (word, instr, name) in rows {
        encodes(&rt, word, &instr, name);
    }
}

#[test]
fn coprocessors(rt: HostRuntime) {
    let (r8, r12) = (r(8), r(12));
    let rows = [
        (
            0x4008_6000,
            Instr::MoveFromCp0 { rt: r8, rd: r12 },
            "MFC0 8, 12",
        ),
        (
            0x4088_6000,
            Instr::MoveToCp0 { rt: r8, rd: r12 },
            "MTC0 8, 12",
        ),
        (0x4200_0001, Instr::Cp0(Cp0Op::TlbRead), "TLBR"),
        (0x4200_0002, Instr::Cp0(Cp0Op::TlbWriteIndexed), "TLBWI"),
        (0x4200_0006, Instr::Cp0(Cp0Op::TlbWriteRandom), "TLBWR"),
        (0x4200_0008, Instr::Cp0(Cp0Op::TlbProbe), "TLBP"),
        (0x4200_0018, Instr::Cp0(Cp0Op::ExceptionReturn), "ERET"),
        (
            0x4400_0000,
            Instr::Coprocessor {
                unit: 1,
                word: 0x44000000,
            },
            "COP1",
        ),
        (
            0x4800_0000,
            Instr::Coprocessor {
                unit: 2,
                word: 0x48000000,
            },
            "COP2",
        ),
        (
            0xC400_0000,
            Instr::Coprocessor {
                unit: 1,
                word: 0xC4000000,
            },
            "LWC1",
        ),
        (
            0xC800_0000,
            Instr::Coprocessor {
                unit: 2,
                word: 0xC8000000,
            },
            "LWC2",
        ),
        (
            0xD400_0000,
            Instr::Coprocessor {
                unit: 1,
                word: 0xD4000000,
            },
            "LDC1",
        ),
        (
            0xD800_0000,
            Instr::Coprocessor {
                unit: 2,
                word: 0xD8000000,
            },
            "LDC2",
        ),
        (
            0xE400_0000,
            Instr::Coprocessor {
                unit: 1,
                word: 0xE4000000,
            },
            "SWC1",
        ),
        (
            0xE800_0000,
            Instr::Coprocessor {
                unit: 2,
                word: 0xE8000000,
            },
            "SWC2",
        ),
        (
            0xF400_0000,
            Instr::Coprocessor {
                unit: 1,
                word: 0xF4000000,
            },
            "SDC1",
        ),
        (
            0xF800_0000,
            Instr::Coprocessor {
                unit: 2,
                word: 0xF8000000,
            },
            "SDC2",
        ),
    ];
    for (word, instr, name) in rows {
        encodes(&rt, word, &instr, name);
    }
}

#[test]
fn words_outside_the_table(rt: HostRuntime) {
    let rows = [
        (0x0022_1900, "SLL with a source register"),
        (0x0022_1844, "SLLV with an amount"),
        (0x03E1_0008, "JR with a target register"),
        (0x0321_F809, "JALR with a target register"),
        (0x0000_004F, "SYNC with a code"),
        (0x0020_4010, "MFHI with a source register"),
        (0x0100_0811, "MTHI with a destination"),
        (0x0109_0818, "MULT with a destination"),
        (0x0022_1860, "ADD with an amount"),
        (0x1821_FFFF, "BLEZ with a target register"),
        (0x3C22_1234, "LUI with a source register"),
        (0x4008_6001, "MFC0 with a function"),
        (0x4088_6040, "MTC0 with an amount"),
        (0x4200_0058, "ERET with a bit more"),
        (0x4040_0000, "an unknown move of coprocessor 0"),
        (0x4C00_0000, "coprocessor 3"),
        (0xBC22_0000, "opcode 2F, the manual's CACHE"),
        (0x6422_0001, "opcode 19"),
        (0xDC22_0008, "opcode 37"),
        (0x0000_003F, "function 3F"),
        (0x0002_1838, "function 38"),
        (0x0424_0000, "opcode 1 with 4"),
        (0x043F_0000, "opcode 1 with 1F"),
    ];
    for (word, name) in rows {
        encodes(&rt, word, &Instr::Reserved(word), name);
    }
}
