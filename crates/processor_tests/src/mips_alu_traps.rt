//! Traps, system calls, breakpoints and coprocessors, with answers worked out by hand from the manual's descriptions.
use crate::mips_alu_rig::{Outcome, asks, gives, holding, passes, r, raises};
use base_words::{Cond, Cp0Op, Exception, Instr, Regs, Request, SystemCode, TrapCode};

/// A word of -1, and the least signed number.
const MINUS: u32 = 0xFFFF_FFFF;

const LEAST: u32 = 0x8000_0000;

/// A trap is raised, or the next instruction follows.
fn traps(before: Regs, raised: bool) -> Outcome {
    if raised {
        raises(before, Exception::Trap)
    } else {
        passes(before)
    }
}

/// TGE, TGEU, TLT, TLTU, TEQ and TNE.
#[test]
fn traps_on_two_registers(rt: HostRuntime) {
    let rows = [
        (Cond::GreaterOrEqual, 0, MINUS, true),
        (Cond::GreaterOrEqual, MINUS, 0, false),
        (Cond::GreaterOrEqual, 5, 5, true),
        (Cond::GreaterOrEqual, LEAST, 0, false),
        (Cond::GreaterOrEqualUnsigned, MINUS, 0, true),
        (Cond::GreaterOrEqualUnsigned, 0, MINUS, false),
        (Cond::GreaterOrEqualUnsigned, 5, 5, true),
        (Cond::Less, MINUS, 0, true),
        (Cond::Less, 0, MINUS, false),
        (Cond::Less, 5, 5, false),
        (Cond::LessUnsigned, 0, MINUS, true),
        (Cond::LessUnsigned, MINUS, 0, false),
        (Cond::LessUnsigned, 5, 5, false),
        (Cond::Equal, 5, 5, true),
        (Cond::Equal, 5, 6, false),
        (Cond::NotEqual, 5, 6, true),
        (Cond::NotEqual, 5, 5, false),
    ];
    for (cond, a, b, raised) in rows {
        let before = holding(a, b);
        let instr = Instr::Trap {
            cond,
            rs: r(1),
            rt: r(2),
            code: TrapCode::new(7),
        };
        gives(&rt, instr, before, traps(before, raised));
    }
}

/// TGEI, TGEIU, TLTI, TLTIU, TEQI and TNEI. Each immediate extends its sign, also where it is compared unsigned.
#[test]
fn traps_on_an_immediate(rt: HostRuntime) {
    let rows = [
        (Cond::GreaterOrEqual, 0, 0xFFFF, true),
        (Cond::GreaterOrEqual, 0xFFFF_FFFE, 0xFFFF, false),
        (Cond::GreaterOrEqual, 5, 5, true),
        (Cond::GreaterOrEqualUnsigned, MINUS, 0xFFFF, true),
        (Cond::GreaterOrEqualUnsigned, 0x0001_0000, 0xFFFF, false),
        (Cond::GreaterOrEqualUnsigned, LEAST, 0x7FFF, true),
        (Cond::Less, 0xFFFF_FFFE, 0xFFFF, true),
        (Cond::Less, 0, 0xFFFF, false),
        (Cond::Less, 5, 5, false),
        (Cond::LessUnsigned, 0x0001_0000, 0xFFFF, true),
        (Cond::LessUnsigned, MINUS, 0xFFFF, false),
        (Cond::LessUnsigned, LEAST, 0x7FFF, false),
        (Cond::Equal, MINUS, 0xFFFF, true),
        (Cond::Equal, 0x0000_FFFF, 0xFFFF, false),
        (Cond::NotEqual, 0x0000_FFFF, 0xFFFF, true),
        (Cond::NotEqual, MINUS, 0xFFFF, false),
    ];
    for (cond, a, immediate, raised) in rows {
        let before = holding(a, 0);
        let instr = Instr::TrapImmediate {
            cond,
            rs: r(1),
            immediate,
        };
        let want = traps(before, raised);
        gives(&rt, instr, before, want);
    }
}

/// An exception leaves the registers, the delay slot too.
#[test]
fn instructions_that_raise_an_exception(rt: HostRuntime) {
    let mut before = holding(1, 2);
    before.slot = Some(0x8000_0000);
    let code = SystemCode::new(7);
    let rows = [
        (Instr::SystemCall { code }, Exception::SystemCall),
        (Instr::Break { code }, Exception::Breakpoint),
        (
            Instr::Coprocessor {
                unit: 1,
                word: 0x4400_0000,
            },
            Exception::CoprocessorUnusable(1),
        ),
        (
            Instr::Coprocessor {
                unit: 2,
                word: 0x4800_0000,
            },
            Exception::CoprocessorUnusable(2),
        ),
        (Instr::Reserved(0x7000_0000), Exception::ReservedInstruction),
    ];
    for (instr, exception) in rows {
        let want = raises(before, exception);
        gives(&rt, instr, before, want);
    }
}

#[test]
fn barriers(rt: HostRuntime) {
    let before = holding(1, 2);
    gives(&rt, Instr::Sync, before, passes(before));
}

/// MFC0, MTC0, the instructions of the TLB, and ERET: coprocessor 0 is asked.
#[test]
fn what_is_asked_of_coprocessor_0(rt: HostRuntime) {
    let before = holding(1, 0xAABB_CCDD);
    let rows = [
        (
            Instr::MoveFromCp0 {
                rt: r(2),
                rd: r(12),
            },
            Request::ReadCp0 {
                number: r(12),
                target: r(2),
            },
        ),
        (
            Instr::MoveToCp0 {
                rt: r(2),
                rd: r(12),
            },
            Request::WriteCp0 {
                number: r(12),
                value: 0xAABB_CCDD,
            },
        ),
        (Instr::Cp0(Cp0Op::TlbRead), Request::System(Cp0Op::TlbRead)),
        (
            Instr::Cp0(Cp0Op::TlbWriteIndexed),
            Request::System(Cp0Op::TlbWriteIndexed),
        ),
        (
            Instr::Cp0(Cp0Op::TlbWriteRandom),
            Request::System(Cp0Op::TlbWriteRandom),
        ),
        (
            Instr::Cp0(Cp0Op::TlbProbe),
            Request::System(Cp0Op::TlbProbe),
        ),
        (
            Instr::Cp0(Cp0Op::ExceptionReturn),
            Request::System(Cp0Op::ExceptionReturn),
        ),
    ];
    for (instr, request) in rows {
        gives(&rt, instr, before, asks(before, request));
    }
}
