//! Computational instructions, with values worked out by hand from the manual's descriptions.
use crate::mips_alu_rig::{computes, gives, holding, outcome, passes, r, raises};
use crate::telling::same;
use base_words::{AluOp, Exception, Half, Instr, MulOp, Register, ShiftOp};

/// Register 1 is `rs`, register 2 `rt`, and register 3 `rd`. None stands for an overflow.
#[test]
fn operations_on_registers(rt: HostRuntime) {
    let rows = [
        (AluOp::Add, 0x7FFF_FFFE, 1, Some(0x7FFF_FFFF)),
        (AluOp::Add, 0xFFFF_FFFF, 0xFFFF_FFFF, Some(0xFFFF_FFFE)),
        (AluOp::Add, 0x7FFF_FFFF, 0xFFFF_FFFF, Some(0x7FFF_FFFE)),
        (AluOp::Add, 0x7FFF_FFFF, 1, None),
        (AluOp::Add, 0x8000_0000, 0xFFFF_FFFF, None),
        (AluOp::Add, 0x8000_0000, 0x8000_0000, None),
        (AluOp::AddUnsigned, 0x7FFF_FFFF, 1, Some(0x8000_0000)),
        (AluOp::AddUnsigned, 0xFFFF_FFFF, 2, Some(1)),
        (AluOp::Subtract, 3, 5, Some(0xFFFF_FFFE)),
        (AluOp::Subtract, 0xFFFF_FFFF, 0x8000_0000, Some(0x7FFF_FFFF)),
        (AluOp::Subtract, 0, 0x8000_0000, None),
        (AluOp::Subtract, 0x7FFF_FFFF, 0xFFFF_FFFF, None),
        (AluOp::Subtract, 0x8000_0000, 1, None),
        (AluOp::SubtractUnsigned, 0, 1, Some(0xFFFF_FFFF)),
        (AluOp::SubtractUnsigned, 0x8000_0000, 1, Some(0x7FFF_FFFF)),
        (AluOp::And, 0x1234_5678, 0xFF00_FF00, Some(0x1200_5600)),
        (AluOp::Or, 0x0F0F_0000, 0x00FF_1234, Some(0x0FFF_1234)),
        (AluOp::Xor, 0xFFFF_0000, 0xFF00_FF00, Some(0x00FF_FF00)),
        (AluOp::Nor, 0xFFFF_0000, 0x0000_00FF, Some(0x0000_FF00)),
        (AluOp::SetLess, 0xFFFF_FFFF, 0, Some(1)),
        (AluOp::SetLess, 0x8000_0000, 0x7FFF_FFFF, Some(1)),
        (AluOp::SetLess, 0, 0xFFFF_FFFF, Some(0)),
        (AluOp::SetLess, 5, 5, Some(0)),
        (AluOp::SetLessUnsigned, 0, 0xFFFF_FFFF, Some(1)),
        (AluOp::SetLessUnsigned, 0xFFFF_FFFF, 0, Some(0)),
        (AluOp::SetLessUnsigned, 5, 5, Some(0)),
    ];
    for (op, a, b, value) in rows {
        let before = holding(a, b);
        let instr = Instr::Alu {
            op,
            rs: r(1),
            rt: r(2),
            rd: r(3),
        };
        let want = match value {
            Some(value) => computes(before, 3, value),
            None => raises(before, Exception::Overflow),
        };
        gives(&rt, instr, before, want);
    }
}

/// Register 1 is `rs`, and register 2 `rt`. Arithmetic and comparisons extend the sign, logic extends with zeros.
#[test]
fn operations_on_immediates(rt: HostRuntime) {
    let rows = [
        (AluOp::Add, 5, 0xFFFF, Some(4)),
        (AluOp::Add, 0, 0x8000, Some(0xFFFF_8000)),
        (AluOp::Add, 0x7FFF_8000, 0x7FFF, Some(0x7FFF_FFFF)),
        (AluOp::Add, 0x7FFF_FFFF, 1, None),
        (AluOp::Add, 0x8000_0000, 0xFFFF, None),
        (AluOp::AddUnsigned, 5, 0xFFFF, Some(4)),
        (AluOp::AddUnsigned, 0x7FFF_FFFF, 1, Some(0x8000_0000)),
        (AluOp::AddUnsigned, 0, 0x8000, Some(0xFFFF_8000)),
        (AluOp::SetLess, 0xFFFF_FFFE, 0xFFFF, Some(1)),
        (AluOp::SetLess, 0, 0xFFFF, Some(0)),
        (AluOp::SetLess, 0x0000_7FFF, 0x8000, Some(0)),
        (AluOp::SetLessUnsigned, 0x0001_0000, 0xFFFF, Some(1)),
        (AluOp::SetLessUnsigned, 0x0000_8000, 0x8000, Some(1)),
        (AluOp::SetLessUnsigned, 0xFFFF_FFFF, 0x7FFF, Some(0)),
        (AluOp::And, 0xFFFF_FFFF, 0x8000, Some(0x0000_8000)),
        (AluOp::And, 0x1234_5678, 0xFF00, Some(0x0000_5600)),
        (AluOp::Or, 0x1234_0000, 0x8001, Some(0x1234_8001)),
        (AluOp::Xor, 0xFFFF_FFFF, 0x8000, Some(0xFFFF_7FFF)),
        (AluOp::Xor, 0x1234_5678, 0xFFFF, Some(0x1234_A987)),
    ];
    for (op, a, immediate, value) in rows {
        let before = holding(a, 0);
        let instr = Instr::AluImmediate {
            op,
            rs: r(1),
            rt: r(2),
            immediate,
        };
        let want = match value {
            Some(value) => computes(before, 2, value),
            None => raises(before, Exception::Overflow),
        };
        gives(&rt, instr, before, want);
    }
    for (immediate, value) in [(0x1234, 0x1234_0000), (0x8000, 0x8000_0000)] {
        let before = holding(0, 0xFFFF_FFFF);
        let instr = Instr::LoadUpper {
            rt: r(2),
            immediate,
        };
        let want = computes(before, 2, value);
        gives(&rt, instr, before, want);
    }
}

#[test]
fn shifts_by_a_fixed_amount(rt: HostRuntime) {
    let rows = [
        (ShiftOp::Left, 0x8765_4321, r(0), 0x8765_4321),
        (ShiftOp::Left, 0x8765_4321, r(4), 0x7654_3210),
        (ShiftOp::Left, 0x8765_4321, r(31), 0x8000_0000),
        (ShiftOp::RightLogical, 0x8765_4321, r(0), 0x8765_4321),
        (ShiftOp::RightLogical, 0x8765_4321, r(4), 0x0876_5432),
        (ShiftOp::RightLogical, 0x8765_4321, r(31), 0x0000_0001),
        (ShiftOp::RightArithmetic, 0x8765_4321, r(0), 0x8765_4321),
        (ShiftOp::RightArithmetic, 0x8765_4321, r(4), 0xF876_5432),
        (ShiftOp::RightArithmetic, 0x8765_4321, r(31), 0xFFFF_FFFF),
        (ShiftOp::RightArithmetic, 0x7654_3210, r(4), 0x0765_4321),
        (ShiftOp::RightArithmetic, 0x7654_3210, r(31), 0x0000_0000),
    ];
    for (op, word, amount, value) in rows {
        let before = holding(0xFFFF_FFFF, word);
        let instr = Instr::Shift {
            op,
            rt: r(2),
            rd: r(3),
            amount,
        };
        let want = computes(before, 3, value);
        gives(&rt, instr, before, want);
    }
}

/// Register 1 is `rs`, of which the low five bits count, and register 2 `rt`, which is shifted.
#[test]
fn shifts_by_a_register(rt: HostRuntime) {
    let rows = [
        (ShiftOp::Left, 0, 0x8765_4321),
        (ShiftOp::Left, 4, 0x7654_3210),
        (ShiftOp::Left, 31, 0x8000_0000),
        (ShiftOp::Left, 32, 0x8765_4321),
        (ShiftOp::Left, 36, 0x7654_3210),
        (ShiftOp::RightLogical, 0, 0x8765_4321),
        (ShiftOp::RightLogical, 31, 0x0000_0001),
        (ShiftOp::RightLogical, 32, 0x8765_4321),
        (ShiftOp::RightLogical, 0xFFFF_FFE4, 0x0876_5432),
        (ShiftOp::RightArithmetic, 0, 0x8765_4321),
        (ShiftOp::RightArithmetic, 31, 0xFFFF_FFFF),
        (ShiftOp::RightArithmetic, 32, 0x8765_4321),
        (ShiftOp::RightArithmetic, 36, 0xF876_5432),
    ];
    for (op, amount, value) in rows {
        let before = holding(amount, 0x8765_4321);
        let instr = Instr::ShiftVariable {
            op,
            rs: r(1),
            rt: r(2),
            rd: r(3),
        };
        let want = computes(before, 3, value);
        gives(&rt, instr, before, want);
    }
}

/// HI is a product's upper half and a division's remainder, LO its lower half and the quotient. The manual leaves a division by 0
/// open, and here its quotient is FFFFFFFF and its remainder the dividend.
#[test]
fn products_and_quotients(rt: HostRuntime) {
    let rows = [
        (MulOp::Multiply, 0xFFFF_FFFF, 2, 0xFFFF_FFFF, 0xFFFF_FFFE),
        (MulOp::Multiply, 0x8000_0000, 1, 0xFFFF_FFFF, 0x8000_0000),
        (MulOp::Multiply, 0x8000_0000, 0x8000_0000, 0x4000_0000, 0),
        (MulOp::Multiply, 0x7FFF_FFFF, 0x7FFF_FFFF, 0x3FFF_FFFF, 1),
        (MulOp::MultiplyUnsigned, 0xFFFF_FFFF, 2, 1, 0xFFFF_FFFE),
        (MulOp::MultiplyUnsigned, 0x8000_0000, 2, 1, 0),
        (
            MulOp::MultiplyUnsigned,
            0xFFFF_FFFF,
            0xFFFF_FFFF,
            0xFFFF_FFFE,
            1,
        ),
        (MulOp::Divide, 7, 2, 1, 3),
        (MulOp::Divide, 0xFFFF_FFF9, 2, 0xFFFF_FFFF, 0xFFFF_FFFD),
        (MulOp::Divide, 7, 0xFFFF_FFFE, 1, 0xFFFF_FFFD),
        (MulOp::Divide, 0xFFFF_FFF9, 0xFFFF_FFFE, 0xFFFF_FFFF, 3),
        (MulOp::Divide, 0x8000_0000, 0xFFFF_FFFF, 0, 0x8000_0000),
        (MulOp::Divide, 5, 0, 5, 0xFFFF_FFFF),
        (MulOp::Divide, 0xFFFF_FFFB, 0, 0xFFFF_FFFB, 0xFFFF_FFFF),
        (MulOp::DivideUnsigned, 0xFFFF_FFF9, 2, 1, 0x7FFF_FFFC),
        (
            MulOp::DivideUnsigned,
            0x8000_0000,
            0xFFFF_FFFF,
            0x8000_0000,
            0,
        ),
        (MulOp::DivideUnsigned, 9, 0, 9, 0xFFFF_FFFF),
    ];
    for (op, a, b, hi, lo) in rows {
        let before = holding(a, b);
        let instr = Instr::MulDiv {
            op,
            rs: r(1),
            rt: r(2),
        };
        let mut after = before;
        after.hi = hi;
        after.lo = lo;
        gives(&rt, instr, before, passes(after));
    }
}

/// MFHI, MTHI, MFLO and MTLO, each of which leaves the other half.
#[test]
fn moves_of_hi_and_lo(rt: HostRuntime) {
    let before = holding(0xAAAA_AAAA, 0);
    for (half, value) in [(Half::Hi, 0x1111_1111), (Half::Lo, 0x2222_2222)] {
        let instr = Instr::MoveFrom { half, rd: r(3) };
        let want = computes(before, 3, value);
        gives(&rt, instr, before, want);
    }
    for (half, hi, lo) in [
        (Half::Hi, 0xAAAA_AAAA, 0x2222_2222),
        (Half::Lo, 0x1111_1111, 0xAAAA_AAAA),
    ] {
        let instr = Instr::MoveTo { half, rs: r(1) };
        let mut after = before;
        after.hi = hi;
        after.lo = lo;
        gives(&rt, instr, before, passes(after));
    }
}

/// The sum of register `rs` and register 2 into `rd`.
fn add(rs: Register, rd: Register) -> Instr {
    Instr::Alu {
        op: AluOp::Add,
        rs,
        rt: r(2),
        rd,
    }
}

/// A source may be the target too. Register 0 reads 0 and keeps nothing, and a sum that overflows is an exception all the same.
#[test]
fn sources_and_targets(rt: HostRuntime) {
    let before = holding(3, 7);
    let full = holding(0x7FFF_FFFF, 7);
    let rows = [
        ("1, 1, 2", add(r(1), r(1)), before, computes(before, 1, 10)),
        ("2, 2, 2", add(r(2), r(2)), before, computes(before, 2, 14)),
        ("3, 0, 2", add(r(0), r(3)), before, computes(before, 3, 7)),
        ("0, 1, 2", add(r(1), r(0)), before, passes(before)),
        (
            "0, 1, 2, too much",
            add(r(1), r(0)),
            full,
            raises(full, Exception::Overflow),
        ),
    ];
    for (name, instr, start, want) in rows {
        same(&rt, &outcome(instr, start), &want, ("ADD", name));
    }
}
