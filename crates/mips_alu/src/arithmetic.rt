//! Arithmetic and logic on words.
ghost use Rattle.std.specs.Prelude.{◌≡◌, ◌<◌, ◌%◌, IsTrue};
ghost use Rattle.base_words.specs.Fields.{sign_extended};
ghost use Rattle.base_words.specs.Arithmetic.{alu as value_of, shift as shifted, mul_div as hi_lo_of, halves as halves_of, holds as holds_of};
ghost use Rattle.base_words.specs.declared.instr.AluOp.TheVariants.{Add, Subtract};
ghost use Rattle.base_words.specs.declared.instr.MulOp.TheVariants.{Divide};
ghost use Rattle.base_words.specs.Instruction.{operand as operand_of};
ghost use Rattle.mips_alu.specs.Result.{option_of};

use base_words::{AluOp, Cond, HiLo, MulOp, ShiftOp};

/// A result of 32 bits, or a signed result that doesn't fit them.
#[derive(Clone, Copy, Debug, PartialEq, Eq)]
pub enum AluOut {
    Value(u32),
    Overflow,
}

/// The signed sum, or overflow.
#[inline(always)]
fn add(a: u32, b: u32) -> AluOut
    ensures { option_of result ≡ value_of Add a b }
{
    match a.cast_signed().checked_add(b.cast_signed()) {
        Some(_) => AluOut::Value(a.wrapping_add(b)),
        None => AluOut::Overflow,
    }
}

/// The signed difference, or overflow.
#[inline(always)]
fn subtract(a: u32, b: u32) -> AluOut
    ensures { option_of result ≡ value_of Subtract a b }
{
    match a.cast_signed().checked_sub(b.cast_signed()) {
        Some(_) => AluOut::Value(a.wrapping_sub(b)),
        None => AluOut::Overflow,
    }
}

/// What an operation makes of two words; overflow where it traps and the signed result doesn't fit.
#[inline(always)]
pub fn alu(op: AluOp, a: u32, b: u32) -> AluOut
    ensures { option_of result ≡ value_of op a b }
{
    match op {
        AluOp::Add => add(a, b),
        AluOp::AddUnsigned => AluOut::Value(a.wrapping_add(b)),
        AluOp::Subtract => subtract(a, b),
        AluOp::SubtractUnsigned => AluOut::Value(a.wrapping_sub(b)),
        AluOp::And => AluOut::Value(a & b),
        AluOp::Or => AluOut::Value(a | b),
        AluOp::Xor => AluOut::Value(a ^ b),
        AluOp::Nor => AluOut::Value(!(a | b)),
        AluOp::SetLess => AluOut::Value(u32::from(a.cast_signed() < b.cast_signed())),
        AluOp::SetLessUnsigned => AluOut::Value(u32::from(a < b)),
    }
}

/// A word shifted by the low five bits of an amount.
#[inline(always)]
pub fn shift(op: ShiftOp, value: u32, amount: u32) -> u32
    ensures { result ≡ shifted op value (amount % 32) }
{
    let amount = amount & 31;
    match op {
        ShiftOp::Left => value << amount,
        ShiftOp::RightLogical => value >> amount,
        ShiftOp::RightArithmetic => (value.cast_signed() >> amount).cast_unsigned(),
    }
}

/// A number of 64 bits in two halves.
fn halves(number: u64) -> HiLo
    ensures { result ≡ halves_of number }
{
    HiLo {
        hi: (number >> 32) as u32,
        lo: (number & 0xFFFF_FFFF) as u32,
    }
}

/// The signed quotient rounded to zero, and the remainder with the dividend's sign.
fn divide(a: u32, b: u32) -> HiLo
    ensures { result ≡ hi_lo_of Divide a b }
{
    if b == 0 {
        return HiLo {
            hi: a,
            lo: u32::MAX,
        };
    }
    HiLo {
        hi: a
            .cast_signed()
            .wrapping_rem(b.cast_signed())
            .cast_unsigned(),
        lo: a
            .cast_signed()
            .wrapping_div(b.cast_signed())
            .cast_unsigned(),
    }
}

/// What HI and LO become.
pub fn mul_div(op: MulOp, a: u32, b: u32) -> HiLo
    ensures { result ≡ hi_lo_of op a b }
{
    match op {
        MulOp::Multiply => {
            let product = i64::from(a.cast_signed()) * i64::from(b.cast_signed());
            halves(product.cast_unsigned())
        }
        MulOp::MultiplyUnsigned => halves(u64::from(a) * u64::from(b)),
        MulOp::Divide => divide(a, b),
        MulOp::DivideUnsigned if b == 0 => HiLo {
            hi: a,
            lo: u32::MAX,
        },
        MulOp::DivideUnsigned => HiLo {
            hi: a % b,
            lo: a / b,
        },
    }
}

/// Whether a condition of two words holds.
#[inline(always)]
pub fn holds(cond: Cond, a: u32, b: u32) -> bool
    ensures { result ≡ holds_of cond a b }
{
    match cond {
        Cond::Equal => a == b,
        Cond::NotEqual => a != b,
        Cond::Less => a.cast_signed() < b.cast_signed(),
        Cond::LessUnsigned => a < b,
        Cond::LessOrEqual => a.cast_signed() <= b.cast_signed(),
        Cond::Greater => a.cast_signed() > b.cast_signed(),
        Cond::GreaterOrEqual => a.cast_signed() >= b.cast_signed(),
        Cond::GreaterOrEqualUnsigned => a >= b,
    }
}

/// A half word with its sign in the upper half.
#[inline(always)]
pub fn sign_extend(half: u16) -> u32
    ensures { result ≡ sign_extended half }
{
    if half < 0x8000 {
        u32::from(half)
    } else {
        u32::from(half) + 0xFFFF_0000
    }
}

/// The second operand that an immediate is.
#[inline(always)]
pub fn operand(op: AluOp, immediate: u16) -> u32
    ensures { result ≡ operand_of op immediate }
{
    match op {
        AluOp::And | AluOp::Or | AluOp::Xor | AluOp::Nor => u32::from(immediate),
        _ => sign_extend(immediate),
    }
}
