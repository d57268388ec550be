//! Registers, where register 0 is kept 0.
ghost use Rattle.std.specs.Prelude.{◌≡◌, ◌≢◌, ◌*◌, ◌^◌, true, Some, slice_index};
ghost use Rattle.base_words.specs.Fields.{sign_extended};
ghost use Rattle.base_words.specs.Instruction.{register};
ghost use Rattle.mips_alu.specs.Result.{option_of};
ghost use Rattle.mips_alu.specs.declared.arithmetic.AluOut.TheVariants.{Overflow};
ghost use Rattle.page_ops.specs.Ops.{Sets};

use base_words::{Register, Regs};
use mips_alu::AluOut;

/// A half word with its sign in the upper half.
#[inline(always)]
pub fn sign_extend(half: u16) -> u32
    ensures { result ≡ sign_extended half }
{
    if half < 0x8000 {
        u32::from(half)
    } else {
        u32::from(half) + 0xFFFF_0000
    }
}

/// An immediate in the upper half of a word.
#[inline(always)]
pub fn upper(immediate: u16) -> u32
    ensures { result ≡ immediate * 2 ^ 16 }
{
    u32::from(immediate) << 16
}

/// A register's value.
#[inline(always)]
pub fn get(regs: &Regs, number: Register) -> u32
    requires { slice_index regs.now.general 0 ≡ 0 }
    ensures { result ≡ register regs.now number }
{
    regs.general[number.value() as usize]
}

/// A register other than register 0 has a value.
#[inline(always)]
pub fn set(regs: &mut Regs, number: Register, value: u32) -> bool
    requires zero { slice_index regs.old.general 0 ≡ 0 }
    requires some { number ≢ 0 }
    ensures sets { Sets regs.old number value regs.new }
    ensures zero { slice_index regs.new.general 0 ≡ 0 }
    ensures stays { (regs.new.pc ≡ regs.old.pc) × (regs.new.slot ≡ regs.old.slot) }
    ensures done { result ≡ true }
{
    regs.general[number.value() as usize] = value;
    true
}

/// A result that fits.
#[inline(always)]
pub fn value_of(out: AluOut) -> u32
    requires { out ≢ Overflow }
    ensures { option_of out ≡ Some result }
{
    match out {
        AluOut::Value(value) => value,
        AluOut::Overflow => unreachable!(),
    }
}
