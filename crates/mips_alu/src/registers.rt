//! The general registers by number.
ghost use Rattle.std.specs.Prelude.{◌≡◌};
ghost use Rattle.base_words.specs.Instruction.{register as register_of, with_register, advanced};

use base_words::{Register, Regs};

/// A register's value.
#[inline(always)]
pub fn read(regs: &Regs, register: Register) -> u32
    ensures { result ≡ register_of regs.now register }
{
    let number = register.value() as usize;
    if number == 0 { 0 } else { regs.general[number] }
}

/// Replaces a register's value; a write to register 0 is dropped.
#[inline(always)]
pub fn write(regs: &mut Regs, register: Register, value: u32)
    ensures { regs.new ≡ with_register regs.old register value }
{
    let number = register.value() as usize;
    if number != 0 {
        regs.general[number] = value;
    }
}

/// Goes to the next instruction, or from a delay slot to where it leads.
#[inline(always)]
pub fn advance(regs: &mut Regs)
    ensures { regs.new ≡ advanced regs.old }
{
    regs.pc = regs.slot.unwrap_or(regs.pc.wrapping_add(4));
    regs.slot = None;
}
