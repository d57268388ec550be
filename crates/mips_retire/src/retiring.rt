//! What an answered request leaves in a virtual processor.
ghost use Rattle.std.specs.Prelude.{◌≡◌, Some, None};
ghost use Rattle.base_words.specs.Coprocessor.{register_at, reads, writes};
ghost use Rattle.base_words.specs.Instruction.{advanced, with_register};
ghost use Rattle.mips_alu.specs.Execution.{passed_system};
ghost use Rattle.private_machine.specs.Vcpu.{with_registers, with_link, with_cp0, system_done};

use base_words::{Cp0Op, Register};
use mips_alu::{advance, write};
use private_machine::Vcpu;

/// The instruction is passed, and a register has a value.
#[inline]
pub fn put(vcpu: &mut Vcpu, target: Register, value: u32)
    ensures { vcpu.new ≡ with_registers (with_register (advanced vcpu.old.registers) target value) vcpu.old }
{
    advance(&mut vcpu.registers);
    write(&mut vcpu.registers, target, value);
}

/// The same of a linked load, whose line is linked from then on.
pub fn put_linked(vcpu: &mut Vcpu, target: Register, value: u32, line: u32)
    ensures { vcpu.new ≡ with_link (Some line) (with_registers (with_register (advanced vcpu.old.registers) target value) vcpu.old) }
{
    put(vcpu, target, value);
    vcpu.link = Some(line);
}

/// The same of a conditional store, after which no line is linked.
pub fn put_unlinked(vcpu: &mut Vcpu, target: Register, value: u32)
    ensures { vcpu.new ≡ with_link None (with_registers (with_register (advanced vcpu.old.registers) target value) vcpu.old) }
{
    put(vcpu, target, value);
    vcpu.link = None;
}

/// The instruction is passed.
#[inline]
pub fn pass(vcpu: &mut Vcpu)
    ensures { vcpu.new ≡ with_registers (advanced vcpu.old.registers) vcpu.old }
{
    advance(&mut vcpu.registers);
}

/// MFC0: a register has what a register of coprocessor 0 reads.
pub fn read_cp0(vcpu: &mut Vcpu, number: Register, target: Register)
    ensures { vcpu.new ≡ with_registers (with_register (advanced vcpu.old.registers) target (reads vcpu.old.cp0 (register_at number))) vcpu.old }
{
    let value = vcpu.cp0.read(number.value() as u8);
    put(vcpu, target, value);
}

/// MTC0: a register of coprocessor 0 keeps what it holds of a value.
pub fn write_cp0(vcpu: &mut Vcpu, number: Register, value: u32)
    ensures { vcpu.new ≡ with_cp0 (writes vcpu.old.cp0 (register_at number) value) (with_registers (advanced vcpu.old.registers) vcpu.old) }
{
    pass(vcpu);
    vcpu.cp0.write(number.value() as u8, value);
}

/// An instruction of the TLB, or the return from an exception.
pub fn do_system(vcpu: &mut Vcpu, op: Cp0Op)
    ensures { vcpu.new ≡ system_done op (with_registers (passed_system op vcpu.old.registers) vcpu.old) }
{
    if op != Cp0Op::ExceptionReturn {
        pass(vcpu);
    }
    vcpu.do_system(op);
}
