//! Changes of one virtual processor of a machine, and of a word of its memory.
ghost use Rattle.std.specs.Prelude.{◌≡◌, ◌*◌, ◌<◌, length, Some, None};
ghost use Rattle.base_words.specs.Coprocessor.{register_at, reads, writes};
ghost use Rattle.base_words.specs.Instruction.{advanced, with_register};
ghost use Rattle.mips_alu.specs.Execution.{passed_system};
ghost use Rattle.private_machine.specs.Vcpu.{with_registers, with_link, with_cp0, system_done, raising, ticking};
ghost use Rattle.private_machine.specs.PrivateMachine.{vcpu as vcpu_at, on_vcpu};
ghost use Rattle.private_machine.specs.Links.{written, word_around as word_around_of, line_of};
ghost use Rattle.flat_machine.specs.FlatView.{machine_of, IsSound};

use crate::machine::Machine;
use crate::memory::{set_word_around, word_around};
use base_words::{Cp0Op, Exception, Register, VcpuId};
use mips_retire::shown_stays;
use private_machine::{Vcpu, unlink_others};

impl Machine {
    /// A virtual processor.
    #[inline]
    pub fn vcpu(&self, vcpu: VcpuId) -> &Vcpu
        requires { vcpu.0 < length (machine_of self.now).vcpus }
        ensures { result.now ≡ vcpu_at (machine_of self.now) vcpu.0 }
    {
        &self.vcpus[vcpu.0 as usize]
    }

    /// The instruction is passed, and a register has a value.
    #[inline]
    pub fn put(&mut self, vcpu: VcpuId, target: Register, value: u32)
        requires sound { IsSound self.old }
        requires there { vcpu.0 < length (machine_of self.old).vcpus }
        ensures sound { IsSound self.new }
        ensures ready { self.new.ready ≡ self.old.ready }
        ensures put { machine_of self.new ≡ on_vcpu (machine_of self.old) vcpu.0 (λ c. with_registers (with_register (advanced c.registers) target value) c) }
    {
        mips_retire::put(&mut self.vcpus[vcpu.0 as usize], target, value);
    }

    /// The same of a linked load, whose line is linked from then on.
    pub fn put_linked(&mut self, vcpu: VcpuId, target: Register, value: u32, line: u32)
        requires sound { IsSound self.old }
        requires there { vcpu.0 < length (machine_of self.old).vcpus }
        ensures sound { IsSound self.new }
        ensures ready { self.new.ready ≡ self.old.ready }
        ensures put { machine_of self.new ≡ on_vcpu (machine_of self.old) vcpu.0 (λ c. with_link (Some line) (with_registers (with_register (advanced c.registers) target value) c)) }
    {
        mips_retire::put_linked(&mut self.vcpus[vcpu.0 as usize], target, value, line);
    }

    /// The same of a conditional store, after which no line is linked.
    pub fn put_unlinked(&mut self, vcpu: VcpuId, target: Register, value: u32)
        requires sound { IsSound self.old }
        requires there { vcpu.0 < length (machine_of self.old).vcpus }
        ensures sound { IsSound self.new }
        ensures ready { self.new.ready ≡ self.old.ready }
        ensures put { machine_of self.new ≡ on_vcpu (machine_of self.old) vcpu.0 (λ c. with_link None (with_registers (with_register (advanced c.registers) target value) c)) }
    {
        mips_retire::put_unlinked(&mut self.vcpus[vcpu.0 as usize], target, value);
    }

    /// The instruction is passed.
    #[inline]
    pub fn pass(&mut self, vcpu: VcpuId)
        requires sound { IsSound self.old }
        requires there { vcpu.0 < length (machine_of self.old).vcpus }
        ensures sound { IsSound self.new }
        ensures ready { self.new.ready ≡ self.old.ready }
        ensures passed { machine_of self.new ≡ on_vcpu (machine_of self.old) vcpu.0 (λ c. with_registers (advanced c.registers) c) }
    {
        mips_retire::pass(&mut self.vcpus[vcpu.0 as usize]);
    }

    /// MFC0.
    pub fn read_cp0(&mut self, vcpu: VcpuId, number: Register, target: Register)
        requires sound { IsSound self.old }
        requires there { vcpu.0 < length (machine_of self.old).vcpus }
        ensures sound { IsSound self.new }
        ensures ready { self.new.ready ≡ self.old.ready }
        ensures read { machine_of self.new ≡ on_vcpu (machine_of self.old) vcpu.0 (λ c. with_registers (with_register (advanced c.registers) target (reads c.cp0 (register_at number))) c) }
    {
        mips_retire::read_cp0(&mut self.vcpus[vcpu.0 as usize], number, target);
    }

    /// MTC0.
    pub fn write_cp0(&mut self, vcpu: VcpuId, number: Register, value: u32)
        requires sound { IsSound self.old }
        requires there { vcpu.0 < length (machine_of self.old).vcpus }
        ensures sound { IsSound self.new }
        ensures ready { self.new.ready ≡ self.old.ready }
        ensures written { machine_of self.new ≡ on_vcpu (machine_of self.old) vcpu.0 (λ c. with_cp0 (writes c.cp0 (register_at number) value) (with_registers (advanced c.registers) c)) }
    {
        shown_stays();
        mips_retire::write_cp0(&mut self.vcpus[vcpu.0 as usize], number, value);
    }

    /// An instruction of the TLB, or the return from an exception.
    pub fn do_system(&mut self, vcpu: VcpuId, op: Cp0Op)
        requires sound { IsSound self.old }
        requires there { vcpu.0 < length (machine_of self.old).vcpus }
        ensures sound { IsSound self.new }
        ensures ready { self.new.ready ≡ self.old.ready }
        ensures done { machine_of self.new ≡ on_vcpu (machine_of self.old) vcpu.0 (λ c. system_done op (with_registers (passed_system op c.registers) c)) }
    {
        shown_stays();
        mips_retire::do_system(&mut self.vcpus[vcpu.0 as usize], op);
    }

    /// Takes an exception.
    pub fn raise(&mut self, vcpu: VcpuId, exception: Exception)
        requires sound { IsSound self.old }
        requires there { vcpu.0 < length (machine_of self.old).vcpus }
        ensures sound { IsSound self.new }
        ensures ready { self.new.ready ≡ self.old.ready }
        ensures raised { machine_of self.new ≡ on_vcpu (machine_of self.old) vcpu.0 (raising exception) }
    {
        shown_stays();
        self.vcpus[vcpu.0 as usize].raise(exception);
    }

    /// A step is over.
    #[inline]
    pub fn tick(&mut self, vcpu: VcpuId)
        requires sound { IsSound self.old }
        requires there { vcpu.0 < length (machine_of self.old).vcpus }
        ensures sound { IsSound self.new }
        ensures ready { self.new.ready ≡ self.old.ready }
        ensures ticked { machine_of self.new ≡ on_vcpu (machine_of self.old) vcpu.0 ticking }
    {
        shown_stays();
        self.vcpus[vcpu.0 as usize].tick();
    }

    /// The word of memory in which an offset lies.
    #[inline]
    pub fn word_around(&self, offset: u64) -> u32
        requires sound { IsSound self.now }
        requires within { offset < 4096 * self.now.pages }
        ensures { result ≡ word_around_of (machine_of self.now) offset }
    {
        word_around(&self.memory, self.pages, offset)
    }

    /// A word of memory becomes another by the hand of a virtual processor, and others no longer link its line.
    #[inline]
    pub fn write(&mut self, vcpu: VcpuId, offset: u64, line: u32, word: u32)
        requires sound { IsSound self.old }
        requires there { vcpu.0 < length (machine_of self.old).vcpus }
        requires within { offset < 4096 * self.old.pages }
        requires line { line ≡ line_of offset }
        ensures sound { IsSound self.new }
        ensures ready { self.new.ready ≡ self.old.ready }
        ensures written { machine_of self.new ≡ written (machine_of self.old) vcpu.0 offset word }
    {
        set_word_around(&mut self.memory, self.pages, offset, word);
        unlink_others(&mut self.vcpus, vcpu.0 as usize, line);
    }
}
