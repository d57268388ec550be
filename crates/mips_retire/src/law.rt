//! What a virtual processor shows stays over all that it does by itself. This call does nothing: a caller learns what it ensures.
ghost use Rattle.std.specs.Prelude.{◌≡◌, ℕ};
ghost use Rattle.base_words.specs.declared.coprocessor.Cp0Register.{Cp0Register};
ghost use Rattle.base_words.specs.declared.exception.Exception.{Exception};
ghost use Rattle.base_words.specs.declared.instr.Cp0Op.{Cp0Op};
ghost use Rattle.base_words.specs.declared.regs.Regs.{Regs};
ghost use Rattle.base_words.specs.Coprocessor.{writes};
ghost use Rattle.private_machine.specs.declared.vcpu.Vcpu.{Vcpu};
ghost use Rattle.private_machine.specs.Showing.{shown_by};
ghost use Rattle.private_machine.specs.Vcpu.{with_registers, with_cp0, raising, ticking, system_done};

/// A write of coprocessor 0, an exception, a tick, and an instruction of the TLB or ERET each leave what the virtual processor
/// shows: whether it has halted, and the interrupt lines IP3 and IP4.
pub fn shown_stays()
    ensures written { (c : Vcpu) (r : Cp0Register) (word : ℕ) → shown_by (with_cp0 (writes c.cp0 r word) c) ≡ shown_by c }
    ensures raised { (c : Vcpu) (x : Exception) → shown_by (raising x c) ≡ shown_by c }
    ensures ticked { (c : Vcpu) → shown_by (ticking c) ≡ shown_by c }
    ensures system { (c : Vcpu) (op : Cp0Op) (regs : Regs) → shown_by (system_done op (with_registers regs c)) ≡ shown_by c }
{}
