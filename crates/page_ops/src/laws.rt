//! What holds of instructions, for callers.
ghost use Rattle.std.specs.Prelude.{◌≡◌, ◌==◌, ℕ, true, false, Ok};
ghost use Rattle.base_words.specs.declared.regs.Regs.{Regs};
ghost use Rattle.base_words.specs.Fields.{opcode};
ghost use Rattle.base_words.specs.Instruction.{Effect, effect};
ghost use Rattle.base_words.specs.OpcodeMap.{decoded};
ghost use Rattle.page_ops.specs.Pages.{leaves_cp0};

/// A word whose instruction asks nothing of coprocessor 0 hasn't the opcode of coprocessor 0.
pub fn memory_words_are_unprivileged()
    ensures { (word : ℕ) (regs : Regs) (does : Effect) → effect (decoded word) regs ≡ Ok does → leaves_cp0 does.request ≡ true → (opcode word == 16) ≡ false }
{}
