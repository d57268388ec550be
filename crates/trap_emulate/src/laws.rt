//! What follows for callers from the definitions. Nothing runs here.
ghost use Rattle.std.specs.Prelude.{◌≡◌, ◌⊎◌, ℕ, List, Option, Ok, Err, true, false};
ghost use Rattle.base_words.specs.declared.exception.Exception.{Exception};
ghost use Rattle.base_words.specs.declared.exception.Exception.TheVariants.{Interrupt};
ghost use Rattle.base_words.specs.declared.moves.MoveKind.{MoveKind};
ghost use Rattle.base_words.specs.declared.trap.TrapCause.{TrapCause};
ghost use Rattle.base_words.specs.Coprocessor.{interrupts};
ghost use Rattle.private_machine.specs.declared.vcpu.Vcpu.{Vcpu};
ghost use Rattle.private_machine.specs.DevicePage.{DevicePage};
ghost use Rattle.private_machine.specs.OwnStep.{joined, attempted, own_step};
ghost use Rattle.private_machine.specs.PrivateMachine.{PrivateMachine, vcpu as vcpu_at, on_vcpu};
ghost use Rattle.private_machine.specs.TrapAccess.{HoldsWord};
ghost use Rattle.private_machine.specs.Vcpu.{held_entry, ticking};
ghost use Rattle.trap_emulate.specs.Emulation.{tried};
ghost use Rattle.trap_emulate.specs.GuestView.{machine_of};
ghost use Rattle.trap_emulate.specs.Trapped.{IsTrap, FetchesAlike};

/// Why the hardware trapped doesn't hang on what memory and disk hold; and where the memory holds what the hardware fetched, it
/// holds what the cause tells.
pub fn traps_hold()
    ensures anywhere { (pages : ℕ) (vcpus : List Vcpu) (page : DevicePage) (memory other : List ℕ) (disk blocks : List (List ℕ)) (v : ℕ) (needs : Option MoveKind) (cause : TrapCause) → IsTrap (joined (machine_of pages vcpus page memory disk) v) v needs cause → IsTrap (joined (machine_of pages vcpus page other blocks) v) v needs cause }
    ensures word { (m : PrivateMachine) (v : ℕ) (needs : Option MoveKind) (cause : TrapCause) → (trap : IsTrap m v needs cause) → FetchesAlike m v trap.sight trap.backing → HoldsWord m v cause }
{}

/// Where the step at hand raises an exception, that is an interrupt that is due, or the instruction raises it. Where no interrupt is
/// due and the instruction leads to a machine, the step is that and the tick.
pub fn step_leads()
    ensures raises { (m : PrivateMachine) (v : ℕ) (x : Exception) → tried m v ≡ Err x → ((interrupts (vcpu_at m v).cp0 ≡ true) × (x ≡ Interrupt)) ⊎ ((interrupts (vcpu_at m v).cp0 ≡ false) × (attempted m v ≡ Err x)) }
    ensures ticks { (m : PrivateMachine) (v : ℕ) (after : PrivateMachine) → (vcpu_at m v).halted ≡ false → interrupts (vcpu_at (joined m v) v).cp0 ≡ false → attempted (joined m v) v ≡ Ok after → own_step m v ≡ on_vcpu after v ticking }
{}

/// Input that joins leaves the guest's TLBs, and the entries that coprocessor 0 holds.
pub fn input_keeps()
    ensures tlb { (m : PrivateMachine) (v : ℕ) → (vcpu_at (joined m v) v).tlb ≡ (vcpu_at m v).tlb }
    ensures entry { (m : PrivateMachine) (v : ℕ) → held_entry (vcpu_at (joined m v) v).cp0 ≡ held_entry (vcpu_at m v).cp0 }
{}
