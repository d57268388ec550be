//! The law over all journals.
ghost use Rattle.std.specs.Prelude.{◌≡◌, ℕ, true, false, List, None, length};
ghost use Rattle.base_words.specs.declared.events.Event.{Event};
ghost use Rattle.base_words.specs.declared.events.Event.TheVariants.{Direct, Emulate};
ghost use Rattle.base_words.specs.declared.ids.ProcId.{ProcId};
ghost use Rattle.base_words.specs.declared.ids.VcpuId.{VcpuId};
ghost use Rattle.private_machine.specs.PrivateRun.{private_run};
ghost use Rattle.isolation_law.specs.GuestState.{GuestState, processor, vcpu_of};
ghost use Rattle.isolation_law.specs.Content.{content};
ghost use Rattle.isolation_law.specs.Coherence.{Coherent};
ghost use Rattle.isolation_law.specs.LiveCells.{UsesLive};
ghost use Rattle.isolation_law.specs.OwnHistory.{own};
ghost use Rattle.isolation_law.specs.LoadsIn.{loaded_after};
ghost use Rattle.isolation_law.specs.MachineEvent.{Row};
ghost use Rattle.isolation_law.specs.Phases.{GoesOn};
ghost use Rattle.isolation_law.specs.Run.{Run};
ghost use Rattle.isolation_law.specs.Start.{Boot, IsBoot, private_start, start};
ghost use Rattle.isolation_law.specs.Isolation.{IsolationHolds};
ghost use Rattle.isolation_law.specs.Worlds.{TwoWorlds, OneVcpu};

/// Wherever a journal leads from a guest's start, the guest is coherent and what it sees is its private machine after its own
/// events, until it ends; it uses no failed cell but that of its end; what it printed and sent is the private machine's for good.
pub fn isolation()
    ensures { IsolationHolds }
{}

/// The same from any state in which it holds; and what stands around the guest never changes.
pub fn isolation_from()
    ensures coherent { (s t : GuestState) (journal : List Event) → Coherent s → Run s journal t → t.end ≡ None → Coherent t }
    ensures uses_live { (s t : GuestState) (journal : List Event) → UsesLive s → Run s journal t → UsesLive t }
    ensures same { (s t : GuestState) (journal : List Event) → Coherent s → Run s journal t → t.end ≡ None → content t ≡ private_run (content s) (own t.received journal) }
    ensures console { (s t : GuestState) (journal : List Event) → Coherent s → Run s journal t → t.devices.console ≡ (private_run (content s) (own t.received journal)).devices.console }
    ensures sent { (s t : GuestState) (journal : List Event) → Coherent s → Run s journal t → t.devices.sent ≡ (private_run (content s) (own t.received journal)).devices.sent }
    ensures around { (s t : GuestState) (journal : List Event) → Run s journal t → t.around ≡ s.around }
{}

/// A guest's start is coherent, uses no failed cell, goes on, and is its private machine's.
pub fn start_holds()
    ensures goes_on { (b : Boot) → IsBoot b → GoesOn (start b) }
    ensures coherent { (b : Boot) → IsBoot b → Coherent (start b) }
    ensures uses_live { (b : Boot) → UsesLive (start b) }
    ensures same { (b : Boot) → IsBoot b → content (start b) ≡ private_start b }
{}

/// Two runs of the same guest with equal own events print and send the same, whatever else the monitor, other guests and
/// failures do; for one virtual processor and no packet the number of its steps is enough.
pub fn worlds()
    ensures two { TwoWorlds }
    ensures one_vcpu { OneVcpu }
{}

/// A virtual processor that has halted stays so, whatever entry comes; and no entry is a step of it. No entry adds or takes away
/// a virtual processor or a processor, and only loads and unloads change what is loaded on one.
pub fn halts_stay()
    ensures row { (s t : GuestState) (e : Event) (v : ℕ) → Row s e t → (vcpu_of s v).halted ≡ true → (vcpu_of t v).halted ≡ true }
    ensures run { (s t : GuestState) (journal : List Event) (v : ℕ) → Run s journal t → (vcpu_of s v).halted ≡ true → (vcpu_of t v).halted ≡ true }
    ensures no_step { (s t : GuestState) (p : ProcId) (v : VcpuId) → Row s (Direct p v) t → (vcpu_of s v.0).halted ≡ false }
    ensures no_emulated_step { (s t : GuestState) (p : ProcId) (v : VcpuId) → Row s (Emulate p v) t → (vcpu_of s v.0).halted ≡ false }
    ensures count { (s t : GuestState) (e : Event) → Row s e t → length t.vcpus ≡ length s.vcpus }
    ensures processors { (s t : GuestState) (e : Event) → Row s e t → length t.processors ≡ length s.processors }
    ensures loaded { (s t : GuestState) (e : Event) (r : ℕ) → Row s e t → (processor t r).loaded ≡ loaded_after e r (processor s r).loaded }
{}
