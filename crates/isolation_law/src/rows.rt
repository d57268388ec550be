//! What one entry keeps and does, and how a run grows by it: for the calls that make entries.
ghost use Rattle.std.specs.Prelude.{◌≡◌, ◌≢◌, ◌⊎◌, ℕ, suc, ◌+◌, ◌*◌, ◌/◌, ◌%◌, List, [], ◌∷◌, ◌++◌, ◌<◌, ◌≤◌, length, take, Bool, true, false, None, Some, Ok, Err};
ghost use Rattle.private_machine.specs.Links.{page_bytes};
ghost use Rattle.base_words.specs.Halves.{Half};
ghost use Rattle.base_words.specs.Membership.{Has};
ghost use Rattle.base_words.specs.declared.events.End.{End};
ghost use Rattle.base_words.specs.declared.events.Event.{Event};
ghost use Rattle.base_words.specs.declared.moves.By.{By};
ghost use Rattle.base_words.specs.declared.moves.MoveKind.{MoveKind};
ghost use Rattle.base_words.specs.declared.exception.Use.TheVariants.{Load};
ghost use Rattle.private_machine.specs.PrivateRun.{private_run};
ghost use Rattle.base_words.specs.declared.regs.Regs.{Regs};
ghost use Rattle.private_machine.specs.Backing.{Copy, Page};
ghost use Rattle.private_machine.specs.DeviceAct.{StoresTo};
ghost use Rattle.private_machine.specs.HardwareStep.{Trap, Done, ReadOnly, Dead, hardware_step, cause_of};
ghost use Rattle.private_machine.specs.DirectAccess.{data_told, data_reached};
ghost use Rattle.base_words.specs.declared.place.Place.TheVariants.{Memory};
ghost use Rattle.private_machine.specs.StepAct.{act_next};
ghost use Rattle.private_machine.specs.OwnStep.{attempted, joined, led, own_step};
ghost use Rattle.private_machine.specs.PrivateMachine.{PrivateMachine, vcpu};
ghost use Rattle.private_machine.specs.Devices.{device_done};
ghost use Rattle.private_machine.specs.RegisterPage.{has_page};
ghost use Rattle.base_words.specs.declared.device.DeviceRegister.{DeviceRegister};
ghost use Rattle.base_words.specs.Coprocessor.{interrupts};
ghost use Rattle.private_machine.specs.TrapAccess.{HoldsWord};
ghost use Rattle.private_machine.specs.Reaching.{Sight, Reached, Wanted};
ghost use Rattle.private_machine.specs.Serving.{AllServe};
ghost use Rattle.private_machine.specs.TrapAccess.{TellsAccess};
ghost use Rattle.isolation_law.specs.GuestState.{GuestState, page, processor, block_at};
ghost use Rattle.isolation_law.specs.StepAct.{at_hand};
ghost use Rattle.isolation_law.specs.Traps.{step_on};
ghost use Rattle.isolation_law.specs.DataWithin.{IsWithinPages};
ghost use Rattle.isolation_law.specs.DuesFit.{DuesFit};
ghost use Rattle.isolation_law.specs.PageRules.{needs_spare};
ghost use Rattle.isolation_law.specs.EndRows.{CellFailsIn, LetsGo, Ends};
ghost use Rattle.isolation_law.specs.LoadRows.{Loads, Unloads, Acks};
ghost use Rattle.isolation_law.specs.MoveCount.{moving_count};
ghost use Rattle.isolation_law.specs.MoveRows.{Begins, Finishes};
ghost use Rattle.isolation_law.specs.RefillRow.{Refills};
ghost use Rattle.isolation_law.specs.PageAlike.{without_page, paged, paged_to};
ghost use Rattle.isolation_law.specs.PageWords.{IsTaken};
ghost use Rattle.isolation_law.specs.StepRows.{Steps, IsEmulated, Emulates, EndsRead};
ghost use Rattle.isolation_law.specs.SkipRow.{Skips, is_skip};
ghost use Rattle.isolation_law.specs.Start.{Boot, IsBoot, start};
ghost use Rattle.isolation_law.specs.DirectStep.{held_of, with_inputs};
ghost use Rattle.isolation_law.specs.Content.{content};
ghost use Rattle.isolation_law.specs.Coherence.{Coherent};
ghost use Rattle.isolation_law.specs.LiveCells.{UsesLive};
ghost use Rattle.isolation_law.specs.OwnHistory.{own};
ghost use Rattle.isolation_law.specs.Phases.{GoesOn, Runs};
ghost use Rattle.isolation_law.specs.PacketRows.{ComesToHand, Receives, EndsDelivery, Discards};
ghost use Rattle.isolation_law.specs.MachineEvent.{Row};
ghost use Rattle.isolation_law.specs.Run.{Run};
ghost use Rattle.isolation_law.specs.SecondServes.{SecondServes};

/// Each entry by itself keeps coherence, and does to what the guest sees its own event, or nothing; and what stands around the
/// guest never changes.
pub fn row_keeps()
    ensures coherent { (s t : GuestState) (e : Event) → Coherent s → Row s e t → t.end ≡ None → Coherent t }
    ensures uses_live { (s t : GuestState) (e : Event) → UsesLive s → Row s e t → UsesLive t }
    ensures same { (s t : GuestState) (e : Event) → Coherent s → Row s e t → t.end ≡ None → content t ≡ private_run (content s) (own t.received (e ∷ [])) }
    ensures console { (s t : GuestState) (e : Event) → Coherent s → Row s e t → t.devices.console ≡ (private_run (content s) (own t.received (e ∷ []))).devices.console }
    ensures sent { (s t : GuestState) (e : Event) → Coherent s → Row s e t → t.devices.sent ≡ (private_run (content s) (own t.received (e ∷ []))).devices.sent }
    ensures around { (s t : GuestState) (e : Event) → Row s e t → t.around ≡ s.around }
{}

/// So does a packet that comes to hand, which is no entry.
pub fn hand_keeps()
    ensures coherent { (s t : GuestState) → Coherent s → ComesToHand s t → Coherent t }
    ensures uses_live { (s t : GuestState) → UsesLive s → ComesToHand s t → UsesLive t }
    ensures same { (s t : GuestState) → ComesToHand s t → content t ≡ content s }
    ensures around { (s t : GuestState) → ComesToHand s t → t.around ≡ s.around }
{}

/// The moves that weren't begun grow by a skip alone, by one.
pub fn skips_grow()
    ensures same { (s t : GuestState) (e : Event) → Row s e t → is_skip e ≡ false → t.skips ≡ s.skips }
    ensures one { (s t : GuestState) (k : ℕ) → (row : Skips s k t) → t.skips ≡ s.skips ++ row.entry ∷ [] }
{}

/// The policy's choices that are due fit the guest, from its start on: whatever entry comes, and where a packet comes to hand.
pub fn dues_fit()
    ensures starts { (b : Boot) → DuesFit (start b) }
    ensures row { (s t : GuestState) (e : Event) → (s.end ≡ None → Coherent s) → DuesFit s → Row s e t → DuesFit t }
    ensures hand { (s t : GuestState) → DuesFit s → ComesToHand s t → DuesFit t }
    ensures run { (b : Boot) (journal : List Event) (t : GuestState) → IsBoot b → Run (start b) journal t → DuesFit t }
{}

/// Until its end a guest has as many pages as it was booted with: no entry adds or takes away a page, nor does a packet that comes
/// to hand.
pub fn pages_stay()
    ensures row { (s t : GuestState) (e : Event) → Coherent s → Row s e t → t.end ≡ None → length t.pages ≡ length s.pages }
    ensures hand { (s t : GuestState) → ComesToHand s t → length t.pages ≡ length s.pages }
    ensures run { (b : Boot) (journal : List Event) (t : GuestState) → IsBoot b → Run (start b) journal t → t.end ≡ None → length t.pages ≡ b.image.pages }
{}

/// How many pages have an open move: one more once a move begins, one fewer once it is over, none once the guest has ended, and else as many
/// as before.
pub fn moves_counted()
    ensures loads { (s t : GuestState) (p v : ℕ) → Loads s p v t → moving_count t ≡ moving_count s }
    ensures unloads { (s t : GuestState) (p : ℕ) → Unloads s p t → moving_count t ≡ moving_count s }
    ensures steps { (s t : GuestState) (p v : ℕ) → Steps s p v t → moving_count t ≡ moving_count s }
    ensures refills { (s t : GuestState) (p : ℕ) → Refills s p t → moving_count t ≡ moving_count s }
    ensures emulates { (s t : GuestState) (p v : ℕ) → Emulates s p v t → moving_count t ≡ moving_count s }
    ensures ends_read { (s t : GuestState) (p v : ℕ) → EndsRead s p v t → suc (moving_count t) ≡ moving_count s }
    ensures begins { (s t : GuestState) (q : ℕ) (kind : MoveKind) (node : ℕ) (by : By) → Begins s q kind node by t → moving_count t ≡ suc (moving_count s) }
    ensures acks { (s t : GuestState) (p q : ℕ) → Acks s p q t → moving_count t ≡ moving_count s }
    ensures finishes { (s t : GuestState) (q : ℕ) → Finishes s q t → suc (moving_count t) ≡ moving_count s }
    ensures lets_go { (s t : GuestState) (q : ℕ) → LetsGo s q t → suc (moving_count t) ≡ moving_count s }
    ensures comes_to_hand { (s t : GuestState) → ComesToHand s t → moving_count t ≡ moving_count s }
    ensures receives { (s t : GuestState) (k : ℕ) → Receives s k t → moving_count t ≡ moving_count s }
    ensures ends_delivery { (s t : GuestState) (k : ℕ) → EndsDelivery s k t → suc (moving_count t) ≡ moving_count s }
    ensures discards { (s t : GuestState) (k : ℕ) → Discards s k t → moving_count t ≡ moving_count s }
    ensures skips { (s t : GuestState) (k : ℕ) → Skips s k t → moving_count t ≡ moving_count s }
    ensures fails { (s t : GuestState) (c : ℕ) → CellFailsIn s c t → moving_count t ≡ moving_count s }
    ensures ends { (s t : GuestState) (end : End) → Ends s end t → moving_count t ≡ 0 }
{}

/// Where a page needs a spare there is one.
pub fn spares_enough()
    ensures { (s : GuestState) (q : ℕ) → Coherent s → q < length s.pages → needs_spare (page s q) ≡ true → 0 < length s.spares }
{}

/// A run and an entry are a run; so are a run and a packet that comes to hand, and a run and a run.
pub fn run_grows()
    ensures none { (s : GuestState) → Run s [] s }
    ensures row { (s m t : GuestState) (journal : List Event) (e : Event) → Run s journal m → Row m e t → Run s (journal ++ e ∷ []) t }
    ensures hand { (s m t : GuestState) (journal : List Event) → Run s journal m → ComesToHand m t → Run s journal t }
    ensures run { (s m t : GuestState) (journal more : List Event) → Run s journal m → Run m more t → Run s (journal ++ more) t }
{}

/// Each valid half of a processor can be read, and where it is writable be written: what a step of a processor asks for.
pub fn halves_serve()
    ensures { (s : GuestState) (p : ℕ) → Coherent s → length s.pages ≤ 0xFFFF → AllServe (held_of s) (processor s p).tlb }
{}

/// What the monitor is told of a trap tells which access it was for.
pub fn traps_tell()
    ensures { (x : Sight) (pages : List Page) (regs : Regs) (trap : Trap) → hardware_step x pages regs ≡ Err trap → TellsAccess regs trap }
{}

/// What the monitor is told of a trap is so: the word that it names stands at the program counter.
pub fn traps_hold()
    ensures { (s : GuestState) (p v : ℕ) (trap : Trap) → Coherent s → (processor s p).loaded ≡ Some v → step_on s p v ≡ Err trap → HoldsWord (joined (content s) v) v (cause_of trap) }
{}

/// A store that traps at a half that isn't writable, and that the guest grants on memory, is into a page that is shared or has
/// replicas: it needs a move.
pub fn read_only_needs()
    ensures { (s : GuestState) (p v word : ℕ) (w : Wanted) (offset : ℕ) → Coherent s → (processor s p).loaded ≡ Some v → step_on s p v ≡ Err (ReadOnly word w) → led (content s) v w.unit w.purpose w.address ≡ Ok (Memory offset) → ((page s (offset / 4096)).shared ≡ true) ⊎ ((page s (offset / 4096)).replicas ≢ []) }
{}

/// Such a store is what the step at hand does with its page.
pub fn read_only_stores()
    ensures { (s : GuestState) (p v word : ℕ) (w : Wanted) (offset : ℕ) → Coherent s → Runs s p v → step_on s p v ≡ Err (ReadOnly word w) → led (content s) v w.unit w.purpose w.address ≡ Ok (Memory offset) → at_hand s v ≡ StoresTo (offset / 4096) }
{}

/// The frame of a failed cell for which the hardware traps is a replica of its page, which isn't shared: the page can be collapsed.
/// It was reached by a half of the processor's TLB, and it is the page to which the access leads, as a load.
pub fn lost_is_replica()
    ensures collapses { (s : GuestState) (p v : ℕ) (at : Reached) (w : Wanted) → Coherent s → UsesLive s → GoesOn s → (processor s p).loaded ≡ Some v → step_on s p v ≡ Err (Dead at w) → (at.page < length s.pages) × ((page s at.page).shared ≡ false) × ((page s at.page).replicas ≢ []) }
    ensures frame { (s : GuestState) (p v : ℕ) (at : Reached) (w : Wanted) → Coherent s → UsesLive s → GoesOn s → (processor s p).loaded ≡ Some v → step_on s p v ≡ Err (Dead at w) → (c : Copy) × Has (page s at.page).replicas c × (c.frame ≡ at.frame) }
    ensures half { (s : GuestState) (p v : ℕ) (at : Reached) (w : Wanted) → step_on s p v ≡ Err (Dead at w) → (h : Half) × Has (processor s p).tlb h × (h.page ≡ at.page) × (h.frame ≡ at.frame) }
    ensures leads { (s : GuestState) (p v : ℕ) (at : Reached) (w : Wanted) → Coherent s → (processor s p).loaded ≡ Some v → step_on s p v ≡ Err (Dead at w) → led (content s) v w.unit Load w.address ≡ Ok (Memory (at.page * 4096 + w.address % 4096)) }
{}

/// The data access that is told of a step is on a page of the guest.
pub fn steps_reach_pages()
    ensures { (s : GuestState) (p v : ℕ) (d : Done) → Coherent s → step_on s p v ≡ Ok d → IsWithinPages (length s.pages) (data_told v (data_reached d) d.does.request (held_of (with_inputs s v))) }
{}

/// What a second-level entry says of an address is what the guest's own TLB says.
pub fn second_level_serves()
    ensures { SecondServes }
{}

/// A page as the guest sees it is its master's bytes, of which there are 4096.
pub fn pages_seen()
    ensures whole { (s : GuestState) (q : ℕ) → Coherent s → q < length s.pages → length (page s q).master.bytes ≡ 4096 }
    ensures bytes { (s : GuestState) (q count : ℕ) → Coherent s → q < length s.pages → count ≤ 4096 → page_bytes (content s) q count ≡ take count (page s q).master.bytes }
{}

/// Where the hardware traps, the register page makes no difference: neither to the trap, nor to the step that the monitor then makes,
/// nor to what that does with a page, nor to where it leads before its tick.
pub fn traps_alike()
    ensures trap { (x : Sight) (pages : List Page) (regs : Regs) (trap : Trap) → hardware_step x pages regs ≡ Err trap → hardware_step (without_page x) pages regs ≡ Err trap }
    ensures step { (s : GuestState) (p v : ℕ) → Coherent s → IsEmulated s p v → own_step (paged false (content s)) v ≡ paged false (own_step (content s) v) }
    ensures hand { (s : GuestState) (p v : ℕ) → Coherent s → IsEmulated s p v → act_next (joined (paged false (content s)) v) v ≡ at_hand s v }
    ensures tried { (s : GuestState) (p v : ℕ) → Coherent s → IsEmulated s p v → interrupts (vcpu (joined (content s) v) v).cp0 ≡ false → attempted (joined (content s) v) v ≡ paged_to (has_page s.around.profile) (attempted (joined (paged false (content s)) v) v) }
    ensures stored { (has : Bool) (m : PrivateMachine) (v value : ℕ) (register : DeviceRegister) → device_done (paged has m) v value register ≡ paged has (device_done m v value register) }
{}

/// What a step by itself writes on a register page is one of the words that the page takes.
pub fn page_words_are_taken()
    ensures { (s t : GuestState) (p v : ℕ) → (row : Steps s p v t) → IsTaken (block_at s v) row.done.does.request }
{}
