//! Which frames a guest holds, how often, under which generation and on which nodes.
ghost use Rattle.std.specs.Prelude.{◌<◌, ℕ, List, [], ◌∷◌, length};
ghost use Rattle.base_words.specs.declared.events.End.{End};
ghost use Rattle.base_words.specs.declared.events.Event.{Event};
ghost use Rattle.base_words.specs.declared.moves.By.{By};
ghost use Rattle.base_words.specs.declared.moves.MoveKind.{MoveKind};
ghost use Rattle.isolation_law.specs.GuestState.{GuestState, page};
ghost use Rattle.isolation_law.specs.CellUse.{held, used_frames};
ghost use Rattle.isolation_law.specs.LoadRows.{Loads, Unloads, Acks};
ghost use Rattle.isolation_law.specs.RefillRow.{Refills};
ghost use Rattle.isolation_law.specs.StepRows.{Steps, Emulates, EndsRead};
ghost use Rattle.isolation_law.specs.MoveRows.{Begins, Finishes};
ghost use Rattle.isolation_law.specs.SkipRow.{Skips};
ghost use Rattle.isolation_law.specs.PacketRows.{ComesToHand, Receives, EndsDelivery, Discards};
ghost use Rattle.isolation_law.specs.EndRows.{CellFailsIn, LetsGo, Ends};
ghost use Rattle.isolation_law.specs.Run.{Run};
ghost use Rattle.isolation_law.specs.Holdings.{AllDifferent, nodes_of};
ghost use Rattle.private_machine.specs.PageMove.{gained, dropped, dropped_taken};
ghost use Rattle.isolation_law.specs.Exchange.{Exchanged};
ghost use Rattle.isolation_law.specs.UseChange.{UseChanged, joining, leaving, leaving_taken};
ghost use Rattle.isolation_law.specs.Start.{Boot, IsBoot, start};

/// Wherever a journal leads from a guest's start, a page's frames lie on different nodes.
pub fn frames_spread()
    ensures { (b : Boot) (journal : List Event) (t : GuestState) → IsBoot b → Run (start b) journal t → (q : ℕ) → q < length t.pages → AllDifferent (nodes_of t.around (page t q)) }
{}

/// Which frames a guest comes to hold and lets go of, by each kind of entry and where a packet comes to hand.
pub fn exchanges()
    ensures loads { (s t : GuestState) (p v : ℕ) → Loads s p v t → Exchanged s t [] [] }
    ensures unloads { (s t : GuestState) (p : ℕ) → Unloads s p t → Exchanged s t [] [] }
    ensures steps { (s t : GuestState) (p v : ℕ) → Steps s p v t → Exchanged s t [] [] }
    ensures refills { (s t : GuestState) (p : ℕ) → Refills s p t → Exchanged s t [] [] }
    ensures emulates { (s t : GuestState) (p v : ℕ) → Emulates s p v t → Exchanged s t [] [] }
    ensures ends_read { (s t : GuestState) (p v : ℕ) → (row : EndsRead s p v t) → Exchanged s t [] (dropped_taken (page s row.q)) }
    ensures begins { (s t : GuestState) (q : ℕ) (kind : MoveKind) (node : ℕ) (by : By) → (row : Begins s q kind node by t) → Exchanged s t (gained row.change) [] }
    ensures acks { (s t : GuestState) (p q : ℕ) → Acks s p q t → Exchanged s t [] [] }
    ensures finishes { (s t : GuestState) (q : ℕ) → (row : Finishes s q t) → Exchanged s t [] (dropped (page s q) row.move.change) }
    ensures lets_go { (s t : GuestState) (q : ℕ) → (row : LetsGo s q t) → Exchanged s t [] (row.target ∷ []) }
    ensures comes_to_hand { (s t : GuestState) → ComesToHand s t → Exchanged s t [] [] }
    ensures receives { (s t : GuestState) (k : ℕ) → Receives s k t → Exchanged s t [] [] }
    ensures ends_delivery { (s t : GuestState) (k : ℕ) → (row : EndsDelivery s k t) → Exchanged s t [] (dropped_taken (page s row.q)) }
    ensures discards { (s t : GuestState) (k : ℕ) → Discards s k t → Exchanged s t [] [] }
    ensures skips { (s t : GuestState) (k : ℕ) → Skips s k t → Exchanged s t [] [] }
    ensures fails { (s t : GuestState) (c : ℕ) → CellFailsIn s c t → Exchanged s t [] [] }
    ensures ends { (s t : GuestState) (end : End) → Ends s end t → Exchanged s t [] (held s) }
{}

/// Which frames a guest comes to use and which it uses no longer, by the same.
pub fn uses_change()
    ensures loads { (s t : GuestState) (p v : ℕ) → Loads s p v t → UseChanged s t [] [] }
    ensures unloads { (s t : GuestState) (p : ℕ) → Unloads s p t → UseChanged s t [] [] }
    ensures steps { (s t : GuestState) (p v : ℕ) → Steps s p v t → UseChanged s t [] [] }
    ensures refills { (s t : GuestState) (p : ℕ) → Refills s p t → UseChanged s t [] [] }
    ensures emulates { (s t : GuestState) (p v : ℕ) → Emulates s p v t → UseChanged s t [] [] }
    ensures ends_read { (s t : GuestState) (p v : ℕ) → (row : EndsRead s p v t) → UseChanged s t [] (leaving_taken (page s row.q)) }
    ensures begins { (s t : GuestState) (q : ℕ) (kind : MoveKind) (node : ℕ) (by : By) → (row : Begins s q kind node by t) → UseChanged s t (joining row.change) [] }
    ensures acks { (s t : GuestState) (p q : ℕ) → Acks s p q t → UseChanged s t [] [] }
    ensures finishes { (s t : GuestState) (q : ℕ) → (row : Finishes s q t) → UseChanged s t [] (leaving (page s q) row.move.change) }
    ensures lets_go { (s t : GuestState) (q : ℕ) → (row : LetsGo s q t) → UseChanged s t [] (row.target ∷ []) }
    ensures comes_to_hand { (s t : GuestState) → ComesToHand s t → UseChanged s t [] [] }
    ensures receives { (s t : GuestState) (k : ℕ) → Receives s k t → UseChanged s t [] [] }
    ensures ends_delivery { (s t : GuestState) (k : ℕ) → (row : EndsDelivery s k t) → UseChanged s t [] (leaving_taken (page s row.q)) }
    ensures discards { (s t : GuestState) (k : ℕ) → Discards s k t → UseChanged s t [] [] }
    ensures skips { (s t : GuestState) (k : ℕ) → Skips s k t → UseChanged s t [] [] }
    ensures fails { (s t : GuestState) (c : ℕ) → CellFailsIn s c t → UseChanged s t [] [] }
    ensures ends { (s t : GuestState) (end : End) → Ends s end t → UseChanged s t [] (used_frames s) }
{}
