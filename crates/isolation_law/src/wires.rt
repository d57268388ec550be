//! What calls that send and take packets do to a guest's part in its wires.
ghost use Rattle.std.specs.Prelude.{◌≡◌, ◌≤◌, ◌+◌, ℕ, List, [], ◌∷◌, ◌++◌, All, flat_map, length, Some};
ghost use Rattle.base_words.specs.declared.events.Event.{Event};
ghost use Rattle.base_words.specs.declared.events.Event.TheVariants.{PacketIn, Discard};
ghost use Rattle.base_words.specs.declared.input.SentPacket.{SentPacket};
ghost use Rattle.private_machine.specs.Operation.{Packet};
ghost use Rattle.isolation_law.specs.GuestState.{GuestState};
ghost use Rattle.isolation_law.specs.PacketRows.{ComesToHand, Receives, EndsDelivery, Discards};
ghost use Rattle.isolation_law.specs.WireHistory.{packet_to, packets_to, AreAccepted, taken_by, taken, Tells, TakesNothing};

/// One packet more is sent to the guest to which it goes. A wire that accepts it accepted one more, and one that accepted 64 may
/// refuse it.
pub fn sends()
    ensures more { (from to : ℕ) (sent : List SentPacket) (cells : List ℕ) (p : SentPacket) (cell : ℕ) → length cells ≡ length sent
        → packets_to from to (sent ++ p ∷ []) (cells ++ cell ∷ []) ≡ packets_to from to sent cells ++ packet_to from to p cell }
    ensures accepted { (sent accepted : List Packet) (p : Packet) → AreAccepted 0 sent accepted → AreAccepted 0 (sent ++ p ∷ []) (accepted ++ p ∷ []) }
    ensures full { (sent accepted : List Packet) (p : Packet) → 64 ≤ length accepted → AreAccepted 0 sent accepted → AreAccepted 0 (sent ++ p ∷ []) accepted }
{}

/// What was taken stays as it was, with entries that tell of no packet and where the packet in hand is received or thrown away, of
/// which its entry tells; and a packet that comes to hand is the last one taken.
pub fn takes()
    ensures same { (s t : GuestState) (journal more : List Event) → TakesNothing s t → flat_map (taken_by s.received s.discarded) more ≡ [] → taken (journal ++ more) t ≡ taken journal s }
    ensures comes { (s t : GuestState) (journal : List Event) (packet : Packet) → ComesToHand s t → t.hand ≡ Some packet → taken journal t ≡ taken journal s ++ packet ∷ [] }
    ensures received { (s t : GuestState) (journal : List Event) (k : ℕ) → All (Tells s) journal → Receives s k t → taken (journal ++ PacketIn k ∷ []) t ≡ taken journal s }
    ensures tells { (s t : GuestState) (journal : List Event) (k : ℕ) → All (Tells s) journal → Receives s k t → All (Tells t) (journal ++ PacketIn k ∷ []) }
    ensures ended { (s t : GuestState) (journal : List Event) (k : ℕ) → All (Tells s) journal → EndsDelivery s k t → taken (journal ++ PacketIn k ∷ []) t ≡ taken journal s }
    ensures tells_ended { (s t : GuestState) (journal : List Event) (k : ℕ) → All (Tells s) journal → EndsDelivery s k t → All (Tells t) (journal ++ PacketIn k ∷ []) }
    ensures discarded { (s t : GuestState) (journal : List Event) (k : ℕ) → All (Tells s) journal → Discards s k t → taken (journal ++ Discard k ∷ []) t ≡ taken journal s }
    ensures tells_discarded { (s t : GuestState) (journal : List Event) (k : ℕ) → All (Tells s) journal → Discards s k t → All (Tells t) (journal ++ Discard k ∷ []) }
    ensures tells_same { (s t : GuestState) (journal : List Event) → TakesNothing s t → All (Tells s) journal → All (Tells t) journal }
{}
