//! Laws of the passes' lists, for callers: functions without a body, whose contracts are the laws.
ghost use Rattle.std.specs.Prelude.{◌≡◌, ◌≢◌, ◌<◌, ℕ, IsSome, List, Some, get_or, length};
ghost use Rattle.wire_queue.specs.Between.{Made, guest_count};
ghost use Rattle.wire_queue.specs.Closing.{AreInOrder};
ghost use Rattle.wire_queue.specs.Ends.{Sending, Taking};
ghost use Rattle.wire_queue.specs.PassLists.{AreAllOf, IsListOf, JoinsAll, sending_to, taking_from};
ghost use Rattle.wire_queue.specs.Steps.{AreFirstOf};
ghost use Rattle.wire_queue.specs.declared.lists.PassList.{PassList};

/// The list at a guest's number is that guest's, and has an end of a wire to each other guest, and of one from each.
#[inline]
pub fn each_guest_has_its_list()
    ensures own { (wires : Made) (lists : List PassList) (guest : ℕ) (list : PassList) → AreAllOf wires lists → guest < guest_count wires
        → list ≡ get_or lists guest list → IsListOf wires list × (list.guest.0 ≡ guest) }
    ensures sends { (wires : Made) (list : PassList) (own other : ℕ) → JoinsAll wires → IsListOf wires list → list.guest.0 ≡ own
        → own < guest_count wires → other < guest_count wires → own ≢ other → IsSome (sending_to list other) }
    ensures takes { (wires : Made) (list : PassList) (own other : ℕ) → JoinsAll wires → IsListOf wires list → list.guest.0 ≡ own
        → own < guest_count wires → other < guest_count wires → own ≢ other → IsSome (taking_from list other) }
{}

/// What the end of all wires tells of the lists, it tells of the lists of two guests: what the one took is the first of what the
/// other sent.
#[inline]
pub fn the_end_tells_of_two_guests()
    ensures { (lists : List PassList) (from to : ℕ) (sender receiver : PassList) (p : Sending) (t : Taking) → AreInOrder lists
        → from < length lists → to < length lists → sender ≡ get_or lists from sender → receiver ≡ get_or lists to receiver
        → sending_to sender to ≡ Some p → taking_from receiver from ≡ Some t → AreFirstOf t.taken p.accepted }
{}
