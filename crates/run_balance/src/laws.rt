//! What owners' lists tell: functions without a body, whose contracts are the laws.
ghost use Rattle.std.specs.Prelude.{◌≡◌, ◌<◌, ℕ, List, length, sum_by};
ghost use Rattle.run_balance.specs.Gathering.{AreAllOf, AreThrough, IsSettled};
ghost use Rattle.run_balance.specs.Shares.{flat, share_at, whose_at, stretches_of, deque_no, joined, StandsThere};
ghost use Rattle.run_balance.specs.Sides.{Deque};
ghost use Rattle.run_balance.specs.Owners.{taken_from, taken_of, times, IsOf, IsPartOf};
ghost use Rattle.run_balance.specs.declared.owner.Owner.{Owner};

/// What an owner took of a deque stands in that deque's stretch, in its order.
pub fn what_is_taken_stands_in_order()
    ensures { (deques : List Deque) (shares : List (List (List ℕ))) (owner : Owner) (d : ℕ) → IsOf deques shares owner → d < length (flat shares) → IsPartOf (share_at (flat shares) d) (taken_from d owner) }
{}

/// What an owner took of a processor's stretches, of its own or another's, stands in that processor's whole share, in its order.
pub fn whole_shares_stand_in_order()
    ensures { (deques : List Deque) (shares : List (List (List ℕ))) (p : ℕ) (owner : Owner) → IsOf deques shares owner → p < length shares → IsPartOf (joined (stretches_of shares p)) (taken_of shares p owner) }
{}

/// Once a deque is settled and its owner has gone through all its stretches, each item of it stands in exactly one owner's list, as often as in
/// the stretch.
pub fn each_item_is_taken_once()
    ensures { (deques : List Deque) (shares : List (List (List ℕ))) (owners : List Owner) (d item : ℕ) → AreAllOf deques shares owners → AreThrough shares owners → d < length (flat shares) → IsSettled d (whose_at (flat shares) d) owners
        → sum_by (λ owner. times item (taken_from d owner)) owners ≡ times item (share_at (flat shares) d) }
{}

/// A processor's stretches have numbers one behind the other, and are found there.
pub fn stretches_stand_in_line()
    ensures there { (shares : List (List (List ℕ))) (p k : ℕ) → p < length shares → k < length (stretches_of shares p) → StandsThere shares p k }
    ensures within { (shares : List (List (List ℕ))) (d : ℕ) → d < length (flat shares) → (p : ℕ) × (k : ℕ) × (p < length shares) × (k < length (stretches_of shares p)) × (d ≡ deque_no shares p k) × (whose_at (flat shares) d ≡ p) }
{}
