//! The passes of a deque come back to its dealer.
ghost use Rattle.std.specs.Prelude.{◌≡◌, ◌<◌, ℕ, List, true, length, map, Some, slice_get};
ghost use Rattle.crossbeam_deque.specs.Handles.{worker_deque, worker_view, SameWorker};
ghost use Rattle.run_balance.specs.Sides.{Deque, side_at};
ghost use Rattle.run_balance.specs.Owners.{taken_by, AreDealt};
ghost use Rattle.run_balance.specs.Gathering.{HasPass, AreSameElse, Gathers, HasDeque, IsSettled, AreAllOf, AreThrough};
ghost use Rattle.run_balance.specs.Deques.{deque_of};
ghost use Rattle.run_balance.specs.declared.owner.Owner.{Owner};
ghost use Rattle.run_balance.specs.declared.side.Side.TheVariants.{Spent};

use crate::deals::Gate;
use crate::deque::{settle, take_in};
use crate::owner::Owner;
use crate::rule::Dealer;
use crate::side::Side;
use base_words::Numbered;
use std::mem;

/// Takes a side out of its place.
fn take_out(sides: &mut Vec<Side>, place: usize) -> Side
    requires { place < length sides.old.items }
    ensures out { result ≡ side_at sides.old.items place }
    ensures rest { sides.new.items ≡ Rattle.std.specs.Prelude.slice_set sides.old.items place Spent }
{
    mem::replace(&mut sides[place], Side::Spent)
}

/// Takes the owners' passes of a deque in.
pub(crate) fn collect(dealer: &mut Dealer, owners: &mut [Owner], place: usize)
    requires passes { (q : Deque) × (q.id ≡ worker_deque dealer.old) × ((i : ℕ) (o : Owner) → slice_get owners.old i ≡ Some o → HasPass q place o) }
    requires deals { ((worker_view dealer.old).deals ≡ true) × (0 < (worker_view dealer.old).parts) }
    ensures same { SameWorker dealer.old dealer.new }
    ensures gathers { Gathers place (worker_view dealer.old) owners.old (worker_view dealer.new) }
    ensures owners { AreSameElse place owners.old owners.new }
{
    for other in 0..owners.len() {
        if let Side::Other(seat) = take_out(&mut owners[other].sides, place) {
            take_in(dealer, seat);
        }
    }
}

/// Takes all passes of a deque in, and compares what was put and taken.
pub(crate) fn gather(owners: &mut [Owner], place: usize, own: usize)
    requires { HasDeque place own owners.old }
    ensures settled { IsSettled place own owners.old }
    ensures others { AreSameElse place owners.old owners.new }
{
    let Side::Own(stretch) = take_out(&mut owners[own].sides, place) else {
        unreachable!();
    };
    let mut dealer = stretch.dealer;
    collect(&mut dealer, owners, place);
    settle(&mut dealer);
}

/// Settles all deques.
pub(crate) fn settle_all(gates: &[Gate], owners: &mut [Owner])
    requires all { (shares : List (List (List ℕ))) × AreAllOf (map deque_of gates.now) shares owners.old × AreThrough shares owners.old }
    ensures taken { map taken_by owners.new ≡ map taken_by owners.old }
    ensures dealt { (shares : List (List (List ℕ))) → AreAllOf (map deque_of gates.now) shares owners.old → AreThrough shares owners.old → AreDealt shares owners.old }
    ensures long { length owners.new ≡ length owners.old }
{
    for place in 0..gates.len() {
        gather(owners, place, gates[place].whose.number());
    }
}
