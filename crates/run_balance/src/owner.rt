//! One owner: what it deals, and what it takes.
ghost use Rattle.std.specs.Prelude.{◌≡◌, ◌≢◌, ◌<◌, ◌+◌, ◌++◌, ◌∷◌, [], List, ℕ, false, length, IfNone, IfSome, Some, slice_get, vec_capacity};
ghost use Rattle.crossbeam_deque.specs.Handles.{view, IsPassOf, SamePass, stealer_deque};
ghost use Rattle.run_balance.specs.Logs.{marks_got};
ghost use Rattle.run_balance.specs.Rule.{Takes};
ghost use Rattle.run_balance.specs.Shares.{Share};
ghost use Rattle.run_balance.specs.Sides.{Deque};
ghost use Rattle.run_balance.specs.Owners.{IsOf, IsOwner, IsAtWork, items_now, GotNone, IsSameOwner, KnowsAsMuch, TookOwn, FoundNone, TookOther, taken_by, dealt_of, stretch_of, reached_of, number_of};
ghost use Rattle.run_balance.specs.Finds.{FoundAt};
ghost use Rattle.run_balance.specs.Deques.{deques_of};

use crate::deals::Deals;
use crate::deque::steal;
use crate::rule::{Seat, Way};
use crate::side::Side;
use crate::task::Task;
use base_words::{Numbered, ProcId};
use crossbeam_deque::Steal;

/// An owner of a processor's stretches, which it deals one after the other, bit by bit, and of what it took of its own and of others'.
#[derive(Drop)]
pub struct Owner {
    pub(crate) number: ProcId,
    /// For each processor its first stretch that the owner doesn't know to be over, by its number among all; of its own the one that it deals.
    pub(crate) reached: Vec<usize>,
    /// What it has of each deque.
    pub(crate) sides: Vec<Side>,
    /// What it took, and from which deques.
    pub(crate) taken: Vec<u32>,
    pub(crate) from: Vec<usize>,
}

/// What a look into another's deque gives.
#[derive(Drop)]
pub(crate) enum Found {
    Item(u32),
    Nothing,
    /// The stretch is over.
    Over,
}

/// Notes what was taken, and from which deque.
fn note(taken: &mut Vec<u32>, froms: &mut Vec<usize>, item: u32, from: usize)
    requires room { (length taken.old.items < vec_capacity taken.old) × (length froms.old.items < vec_capacity froms.old) }
    ensures taken { taken.new.items ≡ taken.old.items ++ item ∷ [] }
    ensures from { froms.new.items ≡ froms.old.items ++ from ∷ [] }
    ensures capacity { (vec_capacity taken.new ≡ vec_capacity taken.old) × (vec_capacity froms.new ≡ vec_capacity froms.old) }
{
    taken.push_reserved(item);
    froms.push_reserved(from);
}

/// Asks a deque as often as another thread took a task first, but no longer than that can be.
fn steal_task(way: &Way, seat: &mut Seat, most: usize) -> Option<Task>
    requires pass { IsPassOf (stealer_deque way.now) seat.old }
    requires takes { (view seat.old).deals ≡ false }
    requires no_mark { marks_got (view seat.old).got < (view seat.old).parts }
    ensures same { SamePass seat.old seat.new }
    ensures some { IfSome result (λ task. Takes (view seat.old) task (view seat.new)) }
    ensures none { IfNone result (view seat.new ≡ view seat.old) }
{
    for _try in 0..most {
        match steal(way, seat) {
            Steal::Success(task) => return Some(task),
            Steal::Empty => return None,
            Steal::Retry => {}
        }
    }
    None
}

impl Owner {
    /// Deals the next item of its current stretch.
    pub fn deal(&mut self, item: u32)
        requires kept { (deques : List Deque) × (shares : List (List (List ℕ))) × IsOf deques shares self.old × IsAtWork shares self.old × (slice_get (items_now shares self.old) (dealt_of self.old) ≡ Some item) }
        ensures kept { (deques : List Deque) (shares : List (List (List ℕ))) → IsOf deques shares self.old → IsOf deques shares self.new }
        ensures dealt { (dealt_of self.new ≡ dealt_of self.old + 1) × (stretch_of self.new ≡ stretch_of self.old) × (number_of self.new ≡ number_of self.old) }
        ensures knows { KnowsAsMuch self.old self.new }
        ensures got { GotNone self.old self.new }
    {
        let owners = self.reached.len();
        let at = self.reached[self.number.number()];
        let Side::Own(stretch) = &mut self.sides[at] else {
            unreachable!();
        };
        stretch.deal(item, owners);
    }

    /// The first item of its own current stretch's deque. None only where the deque was empty at a moment of this call; where all of the stretch
    /// was dealt it is over then, and the owner goes on to its next stretch. None at once where it has gone through all of them.
    pub fn next(&mut self) -> Option<u32>
        requires kept { (deques : List Deque) × (shares : List (List (List ℕ))) × IsOf deques shares self.old }
        ensures kept { (deques : List Deque) (shares : List (List (List ℕ))) → IsOf deques shares self.old → IsOf deques shares self.new }
        ensures some { IfSome result (λ item. TookOwn item self.old self.new) }
        ensures none { IfNone result ((deques : List Deque) (shares : List (List (List ℕ))) → IsOf deques shares self.old → FoundNone shares self.old self.new) }
    {
        let own = self.number.number();
        let at = self.reached[own];
        if at >= self.sides.len() {
            return None;
        }
        let Side::Own(stretch) = &mut self.sides[at] else {
            return None;
        };
        match stretch.take_first() {
            Some(Task::Item(item)) => {
                note(&mut self.taken, &mut self.from, item, at);
                Some(item)
            }
            Some(Task::End) => {
                self.reached[own] = at + 1;
                None
            }
            None => None,
        }
    }

    /// Looks into a deque of another.
    fn find(&mut self, way: &Way, at: usize, from: ProcId, most: usize) -> Found
        requires kept { (deques : List Deque) × (line : List Share) × (owners : ℕ) × (q : Deque) × IsOwner deques line owners self.old × (slice_get deques at ≡ Some q) × (q.id ≡ stealer_deque way.now) × (q.whose ≡ from.0) }
        requires other { from.0 ≢ number_of self.old }
        requires first { reached_of self.old from.0 ≡ at }
        ensures kept { (deques : List Deque) (line : List Share) (owners : ℕ) (q : Deque) → IsOwner deques line owners self.old → slice_get deques at ≡ Some q → q.whose ≡ from.0 → IsOwner deques line owners self.new }
        ensures same { IsSameOwner self.old self.new }
        ensures found { FoundAt at from.0 result self.old self.new }
    {
        let Side::Other(seat) = &mut self.sides[at] else {
            unreachable!();
        };
        match steal_task(way, seat, most) {
            Some(Task::Item(item)) => {
                note(&mut self.taken, &mut self.from, item, at);
                Found::Item(item)
            }
            Some(Task::End) => {
                self.reached[from.number()] = at + 1;
                Found::Over
            }
            None => Found::Nothing,
        }
    }

    /// The first item of another's first stretch that the owner doesn't know to be over. A stretch that turns out to be over is passed.
    fn steal_other(&mut self, deals: &Deals, from: ProcId) -> Option<u32>
        requires kept { (shares : List (List (List ℕ))) × IsOf (deques_of deals.now) shares self.old × (from.0 < length shares) }
        requires other { from.0 ≢ number_of self.old }
        ensures kept { (shares : List (List (List ℕ))) → IsOf (deques_of deals.now) shares self.old → IsOf (deques_of deals.now) shares self.new }
        ensures same { IsSameOwner self.old self.new }
        ensures some { IfSome result (λ item. (shares : List (List (List ℕ))) → IsOf (deques_of deals.now) shares self.old → TookOther shares from.0 item self.old self.new) }
        ensures none { IfNone result (GotNone self.old self.new) }
    {
        for at in self.reached[from.number()]..deals.gates.len() {
            let gate = &deals.gates[at];
            if gate.whose != from {
                return None;
            }
            match self.find(&gate.way, at, from, deals.most) {
                Found::Item(item) => return Some(item),
                Found::Nothing => return None,
                Found::Over => {}
            }
        }
        None
    }

    /// The first item of a processor's first stretch that the owner doesn't know to be over; a mark makes it know, and it goes on with the next
    /// one. None where such a deque was empty, or all of them are known to be over. Of its own this is `next`.
    pub fn steal(&mut self, deals: &Deals, from: ProcId) -> Option<u32>
        requires kept { (shares : List (List (List ℕ))) × IsOf (deques_of deals.now) shares self.old × (from.0 < length shares) }
        ensures kept { (shares : List (List (List ℕ))) → IsOf (deques_of deals.now) shares self.old → IsOf (deques_of deals.now) shares self.new }
        ensures other { from.0 ≢ number_of self.old → IsSameOwner self.old self.new }
        ensures some { IfSome result (λ item. (shares : List (List (List ℕ))) → IsOf (deques_of deals.now) shares self.old → from.0 ≢ number_of self.old → TookOther shares from.0 item self.old self.new) }
        ensures none { IfNone result (GotNone self.old self.new) }
        ensures own_some { IfSome result (λ item. from.0 ≡ number_of self.old → TookOwn item self.old self.new) }
        ensures own_none { IfNone result (from.0 ≡ number_of self.old → (shares : List (List (List ℕ))) → IsOf (deques_of deals.now) shares self.old → FoundNone shares self.old self.new) }
    {
        if from == self.number {
            self.next()
        } else {
            self.steal_other(deals, from)
        }
    }

    /// What it got, in order.
    pub fn taken(&self) -> &[u32]
        ensures { result.now ≡ taken_by self.now }
    {
        self.taken.as_slice()
    }
}
