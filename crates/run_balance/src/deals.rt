//! The deques of all owners: how they are made, and how they end.
ghost use Rattle.std.specs.Prelude.{◌≡◌, ◌<◌, ◌≤◌, ℕ, IfOk, List, [], length, map, slice_index_or};
ghost use Rattle.run_balance.specs.Making.{AreNewOwners};
ghost use Rattle.run_balance.specs.Owners.{AreDealt, taken_by};
ghost use Rattle.run_balance.specs.Gathering.{AreAllOf, AreThrough};
ghost use Rattle.run_balance.specs.Deques.{deques_of, lists_of};

use crate::gathering::settle_all;
use crate::making::{gates_of, owners_of, place_all, room_for, rows_for, stretches_for};
use crate::owner::Owner;
use crate::rule::Way;
use base_words::{Numbered, ProcId, Sequence};
use std::alloc::{AllocError, Global};

/// The work of each processor, by their numbers: its stretches in order, each the items of that stretch in order.
pub type ShareList = Sequence<Sequence<Sequence<u32>>>;

/// Owners, in the order of their numbers.
pub type OwnerList = Sequence<Owner>;

/// A way to the first task of a deque, and whose stretch that is.
#[derive(Drop)]
pub struct Gate {
    pub(crate) way: Way,
    pub(crate) whose: ProcId,
}

/// The deques of all owners, one for each stretch, from which each may take. Threads share them by `&`.
#[derive(Drop)]
pub struct Deals {
    pub(crate) gates: Vec<Gate>,
    /// How many tasks the deques hold at most.
    pub(crate) most: usize,
}

/// What each owner took.
#[derive(Drop)]
pub struct Taken {
    pub(crate) owners: OwnerList,
}

impl Taken {
    /// What an owner took, in order; nothing where there is no such owner.
    pub fn of(&self, owner: ProcId) -> &[u32]
        ensures { result.now ≡ slice_index_or (lists_of self.now) owner.0 [] }
    {
        match self.owners.as_slice().get(owner.number()) {
            Some(owner) => owner.taken(),
            None => &[],
        }
    }
}

impl Deals {
    /// A deque for each stretch, and the owner of each processor's, who has a pass of all others' deques.
    pub fn new(alloc: Global, shares: &ShareList) -> Result<(Deals, OwnerList), AllocError>
        requires few { length shares.now ≤ 256 }
        ensures made { IfOk result (λ made. AreAllOf (deques_of made.0) shares.now made.1) }
        ensures fresh { IfOk result (λ made. AreNewOwners (deques_of made.0) shares.now made.1) }
    {
        let count = shares.len();
        let mut made = stretches_for(alloc, shares)?;
        let room = room_for(made.as_slice())?;
        let rows = rows_for(alloc, made.as_mut_slice(), count)?;
        let gates = gates_of(alloc, made.as_slice())?;
        let mut owners = owners_of(alloc, rows, shares, room)?;
        let most = room
            .saturating_add(made.len().saturating_mul(count))
            .saturating_add(1);
        place_all(made, owners.as_mut_slice());
        Ok((Deals { gates, most }, OwnerList::from_vec(owners)))
    }
}

/// Ends all deques. Each item that was dealt stands in exactly one owner's list.
pub fn close(deals: Deals, owners: OwnerList) -> Taken
    requires all { (shares : List (List (List ℕ))) × AreAllOf (deques_of deals) shares owners × AreThrough shares owners }
    ensures taken { lists_of result ≡ map taken_by owners }
    ensures dealt { (shares : List (List (List ℕ))) → AreAllOf (deques_of deals) shares owners → AreThrough shares owners → AreDealt shares owners }
{
    let mut owners = owners.into_vec();
    settle_all(deals.gates.as_slice(), owners.as_mut_slice());
    Taken {
        owners: OwnerList::from_vec(owners),
    }
}
