//! Sets of processors and of cells, small enough to be copied.
ghost use Rattle.std.specs.Prelude.{◌≡◌, ℕ, ◌<◌, ◌↔◌, List, Bool, true, false, IsTrue, replicate, slice_index_or, slice_set};
ghost use Rattle.base_words.specs.Membership.{IsMember, HasNone};

use crate::{CellId, Numbered, ProcId};
use std::marker::{Model, PhantomData};

/// A set of identifiers below `N`.
#[derive(Clone, Copy, Debug, PartialEq, Eq)]
pub struct IdSet<I, const N: usize> {
    members: [bool; N],
    of: PhantomData<I>,
}

// Clauses see for each number whether it is a member.
impl<I, const N: usize> Model for IdSet<I, N> {
    ghost Value = { List Bool };

    ghost view = { λ s. s.members };

    ghost inverse = { λ members. record { members = members; of = record {} } };
}

/// How many processors a machine has at most.
pub const MOST_PROCESSORS: usize = 32;

/// How many cells a machine has at most.
pub const MOST_CELLS: usize = 8;

/// A set of processors.
pub type ProcSet = IdSet<ProcId, MOST_PROCESSORS>;

/// A set of cells.
pub type CellSet = IdSet<CellId, MOST_CELLS>;

impl<I: Numbered, const N: usize> IdSet<I, N> {
    /// The set without a member.
    pub fn empty() -> Self
        ensures { result ≡ replicate N false }
    {
        IdSet {
            members: [false; N],
            of: PhantomData,
        }
    }

    /// This set and one more member.
    pub fn with(self, id: I) -> Self
        requires { I.number_of id < N }
        ensures { result ≡ slice_set self (I.number_of id) true }
    {
        let mut members = self.members;
        members[id.number()] = true;
        IdSet {
            members,
            of: PhantomData,
        }
    }

    /// This set less one member.
    pub fn without(self, id: I) -> Self
        requires { I.number_of id < N }
        ensures { result ≡ slice_set self (I.number_of id) false }
    {
        let mut members = self.members;
        members[id.number()] = false;
        IdSet {
            members,
            of: PhantomData,
        }
    }

    /// Whether this is a member.
    pub fn has(&self, id: I) -> bool
        requires { I.number_of id < N }
        ensures { IsTrue result ↔ IsMember self.now (I.number_of id) }
    {
        self.members[id.number()]
    }

    /// Whether the set has no member.
    pub fn is_empty(&self) -> bool
        ensures { IsTrue result ↔ HasNone self.now }
    {
        let members: &[bool] = &self.members;
        for member in members {
            if *member {
                return false;
            }
        }
        true
    }
}
