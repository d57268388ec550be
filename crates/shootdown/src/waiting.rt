//! Which processors a remapping still waits for.
ghost use Rattle.std.specs.Prelude.{◌≡◌, ◌<◌, false, slice_set};
ghost use Rattle.base_words.specs.Limits.{most_processors};

use crate::token::ProcToken;
use base_words::ProcSet;
use std::marker::Model;

/// The processors that were asked and haven't acknowledged yet.
#[derive(Clone, Copy, Debug, PartialEq, Eq)]
pub struct Waiting {
    left: ProcSet,
}

// Clauses see for each number whether that processor is waited for.
impl Model for Waiting {
    ghost use Rattle.std.specs.Prelude.{List, Bool};

    ghost Value = { List Bool };

    ghost view = { λ w. w.left };

    ghost inverse = { λ left. record { left = left } };
}

impl Waiting {
    /// Asks each processor of a set.
    #[inline]
    pub fn ask(set: ProcSet) -> Waiting
        ensures { result ≡ set }
    {
        Waiting { left: set }
    }

    /// The token's processor acknowledges, and is no longer waited for.
    #[inline]
    pub fn ack(&mut self, token: &mut ProcToken)
        requires { token.old.number < most_processors }
        ensures left { self.new ≡ slice_set self.old token.old.number false }
        ensures same { token.new ≡ token.old }
    {
        self.left = self.left.without(token.number);
    }

    /// The set that was asked, less the processors that acknowledged.
    #[inline]
    pub fn left(&self) -> ProcSet
        ensures { result ≡ self.now }
    {
        self.left
    }
}
