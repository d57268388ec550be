//! The tokens of processors.
ghost use Rattle.std.specs.Prelude.{◌≡◌};

use crate::board::{Board, Place};
use base_words::{ProcId, Sequence};
use std::marker::Model;
use std::sync::Arc;

/// A processor's token. Contracts see the board that it is of, its processor's number and its notes.
#[derive(Drop)]
pub struct ProcToken {
    pub(crate) board: Arc<Board>,
    pub(crate) number: ProcId,
    pub(crate) place: Place,
}

impl Model for ProcToken {
    ghost use Rattle.shootdown.specs.Notes.{Token};

    ghost Value = { Token };

    ghost use Rattle.shootdown.specs.TokenPlace.{token_of, IsTokenPlace};

    ghost view = { token_of };

    ghost invariant = { IsTokenPlace };
}

/// Tokens, in the order of their processors.
pub type TokenList = Sequence<ProcToken>;

impl ProcToken {
    /// The token's processor.
    #[inline]
    pub fn number(&self) -> ProcId
        ensures { result.0 ≡ self.now.number }
    {
        self.number
    }
}
