//! What a search answers that finds no frame.
ghost use Rattle.std.specs.Prelude.{◌≡◌};
ghost use Rattle.node_frames.specs.declared.answers.FindFault.TheVariants.{Memory};

use base_words::Sequence;
use std::alloc::AllocError;
use thiserror::Error;

/// What one node showed.
#[derive(Clone, Copy, Debug, PartialEq, Eq)]
pub enum Shown {
    /// Each frame of the node was held or spent.
    AllHeld,
    /// The node's cell has lent all that it lends.
    AtLimit(u64),
    /// The loan went to another holder.
    Lost(u64),
}

/// What each node of an order showed, in that order.
pub type ShownList = Sequence<Shown>;

/// Why there is no frame.
#[derive(Debug, Drop, Error)]
pub enum FindFault {
    /// There was no memory, and no step was made.
    #[error("out of memory")]
    Memory,
    /// No node of the order gave one.
    #[error("no node has a frame")]
    NoFrame(ShownList),
}

impl From<AllocError> for FindFault {
    ghost from_gives = { λ _ e. e ≡ Memory };

    fn from(_e: AllocError) -> FindFault {
        FindFault::Memory
    }
}
