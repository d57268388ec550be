//! Why cells and guests don't get their frames.
ghost use Rattle.std.specs.Prelude.{◌≡◌};
ghost use Rattle.boot_frames.specs.declared.answers.Shortage.TheVariants.{Memory};

use base_words::{CellId, GuestId};
use std::alloc::{AllocError, AllocFailed};
use thiserror::Error;

/// Why the cells and guests don't get their frames.
#[derive(Debug, Drop, Error)]
pub enum Shortage {
    /// There was no memory for a page or a list.
    #[error("out of memory")]
    Memory,
    /// A cell needs more frames for its cache than there are on its nodes.
    #[error("a cell needs more frames for its cache than there are on its nodes")]
    Cell {
        cell: CellId,
        needs: u32,
        has: u32,
    },
    /// A guest needs more frames than it has before it.
    #[error("a guest needs more frames than there are")]
    Guest {
        guest: GuestId,
        needs: u32,
        has: u32,
    },
}

impl From<AllocError> for Shortage {
    ghost from_gives = { λ _ e. e ≡ Memory };

    fn from(_e: AllocError) -> Shortage {
        Shortage::Memory
    }
}

impl<T: Drop> From<AllocFailed<T>> for Shortage {
    ghost from_gives = { λ _ e. e ≡ Memory };

    fn from(_e: AllocFailed<T>) -> Shortage {
        Shortage::Memory
    }
}
