//! Files by name.
ghost use Rattle.std.specs.Prelude.{◌≡◌};
ghost use Rattle.outside_io.specs.declared.shelf.ShelfFault.TheVariants.{Memory};

use base_words::Bytes;
use std::alloc::{AllocError, AllocFailed, Global};
use thiserror::Error;

/// Why a read gave no bytes.
#[derive(Clone, Copy, Debug, PartialEq, Eq, Error)]
pub enum ShelfFault {
    /// The shelf failed: its count of faults rose, and it names the file.
    #[error("the file can't be read")]
    Failed,
    /// The file has more bytes than were asked for.
    #[error("the file is too long")]
    Long,
    /// Memory was wanting.
    #[error("out of memory")]
    Memory,
}

impl From<AllocError> for ShelfFault {
    ghost from_gives = { λ _ e. e ≡ Memory };

    fn from(_error: AllocError) -> ShelfFault {
        ShelfFault::Memory
    }
}

impl<T: Drop> From<AllocFailed<T>> for ShelfFault {
    ghost from_gives = { λ _ e. e ≡ Memory };

    fn from(_error: AllocFailed<T>) -> ShelfFault {
        ShelfFault::Memory
    }
}

/// Files that are read by name.
pub trait Shelf {
    ghost use Rattle.std.specs.Prelude.{◌≡◌};
    ghost use Rattle.outside_io.specs.Reading.{ShelfView, Reads};

    /// What it tells of each name, its count of faults, and the name of the last read that failed.
    ghost view: { Self → ShelfView };

    /// How often a read has failed. The count never falls, and stands still at its type's end.
    fn faults(&self) -> u64
        ensures { result ≡ (view self.now).faults };

    /// The name of the last read that failed; empty where none did.
    fn failed(&self) -> &str
        ensures { result.now ≡ (view self.now).failed };

    /// The bytes of a file, at most `most` of them.
    fn read(&mut self, alloc: Global, name: &str, most: u64) -> Result<Bytes, ShelfFault>
        ensures reads { Reads (view self.old) (view self.new) name.now most result }
        ensures told { (view self.new).told ≡ (view self.old).told };
}
