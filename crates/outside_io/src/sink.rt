//! An output to which texts are put.
ghost use Rattle.std.specs.Prelude.{◌≡◌};
ghost use Rattle.outside_io.specs.declared.sink.SinkFault.TheVariants.{Memory};

use std::alloc::{AllocError, AllocFailed};
use thiserror::Error;

/// Why an output didn't take a text.
#[derive(Clone, Copy, Debug, PartialEq, Eq, Error)]
pub enum SinkFault {
    /// The output failed: its count of faults rose.
    #[error("the output can't be written")]
    Failed,
    /// Memory was wanting.
    #[error("out of memory")]
    Memory,
}

impl From<AllocError> for SinkFault {
    ghost from_gives = { λ _ e. e ≡ Memory };

    fn from(_error: AllocError) -> SinkFault {
        SinkFault::Memory
    }
}

impl<T: Drop> From<AllocFailed<T>> for SinkFault {
    ghost from_gives = { λ _ e. e ≡ Memory };

    fn from(_error: AllocFailed<T>) -> SinkFault {
        SinkFault::Memory
    }
}

/// An output.
pub trait Sink {
    ghost use Rattle.std.specs.Prelude.{◌≡◌, false};
    ghost use Rattle.outside_io.specs.Writing.{SinkView, Puts, Finishes};

    /// The bytes that it holds, where it tells them, its count of faults, and whether all bytes are settled.
    ghost view: { Self → SinkView };

    /// How often a call has failed. The count never falls, and stands still at its type's end.
    fn faults(&self) -> u64
        ensures { result ≡ (view self.now).faults };

    /// Puts bytes behind those that it holds. After a fault it holds a part of them, from their start.
    fn put(&mut self, bytes: &[u8]) -> Result<(), SinkFault>
        ensures puts { Puts (view self.old) (view self.new) bytes.now result }
        ensures unsettled { (view self.new).settled ≡ false };

    /// Settles what was put.
    fn finish(&mut self) -> Result<(), SinkFault>
        ensures finishes { Finishes (view self.old) (view self.new) result }
        ensures holds { (view self.new).holds ≡ (view self.old).holds };
}
