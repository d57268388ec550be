//! Why nothing is run.
ghost use Rattle.std.specs.Prelude.{◌≡◌};
ghost use Rattle.admission.specs.declared.faults.Refusal.TheVariants.{Memory};

use base_words::{CellId, GuestId, Name};
use elf_image::ImageFault;
use guest_asm::AsmCause;
use machine_desc::DescFault;
use std::alloc::{AllocError, AllocFailed};
use thiserror::Error;

/// Why a job is refused.
#[derive(Debug, Drop, Error)]
pub enum Fault {
    /// The words are none of the forms.
    #[error("the words are none of the forms")]
    Words,
    /// A file can't be read.
    #[error("a file can't be read")]
    Read(Name),
    /// A file is longer than its limit.
    #[error("a file is too long")]
    Long(Name),
    /// A line of a text is refused.
    #[error("a line of the text is refused")]
    Asm {
        line: u32,
        cause: AsmCause,
    },
    /// The description is refused.
    #[error("the description is refused")]
    Description(DescFault),
    /// A guest's image is refused.
    #[error("an image is refused")]
    BadImage(GuestId, ImageFault),
    /// A cell's cache has more frames than there are free on the cell's nodes.
    #[error("a cache has more frames than there are on the cell's nodes")]
    CacheAdmission {
        cell: CellId,
        needs: u32,
        has: u32,
    },
    /// A guest has more pages than there are frames left.
    #[error("a guest has more pages than there are frames left")]
    Admission {
        guest: GuestId,
        needs: u32,
        has: u32,
    },
}

/// Why nothing is run: a fault, or memory was wanting.
#[derive(Debug, Drop, Error)]
pub enum Refusal {
    /// The job is refused.
    #[error("the job is refused")]
    Fault(Fault),
    /// Memory was wanting.
    #[error("out of memory")]
    Memory,
}

impl From<AllocError> for Refusal {
    ghost from_gives = { λ _ e. e ≡ Memory };

    fn from(_error: AllocError) -> Refusal {
        Refusal::Memory
    }
}

impl<T: Drop> From<AllocFailed<T>> for Refusal {
    ghost from_gives = { λ _ e. e ≡ Memory };

    fn from(_error: AllocFailed<T>) -> Refusal {
        Refusal::Memory
    }
}
