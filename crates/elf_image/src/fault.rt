//! Why an image is refused.
ghost use Rattle.std.specs.Prelude.{◌≡◌};
ghost use Rattle.elf_image.specs.declared.fault.ImageFault.TheVariants.{Memory};

use std::alloc::{AllocError, AllocFailed};
use thiserror::Error;

/// What is wrong with an image, in the order in which it is looked for. Program headers are numbered from 0.
#[derive(Clone, Copy, Debug, PartialEq, Eq, Error)]
pub enum ImageFault {
    #[error("the file ends within its header, or within a word")]
    Short,
    #[error("the file does not begin with ELF's magic number")]
    Magic,
    #[error("the file is not of 32-bit objects")]
    Class,
    #[error("the file does not store the most significant byte first")]
    Order,
    #[error("the file has another version of ELF")]
    Version,
    #[error("the file is not executable")]
    Kind,
    #[error("the file is for another processor")]
    Processor,
    #[error("the program headers have another size or pass the end of the file")]
    Headers,
    #[error("the file wants an interpreter")]
    Interp,
    #[error("segment {0} has more file than memory, or passes the end of the file")]
    Segment(u32),
    #[error("segment {0} lies outside the guest's memory")]
    Place(u32),
    #[error("segments {0} and {1} share a byte")]
    Overlap(u32, u32),
    #[error("the entry is no place of an instruction in the guest's memory")]
    Entry,
    #[error("memory is wanting")]
    Memory,
}

impl From<AllocError> for ImageFault {
    ghost from_gives = { λ _ e. e ≡ Memory };

    fn from(_e: AllocError) -> ImageFault {
        ImageFault::Memory
    }
}

impl<T: Drop> From<AllocFailed<T>> for ImageFault {
    ghost from_gives = { λ _ e. e ≡ Memory };

    fn from(_e: AllocFailed<T>) -> ImageFault {
        ImageFault::Memory
    }
}
