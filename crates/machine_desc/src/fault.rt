//! Why a description is refused.
ghost use Rattle.std.specs.Prelude.{◌≡◌};
ghost use Rattle.machine_desc.specs.declared.fault.DescFault.TheVariants.{Memory};

use base_words::Name;
use std::alloc::{AllocError, AllocFailed};
use std::fmt;
use thiserror::Error;

/// What stands where another value is asked for: an integer, or the length of a text, a list or an array.
#[derive(Clone, Copy, Debug, PartialEq, Eq)]
pub enum Amount {
    Number(i64),
    Length(usize),
}

impl fmt::Display for Amount {
    fn fmt<W: fmt::Write>(&self, f: &mut fmt::Formatter<W>) -> fmt::Result {
        match self {
            Amount::Number(number) => write!(f, "{number}"),
            Amount::Length(length) => write!(f, "{length}"),
        }
    }
}

/// Why a description is refused. A key is told as its path, as `guest[1].pages`.
#[derive(Debug, Drop, Error)]
pub enum DescFault {
    #[error("toml")]
    Toml,
    #[error("missing {}", .0.as_str())]
    Missing(Name),
    #[error("unknown {}", .0.as_str())]
    Unknown(Name),
    #[error("kind {}", .0.as_str())]
    Kind(Name),
    #[error("range {} {}", .0.as_str(), .1)]
    Range(Name, Amount),
    #[error("names {} {}", .0.as_str(), .1)]
    Names(Name, u64),
    #[error("twice {} {}", .0.as_str(), .1)]
    Twice(Name, u64),
    #[error("steps {0}")]
    Steps(u64),
    #[error("out of memory")]
    Memory,
}

impl From<AllocError> for DescFault {
    ghost from_gives = { λ _ e. e ≡ Memory };

    fn from(_e: AllocError) -> DescFault {
        DescFault::Memory
    }
}

impl<T: Drop> From<AllocFailed<T>> for DescFault {
    ghost from_gives = { λ _ e. e ≡ Memory };

    fn from(_e: AllocFailed<T>) -> DescFault {
        DescFault::Memory
    }
}
