//! Why a text is not assembled.
ghost use Rattle.std.specs.Prelude.{◌≡◌};
ghost use Rattle.guest_asm.specs.declared.fault.AsmFault.TheVariants.{Memory as NoMemory};
ghost use Rattle.guest_asm.specs.declared.fault.LineFault.TheVariants.{Memory as NoMemoryForLine};

use std::alloc::{AllocError, AllocFailed};
use thiserror::Error;

/// Why a line is refused. Where several hold, the first in this order is told.
#[derive(Clone, Copy, Debug, PartialEq, Eq, Error)]
pub enum AsmCause {
    /// The line has another form, or a byte other than tab and 32 to 126.
    #[error("syntax")]
    Syntax,
    /// There is no such mnemonic.
    #[error("mnemonic")]
    Mnemonic,
    /// The mnemonic takes another number of operands, or operands of another kind.
    #[error("operands")]
    Operands,
    /// The label stands on an earlier line.
    #[error("twice")]
    Twice,
    /// An operand names a label that no line has.
    #[error("label")]
    Label,
    /// A number or a target is out of its range.
    #[error("range")]
    Range,
    /// The statement, or the label `start`, has no place at this address, or `.org` no place to move to.
    #[error("place")]
    Place,
}

/// Why a text is not assembled: a line, counted from 1, that is refused, or want of memory.
#[derive(Clone, Copy, Debug, PartialEq, Eq, Error)]
pub enum AsmFault {
    #[error("asm {line} {cause}")]
    Line { line: u32, cause: AsmCause },
    #[error("out of memory")]
    Memory,
}

impl From<AllocError> for AsmFault {
    ghost from_gives = { λ _ e. e ≡ NoMemory };

    fn from(_e: AllocError) -> AsmFault {
        AsmFault::Memory
    }
}

impl<T: Drop> From<AllocFailed<T>> for AsmFault {
    ghost from_gives = { λ _ e. e ≡ NoMemory };

    fn from(_e: AllocFailed<T>) -> AsmFault {
        AsmFault::Memory
    }
}

/// Why one line is not read.
#[derive(Clone, Copy, Debug, PartialEq, Eq)]
pub enum LineFault {
    Cause(AsmCause),
    Memory,
}

impl From<AllocError> for LineFault {
    ghost from_gives = { λ _ e. e ≡ NoMemoryForLine };

    fn from(_e: AllocError) -> LineFault {
        LineFault::Memory
    }
}
