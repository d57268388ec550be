//! Calls that must not fail.
ghost use Rattle.std.specs.Prelude.{◌≡◌, Ok};

use std::fmt::Debug;
use std::process::Abort;

/// What a call gave, or the test ends with its fault.
pub(crate) fn gave<T, E: Debug + Drop>(rt: &impl Abort, answer: Result<T, E>) -> T
    ensures { answer ≡ Ok result }
{
    match answer {
        Ok(it) => it,
        Err(fault) => panic!(rt; "{fault:?}"),
    }
}
