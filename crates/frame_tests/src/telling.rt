//! Calls that must not fail.
ghost use Rattle.std.specs.Prelude.{◌≡◌, Ok};

use std::fmt::Debug;
use std::process::Abort;

/// What a call gave, or the test ends with its fault.
pub(crate) fn gave<T, E: Debug + Drop>(rt: &impl Abort, answer: Result<T, E>) -> T
    ensures { answer ≡ Ok result }
{
    match answer {
        Ok(it) => it,
        Err(fault) => panic!(rt; "{fault:?}"),
    }
}

/// The same, where nothing needs to be known of what the call gave: that keeps what follows cheap to prove.
pub(crate) fn must<T, E: Debug + Drop>(rt: &impl Abort, answer: Result<T, E>) -> T {
    gave(rt, answer)
}
