//! Comparisons that tell of which row they are, and calls that must not fail.
ghost use Rattle.std.specs.Prelude.{◌≡◌, Ok};

use std::fmt::Debug;
use std::process::Abort;

/// Both are the same, or the test ends with both and with the row.
pub(crate) fn same<T: PartialEq + Debug + Drop, A: Debug + Drop>(
    rt: &impl Abort,
    left: T,
    right: T,
    row: A,
) {
    assert_eq!(rt; left, right, "{row:?}");
}

/// It holds, or the test ends with the row.
pub(crate) fn holds<A: Debug + Drop>(rt: &impl Abort, what: bool, row: A) {
    assert!(rt; what, "{row:?}");
}

/// What a call gave, or the test ends with its fault.
pub(crate) fn gave<T, E: Debug + Drop>(rt: &impl Abort, answer: Result<T, E>) -> T
    ensures { answer ≡ Ok result }
{
    match answer {
        Ok(it) => it,
        Err(fault) => panic!(rt; "{fault:?}"),
    }
}
