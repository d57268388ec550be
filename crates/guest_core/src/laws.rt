//! Laws of a guest's entries and of its packets, gathered for the calls that make entries.
ghost use Rattle.guest_core.specs.Laws.{MoveLaws, RowLaws, RunLaws, SendLaws, TakeLaws};

use isolation_law::{
    entries_tell, failures_stay, goes_on_alive, halts_stay, isolation_from, journals_tell,
    moves_counted, row_keeps, run_grows, sends, start_holds, takes,
};

/// What an entry and a run keep and tell, how many pages have a move, and what becomes of packets that are sent and taken.
#[inline]
pub(crate) fn laws()
    ensures rows { RowLaws }
    ensures moves { MoveLaws }
    ensures runs { RunLaws }
    ensures sends { SendLaws }
    ensures takes { TakeLaws }
{
    entries_tell();
    failures_stay();
    goes_on_alive();
    halts_stay();
    isolation_from();
    journals_tell();
    moves_counted();
    row_keeps();
    run_grows();
    sends();
    start_holds();
    takes();
}
