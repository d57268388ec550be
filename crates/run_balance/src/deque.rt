//! One deque: the steps at its two ends.
ghost use Rattle.std.specs.Prelude.{◌≡◌, ◌≤◌, ◌<◌, ◌+◌, ◌++◌, ◌∷◌, [], true, false, length, IfOk, IfNone, IfSome};
ghost use Rattle.crossbeam_deque.specs.Handles.{view, IsPassOf, SamePass, worker_deque, stealer_deque, worker_view, worker_flavor, worker_index, worker_capacity, SameWorker};
ghost use Rattle.crossbeam_deque.specs.Steals.{MatchSteal};
ghost use Rattle.run_balance.specs.Logs.{first_log, thief_log, joined_log, marks, marks_got};
ghost use Rattle.run_balance.specs.Rule.{FitsAt, Takes, Settled};

use crate::log::Log;
use crate::rule::{Admits, Dealer, Gets, InTurn, Named, Names, Puts, Seat, Settles, TakesIn, Way};
use crate::task::Task;
use crossbeam_deque::Steal;
use std::alloc::{AllocError, Global};
use std::marker::Brand;

/// Names the share of a new deque.
fn name_as<W: Named>(dealer: &mut Dealer, share: &[u32])
    requires new { worker_view dealer.old ≡ first_log }
    requires named { W.share ≡ share.now }
    ensures same { SameWorker dealer.old dealer.new × (worker_index dealer.new ≡ worker_index dealer.old) }
    ensures named { worker_view dealer.new ≡ record first_log { share = share.now } }
{
    let _ = share;
    let _spare = dealer.another::<Names<W>>();
}

/// A new deque for a share, with room for so many tasks.
pub(crate) fn open(alloc: Global, share: &[u32], room: usize) -> Result<Dealer, AllocError>
    ensures room { IfOk result (λ d. room ≤ worker_capacity d) }
    ensures first { IfOk result (λ d. (worker_flavor d ≡ 0) × (worker_index d ≡ 0)) }
    ensures view { IfOk result (λ d. worker_view d ≡ record first_log { share = share.now }) }
{
    let mut dealer = Dealer::fifo_as(alloc, room)?;
    name_as::<Brand>(&mut dealer, share);
    Ok(dealer)
}

/// One more pass that takes tasks.
pub(crate) fn admit(dealer: &mut Dealer) -> Seat
    requires deals { ((worker_view dealer.old).deals ≡ true) × (0 < (worker_view dealer.old).parts) }
    ensures same { SameWorker dealer.old dealer.new × (worker_index dealer.new ≡ worker_index dealer.old) }
    ensures pass { IsPassOf (worker_deque dealer.old) result }
    ensures views { (worker_view dealer.new ≡ record (worker_view dealer.old) { passes = (worker_view dealer.old).passes + 1 }) × (view result ≡ thief_log (worker_view dealer.old).share) }
{
    dealer.another::<Admits>()
}

/// Puts a task into the deque.
pub(crate) fn put(dealer: &mut Dealer, task: Task)
    requires deals { ((worker_view dealer.old).deals ≡ true) × (0 < (worker_view dealer.old).parts) }
    requires fits { FitsAt (worker_view dealer.old).share (length (worker_view dealer.old).put) task }
    requires room { worker_index dealer.old < worker_capacity dealer.old }
    ensures same { SameWorker dealer.old dealer.new × (worker_index dealer.new ≡ worker_index dealer.old + 1) }
    ensures view { worker_view dealer.new ≡ record (worker_view dealer.old) { put = (worker_view dealer.old).put ++ task ∷ [] } }
{
    match dealer.push_as::<Puts>(task) {
        Ok(()) => {}
        Err(_) => unreachable!(),
    }
}

/// Takes the first task of the deque, by its dealer. None only where it was empty at a moment of this call: then not every pass has a mark.
pub(crate) fn take(dealer: &mut Dealer) -> Option<Task>
    requires deals { (worker_view dealer.old).deals ≡ true }
    requires first { worker_flavor dealer.old ≡ 0 }
    requires no_mark { marks_got (worker_view dealer.old).got < (worker_view dealer.old).parts }
    ensures same { SameWorker dealer.old dealer.new × (worker_index dealer.new ≤ worker_index dealer.old) }
    ensures some { IfSome result (λ task. Takes (worker_view dealer.old) task (worker_view dealer.new)) }
    ensures none { IfNone result ((worker_view dealer.new ≡ worker_view dealer.old) × (marks (worker_view dealer.old).put < (worker_view dealer.old).passes)) }
{
    dealer.pop_as::<Gets>()
}

/// Takes the first task of the deque, by another.
pub(crate) fn steal(way: &Way, seat: &mut Seat) -> Steal<Task>
    requires pass { IsPassOf (stealer_deque way.now) seat.old }
    requires takes { (view seat.old).deals ≡ false }
    requires no_mark { marks_got (view seat.old).got < (view seat.old).parts }
    ensures same { SamePass seat.old seat.new }
    ensures rule { MatchSteal result (view seat.new ≡ view seat.old) (view seat.new ≡ view seat.old) (λ task. Takes (view seat.old) task (view seat.new)) }
{
    way.steal_as::<Gets>(seat)
}

/// Takes a pass in.
pub(crate) fn take_in(dealer: &mut Dealer, seat: Seat)
    requires pass { IsPassOf (worker_deque dealer.old) seat }
    requires deals { ((worker_view dealer.old).deals ≡ true) × ((view seat).deals ≡ false) × (0 < (worker_view dealer.old).parts) }
    ensures same { SameWorker dealer.old dealer.new × (worker_index dealer.new ≡ worker_index dealer.old) }
    ensures view { worker_view dealer.new ≡ joined_log (worker_view dealer.old) (view seat) }
{
    dealer.absorb::<TakesIn>(seat);
}

/// What was put and taken, once all passes are taken in.
pub(crate) fn settle(dealer: &mut Dealer)
    requires deals { (worker_view dealer.old).deals ≡ true }
    requires all { (worker_view dealer.old).parts ≡ (worker_view dealer.old).passes }
    ensures same { SameWorker dealer.old dealer.new × (worker_view dealer.new ≡ worker_view dealer.old) }
    ensures settled { (items : _) × Settled (worker_view dealer.old) items }
{
    let _ = dealer.len_as::<Settles>();
}
