//! What an owner has of a deque: a stretch that it deals, or a pass.
ghost use Rattle.std.specs.Prelude.{◌≡◌, ◌≤◌, ◌<◌, ◌+◌, ◌++◌, ◌≢◌, List, ℕ, true, length, Some, IfSome, IfNone, slice_get};
ghost use Rattle.crossbeam_deque.specs.Handles.{worker_view, worker_deque, SameWorker};
ghost use Rattle.crossbeam_deque.specs.Handles as handles;
ghost use Rattle.run_balance.specs.Logs.{marks_got};
ghost use Rattle.run_balance.specs.Rule.{Takes};
ghost use Rattle.run_balance.specs.Sides.{IsStretch};
ghost use Rattle.run_balance.specs.declared.task.Task.{Task};
ghost use Rattle.run_balance.specs.declared.task.Task.TheVariants.{End};

use crate::deque::{put, take};
use crate::rule::{Dealer, Seat};
use crate::task::Task;

/// A stretch of an owner: the end of its deque at which it is dealt, how many items it has, and how many of them are dealt.
#[derive(Drop)]
pub struct Stretch {
    pub(crate) dealer: Dealer,
    pub(crate) count: usize,
    pub(crate) dealt: usize,
}

/// What an owner has of a deque: of its own a stretch, of another's a pass; and nothing where that was taken out.
#[derive(Drop)]
pub enum Side {
    Own(Stretch),
    Other(Seat),
    Spent,
}

/// Puts a mark for each owner behind the last item.
pub(crate) fn put_marks(dealer: &mut Dealer, owners: usize)
    requires deals { ((worker_view dealer.old).deals ≡ true) × (0 < (worker_view dealer.old).parts) }
    requires room { handles.worker_index dealer.old + owners ≤ handles.worker_capacity dealer.old }
    ensures same { SameWorker dealer.old dealer.new × (handles.worker_index dealer.new ≡ handles.worker_index dealer.old + owners) }
    ensures view { worker_view dealer.new ≡ record (worker_view dealer.old) { put = (worker_view dealer.old).put ++ Rattle.std.specs.Prelude.replicate owners End } }
{
    for _mark in 0..owners {
        put(dealer, Task::End);
    }
}

impl Stretch {
    /// Deals the next item; behind the last one, a mark for each owner.
    pub(crate) fn deal(&mut self, item: u32, owners: usize)
        requires is { (share : List ℕ) × IsStretch share owners self.old × (slice_get share self.old.dealt ≡ Some item) × ((worker_view self.old.dealer).share ≡ share) }
        requires parts { 0 < (worker_view self.old.dealer).parts }
        ensures is { (share : List ℕ) → IsStretch share owners self.old → slice_get share self.old.dealt ≡ Some item → IsStretch share owners self.new }
        ensures dealt { self.new.dealt ≡ self.old.dealt + 1 }
        ensures deque { worker_deque self.new.dealer ≡ worker_deque self.old.dealer }
        ensures view { (put : List Task) × (worker_view self.new.dealer ≡ record (worker_view self.old.dealer) { put = put }) }
    {
        put(&mut self.dealer, Task::Item(item));
        self.dealt += 1;
        if self.dealt == self.count {
            put_marks(&mut self.dealer, owners);
        }
    }

    /// Takes the first task of the deque. None only where it was empty at a moment of this call: then not all of the stretch is dealt.
    pub(crate) fn take_first(&mut self) -> Option<Task>
        requires is { (share : List ℕ) × (owners : ℕ) × IsStretch share owners self.old }
        requires no_mark { marks_got (worker_view self.old.dealer).got < (worker_view self.old.dealer).parts }
        ensures is { (share : List ℕ) (owners : ℕ) → IsStretch share owners self.old → IsStretch share owners self.new }
        ensures same { (self.new.count ≡ self.old.count) × (self.new.dealt ≡ self.old.dealt) × (worker_deque self.new.dealer ≡ worker_deque self.old.dealer) }
        ensures some { IfSome result (λ task. Takes (worker_view self.old.dealer) task (worker_view self.new.dealer)) }
        ensures none { IfNone result ((worker_view self.new.dealer ≡ worker_view self.old.dealer) × ((share : List ℕ) (owners : ℕ) → IsStretch share owners self.old → self.old.dealt ≢ length share)) }
    {
        take(&mut self.dealer)
    }
}
