//! How a move of a page ends.
ghost use Rattle.std.specs.Prelude.{◌≡◌, ◌≢◌, ◌<◌, ◌≤◌, ◌+◌, ◌^◌, true, false, if◌then◌else◌, [], ◌∷◌, ◌++◌, Some, None, length, option_map};
ghost use Rattle.std.specs.Option.{option_to_list};
ghost use Rattle.std.specs.Vec.{vec_len, vec_capacity};
ghost use Rattle.private_machine.specs.Backing.{Copy, Move, TakesShared, page_at, with_bytes};
ghost use Rattle.private_machine.specs.PageMove.{finished, taken, dropped, dropped_taken};
ghost use Rattle.pmap_table.specs.Ending.{numbers_of, spare_of, spare_taken, Finishes, Takes};
ghost use Rattle.pmap_table.specs.Frames.{copy_of, shared_copy_of, master_copy, is_given};
ghost use Rattle.pmap_table.specs.OpenMoves.{change_of, FitsChange};
ghost use Rattle.pmap_table.specs.Tracking.{is_taking};

use crate::Pmap;
use crate::backed::BackedPage;
use crate::freed::Freed;
use crate::master::Master;
use crate::open_move::Change;
use crate::replicas::Replicas;
use base_words::{Frame, FrameNo, Ppn, SharedFrame};
use std::mem;

/// What a page no longer uses after the end of a move: a frame that becomes a spare, if one does, and those that are released.
#[derive(Drop)]
struct Unused {
    spare: Option<Frame>,
    freed: Freed,
}

impl Master {
    /// The master's bytes are copied to a frame of the guest's own, which takes its place.
    fn move_to(&mut self, target: Frame) -> FrameNo
        ensures master { master_copy self.new ≡ with_bytes (master_copy self.old).bytes (copy_of target) }
        ensures own { is_given self.new ≡ false }
        ensures old { result.0 ≡ (master_copy self.old).frame }
    {
        let mut target = target;
        target.page.copy_from(self.page());
        let old = self.number();
        *self = Master::Own(target);
        old
    }

    /// The frame may be held by others from now on, in its box. The other frame stays what it is.
    fn give(&mut self, other: Frame) -> Frame
        ensures master { master_copy self.new ≡ master_copy self.old }
        ensures given { is_given self.new ≡ true }
        ensures other { result ≡ other }
    {
        let given = match mem::replace(self, Master::Own(other)) {
            Master::Own(frame) => Master::Given(frame),
            Master::Given(frame) => Master::Given(frame),
            Master::Shared(frame) => Master::Shared(frame),
        };
        match mem::replace(self, given) {
            Master::Own(other) => other,
            Master::Given(_) | Master::Shared(_) => unreachable!(),
        }
    }

    /// A frame that others may hold too takes the master's place. An own one becomes a spare, and another is released.
    fn take(&mut self, target: SharedFrame, freed: &mut Freed) -> Option<Frame>
        requires { length freed.old < 8 }
        ensures master { master_copy self.new ≡ shared_copy_of target }
        ensures given { is_given self.new ≡ true }
        ensures spare { option_to_list (option_map copy_of result) ≡ (if is_given self.old then [] else master_copy self.old ∷ []) }
        ensures freed { freed.new ≡ freed.old ++ (if is_given self.old then (master_copy self.old).frame ∷ [] else []) }
    {
        match mem::replace(self, Master::Shared(target)) {
            Master::Own(frame) => Some(frame),
            Master::Given(frame) => {
                freed.push(frame.number);
                None
            }
            Master::Shared(frame) => {
                freed.push(frame.number);
                None
            }
        }
    }
}

impl Replicas {
    /// Drops them all.
    fn release(&mut self, freed: &mut Freed)
        requires { length freed.old + length self.old ≤ 8 }
        ensures none { self.new ≡ [] }
        ensures freed { freed.new ≡ freed.old ++ numbers_of self.old }
    {
        for place in self.frames.as_slice() {
            if let Some(replica) = place {
                freed.push(replica.number);
            }
        }
        self.frames.clear();
    }
}

impl Unused {
    /// No frame becomes a spare, and this one is released.
    fn releasing(frame: FrameNo) -> Self
        ensures freed { result.freed ≡ frame.0 ∷ [] }
        ensures spare { result.spare ≡ None }
    {
        let mut freed = Freed::none();
        freed.push(frame);
        Unused { spare: None, freed }
    }
}

impl BackedPage {
    /// Copies the page to a frame, which becomes its last replica.
    fn replicate_to(&mut self, target: Frame)
        requires still { self.old.move ≡ None }
        requires few { length self.old.replicas < 7 }
        ensures { self.new ≡ record self.old { replicas = self.old.replicas ++ with_bytes self.old.master.bytes (copy_of target) ∷ [] } }
    {
        let mut target = target;
        target.page.copy_from(self.master.page());
        self.replicas.push(target);
    }

    /// Drops the replicas.
    fn collapse(&mut self, freed: &mut Freed)
        requires still { self.old.move ≡ None }
        requires room { length freed.old ≤ 1 }
        ensures page { self.new ≡ record self.old { replicas = [] } }
        ensures freed { freed.new ≡ freed.old ++ numbers_of self.old.replicas }
    {
        let _few = self.replicas.len();
        self.replicas.release(freed);
    }

    /// What a move that was open leaves when it is done.
    fn finish(&mut self, change: Change) -> Unused
        requires still { self.old.move ≡ None }
        requires fits { FitsChange self.old (change_of change) }
        ensures page { self.new ≡ finished (change_of change) self.old }
        ensures spare { option_to_list (option_map copy_of result.spare) ≡ spare_of (change_of change) }
        ensures freed { result.freed ≡ numbers_of (dropped self.old (change_of change)) }
    {
        match change {
            Change::Migrate(target) => Unused::releasing(self.master.move_to(target)),
            Change::Break(target) => Unused::releasing(self.master.move_to(target)),
            Change::TakeShared(target) => Unused::releasing(target.number),
            Change::Replicate(target) => {
                self.replicate_to(target);
                Unused {
                    spare: None,
                    freed: Freed::none(),
                }
            }
            Change::Collapse => {
                let mut freed = Freed::none();
                self.collapse(&mut freed);
                Unused { spare: None, freed }
            }
            Change::GiveShared(target) => {
                let mut freed = Freed::none();
                self.collapse(&mut freed);
                let spare = self.master.give(target);
                Unused {
                    spare: Some(spare),
                    freed,
                }
            }
        }
    }

    /// What the operation leaves for which the page was taken shared.
    fn take(&mut self, target: SharedFrame) -> Unused
        requires still { self.old.move ≡ None }
        ensures page { self.new ≡ taken (shared_copy_of target) self.old }
        ensures spare { option_to_list (option_map copy_of result.spare) ≡ spare_taken self.old }
        ensures freed { result.freed ≡ numbers_of (dropped_taken self.old) }
    {
        let mut freed = Freed::none();
        let spare = self.master.take(target, &mut freed);
        self.collapse(&mut freed);
        Unused { spare, freed }
    }
}

/// A frame becomes a spare in its place, if one does, and else the place is room for another: this is the room afterwards.
fn settle(spares: &mut Vec<Frame>, spare: Option<Frame>, room: u32) -> u32
    requires place { vec_len spares.old < vec_capacity spares.old }
    requires fits { room + 1 < 2 ^ 32 }
    ensures spares { spares.new.items ≡ spares.old.items ++ option_to_list spare }
    ensures capacity { vec_capacity spares.new ≡ vec_capacity spares.old }
    ensures counted { vec_len spares.new + result ≡ vec_len spares.old + room + 1 }
    ensures room { room ≤ result }
{
    match spare {
        Some(spare) => {
            spares.push_reserved(spare);
            room
        }
        None => room + 1,
    }
}

impl Pmap {
    /// Ends the open move of a page, and tells the frames to release.
    pub fn finish(&mut self, page: Ppn) -> Freed
        requires page { page.0 < length self.old.pages }
        requires moves { (page_at self.old.pages page.0).move ≢ None }
        ensures { (m : Move) → (page_at self.old.pages page.0).move ≡ Some m → Finishes self.old page.0 m.change self.new result }
    {
        let backed = &mut self.pages[page.0 as usize];
        match backed.pending.take() {
            Some(pending) => {
                let Unused { spare, freed } = backed.finish(pending.change);
                self.open.track(page, &None);
                self.moving -= 1;
                self.room = settle(&mut self.spares, spare, self.room);
                freed
            }
            None => unreachable!(),
        }
    }

    /// Ends a move that takes a page shared by its own operation, and tells the frames to release.
    pub fn take_shared(&mut self, page: Ppn) -> Freed
        requires page { page.0 < length self.old.pages }
        requires moves { (m : Move) × ((page_at self.old.pages page.0).move ≡ Some m) × (is_taking m.change ≡ true) }
        ensures { (m : Move) (target : Copy) → (page_at self.old.pages page.0).move ≡ Some m → m.change ≡ TakesShared target → Takes self.old page.0 target self.new result }
    {
        let backed = &mut self.pages[page.0 as usize];
        match backed.pending.take() {
            Some(pending) => {
                let target = pending.change.into_shared();
                let Unused { spare, freed } = backed.take(target);
                self.open.track(page, &None);
                self.moving -= 1;
                self.room = settle(&mut self.spares, spare, self.room);
                freed
            }
            None => unreachable!(),
        }
    }
}
