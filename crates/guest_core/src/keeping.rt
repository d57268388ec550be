//! Room for calls, and what the notes tell.
ghost use Rattle.std.specs.Prelude.{◌≡◌, ◌<◌, ◌≤◌, ◌↔◌, ℕ, None, IsTrue, OnOk, length};
ghost use Rattle.base_words.specs.Limits.{most_processors};
ghost use Rattle.guest_course.specs.Errands.{MustWait};
ghost use Rattle.shootdown.specs.Notes.{with_side};
ghost use Rattle.isolation_law.specs.GuestState.{due_on, processor as processor_at};
ghost use Rattle.guest_core.specs.GuestView.{guest_of, IsSameGuest};
ghost use Rattle.guest_core.specs.Kept.{IsKept};
ghost use Rattle.guest_core.specs.Noting.{shows_loaded};
ghost use Rattle.guest_core.specs.GuestCalls.{MayNote};
ghost use Rattle.guest_core.specs.Making.{Stays};

use crate::parts::Parts;
use base_words::{MOST_PROCESSORS, Ppn, ProcId};
use isolation_law::dues_fit;
use shootdown::{ProcToken, agree};
use std::alloc::AllocError;

/// For so many entries the journal has room once room was made, beside the end of each open move: two, and one for each processor that may
/// have to unload.
const ENTRIES: usize = 2 + MOST_PROCESSORS;

impl Parts {
    /// Makes room for one further call. A refusal changes nothing but what room there is.
    #[inline]
    pub(crate) fn make_room(&mut self) -> Result<(), AllocError>
        requires { IsKept self.old }
        ensures kept { IsKept self.new }
        ensures same { IsSameGuest (guest_of self.old) (guest_of self.new) }
        ensures stays { Stays (guest_of self.old) (guest_of self.new) }
        ensures notes { self.new.seat ≡ self.old.seat }
        ensures passes { self.new.wiring ≡ self.old.wiring }
        ensures handed { (guest_of self.new).handed ≡ (guest_of self.old).handed }
        ensures room { OnOk result (2 ≤ (guest_of self.new).room) }
    {
        self.journal
            .reserve(ENTRIES + self.course.pmap.open_moves())?;
        self.course.reserve()
    }

    /// Tells that what a token noted of this guest is what the guest's seat noted of the token's processor, that it shows what is loaded
    /// there, and that nothing is due where nothing is loaded.
    #[inline]
    pub(crate) fn agree(&mut self, token: &mut ProcToken)
        requires kept { IsKept self.old }
        requires token { MayNote (guest_of self.old) token.old }
        ensures same { (self.new ≡ self.old) × (token.new ≡ token.old) }
        ensures notes { with_side (guest_of self.old).number token.old.notes ≡ with_side token.old.number (guest_of self.old).notes }
        ensures loaded { shows_loaded (with_side (guest_of self.old).number token.old.notes) ≡ (processor_at (guest_of self.old).state token.old.number).loaded }
        ensures lapsed { (processor_at (guest_of self.old).state token.old.number).loaded ≡ None → due_on (guest_of self.old).state token.old.number ≡ None }
    {
        dues_fit();
        agree(token, &mut self.seat);
    }

    /// Tells that the notes of the guest's seat show what is loaded on each of its processors.
    #[inline]
    pub(crate) fn tells_loaded(&self)
        requires { IsKept self.now }
        ensures { (p : ℕ) → p < length (guest_of self.now).start.around.processors → shows_loaded (with_side p (guest_of self.now).notes) ≡ (processor_at (guest_of self.now).state p).loaded }
    {}

    /// Whether a processor has to wait for the move of a page.
    pub(crate) fn must_wait(&self, processor: ProcId, page: Ppn) -> bool
        requires kept { IsKept self.now }
        requires processor { processor.0 < most_processors }
        ensures { IsTrue result ↔ MustWait (guest_of self.now).state processor.0 page.0 }
    {
        self.course.must_wait(processor, page)
    }
}
