//! What has to be done for moves of pages before a processor's step.
ghost use Rattle.std.specs.Prelude.{◌<◌, ◌↔◌, IsTrue};
ghost use Rattle.base_words.specs.Limits.{most_processors};
ghost use Rattle.guest_course.specs.CourseView.{state_of};
ghost use Rattle.guest_course.specs.Errands.{Calls, MustWait};

use crate::course::Course;
use base_words::{Ppn, ProcId};
use page_moves::{first_ready, first_waiting};

/// What has to be done for a move of a page before a processor's step.
#[derive(Clone, Copy, Debug, PartialEq, Eq)]
pub enum Errand {
    /// The move of this page, the lowest of those that wait for the processor, is to be acknowledged.
    Acknowledge(Ppn),
    /// No page waits for the processor, and the move of this page, the lowest that is ready, is to be finished.
    Finish(Ppn),
    /// Neither.
    Nothing,
}

impl Course {
    /// What has to be done for moves of pages before a processor's step. One test where no page has an open move.
    #[inline]
    pub fn errand(&self, processor: ProcId) -> Errand
        requires { processor.0 < most_processors }
        ensures { Calls self.now.pmap processor.0 result }
    {
        if !self.pmap.is_moving() {
            return Errand::Nothing;
        }
        if let Some(page) = first_waiting(&self.pmap, processor) {
            return Errand::Acknowledge(page);
        }
        match first_ready(&self.pmap) {
            Some(page) => Errand::Finish(page),
            None => Errand::Nothing,
        }
    }

    /// Whether a processor that has to do with a page can do nothing but wait: the page's move waits for somebody, though no page
    /// waits for this processor.
    pub fn must_wait(&self, processor: ProcId, page: Ppn) -> bool
        requires { processor.0 < most_processors }
        ensures { IsTrue result ↔ MustWait (state_of self.now) processor.0 page.0 }
    {
        if self.ended.is_some() || page.0 >= self.pmap.len() {
            return false;
        }
        match self.pmap.open_move(page) {
            Some(open) => !open.waiting.is_empty()
                && first_waiting(&self.pmap, processor).is_none(),
            None => false,
        }
    }
}
