//! A move that is asked for isn't begun.
ghost use Rattle.std.specs.Prelude.{◌≡◌, ◌<◌, ◌≤◌, ◌+◌, ◌-◌, ℕ, ◌∷◌, ◌++◌, [], None, length, slice_set};
ghost use Rattle.std.specs.Vec.{vec_len, vec_capacity};
ghost use Rattle.private_machine.specs.Policy.{anew};
ghost use Rattle.page_policy.specs.Pages.{misses_of, AreCounters};
ghost use Rattle.isolation_law.specs.Causes.{IsCause};
ghost use Rattle.isolation_law.specs.Phases.{GoesOnOrLingers};
ghost use Rattle.isolation_law.specs.SkipRow.{Skips, SkipAsked, asker};
ghost use Rattle.guest_course.specs.CourseView.{state_of};
ghost use Rattle.guest_course.specs.CourseRules.{IsSound};
ghost use Rattle.guest_course.specs.Packets.{SamePackets};
ghost use Rattle.guest_course.specs.SkipView.{wanting, cause_of};

use crate::course::Course;
use crate::skips::SkipEntry;
use base_words::Ppn;
use isolation_law::row_keeps;

impl Course {
    /// The counters and the mark of a page start anew, if the page has any.
    fn restart(&mut self, page: Ppn)
        ensures same { self.new ≡ record self.old { counters = self.new.counters } }
        ensures anew { self.new.counters ≡ slice_set self.old.counters page.0 (anew (misses_of page.0 self.old.counters)) }
        ensures counted { (pages nodes : ℕ) → AreCounters pages nodes self.old.counters → AreCounters pages nodes self.new.counters }
    {
        if self.counters.has(page) {
            self.counters.restart(page);
        }
    }

    /// Notes a move that isn't begun, for which a place was made. The counters and the mark of its page start anew, and nothing is
    /// due of it any more. So it is after an end, too, where the page may be none of those that the guest had.
    pub fn skip(&mut self, entry: SkipEntry)
        requires sound { IsSound self.old }
        requires phase { GoesOnOrLingers (state_of self.old) }
        requires page { self.old.ended ≡ None → entry.wish.page.0 < length self.old.pmap.pages }
        requires asked { SkipAsked (state_of self.old) entry.by (wanting entry.wish) }
        requires caused { IsCause (state_of self.old) (asker entry.by) (wanting entry.wish) (cause_of entry.cause) }
        requires place { vec_len self.old.skips < vec_capacity self.old.skips }
        ensures sound { IsSound self.new }
        ensures skips { Skips (state_of self.old) (length self.old.skips.items) (state_of self.new) }
        ensures entry { self.new.skips.items ≡ self.old.skips.items ++ entry ∷ [] }
        ensures place_room { vec_capacity self.old.skips - vec_len self.old.skips ≤ (vec_capacity self.new.skips - vec_len self.new.skips) + 1 }
        ensures ended { self.new.ended ≡ self.old.ended }
        ensures vcpus { self.new.vcpus ≡ self.old.vcpus }
        ensures print_room { self.new.devs.print_room ≡ self.old.devs.print_room }
        ensures send_room { self.new.devs.send_room ≡ self.old.devs.send_room }
        ensures pages { self.new.pmap ≡ self.old.pmap }
        ensures cells { self.new.sent_from ≡ self.old.sent_from }
        ensures packets { SamePackets self.old self.new }
    {
        row_keeps();
        let page = entry.wish.page;
        self.skips.push_reserved(entry);
        self.restart(page);
        self.clear_dues(page);
    }
}
