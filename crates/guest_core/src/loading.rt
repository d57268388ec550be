//! Which virtual processor is loaded on which processor.
ghost use Rattle.std.specs.Prelude.{◌≡◌, ◌≢◌, ◌<◌, ◌≤◌, [], ◌∷◌, None};
ghost use Rattle.base_words.specs.declared.events.Event.TheVariants.{Unload};
ghost use Rattle.shootdown.specs.declared.notes.Note.TheVariants.{Made};
ghost use Rattle.isolation_law.specs.GuestState.{processor as processor_at};
ghost use Rattle.guest_core.specs.GuestView.{guest_of};
ghost use Rattle.guest_core.specs.Kept.{IsKept};
ghost use Rattle.guest_core.specs.GuestCalls.{Leaves, LoadsVcpu, told_of_load, MayCall, processor_of};
ghost use Rattle.guest_core.specs.Making.{MakesAlone};

use crate::Loaded;
use crate::laws::laws;
use crate::parts::Parts;
use crate::using::{cell_of, count_load, count_unload};
use base_words::{Event, ProcId, VcpuId};
use isolation_law::exchanges;
use shootdown::{Note, ProcToken, note};

impl Parts {
    /// Loads a virtual processor on the token's processor, on which nothing is loaded. `Ended` exactly where the guest has ended; else
    /// `Dead` exactly where the processor's cell has failed, which it names; else `On` exactly where it is loaded already, on that processor.
    pub(crate) fn load_vcpu(&mut self, token: &mut ProcToken, vcpu: VcpuId) -> Loaded
        requires kept { IsKept self.old }
        requires may { MayCall (guest_of self.old) token.old }
        requires room { 2 ≤ (guest_of self.old).room }
        requires vcpu { vcpu.0 < (guest_of self.old).start.vcpus }
        requires free { (processor_at (guest_of self.old).state token.old.number).loaded ≡ None }
        ensures kept { IsKept self.new }
        ensures loads { LoadsVcpu (guest_of self.old) (processor_of token.old) vcpu (guest_of self.new) result }
        ensures leaves { Leaves (guest_of self.old) token.old (told_of_load (processor_of token.old) vcpu result) (guest_of self.new) token.new }
    {
        exchanges();
        laws();
        let processor = token.number();
        if let Some(end) = self.course.ended {
            note(token, &mut self.seat, Note::Ended(end));
            return Loaded::Ended(end);
        }
        let cell = cell_of(&self.course, processor);
        if self.course.is_dead(cell) {
            note(token, &mut self.seat, Note::Dead(cell));
            return Loaded::Dead(cell);
        }
        if let Some(other) = self.course.processor_with(vcpu) {
            return Loaded::On(other);
        }
        count_load(&mut self.uses, &self.course, processor);
        self.course.load(processor, vcpu);
        let entry = Event::Load(processor, vcpu);
        self.journal.push(entry);
        note(token, &mut self.seat, Note::Made(entry));
        Loaded::Done
    }

    /// Unloads what is loaded on the token's processor. It needs no room.
    pub(crate) fn unload(&mut self, token: &mut ProcToken)
        requires kept { IsKept self.old }
        requires may { MayCall (guest_of self.old) token.old }
        requires loaded { (processor_at (guest_of self.old).state token.old.number).loaded ≢ None }
        ensures kept { IsKept self.new }
        ensures makes { MakesAlone (guest_of self.old) (Unload (processor_of token.old) ∷ []) (guest_of self.new) }
        ensures leaves { Leaves (guest_of self.old) token.old (Made (Unload (processor_of token.old)) ∷ []) (guest_of self.new) token.new }
        ensures room { (guest_of self.old).room ≤ (guest_of self.new).room }
    {
        exchanges();
        laws();
        let processor = token.number();
        count_unload(&mut self.uses, &self.course, processor);
        self.course.unload(processor);
        let entry = Event::Unload(processor);
        self.journal.push(entry);
        note(token, &mut self.seat, Note::Made(entry));
    }
}
