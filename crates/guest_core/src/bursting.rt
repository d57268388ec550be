//! Steps that a processor makes by itself, one after the other, and the turn of the one that traps.
ghost use Rattle.std.specs.Prelude.{◌≡◌, ◌≢◌, ◌<◌, ◌≤◌, ◌+◌, ◌^◌, IfSome, None, Some, true, length};
ghost use Rattle.isolation_law.specs.GuestState.{processor as processor_at};
ghost use Rattle.isolation_law.specs.Phases.{MayAct};
ghost use Rattle.guest_course.specs.CourseView.{state_of};
ghost use Rattle.guest_core.specs.GuestCalls.{MakesRoom, MayCall, MayTurn, StepsAhead, TrapsNext, TurnsAhead, loaded_on, trap_in};
ghost use Rattle.guest_core.specs.GuestView.{AreOf, entries_due, guest_of, shared_by};
ghost use Rattle.guest_core.specs.Kept.{IsKept};
ghost use Rattle.guest_core.specs.MoveCalls.{IsAtRest};
ghost use Rattle.guest_core.specs.TurnParts.{MayRun};

use crate::laws::laws;
use crate::parts::Parts;
use crate::{Ahead, Resources, Turn};
use base_words::{Event, HwStep, MOST_PROCESSORS, TrapCause, VcpuId};
use guest_course::{Errand, Steps};
use isolation_law::{exchanges, uses_change};
use shootdown::{Note, ProcToken, note_many};
use std::alloc::{AllocError, Global};
use std::sync::Wait;

/// Steps that were made, and the cause for which the next one traps, if it does.
#[derive(Clone, Copy, Debug, PartialEq, Eq)]
struct Run {
    steps: u64,
    cause: Option<TrapCause>,
}

/// The cause for which a step trapped.
#[inline]
fn trap_of(step: HwStep) -> Option<TrapCause>
    ensures { result ≡ trap_in step }
{
    match step {
        HwStep::Direct(_) => None,
        HwStep::Trap(cause) => Some(cause),
    }
}

impl Parts {
    /// How many entries may come yet, beside those that are owed.
    #[inline]
    fn entries_left(&self) -> u64
        requires { IsKept self.now }
        ensures left { 0 < result → length self.now.journal.entries + result + entries_due (state_of self.now.course) < 2 ^ 64 }
        ensures counted { length self.now.journal.entries < 2 ^ 64 }
    {
        let owed = MOST_PROCESSORS + self.course.pmap.open_moves();
        (u64::MAX - self.journal.len()).saturating_sub(owed as u64)
    }

    /// Makes steps of a virtual processor that may step, and puts them into the journal and both lists of notes at once. Where the next one
    /// traps, its cause.
    #[inline]
    fn run_ahead(&mut self, token: &mut ProcToken, vcpu: VcpuId, most: u64) -> Run
        requires kept { IsKept self.old }
        requires may { MayCall (guest_of self.old) token.old }
        requires room { 2 ≤ (guest_of self.old).room }
        requires loaded { (processor_at (guest_of self.old).state token.old.number).loaded ≡ Some vcpu.0 }
        requires runs { MayRun (guest_of self.old).state vcpu.0 }
        requires acts { MayAct (guest_of self.old).state token.old.number }
        requires rest { IsAtRest (guest_of self.old).state token.old.number }
        ensures kept { IsKept self.new }
        ensures few { result.steps ≤ most }
        ensures fewer { IfSome result.cause (λ _. result.steps < most) }
        ensures ahead { StepsAhead (guest_of self.old) token.old vcpu result.steps (guest_of self.new) token.new }
        ensures traps { IfSome result.cause (TrapsNext (guest_of self.new) token.new vcpu) }
    {
        exchanges();
        uses_change();
        laws();
        let processor = token.number();
        let few = most.min(self.entries_left());
        if few == 0 {
            return Run {
                steps: 0,
                cause: None,
            };
        }
        let Steps { made, last } = self.course.steps(processor, vcpu, few);
        self.journal.push_directs(processor, vcpu, made);
        let entry = Event::Direct(processor, vcpu);
        note_many(token, &mut self.seat, Note::Made(entry), made);
        Run {
            steps: made,
            cause: trap_of(last),
        }
    }

    /// Makes room for one further call. Whether there is room.
    #[inline]
    fn has_room(&mut self) -> bool
        requires { IsKept self.old }
        ensures kept { IsKept self.new }
        ensures made { MakesRoom (guest_of self.old) (guest_of self.new) }
        ensures room { result ≡ true → 2 ≤ (guest_of self.new).room }
    {
        self.make_room().is_ok()
    }

    /// Makes the turn of a step that traps, if it does, once there is room for it, and unless something else comes first.
    #[inline]
    fn turn_ahead<R: Wait>(
        &mut self,
        rt: &R,
        alloc: Global,
        token: &mut ProcToken,
        vcpu: VcpuId,
        resources: &Resources,
        cause: Option<TrapCause>,
    ) -> Option<Result<Turn, AllocError>>
        requires kept { IsKept self.old }
        requires may { MayCall (guest_of self.old) token.old }
        requires shared { AreOf (shared_by resources.now) (guest_of self.old) }
        requires traps { IfSome cause (TrapsNext (guest_of self.old) token.old vcpu) }
        ensures kept { IsKept self.new }
        ensures caused { cause ≡ None → result ≡ None }
        ensures turn { MayTurn (shared_by resources.now) (guest_of self.old) token.old vcpu result (guest_of self.new) token.new }
    {
        let Some(cause) = cause else {
            return None;
        };
        if !self.has_room() {
            return None;
        }
        let processor = token.number();
        let Errand::Nothing = self.course.errand(processor) else {
            return None;
        };
        Some(self.trapped(rt, alloc, token, vcpu, resources, cause))
    }

    /// What is loaded on the token's processor, where the guest goes on, it hasn't halted, and no move has to be seen to first.
    #[inline]
    fn runs_next(&self, token: &ProcToken) -> Option<VcpuId>
        requires kept { IsKept self.now }
        requires may { MayCall (guest_of self.now) token.now }
        requires loaded { (processor_at (guest_of self.now).state token.now.number).loaded ≢ None }
        ensures loaded { IfSome result (λ vcpu. (processor_at (guest_of self.now).state token.now.number).loaded ≡ Some vcpu.0) }
        ensures runs { IfSome result (λ vcpu. MayRun (guest_of self.now).state vcpu.0) }
        ensures rest { IfSome result (λ _. IsAtRest (guest_of self.now).state token.now.number) }
    {
        if self.course.ended.is_some() {
            return None;
        }
        let Errand::Nothing = self.course.errand(token.number()) else {
            return None;
        };
        let Some(vcpu) = self.course.loaded(token.number()) else {
            unreachable!();
        };
        if self.course.vcpus[vcpu.0 as usize].halted {
            return None;
        }
        Some(vcpu)
    }

    /// Makes steps of the virtual processor that is loaded on the token's processor, while each is one that the processor makes by itself,
    /// and the turn of the first one that traps.
    pub(crate) fn turns_ahead<R: Wait>(
        &mut self,
        rt: &R,
        alloc: Global,
        token: &mut ProcToken,
        resources: &Resources,
        most: u64,
    ) -> Ahead
        requires kept { IsKept self.old }
        requires may { MayCall (guest_of self.old) token.old }
        requires room { 2 ≤ (guest_of self.old).room }
        requires shared { AreOf (shared_by resources.now) (guest_of self.old) }
        requires loaded { (processor_at (guest_of self.old).state token.old.number).loaded ≢ None }
        requires acts { MayAct (guest_of self.old).state token.old.number }
        ensures kept { IsKept self.new }
        ensures few { result.steps ≤ most }
        ensures fewer { IfSome result.turn (λ _. result.steps < most) }
        ensures ahead { TurnsAhead (shared_by resources.now) (guest_of self.old) token.old (loaded_on (guest_of self.old) token.old) result (guest_of self.new) token.new }
    {
        let Some(vcpu) = self.runs_next(token) else {
            return Ahead {
                steps: 0,
                turn: None,
            };
        };
        let Run { steps, cause } = self.run_ahead(token, vcpu, most);
        let turn = self.turn_ahead(rt, alloc, token, vcpu, resources, cause);
        Ahead { steps, turn }
    }
}
