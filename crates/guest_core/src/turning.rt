//! One turn of a virtual processor.
ghost use Rattle.std.specs.Prelude.{◌≡◌, ◌≢◌, ◌<◌, ◌≤◌, ◌+◌, ◌++◌, ℕ, [], None, Ok, Some, OnOk, OnErr, length};
ghost use Rattle.frame_words.specs.Holders.{IsMade};
ghost use Rattle.isolation_law.specs.GuestState.{page as page_of, processor as processor_at};
ghost use Rattle.base_words.specs.declared.events.Event.TheVariants.{Begin};
ghost use Rattle.base_words.specs.declared.moves.MoveKind.TheVariants.{Collapse};
ghost use Rattle.private_machine.specs.DeviceAct.{StoresTo};
ghost use Rattle.isolation_law.specs.Phases.{all_halted, MayAct};
ghost use Rattle.isolation_law.specs.StepAct.{at_hand};
ghost use Rattle.guest_course.specs.Acting.{act_of, page_used, IsOwnRead};
ghost use Rattle.guest_course.specs.CourseView.{state_of};
ghost use Rattle.guest_course.specs.CourseRules.{IsSound};
ghost use Rattle.guest_course.specs.EmulateCalls.{LeavesAct};
ghost use Rattle.guest_course.specs.EndCalls.{letting_go};
ghost use Rattle.guest_course.specs.Packets.{SamePackets};
ghost use Rattle.guest_course.specs.Hurdles.{ActIsFree, ActNeeds};
ghost use Rattle.guest_course.specs.RefillCalls.{StaysNeeding, StaysLosing};
ghost use Rattle.guest_course.specs.StepCalls.{MayStep, TrapsFor};
ghost use Rattle.guest_core.specs.Holding.{HasFrames, FitsAround};
ghost use Rattle.guest_core.specs.GuestView.{entries_due, guest_of, AreOf, shared_by};
ghost use Rattle.guest_core.specs.Kept.{IsKept};
ghost use Rattle.guest_core.specs.GuestCalls.{Leaves, MayCall, TurnAnswers, TurnsEmulate, end_of, processor_of, loaded_on, step_entries, Turns, told_of_turn};
ghost use Rattle.guest_core.specs.MoveCalls.{IsAtRest, MeetsPage};
ghost use Rattle.guest_core.specs.TurnParts.{BeginsFor, CarriesOut, Concludes, MayRun, Quietly, SharesFirst, WantsForAct};
ghost use Rattle.guest_core.specs.Using.{AreUses};
ghost use Rattle.guest_core.specs.declared.answers.Turn.TheVariants.{Stepped};

use crate::frames::{count_untied, give_back};
use crate::laws::laws;
use crate::parts::Parts;
use crate::releasing::close;
use crate::sharing::{Sharing, share_for};
use crate::{Ready, Resources, Turn};
use base_words::{By, End, Event, HwStep, MoveKind, Ppn, ProcId, TrapCause, VcpuId};
use cell_depend::Uses;
use event_journal::Journal;
use frame_words::{FrameTable, Holder};
use guest_course::{
    Course, Entry, Errand, Hurdle, acts_are_at_hand, acts_take_memory, ready_pages_are_taken,
};
use guest_devs::DevAct;
use isolation_law::{exchanges, frames_spread, run_grows, uses_change};
use shootdown::{Note, ProcToken, note};
use std::alloc::{AllocError, Global};
use std::sync::Wait;

/// Puts the step that the monitor made into the journal, and the end of the guest where it halted the last virtual processor.
fn conclude(
    course: &mut Course,
    holder: &mut Holder,
    uses: &mut Uses,
    table: &FrameTable,
    journal: &mut Journal,
    processor: ProcId,
    vcpu: VcpuId,
)
    requires sound { IsSound course.old }
    requires made { IsMade table.now holder.old }
    requires fits { FitsAround table.now (state_of course.old).around }
    requires at_home { (state_of course.old).around.home < length (state_of course.old).around.nodes }
    requires frames { HasFrames (state_of course.old) holder.old.view }
    requires used { AreUses (state_of course.old) uses.old }
    requires goes_on { course.old.ended ≡ None }
    requires room { length (letting_go 0 course.old.pmap.pages) + 2 ≤ journal.old.room }
    ensures sound { IsSound course.new }
    ensures concludes { Concludes (all_halted course.old.vcpus.items) (state_of course.old) (state_of course.new) }
    ensures entries { journal.new.entries ≡ journal.old.entries ++ step_entries processor vcpu (all_halted course.old.vcpus.items) course.old.pmap.pages }
    ensures room { journal.old.room + entries_due (state_of course.new) ≤ journal.new.room + entries_due (state_of course.old) + 2 }
    ensures end { course.new.ended ≡ end_of (all_halted course.old.vcpus.items) }
    ensures around { (state_of course.new).around ≡ (state_of course.old).around }
    ensures frames { HasFrames (state_of course.new) holder.new.view }
    ensures used { AreUses (state_of course.new) uses.new }
    ensures devs { course.new.devs ≡ course.old.devs }
    ensures cells { course.new.sent_from ≡ course.old.sent_from }
    ensures packets { SamePackets course.old course.new }
    ensures vcpus { course.new.vcpus ≡ course.old.vcpus }
    ensures skips { course.new.skips ≡ course.old.skips }
    ensures begins { course.new.pmap.room ≡ course.old.pmap.room }
    ensures same { holder.new.table ≡ holder.old.table }
{
    journal.push(Event::Emulate(processor, vcpu));
    if course.has_halted() {
        close(course, holder, uses, table, journal, End::Halted);
    }
}

/// The entry of a move that has begun, with the home node.
pub(crate) fn begin_entry(course: &Course, page: Ppn, kind: MoveKind, by: By) -> Event
    ensures { result ≡ Begin page kind (record { 0 = (state_of course.now).around.home }) by }
{
    Event::Begin {
        page,
        kind,
        node: course.around.home,
        by,
    }
}

impl Parts {
    /// The step at hand is on a page with a move, which isn't for it: that is finished where nobody waits for it any more.
    fn meet(&mut self, processor: ProcId, vcpu: VcpuId, page: Ppn, resources: &Resources) -> Turn
        requires kept { IsKept self.old }
        requires shared { AreOf (shared_by resources.now) (guest_of self.old) }
        requires not_ended { (guest_of self.old).state.end ≡ None }
        requires rest { IsAtRest (guest_of self.old).state processor.0 }
        requires meets { MeetsPage (guest_of self.old).state processor.0 vcpu.0 page.0 }
        requires moves { (page_of (guest_of self.old).state page.0).move ≢ None }
        ensures kept { IsKept self.new }
        ensures turns { TurnAnswers (shared_by resources.now) (guest_of self.old) processor vcpu (guest_of self.new) result }
        ensures told { told_of_turn processor vcpu (Ok result) ≡ [] }
        ensures quiet { Quietly (guest_of self.old) (guest_of self.new) }
    {
        ready_pages_are_taken();
        match self.finish_ready(page, resources) {
            Ready::Finished => Turn::Finished(page),
            Ready::Waits(waiting) => Turn::Waits(page, waiting),
            Ready::NoMove => unreachable!(),
        }
    }

    /// Begins the move that the store at hand needs of its page.
    fn begin_store(&mut self, processor: ProcId, vcpu: VcpuId, page: Ppn, kind: MoveKind)
        requires kept { IsKept self.old }
        requires room { 2 ≤ (guest_of self.old).room }
        requires may { MayStep (guest_of self.old).state processor.0 vcpu.0 }
        requires needs { StaysNeeding (guest_of self.old).state processor.0 vcpu.0 page.0 kind (guest_of self.old).state }
        ensures kept { IsKept self.new }
        ensures begins { BeginsFor (guest_of self.old) processor page kind (guest_of self.new) }
        ensures stores { at_hand (guest_of self.old).state vcpu.0 ≡ StoresTo page.0 }
        ensures quiet { Quietly (guest_of self.old) (guest_of self.new) }
    {
        exchanges();
        uses_change();
        laws();
        self.course.begin_needed(processor, vcpu, page, kind);
        self.journal
            .push(begin_entry(&self.course, page, kind, By::Step(processor)));
    }

    /// Begins to collapse a page that the step at hand reached by a frame of a failed cell.
    fn begin_lost(&mut self, processor: ProcId, vcpu: VcpuId, page: Ppn)
        requires kept { IsKept self.old }
        requires room { 2 ≤ (guest_of self.old).room }
        requires may { MayStep (guest_of self.old).state processor.0 vcpu.0 }
        requires loses { StaysLosing (guest_of self.old).state processor.0 vcpu.0 page.0 (guest_of self.old).state }
        ensures kept { IsKept self.new }
        ensures begins { BeginsFor (guest_of self.old) processor page Collapse (guest_of self.new) }
        ensures quiet { Quietly (guest_of self.old) (guest_of self.new) }
    {
        exchanges();
        uses_change();
        laws();
        self.course.begin_lost(processor, vcpu, page);
        let kind = MoveKind::Collapse;
        self.journal
            .push(begin_entry(&self.course, page, kind, By::Step(processor)));
    }

    /// Begins the move that a disk read needs of the page into which its block comes, where the read was left as an act.
    fn begin_read(
        &mut self,
        processor: ProcId,
        vcpu: VcpuId,
        act: DevAct,
        page: Ppn,
        kind: MoveKind,
    )
        requires kept { IsKept self.old }
        requires room { 2 ≤ (guest_of self.old).room }
        requires left { LeavesAct (guest_of self.old).state processor.0 vcpu.0 act (guest_of self.old).state }
        requires needs { ActNeeds (guest_of self.old).state vcpu.0 act page.0 kind }
        ensures kept { IsKept self.new }
        ensures begins { BeginsFor (guest_of self.old) processor page kind (guest_of self.new) }
        ensures quiet { Quietly (guest_of self.old) (guest_of self.new) }
    {
        exchanges();
        uses_change();
        laws();
        self.course.begin_for_read(processor, vcpu, act, page, kind);
        self.journal
            .push(begin_entry(&self.course, page, kind, By::Step(processor)));
    }

    /// Begins the move by which the page of an act that was left is shared, where it can be: it is taken shared, with a frame that is held
    /// once more, or given, with a frame that was found for it. Want of memory comes only before a frame's word was touched.
    fn share_first(
        &mut self,
        alloc: Global,
        processor: ProcId,
        vcpu: VcpuId,
        act: DevAct,
        resources: &Resources,
    ) -> Result<Option<Ppn>, AllocError>
        requires kept { IsKept self.old }
        requires room { 2 ≤ (guest_of self.old).room }
        requires shared { AreOf (shared_by resources.now) (guest_of self.old) }
        requires rest { IsAtRest (guest_of self.old).state processor.0 }
        requires left { LeavesAct (guest_of self.old).state processor.0 vcpu.0 act (guest_of self.old).state }
        requires free { (q : ℕ) → page_used (act_of (guest_of self.old).state vcpu.0 act) ≡ Some q → (page_of (guest_of self.old).state q).move ≡ None }
        ensures kept { IsKept self.new }
        ensures shares { SharesFirst (shared_by resources.now) (guest_of self.old) processor vcpu (guest_of self.new) result }
        ensures quiet { Quietly (guest_of self.old) (guest_of self.new) }
    {
        exchanges();
        uses_change();
        frames_spread();
        laws();
        let sharing = share_for(
            alloc,
            &self.course,
            &mut self.holder,
            &mut self.uses,
            resources,
            self.disk,
            vcpu,
            act,
        )?;
        match sharing {
            Sharing::Take(block, page, frame) => {
                self.course
                    .begin_for_block(processor, vcpu, act, block, page, frame);
                let kind = MoveKind::TakeShared;
                self.journal
                    .push(begin_entry(&self.course, page, kind, By::Step(processor)));
                Ok(Some(page))
            }
            Sharing::Give(page, spare) => {
                self.course.begin_to_give(processor, vcpu, act, page, spare);
                let kind = MoveKind::GiveShared;
                self.journal
                    .push(begin_entry(&self.course, page, kind, By::Step(processor)));
                Ok(Some(page))
            }
            Sharing::Nothing => Ok(None),
        }
    }

    /// Makes the disk read for which its page is taken shared, by which it ends that move.
    fn end_read(
        &mut self,
        token: &mut ProcToken,
        vcpu: VcpuId,
        act: DevAct,
        page: Ppn,
        resources: &Resources,
    )
        requires kept { IsKept self.old }
        requires may { MayCall (guest_of self.old) token.old }
        requires room { 2 ≤ (guest_of self.old).room }
        requires shared { AreOf (shared_by resources.now) (guest_of self.old) }
        requires rest { IsAtRest (guest_of self.old).state token.old.number }
        requires left { LeavesAct (guest_of self.old).state token.old.number vcpu.0 act (guest_of self.old).state }
        requires own { IsOwnRead (guest_of self.old).state vcpu.0 page.0 }
        ensures kept { IsKept self.new }
        ensures turns { TurnsEmulate (shared_by resources.now) (guest_of self.old) (processor_of token.old) vcpu (guest_of self.new) }
        ensures leaves { Leaves (guest_of self.old) token.old (told_of_turn (processor_of token.old) vcpu (Ok (Stepped None))) (guest_of self.new) token.new }
    {
        exchanges();
        uses_change();
        laws();
        let processor = token.number();
        let untied = self.course.pmap.untied_by_taking(page);
        let freed = self.course.end_read(vcpu, act, page);
        give_back(&self.course, &mut self.holder, resources.table, freed);
        count_untied(&self.course, &mut self.uses, untied);
        let entry = Event::Emulate(processor, vcpu);
        self.journal.push(entry);
        note(token, &mut self.seat, Note::Made(entry));
    }

    /// Makes the step of which an act is left, and puts what it sends to another guest on their wire.
    fn carry_out<R: Wait>(
        &mut self,
        rt: &R,
        alloc: Global,
        token: &mut ProcToken,
        vcpu: VcpuId,
        act: DevAct,
        resources: &Resources,
    ) -> Result<(), AllocError>
        requires kept { IsKept self.old }
        requires may { MayCall (guest_of self.old) token.old }
        requires room { 2 ≤ (guest_of self.old).room }
        requires shared { AreOf (shared_by resources.now) (guest_of self.old) }
        requires left { LeavesAct (guest_of self.old).state token.old.number vcpu.0 act (guest_of self.old).state }
        requires free { ActIsFree (guest_of self.old).state vcpu.0 act }
        ensures kept { IsKept self.new }
        ensures carries_out { OnOk result (CarriesOut (guest_of self.old) (processor_of token.old) vcpu (guest_of self.new)) }
        ensures wants { OnErr result (WantsForAct (guest_of self.old) vcpu.0 (guest_of self.new)) }
        ensures made { OnOk result (Leaves (guest_of self.old) token.old (told_of_turn (processor_of token.old) vcpu (Ok (Stepped None))) (guest_of self.new) token.new) }
        ensures unmade { OnErr result (Leaves (guest_of self.old) token.old [] (guest_of self.new) token.new) }
    {
        exchanges();
        uses_change();
        laws();
        acts_take_memory();
        let processor = token.number();
        let out = self.course.outgoing(alloc, vcpu, act)?;
        self.course.carry_out(alloc, vcpu, act)?;
        let entry = Event::Emulate(processor, vcpu);
        self.journal.push(entry);
        note(token, &mut self.seat, Note::Made(entry));
        self.wiring.post(rt, resources.wires, out);
        Ok(())
    }

    /// Does what is left of a step, once its page is shared, where it can be, and may change, where it has to.
    fn act<R: Wait>(
        &mut self,
        rt: &R,
        alloc: Global,
        token: &mut ProcToken,
        vcpu: VcpuId,
        act: DevAct,
        resources: &Resources,
    ) -> Result<Turn, AllocError>
        requires kept { IsKept self.old }
        requires may { MayCall (guest_of self.old) token.old }
        requires room { 2 ≤ (guest_of self.old).room }
        requires shared { AreOf (shared_by resources.now) (guest_of self.old) }
        requires rest { IsAtRest (guest_of self.old).state token.old.number }
        requires left { LeavesAct (guest_of self.old).state token.old.number vcpu.0 act (guest_of self.old).state }
        ensures kept { IsKept self.new }
        ensures turns { Turns (shared_by resources.now) (guest_of self.old) (processor_of token.old) vcpu (guest_of self.new) result }
        ensures leaves { Leaves (guest_of self.old) token.old (told_of_turn (processor_of token.old) vcpu result) (guest_of self.new) token.new }
    {
        acts_are_at_hand();
        let processor = token.number();
        match self.course.act_hurdle(vcpu, act) {
            Hurdle::Waits(page) => {
                if self.course.is_own_read(vcpu, act, page) {
                    self.end_read(token, vcpu, act, page, resources);
                    return Ok(Turn::Stepped(None));
                }
                Ok(self.meet(processor, vcpu, page, resources))
            }
            Hurdle::Needs(page, kind) => {
                if let Some(shared) = self.share_first(alloc, processor, vcpu, act, resources)? {
                    return Ok(Turn::Begun(shared));
                }
                self.begin_read(processor, vcpu, act, page, kind);
                Ok(Turn::Begun(page))
            }
            Hurdle::Free => {
                if let Some(shared) = self.share_first(alloc, processor, vcpu, act, resources)? {
                    return Ok(Turn::Begun(shared));
                }
                self.carry_out(rt, alloc, token, vcpu, act, resources)?;
                Ok(Turn::Stepped(None))
            }
        }
    }

    /// Serves the trap of a virtual processor that runs.
    #[cold]
    #[inline(never)]
    pub(crate) fn trapped<R: Wait>(
        &mut self,
        rt: &R,
        alloc: Global,
        token: &mut ProcToken,
        vcpu: VcpuId,
        resources: &Resources,
        cause: TrapCause,
    ) -> Result<Turn, AllocError>
        requires kept { IsKept self.old }
        requires may { MayCall (guest_of self.old) token.old }
        requires room { 2 ≤ (guest_of self.old).room }
        requires shared { AreOf (shared_by resources.now) (guest_of self.old) }
        requires loaded { (processor_at (guest_of self.old).state token.old.number).loaded ≡ Some vcpu.0 }
        requires runs { MayRun (guest_of self.old).state vcpu.0 }
        requires acts { MayAct (guest_of self.old).state token.old.number }
        requires rest { IsAtRest (guest_of self.old).state token.old.number }
        requires traps { TrapsFor (guest_of self.old).state token.old.number vcpu.0 cause }
        ensures kept { IsKept self.new }
        ensures turns { Turns (shared_by resources.now) (guest_of self.old) (processor_of token.old) vcpu (guest_of self.new) result }
        ensures leaves { Leaves (guest_of self.old) token.old (told_of_turn (processor_of token.old) vcpu result) (guest_of self.new) token.new }
    {
        exchanges();
        uses_change();
        laws();
        run_grows();
        let processor = token.number();
        match self.course.serve(processor, vcpu, cause) {
            Entry::Refill => {
                self.journal.push(Event::Refill(processor));
                Ok(Turn::Refilled)
            }
            Entry::Emulate => {
                conclude(
                    &mut self.course,
                    &mut self.holder,
                    &mut self.uses,
                    resources.table,
                    &mut self.journal,
                    processor,
                    vcpu,
                );
                let entry = Event::Emulate(processor, vcpu);
                note(token, &mut self.seat, Note::Made(entry));
                Ok(Turn::Stepped(None))
            }
            Entry::Waits(page) => Ok(self.meet(processor, vcpu, page, resources)),
            Entry::Needs(page, kind) => {
                self.begin_store(processor, vcpu, page, kind);
                Ok(Turn::Begun(page))
            }
            Entry::Lost(page) => {
                self.begin_lost(processor, vcpu, page);
                Ok(Turn::Begun(page))
            }
            Entry::Left(act) => self.act(rt, alloc, token, vcpu, act, resources),
        }
    }

    /// The next entry of a virtual processor that runs.
    fn enter<R: Wait>(
        &mut self,
        rt: &R,
        alloc: Global,
        token: &mut ProcToken,
        vcpu: VcpuId,
        resources: &Resources,
    ) -> Result<Turn, AllocError>
        requires kept { IsKept self.old }
        requires may { MayCall (guest_of self.old) token.old }
        requires room { 2 ≤ (guest_of self.old).room }
        requires shared { AreOf (shared_by resources.now) (guest_of self.old) }
        requires loaded { (processor_at (guest_of self.old).state token.old.number).loaded ≡ Some vcpu.0 }
        requires runs { MayRun (guest_of self.old).state vcpu.0 }
        requires acts { MayAct (guest_of self.old).state token.old.number }
        requires rest { IsAtRest (guest_of self.old).state token.old.number }
        ensures kept { IsKept self.new }
        ensures turns { Turns (shared_by resources.now) (guest_of self.old) (processor_of token.old) vcpu (guest_of self.new) result }
        ensures leaves { Leaves (guest_of self.old) token.old (told_of_turn (processor_of token.old) vcpu result) (guest_of self.new) token.new }
    {
        exchanges();
        uses_change();
        laws();
        let processor = token.number();
        match self.course.step(processor, vcpu) {
            HwStep::Direct(access) => {
                self.journal.push_direct(processor, vcpu);
                let entry = Event::Direct(processor, vcpu);
                note(token, &mut self.seat, Note::Made(entry));
                Ok(Turn::Stepped(Some(access)))
            }
            HwStep::Trap(cause) => self.trapped(rt, alloc, token, vcpu, resources, cause),
        }
    }

    /// The virtual processor that is loaded on the token's processor has its turn.
    pub(crate) fn turn<R: Wait>(
        &mut self,
        rt: &R,
        alloc: Global,
        token: &mut ProcToken,
        resources: &Resources,
    ) -> Result<Turn, AllocError>
        requires kept { IsKept self.old }
        requires may { MayCall (guest_of self.old) token.old }
        requires room { 2 ≤ (guest_of self.old).room }
        requires shared { AreOf (shared_by resources.now) (guest_of self.old) }
        requires loaded { (processor_at (guest_of self.old).state token.old.number).loaded ≢ None }
        requires acts { MayAct (guest_of self.old).state token.old.number }
        ensures kept { IsKept self.new }
        ensures turns { Turns (shared_by resources.now) (guest_of self.old) (processor_of token.old) (loaded_on (guest_of self.old) token.old) (guest_of self.new) result }
        ensures leaves { Leaves (guest_of self.old) token.old (told_of_turn (processor_of token.old) (loaded_on (guest_of self.old) token.old) result) (guest_of self.new) token.new }
    {
        laws();
        if let Some(end) = self.course.ended {
            note(token, &mut self.seat, Note::Ended(end));
            return Ok(Turn::GuestEnded(end));
        }
        match self.course.errand(token.number()) {
            Errand::Acknowledge(page) => {
                self.acknowledge(token.number(), page);
                return Ok(Turn::Acked(page));
            }
            Errand::Finish(page) => {
                self.finish(page, resources);
                return Ok(Turn::Finished(page));
            }
            Errand::Nothing => {}
        }
        let Some(vcpu) = self.course.loaded(token.number()) else {
            unreachable!();
        };
        if self.course.vcpus[vcpu.0 as usize].halted {
            note(token, &mut self.seat, Note::Halted(vcpu));
            return Ok(Turn::VcpuHalted);
        }
        self.enter(rt, alloc, token, vcpu, resources)
    }
}
