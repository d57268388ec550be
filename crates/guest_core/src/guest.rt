//! A guest under the monitor, whose journal is a run from its start.
ghost use Rattle.std.specs.Prelude.{◌≡◌, ◌≢◌, ◌↔◌, ℕ, ◌≤◌, ◌<◌, ◌+◌, [], ◌∷◌, ◌++◌, length, None, Some, All, IfOk, IfSome, IsTrue, OnOk};
ghost use Rattle.base_words.specs.Limits.{most_cells, most_processors};
ghost use Rattle.std.specs.Bool.{OnTrue, OnFalse};
ghost use Rattle.shootdown.specs.declared.view.SidedNote.{SidedNote};
ghost use Rattle.base_words.specs.declared.events.Event.TheVariants.{Unload, End as Ending};
ghost use Rattle.base_words.specs.declared.events.End.TheVariants.{Budget};
ghost use Rattle.shootdown.specs.declared.notes.Note.TheVariants.{Made};
ghost use Rattle.shootdown.specs.Notes.{with_side};
ghost use Rattle.isolation_law.specs.CellUse.{uses as uses_cell};
ghost use Rattle.isolation_law.specs.Surroundings.{home_cell};
ghost use Rattle.isolation_law.specs.GuestState.{due_on, processor as processor_at};
ghost use Rattle.isolation_law.specs.Phases.{MayAct};
ghost use Rattle.guest_core.specs.Starting.{booted_with, MayStart};
ghost use Rattle.guest_core.specs.Holding.{HasFrames, HoldsFor};
ghost use Rattle.guest_core.specs.GuestView.{IsAtStart, IsSameGuest, AreOf, shared_by};
ghost use Rattle.guest_core.specs.Noting.{IsNoted, shows_loaded};
ghost use Rattle.guest_core.specs.FailCalls.{FailsCell, told_of_failure};
ghost use Rattle.guest_core.specs.GuestCalls.{Leaves, LoadsVcpu, told_of_load, MayNote, MayCall, TurnsAhead, processor_of, loaded_on, Turns, told_of_turn};
ghost use Rattle.guest_core.specs.Making.{Makes, MakesAlone, Stays};
ghost use Rattle.guest_course.specs.Errands.{MustWait};
ghost use Rattle.guest_core.specs.AskCalls.{IsAsked};
ghost use Rattle.guest_core.specs.MoveCalls.{finishing, EndsByPlan, FinishesReady, MayAsk, StillActs};
ghost use Rattle.guest_core.specs.PacketCalls.{IsArmed, KeepsEnds, SameSends, TakesPacket};
ghost use Rattle.guest_core.specs.Records.{IsRecord};
ghost use Rattle.guest_core.specs.Wiring.{IsWired, Posted};
ghost use Rattle.guest_course.specs.CourseView.{due_of, surroundings};
ghost use Rattle.guest_course.specs.SkipView.{wanting};
ghost use Rattle.wire_queue.specs.ListSteps.{HasTaken};
ghost use Rattle.wire_queue.specs.PassLists.{IsUnused};

use crate::parts::Parts;
use crate::{Ahead, Asked, Fate, GuestRecord, Loaded, Packeted, Ready, Resources, Turn};
use base_words::{CellId, End, FrameList, InputList, MoveKind, NodeId, Ppn, ProcId, VcpuId};
use cow_disk::Disk;
use elf_image::Image;
use frame_words::Holder;
use guest_course::{Around, Wish};
use shootdown::{GuestSeat, ProcToken};
use std::alloc::{AllocError, Global};
use std::marker::Model;
use std::sync::Wait;
use wire_queue::{PassList, Wires};

/// A guest. Contracts see its number, what it was started from, its state and journal, its seat's notes, what its holder holds, its
/// ends of the wires, and the room that was made.
#[derive(Drop)]
pub struct Guest {
    parts: Parts,
}

impl Model for Guest {
    ghost use Rattle.guest_core.specs.GuestView.{Monitored};

    ghost Value = { Monitored };

    ghost use Rattle.guest_core.specs.GuestView.{guest_of};
    ghost use Rattle.guest_core.specs.Kept.{IsKept};

    ghost view = { λ g. guest_of g.parts };

    ghost invariant = { λ g. IsKept g.parts };
}

impl Guest {
    /// The guest of this seat, at its start: so many virtual processors, of which none is loaded, and the image's pages, each in the
    /// next of these frames, with this disk. The holder holds these frames, with a loan for each that lies outside the home cell,
    /// and these are its ends of the wires, of which none was used.
    pub fn boot(
        alloc: Global,
        image: Image,
        around: Around,
        vcpus: u8,
        input: &InputList,
        frames: FrameList,
        disk: Disk,
        holder: Holder,
        seat: GuestSeat,
        wires: &Wires,
        passes: PassList,
    ) -> Result<Self, AllocError>
        requires may { MayStart around image vcpus frames disk }
        requires holds { HoldsFor (booted_with around image vcpus frames disk input.now) holder.view }
        requires no_notes { seat.notes ≡ [] }
        requires wired { IsWired wires.now passes (surroundings around) }
        requires unused { IsUnused passes }
        ensures { IfOk result (λ g. IsAtStart seat.number (booted_with around image vcpus frames disk input.now) around.disk seat.board holder.table wires.now passes g) }
    {
        Ok(Guest {
            parts: Parts::boot(
                alloc, image, around, vcpus, input, frames, disk, holder, seat, wires, passes,
            )?,
        })
    }

    /// How the guest ended; None exactly where it hasn't. Its holder holds what the guest does, and nothing once it has ended.
    #[inline]
    pub fn end(&self) -> Option<End>
        ensures end { result ≡ self.now.state.end }
        ensures frames { HasFrames self.now.state self.now.view }
    {
        self.parts.course.ended
    }

    /// Whether the guest uses a cell: it holds a frame that lies on a node of the cell, or a virtual processor of it is loaded on a
    /// processor of the cell. A guest that has ended uses none, though something may be loaded still. It counts nothing anew.
    #[inline]
    pub fn uses(&self, cell: CellId) -> bool
        requires { cell.0 < most_cells }
        ensures { result ≡ uses_cell self.now.state cell.0 }
    {
        self.parts.uses(cell)
    }

    /// Makes room for one further call. A refusal changes nothing but what room there is.
    #[inline]
    pub fn make_room(&mut self) -> Result<(), AllocError>
        ensures same { IsSameGuest self.old self.new }
        ensures stays { Stays self.old self.new }
        ensures notes { self.new.notes ≡ self.old.notes }
        ensures passes { self.new.passes ≡ self.old.passes }
        ensures handed { self.new.handed ≡ self.old.handed }
        ensures room { OnOk result (2 ≤ self.new.room) }
    {
        self.parts.make_room()
    }

    /// Tells that what a token noted of this guest is what the guest's seat noted of the token's processor, that it shows what is loaded
    /// there, and that nothing is due where nothing is loaded.
    #[inline]
    pub fn agree(&mut self, token: &mut ProcToken)
        requires { MayNote self.old token.old }
        ensures same { (self.new ≡ self.old) × (token.new ≡ token.old) }
        ensures notes { with_side self.old.number token.old.notes ≡ with_side token.old.number self.old.notes }
        ensures loaded { shows_loaded (with_side self.old.number token.old.notes) ≡ (processor_at self.old.state token.old.number).loaded }
        ensures lapsed { (processor_at self.old.state token.old.number).loaded ≡ None → due_on self.old.state token.old.number ≡ None }
    {
        self.parts.agree(token);
    }

    /// Tells that the notes of the guest's seat show what is loaded on each of its processors.
    #[inline]
    pub fn tells_loaded(&self)
        ensures { (p : ℕ) → p < length self.now.start.around.processors → shows_loaded (with_side p self.now.notes) ≡ (processor_at self.now.state p).loaded }
    {
        self.parts.tells_loaded();
    }

    /// Loads a virtual processor on the token's processor, on which nothing is loaded. `Ended` exactly where the guest has ended; else
    /// `Dead` exactly where the processor's cell has failed, which it names; else `On` exactly where it is loaded already, on that processor.
    pub fn load_vcpu(&mut self, token: &mut ProcToken, vcpu: VcpuId) -> Loaded
        requires may { MayCall self.old token.old }
        requires room { 2 ≤ self.old.room }
        requires vcpu { vcpu.0 < self.old.start.vcpus }
        requires free { (processor_at self.old.state token.old.number).loaded ≡ None }
        ensures loads { LoadsVcpu self.old (processor_of token.old) vcpu self.new result }
        ensures leaves { Leaves self.old token.old (told_of_load (processor_of token.old) vcpu result) self.new token.new }
    {
        self.parts.load_vcpu(token, vcpu)
    }

    /// Unloads what is loaded on the token's processor. It needs no room.
    pub fn unload(&mut self, token: &mut ProcToken)
        requires may { MayCall self.old token.old }
        requires loaded { (processor_at self.old.state token.old.number).loaded ≢ None }
        ensures makes { MakesAlone self.old (Unload (processor_of token.old) ∷ []) self.new }
        ensures leaves { Leaves self.old token.old (Made (Unload (processor_of token.old)) ∷ []) self.new token.new }
        ensures room { self.old.room ≤ self.new.room }
    {
        self.parts.unload(token);
    }

    /// The policy's choice that is due on a processor, which the processor has to ask for before its next turn; None exactly where there is
    /// none. It may be asked for.
    #[inline]
    pub fn due(&self, processor: ProcId) -> Option<Wish>
        requires { processor.0 < length self.now.start.around.processors }
        ensures due { due_of result ≡ due_on self.now.state processor.0 }
        ensures may { (wish : Wish) → result ≡ Some wish → MayAsk self.now (wanting wish) }
    {
        self.parts.due(processor)
    }

    /// The virtual processor that is loaded on the token's processor has its turn, where no choice of the policy is due on it but of a page
    /// with a move: `GuestEnded` exactly where the guest has ended; else
    /// `Acked` where a page waits for the processor, with the lowest one; else `Finished` where a move waits for nobody, with the lowest page
    /// that has one; else `VcpuHalted` exactly where it has halted; else one step of its own or one refill, or what the step meets of moves:
    /// `Waits` where its page has one, `Begun` where the page needs one first. What a step sends to another guest is put on their
    /// wire, or lost where that is full. Want of memory comes only at a send that is made or a disk write that is carried out, and then no
    /// entry was made. The step that halts the last virtual processor ends the guest, which gives all its frames back.
    pub fn turn<R: Wait>(
        &mut self,
        rt: &R,
        alloc: Global,
        token: &mut ProcToken,
        resources: &Resources,
    ) -> Result<Turn, AllocError>
        requires may { MayCall self.old token.old }
        requires room { 2 ≤ self.old.room }
        requires shared { AreOf (shared_by resources.now) self.old }
        requires loaded { (processor_at self.old.state token.old.number).loaded ≢ None }
        requires acts { MayAct self.old.state token.old.number }
        ensures turns { Turns (shared_by resources.now) self.old (processor_of token.old) (loaded_on self.old token.old) self.new result }
        ensures leaves { Leaves self.old token.old (told_of_turn (processor_of token.old) (loaded_on self.old token.old) result) self.new token.new }
    {
        self.parts.turn(rt, alloc, token, resources)
    }

    /// Makes steps of the virtual processor that is loaded on the token's processor, at most so many, while each is one that the processor
    /// makes by itself and nothing else comes first; and the turn of the first one that traps, once there is room for it.
    pub fn turns_ahead<R: Wait>(
        &mut self,
        rt: &R,
        alloc: Global,
        token: &mut ProcToken,
        resources: &Resources,
        most: u64,
    ) -> Ahead
        requires may { MayCall self.old token.old }
        requires room { 2 ≤ self.old.room }
        requires shared { AreOf (shared_by resources.now) self.old }
        requires loaded { (processor_at self.old.state token.old.number).loaded ≢ None }
        requires acts { MayAct self.old.state token.old.number }
        ensures few { result.steps ≤ most }
        ensures fewer { IfSome result.turn (λ _. result.steps < most) }
        ensures ahead { TurnsAhead (shared_by resources.now) self.old token.old (loaded_on self.old token.old) result self.new token.new }
    {
        self.parts.turns_ahead(rt, alloc, token, resources, most)
    }

    /// A move of a page is asked for through the token's processor: by the policy, where just that is due there, and else by the plan. `Busy` exactly where the guest hasn't ended and the page has a move;
    /// else `Skipped` where a cause keeps it from being begun, of which the first is noted with what was asked for, or where the node has no
    /// frame for it, which is noted with what the node showed; else it begins. Want of memory comes only where a frame is sought, and then
    /// nothing has changed.
    pub fn ask_move(
        &mut self,
        alloc: Global,
        token: &mut ProcToken,
        page: Ppn,
        kind: MoveKind,
        node: NodeId,
        resources: &Resources,
    ) -> Result<Asked, AllocError>
        requires may { MayCall self.old token.old }
        requires room { 2 ≤ self.old.room }
        requires shared { AreOf (shared_by resources.now) self.old }
        requires may_ask { MayAsk self.old (record { page = page.0; kind = kind; node = node.0 }) }
        ensures { IsAsked resources.now.table.now.terms.lends (home_cell self.old.start.around) self.old token.old (record { page = page.0; kind = kind; node = node.0 }) self.new token.new result }
    {
        self.parts
            .ask_move(alloc, token, page, kind, node, resources)
    }

    /// Finishes the move of a page where nobody waits for it any more. It takes no memory and needs no room.
    pub fn finish_ready(&mut self, page: Ppn, resources: &Resources) -> Ready
        requires { AreOf (shared_by resources.now) self.old }
        ensures finishes { FinishesReady self.old page self.new result }
        ensures handed { self.new.handed ≡ self.old.handed }
        ensures notes { self.new.notes ≡ self.old.notes }
        ensures same { IsSameGuest self.old self.new }
        ensures room { self.old.room ≤ self.new.room }
    {
        self.parts.finish_ready(page, resources)
    }

    /// Whether a processor has to wait for the move of a page: the guest hasn't ended, the page has a move that waits for some processor, and no
    /// page waits for this one.
    pub fn must_wait(&self, processor: ProcId, page: Ppn) -> bool
        requires { processor.0 < most_processors }
        ensures { IsTrue result ↔ MustWait self.now.state processor.0 page.0 }
    {
        self.parts.must_wait(processor, page)
    }

    /// Whether the guest hasn't ended and a page is armed, so that a packet may come in.
    #[inline]
    pub fn is_armed(&self) -> bool
        ensures yes { OnTrue result (IsArmed self.now) }
        ensures no { OnFalse result (IsArmed self.now → ⊥) }
    {
        self.parts.is_armed()
    }

    /// Takes the next packet in hand where the guest hasn't ended, a page is armed, and none is in hand, and copies the one in hand into
    /// that page, or begins, finishes or waits for the move that is in its way. A packet whose cell has failed is thrown away. Memory is wanted for the copy that is kept of it; it stays in hand then. It may wait for a wire.
    #[inline]
    pub fn packet_in<R: Wait>(
        &mut self,
        rt: &R,
        alloc: Global,
        resources: &Resources,
    ) -> Result<Packeted, AllocError>
        requires room { 2 ≤ self.old.room }
        requires shared { AreOf (shared_by resources.now) self.old }
        ensures takes { TakesPacket self.old self.new result }
        ensures sends { SameSends self.old.passes self.new.passes }
        ensures acts { StillActs self.old self.new }
        ensures same { IsSameGuest self.old self.new }
        ensures room { self.old.room ≤ self.new.room + 2 }
    {
        self.parts.packet_in(rt, alloc, resources)
    }

    /// Whether this guest has taken all that the wire from another guest accepted. It takes no memory, and may wait for the wire.
    pub fn drained<R: Wait>(&mut self, rt: &R, from: &mut Guest, resources: &Resources) -> bool
        requires wires { (self.old.wires ≡ resources.now.wires.now) × (from.old.wires ≡ resources.now.wires.now) }
        requires other { from.old.passes.guest.0 ≢ self.old.passes.guest.0 }
        ensures answer { HasTaken self.old.passes from.old.passes result }
        ensures stays { KeepsEnds self.old self.new × KeepsEnds from.old from.new }
    {
        self.parts.drained(rt, &mut from.parts, resources)
    }

    /// A cell fails. `WasDead` exactly where it had failed for the guest already, which is as it was; else `WasEnded` exactly where the guest
    /// has ended; else `Ends` exactly where the guest uses the cell: it ends by it, and gives all its frames back; else `Stays`: it goes on.
    /// It takes no memory.
    pub fn cell_fails(&mut self, token: &mut ProcToken, cell: CellId, resources: &Resources) -> Fate
        requires may { MayCall self.old token.old }
        requires room { 2 ≤ self.old.room }
        requires shared { AreOf (shared_by resources.now) self.old }
        requires cell { cell.0 < most_cells }
        ensures fails { FailsCell self.old cell self.new result }
        ensures leaves { Leaves self.old token.old (told_of_failure cell self.old.state.end result) self.new token.new }
    {
        self.parts.cell_fails(token, cell, resources)
    }

    /// Ends a guest that hasn't ended, since the plan is done, once each move is finished for which nobody waits, in order of the pages. It
    /// gives all its frames back; pages that are being taken shared still are let go before.
    pub fn end_budget(&mut self, resources: &Resources)
        requires room { 2 ≤ self.old.room }
        requires shared { AreOf (shared_by resources.now) self.old }
        requires not_ended { self.old.state.end ≡ None }
        ensures ends { EndsByPlan self.old self.new }
        ensures notes { self.new.notes ≡ self.old.notes }
        ensures passes { self.new.passes ≡ self.old.passes }
        ensures same { IsSameGuest self.old self.new }
    {
        self.parts.end_budget(resources);
    }

    /// What a guest that has ended leaves: its record, its holder, which holds nothing, its ends of the wires, and its seat with its
    /// notes.
    pub fn into_record(self) -> (GuestRecord, Holder, PassList, GuestSeat)
        requires { self.state.end ≢ None }
        ensures left { IsRecord self.start self.state result.0 }
        ensures journal { result.0.journal.entries ≡ self.journal }
        ensures table { result.1.table ≡ self.table }
        ensures given_back { result.1.view.holds ≡ [] }
        ensures passes { result.2 ≡ self.passes }
        ensures wired { IsWired self.wires self.passes self.start.around }
        ensures posted { Posted self.state self.journal self.passes }
        ensures seat { result.3 ≡ record { board = self.board; number = self.number; notes = self.notes } }
        ensures sides { All (λ (n : SidedNote). n.side < length self.start.around.processors) self.notes }
        ensures notes { IsNoted self.state self.journal self.notes }
    {
        self.parts.into_record()
    }
}
