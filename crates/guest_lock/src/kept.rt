//! What lies under a guest's lock.
ghost use Rattle.std.specs.Prelude.{◌≡◌, ◌≢◌, ◌⊎◌, ◌<◌, ◌≤◌, ◌∷◌, [], None, Some, OnOk, length, slice_get, List};
ghost use Rattle.std.specs.Bool.{OnTrue};
ghost use Rattle.base_words.specs.declared.events.End.TheVariants.{Budget};
ghost use Rattle.base_words.specs.declared.events.Event.TheVariants.{Unload};
ghost use Rattle.shootdown.specs.declared.notes.Note.TheVariants.{Made};
ghost use Rattle.guest_core.specs.GuestView.{AreOf, shared_by};
ghost use Rattle.guest_core.specs.GuestCalls.{processor_of, told_of_turn};
ghost use Rattle.guest_lock.specs.declared.burst.Stop.TheVariants.{Paused};
ghost use Rattle.isolation_law.specs.GuestState.{due_on};
ghost use Rattle.isolation_law.specs.Start.{Boot};
ghost use Rattle.isolation_law.specs.Phases.{MayAct};
ghost use Rattle.guest_course.specs.SkipView.{wanting};
ghost use Rattle.guest_core.specs.MoveCalls.{told_of_ask, MayAsk, StillActs};
ghost use Rattle.guest_lock.specs.Counted.{none_made};
ghost use Rattle.guest_lock.specs.Fits.{Fits, HasVcpu, MayAskOf};
ghost use Rattle.guest_lock.specs.Receiving.{HasCalled, HasCalledOften};
ghost use Rattle.guest_lock.specs.Told.{with_told, shown, vcpu_shown, told_of_loading, AreInStep, Bursts, NamesCell};
ghost use Rattle.base_words.specs.Limits.{most_cells};
ghost use Rattle.shootdown.specs.declared.notes.Note.{Note};
ghost use Rattle.guest_lock.specs.Fates.{IsToldFailing};

use crate::Starts;
use crate::burst::{BURST_TURNS, Burst, Stop};
use base_words::{CellId, MoveKind, NodeId, Ppn, ProcId, VcpuId};
use guest_core::{Ahead, Asked, Fate, Guest, Loaded, Packeted, Resources, Turn};
use guest_course::Wish;
use outside_io::{Gate, GatePoint};
use shootdown::ProcToken;
use std::alloc::{AllocError, Global};
use std::marker::PhantomData;
use std::sync::Wait;

/// The guest of that number of the run that `N` names. It hasn't ended for the end of the plan.
#[derive(Drop)]
pub(crate) struct Kept<N: Starts, const G: u8> {
    pub(crate) guest: Guest,
    /// Whether something has changed since, for which a processor may wait.
    pub(crate) moved: bool,
    pub(crate) of: PhantomData<N>,
    ghost number_is: { guest.number ≡ G },
    ghost start_is: { slice_get N.starts G ≡ Some guest.start },
    ghost board_is: { guest.board ≡ N.board },
    ghost shared_is: { AreOf N.shared guest },
    ghost own_is: { guest.passes.guest.0 ≡ G },
    ghost goes_on: { guest.state.end ≢ Some Budget },
}

/// A packet is asked for so often before a turn at most: where moves are in its way, two may have to end and one to begin before it comes
/// in or waits.
const PACKET_CALLS: u64 = 4;

/// Whether a processor may have waited for what a turn did: it acknowledged, began or finished a move, or found that the guest had ended. A
/// step that halts the last virtual processor ends the guest, too, which its next turn finds.
#[inline]
fn changes_moves(turn: &Result<Turn, AllocError>) -> bool {
    match turn {
        Ok(Turn::Acked(_) | Turn::Begun(_) | Turn::Finished(_) | Turn::GuestEnded(_)) => true,
        Ok(Turn::Stepped(_) | Turn::Refilled | Turn::Waits(..) | Turn::VcpuHalted) => false,
        Err(_) => false,
    }
}

impl<N: Starts, const G: u8> Kept<N, G> {
    /// Makes room, and loads a virtual processor on the token's processor.
    pub(crate) fn load(&mut self, token: &mut ProcToken, vcpu: VcpuId) -> Result<Loaded, AllocError>
        requires token { Fits N.starts N.board token.old }
        requires vcpu { HasVcpu N.starts G vcpu.0 }
        requires free { shown G token.old ≡ None }
        ensures told { token.new ≡ with_told token.old G (told_of_loading (processor_of token.old) vcpu result) }
        ensures cell { NamesCell N.starts G token.old.number result }
    {
        self.guest.make_room()?;
        self.guest.agree(token);
        Ok(self.guest.load_vcpu(token, vcpu))
    }

    /// Unloads what is loaded on the token's processor.
    pub(crate) fn unload(&mut self, token: &mut ProcToken)
        requires token { Fits N.starts N.board token.old }
        requires loaded { shown G token.old ≢ None }
        ensures { token.new ≡ with_told token.old G (Made (Unload (processor_of token.old)) ∷ []) }
    {
        self.guest.agree(token);
        self.guest.unload(token);
    }

    /// A packet may come into the page that is armed, once. There is room for a call then.
    fn receive_once<R: Wait>(
        &mut self,
        rt: &R,
        alloc: Global,
        resources: &Resources,
    ) -> Result<Packeted, AllocError>
        requires room { 2 ≤ self.old.guest.room }
        requires shared { shared_by resources.now ≡ N.shared }
        ensures called { HasCalled self.old.guest self.new.guest }
        ensures room { OnOk result (2 ≤ self.new.guest.room) }
        ensures notes { self.new.guest.notes ≡ self.old.guest.notes }
        ensures acts { StillActs self.old.guest self.new.guest }
    {
        let packeted = self.guest.packet_in(rt, alloc, resources)?;
        self.guest.make_room()?;
        Ok(packeted)
    }

    /// A packet may come into the page that is armed, once the moves are begun and finished that are in its way. There is room for a turn
    /// then.
    #[cold]
    #[inline(never)]
    fn receive<R: Wait>(
        &mut self,
        rt: &R,
        alloc: Global,
        resources: &Resources,
    ) -> Result<(), AllocError>
        requires room { 2 ≤ self.old.guest.room }
        requires shared { shared_by resources.now ≡ N.shared }
        ensures called { HasCalledOften self.old.guest self.new.guest }
        ensures room { OnOk result (2 ≤ self.new.guest.room) }
        ensures notes { self.new.guest.notes ≡ self.old.guest.notes }
        ensures acts { StillActs self.old.guest self.new.guest }
    {
        for _call in 0..PACKET_CALLS {
            match self.receive_once(rt, alloc, resources)? {
                Packeted::Begun(_) | Packeted::Finished(_) => self.moved = true,
                Packeted::Delivered
                | Packeted::Discarded(_)
                | Packeted::Waits(..)
                | Packeted::NoneInHand
                | Packeted::NotArmed => break,
            }
        }
        Ok(())
    }

    /// Asks for the move that the policy chose and that is due on the token's processor, of which the token is told nothing. The processor
    /// may act then, and there is room for a call.
    #[cold]
    #[inline(never)]
    fn ask_due(
        &mut self,
        alloc: Global,
        token: &mut ProcToken,
        wish: Wish,
        resources: &Resources,
    ) -> Result<(), AllocError>
        requires token { Fits N.starts N.board token.old }
        requires room { 2 ≤ self.old.guest.room }
        requires shared { shared_by resources.now ≡ N.shared }
        requires due { due_on self.old.guest.state token.old.number ≡ Some (wanting wish) }
        requires may { MayAsk self.old.guest (wanting wish) }
        ensures acts { OnOk result (MayAct self.new.guest.state token.old.number) }
        ensures room { OnOk result (2 ≤ self.new.guest.room) }
        ensures notes { self.new.guest.notes ≡ self.old.guest.notes }
        ensures same { token.new ≡ token.old }
    {
        let Wish { page, kind, node } = wish;
        let asked = self
            .guest
            .ask_move(alloc, token, page, kind, node, resources)?;
        if asked == Asked::Begun {
            self.moved = true;
        }
        self.guest.make_room()
    }

    /// Whether nothing is to be done before a turn of a processor: nothing is due on it by the policy, and no packet may come in.
    #[inline]
    fn is_quiet(&self, processor: ProcId) -> bool
        requires { (b : Boot) → slice_get N.starts G ≡ Some b → processor.0 < length b.around.processors }
        ensures { OnTrue result (MayAct self.now.guest.state processor.0) }
    {
        self.guest.due(processor).is_none() && !self.guest.is_armed()
    }

    /// What is due on the token's processor by the policy is asked for, and a packet may come in, each once there is room for it. There is
    /// room for a turn then, and the processor may act.
    #[cold]
    #[inline(never)]
    fn prepare<R: Wait>(
        &mut self,
        rt: &R,
        alloc: Global,
        token: &mut ProcToken,
        resources: &Resources,
    ) -> Result<(), AllocError>
        requires token { Fits N.starts N.board token.old }
        requires room { 2 ≤ self.old.guest.room }
        requires shared { shared_by resources.now ≡ N.shared }
        ensures acts { OnOk result (MayAct self.new.guest.state token.old.number) }
        ensures room { OnOk result (2 ≤ self.new.guest.room) }
        ensures notes { self.new.guest.notes ≡ self.old.guest.notes }
        ensures same { token.new ≡ token.old }
    {
        if let Some(wish) = self.guest.due(token.number()) {
            self.ask_due(alloc, token, wish, resources)?;
        }
        self.receive(rt, alloc, resources)
    }

    /// Asks for a move of a page by the plan, with nothing loaded on the token's processor.
    pub(crate) fn ask(
        &mut self,
        alloc: Global,
        token: &mut ProcToken,
        page: Ppn,
        kind: MoveKind,
        node: NodeId,
        resources: &Resources,
    ) -> Result<Asked, AllocError>
        requires token { Fits N.starts N.board token.old }
        requires may { MayAskOf N.starts G (record { page = page.0; kind = kind; node = node.0 }) }
        requires free { shown G token.old ≡ None }
        requires shared { shared_by resources.now ≡ N.shared }
        ensures { token.new ≡ with_told token.old G (told_of_ask (record { page = page.0; kind = kind; node = node.0 }) result) }
    {
        self.guest.make_room()?;
        self.guest.agree(token);
        self.guest
            .ask_move(alloc, token, page, kind, node, resources)
    }

    /// Makes room, and a cell fails for the guest.
    pub(crate) fn fail(
        &mut self,
        token: &mut ProcToken,
        cell: CellId,
        resources: &Resources,
    ) -> Result<Fate, AllocError>
        requires token { Fits N.starts N.board token.old }
        requires cell { cell.0 < most_cells }
        requires shared { shared_by resources.now ≡ N.shared }
        ensures { (told : List Note) × IsToldFailing cell result told × (token.new ≡ with_told token.old G told) }
    {
        self.guest.make_room()?;
        self.guest.agree(token);
        Ok(self.guest.cell_fails(token, cell, resources))
    }

    /// Whether something has changed since the last call of this, for which a processor may wait.
    #[inline]
    pub(crate) fn take_moved(&mut self) -> bool
        ensures { self.new.guest ≡ self.old.guest }
    {
        let moved = self.moved;
        self.moved = false;
        moved
    }

    /// Notes that something has changed, where a turn did what a processor may have waited for.
    #[inline]
    fn mark(&mut self, turn: &Result<Turn, AllocError>)
        ensures { self.new.guest ≡ self.old.guest }
    {
        if changes_moves(turn) {
            self.moved = true;
        }
    }

    /// Notes that something has changed, where the turn that came ahead did.
    #[inline]
    fn mark_ahead(&mut self, ahead: &Ahead)
        ensures { self.new.guest ≡ self.old.guest }
    {
        if let Some(turn) = &ahead.turn {
            self.mark(turn);
        }
    }

    /// Tells that what the token noted of the guest is what the guest's seat noted of the token's processor.
    #[inline]
    pub(crate) fn agree(&mut self, token: &mut ProcToken)
        requires token { Fits N.starts N.board token.old }
        ensures in_step { AreInStep token.new self.new.guest }
        ensures same { token.new ≡ token.old }
    {
        self.guest.agree(token);
    }

    /// Passes the gate, asks for what is due by the policy, lets a packet come, and makes a turn of what is loaded on the token's processor,
    /// each once there is room for it.
    #[inline]
    pub(crate) fn turn<R: Wait, T: Gate>(
        &mut self,
        rt: &R,
        alloc: Global,
        token: &mut ProcToken,
        resources: &Resources,
        gate: &T,
        at: GatePoint,
    ) -> Result<Turn, AllocError>
        requires token { Fits N.starts N.board token.old }
        requires in_step { AreInStep token.old self.old.guest }
        requires loaded { shown G token.old ≢ None }
        requires shared { shared_by resources.now ≡ N.shared }
        ensures told { token.new ≡ with_told token.old G (told_of_turn (processor_of token.old) (vcpu_shown G token.old) result) }
        ensures in_step { AreInStep token.new self.new.guest }
    {
        gate.pass(at);
        self.guest.make_room()?;
        if !self.is_quiet(token.number()) {
            self.prepare(rt, alloc, token, resources)?;
        }
        self.guest.tells_loaded();
        let turn = self.guest.turn(rt, alloc, token, resources);
        self.mark(&turn);
        turn
    }

    /// Makes steps of what is loaded on the token's processor, at most so many, while each is one that the processor makes by itself and
    /// nothing else comes first, neither the gate, and the turn of the first one that traps.
    fn turns_ahead<R: Wait, T: Gate>(
        &mut self,
        rt: &R,
        alloc: Global,
        token: &mut ProcToken,
        resources: &Resources,
        gate: &T,
        most: u64,
    ) -> Burst
        requires token { Fits N.starts N.board token.old }
        requires in_step { AreInStep token.old self.old.guest }
        requires loaded { shown G token.old ≢ None }
        requires shared { shared_by resources.now ≡ N.shared }
        requires most { most ≤ BURST_TURNS }
        ensures few { result.steps ≤ most }
        ensures turns { result.turns ≤ most }
        ensures fewer { result.steps ≤ result.turns }
        ensures none { result.turns ≡ 0 → result ≡ none_made }
        ensures told { Bursts token.old G result token.new }
        ensures in_step { AreInStep token.new self.new.guest }
    {
        if !gate.is_free() || self.guest.make_room().is_err() || !self.is_quiet(token.number()) {
            return Burst::new();
        }
        self.guest.tells_loaded();
        let ahead = self.guest.turns_ahead(rt, alloc, token, resources, most);
        self.mark_ahead(&ahead);
        Burst::of(ahead)
    }

    /// Makes turns until one is neither a step nor a refill, there were so many steps, or there were enough turns.
    pub(crate) fn burst<R: Wait, T: Gate>(
        &mut self,
        rt: &R,
        alloc: Global,
        token: &mut ProcToken,
        resources: &Resources,
        gate: &T,
        at: GatePoint,
        steps: u64,
    ) -> Burst
        requires token { Fits N.starts N.board token.old }
        requires loaded { shown G token.old ≢ None }
        requires shared { shared_by resources.now ≡ N.shared }
        ensures few { result.steps ≤ steps }
        ensures whole { result.stop ≡ Paused → (result.steps ≡ steps) ⊎ (result.turns ≡ BURST_TURNS) }
        ensures told { Bursts token.old G result token.new }
    {
        self.agree(token);
        let mut burst = Burst::new();
        while burst.goes_on(steps) {
            let most = (steps - burst.steps).min(BURST_TURNS - burst.turns);
            let ahead = self.turns_ahead(rt, alloc, token, resources, gate, most);
            burst = burst.then(ahead);
            if ahead.turns > 0 {
                continue;
            }
            let here = GatePoint {
                turn: at.turn.saturating_add(burst.turns),
                ..at
            };
            burst.count(self.turn(rt, alloc, token, resources, gate, here));
        }
        burst
    }
}
