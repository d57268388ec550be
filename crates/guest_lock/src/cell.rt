//! A guest under its lock.
ghost use Rattle.std.specs.Prelude.{◌≡◌, ◌≢◌, ◌⊎◌, ◌<◌, ◌≤◌, ◌∷◌, [], None, List};
ghost use Rattle.base_words.specs.declared.events.Event.TheVariants.{Unload};
ghost use Rattle.shootdown.specs.declared.notes.Note.TheVariants.{Made};
ghost use Rattle.guest_core.specs.GuestCalls.{processor_of, told_of_turn};
ghost use Rattle.guest_core.specs.GuestView.{shared_by};
ghost use Rattle.guest_lock.specs.declared.burst.Stop.TheVariants.{Paused};
ghost use Rattle.guest_core.specs.MoveCalls.{told_of_ask};
ghost use Rattle.guest_lock.specs.Fits.{Fits, HasVcpu, MayAskOf};
ghost use Rattle.guest_lock.specs.Told.{with_told, shown, vcpu_shown, told_of_loading, HasWaited, HasAsked, Bursts, NamesCell};
ghost use Rattle.guest_lock.specs.Guests.{IsGuestOf};
ghost use Rattle.base_words.specs.Limits.{most_cells};
ghost use Rattle.shootdown.specs.declared.notes.Note.{Note};
ghost use Rattle.guest_lock.specs.Fates.{IsToldFailing};

use crate::kept::Kept;
use crate::wanted::{LOOKS, TRIES, Wanted, pause, rest};
use crate::{BURST_TURNS, Burst, Starts};
use base_words::{CellId, MoveKind, NodeId, Ppn, VcpuId};
use crossbeam_utils::CachePadded;
use guest_core::{Asked, Fate, Guest, Loaded, Ready, Resources, Turn};
use outside_io::{Gate, GatePoint};
use shootdown::ProcToken;
use std::alloc::{AllocError, Global};
use std::marker::PhantomData;
use std::sync::{Condvar, Mutex, MutexGuard, Wait};

/// Guest number `G` of the run that `N` names, under its lock, on cache lines of its own.
#[derive(Drop)]
pub struct GuestCell<N: Starts, const G: u8> {
    guest: CachePadded<Mutex<Kept<N, G>>>,
    moved: Condvar,
    wanted: Wanted,
}

impl<N: Starts, const G: u8> GuestCell<N, G> {
    /// Puts a guest under its lock.
    pub fn new(guest: Guest) -> Self
        requires { IsGuestOf N.starts N.board N.shared G guest }
    {
        GuestCell {
            guest: CachePadded::new(Mutex::new(Kept {
                guest,
                moved: false,
                of: PhantomData,
            })),
            moved: Condvar::new(),
            wanted: Wanted::new(),
        }
    }

    /// Takes the lock. It is tried for a while first, since who holds it lets it go soon.
    fn lock<R: Wait>(&self, rt: &R) -> MutexGuard<'_, Kept<N, G>> {
        for _ in 0..TRIES {
            if let Some(kept) = self.guest.try_lock() {
                return kept;
            }
            pause();
        }
        self.guest.lock(rt)
    }

    /// Takes the lock for a moment. A processor that makes turns leaves it to those who want it so.
    fn lock_soon<R: Wait>(&self, rt: &R) -> MutexGuard<'_, Kept<N, G>> {
        self.wanted.join();
        let kept = self.lock(rt);
        self.wanted.leave();
        kept
    }

    /// Loads a virtual processor on the token's processor, and waits while it is loaded on another one. After want of memory no
    /// entry was made.
    pub fn load<R: Wait>(
        &self,
        rt: &R,
        token: &mut ProcToken,
        vcpu: VcpuId,
    ) -> Result<Loaded, AllocError>
        requires token { Fits N.starts N.board token.old }
        requires vcpu { HasVcpu N.starts G vcpu.0 }
        requires free { shown G token.old ≡ None }
        ensures told { token.new ≡ with_told token.old G (told_of_loading (processor_of token.old) vcpu result) }
        ensures waited { HasWaited result }
        ensures cell { NamesCell N.starts G token.old.number result }
    {
        let mut kept = self.lock_soon(rt);
        for _ in rt.forever() {
            match kept.load(token, vcpu) {
                Ok(Loaded::On(_)) => kept = self.moved.wait(rt, kept),
                Ok(Loaded::Done) => return Ok(Loaded::Done),
                Ok(Loaded::Dead(cell)) => return Ok(Loaded::Dead(cell)),
                Ok(Loaded::Ended(end)) => return Ok(Loaded::Ended(end)),
                Err(error) => return Err(error),
            }
        }
        unreachable!()
    }

    /// Passes the gate, lets a packet come, and makes a turn of what is loaded on the token's processor.
    pub fn with_turn<R: Wait, T: Gate>(
        &self,
        rt: &R,
        alloc: Global,
        token: &mut ProcToken,
        resources: &Resources,
        gate: &T,
        at: GatePoint,
    ) -> Result<Turn, AllocError>
        requires token { Fits N.starts N.board token.old }
        requires loaded { shown G token.old ≢ None }
        requires shared { shared_by resources.now ≡ N.shared }
        ensures { token.new ≡ with_told token.old G (told_of_turn (processor_of token.old) (vcpu_shown G token.old) result) }
    {
        let mut kept = self.lock(rt);
        kept.agree(token);
        let turn = kept.turn(rt, alloc, token, resources, gate, at);
        self.wake(&mut kept);
        turn
    }

    /// Makes turns of what is loaded on the token's processor, each with its gate, and all in one hold of the lock: until one is neither
    /// a step nor a refill, there were so many steps, or there were as many turns as a burst has.
    pub fn burst<R: Wait, T: Gate>(
        &self,
        rt: &R,
        alloc: Global,
        token: &mut ProcToken,
        resources: &Resources,
        gate: &T,
        at: GatePoint,
        steps: u64,
    ) -> Burst
        requires token { Fits N.starts N.board token.old }
        requires loaded { shown G token.old ≢ None }
        requires shared { shared_by resources.now ≡ N.shared }
        ensures few { result.steps ≤ steps }
        ensures whole { result.stop ≡ Paused → (result.steps ≡ steps) ⊎ (result.turns ≡ BURST_TURNS) }
        ensures told { Bursts token.old G result token.new }
    {
        self.wanted.make_way();
        let mut kept = self.lock(rt);
        let burst = kept.burst(rt, alloc, token, resources, gate, at, steps);
        self.wake(&mut kept);
        burst
    }

    /// Unloads what is loaded on the token's processor.
    pub fn unload<R: Wait>(&self, rt: &R, token: &mut ProcToken)
        requires token { Fits N.starts N.board token.old }
        requires loaded { shown G token.old ≢ None }
        ensures { token.new ≡ with_told token.old G (Made (Unload (processor_of token.old)) ∷ []) }
    {
        self.lock_soon(rt).unload(token);
        self.moved.notify_all();
    }

    /// Wakes all who wait, where something has changed for which they may wait.
    #[inline]
    fn wake(&self, kept: &mut Kept<N, G>)
        ensures { kept.new.guest ≡ kept.old.guest }
    {
        if kept.take_moved() || kept.guest.end().is_some() {
            self.moved.notify_all();
        }
    }

    /// Waits while a step of the token's processor on this page has to: the guest hasn't ended, the page has a move that waits for some
    /// processor, and no page waits for this one. The token is told nothing.
    pub fn wait_turn<R: Wait>(&self, rt: &R, token: &ProcToken, page: Ppn)
        requires { Fits N.starts N.board token.now }
    {
        for _ in 0..LOOKS {
            if !self.lock_soon(rt).guest.must_wait(token.number(), page) {
                return;
            }
            rest();
        }
        let mut kept = self.lock(rt);
        for _ in rt.forever() {
            if !kept.guest.must_wait(token.number(), page) {
                return;
            }
            kept = self.moved.wait(rt, kept);
        }
    }

    /// Asks for a move of a page by the plan, and waits while the page has another one, which it finishes where nobody waits for it any
    /// more.
    fn begin<R: Wait>(
        &self,
        rt: &R,
        alloc: Global,
        token: &mut ProcToken,
        page: Ppn,
        kind: MoveKind,
        node: NodeId,
        resources: &Resources,
    ) -> Result<Asked, AllocError>
        requires token { Fits N.starts N.board token.old }
        requires may { MayAskOf N.starts G (record { page = page.0; kind = kind; node = node.0 }) }
        requires free { shown G token.old ≡ None }
        requires shared { shared_by resources.now ≡ N.shared }
        ensures told { token.new ≡ with_told token.old G (told_of_ask (record { page = page.0; kind = kind; node = node.0 }) result) }
        ensures asked { HasAsked result }
    {
        let mut kept = self.lock_soon(rt);
        for _ in rt.forever() {
            match kept.ask(alloc, token, page, kind, node, resources) {
                Ok(Asked::Busy(_)) => match kept.guest.finish_ready(page, resources) {
                    Ready::Waits(_) => kept = self.moved.wait(rt, kept),
                    Ready::Finished | Ready::NoMove => self.moved.notify_all(),
                },
                Ok(Asked::Begun) => {
                    self.moved.notify_all();
                    return Ok(Asked::Begun);
                }
                Ok(Asked::Skipped) => return Ok(Asked::Skipped),
                Err(error) => return Err(error),
            }
        }
        unreachable!()
    }

    /// Finishes the move of a page, unless it waits for processors; whether it is over.
    fn finish_soon<R: Wait>(&self, rt: &R, page: Ppn, resources: &Resources) -> bool
        requires { shared_by resources.now ≡ N.shared }
    {
        let mut kept = self.lock_soon(rt);
        match kept.guest.finish_ready(page, resources) {
            Ready::Waits(_) => false,
            Ready::Finished | Ready::NoMove => {
                self.moved.notify_all();
                true
            }
        }
    }

    /// Finishes the move of a page, and waits while it waits for processors.
    fn finish<R: Wait>(&self, rt: &R, page: Ppn, resources: &Resources)
        requires { shared_by resources.now ≡ N.shared }
    {
        for _ in 0..LOOKS {
            if self.finish_soon(rt, page, resources) {
                return;
            }
            rest();
        }
        let mut kept = self.lock(rt);
        for _ in rt.forever() {
            match kept.guest.finish_ready(page, resources) {
                Ready::Waits(_) => kept = self.moved.wait(rt, kept),
                Ready::Finished | Ready::NoMove => {
                    self.moved.notify_all();
                    return;
                }
            }
        }
    }

    /// Asks for a move of a page by the plan, with nothing loaded on the token's processor; waits while the page has another move, and
    /// until its own is finished. It never answers `Busy`, and the token is told of the ask once. After want of memory no entry was made
    /// but the ends of others' moves.
    pub fn ask<R: Wait>(
        &self,
        rt: &R,
        alloc: Global,
        token: &mut ProcToken,
        page: Ppn,
        kind: MoveKind,
        node: NodeId,
        resources: &Resources,
    ) -> Result<Asked, AllocError>
        requires token { Fits N.starts N.board token.old }
        requires may { MayAskOf N.starts G (record { page = page.0; kind = kind; node = node.0 }) }
        requires free { shown G token.old ≡ None }
        requires shared { shared_by resources.now ≡ N.shared }
        ensures told { token.new ≡ with_told token.old G (told_of_ask (record { page = page.0; kind = kind; node = node.0 }) result) }
        ensures asked { HasAsked result }
    {
        let asked = self.begin(rt, alloc, token, page, kind, node, resources)?;
        if asked == Asked::Begun {
            self.finish(rt, page, resources);
        }
        Ok(asked)
    }

    /// A cell fails for this guest, in one hold of the lock. After want of memory it has not.
    pub fn fail<R: Wait>(
        &self,
        rt: &R,
        token: &mut ProcToken,
        cell: CellId,
        resources: &Resources,
    ) -> Result<Fate, AllocError>
        requires token { Fits N.starts N.board token.old }
        requires cell { cell.0 < most_cells }
        requires shared { shared_by resources.now ≡ N.shared }
        ensures { (told : List Note) × IsToldFailing cell result told × (token.new ≡ with_told token.old G told) }
    {
        let mut kept = self.lock_soon(rt);
        let fate = kept.fail(token, cell, resources);
        self.moved.notify_all();
        fate
    }

    /// The guest, out of its lock.
    pub fn take_out(self) -> Guest
        ensures { IsGuestOf N.starts N.board N.shared G result }
    {
        let GuestCell {
            guest,
            moved: _,
            wanted: _,
        } = self;
        let Kept {
            guest,
            moved: _,
            of: _,
        } = guest.into_inner().into_inner();
        guest
    }
}
