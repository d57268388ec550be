//! A guest and the token of the processor on which it runs, without a lock. Its calls test at run time what the guest's own ask for.
ghost use Rattle.std.specs.Prelude.{◌≡◌, ◌≢◌, ◌<◌, ◌≤◌, [], None, Some, true, false, is_some, length, OnOk};
ghost use Rattle.base_words.specs.declared.events.End.TheVariants.{Budget};
ghost use Rattle.guest_core.specs.GuestView.{AreOf, IsSameGuest, shared_by};
ghost use Rattle.isolation_law.specs.GuestState.{due_on};
ghost use Rattle.guest_course.specs.SkipView.{wanting};
ghost use Rattle.guest_core.specs.GuestCalls.{MayCall};
ghost use Rattle.guest_core.specs.MoveCalls.{MayAsk};
ghost use Rattle.wire_queue.specs.PassLists.{IsListOf};
ghost use Rattle.guest_lock.specs.Told.{shown};

use crate::telling::gave;
use base_words::{CellId, MOST_CELLS, MoveKind, NodeId, Ppn, VcpuId};
use guest_core::{Asked, Fate, Guest, GuestRecord, Loaded, Packeted, Ready, Resources, Turn};
use guest_course::Wish;
use guest_lock::tokens_grow;
use shootdown::ProcToken;
use std::alloc::{AllocError, Global};
use std::process::Abort;
use std::sync::Wait;
use wire_queue::PassList;

/// How many virtual processors and pages a guest has, and how many nodes its machine.
#[derive(Clone, Copy, Debug)]
pub(crate) struct Size {
    pub(crate) vcpus: u8,
    pub(crate) pages: u32,
    pub(crate) nodes: u8,
}

/// Unloads what the notes of a token show to be loaded on its processor.
fn unload_from(guest: &mut Guest, token: &mut ProcToken)
    requires may { MayCall guest.old token.old }
    requires loaded { is_some (shown guest.old.number token.old) ≡ true }
    ensures same { IsSameGuest guest.old guest.new }
    ensures end { guest.new.state.end ≡ guest.old.state.end }
    ensures board { token.new.board ≡ token.old.board }
    ensures number { token.new.number ≡ token.old.number }
    ensures unloaded { is_some (shown guest.old.number token.new) ≡ false }
{
    tokens_grow();
    guest.agree(token);
    guest.unload(token);
}

/// Asks for what is due on the processor of a token, of which nothing is noted.
fn ask_for(
    guest: &mut Guest,
    alloc: Global,
    token: &mut ProcToken,
    wish: Wish,
    resources: &Resources,
) -> Result<Option<Asked>, AllocError>
    requires may { MayCall guest.old token.old }
    requires room { 2 ≤ guest.old.room }
    requires shared { AreOf (shared_by resources.now) guest.old }
    requires due { due_on guest.old.state token.old.number ≡ Some (wanting wish) }
    requires asks { MayAsk guest.old (wanting wish) }
    ensures same { IsSameGuest guest.old guest.new }
    ensures before { guest.new.state.end ≡ guest.old.state.end }
    ensures token { token.new ≡ token.old }
{
    let Wish { page, kind, node } = wish;
    let asked = guest.ask_move(alloc, token, page, kind, node, resources)?;
    Ok(Some(asked))
}

/// Loads a virtual processor where the token shows none, and whether it shows one then.
fn load_on(guest: &mut Guest, token: &mut ProcToken, vcpu: VcpuId) -> (Loaded, bool)
    requires may { MayCall guest.old token.old }
    requires room { 2 ≤ guest.old.room }
    requires vcpu { vcpu.0 < guest.old.start.vcpus }
    requires free { is_some (shown guest.old.number token.old) ≡ false }
    ensures same { IsSameGuest guest.old guest.new }
    ensures goes_on { guest.old.state.end ≢ Some Budget → guest.new.state.end ≢ Some Budget }
    ensures board { token.new.board ≡ token.old.board }
    ensures number { token.new.number ≡ token.old.number }
    ensures shows { is_some (shown guest.old.number token.new) ≡ result.1 }
{
    tokens_grow();
    guest.agree(token);
    let loaded = guest.load_vcpu(token, vcpu);
    (loaded, loaded == Loaded::Done)
}

/// Lets a packet come in.
fn let_in<R: Wait>(
    guest: &mut Guest,
    rt: &R,
    alloc: Global,
    resources: &Resources,
) -> Result<Packeted, AllocError>
    requires { AreOf (shared_by resources.now) guest.old }
    ensures same { IsSameGuest guest.old guest.new }
    ensures goes_on { guest.old.state.end ≢ Some Budget → guest.new.state.end ≢ Some Budget }
{
    guest.make_room()?;
    guest.packet_in(rt, alloc, resources)
}

/// Ends the move of a page where nobody waits for it.
fn end_move(guest: &mut Guest, page: Ppn, resources: &Resources) -> Ready
    requires { AreOf (shared_by resources.now) guest.old }
    ensures same { IsSameGuest guest.old guest.new }
    ensures goes_on { guest.old.state.end ≢ Some Budget → guest.new.state.end ≢ Some Budget }
{
    guest.finish_ready(page, resources)
}

/// Ends a guest as at the end of a plan, unless it has ended.
fn end_by_plan(guest: &mut Guest, resources: &Resources) -> Result<(), AllocError>
    requires { AreOf (shared_by resources.now) guest.old }
    ensures same { IsSameGuest guest.old guest.new }
    ensures ended { OnOk result (guest.new.state.end ≢ None) }
{
    if guest.end().is_none() {
        guest.make_room()?;
        guest.end_budget(resources);
    }
    Ok(())
}

/// A guest that wasn't ended for the end of the plan, and a processor's token.
#[derive(Drop)]
pub(crate) struct Lane {
    pub(crate) guest: Guest,
    token: ProcToken,
    /// How many virtual processors and pages the guest has, and how many nodes the machine.
    size: Size,
    /// Whether one is loaded on the token's processor.
    loaded: bool,
    ghost board_is: { token.board ≡ guest.board },
    ghost is_processor: { token.number < length guest.start.around.processors },
    ghost goes_on: { guest.state.end ≢ Some Budget },
    ghost vcpus_are: { guest.start.vcpus ≡ size.vcpus },
    ghost pages_are: { guest.start.image.pages ≡ size.pages },
    ghost nodes_are: { length guest.start.around.nodes ≡ size.nodes },
    ghost shows: { is_some (shown guest.number token) ≡ loaded },
}

impl Lane {
    /// Takes a guest at its start, and a token without notes.
    pub(crate) fn new(guest: Guest, token: ProcToken, size: Size) -> Self
        requires board { token.board ≡ guest.board }
        requires processor { token.number < length guest.start.around.processors }
        requires goes_on { guest.state.end ≡ None }
        requires vcpus { guest.start.vcpus ≡ size.vcpus }
        requires pages { guest.start.image.pages ≡ size.pages }
        requires nodes { length guest.start.around.nodes ≡ size.nodes }
        requires unnoted { token.notes ≡ [] }
        ensures { result.guest ≡ guest }
    {
        Lane {
            guest,
            token,
            size,
            loaded: false,
        }
    }

    /// Loads a virtual processor. An error is want of memory, one that is loaded already, or one that the guest hasn't.
    pub(crate) fn load(&mut self, vcpu: VcpuId) -> Result<Loaded, AllocError>
        ensures { IsSameGuest self.old.guest self.new.guest }
    {
        tokens_grow();
        if self.loaded || vcpu.0 >= self.size.vcpus {
            return Err(AllocError);
        }
        self.guest.make_room()?;
        let (loaded, shows) = load_on(&mut self.guest, &mut self.token, vcpu);
        self.loaded = shows;
        Ok(loaded)
    }

    /// Unloads what is loaded.
    pub(crate) fn unload(&mut self)
        ensures { IsSameGuest self.old.guest self.new.guest }
    {
        if !self.loaded {
            return;
        }
        unload_from(&mut self.guest, &mut self.token);
        self.loaded = false;
    }

    /// A turn of what is loaded. An error is want of memory, that nothing is loaded, or that a choice of the policy is due.
    pub(crate) fn turn<R: Wait>(
        &mut self,
        rt: &R,
        alloc: Global,
        resources: &Resources,
    ) -> Result<Turn, AllocError>
        requires { AreOf (shared_by resources.now) self.old.guest }
        ensures { IsSameGuest self.old.guest self.new.guest }
    {
        tokens_grow();
        if !self.loaded {
            return Err(AllocError);
        }
        if self.guest.due(self.token.number()).is_some() {
            return Err(AllocError);
        }
        self.guest.make_room()?;
        self.guest.agree(&mut self.token);
        self.guest.turn(rt, alloc, &mut self.token, resources)
    }

    /// Lets a packet come in.
    pub(crate) fn packet_in<R: Wait>(
        &mut self,
        rt: &R,
        alloc: Global,
        resources: &Resources,
    ) -> Result<Packeted, AllocError>
        requires { AreOf (shared_by resources.now) self.old.guest }
        ensures { IsSameGuest self.old.guest self.new.guest }
    {
        let_in(&mut self.guest, rt, alloc, resources)
    }

    /// Asks for a migration of a page by the plan. An error is want of memory, or a page or a node that isn't there.
    pub(crate) fn ask(
        &mut self,
        alloc: Global,
        page: Ppn,
        node: NodeId,
        resources: &Resources,
    ) -> Result<Asked, AllocError>
        requires { AreOf (shared_by resources.now) self.old.guest }
        ensures { IsSameGuest self.old.guest self.new.guest }
    {
        tokens_grow();
        if page.0 >= self.size.pages || node.0 >= self.size.nodes {
            return Err(AllocError);
        }
        self.guest.make_room()?;
        self.guest.agree(&mut self.token);
        self.guest.ask_move(
            alloc,
            &mut self.token,
            page,
            MoveKind::Migrate,
            node,
            resources,
        )
    }

    /// A cell fails. An error is want of memory, or a cell that no machine has.
    pub(crate) fn fail(&mut self, cell: CellId, resources: &Resources) -> Result<Fate, AllocError>
        requires { AreOf (shared_by resources.now) self.old.guest }
        ensures { IsSameGuest self.old.guest self.new.guest }
    {
        tokens_grow();
        if usize::from(cell.0) >= MOST_CELLS {
            return Err(AllocError);
        }
        self.guest.make_room()?;
        self.guest.agree(&mut self.token);
        Ok(self.guest.cell_fails(&mut self.token, cell, resources))
    }

    /// Asks for a replica of a page by the plan. An error is want of memory, or a page or a node that isn't there.
    pub(crate) fn ask_for_replica(
        &mut self,
        alloc: Global,
        page: Ppn,
        node: NodeId,
        resources: &Resources,
    ) -> Result<Asked, AllocError>
        requires { AreOf (shared_by resources.now) self.old.guest }
        ensures { IsSameGuest self.old.guest self.new.guest }
    {
        tokens_grow();
        if page.0 >= self.size.pages || node.0 >= self.size.nodes {
            return Err(AllocError);
        }
        self.guest.make_room()?;
        self.guest.agree(&mut self.token);
        self.guest.ask_move(
            alloc,
            &mut self.token,
            page,
            MoveKind::Replicate,
            node,
            resources,
        )
    }

    /// Asks for the policy's choice that is due; none where nothing is. An error is want of memory.
    pub(crate) fn ask_due(
        &mut self,
        alloc: Global,
        resources: &Resources,
    ) -> Result<Option<Asked>, AllocError>
        requires { AreOf (shared_by resources.now) self.old.guest }
        ensures { IsSameGuest self.old.guest self.new.guest }
    {
        self.guest.make_room()?;
        let Some(wish) = self.guest.due(self.token.number()) else {
            return Ok(None);
        };
        ask_for(&mut self.guest, alloc, &mut self.token, wish, resources)
    }

    /// Ends the move of a page where nobody waits for it.
    pub(crate) fn finish_ready(&mut self, page: Ppn, resources: &Resources) -> Ready
        requires { AreOf (shared_by resources.now) self.old.guest }
        ensures { IsSameGuest self.old.guest self.new.guest }
    {
        end_move(&mut self.guest, page, resources)
    }

    /// What the guest leaves, and its ends of the wires. One that hasn't ended is ended as at the end of a plan.
    pub(crate) fn finish(self, rt: &impl Abort, resources: &Resources) -> (GuestRecord, PassList)
        requires { AreOf (shared_by resources.now) self.guest }
        ensures { IsListOf resources.now.wires.now result.1 }
    {
        let Lane {
            mut guest,
            token: _,
            size: _,
            loaded: _,
        } = self;
        gave(rt, end_by_plan(&mut guest, resources));
        let (record, _, passes, _) = guest.into_record();
        (record, passes)
    }
}
