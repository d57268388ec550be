//! A guest under its lock, turn by turn.
ghost use Rattle.std.specs.Prelude.{◌≡◌, ◌<◌, ◌∷◌, [], None, is_some, length};
ghost use Rattle.guest_core.specs.GuestView.{AreOf, shared_by};
ghost use Rattle.guest_lock.specs.Fits.{Fits, HasVcpu};
ghost use Rattle.guest_lock.specs.Told.{shown};

use crate::booting::first_guest;
use crate::guest_core_calls::{Did, kind_of};
use crate::telling::gave;
use base_words::{End, GuestId, VcpuId};
use block_caches::Caches;
use frame_words::FrameTable;
use guest_cases::PRINTS_A;
use guest_core::{Guest, Loaded, Resources, Turn};
use guest_lock::{GuestCell, Starts, tokens_grow};
use outside_io::{FreeGate, GatePoint};
use shootdown::ProcToken;
use std::alloc::{AllocError, Global};
use std::marker::Brand;
use std::process::Abort;
use std::sync::Wait;
use wire_queue::Wires;

/// A guest at its start, the token of its processor, and what it shares.
#[derive(Drop)]
pub(crate) struct Started {
    pub(crate) guest: Guest,
    pub(crate) token: ProcToken,
    pub(crate) table: FrameTable,
    pub(crate) wires: Wires,
    pub(crate) caches: Caches,
    ghost number_is: { guest.number ≡ 0 },
    ghost own_is: { guest.passes.guest.0 ≡ 0 },
    ghost goes_on: { guest.state.end ≡ None },
    ghost some: { 0 < guest.start.vcpus },
    ghost shares: { AreOf (record { table = table; wires = wires; indexes = caches.indexes.items }) guest },
    ghost board_is: { token.board ≡ guest.board },
    ghost is_processor: { token.number < length guest.start.around.processors },
    ghost unnoted: { token.notes ≡ [] },
}

/// A guest under its lock, and the token of a processor. Its calls test at run time what the lock's own ask for.
#[derive(Drop)]
struct Desk<N: Starts> {
    cell: GuestCell<N, 0>,
    token: ProcToken,
    /// Whether a virtual processor is loaded on the token's processor.
    loaded: bool,
    /// How many turns were made.
    turns: u64,
    ghost fits: { Fits N.starts N.board token },
    ghost shows: { is_some (shown 0 token) ≡ loaded },
}

impl<N: Starts> Desk<N> {
    fn load<R: Wait>(&mut self, rt: &R) -> Result<Loaded, AllocError>
        requires { HasVcpu N.starts 0 0 }
    {
        tokens_grow();
        if self.loaded {
            return Err(AllocError);
        }
        let loaded = self.cell.load(rt, &mut self.token, VcpuId(0))?;
        if loaded == Loaded::Done {
            self.loaded = true;
        }
        Ok(loaded)
    }

    fn turn<R: Wait>(
        &mut self,
        rt: &R,
        alloc: Global,
        resources: &Resources,
    ) -> Result<Turn, AllocError>
        requires { shared_by resources.now ≡ N.shared }
    {
        tokens_grow();
        if !self.loaded {
            return Err(AllocError);
        }
        let at = GatePoint {
            processor: self.token.number(),
            guest: GuestId(0),
            vcpu: VcpuId(0),
            turn: self.turns,
        };
        self.turns = self.turns.saturating_add(1);
        self.cell
            .with_turn(rt, alloc, &mut self.token, resources, &FreeGate, at)
    }

    fn unload<R: Wait>(&mut self, rt: &R) {
        tokens_grow();
        if !self.loaded {
            return;
        }
        self.cell.unload(rt, &mut self.token);
        self.loaded = false;
    }
}

/// Makes a turn for each of these answers, under the lock of a guest that `N` names.
fn try_turns<N: Starts, R: Abort + Wait>(
    rt: &R,
    alloc: Global,
    started: Started,
    answers: &[Did],
) -> Guest
    requires starts { N.starts ≡ started.guest.start ∷ [] }
    requires board { N.board ≡ started.guest.board }
    requires shared { N.shared ≡ record { table = started.table; wires = started.wires; indexes = started.caches.indexes.items } }
{
    let Started {
        guest,
        token,
        table,
        wires,
        caches,
    } = started;
    let mut desk: Desk<N> = Desk {
        cell: GuestCell::new(guest),
        token,
        loaded: false,
        turns: 0,
    };
    let resources = Resources {
        table: &table,
        wires: &wires,
        indexes: &caches.indexes,
    };
    assert!(rt; gave(rt, desk.load(rt)) == Loaded::Done, "it is free");
    for answer in answers {
        let turn = gave(rt, desk.turn(rt, alloc, &resources));
        assert!(rt; kind_of(turn) == *answer, "in its place");
    }
    desk.unload(rt);
    desk.cell.take_out()
}

#[test]
fn turns_are_made_under_a_lock(rt: HostRuntime) {
    let alloc = rt.alloc();
    let started = first_guest(&rt, alloc, &PRINTS_A);
    let guest = try_turns::<Brand, HostRuntime>(
        &rt,
        alloc,
        started,
        &[
            Did::Refilled,
            Did::Direct,
            Did::Direct,
            Did::Direct,
            Did::Emulated,
            Did::Emulated,
            Did::Ended(End::Halted),
        ],
    );
    assert!(&rt;
        guest.end() == Some(End::Halted),
        "its one virtual processor halted"
    );
}
