//! What a burst of turns did.
ghost use Rattle.std.specs.Prelude.{◌≡◌, ◌↔◌, ◌+◌, ◌≤◌, ◌<◌, ◌^◌, IfSome, IsTrue};
ghost use Rattle.std.specs.declared.alloc.AllocError.{AllocError};
ghost use Rattle.guest_lock.specs.Counted.{counted, none_made, joined, resumed, steps_made, turned, GoesOnTo};

use base_words::{End, Ppn};
use guest_core::{Ahead, Turn};
use std::alloc::AllocError;

/// A burst has at most so many turns.
pub const BURST_TURNS: u64 = 256;

/// How a burst came to its end.
#[derive(Clone, Copy, Debug, PartialEq, Eq)]
pub enum Stop {
    /// Each turn was a step or a refill, or acknowledged, began or finished a move of a page.
    Paused,
    /// The step at hand is on this page, which has a move that isn't over.
    Waits(Ppn),
    /// The virtual processor has halted.
    VcpuHalted,
    /// The guest has ended.
    GuestEnded(End),
    /// Memory was wanting.
    Memory,
}

/// What a burst of turns did.
#[derive(Clone, Copy, Debug, PartialEq, Eq)]
pub struct Burst {
    /// How many turns there were.
    pub turns: u64,
    /// How many of them were own steps.
    pub steps: u64,
    /// How the last one came out.
    pub stop: Stop,
}

impl Burst {
    /// No turns yet.
    pub fn new() -> Self
        ensures { result ≡ none_made }
    {
        Burst {
            turns: 0,
            steps: 0,
            stop: Stop::Paused,
        }
    }

    /// Steps that were made ahead, and the turn that came then.
    pub(crate) fn of(ahead: Ahead) -> Burst
        requires steps { ahead.steps ≤ BURST_TURNS }
        requires fewer { IfSome ahead.turn (λ _. ahead.steps < BURST_TURNS) }
        ensures { result ≡ turned (steps_made ahead.steps) ahead.turn }
    {
        let mut burst = Burst {
            turns: ahead.steps,
            steps: ahead.steps,
            stop: Stop::Paused,
        };
        if let Some(turn) = ahead.turn {
            burst.count(turn);
        }
        burst
    }

    /// Counts a turn.
    #[inline]
    pub(crate) fn count(&mut self, turn: Result<Turn, AllocError>)
        requires turns { self.old.turns < BURST_TURNS }
        requires steps { self.old.steps < BURST_TURNS }
        ensures { self.new ≡ counted self.old turn }
    {
        self.turns += 1;
        match turn {
            Ok(Turn::Stepped(_)) => self.steps += 1,
            Ok(Turn::Refilled | Turn::Acked(_) | Turn::Begun(_) | Turn::Finished(_)) => {}
            Ok(Turn::Waits(page, _)) => self.stop = Stop::Waits(page),
            Ok(Turn::VcpuHalted) => self.stop = Stop::VcpuHalted,
            Ok(Turn::GuestEnded(end)) => self.stop = Stop::GuestEnded(end),
            Err(_) => self.stop = Stop::Memory,
        }
    }

    /// Whether a burst for so many steps goes on.
    #[inline]
    pub(crate) fn goes_on(&self, steps: u64) -> bool
        ensures { IsTrue result ↔ GoesOnTo steps self.now }
    {
        self.stop == Stop::Paused && self.steps < steps && self.turns < BURST_TURNS
    }

    /// The same burst, which goes on after a wait for a move.
    pub fn resume(self) -> Burst
        ensures { result ≡ resumed self }
    {
        match self.stop {
            Stop::Waits(_) => Burst {
                stop: Stop::Paused,
                ..self
            },
            _ => self,
        }
    }

    /// These turns, and then the turns of another burst.
    pub fn then(self, next: Burst) -> Burst
        requires { self.steps + next.steps < 2 ^ 64 }
        ensures { result ≡ joined self next }
    {
        Burst {
            turns: self.turns.saturating_add(next.turns),
            steps: self.steps + next.steps,
            stop: next.stop,
        }
    }
}
