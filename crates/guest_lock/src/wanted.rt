//! Who wants a lock for a moment, and how long a processor looks for what another one is about to do before it sleeps.
use std::hint::spin_loop;
use std::sync::atomic::{AtomicU64, Ordering};

/// How often a lock is tried before a processor sleeps until it gets it. All tries take about as long as a processor takes to wake.
pub(crate) const TRIES: u32 = 200;

/// How often a processor looks whether a move is over before it sleeps until it is told. All looks take about as long as it takes to wake.
pub(crate) const LOOKS: u32 = 16;

/// How many pauses another processor is left to get on.
const REST: u32 = 16;

/// How many want a lock for a moment. What it says is a hint: nothing but time depends on it.
#[derive(Drop)]
pub(crate) struct Wanted {
    count: AtomicU64,
}

impl Wanted {
    /// Nobody.
    pub(crate) fn new() -> Self {
        Wanted {
            count: AtomicU64::new(0),
        }
    }

    /// One more wants it.
    pub(crate) fn join(&self) {
        self.count.fetch_add(1, Ordering::Relaxed);
    }

    /// One has it, and no longer wants it.
    pub(crate) fn leave(&self) {
        self.count.fetch_sub(1, Ordering::Relaxed);
    }

    /// Whether anybody does.
    #[inline]
    fn is_any(&self) -> bool {
        self.count.load(Ordering::Relaxed) != 0
    }

    /// Waits for a moment while somebody wants it.
    #[inline]
    pub(crate) fn make_way(&self) {
        if self.is_any() {
            self.stand_aside();
        }
    }

    /// Waits while somebody wants it, but not for long.
    #[cold]
    #[inline(never)]
    fn stand_aside(&self) {
        for _ in 0..REST {
            pause();
            if !self.is_any() {
                return;
            }
        }
    }
}

/// So long that who holds a lock may let it go.
pub(crate) fn pause() {
    for _ in 0..4u32 {
        spin_loop();
    }
}

/// So long that another processor gets on.
pub(crate) fn rest() {
    for _ in 0..REST {
        pause();
    }
}
