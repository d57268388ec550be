//! Guests on several processors at once, under gates that see and delay turns.
use crate::record::record_of;
use crate::telling::{must, same};
use base_words::{Bytes, End, GuestId, ProcId};
use outside_io::{FreeGate, Gate, GatePoint};
use run_cases::{Delaying, PRINTS_A, counts, crowd};
use std::alloc::Global;
use std::process::Abort;
use std::sync::Wait;
use std::sync::atomic::{AtomicU64, Ordering};
use std::thread::Threads;

/// Runs a description of so many guests with this image, and compares what each of them printed.
fn try_run<R: Abort + Threads + Wait + Sync, G: Gate>(
    rt: &R,
    alloc: Global,
    text: &str,
    image: Bytes,
    gate: &G,
    guests: usize,
    console: &str,
) {
    let out = record_of(rt, alloc, text, image, gate);
    same(rt, out.guests.len(), guests, ("guests of", text));
    for guest in out.guests.as_slice() {
        same(
            rt,
            guest.console.as_slice(),
            console.as_bytes(),
            ("console under", text),
        );
        same(rt, guest.end, End::Halted, ("end under", text));
    }
}

/// Counts the turns that pass it.
#[derive(Drop)]
struct Counting {
    turns: AtomicU64,
}

impl Gate for Counting {
    fn pass(&self, _at: GatePoint) {
        self.turns.fetch_add(1, Ordering::Relaxed);
    }

    fn is_free(&self) -> bool {
        false
    }
}

/// Holds processor 0's first turn on guest 0 until processor 1 has had a turn on guest 1, or until it has looked often enough.
#[derive(Drop)]
struct Meeting {
    had: AtomicU64,
    met: AtomicU64,
}

/// How often it looks.
const LOOKS: u32 = 10_000_000;

impl Gate for Meeting {
    fn pass(&self, at: GatePoint) {
        if at.processor == ProcId(1) && at.guest == GuestId(1) && at.turn > 0 {
            self.had.store(1, Ordering::Release);
        }
        if at.processor == ProcId(0) && at.guest == GuestId(0) && at.turn == 0 {
            for _ in 0..LOOKS {
                if self.had.load(Ordering::Acquire) == 1 {
                    self.met.store(1, Ordering::Release);
                    break;
                }
            }
        }
    }

    fn is_free(&self) -> bool {
        false
    }
}

#[test]
fn each_turn_passes_the_gate(rt: HostRuntime) {
    let alloc = rt.alloc();
    let text = must(&rt, crowd(alloc, 1, 1, 1, 16, 5));
    let gate = Counting {
        turns: AtomicU64::new(0),
    };
    let image = Bytes::from_vec(must(&rt, PRINTS_A.to_vec(alloc)));
    try_run(&rt, alloc, text.as_str(), image, &gate, 1, "A");
    assert!(&rt;
        gate.turns.load(Ordering::Relaxed) == 6,
        "five steps and a refill"
    );
}

#[test]
fn workers_run_at_once(rt: HostRuntime) {
    let alloc = rt.alloc();
    let text = must(&rt, crowd(alloc, 2, 1, 2, 1, 5));
    let gate = Meeting {
        had: AtomicU64::new(0),
        met: AtomicU64::new(0),
    };
    let image = Bytes::from_vec(must(&rt, PRINTS_A.to_vec(alloc)));
    try_run(&rt, alloc, text.as_str(), image, &gate, 2, "A");
    assert!(&rt; gate.met.load(Ordering::Acquire) == 1, "both had a turn");
}

#[test]
fn virtual_processors_count_together(rt: HostRuntime) {
    let alloc = rt.alloc();
    let text = must(&rt, crowd(alloc, 1, 2, 2, 4, 100_000));
    try_run(
        &rt,
        alloc,
        text.as_str(),
        must(&rt, counts(alloc, 2)),
        &FreeGate,
        1,
        "Y",
    );
    for schedule in 0..20 {
        let gate = Delaying::new(schedule);
        try_run(
            &rt,
            alloc,
            text.as_str(),
            must(&rt, counts(alloc, 2)),
            &gate,
            1,
            "Y",
        );
    }
}

#[test]
fn many_guests_run_at_once(rt: HostRuntime) {
    let alloc = rt.alloc();
    let text = must(&rt, crowd(alloc, 8, 4, 16, 2, 300_000));
    try_run(
        &rt,
        alloc,
        text.as_str(),
        must(&rt, counts(alloc, 4)),
        &FreeGate,
        8,
        "Y",
    );
}
