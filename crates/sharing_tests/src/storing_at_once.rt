//! Guests on eight processors at once that share the blocks of a disk, and store to them.
use crate::sharing::{LETTERS, STORES_TO_THREE};
use crate::telling::{holds, must, same};
use base_words::{Bytes, End, Event, MoveKind};
use guest_core::{GuestRecord, RunRecord};
use monitor_run::disco;
use outside_io::{FreeGate, Gate};
use run_cases::{Call, Delaying, call_of, file_of_parts};
use std::alloc::Global;
use std::process::Abort;
use std::sync::Wait;
use std::thread::Threads;

/// Eight guests with one disk of three blocks, each on a processor of its own.
fn eight_text(rt: &impl Abort, alloc: Global) -> String {
    let mut text = must(
        rt,
        String::from_str(
            alloc,
            "[machine]\nnodes = 1\nframes = 35\nprocessors = [0, 0, 0, 0, 0, 0, 0, 0]\ncache = 3\n",
        ),
    );
    for _ in 0..8u8 {
        must(
            rt,
            text.push_str(
                "[[guest]]\nimage = \"a.raw\"\nform = \"raw\"\npages = 4\nvcpus = 1\nnode = 0\ndisk = \"d.img\"\n",
            ),
        );
    }
    for number in 0..8u8 {
        must(
            rt,
            text.push_str(must(
                rt,
                format!(in alloc;
                    "[[work]]\nact = \"run\"\nprocessor = {number}\nguest = {number}\nvcpu = 0\nsteps = 27\n"
                ),
            )
            .as_str()),
        );
    }
    text
}

/// Whether an entry begins to take a page shared.
fn shares(event: Event) -> bool {
    match event {
        Event::Begin {
            kind: MoveKind::TakeShared,
            ..
        } => true,
        _ => false,
    }
}

/// Whether an entry begins to break a page.
fn breaks(event: Event) -> bool {
    match event {
        Event::Begin {
            kind: MoveKind::Break,
            ..
        } => true,
        _ => false,
    }
}

/// The guest printed what it does alone and halted; it shared no more pages than it read, and its stores broke those that it shared: a
/// block whose frame another guest takes or lets go at that moment is copied.
fn try_stores<R: Abort>(rt: &R, guest: &GuestRecord, about: u64) {
    same(
        rt,
        guest.console.as_slice(),
        b"xyz".as_slice(),
        ("console of schedule", about),
    );
    same(rt, guest.end, End::Halted, ("end of schedule", about));
    let shared = guest.journal.count_of(shares);
    holds(rt, shared <= 3, ("shared pages of schedule", about));
    same(
        rt,
        guest.journal.count_of(breaks),
        shared,
        ("broken pages of schedule", about),
    );
}

/// Runs the eight guests under a gate.
fn try_schedule<R: Abort + Threads + Wait + Sync, G: Gate>(
    rt: &R,
    alloc: Global,
    gate: &G,
    about: u64,
) {
    let text = eight_text(rt, alloc);
    let image = Bytes::from_vec(must(rt, file_of_parts(alloc, &[(0, STORES_TO_THREE.program)])));
    let disk = Bytes::from_vec(must(rt, file_of_parts(alloc, LETTERS)));
    let Call {
        words,
        mut shelf,
        mut sink,
    } = must(rt, call_of(alloc, text.as_str(), image, disk));
    let mut out = RunRecord::empty(alloc);
    let status = disco(rt, alloc, &words, &mut shelf, &mut sink, gate, &mut out);
    same(rt, status, 0, ("status of schedule", about));
    for guest in out.guests.as_slice() {
        try_stores(rt, guest, about);
    }
}

#[test]
fn eight_guests_store_at_once(rt: HostRuntime) {
    let alloc = rt.alloc();
    try_schedule(&rt, alloc, &FreeGate, 0);
    for schedule in 1..21 {
        try_schedule(&rt, alloc, &Delaying::new(schedule), schedule);
    }
}
