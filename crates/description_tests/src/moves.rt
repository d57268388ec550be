//! Whole runs in which the plan moves pages.
use crate::cases::{
    Case, DISK, FIFTEEN_STEPS, FOUR_PAGES, KEEPS_ONE, READS_A_BLOCK, machine, try_all,
};
use crate::record::record_of;
use crate::telling::{holds, must, same};
use base_words::{End, Event};
use guest_core::GuestRecord;
use outside_io::{FreeGate, Gate};
use run_cases::{Delaying, counts};
use std::alloc::Global;
use std::process::Abort;
use std::sync::Wait;
use std::thread::Threads;

const TWO_NODES: (&str, &str) = ("nodes = 1", "nodes = 2");

/// Page 0 moves to node 1 before the run.
const FIRST_TO_1: (&str, &str) = (
    "[[work]]\nact = \"run\"",
    "[[work]]\nact = \"move\"\nprocessor = 0\nguest = 0\npage = 0\nkind = \"migrate\"\nnode = 1\n[[work]]\nact = \"run\"",
);

/// Page 0 is to move to node 0, where it lies, before the run.
const FIRST_TO_0: (&str, &str) = (
    "[[work]]\nact = \"run\"",
    "[[work]]\nact = \"move\"\nprocessor = 0\nguest = 0\npage = 0\nkind = \"migrate\"\nnode = 0\n[[work]]\nact = \"run\"",
);

/// Page 0 is to move to node 1 after the run.
const LAST_TO_1: (&str, &str) = (
    "steps = 5\n",
    "steps = 5\n[[work]]\nact = \"move\"\nprocessor = 0\nguest = 0\npage = 0\nkind = \"migrate\"\nnode = 1\n",
);

/// The guest runs for two steps, page 0 moves to node 1 and back, and it runs for three.
const THERE_AND_BACK: (&str, &str) = (
    "steps = 5\n",
    "steps = 2\n[[work]]\nact = \"move\"\nprocessor = 0\nguest = 0\npage = 0\nkind = \"migrate\"\nnode = 1\n[[work]]\nact = \"move\"\nprocessor = 0\nguest = 0\npage = 0\nkind = \"migrate\"\nnode = 0\n[[work]]\nact = \"run\"\nprocessor = 0\nguest = 0\nvcpu = 0\nsteps = 3\n",
);

/// A second guest, whose pages fill node 1.
const NODE_1_IS_FULL: (&str, &str) = (
    "[[work]]\nact = \"run\"",
    "[[guest]]\nimage = \"a.raw\"\nform = \"raw\"\npages = 16\nvcpus = 1\nnode = 1\n[[work]]\nact = \"run\"",
);

#[test]
fn a_planned_move_begins_or_is_skipped(rt: HostRuntime) {
    let cases = [
        Case {
            changes: &[TWO_NODES, FIRST_TO_1],
            output: "guest 0 console 1\nA\nend halted\nsums steps 5 refills 1 moves 1 skips 0 breaks 0 shared 0 received 0 discarded 0\n",
            ..machine()
        },
        Case {
            changes: &[TWO_NODES, NODE_1_IS_FULL, FIRST_TO_1],
            output: "guest 0 console 1\nA\nend halted\nsums steps 5 refills 1 moves 0 skips 1 breaks 0 shared 0 received 0 discarded 0\nguest 1 console 0\n\nend budget\nsums steps 0 refills 0 moves 0 skips 0 breaks 0 shared 0 received 0 discarded 0\n",
            guests: 2,
            ..machine()
        },
        Case {
            changes: &[TWO_NODES, FIRST_TO_0],
            output: "guest 0 console 1\nA\nend halted\nsums steps 5 refills 1 moves 0 skips 1 breaks 0 shared 0 received 0 discarded 0\n",
            ..machine()
        },
        Case {
            changes: &[TWO_NODES, LAST_TO_1],
            output: "guest 0 console 1\nA\nend halted\nsums steps 5 refills 1 moves 0 skips 1 breaks 0 shared 0 received 0 discarded 0\n",
            ..machine()
        },
        Case {
            changes: &[TWO_NODES, LAST_TO_1, ("steps = 5", "steps = 4")],
            output: "guest 0 console 1\nA\nend budget\nsums steps 4 refills 1 moves 1 skips 0 breaks 0 shared 0 received 0 discarded 0\n",
            ..machine()
        },
        Case {
            changes: &[TWO_NODES, THERE_AND_BACK],
            output: "guest 0 console 1\nA\nend halted\nsums steps 5 refills 2 moves 2 skips 0 breaks 0 shared 0 received 0 discarded 0\n",
            ..machine()
        },
    ];
    try_all(&rt, rt.alloc(), &cases)
}

/// Once the block is read the plan asks for the page's migration, for a replica, and for a collapse.
const MOVES_OF_A_SHARED_PAGE: (&str, &str) = (
    "steps = 15\n",
    "steps = 7\n[[work]]\nact = \"move\"\nprocessor = 0\nguest = 0\npage = 2\nkind = \"migrate\"\nnode = 1\n[[work]]\nact = \"move\"\nprocessor = 0\nguest = 0\npage = 2\nkind = \"replicate\"\nnode = 1\n[[work]]\nact = \"move\"\nprocessor = 0\nguest = 0\npage = 2\nkind = \"collapse\"\n[[work]]\nact = \"run\"\nprocessor = 0\nguest = 0\nvcpu = 0\nsteps = 8\n",
);

/// The page gets a replica before the block is read.
const REPLICA_BEFORE_THE_READ: (&str, &str) = (
    "[[work]]",
    "[[work]]\nact = \"move\"\nprocessor = 0\nguest = 0\npage = 2\nkind = \"replicate\"\nnode = 1\n[[work]]",
);

/// A shared page doesn't move. Where a block is shared into a page with a replica, the replica goes with no move of its own.
#[test]
fn shared_pages_and_moves(rt: HostRuntime) {
    let reads = Case {
        image: &READS_A_BLOCK,
        ..machine()
    };
    let cases = [
        Case {
            changes: &[
                TWO_NODES,
                KEEPS_ONE,
                DISK,
                FOUR_PAGES,
                FIFTEEN_STEPS,
                MOVES_OF_A_SHARED_PAGE,
            ],
            output: "guest 0 console 2\nab\nend halted\nsums steps 15 refills 4 moves 0 skips 3 breaks 1 shared 1 received 0 discarded 0\n",
            ..reads
        },
        Case {
            changes: &[
                TWO_NODES,
                KEEPS_ONE,
                DISK,
                FOUR_PAGES,
                FIFTEEN_STEPS,
                REPLICA_BEFORE_THE_READ,
            ],
            output: "guest 0 console 2\nab\nend halted\nsums steps 15 refills 3 moves 1 skips 0 breaks 1 shared 1 received 0 discarded 0\n",
            ..reads
        },
    ];
    try_all(&rt, rt.alloc(), &cases)
}

/// Two virtual processors of a guest of 4 pages, on processors 0 and 1 of node 0; processor 2, of node 1, moves page 1 between the two
/// nodes ten times.
fn counting_text(rt: &impl Abort, alloc: Global) -> String {
    let mut text = must(
        rt,
        String::from_str(
            alloc,
            "[machine]\nnodes = 2\nframes = 16\nprocessors = [0, 0, 1]\n[[guest]]\nimage = \"a.raw\"\nform = \"raw\"\npages = 4\nvcpus = 2\nnode = 0\n[[work]]\nact = \"run\"\nprocessor = 0\nguest = 0\nvcpu = 0\nsteps = 100000\n[[work]]\nact = \"run\"\nprocessor = 1\nguest = 0\nvcpu = 1\nsteps = 100000\n",
        ),
    );
    for _ in 0..5u8 {
        must(
            rt,
            text.push_str(
                "[[work]]\nact = \"move\"\nprocessor = 2\nguest = 0\npage = 1\nkind = \"migrate\"\nnode = 1\n",
            ),
        );
        must(
            rt,
            text.push_str(
                "[[work]]\nact = \"move\"\nprocessor = 2\nguest = 0\npage = 1\nkind = \"migrate\"\nnode = 0\n",
            ),
        );
    }
    text
}

/// Whether an entry begins a move.
fn begins(event: Event) -> bool {
    match event {
        Event::Begin { .. } => true,
        _ => false,
    }
}

/// Whether an entry ends a move.
fn finishes(event: Event) -> bool {
    match event {
        Event::Finish(_) => true,
        _ => false,
    }
}

/// The guest printed Y and halted, and each of the ten moves was begun or noted as skipped; who was begun before the guest's end was
/// finished or ended with the guest.
fn try_counting<R: Abort>(rt: &R, guest: &GuestRecord, about: u64) {
    same(
        rt,
        guest.console.as_slice(),
        b"Y".as_slice(),
        ("console of schedule", about),
    );
    same(rt, guest.end, End::Halted, ("end of schedule", about));
    let begun = guest.journal.count_of(begins);
    let skipped = guest.skips.len() as u64;
    same(
        rt,
        begun.saturating_add(skipped),
        10,
        ("moves and skips of schedule", about),
    );
    holds(
        rt,
        guest.journal.count_of(finishes) <= begun,
        ("finishes of schedule", about),
    );
}

/// Runs it under a gate.
fn try_schedule<R: Abort + Threads + Wait + Sync, G: Gate>(
    rt: &R,
    alloc: Global,
    gate: &G,
    about: u64,
) {
    let text = counting_text(rt, alloc);
    let image = must(rt, counts(alloc, 2));
    let out = record_of(rt, alloc, text.as_str(), image, gate);
    for guest in out.guests.as_slice() {
        try_counting(rt, guest, about);
    }
}

#[test]
fn virtual_processors_count_while_their_page_moves(rt: HostRuntime) {
    let alloc = rt.alloc();
    try_schedule(&rt, alloc, &FreeGate, 0);
    for schedule in 1..21 {
        try_schedule(&rt, alloc, &Delaying::new(schedule), schedule);
    }
}
