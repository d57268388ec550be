//! Whole runs in which pages follow their users: by the policy's counters, as replicas, and as they are written.
use crate::cases::{Case, machine, try_all};
use crate::record::record_of;
use crate::telling::{holds, must, same};
use base_words::{By, Bytes, End, Event, MoveKind, NodeId, Ppn, ProcId, VcpuId};
use guest_core::GuestRecord;
use outside_io::{FreeGate, Gate};
use run_cases::{Delaying, counts, have_entries};
use std::alloc::Global;
use std::process::Abort;
use std::sync::Wait;
use std::thread::Threads;

/// LUI 8, C000, and five times LW 9, 1000(8), and SW 9, 1000(8): five reads of page 1, and a store to it.
const READS: [u8; 28] = [
    0x3C, 0x08, 0xC0, 0x00, 0x8D, 0x09, 0x10, 0x00, 0x8D, 0x09, 0x10, 0x00, 0x8D, 0x09, 0x10, 0x00,
    0x8D, 0x09, 0x10, 0x00, 0x8D, 0x09, 0x10, 0x00, 0xAD, 0x09, 0x10, 0x00,
];

/// LUI 8, C000, SW 8, 1000(8), and five times LW 9, 1000(8): a store to page 1, and five reads of it.
const WRITES: [u8; 28] = [
    0x3C, 0x08, 0xC0, 0x00, 0xAD, 0x08, 0x10, 0x00, 0x8D, 0x09, 0x10, 0x00, 0x8D, 0x09, 0x10, 0x00,
    0x8D, 0x09, 0x10, 0x00, 0x8D, 0x09, 0x10, 0x00, 0x8D, 0x09, 0x10, 0x00,
];

/// One processor, on node 1 of two, and a guest of 4 pages on node 0.
const FAR: (&str, &str) = (
    "nodes = 1\nframes = 16\nprocessors = [0]",
    "nodes = 2\nframes = 16\nprocessors = [1]",
);

const FOUR_PAGES: (&str, &str) = ("pages = 16", "pages = 4");

const SIX_STEPS: (&str, &str) = ("steps = 5", "steps = 6");

const SEVEN_STEPS: (&str, &str) = ("steps = 5", "steps = 7");

const MIGRATE: (&str, &str) = ("[[work]]", "[policy]\nmigrate = 3\n[[work]]");

const REPLICATE: (&str, &str) = ("[[work]]", "[policy]\nreplicate = 3\n[[work]]");

const BOTH: (&str, &str) = ("[[work]]", "[policy]\nmigrate = 3\nreplicate = 3\n[[work]]");

/// A second guest, whose pages fill node 1.
const NODE_1_IS_FULL: (&str, &str) = (
    "[policy]",
    "[[guest]]\nimage = \"a.raw\"\nform = \"raw\"\npages = 16\nvcpus = 1\nnode = 1\n[policy]",
);

#[test]
fn pages_follow_their_users(rt: HostRuntime) {
    let far = Case {
        image: &READS,
        ..machine()
    };
    let cases = [
        Case {
            changes: &[FAR, FOUR_PAGES, SIX_STEPS],
            output: "guest 0 console 0\n\nend budget\nsums steps 6 refills 2 moves 0 skips 0 breaks 0 shared 0 received 0 discarded 0\n",
            ..far
        },
        Case {
            changes: &[FAR, FOUR_PAGES, SIX_STEPS, MIGRATE],
            output: "guest 0 console 0\n\nend budget\nsums steps 6 refills 3 moves 1 skips 0 breaks 0 shared 0 received 0 discarded 0\n",
            ..far
        },
        Case {
            changes: &[FAR, FOUR_PAGES, SEVEN_STEPS, MIGRATE],
            output: "guest 0 console 0\n\nend budget\nsums steps 7 refills 3 moves 1 skips 0 breaks 0 shared 0 received 0 discarded 0\n",
            ..far
        },
        Case {
            changes: &[FAR, FOUR_PAGES, SEVEN_STEPS, REPLICATE],
            output: "guest 0 console 0\n\nend budget\nsums steps 7 refills 4 moves 2 skips 0 breaks 0 shared 0 received 0 discarded 0\n",
            ..far
        },
        Case {
            changes: &[FAR, FOUR_PAGES, SEVEN_STEPS, BOTH],
            output: "guest 0 console 0\n\nend budget\nsums steps 7 refills 3 moves 1 skips 0 breaks 0 shared 0 received 0 discarded 0\n",
            ..far
        },
        Case {
            changes: &[FAR, FOUR_PAGES, SEVEN_STEPS, REPLICATE],
            image: &WRITES,
            output: "guest 0 console 0\n\nend budget\nsums steps 7 refills 2 moves 0 skips 0 breaks 0 shared 0 received 0 discarded 0\n",
            ..far
        },
        Case {
            changes: &[FAR, FOUR_PAGES, SEVEN_STEPS, MIGRATE, NODE_1_IS_FULL],
            output: "guest 0 console 0\n\nend budget\nsums steps 7 refills 2 moves 0 skips 1 breaks 0 shared 0 received 0 discarded 0\nguest 1 console 0\n\nend budget\nsums steps 0 refills 0 moves 0 skips 0 breaks 0 shared 0 received 0 discarded 0\n",
            guests: 2,
            ..far
        },
        Case {
            changes: &[FAR, FOUR_PAGES, ("steps = 5", "steps = 4"), MIGRATE],
            output: "guest 0 console 0\n\nend budget\nsums steps 4 refills 2 moves 0 skips 0 breaks 0 shared 0 received 0 discarded 0\n",
            ..far
        },
    ];
    try_all(&rt, rt.alloc(), &cases)
}

/// Before the run: a replica of page 0 on node 1, another one there, the page to node 1, then none, and none once more.
const REPLICA_AND_BACK: (&str, &str) = (
    "[[work]]\nact = \"run\"",
    "[[work]]\nact = \"move\"\nprocessor = 0\nguest = 0\npage = 0\nkind = \"replicate\"\nnode = 1\n[[work]]\nact = \"move\"\nprocessor = 0\nguest = 0\npage = 0\nkind = \"replicate\"\nnode = 1\n[[work]]\nact = \"move\"\nprocessor = 0\nguest = 0\npage = 0\nkind = \"migrate\"\nnode = 1\n[[work]]\nact = \"move\"\nprocessor = 0\nguest = 0\npage = 0\nkind = \"collapse\"\n[[work]]\nact = \"move\"\nprocessor = 0\nguest = 0\npage = 0\nkind = \"collapse\"\n[[work]]\nact = \"run\"",
);

/// Before the run: replicas of page 1 on the other nodes.
const THREE_REPLICAS: (&str, &str) = (
    "[[work]]\nact = \"run\"",
    "[[work]]\nact = \"move\"\nprocessor = 0\nguest = 0\npage = 1\nkind = \"replicate\"\nnode = 1\n[[work]]\nact = \"move\"\nprocessor = 0\nguest = 0\npage = 1\nkind = \"replicate\"\nnode = 2\n[[work]]\nact = \"move\"\nprocessor = 0\nguest = 0\npage = 1\nkind = \"replicate\"\nnode = 3\n[[work]]\nact = \"run\"",
);

#[test]
fn planned_replicas_come_and_go(rt: HostRuntime) {
    let cases = [
        Case {
            changes: &[("nodes = 1", "nodes = 2"), REPLICA_AND_BACK],
            output: "guest 0 console 1\nA\nend halted\nsums steps 5 refills 1 moves 2 skips 3 breaks 0 shared 0 received 0 discarded 0\n",
            ..machine()
        },
        Case {
            changes: &[("nodes = 1", "nodes = 4"), SEVEN_STEPS, THREE_REPLICAS],
            image: &READS,
            output: "guest 0 console 0\n\nend budget\nsums steps 7 refills 3 moves 4 skips 0 breaks 0 shared 0 received 0 discarded 0\n",
            ..machine()
        },
    ];
    try_all(&rt, rt.alloc(), &cases)
}

/// Two virtual processors of a guest of 4 pages on node 0, which count on processors of two other nodes under a policy of these thresholds,
/// while the plan makes replicas of the page on which they count.
fn counting_text(rt: &impl Abort, alloc: Global, migrate: u8, replicate: u8) -> String {
    let mut text = must(
        rt,
        format!(in alloc;
            "[machine]\nnodes = 4\nframes = 16\nprocessors = [1, 2, 3]\n[policy]\nmigrate = {migrate}\nreplicate = {replicate}\n[[guest]]\nimage = \"a.raw\"\nform = \"raw\"\npages = 4\nvcpus = 2\nnode = 0\n[[work]]\nact = \"run\"\nprocessor = 0\nguest = 0\nvcpu = 0\nsteps = 100000\n[[work]]\nact = \"run\"\nprocessor = 1\nguest = 0\nvcpu = 1\nsteps = 100000\n"
        ),
    );
    for _ in 0..5u8 {
        must(
            rt,
            text.push_str(
                "[[work]]\nact = \"move\"\nprocessor = 2\nguest = 0\npage = 1\nkind = \"replicate\"\nnode = 3\n",
            ),
        );
        must(
            rt,
            text.push_str(
                "[[work]]\nact = \"move\"\nprocessor = 2\nguest = 0\npage = 1\nkind = \"collapse\"\n",
            ),
        );
    }
    text
}

/// Whether an entry begins a move that the policy chose.
fn is_due(event: Event) -> bool {
    match event {
        Event::Begin { by: By::Due(_), .. } => true,
        _ => false,
    }
}

/// Whether an entry begins a move that the plan asked for.
fn is_planned(event: Event) -> bool {
    match event {
        Event::Begin {
            by: By::Plan(_),
            ..
        } => true,
        _ => false,
    }
}

/// The guest printed Y and halted, each planned move was begun or noted as skipped, and pages moved by the policy.
fn try_counting<R: Abort>(rt: &R, guest: &GuestRecord, about: u64) {
    same(
        rt,
        guest.console.as_slice(),
        b"Y".as_slice(),
        ("console of schedule", about),
    );
    same(rt, guest.end, End::Halted, ("end of schedule", about));
    let mut skipped = 0u64;
    for skip in guest.skips.as_slice() {
        if let By::Plan(_) = skip.by {
            skipped = skipped.saturating_add(1);
        }
    }
    same(
        rt,
        guest.journal.count_of(is_planned).saturating_add(skipped),
        10,
        ("planned moves of schedule", about),
    );
    holds(
        rt,
        guest.journal.count_of(is_due) > 0,
        ("moves by the policy under schedule", about),
    );
}

/// Runs it under a gate.
fn try_schedule<R: Abort + Threads + Wait + Sync, G: Gate>(
    rt: &R,
    alloc: Global,
    gate: &G,
    about: u64,
) {
    let text = counting_text(rt, alloc, 2, 3);
    let image = must(rt, counts(alloc, 2));
    let out = record_of(rt, alloc, text.as_str(), image, gate);
    for guest in out.guests.as_slice() {
        try_counting(rt, guest, about);
    }
}

#[test]
fn virtual_processors_count_under_a_policy(rt: HostRuntime) {
    let alloc = rt.alloc();
    try_schedule(&rt, alloc, &FreeGate, 0);
    for schedule in 1..21 {
        try_schedule(&rt, alloc, &Delaying::new(schedule), schedule);
    }
}

/// After the third miss of page 1 the policy asks for its migration, through processor 0, to node 1.
#[test]
fn the_third_miss_asks(rt: HostRuntime) {
    let alloc = rt.alloc();
    let (processor, vcpu, page) = (ProcId(0), VcpuId(0), Ppn(1));
    let text =
        "[machine]\nnodes = 2\nframes = 16\nprocessors = [1]\n[policy]\nmigrate = 3\n[[guest]]\nimage = \"a.raw\"\nform = \"raw\"\npages = 4\nvcpus = 1\nnode = 0\n[[work]]\nact = \"run\"\nprocessor = 0\nguest = 0\nvcpu = 0\nsteps = 5\n";
    let image = Bytes::from_vec(must(&rt, READS.to_vec(alloc)));
    let out = record_of(&rt, alloc, text, image, &FreeGate);
    let expected = [
        (Event::Load(processor, vcpu), 1),
        (Event::Refill(processor), 1),
        (Event::Direct(processor, vcpu), 1),
        (Event::Refill(processor), 1),
        (Event::Direct(processor, vcpu), 3),
        (
            Event::Begin {
                page,
                kind: MoveKind::Migrate,
                node: NodeId(1),
                by: By::Due(processor),
            },
            1,
        ),
        (Event::Ack(processor, page), 1),
        (Event::Finish(page), 1),
        (Event::Refill(processor), 1),
        (Event::Direct(processor, vcpu), 1),
        (Event::Unload(processor), 1),
        (Event::End(End::Budget), 1),
    ];
    assert!(&rt; have_entries(&out, &expected), "its entries");
}
