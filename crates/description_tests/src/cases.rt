//! Calls of a description with changes, by their statuses and outputs.
use crate::telling::{must, same};
use guest_core::RunRecord;
use monitor_run::disco;
use outside_io::{CallList, FileList, FreeGate, MemShelf, MemSink};
use run_cases::{PRINTS_A, held, words_of};
use std::alloc::Global;
use std::process::Abort;
use std::sync::Wait;
use std::thread::Threads;

/// One guest of 16 pages on one node of 16 frames, which runs for five steps.
pub(crate) const P1: &str = "[machine]
nodes = 1
frames = 16
processors = [0]
[[guest]]
image = \"a.raw\"
form = \"raw\"
pages = 16
vcpus = 1
node = 0
[[work]]
act = \"run\"
processor = 0
guest = 0
vcpu = 0
steps = 5
";

/// Its report.
pub(crate) const ALONE: &str = "guest 0 console 1\nA\nend halted\n";

/// The same under the monitor.
pub(crate) const WITH_SUMS: &str =
    "guest 0 console 1\nA\nend halted\nsums steps 5 refills 1 moves 0 skips 0 breaks 0 shared 0 received 0 discarded 0\n";

/// A change of the description: what is replaced, and by what.
pub(crate) type Change<'a> = (&'a str, &'a str);

/// A description that is P1 with changes, the words' option, the files, what fails, and what has to come of it.
#[derive(Clone, Copy)]
pub(crate) struct Case<'a> {
    pub(crate) option: &'a str,
    pub(crate) changes: &'a [Change<'a>],
    pub(crate) image: &'a [u8],
    pub(crate) disk: &'a [u8],
    pub(crate) shelf_fails: &'a [u64],
    pub(crate) sink_fails: &'a [u64],
    pub(crate) status: u8,
    pub(crate) output: &'a str,
    pub(crate) guests: usize,
}

/// P1 itself, under the monitor.
pub(crate) fn machine<'a>() -> Case<'a> {
    Case {
        option: "--machine",
        changes: &[],
        image: &PRINTS_A,
        disk: &[0, 0, 0, 0x61],
        shelf_fails: &[],
        sink_fails: &[],
        status: 0,
        output: WITH_SUMS,
        guests: 1,
    }
}

/// P1 itself, each guest alone.
pub(crate) fn private<'a>() -> Case<'a> {
    Case {
        option: "--private",
        output: ALONE,
        guests: 0,
        ..machine()
    }
}

/// P1 with changes, which is refused.
pub(crate) fn refused<'a>(changes: &'a [Change<'a>], status: u8, output: &'a str) -> Case<'a> {
    Case {
        changes,
        status,
        output,
        guests: 0,
        ..machine()
    }
}

/// A shelf with the description, the image and the disk.
fn shelf_of(rt: &impl Abort, alloc: Global, text: &str, case: &Case) -> MemShelf {
    let mut files = FileList::new(alloc);
    must(
        rt,
        files.push(must(
            rt,
            held(alloc, "m", must(rt, text.as_bytes().to_vec(alloc))),
        )),
    );
    must(
        rt,
        files.push(must(rt, held(alloc, "a.raw", must(rt, case.image.to_vec(alloc))))),
    );
    must(
        rt,
        files.push(must(rt, held(alloc, "d.img", must(rt, case.disk.to_vec(alloc))))),
    );
    let fails = CallList::from_vec(must(rt, case.shelf_fails.to_vec(alloc)));
    MemShelf::new(alloc, files, fails)
}

/// Makes the call of a case, and compares status, output and record.
pub(crate) fn try_case<R: Abort + Threads + Wait + Sync>(rt: &R, alloc: Global, case: &Case) {
    let mut text = must(rt, String::from_str(alloc, P1));
    for (old, new) in case.changes {
        text = must(rt, text.replace(alloc, *old, *new));
    }
    let mut shelf = shelf_of(rt, alloc, text.as_str(), case);
    let mut sink = MemSink::new(
        alloc,
        CallList::from_vec(must(rt, case.sink_fails.to_vec(alloc))),
    );
    let words = must(rt, words_of(alloc, &[case.option, "m"]));
    let mut out = RunRecord::empty(alloc);
    let status = disco(
        rt, alloc, &words, &mut shelf, &mut sink, &FreeGate, &mut out,
    );
    same(rt, status, case.status, ("status of", text.as_str()));
    same(
        rt,
        sink.bytes(),
        case.output.as_bytes(),
        ("output of", text.as_str()),
    );
    same(
        rt,
        out.guests.len(),
        case.guests,
        ("record of", text.as_str()),
    );
}

/// Makes the calls of some cases.
pub(crate) fn try_all<R: Abort + Threads + Wait + Sync>(rt: &R, alloc: Global, cases: &[Case]) {
    for case in cases {
        try_case(rt, alloc, case);
    }
}

/// A further guest of one page, before the other, which becomes guest 1.
pub(crate) const TWO_GUESTS: Change<'static> = (
    "[[guest]]",
    "[[guest]]\nimage = \"a.raw\"\nform = \"raw\"\npages = 1\nvcpus = 1\nnode = 0\n[[guest]]",
);

pub(crate) const FRAMES: Change<'static> = ("frames = 16", "frames = 17");

/// Guest 1 runs first, and guest 0 a step less.
pub(crate) const BOTH_RUN: Change<'static> = (
    "guest = 0\nvcpu = 0\nsteps = 5\n",
    "guest = 1\nvcpu = 0\nsteps = 5\n[[work]]\nact = \"run\"\nprocessor = 0\nguest = 0\nvcpu = 0\nsteps = 4\n",
);

/// LW 2, 10(1) in the place of ADDIU 2, 0, 41, and ADDIU 2, 2, 41 behind it: each virtual processor prints its letter and halts.
pub(crate) const PRINTS_ITS_NUMBER: [u8; 24] = [
    0x3C, 0x01, 0xCF, 0xFF, 0x34, 0x21, 0xF0, 0x00, 0x8C, 0x22, 0x00, 0x10, 0x24, 0x42, 0x00, 0x41,
    0xAC, 0x22, 0x00, 0x00, 0xAC, 0x22, 0x00, 0x04,
];

pub(crate) const TWO_VCPUS: Change<'static> = ("vcpus = 1", "vcpus = 2");

/// Virtual processor 1 runs to its halt, and then 0.
pub(crate) const ONE_THEN_ZERO: Change<'static> = (
    "vcpu = 0\nsteps = 5\n",
    "vcpu = 1\nsteps = 6\n[[work]]\nact = \"run\"\nprocessor = 0\nguest = 0\nvcpu = 0\nsteps = 6\n",
);

/// Virtual processor 1 alone runs.
pub(crate) const ONE_ALONE: Change<'static> = ("vcpu = 0\nsteps = 5\n", "vcpu = 1\nsteps = 6\n");

/// LW 2, 8(1) takes a byte of input, which is printed.
pub(crate) const PRINTS_INPUT: [u8; 20] = [
    0x3C, 0x01, 0xCF, 0xFF, 0x34, 0x21, 0xF0, 0x00, 0x8C, 0x22, 0x00, 0x08, 0xAC, 0x22, 0x00, 0x00,
    0xAC, 0x22, 0x00, 0x04,
];

/// A byte that comes before the third step.
pub(crate) const INPUT: Change<'static> = (
    "steps = 5\n",
    "steps = 5\n[[input]]\nguest = 0\nat = 2\ntext = \"Z\"\n",
);

/// Reads block 0 into page 2, prints its low byte, adds 1, and prints it again.
pub(crate) const READS_A_BLOCK: [u8; 60] = [
    0x3C, 0x10, 0xCF, 0xFF, 0x36, 0x10, 0xF0, 0x00, 0xAE, 0x00, 0x00, 0x20, 0x24, 0x08, 0x00, 0x02,
    0xAE, 0x08, 0x00, 0x24, 0x24, 0x09, 0x00, 0x01, 0xAE, 0x09, 0x00, 0x28, 0x3C, 0x0A, 0xC0, 0x00,
    0x8D, 0x4B, 0x20, 0x00, 0xAE, 0x0B, 0x00, 0x00, 0x25, 0x6B, 0x00, 0x01, 0xAD, 0x4B, 0x20, 0x00,
    0x8D, 0x4B, 0x20, 0x00, 0xAE, 0x0B, 0x00, 0x00, 0xAE, 0x00, 0x00, 0x04,
];

pub(crate) const DISK: Change<'static> = ("vcpus = 1", "vcpus = 1\ndisk = \"d.img\"");

/// The cell keeps a block of the guests' disks.
pub(crate) const KEEPS_ONE: Change<'static> = ("processors = [0]", "processors = [0]\ncache = 1");

pub(crate) const FOUR_PAGES: Change<'static> = ("pages = 16", "pages = 4");

pub(crate) const FOUR_FRAMES: Change<'static> = ("frames = 16", "frames = 4");

/// Reads block 0 into page 2, prints its low byte, puts a byte of input in its place and writes the block; reads it into page 3, and
/// prints its low byte.
pub(crate) const WRITES_A_BLOCK: [u8; 84] = [
    0x3C, 0x10, 0xCF, 0xFF, 0x36, 0x10, 0xF0, 0x00, 0xAE, 0x00, 0x00, 0x20, 0x24, 0x08, 0x00, 0x02,
    0xAE, 0x08, 0x00, 0x24, 0x24, 0x09, 0x00, 0x01, 0xAE, 0x09, 0x00, 0x28, 0x3C, 0x0A, 0xC0, 0x00,
    0x8D, 0x4B, 0x20, 0x00, 0xAE, 0x0B, 0x00, 0x00, 0x8E, 0x0B, 0x00, 0x08, 0xAD, 0x4B, 0x20, 0x00,
    0x24, 0x09, 0x00, 0x02, 0xAE, 0x09, 0x00, 0x28, 0x24, 0x08, 0x00, 0x03, 0xAE, 0x08, 0x00, 0x24,
    0x24, 0x09, 0x00, 0x01, 0xAE, 0x09, 0x00, 0x28, 0x8D, 0x4B, 0x30, 0x00, 0xAE, 0x0B, 0x00, 0x00,
    0xAE, 0x00, 0x00, 0x04,
];

/// The same for a guest of one page.
pub(crate) const MORE_PAGES: Change<'static> = ("pages = 1\n", "pages = 4\n");

/// Guest 0 runs until it has written its block, guest 1 to its halt, and guest 0 again; each has a byte of its own typed.
pub(crate) const ONE_WITHIN_THE_OTHER: Change<'static> = (
    "guest = 0\nvcpu = 0\nsteps = 5\n",
    "guest = 0\nvcpu = 0\nsteps = 14\n[[work]]\nact = \"run\"\nprocessor = 0\nguest = 1\nvcpu = 0\nsteps = 21\n[[work]]\nact = \"run\"\nprocessor = 0\nguest = 0\nvcpu = 0\nsteps = 7\n[[input]]\nguest = 0\nat = 0\ntext = \"x\"\n[[input]]\nguest = 1\nat = 0\ntext = \"y\"\n",
);

/// Two nodes of 4 frames, each a cell of its own; the second one lends two frames.
pub(crate) const CELLS: Change<'static> = (
    "nodes = 1\nframes = 16\nprocessors = [0]\n",
    "nodes = 2\nframes = 4\nprocessors = [0]\n[[cell]]\nnodes = [0]\n[[cell]]\nnodes = [1]\nlend = 2\n",
);

/// A guest of 4 pages at home on the second node, with no work.
pub(crate) const SECOND_GUEST: Change<'static> = (
    "[[work]]",
    "[[guest]]\nimage = \"a.raw\"\nform = \"raw\"\npages = 4\nvcpus = 1\nnode = 1\n[[work]]",
);

pub(crate) const FIFTEEN_STEPS: Change<'static> = ("steps = 5", "steps = 15");

/// A move and a failure behind the run.
pub(crate) const MOVE_AND_FAILURE: Change<'static> = (
    "steps = 15\n",
    "steps = 15\n[[work]]\nact = \"move\"\nprocessor = 0\nguest = 0\npage = 0\nkind = \"migrate\"\nnode = 0\n[[work]]\nact = \"fail\"\nprocessor = 0\ncell = 0\n",
);
