//! Raw guests of four pages on one machine, with a program each: their description, their files and their report.
use crate::telling::{must, same};
use guest_core::RunRecord;
use monitor_run::disco;
use outside_io::{CallList, FileList, FreeGate, MemShelf, MemSink};
use run_cases::{Part, file_of_parts, held, words_of};
use std::alloc::Global;
use std::process::Abort;
use std::sync::Wait;
use std::thread::Threads;

/// A guest: its program, its home, the line of its disk, and what its part of the report says.
#[derive(Clone, Copy)]
pub(crate) struct Guest<'a> {
    pub(crate) program: &'a [u32],
    pub(crate) node: u8,
    pub(crate) disk: &'a str,
    pub(crate) console: &'a str,
    pub(crate) end: &'a str,
    pub(crate) steps: u32,
    pub(crate) refills: u32,
    pub(crate) breaks: u32,
    pub(crate) shared: u32,
    pub(crate) received: u32,
}

/// A guest on node 0, without a disk, that only makes steps.
pub(crate) const PLAIN: Guest<'static> = Guest {
    program: &[],
    node: 0,
    disk: "",
    console: "",
    end: "budget",
    steps: 0,
    refills: 0,
    breaks: 0,
    shared: 0,
    received: 0,
};

/// The lines of the machine, with its cells; what the disks begin with, which are all equal; guests, and the run items of the plan: each a
/// guest and a number of steps, on processor 0.
#[derive(Clone, Copy)]
pub(crate) struct Case<'a> {
    pub(crate) about: &'a str,
    pub(crate) machine: &'a str,
    pub(crate) disk: &'a [Part<'a>],
    pub(crate) guests: &'a [Guest<'a>],
    pub(crate) runs: &'a [(u8, u32)],
}

/// The description of a case.
fn description_of(rt: &impl Abort, alloc: Global, case: &Case) -> String {
    let machine = case.machine;
    let mut text = must(rt, format!(in alloc; "[machine]\n{machine}"));
    for (number, guest) in case.guests.iter().enumerate() {
        let Guest { node, disk, .. } = *guest;
        must(
            rt,
            text.push_str(must(
                rt,
                format!(in alloc;
                    "[[guest]]\nimage = \"{number}\"\nform = \"raw\"\npages = 4\nvcpus = 1\nnode = {node}\n{disk}"
                ),
            )
            .as_str()),
        );
    }
    for (guest, steps) in case.runs {
        must(
            rt,
            text.push_str(must(
                rt,
                format!(in alloc;
                    "[[work]]\nact = \"run\"\nprocessor = 0\nguest = {guest}\nvcpu = 0\nsteps = {steps}\n"
                ),
            )
            .as_str()),
        );
    }
    text
}

/// A guest's lines without its sums.
fn alone_of(rt: &impl Abort, alloc: Global, number: usize, guest: &Guest) -> String {
    let Guest { console, end, .. } = *guest;
    let length = console.len();
    must(
        rt,
        format!(in alloc; "guest {number} console {length}\n{console}\nend {end}\n"),
    )
}

/// A guest's line of sums.
fn sums_of(rt: &impl Abort, alloc: Global, guest: &Guest) -> String {
    let Guest {
        steps,
        refills,
        breaks,
        shared,
        received,
        ..
    } = *guest;
    must(
        rt,
        format!(in alloc;
            "sums steps {steps} refills {refills} moves 0 skips 0 breaks {breaks} shared {shared} received {received} discarded 0\n"
        ),
    )
}

/// The report of a case, with the sums of a run under the monitor or without.
fn report_of(rt: &impl Abort, alloc: Global, case: &Case, has_sums: bool) -> String {
    let mut text = String::new(alloc);
    for (number, guest) in case.guests.iter().enumerate() {
        must(
            rt,
            text.push_str(alone_of(rt, alloc, number, guest).as_str()),
        );
        if has_sums {
            must(rt, text.push_str(sums_of(rt, alloc, guest).as_str()));
        }
    }
    text
}

/// A shelf with the description, the image of each guest, and the disks d and e.
fn shelf_of(rt: &impl Abort, alloc: Global, case: &Case) -> MemShelf {
    let mut files = FileList::new(alloc);
    let description = description_of(rt, alloc, case).into_bytes();
    must(rt, files.push(must(rt, held(alloc, "m", description))));
    for (number, guest) in case.guests.iter().enumerate() {
        let name = must(rt, format!(in alloc; "{number}"));
        let image = must(rt, file_of_parts(alloc, &[(0, guest.program)]));
        must(rt, files.push(must(rt, held(alloc, name.as_str(), image))));
    }
    for name in ["d", "e"] {
        must(
            rt,
            files.push(must(
                rt,
                held(alloc, name, must(rt, file_of_parts(alloc, case.disk))),
            )),
        );
    }
    MemShelf::new(alloc, files, CallList::new(alloc))
}

/// Runs a case by an option, and compares the report, which has sums or has none.
fn try_by<R: Abort + Threads + Wait + Sync>(
    rt: &R,
    alloc: Global,
    case: &Case,
    option: &str,
    has_sums: bool,
) {
    let mut shelf = shelf_of(rt, alloc, case);
    let mut sink = MemSink::new(alloc, CallList::new(alloc));
    let words = must(rt, words_of(alloc, &[option, "m"]));
    let mut out = RunRecord::empty(alloc);
    let status = disco(
        rt, alloc, &words, &mut shelf, &mut sink, &FreeGate, &mut out,
    );
    let about = case.about;
    same(rt, status, 0, ("status", about, option));
    same(
        rt,
        sink.bytes(),
        report_of(rt, alloc, case, has_sums).as_bytes(),
        ("report", about, option),
    );
}

/// Runs cases under the monitor.
pub(crate) fn try_monitored<R: Abort + Threads + Wait + Sync>(
    rt: &R,
    alloc: Global,
    cases: &[Case],
) {
    for case in cases {
        try_by(rt, alloc, case, "--machine", true);
    }
}

/// Runs cases under the monitor, and each guest alone, which prints the same.
pub(crate) fn try_both<R: Abort + Threads + Wait + Sync>(rt: &R, alloc: Global, cases: &[Case]) {
    for case in cases {
        try_by(rt, alloc, case, "--machine", true);
        try_by(rt, alloc, case, "--private", false);
    }
}
