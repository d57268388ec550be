//! Litmus files, with what is printed for them. The expected texts are worked out by hand.
use crate::telling::{must, same};
use base_words::{Bytes, Name, ProcId};
use guest_core::RunRecord;
use monitor_run::disco;
use outside_io::{CallList, FileList, FreeGate, Gate, GatePoint, HeldFile, MemShelf, MemSink};
use run_cases::words_of;
use std::alloc::Global;
use std::process::Abort;
use std::sync::Wait;
use std::sync::atomic::{AtomicU64, Ordering};
use std::thread::Threads;

/// A litmus file, the calls that fail, and what has to come of it.
#[derive(Clone, Copy)]
struct Row<'a> {
    text: &'a [u8],
    shelf_fails: &'a [u64],
    sink_fails: &'a [u64],
    status: u8,
    output: &'a str,
}

/// A store and a load of one caller.
fn carried_out<'a>() -> Row<'a> {
    Row {
        text: b"pages = 1\n[[caller]]\nops = [[0, 0, 5], [0, 0]]\n",
        shelf_fails: &[],
        sink_fails: &[],
        status: 0,
        output: "page 0 2\n0 s 0 5\n0 l 0 5\n",
    }
}

/// An offset that isn't a multiple of 4.
fn refused<'a>() -> Row<'a> {
    Row {
        text: b"pages = 1\n[[caller]]\nops = [[0, 2]]\n",
        status: 10,
        output: "fault litmus range caller[0].ops 2\n",
        ..carried_out()
    }
}

/// Makes the call of a row under a gate, and compares status, output and record.
fn try_under<R: Abort + Threads + Wait + Sync, G: Gate>(
    rt: &R,
    alloc: Global,
    row: &Row,
    gate: &G,
) {
    let mut files = FileList::new(alloc);
    must(
        rt,
        files.push(HeldFile {
            name: must(rt, Name::copy_of(alloc, "l")),
            bytes: Bytes::from_vec(must(rt, row.text.to_vec(alloc))),
        }),
    );
    let fails = CallList::from_vec(must(rt, row.shelf_fails.to_vec(alloc)));
    let mut shelf = MemShelf::new(alloc, files, fails);
    let mut sink = MemSink::new(
        alloc,
        CallList::from_vec(must(rt, row.sink_fails.to_vec(alloc))),
    );
    let words = must(rt, words_of(alloc, &["--litmus", "l"]));
    let mut out = RunRecord::empty(alloc);
    let status = disco(rt, alloc, &words, &mut shelf, &mut sink, gate, &mut out);
    let output = row.output;
    same(rt, status, row.status, ("status of", output));
    assert!(rt; sink.bytes() == output.as_bytes());
    assert!(rt; out.guests.is_empty() && out.slices.is_empty() && out.failures.is_empty());
}

fn try_row<R: Abort + Threads + Wait + Sync>(rt: &R, alloc: Global, row: &Row) {
    try_under(rt, alloc, row, &FreeGate)
}

#[test]
fn litmus_files_are_carried_out_or_refused(rt: HostRuntime) {
    let rows = [
        carried_out(),
        refused(),
        Row {
            text: b"pages = ",
            output: "fault litmus toml\n",
            ..refused()
        },
        Row {
            shelf_fails: &[1],
            status: 3,
            output: "fault read l\n",
            ..carried_out()
        },
        Row {
            sink_fails: &[1],
            status: 4,
            output: "",
            ..carried_out()
        },
        Row {
            sink_fails: &[2],
            status: 4,
            ..carried_out()
        },
        Row {
            sink_fails: &[1],
            output: "",
            ..refused()
        },
    ];
    for row in &rows {
        try_row(&rt, rt.alloc(), row);
    }
}

/// A file of one caller without accesses, with a comment up to so many bytes.
fn file_of(rt: &impl Abort, alloc: Global, bytes: usize) -> Vec<u8> {
    let mut text = must(rt, b"pages = 1\n[[caller]]\nops = []\n#".to_vec(alloc));
    must(rt, text.resize(bytes, b'#'));
    text
}

#[test]
fn the_longest_litmus_file(rt: HostRuntime) {
    let alloc = rt.alloc();
    let longest = file_of(&rt, alloc, 1_048_576);
    let taken = Row {
        text: longest.as_slice(),
        output: "page 0 0\n",
        ..carried_out()
    };
    try_row(&rt, alloc, &taken);
    let longer = file_of(&rt, alloc, 1_048_577);
    let long = Row {
        text: longer.as_slice(),
        status: 8,
        output: "fault long l\n",
        ..carried_out()
    };
    try_row(&rt, alloc, &long);
}

/// How often the gate looks at most, before it lets the access pass all the same.
const LOOKS: u32 = 10_000_000;

/// Holds the first caller's access until the second one's was seen.
#[derive(Drop)]
struct Holding {
    seen: AtomicU64,
    held: AtomicU64,
}

impl Gate for Holding {
    fn pass(&self, at: GatePoint) {
        if at.processor == ProcId(1) {
            self.seen.store(1, Ordering::SeqCst);
            return;
        }
        for _ in 0..LOOKS {
            if self.seen.load(Ordering::SeqCst) == 1 {
                self.held.store(1, Ordering::SeqCst);
                return;
            }
        }
    }

    fn is_free(&self) -> bool {
        false
    }
}

#[test]
fn two_pages_are_held_at_once(rt: HostRuntime) {
    let row = Row {
        text: b"pages = 2\n[[caller]]\nops = [[0, 0, 1]]\n[[caller]]\nops = [[1, 0, 2]]\n",
        output: "page 0 1\n0 s 0 1\npage 1 1\n1 s 0 2\n",
        ..carried_out()
    };
    let gate = Holding {
        seen: AtomicU64::new(0),
        held: AtomicU64::new(0),
    };
    try_under(&rt, rt.alloc(), &row, &gate);
    assert!(rt; gate.held.load(Ordering::SeqCst) == 1, "the gate saw it");
}
