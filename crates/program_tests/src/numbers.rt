//! What is made from a number: printed, and run. The hashes are those of listings that were built from the tables by another program, and the
//! consoles those of another model of the guests' arithmetic.
use crate::rows::{Row, halts, try_row};
use crate::seven::{SEVEN, without_sums};
use crate::telling::must;
use guest_core::RunRecord;
use monitor_run::disco;
use outside_io::{CallList, FileList, FreeGate, MemShelf, MemSink};
use run_cases::words_of;
use std::alloc::Global;
use std::process::Abort;
use std::str::from_utf8;
use std::sync::Wait;
use std::thread::Threads;

/// A call over an empty shelf: its words, which of its reads and puts fail, and its status.
#[derive(Clone, Copy)]
struct Call<'a> {
    words: &'a [&'a str],
    shelf_fails: &'a [u64],
    sink_fails: &'a [u64],
    status: u8,
}

/// Makes a call; answers its output.
fn output_of<R: Abort + Threads + Wait + Sync>(
    rt: &R,
    alloc: Global,
    call: &Call,
    out: &mut RunRecord,
) -> Vec<u8> {
    let fails = CallList::from_vec(must(rt, call.shelf_fails.to_vec(alloc)));
    let mut shelf = MemShelf::new(alloc, FileList::new(alloc), fails);
    let mut sink = MemSink::new(
        alloc,
        CallList::from_vec(must(rt, call.sink_fails.to_vec(alloc))),
    );
    let words = must(rt, words_of(alloc, call.words));
    *out = RunRecord::empty(alloc);
    let status = disco(rt, alloc, &words, &mut shelf, &mut sink, &FreeGate, out);
    assert!(rt; status == call.status);
    must(rt, sink.bytes().to_vec(alloc))
}

/// The FNV-1a hash of some bytes.
fn hash_of(bytes: &[u8]) -> u32 {
    let mut hash = 0x811C_9DC5u32;
    for byte in bytes {
        hash = (hash ^ u32::from(*byte)).wrapping_mul(0x0100_0193);
    }
    hash
}

/// Prints what is made from a number, and compares its length and its hash.
fn try_made<R: Abort + Threads + Wait + Sync>(rt: &R, alloc: Global, seed: &str, hash: u32) {
    let call = Call {
        words: &["--make", seed],
        shelf_fails: &[1],
        sink_fails: &[],
        status: 0,
    };
    let mut out = RunRecord::empty(alloc);
    let output = output_of(rt, alloc, &call, &mut out);
    assert!(rt; output.len() == 76_932);
    assert!(rt; hash_of(&output) == hash);
    assert!(rt; out.guests.len() == 0);
}

#[test]
fn what_is_made_is_printed(rt: HostRuntime) {
    let rows = [
        ("7", 0xD81B_F49E),
        ("7", 0xD81B_F49E),
        ("0", 0xC292_B8B6),
        ("4294967295", 0x4613_F53A),
    ];
    for (seed, hash) in &rows {
        try_made(&rt, rt.alloc(), *seed, *hash);
    }
}

#[test]
fn a_listing_breaks_off_where_the_output_fails(rt: HostRuntime) {
    let alloc = rt.alloc();
    let call = Call {
        words: &["--make=7"],
        shelf_fails: &[],
        sink_fails: &[3],
        status: 4,
    };
    let mut out = RunRecord::empty(alloc);
    let output = output_of(&rt, alloc, &call, &mut out);
    assert!(rt; output.starts_with(b"[machine]\nnodes = 4\nframes = 128\n"));
    assert!(rt; output.ends_with(b"steps = 50000\nfile g0.elf 836\n"));
    assert!(rt; output.len() == 3510);
}

/// Runs what is made from 7, with reads that would fail.
fn try_loaded<R: Abort + Threads + Wait + Sync>(rt: &R, alloc: Global, words: &[&str]) {
    let call = Call {
        words,
        shelf_fails: &[1],
        sink_fails: &[],
        status: 0,
    };
    let mut out = RunRecord::empty(alloc);
    let output = output_of(rt, alloc, &call, &mut out);
    let report = must(rt, from_utf8(&output));
    assert!(rt; without_sums(rt, alloc, report).as_str() == SEVEN);
    assert!(rt; report.lines().count() == 16);
    assert!(rt; out.guests.len() == 4);
}

#[test]
fn what_is_made_runs(rt: HostRuntime) {
    try_loaded(&rt, rt.alloc(), &["--load=0000000007"])
}

#[test]
fn numbers_are_refused(rt: HostRuntime) {
    let rows: [&[&str]; 8] = [
        &["--load", "4294967296"],
        &["--make", "4294967296"],
        &["--make", "00000000007"],
        &["--load", "-7"],
        &["--load"],
        &["--make", "7", "--load", "7"],
        &["--load", "7", "--steps", "5"],
        &["--make", "7", "--make", "7"],
    ];
    for words in &rows {
        let row = Row {
            about: "numbers",
            words: *words,
            status: 2,
            output: "fault words\n",
            guests: 0,
            ..halts()
        };
        try_row(&rt, rt.alloc(), &row);
    }
}
