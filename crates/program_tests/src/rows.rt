//! Calls over one file, by their words.
use crate::telling::{must, same};
use guest_core::RunRecord;
use monitor_run::disco;
use outside_io::{CallList, FileList, FreeGate, MemShelf, MemSink};
use run_cases::{PRINTS_A, held, words_of};
use std::alloc::Global;
use std::process::Abort;
use std::sync::Wait;
use std::thread::Threads;

/// A call over one file, and what has to come of it.
#[derive(Clone, Copy)]
pub(crate) struct Row<'a> {
    pub(crate) about: &'a str,
    pub(crate) name: &'a str,
    pub(crate) words: &'a [&'a str],
    pub(crate) file: &'a [u8],
    pub(crate) shelf_fails: &'a [u64],
    pub(crate) sink_fails: &'a [u64],
    pub(crate) status: u8,
    pub(crate) output: &'a str,
    pub(crate) guests: usize,
}

/// The call that runs the program to its halt.
pub(crate) fn halts<'a>() -> Row<'a> {
    Row {
        about: "five steps",
        name: "a.raw",
        words: &["--raw", "a.raw", "--steps", "5"],
        file: &PRINTS_A,
        shelf_fails: &[],
        sink_fails: &[],
        status: 0,
        output: "guest 0 console 1\nA\nend halted\n",
        guests: 1,
    }
}

/// A shelf that holds one file.
fn shelf_of(rt: &impl Abort, alloc: Global, name: &str, file: &[u8], fails: &[u64]) -> MemShelf {
    let mut files = FileList::new(alloc);
    must(
        rt,
        files.push(must(rt, held(alloc, name, must(rt, file.to_vec(alloc))))),
    );
    MemShelf::new(
        alloc,
        files,
        CallList::from_vec(must(rt, fails.to_vec(alloc))),
    )
}

/// Makes the call of a row, and compares status, output and record.
pub(crate) fn try_row<R: Abort + Threads + Wait + Sync>(rt: &R, alloc: Global, row: &Row) {
    let mut shelf = shelf_of(rt, alloc, row.name, row.file, row.shelf_fails);
    let mut sink = MemSink::new(
        alloc,
        CallList::from_vec(must(rt, row.sink_fails.to_vec(alloc))),
    );
    let words = must(rt, words_of(alloc, row.words));
    let mut out = RunRecord::empty(alloc);
    let status = disco(
        rt, alloc, &words, &mut shelf, &mut sink, &FreeGate, &mut out,
    );
    let about = row.about;
    same(rt, status, row.status, ("status of", about));
    same(
        rt,
        sink.bytes(),
        row.output.as_bytes(),
        ("output of", about),
    );
    same(rt, out.guests.len(), row.guests, ("record of", about));
}
