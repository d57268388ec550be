//! The record of a run.
use crate::telling::{must, same};
use base_words::Bytes;
use guest_core::RunRecord;
use monitor_run::disco;
use outside_io::Gate;
use run_cases::{Call, call_of};
use std::alloc::Global;
use std::process::Abort;
use std::sync::Wait;
use std::thread::Threads;

/// Runs a description whose guests all have this image, and gives the record.
pub(crate) fn record_of<R: Abort + Threads + Wait + Sync, G: Gate>(
    rt: &R,
    alloc: Global,
    text: &str,
    image: Bytes,
    gate: &G,
) -> RunRecord {
    let no_disk = Bytes::from_vec(Vec::new(alloc));
    let Call {
        words,
        mut shelf,
        mut sink,
    } = must(rt, call_of(alloc, text, image, no_disk));
    let mut out = RunRecord::empty(alloc);
    let status = disco(rt, alloc, &words, &mut shelf, &mut sink, gate, &mut out);
    same(rt, status, 0, text);
    out
}
