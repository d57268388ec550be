//! Printed texts, worked out by hand.
use crate::telling::{gave, must};
use base_words::{Bytes, CellId, End, Event, GuestId, Name, ProcId, Sequence, VcpuId};
use event_journal::Journal;
use guest_core::{FailureRecord, GuestRecord, RunRecord};
use guest_gen::Made;
use outside_io::{CallList, FileList, HeldFile, MemSink};
use run_report::{Alone, render, render_alone, render_made};
use std::alloc::Global;
use std::process::Abort;

fn held(rt: &impl Abort, alloc: Global, name: &str, bytes: &[u8]) -> HeldFile {
    HeldFile {
        name: must(rt, Name::copy_of(alloc, name)),
        bytes: Bytes::from_vec(must(rt, bytes.to_vec(alloc))),
    }
}

fn sink(alloc: Global) -> MemSink {
    MemSink::new(alloc, CallList::new(alloc))
}

/// A guest that printed A: a refill, two steps, and its end.
fn guest(rt: &impl Abort, alloc: Global) -> GuestRecord {
    let mut journal = Journal::new(alloc);
    gave(rt, journal.reserve(4));
    journal.push(Event::Refill(ProcId(0)));
    journal.push(Event::Direct(ProcId(0), VcpuId(0)));
    journal.push(Event::Emulate(ProcId(0), VcpuId(0)));
    journal.push(Event::End(End::Halted));
    GuestRecord {
        journal,
        console: Bytes::from_vec(must(rt, b"A".to_vec(alloc))),
        sent: Sequence::new(alloc),
        cells: Sequence::new(alloc),
        received: Sequence::new(alloc),
        discarded: Sequence::new(alloc),
        in_hand: None,
        skips: Sequence::new(alloc),
        end: End::Halted,
    }
}

fn failure(rt: &impl Abort, alloc: Global, cell: u8, ended: &[GuestId]) -> FailureRecord {
    FailureRecord {
        item: 0,
        cell: CellId(cell),
        ended: Sequence::from_vec(must(rt, ended.to_vec(alloc))),
    }
}

#[test]
fn prints_guests_and_failures(rt: HostRuntime) {
    let alloc = rt.alloc();
    let mut kept = RunRecord::empty(alloc);
    must(&rt, kept.guests.push(guest(&rt, alloc)));
    let mut short = sink(alloc);
    must(&rt, render(alloc, &kept, false, &mut short));
    assert!(rt; short.bytes() == "guest 0 console 1\nA\nend halted\n".as_bytes());
    must(
        &rt,
        kept.failures
            .push(failure(&rt, alloc, 1, &[GuestId(0), GuestId(3)])),
    );
    must(&rt, kept.failures.push(failure(&rt, alloc, 0, &[])));
    let mut whole = sink(alloc);
    must(&rt, render(alloc, &kept, true, &mut whole));
    let text =
        "guest 0 console 1\nA\nend halted\nsums steps 2 refills 1 moves 0 skips 0 breaks 0 shared 0 received 0 discarded 0\nfailure cell 1 ended 0 3\nfailure cell 0 ended none\n";
    assert!(rt; whole.bytes() == text.as_bytes());
}

#[test]
fn prints_guests_alone(rt: HostRuntime) {
    let alloc = rt.alloc();
    let guests = [
        Alone {
            console: Bytes::new(alloc),
            end: End::Budget,
        },
        Alone {
            console: Bytes::from_vec(must(&rt, b"ab".to_vec(alloc))),
            end: End::CellFailed(CellId(2)),
        },
    ];
    let mut sink = sink(alloc);
    must(&rt, render_alone(alloc, &guests, &mut sink));
    assert!(rt;
        sink.bytes()
            == "guest 0 console 0\n\nend budget\nguest 1 console 2\nab\nend cell 2\n".as_bytes()
    );
}

/// So many bytes: 0, 7, 14 and so on.
fn sevens(rt: &impl Abort, alloc: Global, count: u8) -> Vec<u8> {
    let mut bytes = Vec::new(alloc);
    for byte in 0..count {
        must(rt, bytes.push(byte.wrapping_mul(7)));
    }
    bytes
}

#[test]
fn prints_what_is_made(rt: HostRuntime) {
    let alloc = rt.alloc();
    let mut files = FileList::new(alloc);
    must(
        &rt,
        files.push(held(&rt, alloc, "g0.elf", &sevens(&rt, alloc, 33))),
    );
    must(&rt, files.push(held(&rt, alloc, "empty", &[])));
    must(
        &rt,
        files.push(held(&rt, alloc, "row", &sevens(&rt, alloc, 32))),
    );
    let made = Made {
        description: Bytes::from_vec(must(&rt, b"nodes = 1\n".to_vec(alloc))),
        files,
    };
    let mut sink = sink(alloc);
    must(&rt, render_made(alloc, &made, &mut sink));
    let text =
        "nodes = 1\nfile g0.elf 33\n00070e151c232a31383f464d545b626970777e858c939aa1a8afb6bdc4cbd2d9\ne0\nfile empty 0\nfile row 32\n00070e151c232a31383f464d545b626970777e858c939aa1a8afb6bdc4cbd2d9\n";
    assert!(rt; sink.bytes() == text.as_bytes());
}
