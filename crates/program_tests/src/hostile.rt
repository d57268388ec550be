//! Images that are cut short, and calls of the outside that fail, under what is made from 7.
use crate::seven::{SEVEN, without_sums};
use crate::telling::{holds, must, same};
use base_words::Name;
use elf_image::{ImageFault, load};
use guest_core::RunRecord;
use guest_gen::{Made, make};
use monitor_run::disco;
use outside_io::{CallList, FileList, FreeGate, HeldFile, MemShelf, MemSink};
use run_cases::words_of;
use std::alloc::Global;
use std::process::Abort;
use std::str::from_utf8;
use std::sync::Wait;
use std::thread::Threads;

/// The description that is made from 7, under the name m, and its files.
fn files(rt: &impl Abort, alloc: Global) -> FileList {
    let Made { description, files } = must(rt, make(alloc, 7, 4, 50_000));
    let mut all = files;
    must(
        rt,
        all.push(HeldFile {
            name: must(rt, Name::copy_of(alloc, "m")),
            bytes: description,
        }),
    );
    all
}

/// What a load of these first bytes of an image of 836 has to answer; an image where nothing is said.
fn fault_of(length: usize) -> Option<ImageFault> {
    match length {
        0..=51 => Some(ImageFault::Short),
        52..=147 => Some(ImageFault::Headers),
        148..=835 => Some(ImageFault::Segment(2)),
        _ => None,
    }
}

/// Each prefix of an image that is made.
#[test]
fn a_prefix_of_an_image_is_no_image(rt: HostRuntime) {
    let alloc = rt.alloc();
    let files = files(&rt, alloc);
    let Some(image) = files.as_slice().first() else {
        panic!(rt; "there are files");
    };
    let bytes = image.bytes.as_slice();
    assert!(rt; image.name.as_str() == "g0.elf");
    assert!(rt; bytes.len() == 836);
    for length in 0..=bytes.len() {
        let found = load(alloc, &bytes[..length], 64).err();
        same(&rt, found, fault_of(length), ("bytes", length));
    }
}

/// A call over these files: which of its reads and puts fail; its status and its output.
fn called<R: Abort + Threads + Wait + Sync>(
    rt: &R,
    alloc: Global,
    words: &[&str],
    shelf_fails: &[u64],
    sink_fails: &[u64],
    out: &mut RunRecord,
) -> (u8, Vec<u8>) {
    let fails = CallList::from_vec(must(rt, shelf_fails.to_vec(alloc)));
    let mut shelf = MemShelf::new(alloc, files(rt, alloc), fails);
    let mut sink = MemSink::new(
        alloc,
        CallList::from_vec(must(rt, sink_fails.to_vec(alloc))),
    );
    let words = must(rt, words_of(alloc, words));
    *out = RunRecord::empty(alloc);
    let status = disco(rt, alloc, &words, &mut shelf, &mut sink, &FreeGate, out);
    (status, must(rt, sink.bytes().to_vec(alloc)))
}

/// A read that fails is told with its name: the description, and then each guest's image and its disk, each file once.
#[test]
fn each_read_that_fails_is_told(rt: HostRuntime) {
    let alloc = rt.alloc();
    let lines = [
        "fault read m\n",
        "fault read g0.elf\n",
        "fault read d0.img\n",
        "fault read g1.elf\n",
        "fault read g2.elf\n",
        "fault read g3.elf\n",
    ];
    let mut out = RunRecord::empty(alloc);
    for (number, line) in lines.iter().enumerate() {
        let fails = [number as u64 + 1];
        let (status, output) = called(&rt, alloc, &["--machine", "m"], &fails, &[], &mut out);
        same(&rt, status, 3, line);
        assert!(rt; output.as_slice() == line.as_bytes());
        assert!(rt; out.guests.len() == 0);
    }
}

/// Whether a report breaks off where this put fails: it is a beginning of the report then, and the record is whole.
fn breaks_off<R: Abort + Threads + Wait + Sync>(rt: &R, alloc: Global, put: u64) -> bool {
    let mut out = RunRecord::empty(alloc);
    let (status, output) = called(rt, alloc, &["--load", "7"], &[], &[put], &mut out);
    let told = without_sums(rt, alloc, must(rt, from_utf8(&output)));
    assert!(rt; out.guests.len() == 4);
    assert!(rt; out.slices.len() == 40);
    if status == 0 {
        assert!(rt; told.as_str() == SEVEN);
        return false;
    }
    assert!(rt; status == 4);
    holds(rt, SEVEN.starts_with(told.as_str()), ("put :", put, told));
    true
}

/// An output that fails at its first put, its second, and so on.
#[test]
fn each_put_that_fails_breaks_the_report_off(rt: HostRuntime) {
    for put in 1..=64 {
        if !breaks_off(&rt, rt.alloc(), put) {
            assert!(rt; 1 < put);
            return;
        }
    }
    panic!(rt; "the report has fewer puts")
}
