//! Shelves and sinks, those over the system among them.
ghost use Rattle.std.specs.Prelude.{◌≤◌, length};

use crate::telling::{gave, must, same};
use base_words::{Bytes, GuestId, Name, ProcId, VcpuId};
use outside_io::{
    CallList, FileList, FileShelf, FreeGate, Gate, GatePoint, HeldFile, MemShelf, MemSink, OutSink,
    Shelf, ShelfFault, Sink, SinkFault,
};
use std::alloc::Global;
use std::fmt::Display;
use std::fs::{self, File, OpenOptions};
use std::io::{self, PipeWriter, Read, Write};
use std::process::Abort;

fn shelf_of(rt: &impl Abort, alloc: Global, fails: &[u64]) -> MemShelf {
    let mut files = FileList::new(alloc);
    for (name, text) in [("a", "first"), ("b", ""), ("a", "second")] {
        must(
            rt,
            files.push(HeldFile {
                name: must(rt, Name::copy_of(alloc, name)),
                bytes: Bytes::from_vec(must(rt, text.as_bytes().to_vec(alloc))),
            }),
        );
    }
    MemShelf::new(
        alloc,
        files,
        CallList::from_vec(must(rt, fails.to_vec(alloc))),
    )
}

/// A read fails, and of which name and how many faults is then told.
fn fails(
    rt: &impl Abort,
    alloc: Global,
    shelf: &mut MemShelf,
    (name, most): (&str, u64),
    fault: ShelfFault,
    (faults, failed): (u64, &str),
) {
    same(rt, shelf.read(alloc, name, most).err(), Some(fault), name);
    same(rt, shelf.faults(), faults, name);
    same(rt, shelf.failed(), failed, name);
}

#[test]
fn files_in_memory_are_read(rt: HostRuntime) {
    let alloc = rt.alloc();
    let mut shelf = shelf_of(&rt, alloc, &[4]);
    assert!(rt; must(&rt, shelf.read(alloc, "a", 5)).as_slice() == b"first".as_slice());
    fails(&rt, alloc, &mut shelf, ("a", 4), ShelfFault::Long, (0, ""));
    fails(
        &rt,
        alloc,
        &mut shelf,
        ("c", 5),
        ShelfFault::Failed,
        (1, "c"),
    );
    // the fourth call
    fails(
        &rt,
        alloc,
        &mut shelf,
        ("b", 5),
        ShelfFault::Failed,
        (2, "b"),
    );
    assert!(rt; must(&rt, shelf.read(alloc, "b", 0)).len() == 0);
}

#[test]
fn an_output_in_memory_grows(rt: HostRuntime) {
    let alloc = rt.alloc();
    let mut sink = MemSink::new(alloc, CallList::from_vec(must(&rt, [2, 4].to_vec(alloc))));
    must(&rt, sink.put(b"one"));
    assert!(rt; sink.put(b"two") == Err(SinkFault::Failed));
    must(&rt, sink.put(b"three"));
    assert!(rt;
        sink.finish() == Err(SinkFault::Failed),
        "put and finish are counted together"
    );
    must(&rt, sink.finish());
    assert!(rt; sink.bytes() == b"onethree".as_slice());
    assert!(rt; sink.faults() == 2);
}

/// What a read of a file of the system is to answer.
#[derive(Clone, Copy, Debug, PartialEq)]
enum Answer {
    Whole,
    Fault(ShelfFault),
}

#[test]
fn files_of_the_system_are_read(rt: HostRuntime) {
    let alloc = rt.alloc();
    let long = Answer::Fault(ShelfFault::Long);
    for (len, most, answer) in [
        (0u32, 0, Answer::Whole),
        (0, 5, Answer::Whole),
        (1, 0, long),
        (4096, 4096, Answer::Whole),
        (4097, 4096, long),
        (5000, 5000, Answer::Whole),
        (5000, 4999, long),
        (8192, 8192, Answer::Whole),
        (8192, 8191, long),
        (10000, u64::MAX, Answer::Whole),
        (10000, 1, long),
    ] {
        let mut text = Vec::new(alloc);
        for at in 0..len {
            must(&rt, text.push((at % 251) as u8));
        }
        must(&rt, fs::write(&rt, "file_shelf_test", text.as_slice()));
        let mut shelf = FileShelf::new(alloc, &rt);
        match shelf.read(alloc, "file_shelf_test", most) {
            Ok(bytes) => {
                same(&rt, answer, Answer::Whole, (len, most));
                assert!(rt; bytes.as_slice() == text.as_slice());
            }
            Err(fault) => same(&rt, answer, Answer::Fault(fault), (len, most)),
        }
        assert!(rt; shelf.faults() == 0);
        assert!(rt; shelf.failed() == "");
    }
    must(&rt, fs::remove_file(&rt, "file_shelf_test"));
}

#[test]
fn files_of_the_system_are_read_by_their_names(rt: HostRuntime) {
    let alloc = rt.alloc();
    let files = [
        ("file_shelf_first", b"one".as_slice()),
        ("file_shelf_second", b"two and more".as_slice()),
    ];
    for (name, text) in files {
        must(&rt, fs::write(&rt, name, text));
    }
    let mut shelf = FileShelf::new(alloc, &rt);
    for (name, text) in files {
        same(
            &rt,
            must(&rt, shelf.read(alloc, name, 12)).as_slice(),
            text,
            name,
        );
    }
    assert!(rt;
        must(&rt, shelf.read(alloc, "file_shelf_first", 12)).as_slice() == b"one".as_slice()
    );
    for (name, _text) in files {
        must(&rt, fs::remove_file(&rt, name));
    }
}

#[test]
fn what_the_system_does_not_read_is_a_fault(rt: HostRuntime) {
    let alloc = rt.alloc();
    let mut shelf = FileShelf::new(alloc, &rt);
    for (name, faults) in [("no_such_file", 1), ("/", 2), ("", 3)] {
        same(
            &rt,
            shelf.read(alloc, name, 1).err(),
            Some(ShelfFault::Failed),
            ("no file at", name),
        );
        assert!(rt; shelf.faults() == faults);
        assert!(rt; shelf.failed() == name);
    }
    if fs::open(&rt, "/dev/zero").is_ok() {
        assert!(rt;
            shelf.read(alloc, "/dev/zero", 5000).err() == Some(ShelfFault::Long),
            "a file without an end"
        );
    }
    assert!(rt; shelf.faults() == 3);
}

#[test]
fn the_standard_output_takes_all(rt: HostRuntime) {
    let mut sink = OutSink::new(&rt);
    must(&rt, sink.put(b"out sink\n"));
    must(&rt, sink.put(b""));
    must(&rt, sink.finish());
    assert!(rt; sink.faults() == 0);
    FreeGate.pass(GatePoint {
        processor: ProcId(0),
        guest: GuestId(0),
        vcpu: VcpuId(0),
        turn: 0,
    });
}

/// An output that takes at most so many bytes at a time.
#[derive(Drop)]
struct Narrow<W> {
    to: W,
    most: usize,
}

fn part_of(bytes: &[u8], most: usize) -> &[u8]
    ensures { length result.now ≤ length bytes.now }
{
    &bytes[..bytes.len().min(most)]
}

fn unsupported() -> io::Error {
    io::Error::from(io::ErrorKind::Unsupported)
}

impl Print for Narrow<PipeWriter> {
    fn print<D: Display + Drop>(&self, _value: D) -> io::Result<()> {
        Err(unsupported())
    }

    fn println<D: Display + Drop>(&self, _value: D) -> io::Result<()> {
        Err(unsupported())
    }

    fn write_all(&self, _bytes: &[u8]) -> io::Result<()> {
        Err(unsupported())
    }

    fn write_some(&self, bytes: &[u8]) -> io::Result<usize> {
        let mut to = &self.to;
        let count = to.write(part_of(bytes, self.most))?;
        Ok(count)
    }
}

impl Print for Narrow<File> {
    fn print<D: Display + Drop>(&self, _value: D) -> io::Result<()> {
        Err(unsupported())
    }

    fn println<D: Display + Drop>(&self, _value: D) -> io::Result<()> {
        Err(unsupported())
    }

    fn write_all(&self, _bytes: &[u8]) -> io::Result<()> {
        Err(unsupported())
    }

    fn write_some(&self, bytes: &[u8]) -> io::Result<usize> {
        let mut to = &self.to;
        let count = to.write(part_of(bytes, self.most))?;
        Ok(count)
    }
}

#[test]
fn a_piece_is_taken_in_parts(rt: HostRuntime) {
    for (most, ok) in [(1, true), (3, true), (10, true), (11, true), (0, false)] {
        let (mut reader, to) = must(&rt, io::pipe(&rt));
        let narrow = Narrow { to, most };
        let mut sink = OutSink::new(&narrow);
        same(
            &rt,
            sink.put(b"0123456789").is_ok(),
            ok,
            ("bytes at a time", most),
        );
        assert!(rt; sink.put(b"") == Ok(()));
        assert!(rt; sink.faults() == if ok { 0 } else { 1 });
        if ok {
            let mut taken = [0; 16];
            let count = gave(&rt, reader.read(&mut taken));
            same(
                &rt,
                &taken[..count],
                b"0123456789".as_slice(),
                ("bytes at a time", most),
            );
        }
    }
}

#[test]
fn an_output_that_is_full_fails(rt: HostRuntime) {
    let Ok(to) = OpenOptions::new().write(true).open(&rt, "/dev/full") else {
        return;
    };
    let narrow = Narrow { to, most: 4 };
    let mut sink = OutSink::new(&narrow);
    assert!(rt; sink.put(b"0123456789") == Err(SinkFault::Failed));
    assert!(rt; sink.faults() == 1);
    assert!(rt; sink.put(b"") == Ok(()), "nothing is written");
    assert!(rt; sink.put(b"a") == Err(SinkFault::Failed));
    assert!(rt; sink.faults() == 2);
    assert!(rt; sink.finish() == Ok(()));
}
