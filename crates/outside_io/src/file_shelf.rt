//! Files of the system.
ghost use Rattle.std.specs.Prelude.{◌≡◌, ◌+◌, [], None};
ghost use Rattle.outside_io.specs.Reading.{Reads};
ghost use Rattle.outside_io.specs.System.{files_view, FilesLeave};
ghost use Rattle.outside_io.specs.Streams.{Streams, StreamsHeld, StreamsKnown, TakesUpTo};

use crate::{Shelf, ShelfFault};
use base_words::{Bytes, Name};
use std::alloc::Global;
use std::fs;
use std::io::{self, Read};
use std::marker::Model;
use std::rt::Files;

/// The files that the system has by their paths. It tells nothing of their content.
#[derive(Drop)]
pub struct FileShelf<'a, R: Files> {
    rt: &'a R,
    faults: u64,
    failed: Name,
}

impl<'a, R: Files> Model for FileShelf<'a, R> {
    ghost use Rattle.outside_io.specs.System.{FilesState};

    ghost Value = { FilesState };

    ghost view = { λ s. record { faults = s.faults; failed = s.failed } };
}

impl<'a, R: Files> FileShelf<'a, R> {
    /// The system's files, none of them read yet. Takes no memory.
    pub fn new(alloc: Global, rt: &'a R) -> Self
        ensures { result ≡ record { faults = 0; failed = [] } }
    {
        FileShelf {
            rt,
            faults: 0,
            failed: Name::from_string(String::new(alloc)),
        }
    }
}

/// The bytes that a stream gives to its end, unless they are more than `most`. Reads at most one byte more.
fn read_stream<F: Read>(alloc: Global, file: &mut F, most: u64) -> Result<Bytes, ShelfFault>
    ensures limit { Streams most result }
    ensures known { StreamsKnown (F.remaining file.old) most result }
    ensures no_further { TakesUpTo (F.remaining file.old) (F.remaining file.new) (most + 1) }
{
    let mut bytes = Vec::new(alloc);
    let mut chunk = [0u8; 4096];
    for _ in 0..u64::MAX {
        let len = bytes.len() as u64;
        if len > most {
            return Err(ShelfFault::Long);
        }
        let wanted = (most - len).saturating_add(1).min(4096) as usize;
        match file.read(&mut chunk[..wanted]) {
            Ok(0) => return Ok(Bytes::from_vec(bytes)),
            Ok(count) => bytes.extend_from_slice(&chunk[..count])?,
            Err(_) => return Err(ShelfFault::Failed),
        }
    }
    Err(ShelfFault::Failed)
}

/// What opens files by their paths.
trait Opens<F: Read> {
    ghost use Rattle.std.specs.Prelude.{List, ℕ, Option, IfOk};
    ghost use Rattle.outside_io.specs.Streams.{Opened};

    /// The bytes that a path leads to, where they are told.
    ghost held: { Self → List ℕ → Option (List ℕ) };

    /// A file that is read from its start.
    fn open(&self, path: &str) -> io::Result<F>
        ensures { IfOk result (λ file. Opened (held self.now path.now) (F.remaining file)) };
}

/// The files of a runtime. It tells nothing of them.
#[derive(Drop)]
struct Paths<'a, R: Files> {
    rt: &'a R,
}

impl<'a, R: Files> Opens<R::File> for Paths<'a, R> {
    ghost held = { λ _ _. None };

    fn open(&self, path: &str) -> io::Result<R::File> {
        fs::open(self.rt, path)
    }
}

/// The bytes of the file at a path, unless they are more than `most`.
fn read_file<F: Read + Drop, O: Opens<F>>(
    alloc: Global,
    files: &O,
    path: &str,
    most: u64,
) -> Result<Bytes, ShelfFault>
    ensures limit { Streams most result }
    ensures held { StreamsHeld (O.held files.now path.now) most result }
{
    match files.open(path) {
        Ok(mut file) => read_stream(alloc, &mut file, most),
        Err(_) => Err(ShelfFault::Failed),
    }
}

impl<'a, R: Files> Shelf for FileShelf<'a, R> {
    ghost view = { files_view };

    fn faults(&self) -> u64 {
        self.faults
    }

    fn failed(&self) -> &str {
        self.failed.as_str()
    }

    fn read(&mut self, alloc: Global, name: &str, most: u64) -> Result<Bytes, ShelfFault>
        ensures reads { Reads (files_view self.old) (files_view self.new) name.now most result }
        ensures told { (files_view self.new).told ≡ (files_view self.old).told }
        ensures leaves { FilesLeave self.old self.new name.now result }
    {
        let copy = Name::copy_of(alloc, name)?;
        match read_file(alloc, &Paths { rt: self.rt }, name, most) {
            Ok(bytes) => Ok(bytes),
            Err(ShelfFault::Failed) => {
                self.faults = self.faults.saturating_add(1);
                self.failed = copy;
                Err(ShelfFault::Failed)
            }
            Err(ShelfFault::Long) => Err(ShelfFault::Long),
            Err(ShelfFault::Memory) => Err(ShelfFault::Memory),
        }
    }
}
