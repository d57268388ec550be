//! Files in memory, whose reads fail at the calls that a list names.
ghost use Rattle.std.specs.Prelude.{◌≡◌, [], ◌↔◌, IsTrue, Contains, MatchOption, string_bytes, OnErr};
ghost use Rattle.outside_io.specs.Reading.{Absent, Holds, IsCalm, IsFailed, Reads};
ghost use Rattle.outside_io.specs.Held.{told_by, shelf_view, Copies, Fails, Leaves, Misses, NeverFails};

use crate::{Shelf, ShelfFault};
use base_words::{Bytes, Name, Sequence};
use std::alloc::Global;
use std::marker::Model;

/// A file of a shelf in memory.
#[derive(Debug, Drop)]
pub struct HeldFile {
    pub name: Name,
    pub bytes: Bytes,
}

/// Files in memory; where a name stands twice, the first counts.
pub type FileList = Sequence<HeldFile>;

/// The numbers of the calls that fail, counted from 1.
pub type CallList = Sequence<u64>;

/// A shelf in memory.
#[derive(Debug, Drop)]
pub struct MemShelf {
    files: FileList,
    fails: CallList,
    calls: u64,
    faults: u64,
    failed: Name,
}

impl Model for MemShelf {
    ghost use Rattle.outside_io.specs.Held.{ShelfState};

    ghost Value = { ShelfState };

    ghost view = { λ s. record { files = s.files; fails = s.fails; calls = s.calls; faults = s.faults; failed = s.failed } };
}

/// The bytes of the first file of a name.
fn held<'a>(files: &'a [HeldFile], name: &str) -> Option<&'a Bytes>
    ensures { MatchOption result (told_by files.now name.now ≡ Absent) (λ bytes. told_by files.now name.now ≡ Holds bytes.now) }
{
    for file in files {
        if file.name.as_str() == name {
            return Some(&file.bytes);
        }
    }
    None
}

/// Whether a call is among those that fail.
pub fn is_failing(fails: &[u64], call: u64) -> bool
    ensures { IsTrue result ↔ Contains fails.now call }
{
    fails.contains(&call)
}

/// A copy of a file's bytes, unless they are more than `most`.
fn read_held(alloc: Global, bytes: &Bytes, most: u64) -> Result<Bytes, ShelfFault>
    ensures { Copies bytes.now most result }
{
    if bytes.len() as u64 > most {
        return Err(ShelfFault::Long);
    }
    Ok(Bytes::from_vec(bytes.as_slice().to_vec(alloc)?))
}

impl MemShelf {
    /// A shelf of these files, whose calls of these numbers fail. Takes no memory yet.
    pub fn new(alloc: Global, files: FileList, fails: CallList) -> Self
        ensures { result ≡ record { files = files; fails = fails; calls = 0; faults = 0; failed = [] } }
    {
        MemShelf {
            files,
            fails,
            calls: 0,
            faults: 0,
            failed: Name::from_string(String::new(alloc)),
        }
    }

    /// Counts a fault at a name.
    fn fail(&mut self, alloc: Global, name: &str) -> Result<Bytes, ShelfFault>
        ensures { Misses self.old self.new name.now result }
    {
        self.failed = Name::copy_of(alloc, name)?;
        self.faults = self.faults.saturating_add(1);
        Err(ShelfFault::Failed)
    }
}

impl Shelf for MemShelf {
    ghost view = { shelf_view };

    fn faults(&self) -> u64 {
        self.faults
    }

    fn failed(&self) -> &str {
        self.failed.as_str()
    }

    fn read(&mut self, alloc: Global, name: &str, most: u64) -> Result<Bytes, ShelfFault>
        ensures reads { Reads (shelf_view self.old) (shelf_view self.new) name.now most result }
        ensures told { (shelf_view self.new).told ≡ (shelf_view self.old).told }
        ensures fails { Fails self.old name.now result }
        ensures leaves { Leaves self.old self.new name.now result }
        ensures never { NeverFails self.old name.now result }
    {
        self.calls = self.calls.saturating_add(1);
        let failing = is_failing(self.fails.as_slice(), self.calls);
        match held(self.files.as_slice(), name) {
            Some(bytes) if !failing => read_held(alloc, bytes, most),
            _ => self.fail(alloc, name),
        }
    }
}
