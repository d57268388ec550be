//! A key of a table, and the faults that its value may have.
ghost use Rattle.std.specs.Prelude.{◌≡◌, IfOk};
ghost use Rattle.machine_desc.specs.Paths.{path_of};
ghost use Rattle.machine_desc.specs.Reads.{Tells};

use crate::{Amount, DescFault, Place};
use base_words::Name;
use std::alloc::{AllocError, Global};

/// A key, and the table that it stands in.
#[derive(Clone, Copy)]
pub struct Key<'a> {
    pub alloc: Global,
    pub place: Place,
    pub name: &'a str,
}

impl Key<'_> {
    fn path(self) -> Result<Name, AllocError>
        ensures { IfOk result (λ name. name ≡ path_of self.entry) }
    {
        self.place.path(self.alloc, self.name)
    }

    /// The key isn't there.
    pub fn missing(self) -> DescFault
        ensures { Tells (DescFault.Missing (path_of self.entry)) result }
    {
        match self.path() {
            Ok(path) => DescFault::Missing(path),
            Err(_) => DescFault::Memory,
        }
    }

    /// No table like this one has such a key.
    pub fn unknown(self) -> DescFault
        ensures { Tells (DescFault.Unknown (path_of self.entry)) result }
    {
        match self.path() {
            Ok(path) => DescFault::Unknown(path),
            Err(_) => DescFault::Memory,
        }
    }

    /// The value is of another kind.
    pub fn kind(self) -> DescFault
        ensures { Tells (DescFault.Kind (path_of self.entry)) result }
    {
        match self.path() {
            Ok(path) => DescFault::Kind(path),
            Err(_) => DescFault::Memory,
        }
    }

    /// The value, or its length, is out of range.
    pub fn range(self, amount: Amount) -> DescFault
        ensures { Tells (DescFault.Range (path_of self.entry) amount) result }
    {
        match self.path() {
            Ok(path) => DescFault::Range(path, amount),
            Err(_) => DescFault::Memory,
        }
    }

    /// Nothing has this number.
    pub fn names(self, number: u64) -> DescFault
        ensures { Tells (DescFault.Names (path_of self.entry) number) result }
    {
        match self.path() {
            Ok(path) => DescFault::Names(path, number),
            Err(_) => DescFault::Memory,
        }
    }

    /// What has this number is named a second time.
    pub fn twice(self, number: u64) -> DescFault
        ensures { Tells (DescFault.Twice (path_of self.entry) number) result }
    {
        match self.path() {
            Ok(path) => DescFault::Twice(path, number),
            Err(_) => DescFault::Memory,
        }
    }
}
