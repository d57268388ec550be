//! One table of the description: its keys, each with the kind and the range that are asked for.
ghost use Rattle.std.specs.Prelude.{◌≡◌, ◌≤◌, IfOk, option_map, string_bytes, map, [], vec_len};
ghost use Rattle.toml.specs.Data.{get_member, no_members};
ghost use Rattle.toml.specs.View.{view, table_view};
ghost use Rattle.machine_desc.specs.Views.{views, view_if_any};
ghost use Rattle.machine_desc.specs.Reads.{Gives};
ghost use Rattle.machine_desc.specs.Kinds.{required, optional, between, node_list, text_to, one_table, array_of, a_number, a_list, a_text, a_table, some_tables, nothing};
ghost use Rattle.machine_desc.specs.Cells.{holds, text_cell};
ghost use Rattle.machine_desc.specs.Unknown.{is_among, only};

use crate::value::{nodes_in, number_in, table_in, tables_in, text_in};
use crate::{DescFault, Key, Place};
use base_words::NodeList;
use std::alloc::Global;
use toml::{Table, Value};

/// Whether a name is one of these.
#[tactic(auto, using(crate::proofs::Keys::among))]
fn is_among(known: &[&str], name: &str) -> bool
    ensures { result ≡ is_among (map (λ k. k.now) known.now) name.now }
{
    known.contains(&name)
}

/// A table, and where it stands.
#[derive(Clone, Copy)]
pub struct Section<'a> {
    pub alloc: Global,
    pub place: Place,
    pub table: &'a Table,
}

#[tactic(auto, unfolding(crate::specs::Cells::cell_at))]
impl<'a> Section<'a> {
    /// The key of this name.
    pub fn key<'k>(self, name: &'k str) -> Key<'k>
        ensures place { result.place ≡ self.entry.place }
        ensures name { result.name.now ≡ name.now }
    {
        Key {
            alloc: self.alloc,
            place: self.place,
            name,
        }
    }

    /// What a key holds, if it is there.
    #[tactic(auto, using(crate::proofs::Arrays::found))]
    pub fn get(self, name: &str) -> Option<&'a Value>
        ensures { option_map (λ v. view v.now) result
            ≡ get_member name.now (table_view self.entry.table.now) }
    {
        self.table.get(name)
    }

    /// Refuses the least key that is none of these.
    #[tactic(auto, unfolding(crate::specs::Unknown::only))]
    pub fn only(self, known: &[&str]) -> Result<(), DescFault>
        ensures { Gives (λ _. tt) result
            (only self.entry.place (map (λ k. k.now) known.now) (table_view self.entry.table.now)) }
    {
        for name in self.table.keys() {
            if !is_among(known, name.as_str()) {
                return Err(self.key(name.as_str()).unknown());
            }
        }
        Ok(())
    }

    /// The integer of a key, from `low` to `high`.
    pub fn number(self, name: &str, low: u32, high: u32) -> Result<u32, DescFault>
        ensures cell { Gives a_number result
            (holds self.entry (required name.now (between low high))) }
        ensures least { IfOk result (λ n. low ≤ n) }
        ensures most { IfOk result (λ n. n ≤ high) }
    {
        match self.get(name) {
            Some(value) => number_in(self.key(name), value, low, high),
            None => Err(self.key(name).missing()),
        }
    }

    /// The integer of a key, from `low` to `high`, or another where the key is absent.
    pub fn number_or(self, name: &str, low: u32, high: u32, default: u32) -> Result<u32, DescFault>
        requires { default ≤ high }
        ensures cell { Gives a_number result
            (holds self.entry (optional name.now (between low high) (a_number default))) }
        ensures within { IfOk result (λ n. n ≤ high) }
    {
        match self.get(name) {
            Some(value) => number_in(self.key(name), value, low, high),
            None => Ok(default),
        }
    }

    /// The node numbers of a key, 1 to `most` of them.
    pub fn nodes(self, name: &str, most: usize) -> Result<NodeList, DescFault>
        ensures { Gives a_list result (holds self.entry (required name.now (node_list most))) }
    {
        match self.get(name) {
            Some(value) => nodes_in(self.key(name), value, most),
            None => Err(self.key(name).missing()),
        }
    }

    /// The text of a key, of 1 to `most` bytes.
    pub fn text(self, name: &str, most: usize) -> Result<String, DescFault>
        ensures { Gives (λ text. a_text (string_bytes text)) result
            (holds self.entry (required name.now (text_to most))) }
    {
        match self.get(name) {
            Some(value) => text_in(self.key(name), value, most),
            None => Err(self.key(name).missing()),
        }
    }

    /// The text of a key, of 1 to `most` bytes, if the key is there.
    pub fn text_if_any(self, name: &str, most: usize) -> Result<Option<String>, DescFault>
        ensures { Gives (λ text. text_cell (option_map string_bytes text)) result
            (holds self.entry (optional name.now (text_to most) nothing)) }
    {
        match self.get(name) {
            Some(value) => Ok(Some(text_in(self.key(name), value, most)?)),
            None => Ok(None),
        }
    }

    /// The table of a key.
    pub fn table(self, name: &str) -> Result<&'a Table, DescFault>
        ensures { Gives (λ table. a_table (table_view table.now)) result
            (holds self.entry (required name.now one_table)) }
    {
        match self.get(name) {
            Some(value) => table_in(self.key(name), value),
            None => Err(self.key(name).missing()),
        }
    }

    /// The table of a key, if the key is there.
    pub fn table_if_any(self, name: &str) -> Result<Option<&'a Table>, DescFault>
        ensures { Gives (λ table. a_table (view_if_any table)) result
            (holds self.entry (optional name.now one_table (a_table no_members))) }
    {
        match self.get(name) {
            Some(value) => Ok(Some(table_in(self.key(name), value)?)),
            None => Ok(None),
        }
    }

    /// The tables of a key, `low` to `high` of them.
    pub fn tables(self, name: &str, low: usize, high: usize) -> Result<Vec<&'a Table>, DescFault>
        ensures cell { Gives (λ tables. some_tables (views tables.items)) result
            (holds self.entry (required name.now (array_of low high))) }
        ensures within { IfOk result (λ tables. vec_len tables ≤ high) }
    {
        match self.get(name) {
            Some(value) => tables_in(self.key(name), value, low, high),
            None => Err(self.key(name).missing()),
        }
    }

    /// The tables of a key, `low` to `high` of them, or none where the key is absent.
    pub fn tables_if_any(
        self,
        name: &str,
        low: usize,
        high: usize,
    ) -> Result<Vec<&'a Table>, DescFault>
        ensures cell { Gives (λ tables. some_tables (views tables.items)) result
            (holds self.entry (optional name.now (array_of low high) (some_tables []))) }
        ensures within { IfOk result (λ tables. vec_len tables ≤ high) }
    {
        match self.get(name) {
            Some(value) => tables_in(self.key(name), value, low, high),
            None => Ok(Vec::new(self.alloc)),
        }
    }
}
