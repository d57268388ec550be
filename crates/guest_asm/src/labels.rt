//! The labels of a text.
ghost use Rattle.std.specs.Prelude.{◌≡◌, ◌≤◌, ◌^◌, ℕ, List, None, map, length, option_map, IfOk, OnOk};
ghost use Rattle.std.specs.Option.{option_or};
ghost use Rattle.guest_asm.specs.Sites as spec;

use crate::address::{START, behind};
use crate::lines::label_of;
use std::alloc::{AllocError, Global};
use std::collections::BTreeMap;

/// Where a label stands: its line, counted from 0, and the address that it stands for.
#[derive(Clone, Copy, Debug, PartialEq, Eq)]
pub struct Site {
    pub line: usize,
    pub address: u32,
}

/// Labels, each with the first line that has it.
#[derive(Drop)]
pub struct Labels<'a> {
    sites: BTreeMap<&'a [u8], Site>,
}

impl<'a> Labels<'a> {
    /// No labels.
    pub fn new(alloc: Global) -> Self
        ensures { (name : List ℕ) → spec.site_in result name ≡ None }
    {
        Labels {
            sites: BTreeMap::new(alloc),
        }
    }

    /// Where a label stands, if a line has it.
    pub fn site(&self, name: &[u8]) -> Option<Site>
        ensures { result ≡ spec.site_in self.now name.now }
    {
        self.sites.get(name).copied()
    }

    /// The address that a label stands for, if a line has it.
    pub fn address(&self, name: &[u8]) -> Option<u32>
        ensures { result ≡ spec.address_in self.now name.now }
    {
        match self.site(name) {
            Some(site) => Some(site.address),
            None => None,
        }
    }

    /// Keeps where the label of a line stands, if it has one, unless the label stands on an earlier line.
    fn keep(&mut self, label: Option<&'a [u8]>, site: Site) -> Result<(), AllocError>
        ensures { OnOk result ((other : List ℕ) → spec.site_in self.new other ≡ option_or (spec.site_in self.old other) (spec.site_under other (option_map (λ name. name.now) label.entry) site)) }
    {
        let Some(name) = label else {
            return Ok(());
        };
        match self.site(name) {
            Some(_) => Ok(()),
            None => {
                self.sites.insert(name, site)?;
                Ok(())
            }
        }
    }

    /// The labels of lines.
    pub fn read(alloc: Global, lines: &[&'a [u8]]) -> Result<Self, AllocError>
        requires { length lines.now ≤ 2 ^ 27 }
        ensures { IfOk result (λ labels. spec.IsKept (map (λ line. line.now) lines.now) labels) }
    {
        let mut labels = Labels::new(alloc);
        let mut address = START;
        for (number, line) in lines.iter().enumerate() {
            let site = Site {
                line: number,
                address,
            };
            labels.keep(label_of(line), site)?;
            address = behind(alloc, address, line)?;
        }
        Ok(labels)
    }

    /// Where the run begins: at the label `start`, where there is one.
    pub fn entry(&self) -> u32
        ensures { result ≡ spec.entry_in self.now }
    {
        match self.address(b"start") {
            Some(address) => address,
            None => START,
        }
    }
}
