//! A guest's disk, one block a call.
ghost use Rattle.std.specs.Prelude.{◌≡◌, ◌<◌, ◌≤◌, ◌^◌, true, length, map, slice_get, IfOk, OnErr, IsOk};
ghost use Rattle.std.specs.Option.{option_copied, option_map};
ghost use Rattle.private_machine.specs.Disk.{as_given, block_now};
ghost use Rattle.cow_disk.specs.DiskView.{bytes_of, base_pages};
ghost use Rattle.cow_disk.specs.DiskCalls.{is_private_at, WrittenBy};

use crate::overlay::{given, given_block, make_places, own_block, put};
use base_words::{Blocks, Page};
use std::alloc::{AllocError, Global};
use std::marker::Model;
use std::sync::Arc;

/// What became of a write.
#[derive(Clone, Copy, Debug, PartialEq, Eq, Drop)]
pub enum Wrote {
    /// The block has the page's bytes.
    Wrote,
    /// There is no such block.
    NoBlock,
}

/// The blocks of a guest's disk, of 4096 bytes each: shared ones, and the guest's own copy of each that it wrote.
#[derive(Drop)]
pub struct Disk {
    base: Option<Arc<Blocks>>,
    overlay: Vec<Option<Box<Page>>>,
    alloc: Global,
}

impl Model for Disk {
    ghost use Rattle.std.specs.Prelude.{List};
    ghost use Rattle.private_machine.specs.Disk.{Block};

    ghost Value = { List Block };

    ghost use Rattle.cow_disk.specs.DiskParts.{disk_of, IsOver};

    ghost view = { disk_of };

    ghost invariant = { IsOver };
}

impl Disk {
    /// A disk of these blocks, of which none is the guest's own; without a block where there is no base. Takes no memory.
    pub fn new(alloc: Global, base: Option<Arc<Blocks>>) -> Self
        requires { length (base_pages base) < 2 ^ 32 }
        ensures { result ≡ map as_given (bytes_of (base_pages base)) }
    {
        Disk {
            base,
            overlay: Vec::new(alloc),
            alloc,
        }
    }

    /// How many blocks there are.
    pub fn len(&self) -> u32
        ensures { result ≡ length self.now }
    {
        given(&self.base).len() as u32
    }

    /// A block as the guest reads it: its own copy, else the shared block.
    #[inline]
    pub fn read_block(&self, block: u32) -> Option<&Page>
        ensures { option_copied result ≡ option_map block_now (slice_get self.now block) }
    {
        let given = given_block(&self.base, block as usize)?;
        Some(own_block(self.overlay.as_slice(), block as usize).unwrap_or(given))
    }

    /// A block as it was given, whatever the guest wrote.
    #[inline]
    pub fn base_block(&self, block: u32) -> Option<&Page>
        ensures { option_copied result ≡ option_map (λ b. b.given) (slice_get self.now block) }
    {
        given_block(&self.base, block as usize)
    }

    /// Whether the guest wrote the block. It has written none past the last.
    #[inline]
    pub fn is_private(&self, block: u32) -> bool
        ensures { result ≡ is_private_at self.now block }
    {
        own_block(self.overlay.as_slice(), block as usize).is_some()
    }

    /// Writes a block: a page is copied into the guest's own block, which the first write of it makes. Where memory is wanting,
    /// nothing changes.
    pub fn write_block(&mut self, block: u32, page: &Page) -> Result<Wrote, AllocError>
        ensures answer { IfOk result (λ answer. WrittenBy self.old block page.now answer self.new) }
        ensures err { OnErr result (self.new ≡ self.old) }
        ensures past { length self.old ≤ block → IsOk result }
        ensures again { is_private_at self.old block ≡ true → IsOk result }
    {
        let count = given(&self.base).len();
        if block as usize >= count {
            return Ok(Wrote::NoBlock);
        }
        make_places(&mut self.overlay, count, block as usize)?;
        put(self.alloc, &mut self.overlay, block as usize, page)?;
        Ok(Wrote::Wrote)
    }
}
