//! Pages of 4096 bytes, with words most significant byte first.
ghost use Rattle.std.specs.Prelude.{◌≡◌, ◌<◌, ◌+◌, ◌≤◌, ◌%◌, ◌++◌, ◌↔◌, IsTrue, length, replicate, slice_index, slice_set, take, drop, IfOk};
ghost use Rattle.base_words.specs.Memory.{word_at, with_word};

use crate::{Sequence, read_word, write_word};
use std::alloc::{AllocError, Global};
use std::marker::Model;

/// The bytes of a page.
pub const PAGE_SIZE: u32 = 4096;

/// A page of 4096 bytes, seen as their list.
#[derive(Debug, Drop)]
pub struct Page {
    bytes: [u8; 4096],
}

impl Model for Page {
    ghost use Rattle.std.specs.Prelude.{List, ℕ};

    ghost Value = { List ℕ };

    ghost view = { λ p. p.bytes };
}

/// Pages in order, each in a box of its own.
pub type PageList = Sequence<Box<Page>>;

/// The blocks of a disk, in order.
pub type Blocks = PageList;

impl Page {
    /// A page of zeros.
    pub fn zeroed(alloc: Global) -> Result<Box<Page>, AllocError>
        ensures zeros { IfOk result (λ page. page.value ≡ replicate 4096 0) }
        ensures whole { IfOk result (λ page. length page.value ≡ 4096) }
    {
        Ok(Box::new(alloc, Page { bytes: [0; 4096] })?)
    }

    /// All 4096 bytes.
    pub fn bytes(&self) -> &[u8]
        ensures value { result.now ≡ self.now }
        ensures whole { length self.now ≡ 4096 }
    {
        &self.bytes
    }

    /// The word at an offset in bytes.
    pub fn word_at(&self, offset: u32) -> u32
        requires within { offset < 4096 }
        requires aligned { offset % 4 ≡ 0 }
        ensures word { result ≡ word_at self.now offset }
        ensures whole { length self.now ≡ 4096 }
    {
        read_word(&self.bytes, offset as usize)
    }

    /// Replaces the word at an offset in bytes.
    pub fn set_word(&mut self, offset: u32, word: u32)
        requires within { offset < 4096 }
        requires aligned { offset % 4 ≡ 0 }
        ensures written { self.new ≡ with_word self.old offset word }
        ensures whole { length self.old ≡ 4096 }
        ensures still_whole { length self.new ≡ 4096 }
    {
        write_word(&mut self.bytes, offset as usize, word);
    }

    /// The byte at an offset.
    pub fn byte_at(&self, offset: u32) -> u8
        requires { offset < 4096 }
        ensures byte { result ≡ slice_index self.now offset }
        ensures whole { length self.now ≡ 4096 }
    {
        self.bytes[offset as usize]
    }

    /// Replaces the byte at an offset.
    pub fn set_byte(&mut self, offset: u32, byte: u8)
        requires { offset < 4096 }
        ensures written { self.new ≡ slice_set self.old offset byte }
        ensures whole { length self.old ≡ 4096 }
        ensures still_whole { length self.new ≡ 4096 }
    {
        self.bytes[offset as usize] = byte;
    }

    /// Replaces the bytes from an offset on by others.
    pub fn fill_from(&mut self, offset: u32, bytes: &[u8])
        requires { offset + length bytes.now ≤ 4096 }
        ensures filled { self.new ≡ take offset self.old ++ (bytes.now ++ drop (offset + length bytes.now) self.old) }
        ensures whole { length self.old ≡ 4096 }
        ensures still_whole { length self.new ≡ 4096 }
    {
        let start = offset as usize;
        let end = start + bytes.len();
        self.bytes[start..end].copy_from_slice(bytes);
    }

    /// Makes this page's bytes those of another.
    pub fn copy_from(&mut self, other: &Page)
        ensures copied { self.new ≡ other.now }
        ensures whole { length self.new ≡ 4096 }
    {
        self.bytes.copy_from_slice(&other.bytes);
    }

    /// Whether the two pages have the same bytes.
    pub fn equals(&self, other: &Page) -> bool
        ensures equal { IsTrue result ↔ (self.now ≡ other.now) }
        ensures whole { (length self.now ≡ 4096) × (length other.now ≡ 4096) }
    {
        self.bytes == other.bytes
    }
}
