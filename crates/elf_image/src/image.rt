//! Images, and how they are loaded.
ghost use Rattle.elf_image.specs.Loading.{Loads, LoadsRaw};

use crate::filling::{lay_out, lay_out_raw};
use crate::header::ElfHeader;
use crate::segment::MEMORY_START;
use crate::{ImageFault, segments};
use base_words::{PAGE_SIZE, PageList};
use std::alloc::Global;

/// What a guest starts with: the virtual address of its first instruction, and the pages of its memory.
#[derive(Debug, Drop)]
pub struct Image {
    pub entry: u32,
    pub pages: PageList,
}

/// Loads an executable ELF file into a memory of so many pages of 4096 bytes.
/// A refusal is the first fault of the file, or want of memory.
pub fn load(alloc: Global, bytes: &[u8], pages: u32) -> Result<Image, ImageFault>
    ensures { Loads bytes.now pages result }
{
    let header = ElfHeader::read(bytes)?;
    header.check(bytes.len())?;
    let headers = segments::read_headers(alloc, bytes, &header)?;
    segments::check(alloc, &headers, bytes.len(), pages)?;
    header.check_entry(pages)?;
    Ok(Image {
        entry: header.e_entry,
        pages: lay_out(alloc, bytes, &headers, pages)?,
    })
}

/// Loads a raw file of words into a memory of so many pages of 4096 bytes, from physical address 0 on.
/// A refusal is `Short` where the file ends within a word, else `Place(0)` where it is longer than the memory, or want of memory.
pub fn load_raw(alloc: Global, bytes: &[u8], pages: u32) -> Result<Image, ImageFault>
    ensures { LoadsRaw bytes.now pages result }
{
    if bytes.len() % 4 != 0 {
        return Err(ImageFault::Short);
    }
    if bytes.len() as u64 > PAGE_SIZE as u64 * pages as u64 {
        return Err(ImageFault::Place(0));
    }
    Ok(Image {
        entry: MEMORY_START,
        pages: lay_out_raw(alloc, bytes, pages)?,
    })
}
