//! The pages of a guest's memory, filled from the file.
ghost use Rattle.std.specs.Prelude.{◌≡◌, ◌+◌, ◌*◌, ◌≤◌, false, length, slice_index, take, drop, IfOk};
ghost use Rattle.elf_image.specs.declared.segment.ProgramHeader.TheVariants.{Load};
ghost use Rattle.elf_image.specs.Segments.{is_cut};
ghost use Rattle.elf_image.specs.Physical.{lies_at, file_byte, byte_of};
ghost use Rattle.elf_image.specs.Filling.{CanBeCopied, IsPageOf, ArePagesOf, PutsBytes};

use crate::segment::{LoadSegment, MEMORY_START, ProgramHeader};
use base_words::{PAGE_SIZE, Page, PageList};
use std::alloc::{AllocError, Global};

/// A memory of so many pages, with the bytes of the segments in their places and zeros elsewhere.
pub fn lay_out(
    alloc: Global,
    file: &[u8],
    headers: &[ProgramHeader],
    pages: u32,
) -> Result<PageList, AllocError>
    requires { CanBeCopied headers.now (length file.now) }
    ensures { IfOk result (λ list. ArePagesOf (byte_of headers.now file.now) pages list) }
{
    let mut list = PageList::new(alloc);
    for number in 0..pages {
        list.push(page_of(alloc, file, headers, number)?)?;
    }
    Ok(list)
}

/// The page of a number, as the segments fill it.
fn page_of(
    alloc: Global,
    file: &[u8],
    headers: &[ProgramHeader],
    number: u32,
) -> Result<Box<Page>, AllocError>
    requires { CanBeCopied headers.now (length file.now) }
    ensures { IfOk result (λ page. IsPageOf (byte_of headers.now file.now) number page.value) }
{
    let mut page = Page::zeroed(alloc)?;
    for header in headers {
        copy_header(&mut page, number, header, file);
    }
    Ok(page)
}

/// Puts the bytes of a header's segment that lie on the page of a number into their places.
fn copy_header(page: &mut Page, number: u32, header: &ProgramHeader, file: &[u8])
    requires whole { length page.old ≡ 4096 }
    requires within { is_cut (length file.now) header.now ≡ false }
    ensures { PutsBytes page.old page.new number (lies_at header.now) (file_byte file.now header.now) }
{
    match header {
        ProgramHeader::Load(segment) => copy_segment(page, number, segment, file),
        ProgramHeader::Interpreter | ProgramHeader::Other => {}
    }
}

/// The same for a segment: its bytes from one physical address to another lie on the page.
fn copy_segment(page: &mut Page, number: u32, segment: &LoadSegment, file: &[u8])
    requires whole { length page.old ≡ 4096 }
    requires within { segment.now.p_offset + segment.now.p_filesz ≤ length file.now }
    ensures { PutsBytes page.old page.new number (lies_at (Load segment.now)) (file_byte file.now (Load segment.now)) }
{
    let base = PAGE_SIZE as u64 * number as u64;
    // A segment without bytes may lie below memory.
    let start = segment.p_vaddr.saturating_sub(MEMORY_START) as u64;
    let from = start.max(base);
    let to = (start + segment.p_filesz as u64).min(base + PAGE_SIZE as u64);
    if from < to {
        let offset = segment.p_offset as usize + (from - start) as usize;
        let part = &file[offset..offset + (to - from) as usize];
        page.fill_from((from - base) as u32, part);
    }
}

/// A memory of so many pages, with the bytes of a file from its first byte on and zeros behind them.
pub fn lay_out_raw(alloc: Global, file: &[u8], pages: u32) -> Result<PageList, AllocError>
    ensures { IfOk result (λ list. ArePagesOf (slice_index file.now) pages list) }
{
    let mut list = PageList::new(alloc);
    for number in 0..pages {
        list.push(raw_page_of(alloc, file, number)?)?;
    }
    Ok(list)
}

/// The page of a number, with the bytes of a file that lie on it.
fn raw_page_of(alloc: Global, file: &[u8], number: u32) -> Result<Box<Page>, AllocError>
    ensures { IfOk result (λ page. IsPageOf (slice_index file.now) number page.value) }
{
    let mut page = Page::zeroed(alloc)?;
    page.fill_from(0, part_of(file, number));
    Ok(page)
}

/// The bytes of a file that lie on the page of a number, where its first byte lies at physical address 0.
fn part_of(file: &[u8], number: u32) -> &[u8]
    ensures { result.now ≡ take 4096 (drop (4096 * number) file.now) }
{
    let start = file.len().min(PAGE_SIZE as usize * number as usize);
    let end = file.len().min(start + PAGE_SIZE as usize);
    &file[start..end]
}
