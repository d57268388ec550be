//! The program headers of a file, and what is asked of them together.
ghost use Rattle.std.specs.Prelude.{◌≡◌, ◌+◌, ◌*◌, ◌<◌, ◌≤◌, ◌^◌, length, IfOk, IfSome, position};
ghost use Rattle.std.specs.List.{list_any};
ghost use Rattle.elf_image.specs.Fields.{program_headers_of};
ghost use Rattle.elf_image.specs.Segments.{is_interpreter, is_cut, is_outside};
ghost use Rattle.elf_image.specs.FirstFault.{interp, segment, place};
ghost use Rattle.elf_image.specs.Checks.{Finds, segments_fault};

use crate::ImageFault;
use crate::header::{ElfHeader, PROGRAM_HEADER_SIZE};
use crate::overlapping::check_overlaps;
use crate::segment::ProgramHeader;
use std::alloc::{AllocError, Global};

/// The program headers that a file's header tells of, in their order.
pub fn read_headers(
    alloc: Global,
    file: &[u8],
    header: &ElfHeader,
) -> Result<Vec<ProgramHeader>, AllocError>
    requires { 0 < header.now.e_phnum → header.now.e_phoff + 32 * header.now.e_phnum ≤ length file.now }
    ensures value { IfOk result (λ headers. headers.items ≡ program_headers_of file.now header.now) }
    ensures count { IfOk result (λ headers. length headers.items < 2 ^ 16) }
{
    let mut headers = Vec::with_capacity(alloc, header.e_phnum as usize)?;
    for number in 0..header.e_phnum {
        let offset = header.e_phoff as usize + PROGRAM_HEADER_SIZE as usize * number as usize;
        headers.push(ProgramHeader::read(file, offset))?;
    }
    Ok(headers)
}

/// Refuses an interpreter, a segment that is cut or lies outside the memory, and two that share a byte.
#[tactic(auto, unfolding(crate::specs::Checks::segments_fault))]
pub fn check(
    alloc: Global,
    headers: &[ProgramHeader],
    file_length: usize,
    pages: u32,
) -> Result<(), ImageFault>
    requires { length headers.now < 2 ^ 32 }
    ensures { Finds (segments_fault headers.now file_length pages) result }
{
    check_interpreter(headers)?;
    check_segments(headers, file_length)?;
    check_places(headers, pages)?;
    check_overlaps(alloc, headers)
}

fn check_interpreter(headers: &[ProgramHeader]) -> Result<(), ImageFault>
    ensures { Finds (interp headers.now) result }
{
    if has_interpreter(headers) {
        return Err(ImageFault::Interp);
    }
    Ok(())
}

fn check_segments(headers: &[ProgramHeader], file_length: usize) -> Result<(), ImageFault>
    requires { length headers.now < 2 ^ 32 }
    ensures { Finds (segment headers.now file_length) result }
{
    match first_cut(headers, file_length) {
        Some(number) => Err(ImageFault::Segment(number as u32)),
        None => Ok(()),
    }
}

fn check_places(headers: &[ProgramHeader], pages: u32) -> Result<(), ImageFault>
    requires { length headers.now < 2 ^ 32 }
    ensures { Finds (place headers.now pages) result }
{
    match first_outside(headers, pages) {
        Some(number) => Err(ImageFault::Place(number as u32)),
        None => Ok(()),
    }
}

fn has_interpreter(headers: &[ProgramHeader]) -> bool
    ensures { result ≡ list_any is_interpreter headers.now }
{
    headers.iter().any(|header| header.is_interpreter())
}

/// The number of the first segment that is cut.
fn first_cut(headers: &[ProgramHeader], file_length: usize) -> Option<usize>
    ensures first { result ≡ position (is_cut file_length) headers.now }
    ensures within { IfSome result (λ number. number < length headers.now) }
{
    headers.iter().position(|header| header.is_cut(file_length))
}

/// The number of the first segment that has a byte outside the memory.
fn first_outside(headers: &[ProgramHeader], pages: u32) -> Option<usize>
    ensures first { result ≡ position (is_outside pages) headers.now }
    ensures within { IfSome result (λ number. number < length headers.now) }
{
    headers.iter().position(|header| header.is_outside(pages))
}
