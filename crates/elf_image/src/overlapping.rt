//! Two segments that share a byte of memory.
ghost use Rattle.std.specs.Prelude.{◌≡◌, ◌<◌, ◌^◌, None, true, length, position, IfOk, IfSome, IsPermutation};
ghost use Rattle.std.specs.List.{filter_map};
ghost use Rattle.elf_image.specs.Segments.{shares_byte};
ghost use Rattle.elf_image.specs.Spans.{span_of, AreApart};
ghost use Rattle.elf_image.specs.FirstFault.{overlap};
ghost use Rattle.elf_image.specs.Checks.{Finds};

use crate::ImageFault;
use crate::segment::{ProgramHeader, Span};
use std::alloc::{AllocError, Global};

/// Refuses the first two segments that share a byte. Where none do, that costs one sort; else, and where memory for
/// the sort is wanting, they are compared pair by pair.
pub fn check_overlaps(alloc: Global, headers: &[ProgramHeader]) -> Result<(), ImageFault>
    requires { length headers.now < 2 ^ 32 }
    ensures { Finds (overlap headers.now) result }
{
    match sorted_spans(alloc, headers) {
        Ok(spans) if are_apart(spans.as_slice()) => Ok(()),
        Ok(_) | Err(_) => find_overlap(headers),
    }
}

/// Where the segments lie that have bytes of memory, by their first addresses.
fn sorted_spans(alloc: Global, headers: &[ProgramHeader]) -> Result<Vec<Span>, AllocError>
    ensures { IfOk result (λ spans. IsPermutation (filter_map span_of headers.now) spans.items) }
{
    let mut spans = spans_of(alloc, headers)?;
    spans.sort_unstable_by_key(|span| span.start);
    Ok(spans)
}

fn spans_of(alloc: Global, headers: &[ProgramHeader]) -> Result<Vec<Span>, AllocError>
    ensures { IfOk result (λ spans. spans.items ≡ filter_map span_of headers.now) }
{
    headers
        .iter()
        .filter_map(|header| header.span())
        .collect(alloc)
}

/// Whether each begins behind the ends of all before it.
fn are_apart(spans: &[Span]) -> bool
    ensures { result ≡ true → AreApart spans.now }
{
    let mut end = 0;
    for span in spans {
        if span.start < end {
            return false;
        }
        end = end.max(span.end);
    }
    true
}

fn find_overlap(headers: &[ProgramHeader]) -> Result<(), ImageFault>
    requires { length headers.now < 2 ^ 32 }
    ensures { Finds (overlap headers.now) result }
{
    for (number, header) in headers.iter().enumerate() {
        let later = &headers[number + 1..];
        if let Some(between) = first_sharing(header, later) {
            return Err(ImageFault::Overlap(number as u32, (number + 1 + between) as u32));
        }
    }
    Ok(())
}

/// The number of the first of the later segments that shares a byte with this one.
fn first_sharing(header: &ProgramHeader, later: &[ProgramHeader]) -> Option<usize>
    ensures first { result ≡ position (shares_byte header.now) later.now }
    ensures within { IfSome result (λ number. number < length later.now) }
{
    later.iter().position(|other| header.shares_byte(other))
}
