//! The image: an executable ELF file of one segment.
ghost use Rattle.std.specs.Prelude.{◌≡◌, ◌++◌, ◌≤◌, ◌<◌, ◌+◌, ◌^◌, length, IfOk, OnOk};
ghost use Rattle.std.specs.List.{flat_map};
ghost use Rattle.byteorder.specs.Endian.{big_bytes};
ghost use Rattle.guest_asm.specs.Addresses.{start};
ghost use Rattle.guest_asm.specs.Image as spec;

use crate::address::START;
use crate::assembled::Placed;
use std::alloc::{AllocError, Global};

/// How many bytes stand before the segment's.
const HEADERS: usize = 84;

/// Puts a word behind bytes.
fn put_word(bytes: &mut Vec<u8>, word: u32) -> Result<(), AllocError>
    ensures { OnOk result (bytes.new.items ≡ bytes.old.items ++ big_bytes 4 word) }
{
    bytes.extend_from_slice(&word.to_be_bytes())
}

/// Puts words behind bytes, in order.
fn put_words(bytes: &mut Vec<u8>, words: &[u32]) -> Result<(), AllocError>
    ensures { OnOk result (bytes.new.items ≡ bytes.old.items ++ flat_map (big_bytes 4) words.now) }
{
    for word in words {
        put_word(bytes, *word)?;
    }
    Ok(())
}

/// An executable for MIPS with this entry, with one program header and no section headers.
#[rattlefmt::skip]
fn file_header(entry: u32) -> [u32; 13]
    ensures { flat_map (big_bytes 4) result ≡ spec.file_header entry }
{
    [
        0x7F45_4C46, 0x0102_0100, 0x0000_0000, 0x0000_0000,
        0x0002_0008, 1, entry, 52, 0, 0,
        0x0034_0020, 0x0001_0000, 0x0000_0000,
    ]
}

/// The segment: so many bytes behind the headers, from C0000000 on.
fn program_header(count: u32) -> [u32; 8]
    ensures { flat_map (big_bytes 4) result ≡ spec.program_header count }
{
    [1, HEADERS as u32, START, 0, count, count, 7, 4096]
}

/// Puts zeros behind bytes, up to so many bytes, and then a word.
fn put_at(bytes: &mut Vec<u8>, count: usize, word: u32) -> Result<(), AllocError>
    requires { length bytes.old.items ≤ count }
    ensures { OnOk result (bytes.new.items ≡ spec.extended bytes.old.items count word) }
{
    bytes.resize(count, 0)?;
    put_word(bytes, word)
}

/// The bytes from the first address up to the end of the last word, with zeros between words.
fn segment_of(alloc: Global, words: &[Placed]) -> Result<Vec<u8>, AllocError>
    requires { spec.AreInOrder start words.now }
    ensures value { IfOk result (λ bytes. bytes.items ≡ spec.bytes_from start words.now) }
    ensures short { IfOk result (λ bytes. length bytes.items < 2 ^ 32) }
{
    let mut bytes = Vec::new(alloc);
    for placed in words {
        let Placed { address, word } = *placed;
        put_at(&mut bytes, (address - START) as usize, word)?;
    }
    Ok(bytes)
}

/// The image of words that stand in order of their addresses, at multiples of 4 from C0000000 up to C0010000.
pub fn image_of(alloc: Global, entry: u32, words: &[Placed]) -> Result<Vec<u8>, AllocError>
    requires { spec.AreInOrder start words.now }
    ensures { IfOk result (λ image. image.items ≡ spec.image_of entry words.now) }
{
    let segment = segment_of(alloc, words)?;
    let bytes = segment.as_slice();
    let count = bytes.len();
    let mut image = Vec::with_capacity(alloc, HEADERS + count)?;
    put_words(&mut image, &file_header(entry))?;
    put_words(&mut image, &program_header(count as u32))?;
    image.extend_from_slice(bytes)?;
    Ok(image)
}
