//! The printed listing.
ghost use Rattle.std.specs.Prelude.{◌≡◌, ◌++◌, ◌*◌, ◌+◌, ◌^◌, ◌<◌, length, string_bytes, IfOk, OnOk};
ghost use Rattle.std.specs.List.{flat_map};
ghost use Rattle.hex.specs.Hex.{encode_lower};
ghost use Rattle.guest_asm.specs.Assembly.{assembly_seen};
ghost use Rattle.guest_asm.specs.Listing as spec;

use crate::assembled::{Assembled, Placed};
use std::alloc::{AllocError, Global};

/// How many bytes of the image a line has.
const ROW: usize = 32;

/// Puts a word in hexadecimal behind a text.
fn put_hexadecimal(alloc: Global, text: &mut Vec<u8>, bytes: &[u8]) -> Result<(), AllocError>
    ensures { OnOk result (text.new.items ≡ text.old.items ++ encode_lower bytes.now) }
{
    let digits = hex::encode(alloc, bytes)?;
    text.extend_from_slice(digits.as_bytes())
}

/// Puts the line of a word behind a text.
fn put_word(alloc: Global, text: &mut Vec<u8>, placed: Placed) -> Result<(), AllocError>
    ensures { OnOk result (text.new.items ≡ text.old.items ++ spec.word_line placed) }
{
    put_hexadecimal(alloc, text, &placed.address.to_be_bytes())?;
    text.extend_from_slice(b" ")?;
    put_hexadecimal(alloc, text, &placed.word.to_be_bytes())?;
    text.extend_from_slice(b"\n")
}

/// Puts the lines of words behind a text.
fn put_words(alloc: Global, text: &mut Vec<u8>, words: &[Placed]) -> Result<(), AllocError>
    ensures { OnOk result (text.new.items ≡ text.old.items ++ flat_map spec.word_line words.now) }
{
    for placed in words {
        put_word(alloc, text, *placed)?;
    }
    Ok(())
}

/// The line before the image's bytes.
fn file_line(alloc: Global, count: usize) -> Result<String, AllocError>
    ensures { IfOk result (λ line. string_bytes line ≡ spec.file_line count) }
{
    format!(in alloc; "file image.elf {count}\n")
}

/// The bytes of a line's number.
fn row_of(bytes: &[u8], number: usize) -> &[u8]
    requires { number * 32 < length bytes.now + 32 }
    ensures { result.now ≡ spec.row_of bytes.now number }
{
    let start = bytes.len().min(ROW * number);
    let end = bytes.len().min(start + ROW);
    &bytes[start..end]
}

/// Puts the lines of the image's bytes behind a text.
fn put_rows(alloc: Global, text: &mut Vec<u8>, bytes: &[u8]) -> Result<(), AllocError>
    requires { length bytes.now < 2 ^ 63 }
    ensures { OnOk result (text.new.items ≡ text.old.items ++ spec.rows_of bytes.now) }
{
    let count = (bytes.len() + (ROW - 1)) / ROW;
    for number in 0..count {
        put_hexadecimal(alloc, text, row_of(bytes, number))?;
        text.extend_from_slice(b"\n")?;
    }
    Ok(())
}

/// The listing of what was assembled, as bytes: a line for each word, with its address and the word in hexadecimal, then the line
/// `file image.elf LENGTH` and the image in hexadecimal, 32 bytes a line.
#[tactic(auto, unfolding(crate::specs::Listing::listing_of))]
pub fn listing_of(alloc: Global, assembled: &Assembled) -> Result<Vec<u8>, AllocError>
    ensures { IfOk result (λ text. text.items ≡ spec.listing_of (assembly_seen assembled.now)) }
{
    let mut text = Vec::new(alloc);
    put_words(alloc, &mut text, assembled.words.as_slice())?;
    let line = file_line(alloc, assembled.image.len())?;
    text.extend_from_slice(line.as_bytes())?;
    put_rows(alloc, &mut text, assembled.image.as_slice())?;
    Ok(text)
}
