//! The files and the words of a call.
use base_words::{Bytes, Name};
use outside_io::HeldFile;
use std::alloc::{AllocError, Global};

/// LUI 1, CFFF; ORI 1, 1, F000; ADDIU 2, 0, 41; SW 2, 0(1); SW 2, 4(1): prints A and halts.
pub const PRINTS_A: [u8; 20] = [
    0x3C, 0x01, 0xCF, 0xFF, 0x34, 0x21, 0xF0, 0x00, 0x24, 0x02, 0x00, 0x41, 0xAC, 0x22, 0x00, 0x00,
    0xAC, 0x22, 0x00, 0x04,
];

/// A part of a file: the place of its first byte, and its words.
pub type Part<'a> = (usize, &'a [u32]);

/// A file of the shelf.
pub fn held(alloc: Global, name: &str, bytes: Vec<u8>) -> Result<HeldFile, AllocError> {
    Ok(HeldFile {
        name: Name::copy_of(alloc, name)?,
        bytes: Bytes::from_vec(bytes),
    })
}

/// A file of words, each of its parts from a place on, with zeros between them.
pub fn file_of_parts(alloc: Global, parts: &[Part]) -> Result<Vec<u8>, AllocError> {
    let mut file = Vec::new(alloc);
    for (at, words) in parts {
        file.resize(*at, 0u8)?;
        for word in *words {
            file.extend_from_slice(&word.to_be_bytes())?;
        }
    }
    Ok(file)
}

/// The words as the system gives them.
pub fn words_of(alloc: Global, words: &[&str]) -> Result<Vec<String>, AllocError> {
    let mut all = Vec::new(alloc);
    for word in words {
        all.push(String::from_str(alloc, word)?)?;
    }
    Ok(all)
}
