//! Parts of words in memory.
ghost use Rattle.std.specs.Prelude.{◌≡◌, ◌<◌, ◌%◌};
ghost use Rattle.base_words.specs.Merging.{byte_of, half_of, byte_extended, merge_left as merged_left, merge_right as merged_right, split_left as split_to_left, split_right as split_to_right, loaded_value as value_of, stored_word as word_of, load_unit as load_unit_of, store_unit as store_unit_of};
ghost use Rattle.base_words.specs.declared.instr.StoreKind.TheVariants.{Byte as StoreByte, HalfWord as StoreHalfWord};

use crate::arithmetic::sign_extend;
use base_words::{LoadKind, StoreKind};

/// The word from a byte on fills the register from the left; the rest of the register stays.
pub fn merge_left(word: u32, register: u32, byte: u32) -> u32
    requires { byte < 4 }
    ensures { result ≡ merged_left word register byte }
{
    match byte {
        0 => word,
        1 => (word << 8) + (register & 0xFF),
        2 => (word << 16) + (register & 0xFFFF),
        _ => (word << 24) + (register & 0xFF_FFFF),
    }
}

/// The word up to a byte fills the register from the right; the rest of the register stays.
pub fn merge_right(word: u32, register: u32, byte: u32) -> u32
    requires { byte < 4 }
    ensures { result ≡ merged_right word register byte }
{
    match byte {
        0 => (register - (register & 0xFF)) + (word >> 24),
        1 => (register - (register & 0xFFFF)) + (word >> 16),
        2 => (register - (register & 0xFF_FFFF)) + (word >> 8),
        _ => word,
    }
}

/// The word from a byte on is filled from the register's left; the rest of the word stays.
pub fn split_left(word: u32, register: u32, byte: u32) -> u32
    requires { byte < 4 }
    ensures { result ≡ split_to_left word register byte }
{
    match byte {
        0 => register,
        1 => (word - (word & 0xFF_FFFF)) + (register >> 8),
        2 => (word - (word & 0xFFFF)) + (register >> 16),
        _ => (word - (word & 0xFF)) + (register >> 24),
    }
}

/// The word up to a byte is filled from the register's right; the rest of the word stays.
pub fn split_right(word: u32, register: u32, byte: u32) -> u32
    requires { byte < 4 }
    ensures { result ≡ split_to_right word register byte }
{
    match byte {
        0 => (word & 0xFF_FFFF) + (register & 0xFF) * 0x100_0000,
        1 => (word & 0xFFFF) + (register & 0xFFFF) * 0x1_0000,
        2 => (word & 0xFF) + (register & 0xFF_FFFF) * 0x100,
        _ => register,
    }
}

/// A byte with its sign in the bits above.
fn extend_byte(byte: u32) -> u32
    requires { byte < 256 }
    ensures { result ≡ byte_extended byte }
{
    if byte < 0x80 {
        byte
    } else {
        byte + 0xFFFF_FF00
    }
}

/// The byte at a place of a word.
fn byte_at(word: u32, byte: u32) -> u32
    requires { byte < 4 }
    ensures value { result ≡ byte_of word byte }
    ensures within { result < 256 }
{
    word >> (24 - 8 * byte) & 0xFF
}

/// The half word that begins at a place of a word.
fn half_at(word: u32, byte: u32) -> u16
    requires { byte < 3 }
    ensures { result ≡ half_of word byte }
{
    (word >> (16 - 8 * byte) & 0xFFFF) as u16
}

/// The multiple that the address of a load has to be.
#[inline(always)]
pub fn load_unit(kind: LoadKind) -> u32
    ensures value { result ≡ load_unit_of kind }
    ensures some { 0 < result }
    ensures divides { 4 % result ≡ 0 }
{
    match kind {
        LoadKind::Byte | LoadKind::ByteUnsigned | LoadKind::WordLeft | LoadKind::WordRight => 1,
        LoadKind::HalfWord | LoadKind::HalfWordUnsigned => 2,
        LoadKind::Word => 4,
    }
}

/// The multiple that the address of a store has to be.
#[inline(always)]
pub fn store_unit(kind: StoreKind) -> u32
    ensures value { result ≡ store_unit_of kind }
    ensures some { 0 < result }
    ensures divides { 4 % result ≡ 0 }
{
    match kind {
        StoreKind::Byte | StoreKind::WordLeft | StoreKind::WordRight => 1,
        StoreKind::HalfWord => 2,
        StoreKind::Word => 4,
    }
}

/// What a load makes of the word that has the addressed byte at a place, and of the register's old value.
#[inline(always)]
pub fn loaded_value(kind: LoadKind, word: u32, register: u32, byte: u32) -> u32
    requires within { byte < 4 }
    requires aligned { byte % load_unit_of kind ≡ 0 }
    ensures { result ≡ value_of kind word register byte }
{
    match kind {
        LoadKind::Byte => extend_byte(byte_at(word, byte)),
        LoadKind::ByteUnsigned => byte_at(word, byte),
        LoadKind::HalfWord => sign_extend(half_at(word, byte)),
        LoadKind::HalfWordUnsigned => u32::from(half_at(word, byte)),
        LoadKind::Word => word,
        LoadKind::WordLeft => merge_left(word, register, byte),
        LoadKind::WordRight => merge_right(word, register, byte),
    }
}

/// The word with another byte at a place.
fn with_byte(word: u32, register: u32, byte: u32) -> u32
    requires { byte < 4 }
    ensures { result ≡ word_of StoreByte word register byte }
{
    let new = register & 0xFF;
    match byte {
        0 => word - (word >> 24 & 0xFF) * 0x100_0000 + new * 0x100_0000,
        1 => word - (word >> 16 & 0xFF) * 0x1_0000 + new * 0x1_0000,
        2 => word - (word >> 8 & 0xFF) * 0x100 + new * 0x100,
        _ => word - (word & 0xFF) + new,
    }
}

/// The word with another half word from an even place on.
fn with_half(word: u32, register: u32, byte: u32) -> u32
    requires within { byte < 4 }
    requires aligned { byte % 2 ≡ 0 }
    ensures { result ≡ word_of StoreHalfWord word register byte }
{
    let new = register & 0xFFFF;
    if byte == 0 {
        word - (word >> 16 & 0xFFFF) * 0x1_0000 + new * 0x1_0000
    } else {
        word - (word & 0xFFFF) + new
    }
}

/// What a store makes of the word that has the addressed byte at a place, and of the register.
#[inline(always)]
pub fn stored_word(kind: StoreKind, word: u32, register: u32, byte: u32) -> u32
    requires within { byte < 4 }
    requires aligned { byte % store_unit_of kind ≡ 0 }
    ensures { result ≡ word_of kind word register byte }
{
    match kind {
        StoreKind::Byte => with_byte(word, register, byte),
        StoreKind::HalfWord => with_half(word, register, byte),
        StoreKind::Word => register,
        StoreKind::WordLeft => split_left(word, register, byte),
        StoreKind::WordRight => split_right(word, register, byte),
    }
}
