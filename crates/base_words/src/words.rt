//! Words of four bytes in memory, the most significant byte first.
ghost use Rattle.std.specs.Prelude.{◌≡◌, ◌+◌, ◌≤◌, length};
ghost use Rattle.base_words.specs.Memory.{word_at, with_word};

use byteorder::{BigEndian, ByteOrder};

/// The word in the four bytes from an offset.
pub fn read_word(memory: &[u8], offset: usize) -> u32
    requires { offset + 4 ≤ length memory.now }
    ensures { result ≡ word_at memory.now offset }
{
    BigEndian::read_u32(&memory[offset..offset + 4])
}

/// Replaces the four bytes from an offset.
pub fn write_word(memory: &mut [u8], offset: usize, word: u32)
    requires { offset + 4 ≤ length memory.old }
    ensures { memory.new ≡ with_word memory.old offset word }
{
    BigEndian::write_u32(&mut memory[offset..offset + 4], word);
}
