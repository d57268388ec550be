//! Memory in words and in pages.
ghost use Rattle.std.specs.Prelude.{◌≡◌, ◌+◌, ◌*◌, ◌≤◌, ◌<◌, ◌++◌, length, take, drop};
ghost use Rattle.base_words.specs.Memory.{word_at, with_word};
ghost use Rattle.private_machine.specs.Links.{word_offset as word_offset_of};

use base_words::{PAGE_SIZE, read_word, write_word};

/// The offset of the word in which an offset lies.
#[inline]
fn word_offset(offset: u64) -> usize
    ensures { result ≡ word_offset_of offset }
{
    (offset - offset % 4) as usize
}

/// The word in which an offset of whole pages lies.
#[inline]
pub fn word_around(memory: &[u8], pages: u32, offset: u64) -> u32
    requires whole { length memory.now ≡ 4096 * pages }
    requires within { offset < 4096 * pages }
    ensures { result ≡ word_at memory.now (word_offset_of offset) }
{
    read_word(memory, word_offset(offset))
}

/// Replaces the word in which an offset of whole pages lies.
#[inline]
pub fn set_word_around(memory: &mut [u8], pages: u32, offset: u64, word: u32)
    requires whole { length memory.old ≡ 4096 * pages }
    requires within { offset < 4096 * pages }
    ensures { memory.new ≡ with_word memory.old (word_offset_of offset) word }
{
    write_word(memory, word_offset(offset), word);
}

/// The first bytes of a page.
pub fn page_bytes(memory: &[u8], pages: u32, page: u32, count: usize) -> &[u8]
    requires whole { length memory.now ≡ 4096 * pages }
    requires within { page < pages }
    requires few { count ≤ 4096 }
    ensures { result.now ≡ take count (drop (page * 4096) memory.now) }
{
    let start = page as usize * PAGE_SIZE as usize;
    &memory[start..start + count]
}

/// The page that begins at an offset.
#[inline(always)]
pub fn page_from(memory: &[u8], pages: u32, start: u64) -> &[u8]
    requires whole { length memory.now ≡ 4096 * pages }
    requires within { start + 4096 ≤ 4096 * pages }
    ensures { result.now ≡ take 4096 (drop start memory.now) }
{
    let start = start as usize;
    &memory[start..start + PAGE_SIZE as usize]
}

/// Other bytes come into the beginning of a page.
pub fn fill_page(memory: &mut [u8], pages: u32, page: u32, bytes: &[u8])
    requires whole { length memory.old ≡ 4096 * pages }
    requires within { page < pages }
    requires few { length bytes.now ≤ 4096 }
    ensures { memory.new ≡ take (page * 4096) memory.old ++ (bytes.now ++ drop (page * 4096 + length bytes.now) memory.old) }
{
    let start = page as usize * PAGE_SIZE as usize;
    let end = start + bytes.len();
    memory[start..end].copy_from_slice(bytes);
}
