//! A frame's count and generation in one word.
ghost use Rattle.std.specs.Prelude.{◌≡◌, ◌+◌};
ghost use Rattle.frame_words.specs.FrameWords.{count, generation, cell_word, frame_word};

use base_words::{CellId, FrameNo};

/// What one generation adds to a word.
pub(crate) const GENERATION: u64 = 1 << 32;

/// What makes a free word one of the next generation, with one hold.
pub(crate) const NEXT: u64 = GENERATION + 1;

/// The last generation, and the largest count.
pub(crate) const LIMIT: u64 = GENERATION - 1;

/// The words of cells stand before those of frames.
pub(crate) const CELLS: usize = 8;

pub(crate) fn count_of(word: u64) -> u64
    ensures { result ≡ count word }
{
    word % GENERATION
}

pub(crate) fn generation_of(word: u64) -> u32
    ensures { result ≡ generation word }
{
    (word / GENERATION) as u32
}

pub(crate) fn word_of_frame(frame: FrameNo) -> usize
    ensures { result ≡ frame_word frame.0 }
{
    frame.0 as usize + CELLS
}

pub(crate) fn word_of_cell(cell: CellId) -> usize
    ensures { result ≡ cell_word cell.0 }
{
    cell.0 as usize
}
