//! What a table of frame words is made of.
ghost use Rattle.std.specs.Prelude.{◌<◌, ◌≤◌, length};

use base_words::LendList;

/// How many frames there are, their first generation, and how many loans each cell gives at most.
#[derive(Drop)]
pub struct Terms {
    pub frames: u32,
    pub first: u32,
    pub lends: LendList,
    ghost some_frames: { 0 < frames },
    ghost numbered: { frames < 4294967296 },
    ghost some_cells: { 0 < length lends },
    ghost few_cells: { length lends ≤ 8 },
}
