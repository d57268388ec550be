//! What the guests of a machine share.
use cow_disk::SharedIndex;
use frame_words::FrameTable;
use wire_queue::Wires;

/// What the guests of a machine share, as it is lent to their calls: the words of its frames, the wires between them, and the blocks of
/// disks in frames of each cell, by the cells' numbers.
#[derive(Clone, Copy)]
pub struct Resources<'a> {
    pub table: &'a FrameTable,
    pub wires: &'a Wires,
    pub indexes: &'a [SharedIndex],
}
