//! What a guest is started from.
use base_words::Sequence;
use cow_disk::Disk;
use elf_image::Image;

/// What a guest is started from: the image that its memory has at the start, its disk, and which of the machine's disks it is, where the
/// guest has one.
#[derive(Drop)]
pub struct Source {
    pub image: Image,
    pub disk: Disk,
    pub number: Option<usize>,
}

/// What the guests are started from, in their order.
pub type SourceList = Sequence<Source>;
