//! The blocks of disks that guests share: an index by disk and block.
ghost use Rattle.std.specs.Prelude.{◌≡◌, ◌<◌, ◌≤◌, [], ◌∷◌, ◌++◌, map, is_some, slice_get, None, length, IfOk, OnOk, OnErr, OnSome, IfNone};
ghost use Rattle.std.specs.Option.{option_map};
ghost use Rattle.cow_disk.specs.IndexView.{copy_in, found};
ghost use Rattle.cow_disk.specs.IndexCalls.{KeepsBlock};
ghost use Rattle.cow_disk.specs.IndexParts.{cached_of, place_of};

use base_words::{FrameList, FrameNo, Page, SharedFrame};
use indexmap::IndexMap;
use std::alloc::{AllocError, Global};
use std::marker::Model;
use std::sync::Arc;

/// A frame that an index was given, and the generation under which it is held.
#[derive(Clone, Copy, Debug)]
pub struct CacheFrame {
    pub number: FrameNo,
    pub generation: u32,
}

/// A block of a disk, by their numbers.
#[derive(Clone, Copy, Debug, PartialEq, Eq, Hash)]
pub struct BlockId {
    pub disk: u32,
    pub block: u32,
}

/// What became of a block that was to be kept.
#[derive(Drop)]
pub enum Keep {
    /// A copy of it lies in this frame.
    Kept(SharedFrame),
    /// The index has an entry for it already.
    Known,
    /// All frames are used, of which there are so many.
    CacheFull(usize),
}

/// Copies of blocks in frames that guests share: each in the next of the frames that the index was given. It is filled first, and
/// then read by any number of threads.
#[derive(Drop)]
pub struct SharedIndex {
    pub(crate) entries: IndexMap<BlockId, SharedFrame>,
    pub(crate) frames: Vec<CacheFrame>,
    alloc: Global,
}

impl Model for SharedIndex {
    ghost use Rattle.cow_disk.specs.IndexView.{Index};

    ghost Value = { Index };

    ghost use Rattle.cow_disk.specs.IndexParts.{index_of, IsFilled};

    ghost view = { index_of };

    ghost invariant = { IsFilled };
}

/// The frame at a place, if there is one.
fn frame_at(frames: &[CacheFrame], place: usize) -> Option<CacheFrame>
    ensures frame { result ≡ slice_get frames.now place }
    ensures some { OnSome result (place < length frames.now) }
    ensures none { IfNone result (length frames.now ≤ place) }
{
    match frames.get(place) {
        Some(frame) => Some(*frame),
        None => None,
    }
}

/// Whether there is an entry for a block.
fn knows(entries: &IndexMap<BlockId, SharedFrame>, id: BlockId) -> bool
    ensures { result ≡ is_some (found (map cached_of entries.now.entries) id.disk id.block) }
{
    entries.contains_key(&id)
}

/// Adds an entry for a block without one. Where memory is wanting, nothing changes.
fn add(
    entries: &mut IndexMap<BlockId, SharedFrame>,
    id: BlockId,
    frame: SharedFrame,
) -> Result<(), AllocError>
    requires { found (map cached_of entries.old.entries) id.disk id.block ≡ None }
    ensures ok { OnOk result (entries.new.entries ≡ entries.old.entries ++ (id, frame) ∷ []) }
    ensures err { OnErr result (entries.new.entries ≡ entries.old.entries) }
{
    entries.insert(id, frame)?;
    Ok(())
}

/// A copy of a page that is shared from now on, with two owners.
fn shared_copy(
    alloc: Global,
    place: CacheFrame,
    page: &Page,
) -> Result<(SharedFrame, SharedFrame), AllocError>
    ensures { IfOk result (λ both. (copy_in both.0 ≡ record { frame = place.number.0; generation = place.generation; bytes = page.now }) × (copy_in both.1 ≡ copy_in both.0)) }
{
    let CacheFrame { number, generation } = place;
    let mut copy = Page::zeroed(alloc)?;
    copy.copy_from(page);
    let kept = Arc::new(alloc, copy)?;
    let other = Arc::try_clone(&kept)?;
    Ok((
        SharedFrame {
            number,
            generation,
            page: kept,
        },
        SharedFrame {
            number,
            generation,
            page: other,
        },
    ))
}

impl SharedIndex {
    /// An index without entries, which may use these frames.
    pub fn new(alloc: Global, frames: FrameList) -> Result<Self, AllocError>
        ensures { IfOk result (λ index. index ≡ record { entries = []; frames = map place_of frames }) }
    {
        let mut places = Vec::new(alloc);
        for frame in frames.into_vec() {
            places.push(CacheFrame {
                number: frame.number,
                generation: frame.generation,
            })?;
        }
        Ok(SharedIndex {
            entries: IndexMap::new(alloc),
            frames: places,
            alloc,
        })
    }

    /// The frame with a copy of a block; None exactly where the index has no entry for it. Takes no memory.
    #[inline]
    pub fn find(&self, disk: u32, block: u32) -> Option<&SharedFrame>
        ensures { option_map (λ frame. copy_in frame.now) result ≡ found self.now.entries disk block }
    {
        self.entries.get(&BlockId { disk, block })
    }

    /// Keeps a copy of a block in the next frame. `CacheFull` exactly where no frame is left, else `Known` exactly where there is an entry for
    /// the block. A refusal, and want of memory, leave the index as it was.
    pub fn keep(&mut self, disk: u32, block: u32, page: &Page) -> Result<Keep, AllocError>
        ensures { KeepsBlock self.old disk block page.now result self.new }
    {
        let id = BlockId { disk, block };
        let next = self.entries.len();
        let Some(place) = frame_at(&self.frames, next) else {
            return Ok(Keep::CacheFull(next));
        };
        if knows(&self.entries, id) {
            return Ok(Keep::Known);
        }
        let (kept, answer) = shared_copy(self.alloc, place, page)?;
        add(&mut self.entries, id, kept)?;
        Ok(Keep::Kept(answer))
    }
}
