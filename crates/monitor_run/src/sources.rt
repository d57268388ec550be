//! What the guests are started from: their images, and their disks over blocks that they share.
ghost use Rattle.std.specs.Prelude.{◌≡◌, ◌≤◌, ◌<◌, ◌^◌, All, IfOk, None, length, map, slice_index_or};
ghost use Rattle.std.specs.Arc.{arc_value};
ghost use Rattle.private_machine.specs.Disk.{as_given};
ghost use Rattle.cow_disk.specs.DiskView.{bytes_of, base_pages};
ghost use Rattle.admission.specs.Views.{disk_numbered, disks_seen};
ghost use Rattle.monitor_run.specs.Sources.{shared_blocks, sources_of};

use admission::{DiskList, ImageList};
use base_words::{Blocks, Sequence};
use cow_disk::Disk;
use guest_boot::{Source, SourceList};
use std::alloc::{AllocError, Global};
use std::sync::Arc;

/// The blocks of each disk, where guests may share them.
type BaseList = Sequence<Arc<Blocks>>;

/// Puts each disk's blocks where guests may share them.
fn bases_of(alloc: Global, disks: DiskList) -> Result<BaseList, AllocError>
    ensures { IfOk result (λ bases. map arc_value bases ≡ disks) }
{
    let mut bases = BaseList::new(alloc);
    for blocks in disks.into_vec() {
        bases.push(Arc::new(alloc, blocks)?)?;
    }
    Ok(bases)
}

/// The blocks of a number, shared once more; none where a guest has no disk.
#[tactic(auto, using(crate::proofs::SourceLemmas::blocks_at, crate::proofs::SourceLemmas::blocks_past))]
fn base_of(bases: &[Arc<Blocks>], number: Option<usize>) -> Result<Option<Arc<Blocks>>, AllocError>
    ensures { IfOk result (λ base. bytes_of (base_pages base) ≡ disk_numbered (shared_blocks bases.now) number) }
{
    let Some(number) = number else {
        return Ok(None);
    };
    if number >= bases.len() {
        return Ok(None);
    }
    Ok(Some(Arc::try_clone(&bases[number])?))
}

/// A guest's disk of the blocks of a number, of which it has written none.
fn disk_of(alloc: Global, bases: &[Arc<Blocks>], number: Option<usize>) -> Result<Disk, AllocError>
    requires { length (disk_numbered (shared_blocks bases.now) number) < 2 ^ 32 }
    ensures { IfOk result (λ disk. disk ≡ map as_given (disk_numbered (shared_blocks bases.now) number)) }
{
    Ok(Disk::new(alloc, base_of(bases, number)?))
}

/// The number of a guest's disk.
fn number_at(numbers: &[Option<usize>], guest: usize) -> Option<usize>
    requires { guest < length numbers.now }
    ensures { result ≡ slice_index_or numbers.now guest None }
{
    numbers[guest]
}

/// Each image with its disk.
fn with_disks(
    alloc: Global,
    images: ImageList,
    bases: &[Arc<Blocks>],
    numbers: &[Option<usize>],
) -> Result<SourceList, AllocError>
    requires many { length images ≡ length numbers.now }
    requires few { All (λ number. length (disk_numbered (shared_blocks bases.now) number) ≤ 1024) numbers.now }
    ensures { IfOk result (λ sources. sources ≡ sources_of (shared_blocks bases.now) images numbers.now) }
{
    let mut sources = SourceList::new(alloc);
    for image in images.into_vec() {
        let number = number_at(numbers, sources.len());
        let disk = disk_of(alloc, bases, number)?;
        sources.push(Source {
            image,
            disk,
            number,
        })?;
    }
    Ok(sources)
}

/// What the guests are started from: each image, and the disk of the guest's number.
pub fn sources(
    alloc: Global,
    images: ImageList,
    disks: DiskList,
    numbers: &[Option<usize>],
) -> Result<SourceList, AllocError>
    requires many { length images ≡ length numbers.now }
    requires few { All (λ number. length (disk_numbered (disks_seen disks) number) ≤ 1024) numbers.now }
    ensures { IfOk result (λ sources. sources ≡ sources_of (disks_seen disks) images numbers.now) }
{
    let bases = bases_of(alloc, disks)?;
    with_disks(alloc, images, bases.as_slice(), numbers)
}
