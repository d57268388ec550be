//! What a description of two guests says, and what they start from.
ghost use Rattle.std.specs.Prelude.{◌≡◌, ◌<◌, ℕ, [], IfOk, length, map, slice_index_or};
ghost use Rattle.std.specs.Arc.{arc_value};
ghost use Rattle.std.specs.Bool.{OnTrue};
ghost use Rattle.private_machine.specs.Disk.{as_given};
ghost use Rattle.cow_disk.specs.DiskView.{bytes_of};
ghost use Rattle.guest_course.specs.BootCalls.{given_blocks};
ghost use Rattle.node_frames.specs.Layout.{layout_of};
ghost use Rattle.machine_desc.specs.Accepted.{IsDescribed};
ghost use Rattle.guest_boot.specs.Starting.{IsSource, AreSources, AreServed};

use base_words::{Blocks, Page, Sequence};
use boot_frames::{admit, needs_of};
use cow_disk::Disk;
use elf_image::load_raw;
use guest_boot::{Source, SourceList};
use machine_desc::{GuestSpec, Machine, Plan, read};
use std::alloc::{AllocError, Global};
use std::sync::Arc;

/// Prints A and halts: LUI 1, CFFF; ORI 1, 1, F000; ADDIU 2, 0, 41; SW 2, 0(1); SW 2, 4(1).
pub const PRINTS_A: [u32; 5] = [
    0x3C01_CFFF,
    0x3421_F000,
    0x2402_0041,
    0xAC22_0000,
    0xAC22_0004,
];

/// The words of a raw image.
fn file_of(alloc: Global, program: &[u32]) -> Result<Vec<u8>, AllocError> {
    let mut file = Vec::new(alloc);
    for word in program {
        file.extend_from_slice(&word.to_be_bytes())?;
    }
    Ok(file)
}

/// A disk of one block, whose first word is the letter a.
fn block(alloc: Global) -> Result<Arc<Blocks>, AllocError>
    ensures one { IfOk result (λ base. length (arc_value base) ≡ 1) }
    ensures whole { IfOk result (λ base. (k : ℕ) → k < length (bytes_of (arc_value base)) → length (slice_index_or (bytes_of (arc_value base)) k []) ≡ 4096) }
{
    let mut page = Page::zeroed(alloc)?;
    page.set_byte(3, b'a');
    let mut blocks = Sequence::new(alloc);
    blocks.push(page)?;
    Ok(Arc::new(alloc, blocks)?)
}

/// The disk of a guest, where it has one.
fn disk_of(alloc: Global, spec: &GuestSpec) -> Result<Disk, AllocError>
    ensures unwritten { IfOk result (λ disk. disk ≡ map as_given (given_blocks disk)) }
    ensures blocks { IfOk result (λ disk. (k : ℕ) → k < length (given_blocks disk) → length (slice_index_or (given_blocks disk) k []) ≡ 4096) }
{
    if spec.disk.is_none() {
        return Ok(Disk::new(alloc, None));
    }
    let disk = Disk::new(alloc, Some(block(alloc)?));
    Ok(disk)
}

/// What a guest starts from. All guests with a disk have the same one.
fn source(alloc: Global, program: &[u32], spec: &GuestSpec) -> Result<Source, AllocError>
    ensures { IfOk result (IsSource spec.now) }
{
    let file = file_of(alloc, program)?;
    match load_raw(alloc, &file, spec.pages) {
        Ok(image) => Ok(Source {
            image,
            disk: disk_of(alloc, spec)?,
            number: if spec.disk.is_some() { Some(0) } else { None },
        }),
        Err(_) => Err(AllocError),
    }
}

fn sources(
    alloc: Global,
    guests: &[GuestSpec],
    first: &[u32],
    second: &[u32],
) -> Result<SourceList, AllocError>
    ensures { IfOk result (AreSources guests.now) }
{
    let [one, other] = guests else {
        return Err(AllocError);
    };
    let both = vec![in alloc; source(alloc, first, one)?, source(alloc, second, other)?]?;
    Ok(SourceList::from_vec(both))
}

fn is_served(alloc: Global, machine: &Machine, plan: &Plan) -> Result<bool, AllocError>
    requires { IsDescribed machine.now plan.now }
    ensures { IfOk result (λ served. OnTrue served (AreServed (layout_of machine.now.shape) machine.now.lends machine.now.cache machine.now.guests)) }
{
    let _ = plan;
    let needs = needs_of(alloc, machine.guests.as_slice())?;
    let served = admit(
        alloc,
        &machine.shape,
        machine.lends.as_slice(),
        machine.cache,
        needs.as_slice(),
    );
    Ok(served.is_ok())
}

fn description(alloc: Global, text: &str) -> Result<(Machine, Plan), AllocError>
    ensures { IfOk result (λ both. IsDescribed both.0 both.1) }
{
    match read(alloc, text.as_bytes()) {
        Ok(both) => Ok(both),
        Err(_) => Err(AllocError),
    }
}

/// What a description of two guests says, and their sources, with these programs. An error is want of memory, or a description that
/// can't be run.
pub fn described(
    alloc: Global,
    text: &str,
    first: &[u32],
    second: &[u32],
) -> Result<(Machine, Plan, SourceList), AllocError>
    ensures described { IfOk result (λ all. IsDescribed all.0 all.1) }
    ensures served { IfOk result (λ all. AreServed (layout_of all.0.shape) all.0.lends all.0.cache all.0.guests) }
    ensures sources { IfOk result (λ all. AreSources all.0.guests all.2) }
{
    let (machine, plan) = description(alloc, text)?;
    if !is_served(alloc, &machine, &plan)? {
        return Err(AllocError);
    }
    let sources = sources(alloc, machine.guests.as_slice(), first, second)?;
    Ok((machine, plan, sources))
}
