//! The text of a program: it is assembled, and printed or run.
ghost use Rattle.std.specs.Prelude.{◌≡◌, ◌≤◌, IfOk, Ok};
ghost use Rattle.guest_asm.specs.Assembly.{assembly_seen};
ghost use Rattle.guest_asm.specs.Loading.{IsLoaded};
ghost use Rattle.admission.specs.Chain.{assembled as assembled_by};
ghost use Rattle.admission.specs.Jobs.{asm_from, asm_image as asm_image_of, asm_checked as asm_checked_by, asm_run_checked as asm_run_by, asm_job as asm_job_by, asm_run as asm_run_of};
ghost use Rattle.admission.specs.Ready.{IsReady};
ghost use Rattle.admission.specs.Stages.{Stage, Gives, seen};
ghost use Rattle.admission.specs.Views.{image_seen, job_seen};

use crate::library::{bytes_at, place_of};
use crate::single::{SINGLE_PAGES, single_job};
use crate::{Fault, Job, Refusal};
use elf_image::{Image, load};
use guest_asm::{AsmFault, Assembled, assemble, images_are_loaded};
use outside_io::{FileList, Shelf};
use std::alloc::Global;

/// The longest text, in bytes.
const LONGEST_TEXT: u64 = 1_048_576;

/// What a text is assembled to, or its first line that is refused.
fn assembled(alloc: Global, text: &[u8]) -> Result<Assembled, Refusal>
    ensures { Gives (seen assembly_seen result) (assembled_by text.now) }
{
    match assemble(alloc, text) {
        Ok(assembled) => Ok(assembled),
        Err(AsmFault::Line { line, cause }) => Err(Refusal::Fault(Fault::Asm { line, cause })),
        Err(AsmFault::Memory) => Err(Refusal::Memory),
    }
}

/// The image of what was assembled, in the guest's memory. It has no fault, so only memory may be wanting.
fn asm_image(alloc: Global, assembled: &Assembled) -> Result<Image, Refusal>
    requires { IsLoaded (assembly_seen assembled.now) 16 }
    ensures { Gives (seen image_seen result) (Ok (asm_image_of (assembly_seen assembled.now))) }
{
    match load(alloc, assembled.image.as_slice(), SINGLE_PAGES) {
        Ok(image) => Ok(image),
        Err(_) => Err(Refusal::Memory),
    }
}

/// The listing that a text asks for.
fn asm_checked(alloc: Global, text: &[u8]) -> Result<Job, Refusal>
    ensures ready { IfOk result IsReady }
    ensures gives { Gives (seen job_seen result) (asm_checked_by text.now) }
{
    match assembled(alloc, text) {
        Ok(assembled) => Ok(Job::Listing(assembled)),
        Err(refusal) => Err(refusal),
    }
}

/// The run that what was assembled asks for.
fn asm_guest(alloc: Global, assembled: &Assembled, steps: u64) -> Result<Job, Refusal>
    requires few { steps ≤ 16000000 }
    requires loaded { IsLoaded (assembly_seen assembled.now) 16 }
    ensures ready { IfOk result IsReady }
    ensures gives { Gives (seen job_seen result) (Ok (asm_from steps (assembly_seen assembled.now))) }
{
    match asm_image(alloc, assembled) {
        Ok(image) => Ok(single_job(alloc, image, false, steps)?),
        Err(refusal) => Err(refusal),
    }
}

/// The run that a text asks for.
fn asm_run_checked(alloc: Global, text: &[u8], steps: u64) -> Result<Job, Refusal>
    requires { steps ≤ 16000000 }
    ensures ready { IfOk result IsReady }
    ensures gives { Gives (seen job_seen result) (asm_run_by steps text.now) }
{
    images_are_loaded();
    match assembled(alloc, text) {
        Ok(assembled) => asm_guest(alloc, &assembled, steps),
        Err(refusal) => Err(refusal),
    }
}

/// What a text asks for whose listing is printed.
pub fn asm_job<S: Shelf>(
    alloc: Global,
    shelf: &mut S,
    files: &mut FileList,
    name: &str,
) -> Result<Job, Refusal>
    ensures ready { IfOk result IsReady }
    ensures stage { Stage (S.view shelf.old) (S.view shelf.new) files.old files.new (λ all. asm_job_by all name.now) (seen job_seen result) }
{
    match place_of(alloc, shelf, files, name, LONGEST_TEXT) {
        Ok(place) => asm_checked(alloc, bytes_at(files.as_slice(), place)),
        Err(refusal) => Err(refusal),
    }
}

/// What a text asks for whose image is run for so many steps.
pub fn asm_run<S: Shelf>(
    alloc: Global,
    shelf: &mut S,
    files: &mut FileList,
    name: &str,
    steps: u64,
) -> Result<Job, Refusal>
    requires { steps ≤ 16000000 }
    ensures ready { IfOk result IsReady }
    ensures stage { Stage (S.view shelf.old) (S.view shelf.new) files.old files.new (λ all. asm_run_of all name.now steps) (seen job_seen result) }
{
    match place_of(alloc, shelf, files, name, LONGEST_TEXT) {
        Ok(place) => asm_run_checked(alloc, bytes_at(files.as_slice(), place), steps),
        Err(refusal) => Err(refusal),
    }
}
