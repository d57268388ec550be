//! What is made from a number: printed, or run with its files at hand.
ghost use Rattle.std.specs.Prelude.{◌≡◌, List, IfOk, Ok};
ghost use Rattle.outside_io.specs.declared.memory.HeldFile.{HeldFile};
ghost use Rattle.guest_gen.specs.Made.{made_of};
ghost use Rattle.admission.specs.Jobs.{load_job as load_by, Print};
ghost use Rattle.admission.specs.Ready.{IsReady};
ghost use Rattle.admission.specs.Stages.{Stage, Gives, seen};
ghost use Rattle.admission.specs.Views.{job_seen};

use crate::description::described;
use crate::job::guests_of;
use crate::{Job, Refusal};
use guest_gen::{Made, make};
use outside_io::Shelf;
use std::alloc::Global;

/// How many guests are made.
const MADE_GUESTS: u8 = 4;
/// How many steps each of their runs has.
const MADE_STEPS: u32 = 50_000;

/// What is made from a number is to be printed.
pub fn made_job(alloc: Global, seed: u32) -> Result<Job, Refusal>
    ensures ready { IfOk result IsReady }
    ensures gives { Gives (seen job_seen result) (Ok (Print (made_of seed 4 50000))) }
{
    match make(alloc, seed, MADE_GUESTS, MADE_STEPS) {
        Ok(made) => Ok(Job::Print(made)),
        Err(_) => Err(Refusal::Memory),
    }
}

/// What is made from a number is to be run, with its files at hand, so that nothing is read.
pub fn load_job<S: Shelf>(alloc: Global, shelf: &mut S, seed: u32) -> Result<Job, Refusal>
    ensures ready { IfOk result IsReady }
    ensures stage { (files : List HeldFile) → Stage (S.view shelf.old) (S.view shelf.new) files files (λ all. load_by seed) (seen job_seen result) }
{
    let Ok(
        Made {
            description,
            mut files,
        },
    ) = make(alloc, seed, MADE_GUESTS, MADE_STEPS)
    else {
        return Err(Refusal::Memory);
    };
    match described(alloc, description.as_slice()) {
        Ok((machine, plan)) => guests_of(alloc, shelf, &mut files, false, machine, plan),
        Err(refusal) => Err(refusal),
    }
}
