//! All stages in order.
ghost use Rattle.std.specs.Prelude.{◌≡◌, ◌≤◌, [], length, true, if◌then◌else◌, IfOk, Ok};
ghost use Rattle.admission.specs.declared.setup.Job.TheVariants.{Monitored, Alone};
ghost use Rattle.machine_desc.specs.Accepted.{IsDescribed};
ghost use Rattle.machine_desc.specs.Described.{described_seen};
ghost use Rattle.admission.specs.Chain.{Files};
ghost use Rattle.admission.specs.Jobs.{Litmus, checks, job_from, checked as checked_by, guests_of as guests_by, described_job as described_by, raw_checked as raw_checked_by, raw_job as raw_by, litmus_job as litmus_by, job_by as job_of_form, job_of};
ghost use Rattle.admission.specs.Ready.{IsReady, IsSetup, ReadsAs};
ghost use Rattle.admission.specs.Stages.{Stage, Gives, seen};
ghost use Rattle.admission.specs.Started.{AreStarted};
ghost use Rattle.admission.specs.Views.{AreAsMany, starts_seen, starts_of, job_seen};
ghost use Rattle.admission.specs.Words.{texts, form_seen, IsFew};

use crate::asm::{asm_job, asm_run};
use crate::checking::check;
use crate::description::described;
use crate::disks::disks_in;
use crate::guests::{Starts, starts_in};
use crate::images::{LONGEST_IMAGE, raw_image};
use crate::library::{bytes_at, place_of};
use crate::made::{load_job, made_job};
use crate::single::{SINGLE_PAGES, single_job};
use crate::words::{Form, read_form};
use crate::{Job, Refusal, Setup};
use base_words::{Bytes, GuestId};
use machine_desc::{Machine, Plan};
use outside_io::{FileList, HeldFile, Shelf};
use std::alloc::{AllocError, Global};

/// The longest description, in bytes.
const LONGEST_DESCRIPTION: u64 = 1_048_576;
/// The longest litmus file, in bytes.
const LONGEST_LITMUS: u64 = 1_048_576;

/// What a run is made of, from the files that are kept.
fn setup_of(
    alloc: Global,
    files: &[HeldFile],
    machine: Machine,
    plan: Plan,
    starts: Starts,
) -> Result<Setup, AllocError>
    ensures machine { IfOk result (λ setup. setup.machine ≡ machine) }
    ensures plan { IfOk result (λ setup. setup.plan ≡ plan) }
    ensures starts { IfOk result (λ setup. starts_of setup ≡ starts_seen files.now starts) }
    ensures images { IfOk result (λ setup. length setup.images ≡ length starts.images) }
    ensures numbers { IfOk result (λ setup. length setup.numbers ≡ length starts.disks) }
{
    let (disks, numbers) = disks_in(alloc, files, starts.disks.as_slice())?;
    Ok(Setup {
        machine,
        plan,
        images: starts.images,
        disks,
        numbers,
    })
}

/// The job of a setup.
fn job_in(alone: bool, setup: Setup) -> Job
    ensures { result ≡ (if alone then Alone setup else Monitored setup true) }
{
    if alone {
        Job::Alone(setup)
    } else {
        Job::Monitored { setup, sums: true }
    }
}

/// The job of a description whose guests start from this, where the cells and the guests get their frames.
fn checked(
    alloc: Global,
    files: &[HeldFile],
    alone: bool,
    machine: Machine,
    plan: Plan,
    starts: Starts,
) -> Result<Job, Refusal>
    requires described { IsDescribed machine plan }
    requires count { AreAsMany (length machine.guests) starts }
    requires started { AreStarted machine.guests (starts_seen files.now starts) }
    ensures ready { IfOk result IsReady }
    ensures gives { Gives (seen job_seen result) (checked_by alone (described_seen machine plan) (starts_seen files.now starts)) }
{
    check(alloc, &machine, &plan)?;
    let setup = setup_of(alloc, files, machine, plan, starts)?;
    Ok(job_in(alone, setup))
}

/// The guests' files, and then whether the cells and the guests get their frames.
pub fn guests_of<S: Shelf>(
    alloc: Global,
    shelf: &mut S,
    files: &mut FileList,
    alone: bool,
    machine: Machine,
    plan: Plan,
) -> Result<Job, Refusal>
    requires { IsDescribed machine plan }
    ensures ready { IfOk result IsReady }
    ensures stage { Stage (S.view shelf.old) (S.view shelf.new) files.old files.new (λ all. guests_by alone all (described_seen machine plan)) (seen job_seen result) }
{
    match starts_in(alloc, shelf, files, machine.guests.as_slice()) {
        Ok(starts) => checked(alloc, files.as_slice(), alone, machine, plan, starts),
        Err(refusal) => Err(refusal),
    }
}

/// What a description asks for, with the files that it names kept in `files`.
fn described_job<S: Shelf>(
    alloc: Global,
    shelf: &mut S,
    files: &mut FileList,
    alone: bool,
    name: &str,
) -> Result<Job, Refusal>
    ensures ready { IfOk result IsReady }
    ensures stage { Stage (S.view shelf.old) (S.view shelf.new) files.old files.new (λ all. described_by alone all name.now) (seen job_seen result) }
{
    let place = match place_of(alloc, shelf, files, name, LONGEST_DESCRIPTION) {
        Ok(place) => place,
        Err(refusal) => return Err(refusal),
    };
    match described(alloc, bytes_at(files.as_slice(), place)) {
        Ok((machine, plan)) => guests_of(alloc, shelf, files, alone, machine, plan),
        Err(refusal) => Err(refusal),
    }
}

/// What a raw file's bytes ask for.
fn raw_checked(alloc: Global, bytes: &[u8], steps: u64) -> Result<Job, Refusal>
    requires { steps ≤ 16000000 }
    ensures ready { IfOk result IsReady }
    ensures gives { Gives (seen job_seen result) (raw_checked_by steps bytes.now) }
{
    match raw_image(alloc, GuestId(0), SINGLE_PAGES, bytes) {
        Ok(image) => Ok(single_job(alloc, image, true, steps)?),
        Err(refusal) => Err(refusal),
    }
}

/// What a raw file asks for.
fn raw_job<S: Shelf>(
    alloc: Global,
    shelf: &mut S,
    files: &mut FileList,
    name: &str,
    steps: u64,
) -> Result<Job, Refusal>
    requires { steps ≤ 16000000 }
    ensures ready { IfOk result IsReady }
    ensures stage { Stage (S.view shelf.old) (S.view shelf.new) files.old files.new (λ all. raw_by all name.now steps) (seen job_seen result) }
{
    match place_of(alloc, shelf, files, name, LONGEST_IMAGE) {
        Ok(place) => raw_checked(alloc, bytes_at(files.as_slice(), place), steps),
        Err(refusal) => Err(refusal),
    }
}

/// The job of a litmus file of these bytes.
fn litmus_of(alloc: Global, bytes: &[u8]) -> Result<Job, Refusal>
    ensures ready { IfOk result IsReady }
    ensures gives { Gives (seen job_seen result) (Ok (Litmus bytes.now)) }
{
    Ok(Job::Litmus(Bytes::from_vec(bytes.to_vec(alloc)?)))
}

/// What a litmus file asks for.
fn litmus_job<S: Shelf>(
    alloc: Global,
    shelf: &mut S,
    files: &mut FileList,
    name: &str,
) -> Result<Job, Refusal>
    ensures ready { IfOk result IsReady }
    ensures stage { Stage (S.view shelf.old) (S.view shelf.new) files.old files.new (λ all. litmus_by all name.now) (seen job_seen result) }
{
    match place_of(alloc, shelf, files, name, LONGEST_LITMUS) {
        Ok(place) => litmus_of(alloc, bytes_at(files.as_slice(), place)),
        Err(refusal) => Err(refusal),
    }
}

/// What a form asks for, with the files that it names kept in `files`.
fn job_by<S: Shelf>(
    alloc: Global,
    shelf: &mut S,
    files: &mut FileList,
    form: Form,
) -> Result<Job, Refusal>
    requires { IsFew form }
    ensures ready { IfOk result IsReady }
    ensures stage { Stage (S.view shelf.old) (S.view shelf.new) files.old files.new (λ all. job_of_form all (form_seen form.entry)) (seen job_seen result) }
{
    match form {
        Form::Raw(name, steps) => raw_job(alloc, shelf, files, name, steps),
        Form::Machine(name) => described_job(alloc, shelf, files, false, name),
        Form::Private(name) => described_job(alloc, shelf, files, true, name),
        Form::Make(seed) => made_job(alloc, seed),
        Form::Load(seed) => load_job(alloc, shelf, seed),
        Form::Litmus(name) => litmus_job(alloc, shelf, files, name),
        Form::Asm(name) => asm_job(alloc, shelf, files, name),
        Form::AsmSteps(name, steps) => asm_run(alloc, shelf, files, name, steps),
    }
}

/// What the words and the files ask for. Each file is read once.
pub fn admit<S: Shelf>(alloc: Global, words: &[String], shelf: &mut S) -> Result<Job, Refusal>
    ensures ready { IfOk result IsReady }
    ensures reads { ReadsAs (S.view shelf.old) (S.view shelf.new) (λ files. job_of (texts words.now) files) (seen job_seen result) }
{
    let mut files = FileList::new(alloc);
    match read_form(alloc, words) {
        Ok(form) => job_by(alloc, shelf, &mut files, form),
        Err(refusal) => Err(refusal),
    }
}
