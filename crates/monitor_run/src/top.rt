//! The top call.
ghost use Rattle.std.specs.Prelude.{◌≡◌, None, Ok};
ghost use Rattle.machine_desc.specs.Described.{described_seen};
ghost use Rattle.guest_asm.specs.Assembly.{assembly_seen};
ghost use Rattle.guest_asm.specs.Listing.{listing_of as listing_text};
ghost use Rattle.outside_io.specs.Writing.{Writes};
ghost use Rattle.admission.specs.Jobs.{Monitored, Alone, Print, Litmus, Listing};
ghost use Rattle.admission.specs.Ready.{IsReady, IsSetup};
ghost use Rattle.admission.specs.Views.{job_seen, starts_of};
ghost use Rattle.admission.specs.Words.{texts};
ghost use Rattle.monitor_run.specs.Ends.{Ends, Tells, nothing, status_put};
ghost use Rattle.monitor_run.specs.FaultLines.{status_of as status_of_fault};
ghost use Rattle.monitor_run.specs.Headline.{Answers};

use crate::fault_lines::{put_whole, render_fault};
use crate::monitored::run_monitored;
use crate::private_run::run_alone;
use admission::{Fault, Job, Refusal, Setup, admit};
use base_words::Bytes;
use guest_asm::{Assembled, listing_of};
use guest_core::RunRecord;
use guest_gen::Made;
use litmus_run::litmus;
use outside_io::{Gate, Shelf, Sink, SinkFault, nothing_put_is_starved};
use run_report::{render, render_alone, render_made};
use std::alloc::Global;
use std::sync::Wait;
use std::thread::Threads;

/// The run is complete, and its report is put and settled.
const DONE: u8 = 0;
/// Memory was wanting.
const MEMORY: u8 = 1;
/// The output failed within the report.
const WRITE: u8 = 4;

/// The exit status of a refusal.
fn status_of(fault: &Fault) -> u8
    ensures { result ≡ status_of_fault fault.now }
{
    match fault {
        Fault::Words => 2,
        Fault::Read(_) => 3,
        Fault::Description(_) => 5,
        Fault::BadImage(_, _) => 6,
        Fault::CacheAdmission { .. } | Fault::Admission { .. } => 7,
        Fault::Long(_) => 8,
        Fault::Asm { .. } => 9,
    }
}

/// The exit status of a job that is done, by what became of its report.
fn status_of_report(put: Result<(), SinkFault>) -> u8
    ensures { result ≡ status_put put }
{
    match put {
        Ok(()) => DONE,
        Err(SinkFault::Failed) => WRITE,
        Err(SinkFault::Memory) => MEMORY,
    }
}

/// Tells a refusal on the sink.
fn tell<K: Sink>(alloc: Global, fault: &Fault, sink: &mut K) -> u8
    ensures { Tells fault.now (K.view sink.old) (K.view sink.new) result }
{
    match render_fault(alloc, sink, fault) {
        Ok(()) | Err(SinkFault::Failed) => status_of(fault),
        Err(SinkFault::Memory) => MEMORY,
    }
}

/// Runs guests under the monitor, and keeps and reports their record.
fn carry_out<R: Threads + Wait + Sync, K: Sink, G: Gate>(
    rt: &R,
    alloc: Global,
    setup: Setup,
    sums: bool,
    sink: &mut K,
    gate: &G,
    out: &mut RunRecord,
) -> u8
    requires setup { IsSetup setup }
    requires empty { out.old ≡ nothing }
    ensures { Ends (Ok (Monitored (described_seen setup.machine setup.plan) (starts_of setup) sums)) (K.view sink.old) (K.view sink.new) out.new result }
{
    match run_monitored(rt, alloc, setup, gate) {
        Ok(record) => *out = record,
        Err(_) => return MEMORY,
    }
    status_of_report(render(alloc, out, sums, sink))
}

/// Runs guests alone, and reports what they leave. No record is kept.
fn carry_out_alone<K: Sink>(alloc: Global, setup: &Setup, sink: &mut K) -> u8
    requires { IsSetup setup.now }
    ensures { Ends (Ok (Alone (described_seen setup.now.machine setup.now.plan) (starts_of setup.now))) (K.view sink.old) (K.view sink.new) nothing result }
{
    let Ok(left) = run_alone(alloc, setup) else {
        return MEMORY;
    };
    status_of_report(render_alone(alloc, left.as_slice(), sink))
}

/// Carries out a litmus file of these bytes, or tells its first fault. No record is kept.
fn carry_out_litmus<R: Threads + Wait + Sync, K: Sink, G: Gate>(
    rt: &R,
    alloc: Global,
    bytes: &Bytes,
    sink: &mut K,
    gate: &G,
) -> u8
    ensures { Ends (Ok (Litmus bytes.now)) (K.view sink.old) (K.view sink.new) nothing result }
{
    litmus(rt, alloc, bytes.as_slice(), sink, gate)
}

/// Puts the listing of what was assembled, and settles it.
fn render_listing<K: Sink>(
    alloc: Global,
    assembled: &Assembled,
    sink: &mut K,
) -> Result<(), SinkFault>
    ensures { Writes (K.view sink.old) (K.view sink.new) (listing_text (assembly_seen assembled.now)) result }
{
    let text = listing_of(alloc, assembled)?;
    put_whole(sink, text.as_slice())
}

/// Prints the listing of what was assembled. No record is kept.
fn carry_out_listing<K: Sink>(alloc: Global, assembled: &Assembled, sink: &mut K) -> u8
    ensures { Ends (Ok (Listing (assembly_seen assembled.now))) (K.view sink.old) (K.view sink.new) nothing result }
{
    status_of_report(render_listing(alloc, assembled, sink))
}

/// Prints what is made. No record is kept.
fn carry_out_print<K: Sink>(alloc: Global, made: &Made, sink: &mut K) -> u8
    ensures { Ends (Ok (Print made.now)) (K.view sink.old) (K.view sink.new) nothing result }
{
    status_of_report(render_made(alloc, made, sink))
}

/// Carries a job out.
fn carry_out_job<R: Threads + Wait + Sync, K: Sink, G: Gate>(
    rt: &R,
    alloc: Global,
    job: Job,
    sink: &mut K,
    gate: &G,
    out: &mut RunRecord,
) -> u8
    requires ready { IsReady job }
    requires empty { out.old ≡ nothing }
    ensures { Ends (Ok (job_seen job)) (K.view sink.old) (K.view sink.new) out.new result }
{
    match job {
        Job::Monitored { setup, sums } => carry_out(rt, alloc, setup, sums, sink, gate, out),
        Job::Alone(setup) => carry_out_alone(alloc, &setup, sink),
        Job::Print(made) => carry_out_print(alloc, &made, sink),
        Job::Litmus(bytes) => carry_out_litmus(rt, alloc, &bytes, sink, gate),
        Job::Listing(assembled) => carry_out_listing(alloc, &assembled, sink),
    }
}

/// Does what the words ask for, with the shelf's files, and answers the exit status. `out` keeps the record of a run.
pub fn disco<R: Threads + Wait + Sync, S: Shelf, K: Sink, G: Gate>(
    rt: &R,
    alloc: Global,
    words: &[String],
    shelf: &mut S,
    sink: &mut K,
    gate: &G,
    out: &mut RunRecord,
) -> u8
    requires { out.old ≡ nothing }
    ensures { Answers (texts words.now) (S.view shelf.old) (S.view shelf.new) (K.view sink.old) (K.view sink.new) out.new result }
{
    nothing_put_is_starved();
    match admit(alloc, words, shelf) {
        Ok(job) => carry_out_job(rt, alloc, job, sink, gate, out),
        Err(Refusal::Fault(fault)) => tell(alloc, &fault, sink),
        Err(Refusal::Memory) => MEMORY,
    }
}
