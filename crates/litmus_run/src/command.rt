//! The command: a litmus file is read, carried out and told.
ghost use Rattle.std.specs.Prelude.{◌≡◌};
ghost use Rattle.outside_io.specs.Writing.{Writes};
ghost use Rattle.litmus_file.specs.File.{litmus_of};
ghost use Rattle.litmus_run.specs.Command.{Answers, Tells};
ghost use Rattle.litmus_run.specs.Ends.{status_put};
ghost use Rattle.litmus_run.specs.FaultLine.{fault_line as fault_line_of};

use crate::fault_line::fault_line;
use crate::printing::put_run;
use litmus_file::{LitmusFault, read_litmus};
use outside_io::{Gate, Sink, SinkFault};
use std::alloc::Global;
use std::sync::Wait;
use std::thread::Threads;

/// The run is complete, and its text is put and settled.
const DONE: u8 = 0;
/// Memory was wanting.
const MEMORY: u8 = 1;
/// The output failed within the text.
const WRITE: u8 = 4;
/// The file is refused.
const REFUSED: u8 = 10;

// Puts a text, and settles it.
fn put_whole<K: Sink>(sink: &mut K, text: &[u8]) -> Result<(), SinkFault>
    ensures { Writes (K.view sink.old) (K.view sink.new) text.now result }
{
    match sink.put(text) {
        Ok(()) => sink.finish(),
        Err(fault) => Err(fault),
    }
}

// Puts the line of a refused file, and settles it.
fn put_fault<K: Sink>(alloc: Global, sink: &mut K, fault: &LitmusFault) -> Result<(), SinkFault>
    ensures { Writes (K.view sink.old) (K.view sink.new) (fault_line_of fault.now) result }
{
    let line = fault_line(alloc, fault)?;
    put_whole(sink, line.as_bytes())
}

// Tells why a file is refused.
fn tell<K: Sink>(alloc: Global, sink: &mut K, fault: &LitmusFault) -> u8
    ensures { Tells fault.now (K.view sink.old) (K.view sink.new) result }
{
    match put_fault(alloc, sink, fault) {
        Ok(()) | Err(SinkFault::Failed) => REFUSED,
        Err(SinkFault::Memory) => MEMORY,
    }
}

// The exit status of a run, by what became of its text.
fn status_of(put: Result<(), SinkFault>) -> u8
    ensures { result ≡ status_put put }
{
    match put {
        Ok(()) => DONE,
        Err(SinkFault::Failed) => WRITE,
        Err(SinkFault::Memory) => MEMORY,
    }
}

/// Reads a litmus file, carries out what each of its callers is to do, one worker a caller, and puts the histories of the pages;
/// or the line of the file's first fault. The answer is the exit status.
pub fn litmus<R: Threads + Wait + Sync, K: Sink, G: Gate>(
    rt: &R,
    alloc: Global,
    bytes: &[u8],
    sink: &mut K,
    gate: &G,
) -> u8
    ensures { Answers (litmus_of bytes.now) (K.view sink.old) (K.view sink.new) result }
{
    match read_litmus(alloc, bytes) {
        Ok(file) => {
            let put = put_run(rt, alloc, file, sink, gate);
            status_of(put)
        }
        Err(LitmusFault::Memory) => MEMORY,
        Err(fault) => tell(alloc, sink, &fault),
    }
}
