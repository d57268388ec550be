//! Puts the printed texts on the sink.
ghost use Rattle.std.specs.Prelude.{◌++◌};
ghost use Rattle.outside_io.specs.Writing.{Puts, Writes};
ghost use Rattle.run_report.specs.Counted.{sums_of as sums_in};
ghost use Rattle.run_report.specs.Report.{in_order, numbered, guest_text, sums_line as sums_line_of, sums_text, record_text, failure_text, report_text, alone_report};

use crate::Alone;
use crate::report::{console_line, end_line, failure_line, sums_line};
use crate::sums::sums_of;
use base_words::{Bytes, End};
use event_journal::Journal;
use guest_core::{FailureRecord, GuestRecord, RunRecord};
use outside_io::{Sink, SinkFault, pieces_join};
use std::alloc::Global;

/// Puts a text and another.
pub fn put_two<K: Sink>(sink: &mut K, first: &[u8], second: &[u8]) -> Result<(), SinkFault>
    ensures { Puts (K.view sink.old) (K.view sink.new) (first.now ++ second.now) result }
{
    pieces_join();
    match sink.put(first) {
        Ok(()) => sink.put(second),
        Err(fault) => Err(fault),
    }
}

/// Puts a text and two more.
fn put_three<K: Sink>(
    sink: &mut K,
    first: &[u8],
    second: &[u8],
    third: &[u8],
) -> Result<(), SinkFault>
    ensures { Puts (K.view sink.old) (K.view sink.new) (first.now ++ (second.now ++ third.now)) result }
{
    pieces_join();
    match sink.put(first) {
        Ok(()) => put_two(sink, second, third),
        Err(fault) => Err(fault),
    }
}

/// Puts a guest's text: what it printed, and how it ended.
fn put_guest<K: Sink>(
    alloc: Global,
    sink: &mut K,
    number: usize,
    console: &Bytes,
    end: End,
) -> Result<(), SinkFault>
    ensures { Puts (K.view sink.old) (K.view sink.new) (guest_text number console.now end) result }
{
    let head = console_line(alloc, number, console.len())?;
    let end = end_line(alloc, end)?;
    put_three(sink, head.as_bytes(), console.as_slice(), end.as_bytes())
}

/// Puts the line of a guest's sums.
fn put_line<K: Sink>(alloc: Global, sink: &mut K, journal: &Journal) -> Result<(), SinkFault>
    ensures { Puts (K.view sink.old) (K.view sink.new) (sums_line_of (sums_in journal.now.entries)) result }
{
    let sums = sums_of(alloc, journal)?;
    let line = sums_line(alloc, &sums)?;
    sink.put(line.as_bytes())
}

/// Puts the line of a guest's sums, where there is to be one.
fn put_sums<K: Sink>(
    alloc: Global,
    sink: &mut K,
    sums: bool,
    journal: &Journal,
) -> Result<(), SinkFault>
    ensures { Puts (K.view sink.old) (K.view sink.new) (sums_text sums journal.now.entries) result }
{
    if sums {
        put_line(alloc, sink, journal)
    } else {
        Ok(())
    }
}

/// Puts the text of a guest under the monitor.
fn put_record<K: Sink>(
    alloc: Global,
    sink: &mut K,
    sums: bool,
    number: usize,
    guest: &GuestRecord,
) -> Result<(), SinkFault>
    ensures { Puts (K.view sink.old) (K.view sink.new) (record_text sums number guest.now) result }
{
    pieces_join();
    match put_guest(alloc, sink, number, &guest.console, guest.end) {
        Ok(()) => put_sums(alloc, sink, sums, &guest.journal),
        Err(fault) => Err(fault),
    }
}

/// Puts the texts of guests under the monitor, in order.
fn put_records<K: Sink>(
    alloc: Global,
    sink: &mut K,
    sums: bool,
    guests: &[GuestRecord],
) -> Result<(), SinkFault>
    ensures { Puts (K.view sink.old) (K.view sink.new) (numbered (record_text sums) 0 guests.now) result }
{
    pieces_join();
    for (number, guest) in guests.iter().enumerate() {
        match put_record(alloc, sink, sums, number, guest) {
            Ok(()) => {}
            Err(fault) => return Err(fault),
        }
    }
    Ok(())
}

/// Puts the texts of guests that ran alone, in order.
fn put_alone<K: Sink>(alloc: Global, sink: &mut K, guests: &[Alone]) -> Result<(), SinkFault>
    ensures { Puts (K.view sink.old) (K.view sink.new) (alone_report guests.now) result }
{
    pieces_join();
    for (number, guest) in guests.iter().enumerate() {
        match put_guest(alloc, sink, number, &guest.console, guest.end) {
            Ok(()) => {}
            Err(fault) => return Err(fault),
        }
    }
    Ok(())
}

/// Puts the line of a failure.
fn put_failure<K: Sink>(
    alloc: Global,
    sink: &mut K,
    failure: &FailureRecord,
) -> Result<(), SinkFault>
    ensures { Puts (K.view sink.old) (K.view sink.new) (failure_text failure.now) result }
{
    let line = failure_line(alloc, failure)?;
    sink.put(line.as_bytes())
}

/// Puts the lines of failures, in order.
fn put_failures<K: Sink>(
    alloc: Global,
    sink: &mut K,
    failures: &[FailureRecord],
) -> Result<(), SinkFault>
    ensures { Puts (K.view sink.old) (K.view sink.new) (in_order failure_text failures.now) result }
{
    pieces_join();
    for failure in failures {
        match put_failure(alloc, sink, failure) {
            Ok(()) => {}
            Err(fault) => return Err(fault),
        }
    }
    Ok(())
}

/// Puts the texts of a record: those of the guests, and then those of the failures.
fn put_kept<K: Sink>(
    alloc: Global,
    sink: &mut K,
    sums: bool,
    kept: &RunRecord,
) -> Result<(), SinkFault>
    ensures { Puts (K.view sink.old) (K.view sink.new) (report_text sums kept.now) result }
{
    pieces_join();
    match put_records(alloc, sink, sums, kept.guests.as_slice()) {
        Ok(()) => put_failures(alloc, sink, kept.failures.as_slice()),
        Err(fault) => Err(fault),
    }
}

/// Puts the report of a run under the monitor, with the guests' sums or without, and settles it.
pub fn render<K: Sink>(
    alloc: Global,
    kept: &RunRecord,
    sums: bool,
    sink: &mut K,
) -> Result<(), SinkFault>
    ensures { Writes (K.view sink.old) (K.view sink.new) (report_text sums kept.now) result }
{
    match put_kept(alloc, sink, sums, kept) {
        Ok(()) => sink.finish(),
        Err(fault) => Err(fault),
    }
}

/// Puts the report of guests that ran alone, and settles it.
pub fn render_alone<K: Sink>(alloc: Global, guests: &[Alone], sink: &mut K) -> Result<(), SinkFault>
    ensures { Writes (K.view sink.old) (K.view sink.new) (alone_report guests.now) result }
{
    match put_alone(alloc, sink, guests) {
        Ok(()) => sink.finish(),
        Err(fault) => Err(fault),
    }
}
