//! The system's standard output.
ghost use Rattle.std.specs.Prelude.{◌≡◌, false, true, Ok};
ghost use Rattle.outside_io.specs.Writing.{Puts, Finishes};
ghost use Rattle.outside_io.specs.Streams.{TakesAll};
ghost use Rattle.outside_io.specs.System.{output_view, OutputLeaves};

use crate::{Sink, SinkFault};
use std::io::{self, Write};
use std::marker::Model;

/// The standard output. It tells nothing of what it holds.
#[derive(Drop)]
pub struct OutSink<'a, P: Print> {
    to: &'a P,
    faults: u64,
    settled: bool,
}

impl<'a, P: Print> Model for OutSink<'a, P> {
    ghost use Rattle.outside_io.specs.System.{OutputState};

    ghost Value = { OutputState };

    ghost view = { λ s. record { faults = s.faults; settled = s.settled } };
}

impl<'a, P: Print> OutSink<'a, P> {
    /// The standard output of a runtime, with nothing put yet.
    pub fn new(to: &'a P) -> Self
        ensures { result ≡ record { faults = 0; settled = false } }
    {
        OutSink {
            to,
            faults: 0,
            settled: false,
        }
    }
}

/// Writes all bytes in order, in as many pieces as it takes; whether they were taken. Where not, a part of them may have been.
fn write_all<W: Write>(to: &mut W, bytes: &[u8]) -> bool
    ensures { TakesAll (W.contents to.old) (W.contents to.new) bytes.now result }
{
    let mut rest = bytes;
    for _ in 0..bytes.len() {
        if rest.is_empty() {
            return true;
        }
        match to.write(rest) {
            Ok(count) if count > 0 => rest = &rest[count..],
            _ => return false,
        }
    }
    rest.is_empty()
}

impl<'a, P: Print> Sink for OutSink<'a, P> {
    ghost view = { output_view };

    fn faults(&self) -> u64 {
        self.faults
    }

    fn put(&mut self, bytes: &[u8]) -> Result<(), SinkFault>
        ensures puts { Puts (output_view self.old) (output_view self.new) bytes.now result }
        ensures unsettled { (output_view self.new).settled ≡ false }
        ensures leaves { OutputLeaves self.old self.new result }
    {
        self.settled = false;
        if write_all(&mut io::writer(self.to), bytes) {
            return Ok(());
        }
        self.faults = self.faults.saturating_add(1);
        Err(SinkFault::Failed)
    }

    fn finish(&mut self) -> Result<(), SinkFault>
        ensures finishes { Finishes (output_view self.old) (output_view self.new) result }
        ensures holds { (output_view self.new).holds ≡ (output_view self.old).holds }
        ensures done { result ≡ Ok record {} }
        ensures leaves { self.new ≡ record self.old { settled = true } }
    {
        self.settled = true;
        Ok(())
    }
}
