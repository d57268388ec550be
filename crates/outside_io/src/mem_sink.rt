//! An output in memory, which fails at the calls that a list names.
ghost use Rattle.std.specs.Prelude.{◌≡◌, [], false};
ghost use Rattle.outside_io.specs.Writing.{Puts, Finishes};
ghost use Rattle.outside_io.specs.Collected.{sink_view, Begins, CollectFails, FinishLeaves, NeverFails, PutLeaves};

use crate::memory::is_failing;
use crate::{CallList, Sink, SinkFault};
use std::alloc::Global;
use std::marker::Model;

/// An output in memory.
#[derive(Debug, Drop)]
pub struct MemSink {
    bytes: Vec<u8>,
    fails: CallList,
    calls: u64,
    faults: u64,
    settled: bool,
}

impl Model for MemSink {
    ghost use Rattle.outside_io.specs.Collected.{SinkState};

    ghost Value = { SinkState };

    ghost view = { λ s. record { bytes = s.bytes.items; fails = s.fails; calls = s.calls; faults = s.faults; settled = s.settled } };
}

impl MemSink {
    /// An empty output, whose calls of these numbers fail: `put` and `finish` are counted together. Takes no memory yet.
    pub fn new(alloc: Global, fails: CallList) -> Self
        ensures { result ≡ record { bytes = []; fails = fails; calls = 0; faults = 0; settled = false } }
    {
        MemSink {
            bytes: Vec::new(alloc),
            fails,
            calls: 0,
            faults: 0,
            settled: false,
        }
    }

    /// Counts a call, and a fault where the list names it.
    fn begin_call(&mut self) -> Result<(), SinkFault>
        ensures { Begins self.old self.new result }
    {
        self.calls = self.calls.saturating_add(1);
        if is_failing(self.fails.as_slice(), self.calls) {
            self.faults = self.faults.saturating_add(1);
            return Err(SinkFault::Failed);
        }
        Ok(())
    }

    /// Counts a call, and appends bytes.
    fn append(&mut self, bytes: &[u8]) -> Result<(), SinkFault>
        ensures fails { CollectFails self.old result }
        ensures leaves { PutLeaves self.old self.new bytes.now result }
    {
        self.settled = false;
        self.begin_call()?;
        match self.bytes.extend_from_slice(bytes) {
            Ok(()) => Ok(()),
            Err(_) => Err(SinkFault::Memory),
        }
    }

    /// What it holds.
    pub fn bytes(&self) -> &[u8]
        ensures { result.now ≡ self.now.bytes }
    {
        self.bytes.as_slice()
    }
}

impl Sink for MemSink {
    ghost view = { sink_view };

    fn faults(&self) -> u64 {
        self.faults
    }

    #[tactic(auto, using(crate::proofs::CollectedLemmas::put_left))]
    fn put(&mut self, bytes: &[u8]) -> Result<(), SinkFault>
        ensures puts { Puts (sink_view self.old) (sink_view self.new) bytes.now result }
        ensures unsettled { (sink_view self.new).settled ≡ false }
        ensures fails { CollectFails self.old result }
        ensures leaves { PutLeaves self.old self.new bytes.now result }
        ensures never { NeverFails self.old result }
    {
        self.append(bytes)
    }

    fn finish(&mut self) -> Result<(), SinkFault>
        ensures finishes { Finishes (sink_view self.old) (sink_view self.new) result }
        ensures holds { (sink_view self.new).holds ≡ (sink_view self.old).holds }
        ensures fails { CollectFails self.old result }
        ensures leaves { FinishLeaves self.old self.new result }
        ensures never { NeverFails self.old result }
    {
        let begun = self.begin_call();
        self.settled = self.settled || begun.is_ok();
        begun
    }
}
