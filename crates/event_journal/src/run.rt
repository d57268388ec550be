//! An entry and how often it comes in a row, and the runs of a journal in order.
ghost use Rattle.std.specs.Prelude.{◌≡◌, ◌↔◌, ◌<◌, ◌++◌, IsTrue, Some, option_to_list, vec_len, vec_capacity};
ghost use Rattle.event_journal.specs.Parts.{ended_by};
ghost use Rattle.std.specs.Iterator.{YieldsFirst, item_count};

use base_words::Event;
use std::marker::Model;

/// An entry, and how often it comes in a row.
#[derive(Clone, Copy, Debug, PartialEq, Eq)]
pub struct Run {
    pub event: Event,
    pub count: u64,
}

/// The runs of a journal, in order.
#[derive(Debug, Drop)]
pub struct Runs<'a> {
    ended: &'a [Run],
    last: Option<Run>,
}

impl<'a> Model for Runs<'a> {
    ghost use Rattle.std.specs.Prelude.{List, ◌++◌, option_to_list};
    ghost use Rattle.event_journal.specs.declared.run.Run.{Run};

    ghost Value = { List Run };

    ghost view = { λ r. r.ended.now ++ option_to_list r.last };
}

impl<'a> Runs<'a> {
    /// Runs that have ended, and the one behind them that goes on.
    pub(crate) fn new(ended: &'a [Run], last: Option<Run>) -> Self
        ensures { result ≡ ended.now ++ option_to_list last }
    {
        Runs { ended, last }
    }
}

impl<'a> Iterator for Runs<'a> {
    type Item = Run;

    ghost next_gives = { YieldsFirst (λ runs. runs) };

    ghost remaining = { item_count (λ runs. runs) };

    fn next(&mut self) -> Option<Run> {
        match self.ended.split_first() {
            Some((first, others)) => {
                self.ended = others;
                Some(*first)
            }
            None => self.last.take(),
        }
    }
}

/// Whether an entry is one more of the last run.
#[inline]
pub(crate) fn is_one_more(last: Option<Event>, event: Event) -> bool
    ensures { IsTrue result ↔ (last ≡ Some event) }
{
    last == Some(event)
}

/// Puts the last run behind those that have ended, if there is one.
pub(crate) fn end_run(ended: &mut Vec<Run>, last: Option<Event>, count: u64)
    requires { vec_len ended.old < vec_capacity ended.old }
    ensures items { ended.new.items ≡ ended.old.items ++ ended_by last count }
    ensures capacity { vec_capacity ended.new ≡ vec_capacity ended.old }
{
    if let Some(event) = last {
        ended.push_reserved(Run { event, count });
    }
}
