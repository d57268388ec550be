//! What came of an item.
use base_words::Sequence;
use guest_core::{FailureRecord, SliceRecord};

/// What came of an item of the plan: of a run its slice, of a failure whom it ended.
#[derive(Drop)]
pub enum Outcome {
    Slice(SliceRecord),
    Asked,
    Failure(FailureRecord),
}

/// Outcomes, in the order of their items.
pub type OutcomeList = Sequence<Outcome>;
