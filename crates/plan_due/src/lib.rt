//! When the record of a run is due for its plan: of each item what came of it, and of each guest what its journal has of the items.
#![tactic(auto)]

mod laws;
mod outcome;

pub use laws::{items_unload, plans_are_due};
pub use outcome::{Outcome, OutcomeList};
