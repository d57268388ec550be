//! What one holder knows of the words: seen by contracts alone, so no value of these types is made.
use std::collections::LinkedList;

/// What one atomic step is for.
#[derive(Clone, Copy, Debug, PartialEq, Eq)]
pub enum StepKind {
    /// Reads one word; also an exchange that finds another word than it expected.
    Load,
    /// Brings a frame's count from 0 to 1, under the next generation.
    Take,
    /// Adds a hold of a frame that is held.
    Share,
    /// Ends a hold.
    GiveBack,
    /// Adds a loan of a cell.
    Borrow,
    /// Ends a loan.
    Repay,
    /// Hands holds and loans to a new holder.
    Split,
    /// Ends another holder, which has none.
    Join,
}

/// One step of a holder: what it was for, on which word, and the value that it found there.
#[derive(Clone, Copy, Drop)]
pub struct Look {
    pub kind: StepKind,
    pub word: u64,
    pub seen: u64,
}

/// One hold of a frame's word under a generation, or one loan: a hold of a cell's word under generation 0.
#[derive(Clone, Copy, Drop)]
pub struct Hold {
    pub word: u64,
    pub generation: u64,
}

/// A holder's view: its holds and loans, whether it is the only one, the generation of each word
/// (known while it is alone), and its own steps in order.
#[derive(Drop)]
pub struct View {
    pub holds: LinkedList<Hold>,
    pub alone: bool,
    pub known: LinkedList<u64>,
    pub looks: LinkedList<Look>,
}
