//! What the calls answer. A number in an answer is the word as the call saw it.

/// What `take` answers.
#[derive(Clone, Copy, Debug, PartialEq, Eq)]
pub enum Took {
    /// The frame is held, alone, under this new generation.
    Took(u32),
    /// Somebody held the frame, or its word changed since this call loaded it.
    Held(u64),
    /// The frame has had its last generation.
    Spent(u64),
}

/// What `share` answers.
#[derive(Clone, Copy, Debug, PartialEq, Eq)]
pub enum Share {
    /// The frame is held once more.
    Shared,
    /// Nobody holds the frame under this generation, or its word changed since this call loaded it.
    Gone(u64),
    /// The frame's count is at its limit.
    Many(u64),
}

/// What `borrow` answers.
#[derive(Clone, Copy, Debug, PartialEq, Eq)]
pub enum Borrow {
    /// The holder has one more loan of the cell.
    Lent,
    /// The cell has lent all that it lends.
    AtLimit(u64),
    /// The cell's word changed since this call loaded it.
    Lost(u64),
}
