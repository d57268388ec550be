//! The lists of notes, as a place of the board has them: seen by contracts alone, so no value of these types is made.
use crate::Note;
use std::collections::LinkedList;

/// A note and its other side: the guest's number in a token's list, the processor's in a seat's.
#[derive(Clone, Copy, Drop)]
pub struct SidedNote {
    pub side: u8,
    pub note: Note,
}

/// The notes of one token or of one seat, which is the owner, in order.
#[derive(Drop)]
pub struct NoteList {
    pub owner: u8,
    pub notes: LinkedList<SidedNote>,
}

/// What one place of the board has: the lists of some tokens and of some seats.
#[derive(Drop)]
pub struct View {
    pub tokens: LinkedList<NoteList>,
    pub seats: LinkedList<NoteList>,
}
