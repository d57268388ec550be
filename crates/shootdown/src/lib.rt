//! Tokens of processors and seats of guests, and the notes on which they agree; which processors are still waited for.
//! No call takes a lock or waits, and only `tokens` takes memory.
#![tactic(auto)]

mod board;
mod calls;
mod closing;
mod laws;
mod making;
mod notes;
mod seat;
mod threads;
mod token;
mod view;
mod waiting;

pub use calls::{agree, note, note_many};
pub use closing::close_notes;
pub use laws::notes_by_side;
pub use making::tokens;
pub use notes::Note;
pub use seat::{GuestSeat, SeatList};
pub use threads::cross_threads;
pub use token::{ProcToken, TokenList};
pub use view::SidedNote;
pub use waiting::Waiting;
