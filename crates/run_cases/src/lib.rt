//! What the tests of whole runs have in common: the files and the words of a call, guests of one image, the journals of a record, and guests that send
//! and receive.
#![tactic(auto)]

mod files;
mod journals;
mod packets;
mod turns;

pub use files::{PRINTS_A, Part, file_of_parts, held, words_of};
pub use journals::have_entries;
pub use packets::{PRINTS_A_WORD, SENDS_A_PAGE};
pub use turns::{Call, Delaying, call_of, counts, crowd};
