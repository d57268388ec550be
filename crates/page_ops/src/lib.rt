//! Instructions of one page, one after the other, each by a flat form that is kept beside its word.
#![tactic(auto)]

mod computing;
mod flattening;
mod laws;
mod leading;
mod meeting;
mod memo;
mod op;
mod registers;
mod running;
mod stretch;

pub use laws::memory_words_are_unprivileged;
pub use memo::{Memo, Met};
pub use op::Op;
pub use running::straight;
pub use stretch::{Stop, Stretch};
