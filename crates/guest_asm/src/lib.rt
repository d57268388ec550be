//! An assembler of guest programs: a text of instructions becomes words at their addresses, and the image of a guest.
#![tactic(auto)]

mod address;
mod assembled;
mod assembler;
mod characters;
mod fault;
mod fields;
mod image;
mod labels;
mod law;
mod lines;
mod listing;
mod mnemonics;
mod number;
mod operand;
mod statement;
mod value;
mod word;

pub use assembled::{Assembled, Placed};
pub use assembler::assemble;
pub use fault::{AsmCause, AsmFault};
pub use law::{images_are_loaded, words_are_instructions};
pub use listing::listing_of;
