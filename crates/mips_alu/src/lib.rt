//! What instructions compute: the registers afterwards, and what is asked of memory.
#![tactic(auto)]

mod arithmetic;
mod execution;
mod merging;
mod registers;

pub use arithmetic::{AluOut, alu, holds, mul_div, shift};
pub use base_words::{
    AluOp, Cond, HiLo, Instr, LoadKind, MulOp, Regs, Request, ShiftOp, StoreKind,
};
pub use execution::execute;
pub use merging::{
    load_unit, loaded_value, merge_left, merge_right, split_left, split_right, store_unit,
    stored_word,
};
pub use registers::{advance, read, write};
