//! The instruction set: which instruction a word is.
#![tactic(auto)]

mod decoder;
mod encoder;
mod fields;
mod law;
mod opcode_map;
mod place_codes;

pub use base_words::{
    AluOp, Cond, Cp0Op, Field, Half, Instr, JumpIndex, LoadKind, MulOp, Register, ShiftAmount,
    ShiftOp, StoreKind, SystemCode, TrapCode, Untaken,
};
pub use decoder::decode;
pub use encoder::encode;
pub use law::round_trip;
