//! The small words that all crates of the monitor share: identifiers, sets, lists, pages and frames, and the registers,
//! instructions, exceptions and events of a guest. `specs/` has what an instruction does, where addresses lead, coprocessor 0
//! and the TLBs.
#![tactic(auto)]

mod coprocessor;
mod device;
mod effect;
mod events;
mod exception;
mod frame;
mod ids;
mod input;
mod instr;
mod moves;
mod name;
mod page;
mod place;
mod regs;
mod sequence;
mod sets;
mod tlb;
mod trap;
mod words;

pub use coprocessor::{
    Cause, Context, Cp0Register, Cp0Registers, EntryHi, EntryLo, EntryNumber, Index, Mode,
    PagePair, Pending, Status,
};
pub use device::{DeviceRegister, Transfer};
pub use effect::{HiLo, Request};
pub use events::{End, Event, OwnEvent};
pub use exception::{Exception, Use};
pub use frame::{Frame, FrameList, Shape, SharedFrame};
pub use ids::{CellId, FrameNo, GuestId, NodeId, Numbered, Ppn, ProcId, VcpuId};
pub use input::{InputEntry, InputList, InputLists, PacketList, SentPacket};
pub use instr::{
    AluOp, Cond, Cp0Op, Field, Half, Instr, JumpIndex, LoadKind, MulOp, Primary, Register,
    RegisterImmediate, ShiftAmount, ShiftOp, Special, StoreKind, SystemCode, TrapCode, Untaken,
};
pub use moves::{By, MoveKind, Policy};
pub use name::Name;
pub use page::{Blocks, PAGE_SIZE, Page, PageList};
pub use place::Place;
pub use regs::Regs;
pub use sequence::{Bytes, CellList, GuestList, LendList, NodeList, Sequence};
pub use sets::{CellSet, IdSet, MOST_CELLS, MOST_PROCESSORS, ProcSet};
pub use tlb::{Entry, TlbAnswer};
pub use trap::{Access, DataAccess, HwStep, TrapCause};
pub use words::{read_word, write_word};
