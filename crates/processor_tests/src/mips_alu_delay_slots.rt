//! Instructions in a delay slot, with answers worked out by hand from the manual's descriptions.
use crate::mips_alu_rig::{Outcome, asks, gives, holding, outcome, r, raises};
use crate::telling::same;
use base_words::{
    AluOp, Cond, Cp0Op, Exception, Instr, JumpIndex, Regs, Request, StoreKind, Untaken,
};

/// Where the jump leads whose delay slot it is.
const TARGET: u32 = 0x8000_0000;

/// Two words in registers 1 and 2, in a delay slot.
fn in_slot(first: u32, second: u32) -> Regs {
    let mut before = holding(first, second);
    before.slot = Some(TARGET);
    before
}

/// The instruction is done, and the jump's target follows.
fn follows(before: Regs) -> Outcome {
    let mut after = before;
    after.pc = TARGET;
    after.slot = None;
    (Ok(Request::Nothing), after)
}

/// The sum of registers 1 and 2 into register 3.
fn add() -> Instr {
    Instr::Alu {
        op: AluOp::Add,
        rs: r(1),
        rt: r(2),
        rd: r(3),
    }
}

/// An instruction that is done leads to the target; one that asks something or raises an exception leaves the registers.
#[test]
fn where_a_delay_slot_leads(rt: HostRuntime) {
    let store = Instr::Store {
        kind: StoreKind::Word,
        base: r(1),
        rt: r(2),
        offset: 0xFFFC,
    };
    let asked = Request::Store {
        kind: StoreKind::Word,
        address: 0x1000,
        value: 7,
    };
    let few = in_slot(0x1004, 7);
    let full = in_slot(0x7FFF_FFFF, 7);
    let mut sum = few;
    sum.general[3] = 0x100B;
    let rows = [
        ("SYNC", Instr::Sync, few, follows(few)),
        ("ADD", add(), few, follows(sum)),
        (
            "ADD, too much",
            add(),
            full,
            raises(full, Exception::Overflow),
        ),
        ("SW", store, few, asks(few, asked)),
        (
            "TLBP",
            Instr::Cp0(Cp0Op::TlbProbe),
            few,
            asks(few, Request::System(Cp0Op::TlbProbe)),
        ),
    ];
    for (name, instr, before, want) in rows {
        same(&rt, &outcome(instr, before), &want, name);
    }
}

/// The manual leaves open what a jump, a branch or ERET does in a delay slot: here it is reserved, and nothing is linked.
#[test]
fn what_is_reserved_in_a_delay_slot(rt: HostRuntime) {
    let before = in_slot(0x8000_1234, 0);
    let index = JumpIndex::new(4);
    let rows = [
        Instr::JumpRegister { rs: r(1) },
        Instr::JumpAndLinkRegister {
            rs: r(1),
            rd: r(31),
        },
        Instr::Jump { index },
        Instr::JumpAndLink { index },
        Instr::BranchZero {
            cond: Cond::Less,
            untaken: Untaken::PastSlot,
            rs: r(1),
            offset: 3,
        },
        Instr::BranchZeroAndLink {
            cond: Cond::Less,
            untaken: Untaken::Slot,
            rs: r(1),
            offset: 3,
        },
        Instr::Branch {
            cond: Cond::Equal,
            untaken: Untaken::Slot,
            rs: r(1),
            rt: r(2),
            offset: 3,
        },
        Instr::Cp0(Cp0Op::ExceptionReturn),
    ];
    for instr in rows {
        let want = raises(before, Exception::ReservedInstruction);
        gives(&rt, instr, before, want);
    }
}
