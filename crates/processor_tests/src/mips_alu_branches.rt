//! Jumps and branches, with targets worked out by hand from the manual's descriptions.
use crate::mips_alu_rig::{
    AFTER, HERE, Outcome, gives, holding, leads, outcome, r, skips, with_register,
};
use crate::telling::same;
use base_words::{Cond, Instr, JumpIndex, Regs, Request, Untaken};

/// The offsets 3 and -2, and the addresses to which they lead.
const AHEAD: (u16, u32) = (0x0003, 0x0040_0110);

const BACK: (u16, u32) = (0xFFFE, 0x0040_00FC);

/// A word of -1.
const MINUS: u32 = 0xFFFF_FFFF;

/// The least signed number, and the greatest.
const LEAST: u32 = 0x8000_0000;

const GREATEST: u32 = 0x7FFF_FFFF;

/// Where a branch leads: to its target by the delay slot, where it is taken; else by the delay slot past it, or past the delay slot.
fn branches(before: Regs, taken: bool, untaken: Untaken, target: u32) -> Outcome {
    match (taken, untaken) {
        (true, _) => leads(before, target),
        (false, Untaken::Slot) => leads(before, AFTER),
        (false, Untaken::PastSlot) => skips(before),
    }
}

/// BEQ, BNE, BEQL and BNEL.
#[test]
fn branches_on_two_registers(rt: HostRuntime) {
    let rows = [
        (Cond::Equal, 5, 5, true),
        (Cond::Equal, 5, 6, false),
        (Cond::Equal, MINUS, MINUS, true),
        (Cond::NotEqual, 5, 6, true),
        (Cond::NotEqual, 5, 5, false),
        (Cond::NotEqual, MINUS, GREATEST, true),
    ];
    for (cond, a, b, taken) in rows {
        let before = holding(a, b);
        for untaken in [Untaken::Slot, Untaken::PastSlot] {
            for (offset, target) in [AHEAD, BACK] {
                let instr = Instr::Branch {
                    cond,
                    untaken,
                    rs: r(1),
                    rt: r(2),
                    offset,
                };
                let want = branches(before, taken, untaken, target);
                gives(&rt, instr, before, want);
            }
        }
    }
}

/// BLEZ, BGTZ, BLTZ, BGEZ, and their likely forms.
#[test]
fn branches_on_a_register_and_zero(rt: HostRuntime) {
    let rows = [
        (Cond::LessOrEqual, MINUS, true),
        (Cond::LessOrEqual, 0, true),
        (Cond::LessOrEqual, 1, false),
        (Cond::LessOrEqual, LEAST, true),
        (Cond::Greater, 1, true),
        (Cond::Greater, 0, false),
        (Cond::Greater, MINUS, false),
        (Cond::Greater, GREATEST, true),
        (Cond::Less, MINUS, true),
        (Cond::Less, 0, false),
        (Cond::Less, 1, false),
        (Cond::Less, LEAST, true),
        (Cond::GreaterOrEqual, 1, true),
        (Cond::GreaterOrEqual, 0, true),
        (Cond::GreaterOrEqual, MINUS, false),
        (Cond::GreaterOrEqual, GREATEST, true),
    ];
    for (cond, a, taken) in rows {
        let before = holding(a, 0);
        for untaken in [Untaken::Slot, Untaken::PastSlot] {
            for (offset, target) in [AHEAD, BACK] {
                let instr = Instr::BranchZero {
                    cond,
                    untaken,
                    rs: r(1),
                    offset,
                };
                let want = branches(before, taken, untaken, target);
                gives(&rt, instr, before, want);
            }
        }
    }
}

/// BLTZAL, BGEZAL, BLTZALL and BGEZALL: register 31 becomes the address after the delay slot, whether they are taken or not. Where
/// it is the source too, its value from before decides.
#[test]
fn branches_that_link(rt: HostRuntime) {
    let rows = [
        (Cond::Less, MINUS, true),
        (Cond::Less, LEAST, true),
        (Cond::Less, 0, false),
        (Cond::Less, 1, false),
        (Cond::GreaterOrEqual, 0, true),
        (Cond::GreaterOrEqual, 1, true),
        (Cond::GreaterOrEqual, MINUS, false),
    ];
    for (cond, a, taken) in rows {
        for source in [r(1), r(31)] {
            let mut before = holding(a, 0);
            before.general[31] = a;
            let mut linked = before;
            linked.general[31] = AFTER;
            for untaken in [Untaken::Slot, Untaken::PastSlot] {
                let instr = Instr::BranchZeroAndLink {
                    cond,
                    untaken,
                    rs: source,
                    offset: 3,
                };
                let want = branches(linked, taken, untaken, 0x0040_0110);
                gives(&rt, instr, before, want);
            }
        }
    }
}

/// The longest ways of a branch, ahead and back, and one round the end of the addresses.
#[test]
fn far_branches(rt: HostRuntime) {
    let rows = [
        (0x7FFF, HERE, 0x0042_0100),
        (0x8000, HERE, 0x003E_0104),
        (0xFFFF, HERE, HERE),
        (0x0000, 0xFFFF_FFF8, 0xFFFF_FFFC),
        (0x0001, 0xFFFF_FFF8, 0x0000_0000),
        (0x8000, 0x0000_0000, 0xFFFE_0004),
    ];
    for (offset, pc, target) in rows {
        let mut before = holding(0, 0);
        before.pc = pc;
        let instr = Instr::Branch {
            cond: Cond::Equal,
            untaken: Untaken::Slot,
            rs: r(0),
            rt: r(0),
            offset,
        };
        let (_, after) = outcome(instr, before);
        same(&rt, after.slot, Some(target), (offset, pc));
    }
}

/// J and JAL, whose target is in the region of 256 MB of their delay slot: in a region's last word a jump leads into the next one.
#[test]
fn jumps_by_an_index(rt: HostRuntime) {
    let rows = [
        (
            0x0040_0100,
            JumpIndex::new(0x010_0004),
            0x0040_0010,
            0x0040_0104,
            0x0040_0108,
        ),
        (
            0xC000_0000,
            JumpIndex::new(0x3FF_FFFF),
            0xCFFF_FFFC,
            0xC000_0004,
            0xC000_0008,
        ),
        (
            0x0FFF_FFF8,
            JumpIndex::new(0x000_0004),
            0x0000_0010,
            0x0FFF_FFFC,
            0x1000_0000,
        ),
        (
            0x0FFF_FFFC,
            JumpIndex::new(0x000_0004),
            0x1000_0010,
            0x1000_0000,
            0x1000_0004,
        ),
        (
            0xFFFF_FFFC,
            JumpIndex::new(0x000_0004),
            0x0000_0010,
            0x0000_0000,
            0x0000_0004,
        ),
    ];
    for (pc, index, target, slot, link) in rows {
        let mut before = holding(0, 0);
        before.pc = pc;
        let mut after = before;
        after.pc = slot;
        after.slot = Some(target);
        let want = (Ok(Request::Nothing), after);
        gives(&rt, Instr::Jump { index }, before, want);
        after.general[31] = link;
        let want = (Ok(Request::Nothing), after);
        gives(&rt, Instr::JumpAndLink { index }, before, want);
    }
}

/// JR, and JALR, which reads its source before it links. A target that isn't a word's address is an error only when it is fetched.
#[test]
fn jumps_by_a_register(rt: HostRuntime) {
    let before = holding(0x8000_1234, 0x8000_1232);
    for (rs, target) in [(r(1), 0x8000_1234), (r(2), 0x8000_1232)] {
        let jump = Instr::JumpRegister { rs };
        gives(&rt, jump, before, leads(before, target));
    }
    for (rd, linked) in [
        (r(31), with_register(before, 31, AFTER)),
        (r(5), with_register(before, 5, AFTER)),
        (r(1), with_register(before, 1, AFTER)),
        (r(0), before),
    ] {
        let call = Instr::JumpAndLinkRegister { rs: r(1), rd };
        let want = leads(linked, 0x8000_1234);
        gives(&rt, call, before, want);
    }
}
