//! Steps that raise no exception, worked out by hand.
use crate::trap_emulate_rig::{
    BRANCH, CODE, DEVICES, ENTRY_HI, EPC, INDEX, LW, RANDOM, SC, STATUS, SW, Start, are_alike, at,
    started, step, with_word,
};
use base_words::Ppn;
use trap_emulate::TrapCause::{DataMiss, Privileged, ReadOnly};
use trap_emulate::{DevAct, Emulated, EntryWrite, MoveKind};

#[test]
fn a_store_to_memory_needs_its_move(rt: HostRuntime) {
    // on the page of the program counter
    for (word, kind) in [(SW, MoveKind::Break), (SC, MoveKind::Collapse)] {
        let vcpu = started(&at(0xC000_2100, 0xC000_2800, 7));
        let outcome = step(&rt, rt.alloc(), &vcpu, Some(kind), Some(word));
        assert!(rt; outcome.is_some());
        if let Some(outcome) = outcome {
            assert!(rt; outcome.cause == ReadOnly(word));
            assert!(rt; outcome.told == Emulated::Need(Ppn(2), kind));
            assert!(rt; are_alike(&outcome.vcpu, &vcpu));
        }
    }
}

/// The write of an entry of the guest's TLB.
fn written(index: u8, old_pair: u32, new_pair: u32) -> Option<EntryWrite> {
    Some(EntryWrite {
        index,
        old_pair,
        new_pair,
    })
}

#[test]
fn instructions_of_coprocessor_0(rt: HostRuntime) {
    let next = CODE + 4;
    let hi = (ENTRY_HI, 0x0040_2005);
    let with = |cp0| Start {
        cp0,
        ..at(CODE, 0x8001, 0)
    };
    // the word, the entry that it writes; where the virtual processor goes on, register 8, and what another register reads
    type Row = (Start, u32, Option<EntryWrite>, u32, u32, (u8, u32));
    let rows: [Row; 8] = [
        // MFC0 and MTC0 of Status
        (at(CODE, 0x8001, 0), 0x4008_6000, None, next, 0, (STATUS, 0)),
        (
            at(CODE, 0x8001, 0),
            0x4088_6000,
            None,
            next,
            0x8001,
            (STATUS, 0x8001),
        ),
        // TLBR; TLBWI, also past the last entry; TLBWR; TLBP; ERET
        (
            with_word(CODE, INDEX, 3),
            0x4200_0001,
            None,
            next,
            0,
            (ENTRY_HI, 0x8000_6000),
        ),
        (
            with([(INDEX, 3), hi]),
            0x4200_0002,
            written(3, 0x4_0003, 0x201),
            next,
            0x8001,
            (INDEX, 3),
        ),
        (
            with([(INDEX, 50), hi]),
            0x4200_0002,
            None,
            next,
            0x8001,
            (INDEX, 50),
        ),
        (
            with([hi, hi]),
            0x4200_0006,
            written(47, 0x4_002F, 0x201),
            next,
            0x8001,
            (RANDOM, 46),
        ),
        (
            with_word(CODE, ENTRY_HI, 0x8000_6000),
            0x4200_0008,
            None,
            next,
            0,
            (INDEX, 3),
        ),
        (
            with([(EPC, BRANCH), (STATUS, 2)]),
            0x4200_0018,
            None,
            BRANCH,
            0x8001,
            (STATUS, 0),
        ),
    ];
    for (start, word, entry, pc, eight, (number, read)) in rows {
        let outcome = step(&rt, rt.alloc(), &started(&start), None, Some(word));
        assert!(rt; outcome.is_some());
        if let Some(outcome) = outcome {
            let registers = &outcome.vcpu.registers;
            assert!(rt; outcome.cause == Privileged(word));
            assert!(rt; outcome.told == Emulated::Done(entry));
            assert!(rt; registers.pc == pc && registers.general[8] == eight);
            assert!(rt; outcome.vcpu.cp0.read(number) == read);
        }
    }
}

#[test]
fn the_device_page(rt: HostRuntime) {
    let done = Emulated::Done(None);
    // the value in register 9, the word, the answer, register 9 afterwards, the status, and whether it has halted
    let rows: [(u32, u32, Emulated, u32, u32, bool); 7] = [
        // the number of virtual processors is loaded
        (7, LW + 0x14, done, 2, 0, false),
        // the console, a halt, and a disk command that is none
        (0x141, SW, done, 0x141, 0, false),
        (0, SW + 0x4, done, 0, 0, true),
        (3, SW + 0x28, done, 3, 3, false),
        // a disk read and write, and a send
        (
            1,
            SW + 0x28,
            Emulated::Device(DevAct::DiskRead),
            1,
            0,
            false,
        ),
        (
            2,
            SW + 0x28,
            Emulated::Device(DevAct::DiskWrite),
            2,
            0,
            false,
        ),
        (5, SW + 0x38, Emulated::Device(DevAct::Send(5)), 5, 0, false),
    ];
    for (value, word, told, nine, status, halted) in rows {
        let vcpu = started(&at(CODE, DEVICES, value));
        let outcome = step(&rt, rt.alloc(), &vcpu, None, Some(word));
        assert!(rt; outcome.is_some());
        if let Some(outcome) = outcome {
            assert!(rt; outcome.cause == DataMiss(word));
            assert!(rt; outcome.told == told);
            assert!(rt; outcome.vcpu.registers.general[9] == nine);
            assert!(rt; outcome.status == status && outcome.halted == halted);
            assert!(rt; (outcome.devs.console() == [0x41].as_slice()) == (word == SW));
            assert!(rt; are_alike(&outcome.vcpu, &vcpu) == (told != done));
        }
    }
}
