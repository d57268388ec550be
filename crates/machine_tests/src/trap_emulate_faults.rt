//! Steps that raise exceptions, worked out by hand.
use crate::telling::same;
use crate::trap_emulate_rig::{
    BAD_ADDRESS, BRANCH, CAUSE, CODE, CONTEXT, COUNT, DEVICES, END, ENTRY_HI, EPC, LH, LW, LWR,
    REFILL, SB, SC, SLOT, STATUS, SW, Start, USER, VECTOR, at, in_slot, started, step, with_word,
};
use base_words::Entry;
use base_words::Use::{Fetch, Load, Store};
use private_machine::Vcpu;
use std::alloc::Global;
use std::process::Abort;
use trap_emulate::Exception::{
    AddressError, BusError, CoprocessorUnusable, Interrupt, Overflow, ReservedInstruction,
    SystemCall, TlbModified, TlbRefill,
};
use trap_emulate::TrapCause::{Address, DataMiss, FetchMiss, Line, Privileged, Raised, ReadOnly};
use trap_emulate::{Emulated, Exception, MoveKind, TrapCause};

/// An address of the kernel that no entry maps.
const MAPPED: u32 = 0xD000_2000;

/// A step that raises an exception: where it starts, the word that the hardware has at the program counter, why it traps, the
/// exception; and where the virtual processor goes on, EPC, Cause and BadVAddr. Status has EXL from then on.
type Raises = (Start, Option<u32>, TrapCause, Exception, [u32; 4]);

/// A register of coprocessor 0 reads a word.
fn reads(rt: &impl Abort, after: &Vcpu, number: u8, word: u32) {
    same(rt, after.cp0.read(number), word, ("register", number));
}

fn raises(rt: &impl Abort, alloc: Global, row: &Raises) {
    let (start, word, cause, exception, [pc, epc, cause_word, bad_address]) = *row;
    let vcpu = started(&start);
    let outcome = step(rt, alloc, &vcpu, None, word);
    assert!(rt; outcome.is_some());
    if let Some(outcome) = outcome {
        let after = &outcome.vcpu;
        assert!(rt; outcome.cause == cause);
        assert!(rt; outcome.told == Emulated::Forward(exception));
        assert!(rt; after.registers.pc == pc && after.registers.slot.is_none());
        assert!(rt; after.registers.general == vcpu.registers.general);
        reads(rt, after, EPC, epc);
        reads(rt, after, CAUSE, cause_word);
        reads(rt, after, BAD_ADDRESS, bad_address);
        reads(rt, after, STATUS, vcpu.cp0.read(STATUS) | 2);
        assert!(rt; after.cp0.read(COUNT) == 1 && after.steps == 1);
    }
}

#[test]
fn fetches_and_interrupts(rt: HostRuntime) {
    // a software interrupt in a delay slot
    let interrupted = Start {
        cp0: [(STATUS, 0x101), (CAUSE, 0x100)],
        ..in_slot(SLOT, 0xC000_0300)
    };
    let user = with_word(CODE, STATUS, 0x10);
    let odd = CODE + 2;
    let rows: [Raises; 6] = [
        (
            interrupted,
            None,
            Line,
            Interrupt,
            [VECTOR, BRANCH, 0x8000_0100, 0],
        ),
        // unmapped; behind the guest's pages; on the device page; not aligned; user code in the direct range
        (
            at(USER, 0, 0),
            None,
            FetchMiss,
            TlbRefill(Fetch, USER),
            [REFILL, USER, 0x8, USER],
        ),
        (
            at(END, 0, 0),
            None,
            FetchMiss,
            BusError(Fetch),
            [VECTOR, END, 0x18, 0],
        ),
        (
            at(DEVICES, 0, 0),
            None,
            FetchMiss,
            BusError(Fetch),
            [VECTOR, DEVICES, 0x18, 0],
        ),
        (
            at(odd, 0, 0),
            None,
            Address(None),
            AddressError(Fetch, odd),
            [VECTOR, odd, 0x10, odd],
        ),
        (
            user,
            None,
            Address(None),
            AddressError(Fetch, CODE),
            [VECTOR, CODE, 0x10, CODE],
        ),
    ];
    for row in &rows {
        raises(&rt, rt.alloc(), row);
    }
}

#[test]
fn instructions_that_raise(rt: HostRuntime) {
    let user = with_word(USER, STATUS, 0x10);
    let slot = in_slot(SLOT, 0xC000_0214);
    let sum = Start {
        general: [(1, 0x7FFF_FFFF), (2, 1)],
        ..slot
    };
    // MFC0 by user code; a reserved word; ERET in a delay slot; ADD that overflows in one; SYSCALL
    let rows: [(Start, u32, bool, Exception, [u32; 4]); 5] = [
        (
            user,
            0x4008_6000,
            true,
            CoprocessorUnusable(0),
            [VECTOR, USER, 0x2C, 0],
        ),
        (
            at(CODE, 0, 0),
            0x4200_0003,
            true,
            ReservedInstruction,
            [VECTOR, CODE, 0x28, 0],
        ),
        (
            slot,
            0x4200_0018,
            true,
            ReservedInstruction,
            [VECTOR, BRANCH, 0x8000_0028, 0],
        ),
        (
            sum,
            0x0022_1820,
            false,
            Overflow,
            [VECTOR, BRANCH, 0x8000_0030, 0],
        ),
        (
            at(CODE, 0, 0),
            0x0000_000C,
            false,
            SystemCall,
            [VECTOR, CODE, 0x20, 0],
        ),
    ];
    for (start, word, is_privileged, exception, told) in rows {
        let cause = if is_privileged {
            Privileged(word)
        } else {
            Raised(exception)
        };
        raises(
            &rt,
            rt.alloc(),
            &(start, Some(word), cause, exception, told),
        );
    }
}

#[test]
fn data_accesses_that_raise(rt: HostRuntime) {
    let odd = CODE + 2;
    // by an address in register 8; the device page has no register at 4C, and none for less than a word or for SC
    let rows: [(u32, u32, Exception, [u32; 3]); 9] = [
        (USER, LW, TlbRefill(Load, USER), [REFILL, 0x8, USER]),
        (MAPPED, LWR, TlbRefill(Load, MAPPED), [REFILL, 0x8, MAPPED]),
        (END, SW, BusError(Store), [VECTOR, 0x1C, 0]),
        (DEVICES, LW + 0x4C, BusError(Load), [VECTOR, 0x1C, 0]),
        (DEVICES, LH + 0x14, BusError(Load), [VECTOR, 0x1C, 0]),
        (DEVICES, SB, BusError(Store), [VECTOR, 0x1C, 0]),
        (DEVICES, SC, BusError(Store), [VECTOR, 0x1C, 0]),
        (odd, LW, AddressError(Load, odd), [VECTOR, 0x10, odd]),
        (odd, SW, AddressError(Store, odd), [VECTOR, 0x14, odd]),
    ];
    for (address, word, exception, [pc, cause_word, bad_address]) in rows {
        let cause = if address == odd {
            Address(Some(word))
        } else {
            DataMiss(word)
        };
        let told = [pc, CODE, cause_word, bad_address];
        let start = at(CODE, address, 0);
        raises(
            &rt,
            rt.alloc(),
            &(start, Some(word), cause, exception, told),
        );
    }
}

#[test]
fn a_store_that_the_guest_denies(rt: HostRuntime) {
    // entry 0: the pages at 00400000, the first of which is valid and not dirty
    let mut vcpu = started(&at(USER + 0x100, USER + 0x800, 0));
    let entry = Entry {
        hi: USER,
        lo0: 0xC2,
        lo1: 0,
    };
    vcpu.tlb.write(0, entry);
    let outcome = step(&rt, rt.alloc(), &vcpu, Some(MoveKind::Break), Some(SW));
    assert!(rt; outcome.is_some());
    if let Some(outcome) = outcome {
        assert!(rt; outcome.cause == ReadOnly(SW));
        assert!(rt; outcome.told == Emulated::Forward(TlbModified(USER + 0x800)));
        reads(&rt, &outcome.vcpu, CAUSE, 0x4);
        reads(&rt, &outcome.vcpu, CONTEXT, 0x2000);
        reads(&rt, &outcome.vcpu, ENTRY_HI, USER);
    }
}
