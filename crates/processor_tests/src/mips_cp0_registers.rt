//! Values worked out by hand from the manual's layout of the registers.
use crate::telling::same;
use base_words::{Exception, Use};
use mips_cp0::Cp0;
use std::process::Abort;

const INDEX: u8 = 0;

const RANDOM: u8 = 1;

const CONTEXT: u8 = 4;

const WIRED: u8 = 6;

const BAD_ADDRESS: u8 = 8;

const COUNT: u8 = 9;

const ENTRY_HI: u8 = 10;

const COMPARE: u8 = 11;

const STATUS: u8 = 12;

const CAUSE: u8 = 13;

const EPC: u8 = 14;

/// Coprocessor 0 with a word in Status.
fn with_status(word: u32) -> Cp0 {
    let mut cp0 = Cp0::new();
    cp0.write(STATUS, word);
    cp0
}

/// A register reads a word.
fn reads(rt: &impl Abort, cp0: &Cp0, number: u8, word: u32) {
    same(rt, cp0.read(number), word, ("register", number));
}

/// An exception of an instruction, which may be in a delay slot, leads to where it is handled.
fn enters(rt: &impl Abort, cp0: &mut Cp0, exception: Exception, pc: u32, in_slot: bool, to: u32) {
    same(rt, cp0.enter(exception, pc, in_slot), to, exception);
}

/// ERET leads to an address.
fn returns(rt: &impl Abort, cp0: &mut Cp0, to: u32) {
    assert!(rt; cp0.eret() == to);
}

#[test]
fn each_register_is_read_at_the_start_and_after_ones_and_zeros_were_written(rt: HostRuntime) {
    let rows: [(u8, u32, u32, u32); 20] = [
        // Index: 5 to 0; the failed probe's bit isn't written
        (0, 0, 0x3F, 0),
        // Random: read only
        (1, 47, 47, 47),
        // EntryLo0, EntryLo1: 29 to 0
        (2, 0, 0x3FFF_FFFF, 0),
        (3, 0, 0x3FFF_FFFF, 0),
        // Context: the table, 31 to 23; the pair of pages isn't written
        (4, 0, 0xFF80_0000, 0),
        // PageMask: pages of 4096 bytes alone
        (5, 0, 0, 0),
        // Wired: 5 to 0
        (6, 0, 0x3F, 0),
        (7, 0, 0, 0),
        // BadVAddr: read only
        (8, 0, 0, 0),
        // Count
        (9, 0, 0xFFFF_FFFF, 0),
        // EntryHi: 31 to 13 and 7 to 0
        (10, 0, 0xFFFF_E0FF, 0),
        // Compare
        (11, 0, 0xFFFF_FFFF, 0),
        // Status: IM 15 to 8, KSU 4 and 3 of which 11 becomes 10, EXL 1, IE 0
        (12, 0, 0xFF13, 0),
        // Cause: the two interrupts of software, 9 and 8
        (13, 0, 0x300, 0),
        // EPC
        (14, 0, 0xFFFF_FFFF, 0),
        // PRId
        (15, 0x400, 0x400, 0x400),
        (16, 0, 0, 0),
        (31, 0, 0, 0),
        (32, 0, 0, 0),
        (255, 0, 0, 0),
    ];
    for (number, start, ones, zeros) in rows {
        let mut cp0 = Cp0::new();
        reads(&rt, &cp0, number, start);
        cp0.write(number, 0xFFFF_FFFF);
        reads(&rt, &cp0, number, ones);
        cp0.write(number, 0);
        reads(&rt, &cp0, number, zeros);
    }
}

#[test]
fn a_mode_that_is_not_the_kernels_is_user_mode(rt: HostRuntime) {
    // KSU 00, 01, 10, 11 in bits 4 and 3; EXL in bit 1
    let rows: [(u32, u32, bool); 5] = [
        (0x00, 0x00, false),
        (0x08, 0x10, true),
        (0x10, 0x10, true),
        (0x18, 0x10, true),
        (0x12, 0x12, false),
    ];
    for (written, read, user) in rows {
        let cp0 = with_status(written);
        reads(&rt, &cp0, STATUS, read);
        assert!(rt; cp0.is_user() == user);
    }
}

#[test]
fn each_exception_has_its_code_its_address_and_its_place(rt: HostRuntime) {
    // where it is handled, Cause with ExcCode in bits 6 to 2 and CE in bits 29 and 28, BadVAddr
    let rows: [(Exception, u32, u32, u32); 22] = [
        (Exception::Interrupt, 0xC000_0180, 0, 0),
        (Exception::TlbModified(0x1234), 0xC000_0180, 0x04, 0x1234),
        (
            Exception::TlbRefill(Use::Fetch, 0x1234),
            0xC000_0000,
            0x08,
            0x1234,
        ),
        (
            Exception::TlbRefill(Use::Load, 0x1234),
            0xC000_0000,
            0x08,
            0x1234,
        ),
        (
            Exception::TlbRefill(Use::Store, 0x1234),
            0xC000_0000,
            0x0C,
            0x1234,
        ),
        (
            Exception::TlbInvalid(Use::Fetch, 0x1234),
            0xC000_0180,
            0x08,
            0x1234,
        ),
        (
            Exception::TlbInvalid(Use::Load, 0x1234),
            0xC000_0180,
            0x08,
            0x1234,
        ),
        (
            Exception::TlbInvalid(Use::Store, 0x1234),
            0xC000_0180,
            0x0C,
            0x1234,
        ),
        (
            Exception::AddressError(Use::Fetch, 0x1235),
            0xC000_0180,
            0x10,
            0x1235,
        ),
        (
            Exception::AddressError(Use::Load, 0x1235),
            0xC000_0180,
            0x10,
            0x1235,
        ),
        (
            Exception::AddressError(Use::Store, 0x1235),
            0xC000_0180,
            0x14,
            0x1235,
        ),
        (Exception::BusError(Use::Fetch), 0xC000_0180, 0x18, 0),
        (Exception::BusError(Use::Load), 0xC000_0180, 0x1C, 0),
        (Exception::BusError(Use::Store), 0xC000_0180, 0x1C, 0),
        (Exception::SystemCall, 0xC000_0180, 0x20, 0),
        (Exception::Breakpoint, 0xC000_0180, 0x24, 0),
        (Exception::ReservedInstruction, 0xC000_0180, 0x28, 0),
        (Exception::CoprocessorUnusable(0), 0xC000_0180, 0x2C, 0),
        (
            Exception::CoprocessorUnusable(1),
            0xC000_0180,
            0x1000_002C,
            0,
        ),
        (
            Exception::CoprocessorUnusable(2),
            0xC000_0180,
            0x2000_002C,
            0,
        ),
        (Exception::Overflow, 0xC000_0180, 0x30, 0),
        (Exception::Trap, 0xC000_0180, 0x34, 0),
    ];
    for (exception, pc, cause, address) in rows {
        let mut cp0 = Cp0::new();
        enters(&rt, &mut cp0, exception, 0xC000_0200, false, pc);
        reads(&rt, &cp0, CAUSE, cause);
        reads(&rt, &cp0, BAD_ADDRESS, address);
        reads(&rt, &cp0, EPC, 0xC000_0200);
        reads(&rt, &cp0, STATUS, 2);
    }
}

#[test]
fn an_exception_in_a_delay_slot_names_the_branch(rt: HostRuntime) {
    // BD in bit 31, ExcCode 12
    let mut cp0 = Cp0::new();
    enters(
        &rt,
        &mut cp0,
        Exception::Overflow,
        0xC000_0204,
        true,
        0xC000_0180,
    );
    reads(&rt, &cp0, EPC, 0xC000_0200);
    reads(&rt, &cp0, CAUSE, 0x8000_0030);
    reads(&rt, &cp0, STATUS, 2);
    // the next one is in no delay slot
    returns(&rt, &mut cp0, 0xC000_0200);
    reads(&rt, &cp0, STATUS, 0);
    cp0.enter(Exception::Trap, 0, false);
    reads(&rt, &cp0, CAUSE, 0x34);
    // a branch in the last word leads to a delay slot at 0
    cp0.eret();
    cp0.enter(Exception::Trap, 0, true);
    reads(&rt, &cp0, EPC, 0xFFFF_FFFC);
}

#[test]
fn user_code_comes_back_into_user_mode(rt: HostRuntime) {
    let mut cp0 = with_status(0x10);
    enters(
        &rt,
        &mut cp0,
        Exception::CoprocessorUnusable(0),
        0x0040_0000,
        false,
        0xC000_0180,
    );
    reads(&rt, &cp0, EPC, 0x0040_0000);
    reads(&rt, &cp0, CAUSE, 0x2C);
    reads(&rt, &cp0, STATUS, 0x12);
    assert!(rt; !cp0.is_user());
    returns(&rt, &mut cp0, 0x0040_0000);
    reads(&rt, &cp0, STATUS, 0x10);
    assert!(rt; cp0.is_user());
}

#[test]
fn an_exception_of_the_tlb_leaves_its_pair_of_pages(rt: HostRuntime) {
    let mut cp0 = Cp0::new();
    cp0.write(CONTEXT, 0x1280_0000);
    cp0.write(ENTRY_HI, 0xFFFF_E042);
    enters(
        &rt,
        &mut cp0,
        Exception::TlbRefill(Use::Load, 0xD000_2ABC),
        0,
        false,
        0xC000_0000,
    );
    reads(&rt, &cp0, BAD_ADDRESS, 0xD000_2ABC);
    // D0002ABC / 2000 is 68001, in bits 22 to 4: 00680010; the table stays
    reads(&rt, &cp0, CONTEXT, 0x12E8_0010);
    // bits 31 to 13 of the address; the address space stays
    reads(&rt, &cp0, ENTRY_HI, 0xD000_2042);
    // an address error leaves BadVAddr alone
    cp0.enter(Exception::AddressError(Use::Load, 0x8000_0001), 0, false);
    reads(&rt, &cp0, BAD_ADDRESS, 0x8000_0001);
    reads(&rt, &cp0, CONTEXT, 0x12E8_0010);
    reads(&rt, &cp0, ENTRY_HI, 0xD000_2042);
}

#[test]
fn while_an_exception_is_handled_another_keeps_where_to_return(rt: HostRuntime) {
    let mut cp0 = Cp0::new();
    cp0.enter(Exception::SystemCall, 0xC000_0204, true);
    enters(
        &rt,
        &mut cp0,
        Exception::TlbRefill(Use::Store, 0x4000),
        0xC000_0190,
        false,
        0xC000_0180,
    );
    reads(&rt, &cp0, EPC, 0xC000_0200);
    // BD stays, ExcCode is 3
    reads(&rt, &cp0, CAUSE, 0x8000_000C);
    reads(&rt, &cp0, BAD_ADDRESS, 0x4000);
    // 4000 / 2000 is 2, in bits 22 to 4
    reads(&rt, &cp0, CONTEXT, 0x20);
    reads(&rt, &cp0, ENTRY_HI, 0x4000);
    reads(&rt, &cp0, STATUS, 2);
}

/// Where Random stands after so many steps.
fn random_after(wired: u32, steps: u32) -> u32 {
    let mut cp0 = Cp0::new();
    cp0.write(WIRED, wired);
    for _ in 0..steps {
        cp0.tick();
    }
    cp0.read(RANDOM)
}

#[test]
fn random_counts_down_to_wired_and_begins_again(rt: HostRuntime) {
    for wired in 0..64 {
        // from 47 down to Wired there are 48 - Wired values; from 47 on it stands still
        let values: u32 = if wired < 47 { 48 - wired } else { 1 };
        for steps in [0, 1, 2, 46, 47, 48, 49, 100] {
            assert!(rt; random_after(wired, steps) == 47 - steps % values);
        }
    }
}

#[test]
fn a_write_to_wired_sets_random_back(rt: HostRuntime) {
    let mut cp0 = Cp0::new();
    cp0.tick();
    cp0.tick();
    reads(&rt, &cp0, RANDOM, 45);
    cp0.write(WIRED, 3);
    reads(&rt, &cp0, RANDOM, 47);
}

#[test]
fn the_timer_interrupts_where_count_comes_to_compare(rt: HostRuntime) {
    let mut cp0 = Cp0::new();
    cp0.write(COUNT, 0xFFFF_FFFE);
    cp0.write(COMPARE, 0);
    cp0.tick();
    reads(&rt, &cp0, CAUSE, 0);
    // Count wraps to 0: IP7, bit 15
    cp0.tick();
    reads(&rt, &cp0, COUNT, 0);
    reads(&rt, &cp0, CAUSE, 0x8000);
    // it stays on, until Compare is written
    cp0.tick();
    reads(&rt, &cp0, CAUSE, 0x8000);
    cp0.write(COUNT, 0);
    reads(&rt, &cp0, CAUSE, 0x8000);
    // Count comes to the new value in the same step
    cp0.write(COMPARE, 1);
    reads(&rt, &cp0, CAUSE, 0);
    cp0.tick();
    reads(&rt, &cp0, CAUSE, 0x8000);
}

#[test]
fn a_timer_set_by_a_program_interrupts_after_so_many_steps(rt: HostRuntime) {
    // Compare becomes 20 in the second step, and IM7 and IE go on in the fourth
    let mut cp0 = Cp0::new();
    cp0.tick();
    cp0.write(COMPARE, 20);
    cp0.tick();
    cp0.tick();
    cp0.write(STATUS, 0x8001);
    cp0.tick();
    // 16 steps bring Count from 4 to 20
    assert!(rt; cp0.quiet_steps() == 16);
    for _ in 4..19 {
        cp0.tick();
        assert!(rt; !cp0.pending());
    }
    // the twentieth step brings Count to 20
    cp0.tick();
    reads(&rt, &cp0, COUNT, 20);
    assert!(rt; cp0.pending());
    assert!(rt; cp0.quiet_steps() == 0);
    enters(
        &rt,
        &mut cp0,
        Exception::Interrupt,
        0xC000_0010,
        false,
        0xC000_0180,
    );
    reads(&rt, &cp0, CAUSE, 0x8000);
    assert!(rt; !cp0.pending());
}

/// Cause after one line is on.
fn with_line(ip: u8) -> u32 {
    let mut cp0 = Cp0::new();
    cp0.line(ip, true);
    cp0.read(CAUSE)
}

#[test]
fn three_interrupts_are_lines(rt: HostRuntime) {
    let rows: [(u8, u32); 10] = [
        (0, 0),
        (1, 0),
        (2, 0x400),
        (3, 0x800),
        (4, 0x1000),
        (5, 0),
        (6, 0),
        (7, 0),
        (8, 0),
        (255, 0),
    ];
    for (ip, cause) in rows {
        assert!(rt; with_line(ip) == cause);
    }
}

#[test]
fn a_line_goes_off_alone(rt: HostRuntime) {
    let mut cp0 = Cp0::new();
    cp0.line(2, true);
    cp0.line(3, true);
    cp0.line(4, true);
    cp0.write(CAUSE, 0xFFFF_FFFF);
    reads(&rt, &cp0, CAUSE, 0x1F00);
    cp0.line(3, false);
    reads(&rt, &cp0, CAUSE, 0x1700);
    cp0.write(CAUSE, 0);
    reads(&rt, &cp0, CAUSE, 0x1400);
}

/// Whether an interrupt comes, with a word in Status and one in Cause, and the input line.
fn interrupts(status: u32, cause: u32, input: bool) -> bool {
    let mut cp0 = with_status(status);
    cp0.write(CAUSE, cause);
    cp0.line(2, input);
    cp0.pending()
}

#[test]
fn an_interrupt_comes_where_it_is_enabled_let_through_and_pending(rt: HostRuntime) {
    let rows: [(u32, u32, bool, bool); 9] = [
        // IM2 and IE, with IP2 on, then off
        (0x401, 0, true, true),
        (0x401, 0, false, false),
        // not enabled; while an exception is handled; in user mode
        (0x400, 0, true, false),
        (0x403, 0, true, false),
        (0x411, 0, true, true),
        // all are let through but IP2
        (0xFB01, 0, true, false),
        // by software: IP0 and IP1
        (0x101, 0x100, false, true),
        (0x201, 0x200, false, true),
        (0x201, 0x100, false, false),
    ];
    for (status, cause, input, comes) in rows {
        assert!(rt; interrupts(status, cause, input) == comes);
    }
}

#[test]
fn a_probe_leaves_its_entry_or_that_there_is_none(rt: HostRuntime) {
    let mut cp0 = Cp0::new();
    cp0.probed(Some(47));
    reads(&rt, &cp0, INDEX, 47);
    cp0.probed(None);
    reads(&rt, &cp0, INDEX, 0x8000_0000);
    cp0.write(INDEX, 0x8000_0005);
    reads(&rt, &cp0, INDEX, 5);
}

#[test]
fn the_address_space_is_the_low_byte_of_entry_hi(rt: HostRuntime) {
    let mut cp0 = Cp0::new();
    cp0.write(ENTRY_HI, 0xFFFF_E142);
    assert!(rt; cp0.asid() == 0x42);
}
