//! Values worked out by hand.
use base_words::{Cp0Op, Register};
use mips_retire::{do_system, pass, put, put_linked, put_unlinked, read_cp0, write_cp0};
use private_machine::Vcpu;

/// The numbers of Index, EntryHi, Status and EPC in coprocessor 0.
const INDEX: u8 = 0;

const ENTRY_HI: u8 = 10;

const STATUS: u32 = 12;

const EPC: u8 = 14;

#[test]
fn a_result_is_written_and_the_next_instruction_follows(rt: HostRuntime) {
    let mut vcpu = Vcpu::new(0xC000_0100);
    put(&mut vcpu, Register::new(8), 7);
    assert!(rt; vcpu.registers.general[8] == 7 && vcpu.registers.pc == 0xC000_0104);
    // in a delay slot its target follows; register 0 keeps nothing
    vcpu.registers.slot = Some(0xC000_0200);
    put(&mut vcpu, Register::new(0), 7);
    assert!(rt; vcpu.registers.general[0] == 0 && vcpu.registers.pc == 0xC000_0200);
    assert!(rt; vcpu.registers.slot.is_none());
    put_linked(&mut vcpu, Register::new(9), 5, 33);
    assert!(rt; vcpu.registers.general[9] == 5 && vcpu.link == Some(33));
    put_unlinked(&mut vcpu, Register::new(9), 1);
    assert!(rt; vcpu.registers.general[9] == 1 && vcpu.link.is_none());
    pass(&mut vcpu);
    assert!(rt; vcpu.registers.pc == 0xC000_020C);
}

#[test]
fn coprocessor_0_is_read_and_written(rt: HostRuntime) {
    let mut vcpu = Vcpu::new(0xC000_0000);
    write_cp0(&mut vcpu, Register::new(STATUS), 0x0000_8401);
    read_cp0(&mut vcpu, Register::new(STATUS), Register::new(3));
    assert!(rt; vcpu.registers.general[3] == 0x0000_8401 && vcpu.registers.pc == 0xC000_0008);
}

#[test]
fn the_tlb_is_passed_and_a_return_leads_on_by_itself(rt: HostRuntime) {
    let mut vcpu = Vcpu::new(0xC000_0000);
    // at the start entry 3 is of the pages at 80006000
    vcpu.cp0.write(INDEX, 3);
    do_system(&mut vcpu, Cp0Op::TlbRead);
    assert!(rt; vcpu.cp0.read(ENTRY_HI) == 0x8000_6000 && vcpu.registers.pc == 0xC000_0004);
    vcpu.cp0.write(EPC, 0xC000_0400);
    vcpu.link = Some(1);
    do_system(&mut vcpu, Cp0Op::ExceptionReturn);
    assert!(rt; vcpu.registers.pc == 0xC000_0400 && vcpu.link.is_none());
}
