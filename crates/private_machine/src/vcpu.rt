//! One virtual processor of a guest.
ghost use Rattle.std.specs.Prelude.{◌≡◌, ◌<◌, ◌%◌, false, IfOk};
ghost use Rattle.base_words.specs.declared.instr.Cp0Op.TheVariants.{TlbRead};
ghost use Rattle.base_words.specs.Tlb.{entry_written};
ghost use Rattle.base_words.specs.Place.{place as place_of, segment};

use crate::translation::{Space, is_direct, is_mapped, place};
use base_words::{Cp0Op, Entry, Exception, Place, Ppn, Regs, Use};
use guest_tlb::Tlb48;
use mips_cp0::Cp0;

/// The numbers of EntryLo0, EntryLo1 and EntryHi.
const ENTRY_LO0: u8 = 2;

const ENTRY_LO1: u8 = 3;

const ENTRY_HI: u8 = 10;
/// The lines IP3, for packets, and IP4, for other virtual processors.
const PACKET_LINE: u8 = 3;

const VCPU_LINE: u8 = 4;
/// The lines of a page.
const LINES: u32 = 128;

/// A virtual processor: its registers, coprocessor 0, the guest's TLB, the line of 32 bytes that it has linked, whether it has
/// halted, and how many own steps it made.
#[derive(Clone, Debug, Drop)]
pub struct Vcpu {
    pub registers: Regs,
    pub cp0: Cp0,
    pub tlb: Tlb48,
    pub link: Option<u32>,
    pub halted: bool,
    pub steps: u64,
}

impl Vcpu {
    ghost use Rattle.private_machine.specs.Vcpu.{started, space_of, raising, returning, ticking, system_done, held_entry};
    ghost use Rattle.private_machine.specs.Everywhere.{is_everywhere};
    ghost use Rattle.private_machine.specs.Links.{is_linked, unlinked, unlinked_page};
    ghost use Rattle.private_machine.specs.Showing.{showing};
    ghost use Rattle.private_machine.specs.Translation.{IsWithin, IsPhysical, IsAligned};

    /// A virtual processor at the start, whose first instruction stands at this address.
    pub fn new(entry: u32) -> Self
        ensures { result ≡ started entry }
    {
        Vcpu {
            registers: Regs {
                general: [0; 32],
                hi: 0,
                lo: 0,
                pc: entry,
                slot: None,
            },
            cp0: Cp0::new(),
            tlb: Tlb48::new(),
            link: None,
            halted: false,
            steps: 0,
        }
    }

    /// Where an address leads in a guest of so many pages, which has to be a multiple of `unit`; or the exception that the
    /// access raises.
    #[inline]
    pub fn place(
        &self,
        pages: u32,
        unit: u32,
        purpose: Use,
        address: u32,
    ) -> Result<Place, Exception>
        requires some { 0 < unit }
        requires divides { 4 % unit ≡ 0 }
        ensures place { result ≡ place_of (space_of self.now) pages unit purpose address }
        ensures within { IfOk result (IsWithin pages) }
        ensures physical { IfOk result IsPhysical }
        ensures aligned { IfOk result (IsAligned unit) }
    {
        let space = Space {
            user: self.cp0.is_user(),
            asid: self.cp0.asid(),
        };
        place(space, &self.tlb, pages, unit, purpose, address)
    }

    /// Whether what its TLB and the direct segment give of an address is the same in every address space.
    pub fn is_everywhere(&self, address: u32) -> bool
        ensures { result ≡ is_everywhere self.now.tlb self.now.cp0.entry_hi.asid address (segment false address) }
    {
        if is_direct(address) {
            return true;
        }
        is_mapped(address) && self.tlb.is_only_global(address, self.cp0.asid())
    }

    /// Takes an exception: coprocessor 0 keeps what it tells, and the processor goes on where it is handled.
    pub fn raise(&mut self, exception: Exception)
        ensures { self.new ≡ raising exception self.old }
    {
        let registers = &mut self.registers;
        let in_slot = registers.slot.is_some();
        registers.pc = self.cp0.enter(exception, registers.pc, in_slot);
        registers.slot = None;
    }

    /// Returns from an exception, to where EPC says, and without a link.
    fn return_from_exception(&mut self)
        ensures { self.new ≡ returning self.old }
    {
        self.registers.pc = self.cp0.eret();
        self.registers.slot = None;
        self.link = None;
    }

    /// Reads the entry that Index names into coprocessor 0.
    fn read_entry(&mut self)
        ensures { self.new ≡ system_done TlbRead self.old }
    {
        let entry = self.tlb.read(self.cp0.index());
        self.cp0.write(ENTRY_HI, entry.hi);
        self.cp0.write(ENTRY_LO0, entry.lo0);
        self.cp0.write(ENTRY_LO1, entry.lo1);
    }

    /// Writes what coprocessor 0 holds into an entry.
    fn write_entry(&mut self, index: u8)
        ensures { self.new ≡ record self.old { tlb = entry_written self.old.tlb index (held_entry self.old.cp0) } }
    {
        let entry = Entry {
            hi: self.cp0.read(ENTRY_HI),
            lo0: self.cp0.read(ENTRY_LO0),
            lo1: self.cp0.read(ENTRY_LO1),
        };
        self.tlb.write(index, entry);
    }

    /// Does an instruction of the TLB, or returns from an exception.
    pub fn do_system(&mut self, op: Cp0Op)
        ensures { self.new ≡ system_done op self.old }
    {
        match op {
            Cp0Op::TlbRead => self.read_entry(),
            Cp0Op::TlbWriteIndexed => {
                let index = self.cp0.index();
                self.write_entry(index);
            }
            Cp0Op::TlbWriteRandom => {
                let index = self.cp0.random();
                self.write_entry(index);
            }
            Cp0Op::TlbProbe => {
                let found = self.tlb.probe(self.cp0.read(ENTRY_HI));
                self.cp0.probed(found);
            }
            Cp0Op::ExceptionReturn => self.return_from_exception(),
        }
    }

    /// A step is over: coprocessor 0 ticks, and the step is counted.
    #[inline]
    pub fn tick(&mut self)
        ensures { self.new ≡ ticking self.old }
    {
        self.cp0.tick();
        self.steps = self.steps.saturating_add(1);
    }

    /// Shows whether it has halted, and its lines IP4 and IP3.
    pub(crate) fn show(&mut self, halted: bool, called: bool, packet: bool)
        ensures { self.new ≡ showing halted called packet self.old }
    {
        self.halted = halted;
        self.cp0.line(VCPU_LINE, called);
        self.cp0.line(PACKET_LINE, packet);
    }

    /// Whether it has linked this line.
    #[inline]
    pub fn links(&self, line: u32) -> bool
        ensures { result ≡ is_linked self.now.link line }
    {
        match self.link {
            Some(linked) => linked == line,
            None => false,
        }
    }

    /// Clears a link to this line.
    #[inline]
    pub fn unlink(&mut self, line: u32)
        ensures { self.new ≡ unlinked line self.old }
    {
        if self.links(line) {
            self.link = None;
        }
    }

    /// Clears a link to a line of this page.
    pub fn unlink_page(&mut self, page: Ppn)
        ensures { self.new ≡ unlinked_page page.0 self.old }
    {
        if let Some(line) = self.link
            && line / LINES == page.0
        {
            self.link = None;
        }
    }
}
