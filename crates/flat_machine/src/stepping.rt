//! Steps, and packets that come in.
ghost use Rattle.std.specs.Prelude.{◌≡◌, ◌≢◌, ◌<◌, ◌≤◌, IfOk, OnOk, OnErr, Ok, length, not, true, false, replicate};
ghost use Rattle.base_words.specs.declared.exception.Use.TheVariants.{Fetch};
ghost use Rattle.base_words.specs.Instruction.{effect};
ghost use Rattle.base_words.specs.OpcodeMap.{decoded};
ghost use Rattle.base_words.specs.Coprocessor.{in_user_mode, interrupts};
ghost use Rattle.private_machine.specs.PrivateMachine.{vcpu as vcpu_at, is_open as is_open_to};
ghost use Rattle.private_machine.specs.OwnStep.{is_privileged as is_privileged_of, is_usable as is_usable_by, usable, fetched, attempted, acted, joined, own_step};
ghost use Rattle.mips_alu.specs.Execution.{Executes};
ghost use Rattle.private_machine.specs.RegisterPage.{opened};
ghost use Rattle.private_machine.specs.Packet.{own_packet};
ghost use Rattle.flat_machine.specs.FlatView.{machine_of, IsSound};
ghost use Rattle.base_words.specs.declared.events.OwnEvent.TheVariants.{Step};
ghost use Rattle.private_machine.specs.Vcpu.{space_of};
ghost use Rattle.private_machine.specs.PrivateRun.{private_run};
ghost use Rattle.flat_machine.specs.Attempts.{Attempts, Begins, requested};
ghost use Rattle.flat_machine.specs.Windows.{IsKeptPage, IsWindow, Keeps, MadeSome};
ghost use Rattle.flat_machine.specs.declared.window.Change.TheVariants as changes;

use crate::machine::Machine;
use crate::memory::fill_page;
use crate::window::{Change, KeptPage, Window};
use base_words::{Exception, GuestId, PAGE_SIZE, Place, Regs, Request, Use, VcpuId};
use guest_devs::{quiet_steps, quiet_steps_pass};
use mips_alu::execute;
use mips_isa::decode;
use private_machine::{redirected, unlink_page};
use std::alloc::AllocError;

/// The primary opcode of coprocessor 0.
const COPROCESSOR_0: u32 = 16;

/// Whether a word is of coprocessor 0.
#[inline]
fn is_privileged(word: u32) -> bool
    ensures { result ≡ is_privileged_of word }
{
    word >> 26 == COPROCESSOR_0
}

/// What an instruction asks for, once registers are as it leaves them, where the register page is open of its register; or what it raises.
#[inline]
fn asked(regs: &mut Regs, is_open: bool, word: u32) -> Result<Request, Exception>
    ensures { Executes (opened is_open (effect (decoded word) regs.old)) regs.old regs.new result }
{
    match execute(&decode(word), regs) {
        Ok(request) => Ok(redirected(is_open, request)),
        Err(exception) => Err(exception),
    }
}

impl Machine {
    /// Makes room for what one step may print and send.
    pub fn make_ready(&mut self) -> Result<(), AllocError>
        requires sound { IsSound self.old }
        ensures sound { IsSound self.new }
        ensures same { machine_of self.new ≡ machine_of self.old }
        ensures ready { OnOk result (self.new.ready ≡ true) }
    {
        if !self.ready {
            self.devs.reserve()?;
            self.spare.reserve(PAGE_SIZE as usize)?;
            self.ready = true;
        }
        Ok(())
    }

    /// The word at the program counter. The page of the last fetch is looked at first.
    #[inline(always)]
    fn fetch(&self, vcpu: VcpuId, last: &mut Option<KeptPage>) -> Result<u32, Exception>
        requires sound { IsSound self.now }
        requires there { vcpu.0 < length (machine_of self.now).vcpus }
        requires last { IsKeptPage Fetch (space_of (vcpu_at (machine_of self.now) vcpu.0)) self.now.pages last.old }
        ensures fetched { result ≡ fetched (machine_of self.now) vcpu.0 }
        ensures last { IsKeptPage Fetch (space_of (vcpu_at (machine_of self.now) vcpu.0)) self.now.pages last.new }
    {
        let vcpu = self.vcpu(vcpu);
        let pc = vcpu.registers.pc;
        if let Some(page) = *last
            && page.number == pc / PAGE_SIZE
            && pc % 4 == 0
        {
            return Ok(self.word_around(page.start + u64::from(pc % PAGE_SIZE)));
        }
        match vcpu.place(self.pages, 4, Use::Fetch, pc) {
            Ok(Place::Memory(offset)) => {
                *last = Some(KeptPage {
                    number: pc / PAGE_SIZE,
                    start: offset - u64::from(pc % PAGE_SIZE),
                });
                Ok(self.word_around(offset))
            }
            Ok(Place::Device(_)) => Err(Exception::BusError(Use::Fetch)),
            Err(exception) => Err(exception),
        }
    }

    /// Whether a virtual processor may run an instruction: one of coprocessor 0 isn't for its user mode.
    #[inline(always)]
    fn is_usable(&self, vcpu: VcpuId, word: u32) -> bool
        requires there { vcpu.0 < length (machine_of self.now).vcpus }
        ensures { result ≡ is_usable_by word (in_user_mode (vcpu_at (machine_of self.now) vcpu.0).cp0.status) }
    {
        !(is_privileged(word) && self.vcpu(vcpu).cp0.is_user())
    }

    /// Whether the register page is open to a virtual processor.
    #[inline(always)]
    pub fn is_open(&self, vcpu: VcpuId) -> bool
        requires there { vcpu.0 < length (machine_of self.now).vcpus }
        ensures { result ≡ is_open_to (machine_of self.now) vcpu.0 }
    {
        self.register_page && !self.vcpu(vcpu).cp0.is_user()
    }

    /// Does what an instruction does by itself, and answers what it asks.
    #[inline]
    fn begin(&mut self, vcpu: VcpuId, word: u32) -> Result<Request, Exception>
        requires sound { IsSound self.old }
        requires there { vcpu.0 < length (machine_of self.old).vcpus }
        ensures sound { IsSound self.new }
        ensures ready { self.new.ready ≡ self.old.ready }
        ensures count { length (machine_of self.new).vcpus ≡ length (machine_of self.old).vcpus }
        ensures begins { Begins (machine_of self.old) vcpu.0 (usable (is_usable_by word (in_user_mode (vcpu_at (machine_of self.old) vcpu.0).cp0.status)) (effect (decoded word) (vcpu_at (machine_of self.old) vcpu.0).registers)) (machine_of self.new) result }
        ensures keeps { Keeps (machine_of self.old) vcpu.0 (machine_of self.new) }
    {
        if !self.is_usable(vcpu, word) {
            return Err(Exception::CoprocessorUnusable(0));
        }
        let is_open = self.is_open(vcpu);
        asked(&mut self.vcpus[vcpu.0 as usize].registers, is_open, word)
    }

    /// Does what an instruction asks of memory or of coprocessor 0, and answers what it changed.
    #[inline(always)]
    fn answer(&mut self, vcpu: VcpuId, request: Request) -> Result<Change, Exception>
        requires sound { IsSound self.old }
        requires there { vcpu.0 < length (machine_of self.old).vcpus }
        requires ready { self.old.ready ≡ true }
        ensures sound { IsSound self.new }
        ensures attempts { Attempts (requested (machine_of self.old) vcpu.0 request) (machine_of self.old) (machine_of self.new) result }
        ensures keeps { result ≡ Ok changes.Memory → Keeps (machine_of self.old) vcpu.0 (machine_of self.new) }
        ensures ready { result ≡ Ok changes.Memory → self.new.ready ≡ true }
    {
        match request {
            Request::Nothing => Ok(Change::Memory),
            Request::Load {
                kind,
                address,
                target,
            } => self.load(vcpu, kind, address, target),
            Request::Store {
                kind,
                address,
                value,
            } => self.store(vcpu, kind, address, value),
            Request::LoadLinked { address, target } => {
                match self.load_linked(vcpu, address, target) {
                    Ok(()) => Ok(Change::Machine),
                    Err(exception) => Err(exception),
                }
            }
            Request::StoreConditional {
                address,
                value,
                target,
            } => match self.store_conditional(vcpu, address, value, target) {
                Ok(()) => Ok(Change::Machine),
                Err(exception) => Err(exception),
            },
            Request::ReadCp0 { number, target } => {
                self.read_cp0(vcpu, number, target);
                Ok(Change::Memory)
            }
            Request::WriteCp0 { number, value } => {
                self.write_cp0(vcpu, number, value);
                Ok(Change::Machine)
            }
            Request::System(op) => {
                self.do_system(vcpu, op);
                Ok(Change::Machine)
            }
        }
    }

    /// The instruction at the program counter, or the exception that it raises; and what it changed.
    #[inline(always)]
    fn attempt(&mut self, vcpu: VcpuId, fetched: &mut Option<KeptPage>) -> Result<Change, Exception>
        requires sound { IsSound self.old }
        requires there { vcpu.0 < length (machine_of self.old).vcpus }
        requires ready { self.old.ready ≡ true }
        requires fetched { IsKeptPage Fetch (space_of (vcpu_at (machine_of self.old) vcpu.0)) self.old.pages fetched.old }
        ensures sound { IsSound self.new }
        ensures attempts { Attempts (attempted (machine_of self.old) vcpu.0) (machine_of self.old) (machine_of self.new) result }
        ensures keeps { result ≡ Ok changes.Memory → Keeps (machine_of self.old) vcpu.0 (machine_of self.new) }
        ensures ready { result ≡ Ok changes.Memory → self.new.ready ≡ true }
        ensures fetched { IsKeptPage Fetch (space_of (vcpu_at (machine_of self.old) vcpu.0)) self.old.pages fetched.new }
    {
        let word = self.fetch(vcpu, fetched)?;
        let request = self.begin(vcpu, word)?;
        self.answer(vcpu, request)
    }

    /// An interrupt, or the instruction at the program counter, and what it changed. Before a quiet step no interrupt is looked for.
    #[inline(always)]
    fn act(&mut self, vcpu: VcpuId, quiet: bool, fetched: &mut Option<KeptPage>) -> Change
        requires sound { IsSound self.old }
        requires there { vcpu.0 < length (machine_of self.old).vcpus }
        requires ready { self.old.ready ≡ true }
        requires quiet { quiet ≡ true → interrupts (vcpu_at (machine_of self.old) vcpu.0).cp0 ≡ false }
        requires fetched { IsKeptPage Fetch (space_of (vcpu_at (machine_of self.old) vcpu.0)) self.old.pages fetched.old }
        ensures sound { IsSound self.new }
        ensures acted { machine_of self.new ≡ acted (machine_of self.old) vcpu.0 }
        ensures keeps { result ≡ changes.Memory → Keeps (machine_of self.old) vcpu.0 (machine_of self.new) }
        ensures ready { result ≡ changes.Memory → self.new.ready ≡ true }
        ensures fetched { IsKeptPage Fetch (space_of (vcpu_at (machine_of self.old) vcpu.0)) self.old.pages fetched.new }
    {
        if !quiet && self.vcpu(vcpu).cp0.pending() {
            self.raise(vcpu, Exception::Interrupt);
            return Change::Machine;
        }
        match self.attempt(vcpu, fetched) {
            Ok(change) => change,
            Err(exception) => {
                self.raise(vcpu, exception);
                Change::Machine
            }
        }
    }

    /// Before a step of virtual processor 0 the input whose time has come joins the queue.
    #[inline]
    fn join(&mut self, vcpu: VcpuId)
        requires sound { IsSound self.old }
        requires there { vcpu.0 < length (machine_of self.old).vcpus }
        ensures sound { IsSound self.new }
        ensures ready { self.new.ready ≡ self.old.ready }
        ensures joined { machine_of self.new ≡ joined (machine_of self.old) vcpu.0 }
    {
        if vcpu.0 == 0 {
            let steps = self.vcpus[0].steps;
            self.devs.join_by(&mut self.vcpus, steps);
        }
    }

    /// Before a step: input that is due joins, where the window doesn't say that nothing comes. Whether nothing does.
    #[inline(always)]
    fn prepare(&mut self, vcpu: VcpuId, window: &mut Window) -> bool
        requires sound { IsSound self.old }
        requires there { vcpu.0 < length (machine_of self.old).vcpus }
        requires window { IsWindow (machine_of self.old) vcpu.0 window.old }
        requires running { (vcpu_at (machine_of self.old) vcpu.0).halted ≡ false }
        ensures sound { IsSound self.new }
        ensures ready { self.new.ready ≡ self.old.ready }
        ensures count { length (machine_of self.new).vcpus ≡ length (machine_of self.old).vcpus }
        ensures joined { machine_of self.new ≡ joined (machine_of self.old) vcpu.0 }
        ensures quiet { result ≡ true → interrupts (vcpu_at (machine_of self.new) vcpu.0).cp0 ≡ false }
        ensures window { IsWindow (machine_of self.new) vcpu.0 window.new }
    {
        if window.quiet == 0 {
            window.quiet = quiet_steps(&self.vcpus, &self.devs, vcpu);
        }
        if window.quiet == 0 {
            self.join(vcpu);
            return false;
        }
        true
    }

    /// Whether a virtual processor makes a step, as it hasn't halted; there is room for what the step may print and send then. Before a quiet
    /// step both are known.
    #[inline(always)]
    fn starts(&mut self, vcpu: VcpuId, window: &Window) -> Result<bool, AllocError>
        requires sound { IsSound self.old }
        requires there { vcpu.0 < length (machine_of self.old).vcpus }
        requires window { IsWindow (machine_of self.old) vcpu.0 window.now }
        requires ready { 0 < window.now.quiet → self.old.ready ≡ true }
        ensures sound { IsSound self.new }
        ensures same { machine_of self.new ≡ machine_of self.old }
        ensures starts { IfOk result (λ b. b ≡ not (vcpu_at (machine_of self.old) vcpu.0).halted) }
        ensures ready { result ≡ Ok true → self.new.ready ≡ true }
        ensures unknown { result ≢ Ok true → window.now.quiet ≡ 0 }
    {
        if window.quiet > 0 {
            return Ok(true);
        }
        if self.vcpu(vcpu).halted {
            return Ok(false);
        }
        self.make_ready()?;
        Ok(true)
    }

    /// One step of a virtual processor; one that has halted changes nothing. The window is what it goes by, and the next one.
    #[inline(never)]
    fn own_step(&mut self, vcpu: VcpuId, window: &mut Window) -> Result<(), AllocError>
        requires sound { IsSound self.old }
        requires there { vcpu.0 < length (machine_of self.old).vcpus }
        requires window { IsWindow (machine_of self.old) vcpu.0 window.old }
        requires ready { 0 < window.old.quiet → self.old.ready ≡ true }
        ensures sound { IsSound self.new }
        ensures count { length (machine_of self.new).vcpus ≡ length (machine_of self.old).vcpus }
        ensures stepped { OnOk result (machine_of self.new ≡ own_step (machine_of self.old) vcpu.0) }
        ensures refused { OnErr result (machine_of self.new ≡ machine_of self.old) }
        ensures window { IsWindow (machine_of self.new) vcpu.0 window.new }
        ensures ready { 0 < window.new.quiet → self.new.ready ≡ true }
    {
        quiet_steps_pass();
        if !self.starts(vcpu, window)? {
            return Ok(());
        }
        let quiet = self.prepare(vcpu, window);
        let change = self.act(vcpu, quiet, &mut window.pages.fetched);
        self.tick(vcpu);
        match change {
            Change::Memory => window.quiet = window.quiet.saturating_sub(1),
            Change::Machine => *window = Window::new(),
        }
        Ok(())
    }

    /// So many steps of a virtual processor. Where memory is wanting, some of them were made.
    #[inline(never)]
    pub fn run(&mut self, vcpu: VcpuId, steps: u64) -> Result<(), AllocError>
        requires sound { IsSound self.old }
        requires there { vcpu.0 < length (machine_of self.old).vcpus }
        ensures sound { IsSound self.new }
        ensures count { length (machine_of self.new).vcpus ≡ length (machine_of self.old).vcpus }
        ensures made { OnOk result (machine_of self.new ≡ private_run (machine_of self.old) (replicate steps (Step vcpu))) }
        ensures wants { OnErr result (MadeSome (machine_of self.old) vcpu steps (machine_of self.new)) }
    {
        let mut window = Window::new();
        let mut made = 0;
        while made < steps {
            self.look_ahead(vcpu, &mut window)?;
            made += self.run_ahead(vcpu, steps - made, &mut window);
            if made < steps {
                self.own_step(vcpu, &mut window)?;
                made += 1;
            }
        }
        Ok(())
    }

    /// A packet comes into the page that is armed; where none is nothing changes.
    pub fn own_packet(&mut self, from: GuestId, bytes: &[u8])
        requires sound { IsSound self.old }
        requires some { 0 < length (machine_of self.old).vcpus }
        requires few { length bytes.now ≤ 4096 }
        ensures sound { IsSound self.new }
        ensures ready { self.new.ready ≡ self.old.ready }
        ensures count { length (machine_of self.new).vcpus ≡ length (machine_of self.old).vcpus }
        ensures came { machine_of self.new ≡ own_packet (machine_of self.old) from.0 bytes.now }
    {
        if let Some(page) = self.devs.armed() {
            fill_page(&mut self.memory, self.pages, page.0, bytes);
            unlink_page(&mut self.vcpus, page);
            self.devs
                .packet_by(&mut self.vcpus, from, bytes.len() as u32);
        }
    }
}
