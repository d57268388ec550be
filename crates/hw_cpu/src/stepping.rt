//! One step of a processor. What takes the bus is inlined: a bus whose address a call takes stands in memory, and is put there in each step.
ghost use Rattle.std.specs.Prelude.{◌≡◌, ◌≢◌, ◌<◌, ◌%◌, ◌&&◌, ℕ, true, false, not, is_some, Option, Some, None, IfSome, if◌then◌else◌, option_map};
ghost use Rattle.base_words.specs.declared.exception.Use.TheVariants.{Fetch as fetches};
ghost use Rattle.base_words.specs.declared.trap.HwStep.TheVariants.{Direct};
ghost use Rattle.base_words.specs.Instruction.{advanced, effect};
ghost use Rattle.base_words.specs.OpcodeMap.{decoded};
ghost use Rattle.base_words.specs.Place.{is_store as is_store_of};
ghost use Rattle.mips_alu.specs.Execution.{passed, passed_system, Executes};
ghost use Rattle.hw_tlb.specs.Tlb.{halves};
ghost use Rattle.private_machine.specs.declared.register_page.RegBlock.{RegBlock};
ghost use Rattle.private_machine.specs.RegisterPage.{block_after, opened, read_from, written_to};
ghost use Rattle.private_machine.specs.Backing.{Held};
ghost use Rattle.private_machine.specs.Reaching.{Lack as Want, Wanted as Asked, Reached as Place, wanted, reached, fetch_at};
ghost use Rattle.private_machine.specs.OwnStep.{is_privileged as is_privileged_of};
ghost use Rattle.private_machine.specs.HardwareStep.{accesses, fetch_trap, data_trap, cause_of};
ghost use Rattle.private_machine.specs.DirectAccess.{outcome_of, hardware_outcome, accessed_through, data_told, store_told, load_told};
ghost use Rattle.private_machine.specs.Serving.{AllServe, Backs, BacksAlone};
ghost use Rattle.hw_cpu.specs.Steps.{sight_of, with_page, place_of, as_wanted, left_by, ReachesNone, Causes, Does};
ghost use Rattle.hw_cpu.specs.KeptPages.{IsKeptPage};

use crate::Bus;
use crate::accesses::{load, load_linked, store, store_conditional, word_at};
use crate::reaching::{KeptPage, Lack, Mode, Reached, Wanted, denial, fetch, fetch_of, reach};
use base_words::{
    Access, Cp0Op, DataAccess, Exception, HwStep, Register, Regs, Request, TrapCause, Use,
};
use hw_tlb::HwTlb;
use mips_alu::{advance, execute, load_unit, store_unit, write};
use mips_isa::decode;
use private_machine::{RegBlock, redirected};

/// The primary opcode of coprocessor 0.
const COPROCESSOR_0: u32 = 16;

/// Whether a word is of coprocessor 0.
#[inline(always)]
fn is_privileged(word: u32) -> bool
    ensures { result ≡ is_privileged_of word }
{
    word >> 26 == COPROCESSOR_0
}

/// Why a fetch traps.
#[inline(always)]
fn fetch_cause<B: Bus>(mode: Mode, tlb: &HwTlb, bus: &B, pc: u32) -> TrapCause
    requires serves { AllServe (B.held bus.now) (halves tlb.now) }
    requires none { ReachesNone (reached (sight_of mode.user mode.asid false (halves tlb.now) (B.site bus.now)) (fetch_at pc)) }
    ensures { Causes (λ (why : Want). cause_of (fetch_trap (fetch_at pc) why)) (reached (sight_of mode.user mode.asid false (halves tlb.now) (B.site bus.now)) (fetch_at pc)) result }
{
    match denial(mode, tlb, bus, fetch_of(pc)) {
        Lack::Range => TrapCause::Address(None),
        Lack::Half | Lack::Store => TrapCause::FetchMiss,
        Lack::Dead(at) => TrapCause::Dead(at.frame),
    }
}

/// Why the data access of an instruction's word traps.
#[inline(always)]
fn data_cause<B: Bus>(mode: Mode, tlb: &HwTlb, bus: &B, wanted: Wanted, word: u32) -> TrapCause
    requires serves { AllServe (B.held bus.now) (halves tlb.now) }
    requires some { 0 < wanted.unit }
    requires none { ReachesNone (reached (sight_of mode.user mode.asid false (halves tlb.now) (B.site bus.now)) (as_wanted wanted)) }
    ensures { Causes (λ (why : Want). cause_of (data_trap word (as_wanted wanted) why)) (reached (sight_of mode.user mode.asid false (halves tlb.now) (B.site bus.now)) (as_wanted wanted)) result }
{
    match denial(mode, tlb, bus, wanted) {
        Lack::Range => TrapCause::Address(Some(word)),
        Lack::Half => TrapCause::DataMiss(word),
        Lack::Dead(at) => TrapCause::Dead(at.frame),
        Lack::Store => TrapCause::ReadOnly(word),
    }
}

/// What an instruction asks of memory, if anything.
#[inline(always)]
fn asked(request: &Request) -> Option<Wanted>
    ensures wanted { option_map as_wanted result ≡ wanted request.now }
    ensures some { IfSome result (λ w. 0 < w.unit) }
{
    match *request {
        Request::Load { kind, address, .. } => Some(Wanted {
            purpose: Use::Load,
            unit: load_unit(kind),
            address,
        }),
        Request::Store { kind, address, .. } => Some(Wanted {
            purpose: Use::Store,
            unit: store_unit(kind),
            address,
        }),
        Request::LoadLinked { address, .. } => Some(Wanted {
            purpose: Use::Load,
            unit: 4,
            address,
        }),
        Request::StoreConditional { address, .. } => Some(Wanted {
            purpose: Use::Store,
            unit: 4,
            address,
        }),
        Request::Nothing
        | Request::ReadCp0 { .. }
        | Request::WriteCp0 { .. }
        | Request::System(_) => None,
    }
}

/// A step that was made, with its data access.
#[inline(always)]
fn direct(fetched: Reached, access: DataAccess) -> HwStep
    ensures { result ≡ Direct (record { fetched = fetched.frame; «data» = access }) }
{
    HwStep::Direct(Access {
        fetched: fetched.frame,
        data: access,
    })
}

/// A register is read on the register page, if there is one, and the instruction is passed.
#[inline(always)]
fn read_page(regs: &mut Regs, block: Option<RegBlock>, number: Register, target: Register)
    ensures { regs.new ≡ read_from block (advanced regs.old) number target }
{
    advance(regs);
    match block {
        Some(page) => write(regs, target, page.word(number)),
        None => {}
    }
}

/// The register page, if there is one, after a register was written on it.
#[inline(always)]
fn write_page(block: Option<RegBlock>, number: Register, value: u32) -> Option<RegBlock>
    ensures { result ≡ written_to block number value }
{
    match block {
        Some(page) => Some(page.written(number, value)),
        None => None,
    }
}

/// Passes an instruction of the TLB; the return from an exception leads on by itself.
#[inline(always)]
fn pass_system(regs: &mut Regs, op: Cp0Op)
    ensures { regs.new ≡ passed_system op regs.old }
{
    if op != Cp0Op::ExceptionReturn {
        advance(regs);
    }
}

/// Passes an instruction that asks nothing of memory, with what it asks of a register on the register page, and answers that page. One of
/// coprocessor 0 itself never comes here.
#[inline(always)]
fn pass(regs: &mut Regs, block: Option<RegBlock>, request: Request) -> Option<RegBlock>
    requires { wanted request ≡ None }
    ensures block { result ≡ block_after request block }
    ensures after { (v : ℕ) (at : Place) (held : Held) → accessed_through v block at (passed request regs.old) request held ≡ record { registers = regs.new; held = held } }
{
    match request {
        Request::Nothing => block,
        Request::ReadCp0 { number, target } => {
            read_page(regs, block, number, target);
            block
        }
        Request::WriteCp0 { number, value } => {
            let after = write_page(block, number, value);
            advance(regs);
            after
        }
        Request::System(op) => {
            pass_system(regs, op);
            block
        }
        Request::Load { .. }
        | Request::Store { .. }
        | Request::LoadLinked { .. }
        | Request::StoreConditional { .. } => unreachable!(),
    }
}

/// Carries out what an instruction asks of the frame that it reaches, and passes it.
#[inline(always)]
fn touch<B: Bus>(regs: &mut Regs, bus: &mut B, at: Reached, request: Request) -> DataAccess
    requires asks { wanted request ≢ None }
    requires backed { Backs (B.held bus.old) at.page.0 at.frame.0 }
    requires alone { (w : Asked) → wanted request ≡ Some w → is_store_of w.purpose ≡ true → BacksAlone (B.held bus.old) at.page.0 at.frame.0 }
    requires aligned { (w : Asked) → wanted request ≡ Some w → w.address % w.unit ≡ 0 }
    ensures names { B.names bus.new ≡ B.names bus.old }
    ensures site { B.site bus.new ≡ B.site bus.old }
    ensures told { result ≡ data_told (B.site bus.old).stepping (place_of at) request (B.held bus.old) }
    ensures after { (block : Option RegBlock) → accessed_through (B.site bus.old).stepping block (place_of at) (passed request regs.old) request (B.held bus.old) ≡ record { registers = regs.new; held = B.held bus.new } }
    ensures block { (block : Option RegBlock) → block_after request block ≡ block }
{
    let Reached { page, frame } = at;
    match request {
        Request::Load {
            kind,
            address,
            target,
        } => {
            load(regs, bus, at, kind, address, target);
            DataAccess::Load { page, frame }
        }
        Request::Store {
            kind,
            address,
            value,
        } => {
            store(bus, at, kind, address, value);
            advance(regs);
            DataAccess::Store { page, frame }
        }
        Request::LoadLinked { address, target } => {
            load_linked(regs, bus, at, address, target);
            DataAccess::Load { page, frame }
        }
        Request::StoreConditional {
            address,
            value,
            target,
        } => {
            let made = store_conditional(regs, bus, at, address, value, target);
            conditional(made, at)
        }
        Request::Nothing
        | Request::ReadCp0 { .. }
        | Request::WriteCp0 { .. }
        | Request::System(_) => unreachable!(),
    }
}

/// What an instruction asked of memory, or of a register on the register page.
#[inline(always)]
fn access<B: Bus>(
    regs: &mut Regs,
    block: &mut Option<RegBlock>,
    mode: Mode,
    tlb: &HwTlb,
    bus: &mut B,
    word: u32,
    fetched: Reached,
    request: Request,
) -> HwStep
    requires { AllServe (B.held bus.old) (halves tlb.now) }
    ensures names { B.names bus.new ≡ B.names bus.old }
    ensures site { B.site bus.new ≡ B.site bus.old }
    ensures does { Does (outcome_of (B.site bus.old).stepping block.old (B.held bus.old) (accesses (sight_of mode.user mode.asid false (halves tlb.now) (B.site bus.old)) word (place_of fetched) (record { registers = passed request regs.old; request = request }) (wanted request))) (left_by regs.old block.old (B.held bus.old)) (left_by regs.new block.new (B.held bus.new)) result }
{
    let Some(wanted) = asked(&request) else {
        *block = pass(regs, *block, request);
        return direct(fetched, DataAccess::NoData);
    };
    match reach(mode, tlb, bus, wanted) {
        Some(at) => direct(fetched, touch(regs, bus, at, request)),
        None => HwStep::Trap(data_cause(mode, tlb, bus, wanted, word)),
    }
}

/// The access of a conditional store; one that isn't made is told as a load.
#[cold]
fn conditional(made: bool, at: Reached) -> DataAccess
    ensures { result ≡ (if made then store_told (place_of at) else load_told (place_of at)) }
{
    let Reached { page, frame } = at;
    if made {
        DataAccess::Store { page, frame }
    } else {
        DataAccess::Load { page, frame }
    }
}

/// What an instruction asks for, once registers are as it leaves them; or what it raises. It is no part of the steps on its own: with it they
/// would be too large to be put into their callers.
fn begin(regs: &mut Regs, word: u32) -> Result<Request, Exception>
    ensures { Executes (effect (decoded word) regs.old) regs.old regs.new result }
{
    execute(&decode(word), regs)
}

/// The same of what has a register page. It stands beside the other so that each has one caller, into which the compiler puts it.
fn begin_paged(regs: &mut Regs, word: u32) -> Result<Request, Exception>
    ensures { Executes (effect (decoded word) regs.old) regs.old regs.new result }
{
    execute(&decode(word), regs)
}

/// The same, where the register page is open of its register.
#[inline(always)]
fn begin_on_page(
    regs: &mut Regs,
    paged: bool,
    is_open: bool,
    word: u32,
) -> Result<Request, Exception>
    requires closed { paged ≡ false → is_open ≡ false }
    ensures { Executes (opened is_open (effect (decoded word) regs.old)) regs.old regs.new result }
{
    if !paged {
        return begin(regs, word);
    }
    match begin_paged(regs, word) {
        Ok(request) => Ok(redirected(is_open, request)),
        Err(exception) => Err(exception),
    }
}

/// Whether the register page is open.
#[inline(always)]
fn is_open_to(block: &Option<RegBlock>, user: bool) -> bool
    ensures { result ≡ (is_some block.now && not user) }
{
    block.is_some() && !user
}

/// Makes one step, or tells why the processor traps, and then nothing changes. `block` is the register page of what runs, in a guest that
/// has it, which `paged` tells; `line` tells whether an interrupt is enabled and pending; `last` is what the fetches of the last page reached, as long as the mode, the address space and the TLB stay.
#[inline(always)]
pub fn step<B: Bus>(
    regs: &mut Regs,
    block: &mut Option<RegBlock>,
    paged: bool,
    user: bool,
    asid: u8,
    line: bool,
    tlb: &HwTlb,
    bus: &mut B,
    last: &mut Option<KeptPage>,
) -> HwStep
    requires paged { paged ≡ is_some block.old }
    requires serves { AllServe (B.held bus.old) (halves tlb.now) }
    requires last { IsKeptPage fetches (sight_of user asid false (halves tlb.now) (B.site bus.old)) last.old }
    ensures names { B.names bus.new ≡ B.names bus.old }
    ensures site { B.site bus.new ≡ B.site bus.old }
    ensures does { Does (hardware_outcome (with_page block.old (sight_of user asid line (halves tlb.now) (B.site bus.old))) (B.site bus.old).stepping (B.held bus.old) regs.old) (left_by regs.old block.old (B.held bus.old)) (left_by regs.new block.new (B.held bus.new)) result }
    ensures last { IsKeptPage fetches (sight_of user asid false (halves tlb.now) (B.site bus.old)) last.new }
{
    if line {
        return HwStep::Trap(TrapCause::Line);
    }
    let mode = Mode { user, asid };
    let Some(at) = fetch(mode, tlb, bus, last, regs.pc) else {
        return HwStep::Trap(fetch_cause(mode, tlb, bus, regs.pc));
    };
    let word = word_at(bus, at, regs.pc);
    if is_privileged(word) {
        return HwStep::Trap(TrapCause::Privileged(word));
    }
    match begin_on_page(regs, paged, is_open_to(block, user), word) {
        Ok(request) => access(regs, block, mode, tlb, bus, word, at, request),
        Err(exception) => HwStep::Trap(TrapCause::Raised(exception)),
    }
}
