//! Steps of a virtual processor, one after the other, before which nothing comes and which touch nothing but registers and memory.
ghost use Rattle.std.specs.Prelude.{◌≡◌, ◌+◌, ◌*◌, ◌/◌, ◌%◌, ◌^◌, ◌==◌, ◌≤◌, ◌<◌, IfSome, length, map, true, false, slice_index_or};
ghost use Rattle.base_words.specs.Instruction.{advanced, register, with_register};
ghost use Rattle.base_words.specs.Memory.{word_at, with_word};
ghost use Rattle.base_words.specs.Merging.{load_unit as load_unit_of, store_unit as store_unit_of, loaded_value as value_of, stored_word as word_of};
ghost use Rattle.private_machine.specs.Links.{line_of as line_of_offset, unlinked, word_offset};
ghost use Rattle.private_machine.specs.Showing.{shown_by};
ghost use Rattle.private_machine.specs.Vcpu.{no_vcpu, space_of, with_registers};
ghost use Rattle.flat_machine.specs.Parts.{Answers, Goes, GoesAt};
ghost use Rattle.flat_machine.specs.Stretches.{IsOfMemory};
ghost use Rattle.flat_machine.specs.Windows.{AreKept, IsKeptPage, IsPageOf};

use crate::accesses::line_of;
use crate::memory::{page_from, set_word_around, word_around};
use crate::window::{KeptPage, KeptPages};
use base_words::{LoadKind, PAGE_SIZE, Place, Register, Regs, Request, StoreKind, Use};
use guest_devs::quiet_steps_pass;
use mips_alu::{advance, load_unit, loaded_value, read, store_unit, stored_word, write};
use mips_retire::shown_stays;
use page_ops::{Memo, straight};
use private_machine::{Vcpu, redirected, unlink_all};

/// Whether an address is a multiple of what its access needs.
#[inline(always)]
fn is_multiple(address: u32, unit: u32) -> bool
    requires { 0 < unit }
    ensures { result ≡ (address % unit == 0) }
{
    match unit {
        1 => true,
        2 => address % 2 == 0,
        4 => address % 4 == 0,
        _ => address % unit == 0,
    }
}

/// Where the page begins to which an address leads, if it leads to memory.
#[inline(never)]
fn reach_far(current: &Vcpu, pages: u32, purpose: Use, address: u32) -> Option<u64>
    ensures { IfSome result (λ start. IsPageOf purpose (space_of current.now) pages (record { number = address / 4096; start = start })) }
{
    let Ok(Place::Memory(offset)) = current.place(pages, 1, purpose, address) else {
        return None;
    };
    Some(offset - u64::from(address % PAGE_SIZE))
}

/// Where the page begins to which an aligned address leads, by the page that is kept or by the one that is kept then.
#[inline(always)]
fn reach(
    current: &Vcpu,
    pages: u32,
    kept: &mut Option<KeptPage>,
    purpose: Use,
    unit: u32,
    address: u32,
) -> Option<u64>
    requires some { 0 < unit }
    requires kept { IsKeptPage purpose (space_of current.now) pages kept.old }
    ensures page { IfSome result (λ start. IsPageOf purpose (space_of current.now) pages (record { number = address / 4096; start = start })) }
    ensures aligned { IfSome result (λ _. address % unit ≡ 0) }
    ensures kept { IsKeptPage purpose (space_of current.now) pages kept.new }
{
    if !is_multiple(address, unit) {
        return None;
    }
    if let Some(page) = *kept
        && page.number == address / PAGE_SIZE
    {
        return Some(page.start);
    }
    let start = reach_far(current, pages, purpose, address)?;
    *kept = Some(KeptPage {
        number: address / PAGE_SIZE,
        start,
    });
    Some(start)
}

/// A load from the page that begins there, which is passed.
#[inline(always)]
fn load_from(
    regs: &mut Regs,
    memory: &[u8],
    pages: u32,
    start: u64,
    kind: LoadKind,
    address: u32,
    target: Register,
)
    requires whole { length memory.now ≡ 4096 * pages }
    requires within { start + 4096 ≤ 4096 * pages }
    requires begins { start % 4096 ≡ 0 }
    requires aligned { address % load_unit_of kind ≡ 0 }
    ensures { regs.new ≡ with_register (advanced regs.old) target (value_of kind (word_at memory.now (word_offset (start + address % 4096))) (register (advanced regs.old) target) ((start + address % 4096) % 4)) }
{
    let word = word_around(memory, pages, start + u64::from(address % PAGE_SIZE));
    advance(regs);
    let value = loaded_value(kind, word, read(regs, target), address % 4);
    write(regs, target, value);
}

/// A store into the page that begins there, after which no other virtual processor links its line.
#[inline(always)]
fn store_into(
    before: &mut [Vcpu],
    behind: &mut [Vcpu],
    memory: &mut [u8],
    pages: u32,
    start: u64,
    kind: StoreKind,
    address: u32,
    value: u32,
)
    requires whole { length memory.old ≡ 4096 * pages }
    requires within { start + 4096 ≤ 4096 * pages }
    requires physical { start + 4096 ≤ 2 ^ 36 }
    requires begins { start % 4096 ≡ 0 }
    requires aligned { address % store_unit_of kind ≡ 0 }
    ensures memory { memory.new ≡ with_word memory.old (word_offset (start + address % 4096)) (word_of kind (word_at memory.old (word_offset (start + address % 4096))) value ((start + address % 4096) % 4)) }
    ensures before { before.new ≡ map (unlinked (line_of_offset (start + address % 4096))) before.old }
    ensures behind { behind.new ≡ map (unlinked (line_of_offset (start + address % 4096))) behind.old }
{
    let offset = start + u64::from(address % PAGE_SIZE);
    let word = stored_word(kind, word_around(memory, pages, offset), value, address % 4);
    set_word_around(memory, pages, offset, word);
    let line = line_of(offset);
    unlink_all(before, line);
    unlink_all(behind, line);
}

/// Does a load or a store of memory. Whether it did: if not nothing changes but the pages that are kept.
#[inline(always)]
fn touch(
    before: &mut [Vcpu],
    current: &mut Vcpu,
    behind: &mut [Vcpu],
    memory: &mut [u8],
    pages: u32,
    kept: &mut KeptPages,
    request: Request,
) -> bool
    requires whole { length memory.old ≡ 4096 * pages }
    requires kept { AreKept (space_of current.old) pages kept.old }
    ensures whole { length memory.new ≡ length memory.old }
    ensures current { current.new ≡ with_registers current.new.registers current.old }
    ensures before_shows { map shown_by before.new ≡ map shown_by before.old }
    ensures behind_shows { map shown_by behind.new ≡ map shown_by behind.old }
    ensures kept { AreKept (space_of current.old) pages kept.new }
    ensures memory { result ≡ true → IsOfMemory request }
    ensures answers { result ≡ true → Answers pages (space_of current.old) request (record { before = before.old; registers = current.old.registers; behind = behind.old; memory = memory.old }) (record { before = before.new; registers = current.new.registers; behind = behind.new; memory = memory.new }) }
    ensures zero { slice_index_or current.old.registers.general 0 0 ≡ 0 → slice_index_or current.new.registers.general 0 0 ≡ 0 }
    ensures same { result ≡ false → (current.new ≡ current.old) × (before.new ≡ before.old) × (behind.new ≡ behind.old) × (memory.new ≡ memory.old) }
{
    match request {
        Request::Load {
            kind,
            address,
            target,
        } => {
            let unit = load_unit(kind);
            let reached = reach(current, pages, &mut kept.loaded, Use::Load, unit, address);
            let Some(start) = reached else {
                return false;
            };
            load_from(
                &mut current.registers,
                memory,
                pages,
                start,
                kind,
                address,
                target,
            );
            true
        }
        Request::Store {
            kind,
            address,
            value,
        } => {
            let unit = store_unit(kind);
            let reached = reach(current, pages, &mut kept.stored, Use::Store, unit, address);
            let Some(start) = reached else {
                return false;
            };
            store_into(before, behind, memory, pages, start, kind, address, value);
            advance(&mut current.registers);
            true
        }
        _ => false,
    }
}

/// Steps of a virtual processor between others, as long as each touches nothing but registers and memory: no more than `most`, and how
/// many. Nothing comes before them. It hasn't ticked yet.
#[inline(always)]
fn run_between(
    before: &mut [Vcpu],
    current: &mut Vcpu,
    behind: &mut [Vcpu],
    memory: &mut [u8],
    pages: u32,
    memo: &mut Memo,
    is_open: bool,
    kept: &mut KeptPages,
    most: u64,
) -> u64
    requires whole { length memory.old ≡ 4096 * pages }
    requires kept { AreKept (space_of current.old) pages kept.old }
    ensures few { result ≤ most }
    ensures whole { length memory.new ≡ length memory.old }
    ensures current { current.new ≡ with_registers current.new.registers current.old }
    ensures before_shows { map shown_by before.new ≡ map shown_by before.old }
    ensures behind_shows { map shown_by behind.new ≡ map shown_by behind.old }
    ensures kept { AreKept (space_of current.old) pages kept.new }
    ensures goes { Goes pages is_open current.old result (record { before = before.old; registers = current.old.registers; behind = behind.old; memory = memory.old }) (record { before = before.new; registers = current.new.registers; behind = behind.new; memory = memory.new }) }
{
    quiet_steps_pass();
    let mut made = 0;
    if current.registers.general[0] != 0 {
        return 0;
    }
    while made < most && current.registers.slot.is_none() {
        let pc = current.registers.pc;
        let reached = reach(current, pages, &mut kept.fetched, Use::Fetch, 4, pc);
        let Some(start) = reached else {
            break;
        };
        let bytes = page_from(memory, pages, start);
        let stretch = straight(&mut current.registers, bytes, memo.places(), most - made);
        made += stretch.made;
        let Some(stop) = stretch.stop else {
            continue;
        };
        let Some(request) = stop.asks else {
            break;
        };
        let asked = redirected(is_open, request);
        if !touch(before, current, behind, memory, pages, kept, asked) {
            break;
        }
        made += 1;
    }
    made
}

/// Steps of a virtual processor, as long as each touches nothing but registers and memory: no more than `most`, and how many. Nothing comes
/// before them.
#[inline(always)]
pub fn run_at(
    vcpus: &mut [Vcpu],
    vcpu: usize,
    memory: &mut [u8],
    pages: u32,
    memo: &mut Memo,
    is_open: bool,
    kept: &mut KeptPages,
    most: u64,
) -> u64
    requires there { vcpu < length vcpus.old }
    requires whole { length memory.old ≡ 4096 * pages }
    requires kept { AreKept (space_of (slice_index_or vcpus.old vcpu no_vcpu)) pages kept.old }
    ensures few { result ≤ most }
    ensures whole { length memory.new ≡ length memory.old }
    ensures shows { map shown_by vcpus.new ≡ map shown_by vcpus.old }
    ensures kept { AreKept (space_of (slice_index_or vcpus.new vcpu no_vcpu)) pages kept.new }
    ensures went { GoesAt pages is_open vcpu result vcpus.old memory.old vcpus.new memory.new }
{
    shown_stays();
    let (before, rest) = vcpus.split_at_mut(vcpu);
    let (one, behind) = rest.split_at_mut(1);
    let current = &mut one[0];
    let made = run_between(
        before, current, behind, memory, pages, memo, is_open, kept, most,
    );
    current.tick_by(made);
    made
}
