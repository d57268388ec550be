//! Steps of a processor, one after the other.
ghost use Rattle.std.specs.Prelude.{◌≡◌, ◌≤◌, ◌<◌, ◌&&◌, ◌%◌, true, false, not, is_some, slice_index};
ghost use Rattle.base_words.specs.declared.exception.Use.TheVariants.{Fetch as fetches, Load as loads, Store as stores};
ghost use Rattle.hw_tlb.specs.Tlb.{halves};
ghost use Rattle.private_machine.specs.Serving.{AllServe};
ghost use Rattle.hw_cpu.specs.Steps.{sight_of};
ghost use Rattle.hw_cpu.specs.KeptPages.{IsKeptPage, IsQuietPage};
ghost use Rattle.hw_cpu.specs.Runs.{IsPlainAccess, RunsOpen, Touches};

use crate::accesses::{load, store};
use crate::reaching::{KeptPage, Mode, Wanted, fetch, reach_quietly};
use crate::{Bus, Unnoted};
use base_words::{Regs, Request, Use};
use hw_tlb::HwTlb;
use mips_alu::{advance, load_unit, store_unit};
use page_ops::{Memo, memory_words_are_unprivileged, straight};
use private_machine::redirected;

/// Does a load or a store that leaves nothing to note. Whether it did: if not nothing changes.
#[inline(always)]
fn touch_quietly<B: Bus, U: Unnoted>(
    regs: &mut Regs,
    mode: Mode,
    tlb: &HwTlb,
    bus: &mut B,
    unnoted: &U,
    loaded: &mut Option<KeptPage>,
    stored: &mut Option<KeptPage>,
    request: Request,
) -> bool
    requires serves { AllServe (B.held bus.old) (halves tlb.now) }
    requires zero { slice_index regs.old.general 0 ≡ 0 }
    requires loaded { IsQuietPage (U.unnoted unnoted.now) loads (sight_of mode.user mode.asid false (halves tlb.now) (B.site bus.old)) loaded.old }
    requires stored { IsQuietPage (U.unnoted unnoted.now) stores (sight_of mode.user mode.asid false (halves tlb.now) (B.site bus.old)) stored.old }
    ensures names { B.names bus.new ≡ B.names bus.old }
    ensures site { B.site bus.new ≡ B.site bus.old }
    ensures serves { AllServe (B.held bus.new) (halves tlb.now) }
    ensures zero { slice_index regs.new.general 0 ≡ 0 }
    ensures loaded { IsQuietPage (U.unnoted unnoted.now) loads (sight_of mode.user mode.asid false (halves tlb.now) (B.site bus.old)) loaded.new }
    ensures stored { IsQuietPage (U.unnoted unnoted.now) stores (sight_of mode.user mode.asid false (halves tlb.now) (B.site bus.old)) stored.new }
    ensures memory { result ≡ true → IsPlainAccess request }
    ensures touches { result ≡ true → Touches (U.unnoted unnoted.now) (sight_of mode.user mode.asid false (halves tlb.now) (B.site bus.old)) (B.site bus.old).stepping request regs.old (B.held bus.old) regs.new (B.held bus.new) }
    ensures regs { result ≡ false → regs.new ≡ regs.old }
    ensures held { result ≡ false → B.held bus.new ≡ B.held bus.old }
{
    match request {
        Request::Load {
            kind,
            address,
            target,
        } => {
            let wanted = Wanted {
                purpose: Use::Load,
                unit: load_unit(kind),
                address,
            };
            let Some(at) = reach_quietly(mode, tlb, bus, unnoted, loaded, wanted) else {
                return false;
            };
            load(regs, bus, at, kind, address, target);
            true
        }
        Request::Store {
            kind,
            address,
            value,
        } => {
            let wanted = Wanted {
                purpose: Use::Store,
                unit: store_unit(kind),
                address,
            };
            let Some(at) = reach_quietly(mode, tlb, bus, unnoted, stored, wanted) else {
                return false;
            };
            store(bus, at, kind, address, value);
            advance(regs);
            true
        }
        _ => false,
    }
}

/// Makes steps, at most so many, as long as each leaves nothing to note and no register of coprocessor 0 is asked for; and tells how many.
/// No interrupt comes before them. `is_open` tells whether there is a register page that is open, and `last` is what the fetches of the last
/// page reached, as long as the mode, the address space and the TLB stay.
#[inline(always)]
pub fn run<B: Bus, U: Unnoted>(
    regs: &mut Regs,
    is_open: bool,
    user: bool,
    asid: u8,
    tlb: &HwTlb,
    bus: &mut B,
    memo: &mut Memo,
    unnoted: &U,
    last: &mut Option<KeptPage>,
    most: u64,
) -> u64
    requires serves { AllServe (B.held bus.old) (halves tlb.now) }
    requires last { IsKeptPage fetches (sight_of user asid false (halves tlb.now) (B.site bus.old)) last.old }
    ensures names { B.names bus.new ≡ B.names bus.old }
    ensures site { B.site bus.new ≡ B.site bus.old }
    ensures few { result ≤ most }
    ensures runs { RunsOpen (U.unnoted unnoted.now) result (sight_of user asid false (halves tlb.now) (B.site bus.old)) is_open (B.site bus.old).stepping regs.old (B.held bus.old) regs.new (B.held bus.new) }
    ensures last { IsKeptPage fetches (sight_of user asid false (halves tlb.now) (B.site bus.old)) last.new }
{
    memory_words_are_unprivileged();
    let mode = Mode { user, asid };
    let mut loaded = None;
    let mut stored = None;
    let mut made = 0;
    if regs.general[0] != 0 {
        return 0;
    }
    while made < most && regs.slot.is_none() {
        let Some(at) = fetch(mode, tlb, bus, last, regs.pc) else {
            break;
        };
        let bytes = bus.bytes(at.page, at.frame);
        let stretch = straight(regs, bytes, memo.places(), most - made);
        made += stretch.made;
        let Some(stop) = stretch.stop else {
            continue;
        };
        let Some(request) = stop.asks else {
            break;
        };
        let asked = redirected(is_open, request);
        if !touch_quietly(
            regs,
            mode,
            tlb,
            bus,
            unnoted,
            &mut loaded,
            &mut stored,
            asked,
        ) {
            break;
        }
        made += 1;
    }
    made
}
