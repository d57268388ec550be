//! What an access reaches through the TLB.
ghost use Rattle.std.specs.Prelude.{◌≡◌, ℕ, ◌<◌, ◌/◌, ◌%◌, ◌==◌, Bool, true, false, Ok, Err, IfSome, Some, None, find as find_of};
ghost use Rattle.base_words.specs.declared.exception.Use.TheVariants.{Fetch as fetches};
ghost use Rattle.base_words.specs.Halves.{is_of};
ghost use Rattle.base_words.specs.Place.{is_store as is_store_of, segment};
ghost use Rattle.hw_tlb.specs.Tlb.{halves};
ghost use Rattle.hw_tlb.specs.Lookup.{looked_up};
ghost use Rattle.private_machine.specs.Serving.{Backs, BacksAlone, AllServe};
ghost use Rattle.private_machine.specs.Reaching.{Sight, reached, through_half, fetch_at};
ghost use Rattle.hw_cpu.specs.Steps.{sight_of, place_of, want_of, wanted_at, as_wanted, ReachesNone, is_within};
ghost use Rattle.hw_cpu.specs.KeptPages.{IsKeptPage, IsQuietPage};

use crate::{Bus, Unnoted};
use base_words::{FrameNo, Ppn, Use};
use hw_tlb::{HwAnswer, HwTlb};

/// The page and the frame that an access reaches.
#[derive(Clone, Copy, Debug, PartialEq, Eq)]
pub struct Reached {
    pub page: Ppn,
    pub frame: FrameNo,
}

/// An access that is wanted: its address has to be a multiple of `unit`.
#[derive(Clone, Copy, Debug, PartialEq, Eq)]
pub struct Wanted {
    pub purpose: Use,
    pub unit: u32,
    pub address: u32,
}

/// What all accesses of one kind to one virtual page reach.
#[derive(Clone, Copy, Debug, PartialEq, Eq)]
pub struct KeptPage {
    /// The virtual page's number.
    pub number: u32,
    pub at: Reached,
}

/// Why an access reaches no frame.
#[derive(Clone, Copy, Debug, PartialEq, Eq)]
pub enum Lack {
    /// The address isn't aligned, or is out of the mode's ranges.
    Range,
    /// No valid half matches.
    Half,
    /// The half's frame lies in a cell that has failed; with the page of which it is one.
    Dead(Reached),
    /// The half isn't writable.
    Store,
}

/// The mode and the address space in which a processor steps.
#[derive(Clone, Copy, Debug, PartialEq, Eq)]
pub struct Mode {
    pub user: bool,
    pub asid: u8,
}

/// The bytes of a page.
const PAGE: u32 = 4096;

/// Whether an address lies in the mode's ranges.
#[inline(always)]
fn is_in_range(user: bool, address: u32) -> bool
    ensures { result ≡ is_within (segment user address) }
{
    address < 0x8000_0000 || !user && 0xC000_0000 <= address && address < 0xE000_0000
}

#[inline(always)]
fn is_store(purpose: Use) -> bool
    ensures { result ≡ is_store_of purpose }
{
    match purpose {
        Use::Fetch | Use::Load => false,
        Use::Store => true,
    }
}

/// By the half that matches.
#[inline(always)]
fn find<B: Bus>(mode: Mode, tlb: &HwTlb, bus: &B, purpose: Use, address: u32) -> Option<Reached>
    requires { AllServe (B.held bus.now) (halves tlb.now) }
    ensures found { IfSome result (λ at. through_half (sight_of mode.user mode.asid false (halves tlb.now) (B.site bus.now)) (wanted_at purpose 1 address) (find_of (is_of (address / 4096) mode.asid) (halves tlb.now)) ≡ Ok (place_of at)) }
    ensures none { result ≡ None → ReachesNone (through_half (sight_of mode.user mode.asid false (halves tlb.now) (B.site bus.now)) (wanted_at purpose 1 address) (find_of (is_of (address / 4096) mode.asid) (halves tlb.now))) }
    ensures backed { IfSome result (λ at. Backs (B.held bus.now) at.page.0 at.frame.0) }
    ensures alone { IfSome result (λ at. is_store_of purpose ≡ true → BacksAlone (B.held bus.now) at.page.0 at.frame.0) }
{
    match tlb.lookup(address, mode.asid, is_store(purpose)) {
        HwAnswer::Hit(frame, page) => {
            if bus.is_dead(frame) {
                None
            } else {
                Some(Reached { page, frame })
            }
        }
        HwAnswer::Miss | HwAnswer::ReadOnly(..) => None,
    }
}

/// What the TLB says of an access, where nothing was reached.
#[cold]
#[inline(never)]
fn answer_anew(mode: Mode, tlb: &HwTlb, purpose: Use, address: u32) -> HwAnswer
    ensures { result ≡ looked_up (halves tlb.now) address mode.asid (is_store_of purpose) }
{
    tlb.lookup(address, mode.asid, is_store(purpose))
}

/// Why no frame is reached by the half that matches. A frame that is dead counts before a half that isn't writable.
#[inline(always)]
fn find_denial<B: Bus>(mode: Mode, tlb: &HwTlb, bus: &B, purpose: Use, address: u32) -> Lack
    requires serves { AllServe (B.held bus.now) (halves tlb.now) }
    requires none { ReachesNone (through_half (sight_of mode.user mode.asid false (halves tlb.now) (B.site bus.now)) (wanted_at purpose 1 address) (find_of (is_of (address / 4096) mode.asid) (halves tlb.now))) }
    ensures { through_half (sight_of mode.user mode.asid false (halves tlb.now) (B.site bus.now)) (wanted_at purpose 1 address) (find_of (is_of (address / 4096) mode.asid) (halves tlb.now)) ≡ Err (want_of result) }
{
    match answer_anew(mode, tlb, purpose, address) {
        HwAnswer::Hit(frame, page) => Lack::Dead(Reached { page, frame }),
        HwAnswer::Miss => Lack::Half,
        HwAnswer::ReadOnly(frame, page) => {
            if bus.is_dead(frame) {
                Lack::Dead(Reached { page, frame })
            } else {
                Lack::Store
            }
        }
    }
}

/// The page and the frame that an access reaches, if it reaches one.
#[inline(always)]
pub fn reach<B: Bus>(mode: Mode, tlb: &HwTlb, bus: &B, wanted: Wanted) -> Option<Reached>
    requires serves { AllServe (B.held bus.now) (halves tlb.now) }
    requires some { 0 < wanted.unit }
    ensures found { IfSome result (λ at. reached (sight_of mode.user mode.asid false (halves tlb.now) (B.site bus.now)) (as_wanted wanted) ≡ Ok (place_of at)) }
    ensures none { result ≡ None → ReachesNone (reached (sight_of mode.user mode.asid false (halves tlb.now) (B.site bus.now)) (as_wanted wanted)) }
    ensures aligned { IfSome result (λ _. wanted.address % wanted.unit ≡ 0) }
    ensures backed { IfSome result (λ at. Backs (B.held bus.now) at.page.0 at.frame.0) }
    ensures alone { IfSome result (λ at. is_store_of wanted.purpose ≡ true → BacksAlone (B.held bus.now) at.page.0 at.frame.0) }
{
    let Wanted {
        purpose,
        unit,
        address,
    } = wanted;
    if address % unit != 0 || !is_in_range(mode.user, address) {
        return None;
    }
    find(mode, tlb, bus, purpose, address)
}

/// Why an access reaches no frame.
#[inline(always)]
pub fn denial<B: Bus>(mode: Mode, tlb: &HwTlb, bus: &B, wanted: Wanted) -> Lack
    requires serves { AllServe (B.held bus.now) (halves tlb.now) }
    requires some { 0 < wanted.unit }
    requires none { ReachesNone (reached (sight_of mode.user mode.asid false (halves tlb.now) (B.site bus.now)) (as_wanted wanted)) }
    ensures { reached (sight_of mode.user mode.asid false (halves tlb.now) (B.site bus.now)) (as_wanted wanted) ≡ Err (want_of result) }
{
    let Wanted {
        purpose,
        unit,
        address,
    } = wanted;
    if address % unit != 0 || !is_in_range(mode.user, address) {
        return Lack::Range;
    }
    find_denial(mode, tlb, bus, purpose, address)
}

/// The fetch from an address.
#[inline(always)]
pub fn fetch_of(pc: u32) -> Wanted
    ensures fetch { as_wanted result ≡ fetch_at pc }
    ensures some { 0 < result.unit }
{
    Wanted {
        purpose: Use::Fetch,
        unit: 4,
        address: pc,
    }
}

/// What a fetch reaches through the TLB, if anything; all fetches of its page reach it.
#[inline(always)]
pub fn fetch<B: Bus>(
    mode: Mode,
    tlb: &HwTlb,
    bus: &B,
    last: &mut Option<KeptPage>,
    pc: u32,
) -> Option<Reached>
    requires serves { AllServe (B.held bus.now) (halves tlb.now) }
    requires last { IsKeptPage fetches (sight_of mode.user mode.asid false (halves tlb.now) (B.site bus.now)) last.old }
    ensures found { IfSome result (λ at. reached (sight_of mode.user mode.asid false (halves tlb.now) (B.site bus.now)) (fetch_at pc) ≡ Ok (place_of at)) }
    ensures none { result ≡ None → ReachesNone (reached (sight_of mode.user mode.asid false (halves tlb.now) (B.site bus.now)) (fetch_at pc)) }
    ensures backed { IfSome result (λ at. Backs (B.held bus.now) at.page.0 at.frame.0) }
    ensures last { IsKeptPage fetches (sight_of mode.user mode.asid false (halves tlb.now) (B.site bus.now)) last.new }
    ensures kept { IfSome result (λ at. last.new ≡ Some (record { number = pc / 4096; at = at })) }
    ensures aligned { IfSome result (λ _. pc % 4 ≡ 0) }
{
    if let Some(page) = *last
        && page.number == pc / PAGE
        && pc % 4 == 0
    {
        return Some(page.at);
    }
    let at = reach(mode, tlb, bus, fetch_of(pc))?;
    *last = Some(KeptPage {
        number: pc / PAGE,
        at,
    });
    Some(at)
}

/// Whether an address is a multiple of what its access needs.
#[inline(always)]
fn is_multiple(address: u32, unit: u32) -> bool
    requires { 0 < unit }
    ensures { result ≡ (address % unit == 0) }
{
    match unit {
        1 => true,
        2 => address % 2 == 0,
        4 => address % 4 == 0,
        _ => address % unit == 0,
    }
}

/// What an access reaches that the page that is kept doesn't have, by the TLB, where it leaves nothing to note.
#[inline(always)]
fn reach_far<B: Bus, U: Unnoted>(
    mode: Mode,
    tlb: &HwTlb,
    bus: &B,
    unnoted: &U,
    purpose: Use,
    address: u32,
) -> Option<Reached>
    requires serves { AllServe (B.held bus.now) (halves tlb.now) }
    ensures found { IfSome result (λ at. (unit : ℕ) → address % unit ≡ 0 → reached (sight_of mode.user mode.asid false (halves tlb.now) (B.site bus.now)) (wanted_at purpose unit address) ≡ Ok (place_of at)) }
    ensures quiet { IfSome result (λ at. U.unnoted unnoted.now at.page.0 at.frame.0 (is_store_of purpose) ≡ true) }
{
    if !is_in_range(mode.user, address) {
        return None;
    }
    let HwAnswer::Hit(frame, page) = answer_anew(mode, tlb, purpose, address) else {
        return None;
    };
    if bus.is_dead(frame) || !unnoted.is_unnoted(page, frame, is_store(purpose)) {
        return None;
    }
    Some(Reached { page, frame })
}

/// What an access reaches by the page that is kept, or by the TLB, whose page is kept then; where it leaves nothing to note.
#[inline(always)]
pub(crate) fn reach_quietly<B: Bus, U: Unnoted>(
    mode: Mode,
    tlb: &HwTlb,
    bus: &B,
    unnoted: &U,
    kept: &mut Option<KeptPage>,
    wanted: Wanted,
) -> Option<Reached>
    requires serves { AllServe (B.held bus.now) (halves tlb.now) }
    requires some { 0 < wanted.unit }
    requires kept { IsQuietPage (U.unnoted unnoted.now) wanted.purpose (sight_of mode.user mode.asid false (halves tlb.now) (B.site bus.now)) kept.old }
    ensures found { IfSome result (λ at. reached (sight_of mode.user mode.asid false (halves tlb.now) (B.site bus.now)) (as_wanted wanted) ≡ Ok (place_of at)) }
    ensures aligned { IfSome result (λ _. wanted.address % wanted.unit ≡ 0) }
    ensures backed { IfSome result (λ at. Backs (B.held bus.now) at.page.0 at.frame.0) }
    ensures alone { IfSome result (λ at. is_store_of wanted.purpose ≡ true → BacksAlone (B.held bus.now) at.page.0 at.frame.0) }
    ensures quiet { IfSome result (λ at. U.unnoted unnoted.now at.page.0 at.frame.0 (is_store_of wanted.purpose) ≡ true) }
    ensures kept { IsQuietPage (U.unnoted unnoted.now) wanted.purpose (sight_of mode.user mode.asid false (halves tlb.now) (B.site bus.now)) kept.new }
{
    let Wanted {
        purpose,
        unit,
        address,
    } = wanted;
    if !is_multiple(address, unit) {
        return None;
    }
    if let Some(page) = *kept
        && page.number == address / PAGE
    {
        return Some(page.at);
    }
    let at = reach_far(mode, tlb, bus, unnoted, purpose, address)?;
    *kept = Some(KeptPage {
        number: address / PAGE,
        at,
    });
    Some(at)
}
