//! Where an address leads, by the mode and the guest's TLB.
ghost use Rattle.std.specs.Prelude.{◌≡◌, ◌<◌, ◌+◌, ◌*◌, ◌%◌, ◌^◌, ◌↔◌, false, IsTrue, IfOk};
ghost use Rattle.base_words.specs.Tlb.{looked_up};
ghost use Rattle.base_words.specs.Place.{Mapped, Direct, place as place_of, physical as physical_of, segment, through_tlb, translated, is_store as is_store_of};
ghost use Rattle.private_machine.specs.Translation.{IsWithin, IsPhysical, IsAt, IsAligned};

use base_words::{Exception, Place, TlbAnswer, Use};
use guest_tlb::Tlb48;

/// The guest's physical memory as its kernel reaches it directly.
const DIRECT: u32 = 0xC000_0000;
/// The page of the device registers.
const DEVICE_PAGE: u32 = 0xFFFF;

/// The mode and the address space by which an address is translated.
#[derive(Clone, Copy, Debug, PartialEq, Eq)]
pub struct Space {
    pub user: bool,
    pub asid: u8,
}

/// Whether the kernel reaches its guest's memory at this address directly.
#[inline]
pub fn is_direct(address: u32) -> bool
    ensures { IsTrue result ↔ (segment false address ≡ Direct) }
{
    DIRECT <= address && address < 0xD000_0000
}

/// Whether the TLB maps this address for the kernel.
#[inline]
pub fn is_mapped(address: u32) -> bool
    ensures { IsTrue result ↔ (segment false address ≡ Mapped) }
{
    address < 0x8000_0000 || 0xD000_0000 <= address && address < 0xE000_0000
}

/// Where an offset in a physical page leads in a guest of so many pages.
#[inline]
fn physical(pages: u32, purpose: Use, page: u32, offset: u32) -> Result<Place, Exception>
    requires page { page < 2 ^ 24 }
    requires offset { offset < 4096 }
    ensures place { result ≡ physical_of pages purpose (page * 4096 + offset) }
    ensures within { IfOk result (IsWithin pages) }
    ensures physical { IfOk result IsPhysical }
    ensures at { IfOk result (IsAt offset) }
{
    if page < pages {
        Ok(Place::Memory(u64::from(page) * 4096 + u64::from(offset)))
    } else if page == DEVICE_PAGE {
        Ok(Place::Device(offset))
    } else {
        Err(Exception::BusError(purpose))
    }
}

/// Where an address leads that the TLB maps.
fn mapped(
    space: Space,
    tlb: &Tlb48,
    pages: u32,
    purpose: Use,
    address: u32,
) -> Result<Place, Exception>
    ensures place { result ≡ through_tlb pages purpose address (looked_up tlb.now address space.asid (is_store_of purpose)) }
    ensures within { IfOk result (IsWithin pages) }
    ensures physical { IfOk result IsPhysical }
    ensures at { IfOk result (IsAt (address % 4096)) }
{
    match tlb.lookup(address, space.asid, is_store(purpose)) {
        TlbAnswer::Hit(frame) => physical(pages, purpose, frame, address % 4096),
        TlbAnswer::Miss => Err(Exception::TlbRefill(purpose, address)),
        TlbAnswer::Invalid => Err(Exception::TlbInvalid(purpose, address)),
        TlbAnswer::ReadOnly => Err(Exception::TlbModified(address)),
    }
}

fn is_store(purpose: Use) -> bool
    ensures { result ≡ is_store_of purpose }
{
    match purpose {
        Use::Fetch | Use::Load => false,
        Use::Store => true,
    }
}

/// Where an address leads in a guest of so many pages.
#[inline]
fn located(
    space: Space,
    tlb: &Tlb48,
    pages: u32,
    purpose: Use,
    address: u32,
) -> Result<Place, Exception>
    ensures place { result ≡ translated (record { user = space.user; asid = space.asid; entries = tlb.now }) pages purpose address (segment space.user address) }
    ensures within { IfOk result (IsWithin pages) }
    ensures physical { IfOk result IsPhysical }
    ensures at { IfOk result (IsAt (address % 4096)) }
{
    if !space.user && is_direct(address) {
        let offset = address - DIRECT;
        return physical(pages, purpose, offset / 4096, offset % 4096);
    }
    if address < 0x8000_0000 || !space.user && is_mapped(address) {
        return mapped(space, tlb, pages, purpose, address);
    }
    Err(Exception::AddressError(purpose, address))
}

/// Where an address leads that has to be a multiple of `unit`, in a guest of so many pages.
#[inline]
pub fn place(
    space: Space,
    tlb: &Tlb48,
    pages: u32,
    unit: u32,
    purpose: Use,
    address: u32,
) -> Result<Place, Exception>
    requires some { 0 < unit }
    requires divides { 4 % unit ≡ 0 }
    ensures place { result ≡ place_of (record { user = space.user; asid = space.asid; entries = tlb.now }) pages unit purpose address }
    ensures within { IfOk result (IsWithin pages) }
    ensures physical { IfOk result IsPhysical }
    ensures aligned { IfOk result (IsAligned unit) }
{
    if address % unit != 0 {
        return Err(Exception::AddressError(purpose, address));
    }
    located(space, tlb, pages, purpose, address)
}
