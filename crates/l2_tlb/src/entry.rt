//! An entry, and which ones go.
ghost use Rattle.std.specs.Prelude.{◌≡◌, ◌==◌, ◌&&◌, ◌||◌, ◌<◌, length, slice_index_or, slice_set};
ghost use Rattle.private_machine.specs.SecondLevel.{unless_of_pair};
ghost use Rattle.l2_tlb.specs.Seconds.{seen};

use base_words::Ppn;

/// What the guest's TLB or a direct range says of one virtual page: the guest's page, and whether a store is granted. A global
/// entry is of all address spaces.
#[derive(Clone, Copy, Debug, PartialEq, Eq)]
pub struct L2Entry {
    pub vpn: u32,
    pub asid: u8,
    pub global: bool,
    pub page: Ppn,
    pub store: bool,
}

impl L2Entry {
    /// Whether this is of a virtual page in an address space.
    #[inline]
    pub(crate) fn is_of(&self, vpn: u32, asid: u8) -> bool
        ensures { result ≡ (self.now.vpn == vpn && (self.now.global || self.now.asid == asid)) }
    {
        self.vpn == vpn && (self.global || self.asid == asid)
    }
}

/// Empties a place if its entry is of a pair of virtual pages.
pub fn drop_of_pair(places: &mut [Option<L2Entry>], place: usize, vpn2: u32)
    requires { place < length places.old }
    ensures { seen places.new
        ≡ slice_set (seen places.old) place (unless_of_pair vpn2 (slice_index_or (seen places.old) place None)) }
{
    let Some(entry) = places[place] else {
        return;
    };
    if entry.vpn / 2 == vpn2 {
        places[place] = None;
    }
}
