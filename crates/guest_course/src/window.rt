//! What the steps of a burst go by.
ghost use Rattle.std.specs.Prelude.{◌≡◌, None};
ghost use Rattle.base_words.specs.Coprocessor.{in_user_mode};

use hw_cpu::KeptPage;
use private_machine::Vcpu;

/// The mode and the address space of the virtual processor that steps, and what the fetches of the last page reached.
#[derive(Clone, Copy, Debug, PartialEq, Eq)]
pub struct Window {
    pub user: bool,
    pub asid: u8,
    pub fetched: Option<KeptPage>,
}

impl Window {
    /// That of a virtual processor before its first fetch.
    pub fn new(vcpu: &Vcpu) -> Self
        ensures { result ≡ record { user = in_user_mode vcpu.now.cp0.status; asid = vcpu.now.cp0.entry_hi.asid; fetched = None } }
    {
        Window {
            user: vcpu.cp0.is_user(),
            asid: vcpu.cp0.asid(),
            fetched: None,
        }
    }
}
