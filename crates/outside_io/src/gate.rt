//! A gate before each turn of a worker.
use base_words::{GuestId, ProcId, VcpuId};

/// Where a turn is about to be made: by which processor, of which guest and virtual processor, and the how manieth turn
/// of this load it is, from 0.
#[derive(Clone, Copy, Debug, PartialEq, Eq)]
pub struct GatePoint {
    pub processor: ProcId,
    pub guest: GuestId,
    pub vcpu: VcpuId,
    pub turn: u64,
}

/// Is passed once in each turn, while the guest's lock is held. It changes nothing of the monitor.
pub trait Gate: Sync {
    fn pass(&self, at: GatePoint);

    /// Whether it lets every turn pass, so that many may be made at once without it.
    fn is_free(&self) -> bool;
}

/// A gate that lets every turn pass.
#[derive(Clone, Copy, Debug, PartialEq, Eq)]
pub struct FreeGate;

impl Gate for FreeGate {
    fn pass(&self, _at: GatePoint) {}

    fn is_free(&self) -> bool {
        true
    }
}
