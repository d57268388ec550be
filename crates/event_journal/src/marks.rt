//! One number for a Direct entry, by which a further one is told at once.
ghost use Rattle.std.specs.Prelude.{◌≡◌, ◌*◌, ◌+◌, Some};
ghost use Rattle.event_journal.specs.Parts.{IsMarkOf};

use base_words::{Event, ProcId, VcpuId};

/// The mark of every entry but a Direct one.
pub const NO_DIRECT: u32 = 0x1_0000;

/// The mark of a Direct entry.
#[inline]
pub fn direct_mark(processor: ProcId, vcpu: VcpuId) -> u32
    ensures { result ≡ processor.0 * 256 + vcpu.0 }
{
    u32::from(processor.0) * 256 + u32::from(vcpu.0)
}

/// The mark of an entry.
pub fn mark_of(event: Event) -> u32
    ensures { IsMarkOf result (Some event) }
{
    match event {
        Event::Direct(processor, vcpu) => direct_mark(processor, vcpu),
        _ => NO_DIRECT,
    }
}
