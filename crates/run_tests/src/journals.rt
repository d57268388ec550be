//! The journals of whole runs, entry by entry.
use crate::record::record_of;
use crate::telling::must;
use base_words::{Bytes, End, Event, ProcId, VcpuId};
use outside_io::FreeGate;
use run_cases::{PRINTS_A, crowd, have_entries};

/// J to itself, and its delay slot.
const LOOPS: [u8; 8] = [0x08, 0x00, 0x00, 0x00, 0x24, 0x00, 0x00, 0x00];

#[test]
fn the_record_has_the_journal(rt: HostRuntime) {
    let alloc = rt.alloc();
    let (processor, vcpu) = (ProcId(0), VcpuId(0));
    let text = must(&rt, crowd(alloc, 1, 1, 1, 16, 5));
    let image = Bytes::from_vec(must(&rt, PRINTS_A.to_vec(alloc)));
    let out = record_of(&rt, alloc, text.as_str(), image, &FreeGate);
    let expected = [
        (Event::Load(processor, vcpu), 1),
        (Event::Refill(processor), 1),
        (Event::Direct(processor, vcpu), 3),
        (Event::Emulate(processor, vcpu), 2),
        (Event::End(End::Halted), 1),
        (Event::Unload(processor), 1),
    ];
    assert!(&rt; have_entries(&out, &expected), "its entries");
}

#[test]
fn two_million_steps_are_five_runs(rt: HostRuntime) {
    let alloc = rt.alloc();
    let (processor, vcpu) = (ProcId(0), VcpuId(0));
    let text = must(&rt, crowd(alloc, 1, 1, 1, 16, 2_000_000));
    let image = Bytes::from_vec(must(&rt, LOOPS.to_vec(alloc)));
    let out = record_of(&rt, alloc, text.as_str(), image, &FreeGate);
    let expected = [
        (Event::Load(processor, vcpu), 1),
        (Event::Refill(processor), 1),
        (Event::Direct(processor, vcpu), 2_000_000),
        (Event::Unload(processor), 1),
        (Event::End(End::Budget), 1),
    ];
    assert!(&rt; have_entries(&out, &expected), "its entries");
    let [guest] = out.guests.as_slice() else {
        panic!(&rt; "there is one guest");
    };
    assert!(&rt; guest.journal.len() == 2_000_004, "entries");
    assert!(&rt; guest.journal.runs() == 5, "runs");
    assert!(&rt;
        guest.console.as_slice() == b"".as_slice(),
        "it prints nothing"
    );
}
