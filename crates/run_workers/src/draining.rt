//! What is left on the wires once no guest runs any more.
ghost use Rattle.std.specs.Prelude.{◌≡◌, OnOk, IfOk};
ghost use Rattle.std.specs.Bool.{OnTrue};
ghost use Rattle.guest_core.specs.PacketCalls.{KeepsEnds};
ghost use Rattle.guest_core.specs.GuestView.{AreOf, shared_by};
ghost use Rattle.guest_lock.specs.Guests.{GuestsFrom};
ghost use Rattle.run_workers.specs.Draining.{HasNone, HasAll, Receives, AreKept, AreOthers, AreDrained};

use guest_core::{Guest, Packeted, Resources};
use guest_lock::Starts;
use std::alloc::{AllocError, Global};
use std::sync::Wait;

/// Whether a guest has taken all that these others sent to it.
fn has_all<R: Wait>(rt: &R, guest: &mut Guest, others: &mut [Guest], resources: &Resources) -> bool
    requires wires { guest.old.wires ≡ resources.now.wires.now }
    requires others { AreOthers (shared_by resources.now) guest.old others.old }
    ensures guest { KeepsEnds guest.old guest.new }
    ensures kept { AreKept others.old others.new }
    ensures all { OnTrue result (HasAll guest.new others.new) }
{
    for place in 0..others.len() {
        if !guest.drained(rt, &mut others[place], resources) {
            return false;
        }
    }
    true
}

/// Whether a guest has taken all that the guests before it and after it sent to it.
fn has_everything<R: Wait>(
    rt: &R,
    guest: &mut Guest,
    before: &mut [Guest],
    after: &mut [Guest],
    resources: &Resources,
) -> bool
    requires wires { guest.old.wires ≡ resources.now.wires.now }
    requires before { AreOthers (shared_by resources.now) guest.old before.old }
    requires after { AreOthers (shared_by resources.now) guest.old after.old }
    ensures guest { KeepsEnds guest.old guest.new }
    ensures before { AreKept before.old before.new }
    ensures after { AreKept after.old after.new }
    ensures all_before { OnTrue result (HasAll guest.new before.new) }
    ensures all_after { OnTrue result (HasAll guest.new after.new) }
{
    if !has_all(rt, guest, before, resources) {
        return false;
    }
    has_all(rt, guest, after, resources)
}

/// Lets packets come to a guest until one was received, or none is left; the moves that are in its way begin and end before.
fn settle<R: Wait>(
    rt: &R,
    alloc: Global,
    guest: &mut Guest,
    before: &mut [Guest],
    after: &mut [Guest],
    resources: &Resources,
) -> Result<(), AllocError>
    requires shared { AreOf (shared_by resources.now) guest.old }
    requires before { AreOthers (shared_by resources.now) guest.old before.old }
    requires after { AreOthers (shared_by resources.now) guest.old after.old }
    ensures receives { OnOk result (Receives guest.old guest.new) }
    ensures none { OnOk result (HasNone guest.new) }
    ensures all_before { OnOk result (HasAll guest.new before.new) }
    ensures all_after { OnOk result (HasAll guest.new after.new) }
    ensures before { OnOk result (AreKept before.old before.new) }
    ensures after { OnOk result (AreKept after.old after.new) }
{
    for _ in rt.forever() {
        guest.make_room()?;
        match guest.packet_in(rt, alloc, resources)? {
            Packeted::Delivered | Packeted::NotArmed => return Ok(()),
            Packeted::Begun(_)
            | Packeted::Finished(_)
            | Packeted::Waits(..)
            | Packeted::Discarded(_) => {}
            Packeted::NoneInHand => {
                if has_everything(rt, guest, before, after, resources) {
                    return Ok(());
                }
            }
        }
    }
    unreachable!()
}

/// Lets packets come to each guest in order, until it has received one, or none is left for it.
pub(crate) fn settle_all<N: Starts, R: Wait>(
    rt: &R,
    alloc: Global,
    guests: Vec<Guest>,
    resources: &Resources,
) -> Result<Vec<Guest>, AllocError>
    requires guests { GuestsFrom N.starts N.board N.shared 0 guests.items }
    requires shared { shared_by resources.now ≡ N.shared }
    ensures guests { IfOk result (λ done. GuestsFrom N.starts N.board N.shared 0 done.items) }
    ensures drained { IfOk result (λ done. AreDrained done.items) }
{
    let mut rest = guests;
    let mut done = Vec::new(alloc);
    while !rest.is_empty() {
        let mut guest = rest.remove(0);
        settle(rt, alloc, &mut guest, &mut done, &mut rest, resources)?;
        done.push(guest)?;
    }
    Ok(done)
}
