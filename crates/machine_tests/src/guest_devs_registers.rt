//! Devices beside two virtual processors of a guest of four pages.
ghost use Rattle.std.specs.Prelude.{◌≡◌, ◌<◌, length};

use crate::telling::{gave, same};
use base_words::{Bytes, GuestId, InputEntry, InputList, Ppn, VcpuId};
use guest_devs::{DevAct, Devs};
use std::alloc::Global;
use std::process::Abort;

/// The devices, with input after 5 steps, and after 3, which waits for it.
fn devices(rt: &impl Abort, alloc: Global) -> Devs
    ensures { length result.state.page.transfers ≡ 2 }
{
    let mut input = InputList::new(alloc);
    gave(
        rt,
        input.push(InputEntry {
            at: 5,
            text: Bytes::from_vec(gave(rt, b"xy".to_vec(alloc))),
        }),
    );
    gave(
        rt,
        input.push(InputEntry {
            at: 3,
            text: Bytes::from_vec(gave(rt, b"z".to_vec(alloc))),
        }),
    );
    gave(rt, Devs::new(alloc, 2, 4, &input))
}

/// A store by virtual processor 0.
fn store(rt: &impl Abort, devs: &mut Devs, offset: u32, value: u32) -> Option<DevAct>
    requires { length devs.old.state.page.transfers ≡ 2 }
    ensures { length devs.new.state.page.transfers ≡ 2 }
{
    gave(rt, devs.reserve());
    devs.store(VcpuId(0), offset, value)
}

/// A load by virtual processor 0.
fn load(devs: &mut Devs, offset: u32) -> Option<u32>
    requires { length devs.old.state.page.transfers ≡ 2 }
    ensures { length devs.new.state.page.transfers ≡ 2 }
{
    devs.load(VcpuId(0), offset)
}

/// A load by virtual processor 0 gives a value.
fn loads(rt: &impl Abort, devs: &mut Devs, offset: u32, value: u32)
    requires { length devs.old.state.page.transfers ≡ 2 }
    ensures { length devs.new.state.page.transfers ≡ 2 }
{
    same(rt, load(devs, offset), Some(value), offset);
}

/// Interrupt lines: a virtual processor, its line, and whether it is on.
fn lines(rt: &impl Abort, devs: &Devs, rows: &[(u8, u8, bool)])
    requires { length devs.now.state.page.transfers ≡ 2 }
{
    for (vcpu, ip, on) in rows {
        assert!(rt; *vcpu < 2);
        same(rt, devs.raised(VcpuId(*vcpu), *ip), *on, ("IP", ip, vcpu));
    }
}

#[test]
fn input_waits_from_its_step_on(rt: HostRuntime) {
    let alloc = rt.alloc();
    let mut devs = devices(&rt, alloc);
    assert!(rt; !devs.waits_at(4));
    assert!(rt; devs.waits_at(5));
    assert!(rt; !devs.waits(), "nothing has joined");
    devs.join_input(4);
    assert!(rt; !devs.waits());
    devs.join_input(5);
    assert!(rt; devs.waits());
    for (offset, value) in [
        (0x0C, 3),
        (0x08, 0x78),
        (0x08, 0x79),
        (0x0C, 1),
        (0x08, 0x7A),
        (0x08, 0xFFFF_FFFF),
    ] {
        loads(&rt, &mut devs, offset, value);
    }
    assert!(rt; !devs.waits());
}

#[test]
fn stores_leave_something_to_do(rt: HostRuntime) {
    let alloc = rt.alloc();
    let mut devs = devices(&rt, alloc);
    for (offset, value, act) in [
        (0x00, 0x141, Some(DevAct::Done)), // the console
        (0x28, 1, Some(DevAct::DiskRead)),
        (0x28, 2, Some(DevAct::DiskWrite)),
        (0x28, 0, Some(DevAct::Done)), // neither
        (0x38, 9, Some(DevAct::Send(9))),
        (0x04, 0, Some(DevAct::Done)), // the halt
        (0x4C, 0, None),
        (0x02, 0, None),
        (0xFFC, 0, None),
    ] {
        same(
            &rt,
            store(&rt, &mut devs, offset, value),
            act,
            (value, offset),
        );
    }
    loads(&rt, &mut devs, 0x2C, 3); // the status of the last command
    assert!(rt; devs.halted(VcpuId(0)));
    assert!(rt; !devs.halted(VcpuId(1)));
    let (console, sent) = devs.into_lists();
    assert!(rt; console.as_slice() == [0x41].as_slice());
    assert!(rt; sent.len() == 0);
}

#[test]
fn calls_and_packets_raise_lines(rt: HostRuntime) {
    let alloc = rt.alloc();
    let mut devs = devices(&rt, alloc);
    store(&rt, &mut devs, 0x18, 2);
    let rows = [(0, 4, false), (1, 4, true), (0, 3, false), (1, 2, false)];
    lines(&rt, &devs, &rows);
    store(&rt, &mut devs, 0x3C, 4);
    assert!(rt; devs.armed().is_none(), "there is no page 4");
    store(&rt, &mut devs, 0x3C, 3);
    assert!(rt; devs.armed() == Some(Ppn(3)));
    if devs.armed().is_some() {
        devs.packet(GuestId(5), 10);
    }
    assert!(rt; devs.armed().is_none());
    lines(&rt, &devs, &[(0, 3, true), (1, 3, false), (1, 4, true)]);
    loads(&rt, &mut devs, 0x40, 10);
    loads(&rt, &mut devs, 0x44, 5);
    store(&rt, &mut devs, 0x48, 0);
    lines(&rt, &devs, &[(0, 3, false)]);
}
