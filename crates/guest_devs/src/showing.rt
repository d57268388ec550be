//! Lines of interrupts and halts, as the virtual processors show what the devices keep.
ghost use Rattle.std.specs.Prelude.{◌≡◌, ◌≢◌, ◌<◌, ◌≤◌, ◌+◌, length, map, option_map, None, true};
ghost use Rattle.private_machine.specs.Vcpu.{with_line_on};
ghost use Rattle.private_machine.specs.Signals.{changed};
ghost use Rattle.private_machine.specs.Showing.{shown_by};
ghost use Rattle.private_machine.specs.PrivateMachine.{input_waits};
ghost use Rattle.private_machine.specs.DeviceRegisters.{register_read, with_arrived, packet_noted};
ghost use Rattle.private_machine.specs.DevicePage.{device_register as register_of};
ghost use Rattle.guest_devs.specs.DeviceCalls.{stored, taken, on_page, act_at};
ghost use Rattle.guest_devs.specs.Shown.{Agree, brought_up, signalled_at, waiting_at};

use crate::{DevAct, Devs};
use base_words::{GuestId, VcpuId};
use private_machine::{Vcpu, show};

/// The line IP2, for console input.
const INPUT_LINE: u8 = 2;

impl Devs {
    /// Makes the virtual processors show what is kept here.
    pub fn show(&self, vcpus: &mut [Vcpu])
        requires { length vcpus.old ≡ length self.now.state.page.transfers }
        ensures shown { vcpus.new ≡ brought_up self.now.state vcpus.old }
        ensures agree { Agree self.now.state vcpus.new }
    {
        show(vcpus, &self.halted, &self.called, self.packet);
    }

    /// A store of a word by a virtual processor, as `store`, after which all of them show what it changed.
    pub fn store_by(
        &mut self,
        vcpus: &mut [Vcpu],
        vcpu: VcpuId,
        offset: u32,
        value: u32,
    ) -> Option<DevAct>
        requires there { vcpu.0 < length vcpus.old }
        requires all { length vcpus.old ≡ length self.old.state.page.transfers }
        requires agree { Agree self.old.state vcpus.old }
        requires room { 0 < self.old.print_room }
        ensures act { result ≡ option_map (act_at value) (register_of offset) }
        ensures stored { self.new.state ≡ stored vcpu.0 value self.old.state (register_of offset) }
        ensures signalled { vcpus.new ≡ signalled_at vcpu.0 value vcpus.old (register_of offset) }
        ensures agree { Agree self.new.state vcpus.new }
        ensures sent { self.new.state.page.sent ≡ self.old.state.page.sent }
        ensures print_room { self.old.print_room ≤ self.new.print_room + 1 }
        ensures send_room { self.new.send_room ≡ self.old.send_room }
    {
        let act = self.store(vcpu, offset, value)?;
        self.show(vcpus);
        Some(act)
    }

    /// A load of a word by a virtual processor, as `load`, after which the line of the input shows whether input waits.
    pub fn load_by(&mut self, vcpus: &mut [Vcpu], vcpu: VcpuId, offset: u32) -> Option<u32>
        requires there { vcpu.0 < length vcpus.old }
        requires all { length vcpus.old ≡ length self.old.state.page.transfers }
        requires agree { Agree self.old.state vcpus.old }
        ensures value { result ≡ option_map (register_read vcpu.0 self.old.state.page) (register_of offset) }
        ensures taken { self.new.state ≡ taken self.old.state (register_of offset) }
        ensures line { vcpus.new ≡ waiting_at self.new.state.page vcpus.old (register_of offset) }
        ensures agree { Agree self.new.state vcpus.new }
        ensures sent { self.new.state.page.sent ≡ self.old.state.page.sent }
        ensures print_room { self.new.print_room ≡ self.old.print_room }
        ensures send_room { self.new.send_room ≡ self.old.send_room }
    {
        let value = self.load(vcpu, offset)?;
        set_input_line(vcpus, self.waits());
        Some(value)
    }

    /// The input whose time has come after so many own steps joins the queue, and the line of the input shows whether input
    /// waits.
    #[inline(always)]
    pub fn join_by(&mut self, vcpus: &mut [Vcpu], steps: u64)
        requires some { 0 < length vcpus.old }
        requires agree { Agree self.old.state vcpus.old }
        ensures joined { self.new.state ≡ on_page self.old.state (with_arrived steps self.old.state.page) }
        ensures line { vcpus.new ≡ changed 0 (with_line_on 2 (input_waits self.new.state.page)) vcpus.old }
        ensures agree { Agree self.new.state vcpus.new }
        ensures sent { self.new.state.page.sent ≡ self.old.state.page.sent }
        ensures print_room { self.new.print_room ≡ self.old.print_room }
        ensures send_room { self.new.send_room ≡ self.old.send_room }
    {
        self.join_input(steps);
        set_input_line(vcpus, self.waits());
    }

    /// A packet comes in, as `packet`, and its line goes on.
    pub fn packet_by(&mut self, vcpus: &mut [Vcpu], from: GuestId, bytes: u32)
        requires some { 0 < length vcpus.old }
        requires all { length vcpus.old ≡ length self.old.state.page.transfers }
        requires agree { Agree self.old.state vcpus.old }
        requires armed { self.old.state.page.armed ≢ None }
        ensures noted { self.new.state ≡ record self.old.state { page = packet_noted from.0 bytes self.old.state.page; packet = true } }
        ensures line { vcpus.new ≡ changed 0 (with_line_on 3 true) vcpus.old }
        ensures agree { Agree self.new.state vcpus.new }
        ensures print_room { self.new.print_room ≡ self.old.print_room }
        ensures send_room { self.new.send_room ≡ self.old.send_room }
    {
        self.packet(from, bytes);
        self.show(vcpus);
    }
}

/// The line of the input, IP2 of the first virtual processor, goes on or off.
#[inline]
fn set_input_line(vcpus: &mut [Vcpu], on: bool)
    requires { 0 < length vcpus.old }
    ensures line { vcpus.new ≡ changed 0 (with_line_on 2 on) vcpus.old }
    ensures shown { map shown_by vcpus.new ≡ map shown_by vcpus.old }
{
    vcpus[0].cp0.line(INPUT_LINE, on);
}
