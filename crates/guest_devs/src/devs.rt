//! A guest's devices.
ghost use Rattle.std.specs.Prelude.{◌≡◌, ◌≢◌, ◌<◌, ◌≤◌, ◌+◌, ◌==◌, IfOk, OnOk, ℕ, [], ◌∷◌, ◌++◌, length, None, option_map, if◌then◌else◌, slice_index_or, true, false, replicate};
ghost use Rattle.base_words.specs.declared.ids.Ppn.{Ppn};
ghost use Rattle.private_machine.specs.DevicePage.{device_register as register_of, transfer_of, nothing_set as nothing_set_of};
ghost use Rattle.private_machine.specs.DeviceRegisters.{register_read, with_status, with_arrived, packet_noted};
ghost use Rattle.private_machine.specs.Devices.{with_sent};
ghost use Rattle.private_machine.specs.PrivateMachine.{input_waits};
ghost use Rattle.guest_devs.specs.Arrivals.{NoneJoins};
ghost use Rattle.guest_devs.specs.DeviceCalls.{taken, on_page, is_raised};

use crate::input::{comes, copy_of, join, next_at, queued, take_byte, total_of};
use crate::{NOTHING, device_register};
use base_words::{
    Bytes, DeviceRegister, GuestId, InputEntry, InputList, PacketList, Ppn, SentPacket, Sequence,
    Transfer, VcpuId,
};
use std::alloc::{AllocError, Global};
use std::marker::Model;

/// A guest's devices.
#[derive(Debug, Drop)]
pub struct Devs {
    pub(crate) pages: u32,
    pub(crate) console: Vec<u8>,
    input: Vec<InputEntry>,
    /// The first entry of the input that is still to come.
    next: usize,
    /// All input that has come, and how many bytes of it were taken. There is room for all that is still to come.
    queue: Vec<u8>,
    taken: usize,
    sent: Vec<SentPacket>,
    pub(crate) armed: Option<u32>,
    last_length: u32,
    last_sender: u32,
    pub(crate) transfers: Vec<Transfer>,
    pub(crate) halted: Vec<bool>,
    pub(crate) called: Vec<bool>,
    pub(crate) packet: bool,
}

impl Model for Devs {
    ghost use Rattle.guest_devs.specs.DeviceState.{DevsView};

    ghost Value = { DevsView };

    ghost use Rattle.guest_devs.specs.DeviceState.{devs_of, IsSound};

    ghost view = { devs_of };

    ghost invariant = { IsSound };
}

impl Devs {
    ghost use Rattle.guest_devs.specs.DeviceState.{fresh};

    /// The devices of a guest of so many virtual processors and pages, with its input, at the start.
    pub fn new(alloc: Global, vcpus: u8, pages: u32, input: &InputList) -> Result<Self, AllocError>
        ensures { IfOk result (λ devs. devs.state ≡ fresh vcpus pages input.now) }
    {
        let entries = copy_of(alloc, input.as_slice())?;
        let bytes = total_of(&entries)?;
        Ok(Devs {
            pages,
            console: Vec::new(alloc),
            input: entries,
            next: 0,
            queue: Vec::with_capacity(alloc, bytes)?,
            taken: 0,
            sent: Vec::new(alloc),
            armed: None,
            last_length: 0,
            last_sender: 0,
            transfers: alike(alloc, nothing_set(), vcpus)?,
            halted: alike(alloc, false, vcpus)?,
            called: alike(alloc, false, vcpus)?,
            packet: false,
        })
    }

    /// Makes room for one byte on the console and one packet. Nothing else changes.
    pub fn reserve(&mut self) -> Result<(), AllocError>
        ensures same { self.new.state ≡ self.old.state }
        ensures print { OnOk result (0 < self.new.print_room) }
        ensures send { OnOk result (0 < self.new.send_room) }
    {
        self.console.reserve(1)?;
        self.sent.reserve(1)?;
        Ok(())
    }

    /// A load of a word by a virtual processor. None where no register stands at the offset, and then nothing changes.
    pub fn load(&mut self, vcpu: VcpuId, offset: u32) -> Option<u32>
        requires { vcpu.0 < length self.old.state.page.transfers }
        ensures value { result ≡ option_map (register_read vcpu.0 self.old.state.page) (register_of offset) }
        ensures taken { self.new.state ≡ taken self.old.state (register_of offset) }
        ensures sent { self.new.state.page.sent ≡ self.old.state.page.sent }
        ensures print_room { self.new.print_room ≡ self.old.print_room }
        ensures send_room { self.new.send_room ≡ self.old.send_room }
    {
        let register = device_register(offset)?;
        let transfer = self.transfers[vcpu.0 as usize];
        match register {
            DeviceRegister::Input => Some(take_byte(&self.queue, &mut self.taken)),
            DeviceRegister::Queued => Some(queued(&self.queue, self.taken)),
            DeviceRegister::Number => Some(u32::from(vcpu.0)),
            DeviceRegister::Vcpus => Some(self.transfers.len() as u32),
            DeviceRegister::DiskBlock => Some(transfer.block),
            DeviceRegister::DiskPage => Some(transfer.page),
            DeviceRegister::DiskStatus => Some(transfer.status),
            DeviceRegister::SendPage => Some(transfer.send_page),
            DeviceRegister::SendLength => Some(transfer.send_length),
            DeviceRegister::Armed => Some(self.armed.unwrap_or(NOTHING)),
            DeviceRegister::PacketLength => Some(self.last_length),
            DeviceRegister::PacketSender => Some(self.last_sender),
            DeviceRegister::Console
            | DeviceRegister::Halt
            | DeviceRegister::Call
            | DeviceRegister::Answered
            | DeviceRegister::DiskCommand
            | DeviceRegister::Send
            | DeviceRegister::PacketTaken => Some(0),
        }
    }

    /// What a virtual processor has set for its disk commands and sends.
    pub fn transfer(&self, vcpu: VcpuId) -> Transfer
        requires { vcpu.0 < length self.now.state.page.transfers }
        ensures { result ≡ transfer_of self.now.state.page vcpu.0 }
    {
        self.transfers[vcpu.0 as usize]
    }

    /// The status of a virtual processor's last disk command.
    pub fn set_status(&mut self, vcpu: VcpuId, status: u32)
        requires { vcpu.0 < length self.old.state.page.transfers }
        ensures status { self.new.state ≡ on_page self.old.state (with_status vcpu.0 status self.old.state.page) }
        ensures print_room { self.new.print_room ≡ self.old.print_room }
        ensures send_room { self.new.send_room ≡ self.old.send_room }
    {
        self.transfers[vcpu.0 as usize].status = status;
    }

    /// What the guest printed.
    pub fn console(&self) -> &[u8]
        ensures { result.now ≡ self.now.state.page.console }
    {
        self.console.as_slice()
    }

    /// What the guest sent.
    pub fn sent_list(&self) -> &[SentPacket]
        ensures { result.now ≡ self.now.state.page.sent }
    {
        self.sent.as_slice()
    }

    /// Whether a virtual processor has halted.
    pub fn halted(&self, vcpu: VcpuId) -> bool
        requires { vcpu.0 < length self.now.state.page.transfers }
        ensures { result ≡ slice_index_or self.now.state.halted vcpu.0 false }
    {
        self.halted[vcpu.0 as usize]
    }

    /// Whether IP3 (of virtual processor 0 alone) or IP4 is on in a virtual processor; of the other lines none is kept here.
    pub fn raised(&self, vcpu: VcpuId, ip: u8) -> bool
        requires { vcpu.0 < length self.now.state.page.transfers }
        ensures { result ≡ is_raised self.now.state vcpu.0 ip }
    {
        match ip {
            3 => vcpu.0 == 0 && self.packet,
            4 => self.called[vcpu.0 as usize],
            _ => false,
        }
    }

    /// The console and the sent list.
    pub fn into_lists(self) -> (Bytes, PacketList)
        ensures console { result.0 ≡ self.state.page.console }
        ensures sent { result.1 ≡ self.state.page.sent }
    {
        let Devs {
            pages: _,
            console,
            input: _,
            next: _,
            queue: _,
            taken: _,
            sent,
            armed: _,
            last_length: _,
            last_sender: _,
            transfers: _,
            halted: _,
            called: _,
            packet: _,
        } = self;
        (Sequence::from_vec(console), Sequence::from_vec(sent))
    }

    /// The input whose time has come after so many own steps joins the queue.
    #[inline]
    pub fn join_input(&mut self, steps: u64)
        ensures joined { self.new.state ≡ on_page self.old.state (with_arrived steps self.old.state.page) }
        ensures sent { self.new.state.page.sent ≡ self.old.state.page.sent }
        ensures print_room { self.new.print_room ≡ self.old.print_room }
        ensures send_room { self.new.send_room ≡ self.old.send_room }
    {
        join(&self.input, &mut self.next, &mut self.queue, steps);
    }

    /// Whether input waits.
    pub fn waits(&self) -> bool
        ensures { result ≡ input_waits self.now.state.page }
    {
        self.taken < self.queue.len()
    }

    /// Whether input waits once what has come after so many own steps has joined the queue.
    #[inline(always)]
    pub fn waits_at(&self, steps: u64) -> bool
        ensures { result ≡ input_waits (with_arrived steps self.now.state.page) }
    {
        self.taken < self.queue.len() || comes(&self.input[self.next..], steps)
    }

    /// No input joins the queue after fewer own steps than these.
    #[inline]
    pub fn quiet_until(&self) -> u64
        ensures { NoneJoins result self.now.state.page }
    {
        next_at(&self.input[self.next..])
    }

    /// The page that is armed for a packet.
    pub fn armed(&self) -> Option<Ppn>
        ensures { option_map (λ (page : Ppn). page.0) result ≡ self.now.state.page.armed }
    {
        match self.armed {
            Some(page) => Some(Ppn(page)),
            None => None,
        }
    }

    /// A packet of so many bytes from a guest has come into the armed page, which is disarmed, and IP3 goes on.
    pub fn packet(&mut self, from: GuestId, bytes: u32)
        requires { self.old.state.page.armed ≢ None }
        ensures noted { self.new.state ≡ record self.old.state { page = packet_noted from.0 bytes self.old.state.page; packet = true } }
        ensures print_room { self.new.print_room ≡ self.old.print_room }
        ensures send_room { self.new.send_room ≡ self.old.send_room }
    {
        self.armed = None;
        self.last_length = bytes;
        self.last_sender = u32::from(from.0);
        self.packet = true;
    }

    /// Puts a packet for a guest at the end of the sent list.
    pub fn sent(&mut self, to: u32, bytes: Bytes)
        requires { 0 < self.old.send_room }
        ensures sent { self.new.state ≡ on_page self.old.state (with_sent self.old.state.page to bytes) }
        ensures print_room { self.new.print_room ≡ self.old.print_room }
        ensures send_room { self.old.send_room ≤ self.new.send_room + 1 }
    {
        self.sent.push(SentPacket { to, bytes }).unwrap();
    }
}

/// Nothing is set.
fn nothing_set() -> Transfer
    ensures { result ≡ nothing_set_of }
{
    Transfer {
        block: 0,
        page: 0,
        status: 0,
        send_page: 0,
        send_length: 0,
    }
}

/// So many of the same.
fn alike<T: Copy>(alloc: Global, item: T, count: u8) -> Result<Vec<T>, AllocError>
    ensures { IfOk result (λ items. items.items ≡ replicate count item) }
{
    let mut items = Vec::new(alloc);
    items.resize(count as usize, item)?;
    Ok(items)
}
