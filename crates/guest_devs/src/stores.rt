//! Stores to the device page.
ghost use Rattle.std.specs.Prelude.{◌≡◌, ◌<◌, ◌≤◌, ◌+◌, length, option_map, if◌then◌else◌};
ghost use Rattle.private_machine.specs.DevicePage.{device_register as register_of};
ghost use Rattle.guest_devs.specs.DeviceCalls.{stored, act_at, is_command, called_by as called_by_of};
ghost use Rattle.base_words.specs.declared.device.DeviceRegister.TheVariants.{DiskCommand};

use crate::{DevAct, Devs, device_register};
use base_words::{DeviceRegister, Transfer, VcpuId};

/// The interrupt by another virtual processor goes on in those whose bit is on.
fn call(called: &mut [bool], word: u32)
    ensures { called.new ≡ called_by_of word called.old }
{
    let mut bits = word;
    for line in called.iter_mut() {
        *line = bits % 2 == 1 || *line;
        bits /= 2;
    }
}

impl Devs {
    /// A store of a word by a virtual processor, and what is left to do for it. None where no register stands at the offset,
    /// and then nothing changes.
    pub fn store(&mut self, vcpu: VcpuId, offset: u32, value: u32) -> Option<DevAct>
        requires vcpu { vcpu.0 < length self.old.state.page.transfers }
        requires room { 0 < self.old.print_room }
        ensures act { result ≡ option_map (act_at value) (register_of offset) }
        ensures stored { self.new.state ≡ stored vcpu.0 value self.old.state (register_of offset) }
        ensures sent { self.new.state.page.sent ≡ self.old.state.page.sent }
        ensures print_room { self.old.print_room ≤ self.new.print_room + 1 }
        ensures send_room { self.new.send_room ≡ self.old.send_room }
    {
        let register = device_register(offset)?;
        let number = vcpu.0 as usize;
        match register {
            DeviceRegister::Console => {
                self.console.push((value % 256) as u8).unwrap();
                Some(DevAct::Done)
            }
            DeviceRegister::Halt => {
                self.halted[number] = true;
                Some(DevAct::Done)
            }
            DeviceRegister::Call => {
                call(&mut self.called, value);
                Some(DevAct::Done)
            }
            DeviceRegister::Answered => {
                self.called[number] = false;
                Some(DevAct::Done)
            }
            DeviceRegister::DiskBlock => {
                self.transfers[number].block = value;
                Some(DevAct::Done)
            }
            DeviceRegister::DiskPage => {
                self.transfers[number].page = value;
                Some(DevAct::Done)
            }
            DeviceRegister::DiskCommand => Some(command(&mut self.transfers[number], value)),
            DeviceRegister::SendPage => {
                self.transfers[number].send_page = value;
                Some(DevAct::Done)
            }
            DeviceRegister::SendLength => {
                self.transfers[number].send_length = value;
                Some(DevAct::Done)
            }
            DeviceRegister::Send => Some(DevAct::Send(value)),
            DeviceRegister::Armed => {
                self.armed = if value < self.pages {
                    Some(value)
                } else {
                    None
                };
                Some(DevAct::Done)
            }
            DeviceRegister::PacketTaken => {
                self.packet = false;
                Some(DevAct::Done)
            }
            DeviceRegister::Input
            | DeviceRegister::Queued
            | DeviceRegister::Number
            | DeviceRegister::Vcpus
            | DeviceRegister::DiskStatus
            | DeviceRegister::PacketLength
            | DeviceRegister::PacketSender => Some(DevAct::Done),
        }
    }
}

/// What a disk command leaves to do; one that is neither a read nor a write has the status 3.
fn command(transfer: &mut Transfer, value: u32) -> DevAct
    ensures act { result ≡ act_at value DiskCommand }
    ensures status { transfer.new ≡ (if is_command value then transfer.old else record transfer.old { status = 3 }) }
{
    match value {
        1 => DevAct::DiskRead,
        2 => DevAct::DiskWrite,
        _ => {
            transfer.status = 3;
            DevAct::Done
        }
    }
}
