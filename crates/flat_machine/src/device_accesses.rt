//! Loads and stores of the device page.
ghost use Rattle.std.specs.Prelude.{◌≡◌, ◌<◌, ◌≤◌, length, true, false, Some};
ghost use Rattle.std.specs.Vec.{vec_capacity};
ghost use Rattle.base_words.specs.Instruction.{advanced};
ghost use Rattle.private_machine.specs.PrivateMachine.{vcpu as vcpu_at};
ghost use Rattle.private_machine.specs.DevicePage.{device_register as register_of, transfer_of};
ghost use Rattle.private_machine.specs.Devices.{device_done, sending};
ghost use Rattle.private_machine.specs.Access.{device_loaded, device_stored};
ghost use Rattle.flat_machine.specs.FlatView.{machine_of, IsSound};
ghost use Rattle.flat_machine.specs.Attempts.{Attempts, disk_done};

use crate::machine::Machine;
use crate::memory::{fill_page, page_bytes};
use base_words::{DeviceRegister, Exception, PAGE_SIZE, Ppn, Register, Sequence, Use, VcpuId};
use guest_devs::{DevAct, device_register};
use private_machine::unlink_page;
use std::mem;

/// What became of a disk command: it was carried out, or there is no such block, or no such page.
const DONE: u32 = 0;

const NO_BLOCK: u32 = 1;

const NO_PAGE: u32 = 2;

impl Machine {
    /// A load of a word from the device page.
    pub fn load_device(
        &mut self,
        vcpu: VcpuId,
        offset: u32,
        target: Register,
    ) -> Result<(), Exception>
        requires sound { IsSound self.old }
        requires there { vcpu.0 < length (machine_of self.old).vcpus }
        ensures sound { IsSound self.new }
        ensures ready { self.new.ready ≡ self.old.ready }
        ensures attempts { Attempts (device_loaded (machine_of self.old) vcpu.0 (advanced (vcpu_at (machine_of self.old) vcpu.0).registers) target (register_of offset)) (machine_of self.old) (machine_of self.new) result }
    {
        match self.devs.load_by(&mut self.vcpus, vcpu, offset) {
            Some(value) => {
                self.put(vcpu, target, value);
                Ok(())
            }
            None => Err(Exception::BusError(Use::Load)),
        }
    }

    /// A store of a word to the device page.
    pub fn store_device(&mut self, vcpu: VcpuId, offset: u32, value: u32) -> Result<(), Exception>
        requires sound { IsSound self.old }
        requires there { vcpu.0 < length (machine_of self.old).vcpus }
        requires ready { self.old.ready ≡ true }
        ensures sound { IsSound self.new }
        ensures attempts { Attempts (device_stored (machine_of self.old) vcpu.0 (advanced (vcpu_at (machine_of self.old) vcpu.0).registers) value (register_of offset)) (machine_of self.old) (machine_of self.new) result }
    {
        match device_register(offset) {
            Some(register) => {
                self.pass(vcpu);
                self.store_at(vcpu, register, offset, value);
                Ok(())
            }
            None => Err(Exception::BusError(Use::Store)),
        }
    }

    /// A store to a register of the device page. The room that it takes is to be made again.
    fn store_at(&mut self, vcpu: VcpuId, register: DeviceRegister, offset: u32, value: u32)
        requires sound { IsSound self.old }
        requires there { vcpu.0 < length (machine_of self.old).vcpus }
        requires ready { self.old.ready ≡ true }
        requires register { register_of offset ≡ Some register }
        ensures sound { IsSound self.new }
        ensures done { machine_of self.new ≡ device_done (machine_of self.old) vcpu.0 value register }
    {
        self.ready = false;
        match self.devs.store_by(&mut self.vcpus, vcpu, offset, value) {
            Some(DevAct::DiskRead) => self.read_disk(vcpu),
            Some(DevAct::DiskWrite) => self.write_disk(vcpu),
            Some(DevAct::Send(to)) => self.send(vcpu, to),
            Some(DevAct::Done) | None => {}
        }
    }

    /// The block that a virtual processor has set goes into the page that it has set, where both are there; and its status.
    fn read_disk(&mut self, vcpu: VcpuId)
        requires sound { IsSound self.old }
        requires there { vcpu.0 < length (machine_of self.old).vcpus }
        ensures sound { IsSound self.new }
        ensures ready { self.new.ready ≡ self.old.ready }
        ensures done { machine_of self.new ≡ disk_done (machine_of self.old) vcpu.0 1 }
    {
        let transfer = self.devs.transfer(vcpu);
        let block = transfer.block as usize;
        if block >= self.disk.len() {
            self.devs.set_status(vcpu, NO_BLOCK);
        } else if transfer.page >= self.pages {
            self.devs.set_status(vcpu, NO_PAGE);
        } else {
            fill_page(
                &mut self.memory,
                self.pages,
                transfer.page,
                self.disk[block].bytes(),
            );
            unlink_page(&mut self.vcpus, Ppn(transfer.page));
            self.devs.set_status(vcpu, DONE);
        }
    }

    /// The page goes into the block.
    fn write_disk(&mut self, vcpu: VcpuId)
        requires sound { IsSound self.old }
        requires there { vcpu.0 < length (machine_of self.old).vcpus }
        ensures sound { IsSound self.new }
        ensures ready { self.new.ready ≡ self.old.ready }
        ensures done { machine_of self.new ≡ disk_done (machine_of self.old) vcpu.0 2 }
    {
        let transfer = self.devs.transfer(vcpu);
        let block = transfer.block as usize;
        if block >= self.disk.len() {
            self.devs.set_status(vcpu, NO_BLOCK);
        } else if transfer.page >= self.pages {
            self.devs.set_status(vcpu, NO_PAGE);
        } else {
            let bytes = page_bytes(&self.memory, self.pages, transfer.page, PAGE_SIZE as usize);
            self.disk[block].fill_from(0, bytes);
            self.devs.set_status(vcpu, DONE);
        }
    }

    /// The bytes that a virtual processor has set go to a guest, where the page is there and they are 1 to 4096.
    fn send(&mut self, vcpu: VcpuId, to: u32)
        requires sound { IsSound self.old }
        requires there { vcpu.0 < length (machine_of self.old).vcpus }
        requires unready { self.old.ready ≡ false }
        requires room { 0 < self.old.devs.send_room }
        requires spare { 4096 ≤ vec_capacity self.old.spare }
        ensures sound { IsSound self.new }
        ensures sent { machine_of self.new ≡ sending (machine_of self.old) (transfer_of (machine_of self.old).devices vcpu.0) to }
    {
        let transfer = self.devs.transfer(vcpu);
        let count = transfer.send_length;
        if transfer.send_page < self.pages && 0 < count && count <= PAGE_SIZE {
            let mut packet = mem::replace(&mut self.spare, Vec::new(self.alloc));
            let bytes = page_bytes(&self.memory, self.pages, transfer.send_page, count as usize);
            packet.extend_from_slice(bytes).unwrap();
            packet.shrink_to_fit();
            self.devs.sent(to, Sequence::from_vec(packet));
        }
    }
}
