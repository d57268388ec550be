//! What is left of a step that stores to a register of the device page: a disk command, or a send.
ghost use Rattle.std.specs.Prelude.{◌≡◌, ◌<◌, ◌≤◌, ◌+◌, ◌∷◌, ◌++◌, [], ℕ, OnOk, OnErr, length, map, slice_index_or};
ghost use Rattle.std.specs.Vec.{vec_len, vec_capacity};
ghost use Rattle.private_machine.specs.Backing.{page_at, with_first};
ghost use Rattle.private_machine.specs.Devices.{with_sent};
ghost use Rattle.private_machine.specs.Disk.{no_block, block_now};
ghost use Rattle.private_machine.specs.Links.{unlinked_page};
ghost use Rattle.private_machine.specs.Showing.{shown_by};
ghost use Rattle.private_machine.specs.Signals.{changed};
ghost use Rattle.pmap_table.specs.PageMap.{with_page};
ghost use Rattle.guest_devs.specs.DeviceCalls.{on_page};
ghost use Rattle.guest_devs.specs.Shown.{Agree};
ghost use Rattle.isolation_law.specs.StepRows.{IsEmulated, Emulates};
ghost use Rattle.isolation_law.specs.Phases.{GoesOn};
ghost use Rattle.isolation_law.specs.WireHistory.{sent_to};
ghost use Rattle.guest_course.specs.CourseView.{state_of};
ghost use Rattle.guest_course.specs.EmulateCalls.{LeavesAct, StaysLoaded};
ghost use Rattle.guest_course.specs.Joining.{joined_page};
ghost use Rattle.guest_course.specs.CourseRules.{IsSound, IsWritable};
ghost use Rattle.guest_course.specs.Tasks.{IsThere, IsClear, MayRead, done_page, done_cells, done_pages, done_vcpus, done_disk};
ghost use Rattle.guest_course.specs.LeavingCalls.{passing, passed, UsesCell};
ghost use Rattle.guest_course.specs.Packets.{TakesNothing};
ghost use Rattle.guest_course.specs.Posting.{posted};
ghost use Rattle.guest_course.specs.Wanting.{MayWant, Writes};

use crate::course::Course;
use crate::stepping::tick;
use crate::task::{DONE, Parcel, Task};
use base_words::{Ppn, VcpuId};
use cow_disk::Disk;
use guest_devs::{DevAct, Devs};
use isolation_law::{pages_seen, row_keeps, sends};
use mips_retire::pass;
use pmap_table::Pmap;
use private_machine::{Vcpu, unlink_page};
use std::alloc::{AllocError, Global};
use trap_emulate::step_leads;

/// An instruction is passed, which shows nothing new.
fn pass_by(vcpus: &mut [Vcpu], vcpu: VcpuId)
    requires { vcpu.0 < length vcpus.old }
    ensures passed { vcpus.new ≡ changed vcpu.0 passing vcpus.old }
    ensures shown { map shown_by vcpus.new ≡ map shown_by vcpus.old }
{
    pass(&mut vcpus[vcpu.0 as usize]);
}

/// The input joins that was to come before a step, and the instruction is passed.
pub(crate) fn begin(vcpus: &mut [Vcpu], devs: &mut Devs, vcpu: VcpuId)
    requires there { vcpu.0 < length vcpus.old }
    requires agree { Agree devs.old.state vcpus.old }
    ensures vcpus { vcpus.new ≡ passed vcpu.0 vcpus.old devs.old.state.page }
    ensures devs { devs.new.state ≡ on_page devs.old.state (joined_page vcpu.0 vcpus.old devs.old.state.page) }
    ensures agree { Agree devs.new.state vcpus.new }
    ensures print_room { devs.new.print_room ≡ devs.old.print_room }
    ensures send_room { devs.new.send_room ≡ devs.old.send_room }
{
    if vcpu.0 == 0 {
        let steps = vcpus[0].steps;
        devs.join_by(vcpus, steps);
    }
    pass_by(vcpus, vcpu);
}

/// A block as the guest reads it comes into a page that is the guest's own and has no replicas.
fn copy_block(disk: &Disk, pmap: &mut Pmap, block: u32, page: Ppn)
    requires block { block < length disk.now }
    requires page { page.0 < length pmap.old.pages }
    requires writable { IsWritable (page_at pmap.old.pages page.0) }
    ensures { pmap.new ≡ with_page pmap.old page.0 (with_first (block_now (slice_index_or disk.now block no_block)) (page_at pmap.old.pages page.0)) }
{
    match disk.read_block(block) {
        Some(bytes) => pmap.copy_bytes_in(page, bytes.bytes()),
        None => unreachable!(),
    }
}

impl Course {
    /// Writes the guest's own block where a page is to go into one. Where memory is wanting, nothing changes.
    fn save(&mut self, task: &Task) -> Result<(), AllocError>
        requires { IsThere (length self.old.disk) (length self.old.pmap.pages) task.now }
        ensures same { self.new ≡ record self.old { disk = self.new.disk } }
        ensures saved { OnOk result (self.new.disk ≡ done_disk self.old.pmap.pages task.now self.old.disk) }
        ensures err { OnErr result (self.new ≡ self.old) }
        ensures wanting { OnErr result (Writes task.now) }
    {
        if let Task::Write(block, page) = task {
            self.disk.write_block(*block, self.pmap.page(*page))?;
        }
        Ok(())
    }

    /// A block comes into a page, and nobody links a line of the page any more.
    fn fill_page(&mut self, block: u32, page: Ppn)
        requires block { block < length self.old.disk }
        requires page { page.0 < length self.old.pmap.pages }
        requires writable { IsWritable (page_at self.old.pmap.pages page.0) }
        ensures same { self.new ≡ record self.old { vcpus = self.new.vcpus; pmap = self.new.pmap } }
        ensures vcpus { self.new.vcpus.items ≡ map (unlinked_page page.0) self.old.vcpus.items }
        ensures pages { self.new.pmap ≡ with_page self.old.pmap page.0 (with_first (block_now (slice_index_or self.old.disk block no_block)) (page_at self.old.pmap.pages page.0)) }
    {
        copy_block(&self.disk, &mut self.pmap, block, page);
        unlink_page(&mut self.vcpus, page);
    }

    /// Puts a packet at the end of the sent list, with its cell.
    fn send(&mut self, parcel: Parcel)
        requires send_room { 0 < self.old.devs.send_room }
        requires cells { vec_len self.old.sent_from < vec_capacity self.old.sent_from }
        ensures same { self.new ≡ record self.old { devs = self.new.devs; sent_from = self.new.sent_from } }
        ensures devs { self.new.devs.state ≡ on_page self.old.devs.state (with_sent self.old.devs.state.page parcel.to parcel.bytes) }
        ensures cells { self.new.sent_from.items ≡ self.old.sent_from.items ++ parcel.cell ∷ [] }
        ensures print_room { self.new.devs.print_room ≡ self.old.devs.print_room }
        ensures send_room { self.old.devs.send_room ≤ self.new.devs.send_room + 1 }
        ensures cell_room { UsesCell self.old.sent_from self.new.sent_from }
    {
        self.devs.sent(parcel.to, parcel.bytes);
        self.sent_from.push_reserved(parcel.cell);
    }

    /// Does what is left of a task once a page that goes into a block stands there.
    pub(crate) fn perform(&mut self, vcpu: VcpuId, task: Task)
        requires vcpu { vcpu.0 < length self.old.devs.state.page.transfers }
        requires there { IsThere (length self.old.disk) (length self.old.pmap.pages) task }
        requires may { MayRead self.old.pmap.pages task }
        requires send_room { 0 < self.old.devs.send_room }
        requires cells { vec_len self.old.sent_from < vec_capacity self.old.sent_from }
        ensures same { self.new ≡ record self.old { vcpus = self.new.vcpus; devs = self.new.devs; pmap = self.new.pmap; sent_from = self.new.sent_from } }
        ensures vcpus { self.new.vcpus.items ≡ done_vcpus task self.old.vcpus.items }
        ensures devs { self.new.devs.state ≡ on_page self.old.devs.state (done_page vcpu.0 task self.old.devs.state.page) }
        ensures pages { self.new.pmap ≡ record self.old.pmap { pages = done_pages self.old.disk task self.old.pmap.pages } }
        ensures cells { self.new.sent_from.items ≡ done_cells task self.old.sent_from.items }
        ensures print_room { self.new.devs.print_room ≡ self.old.devs.print_room }
        ensures send_room { self.old.devs.send_room ≤ self.new.devs.send_room + 1 }
        ensures cell_room { UsesCell self.old.sent_from self.new.sent_from }
    {
        match task {
            Task::Refuse(status) => self.devs.set_status(vcpu, status),
            Task::Read(block, page) => {
                self.fill_page(block, page);
                self.devs.set_status(vcpu, DONE);
            }
            Task::Write(..) => self.devs.set_status(vcpu, DONE),
            Task::Take(page) => {
                unlink_page(&mut self.vcpus, page);
                self.devs.set_status(vcpu, DONE);
            }
            Task::Send(parcel) => self.send(parcel),
            Task::Skip => {}
        }
    }

    /// Makes the step of which this act is left, where no page is in its way. Want of memory comes only at a send that is made and at
    /// a disk write that is carried out, and then nothing has changed.
    pub fn carry_out(&mut self, alloc: Global, vcpu: VcpuId, act: DevAct) -> Result<(), AllocError>
        requires sound { IsSound self.old }
        requires left { (p : ℕ) × LeavesAct (state_of self.old) p vcpu.0 act (state_of self.old) }
        requires clear { IsClear (state_of self.old) vcpu.0 act }
        requires send_room { 0 < self.old.devs.send_room }
        requires cells { vec_len self.old.sent_from < vec_capacity self.old.sent_from }
        ensures sound { IsSound self.new }
        ensures skips { self.new.skips ≡ self.old.skips }
        ensures room { self.new.pmap.room ≡ self.old.pmap.room }
        ensures emulates { OnOk result ((p : ℕ) → IsEmulated (state_of self.old) p vcpu.0 → Emulates (state_of self.old) p vcpu.0 (state_of self.new)) }
        ensures unchanged { OnErr result (self.new ≡ self.old) }
        ensures wanting { OnErr result (MayWant (state_of self.old) vcpu.0 act) }
        ensures goes_on { OnOk result (GoesOn (state_of self.new)) }
        ensures stays { StaysLoaded (state_of self.old) (state_of self.new) }
        ensures print_room { self.new.devs.print_room ≡ self.old.devs.print_room }
        ensures send_room { self.old.devs.send_room ≤ self.new.devs.send_room + 1 }
        ensures cell_room { UsesCell self.old.sent_from self.new.sent_from }
        ensures sends { OnOk result ((to : ℕ) → sent_to (state_of self.new) to ≡ sent_to (state_of self.old) to ++ posted (state_of self.old) vcpu.0 act to) }
        ensures takes { TakesNothing self.old self.new }
    {
        sends();
        row_keeps();
        pages_seen();
        step_leads();
        let task = self.task_of(alloc, vcpu, act)?;
        self.save(&task)?;
        begin(&mut self.vcpus, &mut self.devs, vcpu);
        self.perform(vcpu, task);
        tick(&mut self.vcpus, vcpu);
        self.show_again(vcpu);
        Ok(())
    }
}
