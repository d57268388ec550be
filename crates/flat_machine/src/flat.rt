//! A guest's private machine, one own event a call.
ghost use Rattle.std.specs.Prelude.{◌≡◌, ◌*◌, ◌<◌, IfOk, OnOk, OnErr, length, replicate, option_map};
ghost use Rattle.base_words.specs.declared.ids.Ppn.{Ppn};
ghost use Rattle.private_machine.specs.PrivateMachine.{vcpu as vcpu_at};
ghost use Rattle.private_machine.specs.PrivateRun.{booted, own_event, private_run};
ghost use Rattle.elf_image.specs.Physical.{memory_of};
ghost use Rattle.flat_machine.specs.FlatView.{blocks_of, disk_of, start_of};
ghost use Rattle.base_words.specs.declared.events.OwnEvent.TheVariants.{Step};
ghost use Rattle.flat_machine.specs.Attempts.{MayCome};
ghost use Rattle.flat_machine.specs.Windows.{MadeSome};

use crate::machine::Machine;
use base_words::{Blocks, Bytes, InputList, OwnEvent, Page, Ppn, SentPacket, VcpuId};
use elf_image::Image;
use guest_devs::Devs;
use page_ops::Memo;
use private_machine::new_vcpus;
use std::alloc::{AllocError, Global};
use std::marker::Model;

/// A guest's private machine.
#[derive(Drop)]
pub struct Flat {
    machine: Machine,
}

impl Model for Flat {
    ghost use Rattle.private_machine.specs.PrivateMachine.{PrivateMachine};

    ghost Value = { PrivateMachine };

    ghost use Rattle.flat_machine.specs.FlatView.{flat_of, IsFlat};

    ghost view = { flat_of };

    ghost invariant = { IsFlat };
}

impl Flat {
    /// A guest of a profile at its start, of the image's memory and so many virtual processors, with a disk or none, and with its input.
    /// In profile 2 its kernel has a register page.
    pub fn boot(
        alloc: Global,
        image: &Image,
        vcpus: u8,
        profile: u8,
        disk: Option<&Blocks>,
        input: &InputList,
    ) -> Result<Self, AllocError>
        requires { 0 < vcpus }
        ensures { IfOk result (λ flat. flat ≡ booted (start_of image.now) vcpus profile (disk_of (option_map (λ blocks. blocks.now) disk.entry)) input.now) }
    {
        let Ok(pages) = u32::try_from(image.pages.len()) else {
            return Err(AllocError);
        };
        Ok(Flat {
            machine: Machine {
                alloc,
                pages,
                memory: memory_from(alloc, image.pages.as_slice())?,
                vcpus: new_vcpus(alloc, image.entry, vcpus)?,
                devs: Devs::new(alloc, vcpus, pages, input)?,
                disk: disk_from(alloc, disk)?,
                register_page: profile == 2,
                memo: Memo::new(alloc)?,
                spare: Vec::new(alloc),
                ready: false,
            },
        })
    }

    /// One own event. A step is of one of its virtual processors; a packet has 1 to 4096 bytes and comes where a page is armed.
    /// Where memory is wanting the machine is unchanged.
    pub fn own_event(&mut self, event: &OwnEvent) -> Result<(), AllocError>
        requires { MayCome self.old event.now }
        ensures count { length self.new.vcpus ≡ length self.old.vcpus }
        ensures made { OnOk result (self.new ≡ own_event self.old event.now) }
        ensures refused { OnErr result (self.new ≡ self.old) }
    {
        match event {
            OwnEvent::Step(vcpu) => self.machine.run(*vcpu, 1),
            OwnEvent::Packet { from, bytes } => {
                self.machine.own_packet(*from, bytes.as_slice());
                Ok(())
            }
        }
    }

    /// So many steps of one of its virtual processors. Where memory is wanting, some of them were made.
    pub fn run(&mut self, vcpu: VcpuId, steps: u64) -> Result<(), AllocError>
        requires { vcpu.0 < length self.old.vcpus }
        ensures count { length self.new.vcpus ≡ length self.old.vcpus }
        ensures made { OnOk result (self.new ≡ private_run self.old (replicate steps (Step vcpu))) }
        ensures wants { OnErr result (MadeSome self.old vcpu steps self.new) }
    {
        self.machine.run(vcpu, steps)
    }

    /// What was printed.
    pub fn console(&self) -> &[u8]
        ensures { result.now ≡ self.now.devices.console }
    {
        self.machine.devs.console()
    }

    /// What was sent.
    pub fn sent(&self) -> &[SentPacket]
        ensures { result.now ≡ self.now.devices.sent }
    {
        self.machine.devs.sent_list()
    }

    /// What was printed, of a machine that is done.
    pub fn into_console(self) -> Bytes
        ensures { result ≡ self.devices.console }
    {
        let Machine {
            alloc: _,
            pages: _,
            memory: _,
            vcpus: _,
            devs,
            disk: _,
            register_page: _,
            memo: _,
            spare: _,
            ready: _,
        } = self.machine;
        devs.into_lists().0
    }

    /// The page that is armed for a packet.
    pub fn armed(&self) -> Option<Ppn>
        ensures { option_map (λ (page : Ppn). page.0) result ≡ self.now.devices.armed }
    {
        self.machine.devs.armed()
    }

    /// Whether a virtual processor has halted.
    pub fn halted(&self, vcpu: VcpuId) -> bool
        requires { vcpu.0 < length self.now.vcpus }
        ensures { result ≡ (vcpu_at self.now vcpu.0).halted }
    {
        self.machine.vcpu(vcpu).halted
    }
}

/// The bytes of pages, one page after the other.
fn memory_from(alloc: Global, pages: &[Box<Page>]) -> Result<Vec<u8>, AllocError>
    ensures bytes { IfOk result (λ memory. memory.items ≡ memory_of pages.now) }
    ensures whole { IfOk result (λ memory. length memory.items ≡ 4096 * length pages.now) }
{
    let mut memory = Vec::new(alloc);
    for page in pages {
        memory.extend_from_slice(page.bytes())?;
    }
    Ok(memory)
}

/// Copies of pages.
fn copies_of(alloc: Global, pages: &[Box<Page>]) -> Result<Vec<Box<Page>>, AllocError>
    ensures { IfOk result (λ copies. blocks_of copies.items ≡ blocks_of pages.now) }
{
    let mut copies = Vec::new(alloc);
    for page in pages {
        let mut copy = Page::zeroed(alloc)?;
        copy.copy_from(page);
        copies.push(copy)?;
    }
    Ok(copies)
}

/// A copy of the blocks of a disk; none where there is no disk.
fn disk_from(alloc: Global, disk: Option<&Blocks>) -> Result<Vec<Box<Page>>, AllocError>
    ensures { IfOk result (λ blocks. blocks_of blocks.items ≡ disk_of (option_map (λ old. old.now) disk.entry)) }
{
    match disk {
        Some(blocks) => copies_of(alloc, blocks.as_slice()),
        None => Ok(Vec::new(alloc)),
    }
}
