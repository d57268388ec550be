//! The parts of a flat machine.
use base_words::Page;
use guest_devs::Devs;
use page_ops::Memo;
use private_machine::Vcpu;
use std::alloc::Global;

/// A guest's memory of so many pages, its virtual processors, devices and disk, and whether its kernel has a register page; and whether
/// there is room for a byte on the console and a packet.
#[derive(Drop)]
pub struct Machine {
    pub alloc: Global,
    pub pages: u32,
    pub memory: Vec<u8>,
    pub vcpus: Vec<Vcpu>,
    pub devs: Devs,
    pub disk: Vec<Box<Page>>,
    pub register_page: bool,
    /// Words that were met, with what they do.
    pub memo: Memo,
    /// Room for a packet.
    pub spare: Vec<u8>,
    pub ready: bool,
}
