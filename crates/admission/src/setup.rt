//! What is to be done.
use crate::{DiskList, DiskNumbers, ImageList};
use base_words::Bytes;
use guest_asm::Assembled;
use guest_gen::Made;
use machine_desc::{Machine, Plan};

/// What a run is made of: the machine and the plan, each guest's image, the disks, and which of them each guest has.
#[derive(Debug, Drop)]
pub struct Setup {
    pub machine: Machine,
    pub plan: Plan,
    pub images: ImageList,
    pub disks: DiskList,
    pub numbers: DiskNumbers,
}

/// What is to be done.
#[derive(Debug, Drop)]
pub enum Job {
    /// The guests run under the monitor; the report has sums, or has none.
    Monitored { setup: Setup, sums: bool },
    /// Each guest runs alone on its private machine.
    Alone(Setup),
    /// What is made is printed.
    Print(Made),
    /// A litmus file of these bytes is carried out, or refused.
    Litmus(Bytes),
    /// What a text is assembled to is printed.
    Listing(Assembled),
}
