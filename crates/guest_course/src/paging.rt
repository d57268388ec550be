//! The register pages of a guest's virtual processors.
ghost use Rattle.std.specs.Prelude.{◌≡◌, ◌<◌, length, map, IfOk};
ghost use Rattle.private_machine.specs.RegisterPage.{has_page as has_page_of, block_for};
ghost use Rattle.isolation_law.specs.Mirrors.{blocks_for};
ghost use Rattle.isolation_law.specs.StepRows.{shown_again};
ghost use Rattle.guest_course.specs.CourseView.{state_of};
ghost use Rattle.guest_course.specs.Paging.{taken_back, taken_from};

use crate::course::Course;
use base_words::VcpuId;
use mips_cp0::Cp0;
use private_machine::{RegBlock, Vcpu};
use std::alloc::{AllocError, Global};

/// Whether the guests of a profile have register pages.
#[inline(always)]
fn has_page(profile: u8) -> bool
    ensures { result ≡ has_page_of profile }
{
    profile == 2
}

/// A virtual processor's register page, in a guest of this profile.
fn block_of(profile: u8, cp0: &Cp0) -> Option<RegBlock>
    ensures { result ≡ block_for (has_page_of profile) cp0.now }
{
    if has_page(profile) {
        Some(RegBlock::of(cp0))
    } else {
        None
    }
}

/// The register pages of virtual processors, in a guest of this profile.
pub fn blocks_of(
    alloc: Global,
    profile: u8,
    vcpus: &[Vcpu],
) -> Result<Vec<Option<RegBlock>>, AllocError>
    ensures { IfOk result (λ blocks. blocks.items ≡ blocks_for (has_page_of profile) vcpus.now) }
{
    let mut blocks = Vec::with_capacity(alloc, vcpus.len())?;
    for vcpu in vcpus {
        blocks.push(block_of(profile, &vcpu.cp0))?;
    }
    Ok(blocks)
}

/// The registers whose words on a register page are others than before take them.
fn take_back(cp0: &mut Cp0, before: &RegBlock, after: &RegBlock)
    ensures { cp0.new ≡ taken_back before.now after.now cp0.old }
{
    if after.index != before.index {
        cp0.write(0, after.index);
    }
    if after.lo0 != before.lo0 {
        cp0.write(2, after.lo0);
    }
    if after.lo1 != before.lo1 {
        cp0.write(3, after.lo1);
    }
    if after.epc != before.epc {
        cp0.write(14, after.epc);
    }
}

/// What was written on a register page is in the registers, where there is one.
#[inline(always)]
pub fn take_written(cp0: &mut Cp0, before: Option<RegBlock>, after: Option<RegBlock>)
    ensures { cp0.new ≡ taken_from before after cp0.old }
{
    if let Some(before) = before
        && let Some(after) = after
    {
        take_back(cp0, &before, &after);
    }
}

impl Course {
    /// Whether the guest has register pages.
    #[inline(always)]
    pub(crate) fn is_paged(&self) -> bool
        ensures { result ≡ has_page_of self.now.around.profile }
    {
        has_page(self.around.profile)
    }

    /// The register page of a virtual processor shows again what its registers read.
    pub(crate) fn show_again(&mut self, vcpu: VcpuId)
        requires block { vcpu.0 < length self.old.blocks.items }
        requires vcpu { vcpu.0 < length self.old.vcpus.items }
        ensures same { self.new ≡ record self.old { blocks = self.new.blocks } }
        ensures shown { state_of self.new ≡ shown_again vcpu.0 (state_of self.old) }
    {
        let block = block_of(self.around.profile, &self.vcpus[vcpu.0 as usize].cp0);
        self.blocks[vcpu.0 as usize] = block;
    }
}
