//! The virtual processors of a guest together.
ghost use Rattle.std.specs.Prelude.{◌≡◌, ◌<◌, IfOk, length, map, replicate};
ghost use Rattle.private_machine.specs.Vcpu.{started};
ghost use Rattle.private_machine.specs.Links.{unlinked, unlinked_page, unlinked_others as unlinked_others_of};
ghost use Rattle.private_machine.specs.Showing.{shown_by, shown_from, showing_from};

use crate::Vcpu;
use base_words::Ppn;
use std::alloc::{AllocError, Global};

/// So many virtual processors at their start, whose first instruction stands at this address.
pub fn new_vcpus(alloc: Global, entry: u32, count: u8) -> Result<Vec<Vcpu>, AllocError>
    ensures { IfOk result (λ vcpus. vcpus.items ≡ replicate count (started entry)) }
{
    vec![in alloc; Vcpu::new(entry); count as usize]
}

/// Clears the links to a line of all but the one that stores into it.
#[inline]
pub fn unlink_others(vcpus: &mut [Vcpu], storing: usize, line: u32)
    requires { storing < length vcpus.old }
    ensures { vcpus.new ≡ unlinked_others_of line storing vcpus.old }
{
    for number in 0..vcpus.len() {
        if number != storing {
            vcpus[number].unlink(line);
        }
    }
}

/// Clears the links of all to a line.
#[inline]
pub fn unlink_all(vcpus: &mut [Vcpu], line: u32)
    ensures { vcpus.new ≡ map (unlinked line) vcpus.old }
{
    for number in 0..vcpus.len() {
        vcpus[number].unlink(line);
    }
}

/// Clears the links of all to lines of a page.
pub fn unlink_page(vcpus: &mut [Vcpu], page: Ppn)
    ensures { vcpus.new ≡ map (unlinked_page page.0) vcpus.old }
{
    for number in 0..vcpus.len() {
        vcpus[number].unlink_page(page);
    }
}

/// Makes each show whether it has halted and its line IP4, and the first one its line IP3.
pub fn show(vcpus: &mut [Vcpu], halted: &[bool], called: &[bool], packet: bool)
    requires halted { length halted.now ≡ length vcpus.old }
    requires called { length called.now ≡ length vcpus.old }
    ensures shown { vcpus.new ≡ showing_from packet halted.now called.now vcpus.old }
    ensures shows { map shown_by vcpus.new ≡ shown_from packet halted.now called.now }
{
    for number in 0..vcpus.len() {
        vcpus[number].show(halted[number], called[number], number == 0 && packet);
    }
}
