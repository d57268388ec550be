//! Guests that run alone, one after the other, each on its private machine.
ghost use Rattle.std.specs.Prelude.{◌≡◌, ◌+◌, ◌<◌, [], ◌∷◌, All, IfOk, OnOk, length, slice_get, option_map};
ghost use Rattle.std.specs.Option.{option_map_or};
ghost use Rattle.private_machine.specs.PrivateRun.{private_run};
ghost use Rattle.flat_machine.specs.FlatView.{disk_of as blocks_of_disk};
ghost use Rattle.machine_desc.specs.Described.{described_seen};
ghost use Rattle.admission.specs.Ready.{IsSetup};
ghost use Rattle.admission.specs.Views.{disks_seen, disk_numbered as disk_of_number, image_seen, starts_of};
ghost use Rattle.monitor_run.specs.Alone.{item_events, own_events, end_alone as end_of_alone, left_alone, machine_alone, left_from, alone_of, MayRun};

use admission::Setup;
use base_words::{Blocks, End, GuestId, InputList, VcpuId};
use elf_image::Image;
use flat_machine::Flat;
use machine_desc::{GuestSpec, Item};
use run_report::{Alone, AloneList};
use std::alloc::{AllocError, Global};

/// Carries out one item, where it is a run of this guest.
fn run_item(flat: &mut Flat, guest: usize, item: &Item) -> Result<(), AllocError>
    requires { MayRun guest (length flat.old.vcpus) item.now }
    ensures count { length flat.new.vcpus ≡ length flat.old.vcpus }
    ensures made { OnOk result (flat.new ≡ private_run flat.old (item_events guest item.now)) }
{
    match item {
        Item::Run {
            guest: of,
            vcpu,
            steps,
            ..
        } => {
            if of.0 as usize == guest {
                flat.run(*vcpu, *steps)
            } else {
                Ok(())
            }
        }
        _ => Ok(()),
    }
}

/// Carries out the run items of a guest, in their order.
fn run_items(flat: &mut Flat, guest: usize, items: &[Item]) -> Result<(), AllocError>
    requires { All (MayRun guest (length flat.old.vcpus)) items.now }
    ensures count { length flat.new.vcpus ≡ length flat.old.vcpus }
    ensures made { OnOk result (flat.new ≡ private_run flat.old (own_events guest items.now)) }
{
    for item in items {
        run_item(flat, guest, item)?;
    }
    Ok(())
}

/// How a guest has ended, of so many virtual processors.
fn end_of(flat: &Flat, vcpus: u8) -> End
    requires { vcpus ≡ length flat.now.vcpus }
    ensures { result ≡ end_of_alone flat.now }
{
    for vcpu in 0..vcpus {
        if !flat.halted(VcpuId(vcpu)) {
            return End::Budget;
        }
    }
    End::Halted
}

/// The disk of a number.
fn disk_numbered(disks: &[Blocks], number: Option<usize>) -> Option<&Blocks>
    ensures { blocks_of_disk (option_map (λ blocks. blocks.now) result) ≡ disk_of_number (disks_seen disks.now) number }
{
    disks.get(number?)
}

/// A guest's disk.
fn disk_of<'a>(disks: &'a [Blocks], numbers: &[Option<usize>], guest: usize) -> Option<&'a Blocks>
    ensures { blocks_of_disk (option_map (λ blocks. blocks.now) result) ≡ option_map_or (disk_of_number (disks_seen disks.now)) (slice_get numbers.now guest) [] }
{
    match numbers.get(guest) {
        Some(number) => disk_numbered(disks, *number),
        None => None,
    }
}

/// Runs a guest alone.
fn run_guest(
    alloc: Global,
    guest: usize,
    spec: &GuestSpec,
    image: &Image,
    disk: Option<&Blocks>,
    input: &InputList,
    items: &[Item],
) -> Result<Alone, AllocError>
    requires some { 0 < spec.now.vcpus }
    requires items { All (MayRun guest spec.now.vcpus) items.now }
    ensures { IfOk result (λ left. left ≡ left_alone (machine_alone items.now guest spec.now (record { image = image_seen image.now; disk = blocks_of_disk (option_map (λ blocks. blocks.now) disk.entry) }) input.now)) }
{
    let mut flat = Flat::boot(alloc, image, spec.vcpus, spec.profile, disk, input)?;
    run_items(&mut flat, guest, items)?;
    let end = end_of(&flat, spec.vcpus);
    Ok(Alone {
        console: flat.into_console(),
        end,
    })
}

/// Runs a guest of a setup alone.
fn run_one(alloc: Global, setup: &Setup, guest: usize) -> Result<Alone, AllocError>
    requires setup { IsSetup setup.now }
    requires there { guest < length setup.now.machine.guests }
    ensures { IfOk result (λ one. left_from (described_seen setup.now.machine setup.now.plan) (starts_of setup.now) guest ≡ one ∷ left_from (described_seen setup.now.machine setup.now.plan) (starts_of setup.now) (guest + 1)) }
{
    let spec = &setup.machine.guests.as_slice()[guest];
    let image = &setup.images.as_slice()[guest];
    let input = &setup.plan.input.as_slice()[guest];
    let disk = disk_of(setup.disks.as_slice(), setup.numbers.as_slice(), guest);
    let items = setup.plan.items.as_slice();
    run_guest(alloc, guest, spec, image, disk, input, items)
}

/// Runs the guests of a setup, one after the other.
pub fn run_alone(alloc: Global, setup: &Setup) -> Result<AloneList, AllocError>
    requires { IsSetup setup.now }
    ensures { IfOk result (λ left. left ≡ alone_of (described_seen setup.now.machine setup.now.plan) (starts_of setup.now)) }
{
    let mut left = AloneList::new(alloc);
    for guest in 0..setup.machine.guests.len() {
        left.push(run_one(alloc, setup, guest)?)?;
    }
    Ok(left)
}
