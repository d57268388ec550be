//! A guest at its start.
ghost use Rattle.std.specs.Prelude.{◌≡◌, [], IfOk, length};
ghost use Rattle.guest_course.specs.BootCalls.{AreWhole};
ghost use Rattle.guest_core.specs.Starting.{booted_with, filled, MayStart};
ghost use Rattle.guest_core.specs.Holding.{HoldsFor};
ghost use Rattle.guest_core.specs.GuestView.{guest_of, IsAtStart};
ghost use Rattle.guest_core.specs.Kept.{IsKept};
ghost use Rattle.guest_core.specs.Wiring.{IsWired};
ghost use Rattle.wire_queue.specs.PassLists.{IsUnused};
ghost use Rattle.guest_course.specs.CourseView.{surroundings};

use crate::parts::Parts;
use crate::start::Start;
use crate::using::count_frames;
use crate::wiring::Wiring;
use base_words::{Frame, FrameList, GuestId, InputList, PageList};
use cow_disk::Disk;
use elf_image::Image;
use event_journal::Journal;
use frame_words::Holder;
use guest_course::{Around, Course};
use isolation_law::{run_grows, start_holds};
use shootdown::GuestSeat;
use std::alloc::{AllocError, Global};
use wire_queue::{PassList, Wires};

/// These frames, each with the bytes of the page at its place.
fn fill(alloc: Global, frames: &FrameList, pages: PageList) -> Result<FrameList, AllocError>
    requires { length frames.now ≡ length pages }
    ensures filled { IfOk result (λ full. full ≡ filled frames.now pages) }
    ensures whole { IfOk result AreWhole }
{
    let mut full = Vec::with_capacity(alloc, pages.len())?;
    for page in pages.into_vec() {
        let _whole = page.bytes();
        let frame = &frames.as_slice()[full.len()];
        full.push(Frame {
            number: frame.number,
            generation: frame.generation,
            page,
        })?;
    }
    Ok(FrameList::from_vec(full))
}

impl Parts {
    /// What is kept of the guest of this seat at its start: so many virtual processors, of which none is loaded, and the image's pages, each in the
    /// next of these frames, with this disk. The holder holds these frames,
    /// and the guest's ends of the wires are new.
    pub(crate) fn boot(
        alloc: Global,
        image: Image,
        around: Around,
        vcpus: u8,
        input: &InputList,
        frames: FrameList,
        disk: Disk,
        holder: Holder,
        seat: GuestSeat,
        wires: &Wires,
        passes: PassList,
    ) -> Result<Self, AllocError>
        requires may { MayStart around image vcpus frames disk }
        requires holds { HoldsFor (booted_with around image vcpus frames disk input.now) holder.view }
        requires no_notes { seat.notes ≡ [] }
        requires wired { IsWired wires.now passes (surroundings around) }
        requires unused { IsUnused passes }
        ensures kept { IfOk result IsKept }
        ensures start { IfOk result (λ g. IsAtStart seat.number (booted_with around image vcpus frames disk input.now) around.disk seat.board holder.table wires.now passes (guest_of g)) }
    {
        start_holds();
        run_grows();
        let start = Start::of(&around, &image, vcpus, &frames, &disk, input);
        let Image { entry, pages } = image;
        let uses = count_frames(alloc, &frames, &around.site.shape)?;
        let frames = fill(alloc, &frames, pages)?;
        let number: GuestId = seat.number();
        let disk_number = around.disk;
        Ok(Parts {
            number,
            disk: disk_number,
            start,
            course: Course::boot(alloc, around, entry, vcpus, frames, disk, input)?,
            holder,
            uses,
            journal: Journal::new(alloc),
            seat,
            wiring: Wiring::of(wires, passes),
        })
    }
}
