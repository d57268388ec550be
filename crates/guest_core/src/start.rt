//! What a guest was started from.
ghost use Rattle.std.specs.Prelude.{◌≡◌};
ghost use Rattle.guest_core.specs.Starting.{booted_with};

use base_words::{FrameList, InputList};
use cow_disk::Disk;
use elf_image::Image;
use guest_course::Around;
use std::marker::Model;
use std::snapshot::Snapshot;

/// What a guest was started from, for contracts alone: of all but the number of virtual processors it keeps no bytes.
#[derive(Drop)]
pub(crate) struct Start {
    around: Snapshot<Around>,
    image: Snapshot<Image>,
    vcpus: u8,
    frames: Snapshot<FrameList>,
    disk: Snapshot<Disk>,
    input: Snapshot<InputList>,
}

impl Model for Start {
    ghost use Rattle.isolation_law.specs.Start.{Boot};

    ghost Value = { Boot };

    ghost use Rattle.guest_core.specs.Starting.{booted_with};

    ghost view = { λ s. booted_with s.around.value s.image.value s.vcpus s.frames.value s.disk.value s.input.value };
}

impl Start {
    /// Remembers what a guest is started from.
    pub(crate) fn of(
        around: &Around,
        image: &Image,
        vcpus: u8,
        frames: &FrameList,
        disk: &Disk,
        input: &InputList,
    ) -> Self
        ensures { result ≡ booted_with around.now image.now vcpus frames.now disk.now input.now }
    {
        Start {
            around: Snapshot::of(around),
            image: Snapshot::of(image),
            vcpus,
            frames: Snapshot::of(frames),
            disk: Snapshot::of(disk),
            input: Snapshot::of(input),
        }
    }
}
