//! Whether a half of a bucket may stand elsewhere than where a hint leads, as the counts say.
ghost use Rattle.std.specs.Prelude.{◌≡◌, ◌<◌, false};
ghost use Rattle.hw_tlb.specs.Counts.{HasNoSuchBut, is_numbered, is_spaced, is_shared};

use crate::rooms::Rooms;

/// Whether a half whose number is of this bucket may stand elsewhere than here.
pub fn has_other_numbered(rooms: &Rooms, bucket: usize, place: u8) -> bool
    requires bucket { bucket < 256 }
    requires place { place < 96 }
    ensures { result ≡ false → HasNoSuchBut (is_numbered bucket) rooms.now place }
{
    rooms.numbered(bucket) > u8::from(rooms.at(place).is_numbered(bucket))
}

/// Whether a half of one address space whose key is of this bucket may stand elsewhere than here.
pub fn has_other_spaced(rooms: &Rooms, bucket: usize, place: u8) -> bool
    requires bucket { bucket < 256 }
    requires place { place < 96 }
    ensures { result ≡ false → HasNoSuchBut (is_spaced bucket) rooms.now place }
{
    rooms.spaced(bucket) > u8::from(rooms.at(place).is_spaced(bucket))
}

/// Whether a half of all address spaces whose number is of this bucket may stand elsewhere than here.
pub fn has_other_shared(rooms: &Rooms, bucket: usize, place: u8) -> bool
    requires bucket { bucket < 256 }
    requires place { place < 96 }
    ensures { result ≡ false → HasNoSuchBut (is_shared bucket) rooms.now place }
{
    rooms.shared(bucket) > u8::from(rooms.at(place).is_shared(bucket))
}
