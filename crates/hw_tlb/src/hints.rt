//! For each bucket the place where to look first.
ghost use Rattle.std.specs.Prelude.{◌<◌};

use std::marker::Model;

/// For each bucket the place where to look first. It may be out of date.
#[derive(Debug, Drop)]
pub struct Hints {
    places: [u8; 256],
}

impl Model for Hints {
    ghost use Rattle.std.specs.Prelude.{ℕ, List};
    ghost use Rattle.hw_tlb.specs.Rooms.{AreHints};

    ghost Value = { List ℕ };

    ghost view = { λ h. h.places };

    ghost invariant = { λ h. AreHints h.places };
}

impl Hints {
    /// Hints that all lead to the first place.
    pub fn new() -> Hints {
        Hints { places: [0; 256] }
    }

    /// The place where to look first for a virtual page of this bucket.
    #[inline]
    pub fn at(&self, bucket: usize) -> u8
        requires { bucket < 256 }
        ensures { result < 96 }
    {
        self.places[bucket]
    }

    /// From now on this place is the first to look at for this bucket.
    #[inline]
    pub fn set(&mut self, bucket: usize, place: u8)
        requires bucket { bucket < 256 }
        requires place { place < 96 }
    {
        self.places[bucket] = place;
    }
}
