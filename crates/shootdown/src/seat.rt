//! The seats of guests.
ghost use Rattle.std.specs.Prelude.{◌≡◌};

use crate::board::Place;
use base_words::{GuestId, Sequence};
use std::marker::Model;

/// A guest's seat. Contracts see the board that it is of, its guest's number and its notes.
#[derive(Drop)]
pub struct GuestSeat {
    pub(crate) number: GuestId,
    pub(crate) place: Place,
}

impl Model for GuestSeat {
    ghost use Rattle.shootdown.specs.Notes.{Seat};

    ghost Value = { Seat };

    ghost use Rattle.shootdown.specs.SeatPlace.{seat_of, IsSeatPlace};

    ghost view = { seat_of };

    ghost invariant = { IsSeatPlace };
}

/// Seats, in the order of their guests.
pub type SeatList = Sequence<GuestSeat>;

impl GuestSeat {
    /// The seat's guest.
    #[inline]
    pub fn number(&self) -> GuestId
        ensures { result.0 ≡ self.now.number }
    {
        self.number
    }
}
