//! Who holds frames and loans.
ghost use Rattle.frame_words.specs.Views.{OneGeneration};

use crate::view::View;
use atomic_table::Seat;
use std::marker::Model;

/// A holder of frames and loans. It has no bytes, and contracts see the table that made it and its view,
/// which holds no frame under two generations.
#[derive(Drop)]
pub struct Holder {
    pub(crate) seat: Seat<(), View>,
    ghost agrees: { OneGeneration seat.me.0.holds },
}

impl Model for Holder {
    ghost use Rattle.std.specs.Prelude.{◌≡◌, []};
    ghost use Rattle.frame_words.specs.Holders.{Holding};

    ghost Value = { Holding };

    ghost view = { λ a. record { table = a.seat.table_id; view = a.seat.me.0; agrees = a.agrees } };

    ghost invariant = { λ a. a.seat.me.1 ≡ [] };
}
