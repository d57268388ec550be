//! The board: one word, its rule, and the four kinds of step on it.
use crate::view::View;
use atomic_table::{Join, Play, Seat, Shared, Split, Table, TableRule};
use std::alloc::Global;
use std::marker::{Brand, PhantomData};

/// How many tokens and seats a board has.
#[derive(Clone, Copy, Drop)]
pub struct Counts {
    pub tokens: u8,
    pub seats: u8,
}

/// The rule that holds between any two steps.
pub struct Agreement;

impl TableRule<(), View, Counts> for Agreement {
    ghost use Rattle.shootdown.specs.Board.{AllAgree};
    ghost use Rattle.shootdown.specs.Making.{all_of};

    ghost holds = { λ _. AllAgree };

    ghost first = { λ counts. all_of counts.tokens counts.seats };
}

/// The word on which all steps are made. It never changes.
pub type Board = Table<(), View, Counts, Agreement, Global>;

/// The word without what owns it.
pub type Word = Shared<(), View, Counts, Agreement>;

/// One who makes steps on the board, and the lists that it has.
pub type Place = Seat<(), View>;

/// Names notes.
pub trait Names {
    ghost use Rattle.std.specs.Prelude.{List};
    ghost use Rattle.shootdown.specs.declared.notes.Note.{Note};

    ghost named: { List Note };
}

impl Names for Brand {
    ghost use Rattle.std.specs.Prelude.{[]};

    ghost named = { [] };
}

/// The named notes go into both lists of a place that has one token's and one seat's.
pub struct Adds<W: Names> {
    of: PhantomData<W>,
}

impl<W: Names> Play<(), View> for Adds<W> {
    ghost use Rattle.shootdown.specs.Steps.{Added};

    ghost then = { Added W.named };
}

/// A load, which tells that all lists that a place has are in step.
pub struct Loads;

impl Play<(), View> for Loads {
    ghost use Rattle.shootdown.specs.Steps.{Loaded};

    ghost then = { Loaded };
}

/// A new place takes all lists.
pub struct Leaves;

impl Split<View> for Leaves {
    ghost use Rattle.shootdown.specs.Steps.{nothing};

    ghost left = { λ _. nothing };

    ghost right = { λ v. v };
}

/// A new place takes the lists of seats.
pub struct Parts;

impl Split<View> for Parts {
    ghost use Rattle.shootdown.specs.Steps.{tokens_of, seats_of};

    ghost left = { tokens_of };

    ghost right = { seats_of };
}

/// A new place takes the first token's list.
pub struct FirstToken;

impl Split<View> for FirstToken {
    ghost use Rattle.shootdown.specs.Steps.{other_tokens, first_token};

    ghost left = { other_tokens };

    ghost right = { first_token };
}

/// A new place takes the first seat's list.
pub struct FirstSeat;

impl Split<View> for FirstSeat {
    ghost use Rattle.shootdown.specs.Steps.{other_seats, first_seat};

    ghost left = { other_seats };

    ghost right = { first_seat };
}

/// A place takes all lists of another, which ends.
pub struct Meets;

impl Join<View> for Meets {
    ghost use Rattle.shootdown.specs.Steps.{both, nothing};

    ghost both = { both };

    ghost spent = { nothing };
}
