//! The rule that every step keeps, and what each kind of step tells.
ghost use Rattle.std.specs.Prelude.{ℕ};

use crate::terms::Terms;
use crate::view::View;
use atomic_table::{Join, Play, Split, TableRule};
use std::marker::{Brand, PhantomData};

/// Counts are sums over all views, generations agree, loans stay within the lends, and alone means alone.
pub struct Rights;

impl TableRule<(), View, Terms> for Rights {
    ghost use Rattle.frame_words.specs.FrameRights.{FrameRights, first_view};

    ghost holds = { FrameRights };

    ghost first = { first_view };
}

pub struct Loads;

impl Play<(), View> for Loads {
    ghost use Rattle.frame_words.specs.Steps.{Loaded};

    ghost then = { Loaded };
}

pub struct Takes;

impl Play<(), View> for Takes {
    ghost use Rattle.frame_words.specs.Steps.{Taken};

    ghost then = { Taken };
}

pub struct Shares;

impl Play<(), View> for Shares {
    ghost use Rattle.frame_words.specs.Steps.{Added};
    ghost use Rattle.frame_words.specs.declared.view.StepKind.TheVariants.{Share};

    ghost then = { Added Share };
}

pub struct Borrows;

impl Play<(), View> for Borrows {
    ghost use Rattle.frame_words.specs.Steps.{Added};
    ghost use Rattle.frame_words.specs.declared.view.StepKind.TheVariants.{Borrow};

    ghost then = { Added Borrow };
}

pub struct GivesBack;

impl Play<(), View> for GivesBack {
    ghost use Rattle.frame_words.specs.Steps.{Given};
    ghost use Rattle.frame_words.specs.declared.view.StepKind.TheVariants.{GiveBack};

    ghost then = { Given GiveBack };
}

pub struct Repays;

impl Play<(), View> for Repays {
    ghost use Rattle.frame_words.specs.Steps.{Given};
    ghost use Rattle.frame_words.specs.declared.view.StepKind.TheVariants.{Repay};

    ghost then = { Given Repay };
}

/// Names a cell's lend.
pub trait Lend {
    ghost most: { ℕ };
}

impl Lend for Brand {
    ghost most = { 0 };
}

/// A load of a cell's word, which is at most the cell's lend.
pub struct LoadsLoans<W: Lend> {
    of: PhantomData<W>,
}

impl<W: Lend> Play<(), View> for LoadsLoans<W> {
    ghost use Rattle.std.specs.Prelude.{◌≤◌};
    ghost use Rattle.frame_words.specs.Steps.{Loaded};

    ghost then = { λ st m n m'. Loaded st m n m' × (n ≤ W.most) };
}

/// Names holds and loans.
pub trait Part {
    ghost use Rattle.std.specs.Prelude.{List, []};
    ghost use Rattle.frame_words.specs.declared.view.Hold.{Hold};

    ghost part: { List Hold };
}

impl Part for Brand {
    ghost use Rattle.std.specs.Prelude.{[]};

    ghost part = { [] };
}

/// The named holds and loans go to a new holder.
pub struct Cut<W: Part> {
    of: PhantomData<W>,
}

impl<W: Part> Split<View> for Cut<W> {
    ghost use Rattle.frame_words.specs.Steps.{left_with, begun_with};

    ghost left = { left_with W.part };

    ghost right = { λ _. begun_with W.part };
}

/// A holder with nothing ends in another.
pub struct Ends;

impl Join<View> for Ends {
    ghost use Rattle.std.specs.Prelude.{[]};
    ghost use Rattle.frame_words.specs.Steps.{begun_with, joined};

    ghost both = { λ v _. joined v };

    ghost spent = { begun_with [] };
}
