//! The guests of a run, each under its lock.
ghost use Rattle.std.specs.Prelude.{◌+◌, ◌≤◌, OnOk, OnErr, IfOk, length, ◌≡◌, ◌<◌};
ghost use Rattle.std.specs.Vec.Iter.{into_iter_items};
ghost use Rattle.guest_lock.specs.Guests.{IsThere, GuestsFrom, GuestsBelow};
ghost use Rattle.base_words.specs.Limits.{most_cells};
ghost use Rattle.guest_core.specs.GuestView.{shared_by};
ghost use Rattle.guest_lock.specs.Fits.{Fits};
ghost use Rattle.guest_lock.specs.Fates.{FailsFirst, FailsNext, FailsSome, WantsAt};

use crate::{GuestCell, Starts};
use base_words::{CellId, GuestId, GuestList};
use guest_core::{Fate, Guest, Resources};
use shootdown::ProcToken;
use std::alloc::{AllocError, Global};
use std::sync::Wait;
use std::vec::IntoIter;

/// The guests of a run, each under its lock: a cell for each number, with the guest of that number where there is one.
#[derive(Drop)]
pub struct GuestCells<N: Starts> {
    pub zero: Option<GuestCell<N, 0>>,
    pub one: Option<GuestCell<N, 1>>,
    pub two: Option<GuestCell<N, 2>>,
    pub three: Option<GuestCell<N, 3>>,
    pub four: Option<GuestCell<N, 4>>,
    pub five: Option<GuestCell<N, 5>>,
    pub six: Option<GuestCell<N, 6>>,
    pub seven: Option<GuestCell<N, 7>>,
    ghost zero_there: { IsThere zero 0 N.starts },
    ghost one_there: { IsThere one 1 N.starts },
    ghost two_there: { IsThere two 2 N.starts },
    ghost three_there: { IsThere three 3 N.starts },
    ghost four_there: { IsThere four 4 N.starts },
    ghost five_there: { IsThere five 5 N.starts },
    ghost six_there: { IsThere six 6 N.starts },
    ghost seven_there: { IsThere seven 7 N.starts },
}

/// The next guest under its lock, if there is one.
fn cell_of<N: Starts, const G: u8>(guests: &mut IntoIter<Guest>) -> Option<GuestCell<N, G>>
    requires { GuestsFrom N.starts N.board N.shared G (into_iter_items guests.old) }
    ensures rest { GuestsFrom N.starts N.board N.shared (G + 1) (into_iter_items guests.new) }
    ensures there { IsThere result G N.starts }
{
    match guests.next() {
        Some(guest) => Some(GuestCell::new(guest)),
        None => None,
    }
}

/// Puts the guest behind those of lower numbers, if there is one.
fn take_cell<N: Starts, const G: u8>(
    cell: Option<GuestCell<N, G>>,
    guests: &mut Vec<Guest>,
) -> Result<(), AllocError>
    requires there { IsThere cell G N.starts }
    requires below { GuestsBelow N.starts N.board N.shared G guests.old.items }
    ensures { OnOk result (GuestsBelow N.starts N.board N.shared (G + 1) guests.new.items) }
{
    if let Some(cell) = cell {
        guests.push(cell.take_out())?;
    }
    Ok(())
}

/// A cell fails for the guest of this number, if there is one.
fn fail_one<N: Starts, const G: u8, R: Wait>(
    rt: &R,
    there: &Option<GuestCell<N, G>>,
    token: &mut ProcToken,
    cell: CellId,
    resources: &Resources,
    ended: &mut GuestList,
) -> Result<(), AllocError>
    requires there { IsThere there.now G N.starts }
    requires token { Fits N.starts N.board token.old }
    requires cell { cell.0 < most_cells }
    requires shared { shared_by resources.now ≡ N.shared }
    ensures fails { OnOk result (FailsNext cell (length N.starts) G token.old ended.old token.new ended.new) }
    ensures wants { OnErr result (WantsAt cell (length N.starts) G token.old token.new) }
    ensures same { (token.new.board ≡ token.old.board) × (token.new.number ≡ token.old.number) }
{
    if let Some(guest) = there {
        if guest.fail(rt, token, cell, resources)? == Fate::Ends {
            ended.push(GuestId(G))?;
        }
    }
    Ok(())
}

/// A cell fails for each guest of the run, in order, under its lock: the guests that it ends. After want of memory the guests before one
/// guest have had the event, the others have not, and the token was told so.
pub fn fail_all<N: Starts, R: Wait>(
    rt: &R,
    alloc: Global,
    token: &mut ProcToken,
    guests: &GuestCells<N>,
    cell: CellId,
    resources: &Resources,
) -> Result<GuestList, AllocError>
    requires few { length N.starts ≤ 8 }
    requires token { Fits N.starts N.board token.old }
    requires cell { cell.0 < most_cells }
    requires shared { shared_by resources.now ≡ N.shared }
    ensures fails { IfOk result (λ ended. FailsFirst cell (length N.starts) token.old token.new ended) }
    ensures wants { OnErr result (FailsSome cell (length N.starts) token.old token.new) }
    ensures same { (token.new.board ≡ token.old.board) × (token.new.number ≡ token.old.number) }
{
    let mut ended = GuestList::new(alloc);
    fail_one(rt, &guests.zero, token, cell, resources, &mut ended)?;
    fail_one(rt, &guests.one, token, cell, resources, &mut ended)?;
    fail_one(rt, &guests.two, token, cell, resources, &mut ended)?;
    fail_one(rt, &guests.three, token, cell, resources, &mut ended)?;
    fail_one(rt, &guests.four, token, cell, resources, &mut ended)?;
    fail_one(rt, &guests.five, token, cell, resources, &mut ended)?;
    fail_one(rt, &guests.six, token, cell, resources, &mut ended)?;
    fail_one(rt, &guests.seven, token, cell, resources, &mut ended)?;
    Ok(ended)
}

impl<N: Starts> GuestCells<N> {
    /// Puts all guests of the run under their locks.
    pub fn new(guests: Vec<Guest>) -> Self
        requires { GuestsFrom N.starts N.board N.shared 0 guests.items }
    {
        let mut guests = guests.into_iter();
        let zero = cell_of::<N, 0>(&mut guests);
        let one = cell_of::<N, 1>(&mut guests);
        let two = cell_of::<N, 2>(&mut guests);
        let three = cell_of::<N, 3>(&mut guests);
        let four = cell_of::<N, 4>(&mut guests);
        let five = cell_of::<N, 5>(&mut guests);
        let six = cell_of::<N, 6>(&mut guests);
        let seven = cell_of::<N, 7>(&mut guests);
        GuestCells {
            zero,
            one,
            two,
            three,
            four,
            five,
            six,
            seven,
        }
    }

    /// All guests of the run, out of their locks.
    pub fn take_out(self, alloc: Global) -> Result<Vec<Guest>, AllocError>
        requires { length N.starts ≤ 8 }
        ensures { IfOk result (λ guests. GuestsFrom N.starts N.board N.shared 0 guests.items) }
    {
        let GuestCells {
            zero,
            one,
            two,
            three,
            four,
            five,
            six,
            seven,
        } = self;
        let mut guests = Vec::new(alloc);
        take_cell(zero, &mut guests)?;
        take_cell(one, &mut guests)?;
        take_cell(two, &mut guests)?;
        take_cell(three, &mut guests)?;
        take_cell(four, &mut guests)?;
        take_cell(five, &mut guests)?;
        take_cell(six, &mut guests)?;
        take_cell(seven, &mut guests)?;
        Ok(guests)
    }
}
