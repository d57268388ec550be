//! One holder becomes two, and two become one.
ghost use Rattle.std.specs.Prelude.{◌≡◌, ◌<◌, ◌≤◌, [], length};
ghost use Rattle.frame_words.specs.Holders.{IsMade};
ghost use Rattle.frame_words.specs.Steps.{left_with, begun_with, joined};
ghost use Rattle.frame_words.specs.Views.{KeepsRest};
ghost use Rattle.frame_words.specs.Splits.{named, HasHolds, KeepsUnnamed};

use crate::holder::Holder;
use crate::rights::{Cut, Ends, Part, Rights};
use crate::table::FrameTable;
use crate::terms::Terms;
use crate::view::View;
use atomic_table::{Seat, Shared};
use base_words::FrameList;
use std::marker::Brand;

type Words = Shared<(), View, Terms, Rights>;

// The seat is cut in two: the named holds and loans go to the new one.
fn cut<W: Part>(
    words: &Words,
    seat: &mut Seat<(), View>,
    frames: &FrameList,
    loans: &[u32],
) -> Seat<(), View>
    requires seat { seat.old.table_id ≡ words.now.table_id }
    requires words { 0 < words.now.table_id.words }
    requires named { W.part ≡ named frames.now loans.now }
    requires has { HasHolds seat.old.me.0 (named frames.now loans.now) }
    ensures left { seat.new.me ≡ (left_with (named frames.now loans.now) seat.old.me.0, seat.old.me.1) }
    ensures right { result.me ≡ (begun_with (named frames.now loans.now), []) }
    ensures same { (seat.new.table_id ≡ seat.old.table_id) × (result.table_id ≡ seat.old.table_id) }
{
    let _ = frames;
    let _ = loans;
    words.split_seat::<Cut<W>>(seat)
}

/// A new holder, to which one hold of each of these frames and these loans go, one number a cell.
pub fn split(table: &FrameTable, holder: &mut Holder, frames: &FrameList, loans: &[u32]) -> Holder
    requires made { IsMade table.now holder.old }
    requires has { HasHolds holder.old.view (named frames.now loans.now) }
    ensures left { holder.new.view ≡ left_with (named frames.now loans.now) holder.old.view }
    ensures right { result.view ≡ begun_with (named frames.now loans.now) }
    ensures rest { KeepsRest holder.old.view (named frames.now loans.now) holder.new.view }
    ensures unnamed { length loans.now ≤ 8 → KeepsUnnamed holder.old.view frames.now loans.now holder.new.view }
    ensures same { (holder.new.table ≡ holder.old.table) × (result.table ≡ holder.old.table) }
{
    let words = &table.table.shared;
    Holder {
        seat: cut::<Brand>(words, &mut holder.seat, frames, loans),
    }
}

/// Ends the other holder, which has no hold and no loan.
pub fn join(table: &FrameTable, holder: &mut Holder, other: Holder)
    requires made { IsMade table.now holder.old × IsMade table.now other }
    requires empty { other.view.holds ≡ [] }
    ensures joined { holder.new.view ≡ joined holder.old.view }
    ensures same { holder.new.table ≡ holder.old.table }
{
    let Holder { seat: last } = other;
    let words = &table.table.shared;
    words.join_seat::<Ends>(&mut holder.seat, last);
}
