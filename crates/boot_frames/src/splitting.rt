//! A holder for each claim.
ghost use Rattle.std.specs.Prelude.{◌≡◌, ◌<◌, All, [], IfOk};
ghost use Rattle.std.specs.List.{AllZip};
ghost use Rattle.frame_words.specs.Holders.{IsMade};
ghost use Rattle.frame_words.specs.Splits.{HasNamed, KeepsUnnamed};
ghost use Rattle.node_frames.specs.Places.{FitsShape};
ghost use Rattle.boot_frames.specs.Loans.{loans_of};
ghost use Rattle.boot_frames.specs.Givings.{HasAll, IsCountable, Gives};
ghost use Rattle.node_frames.specs.Layout.{layout_of};

use crate::loans::count_loans;
use crate::lots::Lot;
use crate::taken::Taken;
use base_words::Shape;
use frame_words::{
    FrameTable, Holder, named_holds_are_frames_and_loans, no_frame_and_no_loan_is_no_hold, split,
};
use std::alloc::{AllocError, Global};

// A new holder, to which a claim's frames go with their loans.
fn split_off(table: &FrameTable, holder: &mut Holder, shape: &Shape, taken: Taken) -> Lot
    requires made { IsMade table.now holder.old }
    requires fits { FitsShape table.now (layout_of shape.now) }
    requires countable { IsCountable (layout_of shape.now) taken }
    requires has { HasNamed holder.old.view taken.frames (loans_of (layout_of shape.now) taken.home.0 taken.frames) }
    ensures gives { Gives table.now (layout_of shape.now) taken result }
    ensures rest { KeepsUnnamed holder.old.view taken.frames (loans_of (layout_of shape.now) taken.home.0 taken.frames) holder.new.view }
    ensures same { holder.new.table ≡ holder.old.table }
{
    named_holds_are_frames_and_loans();
    let Taken { home, frames } = taken;
    let loans = count_loans(shape, home, &frames);
    let holder = split(table, holder, &frames, &loans);
    Lot { frames, holder }
}

// The same for each claim in order, until the first holder has nothing left.
pub(crate) fn split_all(
    alloc: Global,
    table: &FrameTable,
    holder: &mut Holder,
    shape: &Shape,
    taken: Vec<Taken>,
) -> Result<Vec<Lot>, AllocError>
    requires made { IsMade table.now holder.old }
    requires fits { FitsShape table.now (layout_of shape.now) }
    requires countable { All (IsCountable (layout_of shape.now)) taken.items }
    requires has { HasAll (layout_of shape.now) holder.old.view taken.items }
    ensures gives { IfOk result (λ lots. AllZip (Gives table.now (layout_of shape.now)) taken.items lots.items) }
    ensures rest { IfOk result (λ lots. holder.new.view.holds ≡ []) }
    ensures same { holder.new.table ≡ holder.old.table }
{
    no_frame_and_no_loan_is_no_hold();
    let mut lots = Vec::new(alloc);
    for one in taken {
        lots.push(split_off(table, holder, shape, one))?;
    }
    Ok(lots)
}
