//! An index ends: its frames are given back.
ghost use Rattle.std.specs.Prelude.{◌≡◌, []};
ghost use Rattle.frame_words.specs.Holders.{IsMade};
ghost use Rattle.cow_disk.specs.Giving.{HoldsFrames, AreBelow};

use crate::index::{CacheFrame, SharedIndex};
use frame_words::{FrameTable, Holder, give_back, no_frame_and_no_loan_is_no_hold};

/// Gives each of these frames back.
fn give_all(frames: &[CacheFrame], table: &FrameTable, holder: &mut Holder)
    requires made { IsMade table.now holder.old }
    requires holds { HoldsFrames holder.old.view frames.now }
    requires below { AreBelow table.now.terms.frames frames.now }
    ensures nothing { HoldsFrames holder.new.view [] }
    ensures same { holder.new.table ≡ holder.old.table }
{
    for frame in frames {
        give_back(table, holder, frame.number);
    }
}

/// Ends an index that nobody reads any more. The holder, which held each of its frames once and nothing else, gives them back.
pub fn give_back_all(index: SharedIndex, table: &FrameTable, holder: &mut Holder)
    requires made { IsMade table.now holder.old }
    requires holds { HoldsFrames holder.old.view index.frames }
    requires below { AreBelow table.now.terms.frames index.frames }
    ensures nothing { holder.new.view.holds ≡ [] }
    ensures same { holder.new.table ≡ holder.old.table }
{
    no_frame_and_no_loan_is_no_hold();
    give_all(&index.frames, table, holder);
}
