//! The frames of all cells and guests.
ghost use Rattle.std.specs.Prelude.{◌≡◌, ℕ, ◌<◌, ◌≤◌, [], ◌++◌, length, All, IfOk, None};
ghost use Rattle.std.specs.Result.{MatchResult};
ghost use Rattle.frame_words.specs.FrameRights.{first_view};
ghost use Rattle.frame_words.specs.Holders.{IsMade};
ghost use Rattle.node_frames.specs.Places.{FitsShape};
ghost use Rattle.node_frames.specs.Left.{first_left};
ghost use Rattle.boot_frames.specs.Chain.{after_claims, first_short, Tells};
ghost use Rattle.boot_frames.specs.Claims.{cache_claims, page_claims, claims_of as all_claims};
ghost use Rattle.boot_frames.specs.Lots.{ServesAll, times_given};
ghost use Rattle.node_frames.specs.Layout.{layout_of};

use crate::answers::Shortage;
use crate::claiming::claims_of;
use crate::filling::take_all;
use crate::lots::Placed;
use crate::needs::Need;
use crate::splitting::split_all;
use base_words::Shape;
use frame_words::{FrameTable, Holder};
use node_frames::first_holder_has_all;
use std::alloc::Global;

/// Takes frames from a table of which no frame was taken: first, for each of so many cells in order, those of its
/// cache, of its own nodes alone; then those of all guests in order. Each cell and each guest gets its frames and
/// their loans with a holder of its own; a cell has no loans. Nothing is left with the first holder.
pub fn place(
    alloc: Global,
    table: &FrameTable,
    holder: &mut Holder,
    shape: &Shape,
    cells: u8,
    cache: u32,
    needs: &[Need],
) -> Result<Placed, Shortage>
    requires made { IsMade table.now holder.old }
    requires fits { FitsShape table.now (layout_of shape.now) }
    requires first { holder.old.view ≡ first_view table.now.terms }
    requires fresh { table.now.terms.first < 4294967295 }
    requires few { length needs.now ≤ 8 }
    requires nodes { All (λ need. need.node.0 < shape.now.nodes) needs.now }
    ensures exactly { let left = first_left (layout_of shape.now) table.now.terms.lends in
        let short = first_short (layout_of shape.now) (all_claims cells cache needs.now) left in
        MatchResult result (λ placed. short ≡ None) (λ fault. Tells short fault) }
    ensures caches { let left = first_left (layout_of shape.now) table.now.terms.lends in
        IfOk result (λ placed. ServesAll table.now (layout_of shape.now) left (cache_claims cache 0 cells) placed.caches.items) }
    ensures guests { let left = after_claims (layout_of shape.now) (cache_claims cache 0 cells) (first_left (layout_of shape.now) table.now.terms.lends) in
        IfOk result (λ placed. ServesAll table.now (layout_of shape.now) left (page_claims 0 needs.now) placed.guests.items) }
    ensures apart { IfOk result (λ placed. (frame : ℕ) → times_given frame (placed.caches.items ++ placed.guests.items) ≤ 1) }
    ensures rest { IfOk result (λ placed. holder.new.view.holds ≡ []) }
    ensures same { holder.new.table ≡ holder.old.table }
{
    first_holder_has_all();
    let claims = claims_of(alloc, cells, cache, needs)?;
    let taken = take_all(alloc, table, holder, shape, claims.as_slice())?;
    let mut caches = split_all(alloc, table, holder, shape, taken)?;
    let guests = caches.split_off(cells as usize)?;
    Ok(Placed { caches, guests })
}
