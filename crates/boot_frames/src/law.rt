//! Laws of claims, and of what each cell and each guest has.
ghost use Rattle.std.specs.Prelude.{◌≡◌, ◌≢◌, ℕ, ◌<◌, ◌≤◌, [], ◌++◌, List, Some, None, All, length, take, slice_get};
ghost use Rattle.base_words.specs.declared.frame.Frame.{Frame};
ghost use Rattle.base_words.specs.declared.ids.CellId.{CellId};
ghost use Rattle.base_words.specs.declared.ids.GuestId.{GuestId};
ghost use Rattle.frame_words.specs.Holders.{MadeTable, IsMade};
ghost use Rattle.frame_words.specs.Splits.{frame_times, frames_named};
ghost use Rattle.frame_words.specs.Steps.{begun_with};
ghost use Rattle.frame_words.specs.Views.{frame_holds, cell_loans};
ghost use Rattle.node_frames.specs.Layout.{Layout};
ghost use Rattle.node_frames.specs.Left.{Left};
ghost use Rattle.boot_frames.specs.Chain.{after_claims, first_short};
ghost use Rattle.boot_frames.specs.Claims.{home_of, cache_claim, cache_claims, page_claim, page_claims, claims_of as all_claims};
ghost use Rattle.boot_frames.specs.Loans.{cell_of_frame, loans_in};
ghost use Rattle.boot_frames.specs.Lots.{Has, Serves, ServesAll, times_given};
ghost use Rattle.boot_frames.specs.Names.{HaveCaches, NamesCell, NamesGuest};
ghost use Rattle.boot_frames.specs.declared.answers.Shortage.{Shortage};
ghost use Rattle.boot_frames.specs.declared.answers.Shortage.TheVariants.{Cell, Guest};
ghost use Rattle.boot_frames.specs.declared.claims.Claim.{Claim};
ghost use Rattle.boot_frames.specs.declared.lots.Lot.{Lot};
ghost use Rattle.boot_frames.specs.declared.needs.Need.{Need};

use frame_words::named_holds_are_frames_and_loans;
use node_frames::a_nodes_frames_are_a_range;

/// A shortage names the first cell whose own nodes have too few frames, whatever the cells before it took; and a guest
/// only where each cell has its cache. Where none is short each cell has enough.
pub fn the_first_short_is_one_of_them()
    ensures cell { (layout : Layout) (cells cache : ℕ) (needs : List Need) (left : Left) (cell : CellId) (frames has : ℕ)
        → first_short layout (all_claims cells cache needs) left ≡ Some (Cell cell frames has)
        → NamesCell layout cells cache left cell frames has }
    ensures guest { (layout : Layout) (cells cache : ℕ) (needs : List Need) (left : Left) (guest : GuestId) (pages has : ℕ)
        → first_short layout (all_claims cells cache needs) left ≡ Some (Guest guest pages has)
        → NamesGuest layout cells cache needs left guest pages has }
    ensures none { (layout : Layout) (cells cache : ℕ) (needs : List Need) (left : Left)
        → first_short layout (all_claims cells cache needs) left ≡ None → HaveCaches layout cells cache left }
{}

/// Claims behind others change nothing for those, and where those have enough they have what those leave.
pub fn first_short_is_told_in_order()
    ensures later { (layout : Layout) (claims more : List Claim) (left : Left) (short : Shortage)
        → first_short layout claims left ≡ Some short → first_short layout (claims ++ more) left ≡ Some short }
    ensures fewer { (layout : Layout) (claims more : List Claim) (left : Left)
        → first_short layout (claims ++ more) left ≡ None → first_short layout claims left ≡ None }
    ensures behind { (layout : Layout) (claims more : List Claim) (left : Left) → first_short layout claims left ≡ None
        → first_short layout (claims ++ more) left ≡ first_short layout more (after_claims layout claims left) }
{}

/// Each cell in order has its lot, of what the cells before it left.
pub fn each_cell_has_its_lot()
    ensures all { (table : MadeTable) (layout : Layout) (left : Left) (cache cells : ℕ) (lots : List Lot)
        → ServesAll table layout left (cache_claims cache 0 cells) lots → length lots ≡ cells }
    ensures each { (table : MadeTable) (layout : Layout) (left : Left) (cache cells : ℕ) (lots : List Lot)
        → ServesAll table layout left (cache_claims cache 0 cells) lots → (cell : ℕ) (lot : Lot) → slice_get lots cell ≡ Some lot
        → Serves table layout (after_claims layout (cache_claims cache 0 cell) left) (cache_claim cache cell) lot }
{}

/// Each guest in order has its lot, of what the guests before it left.
pub fn each_guest_has_its_lot()
    ensures all { (table : MadeTable) (layout : Layout) (left : Left) (needs : List Need) (lots : List Lot)
        → ServesAll table layout left (page_claims 0 needs) lots → length lots ≡ length needs }
    ensures each { (table : MadeTable) (layout : Layout) (left : Left) (needs : List Need) (lots : List Lot)
        → ServesAll table layout left (page_claims 0 needs) lots → (guest : ℕ) (need : Need) (lot : Lot)
        → slice_get needs guest ≡ Some need → slice_get lots guest ≡ Some lot
        → Serves table layout (after_claims layout (page_claims 0 (take guest needs)) left) (page_claim guest need) lot }
{}

/// No frame stands twice in one lot, or in two lots.
pub fn no_frame_is_given_twice()
    ensures once { (lots : List Lot) (frame : ℕ) → times_given frame lots ≤ 1 → (place : ℕ) (lot : Lot)
        → slice_get lots place ≡ Some lot → frame_times frame lot.frames ≤ 1 }
    ensures apart { (lots : List Lot) (frame : ℕ) → times_given frame lots ≤ 1 → (place other : ℕ) (lot more : Lot)
        → slice_get lots place ≡ Some lot → slice_get lots other ≡ Some more → place ≢ other
        → 0 < frame_times frame lot.frames → frame_times frame more.frames ≡ 0 }
{}

/// A lot's holder holds each of its frames as often as it stands in the lot and under its generation, and of each cell
/// the loans that they take.
pub fn a_lot_holds_its_frames()
    ensures frames { (table : MadeTable) (layout : Layout) (left : Left) (claim : Claim) (lot : Lot) → Serves table layout left claim lot
        → (frame : ℕ) → frame_holds lot.holder.view frame ≡ frame_times frame lot.frames }
    ensures under { (table : MadeTable) (layout : Layout) (left : Left) (claim : Claim) (lot : Lot) → Serves table layout left claim lot
        → All (Has lot.holder.view.holds) lot.frames }
    ensures loans { (table : MadeTable) (layout : Layout) (left : Left) (claim : Claim) (lot : Lot) → Serves table layout left claim lot
        → (cell : ℕ) → cell < 8 → cell_loans lot.holder.view cell ≡ loans_in layout (home_of layout claim.taker) lot.frames cell }
{
    named_holds_are_frames_and_loans();
}

/// The frames of a cell's cache lie in the cell, so its holder holds exactly these, and no loan.
pub fn a_cache_lies_in_its_cell()
    ensures inside { (table : MadeTable) (layout : Layout) (left : Left) (cache cell : ℕ) (lot : Lot) → 0 < layout.frames
        → Serves table layout left (cache_claim cache cell) lot → All (λ (f : Frame). cell_of_frame layout f ≡ cell) lot.frames }
    ensures exactly { (table : MadeTable) (layout : Layout) (left : Left) (cache cell : ℕ) (lot : Lot) → 0 < layout.frames
        → Serves table layout left (cache_claim cache cell) lot → lot.holder.view ≡ begun_with (frames_named lot.frames) }
{
    a_nodes_frames_are_a_range();
}

/// Where the caches have no frames, all is left to the guests, and the caches' holders have nothing.
pub fn an_empty_cache_takes_nothing()
    ensures enough { (layout : Layout) (cells : ℕ) (left : Left) → first_short layout (cache_claims 0 0 cells) left ≡ None }
    ensures left { (layout : Layout) (cells : ℕ) (left : Left) → after_claims layout (cache_claims 0 0 cells) left ≡ left }
    ensures lots { (table : MadeTable) (layout : Layout) (left : Left) (cells : ℕ) (lots : List Lot)
        → ServesAll table layout left (cache_claims 0 0 cells) lots
        → All (λ (lot : Lot). (lot.holder.view.holds ≡ []) × IsMade table lot.holder) lots }
{}
