//! Whether cells and guests get their frames, before anything is made.
ghost use Rattle.std.specs.Prelude.{◌≡◌, ◌*◌, ◌<◌, ◌≤◌, [], ◌∷◌, length, All, OnOk, None};
ghost use Rattle.std.specs.Result.{MatchResult};
ghost use Rattle.node_frames.specs.Left.{first_left};
ghost use Rattle.boot_frames.specs.Chain.{after_claim, first_short, Tells};
ghost use Rattle.boot_frames.specs.Claims.{IsAtHome, claims_of as all_claims};
ghost use Rattle.boot_frames.specs.Counts.{counted_left, AreCounted};
ghost use Rattle.boot_frames.specs.declared.answers.Shortage.{Shortage};
ghost use Rattle.boot_frames.specs.declared.answers.Shortage.TheVariants.{Memory};
ghost use Rattle.node_frames.specs.Layout.{layout_of};

use crate::answers::Shortage;
use crate::claiming::claims_of;
use crate::claims::Claim;
use crate::counts::Counts;
use crate::needs::Need;
use base_words::Shape;
use std::alloc::Global;

// The same for one claim, of what is left to it.
fn admit_claim(
    alloc: Global,
    shape: &Shape,
    counts: &mut Counts,
    claim: Claim,
) -> Result<(), Shortage>
    requires cells { AreCounted (layout_of shape.now) }
    requires numbered { shape.now.nodes * shape.now.frames < 4294967296 }
    requires home { IsAtHome (layout_of shape.now) claim.taker }
    ensures exactly { let short = first_short (layout_of shape.now) (claim ∷ []) (counted_left (layout_of shape.now) counts.old) in
        MatchResult result (λ _. short ≡ None) (λ fault. Tells short fault) }
    ensures left { let left = counted_left (layout_of shape.now) counts.old in
        OnOk result (counted_left (layout_of shape.now) counts.new ≡ after_claim (layout_of shape.now) claim left) }
{
    let order = claim.taker.order(alloc, shape)?;
    let has = counts.take_frames(shape, &order, claim);
    if has < claim.frames {
        return Err(claim.shortage(has));
    }
    Ok(())
}

/// Whether each cell gets so many frames for its cache and then each guest a frame for each of its pages, counted from
/// the machine's numbers alone: one after another and frame by frame, of nodes that have all their frames and cells
/// that lend so many. There are as many cells as lends. `place` answers the same of a table that was just made of
/// these numbers, so after an Ok it wants nothing but memory. Takes memory for the claims and the orders of nodes.
pub fn admit(
    alloc: Global,
    shape: &Shape,
    lends: &[u32],
    cache: u32,
    needs: &[Need],
) -> Result<(), Shortage>
    requires cells { All (λ cell. cell.0 < length lends.now) shape.now.cells }
    requires few_cells { length lends.now ≤ 8 }
    requires numbered { shape.now.nodes * shape.now.frames < 4294967296 }
    requires few { length needs.now ≤ 8 }
    requires nodes { All (λ need. need.node.0 < shape.now.nodes) needs.now }
    ensures exactly { let claims = all_claims (length lends.now) cache needs.now in
        let short = first_short (layout_of shape.now) claims (first_left (layout_of shape.now) lends.now) in
        MatchResult result (λ _. short ≡ None) (λ fault. Tells short fault) }
{
    let claims = claims_of(alloc, lends.len() as u8, cache, needs)?;
    let mut counts = Counts::all(shape, lends);
    for claim in claims.as_slice() {
        admit_claim(alloc, shape, &mut counts, *claim)?;
    }
    Ok(())
}

/// Where no claim is short, a refusal is want of memory: after an Ok of `admit`, `place` of a table of the same numbers
/// answers no other.
pub fn admitted_claims_want_memory_alone()
    ensures { (fault : Shortage) → Tells None fault → fault ≡ Memory }
{}
