//! What the guests of a description need.
ghost use Rattle.std.specs.Prelude.{◌≡◌, ℕ, ◌<◌, All, IfOk, map};
ghost use Rattle.machine_desc.specs.Bounds.{IsGuest};
ghost use Rattle.boot_frames.specs.Needs.{need_of};

use crate::needs::Need;
use machine_desc::GuestSpec;
use std::alloc::{AllocError, Global};

/// What each of these guests needs, in order. Guests that are accepted are at home on nodes that are there.
pub fn needs_of(alloc: Global, specs: &[GuestSpec]) -> Result<Vec<Need>, AllocError>
    ensures needs { IfOk result (λ needs. needs.items ≡ map need_of specs.now) }
    ensures at_home { (nodes : ℕ) → All (IsGuest nodes) specs.now → IfOk result (λ needs. All (λ need. need.node.0 < nodes) needs.items) }
{
    let mut needs = Vec::new(alloc);
    for spec in specs {
        needs.push(Need {
            node: spec.node,
            pages: spec.pages,
        })?;
    }
    Ok(needs)
}
