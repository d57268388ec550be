//! The claims of all cells and guests.
ghost use Rattle.std.specs.Prelude.{◌≡◌, ◌≤◌, ◌++◌, length, IfOk, OnOk};
ghost use Rattle.boot_frames.specs.Claims.{cache_claims, page_claims, claims_of as all_claims};

use crate::claims::{Claim, Taker};
use crate::needs::Need;
use base_words::{CellId, GuestId};
use std::alloc::{AllocError, Global};

// The caches of so many cells behind other claims.
fn push_caches(claims: &mut Vec<Claim>, cells: u8, cache: u32) -> Result<(), AllocError>
    ensures { OnOk result (claims.new.items ≡ claims.old.items ++ cache_claims cache 0 cells) }
{
    for cell in 0..cells {
        claims.push(Claim {
            taker: Taker::Cache(CellId(cell)),
            frames: cache,
        })?;
    }
    Ok(())
}

// The pages of these guests behind other claims.
fn push_pages(claims: &mut Vec<Claim>, needs: &[Need]) -> Result<(), AllocError>
    requires { length needs.now ≤ 8 }
    ensures { OnOk result (claims.new.items ≡ claims.old.items ++ page_claims 0 needs.now) }
{
    for (number, need) in needs.iter().enumerate() {
        claims.push(Claim {
            taker: Taker::Pages(GuestId(number as u8), need.node),
            frames: need.pages,
        })?;
    }
    Ok(())
}

/// First so many cells with a cache of so many frames each, then these guests.
pub(crate) fn claims_of(
    alloc: Global,
    cells: u8,
    cache: u32,
    needs: &[Need],
) -> Result<Vec<Claim>, AllocError>
    requires { length needs.now ≤ 8 }
    ensures { IfOk result (λ claims. claims.items ≡ all_claims cells cache needs.now) }
{
    let mut claims = Vec::new(alloc);
    push_caches(&mut claims, cells, cache)?;
    push_pages(&mut claims, needs)?;
    Ok(claims)
}
