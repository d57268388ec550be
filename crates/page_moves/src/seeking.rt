//! The moves that can go on.
ghost use Rattle.std.specs.Prelude.{◌<◌, IfSome, IfNone};
ghost use Rattle.base_words.specs.Limits.{most_processors};
ghost use Rattle.base_words.specs.declared.ids.Ppn.{Ppn};
ghost use Rattle.pmap_table.specs.Tracking.{waits_for, is_ready, IsLowest, HoldsNowhere};
ghost use Rattle.page_moves.specs.Ending.{Awaits, IsReady};

use base_words::{Ppn, ProcId};
use pmap_table::Pmap;

/// The lowest page whose move waits for a processor.
#[inline]
pub fn first_waiting(pmap: &Pmap, processor: ProcId) -> Option<Ppn>
    requires { processor.0 < most_processors }
    ensures lowest { IfSome result (λ (q : Ppn). IsLowest (waits_for processor.0) pmap.now.pages q.0) }
    ensures awaits { IfSome result (λ (q : Ppn). Awaits pmap.now q.0 processor.0) }
    ensures none { IfNone result (HoldsNowhere (waits_for processor.0) pmap.now.pages) }
{
    pmap.first_waiting(processor)
}

/// The lowest page with a move that waits for nobody and that no operation has to end.
#[inline]
pub fn first_ready(pmap: &Pmap) -> Option<Ppn>
    ensures lowest { IfSome result (λ (q : Ppn). IsLowest is_ready pmap.now.pages q.0) }
    ensures ready { IfSome result (λ (q : Ppn). IsReady pmap.now q.0) }
    ensures none { IfNone result (HoldsNowhere is_ready pmap.now.pages) }
{
    pmap.first_ready()
}
