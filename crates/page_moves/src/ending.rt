//! How processors acknowledge a move, and how it ends.
ghost use Rattle.std.specs.Prelude.{◌≡◌, ◌<◌, ◌↔◌, IsTrue, Some, length};
ghost use Rattle.base_words.specs.Limits.{most_processors};
ghost use Rattle.private_machine.specs.Backing.{Copy, Move, TakesShared, page_at};
ghost use Rattle.private_machine.specs.PageMove.{left_by};
ghost use Rattle.pmap_table.specs.Ending.{Finishes, Takes};
ghost use Rattle.pmap_table.specs.PageMap.{with_page};
ghost use Rattle.page_moves.specs.Ending.{Awaits, IsReady, IsTaking};

use base_words::{MoveKind, Ppn};
use pmap_table::{Freed, Pmap};
use shootdown::ProcToken;

/// The token's processor has dropped what its TLB had of a page, and acknowledges the page's move.
pub fn acked(pmap: &mut Pmap, page: Ppn, token: &mut ProcToken)
    requires page { page.0 < length pmap.old.pages }
    requires processor { token.old.number < most_processors }
    requires awaits { Awaits pmap.old page.0 token.old.number }
    ensures left { pmap.new ≡ with_page pmap.old page.0 (left_by token.old.number (page_at pmap.old.pages page.0)) }
    ensures same { token.new ≡ token.old }
{
    pmap.unmap(page, token.number());
}

/// Whether a page has a move that waits for nobody.
pub fn is_ready(pmap: &Pmap, page: Ppn) -> bool
    requires { page.0 < length pmap.now.pages }
    ensures { IsTrue result ↔ IsReady pmap.now page.0 }
{
    match pmap.open_move(page) {
        Some(open) => open.waiting.is_empty(),
        None => false,
    }
}

/// Whether a page has a move that takes it shared.
pub fn is_taking(pmap: &Pmap, page: Ppn) -> bool
    requires { page.0 < length pmap.now.pages }
    ensures { IsTrue result ↔ IsTaking pmap.now page.0 }
{
    match pmap.open_move(page) {
        Some(open) => open.kind == MoveKind::TakeShared,
        None => false,
    }
}

/// Ends a move that all processors have acknowledged: the master's bytes at this moment are its frame's. The answer has the frames
/// to release.
pub fn finish(pmap: &mut Pmap, page: Ppn) -> Freed
    requires page { page.0 < length pmap.old.pages }
    requires ready { IsReady pmap.old page.0 }
    ensures { (m : Move) → (page_at pmap.old.pages page.0).move ≡ Some m → Finishes pmap.old page.0 m.change pmap.new result }
{
    pmap.finish(page)
}

/// The operation for which a page is taken shared ends that move, which all processors have acknowledged.
pub fn take_shared(pmap: &mut Pmap, page: Ppn) -> Freed
    requires page { page.0 < length pmap.old.pages }
    requires ready { IsReady pmap.old page.0 }
    requires taking { IsTaking pmap.old page.0 }
    ensures { (m : Move) (target : Copy) → (page_at pmap.old.pages page.0).move ≡ Some m → m.change ≡ TakesShared target → Takes pmap.old page.0 target pmap.new result }
{
    pmap.take_shared(page)
}

/// Ends a move that takes a page shared without a change, whatever processors it waits for.
pub fn drop_shared(pmap: &mut Pmap, page: Ppn) -> Freed
    requires page { page.0 < length pmap.old.pages }
    requires taking { IsTaking pmap.old page.0 }
    ensures { (m : Move) → (page_at pmap.old.pages page.0).move ≡ Some m → Finishes pmap.old page.0 m.change pmap.new result }
{
    pmap.finish(page)
}
