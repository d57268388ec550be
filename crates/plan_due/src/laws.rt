//! When a record is due for its plan.
ghost use Rattle.std.specs.Prelude.{◌≡◌, ℕ, List, None};
ghost use Rattle.shootdown.specs.Notes.{Token, Seat, with_side};
ghost use Rattle.shootdown.specs.declared.view.SidedNote.{SidedNote};
ghost use Rattle.guest_core.specs.Noting.{shows_loaded};
ghost use Rattle.plan_due.specs.Dealt.{dealt};
ghost use Rattle.plan_due.specs.Leftover.{Leftover};
ghost use Rattle.plan_due.specs.Planned.{Planned};
ghost use Rattle.plan_due.specs.PlanDue.{Left, IsDue};
ghost use Rattle.plan_due.specs.Slices.{Machine, AreTold};
ghost use Rattle.plan_due.specs.declared.outcome.Outcome.{Outcome};

use isolation_law::{failures_stay, journals_tell};

/// What workers were told and what guests noted, once all of it agrees, is due for the plan.
pub fn plans_are_due()
    ensures { (m : Machine) (plan : List Planned) (tokens : List Token) (queues : List (List Outcome)) (guests : List Left) (seats : List Seat)
        → Leftover m plan tokens queues guests seats → IsDue m plan guests (dealt plan queues) }
{
    failures_stay();
    journals_tell();
}

/// Nothing is loaded on a processor once its items are carried out.
pub fn items_unload()
    ensures { (m : Machine) (guest : ℕ) (plan : List Planned) (outcomes : List Outcome) (notes : List SidedNote)
        → AreTold m plan outcomes notes → shows_loaded (with_side guest notes) ≡ None }
{}
