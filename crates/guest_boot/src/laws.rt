//! What sources are to the guests of a description, for callers to use.
ghost use Rattle.std.specs.Prelude.{◌≡◌, ℕ, List, length, Some, slice_get};
ghost use Rattle.machine_desc.specs.declared.machine.GuestSpec.{GuestSpec};
ghost use Rattle.guest_boot.specs.declared.source.Source.{Source};
ghost use Rattle.guest_boot.specs.Starting.{IsSource, AreSources};

/// Sources of all guests are as many as these, and each is its own guest's.
#[inline]
pub fn sources_are_their_guests()
    ensures count { (specs : List GuestSpec) (sources : List Source) → AreSources specs sources → length sources ≡ length specs }
    ensures each { (specs : List GuestSpec) (sources : List Source) (g : ℕ) (source : Source) (spec : GuestSpec) → AreSources specs sources → slice_get sources g ≡ Some source → slice_get specs g ≡ Some spec → IsSource spec source }
{}
