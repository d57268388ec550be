//! What holds of what a processor reaches, for callers.
ghost use Rattle.std.specs.Prelude.{◌≡◌, Ok};
ghost use Rattle.private_machine.specs.Backing.{Held};
ghost use Rattle.private_machine.specs.Reaching.{Reached, Sight, Wanted, reached};
ghost use Rattle.private_machine.specs.Serving.{AllServe, Backs};

/// What is reached through halves that serve is a frame of a page of the guest.
pub fn reached_frames_back()
    ensures { (h : Held) (x : Sight) (w : Wanted) (at : Reached) → AllServe h x.tlb → reached x w ≡ Ok at → Backs h at.page at.frame }
{}
