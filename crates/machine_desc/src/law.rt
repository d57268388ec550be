//! What holds of each description: of one that is accepted, and of the first fault of another.
ghost use Rattle.std.specs.Prelude.{◌≡◌, ◌≢◌, ℕ, List, Ok, Err};
ghost use Rattle.machine_desc.specs.declared.fault.DescFault.{DescFault};
ghost use Rattle.machine_desc.specs.Accepted.{IsAccepted};
ghost use Rattle.machine_desc.specs.Described.{Described, description_of};

/// What bytes describe is within all bounds, and their first fault is never want of memory.
pub fn accepted()
    ensures within { (bytes : List ℕ) (d : Described) → description_of bytes ≡ Ok d → IsAccepted d }
    ensures told { (bytes : List ℕ) (fault : DescFault) → description_of bytes ≡ Err fault → fault ≢ DescFault.Memory }
{}
