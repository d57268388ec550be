//! What holds of each litmus file: of what it asks for, and of its first fault.
ghost use Rattle.std.specs.Prelude.{◌≡◌, ◌≢◌, ℕ, List, Ok, Err};
ghost use Rattle.page_slots.specs.Litmus.{IsLitmus};
ghost use Rattle.page_slots.specs.declared.op.Litmus.{Litmus};
ghost use Rattle.litmus_file.specs.declared.fault.LitmusFault.{LitmusFault};
ghost use Rattle.litmus_file.specs.File.{litmus_of};

/// What a file asks for is within all bounds, and its first fault is never want of memory.
pub fn accepted()
    ensures within { (bytes : List ℕ) (litmus : Litmus) → litmus_of bytes ≡ Ok litmus → IsLitmus litmus }
    ensures told { (bytes : List ℕ) (fault : LitmusFault) → litmus_of bytes ≡ Err fault → fault ≢ LitmusFault.Memory }
{}
