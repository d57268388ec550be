//! What follows for callers from the definitions. Nothing runs here.
ghost use Rattle.std.specs.Prelude.{◌≡◌, ◌≢◌, ◌<◌, ◌≤◌, ℕ, ◌*◌, ◌∷◌, List, length, Bool, Option, Some, None};
ghost use Rattle.frame_words.specs.FrameWords.{frame_word};
ghost use Rattle.frame_words.specs.Views.{hold};
ghost use Rattle.frame_words.specs.declared.view.View.{View};
ghost use Rattle.wire_queue.specs.Packets.{Handed, Packet};
ghost use Rattle.wire_queue.specs.Lines.{Line, Fits, LiesOn, IsHome};
ghost use Rattle.virtual_subnet.specs.Offering.{handed_on, offered};
ghost use Rattle.virtual_subnet.specs.Accepting.{HasFailed, HasFrameBelow, Accepts};
ghost use Rattle.virtual_subnet.specs.declared.answers.Accept.{Accept};
ghost use Rattle.virtual_subnet.specs.declared.answers.Accept.TheVariants.{Discarded, Copied, Remapped};
ghost use Rattle.virtual_subnet.specs.declared.answers.CopyCause.TheVariants.{Plain};

/// An offered packet goes on a wire of its sender where it is a copy, and also where it hands on a frame that lies on the packet's
/// cell, and this is the receiver's home.
pub fn offered_fits()
    ensures plain { (line : Line) (page : List ℕ) (length : ℕ) (shared : Option Handed) (cell : ℕ)
        → 1 ≤ length → length ≤ 4096 → handed_on length shared ≡ None
        → Fits line (offered page length shared cell line.from) }
    ensures whole { (line : Line) (page : List ℕ) (handed : Handed) (cell : ℕ)
        → LiesOn line.terms handed.frame cell → IsHome line.terms line.to cell
        → Fits line (offered page 4096 (Some handed) cell line.from) }
{}

/// A frame that a packet on a wire hands on is one of the machine's, which has the frames of one node so often as it has nodes.
pub fn frames_on_wires()
    ensures { (line : Line) (packet : Packet) → 0 < line.terms.frames → Fits line packet
        → HasFrameBelow (length line.terms.cells * line.terms.frames) packet }
{}

/// A packet is discarded exactly where its cell has failed, and called plain exactly where its cell has not and it hands on no
/// frame. Where it is remapped the holder holds its frame once more, and after all other answers it holds what it held.
pub fn accepted_tells()
    ensures failed { (dead : List Bool) (packet : Packet) (old new : View) (answer : Accept)
        → Accepts dead packet old answer new → HasFailed dead packet.cell
        → answer ≡ Discarded (record { 0 = packet.cell }) }
    ensures plain { (dead : List Bool) (packet : Packet) (old new : View) (answer : Accept)
        → Accepts dead packet old answer new → (HasFailed dead packet.cell → ⊥) → packet.whole ≡ None
        → answer ≡ Copied Plain }
    ensures remapped { (dead : List Bool) (packet : Packet) (old new : View) (handed : Handed)
        → Accepts dead packet old Remapped new → packet.whole ≡ Some handed
        → new.holds ≡ hold (frame_word handed.frame) handed.generation ∷ old.holds }
    ensures others { (dead : List Bool) (packet : Packet) (old new : View) (answer : Accept)
        → Accepts dead packet old answer new → answer ≢ Remapped → new.holds ≡ old.holds }
{}
