//! What the top call's contract says of each status.
ghost use Rattle.std.specs.Prelude.{◌≡◌, ◌⊎◌, ◌++◌, ℕ, List, Some, None, Err, codes};
ghost use Rattle.base_words.specs.Counts.{Rose};
ghost use Rattle.outside_io.specs.Reading.{ShelfView, Absent};
ghost use Rattle.outside_io.specs.Writing.{SinkView};
ghost use Rattle.guest_core.specs.declared.records.RunRecord.{RunRecord};
ghost use Rattle.admission.specs.declared.faults.Fault.TheVariants.{Read, CacheAdmission};
ghost use Rattle.admission.specs.Chain.{Files};
ghost use Rattle.admission.specs.Jobs.{job_of};
ghost use Rattle.admission.specs.Steady.{NeverReads};
ghost use Rattle.admission.specs.Words.{AsmSteps, Load, Make, form_of};
ghost use Rattle.monitor_run.specs.Exactly.{AreTold, Failed, FailedFile, IsExactly, IsMade, OrFails, RefusedLitmus, RefusedText, due_status};
ghost use Rattle.monitor_run.specs.FaultLines.{fault_line};
ghost use Rattle.monitor_run.specs.Headline.{Answers};
ghost use Rattle.monitor_run.specs.MadeRuns.{PrintsMade, RunsMade};
ghost use Rattle.monitor_run.specs.TextRuns.{RunsText};
ghost use Rattle.run_report.specs.Report.{line_end};

use admission::{made_accepted, steady, told};
use guest_asm::images_are_loaded;

/// The words alone give status 2. Files that the shelf tells give the status that is due by them, unless memory is wanting, a read
/// fails or the output does; and a file that it tells isn't there gives status 3. A number is
/// never refused. Status 9 is a text's alone, and status 10 a litmus file's.
pub fn exactly()
    ensures words { (w : List (List ℕ)) (a b : ShelfView) (c d : SinkView) (out : RunRecord) (status : ℕ)
        → Answers w a b c d out status → form_of w ≡ None → (status ≡ 2) ⊎ (status ≡ 1) }
    ensures only_words { (w : List (List ℕ)) (a b : ShelfView) (c d : SinkView) (out : RunRecord) (status : ℕ)
        → Answers w a b c d out status → status ≡ 2 → form_of w ≡ None }
    ensures told { (w : List (List ℕ)) (a b : ShelfView) (c d : SinkView) (out : RunRecord) (status : ℕ) (files : Files)
        → Answers w a b c d out status → AreTold a files → NeverReads (job_of w files)
        → IsExactly (due_status (job_of w files)) a b c d status }
    ensures made { (w : List (List ℕ)) (a b : ShelfView) (c d : SinkView) (out : RunRecord) (status : ℕ)
        → Answers w a b c d out status → IsMade (form_of w) → OrFails 0 c d status }
    ensures absent { (w : List (List ℕ)) (a b : ShelfView) (c d : SinkView) (out : RunRecord) (status : ℕ) (files : Files) (name : List ℕ)
        → Answers w a b c d out status → AreTold a files → a.told name ≡ Absent → job_of w files ≡ Err (Read name)
        → (status ≡ 1) ⊎ ((status ≡ 3) × Failed a b) }
    ensures only_read { (w : List (List ℕ)) (a b : ShelfView) (c d : SinkView) (out : RunRecord) (status : ℕ)
        → Answers w a b c d out status → status ≡ 3 → FailedFile w a b }
    ensures only_write { (w : List (List ℕ)) (a b : ShelfView) (c d : SinkView) (out : RunRecord) (status : ℕ)
        → Answers w a b c d out status → status ≡ 4 → Rose c.faults d.faults }
    ensures only_asm { (w : List (List ℕ)) (a b : ShelfView) (c d : SinkView) (out : RunRecord) (status : ℕ)
        → Answers w a b c d out status → status ≡ 9 → RefusedText w a b }
    ensures only_litmus { (w : List (List ℕ)) (a b : ShelfView) (c d : SinkView) (out : RunRecord) (status : ℕ)
        → Answers w a b c d out status → status ≡ 10 → RefusedLitmus w a b }
{
    steady();
    told();
    made_accepted();
}

/// What `--asm FILE --steps N` ran at status 0 is the file's text: no line of it is refused, the guest began with each word at its address
/// and zeros elsewhere, at the entry, and all that the claim says of a run holds of this one.
pub fn text_runs()
    ensures { (w : List (List ℕ)) (a b : ShelfView) (c d : SinkView) (out : RunRecord) (status : ℕ) (name : List ℕ) (steps : ℕ)
        → Answers w a b c d out status → form_of w ≡ Some (AsmSteps name steps) → status ≡ 0 → RunsText name steps a b out }
{
    images_are_loaded();
}

/// What `--load SEED` ran at status 0 is what is made from the number, each guest from its image and its disk, and all that the claim says
/// of a run holds of this one; and what `--make SEED` printed at status 0 is what is made.
pub fn made_runs()
    ensures load { (w : List (List ℕ)) (a b : ShelfView) (c d : SinkView) (out : RunRecord) (status : ℕ) (seed : ℕ)
        → Answers w a b c d out status → form_of w ≡ Some (Load seed) → status ≡ 0 → RunsMade seed c d out }
    ensures make { (w : List (List ℕ)) (a b : ShelfView) (c d : SinkView) (out : RunRecord) (status : ℕ) (seed : ℕ)
        → Answers w a b c d out status → form_of w ≡ Some (Make seed) → status ≡ 0 → PrintsMade seed c d out }
{
    made_accepted();
}

/// The line of a cell that is short, by example.
pub fn examples()
    ensures { fault_line (CacheAdmission (record { 0 = 0 }) 5 4) ≡ codes "fault admission cell 0 needs 5 has 4" ++ line_end }
{}
