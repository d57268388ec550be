//! What the definitions say of words and of refusals.
ghost use Rattle.std.specs.Prelude.{◌≡◌, ◌↔◌, ℕ, List, [], ◌∷◌, codes, Some, None, Ok, Err};
ghost use Rattle.elf_image.specs.Fields.{elf_header};
ghost use Rattle.elf_image.specs.FirstFault.{first_fault};
ghost use Rattle.machine_desc.specs.Described.{description_of};
ghost use Rattle.guest_gen.specs.Description.{description_text};
ghost use Rattle.guest_gen.specs.Image.{image_of};
ghost use Rattle.guest_asm.specs.declared.fault.AsmCause.{AsmCause};
ghost use Rattle.admission.specs.declared.faults.Fault.{Fault};
ghost use Rattle.admission.specs.declared.faults.Fault.TheVariants.{Words, Asm};
ghost use Rattle.admission.specs.Chain.{Files};
ghost use Rattle.admission.specs.Generated.{generated};
ghost use Rattle.admission.specs.Jobs.{job_of, load_job, made_run, short_in};
ghost use Rattle.admission.specs.Steady.{IsSteady};
ghost use Rattle.admission.specs.Tells.{Tells};
ghost use Rattle.admission.specs.Texts.{RefusesLine};
ghost use Rattle.admission.specs.Words.{Form, Raw, Machine, Private, Make, Load, Litmus, Asm as AsmForm, AsmSteps, form_of};

use machine_desc::accepted;

/// Which words are forms, by examples: what the command's parser takes besides the plain ones, and what it refuses.
pub fn examples()
    ensures plain { form_of (codes "--raw" ∷ codes "a" ∷ codes "--steps" ∷ codes "5" ∷ []) ≡ Some (Raw (codes "a") 5) }
    ensures any_order { form_of (codes "--steps=5" ∷ codes "--raw" ∷ codes "a" ∷ []) ≡ Some (Raw (codes "a") 5) }
    ensures empty_name { form_of (codes "--raw=" ∷ codes "--steps" ∷ codes "0000000000" ∷ []) ≡ Some (Raw [] 0) }
    ensures last_dashes { form_of (codes "--machine" ∷ codes "m" ∷ codes "--" ∷ []) ≡ Some (Machine (codes "m")) }
    ensures dash_name { form_of (codes "--private=-x" ∷ []) ≡ Some (Private (codes "-x")) }
    ensures litmus_file { form_of (codes "--litmus" ∷ codes "l" ∷ []) ≡ Some (Litmus (codes "l")) }
    ensures asm_file { form_of (codes "--asm" ∷ codes "p" ∷ []) ≡ Some (AsmForm (codes "p")) }
    ensures asm_steps { form_of (codes "--steps" ∷ codes "7" ∷ codes "--asm" ∷ codes "p" ∷ []) ≡ Some (AsmSteps (codes "p") 7) }
    ensures litmus_steps { form_of (codes "--litmus" ∷ codes "l" ∷ codes "--steps" ∷ codes "5" ∷ []) ≡ None }
    ensures no_words { form_of [] ≡ None }
    ensures half { form_of (codes "--steps" ∷ codes "5" ∷ []) ≡ None }
    ensures twice { form_of (codes "--machine" ∷ codes "m" ∷ codes "--machine" ∷ codes "m" ∷ []) ≡ None }
    ensures two_forms { form_of (codes "--machine" ∷ codes "m" ∷ codes "--private" ∷ codes "m" ∷ []) ≡ None }
    ensures positional { form_of (codes "--machine" ∷ codes "m" ∷ codes "b" ∷ []) ≡ None }
    ensures many_steps { form_of (codes "--raw" ∷ codes "a" ∷ codes "--steps" ∷ codes "16000001" ∷ []) ≡ None }
    ensures seed { form_of (codes "--load" ∷ codes "7" ∷ []) ≡ Some (Load 7) }
    ensures greatest_seed { form_of (codes "--make=4294967295" ∷ []) ≡ Some (Make 4294967295) }
    ensures no_seed { form_of (codes "--make" ∷ codes "4294967296" ∷ []) ≡ None }
    ensures seed_steps { form_of (codes "--load" ∷ codes "7" ∷ codes "--steps" ∷ codes "5" ∷ []) ≡ None }
    ensures help { form_of (codes "--help" ∷ []) ≡ None }
{}

/// No refusal is want of memory; the words are refused only where they are none of the forms; and a line is refused exactly where the
/// words name a text that is read and of which it is the first line that is refused.
pub fn told()
    ensures tells { (words : List (List ℕ)) (files : Files) (fault : Fault) → job_of words files ≡ Err fault → Tells fault }
    ensures words { (words : List (List ℕ)) (files : Files) → job_of words files ≡ Err Words → form_of words ≡ None }
    ensures lines { (words : List (List ℕ)) (files : Files) (line : ℕ) (cause : AsmCause) → (job_of words files ≡ Err (Asm line cause)) ↔ RefusesLine words files line cause }
{
    accepted();
}

/// What some files ask for stays where more are known, and so does a failed read, where its file isn't among them.
pub fn steady()
    ensures { (words : List (List ℕ)) → IsSteady (λ files. job_of words files) }
{}

/// The description that is made is read as it is meant.
pub fn made_described()
    ensures { description_of (description_text 4 50000) ≡ Ok (generated 4 50000) }
{}

/// Each image that is made has no fault, whatever its number is.
pub fn made_loads()
    ensures sound { (start : ℕ) → first_fault (image_of start) 64 ≡ None }
    ensures entry { (start : ℕ) → (elf_header (image_of start)).e_entry ≡ 0xC000_0200 }
{}

/// Each cell's cache and each guest that is made gets its frames.
pub fn made_served()
    ensures { short_in (generated 4 50000) ≡ None }
{}

/// What is made is accepted, for every number.
pub fn made_accepted()
    ensures { (seed : ℕ) → load_job seed ≡ Ok (made_run seed) }
{}
