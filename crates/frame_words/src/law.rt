//! Laws of holds told by frames and by cells: what can be handed over, what a new holder has, and when there is nothing.
//! And laws of looks: of a call that was refused a share, and of the looks of calls that make several steps.
ghost use Rattle.std.specs.Prelude.{◌≡◌, ℕ, ◌<◌, ◌≤◌, List, [], ◌++◌, length};
ghost use Rattle.base_words.specs.declared.frame.Frame.{Frame};
ghost use Rattle.frame_words.specs.AddingUp.{HoldsAddUp, LooksAddUp, LooksTell};
ghost use Rattle.frame_words.specs.Refusals.{AddsShareRefusal, RefusesShare};
ghost use Rattle.frame_words.specs.Tails.{IsFirstLook, Omits};
ghost use Rattle.frame_words.specs.Views.{frame_holds, cell_loans, look};
ghost use Rattle.frame_words.specs.Splits.{named, HasHolds, HasNamed, HasOnlyNamed};
ghost use Rattle.frame_words.specs.Steps.{begun_with};
ghost use Rattle.frame_words.specs.declared.view.Look.{Look};
ghost use Rattle.frame_words.specs.declared.view.StepKind.TheVariants.{Load};
ghost use Rattle.frame_words.specs.declared.view.View.{View};

/// A holder that has these frames and loans can hand them over, and the holder to which they go has exactly these.
pub fn named_holds_are_frames_and_loans()
    ensures enough { (view : View) (frames : List Frame) (loans : List ℕ) → length loans ≤ 8
        → HasNamed view frames loans → HasHolds view (named frames loans) }
    ensures handed { (frames : List Frame) (loans : List ℕ) → length loans ≤ 8
        → HasOnlyNamed (begun_with (named frames loans)) frames loans }
{}

/// A holder with no frame and no loan has no hold at all, so it can be joined.
pub fn no_frame_and_no_loan_is_no_hold()
    ensures { (view : View) → ((frame : ℕ) → frame_holds view frame ≡ 0)
        → ((cell : ℕ) → cell < 8 → cell_loans view cell ≡ 0) → view.holds ≡ [] }
{}

/// A `share` that answers Gone or Many refuses among its own looks, also where a longer call has further looks behind them, or
/// before them such as omit the word; and its load is that call's first look on the word.
pub fn a_refused_share_is_the_first_look()
    ensures refuses { (v w : View) (word under : ℕ) (adds : AddsShareRefusal v word under w) → RefusesShare adds.looks word under }
    ensures longer { (tail later : List Look) (word under : ℕ) → RefusesShare tail word under → RefusesShare (tail ++ later) word under }
    ensures behind { (before tail : List Look) (word under : ℕ) → Omits word before → RefusesShare tail word under
        → RefusesShare (before ++ tail) word under }
    ensures first { (tail : List Look) (word under : ℕ) → RefusesShare tail word under
        → (seen : ℕ) × IsFirstLook tail (look Load word seen) }
{}

/// One hold more or less counts for its own word alone. What looks are and count, they are and count together; and what they tell
/// of a word, they tell also where a longer call has further looks behind them, or before them.
#[inline]
pub fn holds_and_looks_add_up()
    ensures holds { HoldsAddUp }
    ensures looks { LooksAddUp }
    ensures tell { LooksTell }
{}
