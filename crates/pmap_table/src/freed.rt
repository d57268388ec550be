//! Frames that a guest no longer holds.
ghost use Rattle.std.specs.Prelude.{◌≡◌, ◌<◌, ◌≤◌, true, [], ◌∷◌, ◌++◌, length, option_map, IfNone};
ghost use Rattle.std.specs.Option.{option_to_list};
ghost use Rattle.base_words.specs.declared.ids.FrameNo.{FrameNo};

use arrayvec::ArrayVec;
use base_words::FrameNo;
use std::marker::Model;

/// How many frames the end of a move can free: a master and its replicas.
const MOST_FREED: usize = 8;

/// The frames that a guest holds once less than before and has to release, seen as their numbers.
#[derive(Drop)]
pub struct Freed {
    numbers: ArrayVec<u32, MOST_FREED>,
}

impl Model for Freed {
    ghost use Rattle.std.specs.Prelude.{List, ℕ};

    ghost Value = { List ℕ };

    ghost view = { λ f. f.numbers.items };
}

impl Freed {
    pub(crate) fn none() -> Self
        ensures { result ≡ [] }
    {
        Freed {
            numbers: ArrayVec::new(),
        }
    }

    /// One more, the last.
    pub(crate) fn push(&mut self, frame: FrameNo)
        requires { length self.old < 8 }
        ensures { self.new ≡ self.old ++ frame.0 ∷ [] }
    {
        self.numbers.push(frame.0);
    }

    /// How many there are.
    pub fn len(&self) -> u32
        ensures count { result ≡ length self.now }
        ensures most { result ≤ 8 }
    {
        self.numbers.len() as u32
    }

    /// Whether there are none.
    pub fn is_empty(&self) -> bool
        ensures { result ≡ true → self.now ≡ [] }
    {
        self.numbers.is_empty()
    }

    /// Takes the last of them.
    pub fn pop(&mut self) -> Option<FrameNo>
        ensures last { self.old ≡ self.new ++ option_to_list (option_map (λ (n : FrameNo). n.0) result) }
        ensures none { IfNone result (self.old ≡ []) }
    {
        Some(FrameNo(self.numbers.pop()?))
    }
}
