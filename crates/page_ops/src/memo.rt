//! Words and their flat forms, as they were met last.
ghost use Rattle.std.specs.Prelude.{◌≡◌, ◌≢◌};
ghost use Rattle.base_words.specs.OpcodeMap.{decoded};
ghost use Rattle.page_ops.specs.Ops.{instr_of, writes};

use crate::flattening::flat;
use crate::op::Op;
use std::alloc::{AllocError, Global};

/// How many places there are: one for each word of a page.
const PLACES: usize = 1024;

/// A word and its flat form.
#[derive(Clone, Copy)]
pub struct Met {
    pub(crate) word: u32,
    pub(crate) op: Op,
    ghost stands: { instr_of op ≡ decoded word },
    ghost target: { writes op ≢ 0 },
}

impl Met {
    /// A word that is met.
    pub(crate) fn new(word: u32) -> Self
        ensures { result.word ≡ word }
    {
        Met {
            word,
            op: flat(word),
        }
    }
}

/// Words that were met, each at the place of its offset in its page. Whatever stands there, the flat form is that of its word, so
/// nothing has to be dropped where memory changes.
#[derive(Drop)]
pub struct Memo {
    places: Box<[Met; PLACES]>,
}

impl Memo {
    /// A memo in which each place has the word 0.
    pub fn new(alloc: Global) -> Result<Self, AllocError> {
        Ok(Memo {
            places: Box::new(alloc, [Met::new(0); PLACES])?,
        })
    }

    /// Its places.
    #[inline(always)]
    pub fn places(&mut self) -> &mut [Met; PLACES] {
        &mut self.places
    }
}
