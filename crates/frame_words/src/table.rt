//! The table of the words: how it is made, and its end.
ghost use Rattle.std.specs.Prelude.{◌≡◌, ◌<◌, ◌≤◌, ◌++◌, ◌*◌, [], length, replicate, slice_index, IfOk, ℕ};
ghost use Rattle.atomic_table.specs.Table.{State};
ghost use Rattle.frame_words.specs.FrameRights.{FrameRights, IsView, first_view};
ghost use Rattle.frame_words.specs.Holders.{IsMade};
ghost use Rattle.frame_words.specs.declared.view.View.{View};

use crate::holder::Holder;
use crate::packing::{CELLS, GENERATION};
use crate::rights::Rights;
use crate::terms::Terms;
use crate::view::View;
use atomic_table::Table;
use base_words::LendList;
use std::alloc::{AllocError, Global};
use std::marker::Model;

/// The words of all frames and cells. Threads share it by `&`.
#[derive(Drop)]
pub struct FrameTable {
    pub(crate) table: Table<(), View, Terms, Rights, Global>,
    pub(crate) terms: Terms,
}

impl Model for FrameTable {
    ghost use Rattle.frame_words.specs.Holders.{MadeTable};

    ghost Value = { MadeTable };

    ghost use Rattle.frame_words.specs.TableParts.{IsWhole};

    ghost view = { λ a. record { id = a.table.shared.table_id; terms = a.terms } };

    ghost invariant = { IsWhole };
}

impl FrameTable {
    /// A table of this many frames, each under its first generation with no holder, and of one cell a lend,
    /// with no loans. The holder is alone.
    pub fn new(
        alloc: Global,
        frames: u32,
        lends: &[u32],
        first: u32,
    ) -> Result<(FrameTable, Holder), AllocError>
        requires frames { 0 < frames }
        requires cells { (0 < length lends.now) × (length lends.now ≤ 8) }
        ensures terms { IfOk result (λ made. let terms = made.0.terms in
            (terms.frames ≡ frames) × (terms.first ≡ first) × (terms.lends ≡ lends.now)) }
        ensures made { IfOk result (λ made. IsMade made.0 made.1) }
        ensures view { IfOk result (λ made. made.1.view ≡ first_view made.0.terms) }
    {
        let mut lent = Vec::new(alloc);
        lent.extend_from_slice(lends)?;
        let terms = Terms {
            frames,
            first,
            lends: LendList::from_vec(lent),
        };
        let words = first_words(alloc, frames, first)?;
        let (table, seat) = Table::of_words(alloc, words.as_slice(), &terms)?;
        Ok((FrameTable { table, terms }, Holder { seat }))
    }

    /// The most loans that a cell gives.
    pub(crate) fn lend_of(&self, cell: usize) -> u32
        requires { cell < length self.now.terms.lends }
        ensures { result ≡ slice_index self.now.terms.lends cell }
    {
        self.terms.lends.as_slice()[cell]
    }
}

fn first_words(alloc: Global, frames: u32, first: u32) -> Result<Vec<u64>, AllocError>
    ensures { IfOk result (λ words. words.items ≡ replicate 8 0 ++ replicate frames (first * 4294967296)) }
{
    let mut words = vec![in alloc; 0u64; CELLS]?;
    words.resize(frames as usize + CELLS, first as u64 * GENERATION)?;
    Ok(words)
}

/// Ends a table. The clause says only that some state has this view and keeps the rights rule;
/// that each state of the table keeps it is owed by each step.
pub fn close(table: FrameTable, holder: Holder)
    requires made { IsMade table holder }
    requires empty { holder.view.holds ≡ [] }
    ensures rights { (last : State (Unit {0}) View) × (place : ℕ)
        × FrameRights table.terms last × IsView last.views place holder.view }
{
    let FrameTable { table, terms: _ } = table;
    let Holder { seat } = holder;
    table.close_with(seat).free();
}
