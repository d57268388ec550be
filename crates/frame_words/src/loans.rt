//! Calls on one cell's word.
ghost use Rattle.std.specs.Prelude.{◌≡◌, ◌<◌, ◌≤◌, length, slice_index};
ghost use Rattle.frame_words.specs.FrameWords.{cell_word};
ghost use Rattle.frame_words.specs.Views.{cell_loans};
ghost use Rattle.frame_words.specs.Holders.{IsMade};
ghost use Rattle.frame_words.specs.Borrowing.{BorrowedBy};
ghost use Rattle.frame_words.specs.Taking.{GivesUp};
ghost use Rattle.frame_words.specs.Steps.{Loaded};
ghost use Rattle.frame_words.specs.declared.view.StepKind.TheVariants.{Repay};
ghost use Rattle.atomic_table.specs.Table.{step};
ghost use mathlib.Core.Option.{none};

use crate::answers::Borrow;
use crate::holder::Holder;
use crate::packing::word_of_cell;
use crate::rights::{Borrows, Lend, LoadsLoans, Repays, Rights};
use crate::table::FrameTable;
use crate::terms::Terms;
use crate::view::View;
use atomic_table::{Seat, Shared};
use base_words::CellId;
use std::marker::Brand;

type Words = Shared<(), View, Terms, Rights>;

// A load of a cell's word, which tells that it is at most the cell's lend.
fn load_loans<W: Lend>(words: &Words, seat: &mut Seat<(), View>, cell: usize, lend: u32) -> u64
    requires seat { seat.old.table_id ≡ words.now.table_id }
    requires within { (cell < words.now.table_id.words) × (cell < 8) }
    requires lend { slice_index words.now.key.lends cell ≡ lend }
    requires named { W.most ≡ lend }
    ensures told { Loaded (step words.now.table_id.slots cell 0 0 none) seat.old.me result seat.new.me }
    ensures most { result ≤ lend }
    ensures same { (seat.new.table_id ≡ seat.old.table_id) × (seat.new.id ≡ seat.old.id) }
{
    let _lend = lend;
    words.load::<LoadsLoans<W>>(seat, cell)
}

/// Borrows one more frame's worth from a cell.
pub fn borrow(table: &FrameTable, holder: &mut Holder, cell: CellId) -> Borrow
    requires made { IsMade table.now holder.old }
    requires within { cell.0 < length table.now.terms.lends }
    ensures answer { let most = slice_index table.now.terms.lends cell.0 in
        BorrowedBy holder.old.view (cell_word cell.0) most result holder.new.view }
    ensures same { holder.new.table ≡ holder.old.table }
{
    let word = word_of_cell(cell);
    let lend = table.lend_of(word);
    let words = &table.table.shared;
    let seen = load_loans::<Brand>(words, &mut holder.seat, word, lend);
    if seen >= lend as u64 {
        return Borrow::AtLimit(seen);
    }
    let found = words.compare_exchange::<Borrows>(&mut holder.seat, word, seen, seen + 1);
    if found == seen {
        Borrow::Lent
    } else {
        Borrow::Lost(found)
    }
}

/// Ends one loan of a cell.
pub fn repay(table: &FrameTable, holder: &mut Holder, cell: CellId)
    requires made { IsMade table.now holder.old }
    requires within { cell.0 < length table.now.terms.lends }
    requires holds { 0 < cell_loans holder.old.view cell.0 }
    ensures given { GivesUp holder.old.view Repay (cell_word cell.0) holder.new.view }
    ensures same { holder.new.table ≡ holder.old.table }
{
    let word = word_of_cell(cell);
    let words = &table.table.shared;
    words.fetch_sub::<Repays>(&mut holder.seat, word, 1);
}
