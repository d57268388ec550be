//! What the cells' caches are, and how they end.
ghost use Rattle.std.specs.Prelude.{◌≡◌, []};
ghost use Rattle.frame_words.specs.Holders.{IsMade};
ghost use Rattle.block_caches.specs.Holding.{AreHeld};

use cow_disk::{SharedIndex, give_back_all};
use frame_words::{FrameTable, Holder, join};

/// The cells' caches, by the cells' numbers: an index each, which any number of threads may read, and the holder of its frames.
#[derive(Drop)]
pub struct Caches {
    pub indexes: Vec<SharedIndex>,
    pub holders: Vec<Holder>,
}

/// Ends the caches, which nobody reads any more: their frames are given back, and their holders end.
pub fn end_caches(caches: Caches, table: &FrameTable, first: &mut Holder)
    requires held { AreHeld table.now caches.indexes.items caches.holders.items }
    requires made { IsMade table.now first.old }
    requires nothing { first.old.view.holds ≡ [] }
    ensures nothing { first.new.view.holds ≡ [] }
    ensures same { first.new.table ≡ first.old.table }
{
    let Caches { indexes, holders } = caches;
    let mut holders = holders.into_iter();
    for index in indexes {
        let Some(mut holder) = holders.next() else {
            unreachable!();
        };
        give_back_all(index, table, &mut holder);
        join(table, first, holder);
    }
}
