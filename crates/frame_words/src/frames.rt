//! Calls on one frame's word.
ghost use Rattle.std.specs.Prelude.{◌≡◌, ◌<◌, ◌+◌};
ghost use Rattle.frame_words.specs.FrameWords.{frame_word};
ghost use Rattle.frame_words.specs.Views.{frame_holds};
ghost use Rattle.frame_words.specs.Holders.{IsMade};
ghost use Rattle.frame_words.specs.Taking.{TookBy, GivesUp};
ghost use Rattle.frame_words.specs.Sharing.{SharedBy};
ghost use Rattle.frame_words.specs.Refusals.{ShareAdds};
ghost use Rattle.frame_words.specs.declared.view.StepKind.TheVariants.{GiveBack};

use crate::answers::{Share, Took};
use crate::holder::Holder;
use crate::packing::{LIMIT, NEXT, count_of, generation_of, word_of_frame};
use crate::rights::{GivesBack, Loads, Shares, Takes};
use crate::table::FrameTable;
use base_words::FrameNo;

/// Takes a frame that nobody holds, under its next generation.
pub fn take(table: &FrameTable, holder: &mut Holder, frame: FrameNo) -> Took
    requires made { IsMade table.now holder.old }
    requires within { frame.0 < table.now.terms.frames }
    ensures answer { TookBy holder.old.view (frame_word frame.0) result holder.new.view }
    ensures same { holder.new.table ≡ holder.old.table }
{
    let word = word_of_frame(frame);
    let words = &table.table.shared;
    let seen = words.load::<Loads>(&mut holder.seat, word);
    if count_of(seen) > 0 {
        return Took::Held(seen);
    }
    if generation_of(seen) as u64 == LIMIT {
        return Took::Spent(seen);
    }
    let next = seen + NEXT;
    let found = words.compare_exchange::<Takes>(&mut holder.seat, word, seen, next);
    if found == seen {
        Took::Took(generation_of(next))
    } else {
        Took::Held(found)
    }
}

/// Holds a frame once more, which somebody holds under this generation.
pub fn share(table: &FrameTable, holder: &mut Holder, frame: FrameNo, generation: u32) -> Share
    requires made { IsMade table.now holder.old }
    requires within { frame.0 < table.now.terms.frames }
    ensures answer { SharedBy holder.old.view (frame_word frame.0) generation result holder.new.view }
    ensures tail { ShareAdds holder.old.view (frame_word frame.0) generation result holder.new.view }
    ensures same { holder.new.table ≡ holder.old.table }
{
    let word = word_of_frame(frame);
    let words = &table.table.shared;
    let seen = words.load::<Loads>(&mut holder.seat, word);
    if count_of(seen) == LIMIT {
        return Share::Many(seen);
    }
    if count_of(seen) == 0 || generation_of(seen) != generation {
        return Share::Gone(seen);
    }
    let found = words.compare_exchange::<Shares>(&mut holder.seat, word, seen, seen + 1);
    if found == seen {
        Share::Shared
    } else {
        Share::Gone(found)
    }
}

/// Ends one hold of a frame.
pub fn give_back(table: &FrameTable, holder: &mut Holder, frame: FrameNo)
    requires made { IsMade table.now holder.old }
    requires within { frame.0 < table.now.terms.frames }
    requires holds { 0 < frame_holds holder.old.view frame.0 }
    ensures given { GivesUp holder.old.view GiveBack (frame_word frame.0) holder.new.view }
    ensures same { holder.new.table ≡ holder.old.table }
{
    let word = word_of_frame(frame);
    let words = &table.table.shared;
    words.fetch_sub::<GivesBack>(&mut holder.seat, word, 1);
}
