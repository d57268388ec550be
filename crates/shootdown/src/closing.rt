//! The end of all notes of a board.
ghost use Rattle.std.specs.Prelude.{◌≡◌, ◌<◌, ◌++◌, [], map, All};
ghost use Rattle.std.specs.Vec.Iter.{into_iter_items};
ghost use Rattle.shootdown.specs.Notes.{AreOfOneBoard, AreInStep};
ghost use Rattle.shootdown.specs.Steps.{token_list, seat_list};

use crate::board::{Loads, Meets, Place, Word};
use crate::seat::{GuestSeat, SeatList};
use crate::token::{ProcToken, TokenList};
use std::vec::IntoIter;

// All lists of these tokens come to the place.
fn gather_tokens(word: &Word, place: &mut Place, tokens: IntoIter<ProcToken>)
    requires board { (place.old.table_id ≡ word.now.table_id) × (0 < word.now.table_id.words) }
    requires tokens { All (λ t. t.board ≡ word.now.table_id) (into_iter_items tokens) }
    ensures tokens { place.new.me.0.tokens ≡ place.old.me.0.tokens ++ map token_list (into_iter_items tokens) }
    ensures seats { place.new.me.0.seats ≡ place.old.me.0.seats }
    ensures board { place.new.table_id ≡ place.old.table_id }
{
    for token in tokens {
        let ProcToken {
            board: _,
            number: _,
            place: own,
        } = token;
        word.join_seat::<Meets>(place, own);
    }
}

// All lists of these seats come to the place.
fn gather_seats(word: &Word, place: &mut Place, seats: IntoIter<GuestSeat>)
    requires board { (place.old.table_id ≡ word.now.table_id) × (0 < word.now.table_id.words) }
    requires seats { All (λ s. s.board ≡ word.now.table_id) (into_iter_items seats) }
    ensures tokens { place.new.me.0.tokens ≡ place.old.me.0.tokens }
    ensures seats { place.new.me.0.seats ≡ place.old.me.0.seats ++ map seat_list (into_iter_items seats) }
    ensures board { place.new.table_id ≡ place.old.table_id }
{
    for seat in seats {
        let GuestSeat {
            number: _,
            place: own,
        } = seat;
        word.join_seat::<Meets>(place, own);
    }
}

/// Ends tokens and seats of one board, and tells that the notes of each token and each seat are in step.
pub fn close_notes(tokens: TokenList, seats: SeatList)
    requires { AreOfOneBoard tokens seats }
    ensures { AreInStep tokens seats }
{
    let mut others = tokens.into_vec().into_iter();
    let Some(first) = others.next() else {
        return;
    };
    let ProcToken {
        board,
        number: _,
        mut place,
    } = first;
    let word = &board.shared;
    gather_tokens(word, &mut place, others);
    gather_seats(word, &mut place, seats.into_vec().into_iter());
    word.load::<Loads>(&mut place, 0);
}
