//! A note of a processor and a guest, and the agreement of their lists.
ghost use Rattle.std.specs.Prelude.{◌≡◌, ◌<◌, ◌++◌, ◌∷◌, [], map, replicate};
ghost use Rattle.shootdown.specs.Notes.{sided, IsInStep};
ghost use Rattle.shootdown.specs.Steps.{IsPair, both, nothing, tokens_of, seats_of, noted};

use crate::Note;
use crate::board::{Adds, Leaves, Loads, Meets, Names, Parts, Place, Word};
use crate::seat::GuestSeat;
use crate::token::ProcToken;
use std::marker::Brand;

// The seat's list comes to the token's place.
#[inline]
fn meet(word: &Word, token: &mut Place, seat: &mut Place)
    requires board { (token.old.table_id ≡ word.now.table_id) × (seat.old.table_id ≡ word.now.table_id) }
    requires wide { 0 < word.now.table_id.words }
    ensures token { token.new.me ≡ (both token.old.me.0 seat.old.me.0, token.old.me.1) }
    ensures seat { seat.new.me ≡ (nothing, seat.old.me.1) }
    ensures board { (token.new.table_id ≡ token.old.table_id) × (seat.new.table_id ≡ seat.old.table_id) }
{
    let moved = word.split_seat::<Leaves>(seat);
    word.join_seat::<Meets>(token, moved);
}

// The seat's list goes back to its place.
#[inline]
fn part(word: &Word, token: &mut Place, seat: &mut Place)
    requires board { (token.old.table_id ≡ word.now.table_id) × (seat.old.table_id ≡ word.now.table_id) }
    requires wide { 0 < word.now.table_id.words }
    ensures token { token.new.me ≡ (tokens_of token.old.me.0, token.old.me.1) }
    ensures seat { seat.new.me ≡ (both seat.old.me.0 (seats_of token.old.me.0), seat.old.me.1) }
    ensures board { (token.new.table_id ≡ token.old.table_id) × (seat.new.table_id ≡ seat.old.table_id) }
{
    let moved = word.split_seat::<Parts>(token);
    word.join_seat::<Meets>(seat, moved);
}

// The note goes into both lists of a place that has one token's and one seat's, so many times.
#[inline]
fn add<W: Names>(word: &Word, place: &mut Place, note: Note, count: u64)
    requires board { (place.old.table_id ≡ word.now.table_id) × (0 < word.now.table_id.words) }
    requires named { W.named ≡ replicate count note }
    requires pair { IsPair place.old.me.0 }
    ensures added { place.new.me ≡ (noted (replicate count note) place.old.me.0, place.old.me.1) }
    ensures board { place.new.table_id ≡ place.old.table_id }
{
    let _ = (note, count);
    word.load::<Adds<W>>(place, 0);
}

/// Adds a note so many times to both lists: to the token's with the seat's guest, to the seat's with the token's processor.
#[inline]
pub fn note_many(token: &mut ProcToken, seat: &mut GuestSeat, note: Note, count: u64)
    requires { seat.old.board ≡ token.old.board }
    ensures token { token.new ≡ record token.old { notes = token.old.notes ++ map (sided seat.old.number) (replicate count note) } }
    ensures seat { seat.new ≡ record seat.old { notes = seat.old.notes ++ map (sided token.old.number) (replicate count note) } }
{
    let word = &token.board.shared;
    meet(word, &mut token.place, &mut seat.place);
    add::<Brand>(word, &mut token.place, note, count);
    part(word, &mut token.place, &mut seat.place);
}

/// Adds a note to both lists: to the token's with the seat's guest, to the seat's with the token's processor.
#[inline]
pub fn note(token: &mut ProcToken, seat: &mut GuestSeat, note: Note)
    requires { seat.old.board ≡ token.old.board }
    ensures token { token.new ≡ record token.old { notes = token.old.notes ++ sided seat.old.number note ∷ [] } }
    ensures seat { seat.new ≡ record seat.old { notes = seat.old.notes ++ sided token.old.number note ∷ [] } }
{
    note_many(token, seat, note, 1);
}

/// Tells that the token's notes with the seat's guest are the seat's notes with the token's processor, in their order.
#[inline]
pub fn agree(token: &mut ProcToken, seat: &mut GuestSeat)
    requires { seat.old.board ≡ token.old.board }
    ensures agree { IsInStep token.old seat.old }
    ensures same { (token.new ≡ token.old) × (seat.new ≡ seat.old) }
{
    let word = &token.board.shared;
    meet(word, &mut token.place, &mut seat.place);
    word.load::<Loads>(&mut token.place, 0);
    part(word, &mut token.place, &mut seat.place);
}
