//! How tokens and seats are made.
ghost use Rattle.std.specs.Prelude.{◌≡◌, ◌<◌, [], ◌∷◌, IfOk};
ghost use Rattle.std.specs.Arc.{arc_value};
ghost use Rattle.shootdown.specs.Steps.{first, other_tokens, other_seats};
ghost use Rattle.shootdown.specs.Making.{blank, all_of, rest_of, numbered, fresh_token, fresh_seat, AreFresh};

use crate::board::{Board, Counts, FirstSeat, FirstToken, Place};
use crate::seat::{GuestSeat, SeatList};
use crate::token::{ProcToken, TokenList};
use atomic_table::Table;
use base_words::{GuestId, ProcId};
use std::alloc::{AllocError, Global};
use std::sync::Arc;

// A board, and the place that has all lists.
fn board_of(alloc: Global, counts: Counts) -> Result<(Board, Place), AllocError>
    ensures { IfOk result (λ made. (made.1.table_id ≡ made.0.shared.table_id) × (made.0.shared.table_id.words ≡ 1)
        × (made.1.me ≡ (all_of counts.tokens counts.seats, []))) }
{
    Table::of_words(alloc, &[0], &counts)
}

// The first token, whose number this is, out of those that are left.
fn cut_token(board: &Arc<Board>, all: &mut Place, number: u8) -> Result<ProcToken, AllocError>
    requires board { (all.old.table_id ≡ (arc_value board.now).shared.table_id) × ((arc_value board.now).shared.table_id.words ≡ 1) }
    requires first { first all.old.me.0.tokens ≡ blank number ∷ [] }
    ensures board { all.new.table_id ≡ all.old.table_id }
    ensures rest { IfOk result (λ _. all.new.me ≡ (other_tokens all.old.me.0, all.old.me.1)) }
    ensures token { IfOk result (λ token. token ≡ fresh_token all.old.table_id number) }
{
    let board = Arc::try_clone(board)?;
    let place = board.shared.split_seat::<FirstToken>(all);
    Ok(ProcToken {
        board,
        number: ProcId(number),
        place,
    })
}

// All tokens.
fn cut_tokens(
    alloc: Global,
    board: &Arc<Board>,
    all: &mut Place,
    counts: Counts,
) -> Result<Vec<ProcToken>, AllocError>
    requires board { (all.old.table_id ≡ (arc_value board.now).shared.table_id) × ((arc_value board.now).shared.table_id.words ≡ 1) }
    requires rest { all.old.me ≡ (rest_of 0 counts.tokens 0 counts.seats, []) }
    ensures board { all.new.table_id ≡ all.old.table_id }
    ensures rest { IfOk result (λ _. all.new.me ≡ (rest_of counts.tokens 0 0 counts.seats, [])) }
    ensures tokens { IfOk result (λ made. made.items ≡ numbered (fresh_token all.old.table_id) 0 counts.tokens) }
{
    let mut tokens = Vec::new(alloc);
    for number in 0..counts.tokens {
        tokens.push(cut_token(board, all, number)?)?;
    }
    Ok(tokens)
}

// The first seat, whose number this is, out of those that are left.
fn cut_seat(board: &Board, all: &mut Place, number: u8) -> GuestSeat
    requires board { (all.old.table_id ≡ board.now.shared.table_id) × (board.now.shared.table_id.words ≡ 1) }
    requires first { first all.old.me.0.seats ≡ blank number ∷ [] }
    ensures board { all.new.table_id ≡ all.old.table_id }
    ensures rest { all.new.me ≡ (other_seats all.old.me.0, all.old.me.1) }
    ensures seat { result ≡ fresh_seat all.old.table_id number }
{
    let place = board.shared.split_seat::<FirstSeat>(all);
    GuestSeat {
        number: GuestId(number),
        place,
    }
}

// All seats.
fn cut_seats(
    alloc: Global,
    board: &Board,
    all: &mut Place,
    count: u8,
) -> Result<Vec<GuestSeat>, AllocError>
    requires board { (all.old.table_id ≡ board.now.shared.table_id) × (board.now.shared.table_id.words ≡ 1) }
    requires rest { all.old.me ≡ (rest_of 0 0 0 count, []) }
    ensures board { all.new.table_id ≡ all.old.table_id }
    ensures seats { IfOk result (λ made. made.items ≡ numbered (fresh_seat all.old.table_id) 0 count) }
{
    let mut seats = Vec::new(alloc);
    for number in 0..count {
        seats.push(cut_seat(board, all, number))?;
    }
    Ok(seats)
}

/// So many tokens and so many seats of one new board, at least one of each, numbered from 0 and without notes. An error
/// is want of memory.
pub fn tokens(alloc: Global, count: u8, guests: u8) -> Result<(TokenList, SeatList), AllocError>
    requires tokens { 0 < count }
    requires seats { 0 < guests }
    ensures { IfOk result (λ made. AreFresh count guests made.0 made.1) }
{
    let counts = Counts {
        tokens: count,
        seats: guests,
    };
    let (board, mut all) = board_of(alloc, counts)?;
    let board = Arc::new(alloc, board)?;
    let tokens = cut_tokens(alloc, &board, &mut all, counts)?;
    let seats = cut_seats(alloc, &board, &mut all, guests)?;
    Ok((TokenList::from_vec(tokens), SeatList::from_vec(seats)))
}
