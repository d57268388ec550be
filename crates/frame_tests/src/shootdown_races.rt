//! Four threads, one a processor, that note with three guests under locks.
ghost use Rattle.std.specs.Prelude.{◌≡◌, ◌<◌, ◌+◌, [], length, All, IfOk};
ghost use Rattle.shootdown.specs.Notes.{Token, Seat};

use base_words::VcpuId;
use shootdown::{
    GuestSeat, Note, ProcToken, SeatList, TokenList, agree, close_notes, note, tokens,
};
use std::alloc::{AllocError, Global};
use std::marker::{Brand, PhantomData};
use std::sync::{Mutex, Wait};
use std::thread;
use std::thread::Threads;

const GUESTS: usize = 3;

const TURNS: u32 = 10_000;

/// Names the board of a race.
trait OnBoard {
    ghost use Rattle.atomic_table.specs.Seated.{TableId};

    ghost board: { TableId };
}

impl OnBoard for Brand {
    ghost use Rattle.std.specs.Prelude.{[]};

    ghost board = { record { words = 0; slots = 0; views_name = 0; atom = 0; block = 0; offset = 0; slot_names = [] } };
}

/// A seat of the named board, as it lies under its lock.
#[derive(Drop)]
struct Kept<N: OnBoard> {
    seat: GuestSeat,
    of: PhantomData<N>,
    ghost of_board: { seat.board ≡ N.board },
}

impl<N: OnBoard> Kept<N> {
    fn note(&mut self, token: &mut ProcToken)
        requires { token.old.board ≡ N.board }
        ensures board { token.new.board ≡ token.old.board }
        ensures noted { length token.new.notes ≡ length token.old.notes + 1 }
    {
        note(token, &mut self.seat, Note::Halted(VcpuId(0)));
        agree(token, &mut self.seat);
    }
}

// A note with one guest after another.
fn work<N: OnBoard, R: Wait>(rt: &R, token: &mut ProcToken, desks: &[Mutex<Kept<N>>])
    requires token { token.old.board ≡ N.board }
    requires desks { length desks.now ≡ 3 }
    ensures board { token.new.board ≡ token.old.board }
    ensures noted { length token.new.notes ≡ length token.old.notes + TURNS }
{
    for turn in 0..TURNS {
        desks[turn as usize % GUESTS].lock(rt).note(token);
    }
}

fn all_work<N: OnBoard + Send + Sync, R: Threads + Wait + Sync>(
    rt: &R,
    tokens: &mut [ProcToken],
    desks: &[Mutex<Kept<N>>],
)
    requires tokens { All (λ (t : Token). (t.board ≡ N.board) × (t.notes ≡ [])) tokens.old }
    requires desks { length desks.now ≡ 3 }
    ensures noted { All (λ (t : Token). (t.board ≡ N.board) × (length t.notes ≡ TURNS)) tokens.new }
    ensures all { length tokens.new ≡ length tokens.old }
{
    thread::for_each_mut(
        rt,
        tokens,
        4,
        &|_, token: &mut ProcToken|
            requires { (token.now.board ≡ N.board) × (token.now.notes ≡ []) × (length desks.now ≡ 3) }
            ensures { (token.exit.now.board ≡ N.board) × (length token.exit.now.notes ≡ TURNS) }
        { work(rt, token, desks) },
    );
}

// Each seat under a lock of its own.
fn desks_of<N: OnBoard>(alloc: Global, seats: SeatList) -> Result<Vec<Mutex<Kept<N>>>, AllocError>
    requires { All (λ (s : Seat). s.board ≡ N.board) seats }
    ensures { IfOk result (λ desks. length desks.items ≡ length seats) }
{
    let mut desks = Vec::new(alloc);
    for seat in seats.into_vec() {
        desks.push(Mutex::new(Kept {
            seat,
            of: PhantomData,
        }))?;
    }
    Ok(desks)
}

// The seats, taken out of their locks.
fn seats_of<N: OnBoard>(alloc: Global, desks: Vec<Mutex<Kept<N>>>) -> Result<SeatList, AllocError>
    ensures { IfOk result (All (λ (s : Seat). s.board ≡ N.board)) }
{
    let mut seats = Vec::new(alloc);
    for desk in desks {
        let Kept { seat, of: _ } = desk.into_inner();
        seats.push(seat)?;
    }
    Ok(SeatList::from_vec(seats))
}

// The race: all tokens have as many notes as were made, and are in step with all seats.
fn race<N: OnBoard + Send + Sync, R: Threads + Wait + Sync>(
    rt: &R,
    alloc: Global,
    tokens: TokenList,
    seats: SeatList,
) -> Result<(), AllocError>
    requires tokens { All (λ (t : Token). (t.board ≡ N.board) × (t.notes ≡ [])) tokens }
    requires seats { All (λ (s : Seat). s.board ≡ N.board) seats }
    requires some { (0 < length tokens) × (length seats ≡ 3) }
{
    let mut tokens = tokens.into_vec();
    let desks = desks_of::<N>(alloc, seats)?;
    all_work(rt, &mut tokens, &desks);
    close_notes(TokenList::from_vec(tokens), seats_of(alloc, desks)?);
    Ok(())
}

#[test]
fn four_threads_note_with_three_guests(rt: HostRuntime) -> Result<(), AllocError> {
    let (tokens, seats) = tokens(rt.alloc(), 4, 3)?;
    race::<Brand, HostRuntime>(&rt, rt.alloc(), tokens, seats)?;
    Ok(())
}
