//! Sequences of one thread. What the lists have after them stands in the clauses of `note_five`, worked out by hand.
ghost use Rattle.std.specs.Prelude.{◌≡◌, [], ◌∷◌};
ghost use Rattle.shootdown.specs.Notes.{Token, Seat, sided, with_side};
ghost use Rattle.shootdown.specs.declared.notes.Note.TheVariants.{Made, Asked, Halted, Ended, Dead};
ghost use Rattle.base_words.specs.declared.events.Event.TheVariants.{Load};
ghost use Rattle.base_words.specs.declared.events.End.TheVariants.{Budget};
ghost use Rattle.base_words.specs.declared.moves.MoveKind.TheVariants.{Migrate};

use crate::telling::{gave, must};
use base_words::{CellId, End, Event, GuestId, MoveKind, NodeId, Ppn, ProcId, ProcSet, VcpuId};
use shootdown::{
    GuestSeat, Note, ProcToken, SeatList, TokenList, Waiting, agree, close_notes, note, tokens,
};
use std::process::Abort;

// One note of each kind, of two processors with two guests.
fn note_five(
    zero: &mut ProcToken,
    one: &mut ProcToken,
    first: &mut GuestSeat,
    second: &mut GuestSeat,
)
    requires boards { (one.old.board ≡ zero.old.board) × (first.old.board ≡ zero.old.board) × (second.old.board ≡ zero.old.board) }
    requires tokens { (zero.old.number ≡ 0) × (one.old.number ≡ 1) × (zero.old.notes ≡ []) × (one.old.notes ≡ []) }
    requires seats { (first.old.number ≡ 0) × (second.old.number ≡ 1) × (first.old.notes ≡ []) × (second.old.notes ≡ []) }
    ensures zero { let load = Made (Load (record { 0 = 0 }) (record { 0 = 1 })) in
        zero.new ≡ record zero.old { notes = sided 0 load ∷ sided 1 (Ended Budget) ∷ sided 0 (Halted (record { 0 = 1 })) ∷ [] } }
    ensures one { let asked = Asked (record { 0 = 5 }) Migrate (record { 0 = 3 }) in
        one.new ≡ record one.old { notes = sided 1 asked ∷ sided 0 (Dead (record { 0 = 2 })) ∷ [] } }
    ensures first { let load = Made (Load (record { 0 = 0 }) (record { 0 = 1 })) in
        first.new ≡ record first.old { notes = sided 0 load ∷ sided 1 (Dead (record { 0 = 2 })) ∷ sided 0 (Halted (record { 0 = 1 })) ∷ [] } }
    ensures second { let asked = Asked (record { 0 = 5 }) Migrate (record { 0 = 3 }) in
        second.new ≡ record second.old { notes = sided 1 asked ∷ sided 0 (Ended Budget) ∷ [] } }
{
    note(zero, first, Note::Made(Event::Load(ProcId(0), VcpuId(1))));
    note(
        one,
        second,
        Note::Asked(Ppn(5), MoveKind::Migrate, NodeId(3)),
    );
    note(zero, second, Note::Ended(End::Budget));
    note(one, first, Note::Dead(CellId(2)));
    note(zero, first, Note::Halted(VcpuId(1)));
}

// The numbers of two tokens and two seats.
fn numbers(tokens: &[ProcToken], seats: &[GuestSeat]) -> Option<([ProcId; 2], [GuestId; 2])> {
    let ([zero, one], [first, second]) = (tokens, seats) else {
        return None;
    };
    Some((
        [zero.number(), one.number()],
        [first.number(), second.number()],
    ))
}

#[test]
fn two_processors_note_with_two_guests(rt: HostRuntime) {
    let (tokens, seats) = gave(&rt, tokens(rt.alloc(), 2, 2));
    let mut tokens = tokens.into_vec();
    let mut seats = seats.into_vec();
    let numbers = numbers(&tokens, &seats);
    let (Some(mut one), Some(mut zero)) = (tokens.pop(), tokens.pop()) else {
        panic!(rt; "there are two tokens")
    };
    let (Some(mut second), Some(mut first)) = (seats.pop(), seats.pop()) else {
        panic!(rt; "there are two seats")
    };
    note_five(&mut zero, &mut one, &mut first, &mut second);
    agree(&mut zero, &mut first);
    must(&rt, tokens.push(zero));
    must(&rt, tokens.push(one));
    must(&rt, seats.push(first));
    must(&rt, seats.push(second));
    close_notes(TokenList::from_vec(tokens), SeatList::from_vec(seats));
    let (processors, guests) = ([ProcId(0), ProcId(1)], [GuestId(0), GuestId(1)]);
    assert!(rt; numbers == Some((processors, guests)));
}

// The set of these processors.
fn set_of(processors: &[u8]) -> ProcSet {
    let mut set = ProcSet::empty();
    for processor in processors {
        if *processor < 16 {
            set = set.with(ProcId(*processor));
        }
    }
    set
}

/// The processors asked, those that acknowledge, and those that are left.
type WaitingRow = (&'static [u8], &'static [usize], &'static [u8]);

// Those that are left of the processors asked, once some have acknowledged, each by its token.
fn left_of(
    rt: &impl Abort,
    tokens: &mut [ProcToken],
    asked: &[u8],
    acknowledged: &[usize],
) -> ProcSet {
    let mut waiting = Waiting::ask(set_of(asked));
    for processor in acknowledged {
        let token = tokens.get_mut(*processor).expect(rt, "a token");
        assert!(rt; token.number().0 < 16);
        waiting.ack(token);
    }
    waiting.left()
}

// Each row by these tokens.
fn wait(rt: &impl Abort, tokens: &mut [ProcToken], rows: &[WaitingRow]) {
    for (asked, acknowledged, left) in rows {
        assert!(rt; left_of(rt, tokens, asked, acknowledged) == set_of(left));
    }
}

#[test]
fn those_asked_less_those_that_acknowledged_are_left(rt: HostRuntime) {
    let (tokens, _) = gave(&rt, tokens(rt.alloc(), 16, 1));
    let mut tokens = tokens.into_vec();
    let rows: [WaitingRow; 5] = [
        (&[0, 3, 15], &[3], &[0, 15]),
        (&[0, 3, 15], &[15, 0, 3], &[]),
        (&[4, 5], &[4, 4], &[5]), // twice
        (&[4, 5], &[6], &[4, 5]), // not asked
        (&[], &[1], &[]),
    ];
    wait(&rt, &mut tokens, &rows);
}
