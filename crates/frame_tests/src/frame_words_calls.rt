//! Sequences of one thread, with answers worked out by hand.
ghost use Rattle.std.specs.Prelude.{◌≡◌, ◌<◌, [], ◌∷◌, length};
ghost use Rattle.frame_words.specs.FrameWords.{frame_word};
ghost use Rattle.frame_words.specs.Holders.{IsMade};
ghost use Rattle.frame_words.specs.Splits.{frames_named};
ghost use Rattle.frame_words.specs.Views.{frame_holds, hold};

use crate::telling::gave;
use base_words::{CellId, Frame, FrameList, FrameNo, Page};
use frame_words::{
    Borrow, FrameTable, Holder, Share, Took, borrow, close, give_back, join, repay, share, split,
    take,
};
use std::alloc::Global;
use std::process::Abort;

// A generation's place in a word.
const GENERATION: u64 = 4_294_967_296;

// The generation under which frame 0 is taken, and what `take` answers once it is given back.
fn taken_twice(table: &FrameTable, holder: &mut Holder) -> Option<(u32, Took)>
    requires made { IsMade table.now holder.old }
    requires frames { table.now.terms.frames ≡ 1 }
{
    let Took::Took(generation) = take(table, holder, FrameNo(0)) else {
        return None;
    };
    give_back(table, holder, FrameNo(0));
    Some((generation, take(table, holder, FrameNo(0))))
}

#[test]
fn a_frame_is_spent_after_its_last_generation(rt: HostRuntime) {
    let (table, mut holder) = gave(&rt, FrameTable::new(rt.alloc(), 1, &[1], 4_294_967_294));
    let spent = Took::Spent(4_294_967_295 * GENERATION);
    assert!(rt; taken_twice(&table, &mut holder) == Some((4_294_967_295, spent)));
}

// Two shares frame 1, which one has taken. What `take` and `share` answer then: as both hold it, as two alone does, as
// nobody does, and to both as one has taken it again.
fn shared(
    rt: &impl Abort,
    table: &FrameTable,
    one: &mut Holder,
    two: &mut Holder,
) -> (u64, [Share; 2], [Took; 2])
    requires made { IsMade table.now one.old × IsMade table.now two.old }
    requires frames { table.now.terms.frames ≡ 2 }
    requires holds { 0 < frame_holds one.old.view 1 }
{
    let Share::Shared = share(table, two, FrameNo(1), 1) else {
        panic!(rt; "the frame is held")
    };
    let Took::Held(both) = take(table, two, FrameNo(1)) else {
        panic!(rt; "the frame is held")
    };
    give_back(table, one, FrameNo(1));
    let by_two = share(table, one, FrameNo(1), 0);
    give_back(table, two, FrameNo(1));
    let by_nobody = share(table, one, FrameNo(1), 1);
    let again = take(table, one, FrameNo(1));
    let held = take(table, two, FrameNo(1));
    (both, [by_two, by_nobody], [again, held])
}

// One takes frame 1.
fn takes_first(rt: &impl Abort, table: &FrameTable, one: &mut Holder)
    requires made { IsMade table.now one.old }
    requires frames { table.now.terms.frames ≡ 2 }
    ensures holds { 0 < frame_holds one.new.view 1 }
    ensures same { one.new.table ≡ one.old.table }
{
    let Took::Took(1) = take(table, one, FrameNo(1)) else {
        panic!(rt; "the frame is free")
    };
}

// A second holder, which has nothing, of a table of two cells.
fn second(alloc: Global, table: &FrameTable, one: &mut Holder) -> Holder
    requires { IsMade table.now one.old }
    ensures made { IsMade table.now one.new × IsMade table.now result }
    ensures holds { (one.new.view.holds ≡ one.old.view.holds) × (result.view.holds ≡ []) }
{
    split(table, one, &FrameList::new(alloc), &[0, 0])
}

#[test]
fn two_holders_share_a_frame(rt: HostRuntime) {
    let (table, mut one) = gave(&rt, FrameTable::new(rt.alloc(), 2, &[1, 0], 0));
    takes_first(&rt, &table, &mut one);
    let mut two = second(rt.alloc(), &table, &mut one);
    let gone = [Share::Gone(GENERATION + 1), Share::Gone(GENERATION)];
    let took = [Took::Took(2), Took::Held(2 * GENERATION + 1)];
    assert!(rt; shared(&rt, &table, &mut one, &mut two) == (GENERATION + 2, gone, took));
}

// A loan of cell 0 goes to one, is repaid and goes to two, which repays it. The limits that two is told before, of both cells.
fn lent_in_turn(rt: &impl Abort, table: &FrameTable, one: &mut Holder, two: &mut Holder) -> [u64; 2]
    requires made { IsMade table.now one.old × IsMade table.now two.old }
    requires cells { length table.now.terms.lends ≡ 2 }
    requires none { (one.old.view.holds ≡ []) × (two.old.view.holds ≡ []) }
    ensures none { (one.new.view.holds ≡ []) × (two.new.view.holds ≡ []) }
    ensures same { (one.new.table ≡ one.old.table) × (two.new.table ≡ two.old.table) }
{
    let Borrow::Lent = borrow(table, one, CellId(0)) else {
        panic!(rt; "the cell lends one")
    };
    let (Borrow::AtLimit(first), Borrow::AtLimit(second)) = (
        borrow(table, two, CellId(0)),
        borrow(table, two, CellId(1)),
    ) else {
        panic!(rt; "no cell lends more")
    };
    repay(table, one, CellId(0));
    let Borrow::Lent = borrow(table, two, CellId(0)) else {
        panic!(rt; "the loan is repaid")
    };
    repay(table, two, CellId(0));
    [first, second]
}

#[test]
fn a_cell_lends_up_to_its_lend(rt: HostRuntime) {
    let (table, mut one) = gave(&rt, FrameTable::new(rt.alloc(), 1, &[1, 0], 0));
    let mut two = second(rt.alloc(), &table, &mut one);
    let refused = lent_in_turn(&rt, &table, &mut one, &mut two);
    join(&table, &mut one, two);
    close(table, one);
    assert!(rt; refused == [1, 0]);
}

// Frame 0 under this generation.
fn listed(rt: &impl Abort, alloc: Global, generation: u32, page: Box<Page>) -> FrameList
    ensures { frames_named result ≡ hold (frame_word 0) generation ∷ [] }
{
    let mut frames = Vec::new(alloc);
    gave(
        rt,
        frames.push(Frame {
            number: FrameNo(0),
            generation,
            page,
        }),
    );
    FrameList::from_vec(frames)
}

// The hold of frame 0 goes to a second holder, which gives it back. The generation under which it was taken, and what
// `take` answers then.
fn handed_over(rt: &impl Abort, alloc: Global, table: &FrameTable, one: &mut Holder) -> (u32, Took)
    requires made { IsMade table.now one.old }
    requires frames { table.now.terms.frames ≡ 1 }
{
    let Took::Took(generation) = take(table, one, FrameNo(0)) else {
        panic!(rt; "the frame is free")
    };
    let frames = listed(rt, alloc, generation, gave(rt, Page::zeroed(alloc)));
    let mut two = split(table, one, &frames, &[0]);
    give_back(table, &mut two, FrameNo(0));
    join(table, one, two);
    (generation, take(table, one, FrameNo(0)))
}

#[test]
fn a_named_hold_goes_to_the_new_holder(rt: HostRuntime) {
    let (table, mut one) = gave(&rt, FrameTable::new(rt.alloc(), 1, &[1], 6));
    let answers = handed_over(&rt, rt.alloc(), &table, &mut one);
    assert!(rt; answers == (7, Took::Took(8)));
}

// What take of frame 1, share of frame 0 and three loans of cell 0 answer to one that is alone.
fn asks_alone(table: &FrameTable, one: &mut Holder) -> (Took, Share, [Borrow; 3])
    requires made { IsMade table.now one.old }
    requires frames { table.now.terms.frames ≡ 2 }
    requires cells { length table.now.terms.lends ≡ 1 }
{
    let took = take(table, one, FrameNo(1));
    let shared = share(table, one, FrameNo(0), 0);
    let first = borrow(table, one, CellId(0));
    let second = borrow(table, one, CellId(0));
    let third = borrow(table, one, CellId(0));
    (took, shared, [first, second, third])
}

#[test]
fn one_that_is_alone_is_told_the_words(rt: HostRuntime) {
    let (table, mut one) = gave(&rt, FrameTable::new(rt.alloc(), 2, &[2], 4_294_967_295));
    let last = 4_294_967_295 * GENERATION;
    let loans = [Borrow::Lent, Borrow::Lent, Borrow::AtLimit(2)];
    assert!(rt; asks_alone(&table, &mut one) == (Took::Spent(last), Share::Gone(last), loans));
}
