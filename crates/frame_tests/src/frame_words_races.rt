//! Four threads on one table, and what is left when all have given back what they had.
ghost use Rattle.std.specs.Prelude.{◌≡◌, ◌<◌, [], length};
ghost use Rattle.std.specs.Thread.{IsSync};
ghost use Rattle.frame_words.specs.Holders.{IsMade, HasSame};

use crate::telling::gave;
use base_words::{CellId, FrameList, FrameNo};
use frame_words::{
    Borrow, FrameTable, Holder, Share, Took, borrow, give_back, join as join_holders, repay, share,
    split, take,
};
use std::alloc::Global;
use std::thread::{Threads, join};

const FRAMES: u32 = 64;

const TURNS: u32 = 100_000;

fn share_once(table: &FrameTable, holder: &mut Holder, frame: FrameNo, generation: u32)
    requires { IsMade table.now holder.old × (frame.0 < table.now.terms.frames) }
    ensures { HasSame holder.old holder.new }
{
    if let Share::Shared = share(table, holder, frame, generation) {
        give_back(table, holder, frame);
    }
}

// Takes the frame, or shares it where somebody holds it, and gives back what it got.
fn visit(table: &FrameTable, holder: &mut Holder, frame: FrameNo)
    requires { IsMade table.now holder.old × (frame.0 < table.now.terms.frames) }
    ensures { HasSame holder.old holder.new }
{
    match take(table, holder, frame) {
        Took::Took(generation) => {
            share_once(table, holder, frame, generation);
            give_back(table, holder, frame);
        }
        Took::Held(seen) => share_once(table, holder, frame, (seen >> 32) as u32),
        Took::Spent(_) => {}
    }
}

fn turn(table: &FrameTable, holder: &mut Holder, frame: FrameNo)
    requires { IsMade table.now holder.old × (frame.0 < table.now.terms.frames) }
    ensures { HasSame holder.old holder.new }
{
    match borrow(table, holder, CellId(0)) {
        Borrow::Lent => {
            visit(table, holder, frame);
            repay(table, holder, CellId(0));
        }
        _ => visit(table, holder, frame),
    }
}

// Turns on the frames one after another, from a frame of the thread's own.
fn work(table: &FrameTable, mut holder: Holder, start: u32) -> Holder
    requires { IsMade table.now holder × (table.now.terms.frames ≡ FRAMES) }
    ensures { HasSame holder result }
{
    for i in 0..TURNS {
        turn(
            table,
            &mut holder,
            FrameNo(((start as u64 + i as u64 * 7) % FRAMES as u64) as u32),
        );
    }
    holder
}

fn two_work<R: Threads + Sync>(
    rt: &R,
    table: &FrameTable,
    one: Holder,
    two: Holder,
    start: u32,
) -> (Holder, Holder)
    requires { IsMade table.now one × IsMade table.now two × (table.now.terms.frames ≡ FRAMES) × (start < 64) }
    ensures { HasSame one result.0 × HasSame two result.1 }
{
    join(
        rt,
        move || -> Holder
            requires { IsMade table.now one × (table.now.terms.frames ≡ FRAMES) × (start < 64) }
            ensures { HasSame one result }
        { work(table, one, start) },
        move || -> Holder
            requires { IsMade table.now two × (table.now.terms.frames ≡ FRAMES) × (start < 64) }
            ensures { HasSame two result }
        { work(table, two, start + 16) },
    )
}

fn four_work<R: Threads + Sync>(
    rt: &R,
    table: &FrameTable,
    one: Holder,
    two: Holder,
    three: Holder,
    four: Holder,
) -> ((Holder, Holder), (Holder, Holder))
    requires first { IsMade table.now one × IsMade table.now two }
    requires second { IsMade table.now three × IsMade table.now four }
    requires table { (table.now.terms.frames ≡ FRAMES) }
    ensures first { HasSame one result.0.0 × HasSame two result.0.1 }
    ensures second { HasSame three result.1.0 × HasSame four result.1.1 }
{
    join(
        rt,
        move || -> (Holder, Holder)
            requires { IsSync R.row × IsMade table.now one × IsMade table.now two × (table.now.terms.frames ≡ FRAMES) }
            ensures { HasSame one result.0 × HasSame two result.1 }
        { two_work(rt, table, one, two, 0) },
        move || -> (Holder, Holder)
            requires { IsSync R.row × IsMade table.now three × IsMade table.now four × (table.now.terms.frames ≡ FRAMES) }
            ensures { HasSame three result.0 × HasSame four result.1 }
        { two_work(rt, table, three, four, 32) },
    )
}

// How many frames nobody holds: each is taken.
fn free_frames(table: &FrameTable, holder: &mut Holder) -> u32
    requires { IsMade table.now holder.old × (table.now.terms.frames ≡ FRAMES) }
    ensures { holder.new.table ≡ holder.old.table }
{
    let mut free = 0;
    for frame in 0..FRAMES {
        if let Took::Took(_) = take(table, holder, FrameNo(frame)) {
            free += 1;
        }
    }
    free
}

// How many frames nobody holds, and what four calls for a loan answer.
fn left(table: &FrameTable, last: &mut Holder) -> (u32, [Borrow; 4])
    requires made { IsMade table.now last.old }
    requires frames { table.now.terms.frames ≡ FRAMES }
    requires cells { length table.now.terms.lends ≡ 1 }
{
    let free = free_frames(table, last);
    let loans = [
        borrow(table, last, CellId(0)),
        borrow(table, last, CellId(0)),
        borrow(table, last, CellId(0)),
        borrow(table, last, CellId(0)),
    ];
    (free, loans)
}

// Another holder, which has nothing, of a table of one cell.
fn another(alloc: Global, table: &FrameTable, one: &mut Holder) -> Holder
    requires { IsMade table.now one.old }
    ensures made { IsMade table.now one.new × IsMade table.now result }
    ensures holds { (one.new.view.holds ≡ one.old.view.holds) × (result.view.holds ≡ []) }
{
    split(table, one, &FrameList::new(alloc), &[0])
}

#[test]
fn four_threads_leave_all_words_free(rt: HostRuntime) {
    let (table, mut one) = gave(&rt, FrameTable::new(rt.alloc(), FRAMES, &[3], 0));
    let two = another(rt.alloc(), &table, &mut one);
    let three = another(rt.alloc(), &table, &mut one);
    let four = another(rt.alloc(), &table, &mut one);
    let ((mut last, two), (three, four)) = four_work(&rt, &table, one, two, three, four);
    join_holders(&table, &mut last, two);
    join_holders(&table, &mut last, three);
    join_holders(&table, &mut last, four);
    let lent = Borrow::Lent;
    assert!(rt; left(&table, &mut last) == (FRAMES, [lent, lent, lent, Borrow::AtLimit(3)]));
}
