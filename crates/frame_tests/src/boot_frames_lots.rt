//! Machines with caches and guests, and the frames that each gets, worked out by hand.
ghost use Rattle.std.specs.Prelude.{◌≡◌, ◌<◌, ◌≤◌, [], All, None, length};
ghost use Rattle.std.specs.Bool.{OnTrue};
ghost use Rattle.frame_words.specs.FrameRights.{first_view};
ghost use Rattle.frame_words.specs.Holders.{IsMade};
ghost use Rattle.node_frames.specs.Places.{FitsShape};
ghost use Rattle.node_frames.specs.Layout.{layout_of};

use crate::shapes::shape_of;
use crate::telling::{gave, must};
use base_words::{CellId, Frame, FrameNo, NodeId, Shape};
use boot_frames::{Lot, Need, Shortage, admit, place};
use frame_words::{Borrow, FrameTable, Holder, Took, borrow, close, take};
use std::alloc::Global;
use std::process::Abort;

const A: CellId = CellId(0);

const B: CellId = CellId(1);

const C: CellId = CellId(2);

const D: CellId = CellId(3);

/// Who is short: the number of a cell or of a guest, what it needs and what it has.
#[derive(Clone, Copy, Debug, PartialEq, Eq)]
enum Short {
    Cell(u8, u32, u32),
    Guest(u8, u32, u32),
}

/// Nodes of so many frames, each in the cell that stands at its place, and what each cell lends.
#[derive(Clone, Copy)]
struct Machine {
    frames: u32,
    cells: &'static [CellId],
    lends: &'static [u32],
}

/// A machine with caches of so many frames and with guests, each the number of its home node and its pages. Either these
/// frames are given, cache by cache and then guest by guest, or this one is short.
#[derive(Clone, Copy)]
struct Row {
    machine: Machine,
    cache: u32,
    guests: &'static [(u8, u32)],
    frames: &'static [u32],
    short: Option<Short>,
}

fn nodes(frames: u32, cells: &'static [CellId], lends: &'static [u32]) -> Machine {
    Machine {
        frames,
        cells,
        lends,
    }
}

fn cell(number: u8, needs: u32, has: u32) -> Short {
    Short::Cell(number, needs, has)
}

fn guest(number: u8, needs: u32, has: u32) -> Short {
    Short::Guest(number, needs, has)
}

/// These frames are given.
fn get(machine: Machine, cache: u32, guests: &'static [(u8, u32)], frames: &'static [u32]) -> Row {
    Row {
        machine,
        cache,
        guests,
        frames,
        short: None,
    }
}

/// This one is short.
fn lack(machine: Machine, cache: u32, guests: &'static [(u8, u32)], short: Short) -> Row {
    Row {
        machine,
        cache,
        guests,
        frames: &[],
        short: Some(short),
    }
}

/// The needs of guests.
fn needs_of(rt: &impl Abort, alloc: Global, guests: &[(u8, u32)]) -> Vec<Need> {
    let mut needs = Vec::new(alloc);
    for (node, pages) in guests {
        must(
            rt,
            needs.push(Need {
                node: NodeId(*node),
                pages: *pages,
            }),
        );
    }
    needs
}

/// Whether each cell is below a count.
fn are_cells(cells: &[CellId], count: usize) -> bool
    ensures { OnTrue result (All (λ cell. cell.0 < count) cells.now) }
{
    cells.iter().all(|cell| (cell.0 as usize) < count)
}

/// Whether each guest's home is one of so many nodes.
fn are_at_home(needs: &[Need], nodes: usize) -> bool
    ensures { OnTrue result (All (λ need. need.node.0 < nodes) needs.now) }
{
    needs.iter().all(|need| (need.node.0 as usize) < nodes)
}

/// Whether a machine and its guests are such that frames can be given.
fn is_sound(machine: &Machine, needs: &[Need]) -> bool
    ensures frames { OnTrue result ((0 < machine.now.frames) × (machine.now.frames ≤ 16)) }
    ensures sizes { OnTrue result ((0 < length machine.now.cells.now) × (length machine.now.cells.now ≤ 8) × (0 < length machine.now.lends.now) × (length machine.now.lends.now ≤ 8)) }
    ensures cells { OnTrue result (All (λ cell. cell.0 < length machine.now.lends.now) machine.now.cells.now) }
    ensures few { OnTrue result (length needs.now ≤ 8) }
    ensures needs { OnTrue result (All (λ need. need.node.0 < length machine.now.cells.now) needs.now) }
{
    let (cells, lends) = (machine.cells.len(), machine.lends.len());
    let has_frames = 0 < machine.frames && machine.frames <= 16;
    let has_cells = 0 < cells && cells <= 8 && 0 < lends && lends <= 8;
    has_frames
        && has_cells
        && needs.len() <= 8
        && are_cells(machine.cells, lends)
        && are_at_home(needs, cells)
}

fn told(rt: &impl Abort, fault: Shortage) -> Short {
    match fault {
        Shortage::Memory => panic!(rt; "no memory is left"),
        Shortage::Cell { cell, needs, has } => Short::Cell(cell.0, needs, has),
        Shortage::Guest { guest, needs, has } => Short::Guest(guest.0, needs, has),
    }
}

/// Who is short by numbers alone, if anybody is.
fn counted(
    rt: &impl Abort,
    alloc: Global,
    machine: &Machine,
    cache: u32,
    needs: &[Need],
) -> Option<Short>
    requires frames { (0 < machine.now.frames) × (machine.now.frames ≤ 16) }
    requires sizes { (0 < length machine.now.cells.now) × (length machine.now.cells.now ≤ 8) × (length machine.now.lends.now ≤ 8) }
    requires cells { All (λ cell. cell.0 < length machine.now.lends.now) machine.now.cells.now }
    requires few { length needs.now ≤ 8 }
    requires needs { All (λ need. need.node.0 < length machine.now.cells.now) needs.now }
{
    let shape = shape_of(rt, alloc, machine.frames, machine.cells);
    match admit(alloc, &shape, machine.lends, cache, needs) {
        Ok(()) => None,
        Err(fault) => Some(told(rt, fault)),
    }
}

/// The numbers of all frames, lot by lot.
fn push_numbers(rt: &impl Abort, numbers: &mut Vec<u32>, lots: &[Lot]) {
    for lot in lots {
        for frame in lot.frames.as_slice() {
            must(rt, numbers.push(frame.number.0));
        }
    }
}

/// Who is short where frames are taken of a new table, if anybody is. If nobody is, the numbers of all frames go to the
/// list, cache by cache and then guest by guest, and the holder is left with nothing.
fn taken(
    rt: &impl Abort,
    alloc: Global,
    table: &FrameTable,
    holder: &mut Holder,
    shape: &Shape,
    cells: u8,
    cache: u32,
    needs: &[Need],
    numbers: &mut Vec<u32>,
) -> Option<Short>
    requires made { IsMade table.now holder.old }
    requires fits { FitsShape table.now (layout_of shape.now) }
    requires first { (holder.old.view ≡ first_view table.now.terms) × (table.now.terms.first ≡ 0) }
    requires few { length needs.now ≤ 8 }
    requires nodes { All (λ need. need.node.0 < shape.now.nodes) needs.now }
    ensures rest { result ≡ None → holder.new.view.holds ≡ [] }
    ensures same { holder.new.table ≡ holder.old.table }
{
    match place(alloc, table, holder, shape, cells, cache, needs) {
        Ok(placed) => {
            push_numbers(rt, numbers, &placed.caches);
            push_numbers(rt, numbers, &placed.guests);
            None
        }
        Err(fault) => Some(told(rt, fault)),
    }
}

/// The same of a table of this machine, which ends where nobody is short.
fn placed(
    rt: &impl Abort,
    alloc: Global,
    machine: &Machine,
    cache: u32,
    needs: &[Need],
    numbers: &mut Vec<u32>,
) -> Option<Short>
    requires frames { (0 < machine.now.frames) × (machine.now.frames ≤ 16) }
    requires sizes { (0 < length machine.now.cells.now) × (length machine.now.cells.now ≤ 8) × (0 < length machine.now.lends.now) × (length machine.now.lends.now ≤ 8) }
    requires cells { All (λ cell. cell.0 < length machine.now.lends.now) machine.now.cells.now }
    requires few { length needs.now ≤ 8 }
    requires needs { All (λ need. need.node.0 < length machine.now.cells.now) needs.now }
{
    let shape = shape_of(rt, alloc, machine.frames, machine.cells);
    let all = machine.cells.len() as u32 * machine.frames;
    let (table, mut holder) = gave(rt, FrameTable::new(alloc, all, machine.lends, 0));
    let cells = machine.lends.len() as u8;
    match taken(
        rt,
        alloc,
        &table,
        &mut holder,
        &shape,
        cells,
        cache,
        needs,
        numbers,
    ) {
        None => {
            close(table, holder);
            None
        }
        Some(short) => Some(short),
    }
}

/// Frames are given, or somebody is short, both by numbers and where frames are taken.
fn check(rt: &impl Abort, alloc: Global, row: &Row) {
    let needs = needs_of(rt, alloc, row.guests);
    assert!(rt; is_sound(&row.machine, &needs));
    let mut numbers = Vec::new(alloc);
    let placed = placed(rt, alloc, &row.machine, row.cache, &needs, &mut numbers);
    let counted = counted(rt, alloc, &row.machine, row.cache, &needs);
    assert!(rt; (counted, placed, numbers.as_slice()) == (row.short, row.short, row.frames));
}

/// Row after row.
fn check_all(rt: &impl Abort, alloc: Global, rows: &[Row]) {
    for row in rows {
        check(rt, alloc, row);
    }
}

#[test]
fn guests_get_frames_by_node_and_number(rt: HostRuntime) {
    let one = nodes(16, &[A], &[0]);
    let two = nodes(4, &[A, B], &[0, 2]);
    let more = nodes(4, &[A, B], &[0, 9]);
    let three = nodes(2, &[A, A, A], &[0]);
    let all = &[0, 1, 2, 3, 4, 5, 6, 7, 8, 9, 10, 11, 12, 13, 14, 15];
    let rows = [
        // one node of sixteen frames
        get(one, 0, &[(0, 16)], all),
        lack(one, 0, &[(0, 17)], guest(0, 17, 16)),
        // two nodes of four frames in two cells, of which the second lends two: node 0 has its own four and two
        get(two, 0, &[(0, 6)], &[0, 1, 2, 3, 4, 5]),
        lack(two, 0, &[(0, 7)], guest(0, 7, 6)),
        // at home on node 1: its own frames first; cell 0 lends none
        get(two, 0, &[(1, 4)], &[4, 5, 6, 7]),
        lack(two, 0, &[(1, 6)], guest(0, 6, 4)),
        // a guest without pages, and no guest
        get(two, 0, &[(1, 0), (1, 1)], &[4]),
        get(two, 0, &[], &[]),
        // more is lent than there is: all eight frames and no more
        get(more, 0, &[(0, 8)], &[0, 1, 2, 3, 4, 5, 6, 7]),
        lack(more, 0, &[(0, 9)], guest(0, 9, 8)),
        // three nodes of two frames in one cell that lends nothing: the home node first
        get(three, 0, &[(1, 6)], &[2, 3, 0, 1, 4, 5]),
        lack(three, 0, &[(1, 7)], guest(0, 7, 6)),
    ];
    check_all(&rt, rt.alloc(), &rows)
}

#[test]
fn guests_get_frames_one_after_another(rt: HostRuntime) {
    let two = nodes(4, &[A, B], &[0, 2]);
    let mixed = nodes(2, &[A, B, B], &[0, 1]);
    let ones = &[
        (0, 1),
        (0, 1),
        (0, 1),
        (0, 1),
        (0, 1),
        (0, 1),
        (0, 1),
        (0, 1),
    ];
    let rows = [
        // the second guest goes on where the first ended: on node 0, then with one loan on node 1
        get(two, 0, &[(0, 3), (0, 2)], &[0, 1, 2, 3, 4]),
        // the first takes both loans; the second, at home there, has what is left of its node
        get(two, 0, &[(0, 6), (1, 2)], &[0, 1, 2, 3, 4, 5, 6, 7]),
        lack(two, 0, &[(0, 6), (1, 3)], guest(1, 3, 2)),
        // the loans are spent on the first but for one: the second of node 0 has that
        lack(two, 0, &[(0, 5), (0, 2)], guest(1, 2, 1)),
        // the first that is short is told
        lack(two, 0, &[(0, 7), (0, 6)], guest(0, 7, 6)),
        // a loan of a cell is of all its nodes: one frame of cell 1 is lent, and neither node of it gives a second
        get(mixed, 0, &[(0, 3), (2, 3)], &[0, 1, 2, 4, 5, 3]),
        lack(mixed, 0, &[(0, 3), (0, 1)], guest(1, 1, 0)),
        // eight guests of one page on eight frames, and on seven
        get(nodes(8, &[A], &[0]), 0, ones, &[0, 1, 2, 3, 4, 5, 6, 7]),
        lack(nodes(7, &[A], &[0]), 0, ones, guest(7, 1, 0)),
    ];
    check_all(&rt, rt.alloc(), &rows)
}

#[test]
fn eight_nodes_lie_in_four_cells(rt: HostRuntime) {
    // nodes 0 to 7 of two frames, in cells 0, 1, 2, 3, 0, 1, 2, 3; each cell lends one but cell 2
    let four = nodes(2, &[A, B, C, D, A, B, C, D], &[1, 1, 0, 1]);
    let rows = [
        // at home on node 5 in cell 1: nodes 5 and 1, then a loan of cell 0 on node 0, none of cell 2, one of cell 3 on node 3
        get(four, 0, &[(5, 6)], &[10, 11, 2, 3, 0, 6]),
        // nothing is lent any more: node 0 has its second frame and node 4 for a guest of cell 0
        get(four, 0, &[(5, 6), (0, 3)], &[10, 11, 2, 3, 0, 6, 1, 8, 9]),
        // and has the loan of no other cell but cell 1, whose frames are gone
        lack(four, 0, &[(5, 6), (0, 4)], guest(1, 4, 3)),
        // with a cache of three each cell takes its lower node and one frame of the other, which has one left
        get(four, 3, &[], &[0, 1, 8, 2, 3, 10, 4, 5, 12, 6, 7, 14]),
        lack(four, 3, &[(5, 4)], guest(0, 4, 3)),
        lack(four, 5, &[], cell(0, 5, 4)),
    ];
    check_all(&rt, rt.alloc(), &rows)
}

#[test]
fn caches_come_before_guests(rt: HostRuntime) {
    let one = nodes(4, &[A], &[0]);
    let two = nodes(4, &[A, B], &[0, 2]);
    let lending = nodes(4, &[A, B], &[8, 8]);
    let crossed = nodes(2, &[B, A], &[0, 0]);
    let mixed = nodes(2, &[A, B, A], &[0, 0]);
    let three = nodes(2, &[A, A, C, B], &[0, 0, 0]);
    let rows = [
        // one node: the cache has the first frame
        get(one, 1, &[(0, 3)], &[0, 1, 2, 3]),
        lack(one, 1, &[(0, 4)], guest(0, 4, 3)),
        // all frames are the cache's, and one more is too many, whatever the guest needs
        get(one, 4, &[(0, 0)], &[0, 1, 2, 3]),
        lack(one, 5, &[(0, 0)], cell(0, 5, 4)),
        lack(one, 5, &[(0, 9)], cell(0, 5, 4)),
        // two nodes of four frames in two cells, two for each cache: node 0 keeps two, and two of node 1 are lent
        get(two, 2, &[(0, 4)], &[0, 1, 4, 5, 2, 3, 6, 7]),
        lack(two, 2, &[(0, 5)], guest(0, 5, 4)),
        // a cache of three leaves one of its own, and one that is lent
        lack(two, 3, &[(0, 3)], guest(0, 3, 2)),
        // a cell takes no loan for its cache
        lack(lending, 5, &[], cell(0, 5, 4)),
        // cell by cell, not node by node: cell 0 lies on node 1
        get(crossed, 1, &[(0, 1)], &[2, 0, 1]),
        // cell 0 lies on nodes 0 and 2, and cell 1 on node 1: three frames of cell 0 are 0, 1 and 4, and cell 1 has two
        get(mixed, 2, &[(0, 2)], &[0, 1, 2, 3, 4, 5]),
        lack(mixed, 2, &[(1, 1)], guest(0, 1, 0)),
        lack(mixed, 3, &[], cell(1, 3, 2)),
        // the first cell that is short is told
        lack(three, 3, &[], cell(1, 3, 2)),
        lack(three, 5, &[], cell(0, 5, 4)),
    ];
    check_all(&rt, rt.alloc(), &rows)
}

/// What `take` answers of frames 4, 6 and 7, and then `borrow` of cell 1 twice and of cell 0.
fn asked(table: &FrameTable, holder: &mut Holder) -> ([Took; 3], [Borrow; 3])
    requires made { IsMade table.now holder.old }
    requires frames { table.now.terms.frames ≡ 8 }
    requires cells { length table.now.terms.lends ≡ 2 }
{
    let took = [
        take(table, holder, FrameNo(4)),
        take(table, holder, FrameNo(6)),
        take(table, holder, FrameNo(7)),
    ];
    let lent = [
        borrow(table, holder, B),
        borrow(table, holder, B),
        borrow(table, holder, A),
    ];
    (took, lent)
}

/// Each frame is held under generation 8.
fn are_of_generation_8(rt: &impl Abort, frames: &[Frame]) {
    for frame in frames {
        assert!(rt; frame.generation == 8);
    }
}

/// Frame 4 goes to a cache, and frame 6 to a guest; nobody has frame 7, and of three loans two are lent.
fn holds(rt: &impl Abort, alloc: Global, table: &FrameTable, holder: &mut Holder, shape: &Shape)
    requires made { IsMade table.now holder.old }
    requires fits { FitsShape table.now (layout_of shape.now) }
    requires shape { (shape.now.nodes ≡ 2) × (shape.now.frames ≡ 4) }
    requires first { (holder.old.view ≡ first_view table.now.terms) × (table.now.terms.first ≡ 7) }
    requires cells { length table.now.terms.lends ≡ 2 }
{
    let need = Need {
        node: NodeId(0),
        pages: 5,
    };
    let Ok(placed) = place(alloc, table, holder, shape, 2, 1, &[need]) else {
        panic!(rt; "five frames are free for node 0")
    };
    assert!(rt; (placed.caches.len(), placed.guests.len()) == (2, 1));
    are_of_generation_8(rt, placed.guests[0].frames.as_slice());
    // frame 4, a cache's, and frame 6, a guest's, are held once under generation 8; nobody holds frame 7
    let once = Took::Held(8 * 4_294_967_296 + 1);
    let took = [once, once, Took::Took(8)];
    // of three loans two are lent
    let lent = [Borrow::Lent, Borrow::AtLimit(3), Borrow::AtLimit(0)];
    assert!(rt; asked(table, holder) == (took, lent));
}

#[test]
fn frames_and_loans_are_held(rt: HostRuntime) {
    // frames 0 and 4 for the caches; three of node 0 and two of node 1 for a guest of node 0, where cell 1 lends three
    let shape = shape_of(&rt, rt.alloc(), 4, &[A, B]);
    let (table, mut holder) = gave(&rt, FrameTable::new(rt.alloc(), 8, &[0, 3], 7));
    holds(&rt, rt.alloc(), &table, &mut holder, &shape);
}
