//! A whole run, and what it leaves of the machine's frames.
ghost use Rattle.std.specs.Prelude.{◌≡◌, ◌*◌, ◌<◌, length};
ghost use Rattle.std.specs.Bool.{OnTrue};
ghost use Rattle.frame_words.specs.Holders.{IsMade};

use crate::telling::gave;
use base_words::{CellId, End, FrameNo};
use frame_words::{Borrow, FrameTable, Holder, Took, borrow, take};
use guest_cases::{PRINTS_A, described};
use machine_desc::Machine;
use outside_io::FreeGate;
use run_workers::{Finished, finish};
use std::alloc::Global;
use std::process::Abort;
use std::sync::Wait;
use std::thread::Threads;

/// Two guests of three pages each, at home on a node of four frames. The other node has four more, of which its cell lends two. The
/// first guest halts at its fifth step, and the second is ended by the plan.
const TWO_GUESTS: &str = r#"
[machine]
nodes = 2
frames = 4
processors = [0]
[[cell]]
nodes = [0]
lend = 0
[[cell]]
nodes = [1]
lend = 2
[[guest]]
image = "a.raw"
form = "raw"
pages = 3
vcpus = 1
node = 0
[[guest]]
image = "a.raw"
form = "raw"
pages = 3
vcpus = 1
node = 0
[[work]]
act = "run"
processor = 0
guest = 0
vcpu = 0
steps = 5
[[work]]
act = "run"
processor = 0
guest = 1
vcpu = 0
steps = 3
"#;

/// Whether the machine has eight frames on two nodes, and two cells.
fn is_small(machine: &Machine) -> bool
    ensures frames { OnTrue result (machine.now.shape.nodes * machine.now.shape.frames ≡ 8) }
    ensures lends { OnTrue result (length machine.now.lends ≡ 2) }
{
    machine.shape.nodes == 2 && machine.shape.frames == 4 && machine.lends.len() == 2
}

/// The run of the two guests.
fn whole_run<R: Abort + Sync + Threads + Wait>(rt: &R, alloc: Global) -> Finished
    ensures made { IsMade result.table result.holder }
    ensures frames { result.table.terms.frames ≡ 8 }
    ensures lends { length result.table.terms.lends ≡ 2 }
{
    let (machine, plan, sources) = gave(rt, described(alloc, TWO_GUESTS, &PRINTS_A, &PRINTS_A));
    assert!(rt; is_small(&machine), "the machine is as described");
    gave(rt, finish(rt, alloc, &machine, &plan, sources, &FreeGate))
}

/// Whether a frame can be taken, under this generation.
fn is_free(table: &FrameTable, holder: &mut Holder, frame: u32, generation: u32) -> bool
    requires made { IsMade table.now holder.old }
    requires within { frame < table.now.terms.frames }
    ensures same { holder.new.table ≡ holder.old.table }
{
    take(table, holder, FrameNo(frame)) == Took::Took(generation)
}

/// Whether each frame can be taken: those that the guests had under their second generation, and the two others under their first.
fn are_free(table: &FrameTable, holder: &mut Holder) -> [bool; 8]
    requires made { IsMade table.now holder.old }
    requires frames { table.now.terms.frames ≡ 8 }
    ensures same { holder.new.table ≡ holder.old.table }
{
    [
        is_free(table, holder, 0, 2),
        is_free(table, holder, 1, 2),
        is_free(table, holder, 2, 2),
        is_free(table, holder, 3, 2),
        is_free(table, holder, 4, 2),
        is_free(table, holder, 5, 2),
        is_free(table, holder, 6, 1),
        is_free(table, holder, 7, 1),
    ]
}

/// What is answered to a loan of the first cell, and then to three of the other.
fn loans(table: &FrameTable, holder: &mut Holder) -> [Borrow; 4]
    requires made { IsMade table.now holder.old }
    requires lends { length table.now.terms.lends ≡ 2 }
{
    [
        borrow(table, holder, CellId(0)),
        borrow(table, holder, CellId(1)),
        borrow(table, holder, CellId(1)),
        borrow(table, holder, CellId(1)),
    ]
}

#[test]
fn all_frames_and_loans_are_free_once_guests_have_ended_one_by_one(rt: HostRuntime) {
    let mut done = whole_run(&rt, rt.alloc());
    let ends = match done.record.guests.as_slice() {
        [first, second] => Some((first.end, second.end)),
        _ => None,
    };
    assert!(rt; ends == Some((End::Halted, End::Budget)), "how they ended");
    let free = are_free(&done.table, &mut done.holder);
    assert!(rt; free.as_slice() == [true; 8].as_slice(), "frames");
    let loans = loans(&done.table, &mut done.holder);
    assert!(rt;
        loans.as_slice()
            == [
                Borrow::AtLimit(0),
                Borrow::Lent,
                Borrow::Lent,
                Borrow::AtLimit(2),
            ]
            .as_slice(),
        "the first cell lends nothing, and the other one two frames"
    );
}
