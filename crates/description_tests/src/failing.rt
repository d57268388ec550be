//! Whole runs in which cells fail, with what each guest prints, its sums and whom a failure ends derived by hand.
use crate::cases::{
    Case, Change, DISK, FIFTEEN_STEPS, KEEPS_ONE, MOVE_AND_FAILURE, READS_A_BLOCK, machine,
    private, refused, try_all,
};
use crate::telling::must;
use base_words::{CellId, End, GuestId};
use guest_core::{Cut, RunRecord};
use monitor_run::disco;
use outside_io::{CallList, FileList, FreeGate, MemShelf, MemSink};
use run_cases::{PRINTS_A_WORD, SENDS_A_PAGE, file_of_parts, held, words_of};
use std::alloc::Global;
use std::process::Abort;
use std::sync::Wait;
use std::thread::Threads;

/// Two nodes of 16 frames, each a cell, of which the second lends one.
const TWO_CELLS: Change<'static> = (
    "nodes = 1\nframes = 16\nprocessors = [0]\n",
    "nodes = 2\nframes = 16\nprocessors = [0]\n[[cell]]\nnodes = [0]\n[[cell]]\nnodes = [1]\nlend = 1\n",
);

/// A third cell of one node.
const THREE_CELLS: Change<'static> = (
    "nodes = 1\nframes = 16\nprocessors = [0]\n",
    "nodes = 3\nframes = 16\nprocessors = [0]\n[[cell]]\nnodes = [0]\n[[cell]]\nnodes = [1]\n[[cell]]\nnodes = [2]\n",
);

/// The second cell lends four.
const LENDS_FOUR: Change<'static> = ("lend = 1", "lend = 4");

/// The processor is on the second node.
const ON_NODE_1: Change<'static> = ("processors = [0]", "processors = [1]");

/// The guest has 8 pages, and a guest of 9 stands behind it.
const EIGHT_AND_NINE: Change<'static> = (
    "pages = 16\nvcpus = 1\nnode = 0\n",
    "pages = 8\nvcpus = 1\nnode = 0\n[[guest]]\nimage = \"a.raw\"\nform = \"raw\"\npages = 9\nvcpus = 1\nnode = 0\n",
);

/// The same, and one of 8.
const EIGHT_AND_EIGHT: Change<'static> = (
    "pages = 16\nvcpus = 1\nnode = 0\n",
    "pages = 8\nvcpus = 1\nnode = 0\n[[guest]]\nimage = \"a.raw\"\nform = \"raw\"\npages = 8\nvcpus = 1\nnode = 0\n",
);

/// The guest has 4 pages, and one of 4 on node 1 stands behind it.
const ONE_ON_EACH: Change<'static> = (
    "pages = 16\nvcpus = 1\nnode = 0\n",
    "pages = 4\nvcpus = 1\nnode = 0\n[[guest]]\nimage = \"a.raw\"\nform = \"raw\"\npages = 4\nvcpus = 1\nnode = 1\n",
);

/// Both guests are at home on node 1.
const BOTH_ON_NODE_1: Change<'static> = (
    "pages = 16\nvcpus = 1\nnode = 0\n",
    "pages = 4\nvcpus = 1\nnode = 1\n[[guest]]\nimage = \"a.raw\"\nform = \"raw\"\npages = 4\nvcpus = 1\nnode = 1\n",
);

/// Guest 1 makes four steps, cell 1 fails, guest 1 is to make one, and guest 0 five.
const CELL_1_WITHIN_GUEST_1: Change<'static> = (
    "processor = 0\nguest = 0\nvcpu = 0\nsteps = 5\n",
    "processor = 0\nguest = 1\nvcpu = 0\nsteps = 4\n[[work]]\nact = \"fail\"\nprocessor = 0\ncell = 1\n[[work]]\nact = \"run\"\nprocessor = 0\nguest = 1\nvcpu = 0\nsteps = 1\n[[work]]\nact = \"run\"\nprocessor = 0\nguest = 0\nvcpu = 0\nsteps = 5\n",
);

/// Cell 0, or cell 1, fails before the run.
const CELL_0_FIRST: Change<'static> = (
    "[[work]]\n",
    "[[work]]\nact = \"fail\"\nprocessor = 0\ncell = 0\n[[work]]\n",
);

const CELL_1_FIRST: Change<'static> = (
    "[[work]]\n",
    "[[work]]\nact = \"fail\"\nprocessor = 0\ncell = 1\n[[work]]\n",
);

/// Cells 1 and 2 fail before the run.
const CELLS_1_AND_2_FIRST: Change<'static> = (
    "[[work]]\n",
    "[[work]]\nact = \"fail\"\nprocessor = 0\ncell = 1\n[[work]]\nact = \"fail\"\nprocessor = 0\ncell = 2\n[[work]]\n",
);

/// Cell 0 fails behind the run.
const CELL_0_LAST: Change<'static> = (
    "steps = 5\n",
    "steps = 5\n[[work]]\nact = \"fail\"\nprocessor = 0\ncell = 0\n",
);

/// Page 0 gets a replica on node 1, and then cell 1 fails.
const REPLICA_THEN_CELL_1: Change<'static> = (
    "[[work]]\n",
    "[[work]]\nact = \"move\"\nprocessor = 0\nguest = 0\npage = 0\nkind = \"replicate\"\nnode = 1\n[[work]]\nact = \"fail\"\nprocessor = 0\ncell = 1\n[[work]]\n",
);

/// Cell 1 fails, and then page 0 is to move to node 1, and to get a replica there.
const CELL_1_THEN_MOVES: Change<'static> = (
    "[[work]]\n",
    "[[work]]\nact = \"fail\"\nprocessor = 0\ncell = 1\n[[work]]\nact = \"move\"\nprocessor = 0\nguest = 0\npage = 0\nkind = \"migrate\"\nnode = 1\n[[work]]\nact = \"move\"\nprocessor = 0\nguest = 0\npage = 0\nkind = \"replicate\"\nnode = 1\n[[work]]\n",
);

/// Each of four pages moves to node 1, and then cell 0 fails.
const AWAY_THEN_CELL_0: Change<'static> = (
    "[[work]]\n",
    "[[work]]\nact = \"move\"\nprocessor = 0\nguest = 0\npage = 0\nkind = \"migrate\"\nnode = 1\n[[work]]\nact = \"move\"\nprocessor = 0\nguest = 0\npage = 1\nkind = \"migrate\"\nnode = 1\n[[work]]\nact = \"move\"\nprocessor = 0\nguest = 0\npage = 2\nkind = \"migrate\"\nnode = 1\n[[work]]\nact = \"move\"\nprocessor = 0\nguest = 0\npage = 3\nkind = \"migrate\"\nnode = 1\n[[work]]\nact = \"fail\"\nprocessor = 0\ncell = 0\n[[work]]\n",
);

const FOUR: Change<'static> = ("pages = 16", "pages = 4");

const HOME_ON_NODE_1: Change<'static> = ("node = 0\n", "node = 1\n");

/// Whom a failure ends: who has a frame there, its own or borrowed, but for a replica, and no one else. Who ended before stays as it ended.
#[test]
fn a_failed_cell_ends_who_uses_it(rt: HostRuntime) {
    let cases = [
        Case {
            changes: &[TWO_CELLS, EIGHT_AND_NINE, CELL_1_WITHIN_GUEST_1],
            output: "guest 0 console 1\nA\nend halted\nsums steps 5 refills 1 moves 0 skips 0 breaks 0 shared 0 received 0 discarded 0\nguest 1 console 1\nA\nend cell 1\nsums steps 4 refills 1 moves 0 skips 0 breaks 0 shared 0 received 0 discarded 0\nfailure cell 1 ended 1\n",
            guests: 2,
            ..machine()
        },
        Case {
            changes: &[TWO_CELLS, EIGHT_AND_EIGHT, CELL_1_WITHIN_GUEST_1],
            output: "guest 0 console 1\nA\nend halted\nsums steps 5 refills 1 moves 0 skips 0 breaks 0 shared 0 received 0 discarded 0\nguest 1 console 1\nA\nend halted\nsums steps 5 refills 2 moves 0 skips 0 breaks 0 shared 0 received 0 discarded 0\nfailure cell 1 ended none\n",
            guests: 2,
            ..machine()
        },
        Case {
            changes: &[TWO_CELLS, BOTH_ON_NODE_1, CELL_1_FIRST],
            output: "guest 0 console 0\n\nend cell 1\nsums steps 0 refills 0 moves 0 skips 0 breaks 0 shared 0 received 0 discarded 0\nguest 1 console 0\n\nend cell 1\nsums steps 0 refills 0 moves 0 skips 0 breaks 0 shared 0 received 0 discarded 0\nfailure cell 1 ended 0 1\n",
            guests: 2,
            ..machine()
        },
        Case {
            changes: &[THREE_CELLS, ONE_ON_EACH, CELLS_1_AND_2_FIRST],
            output: "guest 0 console 1\nA\nend halted\nsums steps 5 refills 1 moves 0 skips 0 breaks 0 shared 0 received 0 discarded 0\nguest 1 console 0\n\nend cell 1\nsums steps 0 refills 0 moves 0 skips 0 breaks 0 shared 0 received 0 discarded 0\nfailure cell 1 ended 1\nfailure cell 2 ended none\n",
            guests: 2,
            ..machine()
        },
        Case {
            changes: &[TWO_CELLS, REPLICA_THEN_CELL_1],
            output: "guest 0 console 1\nA\nend halted\nsums steps 5 refills 1 moves 1 skips 0 breaks 0 shared 0 received 0 discarded 0\nfailure cell 1 ended none\n",
            ..machine()
        },
        Case {
            changes: &[CELL_0_LAST],
            output: "guest 0 console 1\nA\nend halted\nsums steps 5 refills 1 moves 0 skips 0 breaks 0 shared 0 received 0 discarded 0\nfailure cell 0 ended none\n",
            ..machine()
        },
    ];
    try_all(&rt, rt.alloc(), &cases)
}

/// Who goes on never uses the cell again: no page moves there, nothing runs on a processor there, and no block is shared with a home cell that
/// has failed.
#[test]
fn a_guest_goes_on_without_a_failed_cell(rt: HostRuntime) {
    let cases = [
        Case {
            changes: &[TWO_CELLS, CELL_1_THEN_MOVES],
            output: "guest 0 console 1\nA\nend halted\nsums steps 5 refills 1 moves 0 skips 2 breaks 0 shared 0 received 0 discarded 0\nfailure cell 1 ended none\n",
            ..machine()
        },
        Case {
            changes: &[TWO_CELLS, HOME_ON_NODE_1, CELL_0_FIRST],
            output: "guest 0 console 0\n\nend budget\nsums steps 0 refills 0 moves 0 skips 0 breaks 0 shared 0 received 0 discarded 0\nfailure cell 0 ended none\n",
            ..machine()
        },
        Case {
            changes: &[TWO_CELLS, LENDS_FOUR, ON_NODE_1, FOUR, AWAY_THEN_CELL_0],
            output: "guest 0 console 1\nA\nend halted\nsums steps 5 refills 1 moves 4 skips 0 breaks 0 shared 0 received 0 discarded 0\nfailure cell 0 ended none\n",
            ..machine()
        },
        Case {
            changes: &[
                ("processors = [0]\n", "processors = [0]\ncache = 1\n"),
                (
                    "nodes = 1\nframes = 16\nprocessors = [0]\ncache = 1\n",
                    "nodes = 2\nframes = 16\nprocessors = [1]\ncache = 1\n[[cell]]\nnodes = [0]\n[[cell]]\nnodes = [1]\nlend = 4\n",
                ),
                DISK,
                FOUR,
                FIFTEEN_STEPS,
                AWAY_THEN_CELL_0,
            ],
            image: &READS_A_BLOCK,
            output: "guest 0 console 2\nab\nend halted\nsums steps 15 refills 2 moves 4 skips 0 breaks 0 shared 0 received 0 discarded 0\nfailure cell 0 ended none\n",
            ..machine()
        },
    ];
    try_all(&rt, rt.alloc(), &cases)
}

/// A failure behind moves and runs; a guest alone has no cells, and whoever doesn't fit isn't run.
#[test]
fn moves_and_failures(rt: HostRuntime) {
    let done = Case {
        changes: &[FIFTEEN_STEPS, MOVE_AND_FAILURE],
        output: "guest 0 console 1\nA\nend halted\nsums steps 5 refills 1 moves 0 skips 1 breaks 0 shared 0 received 0 discarded 0\nfailure cell 0 ended none\n",
        ..machine()
    };
    let short = refused(
        &[KEEPS_ONE, FIFTEEN_STEPS, MOVE_AND_FAILURE],
        7,
        "fault admission guest 0 needs 16 has 15\n",
    );
    let cases = [
        done,
        Case {
            changes: &[DISK, FIFTEEN_STEPS, MOVE_AND_FAILURE],
            ..done
        },
        short,
        Case {
            changes: &[FIFTEEN_STEPS, MOVE_AND_FAILURE],
            ..private()
        },
        Case {
            changes: &[DISK, FIFTEEN_STEPS, MOVE_AND_FAILURE],
            ..private()
        },
        Case {
            option: "--private",
            ..short
        },
        Case {
            changes: &[TWO_CELLS, EIGHT_AND_NINE, CELL_1_WITHIN_GUEST_1],
            output: "guest 0 console 1\nA\nend halted\nguest 1 console 1\nA\nend halted\n",
            ..private()
        },
    ];
    try_all(&rt, rt.alloc(), &cases)
}

/// A description and the programs of its guests, which are files named by their numbers.
#[derive(Clone, Copy)]
struct Run<'a> {
    text: &'a str,
    programs: &'a [&'a [u32]],
    output: &'a str,
}

/// Runs it, compares the report, and gives the record.
fn try_run<R: Abort + Threads + Wait + Sync>(rt: &R, alloc: Global, run: &Run) -> RunRecord {
    let mut files = FileList::new(alloc);
    must(
        rt,
        files.push(must(
            rt,
            held(alloc, "m", must(rt, run.text.as_bytes().to_vec(alloc))),
        )),
    );
    for (number, program) in run.programs.iter().enumerate() {
        let name = must(rt, format!(in alloc; "{number}"));
        let image = must(rt, file_of_parts(alloc, &[(0, *program)]));
        must(rt, files.push(must(rt, held(alloc, name.as_str(), image))));
    }
    let mut shelf = MemShelf::new(alloc, files, CallList::new(alloc));
    let mut sink = MemSink::new(alloc, CallList::new(alloc));
    let words = must(rt, words_of(alloc, &["--machine", "m"]));
    let mut out = RunRecord::empty(alloc);
    let status = disco(
        rt, alloc, &words, &mut shelf, &mut sink, &FreeGate, &mut out,
    );
    assert!(rt; status == 0);
    assert!(rt; sink.bytes() == run.output.as_bytes());
    out
}

/// Guest 0 on node 1 runs for 20 steps, its cell fails, and guest 1 on node 0 runs for 11.
const SENT_BEFORE: &str = "[machine]
nodes = 2
frames = 8
processors = [0]
[[cell]]
nodes = [0]
[[cell]]
nodes = [1]
[[guest]]
image = \"0\"
form = \"raw\"
pages = 4
vcpus = 1
node = 1
[[guest]]
image = \"1\"
form = \"raw\"
pages = 4
vcpus = 1
node = 0
[[work]]
act = \"run\"
processor = 0
guest = 0
vcpu = 0
steps = 20
[[work]]
act = \"fail\"
processor = 0
cell = 1
[[work]]
act = \"run\"
processor = 0
guest = 1
vcpu = 0
steps = 11
";

/// A packet of a cell that has failed is thrown away.
#[test]
fn a_packet_of_a_failed_cell_is_thrown_away(rt: HostRuntime) {
    let run = Run {
        text: SENT_BEFORE,
        programs: &[SENDS_A_PAGE, PRINTS_A_WORD],
        output: "guest 0 console 1\nQ\nend halted\nsums steps 15 refills 2 moves 0 skips 0 breaks 0 shared 0 received 0 discarded 0\nguest 1 console 0\n\nend budget\nsums steps 11 refills 1 moves 0 skips 0 breaks 0 shared 0 received 0 discarded 1\nfailure cell 1 ended none\n",
    };
    let _ = try_run(&rt, rt.alloc(), &run);
}

/// Prints A and halts.
const PRINTS: [u32; 5] = [0x3C01CFFF, 0x3421F000, 0x24020041, 0xAC220000, 0xAC220004];

/// Cell 1, in which guest 1 has a frame, fails between its fourth and its fifth step.
const BETWEEN_STEPS: Run<'static> = Run {
    text: "[machine]
nodes = 2
frames = 16
processors = [0]
[[cell]]
nodes = [0]
[[cell]]
nodes = [1]
lend = 1
[[guest]]
image = \"0\"
form = \"raw\"
pages = 8
vcpus = 1
node = 0
[[guest]]
image = \"1\"
form = \"raw\"
pages = 9
vcpus = 1
node = 0
[[work]]
act = \"run\"
processor = 0
guest = 1
vcpu = 0
steps = 4
[[work]]
act = \"fail\"
processor = 0
cell = 1
[[work]]
act = \"run\"
processor = 0
guest = 1
vcpu = 0
steps = 1
[[work]]
act = \"run\"
processor = 0
guest = 0
vcpu = 0
steps = 5
",
    programs: &[&PRINTS, &PRINTS],
    output: "guest 0 console 1\nA\nend halted\nsums steps 5 refills 1 moves 0 skips 0 breaks 0 shared 0 received 0 discarded 0\nguest 1 console 1\nA\nend cell 1\nsums steps 4 refills 1 moves 0 skips 0 breaks 0 shared 0 received 0 discarded 0\nfailure cell 1 ended 1\n",
};

/// The processor's own cell fails for a guest that lies in the other one.
const OWN_CELL: Run<'static> = Run {
    text: "[machine]
nodes = 2
frames = 16
processors = [0]
[[cell]]
nodes = [0]
[[cell]]
nodes = [1]
[[guest]]
image = \"0\"
form = \"raw\"
pages = 4
vcpus = 1
node = 1
[[work]]
act = \"fail\"
processor = 0
cell = 0
[[work]]
act = \"run\"
processor = 0
guest = 0
vcpu = 0
steps = 5
[[work]]
act = \"run\"
processor = 0
guest = 0
vcpu = 0
steps = 0
",
    programs: &[&PRINTS],
    output: "guest 0 console 0\n\nend budget\nsums steps 0 refills 0 moves 0 skips 0 breaks 0 shared 0 received 0 discarded 0\nfailure cell 0 ended none\n",
};

/// Each slice has its steps and why it has no more, and each failure whom it ended.
#[test]
fn slices_and_failures_are_told(rt: HostRuntime) {
    let out = try_run(&rt, rt.alloc(), &BETWEEN_STEPS);
    let slices = out.slices.as_slice();
    assert!(rt; slices.len() == 3);
    assert!(rt; slices[0].item == 0 && slices[0].steps == 4 && slices[0].cause == Cut::Whole);
    assert!(rt; slices[1].item == 2 && slices[1].steps == 0);
    assert!(rt; slices[1].cause == Cut::GuestEnded(End::CellFailed(CellId(1))));
    assert!(rt; slices[2].item == 3 && slices[2].steps == 5 && slices[2].cause == Cut::Whole);
    let failures = out.failures.as_slice();
    assert!(rt; failures.len() == 1);
    assert!(rt; failures[0].item == 1 && failures[0].cell == CellId(1));
    assert!(rt; failures[0].ended.as_slice() == [GuestId(1)].as_slice());
    let out = try_run(&rt, rt.alloc(), &OWN_CELL);
    let slices = out.slices.as_slice();
    assert!(rt; slices.len() == 2);
    assert!(rt; slices[0].item == 1 && slices[0].steps == 0);
    assert!(rt; slices[0].cause == Cut::CellFailed(CellId(0)));
    assert!(rt; slices[1].item == 2 && slices[1].steps == 0 && slices[1].cause == Cut::Whole);
}

/// LUI 8, C000; LW 9, 1000(8); LW 9, 1000(8); LW 9, 1000(8).
const READS_PAGE_1: [u32; 4] = [0x3C08_C000, 0x8D09_1000, 0x8D09_1000, 0x8D09_1000];

/// The guest's only tie to the second of three cells is a replica there, which is the nearest frame for the processor on the third node.
const LOSES_A_REPLICA: Run<'static> = Run {
    text: "[machine]
nodes = 3
frames = 8
processors = [2]
[[cell]]
nodes = [0]
[[cell]]
nodes = [1]
lend = 1
[[cell]]
nodes = [2]
[[guest]]
image = \"0\"
form = \"raw\"
pages = 4
vcpus = 1
node = 0
[[work]]
act = \"move\"
processor = 0
guest = 0
page = 1
kind = \"replicate\"
node = 1
[[work]]
act = \"run\"
processor = 0
guest = 0
vcpu = 0
steps = 2
[[work]]
act = \"fail\"
processor = 0
cell = 1
[[work]]
act = \"run\"
processor = 0
guest = 0
vcpu = 0
steps = 2
",
    programs: &[&READS_PAGE_1],
    output: "guest 0 console 0\n\nend budget\nsums steps 4 refills 4 moves 1 skips 0 breaks 0 shared 0 received 0 discarded 0\nfailure cell 1 ended none\n",
};

/// A guest whose only tie to a failed cell is a replica goes on.
#[test]
fn a_replica_alone_is_no_use_of_a_cell(rt: HostRuntime) {
    let out = try_run(&rt, rt.alloc(), &LOSES_A_REPLICA);
    let slices = out.slices.as_slice();
    assert!(rt; slices.len() == 2);
    assert!(rt; slices[0].steps == 2 && slices[0].cause == Cut::Whole);
    assert!(rt; slices[1].steps == 2 && slices[1].cause == Cut::Whole);
    let failures = out.failures.as_slice();
    assert!(rt; failures.len() == 1);
    assert!(rt; failures[0].ended.is_empty());
}
