//! Runs of descriptions, under the monitor and alone.
use crate::cases::{
    BOTH_RUN, CELLS, Case, DISK, FIFTEEN_STEPS, FOUR_FRAMES, FOUR_PAGES, FRAMES, INPUT, MORE_PAGES,
    ONE_ALONE, ONE_THEN_ZERO, ONE_WITHIN_THE_OTHER, PRINTS_INPUT, PRINTS_ITS_NUMBER, READS_A_BLOCK,
    SECOND_GUEST, TWO_GUESTS, TWO_VCPUS, WITH_SUMS, WRITES_A_BLOCK, machine, private, refused,
    try_all,
};

#[test]
fn guests_run_alone(rt: HostRuntime) {
    let cases = [
        private(),
        Case {
            changes: &[("steps = 5", "steps = 4")],
            output: "guest 0 console 1\nA\nend budget\n",
            ..private()
        },
        Case {
            changes: &[("steps = 5", "steps = 0")],
            output: "guest 0 console 0\n\nend budget\n",
            ..private()
        },
        Case {
            changes: &[("steps = 5", "steps = 1000")],
            ..private()
        },
        Case {
            changes: &[TWO_GUESTS, FRAMES, BOTH_RUN],
            output: "guest 0 console 1\nA\nend budget\nguest 1 console 1\nA\nend halted\n",
            ..private()
        },
        Case {
            changes: &[TWO_VCPUS, ONE_THEN_ZERO],
            image: &PRINTS_ITS_NUMBER,
            output: "guest 0 console 2\nBA\nend halted\n",
            ..private()
        },
        Case {
            changes: &[TWO_VCPUS, ONE_ALONE],
            image: &PRINTS_ITS_NUMBER,
            output: "guest 0 console 1\nB\nend budget\n",
            ..private()
        },
        Case {
            changes: &[INPUT],
            image: &PRINTS_INPUT,
            output: "guest 0 console 1\nZ\nend halted\n",
            ..private()
        },
        Case {
            changes: &[DISK, FIFTEEN_STEPS],
            image: &READS_A_BLOCK,
            output: "guest 0 console 2\nab\nend halted\n",
            ..private()
        },
        Case {
            changes: &[
                TWO_GUESTS,
                DISK,
                MORE_PAGES,
                FOUR_PAGES,
                ONE_WITHIN_THE_OTHER,
            ],
            image: &WRITES_A_BLOCK,
            output: "guest 0 console 2\nax\nend halted\nguest 1 console 2\nay\nend halted\n",
            ..private()
        },
    ];
    try_all(&rt, rt.alloc(), &cases)
}

#[test]
fn guests_run_under_the_monitor(rt: HostRuntime) {
    let cases = [
        machine(),
        Case {
            changes: &[("steps = 5", "steps = 4")],
            output: "guest 0 console 1\nA\nend budget\nsums steps 4 refills 1 moves 0 skips 0 breaks 0 shared 0 received 0 discarded 0\n",
            ..machine()
        },
        Case {
            changes: &[("steps = 5", "steps = 0")],
            output: "guest 0 console 0\n\nend budget\nsums steps 0 refills 0 moves 0 skips 0 breaks 0 shared 0 received 0 discarded 0\n",
            ..machine()
        },
        Case {
            changes: &[TWO_GUESTS, FRAMES, BOTH_RUN],
            output: "guest 0 console 1\nA\nend budget\nsums steps 4 refills 1 moves 0 skips 0 breaks 0 shared 0 received 0 discarded 0\nguest 1 console 1\nA\nend halted\nsums steps 5 refills 1 moves 0 skips 0 breaks 0 shared 0 received 0 discarded 0\n",
            guests: 2,
            ..machine()
        },
        Case {
            changes: &[TWO_VCPUS, ONE_THEN_ZERO],
            image: &PRINTS_ITS_NUMBER,
            output: "guest 0 console 2\nBA\nend halted\nsums steps 12 refills 2 moves 0 skips 0 breaks 0 shared 0 received 0 discarded 0\n",
            ..machine()
        },
        Case {
            changes: &[INPUT],
            image: &PRINTS_INPUT,
            output: "guest 0 console 1\nZ\nend halted\nsums steps 5 refills 1 moves 0 skips 0 breaks 0 shared 0 received 0 discarded 0\n",
            ..machine()
        },
    ];
    try_all(&rt, rt.alloc(), &cases)
}

/// Two nodes of 4 frames in cells of their own: the guest's own cell gives 4, and the other one lends 2. On two nodes of one cell no
/// frame takes a loan. Guests that are short are refused with what they need and what they have.
#[test]
fn guests_over_nodes_and_cells(rt: HostRuntime) {
    let cases = [
        Case {
            changes: &[CELLS, ("pages = 16", "pages = 6")],
            output: WITH_SUMS,
            ..machine()
        },
        refused(
            &[CELLS, ("pages = 16", "pages = 7")],
            7,
            "fault admission guest 0 needs 7 has 6\n",
        ),
        Case {
            option: "--private",
            ..refused(
                &[CELLS, ("pages = 16", "pages = 7")],
                7,
                "fault admission guest 0 needs 7 has 6\n",
            )
        },
        refused(
            &[CELLS, SECOND_GUEST, ("pages = 16", "pages = 5")],
            7,
            "fault admission guest 1 needs 4 has 3\n",
        ),
        Case {
            changes: &[CELLS, SECOND_GUEST, ("pages = 16", "pages = 4")],
            output: "guest 0 console 1\nA\nend halted\nsums steps 5 refills 1 moves 0 skips 0 breaks 0 shared 0 received 0 discarded 0\nguest 1 console 0\n\nend budget\nsums steps 0 refills 0 moves 0 skips 0 breaks 0 shared 0 received 0 discarded 0\n",
            guests: 2,
            ..machine()
        },
        Case {
            changes: &[("nodes = 1", "nodes = 2"), ("pages = 16", "pages = 32")],
            output: WITH_SUMS,
            ..machine()
        },
        refused(
            &[("nodes = 1", "nodes = 2"), ("pages = 16", "pages = 33")],
            7,
            "fault admission guest 0 needs 33 has 32\n",
        ),
    ];
    try_all(&rt, rt.alloc(), &cases)
}

/// A disk's read into a page is no refill; each slice of a guest refills anew. Guests that name one file see their own writes only.
#[test]
fn guests_with_disks_under_the_monitor(rt: HostRuntime) {
    let cases = [
        Case {
            changes: &[DISK],
            output: "guest 0 console 1\nA\nend halted\nsums steps 5 refills 1 moves 0 skips 0 breaks 0 shared 0 received 0 discarded 0\n",
            ..machine()
        },
        Case {
            changes: &[DISK, FIFTEEN_STEPS, FOUR_PAGES, FOUR_FRAMES],
            image: &READS_A_BLOCK,
            output: "guest 0 console 2\nab\nend halted\nsums steps 15 refills 2 moves 0 skips 0 breaks 0 shared 0 received 0 discarded 0\n",
            ..machine()
        },
        Case {
            changes: &[
                TWO_GUESTS,
                DISK,
                MORE_PAGES,
                FOUR_PAGES,
                ONE_WITHIN_THE_OTHER,
            ],
            image: &WRITES_A_BLOCK,
            output: "guest 0 console 2\nax\nend halted\nsums steps 21 refills 4 moves 0 skips 0 breaks 0 shared 0 received 0 discarded 0\nguest 1 console 2\nay\nend halted\nsums steps 21 refills 3 moves 0 skips 0 breaks 0 shared 0 received 0 discarded 0\n",
            guests: 2,
            ..machine()
        },
    ];
    try_all(&rt, rt.alloc(), &cases)
}
