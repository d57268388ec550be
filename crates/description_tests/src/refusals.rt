//! Descriptions that are refused, and files and outputs that fail.
use crate::cases::{
    ALONE, Case, FOUR_FRAMES, KEEPS_ONE, P1, TWO_GUESTS, machine, private, refused, try_all,
    try_case,
};
use crate::telling::must;

#[test]
fn descriptions_are_refused(rt: HostRuntime) {
    let cases = [
        refused(&[("[machine]", "[machine")], 5, "fault description toml\n"),
        refused(
            &[("nodes = 1\n", "")],
            5,
            "fault description missing machine.nodes\n",
        ),
        refused(
            &[("frames", "frmes")],
            5,
            "fault description unknown machine.frmes\n",
        ),
        refused(
            &[("nodes = 1", "nodes = \"1\"")],
            5,
            "fault description kind machine.nodes\n",
        ),
        refused(
            &[("frames = 16", "frames = 0")],
            5,
            "fault description range machine.frames 0\n",
        ),
        refused(
            &[("frames = 16", "frames = -1")],
            5,
            "fault description range machine.frames -1\n",
        ),
        refused(
            &[("a.raw", "")],
            5,
            "fault description range guest[0].image 0\n",
        ),
        refused(
            &[("guest = 0", "guest = 1")],
            5,
            "fault description names work[0].guest 1\n",
        ),
        refused(
            &[(
                "[[guest]]",
                "[[cell]]\nnodes = [0]\n[[cell]]\nnodes = [0]\n[[guest]]",
            )],
            5,
            "fault description twice cell[1].nodes 0\n",
        ),
        refused(
            &[(
                "steps = 5\n",
                "steps = 5\n[[work]]\nact = \"run\"\nprocessor = 0\nguest = 0\nvcpu = 0\nsteps = 16000000\n",
            )],
            5,
            "fault description steps 16000005\n",
        ),
    ];
    try_all(&rt, rt.alloc(), &cases);
    for case in &cases {
        let alone = Case {
            option: "--private",
            ..*case
        };
        try_case(&rt, rt.alloc(), &alone);
    }
}

#[test]
fn images_and_frames_are_refused(rt: HostRuntime) {
    let cases = [
        Case {
            image: &[1, 2, 3, 4, 5, 6],
            ..refused(&[], 6, "fault image 0 short\n")
        },
        refused(&[("form = \"raw\"\n", "")], 6, "fault image 0 short\n"),
        Case {
            image: &[0; 52],
            ..refused(&[("form = \"raw\"\n", "")], 6, "fault image 0 magic\n")
        },
        refused(
            &[("pages = 16", "pages = 17")],
            7,
            "fault admission guest 0 needs 17 has 16\n",
        ),
        refused(
            &[TWO_GUESTS],
            7,
            "fault admission guest 1 needs 16 has 15\n",
        ),
        Case {
            option: "--private",
            ..refused(
                &[("pages = 16", "pages = 17")],
                7,
                "fault admission guest 0 needs 17 has 16\n",
            )
        },
    ];
    try_all(&rt, rt.alloc(), &cases)
}

/// The frames in which a cell keeps blocks are counted before the guests' pages, also for guests that run alone.
#[test]
fn the_frames_of_a_cache_are_counted(rt: HostRuntime) {
    let cases = [
        refused(&[KEEPS_ONE], 7, "fault admission guest 0 needs 16 has 15\n"),
        refused(
            &[
                FOUR_FRAMES,
                ("processors = [0]", "processors = [0]\ncache = 5"),
            ],
            7,
            "fault admission cell 0 needs 5 has 4\n",
        ),
        Case {
            option: "--private",
            ..refused(&[KEEPS_ONE], 7, "fault admission guest 0 needs 16 has 15\n")
        },
    ];
    try_all(&rt, rt.alloc(), &cases)
}

#[test]
fn reads_and_outputs_that_fail(rt: HostRuntime) {
    let alloc = rt.alloc();
    let cases = [
        Case {
            shelf_fails: &[1],
            ..refused(&[], 3, "fault read m\n")
        },
        Case {
            shelf_fails: &[2],
            ..refused(&[], 3, "fault read a.raw\n")
        },
        refused(&[("a.raw", "b.raw")], 3, "fault read b.raw\n"),
        Case {
            sink_fails: &[1],
            ..refused(&[("frames", "frmes")], 5, "")
        },
        Case {
            sink_fails: &[1],
            status: 4,
            output: "",
            ..private()
        },
        Case {
            sink_fails: &[2],
            status: 4,
            output: "guest 0 console 1\n",
            ..private()
        },
        Case {
            sink_fails: &[4],
            status: 4,
            ..private()
        },
    ];
    try_all(&rt, alloc, &cases);
    let mut long = must(&rt, String::from_str(alloc, "#"));
    for _ in 0..20 {
        long = must(&rt, format!(in alloc; "{long}{long}"));
    }
    let longer = must(&rt, format!(in alloc; "{long}#"));
    let changes = [(P1, longer.as_str())];
    try_case(&rt, alloc, &refused(&changes, 8, "fault long m\n"));
    let changes = [(P1, long.as_str())];
    try_case(
        &rt,
        alloc,
        &refused(&changes, 5, "fault description missing machine\n"),
    );
}

/// An output that fails under the monitor, whose record stays.
#[test]
fn an_output_that_fails_under_the_monitor(rt: HostRuntime) {
    let cases = [
        Case {
            sink_fails: &[1],
            status: 4,
            output: "",
            ..machine()
        },
        Case {
            sink_fails: &[4],
            status: 4,
            output: ALONE,
            ..machine()
        },
        Case {
            sink_fails: &[5],
            status: 4,
            ..machine()
        },
    ];
    try_all(&rt, rt.alloc(), &cases)
}
