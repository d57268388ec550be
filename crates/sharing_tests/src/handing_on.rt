//! Pages that guests send whole: the receiver maps the frame, or gets a copy. What each guest prints, its steps and its sums were derived by
//! hand.
use crate::guests::{Case, Guest, PLAIN, try_monitored};
use crate::packets::{MACHINE, PRINTS_A_WORD, SENDS_A_PAGE};

/// The same as `PRINTS_A_WORD`, which waits still.
const WAITS_FOR_A_WORD: Guest<'static> = Guest {
    console: "",
    end: "budget",
    steps: 4,
    refills: 1,
    received: 0,
    ..PRINTS_A_WORD
};

/// Two nodes, each a cell of its own that lends nothing.
const TWO_CELLS: &str =
    "nodes = 2\nframes = 8\nprocessors = [0]\n[[cell]]\nnodes = [0]\n[[cell]]\nnodes = [1]\n";

/// The guest that has sent its page by its 11th step, and stands there.
const SENT: Guest<'static> = Guest {
    console: "",
    end: "budget",
    steps: 11,
    refills: 2,
    breaks: 0,
    ..SENDS_A_PAGE
};

/// The guest whose page was sent as a copy: it stays its own.
const SENDS_A_COPY: Guest<'static> = Guest {
    refills: 2,
    breaks: 0,
    ..SENDS_A_PAGE
};

/// As `SENDS_A_PAGE`, but four bytes of it.
const SENDS_FOUR_BYTES: Guest<'static> = Guest {
    program: &[
        0x3C10CFFF, 0x3610F000, 0x3C0AC000, 0x240B0050, 0xAD4B2000, 0x24080002, 0xAE080030,
        0x24090004, 0xAE090034, 0x240C0001, 0xAE0C0038, 0x240B0051, 0xAD4B2000, 0xAE0B0000,
        0xAE000004,
    ],
    ..SENT
};

/// Stores P to page 2, sends the whole page to guest 1 twice by its 12th step, and halts. Page 0 is refilled once more for its last step.
const SENDS_TWICE: Guest<'static> = Guest {
    program: &[
        0x3C10CFFF, 0x3610F000, 0x3C0AC000, 0x240B0050, 0xAD4B2000, 0x24080002, 0xAE080030,
        0x24091000, 0xAE090034, 0x240C0001, 0xAE0C0038, 0xAE0C0038, 0xAE000004,
    ],
    end: "halted",
    steps: 13,
    refills: 3,
    ..PLAIN
};

/// Stores P to page 2 and sends the whole page to guest 1; stores Q there, and sends it again by its 14th step.
const SENDS_ANEW: Guest<'static> = Guest {
    program: &[
        0x3C10CFFF, 0x3610F000, 0x3C0AC000, 0x240B0050, 0xAD4B2000, 0x24080002, 0xAE080030,
        0x24091000, 0xAE090034, 0x240C0001, 0xAE0C0038, 0x240B0051, 0xAD4B2000, 0xAE0C0038,
    ],
    steps: 14,
    refills: 4,
    breaks: 1,
    ..PLAIN
};

/// Takes two packets into page 2, which is armed first by its 6th step, and prints the first word of each. Page 2 is refilled after each.
const TAKES_TWO: Guest<'static> = Guest {
    program: &[
        0x3C10CFFF, 0x3610F000, 0x3C0AC000, 0x24080002, 0x240C0002, 0xAE08003C, 0x8E09003C,
        0x1128FFFE, 0x00000000, 0x8D4B2000, 0xAE0B0000, 0x258CFFFF, 0x1D80FFF8, 0x00000000,
        0xAE000004,
    ],
    console: "PP",
    end: "halted",
    steps: 24,
    refills: 4,
    shared: 2,
    received: 2,
    ..PLAIN
};

/// Fills the wire to guest 1 with 64 packets, by its 264th step, sends page 1 whole, stores to it, and halts.
const SENDS_TOO_MUCH: Guest<'static> = Guest {
    program: &[
        0x3C10CFFF, 0x3610F000, 0x3C0AC000, 0x24080001, 0xAE080030, 0x24090004, 0xAE090034,
        0x240B0040, 0xAE080038, 0x256BFFFF, 0x1D60FFFD, 0x00000000, 0x24091000, 0xAE090034,
        0xAE080038, 0xAD491000, 0xAE000004,
    ],
    end: "halted",
    steps: 269,
    refills: 3,
    breaks: 1,
    ..PLAIN
};

/// Reads block 0 into page 2, sends the page whole to guest 1, and halts: it never touches the page itself.
const SENDS_A_BLOCK: Guest<'static> = Guest {
    program: &[
        0x3C10CFFF, 0x3610F000, 0x3C0AC000, 0xAE000020, 0x24080002, 0xAE080024, 0x24090001,
        0xAE090028, 0xAE080030, 0x240C1000, 0xAE0C0034, 0xAE090038, 0xAE000004,
    ],
    disk: "disk = \"d\"\n",
    end: "halted",
    steps: 13,
    refills: 1,
    shared: 1,
    ..PLAIN
};

/// Reads block 0 into page 2 and arms it, by its 8th step; waits until the length of the last packet isn't 0, and prints the page's first
/// word.
const READS_AND_ARMS: Guest<'static> = Guest {
    program: &[
        0x3C10CFFF, 0x3610F000, 0x3C0AC000, 0x24080002, 0xAE080024, 0x24090001, 0xAE090028,
        0xAE08003C, 0x8E090040, 0x1120FFFE, 0x00000000, 0x8D4B2000, 0xAE0B0000, 0xAE000004,
    ],
    disk: "disk = \"d\"\n",
    steps: 14,
    shared: 2,
    ..PRINTS_A_WORD
};

/// The page is remapped, and the sender's store breaks it after that; also once the plan is done. It is copied where the sender's store has
/// broken it before it is taken; that store breaks it also where the receiver has ended or the wire is full.
#[test]
fn a_page_is_handed_on(rt: HostRuntime) {
    let cases = [
        Case {
            about: "a page that is taken before it is written",
            machine: MACHINE,
            disk: &[],
            guests: &[
                Guest {
                    refills: 5,
                    ..SENDS_A_PAGE
                },
                Guest {
                    refills: 4,
                    shared: 1,
                    ..PRINTS_A_WORD
                },
            ],
            runs: &[(1, 4), (0, 11), (1, 3), (0, 4), (1, 4)],
        },
        Case {
            about: "a page that is taken once the plan is done",
            machine: MACHINE,
            disk: &[],
            guests: &[
                SENT,
                Guest {
                    shared: 1,
                    received: 1,
                    ..WAITS_FOR_A_WORD
                },
            ],
            runs: &[(1, 4), (0, 11)],
        },
        Case {
            about: "a receiver that has ended",
            machine: MACHINE,
            disk: &[],
            guests: &[
                SENDS_A_PAGE,
                Guest {
                    program: &[0x3C01CFFF, 0x3421F000, 0xAC220004],
                    end: "halted",
                    steps: 3,
                    ..WAITS_FOR_A_WORD
                },
            ],
            runs: &[(1, 3), (0, 20)],
        },
        Case {
            about: "a wire that is full",
            machine: MACHINE,
            disk: &[],
            guests: &[
                SENDS_TOO_MUCH,
                Guest {
                    steps: 0,
                    refills: 0,
                    ..WAITS_FOR_A_WORD
                },
            ],
            runs: &[(0, 300)],
        },
    ];
    try_monitored(&rt, rt.alloc(), &cases)
}

/// A whole page is copied to a guest at home in another cell, and where no frame of the machine is free; its sender keeps it.
#[test]
fn a_page_is_sent_as_a_copy(rt: HostRuntime) {
    let cases = [
        Case {
            about: "a receiver in another cell",
            machine: TWO_CELLS,
            disk: &[],
            guests: &[
                SENDS_A_COPY,
                Guest {
                    node: 1,
                    ..PRINTS_A_WORD
                },
            ],
            runs: &[(1, 4), (0, 20), (1, 20)],
        },
        Case {
            about: "no free frame",
            machine: "nodes = 1\nframes = 8\nprocessors = [0]\n",
            disk: &[],
            guests: &[SENDS_A_COPY, PRINTS_A_WORD],
            runs: &[(1, 4), (0, 20), (1, 20)],
        },
    ];
    try_monitored(&rt, rt.alloc(), &cases)
}

/// A shared page is handed on again with no further frame: the machine has one free one, and both packets are remapped. Where the page was
/// broken between the sends, the first packet's frame is free or another's by then, and is copied.
#[test]
fn a_page_is_sent_twice(rt: HostRuntime) {
    let cases = [
        Case {
            about: "a page that is shared already",
            machine: "nodes = 1\nframes = 9\nprocessors = [0]\n",
            disk: &[],
            guests: &[SENDS_TWICE, TAKES_TWO],
            runs: &[(1, 6), (0, 12), (1, 20), (0, 20)],
        },
        Case {
            about: "a page that is broken between the sends",
            machine: MACHINE,
            disk: &[],
            guests: &[
                SENDS_ANEW,
                Guest {
                    console: "PQ",
                    shared: 1,
                    ..TAKES_TWO
                },
            ],
            runs: &[(1, 6), (0, 14), (1, 20)],
        },
    ];
    try_monitored(&rt, rt.alloc(), &cases)
}

/// A block that the cell keeps is handed on with no further frame, also when the guest that read it has ended. A packet comes into a page
/// that holds such a block: a whole one takes its place, and four bytes break it first.
#[test]
fn blocks_and_packets_share_pages(rt: HostRuntime) {
    let cases = [
        Case {
            about: "a block that is handed on",
            machine: "nodes = 1\nframes = 9\nprocessors = [0]\ncache = 1\n",
            disk: &[(0, &[0x61])],
            guests: &[
                SENDS_A_BLOCK,
                Guest {
                    console: "a",
                    shared: 1,
                    ..PRINTS_A_WORD
                },
            ],
            runs: &[(1, 4), (0, 20), (1, 20)],
        },
        Case {
            about: "a page into a shared one",
            machine: "nodes = 1\nframes = 12\nprocessors = [0]\ncache = 1\n",
            disk: &[(0, &[0x61])],
            guests: &[SENT, READS_AND_ARMS],
            runs: &[(1, 8), (0, 11), (1, 6)],
        },
        Case {
            about: "four bytes into a shared page",
            machine: "nodes = 1\nframes = 12\nprocessors = [0]\ncache = 1\n",
            disk: &[(0, &[0x61])],
            guests: &[
                SENDS_FOUR_BYTES,
                Guest {
                    breaks: 1,
                    shared: 1,
                    ..READS_AND_ARMS
                },
            ],
            runs: &[(1, 8), (0, 11), (1, 6)],
        },
    ];
    try_monitored(&rt, rt.alloc(), &cases)
}
