//! Guests that read blocks of disks which their cells keep: what each prints, its steps and its sums were derived by hand.
use crate::guests::{Case, Guest, PLAIN, try_both};
use run_cases::Part;

/// A disk of one block, whose first word is the letter a.
const LETTER: &[Part<'static>] = &[(0, &[0x61])];

/// A disk of three blocks, whose first words are the letters x, y and z.
pub(crate) const LETTERS: &[Part<'static>] = &[(0, &[0x78]), (4096, &[0x79]), (8192, &[0x7A])];

/// A machine with room for the pages of one guest, whose cell keeps one block.
const ONE_KEPT: &str = "nodes = 1\nframes = 5\nprocessors = [0]\ncache = 1\n";

/// Reads block 0 into page 2 by its 7th step, loads its first word by its 9th, prints it, adds 1 and stores it by its 12th; loads it again
/// and prints it. In one run the page is refilled for the load, and once the store has broken it.
const READS: Guest<'static> = Guest {
    program: &[
        0x3C10CFFF, 0x3610F000, 0xAE000020, 0x24080002, 0xAE080024, 0x24090001, 0xAE090028,
        0x3C0AC000, 0x8D4B2000, 0xAE0B0000, 0x256B0001, 0xAD4B2000, 0x8D4B2000, 0xAE0B0000,
        0xAE000004,
    ],
    disk: "disk = \"d\"\n",
    console: "ab",
    end: "halted",
    steps: 15,
    refills: 3,
    breaks: 1,
    shared: 1,
    ..PLAIN
};

/// The same with another disk.
const READS_E: Guest<'static> = Guest {
    disk: "disk = \"e\"\n",
    ..READS
};

/// The same as the first where the block is copied: the page is the guest's own, and is refilled once.
const COPIES: Guest<'static> = Guest {
    refills: 2,
    breaks: 0,
    shared: 0,
    ..READS
};

/// Reads blocks 0, 1 and 2 into pages 1, 2 and 3 by its 16th step, stores a byte to each page, and prints the last byte of each first word.
/// In one run each page is refilled for its store, and once more when the store has broken it.
pub(crate) const STORES_TO_THREE: Guest<'static> = Guest {
    program: &[
        0x3C10CFFF, 0x3610F000, 0x3C0AC000, 0xAE000020, 0x24080001, 0xAE080024, 0x24090001,
        0xAE090028, 0xAE090020, 0x24080002, 0xAE080024, 0xAE090028, 0xAE080020, 0x24080003,
        0xAE080024, 0xAE090028, 0x240B0041, 0xA14B1000, 0xA14B2000, 0xA14B3000, 0x8D4B1000,
        0xAE0B0000, 0x8D4B2000, 0xAE0B0000, 0x8D4B3000, 0xAE0B0000, 0xAE000004,
    ],
    console: "xyz",
    steps: 27,
    refills: 7,
    breaks: 3,
    shared: 3,
    ..READS
};

/// Reads block 0 into page 2 and prints its first word, twice; writes it back as b, reads it again, which is copied, and prints it. The page
/// is refilled after each of the two reads, and once the store has broken it.
const READS_TWICE: Guest<'static> = Guest {
    program: &[
        0x3C10CFFF, 0x3610F000, 0x3C0AC000, 0x24080002, 0xAE080024, 0x24090001, 0xAE090028,
        0x8D4B2000, 0xAE0B0000, 0xAE090028, 0x8D4B2000, 0xAE0B0000, 0x240B0062, 0xAD4B2000,
        0xAE080028, 0xAE090028, 0x8D4B2000, 0xAE0B0000, 0xAE000004,
    ],
    console: "aab",
    steps: 19,
    refills: 4,
    shared: 2,
    ..READS
};

/// Each guest reads the block, and then each goes on. Page 0 is refilled in both runs of a guest.
#[test]
fn three_guests_share_a_block(rt: HostRuntime) {
    let reads = Guest {
        refills: 4,
        ..READS
    };
    let cases = [Case {
        about: "three guests and one block",
        machine: "nodes = 1\nframes = 13\nprocessors = [0]\ncache = 1\n",
        disk: LETTER,
        guests: &[reads, reads, reads],
        runs: &[(0, 7), (1, 7), (2, 7), (0, 8), (1, 8), (2, 8)],
    }];
    try_both(&rt, rt.alloc(), &cases)
}

/// A guest that reads the block after another one has stored to its page of it finds it as the disk has it. A guest stores to three shared
/// pages also where no frame of the machine is free. Blocks for which the cell has no frame are copied.
#[test]
fn a_store_breaks_the_own_page_alone(rt: HostRuntime) {
    let cases = [
        Case {
            about: "a block that is read after a store to it",
            machine: "nodes = 1\nframes = 9\nprocessors = [0]\ncache = 1\n",
            disk: LETTER,
            guests: &[
                Guest {
                    refills: 5,
                    ..READS
                },
                READS,
            ],
            runs: &[(0, 12), (1, 15), (0, 3)],
        },
        Case {
            about: "stores to three pages with no free frame",
            machine: "nodes = 1\nframes = 7\nprocessors = [0]\ncache = 3\n",
            disk: LETTERS,
            guests: &[STORES_TO_THREE],
            runs: &[(0, 27)],
        },
        Case {
            about: "a cache with room for one of three blocks",
            machine: ONE_KEPT,
            disk: LETTERS,
            guests: &[Guest {
                refills: 5,
                breaks: 1,
                shared: 1,
                ..STORES_TO_THREE
            }],
            runs: &[(0, 27)],
        },
    ];
    try_both(&rt, rt.alloc(), &cases)
}

/// A block is copied where no cell keeps any, where another cell alone keeps it, and where the guest has written it. Each cell keeps the
/// disks of the guests that are at home there.
#[test]
fn a_block_is_copied_where_it_isnt_kept(rt: HostRuntime) {
    let cases = [
        Case {
            about: "no cache",
            machine: "nodes = 1\nframes = 4\nprocessors = [0]\ncache = 0\n",
            disk: LETTER,
            guests: &[COPIES],
            runs: &[(0, 15)],
        },
        Case {
            about: "a block that only the other cell keeps",
            machine: "nodes = 2\nframes = 9\nprocessors = [0]\ncache = 1\n[[cell]]\nnodes = [0]\n[[cell]]\nnodes = [1]\n",
            disk: LETTER,
            guests: &[
                Guest { node: 1, ..READS },
                Guest {
                    node: 1,
                    disk: "disk = \"e\"\n",
                    ..COPIES
                },
                READS_E,
            ],
            runs: &[(0, 15), (1, 15), (2, 15)],
        },
        Case {
            about: "two cells that keep the block",
            machine: "nodes = 2\nframes = 5\nprocessors = [0]\ncache = 1\n[[cell]]\nnodes = [0]\n[[cell]]\nnodes = [1]\n",
            disk: LETTER,
            guests: &[READS_E, Guest { node: 1, ..READS_E }],
            runs: &[(0, 15), (1, 15)],
        },
        Case {
            about: "a block that the guest has written",
            machine: ONE_KEPT,
            disk: LETTER,
            guests: &[READS_TWICE],
            runs: &[(0, 20)],
        },
    ];
    try_both(&rt, rt.alloc(), &cases)
}

/// A block that comes into the page of the read's own instruction is copied, and is what the guest goes on with: from its own page 0, which
/// is refilled once; and from page 2, which it has read before: the second read breaks it.
#[test]
fn a_block_comes_over_the_code_that_reads_it(rt: HostRuntime) {
    let cases = [
        Case {
            about: "a block over page 0",
            machine: ONE_KEPT,
            disk: &[(0x10, &[0x240B0062, 0xAE0B0000, 0xAE000004])],
            guests: &[Guest {
                program: &[0x3C10CFFF, 0x3610F000, 0x24090001, 0xAE090028, 0xAE000004],
                console: "b",
                steps: 7,
                refills: 1,
                ..COPIES
            }],
            runs: &[(0, 20)],
        },
        Case {
            about: "a block over a shared page",
            machine: ONE_KEPT,
            disk: &[(0, &[0xAE090028, 0x240B0062, 0xAE0B0000, 0xAE000004])],
            guests: &[Guest {
                program: &[
                    0x3C10CFFF, 0x3610F000, 0x24080002, 0xAE080024, 0x24090001, 0xAE090028,
                    0x3C0AC000, 0x354A2000, 0x01400008, 0x00000000,
                ],
                console: "b",
                steps: 14,
                ..READS
            }],
            runs: &[(0, 20)],
        },
    ];
    try_both(&rt, rt.alloc(), &cases)
}

/// Eight guests read three blocks before the first of them stores to its pages. No frame of the machine is free.
#[test]
fn eight_guests_share_three_blocks(rt: HostRuntime) {
    let stores = Guest {
        refills: 8,
        ..STORES_TO_THREE
    };
    let cases = [Case {
        about: "eight guests and three blocks",
        machine: "nodes = 1\nframes = 35\nprocessors = [0]\ncache = 3\n",
        disk: LETTERS,
        guests: &[
            stores, stores, stores, stores, stores, stores, stores, stores,
        ],
        runs: &[
            (0, 16),
            (1, 16),
            (2, 16),
            (3, 16),
            (4, 16),
            (5, 16),
            (6, 16),
            (7, 16),
            (0, 11),
            (1, 11),
            (2, 11),
            (3, 11),
            (4, 11),
            (5, 11),
            (6, 11),
            (7, 11),
        ],
    }];
    try_both(&rt, rt.alloc(), &cases)
}
