//! Guests of four pages that send packets to each other on one processor, with what each prints, its steps and its refills derived by
//! hand.
use crate::guests::{Case, Guest, PLAIN, try_monitored};

/// A machine with room for four pages of each of three guests.
pub(crate) const MACHINE: &str = "nodes = 1\nframes = 12\nprocessors = [0]\n";

/// Stores P to page 2 and sends the whole page to guest 1; stores Q there and prints it. The send shares the page, so the store begins with
/// a refill for reading, breaks the page, and goes on with another refill.
pub(crate) const SENDS_A_PAGE: Guest<'static> = Guest {
    program: run_cases::SENDS_A_PAGE,
    console: "Q",
    end: "halted",
    steps: 15,
    refills: 4,
    breaks: 1,
    ..PLAIN
};

/// Arms page 2 by its fourth step, waits until the length of the last packet isn't 0, and prints the first word of the page.
pub(crate) const PRINTS_A_WORD: Guest<'static> = Guest {
    program: run_cases::PRINTS_A_WORD,
    console: "P",
    end: "halted",
    steps: 11,
    refills: 3,
    received: 1,
    ..PLAIN
};

/// The same that waits still.
const WAITS_FOR_A_WORD: Guest<'static> = Guest {
    console: "",
    end: "budget",
    steps: 4,
    refills: 1,
    ..PRINTS_A_WORD
};

/// Sends the numbers 1 to 65 to guest 1, each as a packet of 4 bytes: 9 steps, 4 for each, and 2 to print A and halt.
const SENDS_65: Guest<'static> = Guest {
    program: &[
        0x3C10CFFF, 0x3610F000, 0x3C0AC000, 0x24080001, 0xAE080030, 0x24090004, 0xAE090034,
        0x24090000, 0x240B0041, 0x25290001, 0xAD491000, 0x152BFFFD, 0xAE080038, 0xAE0B0000,
        0xAE000004,
    ],
    console: "A",
    end: "halted",
    steps: 271,
    refills: 2,
    ..PLAIN
};

/// Takes packet after packet into page 1: 5 steps, and 10 for each. Where one isn't the next number from 1 on it prints N and halts; at
/// 64 it prints Y. Then it waits on.
const TAKES_64: Guest<'static> = Guest {
    program: &[
        0x3C10CFFF, 0x3610F000, 0x3C0AC000, 0x24080001, 0x240C0000, 0xAE08003C, 0x8E09003C,
        0x1128FFFE, 0x240D0040, 0x258C0001, 0x8D491000, 0x152C0007, 0x00000000, 0x158DFFF7,
        0x00000000, 0x24090059, 0xAE090000, 0x1000FFF3, 0x00000000, 0x2409004E, 0xAE090000,
        0xAE000004,
    ],
    console: "Y",
    steps: 700,
    refills: 2,
    received: 64,
    ..PLAIN
};

/// Sends A and then B to guest 1.
const SENDS_A_AND_B: Guest<'static> = Guest {
    program: &[
        0x3C10CFFF, 0x3610F000, 0x3C0AC000, 0x24080001, 0xAE080030, 0x24090004, 0xAE090034,
        0x24090041, 0xAD491000, 0xAE080038, 0x25290001, 0xAD491000, 0xAE080038, 0xAE000004,
    ],
    end: "halted",
    steps: 14,
    refills: 2,
    ..PLAIN
};

/// Sends C and then D to guest 1.
const SENDS_C_AND_D: Guest<'static> = Guest {
    program: &[
        0x3C10CFFF, 0x3610F000, 0x3C0AC000, 0x24080001, 0xAE080030, 0x24090004, 0xAE090034,
        0x24090043, 0xAD491000, 0xAE080038, 0x25290001, 0xAD491000, 0xAE080038, 0xAE000004,
    ],
    ..SENDS_A_AND_B
};

/// Prints the sender and the word of each packet: 4 steps, and 9 for each; then waits on.
const PRINTS_SENDERS: Guest<'static> = Guest {
    program: &[
        0x3C10CFFF, 0x3610F000, 0x3C0AC000, 0x24080001, 0xAE08003C, 0x8E09003C, 0x1128FFFE,
        0x8E090044, 0x25290030, 0xAE090000, 0x8D491000, 0x1000FFF8, 0xAE090000,
    ],
    console: "2C0A2D0B",
    steps: 50,
    refills: 2,
    received: 4,
    ..PLAIN
};

/// As guest 0, sends 8 bytes of page 1 to itself and to guest 7, which isn't there; then more bytes than a page has, and none, to guest 1.
/// Arms page 1, and prints what is armed.
const SENDS_NOWHERE: Guest<'static> = Guest {
    program: &[
        0x3C10CFFF, 0x3610F000, 0x24080001, 0xAE080030, 0x24090008, 0xAE090034, 0xAE000038,
        0x240A0007, 0xAE0A0038, 0x24091001, 0xAE090034, 0xAE080038, 0xAE000034, 0xAE080038,
        0xAE08003C, 0x8E09003C, 0x25290030, 0xAE090000, 0xAE000004,
    ],
    console: "1",
    end: "halted",
    steps: 19,
    refills: 1,
    ..PLAIN
};

/// A whole page comes as it was when it was sent, though it was written after that; it comes also after the last step of the plan, if it
/// is waited for, and not where no page is armed.
#[test]
fn a_page_is_sent(rt: HostRuntime) {
    let cases = [
        Case {
            about: "a page that is waited for",
            machine: MACHINE,
            disk: &[],
            guests: &[SENDS_A_PAGE, PRINTS_A_WORD],
            runs: &[(1, 4), (0, 20), (1, 20)],
        },
        Case {
            about: "a page that comes after the last step",
            machine: MACHINE,
            disk: &[],
            guests: &[SENDS_A_PAGE, WAITS_FOR_A_WORD],
            runs: &[(1, 4), (0, 20)],
        },
        Case {
            about: "a page that nobody waits for",
            machine: MACHINE,
            disk: &[],
            guests: &[
                SENDS_A_PAGE,
                Guest {
                    steps: 3,
                    received: 0,
                    ..WAITS_FOR_A_WORD
                },
            ],
            runs: &[(1, 3), (0, 20)],
        },
    ];
    try_monitored(&rt, rt.alloc(), &cases)
}

/// A wire has room for 64 packets, and the 65th is lost; they come in order. Those of several senders are asked for in turn. What is sent
/// to nobody, to oneself, or with no length that fits a page comes to nobody.
#[test]
fn packets_come_in_order(rt: HostRuntime) {
    let cases = [
        Case {
            about: "65 packets",
            machine: MACHINE,
            disk: &[],
            guests: &[SENDS_65, TAKES_64],
            runs: &[(0, 271), (1, 700)],
        },
        Case {
            about: "two senders",
            machine: MACHINE,
            disk: &[],
            guests: &[SENDS_A_AND_B, PRINTS_SENDERS, SENDS_C_AND_D],
            runs: &[(0, 14), (2, 14), (1, 50)],
        },
        Case {
            about: "packets to nobody",
            machine: MACHINE,
            disk: &[],
            guests: &[
                SENDS_NOWHERE,
                Guest {
                    received: 0,
                    ..WAITS_FOR_A_WORD
                },
            ],
            runs: &[(1, 4), (0, 19)],
        },
    ];
    try_monitored(&rt, rt.alloc(), &cases)
}
