//! Small raw programs, one a group of the instruction table, with the console derived by hand.
use crate::rows::{Row, halts, try_row};
use crate::telling::must;
use run_cases::file_of_parts;
use std::alloc::Global;
use std::process::Abort;
use std::sync::Wait;
use std::thread::Threads;

/// LUI 1, CFFF; ORI 1, 1, F000: register 1 is the device page.
pub(crate) const START: [u32; 2] = [0x3C01_CFFF, 0x3421_F000];

/// Runs a program for so many steps, and compares what is written.
fn try_program<R: Abort + Threads + Wait + Sync>(
    rt: &R,
    alloc: Global,
    about: &str,
    program: &[u32],
    steps: &str,
    output: &str,
) {
    let file = must(rt, file_of_parts(alloc, &[(0, &START), (8, program)]));
    try_row(
        rt,
        alloc,
        &Row {
            about,
            words: &["--raw", "a.raw", "--steps", steps],
            file: &file,
            output,
            ..halts()
        },
    )
}

#[test]
fn computes(rt: HostRuntime) {
    let alloc = rt.alloc();
    try_program(
        &rt,
        alloc,
        "SLL 2, 2, 1 of 21 is 42",
        &[0x2402_0021, 0x0002_1040, 0xAC22_0000, 0xAC20_0004],
        "40",
        "guest 0 console 1\nB\nend halted\n",
    );
    try_program(
        &rt,
        alloc,
        "SRA 2, 2, 20 of 84100000 is FFFFF841",
        &[0x3C02_8410, 0x0002_1503, 0xAC22_0000, 0xAC20_0004],
        "40",
        "guest 0 console 1\nA\nend halted\n",
    );
    try_program(
        &rt,
        alloc,
        "MULT of 5 and 13, MFLO: 65",
        &[
            0x2402_0005,
            0x2403_000D,
            0x0043_0018,
            0x0000_1012,
            0xAC22_0000,
            0xAC20_0004,
        ],
        "40",
        "guest 0 console 1\nA\nend halted\n",
    );
    try_program(
        &rt,
        alloc,
        "DIV of 200 by 67, MFHI: 66",
        &[
            0x2402_00C8,
            0x2403_0043,
            0x0043_001A,
            0x0000_1010,
            0xAC22_0000,
            0xAC20_0004,
        ],
        "40",
        "guest 0 console 1\nB\nend halted\n",
    );
    try_program(
        &rt,
        alloc,
        "MTHI and MFHI",
        &[
            0x2402_0041,
            0x0040_0011,
            0x0000_1810,
            0xAC23_0000,
            0xAC20_0004,
        ],
        "40",
        "guest 0 console 1\nA\nend halted\n",
    );
    try_program(
        &rt,
        alloc,
        "0 is less than FFFFFFFF unsigned, and not signed",
        &[
            0x2402_FFFF,
            0x0002_182B,
            0x0002_202A,
            0x2463_0041,
            0xAC23_0000,
            0x2484_0041,
            0xAC24_0000,
            0xAC20_0004,
        ],
        "40",
        "guest 0 console 2\nBA\nend halted\n",
    );
}

#[test]
fn branches_and_jumps(rt: HostRuntime) {
    let alloc = rt.alloc();
    try_program(
        &rt,
        alloc,
        "J back to the store: 9 steps print twice",
        &[0x2402_0042, 0xAC22_0000, 0x0800_0003, 0x2400_0000],
        "9",
        "guest 0 console 2\nBB\nend budget\n",
    );
    try_program(
        &rt,
        alloc,
        "BNE counts 3, 2, 1 down",
        &[
            0x2402_0003,
            0x2443_0040,
            0xAC23_0000,
            0x2442_FFFF,
            0x1440_FFFC,
            0x0000_0000,
            0xAC20_0004,
        ],
        "40",
        "guest 0 console 3\nCBA\nend halted\n",
    );
    try_program(
        &rt,
        alloc,
        "JAL to the sixth word, whose delay slot loads, and JR back",
        &[
            0x0C00_0005,
            0x2402_0041,
            0xAC20_0004,
            0xAC22_0000,
            0x03E0_0008,
            0x0000_0000,
        ],
        "40",
        "guest 0 console 1\nA\nend halted\n",
    );
    try_program(
        &rt,
        alloc,
        "JALR to the eighth word, and JR back",
        &[
            0x3C03_C000,
            0x3463_001C,
            0x0060_F809,
            0x2402_0041,
            0xAC20_0004,
            0xAC22_0000,
            0x03E0_0008,
            0x0000_0000,
        ],
        "40",
        "guest 0 console 1\nA\nend halted\n",
    );
    try_program(
        &rt,
        alloc,
        "BLTZAL of -1, and JR back",
        &[
            0x2402_FFFF,
            0x0450_0002,
            0x2403_0041,
            0xAC20_0004,
            0xAC23_0000,
            0x03E0_0008,
            0x0000_0000,
        ],
        "40",
        "guest 0 console 1\nA\nend halted\n",
    );
    try_program(
        &rt,
        alloc,
        "BNEL not taken passes over its delay slot, which would halt",
        &[
            0x5400_0002,
            0xAC20_0004,
            0x2402_0041,
            0xAC22_0000,
            0xAC20_0004,
        ],
        "40",
        "guest 0 console 1\nA\nend halted\n",
    );
    try_program(
        &rt,
        alloc,
        "BEQL taken makes its delay slot",
        &[
            0x5000_0002,
            0x2402_0041,
            0xAC20_0004,
            0xAC22_0000,
            0xAC20_0004,
        ],
        "40",
        "guest 0 console 1\nA\nend halted\n",
    );
}

#[test]
fn loads_and_stores(rt: HostRuntime) {
    let alloc = rt.alloc();
    try_program(
        &rt,
        alloc,
        "LBU and LHU of 00410042, which stands at 1C",
        &[
            0x3C03_C000,
            0x9062_001D,
            0xAC22_0000,
            0x9462_001E,
            0xAC22_0000,
            0x0041_0042,
        ],
        "7",
        "guest 0 console 2\nAB\nend budget\n",
    );
    try_program(
        &rt,
        alloc,
        "SB, then the word, whose first byte it is",
        &[
            0x2402_0041,
            0x3C03_C000,
            0xA062_0100,
            0x8C64_0100,
            0x0004_2602,
            0xAC24_0000,
            0xAC20_0004,
        ],
        "40",
        "guest 0 console 1\nA\nend halted\n",
    );
    try_program(
        &rt,
        alloc,
        "SWL and SWR of 41424344 at 101, LWL and LWR of the same, and its first byte",
        &[
            0x3C02_4142,
            0x3442_4344,
            0x3C03_C000,
            0xA862_0101,
            0xB862_0104,
            0x8864_0101,
            0x9864_0104,
            0xAC24_0000,
            0x9065_0101,
            0xAC25_0000,
            0xAC20_0004,
        ],
        "40",
        "guest 0 console 2\nDA\nend halted\n",
    );
    try_program(
        &rt,
        alloc,
        "SC after LL and a plain store of one's own: made",
        &[
            0x3C03_C000,
            0xC062_0100,
            0xAC60_0104,
            0x2404_0041,
            0xE064_0100,
            0x9062_0103,
            0xAC22_0000,
            0x2484_0041,
            0xAC24_0000,
            0xAC20_0004,
        ],
        "40",
        "guest 0 console 2\nAB\nend halted\n",
    );
    try_program(
        &rt,
        alloc,
        "SC after LL of another line: not made",
        &[
            0x3C03_C000,
            0xC062_0120,
            0x2404_0041,
            0xE064_0100,
            0x2484_0041,
            0xAC24_0000,
            0x9062_0103,
            0x2442_0043,
            0xAC22_0000,
            0xAC20_0004,
        ],
        "40",
        "guest 0 console 2\nAC\nend halted\n",
    );
}
