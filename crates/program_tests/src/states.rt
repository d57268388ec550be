//! Registers and TLB entries as a guest finds them, after steps that were worked out by hand. A guest prints A for each value that is as
//! expected, and @ for another one.
use crate::rows::{Row, halts, try_row};
use crate::telling::must;
use run_cases::file_of_parts;
use std::alloc::Global;
use std::process::Abort;
use std::sync::Wait;
use std::thread::Threads;

/// Runs a file of these parts, at most 200 steps, and compares what is written.
fn try_parts<R: Abort + Threads + Wait + Sync>(
    rt: &R,
    alloc: Global,
    about: &str,
    parts: &[(usize, &[u32])],
    output: &str,
) {
    let file = must(rt, file_of_parts(alloc, parts));
    try_row(
        rt,
        alloc,
        &Row {
            about,
            words: &["--raw", "a.raw", "--steps", "200"],
            file: &file,
            output,
            ..halts()
        },
    )
}

/// In the delay slot of a branch at C0000200 a sum overflows. Register 1 is 7FFFFFFF, 2 is 1, 3 is 55, and Status 0.
const OVERFLOWS: [u32; 7] = [
    0x3C01_7FFF, // LUI 1, 7FFF
    0x3421_FFFF, // ORI 1, 1, FFFF
    0x2402_0001, // ADDIU 2, 0, 1
    0x2403_0055, // ADDIU 3, 0, 55
    0x4080_6000, // MTC0 0, Status
    0x0800_0080, // J C0000200
    0x0000_0000,
];

/// BEQ 0, 0, four on; ADD 3, 1, 2.
const BRANCHES: [u32; 2] = [0x1000_0004, 0x0022_1820];

/// At C0000180: whether EPC is C0000200, Cause 80000030, Status 2, and register 3 as it was; then it halts.
const TELLS_WHERE: [u32; 28] = [
    0x3C1B_CFFF, // LUI 27, CFFF
    0x377B_F000, // ORI 27, 27, F000: the device page
    0x401A_7000, // MFC0 26, EPC
    0x3C19_C000, // LUI 25, C000
    0x3739_0200, // ORI 25, 25, 0200
    0x0359_D026, // XOR 26, 26, 25
    0x2F5A_0001, // SLTIU 26, 26, 1
    0x275A_0040, // ADDIU 26, 26, 40
    0xAF7A_0000, // SW 26, 0(27)
    0x401A_6800, // MFC0 26, Cause
    0x3C19_8000, // LUI 25, 8000
    0x3739_0030, // ORI 25, 25, 0030
    0x0359_D026,
    0x2F5A_0001,
    0x275A_0040,
    0xAF7A_0000,
    0x401A_6000, // MFC0 26, Status
    0x2419_0002, // ADDIU 25, 0, 2
    0x0359_D026,
    0x2F5A_0001,
    0x275A_0040,
    0xAF7A_0000,
    0x2419_0055, // ADDIU 25, 0, 55
    0x0079_D026, // XOR 26, 3, 25
    0x2F5A_0001,
    0x275A_0040,
    0xAF7A_0000,
    0xAF60_0004, // SW 0, 4(27): halts
];

#[test]
fn an_overflow_in_a_delay_slot_leads_back_to_its_branch(rt: HostRuntime) {
    try_parts(
        &rt,
        rt.alloc(),
        "the sum in the delay slot",
        &[(0, &OVERFLOWS), (0x180, &TELLS_WHERE), (0x200, &BRANCHES)],
        "guest 0 console 4\nAAAA\nend halted\n",
    );
}

/// An instruction with register 3 and the word at register 1, and what is in register 3 once it was made, and for a store once the word
/// was loaded again. Before it register 3 is AABBCCDD, and the word 11223344.
const MERGES: [(u32, u32, u32); 16] = [
    (0x8823_0000, 0, 0x1122_3344), // LWL 3, 0(1)
    (0x8823_0001, 0, 0x2233_44DD),
    (0x8823_0002, 0, 0x3344_CCDD),
    (0x8823_0003, 0, 0x44BB_CCDD),
    (0x9823_0000, 0, 0xAABB_CC11), // LWR 3, 0(1)
    (0x9823_0001, 0, 0xAABB_1122),
    (0x9823_0002, 0, 0xAA11_2233),
    (0x9823_0003, 0, 0x1122_3344),
    (0xA823_0000, 0x8C23_0000, 0xAABB_CCDD), // SWL 3, 0(1); LW 3, 0(1)
    (0xA823_0001, 0x8C23_0000, 0x11AA_BBCC),
    (0xA823_0002, 0x8C23_0000, 0x1122_AABB),
    (0xA823_0003, 0x8C23_0000, 0x1122_33AA),
    (0xB823_0000, 0x8C23_0000, 0xDD22_3344), // SWR 3, 0(1); LW 3, 0(1)
    (0xB823_0001, 0x8C23_0000, 0xCCDD_3344),
    (0xB823_0002, 0x8C23_0000, 0xBBCC_DD44),
    (0xB823_0003, 0x8C23_0000, 0xAABB_CCDD),
];

/// LUI 27, CFFF; ORI 27, 27, F000; LUI 1, C000; ORI 1, 1, 1000; LUI 2, 1122; ORI 2, 2, 3344; SW 2, 0(1); LUI 3, AABB; ORI 3, 3, CCDD.
const BEFORE: [u32; 9] = [
    0x3C1B_CFFF,
    0x377B_F000,
    0x3C01_C000,
    0x3421_1000,
    0x3C02_1122,
    0x3442_3344,
    0xAC22_0000,
    0x3C03_AABB,
    0x3463_CCDD,
];

#[test]
fn parts_of_words_are_loaded_and_stored(rt: HostRuntime) {
    let alloc = rt.alloc();
    for (made, loaded, expected) in MERGES {
        let about = must(&rt, format!(in alloc; "{made:08X}"));
        let program = [
            made,
            loaded,
            0x3C19_0000 | expected >> 16, // LUI 25, the upper half
            0x3739_0000 | expected & 0xFFFF, // ORI 25, 25, the lower half
            0x0079_D026, // XOR 26, 3, 25
            0x2F5A_0001, // SLTIU 26, 26, 1
            0x275A_0040, // ADDIU 26, 26, 40
            0xAF7A_0000, // SW 26, 0(27)
            0xAF60_0004, // SW 0, 4(27)
        ];
        try_parts(
            &rt,
            alloc,
            about.as_str(),
            &[(0, &BEFORE), (36, &program)],
            "guest 0 console 1\nA\nend halted\n",
        );
    }
}

/// The virtual pages D0000000 and D0001000 are pages 4 and 5, the next pair is nothing. The last word of page 5 is 11223344, and register
/// 3 AABBCCDD: LWL of D0001FFD, then LWR of D0002000. The refill's handler begins at C0000000, where register 28 tells it from the start:
/// whether register 3 is 223344DD, BadVAddr D0002000, the code of Cause 2, and Context 00680010.
const OVER_A_BOUNDARY: [u32; 54] = [
    0x1780_0019, // BNE 28, 0, to the handler
    0x0000_0000,
    0x3C1B_CFFF, // LUI 27, CFFF
    0x377B_F000, // ORI 27, 27, F000
    0x3C01_C000, // LUI 1, C000
    0x3421_5FFC, // ORI 1, 1, 5FFC
    0x3C02_1122, // LUI 2, 1122
    0x3442_3344, // ORI 2, 2, 3344
    0xAC22_0000, // SW 2, 0(1)
    0x3C04_D000, // LUI 4, D000
    0x4084_5000, // MTC0 4, EntryHi
    0x2405_0107, // ADDIU 5, 0, 107: page 4, dirty, valid, global
    0x4085_1000, // MTC0 5, EntryLo0
    0x2405_0147, // ADDIU 5, 0, 147: page 5
    0x4085_1800, // MTC0 5, EntryLo1
    0x4080_0000, // MTC0 0, Index
    0x4200_0002, // TLBWI
    0x241C_0001, // ADDIU 28, 0, 1
    0x3C01_D000, // LUI 1, D000
    0x3421_1FFD, // ORI 1, 1, 1FFD
    0x3C03_AABB, // LUI 3, AABB
    0x3463_CCDD, // ORI 3, 3, CCDD
    0x8823_0000, // LWL 3, 0(1)
    0x9823_0003, // LWR 3, 3(1)
    0xAF60_0004, // SW 0, 4(27): not reached
    0x0000_0000,
    0x3C19_2233, // the handler: LUI 25, 2233
    0x3739_44DD, // ORI 25, 25, 44DD
    0x0079_D026, // XOR 26, 3, 25
    0x2F5A_0001, // SLTIU 26, 26, 1
    0x275A_0040, // ADDIU 26, 26, 40
    0xAF7A_0000, // SW 26, 0(27)
    0x401A_4000, // MFC0 26, BadVAddr
    0x3C19_D000, // LUI 25, D000
    0x3739_2000, // ORI 25, 25, 2000
    0x0359_D026, // XOR 26, 26, 25
    0x2F5A_0001,
    0x275A_0040,
    0xAF7A_0000,
    0x401A_6800, // MFC0 26, Cause
    0x335A_007C, // ANDI 26, 26, 7C
    0x2419_0008, // ADDIU 25, 0, 8
    0x0359_D026,
    0x2F5A_0001,
    0x275A_0040,
    0xAF7A_0000,
    0x401A_2000, // MFC0 26, Context
    0x3C19_0068, // LUI 25, 0068
    0x3739_0010, // ORI 25, 25, 0010
    0x0359_D026,
    0x2F5A_0001,
    0x275A_0040,
    0xAF7A_0000,
    0xAF60_0004, // SW 0, 4(27)
];

#[test]
fn the_second_half_of_a_load_may_miss(rt: HostRuntime) {
    try_parts(
        &rt,
        rt.alloc(),
        "a load over the end of what is mapped",
        &[(0, &OVER_A_BOUNDARY)],
        "guest 0 console 4\nAAAA\nend halted\n",
    );
}

/// Pages 5, 6 and 7 begin with f, g and h. Entries 3 and 9 both map 00400000, to page 5 and to page 6; its letter is printed. Then entry 1
/// maps it to page 7, and its letter is printed again.
const TWO_MATCH: [u32; 36] = [
    0x3C1B_CFFF, // LUI 27, CFFF
    0x377B_F000, // ORI 27, 27, F000
    0x3C01_C000, // LUI 1, C000
    0x3421_5000, // ORI 1, 1, 5000
    0x2402_0066, // ADDIU 2, 0, 66
    0xAC22_0000, // SW 2, 0(1)
    0x2421_1000, // ADDIU 1, 1, 1000
    0x2442_0001, // ADDIU 2, 2, 1
    0xAC22_0000,
    0x2421_1000,
    0x2442_0001,
    0xAC22_0000,
    0x3C07_0040, // LUI 7, 0040
    0x4087_5000, // MTC0 7, EntryHi
    0x2405_0001, // ADDIU 5, 0, 1: global, not valid
    0x4085_1800, // MTC0 5, EntryLo1
    0x2405_0147, // ADDIU 5, 0, 147: page 5, dirty, valid, global
    0x4085_1000, // MTC0 5, EntryLo0
    0x2406_0003, // ADDIU 6, 0, 3
    0x4086_0000, // MTC0 6, Index
    0x4200_0002, // TLBWI
    0x2405_0187, // ADDIU 5, 0, 187: page 6
    0x4085_1000,
    0x2406_0009, // ADDIU 6, 0, 9
    0x4086_0000,
    0x4200_0002,
    0x8CE8_0000, // LW 8, 0(7)
    0xAF68_0000, // SW 8, 0(27)
    0x2405_01C7, // ADDIU 5, 0, 1C7: page 7
    0x4085_1000,
    0x2406_0001, // ADDIU 6, 0, 1
    0x4086_0000,
    0x4200_0002,
    0x8CE8_0000,
    0xAF68_0000,
    0xAF60_0004, // SW 0, 4(27)
];

#[test]
fn the_lowest_entry_that_matches_counts_once_it_is_written(rt: HostRuntime) {
    try_parts(
        &rt,
        rt.alloc(),
        "two entries for one page, and then a third",
        &[(0, &TWO_MATCH)],
        "guest 0 console 2\nfh\nend halted\n",
    );
}
