//! A guest with two address spaces, whose TLB is full.
use crate::rows::{Row, halts, try_row};
use crate::telling::must;
use run_cases::file_of_parts;

/// Pages 4 to 7 begin with a, b, c and d. Entries 0 to 23 map 24 virtual pages in address space 1 to pages 4, 5, 6, 7, 4 and so on;
/// entries 24 to 47 map the same virtual pages in address space 2, each to the page after. The letter of each virtual page is printed
/// in the one space and in the other. Then each entry of space 1 is written anew, for the page two places on, and its letter is printed.
const TWO_SPACES: [u32; 66] = [
    0x3C10_CFFF,
    0x3610_F000,
    0x3C08_C000,
    0x3508_4000,
    0x2409_0061,
    0x240A_0004,
    0xAD09_0000,
    0x2529_0001,
    0x254A_FFFF,
    0x1540_FFFC,
    0x2508_1000,
    0x2402_0018,
    0x2407_0000,
    0x00E0_2021,
    0x2405_0001,
    0x0C00_002B,
    0x2406_0000,
    0x24E4_0018,
    0x2405_0002,
    0x0C00_002B,
    0x2406_0001,
    0x24E7_0001,
    0x14E2_FFF6,
    0x0000_0000,
    0x2407_0000,
    0x0C00_003B,
    0x2405_0001,
    0x0C00_003B,
    0x2405_0002,
    0x24E7_0001,
    0x14E2_FFFA,
    0x0000_0000,
    0x2407_0000,
    0x00E0_2021,
    0x2405_0001,
    0x0C00_002B,
    0x2406_0002,
    0x0C00_003B,
    0x2405_0001,
    0x24E7_0001,
    0x14E2_FFF8,
    0x0000_0000,
    0xAE00_0004,
    0x0007_4340,
    0x3C09_0040,
    0x0109_4021,
    0x0105_4025,
    0x4088_5000,
    0x00E6_4821,
    0x3129_0003,
    0x2529_0004,
    0x0009_4980,
    0x3529_0006,
    0x4089_1000,
    0x4089_1800,
    0x4084_0000,
    0x4200_0002,
    0x03E0_0008,
    0x0000_0000,
    0x4085_5000,
    0x0007_4340,
    0x3C09_0040,
    0x0109_4021,
    0x8D09_0000,
    0x03E0_0008,
    0xAE09_0000,
];

/// The letters: 24 pairs, and 24 that are remapped.
const LETTERS: &str = "abbccddaabbccddaabbccddaabbccddaabbccddaabbccddacdabcdabcdabcdabcdabcdab";

#[test]
fn two_address_spaces_fill_the_tlb(rt: HostRuntime) {
    let alloc = rt.alloc();
    let file = must(&rt, file_of_parts(alloc, &[(0, &TWO_SPACES)]));
    let output = must(
        &rt,
        format!(in alloc; "guest 0 console 72\n{LETTERS}\nend halted\n"),
    );
    try_row(
        &rt,
        alloc,
        &Row {
            about: "two address spaces",
            words: &["--raw", "a.raw", "--steps", "10000"],
            file: &file,
            output: output.as_str(),
            ..halts()
        },
    );
}
