//! The device page, of small guests whose consoles and sent packets are derived by hand.
use crate::flat_machine_guests::{Row, steps_40, try_row};

/// MFC0 3, Cause; SRL 3, 3, 2; SW 3, 0(1); SW 0, 4(1): the code of the exception, and a halt.
const TELLS_CODE: [u32; 4] = [0x4003_6800, 0x0003_1882, 0xAC23_0000, 0xAC20_0004];

#[test]
fn registers(rt: HostRuntime) {
    let alloc = rt.alloc();
    let rows: [(&str, u32, &[u8]); 24] = [
        ("console", 0x00, &[0x5A, 0]),
        ("halt", 0x04, &[]),
        ("input", 0x08, &[0xFF]),
        ("queued", 0x0C, &[0]),
        ("number", 0x10, &[0]),
        ("vcpus", 0x14, &[1]),
        ("call", 0x18, &[0]),
        ("answered", 0x1C, &[0]),
        ("disk block", 0x20, &[0x5A]),
        ("disk page", 0x24, &[0x5A]),
        ("disk command", 0x28, &[0]),
        ("disk status", 0x2C, &[0]),
        ("send page", 0x30, &[0x5A]),
        ("send length", 0x34, &[0x5A]),
        ("send", 0x38, &[0]),
        ("armed, by a page that isn't there", 0x3C, &[0xFF]),
        ("packet length", 0x40, &[0]),
        ("packet sender", 0x44, &[0]),
        ("packet taken", 0x48, &[0]),
        ("behind the registers: a bus error", 0x4C, &[7]),
        ("the last word of the page: a bus error", 0xFFC, &[7]),
        ("an odd offset: an address error at a store", 0x01, &[5]),
        ("the third byte of a word: the same", 0x02, &[5]),
        ("the last byte of the page: the same", 0xFFF, &[5]),
    ];
    for (about, offset, console) in rows {
        try_row(
            &rt,
            alloc,
            &Row {
                about,
                program: &[
                    0x2402_005A, // ADDIU 2, 0, 5A
                    0xAC22_0000 | offset, // SW 2, offset(1)
                    0x8C23_0000 | offset, // LW 3, offset(1)
                    0xAC23_0000, // SW 3, 0(1)
                    0xAC20_0004, // SW 0, 4(1)
                ],
                vector: &TELLS_CODE,
                console,
                ..steps_40()
            },
        );
    }
}

#[test]
fn all_but_words_are_bus_errors(rt: HostRuntime) {
    let alloc = rt.alloc();
    for (about, word) in [
        ("LB", 0x8023_0000),
        ("LBU", 0x9023_0000),
        ("LH", 0x8423_0000),
        ("LHU", 0x9423_0000),
        ("LWL", 0x8823_0000),
        ("LWR", 0x9823_0000),
        ("LL", 0xC023_0000),
        ("SB", 0xA023_0000),
        ("SH", 0xA423_0000),
        ("SWL", 0xA823_0000),
        ("SWR", 0xB823_0000),
        ("SC", 0xE023_0000),
    ] {
        try_row(
            &rt,
            alloc,
            &Row {
                about,
                program: &[word, 0xAC20_0004],
                vector: &TELLS_CODE,
                console: &[7],
                ..steps_40()
            },
        );
    }
}

#[test]
fn disk_commands(rt: HostRuntime) {
    let alloc = rt.alloc();
    let disk = b"disk".as_slice();
    let none = b"".as_slice();
    for (about, disk, block, page, command, console) in [
        ("a read into page 1", disk, 0, 1, 1, [0, b'd']),
        (
            "a write of page 1, of zeros, and its first byte",
            disk,
            0,
            1,
            2,
            [0, 0],
        ),
        ("a block that isn't there", disk, 1, 1, 1, [1, 0]),
        ("neither the block nor the page", disk, 1, 3, 1, [1, 0]),
        ("a page that isn't there", disk, 0, 3, 1, [2, 0]),
        ("the same at a write", disk, 0, 3, 2, [2, 0]),
        (
            "an unknown command comes before both",
            disk,
            1,
            3,
            3,
            [3, 0],
        ),
        ("no disk", none, 0, 1, 1, [1, 0]),
    ] {
        try_row(
            &rt,
            alloc,
            &Row {
                about,
                program: &[
                    0x2402_0000 | block, // ADDIU 2, 0, block
                    0xAC22_0020, // SW 2, 20(1)
                    0x2403_0000 | page, // ADDIU 3, 0, page
                    0xAC23_0024, // SW 3, 24(1)
                    0x2404_0000 | command, // ADDIU 4, 0, command
                    0xAC24_0028, // SW 4, 28(1)
                    0x8C25_002C, // LW 5, 2C(1)
                    0xAC25_0000, // SW 5, 0(1)
                    0x90C7_0000, // LBU 7, 0(6)
                    0xAC27_0000, // SW 7, 0(1)
                    0xAC20_0004, // SW 0, 4(1)
                ],
                disk,
                console: &console,
                ..steps_40()
            },
        );
    }
}

#[test]
fn a_page_goes_through_the_disk(rt: HostRuntime) {
    let alloc = rt.alloc();
    try_row(
        &rt,
        alloc,
        &Row {
            about: "page 0 through the disk to page 1: the first byte of the first instruction",
            program: &[
                0x2404_0002, // ADDIU 4, 0, 2
                0xAC24_0028, // SW 4, 28(1)
                0x2403_0001, // ADDIU 3, 0, 1
                0xAC23_0024, // SW 3, 24(1)
                0x2404_0001, // ADDIU 4, 0, 1
                0xAC24_0028, // SW 4, 28(1)
                0x90C7_0000, // LBU 7, 0(6)
                0xAC27_0000, // SW 7, 0(1)
                0xAC20_0004, // SW 0, 4(1)
            ],
            disk: b"disk",
            console: &[0x3C],
            ..steps_40()
        },
    );
}

#[test]
fn sends(rt: HostRuntime) {
    let alloc = rt.alloc();
    let rows: [(&str, u32, u32, &[(u32, usize, &[u8])]); 6] = [
        ("4 bytes", 0, 4, &[(2, 4, &[0x3C, 0x01, 0xCF, 0xFF])]),
        ("1 byte of the last page", 2, 1, &[(2, 1, &[0])]),
        (
            "a whole page",
            0,
            0x1000,
            &[(2, 4096, &[0x3C, 0x01, 0xCF, 0xFF])],
        ),
        ("more than a page", 0, 0x1001, &[]),
        ("nothing", 0, 0, &[]),
        ("a page that isn't there", 3, 4, &[]),
    ];
    for (about, page, length, sent) in rows {
        try_row(
            &rt,
            alloc,
            &Row {
                about,
                program: &[
                    0x2402_0000 | page, // ADDIU 2, 0, page
                    0xAC22_0030, // SW 2, 30(1)
                    0x2403_0000 | length, // ADDIU 3, 0, length
                    0xAC23_0034, // SW 3, 34(1)
                    0x2404_0002, // ADDIU 4, 0, 2
                    0xAC24_0038, // SW 4, 38(1)
                    0xAC20_0004, // SW 0, 4(1)
                ],
                sent,
                ..steps_40()
            },
        );
    }
}

#[test]
fn input_comes_at_its_step(rt: HostRuntime) {
    let alloc = rt.alloc();
    let rows: [(&str, &[(u64, &str)], &[u8]); 5] = [
        ("input at the step that reads it", &[(4, "x")], b"x\xFF"),
        (
            "input a step later, but before the second read",
            &[(5, "x")],
            b"\xFFx",
        ),
        ("input after both reads", &[(7, "x")], b"\xFF\xFF"),
        ("two bytes at the start", &[(0, "xy")], b"xy"),
        (
            "input waits for earlier input",
            &[(5, "x"), (0, "y")],
            b"\xFFx",
        ),
    ];
    for (about, input, console) in rows {
        try_row(
            &rt,
            alloc,
            &Row {
                about,
                program: &[
                    0x8C25_0008, // LW 5, 8(1), the step after 4 steps
                    0xAC25_0000, // SW 5, 0(1)
                    0x8C25_0008, // LW 5, 8(1)
                    0xAC25_0000, // SW 5, 0(1)
                    0xAC20_0004, // SW 0, 4(1)
                ],
                input,
                console,
                ..steps_40()
            },
        );
    }
}

#[test]
fn bytes_that_wait_are_counted(rt: HostRuntime) {
    let alloc = rt.alloc();
    try_row(
        &rt,
        alloc,
        &Row {
            about: "how many bytes wait, before and after one is taken",
            program: &[
                0x8C25_000C, // LW 5, C(1)
                0xAC25_0000, // SW 5, 0(1)
                0x8C25_0008, // LW 5, 8(1)
                0x8C25_000C, // LW 5, C(1)
                0xAC25_0000, // SW 5, 0(1)
                0xAC20_0004, // SW 0, 4(1)
            ],
            input: &[(0, "xyz")],
            console: &[3, 2],
            ..steps_40()
        },
    );
}
