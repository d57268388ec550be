//! Exceptions, interrupts and links, of small guests whose consoles are derived by hand.
use crate::flat_machine_guests::{Happens, Row, boot, make_steps, steps_40, try_row};
use base_words::VcpuId;

/// MFC0 2, EPC; SW 2, 0(1); MFC0 3, Cause; SRL 3, 3, 24; SW 3, 0(1); SYSCALL.
const TELLS_EPC: [u32; 6] = [
    0x4002_7000,
    0xAC22_0000,
    0x4003_6800,
    0x0003_1E02,
    0xAC23_0000,
    0x0000_000C,
];

#[test]
fn exceptions(rt: HostRuntime) {
    let alloc = rt.alloc();
    for (about, program, steps, console) in [
        (
            "SYSCALL at 10: EPC, and no BD",
            [0x0000_000C, 0],
            10,
            [0x10, 0].as_slice(),
        ),
        (
            "a second SYSCALL, while the first is handled: EPC stays",
            [0x0000_000C, 0],
            16,
            [0x10, 0, 0x10, 0].as_slice(),
        ),
        (
            "SYSCALL in the slot of a branch at 10: EPC is the branch, and BD",
            [0x1000_0001, 0x0000_000C],
            11,
            [0x10, 0x80].as_slice(),
        ),
    ] {
        try_row(
            &rt,
            alloc,
            &Row {
                about,
                program: &program,
                vector: &TELLS_EPC,
                happens: &[Happens::Steps(0, steps)],
                console,
                ..steps_40()
            },
        );
    }
}

#[test]
fn a_halt_is_of_one_virtual_processor(rt: HostRuntime) {
    let row = Row {
        vcpus: 2,
        program: &[
            0xAC20_0004, // SW 0, 4(1)
            0xAC21_0000, // SW 1, 0(1), which is not reached
        ],
        ..steps_40()
    };
    let mut flat = boot(&rt, rt.alloc(), &row);
    make_steps(&rt, &mut flat, 0, 4);
    assert!(rt; !flat.halted(VcpuId(0)), "before the store");
    make_steps(&rt, &mut flat, 0, 3);
    assert!(rt; flat.halted(VcpuId(0)));
    assert!(rt; !flat.halted(VcpuId(1)));
    assert!(rt; flat.console().is_empty() && flat.armed().is_none());
}

/// A branch to itself, and its slot.
const WAITS: [u32; 2] = [0x1000_FFFF, 0x0000_0000];

#[test]
fn input_interrupts(rt: HostRuntime) {
    let alloc = rt.alloc();
    try_row(
        &rt,
        alloc,
        &Row {
            about: "IP2 comes with input, and goes when it is taken",
            program: &[
                0x3408_0401, // ORI 8, 0, 401
                0x4088_6000, // MTC0 8, Status
                WAITS[0],
                WAITS[1],
            ],
            vector: &[
                0x8C25_0008, // LW 5, 8(1)
                0xAC25_0000, // SW 5, 0(1)
                0x4200_0018, // ERET
            ],
            input: &[(10, "x")],
            console: b"x",
            ..steps_40()
        },
    );
    try_row(
        &rt,
        alloc,
        &Row {
            about: "IP2 isn't taken where its mask is off",
            program: &[
                0x3408_0801, // ORI 8, 0, 801
                0x4088_6000, // MTC0 8, Status
                WAITS[0],
                WAITS[1],
            ],
            vector: &[0xAC20_0000],
            input: &[(10, "x")],
            console: b"",
            ..steps_40()
        },
    );
}

#[test]
fn calls_interrupt(rt: HostRuntime) {
    let alloc = rt.alloc();
    try_row(
        &rt,
        alloc,
        &Row {
            about: "IP4 comes with a call of the other one, and goes when it is answered",
            vcpus: 2,
            program: &[
                0x8C22_0010, // LW 2, 10(1): its number
                0x1440_0004, // BNE 2, 0 over the next four
                0x2403_0002, // ADDIU 3, 0, 2
                0xAC23_0018, // SW 3, 18(1): calls number 1
                0xAC20_0004, // SW 0, 4(1)
                0x0000_0000,
                0x3408_1001, // ORI 8, 0, 1001
                0x4088_6000, // MTC0 8, Status
                WAITS[0],
                WAITS[1],
            ],
            vector: &[
                0xAC20_001C, // SW 0, 1C(1)
                0x2405_0043, // ADDIU 5, 0, 43
                0xAC25_0000, // SW 5, 0(1)
                0x4200_0018, // ERET
            ],
            happens: &[
                Happens::Steps(1, 20),
                Happens::Steps(0, 10),
                Happens::Steps(1, 20),
            ],
            console: b"C",
            ..steps_40()
        },
    );
}

#[test]
fn packets_interrupt(rt: HostRuntime) {
    let alloc = rt.alloc();
    try_row(
        &rt,
        alloc,
        &Row {
            about: "IP3 comes with a packet, which disarms the page",
            program: &[
                0x2402_0001, // ADDIU 2, 0, 1
                0xAC22_003C, // SW 2, 3C(1): page 1 is armed
                0x3408_0801, // ORI 8, 0, 801
                0x4088_6000, // MTC0 8, Status
                WAITS[0],
                WAITS[1],
            ],
            vector: &[
                0x8C25_0040, // LW 5, 40(1): its length
                0xAC25_0000, // SW 5, 0(1)
                0x8C25_0044, // LW 5, 44(1): its sender
                0xAC25_0000, // SW 5, 0(1)
                0x8C25_003C, // LW 5, 3C(1): no page is armed
                0xAC25_0000, // SW 5, 0(1)
                0x90C5_0001, // LBU 5, 1(6): its second byte
                0xAC25_0000, // SW 5, 0(1)
                0xAC20_0048, // SW 0, 48(1): taken
                0x4200_0018, // ERET
            ],
            happens: &[
                Happens::Steps(0, 20),
                Happens::Packet(b"PQ"),
                Happens::Steps(0, 40),
            ],
            console: &[2, 3, 0xFF, b'Q'],
            ..steps_40()
        },
    );
}

/// Links the first line of page 1, does something, stores conditionally, and tells whether the store was made.
fn links(does: [u32; 4]) -> [u32; 9] {
    [
        0xC0C3_0000, // LL 3, 0(6)
        does[0],
        does[1],
        does[2],
        does[3],
        0xE0C3_0000, // SC 3, 0(6)
        0x2463_0030, // ADDIU 3, 3, 30
        0xAC23_0000, // SW 3, 0(1)
        0xAC20_0004, // SW 0, 4(1)
    ]
}

#[test]
fn disk_reads_and_exceptions_clear_links(rt: HostRuntime) {
    let alloc = rt.alloc();
    for (about, does, console) in [
        ("nothing", [0, 0, 0, 0], b"1"),
        ("its own store to the line", [0xACC0_0004, 0, 0, 0], b"1"),
        (
            "a disk read into the page", // ADDIU 4, 0, 1; SW 4, 24(1); SW 4, 28(1)
            [0x2404_0001, 0xAC24_0024, 0xAC24_0028, 0],
            b"0",
        ),
        (
            "a disk read into another page", // ADDIU 4, 0, 2; SW 4, 24(1); ADDIU 4, 0, 1; SW 4, 28(1)
            [0x2404_0002, 0xAC24_0024, 0x2404_0001, 0xAC24_0028],
            b"1",
        ),
        ("an exception and its ERET", [0x0000_000C, 0, 0, 0], b"0"),
    ] {
        try_row(
            &rt,
            alloc,
            &Row {
                about,
                program: &links(does),
                // MFC0 2, EPC; ADDIU 2, 2, 4; MTC0 2, EPC; ERET
                vector: &[0x4002_7000, 0x2442_0004, 0x4082_7000, 0x4200_0018],
                disk: b"disk",
                console,
                ..steps_40()
            },
        );
    }
}

#[test]
fn stores_of_others_clear_links(rt: HostRuntime) {
    let alloc = rt.alloc();
    for (about, offset, console) in [
        ("a store of the other one to the line", 0x1C, b"0"),
        ("a store of the other one to the next line", 0x20, b"1"),
    ] {
        try_row(
            &rt,
            alloc,
            &Row {
                about,
                vcpus: 2,
                program: &[
                    0x8C22_0010, // LW 2, 10(1): its number
                    0x1440_0006, // BNE 2, 0 over the next six
                    0xC0C3_0000, // LL 3, 0(6)
                    0xE0C3_0000, // SC 3, 0(6)
                    0x2463_0030, // ADDIU 3, 3, 30
                    0xAC23_0000, // SW 3, 0(1)
                    0xAC20_0004, // SW 0, 4(1)
                    0x0000_0000,
                    0xACC0_0000 | offset, // SW 0, offset(6)
                    0xAC20_0004, // SW 0, 4(1)
                ],
                happens: &[
                    Happens::Steps(0, 7),
                    Happens::Steps(1, 20),
                    Happens::Steps(0, 20),
                ],
                console,
                ..steps_40()
            },
        );
    }
}

#[test]
fn packets_clear_links(rt: HostRuntime) {
    let alloc = rt.alloc();
    for (about, page, console) in [
        ("a packet into the page", 1, b"0"),
        ("a packet into another page", 2, b"1"),
    ] {
        try_row(
            &rt,
            alloc,
            &Row {
                about,
                program: &[
                    0x2402_0000 | page, // ADDIU 2, 0, page
                    0xAC22_003C, // SW 2, 3C(1)
                    0xC0C3_0000, // LL 3, 0(6)
                    0xE0C3_0000, // SC 3, 0(6)
                    0x2463_0030, // ADDIU 3, 3, 30
                    0xAC23_0000, // SW 3, 0(1)
                    0xAC20_0004, // SW 0, 4(1)
                ],
                happens: &[
                    Happens::Steps(0, 7),
                    Happens::Packet(b"P"),
                    Happens::Steps(0, 20),
                ],
                console,
                ..steps_40()
            },
        );
    }
}
