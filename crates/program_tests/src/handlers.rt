//! Programs that handle exceptions, interrupts and system calls, with the console derived by hand.
use crate::programs::START;
use crate::rows::{Row, halts, try_row};
use crate::telling::must;
use run_cases::file_of_parts;
use std::alloc::Global;
use std::process::Abort;
use std::sync::Wait;
use std::thread::Threads;

/// From C0000180 on: prints the exception's code, A for 0, and halts.
const TELLS_THE_CODE: [u32; 6] = [
    0x401A_6800, // MFC0 26, Cause
    0x001A_D082, // SRL 26, 26, 2
    0x335A_001F, // ANDI 26, 26, 1F
    0x275A_0041, // ADDIU 26, 26, 41
    0xAC3A_0000, // SW 26, 0(1)
    0xAC20_0004, // SW 0, 4(1)
];

/// Runs a program that raises an exception, and compares the code that is told.
fn try_exception<R: Abort + Threads + Wait + Sync>(
    rt: &R,
    alloc: Global,
    about: &str,
    program: &[u32],
    output: &str,
) {
    let file = must(
        rt,
        file_of_parts(
            alloc,
            &[(0, &START), (8, program), (0x180, &TELLS_THE_CODE)],
        ),
    );
    try_row(
        rt,
        alloc,
        &Row {
            about,
            words: &["--raw", "a.raw", "--steps", "40"],
            file: &file,
            output,
            ..halts()
        },
    )
}

#[test]
fn exceptions_are_told(rt: HostRuntime) {
    let alloc = rt.alloc();
    for (about, program, output) in [
        (
            "LW of an odd address: 4",
            [0x8C22_0001, 0, 0],
            "guest 0 console 1\nE\nend halted\n",
        ),
        (
            "SW to an odd address: 5",
            [0xAC22_0001, 0, 0],
            "guest 0 console 1\nF\nend halted\n",
        ),
        (
            "JR behind the memory: 6 at the fetch",
            [0x3C02_C001, 0x0040_0008, 0],
            "guest 0 console 1\nG\nend halted\n",
        ),
        (
            "LW behind the memory: 7",
            [0x3C02_C001, 0x8C43_0000, 0],
            "guest 0 console 1\nH\nend halted\n",
        ),
        (
            "LB of the device page: 7",
            [0x8022_0000, 0, 0],
            "guest 0 console 1\nH\nend halted\n",
        ),
        (
            "SB to the device page: 7",
            [0xA022_0000, 0, 0],
            "guest 0 console 1\nH\nend halted\n",
        ),
        (
            "LW behind the registers of the device page: 7",
            [0x8C22_004C, 0, 0],
            "guest 0 console 1\nH\nend halted\n",
        ),
        (
            "SYSCALL: 8",
            [0x0000_000C, 0, 0],
            "guest 0 console 1\nI\nend halted\n",
        ),
        (
            "BREAK: 9",
            [0x0000_000D, 0, 0],
            "guest 0 console 1\nJ\nend halted\n",
        ),
        (
            "a branch in a delay slot is reserved: 10",
            [0x1000_0001, 0x1000_0001, 0],
            "guest 0 console 1\nK\nend halted\n",
        ),
        (
            "ADDI of 7FFFFFFF and 1 overflows: 12",
            [0x3C02_7FFF, 0x3442_FFFF, 0x2042_0001],
            "guest 0 console 1\nM\nend halted\n",
        ),
        (
            "TEQ 0, 0: 13",
            [0x0000_0034, 0, 0],
            "guest 0 console 1\nN\nend halted\n",
        ),
    ] {
        try_exception(&rt, alloc, about, &program, output);
    }
}

#[test]
fn the_timer_interrupts(rt: HostRuntime) {
    let alloc = rt.alloc();
    let file = must(
        &rt,
        file_of_parts(
            alloc,
            &[
                (
                    0,
                    &[
                        0x2408_0014,
                        0x4088_5800,
                        0x3408_8001,
                        0x4088_6000,
                        0x1000_FFFF,
                        0x0000_0000,
                    ],
                ),
                (
                    0x180,
                    &[
                        0x3C10_CFFF,
                        0x3610_F000,
                        0x2409_0054,
                        0xAE09_0000,
                        0xAE00_0004,
                    ],
                ),
            ],
        ),
    );
    for (steps, output) in [
        ("26", "guest 0 console 1\nT\nend halted\n"),
        ("25", "guest 0 console 1\nT\nend budget\n"),
        ("24", "guest 0 console 0\n\nend budget\n"),
    ] {
        try_row(
            &rt,
            alloc,
            &Row {
                about: "the timer",
                words: &["--raw", "a.raw", "--steps", steps],
                file: &file,
                output,
                ..halts()
            },
        );
    }
}

/// A kernel's start, at which a TLB refill goes on too: where no exception is being handled the timer is set to 40, and user
/// code goes on at 00400000.
const KERNEL_START: [u32; 11] = [
    0x401A_6000, // MFC0 26, Status
    0x335A_0002, // ANDI 26, 26, 2
    0x1740_003D, // BNE 26, 0 to 100
    0x0000_0000,
    0x2408_0040, // ADDIU 8, 0, 40
    0x4088_5800, // MTC0 8, Compare
    0x3C08_0040, // LUI 8, 0040
    0x4088_7000, // MTC0 8, EPC
    0x3408_8013, // ORI 8, 0, 8013
    0x4088_6000, // MTC0 8, Status: IP7, user mode, EXL and IE
    0x4200_0018, // ERET
];

/// The refill: pages 1 and 2 for any pair, and an R is printed.
const KERNEL_REFILL: [u32; 10] = [
    0x241A_0046, // ADDIU 26, 0, 46
    0x409A_1000, // MTC0 26, EntryLo0
    0x241A_0086, // ADDIU 26, 0, 86
    0x409A_1800, // MTC0 26, EntryLo1
    0x4200_0006, // TLBWR
    0x3C1B_CFFF, // LUI 27, CFFF
    0x377B_F000, // ORI 27, 27, F000
    0x241A_0052, // ADDIU 26, 0, 52
    0xAF7A_0000, // SW 26, 0(27)
    0x4200_0018, // ERET
];

/// The general vector: a T for an interrupt of the timer, which is set far off; and else the system calls.
const KERNEL_VECTOR: [u32; 10] = [
    0x3C1B_CFFF, // LUI 27, CFFF
    0x377B_F000, // ORI 27, 27, F000
    0x401A_6800, // MFC0 26, Cause
    0x335A_007C, // ANDI 26, 26, 7C
    0x1740_000B, // BNE 26, 0 to 1C0
    0x0000_0000,
    0x241A_0054, // ADDIU 26, 0, 54
    0xAF7A_0000, // SW 26, 0(27)
    0x4080_5800, // MTC0 0, Compare
    0x4200_0018, // ERET
];

/// The system calls: where register 2 is 0, register 4 is printed; and else the guest halts.
const KERNEL_CALLS: [u32; 13] = [
    0x1440_000B, // BNE 2, 0 to 1F0
    0x0000_0000,
    0xAF64_0000, // SW 4, 0(27)
    0x401A_7000, // MFC0 26, EPC
    0x275A_0004, // ADDIU 26, 26, 4
    0x409A_7000, // MTC0 26, EPC
    0x4200_0018, // ERET
    0x0000_0000,
    0x0000_0000,
    0x0000_0000,
    0x0000_0000,
    0x0000_0000,
    0xAF60_0004, // SW 0, 4(27)
];

/// User code: prints a U, counts 20 down, prints a V that it wrote to its other page and read back, and halts.
const USER_CODE: [u32; 16] = [
    0x2404_0055, // ADDIU 4, 0, 55
    0x2402_0000, // ADDIU 2, 0, 0
    0x0000_000C, // SYSCALL
    0x2405_0014, // ADDIU 5, 0, 14
    0x24A5_FFFF, // ADDIU 5, 5, -1
    0x14A0_FFFE, // BNE 5, 0 to the one before
    0x0000_0000,
    0x3C06_0040, // LUI 6, 0040
    0x34C6_1000, // ORI 6, 6, 1000
    0x2404_0056, // ADDIU 4, 0, 56
    0xACC4_0000, // SW 4, 0(6)
    0x8CC7_0000, // LW 7, 0(6)
    0x00E0_2021, // ADDU 4, 7, 0
    0x0000_000C, // SYSCALL
    0x2402_0001, // ADDIU 2, 0, 1
    0x0000_000C, // SYSCALL
];

#[test]
fn a_kernel_runs_user_code(rt: HostRuntime) {
    let alloc = rt.alloc();
    let file = must(
        &rt,
        file_of_parts(
            alloc,
            &[
                (0, &KERNEL_START),
                (0x100, &KERNEL_REFILL),
                (0x180, &KERNEL_VECTOR),
                (0x1C0, &KERNEL_CALLS),
                (0x1000, &USER_CODE),
            ],
        ),
    );
    try_row(
        &rt,
        alloc,
        &Row {
            about: "a refill, a system call, an interrupt of the timer, and another system call",
            words: &["--raw", "a.raw", "--steps", "400"],
            file: &file,
            output: "guest 0 console 4\nRUTV\nend halted\n",
            ..halts()
        },
    );
}
