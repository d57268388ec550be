//! The programs of the folder `examples` at the top of the repository, each with its description and with the report that it has there.
use crate::example_descriptions::{
    DISK_DESCRIPTION, HELLO_DESCRIPTION, INPUT_DESCRIPTION, KERNEL_DESCRIPTION, LOANS_DESCRIPTION,
    MIGRATE_DESCRIPTION, PACKETS_DESCRIPTION, REGISTERS_DESCRIPTION, REPLICATE_DESCRIPTION,
    TIMER_DESCRIPTION, TWO_GUESTS_DESCRIPTION,
};
use crate::example_images::{
    ANSWERS, ASKS, DISK, DIVIDES, HELLO, INPUT, KERNEL, LETTERS, LOANS, MIGRATE, REGISTERS,
    REPLICATE, TIMER,
};
use crate::sharing_examples::{
    CHANGES_THE_BLOCK, PRINTS_THE_PAGE, READS_THE_BLOCK, SENDS_THE_PAGE, SHARED_DISK_DESCRIPTION,
    WHOLE_PACKETS_DESCRIPTION,
};
use crate::telling::{must, same};
use guest_core::RunRecord;
use monitor_run::disco;
use outside_io::{CallList, FileList, FreeGate, MemShelf, MemSink};
use run_cases::{Part, file_of_parts, held, words_of};
use std::alloc::Global;
use std::process::Abort;
use std::sync::Wait;
use std::thread::Threads;

/// The name of an image, where it begins, and its parts.
type Image<'a> = (&'a str, u32, &'a [Part<'a>]);

/// Where most of them begin: at the beginning of the guest's memory.
const START: u32 = 0xC000_0000;

/// An example: its files, and what is to be printed under the monitor, with which status, and by its guests alone.
#[derive(Clone, Copy)]
struct Example<'a> {
    about: &'a str,
    description: &'a str,
    images: &'a [Image<'a>],
    disk: &'a [u8],
    status: u8,
    monitored: &'a str,
    alone: &'a str,
}

/// The headers of an image of one segment of so many bytes, which lies at C0000000 (ELF specification).
#[rattlefmt::skip]
fn headers(entry: u32, count: u32) -> [u32; 21] {
    [
        0x7F454C46, 0x01020100, 0, 0, 0x00020008, 1, entry, 52, 0, 0, 0x00340020, 0x00010000, 0,
        1, 84, 0xC0000000, 0, count, count, 7, 4096,
    ]
}

/// The image of an example's words, which are no more than 16 pages.
fn image_of(rt: &impl Abort, alloc: Global, entry: u32, parts: &[Part]) -> Vec<u8> {
    let words = must(rt, file_of_parts(alloc, parts));
    let count = words.len().min(0x1_0000) as u32;
    let mut image = must(rt, file_of_parts(alloc, &[(0, &headers(entry, count))]));
    must(rt, image.extend_from_slice(&words));
    image
}

/// The names of the examples' disks.
const DISKS: [&str; 2] = ["examples/disk/disk.img", "examples/shared_disk/disk.img"];

/// A shelf with the files of an example.
fn shelf_of(rt: &impl Abort, alloc: Global, example: &Example) -> MemShelf {
    let mut files = FileList::new(alloc);
    let description = must(rt, example.description.as_bytes().to_vec(alloc));
    must(
        rt,
        files.push(must(rt, held(alloc, "machine.toml", description))),
    );
    for (name, entry, parts) in example.images {
        let image = image_of(rt, alloc, *entry, *parts);
        must(rt, files.push(must(rt, held(alloc, *name, image))));
    }
    for name in DISKS {
        must(
            rt,
            files.push(must(rt, held(alloc, name, must(rt, example.disk.to_vec(alloc))))),
        );
    }
    MemShelf::new(alloc, files, CallList::from_vec(Vec::new(alloc)))
}

/// Runs an example by an option, and compares the status and what is printed.
fn try_example<R: Abort + Threads + Wait + Sync>(
    rt: &R,
    alloc: Global,
    example: &Example,
    option: &str,
    wanted: (u8, &str),
) {
    let mut shelf = shelf_of(rt, alloc, example);
    let mut sink = MemSink::new(alloc, CallList::from_vec(Vec::new(alloc)));
    let words = must(rt, words_of(alloc, &[option, "machine.toml"]));
    let mut out = RunRecord::empty(alloc);
    let status = disco(
        rt, alloc, &words, &mut shelf, &mut sink, &FreeGate, &mut out,
    );
    let about = example.about;
    let (wanted_status, output) = wanted;
    same(rt, status, wanted_status, ("status", about, option));
    same(
        rt,
        sink.bytes(),
        output.as_bytes(),
        ("output", about, option),
    );
}

/// Runs an example under the monitor, and its guests alone.
fn try_both<R: Abort + Threads + Wait + Sync>(rt: &R, alloc: Global, example: &Example) {
    let monitored = (example.status, example.monitored);
    try_example(rt, alloc, example, "--machine", monitored);
    try_example(rt, alloc, example, "--private", (0, example.alone))
}

#[test]
fn examples_print_what_they_should(rt: HostRuntime) {
    let examples = [
        Example {
            about: "hello",
            description: HELLO_DESCRIPTION,
            images: &[("examples/hello/guest.elf", START, HELLO)],
            disk: &[],
            status: 0,
            monitored: "guest 0 console 12\nHello, world\nend halted\nsums steps 68 refills 1 moves 0 skips 0 breaks 0 shared 0 received 0 discarded 0\n",
            alone: "guest 0 console 12\nHello, world\nend halted\n",
        },
        Example {
            about: "timer",
            description: TIMER_DESCRIPTION,
            images: &[("examples/timer/guest.elf", START, TIMER)],
            disk: &[],
            status: 0,
            monitored: "guest 0 console 6\n12345.\nend halted\nsums steps 513 refills 1 moves 0 skips 0 breaks 0 shared 0 received 0 discarded 0\n",
            alone: "guest 0 console 6\n12345.\nend halted\n",
        },
        Example {
            about: "kernel",
            description: KERNEL_DESCRIPTION,
            images: &[("examples/kernel/guest.elf", START, KERNEL)],
            disk: &[],
            status: 0,
            monitored: "guest 0 console 14\nabcd\nrefills 2\nend halted\nsums steps 220 refills 7 moves 0 skips 0 breaks 0 shared 0 received 0 discarded 0\n",
            alone: "guest 0 console 14\nabcd\nrefills 2\nend halted\n",
        },
        Example {
            about: "registers",
            description: REGISTERS_DESCRIPTION,
            images: &[("examples/registers/guest.elf", 0xC000_0320, REGISTERS)],
            disk: &[],
            status: 0,
            monitored: "guest 0 console 14\nabcd\nrefills 2\nend halted\nsums steps 218 refills 7 moves 0 skips 0 breaks 0 shared 0 received 0 discarded 0\n",
            alone: "guest 0 console 14\nabcd\nrefills 2\nend halted\n",
        },
        Example {
            about: "disk",
            description: DISK_DESCRIPTION,
            images: &[("examples/disk/guest.elf", START, DISK)],
            disk: b"disco",
            status: 0,
            monitored: "guest 0 console 13\ndisco DISCO 1\nend halted\nsums steps 121 refills 3 moves 0 skips 0 breaks 0 shared 0 received 0 discarded 0\n",
            alone: "guest 0 console 13\ndisco DISCO 1\nend halted\n",
        },
        Example {
            about: "input",
            description: INPUT_DESCRIPTION,
            images: &[("examples/input/guest.elf", START, INPUT)],
            disk: &[],
            status: 0,
            monitored: "guest 0 console 18\ndisco never stops.\nend halted\nsums steps 184 refills 1 moves 0 skips 0 breaks 0 shared 0 received 0 discarded 0\n",
            alone: "guest 0 console 18\ndisco never stops.\nend halted\n",
        },
        Example {
            about: "two_guests",
            description: TWO_GUESTS_DESCRIPTION,
            images: &[
                ("examples/two_guests/guest0.elf", START, LETTERS),
                ("examples/two_guests/guest1.elf", START, DIVIDES),
            ],
            disk: &[],
            status: 0,
            monitored: "guest 0 console 26\nABCDEFGHIJKLMNOPQRSTUVWXYZ\nend halted\nsums steps 109 refills 1 moves 0 skips 0 breaks 0 shared 0 received 0 discarded 0\nguest 1 console 5\n65536\nend halted\nsums steps 63 refills 2 moves 0 skips 0 breaks 0 shared 0 received 0 discarded 0\n",
            alone: "guest 0 console 26\nABCDEFGHIJKLMNOPQRSTUVWXYZ\nend halted\nguest 1 console 5\n65536\nend halted\n",
        },
        Example {
            about: "loans",
            description: LOANS_DESCRIPTION,
            images: &[("examples/loans/guest.elf", START, LOANS)],
            disk: &[],
            status: 0,
            monitored: "guest 0 console 6\nfedcba\nend halted\nsums steps 74 refills 6 moves 0 skips 0 breaks 0 shared 0 received 0 discarded 0\n",
            alone: "guest 0 console 6\nfedcba\nend halted\n",
        },
        Example {
            about: "migrate",
            description: MIGRATE_DESCRIPTION,
            images: &[("examples/migrate/guest.elf", START, MIGRATE)],
            disk: &[],
            status: 0,
            monitored: "guest 0 console 10\n123456789\n\nend halted\nsums steps 71 refills 6 moves 2 skips 2 breaks 0 shared 0 received 0 discarded 0\n",
            alone: "guest 0 console 10\n123456789\n\nend halted\n",
        },
        Example {
            about: "replicate",
            description: REPLICATE_DESCRIPTION,
            images: &[("examples/replicate/guest.elf", START, REPLICATE)],
            disk: &[],
            status: 0,
            monitored: "guest 0 console 1\nH\nend halted\nsums steps 105 refills 10 moves 4 skips 0 breaks 0 shared 0 received 0 discarded 0\n",
            alone: "guest 0 console 1\nH\nend halted\n",
        },
        Example {
            about: "packets",
            description: PACKETS_DESCRIPTION,
            images: &[
                ("examples/packets/guest0.elf", START, ASKS),
                ("examples/packets/guest1.elf", START, ANSWERS),
            ],
            disk: &[],
            status: 0,
            monitored: "guest 0 console 4\npong\nend halted\nsums steps 40 refills 4 moves 0 skips 0 breaks 0 shared 0 received 1 discarded 0\nguest 1 console 4\nping\nend halted\nsums steps 43 refills 3 moves 0 skips 0 breaks 0 shared 0 received 1 discarded 0\n",
            alone: "guest 0 console 0\n\nend budget\nguest 1 console 0\n\nend budget\n",
        },
    ];
    let alloc = rt.alloc();
    for example in &examples {
        let monitored = (example.status, example.monitored);
        try_example(&rt, alloc, example, "--machine", monitored);
        try_example(&rt, alloc, example, "--private", (0, example.alone));
    }
}

#[test]
fn examples_that_share_print_what_they_should(rt: HostRuntime) {
    let examples = [
        Example {
            about: "shared_disk",
            description: SHARED_DISK_DESCRIPTION,
            images: &[
                ("examples/shared_disk/guest0.elf", START, READS_THE_BLOCK),
                ("examples/shared_disk/guest1.elf", START, CHANGES_THE_BLOCK),
            ],
            disk: b"disco",
            status: 0,
            monitored: "guest 0 console 5\ndisco\nend halted\nsums steps 37 refills 3 moves 0 skips 0 breaks 0 shared 1 received 0 discarded 0\nguest 1 console 5\nDISCO\nend halted\nsums steps 52 refills 3 moves 0 skips 0 breaks 1 shared 1 received 0 discarded 0\n",
            alone: "guest 0 console 5\ndisco\nend halted\nguest 1 console 5\nDISCO\nend halted\n",
        },
        Example {
            about: "whole_packets",
            description: WHOLE_PACKETS_DESCRIPTION,
            images: &[
                ("examples/whole_packets/guest0.elf", START, SENDS_THE_PAGE),
                ("examples/whole_packets/guest1.elf", START, PRINTS_THE_PAGE),
            ],
            disk: &[],
            status: 0,
            monitored: "guest 0 console 4\nkept\nend halted\nsums steps 33 refills 5 moves 0 skips 0 breaks 1 shared 0 received 0 discarded 0\nguest 1 console 4\nsent\nend halted\nsums steps 27 refills 4 moves 0 skips 0 breaks 0 shared 1 received 1 discarded 0\n",
            alone: "guest 0 console 4\nkept\nend halted\nguest 1 console 0\n\nend budget\n",
        },
    ];
    let alloc = rt.alloc();
    for example in &examples {
        try_both(&rt, alloc, example);
    }
}
