//! Litmus files, with what they ask for or the fault that is told.
use crate::telling::{must, same};
use base_words::Ppn;
use litmus_file::read_litmus;
use page_slots::Op;
use std::alloc::Global;
use std::process::Abort;

// Files that are refused, with the fault that each prints: in the order of the faults.
const FAULTS: [(&str, &str); 34] = [
    ("pages = ", "toml"),
    ("[[caller]]\nops = []", "missing pages"),
    ("pages = 1", "missing caller"),
    (
        "pages = 17\nmore = 2\nless = 1\n[[caller]]\nops = []",
        "unknown less",
    ),
    ("more = 2", "unknown more"),
    ("pages = \"1\"\ncaller = 1", "kind pages"),
    ("pages = 0\n[[caller]]\nops = []", "range pages 0"),
    ("pages = 17\ncaller = 1", "range pages 17"),
    ("pages = 1\ncaller = 1", "kind caller"),
    ("pages = 1\ncaller = []", "range caller 0"),
    ("pages = 1\ncaller = [1]", "kind caller"),
    ("pages = 1\n[[caller]]\nop = []", "unknown caller[0].op"),
    ("pages = 1\n[[caller]]", "missing caller[0].ops"),
    ("pages = 1\n[[caller]]\nops = 1", "kind caller[0].ops"),
    ("pages = 1\n[[caller]]\nops = [1]", "kind caller[0].ops"),
    ("pages = 1\n[[caller]]\nops = [[]]", "range caller[0].ops 0"),
    (
        "pages = 1\n[[caller]]\nops = [[9]]",
        "range caller[0].ops 1",
    ),
    (
        "pages = 1\n[[caller]]\nops = [[9, 9, 9, 9]]",
        "range caller[0].ops 4",
    ),
    (
        "pages = 1\n[[caller]]\nops = [[\"0\", 2]]",
        "kind caller[0].ops",
    ),
    (
        "pages = 1\n[[caller]]\nops = [[-1, \"2\"]]",
        "range caller[0].ops -1",
    ),
    (
        "pages = 1\n[[caller]]\nops = [[1, 2]]",
        "range caller[0].ops 1",
    ),
    (
        "pages = 16\n[[caller]]\nops = [[16, 0]]",
        "range caller[0].ops 16",
    ),
    (
        "pages = 1\n[[caller]]\nops = [[0, 0.5, -1]]",
        "kind caller[0].ops",
    ),
    (
        "pages = 1\n[[caller]]\nops = [[0, -4]]",
        "range caller[0].ops -4",
    ),
    (
        "pages = 1\n[[caller]]\nops = [[0, 2]]",
        "range caller[0].ops 2",
    ),
    (
        "pages = 1\n[[caller]]\nops = [[0, 4091]]",
        "range caller[0].ops 4091",
    ),
    (
        "pages = 1\n[[caller]]\nops = [[0, 4093]]",
        "range caller[0].ops 4093",
    ),
    (
        "pages = 1\n[[caller]]\nops = [[0, 4096, -1]]",
        "range caller[0].ops 4096",
    ),
    (
        "pages = 1\n[[caller]]\nops = [[0, 4, true]]",
        "kind caller[0].ops",
    ),
    (
        "pages = 1\n[[caller]]\nops = [[0, 4, -1]]",
        "range caller[0].ops -1",
    ),
    (
        "pages = 1\n[[caller]]\nops = [[0, 4, 4294967296]]",
        "range caller[0].ops 4294967296",
    ),
    (
        "pages = 1\n[[caller]]\nops = [[0, 0], [0, 4], [1, 0], [0, 2]]",
        "range caller[0].ops 1",
    ),
    (
        "pages = 1\n[[caller]]\nops = []\n[[caller]]\nops = [[0, 1]]\n[[caller]]\nop = 1",
        "range caller[1].ops 1",
    ),
    (
        "pages = 1\n[[caller]]\nops = []\n[[caller]]\nops = 1\nb = 1\na = 1",
        "unknown caller[1].a",
    ),
];

// The fault of a file, as it is printed, or "taken".
fn told(rt: &impl Abort, alloc: Global, bytes: &[u8]) -> String {
    match read_litmus(alloc, bytes) {
        Ok(_) => must(rt, String::from_str(alloc, "taken")),
        Err(fault) => must(rt, format!(in alloc; "{fault}")),
    }
}

#[test]
fn the_first_fault_is_told(rt: HostRuntime) {
    for (text, expected) in FAULTS {
        let fault = told(&rt, rt.alloc(), text.as_bytes());
        same(&rt, fault.as_str(), expected, text);
    }
    let fault = told(&rt, rt.alloc(), b"pages = 1 # \xff\n[[caller]]\nops = []");
    assert!(rt; fault.as_str() == "toml");
}

// So many callers, the first with so many operations.
fn crowd(rt: &impl Abort, alloc: Global, callers: u32, ops: u32) -> String {
    let mut text = must(
        rt,
        String::from_str(alloc, "pages = 1\n[[caller]]\nops = ["),
    );
    for _ in 0..ops {
        must(rt, text.push_str("[0, 0], "));
    }
    must(rt, text.push_str("]\n"));
    for _ in 1..callers {
        must(rt, text.push_str("[[caller]]\nops = []\n"));
    }
    text
}

#[test]
fn callers_and_operations_are_counted(rt: HostRuntime) {
    let rows = [
        (1, 1000, "taken"),
        (1, 1001, "range caller[0].ops 1001"),
        (16, 0, "taken"),
        (17, 1001, "range caller 17"),
    ];
    for (callers, ops, expected) in rows {
        let text = crowd(&rt, rt.alloc(), callers, ops);
        let fault = told(&rt, rt.alloc(), text.as_bytes());
        same(&rt, fault.as_str(), expected, (callers, ops));
    }
}

#[test]
fn operations_are_read(rt: HostRuntime) {
    let text =
        "pages = 16\n[[caller]]\nops = [[15, 4092], [0, 0, 4294967295], [1, 4088, 0]]\n[[caller]]\nops = []";
    let Ok(litmus) = read_litmus(rt.alloc(), text.as_bytes()) else {
        panic!(rt; "it is a litmus file")
    };
    let expected = [
        Op::Load {
            page: Ppn(15),
            offset: 4092,
        },
        Op::Store {
            page: Ppn(0),
            offset: 0,
            value: 4_294_967_295,
        },
        Op::Store {
            page: Ppn(1),
            offset: 4088,
            value: 0,
        },
    ];
    let [first, second] = litmus.callers.as_slice() else {
        panic!(rt; "there are two callers")
    };
    assert!(rt; litmus.pages == 16);
    assert!(rt; first.as_slice() == expected.as_slice());
    assert!(rt; second.is_empty());
}
