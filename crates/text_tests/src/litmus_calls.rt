//! Litmus files, with what they print. The expected texts are worked out by hand.
use crate::telling::{holds, must, same};
use base_words::ProcId;
use litmus_run::litmus;
use outside_io::{CallList, FreeGate, Gate, GatePoint, MemSink};
use std::alloc::Global;
use std::process::Abort;
use std::sync::atomic::{AtomicU64, Ordering};

/// How often a gate looks at most, before it lets the access pass all the same.
const LOOKS: u32 = 10_000_000;

// Files whose text is the same in each run, with the status and the text.
const FILES: [(&str, u8, &str); 9] = [
    (
        "pages = 1\n[[caller]]\nops = [[0, 0, 5], [0, 0]]\n",
        0,
        "page 0 2\n0 s 0 5\n0 l 0 5\n",
    ),
    (
        "pages = 2\n[[caller]]\nops = []\n",
        0,
        "page 0 0\npage 1 0\n",
    ),
    (
        "pages = 2\n[[caller]]\nops = [[1, 4092, 4294967295], [0, 8], [1, 4092], [1, 4088], [1, 4092, 0], [1, 4092]]\n",
        0,
        "page 0 1\n0 l 8 0\npage 1 5\n0 s 4092 4294967295\n0 l 4092 4294967295\n0 l 4088 0\n0 s 4092 0\n0 l 4092 0\n",
    ),
    (
        "pages = 1\n[[caller]]\nops = [[0, 2]]\n",
        10,
        "fault litmus range caller[0].ops 2\n",
    ),
    (
        "pages = 1\n[[caller]]\nops = [[0, 0, -1]]\n",
        10,
        "fault litmus range caller[0].ops -1\n",
    ),
    ("pages = ", 10, "fault litmus toml\n"),
    ("pages = 1\n", 10, "fault litmus missing caller\n"),
    (
        "pages = 1\n[[caller]]\nop = []\n",
        10,
        "fault litmus unknown caller[0].op\n",
    ),
    (
        "pages = true\n[[caller]]\nops = []\n",
        10,
        "fault litmus kind pages\n",
    ),
];

#[test]
fn files_are_carried_out_or_refused(rt: HostRuntime) {
    for (text, expected, printed) in FILES {
        let mut sink = MemSink::new(rt.alloc(), CallList::new(rt.alloc()));
        let status = litmus(&rt, rt.alloc(), text.as_bytes(), &mut sink, &FreeGate);
        same(&rt, status, expected, ("status of", text));
        same(&rt, sink.bytes(), printed.as_bytes(), ("text of", text));
    }
}

// Which call of the output fails, with the status of a file that is carried out, and of one that is refused. Of the first file
// there are two puts, and then it is finished; of the second, one put.
const FAILURES: [(u64, u8, u8); 4] = [(1, 4, 10), (2, 4, 10), (3, 4, 10), (4, 0, 10)];

#[test]
fn an_output_may_fail(rt: HostRuntime) {
    for (call, carried_out, refused) in FAILURES {
        let files = [(FILES[1], carried_out), (FILES[5], refused)];
        for ((text, _, printed), expected) in files {
            let mut fails = CallList::new(rt.alloc());
            must(&rt, fails.push(call));
            let mut sink = MemSink::new(rt.alloc(), fails);
            let status = litmus(&rt, rt.alloc(), text.as_bytes(), &mut sink, &FreeGate);
            same(&rt, status, expected, ("status of", text));
            assert!(rt; printed.as_bytes().starts_with(sink.bytes()));
        }
    }
}

/// Holds the first caller's access until the second one's was seen.
#[derive(Drop)]
struct Holding {
    seen: AtomicU64,
    held: AtomicU64,
}

impl Gate for Holding {
    fn pass(&self, at: GatePoint) {
        if at.processor == ProcId(1) {
            self.seen.store(1, Ordering::SeqCst);
            return;
        }
        for _ in 0..LOOKS {
            if self.seen.load(Ordering::SeqCst) == 1 {
                self.held.store(1, Ordering::SeqCst);
                return;
            }
        }
    }

    fn is_free(&self) -> bool {
        false
    }
}

#[test]
fn two_pages_are_held_at_once(rt: HostRuntime) {
    let text = "pages = 2\n[[caller]]\nops = [[0, 0, 1]]\n[[caller]]\nops = [[1, 0, 2]]\n";
    let gate = Holding {
        seen: AtomicU64::new(0),
        held: AtomicU64::new(0),
    };
    let mut sink = MemSink::new(rt.alloc(), CallList::new(rt.alloc()));
    let status = litmus(&rt, rt.alloc(), text.as_bytes(), &mut sink, &gate);
    assert!(rt; status == 0);
    assert!(rt; sink.bytes() == b"page 0 1\n0 s 0 1\npage 1 1\n1 s 0 2\n".as_slice());
    assert!(rt; gate.held.load(Ordering::SeqCst) == 1, "the gate saw it");
}

/// Counts who is at the gate, and how often somebody else was there.
#[derive(Drop)]
struct Counting {
    inside: AtomicU64,
    met: AtomicU64,
    passed: AtomicU64,
}

impl Gate for Counting {
    fn pass(&self, _at: GatePoint) {
        if self.inside.fetch_add(1, Ordering::SeqCst) != 0 {
            self.met.fetch_add(1, Ordering::SeqCst);
        }
        self.passed.fetch_add(1, Ordering::SeqCst);
        self.inside.fetch_sub(1, Ordering::SeqCst);
    }

    fn is_free(&self) -> bool {
        false
    }
}

// A file of 16 callers, each of which stores and loads so often: all on one page, or each on a page of its own.
fn crowd(rt: &impl Abort, alloc: Global, times: u32, apart: bool) -> String {
    let pages = if apart { 16 } else { 1 };
    let mut text = must(rt, format!(in alloc; "pages = {pages}\n"));
    for caller in 0..16u32 {
        let page = if apart { caller } else { 0 };
        must(rt, text.push_str("[[caller]]\nops = ["));
        for value in 0..times {
            must(
                rt,
                text.push_str(must(
                    rt,
                    format!(in alloc; "[{page}, 8, {value}], [{page}, 8], "),
                ).as_str()),
            );
        }
        must(rt, text.push_str("]\n"));
    }
    text
}

#[test]
fn sixteen_callers_wait_for_a_page(rt: HostRuntime) {
    let text = crowd(&rt, rt.alloc(), 250, false);
    let gate = Counting {
        inside: AtomicU64::new(0),
        met: AtomicU64::new(0),
        passed: AtomicU64::new(0),
    };
    let mut sink = MemSink::new(rt.alloc(), CallList::new(rt.alloc()));
    let status = litmus(&rt, rt.alloc(), text.as_bytes(), &mut sink, &gate);
    assert!(rt; status == 0);
    assert!(rt; sink.bytes().starts_with(b"page 0 8000\n"));
    assert!(rt; gate.passed.load(Ordering::SeqCst) == 8000);
    assert!(rt;
        gate.met.load(Ordering::SeqCst) == 0,
        "the gate is passed while the page is held"
    );
}

#[test]
fn sixteen_callers_have_pages_of_their_own(rt: HostRuntime) {
    let text = crowd(&rt, rt.alloc(), 2, true);
    let mut expected = String::new(rt.alloc());
    for caller in 0..16u32 {
        let entries = must(
            &rt,
            format!(in rt.alloc();
                "page {caller} 4\n{caller} s 8 0\n{caller} l 8 0\n{caller} s 8 1\n{caller} l 8 1\n"
            ),
        );
        must(&rt, expected.push_str(entries.as_str()));
    }
    let mut sink = MemSink::new(rt.alloc(), CallList::new(rt.alloc()));
    let status = litmus(&rt, rt.alloc(), text.as_bytes(), &mut sink, &FreeGate);
    assert!(rt; status == 0);
    assert!(rt; sink.bytes() == expected.as_str().as_bytes());
}

// Two callers on two pages, with the texts that can come: those that some order of all four accesses has.
const ORDERS: [(&str, [&str; 3]); 2] = [
    // a message: the data on page 0, then the flag on page 1; who has the flag has the data
    (
        "pages = 2\n[[caller]]\nops = [[0, 0, 1], [1, 0, 1]]\n[[caller]]\nops = [[1, 0], [0, 0]]\n",
        [
            "page 0 2\n0 s 0 1\n1 l 0 1\npage 1 2\n0 s 0 1\n1 l 0 1\n",
            "page 0 2\n0 s 0 1\n1 l 0 1\npage 1 2\n1 l 0 0\n0 s 0 1\n",
            "page 0 2\n1 l 0 0\n0 s 0 1\npage 1 2\n1 l 0 0\n0 s 0 1\n",
        ],
    ),
    // each stores on one page and loads from the other; one of them at least sees the other's store
    (
        "pages = 2\n[[caller]]\nops = [[0, 0, 1], [1, 0]]\n[[caller]]\nops = [[1, 0, 1], [0, 0]]\n",
        [
            "page 0 2\n0 s 0 1\n1 l 0 1\npage 1 2\n1 s 0 1\n0 l 0 1\n",
            "page 0 2\n0 s 0 1\n1 l 0 1\npage 1 2\n0 l 0 0\n1 s 0 1\n",
            "page 0 2\n1 l 0 0\n0 s 0 1\npage 1 2\n1 s 0 1\n0 l 0 1\n",
        ],
    ),
];

#[test]
fn two_pages_show_one_order(rt: HostRuntime) {
    for (text, texts) in ORDERS {
        for _ in 0..200 {
            let mut sink = MemSink::new(rt.alloc(), CallList::new(rt.alloc()));
            let status = litmus(&rt, rt.alloc(), text.as_bytes(), &mut sink, &FreeGate);
            let came = sink.bytes();
            assert!(rt; status == 0);
            holds(&rt, texts.iter().any(|text| text.as_bytes() == came), text);
        }
    }
}
