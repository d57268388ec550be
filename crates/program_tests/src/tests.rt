//! Raw programs, words and files that are refused, and outputs that fail.
use crate::rows::{Row, halts, try_row};
use crate::telling::must;

/// Refused words.
fn refused<'a>(about: &'a str, words: &'a [&'a str]) -> Row<'a> {
    Row {
        about,
        words,
        status: 2,
        output: "fault words\n",
        guests: 0,
        ..halts()
    }
}

#[test]
fn runs_end_as_they_should(rt: HostRuntime) {
    let alloc = rt.alloc();
    try_row(&rt, alloc, &halts());
    try_row(
        &rt,
        alloc,
        &Row {
            about: "four steps",
            words: &["--raw", "a.raw", "--steps", "4"],
            output: "guest 0 console 1\nA\nend budget\n",
            ..halts()
        },
    );
    try_row(
        &rt,
        alloc,
        &Row {
            about: "no steps",
            words: &["--raw", "a.raw", "--steps", "0"],
            output: "guest 0 console 0\n\nend budget\n",
            ..halts()
        },
    );
    try_row(
        &rt,
        alloc,
        &Row {
            about: "leading zeros",
            words: &["--raw", "a.raw", "--steps", "0000000005"],
            ..halts()
        },
    );
}

#[test]
fn words_are_refused(rt: HostRuntime) {
    let alloc = rt.alloc();
    try_row(&rt, alloc, &refused("no file word", &["--steps", "5"]));
    try_row(
        &rt,
        alloc,
        &refused(
            "one step too many",
            &["--raw", "a.raw", "--steps", "16000001"],
        ),
    );
    try_row(
        &rt,
        alloc,
        &refused(
            "eleven digits",
            &["--raw", "a.raw", "--steps", "00000000005"],
        ),
    );
    try_row(
        &rt,
        alloc,
        &refused("a sign", &["--raw", "a.raw", "--steps", "+5"]),
    );
    try_row(&rt, alloc, &refused("no words", &[]));
}

#[test]
fn files_are_refused(rt: HostRuntime) {
    let alloc = rt.alloc();
    try_row(
        &rt,
        alloc,
        &Row {
            about: "half a word",
            file: &[1, 2, 3, 4, 5, 6],
            status: 6,
            output: "fault image 0 short\n",
            guests: 0,
            ..halts()
        },
    );
    let zeros = must(&rt, vec![in alloc; 0u8; 65_540]);
    try_row(
        &rt,
        alloc,
        &Row {
            about: "more than the memory",
            file: &zeros,
            status: 6,
            output: "fault image 0 place 0\n",
            guests: 0,
            ..halts()
        },
    );
    try_row(
        &rt,
        alloc,
        &Row {
            about: "a file that isn't there",
            words: &["--raw", "b.raw", "--steps", "5"],
            status: 3,
            output: "fault read b.raw\n",
            guests: 0,
            ..halts()
        },
    );
    try_row(
        &rt,
        alloc,
        &Row {
            about: "a read that fails",
            shelf_fails: &[1],
            status: 3,
            output: "fault read a.raw\n",
            guests: 0,
            ..halts()
        },
    );
    let long = must(&rt, vec![in alloc; 0u8; 16_777_217]);
    try_row(
        &rt,
        alloc,
        &Row {
            about: "a file past the limit",
            file: &long,
            status: 8,
            output: "fault long a.raw\n",
            guests: 0,
            ..halts()
        },
    );
}

#[test]
fn outputs_that_fail(rt: HostRuntime) {
    let alloc = rt.alloc();
    try_row(
        &rt,
        alloc,
        &Row {
            about: "a first put that fails",
            sink_fails: &[1],
            status: 4,
            output: "",
            ..halts()
        },
    );
    try_row(
        &rt,
        alloc,
        &Row {
            about: "a second put that fails",
            sink_fails: &[2],
            status: 4,
            output: "guest 0 console 1\n",
            ..halts()
        },
    );
    try_row(
        &rt,
        alloc,
        &Row {
            about: "a finish that fails",
            sink_fails: &[4],
            status: 4,
            ..halts()
        },
    );
    try_row(
        &rt,
        alloc,
        &Row {
            about: "a fault line that fails",
            words: &[],
            sink_fails: &[1],
            output: "",
            status: 2,
            guests: 0,
            ..halts()
        },
    );
}
