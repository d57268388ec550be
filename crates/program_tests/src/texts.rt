//! Texts that are assembled, and printed or run. The words are those of the manual's opcode maps, the image's bytes those of the ELF
//! specification.
use crate::rows::{Row, halts, try_row};
use crate::telling::must;
use std::alloc::Global;
use std::process::Abort;
use std::sync::Wait;
use std::thread::Threads;

/// Prints A and halts: the program of the raw tests.
const PRINTS_A: &[u8] =
    b"start: lui $1, 0xCFFF\nori $1, $1, 0xF000\naddiu $2, $0, 65\nsw $2, 0($1)\nsw $2, 4($1)\n";

/// Its words, and its image: the file header, the program header of 20 bytes at C0000000, and the words.
const LISTING: &str = "c0000000 3c01cfff
c0000004 3421f000
c0000008 24020041
c000000c ac220000
c0000010 ac220004
file image.elf 104
7f454c460102010000000000000000000002000800000001c000000000000034
00000000000000000034002000010000000000000000000100000054c0000000
00000000000000140000001400000007000010003c01cfff3421f00024020041
ac220000ac220004
";

/// The listing of a text that puts no word.
const NO_WORDS: &str = "file image.elf 84
7f454c460102010000000000000000000002000800000001c000000000000034
00000000000000000034002000010000000000000000000100000054c0000000
0000000000000000000000000000000700001000
";

/// A text that is printed.
fn printed<'a>(about: &'a str, file: &'a [u8], output: &'a str) -> Row<'a> {
    Row {
        about,
        name: "a.s",
        words: &["--asm", "a.s"],
        file,
        output,
        guests: 0,
        ..halts()
    }
}

/// A text that is run for seven steps.
fn run<'a>(about: &'a str, file: &'a [u8], output: &'a str) -> Row<'a> {
    Row {
        words: &["--asm", "a.s", "--steps", "7"],
        guests: 1,
        ..printed(about, file, output)
    }
}

/// A text of which a line is refused, whether it is to be printed or run.
fn try_refused<R: Abort + Threads + Wait + Sync>(rt: &R, alloc: Global, file: &[u8], output: &str) {
    let row = Row {
        status: 9,
        ..printed("a line that is refused", file, output)
    };
    try_row(rt, alloc, &row);
    let row = Row {
        words: &["--steps", "5", "--asm=a.s"],
        ..row
    };
    try_row(rt, alloc, &row);
}

#[test]
fn texts_are_printed_or_run(rt: HostRuntime) {
    let rows = [
        Row {
            words: &["--asm", "a.s", "--steps", "5"],
            ..run("five steps", PRINTS_A, halts().output)
        },
        Row {
            words: &["--steps", "4", "--asm", "a.s"],
            ..run("four steps", PRINTS_A, "guest 0 console 1\nA\nend budget\n")
        },
        printed("five words", PRINTS_A, LISTING),
        printed("no text", b"", NO_WORDS),
        run("no text runs on", b"", "guest 0 console 0\n\nend budget\n"),
        run(
            "the run begins at the label",
            b"break\nstart: lui $1, 0xCFFF\nori $1, $1, 0xF000\naddiu $2, $0, 65\nsw $2, 0($1)\nsw $2, 4($1)",
            halts().output,
        ),
        run(
            "a word at the last place",
            b"lui $1, 0xCFFF\nori $1, $1, 0xF000\nlui $2, hi(last)\nori $2, $2, lo(last)\nlw $2, 0($2)\nsw $2, 0($1)\nsw $2, 4($1)\n.org 0xC000FFFC\nlast: .word 66\n",
            "guest 0 console 1\nB\nend halted\n",
        ),
        run(
            "the run begins at the last place",
            b".org 0xC000FFFC\nstart: .word 0\n",
            "guest 0 console 0\n\nend budget\n",
        ),
    ];
    for row in &rows {
        try_row(&rt, rt.alloc(), row);
    }
}

#[test]
fn lines_are_refused(rt: HostRuntime) {
    let rows: [(&[u8], &str); 9] = [
        (
            b"start: lui $1, 0xCFFF\nori $1, $1, 0xF000\naddiu $2, $0, 40000\nsw $2, 0($1)\nsw $2, 4($1)\n",
            "fault asm 3 range\n",
        ),
        (b"addu $1, $2,", "fault asm 1 syntax\n"),
        (b"\nmove $1, $2\n", "fault asm 2 mnemonic\n"),
        (b"addu $1, $2", "fault asm 1 operands\n"),
        (b"here:\nhere:", "fault asm 2 twice\n"),
        (b"beq $0, $0, away", "fault asm 1 label\n"),
        (b".org 0xC0000002", "fault asm 1 place\n"),
        (b".org 0xC0010000\nstart:", "fault asm 2 place\n"),
        (b"j 0\naddu $1, $2\nmove $1", "fault asm 1 range\n"),
    ];
    for (text, output) in &rows {
        try_refused(&rt, rt.alloc(), *text, *output);
    }
}

#[test]
fn texts_that_are_not_read(rt: HostRuntime) {
    let alloc = rt.alloc();
    let mut text = must(&rt, vec![in alloc; b'#'; 1_048_576]);
    try_row(&rt, alloc, &printed("the longest text", &text, NO_WORDS));
    must(&rt, text.push(b'#'));
    let rows = [
        Row {
            status: 8,
            ..printed("a text past the limit", &text, "fault long a.s\n")
        },
        Row {
            status: 3,
            words: &["--asm", "b.s", "--steps", "5"],
            ..printed("a text that isn't there", PRINTS_A, "fault read b.s\n")
        },
        Row {
            status: 3,
            shelf_fails: &[1],
            ..printed("a read that fails", b"?", "fault read a.s\n")
        },
        Row {
            status: 8,
            words: &["--asm", "a.s", "--steps", "5"],
            ..printed("a long text that is to be run", &text, "fault long a.s\n")
        },
    ];
    for row in &rows {
        try_row(&rt, alloc, row);
    }
}

#[test]
fn words_about_texts_are_refused(rt: HostRuntime) {
    let rows: [&[&str]; 5] = [
        &["--asm", "a.s", "--steps", "5", "--steps", "5"],
        &["--asm", "a.s", "--machine", "a.s"],
        &["--asm", "a.s", "--raw", "a.s", "--steps", "5"],
        &["--asm", "a.s", "--asm", "a.s"],
        &["--asm", "a.s", "--steps", "16000001"],
    ];
    for words in &rows {
        let row = Row {
            status: 2,
            words: *words,
            ..printed("words", PRINTS_A, "fault words\n")
        };
        try_row(&rt, rt.alloc(), &row);
    }
}

#[test]
fn listings_that_fail(rt: HostRuntime) {
    let rows = [
        Row {
            status: 4,
            sink_fails: &[1],
            ..printed("a put that fails", PRINTS_A, "")
        },
        Row {
            status: 4,
            sink_fails: &[2],
            ..printed("a finish that fails", PRINTS_A, LISTING)
        },
        Row {
            status: 9,
            sink_fails: &[1],
            ..printed("a fault line that fails", b"?", "")
        },
    ];
    for row in &rows {
        try_row(&rt, rt.alloc(), row);
    }
}
