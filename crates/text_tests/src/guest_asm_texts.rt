//! Texts, with what they are assembled to or the fault that is told.
use crate::guest_asm_tables::{FAULTS, STATEMENTS, TEXTS};
use crate::telling::{must, same};
use guest_asm::{Assembled, assemble, listing_of};
use std::alloc::Global;
use std::process::Abort;

// The fault of a text, as it prints, or `taken`.
fn told(rt: &impl Abort, alloc: Global, text: &[u8]) -> String {
    match assemble(alloc, text) {
        Ok(_) => must(rt, String::from_str(alloc, "taken")),
        Err(fault) => must(rt, format!(in alloc; "{fault}")),
    }
}

// Compares what is told of a text.
fn try_fault(rt: &impl Abort, alloc: Global, text: &[u8], expected: &str) {
    let fault = told(rt, alloc, text);
    assert!(rt; fault.as_str() == expected);
}

// What a text is assembled to.
fn taken(rt: &impl Abort, alloc: Global, text: &str) -> Assembled {
    match assemble(alloc, text.as_bytes()) {
        Ok(assembled) => assembled,
        Err(fault) => panic!(rt; "{fault} in {text}"),
    }
}

#[test]
fn each_mnemonic_has_its_word(rt: HostRuntime) {
    for (text, word) in STATEMENTS {
        let assembled = taken(&rt, rt.alloc(), text);
        let [placed] = assembled.words.as_slice() else {
            panic!(rt; "it is one word")
        };
        assert!(rt; placed.address == 0xC000_0000);
        same(&rt, placed.word, word, text);
    }
}

#[test]
fn texts_have_their_words(rt: HostRuntime) {
    for (text, words) in TEXTS {
        let assembled = taken(&rt, rt.alloc(), text);
        same(&rt, assembled.words.len(), words.len(), text);
        for (placed, word) in assembled.words.iter().zip(words) {
            same(&rt, placed.word, *word, text);
        }
    }
}

#[test]
fn the_first_fault_is_told(rt: HostRuntime) {
    for (text, expected) in FAULTS.iter() {
        try_fault(&rt, rt.alloc(), text.as_bytes(), *expected);
    }
}

#[test]
fn a_byte_past_the_tilde_is_refused(rt: HostRuntime) {
    try_fault(&rt, rt.alloc(), b"sync\n\x7f", "asm 2 syntax");
}

// A branch by so many lines of text, which are refused or not, to a label behind them; the branch is in range or not.
fn far(rt: &impl Abort, alloc: Global, start: &str, between: &str, count: u32) -> String {
    let mut text = must(rt, String::from_str(alloc, start));
    for _ in 0..count {
        must(rt, text.push_str(between));
    }
    must(rt, text.push_str("x: sync\n"));
    text
}

#[test]
fn refused_lines_have_addresses(rt: HostRuntime) {
    // A branch reaches 32,767 words behind its delay slot; a line that is refused is a word, whether or not it has a form.
    let branch = "beq $0, $0, x\n";
    let rows = [
        ("foo\n", 32_767, "asm 2 mnemonic"),
        ("$\n", 32_768, "asm 1 range"),
        (".org $\n", 32_768, "asm 2 syntax"),
        (".org 0\n", 2, "asm 2 place"),
        ("# foo\n\n", 9, "taken"),
    ];
    for (between, count, expected) in rows {
        let text = far(&rt, rt.alloc(), branch, between, count);
        let fault = told(&rt, rt.alloc(), text.as_bytes());
        same(&rt, fault.as_str(), expected, ("lines", count, between));
    }
}

#[test]
fn all_places_can_be_filled(rt: HostRuntime) {
    let full = far(&rt, rt.alloc(), "", "sync\n", 16_383);
    let assembled = taken(&rt, rt.alloc(), full.as_str());
    assert!(rt; assembled.words.len() == 16_384);
    assert!(rt; assembled.image.len() == 84 + 65_536);
    let Some(last) = assembled.words.last() else {
        panic!(rt; "there are words")
    };
    assert!(rt; last.address == 0xC000_FFFC);
    let over = far(&rt, rt.alloc(), "", "sync\n", 16_384);
    let fault = told(&rt, rt.alloc(), over.as_bytes());
    assert!(rt; fault.as_str() == "asm 16385 place");
}

#[test]
fn the_run_begins_at_start(rt: HostRuntime) {
    let rows = [
        ("sync", 0xC000_0000),
        ("sync\nstart: sync", 0xC000_0004),
        ("start:", 0xC000_0000),
        (".org -1073741760\nstart:", 0xC000_0040),
        (".org 0xC000FFFC\nstart:", 0xC000_FFFC),
        ("start: .org 0xC0000100\nsync", 0xC000_0000),
        (".org 0xC0000100\nStart: sync", 0xC000_0000),
    ];
    for (text, entry) in rows {
        same(&rt, taken(&rt, rt.alloc(), text).entry, entry, text);
    }
}

const WORKED: &str =
    "start: lui $1, 0xCFFF\nori $1, $1, 0xF000\naddiu $2, $0, 65\nsw $2, 0($1)\nsw $2, 4($1)\n";

// The listing of the worked text, by hand: five words, the header of 52 bytes, one program header, and the words again.
const WORKED_LISTING: &str =
    "c0000000 3c01cfff\nc0000004 3421f000\nc0000008 24020041\nc000000c ac220000\nc0000010 ac220004\nfile image.elf 104\n7f454c460102010000000000000000000002000800000001c000000000000034\n00000000000000000034002000010000000000000000000100000054c0000000\n00000000000000140000001400000007000010003c01cfff3421f00024020041\nac220000ac220004\n";

#[test]
fn the_worked_text_is_listed(rt: HostRuntime) {
    let text = must(&rt, listing_of(rt.alloc(), &taken(&rt, rt.alloc(), WORKED)));
    assert!(rt; text.as_slice() == WORKED_LISTING.as_bytes());
}

#[test]
fn gaps_are_zero(rt: HostRuntime) {
    let assembled = taken(
        &rt,
        rt.alloc(),
        ".org 0xC0000004\n.word 0x01020304\n.org 0xC000000C\n.word 0x05060708",
    );
    let expected = [0, 0, 0, 0, 1, 2, 3, 4, 0, 0, 0, 0, 5, 6, 7, 8];
    assert!(rt; assembled.image.len() == 100, "the headers and 16 bytes");
    assert!(rt; assembled.image.as_slice().ends_with(&expected));
}
