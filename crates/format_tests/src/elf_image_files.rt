//! Images made here, each with the fault or the pages that the ELF specification and the rules on guests give it by hand.
use crate::telling::{holds, must, same};
use Change::{Bytes, Length, Nothing};
use elf_image::ImageFault::{
    Class, Entry, Headers, Interp, Kind, Magic, Order, Overlap, Place, Processor, Segment, Short,
    Version,
};
use elf_image::{Image, ImageFault, load, load_raw};
use std::alloc::Global;
use std::process::Abort;

/// A program header: type, offset, virtual address, bytes in the file, bytes in memory.
type Header = [u32; 5];

/// How the file differs from a sound one: nothing, some bytes, or its length.
#[derive(Drop)]
enum Change {
    Nothing,
    Bytes(&'static [(usize, u8)]),
    Length(usize),
}

/// What is wanted: the entry and a sum for each page, or a fault. A page's sum is that of its bytes, each times its place
/// counted from 1.
type Wanted = Result<(u32, &'static [u64]), ImageFault>;

/// Program headers and what is wanted of a file that has them.
type Row = (&'static [Header], Wanted);

const LOAD: u32 = 1;

const INTERP: u32 = 3;

const NOTE: u32 = 4;

/// Where memory begins, and the place of a second page.
const FIRST: u32 = 0xC000_0000;

const SECOND: u32 = 0xC000_1000;

/// A file of a header, these program headers from offset 52 on, and the bytes 1 to 16.
fn file_of(rt: &impl Abort, alloc: Global, headers: &[Header]) -> Vec<u8> {
    let mut file = Vec::new(alloc);
    must(
        rt,
        file.extend_from_slice(b"\x7FELF\x01\x02\x01\0\0\0\0\0\0\0\0\0"),
    );
    must(rt, file.extend_from_slice(&[0, 2, 0, 8, 0, 0, 0, 1]));
    put_word(rt, &mut file, FIRST);
    put_word(rt, &mut file, 52);
    must(
        rt,
        file.extend_from_slice(&[0, 0, 0, 0, 0, 0, 0, 0, 0, 52, 0, 32, 0]),
    );
    must(rt, file.push((headers.len() % 256) as u8));
    must(rt, file.extend_from_slice(&[0, 0, 0, 0, 0, 0]));
    for [kind, offset, address, file_size, memory_size] in headers {
        for field in [*kind, *offset, *address, 0, *file_size, *memory_size, 7, 4] {
            put_word(rt, &mut file, field);
        }
    }
    for byte in 1..=16u8 {
        must(rt, file.push(byte));
    }
    file
}

fn put_word(rt: &impl Abort, file: &mut Vec<u8>, word: u32) {
    must(rt, file.extend_from_slice(&word.to_be_bytes()));
}

fn alter(rt: &impl Abort, file: &mut Vec<u8>, change: &Change) {
    match change {
        Nothing => {}
        Bytes(edits) => {
            for (place, byte) in *edits {
                if *place < file.len() {
                    file[*place] = *byte;
                }
            }
        }
        Length(length) => {
            file.truncate(*length);
            for _ in file.len()..*length {
                must(rt, file.push(0));
            }
        }
    }
}

/// The sum of a page's bytes, each times its place counted from 1.
fn weight(bytes: &[u8]) -> u64 {
    let mut sum = 0u64;
    let mut place = 0u64;
    for byte in bytes {
        place = place.wrapping_add(1);
        sum = sum.wrapping_add(place.wrapping_mul(*byte as u64));
    }
    sum
}

fn weights(rt: &impl Abort, alloc: Global, image: &Image) -> Vec<u64> {
    let mut sums = Vec::new(alloc);
    for page in image.pages.as_slice() {
        must(rt, sums.push(weight(page.bytes())));
    }
    sums
}

fn compare(
    rt: &impl Abort,
    alloc: Global,
    row: usize,
    got: Result<Image, ImageFault>,
    wanted: &Wanted,
) {
    match (got, wanted) {
        (Ok(image), Ok((entry, sums))) => {
            same(rt, image.entry, *entry, ("row", row));
            holds(
                rt,
                weights(rt, alloc, &image).as_slice() == *sums,
                ("row", row),
            );
        }
        (Err(fault), Err(other)) => same(rt, fault, *other, ("row", row)),
        (Ok(_), Err(other)) => holds(rt, false, ("loaded", row, other)),
        (Err(fault), Ok(_)) => holds(rt, false, ("row", row, fault)),
    }
}

/// Loads a file with these program headers into two pages, once for each change.
fn load_changed(rt: &impl Abort, alloc: Global, headers: &[Header], rows: &[(Change, Wanted)]) {
    for (row, (change, wanted)) in rows.iter().enumerate() {
        let mut file = file_of(rt, alloc, headers);
        alter(rt, &mut file, change);
        compare(rt, alloc, row, load(alloc, file.as_slice(), 2), wanted);
    }
}

#[test]
fn tests_the_file_header(rt: HostRuntime) {
    let rows: [(Change, Wanted); 27] = [
        // A file without program headers, as one that has sections alone: at least its header.
        (Length(0), Err(Short)),
        (Length(51), Err(Short)),
        (Length(52), Ok((FIRST, &[0, 0]))),
        (Nothing, Ok((FIRST, &[0, 0]))),
        // Each field of the header, first and last bytes.
        (Bytes(&[(0, 0x7E)]), Err(Magic)),
        (Bytes(&[(3, b'G')]), Err(Magic)),
        (Bytes(&[(4, 2)]), Err(Class)),
        (Bytes(&[(5, 1)]), Err(Order)),
        (Bytes(&[(6, 0)]), Err(Version)),
        (Bytes(&[(20, 1)]), Err(Version)),
        (Bytes(&[(23, 0)]), Err(Version)),
        (Bytes(&[(16, 1)]), Err(Kind)),
        (Bytes(&[(17, 3)]), Err(Kind)),
        (Bytes(&[(18, 1)]), Err(Processor)),
        (Bytes(&[(19, 9)]), Err(Processor)),
        // Two faults at once: the earlier one.
        (Length(3), Err(Short)),
        (Bytes(&[(0, 0), (4, 2)]), Err(Magic)),
        (Bytes(&[(4, 2), (5, 1)]), Err(Class)),
        (Bytes(&[(5, 1), (6, 0)]), Err(Order)),
        (Bytes(&[(6, 0), (17, 3)]), Err(Version)),
        (Bytes(&[(17, 3), (19, 9)]), Err(Kind)),
        (Bytes(&[(19, 9), (27, 2)]), Err(Processor)),
        // No entries, of no size and far away.
        (
            Bytes(&[(28, 255), (31, 255), (43, 0)]),
            Ok((FIRST, &[0, 0])),
        ),
        // The entry: within a word, before memory, at its last word and behind it.
        (Bytes(&[(27, 2)]), Err(Entry)),
        (
            Bytes(&[(24, 0xBF), (25, 0xFF), (26, 0xFF), (27, 0xFC)]),
            Err(Entry),
        ),
        (Bytes(&[(26, 0x1F), (27, 0xFC)]), Ok((0xC000_1FFC, &[0, 0]))),
        (Bytes(&[(26, 0x20)]), Err(Entry)),
    ];
    load_changed(&rt, rt.alloc(), &[], &rows)
}

#[test]
fn tests_the_table(rt: HostRuntime) {
    let rows: [(Change, Wanted); 11] = [
        // Entries of 33 and of 288 bytes.
        (Bytes(&[(43, 33)]), Err(Headers)),
        (Bytes(&[(42, 1)]), Err(Headers)),
        // A table that ends with the file, and one that is cut by a byte.
        (Length(84), Ok((FIRST, &[0, 0]))),
        (Length(83), Err(Headers)),
        // The same by another e_phoff: its end at 100, at 101 and past 32 bits.
        (Bytes(&[(31, 68)]), Ok((FIRST, &[0, 0]))),
        (Bytes(&[(31, 69)]), Err(Headers)),
        (
            Bytes(&[(28, 255), (29, 255), (30, 255), (31, 255)]),
            Err(Headers),
        ),
        // 65,535 entries, and two faults at once.
        (Bytes(&[(44, 255), (45, 255)]), Err(Headers)),
        (Bytes(&[(19, 9), (43, 33)]), Err(Processor)),
        (Bytes(&[(43, 33), (55, 3)]), Err(Headers)),
        (Bytes(&[(27, 2), (43, 33)]), Err(Headers)),
    ];
    load_changed(&rt, rt.alloc(), &[[NOTE, 0, 0, 0, 0]], &rows)
}

#[test]
fn loads_segments(rt: HostRuntime) {
    let rows: [Row; 33] = [
        // The bytes 1 to 16 in a page, across two, at the end of memory, before zeros; the last byte of the file, and bytes of its header.
        (&[[LOAD, 84, FIRST, 16, 16]], Ok((FIRST, &[1496, 0]))),
        (
            &[[LOAD, 84, 0xC000_0FF8, 16, 16]],
            Ok((FIRST, &[147_372, 492])),
        ),
        (&[[LOAD, 84, 0xC000_1FFF, 1, 1]], Ok((FIRST, &[0, 4096]))),
        (&[[LOAD, 84, 0xC000_0010, 4, 4096]], Ok((FIRST, &[190, 0]))),
        (&[[LOAD, 84, FIRST, 16, 8192]], Ok((FIRST, &[1496, 0]))),
        (&[[LOAD, 99, FIRST, 1, 1]], Ok((FIRST, &[16, 0]))),
        (&[[LOAD, 0, FIRST, 4, 4]], Ok((FIRST, &[773, 0]))),
        // Empty segments anywhere, of the other types nothing; several segments in a page, not in order, that touch, with the same bytes.
        (&[[LOAD, 100, 0x1234, 0, 0]], Ok((FIRST, &[0, 0]))),
        (
            &[[LOAD, 116, FIRST, 16, 16], [LOAD, 116, 0xC000_0008, 0, 0]],
            Ok((FIRST, &[1496, 0])),
        ),
        (
            &[[NOTE, 0xFFFF_FFFF, 0, 9, 0], [LOAD, 116, SECOND, 3, 3]],
            Ok((FIRST, &[0, 14])),
        ),
        (
            &[[LOAD, 116, 0xC000_0020, 4, 4], [LOAD, 120, FIRST, 2, 8]],
            Ok((FIRST, &[367, 0])),
        ),
        (
            &[[LOAD, 116, FIRST, 4, 4], [LOAD, 120, 0xC000_0004, 4, 4]],
            Ok((FIRST, &[204, 0])),
        ),
        (
            &[[LOAD, 116, FIRST, 3, 3], [LOAD, 116, SECOND, 3, 3]],
            Ok((FIRST, &[14, 14])),
        ),
        // An interpreter, and before a segment that is cut.
        (
            &[[LOAD, 116, FIRST, 1, 1], [INTERP, 116, 0, 1, 1]],
            Err(Interp),
        ),
        (
            &[[LOAD, 116, FIRST, 2, 1], [INTERP, 0, 0, 0, 0]],
            Err(Interp),
        ),
        // More file than memory; one byte past the end of the file, empty and past it, past 32 bits; the least number; before a place.
        (&[[LOAD, 84, FIRST, 2, 1]], Err(Segment(0))),
        (&[[LOAD, 84, FIRST, 1, 0]], Err(Segment(0))),
        (&[[LOAD, 84, FIRST, 17, 17]], Err(Segment(0))),
        (&[[LOAD, 101, FIRST, 0, 0]], Err(Segment(0))),
        (&[[LOAD, 0xFFFF_FFFF, FIRST, 2, 2]], Err(Segment(0))),
        (
            &[[NOTE, 0, 0, 0, 0], [LOAD, 116, FIRST, 2, 1]],
            Err(Segment(1)),
        ),
        (
            &[[LOAD, 116, FIRST, 17, 17], [LOAD, 116, FIRST, 2, 1]],
            Err(Segment(0)),
        ),
        (
            &[[LOAD, 116, 0, 1, 1], [LOAD, 116, FIRST, 2, 1]],
            Err(Segment(1)),
        ),
        // A byte before memory, one behind it, past 32 bits; before an overlap.
        (&[[LOAD, 84, 0xBFFF_FFFF, 1, 2]], Err(Place(0))),
        (&[[LOAD, 84, 0xC000_1FFF, 1, 2]], Err(Place(0))),
        (&[[LOAD, 84, 0xFFFF_FFFF, 1, 2]], Err(Place(0))),
        (
            &[
                [LOAD, 148, FIRST, 1, 1],
                [LOAD, 148, FIRST, 1, 1],
                [LOAD, 148, 0, 1, 1],
            ],
            Err(Place(2)),
        ),
        // The same byte, one among the zeros of another, one within the next; of three the least pair.
        (
            &[[LOAD, 116, FIRST, 1, 1], [LOAD, 116, FIRST, 1, 1]],
            Err(Overlap(0, 1)),
        ),
        (
            &[[LOAD, 116, FIRST, 1, 16], [LOAD, 116, 0xC000_000F, 1, 1]],
            Err(Overlap(0, 1)),
        ),
        (
            &[[LOAD, 116, 0xC000_0010, 1, 1], [LOAD, 116, FIRST, 1, 256]],
            Err(Overlap(0, 1)),
        ),
        (
            &[
                [LOAD, 148, FIRST, 1, 16],
                [LOAD, 148, SECOND, 1, 1],
                [LOAD, 148, 0xC000_0008, 1, 1],
            ],
            Err(Overlap(0, 2)),
        ),
        (
            &[
                [LOAD, 148, FIRST, 1, 1],
                [LOAD, 148, SECOND, 1, 16],
                [LOAD, 148, 0xC000_1008, 1, 1],
            ],
            Err(Overlap(1, 2)),
        ),
        (
            &[
                [LOAD, 148, FIRST, 1, 512],
                [LOAD, 148, 0xC000_0010, 1, 16],
                [LOAD, 148, 0xC000_0018, 1, 1],
            ],
            Err(Overlap(0, 1)),
        ),
    ];
    for (row, (headers, wanted)) in rows.iter().enumerate() {
        let file = file_of(&rt, rt.alloc(), headers);
        compare(
            &rt,
            rt.alloc(),
            row,
            load(rt.alloc(), file.as_slice(), 2),
            wanted,
        );
    }
}

/// Two segments with the same byte, and an entry within a word or no memory at all.
#[test]
fn tests_the_entry_last(rt: HostRuntime) {
    let twice: &[Header] = &[[LOAD, 116, FIRST, 1, 1], [LOAD, 116, FIRST, 1, 1]];
    let rows: [(Change, Wanted); 1] = [(Bytes(&[(27, 2)]), Err(Overlap(0, 1)))];
    load_changed(&rt, rt.alloc(), twice, &rows);
    let file = file_of(&rt, rt.alloc(), &[]);
    compare(
        &rt,
        rt.alloc(),
        1,
        load(rt.alloc(), file.as_slice(), 0),
        &Err(Entry),
    )
}

/// Files of ones.
#[test]
fn loads_raw_files(rt: HostRuntime) {
    let rows: [(usize, u32, Wanted); 13] = [
        (0, 0, Ok((FIRST, &[]))),
        (4, 0, Err(Place(0))),
        (2, 0, Err(Short)),
        (0, 2, Ok((FIRST, &[0, 0]))),
        (1, 2, Err(Short)),
        (3, 2, Err(Short)),
        (4, 2, Ok((FIRST, &[10, 0]))),
        (4092, 2, Ok((FIRST, &[8_374_278, 0]))),
        (4096, 2, Ok((FIRST, &[8_390_656, 0]))),
        (4100, 2, Ok((FIRST, &[8_390_656, 10]))),
        (8192, 2, Ok((FIRST, &[8_390_656, 8_390_656]))),
        (8193, 2, Err(Short)),
        (8196, 2, Err(Place(0))),
    ];
    for (row, (length, pages, wanted)) in rows.iter().enumerate() {
        let mut file = Vec::new(rt.alloc());
        for _ in 0..*length {
            must(&rt, file.push(1u8));
        }
        let got = load_raw(rt.alloc(), file.as_slice(), *pages);
        compare(&rt, rt.alloc(), row, got, wanted);
    }
}
