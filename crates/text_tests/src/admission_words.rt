//! Words and the forms that they are; descriptions, their files, and what comes of them.
use crate::telling::{holds, must, same};
use admission::{Fault, Form, Job, Refusal, admit, disks_in, read_form};
use base_words::{Bytes, Name};
use elf_image::ImageFault;
use outside_io::{CallList, FileList, HeldFile, MemShelf, Shelf};
use std::alloc::Global;
use std::process::Abort;

/// The words as the system gives them.
fn words_of(rt: &impl Abort, alloc: Global, words: &[&str]) -> Vec<String> {
    let mut all = Vec::new(alloc);
    for word in words {
        must(rt, all.push(must(rt, String::from_str(alloc, word))));
    }
    all
}

/// Words, and what they have to be.
#[derive(Clone, Copy)]
struct Row<'a> {
    words: &'a [&'a str],
    form: Option<Form<'a>>,
}

fn try_words<R: Abort>(rt: &R, alloc: Global, row: &Row) {
    let words = words_of(rt, alloc, row.words);
    let form = match read_form(alloc, words.as_slice()) {
        Ok(form) => Some(form),
        Err(Refusal::Fault(_)) => None,
        Err(Refusal::Memory) => panic!(rt; "no memory is left"),
    };
    let about = row.words;
    holds(rt, form == row.form, about);
}

#[test]
fn words_that_are_forms(rt: HostRuntime) {
    let raw = Form::Raw("a", 5);
    let rows = [
        Row {
            words: &["--raw", "a", "--steps", "5"],
            form: Some(raw),
        },
        Row {
            words: &["--steps", "5", "--raw", "a"],
            form: Some(raw),
        },
        Row {
            words: &["--raw=a", "--steps=5"],
            form: Some(raw),
        },
        Row {
            words: &["--steps=5", "--raw", "a"],
            form: Some(raw),
        },
        Row {
            words: &["--raw", "a", "--steps", "0000000005"],
            form: Some(raw),
        },
        Row {
            words: &["--raw", "a", "--steps", "5", "--"],
            form: Some(raw),
        },
        Row {
            words: &["--raw", "a", "--steps", "0"],
            form: Some(Form::Raw("a", 0)),
        },
        Row {
            words: &["--raw", "a", "--steps", "16000000"],
            form: Some(Form::Raw("a", 16_000_000)),
        },
        Row {
            words: &["--raw", "", "--steps", "5"],
            form: Some(Form::Raw("", 5)),
        },
        Row {
            words: &["--raw=", "--steps", "5"],
            form: Some(Form::Raw("", 5)),
        },
        Row {
            words: &["--raw", "-", "--steps", "5"],
            form: Some(Form::Raw("-", 5)),
        },
        Row {
            words: &["--raw=-x", "--steps", "5"],
            form: Some(Form::Raw("-x", 5)),
        },
        Row {
            words: &["--raw=--steps", "--steps", "5"],
            form: Some(Form::Raw("--steps", 5)),
        },
        Row {
            words: &["--raw=a=b", "--steps", "5"],
            form: Some(Form::Raw("a=b", 5)),
        },
        Row {
            words: &["--machine", "m"],
            form: Some(Form::Machine("m")),
        },
        Row {
            words: &["--private=p"],
            form: Some(Form::Private("p")),
        },
        Row {
            words: &["--make", "4294967295"],
            form: Some(Form::Make(4_294_967_295)),
        },
        Row {
            words: &["--load=0000000007"],
            form: Some(Form::Load(7)),
        },
        Row {
            words: &["--litmus", "l"],
            form: Some(Form::Litmus("l")),
        },
        Row {
            words: &["--litmus="],
            form: Some(Form::Litmus("")),
        },
        Row {
            words: &["--asm=a"],
            form: Some(Form::Asm("a")),
        },
        Row {
            words: &["--steps", "16000000", "--asm", "a"],
            form: Some(Form::AsmSteps("a", 16_000_000)),
        },
    ];
    for row in &rows {
        try_words(&rt, rt.alloc(), row);
    }
}

#[test]
fn words_that_are_none(rt: HostRuntime) {
    let rows: [&[&str]; 48] = [
        &[],
        &[""],
        &["--"],
        &["--", "--raw", "a", "--steps", "5"],
        &["--raw", "a"],
        &["--steps", "5"],
        &["--raw", "--steps", "5"],
        &["--raw", "a", "--steps"],
        &["--raw", "a", "--steps", "--"],
        &["--raw", "-x", "--steps", "5"],
        &["--raw", "a", "--steps", "-5"],
        &["--raw", "a", "--steps=-5"],
        &["--raw", "a", "--steps", "+5"],
        &["--raw", "a", "--steps", " 5"],
        &["--raw", "a", "--steps", "5 "],
        &["--raw", "a", "--steps", "5_0"],
        &["--raw", "a", "--steps", "0x5"],
        &["--raw", "a", "--steps", ""],
        &["--raw", "a", "--steps="],
        &["--raw", "a", "--steps", "16000001"],
        &["--raw", "a", "--steps", "00000000005"],
        &["--raw", "a", "--steps", "5", "--steps", "5"],
        &["--raw", "a", "--raw", "a", "--steps", "5"],
        &["--raw", "a", "--steps", "5", "b"],
        &["b", "--raw", "a", "--steps", "5"],
        &["--raw", "a", "--steps", "5", "--", "b"],
        &["--raw", "a", "--steps", "5", "--machine", "m"],
        &["--machine", "m", "--private", "m"],
        &["--machine", "m", "--steps", "5"],
        &["--make", "4294967296"],
        &["--load", "00000000007"],
        &["--make", "7", "--load", "7"],
        &["--raw", "a", "--steps", "5", "--make", "7"],
        &["--machine", "m", "--load", "7"],
        &["--litmus"],
        &["--litmus", "l", "--litmus", "l"],
        &["--litmus", "l", "--steps", "5"],
        &["--litmus", "l", "--machine", "m"],
        &["--asm"],
        &["--asm", "a", "--raw", "a", "--steps", "5"],
        &["--asm", "a", "--steps", "16000001"],
        &["--help"],
        &["-h"],
        &["--version"],
        &["-raw", "a", "--steps", "5"],
        &["--ra", "a", "--steps", "5"],
        &["--RAW", "a", "--steps", "5"],
        &["help"],
    ];
    for words in rows {
        try_words(&rt, rt.alloc(), &Row { words, form: None });
    }
}

/// One guest of 16 pages on one node of 16 frames, which runs for five steps.
const P1: &str = "[machine]
nodes = 1
frames = 16
processors = [0]
[[guest]]
image = \"a.raw\"
form = \"raw\"
pages = 16
vcpus = 1
node = 0
[[work]]
act = \"run\"
processor = 0
guest = 0
vcpu = 0
steps = 5
";

/// What came of words and files.
#[derive(Clone, Copy, Debug, PartialEq, Eq)]
enum Came {
    /// So many guests under the monitor, and whether the report has sums.
    Monitored(usize, bool),
    /// So many guests alone, so many disks, and the blocks of the first disk.
    Alone(usize, usize, usize),
    /// What is made, with so many files.
    Made(usize),
    /// A litmus file of so many bytes.
    Litmus(usize),
    /// A listing of so many words.
    Listing(usize),
    /// A line of a text.
    Asm(u32),
    Words,
    Read,
    Long,
    Description,
    Image(u8, ImageFault),
    Cache(u8, u32, u32),
    Admission(u8, u32, u32),
    Memory,
}

fn came_of(answer: Result<Job, Refusal>) -> Came {
    match answer {
        Ok(Job::Monitored { setup, sums }) => Came::Monitored(setup.images.len(), sums),
        Ok(Job::Alone(setup)) => {
            let blocks = match setup.disks.as_slice().first() {
                Some(disk) => disk.len(),
                None => 0,
            };
            Came::Alone(setup.images.len(), setup.disks.len(), blocks)
        }
        Ok(Job::Print(made)) => Came::Made(made.files.len()),
        Ok(Job::Litmus(bytes)) => Came::Litmus(bytes.len()),
        Ok(Job::Listing(assembled)) => Came::Listing(assembled.words.len()),
        Err(Refusal::Memory) => Came::Memory,
        Err(Refusal::Fault(fault)) => came_of_fault(fault),
    }
}

fn came_of_fault(fault: Fault) -> Came {
    match fault {
        Fault::Words => Came::Words,
        Fault::Read(_) => Came::Read,
        Fault::Long(_) => Came::Long,
        Fault::Asm { line, .. } => Came::Asm(line),
        Fault::Description(_) => Came::Description,
        Fault::BadImage(guest, fault) => Came::Image(guest.0, fault),
        Fault::CacheAdmission { cell, needs, has } => Came::Cache(cell.0, needs, has),
        Fault::Admission { guest, needs, has } => Came::Admission(guest.0, needs, has),
    }
}

/// Words, a description, how long the image and the disk are, the reads that fail, and what has to come.
#[derive(Clone, Copy)]
struct Case<'a> {
    option: &'a str,
    changes: &'a [(&'a str, &'a str)],
    image: usize,
    disk: usize,
    fails: &'a [u64],
    came: Came,
    /// How many reads are counted as faults.
    faults: u64,
}

fn plain<'a>() -> Case<'a> {
    Case {
        option: "--machine",
        changes: &[],
        image: 20,
        disk: 4096,
        fails: &[],
        came: Came::Monitored(1, true),
        faults: 0,
    }
}

fn held(rt: &impl Abort, alloc: Global, name: &str, bytes: Vec<u8>) -> HeldFile {
    HeldFile {
        name: must(rt, Name::copy_of(alloc, name)),
        bytes: Bytes::from_vec(bytes),
    }
}

/// So many zeros.
fn zeros(rt: &impl Abort, alloc: Global, count: usize) -> Vec<u8> {
    let mut bytes = Vec::new(alloc);
    must(rt, bytes.resize(count, 0u8));
    bytes
}

/// A shelf with a description, an image and a disk.
fn shelf_of(rt: &impl Abort, alloc: Global, text: &str, case: &Case) -> MemShelf {
    let mut files = FileList::new(alloc);
    must(
        rt,
        files.push(held(rt, alloc, "m", must(rt, text.as_bytes().to_vec(alloc)))),
    );
    must(
        rt,
        files.push(held(rt, alloc, "a.raw", zeros(rt, alloc, case.image))),
    );
    must(
        rt,
        files.push(held(rt, alloc, "d.img", zeros(rt, alloc, case.disk))),
    );
    MemShelf::new(
        alloc,
        files,
        CallList::from_vec(must(rt, case.fails.to_vec(alloc))),
    )
}

fn try_case<R: Abort>(rt: &R, alloc: Global, case: &Case) {
    let mut text = must(rt, String::from_str(alloc, P1));
    for (old, new) in case.changes {
        text = must(rt, text.replace(alloc, *old, *new));
    }
    let mut shelf = shelf_of(rt, alloc, text.as_str(), case);
    let words = words_of(rt, alloc, &[case.option, "m"]);
    let came = came_of(admit(alloc, words.as_slice(), &mut shelf));
    same(rt, came, case.came, text.as_str());
    same(rt, shelf.faults(), case.faults, text.as_str());
}

fn refused<'a>(changes: &'a [(&'a str, &'a str)], came: Came) -> Case<'a> {
    Case {
        changes,
        came,
        ..plain()
    }
}

/// What is made from a number is admitted: the images of four guests and a disk, of which no file is read.
#[test]
fn numbers_are_admitted(rt: HostRuntime) {
    let alloc = rt.alloc();
    let rows = [
        ("--make", Came::Made(5)),
        ("--load", Came::Monitored(4, true)),
    ];
    for (option, came) in rows {
        let fails = CallList::from_vec(must(&rt, vec![in alloc; 1u64]));
        let mut shelf = MemShelf::new(alloc, FileList::new(alloc), fails);
        let words = words_of(&rt, alloc, &[option, "7"]);
        assert!(&rt; came_of(admit(alloc, words.as_slice(), &mut shelf)) == came);
        assert!(&rt; shelf.faults() == 0, "no file is read");
    }
}

/// The stages in their order: each row fails at one, and at all that come later too.
#[test]
fn stages_in_order(rt: HostRuntime) {
    let rows = [
        plain(),
        Case {
            option: "--raw",
            came: Came::Words,
            fails: &[1],
            ..plain()
        },
        Case {
            changes: &[("frames", "frmes")],
            fails: &[1],
            came: Came::Read,
            faults: 1,
            ..plain()
        },
        Case {
            changes: &[("frames", "frmes")],
            fails: &[2],
            came: Came::Description,
            ..plain()
        },
        Case {
            changes: &[("nodes = 1", "nodes = 2")],
            image: 6,
            fails: &[2],
            came: Came::Read,
            faults: 1,
            ..plain()
        },
        Case {
            changes: &[
                ("nodes = 1", "nodes = 2"),
                ("vcpus", "disk = \"d.img\"\nvcpus"),
            ],
            image: 6,
            fails: &[3],
            came: Came::Image(0, ImageFault::Short),
            ..plain()
        },
        Case {
            changes: &[
                ("nodes = 1", "nodes = 2"),
                ("vcpus", "disk = \"d.img\"\nvcpus"),
            ],
            fails: &[3],
            came: Came::Read,
            faults: 1,
            ..plain()
        },
        refused(
            &[
                ("nodes = 1", "nodes = 2\ncache = 1"),
                ("pages = 16", "pages = 33"),
            ],
            Came::Admission(0, 33, 31),
        ),
        refused(
            &[("nodes = 1", "nodes = 1\ncache = 1")],
            Came::Admission(0, 16, 15),
        ),
        refused(
            &[
                ("nodes = 1", "nodes = 1\ncache = 5"),
                ("frames = 16", "frames = 4"),
            ],
            Came::Cache(0, 5, 4),
        ),
        refused(
            &[("nodes = 1", "nodes = 2"), ("pages = 16", "pages = 33")],
            Came::Admission(0, 33, 32),
        ),
        refused(&[("pages = 16", "pages = 17")], Came::Admission(0, 17, 16)),
    ];
    for case in &rows {
        try_case(&rt, rt.alloc(), case);
    }
}

/// A change of the description: what is replaced, and by what.
type Change<'a> = (&'a str, &'a str);

const DISK: Change<'static> = ("vcpus = 1", "vcpus = 1\ndisk = \"d.img\"");

const IMAGE_AS_DISK: Change<'static> = ("vcpus = 1", "vcpus = 1\ndisk = \"a.raw\"");

const POLICY: Change<'static> = ("[[work]]", "[policy]\nmigrate = 1\nreplicate = 1\n[[work]]");

/// Work that is no run, behind the run.
const FAILS: Change<'static> = (
    "steps = 5",
    "steps = 5\n[[work]]\nact = \"fail\"\nprocessor = 0\ncell = 0",
);

/// A move that is no migration, behind the run.
const COLLAPSES: Change<'static> = (
    "steps = 5",
    "steps = 5\n[[work]]\nact = \"move\"\nprocessor = 0\nguest = 0\npage = 0\nkind = \"collapse\"",
);

/// A migration, behind the run.
const MOVES: Change<'static> = (
    "steps = 5",
    "steps = 5\n[[work]]\nact = \"move\"\nprocessor = 0\nguest = 0\npage = 0\nkind = \"migrate\"\nnode = 0",
);

const INPUT: Change<'static> = (
    "steps = 5",
    "steps = 5\n[[input]]\nguest = 0\nat = 0\ntext = \"x\"",
);

/// A second guest, and a second virtual processor of each.
const GUESTS: Change<'static> = (
    "[[guest]]",
    "[[guest]]\nimage = \"a.raw\"\nform = \"raw\"\npages = 1\nvcpus = 2\nnode = 0\n[[guest]]",
);

/// Two nodes of 4 frames, each a cell; the second one lends two frames.
const CELLS: Change<'static> = (
    "nodes = 1\nframes = 16\nprocessors = [0]",
    "nodes = 2\nframes = 4\nprocessors = [0]\n[[cell]]\nnodes = [0]\n[[cell]]\nnodes = [1]\nlend = 2",
);

const SIX_PAGES: Change<'static> = ("pages = 16", "pages = 6");

const FRAMES: Change<'static> = ("frames = 16", "frames = 17");

const PROCESSORS: Change<'static> = ("processors = [0]", "processors = [0, 0]");

/// Items of each kind are admitted, under the monitor and alone; a cell that fails takes no frames.
#[test]
fn each_act_is_admitted(rt: HostRuntime) {
    let rows = [
        (
            refused(
                &[
                    PROCESSORS,
                    ("nodes = 1", "nodes = 2\ncache = 40"),
                    DISK,
                    POLICY,
                    FAILS,
                ],
                Came::Cache(0, 40, 32),
            ),
            Came::Cache(0, 40, 32),
        ),
        (
            refused(&[DISK, POLICY, FAILS], Came::Monitored(1, true)),
            Came::Alone(1, 1, 1),
        ),
        (
            refused(&[FAILS], Came::Monitored(1, true)),
            Came::Alone(1, 0, 0),
        ),
        (
            refused(&[FAILS, MOVES], Came::Monitored(1, true)),
            Came::Alone(1, 0, 0),
        ),
        (
            refused(&[FAILS, COLLAPSES], Came::Monitored(1, true)),
            Came::Alone(1, 0, 0),
        ),
        (
            refused(&[COLLAPSES, FAILS], Came::Monitored(1, true)),
            Came::Alone(1, 0, 0),
        ),
    ];
    for (case, came) in &rows {
        try_case(&rt, rt.alloc(), case);
        let alone = Case {
            option: "--private",
            came: *came,
            ..*case
        };
        try_case(&rt, rt.alloc(), &alone);
    }
}

/// Several nodes and cells with loans, processors, guests and virtual processors, input and disks.
#[test]
fn descriptions_are_admitted(rt: HostRuntime) {
    let rows = [
        refused(&[PROCESSORS], Came::Monitored(1, true)),
        refused(&[("vcpus = 1", "vcpus = 4")], Came::Monitored(1, true)),
        refused(&[GUESTS, FRAMES], Came::Monitored(2, true)),
        refused(&[GUESTS], Came::Admission(1, 16, 15)),
        refused(
            &[("nodes = 1", "nodes = 2"), ("pages = 16", "pages = 32")],
            Came::Monitored(1, true),
        ),
        refused(&[CELLS, SIX_PAGES], Came::Monitored(1, true)),
        refused(
            &[CELLS, SIX_PAGES, ("pages = 6", "pages = 7")],
            Came::Admission(0, 7, 6),
        ),
        refused(
            &[
                CELLS,
                SIX_PAGES,
                ("node = 0\n[[work]]", "node = 1\n[[work]]"),
            ],
            Came::Admission(0, 6, 4),
        ),
        refused(&[INPUT], Came::Monitored(1, true)),
        refused(&[DISK], Came::Monitored(1, true)),
        Case {
            disk: 4_194_305,
            ..refused(&[DISK], Came::Long)
        },
    ];
    for case in &rows {
        try_case(&rt, rt.alloc(), case);
    }
}

/// Guests alone, and their disks at their limits.
#[test]
fn guests_alone(rt: HostRuntime) {
    let rows = [
        Case {
            came: Came::Alone(1, 0, 0),
            ..plain()
        },
        Case {
            changes: &[DISK],
            disk: 4097,
            came: Came::Alone(1, 1, 2),
            ..plain()
        },
        Case {
            changes: &[DISK],
            disk: 0,
            came: Came::Alone(1, 1, 0),
            ..plain()
        },
        Case {
            changes: &[DISK],
            disk: 4_194_304,
            came: Came::Alone(1, 1, 1024),
            ..plain()
        },
        Case {
            changes: &[DISK],
            disk: 4_194_305,
            came: Came::Long,
            ..plain()
        },
        Case {
            changes: &[("pages = 16", "pages = 17")],
            came: Came::Admission(0, 17, 16),
            ..plain()
        },
        Case {
            changes: &[INPUT],
            came: Came::Alone(1, 0, 0),
            ..plain()
        },
        // The image is the disk too: one read, and each place has its own limit.
        Case {
            changes: &[IMAGE_AS_DISK],
            fails: &[3],
            came: Came::Alone(1, 1, 1),
            ..plain()
        },
        Case {
            changes: &[
                IMAGE_AS_DISK,
                ("pages = 16", "pages = 2048"),
                ("frames = 16", "frames = 2048"),
            ],
            image: 4_194_308,
            fails: &[3],
            came: Came::Long,
            ..plain()
        },
    ];
    for case in &rows {
        let alone = Case {
            option: "--private",
            ..*case
        };
        try_case(&rt, rt.alloc(), &alone);
    }
}

/// Each disk is made once, in the order of the guests.
#[test]
fn disks_in_order(rt: HostRuntime) {
    let alloc = rt.alloc();
    let mut files = FileList::new(alloc);
    must(&rt, files.push(held(&rt, alloc, "m", zeros(&rt, alloc, 4))));
    must(
        &rt,
        files.push(held(&rt, alloc, "d", zeros(&rt, alloc, 4096))),
    );
    must(
        &rt,
        files.push(held(&rt, alloc, "e", zeros(&rt, alloc, 4097))),
    );
    let places = [Some(2), None, Some(1), Some(2)];
    let (disks, numbers) = must(&rt, disks_in(alloc, files.as_slice(), &places));
    let mut blocks = Vec::new(alloc);
    for disk in disks.as_slice() {
        must(&rt, blocks.push(disk.len()));
    }
    assert!(rt; blocks.as_slice() == [2usize, 1].as_slice());
    let expected = [Some(0usize), None, Some(1), Some(0)];
    assert!(rt; numbers.as_slice() == expected.as_slice());
}

/// So many bytes of a litmus file, the reads that fail, and what has to come; of the file's text nothing is asked.
#[derive(Clone, Copy)]
struct LitmusCase<'a> {
    bytes: usize,
    fails: &'a [u64],
    came: Came,
    faults: u64,
}

fn try_litmus<R: Abort>(rt: &R, alloc: Global, case: &LitmusCase) {
    let mut files = FileList::new(alloc);
    must(
        rt,
        files.push(held(rt, alloc, "l", zeros(rt, alloc, case.bytes))),
    );
    let mut shelf = MemShelf::new(
        alloc,
        files,
        CallList::from_vec(must(rt, case.fails.to_vec(alloc))),
    );
    let words = words_of(rt, alloc, &["--litmus", "l"]);
    let came = came_of(admit(alloc, words.as_slice(), &mut shelf));
    let bytes = case.bytes;
    same(rt, came, case.came, ("bytes", bytes));
    same(rt, shelf.faults(), case.faults, ("faults", bytes));
}

#[test]
fn litmus_files(rt: HostRuntime) {
    let cases = [
        LitmusCase {
            bytes: 0,
            fails: &[],
            came: Came::Litmus(0),
            faults: 0,
        },
        LitmusCase {
            bytes: 1_048_576,
            fails: &[],
            came: Came::Litmus(1_048_576),
            faults: 0,
        },
        LitmusCase {
            bytes: 1_048_577,
            fails: &[],
            came: Came::Long,
            faults: 0,
        },
        LitmusCase {
            bytes: 1_048_577,
            fails: &[1],
            came: Came::Read,
            faults: 1,
        },
    ];
    for case in &cases {
        try_litmus(&rt, rt.alloc(), case);
    }
}

/// A text, the words that name it, and what has to come.
#[derive(Clone, Copy)]
struct TextCase<'a> {
    words: &'a [&'a str],
    text: &'a [u8],
    came: Came,
}

fn try_text<R: Abort>(rt: &R, alloc: Global, case: &TextCase) {
    let mut files = FileList::new(alloc);
    must(
        rt,
        files.push(held(rt, alloc, "a", must(rt, case.text.to_vec(alloc)))),
    );
    let mut shelf = MemShelf::new(alloc, files, CallList::from_vec(Vec::new(alloc)));
    let words = words_of(rt, alloc, case.words);
    let came = came_of(admit(alloc, words.as_slice(), &mut shelf));
    let bytes = case.text.len();
    same(rt, came, case.came, ("bytes", bytes));
}

#[test]
fn texts(rt: HostRuntime) {
    let print: &[&str] = &["--asm", "a"];
    let run: &[&str] = &["--asm", "a", "--steps", "1"];
    let cases = [
        TextCase {
            words: print,
            text: b"break\nsync",
            came: Came::Listing(2),
        },
        TextCase {
            words: run,
            text: b"break\nsync",
            came: Came::Monitored(1, false),
        },
        TextCase {
            words: print,
            text: b"break\nsink",
            came: Came::Asm(2),
        },
        TextCase {
            words: run,
            text: b"?",
            came: Came::Asm(1),
        },
    ];
    for case in &cases {
        try_text(&rt, rt.alloc(), case);
    }
}
