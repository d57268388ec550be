use crate::telling::{must, same};
use base_words::{CellId, GuestId, InputList, MoveKind, Name, NodeId, Policy, Ppn, ProcId, VcpuId};
use machine_desc::{GuestSpec, Item, Machine, read};
use std::alloc::Global;
use std::process::Abort;
use std::test::Fail;

// One guest of one vcpu on one node, which runs for five steps.
const P1: &str = "[machine]
nodes = 1
frames = 16
processors = [0]
[[guest]]
image = \"a.raw\"
form = \"raw\"
pages = 16
vcpus = 1
node = 0
[[work]]
act = \"run\"
processor = 0
guest = 0
vcpu = 0
steps = 5
";

// Each table, each act, and each key that may be left out.
const ALL: &str = "[machine]
nodes = 2
frames = 32
processors = [0, 1, 1]
cache = 4
[[cell]]
nodes = [1]
lend = 3
[[cell]]
nodes = [0]
[[guest]]
image = \"a.raw\"
form = \"raw\"
pages = 16
vcpus = 2
node = 1
disk = \"d.img\"
[[guest]]
image = \"b.elf\"
pages = 8
vcpus = 1
node = 0
[policy]
migrate = 64
replicate = 32
[[work]]
act = \"run\"
processor = 1
guest = 0
vcpu = 1
steps = 7
[[work]]
act = \"move\"
kind = \"collapse\"
processor = 2
guest = 1
page = 3
[[work]]
act = \"move\"
kind = \"migrate\"
processor = 0
guest = 0
page = 15
node = 0
[[work]]
act = \"fail\"
processor = 2
cell = 1
[[input]]
guest = 0
at = 9
text = \"b\"
[[input]]
guest = 1
at = 30
text = \"x\"
[[input]]
guest = 0
at = 2
text = \"a\"
[[input]]
guest = 0
at = 9
text = \"c\"
";

// A row for each change of a description: whether of P1, of ALL, or a whole text; what is replaced at
// its first place, and by what, with `~` for the end of a line; and what the answer prints.
const ROWS: &str = "# The grammar of TOML comes first.
P [machine] | [machine | toml
P nodes = 1 | nodes = 1~nodes = 1 | toml
P frames = 16 | frames = 99999999999999999999 | toml
P [machine] | extra = 1~[machine | toml
# The top level: the least unknown key, then each key in order.
P steps = 5 | steps = 5 | ok
P [machine] | extra = 1~[machine] | unknown extra
P [machine] | b = 1~a = 1~[machine] | unknown a
P [machine] | \"a.b\" = 1~[machine] | unknown a.b
P [machine] | zz = 1~[policy] | unknown zz
P [machine] | [policy] | missing machine
W @ | guest = 3~machine = 3~ | kind machine
W @ | [machine]~nodes = 1~frames = 1~processors = [0]~ | missing guest
W @ | cell = 3~[machine]~nodes = 1~frames = 1~processors = [0]~ | kind cell
W @ | cell = []~[machine]~nodes = 1~frames = 1~processors = [0]~ | range cell 0
W @ | cell = [{}, {}, {}, {}, {}, {}, {}, {}, {}]~[machine]~nodes = 1~frames = 1~processors = [0]~ | range cell 9
W @ | cell = [3]~[machine]~nodes = 1~frames = 1~processors = [0]~ | kind cell
P [[guest]] | [guest] | kind guest
W @ | guest = [1]~[machine]~nodes = 1~frames = 1~processors = [0]~ | kind guest
W @ | guest = []~[machine]~nodes = 1~frames = 1~processors = [0]~ | range guest 0
W @ | guest = [{}, {}, {}, {}, {}, {}, {}, {}, {}]~[machine]~nodes = 1~frames = 1~processors = [0]~ | range guest 9
W @ | policy = 1~[machine]~nodes = 1~frames = 1~processors = [0]~[[guest]]~image = \"a\"~pages = 1~vcpus = 1~node = 0~ | kind policy
W @ | work = 1~[machine]~nodes = 1~frames = 1~processors = [0]~[[guest]]~image = \"a\"~pages = 1~vcpus = 1~node = 0~ | kind work
W @ | work = [{}, 1]~[machine]~nodes = 1~frames = 1~processors = [0]~[[guest]]~image = \"a\"~pages = 1~vcpus = 1~node = 0~ | kind work
W @ | input = \"x\"~[machine]~nodes = 1~frames = 1~processors = [0]~[[guest]]~image = \"a\"~pages = 1~vcpus = 1~node = 0~ | kind input
W @ | guest = 1~policy = 1~[machine]~nodes = 1~frames = 1~processors = [0]~ | kind guest
# `machine`.
P frames = 16 | frmes = 16 | unknown machine.frmes
P frames = 16~ |  | missing machine.frames
P nodes = 1~ |  | missing machine.nodes
P processors = [0]~ |  | missing machine.processors
P nodes = 1 | nodes = \"1\" | kind machine.nodes
P nodes = 1 | nodes = 1.0 | kind machine.nodes
P nodes = 1 | nodes = 1979-05-27 | kind machine.nodes
P nodes = 1 | nodes = 0 | range machine.nodes 0
P nodes = 1 | nodes = 9 | range machine.nodes 9
P nodes = 1 | nodes = 8 | ok
P nodes = 1 | nodes = -1 | range machine.nodes -1
P nodes = 1~frames = 16 | nodes = 9 | range machine.nodes 9
P frames = 16 | frames = 0 | range machine.frames 0
P frames = 16 | frames = 4096 | ok
P frames = 16 | frames = 4097 | range machine.frames 4097
P frames = 16 | frames = 9223372036854775807 | range machine.frames 9223372036854775807
P processors = [0] | processors = 0 | kind machine.processors
P processors = [0] | processors = [] | range machine.processors 0
P processors = [0] | processors = [0, 0, 0, 0, 0, 0, 0, 0, 0, 0, 0, 0, 0, 0, 0, 0, 0, 0, 0, 0, 0, 0, 0, 0, 0, 0, 0, 0, 0, 0, 0, 0, 0] | range machine.processors 33
P processors = [0] | processors = [\"0\", 8] | kind machine.processors
P processors = [0] | processors = [0, 8, \"0\"] | range machine.processors 8
P processors = [0] | processors = [-1] | range machine.processors -1
A cache = 4 | cache = 1024 | ok
A cache = 4 | cache = 1025 | range machine.cache 1025
A cache = 4 | cache = true | kind machine.cache
# `cell`.
A steps = 7 | steps = 7 | ok
A lend = 3 | lent = 3 | unknown cell[0].lent
A nodes = [1]~ |  | missing cell[0].nodes
A nodes = [1] | nodes = 1 | kind cell[0].nodes
A nodes = [1] | nodes = [] | range cell[0].nodes 0
A nodes = [1] | nodes = [0, 0, 0, 0, 0, 0, 0, 0, 0] | range cell[0].nodes 9
A nodes = [0] | nodes = [8] | range cell[1].nodes 8
A lend = 3 | lend = \"3\" | kind cell[0].lend
A lend = 3 | lend = 32768 | ok
A lend = 3 | lend = 32769 | range cell[0].lend 32769
# `guest`.
A disk =  | disc =  | unknown guest[0].disc
A image = \"b.elf\"~ |  | missing guest[1].image
A image = \"b.elf\" | image = 3 | kind guest[1].image
A \"b.elf\" | \"\" | range guest[1].image 0
A \"b.elf\" | \"éééééééééééééééééééééééééééééééééééééééééééééééééééééééééééééééééééééééééééééééééééééééééééééééééééééééééééééééééééééééééééééééé\" | range guest[1].image 256
A \"b.elf\" | \"éééééééééééééééééééééééééééééééééééééééééééééééééééééééééééééééééééééééééééééééééééééééééééééééééééééééééééééééééééééééééééééééx\" | ok
A form = \"raw\" | form = \"exe\" | range guest[0].form 3
A form = \"raw\" | form = true | kind guest[0].form
A pages = 16~ |  | missing guest[0].pages
A pages = 16 | pages = 0 | range guest[0].pages 0
A pages = 16 | pages = 2048 | ok
A pages = 16 | pages = 2049 | range guest[0].pages 2049
A vcpus = 2 | vcpus = 4 | ok
A vcpus = 2 | vcpus = 5 | range guest[0].vcpus 5
A vcpus = 2 | vcpus = 0 | range guest[0].vcpus 0
A vcpus = 2 | vcpus = [2] | kind guest[0].vcpus
A vcpus = 2~node = 1 | vcpus = 2~node = 8 | range guest[0].node 8
A \"d.img\" | \"\" | range guest[0].disk 0
A \"d.img\" | 1 | kind guest[0].disk
# `policy`.
A migrate = 64 | migrat = 64 | unknown policy.migrat
A migrate = 64 | migrate = 1000000 | ok
A migrate = 64 | migrate = 1000001 | range policy.migrate 1000001
A replicate = 32 | replicate = -1 | range policy.replicate -1
A replicate = 32 | replicate = 0.5 | kind policy.replicate
# `work`: `act` first, then `kind` of a move, then the unknown keys.
P act = \"run\" | act = \"jump\" | range work[0].act 4
P act = \"run\" | act = \"jump\"~extra = 1 | range work[0].act 4
P act = \"run\"~ | extra = 1~ | missing work[0].act
P act = \"run\" | act = 1 | kind work[0].act
A kind = \"collapse\" | extra = 1 | missing work[1].kind
A kind = \"collapse\" | kind = \"copy\"~extra = 1 | range work[1].kind 4
A kind = \"collapse\" | kind = {} | kind work[1].kind
A kind = \"collapse\" | kind = \"collapse\"~node = 0 | unknown work[1].node
A steps = 7 | steps = 7~kind = \"migrate\" | unknown work[0].kind
A cell = 1~ | cell = 1~guest = 0~ | unknown work[3].guest
A vcpu = 1 | vcpus = 1 | unknown work[0].vcpus
A processor = 1~ |  | missing work[0].processor
A processor = 1 | processor = 32 | range work[0].processor 32
A vcpu = 1 | vcpu = 4 | range work[0].vcpu 4
A steps = 7 | steps = 16000001 | range work[0].steps 16000001
A steps = 7 | steps = 16000000 | ok
A page = 3 | page = 2048 | range work[1].page 2048
A page = 15~node = 0 | page = 15 | missing work[2].node
A page = 15~node = 0 | page = 15~node = 8 | range work[2].node 8
A \"fail\"~processor = 2~cell = 1 | \"fail\"~processor = 2~cell = 8 | range work[3].cell 8
A cell = 1~ |  | missing work[3].cell
# `input`.
A at = 30~text = \"x\" | at = 30~texts = \"x\" | unknown input[1].texts
A at = 30~ |  | missing input[1].at
A at = 30 | at = 16000000 | ok
A at = 30 | at = 16000001 | range input[1].at 16000001
A text = \"x\" | text = 12:30:00 | kind input[1].text
A text = \"x\" | text = \"\" | range input[1].text 0
A guest = 1~at = 30 | guest = 8~at = 30 | range input[1].guest 8
# What is named, in the same order.
P processors = [0] | processors = [1] | names machine.processors 1
A processors = [0, 1, 1] | processors = [0, 7, 6] | names machine.processors 7
A nodes = [1] | nodes = [2] | names cell[0].nodes 2
A nodes = [1] | nodes = [1, 1] | twice cell[0].nodes 1
A nodes = [0] | nodes = [0, 1] | twice cell[1].nodes 1
A nodes = [0] | nodes = [0, 0, 7] | twice cell[1].nodes 0
A nodes = [0] | nodes = [7, 1] | names cell[1].nodes 7
A nodes = 2 | nodes = 4 | names machine.nodes 2
A vcpus = 2~node = 1 | vcpus = 2~node = 2 | names guest[0].node 2
A processor = 1 | processor = 3 | names work[0].processor 3
A vcpu = 1 | vcpu = 2 | names work[0].vcpu 2
A guest = 0~vcpu = 1 | guest = 2~vcpu = 3 | names work[0].guest 2
A page = 3 | page = 8 | names work[1].page 8
A page = 3 | page = 7 | ok
A page = 15~node = 0 | page = 15~node = 2 | names work[2].node 2
A cell = 1~ | cell = 2~ | names work[3].cell 2
A cell = 1~ | cell = 1~[[work]]~act = \"fail\"~processor = 0~cell = 0~[[work]]~act = \"fail\"~processor = 0~cell = 1~ | twice work[5].cell 1
A guest = 1~at = 30 | guest = 2~at = 30 | names input[1].guest 2
# Last the sum of the steps.
P steps = 5 | steps = 16000000~[[work]]~act = \"run\"~processor = 0~guest = 0~vcpu = 0~steps = 1 | steps 16000001
# Two faults at once: which one is told.
A nodes = 2 | nodes = 9~extra = 1 | unknown machine.extra
A [[cell]]~nodes = [1] | [[cell]]~extra = 1~[policy]~extra = 1 | toml
A processors = [0, 1, 1]~cache = 4 | processors = [5]~cache = 4000 | range machine.cache 4000
A nodes = [1]~lend = 3~[[cell]]~nodes = [0] | nodes = [5]~lend = 3~[[cell]]~nodes = [] | range cell[1].nodes 0
A nodes = [1]~lend = 3~[[cell]]~nodes = [0] | nodes = [1]~lend = 3~[[cell]]~nodes = [1] | twice cell[1].nodes 1
A nodes = [0]~[[guest]]~image = \"a.raw\" | nodes = [1]~[[guest]]~image = 1 | kind guest[0].image
A migrate = 64~replicate = 32~[[work]]~act = \"run\" | migrate = true~replicate = true~[[work]]~act = 1 | kind policy.migrate
A vcpu = 1~steps = 7~[[work]]~act = \"move\" | vcpu = 3~steps = 7~[[work]]~act = \"mov\" | range work[1].act 3
A processor = 2~cell = 1~[[input]]~guest = 0 | processor = 3~cell = 3~[[input]]~guest = 7 | names work[3].processor 3
P steps = 5 | steps = 16000000~[[work]]~act = \"run\"~processor = 0~guest = 0~vcpu = 0~steps = 1~[[input]]~guest = 1~at = 0~text = \"x\" | names input[0].guest 1
# Other ways to write the same.
W @ | machine = { nodes = 1, frames = 1, processors = [0] }~guest = [{ image = \"a\", pages = 1, vcpus = 1, node = 0 }]~ | ok
W @ | machine.nodes = 1~machine.frames = 1~machine.processors = [0]~guest = [{ image = \"a\", pages = 1, vcpus = 1, node = 0.0 }]~ | kind guest[0].node
W @ |  | missing machine
";

/// The text with the first place of one part replaced by another.
fn changed(rt: &impl Abort, alloc: Global, text: &str, old: &str, new: &str) -> String {
    match text.split_once(old) {
        Some((front, back)) => must(rt, format!(in alloc; "{front}{new}{back}")),
        None => must(rt, format!(in alloc; "{old} is not there")),
    }
}

/// The answer to a description, as it is printed.
fn answer(rt: &impl Abort, alloc: Global, bytes: &[u8]) -> String {
    match read(alloc, bytes) {
        Ok(_) => must(rt, String::from_str(alloc, "ok")),
        Err(fault) => must(rt, format!(in alloc; "{fault}")),
    }
}

/// The answer to a description prints so.
fn prints(rt: &impl Abort, alloc: Global, bytes: &[u8], want: &str) {
    let got = answer(rt, alloc, bytes);
    assert!(rt; got.as_str() == want);
}

/// A part of a row, with the ends of its lines.
fn lines_of(rt: &impl Abort, alloc: Global, part: &str) -> String {
    let mut text = String::new(alloc);
    for c in part.chars() {
        must(rt, text.push(if c == '~' { '\n' } else { c }));
    }
    text
}

/// The description of a row, and what its answer prints.
fn row<'a>(rt: &impl Abort, alloc: Global, line: &'a str) -> (String, &'a str) {
    let (base, rest) = must(rt, line.split_once(' ').ok_or("a row"));
    let (old, rest) = must(rt, rest.split_once(" | ").ok_or("what is replaced"));
    let (new, want) = must(rt, rest.split_once(" | ").ok_or("by what"));
    let (old, new) = (lines_of(rt, alloc, old), lines_of(rt, alloc, new));
    let text = match base {
        "P" => changed(rt, alloc, P1, old.as_str(), new.as_str()),
        "A" => changed(rt, alloc, ALL, old.as_str(), new.as_str()),
        _ => new,
    };
    (text, want)
}

#[test]
fn first_faults(rt: HostRuntime) {
    let mut rows = 0u32;
    for line in ROWS.lines() {
        if line.starts_with('#') {
            continue;
        }
        let (text, want) = row(&rt, rt.alloc(), line);
        let got = answer(&rt, rt.alloc(), text.as_bytes());
        same(&rt, got.as_str(), want, line);
        rows = rows.saturating_add(1);
    }
    assert!(rt; rows == 144);
}

// A text of so many characters in the place of another.
const LENGTHS: [(&str, char, u32, &str); 5] = [
    ("b.elf", 'é', 128, "range guest[1].image 256"),
    ("b.elf", 'é', 127, "ok"),
    ("b.elf", 'x', 255, "ok"),
    ("x", 'x', 1024, "ok"),
    ("x", 'x', 1025, "range input[1].text 1025"),
];

#[test]
fn lengths_of_texts(rt: HostRuntime) {
    for (old, c, count, want) in &LENGTHS {
        let mut new = String::new(rt.alloc());
        for _ in 0..*count {
            must(&rt, new.push(*c));
        }
        let old = must(&rt, format!(in rt.alloc(); "\"{old}\""));
        let new = must(&rt, format!(in rt.alloc(); "\"{new}\""));
        let text = changed(&rt, rt.alloc(), ALL, old.as_str(), new.as_str());
        prints(&rt, rt.alloc(), text.as_bytes(), *want);
    }
}

/// The cells of a machine's nodes, what each cell lends, its cache, and when pages move.
fn has(
    rt: &impl Abort,
    machine: &Machine,
    cells: &[CellId],
    lends: &[u32],
    cache: u32,
    policy: Policy,
) {
    assert!(rt; machine.shape.cells.as_slice() == cells);
    assert!(rt; machine.lends.as_slice() == lends);
    assert!(rt; machine.cache == cache);
    assert!(rt; machine.policy == policy);
}

/// A guest is shown so.
fn shows(rt: &impl Abort, alloc: Global, guest: &GuestSpec, want: &str) {
    let got = shown(rt, alloc, guest);
    assert!(rt; got.as_str() == want);
}

#[test]
fn all_values(rt: HostRuntime) {
    let (machine, plan) = must(&rt, read(rt.alloc(), ALL.as_bytes()));
    assert!(rt; machine.shape.nodes == 2);
    assert!(rt; machine.shape.frames == 32);
    assert!(rt; machine.processors.as_slice() == [NodeId(0), NodeId(1), NodeId(1)].as_slice());
    let policy = Policy {
        migrate: 64,
        replicate: 32,
    };
    has(&rt, &machine, &[CellId(1), CellId(0)], &[3, 0], 4, policy);
    let items = [
        Item::Run {
            processor: ProcId(1),
            guest: GuestId(0),
            vcpu: VcpuId(1),
            steps: 7,
        },
        Item::Move {
            processor: ProcId(2),
            guest: GuestId(1),
            page: Ppn(3),
            kind: MoveKind::Collapse,
            node: NodeId(0),
        },
        Item::Move {
            processor: ProcId(0),
            guest: GuestId(0),
            page: Ppn(15),
            kind: MoveKind::Migrate,
            node: NodeId(0),
        },
        Item::Fail {
            processor: ProcId(2),
            cell: CellId(1),
        },
    ];
    assert!(rt; plan.items.as_slice() == items.as_slice());
}

/// A guest in one line.
fn shown(rt: &impl Abort, alloc: Global, guest: &GuestSpec) -> String {
    let (image, raw, pages) = (guest.image.as_str(), guest.raw, guest.pages);
    let (vcpus, node) = (guest.vcpus, guest.node.0);
    let disk = guest.disk.as_ref().map_or("none", Name::as_str);
    must(
        rt,
        format!(in alloc; "{image} {raw} {pages} {vcpus} {node} {disk}"),
    )
}

#[test]
fn all_guests(rt: HostRuntime) {
    let (machine, _) = must(&rt, read(rt.alloc(), ALL.as_bytes()));
    let wants = ["a.raw true 16 2 1 d.img", "b.elf false 8 1 0 none"];
    assert!(rt; machine.guests.len() == 2);
    for (guest, want) in machine.guests.as_slice().iter().zip(&wants) {
        shows(&rt, rt.alloc(), guest, *want);
    }
}

/// The input of a guest in one line: `at` and text of each entry.
fn listed(rt: &impl Abort, alloc: Global, list: &InputList) -> String {
    let mut line = String::new(alloc);
    for entry in list.as_slice() {
        let (at, text) = (
            entry.at,
            must(rt, std::str::from_utf8(entry.text.as_slice())),
        );
        must(
            rt,
            line.push_str(must(rt, format!(in alloc; "{at} {text} ")).as_str()),
        );
    }
    line
}

#[test]
fn input_in_order(rt: HostRuntime) {
    let (_, plan) = must(&rt, read(rt.alloc(), ALL.as_bytes()));
    let wants = ["2 a 9 b 9 c ", "30 x "];
    assert!(rt; plan.input.len() == 2);
    for (list, want) in plan.input.as_slice().iter().zip(&wants) {
        assert!(rt; listed(&rt, rt.alloc(), list).as_str() == *want);
    }
}

#[test]
fn defaults(rt: HostRuntime) {
    let text = changed(&rt, rt.alloc(), P1, "nodes = 1", "nodes = 2");
    let text = changed(&rt, rt.alloc(), text.as_str(), "form = \"raw\"\n", "");
    let (machine, plan) = must(&rt, read(rt.alloc(), text.as_bytes()));
    let policy = Policy {
        migrate: 0,
        replicate: 0,
    };
    has(&rt, &machine, &[CellId(0), CellId(0)], &[0], 0, policy);
    for guest in machine.guests.as_slice() {
        shows(&rt, rt.alloc(), guest, "a.raw false 16 1 0 none");
    }
    for list in plan.input.as_slice() {
        assert!(rt; list.len() == 0);
    }
    assert!(rt; plan.input.len() == 1);
}

// A machine with one guest, before its work.
const HEAD: &str = "[machine]
nodes = 1
frames = 16
processors = [0]
[[guest]]
image = \"a\"
pages = 16
vcpus = 1
node = 0
";

/// As much work and input as there may be, with so many pieces of work.
fn long(rt: &impl Abort, alloc: Global, pieces: u32) -> String {
    let mut text = must(rt, String::from_str(alloc, HEAD));
    for _ in 0..pieces {
        must(
            rt,
            text.push_str(
                "[[work]]\nact = \"run\"\nprocessor = 0\nguest = 0\nvcpu = 0\nsteps = 3906\n",
            ),
        );
    }
    for at in 0..1024u32 {
        must(
            rt,
            text.push_str(must(
                rt,
                format!(in alloc; "[[input]]\nguest = 0\nat = {at}\ntext = \""),
            )
            .as_str()),
        );
        for _ in 0..640u32 {
            must(rt, text.push('x'));
        }
        must(rt, text.push_str("\"\n"));
    }
    text
}

#[test]
fn long_descriptions(rt: HostRuntime) {
    for (pieces, want) in &[(4096, "ok"), (4097, "range work 4097")] {
        let text = long(&rt, rt.alloc(), *pieces);
        prints(&rt, rt.alloc(), text.as_bytes(), *want);
    }
}

#[test]
fn hostile_bytes(rt: HostRuntime) {
    prints(&rt, rt.alloc(), b"a = \"\xff\"", "toml");
    let mut brackets = must(&rt, String::from_str(rt.alloc(), "a = "));
    for _ in 0..1_048_572u32 {
        must(&rt, brackets.push('['));
    }
    prints(&rt, rt.alloc(), brackets.as_bytes(), "toml");
    let mut keys = String::new(rt.alloc());
    for i in 0..10_000u32 {
        must(
            &rt,
            keys.push_str(must(&rt, format!(in rt.alloc(); "k{i} = 1\n")).as_str()),
        );
    }
    prints(&rt, rt.alloc(), keys.as_bytes(), "unknown k0");
}
