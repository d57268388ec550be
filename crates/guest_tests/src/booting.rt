//! How the guests of a description are booted.
ghost use Rattle.std.specs.Prelude.{◌≡◌, ◌<◌, ◌*◌, ℕ, [], IfOk, IfSome, None, Some, length, map, slice_get, slice_index_or};
ghost use Rattle.frame_words.specs.Holders.{IsMade};
ghost use Rattle.node_frames.specs.Layout.{layout_of};
ghost use Rattle.machine_desc.specs.Accepted.{IsDescribed};
ghost use Rattle.guest_boot.specs.Starting.{AreSources, AreServed};
ghost use Rattle.guest_tests.specs.Ready.{HasSize, IsReady, AreReady};

use crate::guest_lock_turns::Started;
use crate::lane::{Lane, Size};
use crate::pair::Pair;
use crate::telling::gave;
use block_caches::Caches;
use frame_words::{FrameTable, Holder};
use guest_boot::{Booted, SourceList, boot, sources_are_their_guests};
use guest_cases::described;
use guest_core::Guest;
use machine_desc::{Machine, Plan};
use shootdown::ProcToken;
use std::alloc::{AllocError, Global};
use std::process::Abort;
use wire_queue::Wires;

/// Two guests of three pages and one virtual processor each on one node, and a processor for each.
const TWO_GUESTS: &str = r#"
[machine]
nodes = 1
frames = 6
processors = [0, 0]
[[cell]]
nodes = [0]
lend = 0
[[guest]]
image = "first.raw"
form = "raw"
pages = 3
vcpus = 1
node = 0
[[guest]]
image = "second.raw"
form = "raw"
pages = 3
vcpus = 1
node = 0
"#;

/// The same guests on the first of two nodes, which they fill; the second processor is of the other node.
pub(crate) const ON_TWO_NODES: &str = r#"
[machine]
nodes = 2
frames = 6
processors = [0, 1]
[[cell]]
nodes = [0, 1]
lend = 0
[[guest]]
image = "first.raw"
form = "raw"
pages = 3
vcpus = 1
node = 0
[[guest]]
image = "second.raw"
form = "raw"
pages = 3
vcpus = 1
node = 0
"#;

/// The same guests on the first of two nodes, of which the second one has the processors; a page that a processor misses twice gets a
/// replica there.
pub(crate) const FAR_FROM_HOME: &str = r#"
[machine]
nodes = 2
frames = 6
processors = [1, 1]
[[cell]]
nodes = [0, 1]
lend = 0
[policy]
replicate = 2
[[guest]]
image = "first.raw"
form = "raw"
pages = 3
vcpus = 1
node = 0
[[guest]]
image = "second.raw"
form = "raw"
pages = 3
vcpus = 1
node = 0
"#;

/// Two guests of four pages each on the first of three nodes, of which each is a cell and the third one has the processors; the second
/// lends a frame.
pub(crate) const ON_THREE_CELLS: &str = r#"
[machine]
nodes = 3
frames = 8
processors = [2, 2]
[[cell]]
nodes = [0]
[[cell]]
nodes = [1]
lend = 1
[[cell]]
nodes = [2]
[[guest]]
image = "first.raw"
form = "raw"
pages = 4
vcpus = 1
node = 0
[[guest]]
image = "second.raw"
form = "raw"
pages = 4
vcpus = 1
node = 0
"#;

/// Two guests of three pages each with one disk, on a node with a processor for each, whose cell keeps a block.
pub(crate) const WITH_A_BLOCK: &str = r#"
[machine]
nodes = 1
frames = 7
processors = [0, 0]
cache = 1
[[cell]]
nodes = [0]
lend = 0
[[guest]]
image = "first.raw"
form = "raw"
pages = 3
vcpus = 1
node = 0
disk = "d.img"
[[guest]]
image = "second.raw"
form = "raw"
pages = 3
vcpus = 1
node = 0
disk = "d.img"
"#;

/// The size of a guest on a machine; none where there is no such guest.
fn size_at(machine: &Machine, number: usize) -> Option<Size>
    ensures { IfSome result (λ size. HasSize machine.now number size.vcpus size.pages size.nodes) }
{
    let spec = machine.guests.as_slice().get(number)?;
    Some(Size {
        vcpus: spec.vcpus,
        pages: spec.pages,
        nodes: machine.shape.nodes,
    })
}

/// The first two of each; none where there are fewer.
fn first_two<A: Drop, B: Drop>(some: Vec<A>, others: Vec<B>) -> Option<((A, B), (A, B))>
    ensures first { IfSome result (λ two. (slice_get some.items 0 ≡ Some two.0.0) × (slice_get others.items 0 ≡ Some two.0.1)) }
    ensures second { IfSome result (λ two. (slice_get some.items 1 ≡ Some two.1.0) × (slice_get others.items 1 ≡ Some two.1.1)) }
{
    let mut some = some.into_iter();
    let mut others = others.into_iter();
    let first = (some.next()?, others.next()?);
    let second = (some.next()?, others.next()?);
    Some((first, second))
}

/// A guest at its start, with the token of its processor and its size.
#[derive(Drop)]
struct ReadyGuest {
    guest: Guest,
    token: ProcToken,
    size: Size,
}

/// Two guests at their starts, and what they share.
#[derive(Drop)]
struct TwoReady {
    table: FrameTable,
    wires: Wires,
    caches: Caches,
    holder: Holder,
    frames: u32,
    first: ReadyGuest,
    second: ReadyGuest,
}

/// Boots the guests of a description.
fn booted(
    alloc: Global,
    machine: &Machine,
    plan: &Plan,
    sources: SourceList,
) -> Result<Booted, AllocError>
    requires described { IsDescribed machine.now plan.now }
    requires served { AreServed (layout_of machine.now.shape) machine.now.lends machine.now.cache machine.now.guests }
    requires sources { AreSources machine.now.guests sources }
    ensures ready { IfOk result (λ b. AreReady machine.now b.guests.items b.tokens (record { table = b.table; wires = b.wires; indexes = b.caches.indexes.items })) }
    ensures made { IfOk result (λ b. IsMade b.table b.holder) }
    ensures frames { IfOk result (λ b. b.table.terms.frames ≡ machine.now.shape.nodes * machine.now.shape.frames) }
{
    sources_are_their_guests();
    boot(alloc, machine, plan, sources)
}

/// How many frames a machine has.
fn frames_of(machine: &Machine, plan: &Plan) -> u32
    requires { IsDescribed machine.now plan.now }
    ensures { result ≡ machine.now.shape.nodes * machine.now.shape.frames }
{
    let _ = plan;
    u32::from(machine.shape.nodes) * machine.shape.frames
}

/// The first two guests of those that were booted, which have these sizes; none where there are fewer.
fn two_of(
    machine: &Machine,
    booted: Booted,
    frames: u32,
    one: Size,
    other: Size,
) -> Option<TwoReady>
    requires made { IsMade booted.table booted.holder }
    requires frames { booted.table.terms.frames ≡ frames }
    requires ready { AreReady machine.now booted.guests.items booted.tokens (record { table = booted.table; wires = booted.wires; indexes = booted.caches.indexes.items }) }
    requires first { HasSize machine.now 0 one.vcpus one.pages one.nodes }
    requires second { HasSize machine.now 1 other.vcpus other.pages other.nodes }
    ensures first { IfSome result (λ two. IsReady two.first.size.vcpus two.first.size.pages two.first.size.nodes (record { table = two.table; wires = two.wires; indexes = two.caches.indexes.items }) 0 two.first.guest two.first.token) }
    ensures second { IfSome result (λ two. IsReady two.second.size.vcpus two.second.size.pages two.second.size.nodes (record { table = two.table; wires = two.wires; indexes = two.caches.indexes.items }) 1 two.second.guest two.second.token) }
    ensures made { IfSome result (λ two. IsMade two.table two.holder) }
    ensures frames { IfSome result (λ two. two.table.terms.frames ≡ two.frames) }
{
    let _ = machine;
    let Booted {
        guests,
        tokens,
        table,
        holder,
        wires,
        caches,
    } = booted;
    let (first, second) = first_two(guests, tokens.into_vec())?;
    Some(TwoReady {
        table,
        wires,
        caches,
        holder,
        frames,
        first: ReadyGuest {
            guest: first.0,
            token: first.1,
            size: one,
        },
        second: ReadyGuest {
            guest: second.0,
            token: second.1,
            size: other,
        },
    })
}

/// The two guests of a description at their starts.
fn two_ready(rt: &impl Abort, alloc: Global, text: &str, first: &[u32], second: &[u32]) -> TwoReady
    ensures first { IsReady result.first.size.vcpus result.first.size.pages result.first.size.nodes (record { table = result.table; wires = result.wires; indexes = result.caches.indexes.items }) 0 result.first.guest result.first.token }
    ensures second { IsReady result.second.size.vcpus result.second.size.pages result.second.size.nodes (record { table = result.table; wires = result.wires; indexes = result.caches.indexes.items }) 1 result.second.guest result.second.token }
    ensures made { IsMade result.table result.holder }
    ensures frames { result.table.terms.frames ≡ result.frames }
{
    let (machine, plan, sources) = gave(rt, described(alloc, text, first, second));
    let (Some(one), Some(other)) = (size_at(&machine, 0), size_at(&machine, 1)) else {
        panic!(rt; "the guests are not there");
    };
    let Ok(booted) = booted(alloc, &machine, &plan, sources) else {
        panic!(rt; "no memory is left");
    };
    let frames = frames_of(&machine, &plan);
    let Some(two) = two_of(&machine, booted, frames, one, other) else {
        panic!(rt; "fewer were booted");
    };
    two
}

/// Each guest with the token of its processor, for calls without a lock.
fn pair_of(two: TwoReady) -> Pair
    requires first { IsReady two.first.size.vcpus two.first.size.pages two.first.size.nodes (record { table = two.table; wires = two.wires; indexes = two.caches.indexes.items }) 0 two.first.guest two.first.token }
    requires second { IsReady two.second.size.vcpus two.second.size.pages two.second.size.nodes (record { table = two.table; wires = two.wires; indexes = two.caches.indexes.items }) 1 two.second.guest two.second.token }
    requires made { IsMade two.table two.holder }
    requires frames { two.table.terms.frames ≡ two.frames }
{
    Pair {
        table: two.table,
        wires: two.wires,
        caches: two.caches,
        holder: two.holder,
        frames: two.frames,
        first: Lane::new(two.first.guest, two.first.token, two.first.size),
        second: Lane::new(two.second.guest, two.second.token, two.second.size),
    }
}

/// The first guest, for calls under a lock.
fn started_of(two: TwoReady) -> Started
    requires { IsReady two.first.size.vcpus two.first.size.pages two.first.size.nodes (record { table = two.table; wires = two.wires; indexes = two.caches.indexes.items }) 0 two.first.guest two.first.token }
{
    let TwoReady {
        table,
        wires,
        caches,
        holder: _,
        frames: _,
        first: ReadyGuest {
            guest,
            token,
            size: _,
        },
        second: _,
    } = two;
    Started {
        guest,
        token,
        table,
        wires,
        caches,
    }
}

/// The two guests at their starts, each with the token of its processor.
pub(crate) fn two_guests(rt: &impl Abort, alloc: Global, first: &[u32], second: &[u32]) -> Pair {
    guests_of(rt, alloc, TWO_GUESTS, first, second)
}

/// The same of a description of two guests.
pub(crate) fn guests_of(
    rt: &impl Abort,
    alloc: Global,
    text: &str,
    first: &[u32],
    second: &[u32],
) -> Pair {
    let two = two_ready(rt, alloc, text, first, second);
    pair_of(two)
}

/// The first of two guests at its start, with this program, and what it shares with the other one.
pub(crate) fn first_guest(rt: &impl Abort, alloc: Global, program: &[u32]) -> Started {
    let two = two_ready(rt, alloc, TWO_GUESTS, program, program);
    started_of(two)
}
