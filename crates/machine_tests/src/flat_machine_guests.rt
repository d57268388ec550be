//! Small guests: how they are written down, and what they print and send. Register 1 is the device page, register 6 the guest's
//! page 1.
ghost use Rattle.std.specs.Prelude.{◌≡◌, ◌<◌, ◌≤◌, length};

use crate::telling::{gave, holds, must, same};
use base_words::{
    Blocks, Bytes, GuestId, InputEntry, InputList, OwnEvent, Page, SentPacket, VcpuId,
};
use elf_image::{Image, load_raw};
use flat_machine::Flat;
use std::alloc::Global;
use std::process::Abort;

/// LUI 1, CFFF; ORI 1, 1, F000; LUI 6, C000; ORI 6, 6, 1000.
const START: [u32; 4] = [0x3C01_CFFF, 0x3421_F000, 0x3C06_C000, 0x34C6_1000];

/// What stands behind the start, and at the general vector.
const PROGRAM: usize = 0x10;

const VECTOR: usize = 0x180;

/// The pages of each guest.
const PAGES: u32 = 3;

/// What happens to a guest.
#[derive(Clone, Copy)]
pub enum Happens<'a> {
    /// A virtual processor makes so many steps.
    Steps(u8, u32),
    /// A packet comes from guest 3 into the page that is armed.
    Packet(&'a [u8]),
}

/// A guest, what happens to it, and what it prints and sends.
#[derive(Clone, Copy)]
pub struct Row<'a> {
    pub about: &'a str,
    pub vcpus: u8,
    pub profile: u8,
    pub program: &'a [u32],
    pub vector: &'a [u32],
    /// The first bytes of its disk's one block; no disk where there are none.
    pub disk: &'a [u8],
    pub input: &'a [(u64, &'a str)],
    pub happens: &'a [Happens<'a>],
    pub console: &'a [u8],
    /// Each packet's receiver, how many bytes it has, and the first of them.
    pub sent: &'a [(u32, usize, &'a [u8])],
}

/// A guest that makes 40 steps.
pub fn steps_40<'a>() -> Row<'a>
    ensures { length result.disk.now ≤ 4096 }
{
    Row {
        about: "",
        vcpus: 1,
        profile: 1,
        program: &[],
        vector: &[],
        disk: &[],
        input: &[],
        happens: &[Happens::Steps(0, 40)],
        console: &[],
        sent: &[],
    }
}

/// A file of words, each part from a place on, with zeros between them.
fn file_of(rt: &impl Abort, alloc: Global, parts: &[(usize, &[u32])]) -> Vec<u8> {
    let mut file = Vec::new(alloc);
    for (at, words) in parts {
        must(rt, file.resize(*at, 0u8));
        for word in *words {
            must(rt, file.extend_from_slice(&word.to_be_bytes()));
        }
    }
    file
}

/// The image of a guest.
fn image_of(rt: &impl Abort, alloc: Global, row: &Row) -> Image {
    let parts = [
        (0, START.as_slice()),
        (PROGRAM, row.program),
        (VECTOR, row.vector),
    ];
    let file = file_of(rt, alloc, &parts);
    must(rt, load_raw(alloc, &file, PAGES))
}

/// The input of a guest.
fn input_of(rt: &impl Abort, alloc: Global, row: &Row) -> InputList {
    let mut input = InputList::new(alloc);
    for (at, text) in row.input {
        must(
            rt,
            input.push(InputEntry {
                at: *at,
                text: Bytes::from_vec(gave(rt, text.as_bytes().to_vec(alloc))),
            }),
        );
    }
    input
}

/// A disk of one block, which begins with these bytes.
fn disk_of(rt: &impl Abort, alloc: Global, bytes: &[u8]) -> Blocks
    requires { length bytes.now ≤ 4096 }
{
    let mut page = gave(rt, Page::zeroed(alloc));
    page.fill_from(0, bytes);
    let mut disk = Blocks::new(alloc);
    must(rt, disk.push(page));
    disk
}

/// A guest at its start.
pub fn boot(rt: &impl Abort, alloc: Global, row: &Row) -> Flat
    requires some { 0 < row.now.vcpus }
    requires disk { length row.now.disk.now ≤ 4096 }
    ensures { length result.vcpus ≡ row.now.vcpus }
{
    let image = image_of(rt, alloc, row);
    let input = input_of(rt, alloc, row);
    if row.disk.is_empty() {
        gave(
            rt,
            Flat::boot(alloc, &image, row.vcpus, row.profile, None, &input),
        )
    } else {
        let disk = disk_of(rt, alloc, row.disk);
        gave(
            rt,
            Flat::boot(alloc, &image, row.vcpus, row.profile, Some(&disk), &input),
        )
    }
}

/// A virtual processor makes so many steps.
pub fn make_steps(rt: &impl Abort, flat: &mut Flat, vcpu: u8, count: u32)
    requires { vcpu < length flat.old.vcpus }
    ensures { length flat.new.vcpus ≡ length flat.old.vcpus }
{
    gave(rt, flat.run(VcpuId(vcpu), u64::from(count)))
}

/// Lets something happen to a guest of so many virtual processors.
fn let_happen(rt: &impl Abort, alloc: Global, flat: &mut Flat, vcpus: u8, happens: Happens)
    requires { length flat.old.vcpus ≡ vcpus }
    ensures { length flat.new.vcpus ≡ vcpus }
{
    match happens {
        Happens::Steps(vcpu, count) => {
            assert!(rt; vcpu < vcpus);
            make_steps(rt, flat, vcpu, count)
        }
        Happens::Packet(bytes) => {
            assert!(rt; !bytes.is_empty() && bytes.len() <= 4096);
            assert!(rt; flat.armed().is_some());
            let bytes = Bytes::from_vec(gave(rt, bytes.to_vec(alloc)));
            let from = GuestId(3);
            gave(rt, flat.own_event(&OwnEvent::Packet { from, bytes }))
        }
    }
}

/// Compares the packets that were sent with those of a row.
fn compare_sent(rt: &impl Abort, sent: &[SentPacket], row: &Row) {
    let about = row.about;
    same(rt, sent.len(), row.sent.len(), ("sent of", about));
    for (packet, (to, length, first)) in sent.iter().zip(row.sent) {
        same(rt, packet.to, *to, ("receiver of", about));
        same(rt, packet.bytes.len(), *length, ("length of", about));
        holds(
            rt,
            packet.bytes.as_slice().starts_with(*first),
            ("bytes of", about),
        );
    }
}

/// Compares what was printed with that of a row.
fn compare_console(rt: &impl Abort, console: &[u8], row: &Row) {
    let about = row.about;
    same(rt, console, row.console, ("console of", about));
}

/// Lets happen what a row says, and compares what was printed and sent.
pub fn try_row(rt: &impl Abort, alloc: Global, row: &Row) {
    assert!(rt; row.vcpus > 0 && row.disk.len() <= 4096);
    let mut flat = boot(rt, alloc, row);
    for happens in row.happens {
        let_happen(rt, alloc, &mut flat, row.vcpus, *happens);
    }
    compare_console(rt, flat.console(), row);
    compare_sent(rt, flat.sent(), row);
    compare_console(rt, flat.into_console().as_slice(), row);
}
