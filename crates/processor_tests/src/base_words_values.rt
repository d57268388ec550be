//! Pages, sets and the shape of the machine, by values worked out by hand.
use crate::telling::{gave, must, same};
use base_words::{CellId, CellSet, FrameNo, Name, Page, ProcId, ProcSet, Sequence, Shape};

#[test]
fn pages_hold_bytes_and_words(rt: HostRuntime) {
    let alloc = rt.alloc();
    let mut page = gave(&rt, Page::zeroed(alloc));
    page.set_word(4092, 0x1122_3344);
    page.set_byte(1, 0xAB);
    assert!(rt; page.word_at(4092) == 0x1122_3344);
    assert!(rt;
        page.byte_at(4092) == 0x11,
        "the most significant byte stands first"
    );
    assert!(rt; page.byte_at(4095) == 0x44);
    assert!(rt; page.word_at(0) == 0x00AB_0000);
    let mut other = gave(&rt, Page::zeroed(alloc));
    assert!(rt; !other.equals(&page));
    other.copy_from(&page);
    assert!(rt; other.equals(&page));
    assert!(rt; other.bytes().len() == 4096);
    other.fill_from(4094, &[1, 2]);
    assert!(rt; other.word_at(4092) == 0x1122_0102);
}

#[test]
fn sets_have_their_members(rt: HostRuntime) {
    let set = ProcSet::empty()
        .with(ProcId(3))
        .with(ProcId(31))
        .without(ProcId(3));
    assert!(rt; set.has(ProcId(31)));
    assert!(rt; !set.has(ProcId(3)));
    assert!(rt; !set.is_empty());
    assert!(rt; set.without(ProcId(31)).is_empty());
    assert!(rt; CellSet::empty().with(CellId(7)).has(CellId(7)));
}

#[test]
fn frames_lie_node_by_node(rt: HostRuntime) {
    let alloc = rt.alloc();
    let mut cells = Sequence::new(alloc);
    must(&rt, cells.push(CellId(1)));
    must(&rt, cells.push(CellId(0)));
    assert!(rt; cells.len() == 2);
    let shape = Shape {
        nodes: 2,
        frames: 16,
        cells,
    };
    for (frame, node, cell) in [(0, 0, 1), (15, 0, 1), (16, 1, 0), (31, 1, 0)] {
        same(
            &rt,
            shape.node_of(FrameNo(frame)).0,
            node,
            ("node of", frame),
        );
        same(
            &rt,
            shape.cell_of(FrameNo(frame)),
            CellId(cell),
            ("cell of", frame),
        );
    }
}

#[test]
fn names_are_their_texts(rt: HostRuntime) {
    let name = gave(&rt, Name::copy_of(rt.alloc(), "a.raw"));
    assert!(rt; name.as_str() == "a.raw");
}
