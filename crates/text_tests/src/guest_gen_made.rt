//! What is made, against the text and the tables of its format written out.
use crate::telling::must;
use base_words::read_word;
use guest_gen::{Made, MakeFault, make};

/// One guest, one step a run.
const SMALL: &str = "\
    [machine]\nnodes = 4\nframes = 128\nprocessors = [0, 0, 1, 1, 2, 2, 3, 3]\ncache = 8\n\
    [policy]\nmigrate = 64\nreplicate = 32\n\
    [[cell]]\nnodes = [0, 1]\nlend = 64\n\
    [[cell]]\nnodes = [2, 3]\nlend = 64\n\
    [[guest]]\nimage = \"g0.elf\"\npages = 64\nvcpus = 1\nnode = 0\ndisk = \"d0.img\"\n\
    [[work]]\nact = \"run\"\nprocessor = 0\nguest = 0\nvcpu = 0\nsteps = 1\n\
    [[work]]\nact = \"run\"\nprocessor = 1\nguest = 0\nvcpu = 0\nsteps = 1\n\
    [[work]]\nact = \"run\"\nprocessor = 2\nguest = 0\nvcpu = 0\nsteps = 1\n\
    [[work]]\nact = \"run\"\nprocessor = 3\nguest = 0\nvcpu = 0\nsteps = 1\n\
    [[work]]\nact = \"run\"\nprocessor = 4\nguest = 0\nvcpu = 0\nsteps = 1\n\
    [[work]]\nact = \"move\"\nprocessor = 1\nguest = 0\npage = 20\nkind = \"migrate\"\nnode = 1\n\
    [[work]]\nact = \"run\"\nprocessor = 5\nguest = 0\nvcpu = 0\nsteps = 1\n\
    [[work]]\nact = \"run\"\nprocessor = 6\nguest = 0\nvcpu = 0\nsteps = 1\n\
    [[work]]\nact = \"run\"\nprocessor = 7\nguest = 0\nvcpu = 0\nsteps = 1\n\
    [[work]]\nact = \"run\"\nprocessor = 0\nguest = 0\nvcpu = 0\nsteps = 1\n\
    [[work]]\nact = \"run\"\nprocessor = 1\nguest = 0\nvcpu = 0\nsteps = 1\n";

fn word(bytes: &[u8], offset: usize) -> Option<u32> {
    if bytes.len() >= 4 && offset <= bytes.len() - 4 {
        Some(read_word(bytes, offset))
    } else {
        None
    }
}

/// The bytes of the file of a number.
fn file(made: &Made, number: usize) -> &[u8] {
    match made.files.as_slice().get(number) {
        Some(file) => file.bytes.as_slice(),
        None => &[],
    }
}

#[test]
fn refuses_what_is_out_of_range(rt: HostRuntime) {
    for (guests, steps) in [
        (0, 1),
        (5, 1),
        (255, 1),
        (1, 0),
        (1, 400_001),
        (4, u32::MAX),
    ] {
        assert!(rt; matches!(make(rt.alloc(), 0, guests, steps), Err(MakeFault::Range)));
    }
    for (guests, steps) in [(1, 1), (4, 400_000)] {
        assert!(rt; make(rt.alloc(), 0, guests, steps).is_ok());
    }
}

#[test]
fn writes_the_description(rt: HostRuntime) {
    let made = must(&rt, make(rt.alloc(), 3, 1, 1));
    assert!(rt; made.description.as_slice() == SMALL.as_bytes());
    for (guests, steps, length) in [(4, 50_000, 3494), (4, 400_000, 3534), (3, 1, 2555)] {
        let made = must(&rt, make(rt.alloc(), 7, guests, steps));
        assert!(rt; made.description.len() == length);
    }
}

#[test]
fn names_the_files(rt: HostRuntime) {
    let made = must(&rt, make(rt.alloc(), 7, 3, 1));
    let names = ["g0.elf", "g1.elf", "g2.elf", "d0.img"];
    assert!(rt; made.files.len() == 4);
    for (file, name) in made.files.as_slice().iter().zip(names) {
        assert!(rt; file.name.as_str() == name);
    }
}

#[test]
fn makes_the_images(rt: HostRuntime) {
    let made = must(&rt, make(rt.alloc(), 0xFFFF_FFFE, 4, 1));
    let image = file(&made, 1);
    assert!(rt; image.len() == 836);
    #[rattlefmt::skip]
    let words = [
        (0, 0x7F45_4C46), (4, 0x0102_0100), (8, 0), (12, 0), (16, 0x0002_0008), (20, 1), (24, 0xC000_0200), (28, 52), (32, 0), (36, 0),
        (40, 0x0034_0020), (44, 0x0003_0000), (48, 0), (52, 4), (84, 0x7000_0000), (116, 1), (120, 148), (124, 0xC000_0000), (128, 0),
        (132, 688), (136, 688), (140, 7), (144, 4096),
        (148, 0x401A_4000), (148 + 0x24, 0x4200_0018), (148 + 0x28, 0), (148 + 0x17C, 0), (148 + 0x180, 0x401A_4800),
        (148 + 0x190, 0x4200_0018), (148 + 0x194, 0), (148 + 0x1FC, 0), (148 + 0x200, 0x3C10_CFFF), (148 + 0x208, 0x3C11_FFFF),
        (148 + 0x20C, 0x3631_FFFF), (148 + 0x220, 0x4088_5800), (148 + 0x240, 0x2631_3039), (148 + 0x260, 0x328B_03FF),
        (148 + 0x280, 0x240E_0001), (148 + 0x2A0, 0x25EF_0041), (148 + 0x2A8, 0x0800_008E), (148 + 0x2AC, 0),
    ];
    for (offset, expected) in words {
        assert!(rt; word(image, offset) == Some(expected));
    }
    assert!(rt; word(file(&made, 0), 148 + 0x20C) == Some(0x3631_FFFE));
    assert!(rt; word(file(&made, 2), 148 + 0x208) == Some(0x3C11_0000));
    assert!(rt; word(file(&made, 2), 148 + 0x20C) == Some(0x3631_0000));
    assert!(rt; word(file(&made, 3), 148 + 0x20C) == Some(0x3631_0001));
}

#[test]
fn makes_the_disk(rt: HostRuntime) {
    let made = must(&rt, make(rt.alloc(), 7, 1, 1));
    let disk = file(&made, 1);
    assert!(rt; disk.len() == 32_768);
    assert!(rt; word(disk, 0) == Some(0xCC6C_24FB));
    assert!(rt; word(disk, 4 * 8191) == Some(0x5473_768E));
    let wrapped = must(&rt, make(rt.alloc(), 0xFFFF_FFFF, 1, 1));
    assert!(rt; word(file(&wrapped, 1), 0) == Some(0xBE39_B193));
    assert!(rt; word(file(&wrapped, 1), 4) == Some(0));
}
