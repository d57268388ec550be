//! Values worked out by hand: a place is the page number's low 9 bits, and pages whose numbers share the low 6 bits share marks.
use l2_tlb::{L2, L2Entry, Ppn};

/// An entry of address space 0 that is not global and grants a store.
fn plain(vpn: u32, page: u32) -> L2Entry {
    L2Entry {
        vpn,
        asid: 0,
        global: false,
        page: Ppn(page),
        store: true,
    }
}

/// A table with an entry for each pair of a virtual page and a page.
fn with_entries(entries: &[(u32, u32)]) -> L2 {
    let mut table = L2::new();
    for (vpn, page) in entries {
        table.put(plain(*vpn, *page));
    }
    table
}

#[test]
fn the_last_entry_has_the_place(rt: HostRuntime) {
    let mut table = L2::new();
    table.put(plain(1, 7));
    assert!(rt; table.get(1, 0) == Some(plain(1, 7)));
    table.put(plain(513, 8)); // 513 is 512 and 1
    assert!(rt; table.get(1, 0).is_none());
    assert!(rt; table.get(513, 0) == Some(plain(513, 8)));
}

#[test]
fn lookups(rt: HostRuntime) {
    let rows = [
        (5, 3, false, 5, 3, true), // the same page and address space
        (5, 3, false, 5, 4, false), // another address space
        (5, 3, true, 5, 4, true), // of all address spaces
        (5, 3, true, 517, 3, false), // 517 is 512 and 5: another page in the place
        (5, 3, true, 4, 3, false), // another place
        (511, 255, false, 511, 255, true), // the last place
        (0xF_FFFF, 0, false, 0xF_FFFF, 0, true), // the last virtual page
        (0xFFFF_FFFF, 0, false, 0xF_FFFF, 0, false), // the same low 20 bits
    ];
    for (vpn, asid, global, sought, space, found) in rows {
        let entry = L2Entry {
            vpn,
            asid,
            global,
            page: Ppn(9),
            store: false,
        };
        let mut table = L2::new();
        assert!(rt; table.get(sought, space).is_none());
        table.put(entry);
        assert!(rt; table.get(sought, space) == found.then_some(entry));
    }
}

#[test]
fn a_page_goes(rt: HostRuntime) {
    // two in the first group of 16 places, one in the second, one in the last place
    let kept = [(0, 6), (1, 69), (17, 69), (510, 6)];
    let gone = [(2, 5), (15, 5), (16, 5), (511, 5)];
    let mut table = with_entries(&kept);
    for (vpn, page) in gone {
        table.put(plain(vpn, page));
    }
    table.drop_page(Ppn(5));
    for (vpn, page) in kept {
        assert!(rt; table.get(vpn, 0) == Some(plain(vpn, page)));
    }
    for (vpn, _) in gone {
        assert!(rt; table.get(vpn, 0).is_none());
    }
    table.drop_page(Ppn(69)); // 69 is 64 and 5
    let rows = [(0, true), (1, false), (17, false), (510, true)];
    for (vpn, stays) in rows {
        assert!(rt; table.get(vpn, 0).is_some() == stays);
    }
}

#[test]
fn a_page_that_was_put_again_goes_again(rt: HostRuntime) {
    let mut table = with_entries(&[(3, 5)]);
    table.put(plain(515, 6)); // the same place
    table.drop_page(Ppn(5));
    assert!(rt; table.get(515, 0) == Some(plain(515, 6)));
    table.put(plain(3, 5));
    table.drop_page(Ppn(5));
    assert!(rt; table.get(3, 0).is_none());
}

/// A pair, and virtual pages that stay and that go with it.
type PairRow = (u32, &'static [u32], &'static [u32]);

#[test]
fn a_pair_goes(rt: HostRuntime) {
    let rows: [PairRow; 6] = [
        (0, &[2, 511], &[0, 1]), // pages 0 and 1
        (1, &[1, 4, 515], &[2]), // pages 2 and 3; 515 has the place of 3
        (256, &[0, 3], &[513]), // 512 and 513; 512 and 0 share a place
        (0x7FFF_FFFF, &[0, 510], &[0xFFFF_FFFF]), // FFFFFFFE and FFFFFFFF
        (0x8000_0000, &[0, 1], &[]), // past the last page number
        (0xFFFF_FFFF, &[510, 511], &[]), // past the last page number
    ];
    for (vpn2, kept, gone) in rows {
        let mut table = L2::new();
        for vpn in kept.iter().chain(gone) {
            table.put(plain(*vpn, 9));
        }
        table.drop_pair(vpn2);
        for vpn in kept {
            assert!(rt; table.get(*vpn, 0) == Some(plain(*vpn, 9)));
        }
        for vpn in gone {
            assert!(rt; table.get(*vpn, 0).is_none());
        }
    }
}

#[test]
fn all_go(rt: HostRuntime) {
    let mut table = with_entries(&[(0, 1), (511, 2), (300, 3)]);
    table.clear();
    for vpn in [0, 511, 300] {
        assert!(rt; table.get(vpn, 0).is_none());
    }
}
